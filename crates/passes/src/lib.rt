// What a record does to the state and the tables of a pass over an archive, by its effect; and the slots that a pass remembers for the entries of the
// tables.
#![tactic(auto)]

ghost use Rattle.std.specs.Prelude.{◌≡◌, ◌^◌, ◌<◌, ◌≤◌};
ghost use Rattle.records.specs.Effect.{effect_of};
ghost use Rattle.tables.specs.Models.Entries.{FormatFits};
ghost use Rattle.effects.specs.Models.Bounds.{EffectFits};
ghost use Rattle.tables.specs.Table.{table_words};
ghost use Rattle.tally.specs.Models.Tally.{Wide};
ghost use Rattle.tally.specs.Models.Slots.{slot_word};
ghost use Rattle.passes.specs.Models.Follow.{after_record, tables_after};
ghost use Rattle.passes.specs.Models.Memory.{registered_slot, renewed, RenewFits, recalled, noted};

use contexts::State;
use format::{Format, Reference};
use records::{Content, Effect};

// The record that ends at `next` is passed: the state to go on from, or the number, as of `effects::follow`, that the pass is stopped by.
pub fn follow(
    f: Format,
    tables: &mut [u32],
    s: State,
    content: Content,
    next: usize,
) -> Result<State, u8>
    requires { FormatFits f × (s.count ≤ 8) × (s.current ≤ 8) × (s.place < 2 ^ 32) × EffectFits f (effect_of content) }
    ensures value { result ≡ after_record s content next }
    ensures tables_after { tables.new ≡ tables_after f tables.old s content }
{
    let effect = effects::effect_of(content);
    effects::apply(tables, effects::change_of(f, s, effect));
    effects::follow(s, effect, next)
}

// The slot of the bytes that a record registers, where they have one.
#[tactic(auto, unfolding(crate::specs::Models::Memory::registered_slot))]
fn registered_slot(
    f: Format,
    archive: &[u8],
    slots: &[u32],
    context: usize,
    table: u64,
    place: usize,
    length: usize,
) -> Option<usize>
    requires { FormatFits f × Wide (table_words f) slots.now × (context ≤ 8) × (2 ≤ table) × (table ≤ 3) × (length < 65536) }
    ensures { (result ≡ registered_slot f archive.now slots.now context table place length) × (slot_word result < 2 ^ 32) }
{
    if length == 0 {
        return None;
    }
    let label = tally::label_of(context, table, length);
    tally::slot_of(archive, slots, tables::table_words(f), place, label)
}

// Where a record sets an entry of the tables, the slot of its bytes is remembered for it, and what was remembered is forgotten.
#[tactic(auto, unfolding(crate::specs::Models::Memory::renewed_by))]
pub fn renew(f: Format, archive: &[u8], slots: &mut [u32], s: State, content: Content)
    requires { FormatFits f × Wide (table_words f) slots.old × (s.current ≤ 8) × RenewFits f (effect_of content) }
    ensures { slots.new ≡ renewed f archive.now slots.old s content }
{
    let context = s.current;
    let effect = effects::effect_of(content);
    if let Effect::Register {
        table,
        index,
        place,
        length,
    } = effect
    {
        let entry = tables::position_of(f, context, table, index);
        let slot = registered_slot(f, archive, slots, context, table, place, length);
        tally::remember(slots, tables::table_words(f), entry, slot);
    }
}

// The slot that is remembered for what a reference names. The table stays a number, since this answers for any.
#[tactic(auto, unfolding(crate::specs::Models::Memory::recalled))]
pub fn recall(
    f: Format,
    slots: &[u32],
    context: usize,
    table: u64,
    reference: Reference,
) -> Option<usize>
    requires { FormatFits f × Wide (table_words f) slots.now × (context ≤ 8) }
    ensures { result ≡ recalled f slots.now context table reference }
{
    match reference {
        Reference::Inline {
            place: _,
            length: _,
        } => None,
        Reference::Index(index) => {
            if tables::highest_of(f, table) < index {
                return None;
            }
            let own = tables::position_of(f, context, table, index);
            tally::remembered(slots, tables::table_words(f), own)
        }
    }
}

// Remembers a slot, or none, for what a reference names; nothing is remembered for what stands inline.
#[tactic(auto, unfolding(crate::specs::Models::Memory::noted))]
pub fn note(
    f: Format,
    slots: &mut [u32],
    context: usize,
    table: u64,
    reference: Reference,
    slot: Option<usize>,
)
    requires { FormatFits f × Wide (table_words f) slots.old × (context ≤ 8) × (slot_word slot < 2 ^ 32) }
    ensures { slots.new ≡ noted f slots.old context table reference slot }
{
    match reference {
        Reference::Inline {
            place: _,
            length: _,
        } => {}
        Reference::Index(index) => {
            if index <= tables::highest_of(f, table) {
                let at = tables::position_of(f, context, table, index);
                tally::remember(slots, tables::table_words(f), at, slot);
            }
        }
    }
}
