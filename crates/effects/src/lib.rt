// The effect of a record, and what it makes of the state and of the tables: the reader's step and both passes of a repack follow
// it. Assumes that the state names one of nine contexts, and that what is registered has an index of its table.
#![tactic(auto)]

ghost use Rattle.std.specs.Prelude.{◌≡◌, ◌^◌, ◌<◌, ◌≤◌};
ghost use Rattle.records.specs.Effect.{effect_of};
ghost use Rattle.tables.specs.Models.Entries.{FormatFits};
ghost use Rattle.effects.specs.Follow.{followed, change_of, changed};
ghost use Rattle.effects.specs.Models.Bounds.{EffectFits};

use contexts::State;
use format::{Format, Reason};
use records::{Content, Effect};

// What a record does to the tables.
#[derive(Clone, Copy)]
pub enum Change {
    Keep,
    Set { position: usize, entry: u32 },
}

// What a record does to the state and the tables.
pub fn effect_of(content: Content) -> Effect
    ensures { result ≡ effect_of content }
{
    match content {
        Content::Refused(number) => Effect::Stop(number),
        Content::ProviderInfo {
            id,
            place: _,
            length: _,
        } => Effect::Enter { id },
        Content::Section { id } => Effect::Enter { id },
        Content::Initialization { rate } => Effect::SetRate { rate },
        Content::String {
            index,
            place,
            length,
        } => Effect::Register {
            table: 2,
            index,
            place,
            length,
        },
        Content::Thread { index, place } => Effect::Register {
            table: 3,
            index,
            place,
            length: 16,
        },
        Content::Magic => Effect::Pass,
        Content::ProviderEvent { id: _, event: _ } => Effect::Pass,
        Content::Report(_) => Effect::Pass,
        Content::Ignored => Effect::Pass,
        Content::Skipped {
            record_type: _,
            size: _,
        } => Effect::Pass,
    }
}

// The state to go on from after a record that ends at `next`, or the number of what the record stops the reading by: a number, not
// a Reason, since this answers for any; 0 stops nothing.
pub fn follow(s: State, effect: Effect, next: usize) -> Result<State, u8>
    requires { s.count ≤ 8 }
    ensures { result ≡ followed s effect next }
{
    match effect {
        Effect::Stop(0) => Ok(s),
        Effect::Stop(number) => Err(number),
        Effect::Enter { id } => contexts::enter(s, id, next).ok_or(Reason::NinthProvider.number()),
        Effect::SetRate { rate } => Ok(contexts::set_rate(s, rate, next)),
        Effect::Register {
            table: _,
            index: _,
            place: _,
            length: _,
        } => Ok(contexts::move_to(s, next)),
        Effect::Pass => Ok(contexts::move_to(s, next)),
    }
}

// What a record does to the tables, in the context and at the place of the state.
pub fn change_of(f: Format, s: State, effect: Effect) -> Change
    requires { FormatFits f × (s.current ≤ 8) × (s.place < 2 ^ 32) × EffectFits f effect }
    ensures { result ≡ change_of f s effect }
{
    match effect {
        Effect::Register {
            table,
            index,
            place: _,
            length: _,
        } => Change::Set {
            position: tables::position_of(f, s.current, table, index),
            entry: s.place as u32,
        },
        Effect::Stop(_) => Change::Keep,
        Effect::Enter { id: _ } => Change::Keep,
        Effect::SetRate { rate: _ } => Change::Keep,
        Effect::Pass => Change::Keep,
    }
}

// The change is made; where the tables are too short for it, they stay as they are.
pub fn apply(tables: &mut [u32], change: Change)
    ensures { tables.new ≡ changed tables.old change }
{
    match change {
        Change::Keep => {}
        Change::Set { position, entry } => {
            if position < tables.len() {
                tables[position] = entry;
            }
        }
    }
}
