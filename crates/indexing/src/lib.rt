// Choices and indexes in the table of a tally once the uses are counted: in place of the uses of each key stands 0 where it is spelled inline,
// 1 where it is registered and has no index yet, and one more than its index where it has one. The counters of the marks count the indexes given.
#![tactic(auto)]

ghost use Rattle.std.specs.Prelude.{◌≡◌, ◌-◌, ◌*◌, ◌^◌, ◌<◌, MatchOption};
ghost use Rattle.tally.specs.declared.Slot.TheVariants.{Here};
ghost use Rattle.tally.specs.Models.Slots.{key_of, find_of, raised, count_at};
ghost use Rattle.tally.specs.Models.Tally.{Wide};
ghost use Rattle.indexing.specs.Models.Indexes.{chosen_word, chosen_to, index_at, index_of, new_index, with_index, indexed, Settled, Waiting};

use tally::Slot;

// The second word of a slot once the uses are counted: 0 stands for them where its key is spelled inline, 1 where it is registered and has no
// index yet. Without a key the word is 0.
#[tactic(auto, unfolding(crate::specs::Models::Indexes::chosen_word))]
fn choice(first: u32, second: u32) -> u32
    ensures { result ≡ chosen_word first second }
{
    if tally::place_in(first) == 0 {
        return 0;
    }
    let words = words::stream_words(second as usize % 65536);
    if registering::is_registered(words as u64, tally::uses_in(second) as u64) {
        return tally::with_uses(1, second);
    }
    tally::with_uses(0, second)
}

// The uses of each key become its choice; no slot stands at the counters, so they become 0.
#[tactic(auto, using(crate::proofs::Frames::chosen_none))]
pub fn choose(slots: &mut [u32], stretch: usize)
    requires { Wide stretch slots.old }
    ensures { slots.new ≡ chosen_to stretch stretch slots.old }
{
    for s in 0..stretch {
        slots[stretch + s] = choice(slots[s], slots[stretch + s]);
    }
}

// The index that the key of a slot was given, or 0 where it has none: an index of 0 is the format's own word for a key that is not registered.
pub fn index_at(slots: &[u32], stretch: usize, s: usize) -> usize
    requires { Wide stretch slots.now × (s < stretch - 18) }
    ensures { result ≡ index_at stretch slots.now (Here s) }
{
    tally::uses_in(slots[stretch + s]).saturating_sub(1) as usize
}

// The index that a key was given, or 0 where it has none.
#[tactic(auto, unfolding(crate::specs::Models::Indexes::index_of))]
pub fn index_of(archive: &[u8], slots: &[u32], stretch: usize, place: usize, label: usize) -> usize
    requires { Wide stretch slots.now × (label < 2 ^ 32) }
    ensures { result ≡ index_of archive.now stretch slots.now (key_of archive.now place label) }
{
    let slot = tally::find(archive, slots, stretch, place, label);
    match slot {
        Slot::Here(s) => index_at(slots, stretch, s),
        Slot::Free(_) => 0,
        Slot::Full => 0,
    }
}

// The next index of a label's mark, given to the key of a slot.
fn put_index(slots: &mut [u32], stretch: usize, s: usize, label: usize) -> usize
    requires { Wide stretch slots.old × (s < stretch - 18) × (label < 18 * 65536) }
    ensures value { result ≡ raised (count_at stretch slots.old label) }
    ensures slots_after { slots.new ≡ with_index stretch slots.old label s }
{
    let given = 2 * stretch - 18 + label / 65536;
    let second = slots[stretch + s];
    let index = tally::raise(slots[given]);
    slots[given] = index;
    slots[stretch + s] = tally::with_uses(tally::raise(index), second);
    index as usize
}

// Gives the key of a slot, where it is to be registered and has no index yet, the next index of its mark; the index given, or 0, under
// which nothing is registered.
pub fn give_index_at(slots: &mut [u32], stretch: usize, s: usize, label: usize) -> usize
    requires { Wide stretch slots.old × (s < stretch - 18) × (label < 18 * 65536) }
    ensures value { result ≡ new_index stretch slots.old label (Here s) }
    ensures slots_after { slots.new ≡ indexed stretch slots.old label (Here s) }
{
    if tally::uses_in(slots[stretch + s]) == 1 {
        return put_index(slots, stretch, s, label);
    }
    0
}

// Gives a key that is to be registered the next index of its mark, where it has none yet; the index given, or 0.
pub fn give_index(
    archive: &[u8],
    slots: &mut [u32],
    stretch: usize,
    place: usize,
    label: usize,
) -> usize
    requires { Wide stretch slots.old × (label < 18 * 65536) }
    ensures value { result ≡ new_index stretch slots.old label (find_of archive.now stretch slots.old (key_of archive.now place label)) }
    ensures slots_after { slots.new ≡ indexed stretch slots.old label (find_of archive.now stretch slots.old (key_of archive.now place label)) }
{
    let slot = tally::find(archive, slots, stretch, place, label);
    match slot {
        Slot::Here(s) => give_index_at(slots, stretch, s, label),
        Slot::Free(_) => 0,
        Slot::Full => 0,
    }
}

// The first slot whose key waits: it is to be registered and has no index yet.
fn first_waiting(slots: &[u32], stretch: usize) -> Option<usize>
    requires { Wide stretch slots.now }
    ensures { Waiting stretch slots.now result }
{
    for s in 0..stretch - 18 {
        if tally::uses_in(slots[stretch + s]) == 1 {
            return Some(s);
        }
    }
    None
}

// A slot whose key waits: the slot given where its key does, else the first. Where none is given none waits, and no slot is read.
pub fn waiting_slot(slots: &[u32], stretch: usize, slot: Option<usize>) -> Option<usize>
    requires { Wide stretch slots.now × MatchOption slot (Settled stretch slots.now) (λ s. s < stretch - 18) }
    ensures { Waiting stretch slots.now result }
{
    let s = slot?;
    if tally::uses_in(slots[stretch + s]) == 1 {
        return Some(s);
    }
    first_waiting(slots, stretch)
}
