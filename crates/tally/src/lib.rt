// The uses of texts and threads, counted in one hashed table for all contexts in lent words. The words are three stretches of one length:
// word s of the first has the byte place of slot s's key and, above 24 bits, the key's mark; word s of the second has the length of the
// key's bytes and, above 16 bits, its uses. A place of 0 is a free slot. The last 18 words of these two are no slots; those of the second
// count the distinct keys of each mark. The third stretch remembers slots: its word at a number that the caller chooses has one more than
// a slot, or 0. `slots` and `stretch` stay two parameters. Tried as a struct: for slices that are only read it proves, but with `&mut` each
// function needs two clauses more, and a caller that lends a part of its room does not prove.
#![tactic(auto)]

ghost use Rattle.std.specs.Prelude.{◌≡◌, ◌+◌, ◌-◌, ◌*◌, ◌/◌, ◌%◌, ◌^◌, ◌<◌, ◌≤◌};
ghost use Rattle.words.specs.Stream.{same_bytes};
ghost use Rattle.tally.specs.Models.Slots.{label_of, key_of, place_in, label_in, uses_in, with_uses, start_of, next_of, find_of, raised, used_again, filled, here_slot, slot_word, remembered_at, remembering, added_slot, added, cost_of, measure_of};
ghost use Rattle.tally.specs.Models.Tally.{Wide};

// Where a key stands, where it would go, or that no slot is left.
#[derive(Clone, Copy)]
pub enum Slot {
    Here(usize),
    Free(usize),
    Full,
}

// The label of a key: the length of its bytes and, above 16 bits, its mark, which is of its context and its table, 2 for a text and 3 for a thread.
// The table stays a number, of which this asks that it is 2 or 3: callers hold it as one.
#[tactic(auto, unfolding(crate::specs::Models::Slots::label_of))]
pub fn label_of(context: usize, table: u64, long: usize) -> usize
    requires { (context ≤ 8) × (2 ≤ table) × (table ≤ 3) × (long < 65536) }
    ensures { result ≡ label_of context table long }
{
    (2 * context + (table as usize - 2)) * 65536 + long
}

// The place of a slot's key, of the slot's first word.
pub fn place_in(first: u32) -> usize
    ensures { result ≡ place_in first }
{
    first as usize % 16777216
}

// The label of a slot's key, of the slot's two words.
pub fn label_in(first: u32, second: u32) -> usize
    ensures { result ≡ label_in first second }
{
    first as usize / 16777216 * 65536 + second as usize % 65536
}

// The uses of a slot's key, of the slot's second word.
pub fn uses_in(second: u32) -> u32
    ensures { (result ≡ uses_in second) × (result < 65536) }
{
    second / 65536
}

// A slot's second word with so many uses.
pub fn with_uses(uses: u32, second: u32) -> u32
    requires { uses < 65536 }
    ensures { result ≡ with_uses uses second }
{
    uses * 65536 + second % 65536
}

// The first slot of a key.
fn first_slot(archive: &[u8], capacity: usize, place: usize, label: usize) -> usize
    requires { (0 < capacity) × (capacity < 2 ^ 32) × (label < 2 ^ 32) }
    ensures { result ≡ start_of capacity (key_of archive.now place label) }
{
    let key = words::part(archive, place, label % 65536);
    (hashing::folded(hashing::hash(key, label as u64 * 0x7eaec5c3)) as usize * capacity) >> 32
}

// The slot after s, around the end.
#[tactic(auto, unfolding(crate::specs::Models::Slots::next_of))]
fn next_slot(capacity: usize, s: usize) -> usize
    requires { s < capacity }
    ensures { result ≡ next_of capacity s }
{
    if s + 1 < capacity {
        return s + 1;
    }
    0
}

// Whether the keys at p and q, with these labels, are the same.
#[tactic(auto, using(crate::proofs::Laws::label_differs, crate::proofs::Laws::place_same))]
fn same_key(archive: &[u8], p: usize, a: usize, q: usize, b: usize) -> bool
    ensures { result ≡ same_bytes (key_of archive.now p a) (key_of archive.now q b) }
{
    if a != b {
        return false;
    }
    if p == q {
        return true;
    }
    words::same_bytes(
        words::part(archive, p, a % 65536),
        words::part(archive, q, b % 65536),
    )
}

// The slot of a key: its own, or the free one where it would go.
pub fn find(archive: &[u8], slots: &[u32], stretch: usize, place: usize, label: usize) -> Slot
    requires { Wide stretch slots.now × (label < 2 ^ 32) }
    ensures { result ≡ find_of archive.now stretch slots.now (key_of archive.now place label) }
{
    let capacity = stretch - 18;
    let mut s = first_slot(archive, capacity, place, label);
    for _ in 0..capacity {
        let p = place_in(slots[s]);
        if p == 0 {
            return Slot::Free(s);
        }
        let own = label_in(slots[s], slots[stretch + s]);
        if same_key(archive, p, own, place, label) {
            return Slot::Here(s);
        }
        s = next_slot(capacity, s);
    }
    Slot::Full
}

// The slot of a key, where it has one.
pub fn slot_of(
    archive: &[u8],
    slots: &[u32],
    stretch: usize,
    place: usize,
    label: usize,
) -> Option<usize>
    requires { Wide stretch slots.now × (label < 2 ^ 32) }
    ensures { (result ≡ here_slot (find_of archive.now stretch slots.now (key_of archive.now place label))) × (slot_word result < 2 ^ 32) }
{
    let slot = find(archive, slots, stretch, place, label);
    match slot {
        Slot::Here(s) => Some(s),
        Slot::Free(_) => None,
        Slot::Full => None,
    }
}

// The slot that is remembered under a number.
pub fn remembered(slots: &[u32], stretch: usize, entry: usize) -> Option<usize>
    requires { Wide stretch slots.now × (entry < stretch) }
    ensures { result ≡ remembered_at stretch slots.now entry }
{
    (slots[2 * stretch + entry] as usize).checked_sub(1)
}

// Remembers a slot, or none, under a number.
pub fn remember(slots: &mut [u32], stretch: usize, entry: usize, slot: Option<usize>)
    requires { Wide stretch slots.old × (entry < stretch) × (slot_word slot < 2 ^ 32) }
    ensures { slots.new ≡ remembering stretch slots.old entry slot }
{
    let word = match slot {
        Some(s) => s as u32 + 1,
        None => 0,
    };
    slots[2 * stretch + entry] = word;
}

// One more, up to the highest number of half a word.
#[tactic(auto, unfolding(crate::specs::Models::Slots::raised))]
pub fn raise(n: u32) -> u32
    ensures { (result ≡ raised n) × (result < 65536) }
{
    if n < 65535 {
        return n + 1;
    }
    65535
}

// One use more of the key of a slot.
pub fn use_again(slots: &mut [u32], stretch: usize, s: usize)
    requires { Wide stretch slots.old × (s < stretch - 18) }
    ensures { slots.new ≡ used_again stretch slots.old s }
{
    let second = slots[stretch + s];
    slots[stretch + s] = with_uses(raise(uses_in(second)), second);
}

// A free slot, taken by a key with its first use; its mark has one key more.
fn fill(slots: &mut [u32], stretch: usize, s: usize, place: usize, label: usize)
    requires { Wide stretch slots.old × (s < stretch - 18) × (place < 16777216) × (label < 18 * 65536) }
    ensures { slots.new ≡ filled stretch slots.old place label s }
{
    let counter = 2 * stretch - 18 + label / 65536;
    let keys = raise(slots[counter]);
    slots[s] = (label / 65536 * 16777216 + place) as u32;
    slots[stretch + s] = with_uses(1, label as u32);
    slots[counter] = keys;
}

// One use more of a key: its slot, where it is counted. A key that is new is taken only where fewer than `most` of its mark were.
pub fn add_use(
    archive: &[u8],
    slots: &mut [u32],
    stretch: usize,
    place: usize,
    label: usize,
    most: usize,
) -> Option<usize>
    requires { Wide stretch slots.old × (place < 16777216) × (label < 18 * 65536) }
    ensures value { (result ≡ added_slot stretch slots.old label most (find_of archive.now stretch slots.old (key_of archive.now place label))) × (slot_word result < 2 ^ 32) }
    ensures slots_after { slots.new ≡ added stretch slots.old place label most (find_of archive.now stretch slots.old (key_of archive.now place label)) }
{
    let counter = 2 * stretch - 18 + label / 65536;
    let slot = find(archive, slots, stretch, place, label);
    match slot {
        Slot::Here(s) => {
            use_again(slots, stretch, s);
            Some(s)
        }
        Slot::Free(s) => {
            let keys = slots[counter];
            if (keys as usize) < most {
                fill(slots, stretch, s, place, label);
                return Some(s);
            }
            None
        }
        Slot::Full => None,
    }
}

// The words that a slot's key takes in all its uses, registered or not; none where the slot is free.
#[tactic(auto, unfolding(crate::specs::Models::Slots::cost_of))]
fn cost(first: u32, second: u32) -> usize
    ensures { (result ≡ cost_of (place_in first) (label_in first second) (uses_in second)) × (result < 2 ^ 14) }
{
    let uses = uses_in(second);
    if place_in(first) == 0 {
        return 0;
    }
    let words = words::stream_words(label_in(first, second) % 65536);
    if registering::is_registered(words as u64, uses as u64) {
        return 1 + words;
    }
    uses as usize * words
}

// The words that all keys take.
pub fn measure(slots: &[u32], stretch: usize) -> usize
    requires { Wide stretch slots.now }
    ensures { (result ≡ measure_of stretch slots.now) × (result < 2 ^ 45) }
{
    let mut sum = 0;
    for s in 0..stretch - 18 {
        sum += cost(slots[s], slots[stretch + s]);
    }
    sum
}
