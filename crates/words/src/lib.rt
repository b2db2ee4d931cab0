// Words of eight bytes, their fields, and streams of bytes. Nothing here knows a record.
#![tactic(auto)]

ghost use Rattle.std.specs.Prelude.{◌≡◌, ◌&&◌, ◌+◌, ◌-◌, ◌*◌, ◌^◌, ◌<◌, ◌≤◌, length, get_or, replicate};
ghost use Rattle.words.specs.Word.{little_at, bytes_of, word_at, word_bytes, field, signed};
ghost use Rattle.words.specs.Stream.{stream_words, padded, overwritten, part_of, same_bytes, all_zero, starts_with_magic};

// The byte order of an archive's words.
#[derive(Clone, Copy)]
pub enum Order {
    Little,
}

pub fn byte(bytes: &[u8], place: usize) -> u64
    requires { place < length bytes.now }
    ensures { (result ≡ get_or bytes.now place 0) × (result < 256) }
{
    bytes[place] as u64
}

// The number of the first eight bytes, the lowest first. Its indexes are literals, so that the eight bytes become one load wherever they stand.
fn first_word(bytes: &[u8]) -> u64
    requires { 8 ≤ length bytes.now }
    ensures { result ≡ little_at bytes.now 0 }
{
    u64::from_le_bytes([
        bytes[0], bytes[1], bytes[2], bytes[3], bytes[4], bytes[5], bytes[6], bytes[7],
    ])
}

// The number of the eight bytes at a byte place, the lowest first.
pub fn little_word(bytes: &[u8], place: usize) -> u64
    requires { place + 8 ≤ length bytes.now }
    ensures { result ≡ little_at bytes.now place }
{
    first_word(&bytes[place..place + 8])
}

// The word at a byte place. Every word of an archive is read here, so the byte order is decided here alone.
pub fn word(order: Order, bytes: &[u8], place: usize) -> u64
    requires { place + 8 ≤ length bytes.now }
    ensures { result ≡ word_at order bytes.now place }
{
    match order {
        Order::Little => little_word(bytes, place),
    }
}

// The word, written at a byte place. Every word of an output is written here.
pub fn put_word(order: Order, out: &mut [u8], place: usize, word: u64)
    requires { place + 8 ≤ length out.old }
    ensures { out.new ≡ overwritten out.old place (word_bytes order word) }
{
    match order {
        Order::Little => out[place..place + 8].copy_from_slice(&word.to_le_bytes()),
    }
}

// The field [low..high] of a word.
pub fn field(word: u64, low: u32, high: u32) -> u64
    requires { (low ≤ high) × (high < 64) × (high < low + 63) }
    ensures { result ≡ field low high word }
{
    (word >> low) & ((1 << (high + 1 - low)) - 1)
}

// The word with a field put in above the bits that it has.
pub fn with_field(word: u64, low: u32, high: u32, value: u64) -> u64
    requires { (low ≤ high) × (high < 64) × (word < 2 ^ low) × (value < 2 ^ (high + 1 - low)) }
    ensures { result ≡ word + value * 2 ^ low }
{
    word | (value << low)
}

// The high half of a word as a signed number.
pub fn signed_half(word: u64) -> i32
    ensures { result ≡ signed 32 (field 32 63 word) }
{
    ((word >> 32) as u32).cast_signed()
}

// A word as a signed number.
pub fn signed_word(word: u64) -> i64
    ensures { result ≡ signed 64 word }
{
    word.cast_signed()
}

// How many words a stream of n bytes takes.
pub fn stream_words(n: usize) -> usize
    ensures { result ≡ stream_words n }
{
    n / 8 + (n % 8 + 7) / 8
}

// The stream of these bytes, written at a byte place with its padding. A loop writes the bytes: `copy_from_slice` makes an archive for C need
// `memmove` from outside.
pub fn put_stream(out: &mut [u8], place: usize, bytes: &[u8])
    requires { place + 8 * stream_words (length bytes.now) ≤ length out.old }
    ensures { out.new ≡ overwritten out.old place (padded bytes.now) }
{
    for i in 0..bytes.len() {
        out[place + i] = bytes[i];
    }
    out[place + bytes.len()..place + 8 * stream_words(bytes.len())].fill(0);
}

// The part of some bytes that has this place and length, or the empty part where that is not inside them.
#[tactic(auto, using(std::proofs::lemmas::Bool::Decides::nat_tests), unfolding(crate::specs::Stream::part_of))]
pub fn part(bytes: &[u8], place: usize, length: usize) -> &[u8]
    ensures { result.now ≡ part_of bytes.now place length }
{
    if place <= bytes.len() && length <= bytes.len() - place {
        return &bytes[place..place + length];
    }
    &bytes[0..0]
}

// Whether two byte slices of one length are the same: byte by byte, as those of less than eight bytes are compared. `==` takes up to twice as
// long where they have less than three.
fn same_each(a: &[u8], b: &[u8]) -> bool
    requires { length a.now ≡ length b.now }
    ensures { result ≡ same_bytes a.now b.now }
{
    for i in 0..a.len() {
        if a[i] != b[i] {
            return false;
        }
    }
    true
}

// Whether two byte slices are the same: word by word, where the last word may overlap the one before it. `==` alone takes more instructions
// where they have 8 to 32 bytes, as most texts have.
pub fn same_bytes(a: &[u8], b: &[u8]) -> bool
    ensures { result ≡ same_bytes a.now b.now }
{
    if a.len() != b.len() {
        return false;
    }
    if a.len() < 8 {
        return same_each(a, b);
    }
    for i in 0..(a.len() - 1) / 8 {
        if little_word(a, 8 * i) != little_word(b, 8 * i) {
            return false;
        }
    }
    let last = a.len() - 8;
    little_word(a, last) == little_word(b, last)
}

// Whether both of two tests hold. Both are made before, so that neither is left out.
pub fn both(a: bool, b: bool) -> bool
    ensures { result ≡ (a && b) }
{
    a && b
}

// Whether all bytes are zero. A loop, as the law of `all` over a test of one's own takes more text than the loop.
#[tactic(auto, using(crate::proofs::Same::zero_turn, crate::proofs::Same::zero_end))]
pub fn all_zero(bytes: &[u8]) -> bool
    ensures { result ≡ all_zero bytes.now }
{
    for byte in bytes {
        if *byte != 0 {
            return false;
        }
    }
    true
}

// Whether an archive's first eight bytes are the magic.
pub fn starts_with_magic(archive: &[u8]) -> bool
    ensures { result ≡ starts_with_magic archive.now }
{
    if archive.len() < 8 {
        return false;
    }
    same_bytes(&archive[..8], b"\x10\x00\x04\x46\x78\x54\x16\x00")
}
