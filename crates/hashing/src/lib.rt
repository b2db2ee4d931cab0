// A hash of some bytes, in which every byte and every bit has a part: eight products of halves of words for each 32 bytes.
#![tactic(auto)]

ghost use Rattle.std.specs.Prelude.{◌≡◌, ◌+◌, ◌^◌, ◌<◌, ◌≤◌, length};
ghost use Rattle.hashing.specs.Models.Hash.{spread_of, join_of, block_of, half_at, few_of, hash_of, folded_of};

// Each half of a word times a number. The rotation puts the high bits of one product beside the low bits of the other.
fn spread(word: u64, low: u64, high: u64) -> u64
    requires { (low < 2 ^ 32) × (high < 2 ^ 32) }
    ensures { result ≡ spread_of low high word }
{
    let above = words::field(word, 32, 63) * high;
    (words::field(word, 0, 31) * low).wrapping_add(above.rotate_left(32))
}

// A hash and four words more. The eight products wait for nothing but their words, and their constants have 31 bits, so that each stands in its
// instruction.
fn join(hash: u64, a: u64, b: u64, c: u64, d: u64) -> u64
    ensures { result ≡ join_of hash a b c d }
{
    spread(hash.wrapping_add(a), 0x11cb92d9, 0x150665e9)
        .wrapping_add(spread(b, 0x190f16e3, 0x79204595))
        .wrapping_add(spread(c, 0x1f740b41, 0x545c46f3).wrapping_add(spread(
            d, 0x732eb6d7, 0x7e0cc889,
        )))
}

// A hash and the bytes from `first` to the end of the word at `last`, at most 32 of them. Any number of bytes from 8 to 32 takes the same
// way, since the lengths of texts cannot be foretold.
fn block(bytes: &[u8], hash: u64, first: usize, last: usize) -> u64
    requires { (first ≤ last) × (last + 8 ≤ length bytes.now) }
    ensures { result ≡ block_of bytes.now hash first last }
{
    let step = usize::min(8, last - first);
    join(
        hash,
        words::little_word(bytes, first),
        words::little_word(bytes, first + step),
        words::little_word(bytes, last - step),
        words::little_word(bytes, last),
    )
}

// The number of the first four bytes. Its indexes are literals, so that it becomes one load.
fn first_half(bytes: &[u8]) -> u64
    requires { 4 ≤ length bytes.now }
    ensures { (result ≡ half_at bytes.now 0) × (result < 2 ^ 32) }
{
    u64::from(u32::from_le_bytes([bytes[0], bytes[1], bytes[2], bytes[3]]))
}

fn half(bytes: &[u8], place: usize) -> u64
    requires { place + 4 ≤ length bytes.now }
    ensures { (result ≡ half_at bytes.now place) × (result < 2 ^ 32) }
{
    first_half(&bytes[place..place + 4])
}

// Fewer than eight bytes as one number.
fn few(bytes: &[u8]) -> u64
    ensures { result ≡ few_of bytes.now }
{
    let n = bytes.len();
    if n == 0 {
        return 0;
    }
    if n < 4 {
        return words::byte(bytes, 0)
            + 256 * words::byte(bytes, n / 2)
            + 65536 * words::byte(bytes, n - 1);
    }
    half(bytes, 0) + 4294967296 * half(bytes, n - 4)
}

// A number of a seed and all of some bytes: blocks of 32, and a last one that ends with the bytes.
pub fn hash(bytes: &[u8], seed: u64) -> u64
    ensures { result ≡ hash_of seed bytes.now }
{
    let n = bytes.len();
    if n < 8 {
        return seed.wrapping_add(few(bytes));
    }
    let blocks = (n - 1) / 32;
    let mut hash = seed;
    for i in 0..blocks {
        hash = block(bytes, hash, 32 * i, 32 * i + 24);
    }
    block(bytes, hash, usize::min(32 * blocks, n - 8), n - 8)
}

// 32 bits of a hash, in which each of its bits has a part.
pub fn folded(hash: u64) -> u64
    ensures { (result ≡ folded_of hash) × (result < 2 ^ 32) }
{
    let mixed = spread(hash, 0x13553b39, 0x566fe581);
    words::field(
        words::field(mixed, 0, 31) + words::field(mixed, 32, 63),
        0,
        31,
    )
}
