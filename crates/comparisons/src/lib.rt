// Many pairs of texts compared in one call, eight bytes at a time and byte by byte, for the bench to time. Nothing is asked of a caller.
#![tactic(auto)]

ghost use Rattle.std.specs.Prelude.{◌≡◌};
ghost use Rattle.words.specs.Stream.{same_bytes};
ghost use Rattle.comparisons.specs.Pairs.{same_pairs};

// Whether two byte slices are the same, byte by byte: what `words::same_bytes` is held against.
fn same_by_bytes(a: &[u8], b: &[u8]) -> bool
    ensures { result ≡ same_bytes a.now b.now }
{
    if a.len() != b.len() {
        return false;
    }
    for i in 0..a.len() {
        if a[i] != b[i] {
            return false;
        }
    }
    true
}

// How many pairs of texts a comparison calls the same. The texts of each side stand one behind the other.
fn count_same<F: Fn(&[u8], &[u8]) -> bool>(same: F, a: &[u8], b: &[u8], lengths: &[usize]) -> u64
    requires callable { F.IsAlwaysCallable same }
    requires compares { (x y : _) (r : _) → F.post same x y r → r ≡ same_bytes x.now y.now }
    ensures { result ≡ same_pairs lengths.now a.now b.now }
{
    let mut left = a;
    let mut right = b;
    let mut count = 0;
    for &length in lengths {
        let n = usize::min(length, left.len());
        let m = usize::min(length, right.len());
        count += u64::from(same(&left[..n], &right[..m]));
        left = &left[n..];
        right = &right[m..];
    }
    count
}

// How many pairs of texts are the same, by `words::same_bytes`.
#[unsafe(no_mangle)]
pub extern "C" fn inthuchot_same_by_words(a: &[u8], b: &[u8], lengths: &[usize]) -> u64
    ensures { result ≡ same_pairs lengths.now a.now b.now }
{
    count_same(words::same_bytes, a, b, lengths)
}

// The same, byte by byte.
#[unsafe(no_mangle)]
pub extern "C" fn inthuchot_same_by_bytes(a: &[u8], b: &[u8], lengths: &[usize]) -> u64
    ensures { result ≡ same_pairs lengths.now a.now b.now }
{
    count_same(same_by_bytes, a, b, lengths)
}
