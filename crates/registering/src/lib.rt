// Whether a key, a text or a thread, is registered, by the words that it takes and how often it is used.
#![tactic(auto)]

ghost use Rattle.std.specs.Prelude.{◌≡◌};
ghost use Rattle.registering.specs.Registers.{registers};

// Whether a key that takes so many words and is used so often is registered. No product is formed, so none can overflow.
pub fn is_registered(words: u64, uses: u64) -> bool
    ensures { result ≡ registers words uses }
{
    match uses {
        0 | 1 => false,
        2 => 1 < words,
        _ => 0 < words,
    }
}
