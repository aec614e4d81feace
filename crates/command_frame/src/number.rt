//! Numbers among the words.

ghost use Rattle.std.specs.Prelude.{◌≡◌, ◌<◌, ◌^◌, ℕ, decimal, IfSome, IfNone};
ghost use Rattle.command_frame.specs.Numbers.{is_plain};

/// Whether the word begins with a digit that is not 0.
fn is_plain(word: &str) -> bool
    ensures { result ≡ is_plain word.now }
{
    match word.as_bytes() {
        [first, ..] => b'1' <= *first && *first <= b'9',
        [] => false,
    }
}

/// The number of 64 bits that a word writes in decimal, without leading zeros; None exactly where it writes none.
pub fn number_of(word: &str) -> Option<u64>
    ensures some { IfSome result (λ number. (word.now ≡ decimal number) × (number < 2 ^ 64)) }
    ensures none { IfNone result ((number : ℕ) → number < 2 ^ 64 → word.now ≡ decimal number → ⊥) }
{
    if word == "0" {
        return Some(0);
    }
    if !is_plain(word) {
        return None;
    }
    match word.parse::<u64>() {
        Ok(number) => Some(number),
        Err(_) => None,
    }
}
