//! The assembler of one instruction: its 32-bit word, and its compressed form where it has one.
//!
//! [`encode`] gives the least word that decodes to an instruction, so the bits aq and rl and all that are no field are
//! 0; None exactly where a field is out of its range, and then no word decodes to it. [`squeeze`] gives the least halfword
//! that decodes to it; None exactly where no halfword does. Both say what they promise in terms of the decoders'
//! tables, and take a few branches: nothing is searched.
//!
//! Below stand the instructions with their decoders, and the facts about words that the check computes once. Above
//! stand the makers of test guests and the listing of text.
#![tactic(auto)]

ghost use Rattle.std.specs.Prelude.{◌≡◌, ℕ, ◌^◌, ◌<◌, ◌≤◌, Some, IfSome, IsSome, IsSomeAnd};
ghost use Rattle.rv_decode.specs.Ranges.{FieldsFit};
ghost use Rattle.rv_decode.specs.Rows.{decode_of, decode16_of};
ghost use Rattle.rv_words.specs.Words.{encode_of};

mod candidate;
#[cfg(test)]
mod rows;
#[cfg(test)]
mod tests;
mod word;

use crate::candidate::candidate;
use crate::word::word;
use rv_decode::{Inst, decode16};

/// The word that decodes to `i`, with aq, rl and all bits that are no field 0: the least that does. None exactly where
/// a field of `i` is out of the range of its row, and then no word decodes to it.
pub fn encode(i: &Inst) -> Option<u32>
    ensures decodes { IfSome result (λ w. decode_of w ≡ Some i.now) }
    ensures least { (w : ℕ) → decode_of w ≡ Some i.now → IsSomeAnd result (λ v. v ≤ w) }
    ensures found { FieldsFit i.now → IsSome result }
    ensures same { result ≡ encode_of i.now }
{
    word(i)
}

/// The least halfword that decodes to `i`; None exactly where no halfword does.
pub fn squeeze(i: &Inst) -> Option<u16>
    ensures found { IfSome result (λ h. decode16_of h ≡ Some i.now) }
    ensures least { (h : ℕ) → h < 2 ^ 16 → decode16_of h ≡ Some i.now → IsSomeAnd result (λ g. g ≤ h) }
{
    let word = encode(i)?;
    let h = u16::try_from(candidate(i)).ok()?;
    let other = decode16(h)?;
    if encode(&other)? == word {
        Some(h)
    } else {
        None
    }
}
