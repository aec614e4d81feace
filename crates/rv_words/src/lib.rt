//! The word and the least halfword of an instruction: definitions, and the facts about them that the assembler needs.
//!
//! `specs/Words.antt` defines the 32-bit word of an instruction by its format. It decodes to the instruction, and there
//! is one exactly where the fields are in their ranges ([`words_decode`]). `specs/Candidates.antt` names for each
//! instruction the one halfword that may be its compressed form. The check decodes all 65,536 halfwords and finds that
//! the candidate of what each means is the least that means the same ([`candidates_are_least`]).
//!
//! There is no code here to run: the crate holds what is computed once, so that the assembler, which stands on it,
//! is checked quickly. Below stand the instructions and their decoders.
#![tactic(auto)]

ghost use Rattle.std.specs.Prelude.{◌≡◌, ℕ, ◌^◌, ◌<◌, ◌≤◌, Some, IsSome};
ghost use Rattle.rv_decode.specs.declared.Inst.{Inst};
ghost use Rattle.rv_decode.specs.Ranges.{FieldsFit};
ghost use Rattle.rv_decode.specs.Rows.{decode_of, decode16_of};
ghost use Rattle.rv_words.specs.Words.{encode_of};
ghost use Rattle.rv_words.specs.Candidates.{candidate_of};

/// The law that the word of an instruction decodes to it, that there is a word where each field is in its range, and
/// that it is the least that decodes to the instruction: all bits that are no field are 0. Nothing runs here.
pub fn words_decode()
    ensures decodes { (i : Inst) (w : ℕ) → encode_of i ≡ Some w → decode_of w ≡ Some i }
    ensures found { (i : Inst) → FieldsFit i → IsSome (encode_of i) }
    ensures least { (i : Inst) (v w : ℕ) → encode_of i ≡ Some v → decode_of w ≡ Some i → v ≤ w }
{}

/// The law that no halfword with the meaning of another is below its candidate, and that the candidate means the
/// same. Nothing runs here.
pub fn candidates_are_least()
    ensures least { (h : ℕ) (i : Inst) → h < 2 ^ 16 → decode16_of h ≡ Some i → candidate_of i ≤ h }
    ensures means { (h : ℕ) (i : Inst) → h < 2 ^ 16 → decode16_of h ≡ Some i → decode16_of (candidate_of i) ≡ Some i }
{}
