//! What holds whatever is executed. Nothing here runs: each function has a law as its contract.

ghost use Rattle.std.specs.Prelude.{ℕ};
ghost use Rattle.guest_ram.specs.Ram.{IsLaid};
ghost use Rattle.rv_decode.specs.declared.Inst.{Inst};
ghost use Rattle.rv_step.specs.Site.{Site};
ghost use Rattle.rv_step.specs.Executed.{did};
ghost use Rattle.rv_step.specs.Kept.{KeepsText, ChangesOnNextAlone};

/// No instruction changes kernel text, its place or the size of memory, and each page counts one more store at most.
pub fn text_is_kept()
    ensures { (inst : Inst) (len clock : ℕ) (s : Site) → IsLaid s.ram → KeepsText s.ram (did inst len clock s).ram }
{}

/// An instruction that traps or ends the run has changed nothing, and puts no byte to the console.
pub fn only_going_on_changes()
    ensures { (inst : Inst) (len clock : ℕ) (s : Site) → ChangesOnNextAlone s (did inst len clock s) }
{}
