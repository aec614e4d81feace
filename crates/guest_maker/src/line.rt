//! The lines of the guest's programs.

use rv_decode::Inst;

/// A function of the guest, as a line names it.
#[derive(Clone, Copy)]
pub(crate) enum Label {
    Trap,
    SwitchTo,
    Red,
    Blue,
    /// The four drawn functions that `red` and `blue` call.
    First,
    Second,
    Third,
    Fourth,
    /// The function of this number among those with drawn bodies.
    Numbered(u8),
}

/// A line: one instruction of 32 bits.
#[derive(Clone, Copy)]
pub(crate) enum Line {
    /// An instruction that names no function.
    Plain(Inst),
    /// ADDI behind an AUIPC with 0: it adds the distance of a function from that AUIPC.
    AddDistance { rd: u8, rs1: u8, to: Label },
    /// JAL to a function.
    Jump { rd: u8, to: Label },
    /// BEQ to a function.
    BranchIfEqual { rs1: u8, rs2: u8, to: Label },
}
