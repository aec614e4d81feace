//! The causes of exceptions, as scause has them (privileged manual, "Supervisor Cause Register").

ghost use Rattle.std.specs.Prelude.{◌≡◌};
ghost use Rattle.rv_step.specs.Causes.{access_fault_cause, misaligned_cause, page_fault_cause};

use fc_numbers::machine::Access;

/// Instruction address misaligned.
pub const FETCH_MISALIGNED: u64 = 0;
/// Instruction access fault.
pub const FETCH_ACCESS_FAULT: u64 = 1;
/// Illegal instruction.
pub const ILLEGAL_INSTRUCTION: u64 = 2;
/// Breakpoint.
pub const BREAKPOINT: u64 = 3;
/// Load address misaligned; LR is a load.
pub const LOAD_MISALIGNED: u64 = 4;
/// Load access fault.
pub const LOAD_ACCESS_FAULT: u64 = 5;
/// Store or AMO address misaligned; SC is a store.
pub const STORE_MISALIGNED: u64 = 6;
/// Store or AMO access fault.
pub const STORE_ACCESS_FAULT: u64 = 7;
/// Environment call from user mode.
pub const USER_CALL: u64 = 8;
/// Instruction page fault.
pub const FETCH_PAGE_FAULT: u64 = 12;
/// Load page fault.
pub const LOAD_PAGE_FAULT: u64 = 13;
/// Store or AMO page fault.
pub const STORE_PAGE_FAULT: u64 = 15;

/// The cause of an access to an address that is not aligned.
pub(crate) fn misaligned_cause(access: Access) -> u64
    ensures { result ≡ misaligned_cause access }
{
    match access {
        Access::Fetch => FETCH_MISALIGNED,
        Access::Load => LOAD_MISALIGNED,
        Access::Store => STORE_MISALIGNED,
    }
}

/// The cause of an access to a place outside memory.
pub(crate) fn access_fault_cause(access: Access) -> u64
    ensures { result ≡ access_fault_cause access }
{
    match access {
        Access::Fetch => FETCH_ACCESS_FAULT,
        Access::Load => LOAD_ACCESS_FAULT,
        Access::Store => STORE_ACCESS_FAULT,
    }
}

/// The cause of an access that the guest's tables do not let through.
pub(crate) fn page_fault_cause(access: Access) -> u64
    ensures { result ≡ page_fault_cause access }
{
    match access {
        Access::Fetch => FETCH_PAGE_FAULT,
        Access::Load => LOAD_PAGE_FAULT,
        Access::Store => STORE_PAGE_FAULT,
    }
}
