//! The call chain of a vCPU, and the log of what was restored.
//!
//! - [`entry`]: a trap on a missing function, and the log entry that it becomes.
//! - [`chain`]: the call chain: who called the missing function, read from registers and stack.
//! - [`line`]: the line of text of a log entry.
//!
//! Promised: the chain is exactly that of `specs/Chain.antt`, in the vCPU's own mode and memory as it is; the line of
//! an entry is exactly that of `specs/Line.antt`.
//!
//! Below stand the memory, the page walk, the control registers and the table of functions. The board, the views and
//! the files of a run stand above. Nothing here changes a guest.
#![tactic(auto)]

pub mod chain;
pub mod entry;
pub mod line;
#[cfg(test)]
mod tests;
