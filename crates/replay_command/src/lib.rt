//! The command `replay`: a trace's schedule, run again by the full kernel and compared with what the trace tells.
//!
//! - [`comparison`]: two values side by side, and their text.
//! - [`compare`]: the first difference between a run and a trace.
//! - [`replay`]: the form of the words, and what the command makes.
//!
//! What is compared, and in which order, stands in `specs/Comparisons.antt` as one list; the first member whose sides
//! differ is the answer. Below stand full_run, which runs the schedule, run_trace, which says what a trace tells of a
//! run, and command_frame.
#![tactic(auto)]

pub mod compare;
pub mod comparison;
pub mod replay;
#[cfg(test)]
mod tests;
