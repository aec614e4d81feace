//! Traces: what a run was, as a file of bytes; and scripts, the order of vCPUs as a text of digits.
//!
//! A trace has the schedule of a run, the entries of its logs, its end, the state of each vCPU, and digests of the
//! memory and of the views' pages. Its bytes are a form: what stands where, in which range, and by which fault other
//! bytes are refused. The form is one definition, `specs/Trace.antt`, that says both how a trace is written and how
//! bytes are read.
//!
//! - [`trace`]: a trace, and the limits of its parts; [`state`]: the state of a vCPU, its values and their names.
//! - [`writing`]: the bytes of a trace; [`reading`]: the trace of bytes, or the first fault.
//! - [`script`]: the schedule that a text of digits asks for.
//! - [`fault`]: why bytes are refused; [`entries`]: a copy of a log entry.
//! - [`laws`]: what is written is read again, and the text of no trace begins another's.
//!
//! Promised: a lawful trace is written as its one text; bytes are read exactly where they are the text of a lawful
//! trace, as that trace, and else the first fault in reading order is answered. Want of memory alone is free.
//!
//! Below stand `fc_numbers` and `chain_log`, whose log entries a trace keeps. The commands that drive, replay and
//! check runs stand above.
#![tactic(auto)]

pub mod entries;
pub mod fault;
mod halt;
pub mod laws;
mod parts;
pub mod reading;
mod runs;
pub mod script;
pub mod state;
#[cfg(test)]
mod tests;
pub mod trace;
pub mod writing;
