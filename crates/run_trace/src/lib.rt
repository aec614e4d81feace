//! The trace of a run, and what makes a trace sound.
//!
//! - [`parts`]: what a trace tells of a vCPU, of the memory and of a view.
//! - [`taken`]: the trace of a board whose run has ended, and of its views.
//! - [`laws`]: the trace of a run is sound, and has a text; a zero halfword that is fetched reaches the guest.
//!
//! `specs/Sound.antt` says what a sound trace is: one definition for the commands that write traces and for those that
//! check them. Below stand trace_file, with traces as files, the board, the views, and the definitions of evidence.
#![tactic(auto)]

pub mod laws;
pub mod parts;
pub mod taken;
#[cfg(test)]
mod tests;
