//! The command `run`: all vCPUs of a setup at once, a thread for each, under the views of their apps.
//!
//! - [`run`]: the form of the words, the run of a crew with its trace, and what the command makes.
//!
//! `specs/Run.antt` says what is promised where the command returns: the trace is sound by the very definition that `drive`
//! is held to, and the console is that of the full kernel's run of the trace's schedule. Not promised: that the command
//! returns, that two threads run at once, or which order comes of it. Below stand vcpu_crew, whose workers make the run,
//! run_trace, which says what a trace tells of a run, and command_frame.
#![tactic(auto)]

pub mod run;
