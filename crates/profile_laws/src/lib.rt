//! Profiles and runs: a run under the views of its own profile has nothing to log. Nothing here runs: each function of
//! [`laws`] has a law as its contract.
//!
//! Below stand the profiler, the core and the runs of commands.
#![tactic(auto)]

pub mod laws;
