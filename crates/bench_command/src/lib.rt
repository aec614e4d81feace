//! The command `bench`: the guest of a number, profiled, and driven under its profile.
//!
//! - [`bench`]: the form of the words, and what the command makes.
//!
//! `specs/Bench.antt` says which runs they are and what is printed. Below stand guest_maker, profiler, guest_runs and the
//! frame of commands; the name of an end is that of `replay`.
#![tactic(auto)]

pub mod bench;
