//! What the monitor knows of the outside: named files that are read and written, and streams of bytes.
//!
//! - [`outside`]: the traits [`outside::Store`] and [`outside::Sink`], with their answers.
//! - [`faults`]: a count of faults that never falls, with the name of the last one.
//! - [`memory`]: a store in memory that fails exactly where it is told to.
//! - [`memory_sink`]: the same for a sink.
//! - [`host`]: the host's files, standard output and standard error.
//! - [`gate`]: what a worker passes before each of its rounds.
//!
//! Each trait promises the same of every object: what a call gave or left where the object tells its bytes, and that
//! no fault is answered unless the object's own count of faults rose, with the name that was asked for. The objects
//! in memory tell their bytes and say exactly when a call fails; those of the host tell no content. This crate stands
//! on the base crate alone; the program above it is written once for all stores and sinks.
#![tactic(auto)]

pub mod faults;
pub mod gate;
pub mod host;
pub mod memory;
pub mod memory_sink;
pub mod outside;
#[cfg(test)]
mod tests;
