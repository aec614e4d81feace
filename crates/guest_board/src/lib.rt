//! The board of a guest: its vCPUs, memory, devices, console and schedule, and the two ways in which a vCPU steps.
//!
//! - [`fetch`]: where an instruction is fetched from, by the original memory.
//! - [`step`]: one step of one vCPU: the interrupt that is due, else the fetch, the trap or the effect.
//! - [`seen`]: what a vCPU does by the halfwords that its lane holds of a view.
//! - [`rules`]: how many steps a vCPU may make, and where its app name is read.
//! - [`slot`]: what a board keeps of each vCPU.
//! - [`board`]: the board and its steps.
//! - [`laws`]: what every step leaves as it is.
//!
//! `Board::step_full` is one step of the full machine, which reads instructions from the original memory; no view
//! occurs in it. `Board::step_seen` is the same step by windows of a view that are handed in, whatever is in them, or
//! a need of a line, or a trap on a zero; all but a step leave the board as it was. Below stand the crates
//! of one instruction, the memory and the devices; above, the core, which gives each vCPU its lane.
#![tactic(auto)]

pub mod board;
pub mod fetch;
pub mod laws;
mod open;
pub mod rules;
pub mod seen;
pub mod slot;
pub mod step;
#[cfg(test)]
mod tests;
