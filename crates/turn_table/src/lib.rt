//! A board and views that threads take in turns.
//!
//! - [`known`]: what a pass knows.
//! - [`pass`]: the table and its passes.
//! - [`turns`]: the calls: open, split, join, take, give, look and close.
//!
//! The board and each view have a word of their own in one table of atomic words, so a thread may have the board while
//! another has a view. A thread steps with a [`pass::Pass`], which owns vCPU numbers and carries what was seen: a
//! schedule, and a log for each view. It takes a value out of the table, and gives it back changed as the contracts of
//! the calls allow.
//!
//! Promised, whatever the threads do and in whatever order (`specs/Rule.antt` has the rule): between any two steps of
//! threads the board is that of one lawful schedule, each log is evidence by that schedule, the logs allow each fetch
//! of it, each value is at home or with one pass, and each vCPU number is owned once. Whoever takes a value has seen a
//! beginning of it. [`turns::Turns::close`] hands back the board and the views, of which all this holds.
//!
//! Not promised: that a thread runs, that taking ever succeeds, or who comes first. Taking waits, and so asks for a
//! `Wait`; all other calls return.
//!
//! Below stand the board, the views and the evidence; above, the workers, of which each has a pass.
#![tactic(auto)]

pub mod known;
pub mod pass;
mod rule;
#[cfg(test)]
mod runs;
#[cfg(test)]
mod tests;
pub mod turns;
