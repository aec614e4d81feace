//! The crew: one worker for each vCPU, all at work at once on one board and its views.
//!
//! - [`rig`]: what the workers share, and each worker's pass and lane, with all the memory that a run takes.
//! - [`round`]: one round of a worker: a turn of steps, a fill, a lookup or a mend, between taking and giving back.
//! - [`crew`]: all workers, each making rounds until its vCPU may not step, and the run that they made.
//!
//! Promised, in whatever order the threads go on: the board is that of one lawful schedule, the run of which has ended;
//! each log is evidence by that schedule; the logs allow each fetch; the passes together own every vCPU, each with as many
//! steps as the schedule has of it. A round's steps are those of the worker's vCPU, from its own lane. A worker has the
//! board's word or a view's word, and never two.
//!
//! Not promised: that a thread runs, that two threads did, that taking ever succeeds, or who comes first. Where no thread
//! can be made the workers run one after another. Below stand the core's rows and the table of board and views; above,
//! the program.
#![tactic(auto)]

pub mod crew;
#[cfg(test)]
mod guests;
pub mod rig;
pub mod round;
#[cfg(test)]
mod tests;
