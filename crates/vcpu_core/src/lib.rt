//! The core of the monitor: vCPUs that fetch from a view, trap on missing code, and mend it.
//!
//! - [`lane`]: what a vCPU holds of its view, and its phase.
//! - [`rows`]: the rows of the view machine, over the parts that each needs: steps, a fill, a lookup, a mend.
//! - [`machine`]: the core of a run, its one event `go`, and several of them, `go_on`.
//! - [`open`]: views, second-stage tables and lanes before the first event.
//! - [`laws`]: what is true after any list of events, and what a lane keeps when other vCPUs go on.
//!
//! `Core::go` is one event of the view machine, exactly. After any list of events the board is the full kernel's run of
//! the steps that were made, each fetch of kernel text was of code that the view has or had restored by then, each
//! entry of a log names missing code about to be fetched, no view has a group twice, and every lane is truthful: its
//! windows are lines of the mask of a front part of its view's log. Of ten events of one vCPU, between which no other vCPU
//! steps, one is a step. With one vCPU, the logs of an ended run are its misses, view by view. A list of events is
//! undisturbed where no other vCPU steps between an event that is none and the next step of its vCPU; where every fetch is
//! of code in the base of its view, such a list logs nothing. A step under a view goes through the second-stage table of
//! that view, which is built when the core opens. Below stand the board, the second stage, the views and the evidence;
//! above, the program.
#![tactic(auto)]

#[cfg(test)]
mod kernels;
pub mod lane;
pub mod laws;
pub mod machine;
pub mod open;
pub mod rows;
#[cfg(test)]
mod tests;
