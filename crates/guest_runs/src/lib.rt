//! The runs of guests to their end: an image, a setup and views in, and out what the run came to. No file is read here.
//!
//! - [`engine`]: the events of a run, to its end.
//! - [`alone`]: the run of one vCPU under the view of its app, to its end.
//! - [`driven`]: the run of several vCPUs by a script, to its end, and its trace.
//! - [`log`]: the text of a log.
//! - [`laws`]: what is true of the log of each run.
//!
//! `specs/Engine.antt` says which events are made: those that a script asks for, and then those of vCPU 0, 1, .. again and
//! again, until no vCPU may step. `specs/Alone.antt` and `specs/Driven.antt` say what a run came to: the end and the
//! console are those of the full kernel, the log of one vCPU has a line for each piece of missing code that it reached, and
//! the trace of a run by a script is sound.
//!
//! Below stand the core, whose event this repeats, and the trace of a run; above, the commands.
#![tactic(auto)]

pub mod alone;
pub mod driven;
pub mod engine;
pub mod laws;
pub mod log;
