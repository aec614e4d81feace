//! The commands of the monitor: from words and files to a console, a log, and a status.
//!
//! - [`words`]: what the words of a command ask for.
//! - [`setup`]: the setup of `try`; [`trial`]: what `try` makes.
//! - [`drive`]: what `drive` makes.
//! - [`command`]: the top call without threads; [`threaded`]: the top call, which serves `run` too.
//! - [`laws`]: that each cause has its answer.
//!
//! [`threaded::face_change`] is the program: over any store and any streams it answers what `specs/Top.antt` says. All but
//! `run` is done by [`command::face_change_still`], which always returns.
//! What each command promises stands in `specs/Requests.antt`, and what an answer to it means in command_frame. Where
//! the answer to `try` is 0 or 9 the guest's console is that of the full kernel, run by the words' setup, and the log
//! has a line for each piece of missing code that the run reached, in order, and no other. Each refusal has its cause.
//!
//! A further command is a variant of [`words::Command`] with the test of its words, its form, the places of its files and
//! its promise; a function as in [`trial`], which takes the files and makes the product; an arm for it in [`command`]; and
//! a line in `proofs/Served.antt`, that its files are sure. Writing, line and status are the frame's.
//!
//! Below stand the frame of commands and the runs of guests; above, `main`, which has the real files and streams.
#![tactic(auto)]

pub mod command;
pub mod drive;
pub mod laws;
pub mod setup;
pub mod threaded;
pub mod trial;
pub mod words;
