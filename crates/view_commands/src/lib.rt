//! The commands on views: `profile IMAGE SETUP OUT`, `merge A B OUT` and `show IMAGE VIEWS`.
//!
//! Each command is a recogniser of its words and a function that makes what it is to write, or says why there is nothing:
//! [`profile`] runs a kernel once in full and makes the views that its run shows, [`merge`] joins two views of one kernel,
//! and [`show`] tells how much of a kernel each app's view has.
//!
//! Below stand `command_frame`, which takes files and says what a product is, `profiler` and `view_file`. Above stands the
//! program's command line, which tells words apart.
#![tactic(auto)]

pub mod merge;
pub mod profile;
pub mod show;
#[cfg(test)]
mod tests;
