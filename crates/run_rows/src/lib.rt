//! The worked runs of `run`: tests of the top call with threads, and nothing else.
//!
//! - `fixtures`: the kernels with their listings, the files of a call, the call, and what it came to.
//! - `gates`: gates that hold workers up.
//! - `run_tests`: runs, their replays, and refusals.
//!
//! Every value that a test expects was worked out by hand from the rules of the machine and of the formats; it is the same in
//! every order in which the threads may go on, or a gate leaves one order alone.
//! Below stands facechange_cli, which is tested; nothing stands above.
#![tactic(auto)]

#[cfg(test)]
mod fixtures;
#[cfg(test)]
mod gates;
#[cfg(test)]
mod run_tests;
