//! Worked runs of guests that are made from a number: tests of the top call, and nothing else.
//!
//! - `fixtures`: a made guest as files, a call of the program over them, what it came to, and the lines of a log.
//! - `guest_tests`: the guest of 7, profiled, driven under that profile, and replayed.
//! - `hostile_tables`, `hostile_tests`: hostile guests, driven under a view of one function, and replayed.
//!
//! What traces, logs and consoles have to be was worked out by a model of its own, written from the rules of the machine
//! and of the formats.
//! Below stand facechange_cli, which is tested, and guest_maker; nothing stands above.
#![tactic(auto)]

#[cfg(test)]
mod fixtures;
#[cfg(test)]
mod guest_tests;
#[cfg(test)]
mod hostile_tables;
#[cfg(test)]
mod hostile_tests;
