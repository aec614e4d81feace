//! Profiles: which functions of a kernel each app uses, as views, found by one run of the kernel in full.
//!
//! A profile is of the round-robin run of an image by a setup: vCPU 0, 1, .. again and again, passing over those that may
//! not step, to the end of the run. [`turns`] says whose turn it is, [`tally`] keeps what was seen so far, and
//! [`profile`] makes the run and its views.
//!
//! Below stand `guest_board`, which steps, `function_table`, which knows the function of a place, and `view_file`, whose
//! views are made. Above stand the commands on views.
#![tactic(auto)]

pub mod profile;
mod run;
mod seen;
mod tally;
mod turns;
