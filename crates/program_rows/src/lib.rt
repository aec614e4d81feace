//! The worked runs of the program: tests of the top call, and nothing else, so that the program is proved once.
//!
//! - `kernels`: the kernels, each once, with its listing; `programs`: a small kernel for each cause of a trap and for each
//!   control register; `elf_files`: kernels as ELF files, and damage to them.
//! - `fixtures`: the files of a call, the call, and what it came to.
//! - `try_tables`, `try_tests`: the runs and refusals of `try`.
//! - `drive_tables`, `drive_tests`: the runs and refusals of `drive`, its traces, and their replays.
//! - `replay_tests`: traces that were changed, and what `replay` says of them.
//! - `setup_tests`: the hook of a setup.
//! - `bench_tests`: guests of numbers.
//!
//! Every value that a test expects was worked out by hand from the rules of the machine and of the formats; those of
//! `bench_tests` by a model that was written from these rules.
//! Below stands facechange_cli, which is tested; nothing stands above.
#![tactic(auto)]

#[cfg(test)]
mod bench_tests;
#[cfg(test)]
mod drive_tables;
#[cfg(test)]
mod drive_tests;
#[cfg(test)]
mod elf_files;
#[cfg(test)]
mod fixtures;
#[cfg(test)]
mod kernels;
#[cfg(test)]
mod programs;
#[cfg(test)]
mod replay_tests;
#[cfg(test)]
mod setup_tests;
#[cfg(test)]
mod try_tables;
#[cfg(test)]
mod try_tests;
