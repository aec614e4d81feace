//! Images and setups: what a run starts from, read from files.
//!
//! - [`image`], [`setup`]: why a file is refused.
//! - [`image_file`]: from the bytes of a file to an image.
//! - [`setup_file`]: from the bytes of a file to a setup for an image.
//! - [`limits`]: the tests that a setup passes. Those that a kernel passes are `elf_read`'s, for both forms of image.
//! - [`faults`]: the numbers, names and printed texts of faults.
//!
//! Both readers are exact: an Ok is the value that the bytes mean by the definitions in `specs/ImageFile.antt` and
//! `specs/Limits.antt`, an Err is the first fault in the order of their numbers, and only want of memory is free. What
//! is accepted has the facts of `guest_input`, on which the machine rests. Below stand `guest_input` with the types,
//! `elf_read`, which reads ELF files and accepts kernels, and `json_fields`; above stands the program.
#![tactic(auto)]

pub mod faults;
pub mod image;
pub mod image_file;
pub mod limits;
mod plain;
pub mod setup;
pub mod setup_file;
#[cfg(test)]
mod tests;
