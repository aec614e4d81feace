//! Kernels: which are accepted, and how they are read from ELF files.
//!
//! A file lays out a kernel: segments of code and of data, places that have names, and the place of the first
//! instruction ([`laid::Laid`]). [`kernel::kernel_of_laid`] gives exactly the kernel that is laid out, or the first
//! fault by the order of [`parts::ElfFault`], or says that memory ran out; every form of image is accepted by it.
//!
//! An ELF file is read as an executable of 64 bits for RISC-V, little endian (ELF-64). Its executable segments are the
//! text, its other segments are data, and the symbols of functions name places in text. [`read::read_elf`] lays out
//! what the file's bytes hold. The file bytes of each segment are copied once.
//!
//! - [`laid`]: a kernel as its file lays it out.
//! - [`parts`]: a kernel, and why a file is none.
//! - [`kernel`]: which kernels are accepted.
//! - [`starts`]: the functions of text, from the places that have names.
//! - [`read`]: the reader of ELF files; `fields` has their headers, sections and symbols, `tables` their tables.
//!
//! Below stand `fc_numbers` and `guest_input`. Above stands `guest_image`, which makes the image that a run starts from.
#![tactic(auto)]

mod fields;
pub mod kernel;
pub mod laid;
pub mod parts;
pub mod read;
pub mod starts;
mod tables;
#[cfg(test)]
mod tests;
