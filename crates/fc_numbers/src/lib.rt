//! The numbers, names and small types that all crates of the monitor share.
//!
//! - [`places`]: guest places and addresses, the numbers of vCPUs, views and groups, spans of places.
//! - [`machine`]: privilege modes, kinds of access, access widths, and how a run ends.
//! - [`spans`]: kernel text as ranges of places, and the offsets of its bytes; [`laws`]: how the two go together.
//! - [`regs`]: the 32 integer registers with their names, and sign extension.
//! - [`name`]: the name of an application.
//! - [`window`]: a line of a view's pages, of which a lane holds copies.
//! - [`shared`]: bytes that several owners share and nobody changes, as the text of an image.
//! - [`memory`]: want of memory, the one free answer.
//!
//! A place, an address or a number is a type of its own in code, and the plain number in contracts. Nothing
//! here knows of a guest, an image or a view. Every other crate of the monitor stands on this one.
#![tactic(auto)]

pub mod laws;
pub mod machine;
pub mod memory;
pub mod name;
pub mod places;
pub mod regs;
pub mod shared;
pub mod spans;
pub mod window;
