//! What code of the kernel an application still has, for a reader.
//!
//! [`listing::listing`] lists the present groups of a view, instruction by instruction: a line for each group, with
//! its places and the name of its first function, and a line for each item of its halfwords. An item is a run of
//! zeros, 32 bits or 16; what they mean is named with the fields, and has a star where the assembler gives other bits
//! for it. [`surface::surface`] counts, for the original text and for the view of each app, halfwords, open halfwords and
//! pages. Each gives exactly the text of `specs/Listing.antt` and of `specs/Surface.antt`; want of memory alone is free.
//!
//! Below stand views and their pages, the decoders, the assembler and the kernels. Nothing here runs a guest. The
//! commands `list` and `surface` stand above.
#![tactic(auto)]

mod form;
mod halves;
mod items;
pub mod laws;
mod lines;
pub mod listing;
pub mod surface;
mod text;
