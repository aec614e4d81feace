//! Views files: which functions of the kernel each app may run.
//!
//! A views file belongs to one kernel text, which it names by its digest. It lists functions by their starts, each a range
//! of text and an offset in it: those of each app, and those that all apps share. View n is that of the n-th app in order
//! of names, and view 0 is the full view. [`views`] has the types, the view of an app name and the base of a view.
//! [`read`] reads views from JSON: it gives exactly the views that the bytes write, or the first fault by the format's
//! order, or says that memory ran out. What is accepted fits its kernel: every listed function is one of the kernel's. A
//! file of version 1, which knows one range alone, is read too: its offsets are those in range 0. [`write`] writes the one
//! text of views, of version 2, [`merge`] makes the union of two views of one kernel text, and [`laws`] says that a reading
//! has one answer.
//!
//! Below stand `guest_input`, with the image of the kernel that a file is read for, and `function_table`, which knows the
//! groups of joined functions. Above stand the profiler, which makes views, and the core, which runs a guest under them.
#![tactic(auto)]

pub mod fault;
pub mod laws;
pub mod merge;
mod named;
pub mod read;
#[cfg(test)]
mod tests;
#[cfg(test)]
mod text_tests;
pub mod views;
pub mod write;
pub mod written;
