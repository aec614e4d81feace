//! What a run is made of: the image of a kernel and the setup of its machine, as all crates above the readers see them.
//!
//! - [`image`]: kernel text in ranges, functions and their starts, data parts, the image.
//! - [`ranges`]: the bytes of text, with the places where they stand; [`laws`]: how the two go together.
//! - [`setup`]: vCPUs, RAM, steps, hook, device events.
//! - [`limits`]: how much of each there may be.
//! - [`laws`]: how starts are ordered.
//!
//! `specs/` says what holds of every image and setup that was accepted. No file format is known here: the readers stand
//! above, beside the machine.
#![tactic(auto)]

pub mod image;
pub mod laws;
pub mod limits;
pub mod ranges;
pub mod setup;
