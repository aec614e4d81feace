//! Reading files that are one JSON value.
//!
//! - [`parse`]: from bytes to the value, or why there is none.
//! - [`fields`]: what a value says: the members of an object, a whole number, a text, the items of an array.
//! - [`misfit`]: why a reader above gives nothing of a value.
//!
//! A value is serde_json's, and contracts see what it stands for. Each function says its exact answer, so that a
//! reader of files can define its form over the value alone. Below stands serde_json; above are the readers of
//! images, setups and views.
#![tactic(auto)]

pub mod fields;
pub mod misfit;
pub mod parse;
#[cfg(test)]
mod tests;
