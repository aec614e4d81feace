//! Functions and groups of a kernel's text, by place.
#![tactic(auto)]

pub mod halves;
pub mod table;
#[cfg(test)]
mod tests;
