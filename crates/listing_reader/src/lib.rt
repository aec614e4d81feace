//! Listings read back: the halfwords that the lines of a listing hold.
//!
//! [`reading::read_listing`] gives, for the text of a listing, each halfword with its place, in the order of the lines, or
//! the first line that is refused: one with no form, or one with which there are more halfwords than text can have.
//!
//! Below stand the number types alone. Nothing here runs a guest.
#![tactic(auto)]

pub mod fault;
pub mod laws;
pub mod line;
pub mod reading;
#[cfg(test)]
mod tests;
mod words;
