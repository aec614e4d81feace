//! The frame of every command: the files that it takes, what it makes of them, and what its answer means.
//!
//! - [`inputs`]: the files that a command takes, one after another.
//! - [`fault`]: why a file is refused.
//! - [`product`]: what a command makes, or why it makes nothing; [`products`]: its files, and its end by that of a run.
//! - [`finish`]: the writing of a product.
//! - [`answer`]: what a command comes to.
//! - [`status`]: how the program ends.
//! - [`line`]: the line on standard error.
//! - [`number`]: the numbers among the words.
//! - [`laws`]: that files decide what they give.
//!
//! A command is an ordinary function from words and a store to a product or a refusal: it takes its input files with the
//! calls of [`inputs`] and makes all its output before the first write. [`finish::finish`] writes the product, and
//! [`line::tell`] says what came of it. What a command promises is a value of the definitions (`specs/Promise.antt`): the
//! line of files that it takes and the relation of what it makes. What an answer then means stands once, for every
//! promise, in `specs/Command.antt`.
//!
//! Below stand the readers of files and the outside; above, the commands.
#![tactic(auto)]

pub mod answer;
pub mod fault;
pub mod finish;
pub mod inputs;
pub mod laws;
pub mod line;
pub mod number;
pub mod product;
pub mod products;
pub mod status;
#[cfg(test)]
mod tests;
