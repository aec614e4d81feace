//! The second stage of translation: from a guest place to what lies there.
//!
//! - [`stage`]: what a stage answers, the trait that all stages meet, and the stage that compares spans.
//! - [`table`]: the table of a view, Sv39x4 or Sv48x4, and the look-up in it.
//! - [`walk`]: the walk of a list of entries, of either kind.
//!
//! One clause holds for every stage: a place is `Text` exactly in kernel text, `Outside` exactly outside RAM, and else
//! `Ram`. The walk of a table's entries maps text page n of view v to host page 16384 + 1024 v + n with X and U alone,
//! RAM page n outside text to host page n with R, W, X and U, each by a leaf of 4 KiB, and nothing else; a look-up answers
//! by that walk. The pages of text are counted through its ranges, one after another. Below stands `fc_numbers`, and
//! `guest_ram` for the tie of a stage to a memory; the instructions and the board stand above.
#![tactic(auto)]

pub mod stage;
pub mod table;
#[cfg(test)]
mod tests;
pub mod walk;
