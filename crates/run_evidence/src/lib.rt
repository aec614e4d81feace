//! What a run and its logs are evidence of, and which steps of a run are misses.
//!
//! - `specs/`: the full run of a schedule, allowed fetches, justified entries, no group twice, misses.
//! - [`laws`]: that evidence stays evidence when schedule and logs grow, since each definition looks at a front part of
//!   the schedule alone.
//!
//! No code runs here. Below stand the board, views files and views, of which the definitions speak; above, the core,
//! whose laws say that each of its runs is such evidence.
#![tactic(auto)]

pub mod laws;
