//! The devices of a run, and the calls of the SBI.
//!
//! - [`feed`]: [`feed::Feed`], the devices: interrupt lines, software bits, timers, keys, and the supervisor calls.
//! - [`sbi`]: the numbers of the calls, and what a call asks of its caller.
//! - [`lists`]: the lists that a feed makes of its events.
//! - [`masks`]: the vCPUs that a mask of the SBI names.
//!
//! The lines of a vCPU are those of the events that are due by the clock, of its timer and of its software bit, and a
//! call changes registers and devices exactly as its table says. Below stand `fc_numbers` and `guest_input`, whose
//! setups name the events; the instructions stand above.
#![tactic(auto)]

pub mod feed;
mod lists;
mod masks;
pub mod sbi;
#[cfg(test)]
mod tests;
