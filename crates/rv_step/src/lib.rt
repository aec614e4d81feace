//! One instruction of RV64IMAC with Zicsr, executed on a vCPU.
//!
//! - [`vcpu`]: a vCPU, and what an instruction comes to.
//! - [`causes`]: the causes of exceptions.
//! - [`resolve`]: where an address leads; `reach`: the place that an access reaches.
//! - [`arithmetic`], [`memory`], [`system`]: what each class of instructions does.
//! - [`execute`]: one instruction, after its fetch.
//! - [`laws`]: what holds whatever is executed.
//!
//! [`execute::execute`] leaves a vCPU, memory and devices exactly as `specs/Executed.antt` says, over every second stage
//! that tells kernel text from other RAM, and never touches the bytes of kernel text. The rules are those of the
//! unprivileged and the privileged RISC-V manual; a store to text, and a table entry in text, stop the run by name.
//!
//! Below stand the decoder's instructions and their classes, arithmetic, control registers, traps, memory, both stages
//! of translation and the devices. Fetching, taking traps and stepping several vCPUs are the board's, which stands above.
#![tactic(auto)]

pub mod arithmetic;
pub mod causes;
pub mod execute;
pub mod laws;
pub mod memory;
mod reach;
pub mod resolve;
pub mod system;
#[cfg(test)]
mod tests;
pub mod vcpu;
