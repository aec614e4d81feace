//! Two values side by side, and their text.

ghost use Rattle.std.specs.Prelude.{◌≡◌, ◌++◌, IfOk, codes, string_bytes};
ghost use Rattle.std.specs.Fmt.{decimal};
ghost use Rattle.hex.specs.Hex.{encode_lower};
ghost use Rattle.chain_log.specs.Line.{hex};
ghost use Rattle.replay_command.specs.Comparisons.{IsNumbered, differs, end_name, shown, text_of_comparison};

use fc_numbers::machine::{End, Stop};
use fc_numbers::memory::NoMemory;
use std::alloc::Global;
use trace_file::state::value_name;
use trace_file::trace::DIGEST;

/// A value of the full kernel's run, on the left, and that of a trace, on the right.
#[derive(Drop)]
pub enum Comparison {
    /// How many vCPUs there are, by the setup and by the trace.
    Vcpus {
        left: u8,
        right: u8,
    },
    /// How many steps of the schedule exist, and how many it has.
    Schedule {
        left: usize,
        right: usize,
    },
    /// The ends; on the left none where the run has not ended.
    Ending {
        left: Option<End>,
        right: End,
    },
    /// The value of this number, in the order of the format, of the state of a vCPU.
    Value {
        vcpu: u8,
        number: usize,
        left: u64,
        right: u64,
    },
    /// The digests of the memory.
    Memory {
        left: [u8; DIGEST],
        right: [u8; DIGEST],
    },
}

/// The name of an end; of none where the run goes on.
pub fn end_name(end: Option<End>) -> &'static str
    ensures { result.now ≡ end_name end }
{
    match end {
        None => "Running",
        Some(End::Spent) => "Spent",
        Some(End::Shutdown) => "Shutdown",
        Some(End::Stopped(Stop::StoreToText)) => "StoreToText",
        Some(End::Stopped(Stop::TableInText)) => "TableInText",
        Some(End::Stopped(Stop::KernelOutsideText)) => "KernelOutsideText",
        Some(End::Stopped(Stop::TextSplit)) => "TextSplit",
    }
}

/// The text of a comparison of numbers.
fn numbers_text(alloc: Global, what: &str, left: usize, right: usize) -> Result<String, NoMemory>
    ensures { IfOk result (λ text. string_bytes text ≡ shown what.now (decimal left) (decimal right)) }
{
    Ok(format!(in alloc; "{what} {left} {right}")?)
}

/// The text of a comparison of vCPU values.
fn value_text(
    alloc: Global,
    vcpu: u8,
    name: &str,
    left: u64,
    right: u64,
) -> Result<String, NoMemory>
    ensures { IfOk result (λ text. string_bytes text ≡ shown (codes "vcpu " ++ decimal vcpu ++ codes " " ++ name.now) (hex left) (hex right)) }
{
    Ok(format!(in alloc; "vcpu {vcpu} {name} 0x{left:x} 0x{right:x}")?)
}

/// The text of a comparison of digests.
fn memory_text(alloc: Global, left: &[u8; DIGEST], right: &[u8; DIGEST]) -> Result<String, NoMemory>
    ensures { IfOk result (λ text. string_bytes text ≡ shown (codes "memory") (encode_lower left.now) (encode_lower right.now)) }
{
    let left = hex::encode(alloc, left.as_slice())?;
    let right = hex::encode(alloc, right.as_slice())?;
    Ok(format!(in alloc; "memory {left} {right}")?)
}

impl Comparison {
    /// Whether the two sides differ.
    pub fn differs(&self) -> bool
        ensures { result ≡ differs self.now }
    {
        match self {
            Comparison::Vcpus { left, right } => left != right,
            Comparison::Schedule { left, right } => left != right,
            Comparison::Ending { left, right } => end_name(*left) != end_name(Some(*right)),
            Comparison::Value { left, right, .. } => left != right,
            Comparison::Memory { left, right } => left != right,
        }
    }

    /// What is compared, and the two sides, with a space between them.
    pub fn text(&self, alloc: Global) -> Result<String, NoMemory>
        requires { IsNumbered self.now }
        ensures { IfOk result (λ text. string_bytes text ≡ text_of_comparison self.now) }
    {
        match self {
            Comparison::Vcpus { left, right } => {
                numbers_text(alloc, "vcpus", *left as usize, *right as usize)
            }
            Comparison::Schedule { left, right } => numbers_text(alloc, "schedule", *left, *right),
            Comparison::Ending { left, right } => {
                let left = end_name(*left);
                let right = end_name(Some(*right));
                Ok(format!(in alloc; "end {left} {right}")?)
            }
            Comparison::Value {
                vcpu,
                number,
                left,
                right,
            } => value_text(alloc, *vcpu, value_name(*number), *left, *right),
            Comparison::Memory { left, right } => memory_text(alloc, left, right),
        }
    }
}
