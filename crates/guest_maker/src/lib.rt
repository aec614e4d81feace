//! Guests that are made from a number, for measurements and tests.
//!
//! - [`make_guest`]: a kernel of two tasks on each of two vCPUs, which call functions with drawn bodies and are switched
//!   by timer interrupts.
//! - [`make_hostile`]: a kernel of drawn halfwords behind a trap handler, of which nothing is known.
//!
//! Both are exact: image and setup are those of `specs/Guest.antt`, and they are accepted. The programs stand once, as
//! data, in `programs`; their lines name functions, and `text` puts in the distances and has each line assembled.
//! Below stand `rv_asm`, the assembler of one instruction, `guest_input` with the types, and `guest_image`, which digests.
#![tactic(auto)]

ghost use Rattle.std.specs.Prelude.{◌≡◌, IfOk};
ghost use Rattle.guest_input.specs.Accepted.{IsImage, IsSetupFor};
ghost use Rattle.guest_input.specs.Text.{bytes_of};
ghost use Rattle.guest_maker.specs.Text.{Decodes};
ghost use Rattle.guest_maker.specs.Guest.{guest_code, guest_functions, guest_image, guest_text, guest_setup, hostile_image, hostile_setup};

mod generator;
mod guest;
mod hostile;
mod line;
mod program;
mod programs;
#[cfg(test)]
mod tests;
mod text;

use crate::guest::{guest_setup, hostile_setup, image_of, task_names};
use crate::hostile::{Hostile, draw_hostile};
use crate::program::{Program, program_of};
use crate::text::{fill_pages, word_bytes, words};
use fc_numbers::memory::NoMemory;
use guest_input::image::{Function, Image};
use guest_input::setup::Setup;
use sqlite_items::Items;
use std::alloc::Global;

/// The text and the functions of the guest of a number.
#[tactic(auto, unfolding(crate::specs::Guest::guest_functions, crate::specs::Guest::guest_code, crate::specs::Guest::guest_text))]
fn assembled(alloc: Global, seed: u64) -> Result<(Vec<u8>, Items<Function>), NoMemory>
    ensures text { IfOk result (λ made. made.0.items ≡ guest_text seed) }
    ensures functions { IfOk result (λ made. made.1 ≡ guest_functions seed) }
    ensures decodes { IfOk result (λ made. Decodes made.0.items (guest_code seed)) }
{
    let (program, drawn) = program_of(alloc, seed)?;
    let Program { lines, functions } = program;
    let words = words(alloc, functions.as_slice(), &drawn, lines.as_slice())?;
    let mut text = word_bytes(alloc, words.as_slice())?;
    fill_pages(&mut text)?;
    Ok((text, functions))
}

/// The guest of a number: its image and its setup.
///
/// Each vCPU boots, asks for timer interrupts and runs two tasks, `red` and `blue`, which call two functions each, print a
/// letter and switch after an interrupt. There are 200 functions with drawn bodies, and most call one behind them.
pub fn make_guest(alloc: Global, seed: u64) -> Result<(Image, Setup), NoMemory>
    ensures image { IfOk result (λ made. made.0 ≡ guest_image seed) }
    ensures setup { IfOk result (λ made. made.1 ≡ guest_setup) }
    ensures lawful { IfOk result (λ made. IsImage made.0) }
    ensures accepted { IfOk result (λ made. IsSetupFor made.0 made.1) }
    ensures decodes { IfOk result (λ made. Decodes (bytes_of made.0.ranges) (guest_code seed)) }
{
    let (text, functions) = assembled(alloc, seed)?;
    let image = image_of(text, task_names(alloc)?, functions)?;
    Ok((image, guest_setup(alloc)))
}

/// The hostile guest of a number: its image and its setup.
///
/// Its text is a trap handler that skips two bytes, and 4,080 drawn halfwords; at some of them functions start. Any vCPU
/// may run into anything.
pub fn make_hostile(alloc: Global, seed: u64) -> Result<(Image, Setup), NoMemory>
    ensures image { IfOk result (λ made. made.0 ≡ hostile_image seed) }
    ensures setup { IfOk result (λ made. made.1 ≡ hostile_setup) }
    ensures lawful { IfOk result (λ made. IsImage made.0) }
    ensures accepted { IfOk result (λ made. IsSetupFor made.0 made.1) }
{
    let Hostile { text, functions } = draw_hostile(alloc, seed)?;
    let image = image_of(text, Items::new(alloc), functions)?;
    Ok((image, hostile_setup(alloc)))
}
