//! The text of a hostile guest.

ghost use Rattle.std.specs.Prelude.{◌≡◌, ◌≤◌, ◌<◌, ◌+◌, ◌++◌, [], ◌∷◌, length, if◌then◌else◌, codes, IfOk, OnOk};
ghost use Rattle.std.specs.Int.{w16, to_le_bytes};
ghost use Rattle.guest_maker.specs.Hostile.{drawn_half, behind_half, starts_at, behind_half_and_start, hostile_function, hostile_text, hostile_functions};
ghost use Rattle.guest_maker.specs.Program.{function_at_offset};

use crate::generator::Generator;
use fc_numbers::memory::NoMemory;
use guest_input::image::{Function, Start};
use sqlite_items::Items;
use std::alloc::Global;

/// The first function and the trap handler: auipc t0, 0; addi t0, t0, 16; csrw stvec, t0; a jump to the drawn halfwords;
/// then csrr t1, sepc; addi t1, t1, 2; csrw sepc, t1; sret.
pub(crate) const HEAD: [u8; 32] = [
    0x97, 0x02, 0x00, 0x00, 0x93, 0x82, 0x02, 0x01, 0x73, 0x90, 0x52, 0x10, 0x6f, 0x00, 0x40, 0x01,
    0x73, 0x23, 0x10, 0x14, 0x13, 0x03, 0x23, 0x00, 0x73, 0x10, 0x13, 0x14, 0x73, 0x00, 0x20, 0x10,
];

/// The number of the first drawn halfword.
pub(crate) const HALVES_FROM: u16 = 16;

/// How many halfwords are drawn.
pub(crate) const HALVES: u16 = 4080;

/// One halfword in so many is 0.
const ZEROS: u32 = 8;

/// At one halfword in so many a function starts.
const STARTS: u32 = 16;

/// The text of a hostile guest, as far as it is made.
#[derive(Drop)]
pub(crate) struct Hostile {
    pub(crate) text: Vec<u8>,
    pub(crate) functions: Items<Function>,
}

/// Draws a halfword.
fn draw_half(generator: &mut Generator) -> u16
    ensures value { result ≡ drawn_half generator.old }
    ensures state { generator.new ≡ behind_half generator.old }
{
    if generator.draw() % ZEROS == 0 {
        return 0;
    }
    (generator.draw() % 0x1_0000) as u16
}

/// The function at a halfword.
fn function(alloc: Global, number: u16) -> Result<Function, NoMemory>
    ensures { IfOk result (λ function. function ≡ hostile_function number) }
{
    let name = format!(in alloc; "h{number}")?;
    Ok(Function {
        at: Start {
            range: 0,
            offset: 2 * number as u32,
        },
        name: Items::from_slice(alloc, name.as_bytes())?,
    })
}

/// Draws a halfword and whether a function starts there.
fn push_half(
    alloc: Global,
    made: &mut Hostile,
    generator: &mut Generator,
    number: u16,
) -> Result<(), NoMemory>
    ensures text { OnOk result (made.new.text.items ≡ made.old.text.items ++ to_le_bytes w16 (drawn_half generator.old)) }
    ensures functions { OnOk result (made.new.functions ≡ (if starts_at generator.old then made.old.functions ++ hostile_function number ∷ [] else made.old.functions)) }
    ensures state { OnOk result (generator.new ≡ behind_half_and_start generator.old) }
{
    let half = draw_half(generator);
    made.text.extend_from_slice(&half.to_le_bytes())?;
    if generator.draw() % STARTS == 0 {
        made.functions.push(function(alloc, number)?)?;
    }
    Ok(())
}

/// The first function and the trap handler.
fn head(alloc: Global) -> Result<Hostile, NoMemory>
    ensures text { IfOk result (λ made. made.text.items ≡ HEAD) }
    ensures functions { IfOk result (λ made. made.functions ≡ function_at_offset 0 (codes "boot") ∷ []) }
{
    let mut functions = Items::new(alloc);
    functions.push(Function {
        at: Start {
            range: 0,
            offset: 0,
        },
        name: Items::from_slice(alloc, b"boot")?,
    })?;
    Ok(Hostile {
        text: Vec::from_slice(alloc, &HEAD)?,
        functions,
    })
}

/// The text and the functions of the hostile guest of a number.
pub(crate) fn draw_hostile(alloc: Global, seed: u64) -> Result<Hostile, NoMemory>
    ensures text { IfOk result (λ made. made.text.items ≡ hostile_text seed) }
    ensures functions { IfOk result (λ made. made.functions ≡ hostile_functions seed) }
{
    let mut generator = Generator::new(seed);
    let mut made = head(alloc)?;
    for number in HALVES_FROM..HALVES_FROM + HALVES {
        push_half(alloc, &mut made, &mut generator, number)?;
    }
    Ok(made)
}
