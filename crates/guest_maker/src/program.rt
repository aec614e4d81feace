//! The program of the guest of a number: its functions, one behind the other.

ghost use Rattle.std.specs.Prelude.{◌≡◌, ◌≤◌, ◌<◌, ◌+◌, ◌*◌, ◌++◌, [], ◌∷◌, length, vec_len, codes, decimal, IfOk, OnOk, List};
ghost use Rattle.guest_maker.specs.Generator.{generator_after, generator_next};
ghost use Rattle.guest_maker.specs.Program.{Routine, IsProgram, idle, idle_count, idle_lines, behind_idle, call_lines, behind_call, drawn_lines, drawn_routine, behind_routine, state_at, numbered, drawn_of, fixed, program};

use crate::generator::Generator;
use crate::line::{Label, Line};
use crate::programs::{A2, BLUE, BOOT, ENTER, LEAVE, RA, RED, SWITCH_TO, TRAP};
use fc_numbers::memory::NoMemory;
use guest_input::image::{Function, Start};
use rv_decode::Inst;
use sqlite_items::Items;
use std::alloc::Global;

/// How many functions have drawn bodies.
pub(crate) const NUMBERED: u32 = 200;

/// The most lines of a program, three pages.
pub(crate) const LINES_MOST: usize = 3072;

/// The lines of the functions whose lines stand as they are.
const FIXED_LINES: usize = 78;

/// The most lines of a function with a drawn body.
const DRAWN_LINES_MOST: usize = 13;

/// The most instructions without use in a drawn body.
const IDLE_MOST: u32 = 4;

/// The numbers in such instructions are below this.
const IDLE_NUMBERS: u32 = 2048;

/// Where this divides the answer, a function does not call.
const SILENT: u32 = 3;

/// How far behind a function the one that it calls may stand.
const WINDOW: u32 = 8;

/// The drawn functions that the tasks call.
#[derive(Clone, Copy)]
pub(crate) struct Drawn {
    pub(crate) first: u8,
    pub(crate) second: u8,
    pub(crate) third: u8,
    pub(crate) fourth: u8,
}

/// A program, as far as it is made.
#[derive(Drop)]
pub(crate) struct Program {
    /// The lines of all functions, one after another.
    pub(crate) lines: Vec<Line>,
    /// The functions, in the order in which they stand.
    pub(crate) functions: Items<Function>,
}

/// Appends a function.
fn push_routine(program: &mut Program, name: Items<u8>, lines: &[Line]) -> Result<(), NoMemory>
    requires { vec_len program.old.lines + length lines.now ≤ LINES_MOST }
    ensures program { OnOk result ((rs : List Routine) → IsProgram program.old rs → IsProgram program.new (rs ++ record { name = name; lines = lines.now } ∷ [])) }
    ensures size { OnOk result (vec_len program.new.lines ≡ vec_len program.old.lines + length lines.now) }
{
    let offset = 4 * program.lines.len() as u32;
    program.functions.push(Function {
        at: Start { range: 0, offset },
        name,
    })?;
    program.lines.extend_from_slice(lines)?;
    Ok(())
}

/// Appends the instructions without use of a drawn body.
#[tactic(auto, unfolding(crate::specs::Program::idle_lines, crate::specs::Program::behind_idle))]
fn push_idle(lines: &mut Vec<Line>, generator: &mut Generator) -> Result<(), NoMemory>
    ensures lines { OnOk result (lines.new.items ≡ lines.old.items ++ idle_lines generator.old) }
    ensures state { OnOk result (generator.new ≡ behind_idle generator.old) }
    ensures few { OnOk result (vec_len lines.new ≤ vec_len lines.old + IDLE_MOST) }
{
    let count = 1 + generator.draw() % IDLE_MOST;
    for _ in 0..count {
        let imm = (generator.draw() % IDLE_NUMBERS) as i64;
        lines.push(Line::Plain(Inst::Addi {
            rd: A2,
            rs1: A2,
            imm,
        }))?;
    }
    Ok(())
}

/// Appends the call of a drawn body, where there is one.
#[tactic(auto, unfolding(crate::specs::Program::call_lines, crate::specs::Program::behind_call))]
fn push_call(lines: &mut Vec<Line>, generator: &mut Generator, number: u8) -> Result<(), NoMemory>
    requires { number < NUMBERED }
    ensures lines { OnOk result (lines.new.items ≡ lines.old.items ++ call_lines number generator.old) }
    ensures state { OnOk result (generator.new ≡ behind_call number generator.old) }
    ensures few { OnOk result (vec_len lines.new ≤ vec_len lines.old + 1) }
{
    let left = NUMBERED - 1 - number as u32;
    if left == 0 {
        return Ok(());
    }
    if generator.draw() % SILENT == 0 {
        return Ok(());
    }
    let callee = number as u32 + 1 + generator.draw() % WINDOW.min(left);
    lines.push(Line::Jump {
        rd: RA,
        to: Label::Numbered(callee as u8),
    })?;
    Ok(())
}

/// The lines of a function with a drawn body.
#[tactic(auto, unfolding(crate::specs::Program::drawn_lines))]
fn drawn_lines(alloc: Global, generator: &mut Generator, number: u8) -> Result<Vec<Line>, NoMemory>
    requires { number < NUMBERED }
    ensures lines { IfOk result (λ lines. lines.items ≡ drawn_lines number generator.old) }
    ensures state { OnOk result (generator.new ≡ behind_routine number generator.old) }
    ensures few { IfOk result (λ lines. vec_len lines ≤ DRAWN_LINES_MOST) }
{
    let mut lines = Vec::from_slice(alloc, &ENTER)?;
    push_idle(&mut lines, generator)?;
    push_call(&mut lines, generator, number)?;
    lines.extend_from_slice(&LEAVE)?;
    Ok(lines)
}

/// The name of such a function.
fn drawn_name(alloc: Global, number: u8) -> Result<Items<u8>, NoMemory>
    ensures { IfOk result (λ name. name ≡ codes "f" ++ decimal number) }
{
    let name = format!(in alloc; "f{number}")?;
    Ok(Items::from_slice(alloc, name.as_bytes())?)
}

/// Appends such a function.
fn push_drawn(
    alloc: Global,
    program: &mut Program,
    generator: &mut Generator,
    number: u8,
) -> Result<(), NoMemory>
    requires number { number < NUMBERED }
    requires room { vec_len program.old.lines + DRAWN_LINES_MOST ≤ LINES_MOST }
    ensures program { OnOk result ((rs : List Routine) → IsProgram program.old rs → IsProgram program.new (rs ++ drawn_routine number generator.old ∷ [])) }
    ensures state { OnOk result (generator.new ≡ behind_routine number generator.old) }
    ensures size { OnOk result (vec_len program.new.lines ≤ vec_len program.old.lines + DRAWN_LINES_MOST) }
{
    let name = drawn_name(alloc, number)?;
    let lines = drawn_lines(alloc, generator, number)?;
    push_routine(program, name, lines.as_slice())
}

/// Appends a function whose lines stand as they are.
fn push_fixed(
    alloc: Global,
    program: &mut Program,
    name: &[u8],
    lines: &[Line],
) -> Result<(), NoMemory>
    requires { vec_len program.old.lines + length lines.now ≤ LINES_MOST }
    ensures program { OnOk result ((rs : List Routine) → IsProgram program.old rs → IsProgram program.new (rs ++ record { name = name.now; lines = lines.now } ∷ [])) }
    ensures size { OnOk result (vec_len program.new.lines ≡ vec_len program.old.lines + length lines.now) }
{
    push_routine(program, Items::from_slice(alloc, name)?, lines)
}

/// The functions whose lines stand as they are.
fn fixed_program(alloc: Global) -> Result<Program, NoMemory>
    ensures program { IfOk result (λ made. IsProgram made fixed) }
    ensures size { IfOk result (λ made. vec_len made.lines ≡ FIXED_LINES) }
{
    let mut program = Program {
        lines: Vec::new(alloc),
        functions: Items::new(alloc),
    };
    push_fixed(alloc, &mut program, b"boot", &BOOT)?;
    push_fixed(alloc, &mut program, b"trap", &TRAP)?;
    push_fixed(alloc, &mut program, b"switch_to", &SWITCH_TO)?;
    push_fixed(alloc, &mut program, b"red", &RED)?;
    push_fixed(alloc, &mut program, b"blue", &BLUE)?;
    Ok(program)
}

/// Draws the functions that the tasks call.
fn draw_called(generator: &mut Generator) -> Drawn
    ensures drawn { result ≡ drawn_of generator.old }
    ensures state { generator.new ≡ generator_after 4 generator.old }
{
    let first = (generator.draw() % NUMBERED) as u8;
    let second = (generator.draw() % NUMBERED) as u8;
    let third = (generator.draw() % NUMBERED) as u8;
    let fourth = (generator.draw() % NUMBERED) as u8;
    Drawn {
        first,
        second,
        third,
        fourth,
    }
}

/// Appends all functions with drawn bodies.
fn push_all_drawn(
    alloc: Global,
    program: &mut Program,
    generator: &mut Generator,
) -> Result<(), NoMemory>
    requires { vec_len program.old.lines ≤ FIXED_LINES }
    ensures program { OnOk result ((rs : List Routine) → IsProgram program.old rs → IsProgram program.new (rs ++ numbered NUMBERED generator.old)) }
    ensures size { OnOk result (vec_len program.new.lines ≤ LINES_MOST) }
{
    for number in 0..NUMBERED {
        push_drawn(alloc, program, generator, number as u8)?;
    }
    Ok(())
}

/// The program of the guest of a number, and the functions that its tasks call.
#[tactic(auto, unfolding(crate::specs::Program::program))]
pub(crate) fn program_of(alloc: Global, seed: u64) -> Result<(Program, Drawn), NoMemory>
    ensures program { IfOk result (λ made. IsProgram made.0 (program seed)) }
    ensures drawn { IfOk result (λ made. made.1 ≡ drawn_of seed) }
    ensures size { IfOk result (λ made. vec_len made.0.lines ≤ LINES_MOST) }
{
    let mut generator = Generator::new(seed);
    let drawn = draw_called(&mut generator);
    let mut program = fixed_program(alloc)?;
    push_all_drawn(alloc, &mut program, &mut generator)?;
    Ok((program, drawn))
}
