//! The text of a program.

ghost use Rattle.std.specs.Prelude.{◌≡◌, ◌≤◌, ◌<◌, ◌^◌, ◌+ℤ◌, ◌-ℤ◌, pos, length, map, Some, IsSome, IfOk, OnOk, All, ◌≤ℤ◌, vec_len};
ghost use Rattle.rv_decode.specs.Rows.{decode_of};
ghost use Rattle.rv_words.specs.Words.{encode_of};
ghost use Rattle.guest_maker.specs.declared.program.TheConstants.{LINES_MOST};
ghost use Rattle.guest_maker.specs.Text.{label_number, offset_of, target_of, distance, instruction_of_line, code_from, AllFit, encoded_word, word_bytes, in_pages};

use crate::line::{Label, Line};
use crate::program::Drawn;
use fc_numbers::memory::NoMemory;
use fc_numbers::places::PAGE;
use guest_input::image::Function;
use rv_asm::encode;
use rv_decode::Inst;
use std::alloc::Global;

/// How many functions stand before those with drawn bodies.
pub(crate) const FIXED: usize = 5;

/// The bytes of a word.
pub(crate) const WORD: u32 = 4;

/// The position of a function in the program.
fn number_of(drawn: &Drawn, to: Label) -> usize
    ensures { result ≡ label_number drawn.now to }
{
    match to {
        Label::Trap => 1,
        Label::SwitchTo => 2,
        Label::Red => 3,
        Label::Blue => 4,
        Label::First => FIXED + drawn.first as usize,
        Label::Second => FIXED + drawn.second as usize,
        Label::Third => FIXED + drawn.third as usize,
        Label::Fourth => FIXED + drawn.fourth as usize,
        Label::Numbered(number) => FIXED + number as usize,
    }
}

/// The offset of the function at a position; 0 where there is none.
fn offset_of(functions: &[Function], number: usize) -> u32
    ensures { result ≡ offset_of functions.now number }
{
    match functions.get(number) {
        Some(function) => function.at.offset,
        None => 0,
    }
}

/// How many bytes a function stands behind an offset.
fn distance(functions: &[Function], drawn: &Drawn, at: u32, to: Label) -> i64
    ensures value { result ≡ distance at (target_of functions.now drawn.now to) }
    ensures small { result ≤ℤ pos 0xffff_ffff }
{
    let target = offset_of(functions, number_of(drawn, to));
    target as i64 - at as i64
}

/// The instruction of a line at an offset.
fn resolved(functions: &[Function], drawn: &Drawn, at: u32, line: &Line) -> Inst
    ensures { result ≡ instruction_of_line (target_of functions.now drawn.now) at line.now }
{
    match *line {
        Line::Plain(inst) => inst,
        Line::AddDistance { rd, rs1, to } => {
            let imm = distance(functions, drawn, at, to) + WORD as i64;
            Inst::Addi { rd, rs1, imm }
        }
        Line::Jump { rd, to } => {
            let imm = distance(functions, drawn, at, to);
            Inst::Jal { rd, imm }
        }
        Line::BranchIfEqual { rs1, rs2, to } => {
            let imm = distance(functions, drawn, at, to);
            Inst::Beq { rs1, rs2, imm }
        }
    }
}

/// The word of a line at an offset.
fn word(functions: &[Function], drawn: &Drawn, at: u32, line: &Line) -> u32
    requires { IsSome (encode_of (instruction_of_line (target_of functions.now drawn.now) at line.now)) }
    ensures value { result ≡ encoded_word (instruction_of_line (target_of functions.now drawn.now) at line.now) }
    ensures means { decode_of result ≡ Some (instruction_of_line (target_of functions.now drawn.now) at line.now) }
{
    encode(&resolved(functions, drawn, at, line)).unwrap()
}

/// The words of the lines of a program.
pub(crate) fn words(
    alloc: Global,
    functions: &[Function],
    drawn: &Drawn,
    lines: &[Line],
) -> Result<Vec<u32>, NoMemory>
    requires few { length lines.now ≤ LINES_MOST }
    requires fit { AllFit (target_of functions.now drawn.now) 0 lines.now }
    ensures value { IfOk result (λ words. words.items ≡ map encoded_word (code_from (target_of functions.now drawn.now) 0 lines.now)) }
    ensures means { IfOk result (λ words. map decode_of words.items ≡ map Some (code_from (target_of functions.now drawn.now) 0 lines.now)) }
    ensures small { IfOk result (λ words. All (λ word. word < 2 ^ 32) words.items) }
{
    let mut words = Vec::new(alloc);
    let mut at = 0;
    for line in lines {
        words.push(word(functions, drawn, at, line))?;
        at += WORD;
    }
    Ok(words)
}

/// The bytes of words.
pub(crate) fn word_bytes(alloc: Global, words: &[u32]) -> Result<Vec<u8>, NoMemory>
    ensures { IfOk result (λ bytes. bytes.items ≡ word_bytes words.now) }
{
    let mut bytes = Vec::new(alloc);
    for word in words {
        bytes.extend_from_slice(&word.to_le_bytes())?;
    }
    Ok(bytes)
}

/// Appends zeros to whole pages.
#[tactic(auto, unfolding(crate::specs::Text::in_pages))]
pub(crate) fn fill_pages(bytes: &mut Vec<u8>) -> Result<(), NoMemory>
    requires { vec_len bytes.old < 2 ^ 32 }
    ensures { OnOk result (bytes.new.items ≡ in_pages bytes.old.items) }
{
    let size = bytes.len() as u64;
    let end = (size + (PAGE - 1)) / PAGE * PAGE;
    for _ in 0..end - size {
        bytes.push(0)?;
    }
    Ok(())
}
