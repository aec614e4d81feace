//! The line of text of a log entry.

ghost use Rattle.std.specs.Prelude.{◌≡◌, ◌≤◌, ◌<◌, ◌+◌, ◌-◌, [], ◌∷◌, ◌++◌, All, true, length, codes, IfOk, OnOk};
ghost use Rattle.std.specs.Fmt.{decimal};
ghost use Rattle.guest_input.specs.Accepted.{IsImage};
ghost use Rattle.guest_input.specs.Text.{start_place};
ghost use Rattle.function_table.specs.Groups.{groups_count, groups_of, has_start, in_groups_text};
ghost use Rattle.chain_log.specs.Line.{chain_texts, hex, holder_of, line_of, place_text, spaced};

use crate::entry::LogEntry;
use fc_numbers::memory::NoMemory;
use fc_numbers::places::{Gpa, VcpuNo};
use fc_numbers::spans::place_of;
use function_table::table::Table;
use guest_input::image::{Function, Image, Start};
use std::alloc::Global;

/// Appends a space and a word.
fn push_word(line: &mut Vec<u8>, word: &[u8]) -> Result<(), NoMemory>
    ensures { OnOk result (line.new.items ≡ line.old.items ++ 32 ∷ word.now) }
{
    line.push(b' ')?;
    line.extend_from_slice(word)?;
    Ok(())
}

/// Appends a space and the number of a vCPU in decimal.
fn push_vcpu(alloc: Global, line: &mut Vec<u8>, vcpu: VcpuNo) -> Result<(), NoMemory>
    ensures { OnOk result (line.new.items ≡ line.old.items ++ 32 ∷ decimal vcpu) }
{
    let n = vcpu.0;
    let word = format!(in alloc; "{n}")?;
    push_word(line, word.as_bytes())
}

/// Appends a space and the place in hexadecimal.
fn push_number(alloc: Global, line: &mut Vec<u8>, at: Gpa) -> Result<(), NoMemory>
    ensures { OnOk result (line.new.items ≡ line.old.items ++ 32 ∷ hex at) }
{
    let n = at.0;
    let word = format!(in alloc; "0x{n:x}")?;
    push_word(line, word.as_bytes())
}

/// Appends a plus sign and the number in hexadecimal.
fn push_distance(alloc: Global, line: &mut Vec<u8>, n: u64) -> Result<(), NoMemory>
    ensures { OnOk result (line.new.items ≡ line.old.items ++ (codes "+" ++ hex n)) }
{
    let text = format!(in alloc; "+0x{n:x}")?;
    line.extend_from_slice(text.as_bytes())?;
    Ok(())
}

/// The function that holds a place of text.
fn holder<'a>(image: &'a Image, table: &Table, at: Gpa) -> &'a Function
    requires table { table.now ≡ groups_of image.now }
    requires text { in_groups_text table.now at ≡ true }
    ensures { result.now ≡ holder_of image.now at }
{
    let Some(n) = table.function_at(at) else {
        unreachable!()
    };
    &image.functions.as_slice()[n as usize]
}

/// The place of a start.
fn start_place(table: &Table, at: Start) -> Gpa
    requires { has_start table.now.text at ≡ true }
    ensures { result ≡ start_place table.now.text at }
{
    let Some(offset) = table.flat(at) else {
        unreachable!()
    };
    place_of(table.text(), offset as u64)
}

/// Appends a space and the place, as the function that holds it and the distance from the function's start.
#[tactic(auto, unfolding(crate::specs::Line::place_text))]
fn push_place(
    alloc: Global,
    line: &mut Vec<u8>,
    image: &Image,
    table: &Table,
    at: Gpa,
) -> Result<(), NoMemory>
    requires image { IsImage image.now }
    requires table { table.now ≡ groups_of image.now }
    requires text { in_groups_text table.now at ≡ true }
    ensures { OnOk result (line.new.items ≡ line.old.items ++ 32 ∷ place_text image.now at) }
{
    let function = holder(image, table, at);
    let offset = at.0 - start_place(table, function.at).0;
    push_word(line, function.name.as_slice())?;
    push_distance(alloc, line, offset)
}

/// Appends the places of a chain, each behind a space.
fn push_places(
    alloc: Global,
    line: &mut Vec<u8>,
    image: &Image,
    table: &Table,
    places: &[Gpa],
) -> Result<(), NoMemory>
    requires image { IsImage image.now }
    requires table { table.now ≡ groups_of image.now }
    requires text { All (λ place. in_groups_text table.now place ≡ true) places.now }
    ensures { OnOk result (line.new.items ≡ line.old.items ++ spaced (chain_texts image.now places.now)) }
{
    for place in places {
        push_place(alloc, line, image, table, *place)?;
    }
    Ok(())
}

/// The line of the entry, with the name of its view's app, and a newline at its end.
#[tactic(auto, unfolding(crate::specs::Line::line_of))]
pub fn print_entry(
    alloc: Global,
    e: &LogEntry,
    app: &[u8],
    image: &Image,
    table: &Table,
) -> Result<Vec<u8>, NoMemory>
    requires image { IsImage image.now }
    requires table { table.now ≡ groups_of image.now }
    requires group { e.now.group < groups_count table.now }
    requires pc { in_groups_text table.now e.now.pc ≡ true }
    requires chain { All (λ place. in_groups_text table.now place ≡ true) e.now.chain.items }
    ensures { IfOk result (λ line. line.items ≡ line_of image.now app.now e.now) }
{
    let range = table.range(e.group);
    let at = e.at;
    let head = format!(in alloc; "{at}")?;
    let mut line = Vec::from_slice(alloc, head.as_bytes())?;
    push_vcpu(alloc, &mut line, e.vcpu)?;
    push_word(&mut line, app)?;
    push_number(alloc, &mut line, e.pc)?;
    push_place(alloc, &mut line, image, table, e.pc)?;
    push_number(alloc, &mut line, range.start)?;
    push_number(alloc, &mut line, range.end)?;
    push_places(alloc, &mut line, image, table, e.chain.as_slice())?;
    line.push(b'\n')?;
    Ok(line)
}
