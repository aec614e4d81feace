//! Pieces of a listing's lines, appended to bytes.

ghost use Rattle.std.specs.Prelude.{◌≡◌, [], ◌∷◌, ◌++◌, codes, if◌then◌else◌, OnOk};
ghost use Rattle.std.specs.Fmt.{decimal, signed_decimal};
ghost use Rattle.chain_log.specs.Line.{hex};
ghost use Rattle.code_listing.specs.Lines.{field_text, fields_text, half_digits, instruction_text};

use crate::form::{Fields, form_of};
use fc_numbers::memory::NoMemory;
use rv_decode::Inst;
use std::alloc::Global;

/// Appends a number in hexadecimal, behind 0x.
pub(crate) fn push_hex(alloc: Global, out: &mut Vec<u8>, n: u64) -> Result<(), NoMemory>
    ensures { OnOk result (out.new.items ≡ out.old.items ++ hex n) }
{
    let text = format!(in alloc; "0x{n:x}")?;
    out.extend_from_slice(text.as_bytes())?;
    Ok(())
}

/// Appends a number in decimal.
pub(crate) fn push_decimal(alloc: Global, out: &mut Vec<u8>, n: u64) -> Result<(), NoMemory>
    ensures { OnOk result (out.new.items ≡ out.old.items ++ decimal n) }
{
    let text = format!(in alloc; "{n}")?;
    out.extend_from_slice(text.as_bytes())?;
    Ok(())
}

/// Appends a halfword as four digits.
#[tactic(auto, unfolding(crate::specs::Lines::half_digits))]
pub(crate) fn push_half(alloc: Global, out: &mut Vec<u8>, half: u16) -> Result<(), NoMemory>
    ensures { OnOk result (out.new.items ≡ out.old.items ++ half_digits half) }
{
    let bytes = [(half / 256) as u8, (half % 256) as u8];
    let text = hex::encode(alloc, bytes)?;
    out.extend_from_slice(text.as_bytes())?;
    Ok(())
}

/// Appends a number in decimal, with its sign where it is below 0.
fn push_signed(alloc: Global, out: &mut Vec<u8>, n: i64) -> Result<(), NoMemory>
    ensures { OnOk result (out.new.items ≡ out.old.items ++ signed_decimal n) }
{
    let text = format!(in alloc; "{n}")?;
    out.extend_from_slice(text.as_bytes())?;
    Ok(())
}

/// Appends a space, a name, an equals sign and a number.
fn push_named(alloc: Global, out: &mut Vec<u8>, name: &str, n: i64) -> Result<(), NoMemory>
    ensures { OnOk result (out.new.items ≡ out.old.items ++ (codes " " ++ name.now ++ codes "=" ++ signed_decimal n)) }
{
    out.push(b' ')?;
    out.extend_from_slice(name.as_bytes())?;
    out.push(b'=')?;
    push_signed(alloc, out, n)?;
    Ok(())
}

/// Appends a field that the instruction has, with its name.
fn push_field(
    alloc: Global,
    out: &mut Vec<u8>,
    name: &str,
    value: Option<i64>,
) -> Result<(), NoMemory>
    ensures { OnOk result (out.new.items ≡ out.old.items ++ field_text name.now value) }
{
    match value {
        Some(n) => push_named(alloc, out, name, n),
        None => Ok(()),
    }
}

/// Appends the fields that an instruction has.
#[tactic(auto, unfolding(crate::specs::Lines::fields_text))]
fn push_fields(alloc: Global, out: &mut Vec<u8>, fields: Fields) -> Result<(), NoMemory>
    ensures { OnOk result (out.new.items ≡ out.old.items ++ fields_text fields) }
{
    push_field(alloc, out, "rd", fields.rd)?;
    push_field(alloc, out, "rs1", fields.rs1)?;
    push_field(alloc, out, "rs2", fields.rs2)?;
    push_field(alloc, out, "imm", fields.imm)?;
    push_field(alloc, out, "csr", fields.csr)?;
    Ok(())
}

/// Appends an instruction, and a star where `other` says that the assembler gives other bits for it.
#[tactic(auto, unfolding(crate::specs::Lines::instruction_text))]
pub(crate) fn push_instruction(
    alloc: Global,
    out: &mut Vec<u8>,
    i: &Inst,
    other: bool,
) -> Result<(), NoMemory>
    ensures { OnOk result (out.new.items ≡ out.old.items ++ instruction_text i.now other) }
{
    let form = form_of(i);
    out.extend_from_slice(form.name.as_bytes())?;
    push_fields(alloc, out, form.fields)?;
    if other {
        out.extend_from_slice(b" *")?;
    }
    Ok(())
}
