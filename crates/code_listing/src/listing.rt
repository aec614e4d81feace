//! The listing of a view.

ghost use Rattle.std.specs.Prelude.{◌≡◌, ◌≤◌, ◌<◌, ◌+◌, ◌*◌, ◌/◌, ◌^◌, ◌++◌, true, length, IfOk, OnOk};
ghost use Rattle.fc_numbers.specs.Spans.{offset_in, size_of, text_size};
ghost use Rattle.fc_numbers.specs.Spans as spans;
ghost use Rattle.guest_input.specs.Accepted.{IsImage};
ghost use Rattle.function_table.specs.Groups.{groups_count, groups_of, in_groups_text, range_of};
ghost use Rattle.view_store.specs.Paged.{mask_of};
ghost use Rattle.chain_log.specs.Line.{holder_of};
ghost use Rattle.code_listing.specs.Listing.{group_text, halves_at, head_line, listing_of, text_of_group};

use crate::halves::{first_place, group_halves};
use crate::lines::push_lines;
use crate::text::push_hex;
use fc_numbers::memory::NoMemory;
use fc_numbers::places::{Gpa, GroupNo, Span};
use function_table::table::Table;
use guest_input::image::Image;
use std::alloc::Global;
use view_store::view::View;

/// The name of the function that holds a place of text.
fn holder_name<'a>(image: &'a Image, table: &Table, at: Gpa) -> &'a [u8]
    requires table { table.now ≡ groups_of image.now }
    requires text { in_groups_text table.now at ≡ true }
    ensures { result.now ≡ (holder_of image.now at).name }
{
    let Some(n) = table.function_at(at) else {
        unreachable!()
    };
    image.functions.as_slice()[n as usize].name.as_slice()
}

/// Appends the line of a group with this range.
#[tactic(auto, unfolding(crate::specs::Listing::head_line))]
fn push_head(
    alloc: Global,
    out: &mut Vec<u8>,
    image: &Image,
    table: &Table,
    range: Span,
) -> Result<(), NoMemory>
    requires table { table.now ≡ groups_of image.now }
    requires text { in_groups_text table.now range.start ≡ true }
    ensures { OnOk result (out.new.items ≡ out.old.items ++ head_line image.now range) }
{
    push_hex(alloc, out, range.start.0)?;
    out.push(b' ')?;
    push_hex(alloc, out, range.end.0)?;
    out.push(b' ')?;
    out.extend_from_slice(holder_name(image, table, range.start))?;
    out.push(b'\n')?;
    Ok(())
}

/// Appends a present group.
fn push_present(
    alloc: Global,
    out: &mut Vec<u8>,
    view: &View,
    image: &Image,
    table: &Table,
    g: GroupNo,
) -> Result<(), NoMemory>
    requires table { table.now ≡ groups_of image.now }
    requires groups { view.now.groups ≡ table.now }
    requires group { g < groups_count table.now }
    ensures { OnOk result (out.new.items ≡ out.old.items ++ group_text image.now view.now g) }
{
    push_head(alloc, out, image, table, table.range(g))?;
    let halves = group_halves(view, table, g);
    push_lines(alloc, out, first_place(table, g), halves)?;
    Ok(())
}

/// Appends a group, where it is present.
fn push_group(
    alloc: Global,
    out: &mut Vec<u8>,
    view: &View,
    image: &Image,
    table: &Table,
    g: GroupNo,
) -> Result<(), NoMemory>
    requires table { table.now ≡ groups_of image.now }
    requires groups { view.now.groups ≡ table.now }
    requires group { g < groups_count table.now }
    ensures { OnOk result (out.new.items ≡ out.old.items ++ text_of_group image.now view.now g) }
{
    if !view.present(g) {
        return Ok(());
    }
    push_present(alloc, out, view, image, table, g)
}

/// The listing of the code that a view of this image has: what its present groups hold, instruction by instruction.
pub fn listing(
    alloc: Global,
    view: &View,
    image: &Image,
    table: &Table,
) -> Result<Vec<u8>, NoMemory>
    requires table { table.now ≡ groups_of image.now }
    requires groups { view.now.groups ≡ table.now }
    ensures { IfOk result (λ listing. listing.items ≡ listing_of image.now view.now) }
{
    let mut out = Vec::new(alloc);
    for g in 0..table.groups() {
        push_group(alloc, &mut out, view, image, table, GroupNo(g))?;
    }
    Ok(out)
}
