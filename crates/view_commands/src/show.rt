//! The command `show`.

ghost use Rattle.std.specs.Prelude.{if◌then◌else◌, OnOk, codes, decimal, slice_index_or, ◌++◌, ◌≡◌, ◌+◌, ◌<◌, ◌≤◌, ℕ, List, Option, Some, true, false, map, length, string_bytes, IfOk, count_by, slice_index};
ghost use Rattle.fc_numbers.specs.Spans.{size_of};
ghost use Rattle.function_table.specs.Groups.{groups_count, groups_of, is_function, range_of};
ghost use Rattle.guest_input.specs.Accepted.{IsImage};
ghost use Rattle.view_file.specs.Base.{group_of_start};
ghost use Rattle.view_file.specs.Fits.{IsViewsFor};
ghost use Rattle.command_frame.specs.Promise.{FileContents};
ghost use Rattle.command_frame.specs.Command.{MakeSaid, MakeCounts, HasOutputs};
ghost use Rattle.view_commands.specs.Words.{IsShowForm};
ghost use Rattle.view_commands.specs.Requests.{show_request};
ghost use Rattle.view_commands.specs.Show.{base_line, bytes_in, base_functions_count, base_groups_count, has_group, show_text, size_line};

use command_frame::answer::Ended;
use command_frame::inputs::{take_image, take_views};
use command_frame::product::{Product, Refusal};
use fc_numbers::laws::{offset_of_place, places_are_in_text};
use fc_numbers::memory::NoMemory;
use fc_numbers::places::{GroupNo, ViewNo};
use fc_numbers::spans::place_of;
use fc_outside::outside::Store;
use function_table::table::Table;
use guest_input::image::{Function, Image, Start};
use sqlite_items::Items;
use std::alloc::Global;
use view_file::views::Views;

/// The places of the files in the words.
const IMAGE: usize = 1;

const VIEWS: usize = 2;

/// Whether the words are of the form of `show`.
pub fn is_show(words: &[String]) -> bool
    ensures yes { result ≡ true → IsShowForm (map string_bytes words.now) }
    ensures no { result ≡ false → IsShowForm (map string_bytes words.now) → ⊥ }
{
    match words {
        [verb, _, _] => verb.as_str() == "show",
        _ => false,
    }
}

/// The group of a function of the table.
fn group_of(table: &Table, at: Start) -> GroupNo
    requires { is_function table.now at ≡ true }
    ensures value { result ≡ group_of_start table.now at }
    ensures within { result < groups_count table.now }
{
    offset_of_place();
    places_are_in_text();
    let Some(offset) = table.flat(at) else {
        unreachable!()
    };
    match table.group_of(place_of(table.text(), offset as u64)) {
        Some(group) => group,
        None => unreachable!(),
    }
}

/// How many of the functions are of groups of the base.
fn count_functions(table: &Table, base: &[bool], functions: &[Function]) -> u64
    requires long { length base.now ≡ groups_count table.now }
    requires known { (k : ℕ) (d : Function) → k < length functions.now → is_function table.now (slice_index_or functions.now k d).at ≡ true }
    ensures { result ≡ base_functions_count table.now base.now functions.now }
{
    let mut count = 0;
    for function in functions {
        if base[group_of(table, function.at).0 as usize] {
            count += 1;
        }
    }
    count
}

/// How many groups the base has.
fn count_groups(base: &[bool]) -> usize
    ensures { result ≡ base_groups_count base.now }
{
    base.iter().filter(|has| **has).count()
}

/// The bytes of a group, where the base has it.
fn bytes_of(table: &Table, base: &[bool], g: GroupNo) -> u64
    requires within { g < groups_count table.now }
    requires long { length base.now ≡ groups_count table.now }
    ensures { result ≡ (if has_group base.now g then size_of (range_of table.now g) else 0) }
{
    if !base[g.0 as usize] {
        return 0;
    }
    let range = table.range(g);
    range.end.0 - range.start.0
}

/// The bytes of the groups of the base.
fn count_bytes(table: &Table, base: &[bool]) -> u64
    requires { length base.now ≡ groups_count table.now }
    ensures { result ≡ bytes_in table.now base.now }
{
    let mut bytes = 0;
    for g in 0..table.groups() {
        bytes += bytes_of(table, base, GroupNo(g));
    }
    bytes
}

/// Appends a space and a number in decimal.
fn push_number(alloc: Global, text: &mut Vec<u8>, n: u64) -> Result<(), NoMemory>
    ensures { OnOk result (text.new.items ≡ text.old.items ++ (codes " " ++ decimal n)) }
{
    let word = format!(in alloc; " {n}")?;
    text.extend_from_slice(word.as_bytes())?;
    Ok(())
}

/// Appends the line of a base, with a name.
fn push_line(
    alloc: Global,
    text: &mut Vec<u8>,
    image: &Image,
    table: &Table,
    name: &[u8],
    base: &[bool],
) -> Result<(), NoMemory>
    requires image { IsImage image.now }
    requires table { table.now ≡ groups_of image.now }
    requires long { length base.now ≡ groups_count table.now }
    ensures { OnOk result (text.new.items ≡ text.old.items ++ base_line image.now name.now base.now) }
{
    text.extend_from_slice(name)?;
    push_number(
        alloc,
        text,
        count_functions(table, base, image.functions.as_slice()),
    )?;
    push_number(alloc, text, count_groups(base) as u64)?;
    push_number(alloc, text, count_bytes(table, base))?;
    text.push(b'\n')?;
    Ok(())
}

/// Appends the line of a view, with a name.
fn push_view(
    alloc: Global,
    text: &mut Vec<u8>,
    image: &Image,
    table: &Table,
    views: &Views,
    name: &[u8],
    view: ViewNo,
) -> Result<(), NoMemory>
    requires image { IsImage image.now }
    requires table { table.now ≡ groups_of image.now }
    requires views { IsViewsFor views.now image.now }
    requires view { view ≤ length views.now.apps }
    ensures { OnOk result (text.new.items ≡ text.old.items ++ size_line image.now views.now name.now view) }
{
    let base = views.base(alloc, view, table)?;
    push_line(alloc, text, image, table, name, base.as_slice())
}

/// The sizes of views: a line for the whole text, and one for each app.
fn sizes_of(alloc: Global, image: &Image, table: &Table, views: &Views) -> Result<Vec<u8>, NoMemory>
    requires image { IsImage image.now }
    requires table { table.now ≡ groups_of image.now }
    requires views { IsViewsFor views.now image.now }
    ensures { IfOk result (λ text. text.items ≡ show_text image.now views.now) }
{
    let mut text = Vec::new(alloc);
    push_view(alloc, &mut text, image, table, views, b"text", ViewNo(0))?;
    let apps = views.apps.as_slice();
    for at in 0..apps.len() {
        let name = apps[at].name.bytes();
        push_view(
            alloc,
            &mut text,
            image,
            table,
            views,
            name,
            ViewNo(at as u8 + 1),
        )?;
    }
    Ok(text)
}

/// Tells how much of the kernel each app's view has. The lines go to standard output.
pub fn make_show<S: Store>(
    alloc: Global,
    words: &[String],
    store: &mut S,
) -> Result<Product, Refusal>
    ensures said { (told : FileContents) → S.files store.old ≡ Some told → MakeSaid (show_request (map string_bytes words.now)) told result }
    ensures counted { MakeCounts (show_request (map string_bytes words.now)) (S.reads store.old) (S.reads store.new) result }
    ensures outputs { HasOutputs (show_request (map string_bytes words.now)) result }
    ensures files { S.files store.new ≡ S.files store.old }
    ensures writes { S.writes store.new ≡ S.writes store.old }
{
    let image = take_image(alloc, store, words, IMAGE)?;
    let table = Table::of(alloc, &image)?;
    let views = take_views(alloc, store, words, VIEWS, &image, &table)?;
    let text = sizes_of(alloc, &image, &table, &views)?;
    Ok(Product {
        files: Items::new(alloc),
        out: Items::from_vec(text),
        ended: Ended::Finished,
    })
}
