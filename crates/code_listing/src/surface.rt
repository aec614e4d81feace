//! The surface of views: how much code of the kernel each app's view has.

ghost use Rattle.std.specs.Prelude.{◌≡◌, ◌≤◌, ◌<◌, ◌+◌, ◌*◌, ◌^◌, ◌++◌, length, count_by, slice_index_or, IfOk, OnOk};
ghost use Rattle.lane_kernels.specs.Kernels.{is_open};
ghost use Rattle.guest_input.specs.Accepted.{IsImage};
ghost use Rattle.guest_input.specs.Text.{bytes_of};
ghost use Rattle.function_table.specs.Groups.{groups_of};
ghost use Rattle.view_file.specs.Fits.{IsViewsFor};
ghost use Rattle.view_store.specs.Paged.{mask_of};
ghost use Rattle.code_listing.specs.Surface.{app_line, built_view, figures_line, full_line, is_same_page, no_app, pages_in, present_halves, same_pages, surface_of, text_halves};

use crate::halves::group_size;
use crate::text::push_decimal;
use fc_numbers::memory::NoMemory;
use fc_numbers::places::{GroupNo, ViewNo};
use function_table::table::Table;
use guest_input::image::Image;
use lane_kernels::{open_halves, same};
use std::alloc::Global;
use view_file::views::Views;
use view_store::view::View;

/// The halfwords of a page.
const PAGE_HALVES: usize = 2048;

/// View `number` of these views, as it is built: the base of its app, and nothing logged.
pub fn built_view(
    alloc: Global,
    image: &Image,
    table: &Table,
    views: &Views,
    number: ViewNo,
) -> Result<View, NoMemory>
    requires image { IsImage image.now }
    requires table { table.now ≡ groups_of image.now }
    requires views { IsViewsFor views.now image.now }
    requires number { number ≤ length views.now.apps }
    ensures { IfOk result (λ view. view ≡ built_view image.now views.now number) }
{
    let base = views.base(alloc, number, table)?;
    View::build(alloc, image, table, number, base)
}

/// How many halfwords the present groups of a view have.
fn present_halves(view: &View, table: &Table) -> u64
    requires { view.now.groups ≡ table.now }
    ensures { result ≡ present_halves view.now }
{
    let mut total = 0;
    for g in 0..table.groups() {
        if view.present(GroupNo(g)) {
            total += group_size(table, GroupNo(g)) as u64;
        }
    }
    total
}

/// Whether page n of the halfwords is that of the other ones.
fn is_same_page(halves: &[u16], other: &[u16], n: usize) -> bool
    requires page { n < pages_in halves.now }
    requires other { length other.now ≡ length halves.now }
    ensures { result ≡ is_same_page halves.now other.now n }
{
    let first = PAGE_HALVES * n;
    let end = first + PAGE_HALVES;
    same(&halves[first..end], &other[first..end])
}

/// How many pages of the halfwords are those of the other ones.
fn same_pages(halves: &[u16], other: &[u16]) -> u64
    requires { length other.now ≡ length halves.now }
    ensures { result ≡ same_pages halves.now other.now }
{
    let mut total = 0;
    for n in 0..halves.len() / PAGE_HALVES {
        if is_same_page(halves, other, n) {
            total += 1;
        }
    }
    total
}

/// What a line of a surface counts.
#[derive(Clone, Copy)]
struct Figures {
    halves: u64,
    opened: u64,
    pages: u64,
}

/// Appends a line of a name and three numbers.
#[tactic(auto, unfolding(crate::specs::Surface::figures_line))]
fn push_figures(
    alloc: Global,
    out: &mut Vec<u8>,
    name: &[u8],
    figures: Figures,
) -> Result<(), NoMemory>
    ensures { OnOk result (out.new.items ≡ out.old.items ++ figures_line name.now figures.halves figures.opened figures.pages) }
{
    out.extend_from_slice(name)?;
    out.push(b' ')?;
    push_decimal(alloc, out, figures.halves)?;
    out.push(b' ')?;
    push_decimal(alloc, out, figures.opened)?;
    out.push(b' ')?;
    push_decimal(alloc, out, figures.pages)?;
    out.push(b'\n')?;
    Ok(())
}

/// Appends the line of the original text, which has these halfwords.
fn push_full(alloc: Global, out: &mut Vec<u8>, original: &[u16]) -> Result<(), NoMemory>
    ensures { OnOk result (out.new.items ≡ out.old.items ++ full_line original.now) }
{
    let figures = Figures {
        halves: original.len() as u64,
        opened: open_halves(original),
        pages: (original.len() / PAGE_HALVES) as u64,
    };
    push_figures(alloc, out, b"full", figures)
}

/// What is counted of a view of a text that has these halfwords.
fn figures_of(view: &View, table: &Table, original: &[u16]) -> Figures
    requires groups { view.now.groups ≡ table.now }
    requires text { original.now ≡ text_halves view.now.text }
    ensures halves { result.halves ≡ present_halves view.now }
    ensures opened { result.opened ≡ count_by is_open (mask_of view.now) }
    ensures pages { result.pages ≡ same_pages (mask_of view.now) original.now }
{
    Figures {
        halves: present_halves(view, table),
        opened: open_halves(view.pages()),
        pages: same_pages(view.pages(), original),
    }
}

/// The name of app n, counted from 0.
fn app_name(views: &Views, n: usize) -> &[u8]
    requires { n < length views.now.apps }
    ensures { result.now ≡ (slice_index_or views.now.apps n no_app).name }
{
    views.apps.as_slice()[n].name.bytes()
}

/// Appends the line of app n, counted from 0, where the original text has these halfwords.
fn push_app(
    alloc: Global,
    out: &mut Vec<u8>,
    image: &Image,
    table: &Table,
    views: &Views,
    original: &[u16],
    n: usize,
) -> Result<(), NoMemory>
    requires image { IsImage image.now }
    requires table { table.now ≡ groups_of image.now }
    requires views { IsViewsFor views.now image.now }
    requires text { original.now ≡ text_halves (bytes_of image.now.ranges) }
    requires app { n < length views.now.apps }
    ensures { OnOk result (out.new.items ≡ out.old.items ++ app_line image.now views.now n) }
{
    let view = built_view(alloc, image, table, views, ViewNo(n as u8 + 1))?;
    let figures = figures_of(&view, table, original);
    push_figures(alloc, out, app_name(views, n), figures)
}

/// The surface of views: a line for the original text, with its halfwords, how many of them are open and its pages; and a
/// line for each app, with the halfwords of its base, how many of its view's are open, and how many pages of its view are
/// those of the original text.
pub fn surface(
    alloc: Global,
    image: &Image,
    table: &Table,
    views: &Views,
) -> Result<Vec<u8>, NoMemory>
    requires image { IsImage image.now }
    requires table { table.now ≡ groups_of image.now }
    requires views { IsViewsFor views.now image.now }
    ensures { IfOk result (λ surface. surface.items ≡ surface_of image.now views.now) }
{
    let full = built_view(alloc, image, table, views, ViewNo(0))?;
    let mut out = Vec::new(alloc);
    push_full(alloc, &mut out, full.pages())?;
    for n in 0..views.apps.len() {
        push_app(alloc, &mut out, image, table, views, full.pages(), n)?;
    }
    Ok(out)
}
