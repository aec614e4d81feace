//! Views files of a kernel of two ranges, worked out by hand: its functions start at the bytes 0 and 12 of range 0, and at
//! byte 0 of range 1.

ghost use Rattle.std.specs.Prelude.{[], ◌∷◌, ◌≡◌, ◌+◌, IfOk, length};
ghost use Rattle.function_table.specs.Groups.{groups_of};
ghost use Rattle.guest_input.specs.Accepted.{IsImage};

use crate::read::read_views;
use crate::views::Views;
use fc_numbers::memory::NoMemory;
use fc_numbers::name::Name;
use fc_numbers::places::{Gpa, Span};
use fc_numbers::shared::SharedBytes;
use fc_numbers::spans::Spans;
use function_table::table::Table;
use guest_input::image::{Function, Image, Start};
use guest_input::ranges::Ranges;
use sqlite_items::Items;
use std::alloc::{AllocError, Global};
use std::test::Fail;

const DIGEST: &str = "abababababababababababababababababababababababababababababababab";

/// The place at which the kernel begins.
const BASE: u64 = 0x8000_0000;

fn function(range: u8, offset: u32, alloc: Global) -> Function
    ensures { result.at ≡ record { range = range; offset = offset } }
{
    Function {
        at: Start { range, offset },
        name: Items::new(alloc),
    }
}

/// Two pages, with a page between them.
fn two_pages() -> Spans
    ensures { result.items ≡ record { start = BASE; end = BASE + 4096 } ∷ record { start = BASE + 8192; end = BASE + 12288 } ∷ [] }
{
    let mut spans = Spans::new();
    spans.push(Span {
        start: Gpa(BASE),
        end: Gpa(BASE + 4096),
    });
    spans.push(Span {
        start: Gpa(BASE + 8192),
        end: Gpa(BASE + 12288),
    });
    spans
}

/// The bytes of the two pages, all zero.
fn zeros(alloc: Global) -> Result<Vec<u8>, NoMemory>
    ensures { IfOk result (λ bytes. length bytes.items ≡ 8192) }
{
    Ok(vec![in alloc; 0; 8192]?)
}

fn kernel(alloc: Global) -> Result<Image, NoMemory>
    ensures { IfOk result IsImage }
{
    let bytes = zeros(alloc)?;
    let text = SharedBytes::from_vec(bytes)?;
    let mut functions = Items::new(alloc);
    functions.push(function(0, 0, alloc))?;
    functions.push(function(0, 12, alloc))?;
    functions.push(function(1, 0, alloc))?;
    Ok(Image {
        entry: BASE,
        ranges: Ranges::of(two_pages(), text),
        parts: Items::new(alloc),
        functions,
        digest: [0xab; 32],
    })
}

/// The text of a views file of this version.
fn file(
    alloc: Global,
    version: &str,
    apps: &str,
    shared: &str,
    text: &str,
) -> Result<String, AllocError> {
    format!(in alloc;
        "{{\"version\":{version},\"text\":\"{text}\",\"shared\":{shared},\"apps\":{apps}}}"
    )
}

/// Adds a name and the starts that are listed under it, each as range, `+` and offset.
fn show_starts(
    shown: &mut String,
    name: &str,
    starts: &[Start],
    alloc: Global,
) -> Result<(), AllocError> {
    shown.push_str(name)?;
    for at in starts {
        let start = format!(in alloc; " {}+{}", at.range, at.offset)?;
        shown.push_str(start.as_str())?;
    }
    shown.push_str("; ")
}

/// What the views list.
fn show_views(alloc: Global, views: &Views) -> Result<String, AllocError> {
    let mut shown = String::new(alloc);
    show_starts(&mut shown, "all", views.shared.as_slice(), alloc)?;
    for app in views.apps.as_slice() {
        let name = String::from_utf8_lossy(alloc, app.name.bytes())?;
        show_starts(&mut shown, name.as_str(), app.functions.as_slice(), alloc)?;
    }
    Ok(shown)
}

/// How reading ends: what the views list, or the fault.
fn ends(alloc: Global, bytes: &[u8], image: &Image, table: &Table) -> Result<String, AllocError>
    requires { table.now ≡ groups_of image.now }
{
    match read_views(alloc, bytes, image, table) {
        Ok(views) => show_views(alloc, &views),
        Err(fault) => format!(in alloc; "{fault}"),
    }
}

/// So many apps with no functions, of the names `a`, `aa` and so on.
fn many(alloc: Global, count: u8) -> Result<String, AllocError> {
    let mut apps = String::from_str(alloc, "[")?;
    let mut name = String::new(alloc);
    for n in 0..count {
        name.push_str("a")?;
        apps.push_str(if n == 0 { "" } else { "," })?;
        apps.push_str("{\"name\":\"")?;
        apps.push_str(name.as_str())?;
        apps.push_str("\",\"functions\":[]}")?;
    }
    apps.push_str("]")?;
    Ok(apps)
}

#[test]
fn sixteenth_app_is_refused(rt: HostRuntime) -> Result<(), Fail> {
    let alloc = rt.alloc();
    let image = kernel(alloc)?;
    let table = Table::of(alloc, &image)?;
    for (count, refused) in [(15, false), (16, true)] {
        let bytes = file(alloc, "1", many(alloc, count)?.as_str(), "[]", DIGEST)?;
        let ended = ends(alloc, bytes.as_bytes(), &image, &table)?;
        assert_eq!(rt; ended.as_str() == "5 TooManyApps", refused);
    }
    Ok(())
}

#[test]
fn both_versions_write_the_same_views(rt: HostRuntime) -> Result<(), Fail> {
    let alloc = rt.alloc();
    let image = kernel(alloc)?;
    let table = Table::of(alloc, &image)?;
    for (version, apps, shared, want) in [
        ("1", "[]", "[]", "all; "),
        ("2", "[]", "[]", "all; "),
        (
            "1",
            "[{\"functions\":[12,0,12],\"name\":\"vi\"},{\"functions\":[],\"name\":\"sh\"}]",
            "[12]",
            "all 0+12; sh; vi 0+0 0+12; ",
        ),
        (
            "2",
            "[{\"functions\":[[0,12],[0,0],[0,12]],\"name\":\"vi\"},{\"functions\":[],\"name\":\"sh\"}]",
            "[[0,12]]",
            "all 0+12; sh; vi 0+0 0+12; ",
        ),
        (
            "2",
            "[{\"functions\":[[1,0],[0,12],[1,0]],\"name\":\"sh\"}]",
            "[[1,0],[0,0]]",
            "all 0+0 1+0; sh 0+12 1+0; ",
        ),
    ] {
        let bytes = file(alloc, version, apps, shared, DIGEST)?;
        let ended = ends(alloc, bytes.as_bytes(), &image, &table)?;
        assert_eq!(rt; ended.as_str(), want);
    }
    Ok(())
}

#[test]
fn first_fault_is_answered(rt: HostRuntime) -> Result<(), Fail> {
    let alloc = rt.alloc();
    let image = kernel(alloc)?;
    let table = Table::of(alloc, &image)?;
    let none = "[]";
    let short = "00abababababababababababababababababababababababababababababab";
    let other = "00ababababababababababababababababababababababababababababababab";
    for (version, apps, shared, text, want) in [
        ("1", "[", none, DIGEST, "1 NotJson"),
        ("0", none, none, DIGEST, "2 Shape"),
        ("3", none, none, DIGEST, "2 Shape"),
        ("1.0", none, none, DIGEST, "2 Shape"),
        ("\"1\"", none, none, DIGEST, "2 Shape"),
        ("1", none, none, short, "2 Shape"),
        ("1", none, "[0],\"more\":1", DIGEST, "2 Shape"),
        ("1", none, "[-1]", DIGEST, "2 Shape"),
        ("1", none, "[4294967296]", DIGEST, "2 Shape"),
        ("1", none, "[[0,0]]", DIGEST, "2 Shape"),
        ("2", none, "[0]", DIGEST, "2 Shape"),
        ("2", none, "[[0,0,0]]", DIGEST, "2 Shape"),
        ("2", none, "[[4,0]]", DIGEST, "2 Shape"),
        ("2", none, "[[0,4294967296]]", DIGEST, "2 Shape"),
        (
            "2",
            "[{\"functions\":[0],\"name\":\"s h\"}]",
            none,
            DIGEST,
            "2 Shape",
        ),
        (
            "2",
            "[{\"functions\":[],\"name\":7}]",
            none,
            DIGEST,
            "2 Shape",
        ),
        (
            "2",
            "[{\"functions\":[],\"name\":\"s h\"}]",
            none,
            other,
            "6 BadName",
        ),
        (
            "2",
            "[{\"functions\":[],\"name\":\"\"}]",
            none,
            other,
            "6 BadName",
        ),
        (
            "2",
            "[{\"functions\":[],\"name\":\"sh\"},{\"functions\":[],\"name\":\"sh\"}]",
            none,
            DIGEST,
            "6 BadName",
        ),
        ("2", none, "[[0,2]]", other, "3 OtherText"),
        ("1", none, "[4294967295,2]", DIGEST, "4 UnknownFunction 0 2"),
        (
            "2",
            none,
            "[[3,4294967295]]",
            DIGEST,
            "4 UnknownFunction 3 4294967295",
        ),
        (
            "2",
            none,
            "[[1,12],[0,4096]]",
            DIGEST,
            "4 UnknownFunction 0 4096",
        ),
        (
            "2",
            "[{\"functions\":[[1,2]],\"name\":\"sh\"},{\"functions\":[[0,14]],\"name\":\"vi\"}]",
            "[[2,0]]",
            DIGEST,
            "4 UnknownFunction 0 14",
        ),
    ] {
        let bytes = file(alloc, version, apps, shared, text)?;
        let ended = ends(alloc, bytes.as_bytes(), &image, &table)?;
        assert_eq!(rt; ended.as_str(), want);
    }
    Ok(())
}

#[test]
fn names_have_views_and_bases(rt: HostRuntime) -> Result<(), Fail> {
    let alloc = rt.alloc();
    let image = kernel(alloc)?;
    let table = Table::of(alloc, &image)?;
    let apps =
        "[{\"functions\":[[1,0]],\"name\":\"vi\"},{\"functions\":[[0,12],[0,12]],\"name\":\"sh\"}]";
    let bytes = file(alloc, "2", apps, "[]", DIGEST)?;
    let Ok(views) = read_views(alloc, bytes.as_bytes(), &image, &table) else {
        panic!(rt; "the views are refused");
    };
    for (name, view, base) in [
        (b"sh".as_slice(), 1, [false, true, false]),
        (b"vi".as_slice(), 2, [false, false, true]),
        (b"ed".as_slice(), 0, [true, true, true]),
    ] {
        let name = Name::of(name);
        let number = views.choose(name.as_ref());
        assert_eq!(rt; number.0, view);
        let groups = views.base(alloc, number, &table)?;
        assert_eq!(rt; groups.as_slice(), base.as_slice());
    }
    Ok(())
}
