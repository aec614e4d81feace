//! The text of views, and unions of views, worked out by hand.

use crate::merge::merge;
use crate::read::parse_views;
use crate::write::write_views;
use std::alloc::{AllocError, Global};
use std::test::Fail;

const DIGEST: &str = "00112233445566778899aABbcCdDeEfF00112233445566778899aabbccddeeff";

/// The text of the views of a file of this version.
fn text(alloc: Global, version: &str, apps: &str, shared: &str) -> Result<String, AllocError> {
    format!(in alloc;
        "{{\"version\":{version},\"text\":\"{DIGEST}\",\"shared\":{shared},\"apps\":{apps}}}"
    )
}

/// What is written for the views of this file, or the fault.
fn rewritten(alloc: Global, file: &str) -> Result<String, AllocError> {
    match parse_views(alloc, file.as_bytes()) {
        Ok(views) => match write_views(alloc, &views) {
            Ok(bytes) => String::from_utf8_lossy(alloc, bytes.as_slice()),
            Err(_) => Err(AllocError),
        },
        Err(fault) => format!(in alloc; "{fault}"),
    }
}

/// What is written for the union of the views of two files, or the fault.
fn merged(alloc: Global, a: &str, b: &str) -> Result<String, AllocError> {
    let (Ok(a), Ok(b)) = (
        parse_views(alloc, a.as_bytes()),
        parse_views(alloc, b.as_bytes()),
    ) else {
        return String::from_str(alloc, "no views");
    };
    match merge(alloc, &a, &b) {
        Ok(views) => match write_views(alloc, &views) {
            Ok(bytes) => String::from_utf8_lossy(alloc, bytes.as_slice()),
            Err(_) => Err(AllocError),
        },
        Err(fault) => format!(in alloc; "{fault}"),
    }
}

/// So many apps with no functions, of names of so many letters and up, each one longer than the one before.
fn many(alloc: Global, letter: &str, count: u8) -> Result<String, AllocError> {
    let mut apps = String::from_str(alloc, "[")?;
    let mut name = String::new(alloc);
    for n in 0..count {
        name.push_str(letter)?;
        apps.push_str(if n == 0 { "" } else { "," })?;
        apps.push_str("{\"name\":\"")?;
        apps.push_str(name.as_str())?;
        apps.push_str("\",\"functions\":[]}")?;
    }
    apps.push_str("]")?;
    Ok(apps)
}

/// The tail of each text that is written here.
const TAIL: &str =
    "\"text\":\"00112233445566778899aabbccddeeff00112233445566778899aabbccddeeff\",\"version\":2}";

#[test]
fn views_have_one_text(rt: HostRuntime) -> Result<(), Fail> {
    let alloc = rt.alloc();
    for (version, apps, shared, want) in [
        ("1", "[]", "[]", "{\"apps\":[],\"shared\":[],"),
        (
            "1",
            "[{\"name\":\"sh\",\"functions\":[12,0]}]",
            "[28]",
            "{\"apps\":[{\"functions\":[[0,0],[0,12]],\"name\":\"sh\"}],\"shared\":[[0,28]],",
        ),
        (
            "2",
            "[{\"name\":\"vi\",\"functions\":[]},{\"name\":\"a\\\"\\\\b\",\"functions\":[[3,4294967295],[0,12],[1,0]]}]",
            "[[1,2],[1,2]]",
            "{\"apps\":[{\"functions\":[[0,12],[1,0],[3,4294967295]],\"name\":\"a\\\"\\\\b\"},{\"functions\":[],\"name\":\"vi\"}],\"shared\":[[1,2]],",
        ),
    ] {
        let file = text(alloc, version, apps, shared)?;
        let written = rewritten(alloc, file.as_str())?;
        let want = format!(in alloc; "{want}{TAIL}")?;
        assert_eq!(rt; written.as_str(), want.as_str());
        let again = rewritten(alloc, written.as_str())?;
        assert_eq!(rt; again.as_str(), want.as_str());
    }
    Ok(())
}

#[test]
fn union_has_the_functions_of_both(rt: HostRuntime) -> Result<(), Fail> {
    let alloc = rt.alloc();
    let a = text(alloc, "1", "[{\"name\":\"sh\",\"functions\":[0]}]", "[4]")?;
    let b = text(
        alloc,
        "2",
        "[{\"name\":\"vi\",\"functions\":[[0,0]]},{\"name\":\"sh\",\"functions\":[[0,12],[0,0]]}]",
        "[[1,0]]",
    )?;
    let both =
        "{\"apps\":[{\"functions\":[[0,0],[0,12]],\"name\":\"sh\"},{\"functions\":[[0,0]],\"name\":\"vi\"}],\"shared\":[[0,4],[1,0]],";
    let want = format!(in alloc; "{both}{TAIL}")?;
    for (first, second) in [(&a, &b), (&b, &a)] {
        let union = merged(alloc, first.as_str(), second.as_str())?;
        assert_eq!(rt; union.as_str(), want.as_str());
    }
    let zero = "0000000000000000000000000000000000000000000000000000000000000000";
    let other = format!(in alloc;
        "{{\"version\":2,\"text\":\"{zero}\",\"shared\":[],\"apps\":[]}}"
    )?;
    let refused = merged(alloc, a.as_str(), other.as_str())?;
    assert_eq!(rt; refused.as_str(), "3 OtherText");
    Ok(())
}

#[test]
fn sixteenth_name_of_a_union_is_refused(rt: HostRuntime) -> Result<(), Fail> {
    let alloc = rt.alloc();
    let eight = text(alloc, "2", many(alloc, "a", 8)?.as_str(), "[]")?;
    for (letter, count, refused) in [("b", 7, false), ("b", 8, true), ("a", 15, false)] {
        let more = text(alloc, "2", many(alloc, letter, count)?.as_str(), "[]")?;
        let union = merged(alloc, eight.as_str(), more.as_str())?;
        assert_eq!(rt; union.as_str() == "5 TooManyApps", refused);
    }
    Ok(())
}
