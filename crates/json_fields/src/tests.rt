//! Texts with hand-made answers.

use crate::fields::whole;
use crate::parse::{Unread, parse};
use std::test::Fail;

#[test]
fn whole_numbers_are_those_written_as_such(rt: HostRuntime) -> Result<(), Fail> {
    let alloc = rt.alloc();
    for (text, want) in [
        ("0", Some(0)),
        (" 18446744073709551615\n", Some(18_446_744_073_709_551_615)),
        ("18446744073709551616", None),
        ("-0", None),
        ("-1", None),
        ("1.0", None),
        ("1e3", None),
        ("\"1\"", None),
        ("null", None),
    ] {
        let value = parse(alloc, text.as_bytes())?;
        assert_eq!(rt; whole(&value), want, "{text}");
    }
    Ok(())
}

#[test]
fn arrays_nest_to_127(rt: HostRuntime) -> Result<(), Fail> {
    let alloc = rt.alloc();
    for (depth, fits) in [(127, true), (128, false)] {
        let mut text = String::new(alloc);
        for _ in 0..depth {
            text.push_str("[")?;
        }
        for _ in 0..depth {
            text.push_str("]")?;
        }
        match parse(alloc, text.as_bytes()) {
            Ok(_) => assert_eq!(rt; fits, true),
            Err(fault) => {
                assert_eq!(rt; fits, false);
                assert_eq!(rt; fault, Unread::NotJson);
            }
        }
    }
    Ok(())
}
