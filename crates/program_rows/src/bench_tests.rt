//! Runs of guests of numbers: what the five lines say, and which words ask for one.

use crate::fixtures::{Came, Fails, NONE_FAILS, Wanted, call};
use std::alloc::Global;
use std::test::Fail;

/// The call of `bench` over a store without files.
fn bench(alloc: Global, number: &str, fails: Fails) -> Result<Came, Fail> {
    call(alloc, &["bench", number], &[], fails)
}

/// Guests of numbers, each with its five lines. They come from a model of the guests, of the machine and of the views, which
/// was written from their rules alone. None of these guests shuts down or is stopped, so each of its two vCPUs makes all its
/// 8,000 steps.
static GUESTS: [(&str, &[u8]); 4] = [
    (
        "0",
        b"steps 16000\nconsole 168\nrecovered 0\nend Spent\nmemory 54f7c12f06a10b7bd8f204f23375949744128d59076edf0156d164e7ba90356e\n",
    ),
    (
        "1",
        b"steps 16000\nconsole 280\nrecovered 0\nend Spent\nmemory b4c5ab57d21b93176cad87915486008ebbdcf6656a39bbad8136ef36d32e911f\n",
    ),
    (
        "7",
        b"steps 16000\nconsole 468\nrecovered 0\nend Spent\nmemory 580bac86afafabc79fa191b66a2bc2340aaed7d80f0e8441a21e50b369b725c5\n",
    ),
    (
        "18446744073709551615",
        b"steps 16000\nconsole 118\nrecovered 0\nend Spent\nmemory 0c6dd5f5959b4e8d25ee60db9561f0d00061d1d60ff64e31f5ca32560f79d450\n",
    ),
];

#[test]
fn guests_of_numbers_have_their_lines(rt: HostRuntime) -> Result<(), Fail> {
    let alloc = rt.alloc();
    for (number, lines) in &GUESTS {
        let came = bench(alloc, number, NONE_FAILS)?;
        let wanted = Wanted {
            status: 0,
            console: lines,
            log: None,
            line: b"",
        };
        came.is(&rt, number, &wanted);
    }
    Ok(())
}

/// Twice the same bytes.
#[test]
fn a_guest_has_one_run(rt: HostRuntime) -> Result<(), Fail> {
    let alloc = rt.alloc();
    let once = bench(alloc, "7", NONE_FAILS)?;
    let twice = bench(alloc, "7", NONE_FAILS)?;
    assert_eq!(rt; once.status, twice.status);
    assert!(rt; once.out.bytes() == twice.out.bytes());
    Ok(())
}

/// Numbers have no leading zero and no sign, and 64 bits.
#[test]
fn words_without_a_number_are_turned_away(rt: HostRuntime) -> Result<(), Fail> {
    let alloc = rt.alloc();
    let wanted = Wanted {
        status: 2,
        console: b"",
        log: None,
        line: b"2 words\n",
    };
    for number in [
        "",
        "07",
        "00",
        "+7",
        "-1",
        "7 ",
        "0x7",
        "seven",
        "18446744073709551616",
        "018446744073709551615",
        "99999999999999999999",
        "100000000000000000000",
    ] {
        bench(alloc, number, NONE_FAILS)?.is(&rt, number, &wanted);
    }
    let alone = call(alloc, &["bench"], &[], NONE_FAILS)?;
    alone.is(&rt, "no number", &wanted);
    let two = call(alloc, &["bench", "7", "7"], &[], NONE_FAILS)?;
    two.is(&rt, "two numbers", &wanted);
    Ok(())
}

#[test]
fn lines_that_cannot_be_written_are_told(rt: HostRuntime) -> Result<(), Fail> {
    let alloc = rt.alloc();
    let wanted = Wanted {
        status: 8,
        console: b"steps 1",
        log: None,
        line: b"8 write -\n",
    };
    let fails = Fails {
        out: (1, 7),
        ..NONE_FAILS
    };
    bench(alloc, "7", fails)?.is(&rt, "a sink that fails", &wanted);
    Ok(())
}
