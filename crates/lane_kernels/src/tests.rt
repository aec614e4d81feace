//! The kernels on lists around the length of a vector.

use crate::{keep_or_zero, open_halves, same};

/// The longest list of these tests, in halfwords: four vectors and two more.
const MOST: usize = 130;

/// What stands in the output before.
const BEFORE: u16 = 0xaaaa;

#[test]
fn halfwords_are_kept_by_their_marks_at_every_length(rt: HostRuntime) {
    for run in [1usize, 2, 3] {
        let mut halves = [0u16; MOST];
        let mut marks = [0u16; MOST];
        let mut plain = [0u16; MOST];
        for n in 0..MOST {
            halves[n] = 0x1001 + n as u16;
            if n / run % 2 == 0 {
                marks[n] = 0xffff;
                plain[n] = 0x1001 + n as u16;
            }
        }
        for size in 0..=MOST {
            let mut out = [BEFORE; MOST];
            keep_or_zero(&halves[..size], &marks[..size], &mut out[..size]);
            assert!(rt;
                out[..size] == plain[..size],
                "{size} halfwords, runs of {run}"
            );
            assert!(rt;
                out[size..].iter().all(|half| *half == BEFORE),
                "behind {size}"
            );
        }
    }
}

#[test]
fn open_halfwords_have_both_low_bits(rt: HostRuntime) {
    assert_eq!(rt; open_halves(&[0x0003, 0x0002, 0xffff]), 2);
    assert_eq!(rt; open_halves(&[]), 0);
    for (size, want) in [(1, 1), (31, 8), (32, 8), (33, 9), (64, 16), (66, 17)] {
        let mut halves = [0u16; 66];
        for n in 0..66 {
            halves[n] = 3 + n as u16;
        }
        assert_eq!(rt; open_halves(&halves[..size]), want, "{size} halfwords");
    }
}

#[test]
fn lists_are_the_same_by_length_and_each_halfword(rt: HostRuntime) {
    let list = [7u16; 33];
    let mut last = list;
    last[32] = 8;
    let mut first = list;
    first[0] = 8;
    let mut border = list;
    border[31] = 8;
    for (a, b, want) in [
        (&list[..], &[7u16; 33][..], true),
        (&list[..], &last[..], false),
        (&list[..], &first[..], false),
        (&list[..], &border[..], false),
        (&list[..], &list[..32], false),
        (&list[..32], &last[..32], true),
        (&list[..0], &last[..0], true),
        (&list[..0], &last[..1], false),
    ] {
        assert_eq!(rt; same(a, b), want);
    }
}
