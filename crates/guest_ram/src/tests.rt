//! Loads and stores at both ends of memory and past them, by values worked out by hand.

ghost use Rattle.std.specs.Prelude.{◌≡◌, IfOk, length};
ghost use Rattle.guest_ram.specs.Ram.{CanStore};

use super::*;
use std::test::Fail;

/// Five pages, of which the second and the fourth are the kernel's text.
const SIZE: u64 = 5 * PAGE;

const END: u64 = RAM_START + SIZE;

const TEXT: u64 = RAM_START + PAGE;

const SECOND_TEXT: u64 = RAM_START + 3 * PAGE;

/// The first and the last eight bytes of `marked_memory`.
const MARKS: u64 = 0xa8a7_a6a5_a4a3_a2a1;

/// Memory whose first and last eight bytes are 0xA1 to 0xA8.
fn marked_memory(alloc: Global) -> Result<GuestRam, NoMemory>
    ensures { IfOk result (λ ram. CanStore ram × (length ram.stamps ≡ 5)) }
{
    let mut text = Spans::new();
    text.push(Span {
        start: Gpa(TEXT),
        end: Gpa(TEXT + PAGE),
    });
    text.push(Span {
        start: Gpa(SECOND_TEXT),
        end: Gpa(SECOND_TEXT + PAGE),
    });
    let marks = [0xa1, 0xa2, 0xa3, 0xa4, 0xa5, 0xa6, 0xa7, 0xa8];
    let mut ram = GuestRam::new(alloc, SIZE, text)?;
    ram.place(Gpa(RAM_START), &marks);
    ram.place(Gpa(END - 8), &marks);
    Ok(ram)
}

#[test]
fn load_gives_the_little_endian_value_and_none_past_the_ends(rt: HostRuntime) -> Result<(), Fail> {
    let ram = marked_memory(rt.alloc())?;
    for (at, width, want) in [
        (RAM_START, Width::Byte, Ok(0xa1)),
        (RAM_START, Width::Halfword, Ok(0xa2a1)),
        (RAM_START, Width::Word, Ok(0xa4a3_a2a1)),
        (RAM_START, Width::Doubleword, Ok(0xa8a7_a6a5_a4a3_a2a1)),
        (END - 1, Width::Byte, Ok(0xa8)),
        (END - 2, Width::Halfword, Ok(0xa8a7)),
        (END - 4, Width::Word, Ok(0xa8a7_a6a5)),
        (END - 8, Width::Doubleword, Ok(0xa8a7_a6a5_a4a3_a2a1)),
        (TEXT, Width::Doubleword, Ok(0)),
        (RAM_START - 1, Width::Byte, Err(OutsideRam)),
        (RAM_START - 8, Width::Doubleword, Err(OutsideRam)),
        (END, Width::Byte, Err(OutsideRam)),
        (END, Width::Halfword, Err(OutsideRam)),
        (END, Width::Word, Err(OutsideRam)),
        (END, Width::Doubleword, Err(OutsideRam)),
        (0, Width::Doubleword, Err(OutsideRam)),
        (u64::MAX - 7, Width::Doubleword, Err(OutsideRam)),
    ] {
        assert!(rt; at % count(width) as u64 == 0);
        assert_eq!(rt; ram.load(Gpa(at), width), want, "at {at:#x}");
    }
    Ok(())
}

#[test]
fn store_writes_its_bytes_and_counts_on_its_page(rt: HostRuntime) -> Result<(), Fail> {
    for (at, width, answer, first, last, stamps) in [
        (
            RAM_START,
            Width::Byte,
            Ok(()),
            0xa8a7_a6a5_a4a3_a211,
            MARKS,
            [1, 0, 0],
        ),
        (
            RAM_START,
            Width::Halfword,
            Ok(()),
            0xa8a7_a6a5_a4a3_2211,
            MARKS,
            [1, 0, 0],
        ),
        (
            RAM_START,
            Width::Word,
            Ok(()),
            0xa8a7_a6a5_4433_2211,
            MARKS,
            [1, 0, 0],
        ),
        (
            RAM_START,
            Width::Doubleword,
            Ok(()),
            0x8877_6655_4433_2211,
            MARKS,
            [1, 0, 0],
        ),
        (
            END - 1,
            Width::Byte,
            Ok(()),
            MARKS,
            0x11a7_a6a5_a4a3_a2a1,
            [0, 0, 1],
        ),
        (
            END - 2,
            Width::Halfword,
            Ok(()),
            MARKS,
            0x2211_a6a5_a4a3_a2a1,
            [0, 0, 1],
        ),
        (
            END - 4,
            Width::Word,
            Ok(()),
            MARKS,
            0x4433_2211_a4a3_a2a1,
            [0, 0, 1],
        ),
        (
            END - 8,
            Width::Doubleword,
            Ok(()),
            MARKS,
            0x8877_6655_4433_2211,
            [0, 0, 1],
        ),
        (
            RAM_START - 1,
            Width::Byte,
            Err(OutsideRam),
            MARKS,
            MARKS,
            [0, 0, 0],
        ),
        (
            END,
            Width::Doubleword,
            Err(OutsideRam),
            MARKS,
            MARKS,
            [0, 0, 0],
        ),
    ] {
        let mut ram = marked_memory(rt.alloc())?;
        assert!(rt; at % count(width) as u64 == 0 && !ram.in_text(Gpa(at)));
        assert_eq!(rt;
            ram.store(Gpa(at), width, 0x8877_6655_4433_2211),
            answer,
            "at {at:#x}"
        );
        assert_eq!(rt;
            ram.load(Gpa(RAM_START), Width::Doubleword),
            Ok(first),
            "after {at:#x}"
        );
        assert_eq!(rt;
            ram.load(Gpa(END - 8), Width::Doubleword),
            Ok(last),
            "after {at:#x}"
        );
        for (frame, stamp) in [(0, stamps[0]), (2, stamps[1]), (4, stamps[2])] {
            assert!(rt; frame < 5);
            assert_eq!(rt; ram.frame_stamp(frame), stamp, "after {at:#x}");
        }
    }
    Ok(())
}

#[test]
fn each_range_is_text_and_the_page_between_is_none(rt: HostRuntime) -> Result<(), Fail> {
    let ram = marked_memory(rt.alloc())?;
    for (at, text) in [
        (TEXT - 1, false),
        (TEXT, true),
        (TEXT + PAGE - 1, true),
        (TEXT + PAGE, false),
        (SECOND_TEXT - 1, false),
        (SECOND_TEXT, true),
        (SECOND_TEXT + PAGE - 1, true),
        (SECOND_TEXT + PAGE, false),
    ] {
        assert_eq!(rt; ram.in_text(Gpa(at)), text, "at {at:#x}");
    }
    assert_eq!(rt; ram.text().len(), 2);
    Ok(())
}

#[test]
fn zeros_are_placed_and_nothing_beside_them(rt: HostRuntime) -> Result<(), Fail> {
    let mut ram = marked_memory(rt.alloc())?;
    ram.place_zeros(Gpa(RAM_START + 2), 3);
    assert_eq!(rt;
        ram.load(Gpa(RAM_START), Width::Doubleword),
        Ok(0xa8a7_a600_0000_a2a1)
    );
    Ok(())
}
