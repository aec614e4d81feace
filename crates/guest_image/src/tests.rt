//! Files with hand-made answers: each fault once, the limits, and two faults at once.

use crate::image_file::read_image;
use crate::setup_file::read_setup;
use fc_numbers::machine::GKind;
use guest_input::image::Image;
use std::alloc::Global;
use std::test::Fail;

const TWO_FUNCTIONS: &str =
    "{\"base\":2147483648,\"entry\":2147483648,\"text\":\"ef00c000a148730000000100854813051004730000008280\",\"functions\":[[2147483660,\"put\"],[2147483648,\"main\"]]}";

/// The same as an ELF file of 424 bytes, in hexadecimal.
const TWO_FUNCTIONS_ELF: [&str; 8] = [
    // ELF header: 64 bits, little endian, executable, RISC-V, entry 0x80000000, tables at 64 and 232, 1 and 3 entries.
    "7f454c460201010000000000000000000200f3000100000000000080000000004000000000000000e80000000000000000000000400038000100400003000000",
    // Program header: loaded, flags 5, offset 120, address and place 0x80000000, 24 bytes in the file and in memory.
    "0100000005000000780000000000000000000080000000000000008000000000180000000000000018000000000000000010000000000000",
    // Text.
    "ef00c000a148730000000100854813051004730000008280",
    // Symbols: none, `main` at 0x80000000, `put` at 0x8000000c.
    "00000000000000000000000000000000000000000000000001000000120000000000008000000000000000000000000006000000120000000c000080000000000000000000000000",
    // Strings.
    "006d61696e0070757400000000000000",
    // Section headers: none, symbols (72 bytes at 144, strings in section 2), strings (10 bytes at 216).
    "00000000000000000000000000000000000000000000000000000000000000000000000000000000000000000000000008000000000000000000000000000000",
    "00000000020000000000000000000000000000000000000090000000000000004800000000000000020000000000000008000000000000000000000000000000",
    "000000000300000000000000000000000000000000000000d8000000000000000a00000000000000000000000000000008000000000000000000000000000000",
];

/// The bytes of the ELF file.
fn elf_file(alloc: Global) -> Result<Vec<u8>, Fail> {
    let mut file = Vec::new(alloc);
    for line in TWO_FUNCTIONS_ELF {
        let bytes = hex::decode(alloc, line)?;
        file.extend_from_slice(bytes.as_slice())?;
    }
    Ok(file)
}

/// `ok`, or the printed fault.
fn image_answer(alloc: Global, text: &[u8]) -> Result<String, Fail> {
    match read_image(alloc, text) {
        Ok(_) => Ok(String::from_str(alloc, "ok")?),
        Err(fault) => Ok(fault.text(alloc)?),
    }
}

/// The same for a setup.
fn setup_answer(alloc: Global, text: &str, image: &Image) -> Result<String, Fail> {
    match read_setup(alloc, text.as_bytes(), image) {
        Ok(_) => Ok(String::from_str(alloc, "ok")?),
        Err(fault) => Ok(fault.text(alloc)?),
    }
}

/// An image file with these members between the braces.
fn image_file(alloc: Global, members: &str) -> Result<String, Fail> {
    Ok(format!(in alloc; "{{{members}}}")?)
}

#[test]
fn image_faults_come_by_name(rt: HostRuntime) -> Result<(), Fail> {
    let alloc = rt.alloc();
    let code =
        "\"base\":2147483648,\"entry\":2147483648,\"text\":\"ef00c000a148730000000100854813051004730000008280\"";
    for (members, want) in [
        (
            "\"base\":2147483648,\"entry\":2147483648,\"text\":\"\"",
            "4 NoText",
        ),
        (
            "\"base\":2147483648,\"entry\":2147483648,\"text\":\"ef0\"",
            "21 Shape text",
        ),
        (
            "\"base\":2147483648,\"entry\":2147483648,\"text\":\"eG00\"",
            "21 Shape text",
        ),
        (
            "\"base\":2147483648,\"entry\":2147483648,\"text\":\"EF00C000\"",
            "ok",
        ),
        ("", "21 Shape code"),
        ("\"entry\":2147483648,\"data\":0", "21 Shape code"),
        ("\"entry\":2147483648,\"text\":\"00\"", "21 Shape base"),
        ("\"base\":2147483648,\"text\":0", "21 Shape entry"),
        ("\"base\":2147483648,\"entry\":2147483648", "21 Shape text"),
        (
            "\"base\":2147483648.0,\"entry\":2147483648,\"text\":\"00\"",
            "21 Shape base",
        ),
        (
            "\"base\":2147483648,\"entry\":-1,\"text\":\"ef0\"",
            "21 Shape entry",
        ),
        (
            "\"base\":2147483648,\"base\":1,\"entry\":1,\"text\":\"00\"",
            "7 Misplaced",
        ),
        (
            "\"base\":2147483649,\"entry\":2147483649,\"text\":\"00\"",
            "7 Misplaced",
        ),
        (
            "\"base\":2147479552,\"entry\":2147479552,\"text\":\"00\"",
            "7 Misplaced",
        ),
        (
            "\"base\":2214592512,\"entry\":2214592512,\"text\":\"00\"",
            "7 Misplaced",
        ),
        (
            "\"base\":2214588416,\"entry\":2214588416,\"text\":\"00\"",
            "ok",
        ),
        (
            "\"base\":2147483648,\"entry\":2147483649,\"text\":\"00\"",
            "11 EntryOutside",
        ),
        (
            "\"base\":2147483648,\"entry\":2147487742,\"text\":\"00\"",
            "ok",
        ),
        (
            "\"base\":2147483648,\"entry\":2147487744,\"text\":\"00\"",
            "11 EntryOutside",
        ),
        (
            "\"base\":2147483648,\"entry\":2147483646,\"text\":\"00\"",
            "11 EntryOutside",
        ),
        (
            "\"base\":2147483649,\"entry\":2147483648,\"text\":\"\"",
            "4 NoText",
        ),
    ] {
        let file = image_file(alloc, members)?;
        let got = image_answer(alloc, file.as_bytes())?;
        assert_eq!(rt; got.as_str(), want, "{members}");
    }
    for (more, want) in [
        ("", "ok"),
        ("\"more\":1", "21 Shape other"),
        ("\"more\":1,\"functions\":[[0,1]]", "21 Shape functions"),
        ("\"functions\":null", "21 Shape functions"),
        ("\"functions\":[[2147483648]]", "21 Shape functions"),
        ("\"functions\":null,\"data\":null", "21 Shape data"),
        ("\"data\":[[0,\"\",1]]", "21 Shape data"),
        ("\"data\":[[0,\"\"]]", "ok"),
        ("\"data\":[[0,\"00\"]]", "7 Misplaced"),
        ("\"data\":[[2147483672,\"00\"]]", "7 Misplaced"),
        ("\"data\":[[2147487744,\"00\"]]", "ok"),
        ("\"data\":[[2147487743,\"0000\"]]", "7 Misplaced"),
        ("\"data\":[[2214592511,\"00\"]]", "ok"),
        ("\"data\":[[2214592511,\"0000\"]]", "7 Misplaced"),
        ("\"functions\":[[2147483649,\"a\"]]", "8 OddFunction"),
        ("\"functions\":[[2147487745,\"a\"],[1,\"b\"]]", "ok"),
        (
            "\"functions\":[[2147483649,\"a\"]],\"data\":[[0,\"00\"]]",
            "7 Misplaced",
        ),
    ] {
        let comma = if more.is_empty() { "" } else { "," };
        let file = format!(in alloc; "{{{code}{comma}{more}}}")?;
        let got = image_answer(alloc, file.as_bytes())?;
        assert_eq!(rt; got.as_str(), want, "{more}");
    }
    Ok(())
}

#[test]
fn faults_of_code_in_pieces_come_by_name(rt: HostRuntime) -> Result<(), Fail> {
    let alloc = rt.alloc();
    for (members, want) in [
        ("\"code\":[[2147483648,\"01\"]]", "ok"),
        ("\"code\":[]", "4 NoText"),
        ("\"code\":null", "21 Shape code"),
        ("\"code\":[[2147483648]],\"base\":0", "21 Shape code"),
        ("\"code\":[[2147483648,\"0\"]]", "21 Shape code"),
        ("\"code\":[],\"base\":null,\"text\":null", "21 Shape base"),
        ("\"code\":[],\"entry\":null,\"text\":null", "21 Shape entry"),
        ("\"code\":[],\"text\":null,\"data\":null", "21 Shape text"),
        (
            "\"code\":[],\"data\":null,\"functions\":null",
            "21 Shape data",
        ),
        (
            "\"code\":[],\"functions\":null,\"more\":0",
            "21 Shape functions",
        ),
        ("\"code\":[],\"more\":0", "21 Shape other"),
        ("\"code\":[[2147483648,\"01\"],[0,\"\"]]", "4 NoText"),
        (
            "\"code\":[[0,\"01\"],[0,\"01\"],[0,\"01\"],[0,\"01\"],[0,\"\"]]",
            "4 NoText",
        ),
        (
            "\"code\":[[2147483648,\"01\"],[2147487744,\"01\"],[2147491840,\"01\"],[2147495936,\"01\"],[2147500032,\"01\"]]",
            "5 TooManyTexts",
        ),
        (
            "\"code\":[[2147500032,\"01\"],[2147495936,\"01\"],[2147491840,\"01\"],[2147483648,\"01\"]]",
            "ok",
        ),
        (
            "\"code\":[[2147483648,\"01\"],[2147483648,\"01\"]]",
            "7 Misplaced",
        ),
        (
            "\"code\":[[2147483648,\"01\"],[2147491842,\"01\"]]",
            "7 Misplaced",
        ),
        (
            "\"code\":[[2147483648,\"01\"],[2147491840,\"01\"]],\"data\":[[2147491842,\"01\"]]",
            "7 Misplaced",
        ),
        (
            "\"code\":[[2147483648,\"01\"],[2147491840,\"01\"]],\"data\":[[2147487744,\"01\"]]",
            "ok",
        ),
        (
            "\"code\":[[2147483648,\"01\"],[2147491840,\"01\"]],\"functions\":[[2147491841,\"f\"]]",
            "8 OddFunction",
        ),
        (
            "\"code\":[[2147483648,\"01\"],[2147491840,\"01\"]],\"functions\":[[2147487745,\"f\"]]",
            "ok",
        ),
        (
            "\"code\":[[2147491840,\"01\"],[2147500032,\"01\"]]",
            "11 EntryOutside",
        ),
        ("\"code\":[[2147491840,\"01\"],[2147483648,\"01\"]]", "ok"),
    ] {
        let file = format!(in alloc; "{{\"entry\":2147483648,{members}}}")?;
        let got = image_answer(alloc, file.as_bytes())?;
        assert_eq!(rt; got.as_str(), want, "{members}");
    }
    Ok(())
}

#[test]
fn elf_files_come_by_their_bytes(rt: HostRuntime) -> Result<(), Fail> {
    let alloc = rt.alloc();
    let good = elf_file(alloc)?;
    assert_eq!(rt; good.len(), 424);
    for (label, at, bytes, want) in [
        ("as it is", 0, [0x7f].as_slice(), "ok"),
        ("text may be written", 68, [7].as_slice(), "6 WritableText"),
        ("an odd entry", 24, [1].as_slice(), "11 EntryOutside"),
        ("tables past all", 32, [0xff; 8].as_slice(), "3 Truncated"),
        ("4 MiB in memory", 104, [0, 0, 0x40].as_slice(), "ok"),
        ("a byte more", 104, [1, 0, 0x40].as_slice(), "9 TooLarge"),
        ("8 bytes in memory", 104, [8].as_slice(), "7 Misplaced"),
    ] {
        let mut file = Vec::from_slice(alloc, good.as_slice())?;
        for (more, byte) in bytes.iter().enumerate() {
            if at + more < file.len() {
                file[at + more] = *byte;
            }
        }
        let got = image_answer(alloc, file.as_slice())?;
        assert_eq!(rt; got.as_str(), want, "{label}");
    }
    for length in 0..good.len() {
        let got = image_answer(alloc, &good.as_slice()[..length])?;
        let want = if length < 4 {
            "20 NotJson"
        } else {
            "3 Truncated"
        };
        assert_eq!(rt; got.as_str(), want, "{length} bytes of it");
    }
    Ok(())
}

#[test]
fn bytes_that_are_no_object_are_refused(rt: HostRuntime) -> Result<(), Fail> {
    let alloc = rt.alloc();
    for (bytes, want) in [
        (b"".as_slice(), "20 NotJson"),
        (b"{\"a\":1,}".as_slice(), "20 NotJson"),
        (b"\"\xff\"".as_slice(), "20 NotJson"),
        (b"[]".as_slice(), "21 Shape other"),
        (b"null".as_slice(), "21 Shape other"),
        (b"\x7fELF".as_slice(), "3 Truncated"),
        (b"\x7fEL".as_slice(), "20 NotJson"),
    ] {
        let got = image_answer(alloc, bytes)?;
        assert_eq!(rt; got.as_str(), want);
    }
    Ok(())
}

/// A file of this many times 64 zero bytes of text, and of this many functions at even offsets from 2 on.
fn large_file(alloc: Global, lines: u32, functions: u32) -> Result<String, Fail> {
    let line =
        "00000000000000000000000000000000000000000000000000000000000000000000000000000000000000000000000000000000000000000000000000000000";
    let mut file = String::from_str(
        alloc,
        "{\"base\":2147483648,\"entry\":2147483648,\"text\":\"",
    )?;
    for _ in 0..lines {
        file.push_str(line)?;
    }
    file.push_str("\",\"functions\":[[0,\"\"]")?;
    for number in 0..functions {
        let place = 2_147_483_650 + 2 * number as u64;
        let start = format!(in alloc; ",[{place},\"f\"]")?;
        file.push_str(start.as_str())?;
    }
    file.push_str("]}")?;
    Ok(file)
}

#[test]
fn too_many_functions_are_refused(rt: HostRuntime) -> Result<(), Fail> {
    let alloc = rt.alloc();
    for (functions, want) in [(16_383, "ok"), (16_384, "10 TooManyFunctions")] {
        let file = large_file(alloc, 513, functions)?;
        let got = image_answer(alloc, file.as_bytes())?;
        assert_eq!(rt; got.as_str(), want);
    }
    Ok(())
}

#[test]
fn too_much_text_is_refused(rt: HostRuntime) -> Result<(), Fail> {
    let alloc = rt.alloc();
    let file = large_file(alloc, 65_537, 0)?;
    let got = image_answer(alloc, file.as_bytes())?;
    assert_eq!(rt; got.as_str(), "9 TooLarge");
    Ok(())
}

#[test]
fn digests_are_those_of_hashlib(rt: HostRuntime) -> Result<(), Fail> {
    let alloc = rt.alloc();
    let elf = elf_file(alloc)?;
    let one = "edee6cb6d22d08234d71892fc5408daceb1eb5710967ecd0e103b5b88ddd3e4a";
    for (label, file, size, want) in [
        ("one range", TWO_FUNCTIONS.as_bytes(), 4096, one),
        ("the same as ELF", elf.as_slice(), 4096, one),
        (
            "two ranges",
            b"{\"code\":[[2147483648,\"ef200000a14873000000\"],[2147491840,\"854813051004730000008280\"]],\"entry\":2147483648,\"functions\":[[2147483648,\"main\"],[2147491840,\"put\"]]}".as_slice(),
            8192,
            "7dcc5c8ca17c8fd911eefe5dbee8c76b79a0d94b16aaa38d20ce10403be0f79d",
        ),
        (
            "two pieces of one range",
            b"{\"code\":[[2147487744,\"854813051004730000008280\"],[2147483648,\"ef200000a14873000000\"]],\"entry\":2147483648,\"functions\":[[2147487744,\"put\"]]}".as_slice(),
            8192,
            "91b1f7990a13fcf4ac8806e5c2f78bbeb9d1ee30ce4f7a0edf1d81a4a005ea00",
        ),
    ] {
        let image = read_image(alloc, file)?;
        let digest = hex::encode(alloc, image.digest.as_slice())?;
        assert_eq!(rt; digest.as_str(), want, "{label}");
        assert_eq!(rt; image.ranges.bytes().len(), size, "{label}");
    }
    Ok(())
}

#[test]
fn least_name_is_kept_as_printed_bytes(rt: HostRuntime) -> Result<(), Fail> {
    let alloc = rt.alloc();
    let file = format!(in alloc;
        "{{\"base\":2147483648,\"entry\":2147483648,\"text\":\"00\",\"functions\":[[2147483656,\"x y\\u00e4\"],[2147483650,\"b\"],[2147483652,\"\"],[2147483650,\"a\"],[2147483660,\"{}\"]]}}",
        "abcdefghijklmnopqrstuvwxyz0123456789abcdefghijklmnopqrstuvwxyz0123456789"
    )?;
    let image = read_image(alloc, file.as_bytes())?;
    let mut told = String::new(alloc);
    for function in image.functions.as_slice() {
        let name = str::from_utf8(function.name.as_slice())?;
        let line = format!(in alloc; "{} {name};", function.at.offset)?;
        told.push_str(line.as_str())?;
    }
    assert_eq!(rt;
        told.as_str(),
        "0 (head);2 a;4 ?;8 x?y??;12 abcdefghijklmnopqrstuvwxyz0123456789abcdefghijklmnopqrstuvwxyz0;"
    );
    Ok(())
}

#[test]
fn setup_faults_come_by_name(rt: HostRuntime) -> Result<(), Fail> {
    let alloc = rt.alloc();
    let image = read_image(alloc, TWO_FUNCTIONS.as_bytes())?;
    for (setup, want) in [
        ("{\"vcpus\":1,\"ram\":4096,\"steps\":1}", "ok"),
        (
            "{\"vcpus\":8,\"ram\":67108864,\"steps\":2097152,\"name_at\":65535,\"hook\":null,\"start\":\"sh\"}",
            "ok",
        ),
        ("{\"vcpus\":1,\"ram\":4096,\"steps\":16777216}", "ok"),
        (
            "{\"vcpus\":1,\"ram\":4096,\"steps\":99999999999999999999,\"steps\":20}",
            "ok",
        ),
        ("{", "1 NotJson"),
        ("7", "2 Shape other"),
        ("{\"vcpus\":9}", "2 Shape ram"),
        ("{\"vcpus\":null,\"ram\":4096}", "2 Shape vcpus"),
        ("{\"vcpus\":1,\"ram\":4096}", "2 Shape steps"),
        (
            "{\"vcpus\":1,\"ram\":4096,\"steps\":99999999999999999999}",
            "2 Shape steps",
        ),
        (
            "{\"vcpus\":1,\"ram\":4096,\"steps\":1,\"hook\":1}",
            "2 Shape hook",
        ),
        (
            "{\"vcpus\":1,\"ram\":4096,\"steps\":1,\"name_at\":null}",
            "2 Shape name_at",
        ),
        (
            "{\"vcpus\":1,\"ram\":4096,\"steps\":1,\"start\":\"\"}",
            "2 Shape start",
        ),
        (
            "{\"vcpus\":1,\"ram\":4096,\"steps\":1,\"start\":\"abcdefghijklmnopq\"}",
            "2 Shape start",
        ),
        (
            "{\"vcpus\":1,\"ram\":4096,\"steps\":1,\"events\":[[1,\"key\",256]]}",
            "2 Shape events",
        ),
        (
            "{\"vcpus\":1,\"ram\":4096,\"steps\":1,\"events\":[[1,\"press\",0]]}",
            "2 Shape events",
        ),
        (
            "{\"vcpus\":1,\"ram\":4096,\"steps\":1,\"gstage\":\"sv57x4\"}",
            "2 Shape gstage",
        ),
        (
            "{\"vcpus\":1,\"ram\":4096,\"steps\":1,\"gstage\":null,\"more\":0}",
            "2 Shape gstage",
        ),
        (
            "{\"vcpus\":1,\"ram\":4096,\"steps\":1,\"events\":0,\"gstage\":0}",
            "2 Shape events",
        ),
        (
            "{\"vcpus\":9,\"ram\":4096,\"steps\":1,\"more\":0}",
            "2 Shape other",
        ),
        ("{\"vcpus\":0,\"ram\":1,\"steps\":0}", "3 Limit vcpus"),
        ("{\"vcpus\":9,\"ram\":4096,\"steps\":1}", "3 Limit vcpus"),
        ("{\"vcpus\":1,\"ram\":0,\"steps\":0}", "3 Limit ram"),
        ("{\"vcpus\":1,\"ram\":4097,\"steps\":1}", "3 Limit ram"),
        ("{\"vcpus\":1,\"ram\":67112960,\"steps\":1}", "3 Limit ram"),
        (
            "{\"vcpus\":1,\"ram\":4096,\"steps\":0,\"name_at\":65536}",
            "3 Limit steps",
        ),
        (
            "{\"vcpus\":8,\"ram\":65536,\"steps\":2097153}",
            "3 Limit steps",
        ),
        (
            "{\"vcpus\":1,\"ram\":4096,\"steps\":1,\"name_at\":65536}",
            "3 Limit name_at",
        ),
        (
            "{\"vcpus\":2,\"ram\":4096,\"steps\":1,\"events\":[[1,\"drop\",1],[1,\"raise\",2]]}",
            "3 Limit events",
        ),
        (
            "{\"vcpus\":2,\"ram\":4096,\"steps\":1,\"events\":[[1,\"drop\",256]],\"hook\":\"none\"}",
            "3 Limit events",
        ),
        (
            "{\"vcpus\":1,\"ram\":4096,\"steps\":1,\"hook\":\"none\",\"events\":[[2,\"key\",0],[1,\"key\",0]]}",
            "4 NoHook",
        ),
        (
            "{\"vcpus\":1,\"ram\":4096,\"steps\":1,\"hook\":\"put\",\"events\":[[2,\"key\",0],[2,\"key\",0],[3,\"key\",0],[1,\"key\",0],[0,\"key\",0]]}",
            "5 EventOrder 3",
        ),
        (
            "{\"vcpus\":1,\"ram\":4096,\"steps\":1,\"hook\":\"put\"}",
            "ok",
        ),
    ] {
        let got = setup_answer(alloc, setup, &image)?;
        assert_eq!(rt; got.as_str(), want, "{setup}");
    }
    Ok(())
}

#[test]
fn image_past_the_end_of_ram_is_refused(rt: HostRuntime) -> Result<(), Fail> {
    let alloc = rt.alloc();
    let file =
        "{\"base\":2147487744,\"entry\":2147487744,\"text\":\"00\",\"data\":[[2147500032,\"0000\"]],\"functions\":[[2147487746,\"f\"],[2147487748,\"f\"]]}";
    let image = read_image(alloc, file.as_bytes())?;
    for (setup, want) in [
        (
            "{\"vcpus\":1,\"ram\":4096,\"steps\":1}",
            "6 ImageOutsideRam",
        ),
        (
            "{\"vcpus\":1,\"ram\":16384,\"steps\":1}",
            "6 ImageOutsideRam",
        ),
        ("{\"vcpus\":1,\"ram\":20480,\"steps\":1}", "ok"),
        (
            "{\"vcpus\":1,\"ram\":20480,\"steps\":1,\"hook\":\"f\"}",
            "4 NoHook",
        ),
        (
            "{\"vcpus\":1,\"ram\":20480,\"steps\":1,\"hook\":\"(head)\"}",
            "ok",
        ),
    ] {
        let got = setup_answer(alloc, setup, &image)?;
        assert_eq!(rt; got.as_str(), want, "{setup}");
    }
    Ok(())
}

#[test]
fn kind_of_tables_is_the_one_that_is_named(rt: HostRuntime) -> Result<(), Fail> {
    let alloc = rt.alloc();
    let image = read_image(alloc, TWO_FUNCTIONS.as_bytes())?;
    for (more, want) in [
        ("", GKind::Sv39x4),
        (",\"gstage\":\"sv39x4\"", GKind::Sv39x4),
        (",\"gstage\":\"sv48x4\"", GKind::Sv48x4),
    ] {
        let file = format!(in alloc; "{{\"vcpus\":1,\"ram\":4096,\"steps\":1{more}}}")?;
        let setup = read_setup(alloc, file.as_bytes(), &image)?;
        assert_eq!(rt; setup.gstage, want, "{more}");
    }
    Ok(())
}
