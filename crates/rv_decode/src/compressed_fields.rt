//! The fields of a compressed instruction.
//!
//! A halfword is widened first, so that its bits can be moved up. Each immediate has a function of its own, since
//! nearly every form scatters its bits in another order.

ghost use Rattle.std.specs.Prelude.{◌≡◌};
ghost use Rattle.rv_decode.specs.CompressedFields.{low_of, high_of, full_of, source_of, stack_bits_of, word_offset_of, double_offset_of, small_of, frame_bits_of, frame_offset_of, upper_bits_of, upper_of, amount_of, jump_of, branch_offset_of, word_slot_of, double_slot_of, word_place_of, double_place_of};

/// The register of 8 to 15 that bits 4:2 name.
pub fn low(h: u16) -> u8
    ensures { result ≡ low_of h }
{
    8 + (h >> 2 & 7) as u8
}

/// The register of 8 to 15 that bits 9:7 name.
pub fn high(h: u16) -> u8
    ensures { result ≡ high_of h }
{
    8 + (h >> 7 & 7) as u8
}

/// The register that bits 11:7 name.
pub fn full(h: u16) -> u8
    ensures { result ≡ full_of h }
{
    (h >> 7 & 0x1f) as u8
}

/// The register that bits 6:2 name.
pub fn source(h: u16) -> u8
    ensures { result ≡ source_of h }
{
    (h >> 2 & 0x1f) as u8
}

/// The immediate of C.ADDI4SPN.
pub fn stack_bits(h: u16) -> u32
    ensures { result ≡ stack_bits_of h }
{
    let w = h as u32;
    ((w >> 11 & 0x3) << 4) + ((w >> 7 & 0xf) << 6) + ((w >> 6 & 0x1) << 2) + ((w >> 5 & 0x1) << 3)
}

/// The offset of C.LW and C.SW.
pub fn word_offset(h: u16) -> i64
    ensures { result ≡ word_offset_of h }
{
    let w = h as u32;
    (((w >> 10 & 0x7) << 3) + ((w >> 6 & 0x1) << 2) + ((w >> 5 & 0x1) << 6)) as i64
}

/// The offset of C.LD and C.SD.
pub fn double_offset(h: u16) -> i64
    ensures { result ≡ double_offset_of h }
{
    let w = h as u32;
    (((w >> 10 & 0x7) << 3) + ((w >> 5 & 0x3) << 6)) as i64
}

/// The immediate of C.ADDI, C.ADDIW, C.LI and C.ANDI.
pub fn small(h: u16) -> i64
    ensures { result ≡ small_of h }
{
    let w = h as u32;
    let n = ((w >> 12 & 0x1) << 5) + (w >> 2 & 0x1f);
    if n < 0x20 { n as i64 } else { n as i64 - 0x40 }
}

/// The bits of the immediate of C.ADDI16SP.
pub fn frame_bits(h: u16) -> u32
    ensures { result ≡ frame_bits_of h }
{
    let w = h as u32;
    ((w >> 12 & 0x1) << 9)
        + ((w >> 6 & 0x1) << 4)
        + ((w >> 5 & 0x1) << 6)
        + ((w >> 3 & 0x3) << 7)
        + ((w >> 2 & 0x1) << 5)
}

/// The immediate of C.ADDI16SP.
pub fn frame(h: u16) -> i64
    ensures { result ≡ frame_offset_of h }
{
    let n = frame_bits(h);
    if n < 0x200 {
        n as i64
    } else {
        n as i64 - 0x400
    }
}

/// The bits of the immediate of C.LUI.
pub fn upper_bits(h: u16) -> u32
    ensures { result ≡ upper_bits_of h }
{
    let w = h as u32;
    ((w >> 12 & 0x1) << 17) + ((w >> 2 & 0x1f) << 12)
}

/// The immediate of C.LUI.
pub fn upper(h: u16) -> i64
    ensures { result ≡ upper_of h }
{
    let n = upper_bits(h);
    if n < 0x2_0000 {
        n as i64
    } else {
        n as i64 - 0x4_0000
    }
}

/// The amount of C.SRLI, C.SRAI and C.SLLI.
pub fn amount(h: u16) -> i64
    ensures { result ≡ amount_of h }
{
    let w = h as u32;
    (((w >> 12 & 0x1) << 5) + (w >> 2 & 0x1f)) as i64
}

/// The distance of C.J.
pub fn jump(h: u16) -> i64
    ensures { result ≡ jump_of h }
{
    let w = h as u32;
    let n = ((w >> 12 & 0x1) << 11)
        + ((w >> 11 & 0x1) << 4)
        + ((w >> 9 & 0x3) << 8)
        + ((w >> 8 & 0x1) << 10)
        + ((w >> 7 & 0x1) << 6)
        + ((w >> 6 & 0x1) << 7)
        + ((w >> 3 & 0x7) << 1)
        + ((w >> 2 & 0x1) << 5);
    if n < 0x800 {
        n as i64
    } else {
        n as i64 - 0x1000
    }
}

/// The distance of C.BEQZ and C.BNEZ.
pub fn branch(h: u16) -> i64
    ensures { result ≡ branch_offset_of h }
{
    let w = h as u32;
    let n = ((w >> 12 & 0x1) << 8)
        + ((w >> 10 & 0x3) << 3)
        + ((w >> 5 & 0x3) << 6)
        + ((w >> 3 & 0x3) << 1)
        + ((w >> 2 & 0x1) << 5);
    if n < 0x100 {
        n as i64
    } else {
        n as i64 - 0x200
    }
}

/// The offset of C.LWSP.
pub fn word_slot(h: u16) -> i64
    ensures { result ≡ word_slot_of h }
{
    let w = h as u32;
    (((w >> 12 & 0x1) << 5) + ((w >> 4 & 0x7) << 2) + ((w >> 2 & 0x3) << 6)) as i64
}

/// The offset of C.LDSP.
pub fn double_slot(h: u16) -> i64
    ensures { result ≡ double_slot_of h }
{
    let w = h as u32;
    (((w >> 12 & 0x1) << 5) + ((w >> 5 & 0x3) << 3) + ((w >> 2 & 0x7) << 6)) as i64
}

/// The offset of C.SWSP.
pub fn word_place(h: u16) -> i64
    ensures { result ≡ word_place_of h }
{
    let w = h as u32;
    (((w >> 9 & 0xf) << 2) + ((w >> 7 & 0x3) << 6)) as i64
}

/// The offset of C.SDSP.
pub fn double_place(h: u16) -> i64
    ensures { result ≡ double_place_of h }
{
    let w = h as u32;
    (((w >> 10 & 0x7) << 3) + ((w >> 7 & 0x7) << 6)) as i64
}
