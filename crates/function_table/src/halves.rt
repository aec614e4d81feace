//! Text as halfwords, and where a function's last one is open.

ghost use Rattle.std.specs.Prelude.{◌≡◌, ◌<◌, ◌^◌, slice_index};
ghost use Rattle.lane_kernels.specs.Kernels.{is_open};
ghost use Rattle.function_table.specs.Groups.{begins_range, half_of, is_closed};

use fc_numbers::places::Span;

/// Byte k of a text, 0 past its end.
fn byte(text: &[u8], k: usize) -> u8
    ensures { result ≡ slice_index text.now k }
{
    if k < text.len() { text[k] } else { 0 }
}

/// Halfword n of a text, little endian; bytes past the end count as 0.
pub fn half(text: &[u8], n: usize) -> u16
    requires { n < 2 ^ 32 }
    ensures { result ≡ half_of text.now n }
{
    byte(text, 2 * n) as u16 + 256 * byte(text, 2 * n + 1) as u16
}

/// Whether an instruction that begins with this halfword goes on behind it.
pub fn is_open_half(half: u16) -> bool
    ensures { result ≡ is_open half }
{
    half % 4 == 3
}

/// Whether a range of text begins at this offset.
pub fn begins_range(text: &[Span], offset: u64) -> bool
    ensures { result ≡ begins_range text.now offset }
{
    match text {
        [] => false,
        [span, rest @ ..] => {
            let size = span.end.0.saturating_sub(span.start.0);
            offset == 0 || (size <= offset && begins_range(rest, offset - size))
        }
    }
}

/// Whether the group of functions before this start ends here.
pub fn is_closed_start(text: &[Span], bytes: &[u8], start: u32) -> bool
    ensures { result ≡ is_closed text.now bytes.now start }
{
    let before = (start as usize / 2).saturating_sub(1);
    start > 0 && (begins_range(text, start as u64) || !is_open_half(half(bytes, before)))
}
