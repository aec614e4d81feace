//! Numbers in a slice of bytes, the lowest byte first. Each access of a width known here is one machine access.

ghost use Rattle.std.specs.Prelude.{◌≡◌, ◌≤◌, ◌<◌, ◌+◌, ◌^◌, length, replicate};
ghost use Rattle.guest_ram.specs.Value.{value_at, overwritten, replaced, count_of};

use fc_numbers::machine::Width;

/// How many bytes an access has.
pub fn count(width: Width) -> usize
    ensures { result ≡ count_of width }
{
    match width {
        Width::Byte => 1,
        Width::Halfword => 2,
        Width::Word => 4,
        Width::Doubleword => 8,
    }
}

/// The number of the two bytes from `at` on.
#[tactic(auto, unfolding(crate::specs::Value::value_at))]
pub(crate) fn half_at(bytes: &[u8], at: usize) -> u16
    requires { at + 2 ≤ length bytes.now }
    ensures { result ≡ value_at bytes.now at 2 }
{
    u16::from_le_bytes([bytes[at], bytes[at + 1]])
}

/// The number of the four bytes from `at` on.
#[tactic(auto, unfolding(crate::specs::Value::value_at))]
fn word_at(bytes: &[u8], at: usize) -> u32
    requires { at + 4 ≤ length bytes.now }
    ensures { result ≡ value_at bytes.now at 4 }
{
    u32::from_le_bytes([bytes[at], bytes[at + 1], bytes[at + 2], bytes[at + 3]])
}

/// The number of the eight bytes from `at` on.
#[tactic(auto, unfolding(crate::specs::Value::value_at))]
fn double_at(bytes: &[u8], at: usize) -> u64
    requires { at + 8 ≤ length bytes.now }
    ensures { result ≡ value_at bytes.now at 8 }
{
    u64::from_le_bytes([
        bytes[at],
        bytes[at + 1],
        bytes[at + 2],
        bytes[at + 3],
        bytes[at + 4],
        bytes[at + 5],
        bytes[at + 6],
        bytes[at + 7],
    ])
}

/// The number of the `width` bytes from `at` on.
#[tactic(auto, unfolding(crate::specs::Value::value_at))]
pub(crate) fn value_of(bytes: &[u8], at: usize, width: Width) -> u64
    requires { at + count_of width ≤ length bytes.now }
    ensures { result ≡ value_at bytes.now at (count_of width) }
{
    match width {
        Width::Byte => bytes[at] as u64,
        Width::Halfword => half_at(bytes, at) as u64,
        Width::Word => word_at(bytes, at) as u64,
        Width::Doubleword => double_at(bytes, at),
    }
}

/// Puts `part` in place of the bytes from `at` on.
#[tactic(auto, unfolding(crate::specs::Value::overwritten))]
pub(crate) fn overwrite(bytes: &mut [u8], at: usize, part: &[u8])
    requires { at + length part.now ≤ length bytes.old }
    ensures { bytes.new ≡ overwritten bytes.old at part.now }
{
    bytes[at..at + part.len()].copy_from_slice(part);
}

/// Puts zeros in place of `count` bytes from `at` on.
#[tactic(auto, unfolding(crate::specs::Value::overwritten))]
pub(crate) fn clear(bytes: &mut [u8], at: usize, count: usize)
    requires { at + count ≤ length bytes.old }
    ensures { bytes.new ≡ overwritten bytes.old at (replicate count 0) }
{
    bytes[at..at + count].fill(0);
}

/// Puts the low bytes of `v` in place of the `width` bytes from `at` on.
#[tactic(auto, unfolding(crate::specs::Value::overwritten))]
pub(crate) fn put(bytes: &mut [u8], at: usize, width: Width, v: u64)
    requires { at + count_of width ≤ length bytes.old }
    ensures { bytes.new ≡ replaced bytes.old at (count_of width) v }
{
    let low = v.to_le_bytes();
    match width {
        Width::Byte => bytes[at] = low[0],
        Width::Halfword => overwrite(bytes, at, &low[..2]),
        Width::Word => overwrite(bytes, at, &low[..4]),
        Width::Doubleword => overwrite(bytes, at, &low),
    }
}
