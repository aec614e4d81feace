//! Numbers and digests at the front of bytes.

ghost use Rattle.std.specs.Prelude.{◌≡◌, Ok};
ghost use Rattle.std.specs.Int.{w8, w16, w32, w64};
ghost use Rattle.trace_file.specs.Form.{number, raw};
ghost use Rattle.trace_file.specs.Gives.{Gives};

use crate::halt::Halt;
use crate::trace::DIGEST;

/// A byte, and the bytes behind it.
pub(crate) fn u8_at(bytes: &[u8]) -> Result<(u8, &[u8]), Halt>
    ensures { Gives (λ x. (x.0, x.1.now)) result ((number w8).read bytes.now) }
{
    match bytes {
        [] => Err(Halt::Short),
        [first, rest @ ..] => Ok((*first, rest)),
    }
}

/// A number of 2 bytes, and the bytes behind it.
pub(crate) fn u16_at(bytes: &[u8]) -> Result<(u16, &[u8]), Halt>
    ensures { Gives (λ x. (x.0, x.1.now)) result ((number w16).read bytes.now) }
{
    if bytes.len() < 2 {
        return Err(Halt::Short);
    }
    let (front, rest) = bytes.split_at(2);
    let number = u16::from_le_bytes([front[0], front[1]]);
    Ok((number, rest))
}

/// A number of 4 bytes, and the bytes behind it.
pub(crate) fn u32_at(bytes: &[u8]) -> Result<(u32, &[u8]), Halt>
    ensures { Gives (λ x. (x.0, x.1.now)) result ((number w32).read bytes.now) }
{
    if bytes.len() < 4 {
        return Err(Halt::Short);
    }
    let (front, rest) = bytes.split_at(4);
    let number = u32::from_le_bytes([front[0], front[1], front[2], front[3]]);
    Ok((number, rest))
}

/// A number of 8 bytes, and the bytes behind it.
pub(crate) fn u64_at(bytes: &[u8]) -> Result<(u64, &[u8]), Halt>
    ensures { Gives (λ x. (x.0, x.1.now)) result ((number w64).read bytes.now) }
{
    if bytes.len() < 8 {
        return Err(Halt::Short);
    }
    let (front, rest) = bytes.split_at(8);
    let number = u64::from_le_bytes([
        front[0], front[1], front[2], front[3], front[4], front[5], front[6], front[7],
    ]);
    Ok((number, rest))
}

/// A digest, and the bytes behind it.
pub(crate) fn digest_at(bytes: &[u8]) -> Result<([u8; DIGEST], &[u8]), Halt>
    ensures { Gives (λ x. (x.0, x.1.now)) result ((raw DIGEST).read bytes.now) }
{
    if bytes.len() < DIGEST {
        return Err(Halt::Short);
    }
    let (front, rest) = bytes.split_at(DIGEST);
    let mut digest = [0; DIGEST];
    digest.copy_from_slice(front);
    Ok((digest, rest))
}
