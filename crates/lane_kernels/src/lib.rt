//! Three kernels over lists of halfwords, by vectors of 32 halfwords: keeping some of them, counting the open ones,
//! and comparing two lists.
//!
//! [`keep_or_zero`], [`open_halves`] and [`same`] each give exactly the plain result of `specs/Kernels.antt`, or
//! equality itself, for lists of every length: whole vectors first, and then what is left halfword by halfword.
//!
//! No crate of the monitor stands below. The store of views, whose pages are kept halfwords, stands above.
#![tactic(auto)]

ghost use Rattle.std.specs.Prelude.{◌≡◌, ◌≢◌, ◌≤◌, ◌+◌, ◌&&◌, ℕ, MatchBool, if◌then◌else◌, count_by, length, nat_le, nat_lt, slice_index};
ghost use Rattle.std.specs.Simd.Lanes.{chunk};
ghost use Rattle.lane_kernels.specs.Kernels.{kept_at, is_open};

use std::simd::prelude::*;

/// How many halfwords one vector has.
const LANES: usize = 32;

/// The low two bits of a halfword.
const LOW_BITS: u16 = 3;

/// Copies each halfword whose mark is not 0, and writes 0 in place of the others: 0xffff keeps, 0 does not. The lists
/// are equally long.
pub fn keep_or_zero(src: &[u16], keep: &[u16], out: &mut [u16])
    requires src { length src.now ≡ length out.old }
    requires keep { length keep.now ≡ length out.old }
    ensures len { length out.new ≡ length out.old }
    ensures each { (n : ℕ) → slice_index out.new n ≡ kept_at src.now keep.now n }
{
    let vectors = out.len() / LANES;
    for k in 0..vectors {
        keep_vector(src, keep, out, LANES * k);
    }
    keep_rest(src, keep, out, LANES * vectors);
}

/// Keeps or zeroes the halfwords of one vector.
fn keep_vector(src: &[u16], keep: &[u16], out: &mut [u16], at: usize)
    requires src { at + LANES ≤ length src.now }
    requires keep { at + LANES ≤ length keep.now }
    requires out { at + LANES ≤ length out.old }
    ensures len { length out.new ≡ length out.old }
    ensures each { (n : ℕ) → slice_index out.new n
        ≡ (if nat_le at n && nat_lt n (at + LANES) then kept_at src.now keep.now n else slice_index out.old n) }
{
    let marks = u16x32::from_slice(&keep[at..]);
    let halves = u16x32::from_slice(&src[at..]);
    let zeros = u16x32::splat(0);
    let kept = marks.simd_eq(zeros).select(zeros, halves);
    kept.copy_to_slice(&mut out[at..]);
}

/// Keeps or zeroes the halfwords from one number on.
fn keep_rest(src: &[u16], keep: &[u16], out: &mut [u16], from: usize)
    requires src { length src.now ≡ length out.old }
    requires keep { length keep.now ≡ length out.old }
    requires from { from ≤ length out.old }
    ensures len { length out.new ≡ length out.old }
    ensures each { (n : ℕ) → slice_index out.new n
        ≡ (if nat_le from n && nat_lt n (length out.old) then kept_at src.now keep.now n else slice_index out.old n) }
{
    for n in from..out.len() {
        out[n] = if keep[n] == 0 { 0 } else { src[n] };
    }
}

/// How many of the halfwords are open: their low bits are 11, as where an instruction begins that goes on behind.
pub fn open_halves(src: &[u16]) -> u64
    ensures { result ≡ count_by is_open src.now }
{
    let vectors = src.len() / LANES;
    let mut total = 0;
    for k in 0..vectors {
        total += open_in_vector(src, LANES * k) as u64;
    }
    total + open_one_by_one(&src[LANES * vectors..])
}

/// How many halfwords of one vector are open.
fn open_in_vector(src: &[u16], at: usize) -> u32
    requires { at + LANES ≤ length src.now }
    ensures value { result ≡ count_by is_open (chunk at LANES src.now) }
    ensures most { result ≤ LANES }
{
    let low = u16x32::from_slice(&src[at..]) & u16x32::splat(LOW_BITS);
    low.simd_eq(u16x32::splat(LOW_BITS))
        .to_bitmask()
        .count_ones()
}

/// How many halfwords are open, looked at one by one.
fn open_one_by_one(src: &[u16]) -> u64
    ensures { result ≡ count_by is_open src.now }
{
    src.iter().filter(|half| **half % 4 == 3).count() as u64
}

/// Whether the lists are equal: as long, and the same halfword at each place.
pub fn same(a: &[u16], b: &[u16]) -> bool
    ensures { MatchBool result (a.now ≡ b.now) (a.now ≢ b.now) }
{
    if a.len() != b.len() {
        return false;
    }
    let vectors = a.len() / LANES;
    for k in 0..vectors {
        if !same_vector(a, b, LANES * k) {
            return false;
        }
    }
    same_one_by_one(&a[LANES * vectors..], &b[LANES * vectors..])
}

/// Whether one vector of each list is the same.
fn same_vector(a: &[u16], b: &[u16], at: usize) -> bool
    requires a { at + LANES ≤ length a.now }
    requires b { at + LANES ≤ length b.now }
    ensures { MatchBool result (chunk at LANES a.now ≡ chunk at LANES b.now) (chunk at LANES a.now ≢ chunk at LANES b.now) }
{
    u16x32::from_slice(&a[at..])
        .simd_ne(u16x32::from_slice(&b[at..]))
        .to_bitmask()
        == 0
}

/// Whether the lists are equal, looked at halfword by halfword.
fn same_one_by_one(a: &[u16], b: &[u16]) -> bool
    ensures { MatchBool result (a.now ≡ b.now) (a.now ≢ b.now) }
{
    a == b
}

#[cfg(test)]
mod tests;
