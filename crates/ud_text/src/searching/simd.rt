//! Searches over many bytes at a time.
//!
//! Each returns what a search byte by byte would. `N` lanes are compared at once; the last ones
//! overlap those before. The number of lanes affects speed only: a search for a near byte uses few.
//!
//! Rejected: 32 lanes and a loop over the rest, which reads many lines byte by byte.

ghost use Rattle.std.specs.Prelude.{◌≡◌, ◌≤◌, ◌<◌, ◌+◌, length, take, drop};
ghost use Rattle.std.specs.List.{position_or_len};
ghost use Rattle.ud_text.specs.searching.Searches.{is_one_of, lowest_set_bit};

use std::simd::Simd;
use std::simd::prelude::*;

/// Five bytes to search for. One of them may be listed more than once.
pub(crate) type ByteSet = [u8; 5];

/// Returns whether `byte` is one of `set`.
fn is_one_of(byte: u8, set: ByteSet) -> bool
    ensures { result ≡ is_one_of set byte }
{
    byte == set[0] || byte == set[1] || byte == set[2] || byte == set[3] || byte == set[4]
}

/// Returns the position of the lowest set bit, or `lanes` if none is set.
#[inline(always)]
fn lowest_set_bit(bits: u64, lanes: usize) -> usize
    ensures { result ≡ lowest_set_bit bits lanes }
{
    if bits == 0 {
        lanes
    } else {
        bits.trailing_zeros() as usize
    }
}

/// Returns how many of the `N` bytes from `at` on come before the first one of `set`; all if there
/// is none.
#[inline(always)]
pub(crate) fn find_in_lanes<const N: usize>(bytes: &[u8], at: usize, set: ByteSet) -> usize
    requires few { N ≤ 64 }
    requires fits { at + N ≤ length bytes.now }
    ensures value { result ≡ position_or_len (is_one_of set) (take N (drop at bytes.now)) }
    ensures bound { result ≤ N }
{
    let lanes = Simd::<u8, N>::from_slice(&bytes[at..]);
    let found = lanes.simd_eq(Simd::splat(set[0]))
        | lanes.simd_eq(Simd::splat(set[1]))
        | lanes.simd_eq(Simd::splat(set[2]))
        | lanes.simd_eq(Simd::splat(set[3]))
        | lanes.simd_eq(Simd::splat(set[4]));
    lowest_set_bit(found.to_bitmask(), N)
}

/// Returns the position of the first byte of `set`, by `N` lanes. Returns `bytes.len()` if there is
/// none.
#[inline(always)]
fn find_by_lanes<const N: usize>(bytes: &[u8], set: ByteSet) -> usize
    requires some { 0 < N }
    requires few { N ≤ 64 }
    requires fits { N ≤ length bytes.now }
    ensures { result ≡ position_or_len (is_one_of set) bytes.now }
{
    let last = bytes.len() - N;
    let mut at = 0;
    while at < last {
        let count = find_in_lanes::<N>(bytes, at, set);
        // Of the bits this asks only whether one is set.
        if count != N {
            return at + count;
        }
        at += N;
    }
    last + find_in_lanes::<N>(bytes, last, set)
}

/// Returns the position of the first byte of `set`, or `bytes.len()` if there is none. Uses few
/// lanes, for a byte that is near.
#[inline(always)]
pub(crate) fn find_any_of(bytes: &[u8], set: ByteSet) -> usize
    ensures value { result ≡ position_or_len (is_one_of set) bytes.now }
    ensures bound { result ≤ length bytes.now }
{
    if bytes.len() >= 16 {
        find_by_lanes::<16>(bytes, set)
    } else if bytes.len() >= 8 {
        find_by_lanes::<8>(bytes, set)
    } else if bytes.len() >= 4 {
        find_by_lanes::<4>(bytes, set)
    } else {
        bytes
            .iter()
            .position(|byte| is_one_of(*byte, set))
            .unwrap_or(bytes.len())
    }
}
