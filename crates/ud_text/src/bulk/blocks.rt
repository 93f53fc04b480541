//! Blocks of 64 bytes, whose significant bytes are all found at once.
//!
//! The bit mask of the current block is kept, so the next significant byte in it costs one bit
//! scan.

ghost use Rattle.std.specs.Prelude.{◌≡◌, ◌≤◌, ◌+◌, length, take, drop};
ghost use Rattle.std.specs.List.{position_or_len};
ghost use Rattle.ud_text.specs.bulk.BulkLexemes.{is_significant};
ghost use Rattle.ud_text.specs.bulk.Blocks.{IsBlock, significant_bits};

use crate::searching::find_significant;
use std::simd::prelude::*;

/// The number of bytes of a block.
const BLOCK_BYTES: usize = 64;

/// The significant byte with each low nibble; no nibble has two. A nibble without one has a byte
/// with another low nibble, which never matches. The 16 entries repeat for each quarter of a block.
const BY_LOW_NIBBLE: [u8; BLOCK_BYTES] = [
    1, 0, b'"', b'#', 0, 0, 0, b'\'', 0, 0, 0, 0, b'\\', 0, 0, b'/', 1, 0, b'"', b'#', 0, 0, 0,
    b'\'', 0, 0, 0, 0, b'\\', 0, 0, b'/', 1, 0, b'"', b'#', 0, 0, 0, b'\'', 0, 0, 0, 0, b'\\', 0,
    0, b'/', 1, 0, b'"', b'#', 0, 0, 0, b'\'', 0, 0, 0, 0, b'\\', 0, 0, b'/',
];

/// The significant bytes of a block, as a bit mask.
#[derive(Clone, Copy)]
pub(crate) struct Block {
    /// The position of the block's first byte. No block begins at the end of the bytes.
    begin: usize,
    /// One bit for each byte of the block, the lowest for the first byte.
    bits: u64,
}

/// Returns no block: an empty one at the end of `bytes`.
pub(crate) fn no_block(bytes: &[u8]) -> Block
    ensures { IsBlock result bytes.now }
{
    Block {
        begin: bytes.len(),
        bits: 0,
    }
}

/// Returns the bit mask of the significant bytes in the block from `at` on, the lowest bit for the
/// first byte.
#[inline(always)]
fn block_bits(bytes: &[u8], at: usize) -> u64
    requires { at + BLOCK_BYTES ≤ length bytes.now }
    ensures { result ≡ significant_bits (take BLOCK_BYTES (drop at bytes.now)) }
{
    let lanes = u8x64::from_slice(&bytes[at..]);
    let expected = u8x64::from_array(BY_LOW_NIBBLE).swizzle_dyn_within::<16>(
        lanes & u8x64::splat(15),
    );
    lanes.simd_eq(expected).to_bitmask()
}

/// Returns the position of the first significant byte from `begin` on, and its block. The position
/// is `bytes.len()` if there is none. Bytes after the last full block have no block.
#[inline(always)]
fn significant_from(bytes: &[u8], begin: usize) -> (usize, Block)
    requires within { begin ≤ length bytes.now }
    ensures value { result.0 ≡ begin + position_or_len is_significant (drop begin bytes.now) }
    ensures block { IsBlock result.1 bytes.now }
{
    let mut at = begin;
    while bytes.len() - at >= BLOCK_BYTES {
        let bits = block_bits(bytes, at);
        if bits != 0 {
            let position = at + bits.trailing_zeros() as usize;
            return (position, Block { begin: at, bits });
        }
        at += BLOCK_BYTES;
    }
    (at + find_significant(&bytes[at..]), no_block(bytes))
}

/// Returns the position of the first significant byte from `at` on, and its block, as
/// `significant_from` does. `block` is the one found before: its bits are used again if `at` lies
/// in it.
#[inline(always)]
pub(crate) fn next_significant(bytes: &[u8], block: Block, at: usize) -> (usize, Block)
    requires within { at ≤ length bytes.now }
    requires block { IsBlock block bytes.now }
    ensures value { result.0 ≡ at + position_or_len is_significant (drop at bytes.now) }
    ensures bound { result.0 ≤ length bytes.now }
    ensures block { IsBlock result.1 bytes.now }
{
    // One comparison: a position before the block is a great number.
    let shift = at.wrapping_sub(block.begin);
    if shift >= BLOCK_BYTES {
        return significant_from(bytes, at);
    }
    let bits = block.bits >> shift;
    if bits == 0 {
        let end = block.begin + BLOCK_BYTES;
        return significant_from(bytes, end.min(bytes.len()));
    }
    (at + bits.trailing_zeros() as usize, block)
}
