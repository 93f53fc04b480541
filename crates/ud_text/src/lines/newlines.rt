//! Counts newlines, and finds how far whole lines within the limit go.

ghost use Rattle.std.specs.Prelude.{◌≡◌, ◌≤◌, ◌<◌, length, take, drop};
ghost use Rattle.std.specs.List.{count_by};
ghost use Rattle.ud_model.specs.text.Lines.{whole_lines};
ghost use Rattle.ud_text.specs.bulk.BulkScanning.{AreWholeLines};
ghost use Rattle.ud_text.specs.lines.Consuming.{is_newline, EachFits, FirstIsLong};

use crate::searching::last_line_start;
use std::simd::prelude::*;
use ud_model::MAX_LINE_BYTES;

/// The number of bytes of a block.
const BLOCK_BYTES: usize = 64;

/// The number of blocks that are counted at once. Each adds at most 1 to a lane, which is a byte.
const MOST_BLOCKS: usize = 255;

/// The number of newlines in a prefix.
#[derive(Clone, Copy)]
struct NewlineCount {
    /// The number of newlines.
    newlines: usize,
    /// The length of the prefix.
    at: usize,
}

/// Counts the newlines, 16 bytes at a time. The last bytes, fewer than 16, are left out.
#[inline(always)]
fn newlines_by_lanes(bytes: &[u8]) -> NewlineCount
    ensures within { result.at ≤ length bytes.now }
    ensures counted { result.newlines ≡ count_by is_newline (take result.at bytes.now) }
    ensures low { result.newlines ≤ result.at }
{
    let mut newlines = 0;
    let mut at = 0;
    while bytes.len() - at >= 16 {
        let found = u8x16::from_slice(&bytes[at..]).simd_eq(u8x16::splat(b'\n'));
        newlines += found.to_bitmask().count_ones() as usize;
        at += 16;
    }
    NewlineCount { newlines, at }
}

/// Counts the newlines of the first blocks of `BLOCK_BYTES` bytes, at most `MOST_BLOCKS` of them.
fn newlines_in_blocks(bytes: &[u8]) -> NewlineCount
    ensures within { result.at ≤ length bytes.now }
    ensures counted { result.newlines ≡ count_by is_newline (take result.at bytes.now) }
    ensures some { BLOCK_BYTES ≤ length bytes.now → BLOCK_BYTES ≤ result.at }
{
    let blocks = (bytes.len() / BLOCK_BYTES).min(MOST_BLOCKS);
    let mut counts = u8x64::splat(0);
    for block in 0..blocks {
        let found = u8x64::from_slice(&bytes[block * BLOCK_BYTES..]).simd_eq(u8x64::splat(b'\n'));
        counts = counts.strict_add(found.select(u8x64::splat(1), u8x64::splat(0)));
    }
    NewlineCount {
        newlines: counts.cast::<u16>().strict_reduce_sum() as usize,
        at: blocks * BLOCK_BYTES,
    }
}

/// Counts the newlines by blocks of `BLOCK_BYTES` bytes. The last bytes, fewer than a block, are
/// left out.
fn newlines_by_blocks(bytes: &[u8]) -> NewlineCount
    ensures within { result.at ≤ length bytes.now }
    ensures counted { result.newlines ≡ count_by is_newline (take result.at bytes.now) }
{
    let mut newlines = 0;
    let mut at = 0;
    while bytes.len() - at >= BLOCK_BYTES {
        let counted = newlines_in_blocks(&bytes[at..]);
        newlines += counted.newlines;
        at += counted.at;
    }
    NewlineCount { newlines, at }
}

/// Returns the number of whole lines.
pub fn count_lines(bytes: &[u8]) -> usize
    ensures { result ≡ length (whole_lines bytes.now) }
{
    let counted = newlines_by_blocks(bytes);
    let rest = &bytes[counted.at..];
    let middle = newlines_by_lanes(rest);
    let last = &rest[middle.at..];
    let others = last.iter().filter(|byte| **byte == b'\n').count();
    counted.newlines + (middle.newlines + others)
}

/// Returns the length of the longest prefix that consists of whole lines of at most
/// `MAX_LINE_BYTES` each.
pub(crate) fn whole_lines_len(chunk: &[u8]) -> usize
    ensures bound { result ≤ length chunk.now }
    ensures ends { AreWholeLines (take result chunk.now) }
    ensures fits { EachFits (whole_lines (take result chunk.now)) }
    ensures longest { FirstIsLong (drop result chunk.now) }
{
    let mut at = 0;
    while at < chunk.len() {
        let rest = &chunk[at..];
        let count = last_line_start(&rest[..rest.len().min(MAX_LINE_BYTES)]);
        if count == 0 {
            return at;
        }
        at += count;
    }
    at
}
