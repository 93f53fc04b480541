//! Searches for the bytes where reading many lines has to look closer.

ghost use Rattle.std.specs.Prelude.{◌≡◌, ◌≤◌, length};
ghost use Rattle.std.specs.List.{position_or_len};
ghost use Rattle.ud_text.specs.bulk.BulkLexemes.{is_significant, is_star_pair, LastLineStarts};

use memchr::memrchr;
use simd::find_any_of;

pub(crate) mod simd;

/// Returns whether `byte` is significant: whether it may matter outside comments and literals.
pub(crate) fn is_significant(byte: u8) -> bool
    ensures { result ≡ is_significant byte }
{
    matches!(byte, b'/' | b'"' | b'\'' | b'\\' | b'#')
}

/// Returns the position of the first significant byte: `/`, `"`, `'`, a backslash or `#`. Returns
/// `bytes.len()` if there is none (C11 5.1.1.2, 6.4.4.4, 6.4.5, 6.4.9 and 6.10).
pub(crate) fn find_significant(bytes: &[u8]) -> usize
    ensures value { result ≡ position_or_len is_significant bytes.now }
    ensures bound { result ≤ length bytes.now }
{
    find_any_of(bytes, [b'/', b'"', b'\'', b'\\', b'#'])
}

/// Returns whether two bytes are a star pair: a star before a slash or a backslash.
pub(crate) fn is_star_pair(first: u8, second: u8) -> bool
    ensures { result ≡ is_star_pair first second }
{
    first == b'*' && (second == b'/' || second == b'\\')
}

/// Returns the beginning of the last line; the end of the bytes if they end with a newline.
pub fn last_line_start(bytes: &[u8]) -> usize
    ensures { LastLineStarts bytes.now result }
{
    match memrchr(b'\n', bytes) {
        Some(at) => at + 1,
        None => 0,
    }
}
