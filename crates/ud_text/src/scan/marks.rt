//! Marks: the bytes where a comment, a literal or a splice may begin or end.

ghost use Rattle.std.specs.Prelude.{◌≡◌};
ghost use Rattle.std.specs.List.{position_or_len};
ghost use Rattle.ud_model.specs.text.Bytes.{is_mark};

use crate::searching::simd::find_any_of;

/// Returns the position of the first mark: `/`, `*`, `"`, `'` or a backslash. At a mark a comment,
/// a literal or a splice may begin or end. Returns `bytes.len()` if there is none (C11 5.1.1.2,
/// 6.4.4.4, 6.4.5 and 6.4.9).
pub fn first_mark(bytes: &[u8]) -> usize
    ensures { result ≡ position_or_len is_mark bytes.now }
{
    find_any_of(bytes, [b'/', b'*', b'"', b'\'', b'\\'])
}
