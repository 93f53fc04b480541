//! The keys of names: numbers in which most names differ.
//!
//! A key is the last `KEY_BYTES` of a name as a number, since names often begin alike. So a step of
//! the binary search compares two numbers.
//!
//! Rejected: an order by bytes alone; a key whose last byte counts most, which inserts numbered
//! names among the others.

ghost use Rattle.std.specs.Prelude.{◌≡◌};
ghost use Rattle.ud_cond.specs.symbols.Keys as spec;

/// The number of bytes of a name that form its key.
pub(crate) const KEY_BYTES: usize = 8;

/// Returns the key of a name: its last bytes as one number, since names often begin alike.
///
/// The first of these bytes counts most, and missing bytes count as 0. So names that are numbered,
/// or sorted by their last bytes, have rising keys, and each new row goes at the end.
#[inline(always)]
pub(crate) fn key_of(name: &[u8]) -> u64
    ensures { result ≡ spec.key_of name.now }
{
    if let Some((_, last)) = name.split_last_chunk() {
        return u64::from_be_bytes(*last);
    }
    let mut bytes = [0; KEY_BYTES];
    bytes[..name.len()].copy_from_slice(name);
    u64::from_be_bytes(bytes)
}
