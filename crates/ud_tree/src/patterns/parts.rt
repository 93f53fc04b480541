//! The parts of a pattern that match one byte.

ghost use Rattle.std.specs.Prelude.{◌≡◌, ◌<◌, option_map};
ghost use Rattle.ud_tree.specs.Patterns.{after_part, after_backslash, after_set, set_after};
ghost use Rattle.ud_tree.specs.Patterns.{set_from, item_high, item_after};
ghost use Rattle.ud_tree.specs.PatternPlaces.{as_test};

/// The test of a set: whether it has a byte, and the pattern after it.
#[derive(Clone, Copy)]
pub(crate) struct SetTest<'a> {
    pub has: bool,
    pub after: &'a [u8],
}

/// Returns the pattern after its first part, if that part matches this byte.
pub(crate) fn after_part(pattern: &[u8], byte: u8) -> Option<&[u8]>
    ensures { option_map (λ r. r.now) result ≡ after_part pattern.now byte }
{
    let (first, rest) = pattern.split_first()?;
    match *first {
        b'*' => None,
        b'?' => Some(rest),
        b'[' => after_set(rest, byte),
        b'\\' => after_backslash(rest, byte),
        literal if literal == byte => Some(rest),
        _ => None,
    }
}

/// Returns the pattern after the byte that follows a backslash, if it is this byte.
fn after_backslash(rest: &[u8], byte: u8) -> Option<&[u8]>
    ensures { option_map (λ r. r.now) result ≡ after_backslash rest.now byte }
{
    match rest.split_first() {
        None if byte == b'\\' => Some(rest),
        None => None,
        Some((literal, after)) if *literal == byte => Some(after),
        Some(_) => None,
    }
}

/// Returns the pattern after a set, if the set has this byte. `rest` follows its bracket, which is
/// an ordinary byte if the set has no end.
fn after_set(rest: &[u8], byte: u8) -> Option<&[u8]>
    ensures { option_map (λ r. r.now) result ≡ after_set (set_after rest.now byte) rest.now byte }
{
    match set_after(rest, byte) {
        Some(set) if set.has => Some(set.after),
        Some(_) => None,
        None if byte == b'[' => Some(rest),
        None => None,
    }
}

/// Returns whether the set that begins with `text` has a byte, and the pattern after the set;
/// `None` if the set has no end.
fn set_after(text: &[u8], byte: u8) -> Option<SetTest<'_>>
    ensures { option_map as_test result ≡ set_after text.now byte }
{
    let (first, rest) = text.split_first()?;
    if *first == b'!' || *first == b'^' {
        let set = set_from(rest, byte)?;
        return Some(SetTest {
            has: !set.has,
            after: set.after,
        });
    }
    set_from(text, byte)
}

/// Returns whether a set that isn't negated has a byte, and the pattern after the set; `None` if
/// the set has no end.
fn set_from(text: &[u8], byte: u8) -> Option<SetTest<'_>>
    ensures { option_map as_test result ≡ set_from text.now byte }
{
    let mut rest = text;
    let mut first = true;
    let mut found = false;
    'items: while let Some((low, after)) = rest.split_first() {
        if *low == b']' && !first {
            return Some(SetTest { has: found, after });
        }
        let item = set_item(*low, after);
        found = found || (*low <= byte && byte <= item.high);
        rest = item.after;
        first = false;
    }
    None
}

/// A byte or a range of a set.
#[derive(Clone, Copy)]
struct SetItem<'a> {
    /// The last byte of the range.
    high: u8,
    /// The set after it.
    after: &'a [u8],
}

/// Returns the range of a set that begins with this byte, or the byte alone.
fn set_item(low: u8, after: &[u8]) -> SetItem<'_>
    ensures high { result.high ≡ item_high low after.now }
    ensures after { result.after.now ≡ item_after after.now }
{
    match after {
        [b'-', high, later @ ..] if *high != b']' => SetItem {
            high: *high,
            after: later,
        },
        _ => SetItem { high: low, after },
    }
}
