//! Numbers in conditions, as far as they are known.

/// A number, as far as it is known.
#[derive(Clone, Copy, Debug, PartialEq, Eq, Default)]
pub enum Amount {
    /// Any number.
    #[default]
    Anything,
    /// This number.
    Exactly(i64),
    /// This number or a greater one.
    AtLeast(i64),
}
