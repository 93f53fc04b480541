//! The truth of a condition.

/// The truth of a condition, as far as the options decide it (unifdef(1)).
#[derive(Clone, Copy, Debug, PartialEq, Eq)]
pub enum Cond {
    /// The condition is true whatever the other symbols are.
    Yes,
    /// The condition is false whatever the other symbols are.
    No,
    /// The options don't decide the condition, or its text isn't understood.
    Unknown,
}
