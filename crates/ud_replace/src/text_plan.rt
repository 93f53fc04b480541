//! The options for each text.

use ud_args::Plan;

/// The options of unifdef, and which passes go over its output.
#[derive(Drop)]
pub struct TextPlan {
    /// The plan of the run over a text.
    pub run: Plan,
    /// True if decided operands are removed from the conditions of the output.
    pub prunes: bool,
    /// True if blank lines of the output go that only stood there because of lines that went.
    pub squeezes: bool,
    /// True if the marks of the lines are wanted, for a diff.
    pub marks: bool,
}
