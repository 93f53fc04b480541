//! A printer of the lines that another would remove.

ghost use Rattle.std.specs.Prelude.{◌≡◌};
ghost use Rattle.ud_model.specs.answer.Printing.{complement_verdict};

use crate::printing::line_output::LineOutput;
use crate::printing::pieces::Pieces;
use crate::printing::show::Show;
use crate::sections::Step;
use ud_model::{Line, Verdict};

/// A printer that keeps the lines that would be removed, and removes all others (unifdef(1), `-c`).
#[derive(Drop)]
pub struct Complement<S> {
    inner: S,
}

impl<S: Show> Complement<S> {
    ghost use Rattle.std.specs.Prelude.{◌≡◌};
    ghost use Rattle.ud_sections.specs.printing.Styles.{inner_of};

    /// Creates the complement of a printer at the beginning of a text.
    pub fn new(inner: S) -> Complement<S>
        ensures { inner_of result ≡ inner }
    {
        Complement { inner }
    }
}

impl<S: Show> Show for Complement<S> {
    ghost use Rattle.std.specs.Prelude.{map};
    ghost use Rattle.ud_model.specs.answer.Printing.{complemented};

    ghost represents = { λ c before. S.represents c.inner (map complemented before) };

    ghost piece = { λ c before j. S.piece c.inner (map complemented before) (complemented j) };

    fn pieces<'a>(&'a mut self, line: &Line<'a>, step: Step) -> Pieces<'a> {
        let complemented = Step {
            verdict: complement_of(step.verdict),
            keyword: step.keyword,
        };
        self.inner.pieces(line, complemented)
    }

    #[inline(always)]
    fn line_output(&self, verdict: Verdict) -> LineOutput {
        self.inner.line_output(complement_of(verdict))
    }
}

/// Returns the verdict of a line under the complement.
#[inline(always)]
fn complement_of(verdict: Verdict) -> Verdict
    ensures { result ≡ complement_verdict verdict }
{
    match verdict {
        Verdict::Remove => Verdict::Keep,
        _ => Verdict::Remove,
    }
}
