//! A printer of its own: the directives that are left, without the text between them.

ghost use Rattle.std.specs.Prelude.{◌≡◌};
ghost use Rattle.test_examples.specs.Outlines.{outline_verdict};

use ud_model::Verdict;
use ud_sections::{Pieces, Show, Step};
use ud_text::Line;

/// A printer by which text lines are removed, and directives are printed as another printer does.
#[derive(Drop)]
pub(crate) struct Outline<S> {
    inner: S,
}

impl<S: Show> Outline<S> {
    ghost use Rattle.test_examples.specs.Outlines.{inner_of};

    /// The outline of a printer at the beginning of a text.
    pub(crate) fn new(inner: S) -> Outline<S>
        ensures { inner_of result ≡ inner }
    {
        Outline { inner }
    }
}

impl<S: Show> Show for Outline<S> {
    ghost use Rattle.std.specs.Prelude.{map};
    ghost use Rattle.test_examples.specs.Outlines.{outlined};

    ghost represents = { λ o before. S.represents o.inner (map outlined before) };

    ghost piece = { λ o before j. S.piece o.inner (map outlined before) (outlined j) };

    fn pieces<'a>(&'a mut self, line: &Line<'a>, step: Step) -> Pieces<'a> {
        let verdict = outlined(step);
        let keyword = step.keyword;
        self.inner.pieces(line, Step { verdict, keyword })
    }
}

/// Returns the verdict of a line in an outline. A text line has no keyword.
fn outlined(step: Step) -> Verdict
    ensures { result ≡ outline_verdict step.keyword.len step.verdict }
{
    if step.keyword.len == 0 {
        Verdict::Remove
    } else {
        step.verdict
    }
}
