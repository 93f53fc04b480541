//! A printer that shows what happened to each line.
//!
//! The marks only say where a diff looks, and which blank lines a squeezed output loses. Whatever
//! they are, the hunks turn the text into the output, and back, and no other line is lost.

use ud_model::{Settings, Verdict};
use ud_passes::EDITED;
use ud_sections::{LineOutput, Pieces, Show, Step};
use ud_text::Line;

/// The mark of a line that is removed.
pub(crate) const REMOVED: u8 = 0;

/// A printer that prints each line of the text, those that don't stay as they are after a mark:
/// `EDITED` if another line replaces it, and `REMOVED` if nothing is printed. So many lines that
/// stay are printed at once, and no marked line is the line of the text. It applies `-c` itself,
/// since a `Complement` can't be copied.
#[derive(Clone, Copy)]
pub(crate) struct Marked {
    /// The settings of the run.
    settings: Settings,
}

impl Marked {
    ghost use Rattle.std.specs.Prelude.{◌≡◌};
    ghost use Rattle.ud_replace.specs.Marks.{verdict_by};

    /// Returns the printer at the beginning of a text.
    pub(crate) fn new(settings: Settings) -> Marked
        ensures { result.settings ≡ settings }
    {
        Marked { settings }
    }

    /// Returns a verdict, under `-c` if the settings have that.
    fn verdict(&self, verdict: Verdict) -> Verdict
        ensures { result ≡ verdict_by self.now.settings verdict }
    {
        if !self.settings.complement {
            return verdict;
        }
        match verdict {
            Verdict::Remove => Verdict::Keep,
            _ => Verdict::Remove,
        }
    }
}

impl Show for Marked {
    ghost use Rattle.ud_replace.specs.Marks.{marked_piece};

    ghost represents = { λ m before. Unit {0} };

    ghost piece = { λ m. marked_piece m.settings };

    fn pieces<'a>(&'a mut self, line: &Line<'a>, step: Step) -> Pieces<'a> {
        let step = Step {
            verdict: self.verdict(step.verdict),
            keyword: step.keyword,
        };
        let blank: &'a [u8] = if self.settings.blank {
            line.ending
        } else {
            &[]
        };
        let pieces = Pieces::for_line(line, step, blank, false);
        if pieces.same() {
            return pieces;
        }
        let mark: &'a [u8] = if step.verdict.is_removed() && !self.settings.blank {
            &[REMOVED]
        } else {
            &[EDITED]
        };
        let whole = Step {
            verdict: Verdict::Keep,
            keyword: step.keyword,
        };
        Pieces::for_line(line, whole, &[], false).prepend(mark, line)
    }

    fn line_output(&self, verdict: Verdict) -> LineOutput {
        match self.verdict(verdict) {
            Verdict::Keep => LineOutput::Whole,
            _ => LineOutput::Parts,
        }
    }
}
