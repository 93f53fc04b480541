//! A printer of the kept lines.

use crate::printing::line_output::LineOutput;
use crate::printing::pieces::Pieces;
use crate::printing::show::Show;
use crate::sections::Step;
use ud_model::{Line, Verdict};

/// A printer that deletes removed lines (unifdef(1), without options).
#[derive(Drop)]
pub struct Delete {
    /// No spaces replace the lost bytes of a keyword.
    unpadded: bool,
}

impl Delete {
    ghost use Rattle.std.specs.Prelude.{◌≡◌, [], false};
    ghost use Rattle.ud_sections.specs.printing.Styles.{delete_represents, delete_style};
    ghost use Rattle.ud_sections.specs.printing.Styles.{delete_style_by};

    /// Creates the printer at the beginning of a text.
    pub fn new() -> Delete
        ensures represents { delete_represents result [] }
        ensures style { delete_style result ≡ delete_style_by false }
    {
        Delete::of(false)
    }

    /// Creates the printer at the beginning of a text. Unless `unpadded`, spaces replace lost
    /// bytes.
    pub(crate) fn of(unpadded: bool) -> Delete
        ensures represents { delete_represents result [] }
        ensures style { delete_style result ≡ delete_style_by unpadded }
    {
        Delete { unpadded }
    }
}

impl Show for Delete {
    ghost use Rattle.ud_model.specs.answer.Printing.{piece_after};
    ghost use Rattle.ud_sections.specs.printing.Styles.{delete_represents, delete_style};

    ghost represents = { delete_represents };

    ghost piece = { λ d. piece_after (delete_style d) };

    #[inline(always)]
    fn pieces<'a>(&'a mut self, line: &Line<'a>, step: Step) -> Pieces<'a> {
        Pieces::for_line(line, step, &[], self.unpadded)
    }

    #[inline(always)]
    fn line_output(&self, verdict: Verdict) -> LineOutput {
        match verdict {
            Verdict::Keep => LineOutput::Whole,
            Verdict::Remove => LineOutput::Nothing,
            _ => LineOutput::Parts,
        }
    }
}
