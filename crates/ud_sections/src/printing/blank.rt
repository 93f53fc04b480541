//! A printer that blanks removed lines.

use crate::printing::line_output::LineOutput;
use crate::printing::pieces::Pieces;
use crate::printing::show::Show;
use crate::sections::Step;
use ud_model::{Line, Verdict};

/// A printer that prints only the ending of a removed line (unifdef(1), `-b`).
#[derive(Drop)]
pub struct Blank {
    /// No spaces replace the lost bytes of a keyword.
    unpadded: bool,
}

impl Blank {
    ghost use Rattle.std.specs.Prelude.{◌≡◌, [], false};
    ghost use Rattle.ud_sections.specs.printing.Styles.{blank_represents, blank_style};
    ghost use Rattle.ud_sections.specs.printing.Styles.{blank_style_by};

    /// Creates the printer at the beginning of a text.
    pub fn new() -> Blank
        ensures represents { blank_represents result [] }
        ensures style { blank_style result ≡ blank_style_by false }
    {
        Blank::of(false)
    }

    /// Creates the printer at the beginning of a text. Unless `unpadded`, spaces replace lost
    /// bytes.
    pub(crate) fn of(unpadded: bool) -> Blank
        ensures represents { blank_represents result [] }
        ensures style { blank_style result ≡ blank_style_by unpadded }
    {
        Blank { unpadded }
    }
}

impl Show for Blank {
    ghost use Rattle.ud_model.specs.answer.Printing.{piece_after};
    ghost use Rattle.ud_sections.specs.printing.Styles.{blank_represents, blank_style};

    ghost represents = { blank_represents };

    ghost piece = { λ b. piece_after (blank_style b) };

    fn pieces<'a>(&'a mut self, line: &Line<'a>, step: Step) -> Pieces<'a> {
        Pieces::for_line(line, step, line.ending, self.unpadded)
    }

    #[inline(always)]
    fn line_output(&self, verdict: Verdict) -> LineOutput {
        match verdict {
            Verdict::Keep => LineOutput::Whole,
            Verdict::Remove => LineOutput::Ending,
            _ => LineOutput::Parts,
        }
    }
}
