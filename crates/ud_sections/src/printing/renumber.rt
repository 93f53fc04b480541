//! A printer that numbers the lines after removed ones.

ghost use Rattle.std.specs.Prelude.{◌≡◌};
ghost use Rattle.ud_model.specs.answer.Printing.{number_line};
ghost use Rattle.ud_model.specs.aids.LineViews.{as_line};

use crate::printing::append_bytes::append;
use crate::printing::line_output::LineOutput;
use crate::printing::pieces::Pieces;
use crate::printing::show::Show;
use crate::sections::Step;
use arrayvec::ArrayVec;
use itoa::Buffer;
use ud_model::{Line, Verdict};

/// The maximum length of a `#line` directive: its keyword, a space, ten digits and an ending.
const NUMBER_LINE_BYTES: usize = 18;

/// A printer that deletes removed lines, and numbers the line after them by a `#line` (unifdef(1),
/// `-n`; C11 6.10.4).
#[derive(Drop)]
pub struct Renumber {
    /// No spaces replace the lost bytes of a keyword.
    unpadded: bool,
    /// The previous line was removed.
    removed: bool,
    /// The last printed `#line`.
    number_line: ArrayVec<u8, NUMBER_LINE_BYTES>,
}

impl Renumber {
    ghost use Rattle.std.specs.Prelude.{◌≡◌, [], false};
    ghost use Rattle.ud_sections.specs.printing.Styles.{renumber_represents, renumber_style};
    ghost use Rattle.ud_sections.specs.printing.Styles.{renumber_style_by};

    /// Creates the printer at the beginning of a text.
    pub fn new() -> Renumber
        ensures represents { renumber_represents result [] }
        ensures style { renumber_style result ≡ renumber_style_by false }
    {
        Renumber::of(false)
    }

    /// Creates the printer at the beginning of a text. Unless `unpadded`, spaces replace lost
    /// bytes.
    pub(crate) fn of(unpadded: bool) -> Renumber
        ensures represents { renumber_represents result [] }
        ensures style { renumber_style result ≡ renumber_style_by unpadded }
    {
        Renumber {
            unpadded,
            removed: false,
            number_line: ArrayVec::new(),
        }
    }
}

impl Show for Renumber {
    ghost use Rattle.ud_model.specs.answer.Printing.{piece_after};
    ghost use Rattle.ud_sections.specs.printing.Styles.{renumber_represents, renumber_style};

    ghost represents = { renumber_represents };

    ghost piece = { λ r. piece_after (renumber_style r) };

    fn pieces<'a>(&'a mut self, line: &Line<'a>, step: Step) -> Pieces<'a> {
        let follows_removed = self.removed;
        let removed = step.verdict.is_removed();
        self.removed = removed;
        let alone = Pieces::for_line(line, step, &[], self.unpadded);
        if removed {
            return alone;
        }
        if !follows_removed {
            return alone;
        }
        write_number_line(&mut self.number_line, line);
        alone.prepend(self.number_line.as_slice(), line)
    }

    #[inline(always)]
    fn line_output(&self, verdict: Verdict) -> LineOutput {
        match verdict {
            Verdict::Keep if !self.removed => LineOutput::Whole,
            Verdict::Remove if self.removed => LineOutput::Nothing,
            _ => LineOutput::Parts,
        }
    }
}

/// Replaces `bytes` by the `#line` that precedes a line after removed ones.
fn write_number_line(bytes: &mut ArrayVec<u8, NUMBER_LINE_BYTES>, line: &Line<'_>)
    ensures { bytes.new.items ≡ number_line (as_line line.now) }
{
    let mut digits = Buffer::new();
    let number = digits.format(line.number).as_bytes();
    bytes.clear();
    append(bytes, b"#line ");
    append(bytes, number);
    if line.ending.is_empty() {
        append(bytes, b"\n");
    } else {
        append(bytes, line.ending);
    }
}
