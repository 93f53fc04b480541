//! The parts of the output for a line.

ghost use Rattle.std.specs.Prelude.{◌≡◌, ◌≤◌, bytes_eq};
ghost use Rattle.std.specs.List.{flat_map};
ghost use Rattle.ud_model.specs.text.Lines.{text_of};
ghost use Rattle.ud_model.specs.answer.Printing.{opener_keyword};
ghost use Rattle.ud_model.specs.aids.LineViews.{as_line};

use crate::sections::{Span, Step};
use ud_model::{Line, Verdict};

/// The output for a line: at most five parts, to be written in order.
///
/// The parts are borrowed from the line and from the printer.
#[derive(Drop)]
pub struct Pieces<'a> {
    /// The parts; only the first `count` are used.
    slices: [&'a [u8]; 5],
    count: usize,
    same: bool,
    ghost few: { count ≤ 5 },
}

/// Returns what replaces a keyword of this length in a directive that becomes the first one of its
/// section: `ifdef` for `elifdef`, `ifndef` for `elifndef`, else `if`. Unless `unpadded`, two
/// spaces follow for the lost bytes.
fn opener_keyword<'a>(unpadded: bool, len: usize) -> &'a [u8]
    ensures { result.now ≡ opener_keyword unpadded len }
{
    match (unpadded, len) {
        (true, 7) => b"ifdef",
        (true, 8) => b"ifndef",
        (true, _) => b"if",
        (false, 7) => b"ifdef  ",
        (false, 8) => b"ifndef  ",
        (false, _) => b"if  ",
    }
}

impl<'a> Pieces<'a> {
    ghost use Rattle.std.specs.Prelude.{◌+◌, ◌++◌, length, take, drop, if◌then◌else◌};
    ghost use Rattle.ud_model.specs.answer.Printing.{piece_by};
    ghost use Rattle.ud_model.specs.sections.Pruning.{is_removed};
    ghost use Rattle.ud_sections.specs.printing.PieceParts.{concatenated, count_of, is_unchanged};
    ghost use Rattle.ud_sections.specs.sections.StepViews.{as_span, HoldsKeyword};

    /// Creates the output for `line` from the first `count` of `slices`.
    #[inline(always)]
    fn new(slices: [&'a [u8]; 5], count: usize, line: &Line<'_>) -> Pieces<'a>
        requires few { count ≤ 5 }
        ensures parts { concatenated result ≡ flat_map (λ s. s.now) (take count slices.entry) }
        ensures count { count_of result ≡ count }
        ensures is_unchanged { is_unchanged result ≡
            bytes_eq (concatenated result) (text_of (as_line line.now)) }
    {
        let same = equals_line(&slices[..count], line);
        Pieces {
            slices,
            count,
            same,
        }
    }

    /// Creates the output for an unchanged line.
    #[inline(always)]
    fn whole(line: &Line<'a>) -> Pieces<'a>
        ensures parts { concatenated result ≡ text_of (as_line line.now) }
        ensures count { count_of result ≡ 2 }
        ensures is_unchanged { is_unchanged result ≡
            bytes_eq (concatenated result) (text_of (as_line line.now)) }
    {
        Pieces {
            slices: [line.body, line.ending, &[], &[], &[]],
            count: 2,
            same: true,
        }
    }

    /// Creates the output for a line by its step alone, with `blank` in place of a removed line.
    /// Unless `unpadded`, spaces replace the lost bytes of a keyword.
    #[inline(always)]
    pub fn for_line(line: &Line<'a>, step: Step, blank: &'a [u8], unpadded: bool) -> Pieces<'a>
        requires keyword { HoldsKeyword step line.now }
        ensures parts { concatenated result ≡ (if is_removed step.verdict then blank.now
            else piece_by unpadded step.verdict (as_span step.keyword) (as_line line.now)) }
        ensures count { count_of result ≤ 4 }
        ensures is_unchanged { is_unchanged result ≡
            bytes_eq (concatenated result) (text_of (as_line line.now)) }
    {
        match step.verdict {
            Verdict::Keep => Pieces::whole(line),
            Verdict::Remove => Pieces::new([blank, &[], &[], &[], &[]], 1, line),
            Verdict::ToIf => {
                let word = opener_keyword(unpadded, step.keyword.len);
                Pieces::with_keyword(line, step.keyword, word)
            }
            Verdict::ToElse => Pieces::with_end(line, step.keyword.at, b"else"),
            Verdict::ToEndif => Pieces::with_end(line, step.keyword.at, b"endif"),
        }
    }

    /// Creates the output for a line that has `word` in place of its keyword.
    #[tactic(auto, using(crate::proofs::lemmas::printing::PartLemmas::replaced_part))]
    #[inline(always)]
    fn with_keyword(line: &Line<'a>, keyword: Span, word: &'a [u8]) -> Pieces<'a>
        requires within { keyword.at + keyword.len ≤ length line.now.body.now }
        ensures parts { concatenated result ≡ take keyword.at line.now.body.now ++ word.now ++
            drop (keyword.at + keyword.len) line.now.body.now ++ line.now.ending.now }
        ensures count { count_of result ≡ 4 }
        ensures is_unchanged { is_unchanged result ≡
            bytes_eq (concatenated result) (text_of (as_line line.now)) }
    {
        let (before, rest) = line.body.split_at(keyword.at);
        let (replaced, after) = rest.split_at(keyword.len);
        Pieces {
            slices: [before, word, after, line.ending, &[]],
            count: 4,
            same: is_word(replaced, word),
        }
    }

    /// Creates the output for a line whose body has `word` in place of its bytes from `at` on.
    #[tactic(auto, using(crate::proofs::lemmas::printing::PartLemmas::replaced_end))]
    #[inline(always)]
    fn with_end(line: &Line<'a>, at: usize, word: &'a [u8]) -> Pieces<'a>
        requires within { at ≤ length line.now.body.now }
        ensures parts { concatenated result ≡
            take at line.now.body.now ++ word.now ++ line.now.ending.now }
        ensures count { count_of result ≡ 3 }
        ensures is_unchanged { is_unchanged result ≡
            bytes_eq (concatenated result) (text_of (as_line line.now)) }
    {
        let (before, end) = line.body.split_at(at);
        Pieces {
            slices: [before, word, line.ending, &[], &[]],
            count: 3,
            same: is_word(end, word),
        }
    }

    /// Prepends `first` to these parts, at most four. The result is printed in place of `line`.
    pub fn prepend(self, first: &'a [u8], line: &Line<'_>) -> Pieces<'a>
        requires has_space { count_of self ≤ 4 }
        ensures parts { concatenated result ≡ first.now ++ concatenated self.entry }
        ensures count { count_of result ≡ count_of self.entry + 1 }
        ensures is_unchanged { is_unchanged result ≡
            bytes_eq (concatenated result) (text_of (as_line line.now)) }
    {
        let [a, b, c, d, _] = self.slices;
        Pieces::new([first, a, b, c, d], self.count + 1, line)
    }

    /// Returns the parts in order, at most five. Some may be empty.
    pub fn parts(&self) -> &[&'a [u8]]
        ensures joined { flat_map (λ s. s.now) result.now ≡ concatenated self.now }
        ensures few { length result.now ≤ 5 }
    {
        &self.slices[..self.count]
    }

    /// Returns whether the concatenated parts are the line itself.
    pub fn same(&self) -> bool
        ensures { result ≡ is_unchanged self.now }
    {
        self.same
    }
}

/// Returns whether a text is a word. Most texts differ from it in their first byte or their length.
#[inline(always)]
fn is_word(text: &[u8], word: &[u8]) -> bool
    ensures { result ≡ bytes_eq word.now text.now }
{
    text.len() == word.len() && text.first() == word.first() && text == word
}

/// Returns whether the concatenated parts are a line with its ending.
#[inline(always)]
fn equals_line(parts: &[&[u8]], line: &Line<'_>) -> bool
    ensures { result ≡ bytes_eq (flat_map (λ p. p.now) parts.now) (text_of (as_line line.now)) }
{
    let mut body = line.body;
    let mut ending = line.ending;
    for part in parts {
        if part.is_empty() {
            continue;
        }
        let (in_body, in_ending) = part.split_at(part.len().min(body.len()));
        match body.strip_prefix(in_body) {
            Some(rest) => body = rest,
            None => return false,
        }
        match ending.strip_prefix(in_ending) {
            Some(rest) => ending = rest,
            None => return false,
        }
    }
    body.is_empty() && ending.is_empty()
}
