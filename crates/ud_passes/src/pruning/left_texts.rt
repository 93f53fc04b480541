//! The rest of a condition's text by the flags of its tokens.
//!
//! White space after an operand belongs to the token after it, other white space to the token
//! before it. It stays or goes with that token, but stays if it has a comment
//! (`ud_simplified.specs.ResidualTexts.left_from`).

ghost use Rattle.std.specs.Prelude.{◌≡◌, ◌≤◌, ◌+◌, ◌||◌, ◌∷◌, ◌++◌, List, Bool, [], length, not};
ghost use Rattle.std.specs.Prelude.{IfOk, OnOk, if◌then◌else◌};
ghost use Rattle.ud_model.specs.text.Bytes.{are_white};
ghost use Rattle.ud_model.specs.text.Lexemes.{Cell};
ghost use Rattle.ud_simplified.specs.ResidualTexts as spec;
ghost use Rattle.ud_simplified.specs.ResidualTexts.{left_cells};
ghost use Rattle.ud_cond.specs.CondViews.{as_token};
ghost use Rattle.ud_passes.specs.pruning.Cells.{AreCells, SameLeft, left_at, LeavesAt};

use crate::pruning::cells::{CellBytes, LeftText};
use std::alloc::AllocError;
use ud_cond::{NextToken, Token, next_token};
use ud_model::bytes::{are_white, skip_white};

/// A position in a condition's text.
#[derive(Clone, Copy)]
struct Place<'a> {
    /// The text from here on.
    text: CellBytes<'a>,
    /// The token before it stays.
    stays: bool,
    /// An operand ends with that token.
    operand: bool,
}

/// Returns whether an operand ends with a token.
fn ends_operand(token: Token<'_>) -> bool
    ensures { result ≡ spec.ends_operand (as_token token.entry) }
{
    matches!(token, Token::Number(_) | Token::Name(_, _) | Token::Closing)
}

/// Returns whether white space before a token stays. `flag`: the token stays.
fn gap_stays(place: Place<'_>, flag: bool, gap: &[u8]) -> bool
    ensures { result ≡ ((if place.entry.operand then flag else place.entry.stays) ||
        not (are_white gap.now)) }
{
    let stays = if place.operand { flag } else { place.stays };
    stays || !are_white(gap)
}

/// Appends the rest of the first token of a text and the white space before it. `flag`: the token
/// stays. Returns the place after it. A text without a token stays.
///
/// # Errors
/// Fails if memory runs out.
fn append_token<'a>(
    place: Place<'a>,
    flag: bool,
    left: &mut LeftText,
) -> Result<Place<'a>, AllocError>
    ensures left { IfOk result (λ p. (cells : List Cell) (flags : List Bool) →
        AreCells cells place.entry.text.bytes.now place.entry.text.shown.now →
        LeavesAt left.old (left_at place.entry (flag ∷ flags) cells) left.new p flags) }
    ensures fewer_bytes { IfOk result (λ p.
        length left.new.bytes.items + length p.text.bytes.now ≤
        length left.old.bytes.items + length place.entry.text.bytes.now) }
    ensures fewer_shown { IfOk result (λ p.
        length left.new.shown.items + length p.text.shown.now ≤
        length left.old.shown.items + length place.entry.text.shown.now) }
{
    let text = place.text;
    match next_token(text.shown) {
        NextToken::Found(token, after) => {
            let gap = text
                .shown
                .len()
                .saturating_sub(skip_white(text.shown).len());
            let (white, word_on) = text.split_at(gap);
            let size = word_on.shown.len().saturating_sub(after.len());
            let (word, rest) = word_on.split_at(size);
            left.append_if(gap_stays(place, flag, white.bytes), white)?;
            left.append_if(flag, word)?;
            Ok(Place {
                text: rest,
                stays: flag,
                operand: ends_operand(token),
            })
        }
        NextToken::AtEnd => append_rest(place, left),
        NextToken::Unreadable => append_rest(place, left),
    }
}

/// Appends a text. Returns the place after it.
///
/// # Errors
/// Fails if memory runs out.
fn append_rest<'a>(place: Place<'a>, left: &mut LeftText) -> Result<Place<'a>, AllocError>
    ensures bytes { OnOk result (left.new.bytes.items ≡ left.old.bytes.items ++
        place.entry.text.bytes.now) }
    ensures shown { OnOk result (left.new.shown.items ≡ left.old.shown.items ++
        place.entry.text.shown.now) }
    ensures rest { IfOk result (λ p. AreCells [] p.text.bytes.now p.text.shown.now) }
{
    left.append_if(true, place.text)?;
    Ok(Place {
        text: CellBytes::none(),
        ..place
    })
}

/// Appends the rest of a text by these flags of its tokens.
///
/// # Errors
/// Fails if memory runs out.
pub(crate) fn append_left(
    text: CellBytes<'_>,
    flags: &[bool],
    left: &mut LeftText,
) -> Result<(), AllocError>
    ensures left { OnOk result ((cells : List Cell) →
        AreCells cells text.entry.bytes.now text.entry.shown.now →
        SameLeft left.old.bytes.items left.old.shown.items (left_cells flags.now cells)
        left.new.bytes.items left.new.shown.items []) }
    ensures fewer_bytes { OnOk result (length left.new.bytes.items ≤
        length left.old.bytes.items + length text.entry.bytes.now) }
    ensures fewer_shown { OnOk result (length left.new.shown.items ≤
        length left.old.shown.items + length text.entry.shown.now) }
{
    let mut place = Place {
        text,
        stays: true,
        operand: false,
    };
    for flag in flags {
        place = append_token(place, *flag, left)?;
    }
    left.append_if(true, place.text)
}
