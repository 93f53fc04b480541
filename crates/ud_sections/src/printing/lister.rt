//! A lister of the names of conditions, printed instead of the text.

ghost use Rattle.std.specs.Prelude.{◌≡◌, ◌≤◌, length, Bool, IfOk, IfSome};
ghost use Rattle.ud_sections.specs.directives.ParsedDirectives.{content_found};
ghost use Rattle.ud_model.specs.answer.Listing.{depth_prefix};

use crate::directives::parse_directive::directive;
use crate::directives::{Cut, Directive};
use crate::printing::append_bytes::append;
use arrayvec::ArrayVec;
use itoa::Buffer;
use std::marker::Model;
use ud_cond::{Names, names};
use ud_model::{Kind, Scan};

/// The maximum length of a name's prefix: twenty digits and a space.
const PREFIX_BYTES: usize = 21;

/// A lister of the names in a text's conditions (unifdef(1), `-s` and `-S`). It returns the names
/// of a line, and the prefix of each.
#[derive(Drop)]
pub struct Lister {
    /// Each name follows its depth.
    depths: bool,
    /// The prefix of the last name.
    text: ArrayVec<u8, PREFIX_BYTES>,
}

impl Model for Lister {
    ghost use Rattle.std.specs.Prelude.{Bool};

    ghost Value = { Bool };

    ghost view = { λ l. l.depths };
}

impl Lister {
    ghost use Rattle.std.specs.Borrow.{sem};
    ghost use Rattle.ud_model.specs.sections.Directives.{content_of};
    ghost use Rattle.ud_model.specs.answer.Listing.{names_in_content};
    ghost use Rattle.ud_model.specs.declared.limits.TheConstants.{MAX_LINE_BYTES};
    ghost use Rattle.ud_model.specs.aids.LineViews.{as_scan};
    ghost use Rattle.ud_sections.specs.printing.ListerBorrows.{StaysSame};

    /// Creates a lister. Each name follows its depth if `depths`, or else has no prefix.
    pub fn new(depths: bool) -> Lister
        ensures { result ≡ depths }
    {
        Lister {
            depths,
            text: ArrayVec::new(),
        }
    }

    /// Returns the names in the condition of a scanned line, in order and with repeats.
    ///
    /// Only a directive with a condition has names: an `#if`, `#ifdef`, `#ifndef`, `#elif`,
    /// `#elifdef` or `#elifndef` that no continuation cuts, and whose text is understood. The
    /// masked line has at most `MAX_LINE_BYTES`, like each that `Scanner::read` returns. Allocates
    /// no memory.
    pub fn names<'a>(scan: &Scan<'a>) -> Names<'a>
        requires fits { length scan.now.masked.now ≤ MAX_LINE_BYTES }
        ensures { result ≡ names_in_content (content_of (as_scan scan.now)) }
    {
        Lister::names_in(directive(scan))
    }

    /// Returns the names in the condition of a line, as `names` does. `content` is what `directive`
    /// returns for its scan.
    #[inline(always)]
    pub fn names_in<'a>(content: Result<Option<Directive<'a>>, Cut>) -> Names<'a>
        requires fits { IfOk content (λ o. IfSome o (λ d. length d.after.now ≤ MAX_LINE_BYTES)) }
        ensures { result ≡ names_in_content (content_found content.entry) }
    {
        match content {
            Ok(Some(found)) if !found.broken => names(found.kind, found.after),
            _ => names(Kind::Endif, &[]),
        }
    }

    /// Returns the prefix of a name: nothing, or `depth` in decimal and a space. `depth` is the
    /// number of sections around its directive's own.
    pub fn prefix(&mut self, depth: usize) -> &[u8]
        ensures text { result.now ≡ depth_prefix self.old depth }
        ensures* unchanged { sem 𝓛 (StaysSame self.entry) }
    {
        write_prefix(&mut self.text, self.depths, depth);
        self.text.as_slice()
    }
}

/// Replaces `text` by the prefix of a name of this depth.
fn write_prefix(text: &mut ArrayVec<u8, PREFIX_BYTES>, depths: bool, depth: usize)
    ensures { text.new.items ≡ depth_prefix depths depth }
{
    text.clear();
    if !depths {
        return;
    }
    let mut digits = Buffer::new();
    append(text, digits.format(depth).as_bytes());
    append(text, b" ");
}
