//! Parsing the directive of a line.

ghost use Rattle.std.specs.Prelude.{◌≡◌, ◌+◌, length, IfOk, IfSome, MatchOption, Some, None, true};
ghost use Rattle.ud_model.specs.text.Bytes.{skip_white};
ghost use Rattle.ud_model.specs.sections.Directives.{text, content_of, skip_white_and_hash};
ghost use Rattle.ud_model.specs.sections.Directives.{is_continued_outside_comment};
ghost use Rattle.ud_model.specs.sections.Directives.{may_split_keyword};
ghost use Rattle.ud_model.specs.sections.Directives.{has_split_keyword, content_after_hash};
ghost use Rattle.ud_model.specs.text.Scans.{Scan as LineScan};
ghost use Rattle.ud_model.specs.aids.LineViews.{as_scan};
ghost use Rattle.ud_sections.specs.directives.ParsedDirectives.{content_found, directive_or_text};

use crate::directives::keywords::leading_keyword;
use crate::directives::{Cut, Directive};
use crate::sections::Span;
use ud_model::bytes::{is_white, skip_white};
use ud_model::keywords::is_prefix_of_keyword;
use ud_model::{CommentAt, Scan};

/// Parses the directive of a scanned line, or returns `None` if it is a text line.
///
/// A line with a directive is fresh. Its masked bytes are white space, `#`, white space, and a
/// longest run of word bytes that is a keyword (C11 6.10, C23 6.10).
///
/// # Errors
/// `Cut` if the line is continued and its keyword can't be known: after the `#` there is only white
/// space, or a continuation cuts the line after a single `/` or a word that may become a keyword.
#[inline(always)]
pub fn directive<'a>(scan: &Scan<'a>) -> Result<Option<Directive<'a>>, Cut>
    ensures value { content_found result ≡ content_of (as_scan scan.now) }
    ensures keyword_within { IfOk result (λ found. IfSome found (λ d.
        d.keyword.at + d.keyword.len + length d.after.now ≡ length scan.now.masked.now)) }
{
    if !scan.fresh {
        return Ok(None);
    }
    let Some(after) = skip_white_and_hash(scan.masked) else {
        return Ok(None);
    };
    if has_split_keyword(scan, after) {
        return Err(Cut);
    }
    Ok(parse_after_hash(scan, after))
}

/// Returns what follows the `#`, if one comes first after white space. Most begin their line.
#[inline(always)]
fn skip_white_and_hash(masked: &[u8]) -> Option<&[u8]>
    ensures { MatchOption result (skip_white_and_hash masked.now ≡ None)
        (λ rest. skip_white_and_hash masked.now ≡ Some rest.now) }
{
    if let [b'#', rest @ ..] = masked {
        return Some(rest);
    }
    match skip_white(masked).split_first() {
        Some((b'#', rest)) => Some(rest),
        _ => None,
    }
}

/// Returns the rest after the leading white space. Most texts have none.
#[inline(always)]
fn skip_rare_white(text: &[u8]) -> &[u8]
    ensures { result.now ≡ skip_white text.now }
{
    match text {
        [first, ..] if !is_white(*first) => text,
        _ => skip_white(text),
    }
}

/// Returns whether a continuation may split the keyword after the `#` of a fresh line.
#[inline(always)]
fn has_split_keyword(scan: &Scan<'_>, after: &[u8]) -> bool
    requires { scan.now.fresh ≡ true }
    ensures { result ≡ has_split_keyword (as_scan scan.now) (Some after.now) }
{
    scan.joins_after
        && scan.comment != CommentAt::InLine
        && may_split_keyword(is_continued_outside_comment(scan), skip_white(after))
}

/// Returns whether the keyword can't be known if the line has only `rest` of it. `cut_off`: a
/// continuation cuts the line outside comments.
#[inline(never)]
fn may_split_keyword(cut_off: bool, rest: &[u8]) -> bool
    ensures { (scan : LineScan) → cut_off ≡ is_continued_outside_comment scan →
        result ≡ may_split_keyword scan rest.now }
{
    rest.is_empty() || cut_off && (rest == b"/".as_slice() || is_prefix_of_keyword(rest))
}

/// Returns whether a continuation cuts the line outside comments.
fn is_continued_outside_comment(scan: &Scan<'_>) -> bool
    ensures { result ≡ is_continued_outside_comment (as_scan scan.now) }
{
    scan.spliced && scan.comment == CommentAt::Outside
}

/// Parses the directive whose keyword follows the `#` of a fresh line.
#[inline(always)]
fn parse_after_hash<'a>(scan: &Scan<'a>, after: &'a [u8]) -> Option<Directive<'a>>
    requires fresh { scan.now.fresh ≡ true }
    requires hash { skip_white_and_hash scan.now.masked.now ≡ Some after.now }
    ensures value { directive_or_text result ≡
        content_after_hash (as_scan scan.now) (Some after.now) }
    ensures keyword_within { IfSome result (λ d. d.keyword.at + d.keyword.len + length d.after.now ≡
        length scan.now.masked.now) }
{
    let rest = skip_rare_white(after);
    let keyword = leading_keyword(rest)?;
    Some(Directive {
        kind: keyword.kind,
        keyword: Span {
            at: scan.masked.len() - rest.len(),
            len: keyword.len,
        },
        after: &rest[keyword.len..],
        broken: is_continued_outside_comment(scan),
    })
}
