//! The classification of a directive's line: what decides it among the sections.

ghost use Rattle.std.specs.Prelude.{◌≡◌, ◌≤◌, List, length};
ghost use Rattle.ud_model.specs.conditions.Conditions.{decision_on};
ghost use Rattle.ud_model.specs.sections.Items.{rules_of};
ghost use Rattle.ud_model.specs.conditions.Table.{Argument};
ghost use Rattle.ud_model.specs.declared.limits.TheConstants.{MAX_LINE_BYTES};
ghost use Rattle.ud_cond.specs.symbols.SymbolTable.{TableRepresents};
ghost use Rattle.ud_cond.specs.CondViews.{as_decision};
ghost use Rattle.ud_model.specs.aids.LineViews.{as_scan};
ghost use Rattle.ud_sections.specs.directives.ParsedDirectives.{as_directive};
ghost use Rattle.ud_sections.specs.sections.ClassifiedLines.{classified};

use crate::directives::Directive;
use crate::sections::step::Span;
use ud_cond::{Answer, Rules, Symbols, condition};
use ud_model::{Cond, Role, Scan, Settings};

/// A classified line with a directive.
#[derive(Clone, Copy)]
pub(crate) struct ClassifiedLine {
    /// The role of the directive.
    pub role: Role,
    /// The symbols' decision on its condition.
    pub cond: Cond,
    /// The symbols make its section plain text.
    pub ignoring: bool,
    /// The span of its keyword.
    pub keyword: Span,
    /// The line joins a neighbour.
    pub spans: bool,
    /// The line before joins this one.
    pub joins_before: bool,
}

/// Returns the symbols' decision on a line's directive. A broken directive is undecided. One that
/// joins the next line makes no section plain text.
#[inline(always)]
fn condition_on(
    scan: &Scan<'_>,
    found: &Directive<'_>,
    symbols: &Symbols,
    settings: Settings,
) -> Answer
    requires fits { length found.now.after.now ≤ MAX_LINE_BYTES }
    ensures { (calls : List Argument) → TableRepresents symbols.now calls →
        as_decision result ≡ decision_on (as_scan scan.now) (as_directive found.now) calls
        (rules_of settings) }
{
    if found.broken {
        return Answer {
            cond: Cond::Unknown,
            ignoring: false,
        };
    }
    let answer = condition(found.kind, found.after, symbols, Rules::of(settings));
    Answer {
        cond: answer.cond,
        ignoring: answer.ignoring && !scan.joins_after,
    }
}

/// Classifies a line with this directive. Evaluates the text only if it is a condition.
#[inline(always)]
pub(crate) fn classify(
    scan: &Scan<'_>,
    found: &Directive<'_>,
    symbols: &Symbols,
    settings: Settings,
) -> ClassifiedLine
    requires fits { length found.now.after.now ≤ MAX_LINE_BYTES }
    ensures value { (calls : List Argument) → TableRepresents symbols.now calls →
        result ≡ classified (as_scan scan.now) (as_directive found.now) calls (rules_of settings) }
    ensures keyword { result.keyword ≡ found.now.keyword }
{
    let answer = condition_on(scan, found, symbols, settings);
    ClassifiedLine {
        role: found.kind.role(),
        cond: answer.cond,
        ignoring: answer.ignoring,
        keyword: found.keyword,
        spans: scan.joins_before || scan.joins_after,
        joins_before: scan.joins_before,
    }
}
