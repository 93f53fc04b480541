//! The open sections, and how a line changes them.

ghost use Rattle.std.specs.Prelude.{◌≡◌};
ghost use Rattle.ud_sections.specs.sections.SectionStates.{part_of, opener_verdict_in};
ghost use Rattle.ud_sections.specs.sections.OpenSections.{new_section, section_with_group};
ghost use Rattle.ud_sections.specs.sections.Actions.{opener_action, endif_action, if_action};
ghost use Rattle.ud_sections.specs.sections.Actions.{text_verdict_at, act, kept_at, plain_at};

use crate::sections::classify_line::ClassifiedLine;
use crate::sections::section_state::SectionState;
use ud_model::{Cond, Role, Verdict};

/// An open section.
#[derive(Clone, Copy)]
pub(crate) struct OpenSection {
    /// The state after its groups so far.
    pub state: SectionState,
    /// Its last group is opened by an `#else`.
    pub else_seen: bool,
    /// The section, or one around it, is plain text.
    pub ignoring: bool,
    /// The number of the line with its first directive.
    pub if_line: u32,
}

/// A line's change of the open sections.
#[derive(Clone, Copy)]
pub(crate) enum StackOp {
    /// No change.
    Stay,
    /// The line opens this section.
    Push(OpenSection),
    /// The line opens another group of the innermost section, which becomes this one.
    Replace(OpenSection),
    /// The line ends the innermost section.
    Pop,
}

/// The verdict of a line, and the line's change of the open sections.
#[derive(Clone, Copy)]
pub(crate) struct Action {
    /// The verdict.
    pub verdict: Verdict,
    /// The line (or a directive's section) is in a kept place.
    pub kept: bool,
    /// The change of the open sections.
    pub change: StackOp,
}

/// The position of a line among the sections.
#[derive(Clone, Copy)]
pub(crate) struct Enclosing {
    /// The innermost open section.
    pub section: Option<OpenSection>,
    /// Text outside of all sections is plain.
    pub plain: bool,
}

impl Default for OpenSection {
    fn default() -> OpenSection {
        OpenSection {
            state: SectionState::InRemoved,
            else_seen: false,
            ignoring: false,
            if_line: 0,
        }
    }
}

impl OpenSection {
    /// Creates a section before its first group.
    fn new(kept: bool, ignoring: bool, if_line: u32) -> OpenSection
        ensures { result ≡ new_section kept ignoring if_line }
    {
        OpenSection {
            state: if kept {
                SectionState::NoneKept
            } else {
                SectionState::InRemoved
            },
            else_seen: false,
            ignoring,
            if_line,
        }
    }

    /// Returns the verdict of the next group's opener, and the section after that opener.
    #[inline(always)]
    fn with_group(self, role: Role, cond: Cond) -> (Verdict, OpenSection)
        ensures verdict { result.0 ≡ opener_verdict_in self.state (part_of role) cond }
        ensures inner { result.1 ≡ section_with_group self (part_of role) cond }
    {
        let (verdict, state) = self.state.next_group(role, cond);
        let inner = OpenSection {
            state,
            else_seen: matches!(role, Role::ElseGroup),
            ignoring: self.ignoring,
            if_line: self.if_line,
        };
        (verdict, inner)
    }

    /// Returns the action of another opener, or `None` after an `#else`.
    #[inline(always)]
    fn opener_action(self, role: Role, cond: Cond) -> Option<Action>
        ensures { result ≡ opener_action self (part_of role) cond }
    {
        if self.else_seen {
            return None;
        }
        let (verdict, inner) = self.with_group(role, cond);
        Some(Action {
            verdict,
            kept: !self.state.is_in_removed(),
            change: StackOp::Replace(inner),
        })
    }

    /// Returns the action of the section's `#endif`.
    #[inline(always)]
    fn endif_action(self) -> Action
        ensures { result ≡ endif_action self }
    {
        Action {
            verdict: self.state.endif_verdict(),
            kept: !self.state.is_in_removed(),
            change: StackOp::Pop,
        }
    }
}

impl Enclosing {
    /// Returns whether the position is in a kept place.
    pub(crate) fn is_kept(self) -> bool
        ensures { result ≡ kept_at self.section }
    {
        match self.section {
            Some(inner) => inner.state.is_kept(),
            None => true,
        }
    }

    /// Returns whether the next line is read as plain text.
    pub(crate) fn is_plain(self) -> bool
        ensures { result ≡ plain_at self.plain self.section }
    {
        match self.section {
            Some(inner) => inner.ignoring,
            None => self.plain,
        }
    }

    /// Returns the verdict of a text line.
    #[inline(always)]
    pub(crate) fn text_verdict(self) -> Verdict
        ensures { result ≡ text_verdict_at (kept_at self.section) }
    {
        if self.is_kept() {
            Verdict::Keep
        } else {
            Verdict::Remove
        }
    }

    /// Returns the action of a section's first directive.
    #[inline(always)]
    fn if_action(self, cond: Cond, ignoring: bool, number: u32) -> Action
        ensures { result ≡ if_action (kept_at self.section) (plain_at self.plain self.section) cond
            ignoring number }
    {
        let kept = self.is_kept();
        let section = OpenSection::new(kept, self.is_plain() || ignoring, number);
        let (verdict, inner) = section.with_group(Role::IfGroup, cond);
        Action {
            verdict,
            kept,
            change: StackOp::Push(inner),
        }
    }

    /// Returns the action of a directive on the line of this number, or `None` if it is misplaced.
    #[inline(always)]
    pub(crate) fn action_for(self, line: ClassifiedLine, number: u32) -> Option<Action>
        ensures { result ≡ act self.plain self.section line.role line.cond line.ignoring number }
    {
        match line.role {
            Role::IfGroup => Some(self.if_action(line.cond, line.ignoring, number)),
            Role::ElifGroup => self.section?.opener_action(line.role, line.cond),
            Role::ElseGroup => self.section?.opener_action(line.role, Cond::Yes),
            Role::EndifLine => Some(self.section?.endif_action()),
        }
    }
}
