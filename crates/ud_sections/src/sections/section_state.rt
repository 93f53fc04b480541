//! The state of a section: what the conditions of its groups so far decide.
//!
//! `SectionState::next_group` is unifdef's table for editing a section's directives.

ghost use Rattle.std.specs.Prelude.{◌≡◌};
ghost use Rattle.ud_model.specs.sections.Pruning.{first_kept_verdict, first_true_verdict};
ghost use Rattle.ud_sections.specs.sections.SectionStates.{part_of, next_section_state};
ghost use Rattle.ud_sections.specs.sections.SectionStates.{opener_verdict_in, endif_verdict_in};
ghost use Rattle.ud_sections.specs.sections.SectionStates.{is_kept_in, is_in_removed};

use ud_model::{Cond, Role, Verdict};

/// The state of a section: what the conditions of its groups so far decide about its last group and
/// later ones.
#[derive(Clone, Copy, PartialEq, Eq)]
pub(crate) enum SectionState {
    /// The section is in a removed place.
    InRemoved,
    /// All groups are false.
    NoneKept,
    /// The last group is true, and all groups before it are false. The directives are removed.
    OnlyTrue,
    /// No group is true; the last one is unknown, hence kept.
    LastUnknown,
    /// No group is true; the last one is false, and an earlier one is unknown, hence kept.
    LastFalse,
    /// After an unknown group, the last one is the first true one.
    LastTrue,
    /// The first true group has ended.
    AfterTrue,
}

impl SectionState {
    /// Returns the verdict of the next group's opener, and the state after it.
    #[inline(always)]
    pub(crate) fn next_group(self, role: Role, cond: Cond) -> (Verdict, SectionState)
        ensures verdict { result.0 ≡ opener_verdict_in self (part_of role) cond }
        ensures state { result.1 ≡ next_section_state self cond }
    {
        match self {
            SectionState::InRemoved => (Verdict::Remove, SectionState::InRemoved),
            SectionState::NoneKept => match cond {
                Cond::No => (Verdict::Remove, SectionState::NoneKept),
                Cond::Unknown => (first_kept_verdict(role), SectionState::LastUnknown),
                Cond::Yes => (Verdict::Remove, SectionState::OnlyTrue),
            },
            SectionState::LastUnknown | SectionState::LastFalse => match cond {
                Cond::No => (Verdict::Remove, SectionState::LastFalse),
                Cond::Unknown => (Verdict::Keep, SectionState::LastUnknown),
                Cond::Yes => (first_true_verdict(role), SectionState::LastTrue),
            },
            SectionState::LastTrue => (Verdict::ToEndif, SectionState::AfterTrue),
            SectionState::OnlyTrue | SectionState::AfterTrue => (
                Verdict::Remove,
                SectionState::AfterTrue,
            ),
        }
    }

    /// Returns the verdict of the section's `#endif`.
    pub(crate) fn endif_verdict(self) -> Verdict
        ensures { result ≡ endif_verdict_in self }
    {
        match self {
            SectionState::LastUnknown | SectionState::LastFalse | SectionState::LastTrue =>
                Verdict::Keep,
            SectionState::InRemoved
            | SectionState::NoneKept
            | SectionState::OnlyTrue
            | SectionState::AfterTrue => Verdict::Remove,
        }
    }

    /// Returns whether the last group is kept.
    pub(crate) fn is_kept(self) -> bool
        ensures { result ≡ is_kept_in self }
    {
        match self {
            SectionState::OnlyTrue | SectionState::LastUnknown | SectionState::LastTrue => true,
            SectionState::InRemoved
            | SectionState::NoneKept
            | SectionState::LastFalse
            | SectionState::AfterTrue => false,
        }
    }

    /// Returns whether the section is in a removed place.
    pub(crate) fn is_in_removed(self) -> bool
        ensures { result ≡ is_in_removed self }
    {
        self == SectionState::InRemoved
    }
}

/// Returns the verdict of the first kept opener.
fn first_kept_verdict(role: Role) -> Verdict
    ensures { result ≡ first_kept_verdict (part_of role) }
{
    match role {
        Role::ElifGroup => Verdict::ToIf,
        Role::IfGroup | Role::ElseGroup | Role::EndifLine => Verdict::Keep,
    }
}

/// Returns the verdict of the opener of the first true group, if a group before it is kept.
fn first_true_verdict(role: Role) -> Verdict
    ensures { result ≡ first_true_verdict (part_of role) }
{
    match role {
        Role::ElifGroup => Verdict::ToElse,
        Role::IfGroup | Role::ElseGroup | Role::EndifLine => Verdict::Keep,
    }
}
