//! Pruning the tree of a text by the table of verdicts over each section as a whole (unifdef(1)).

use crate::tree::{Group, Node, Section};
use std::alloc::AllocError;
use ud_model::{Cond, Role, Verdict};

/// The verdict of a line, and whether the group around it is kept. Around a directive, that is the
/// group around its section.
#[derive(Clone, Copy)]
pub(crate) struct Mark {
    pub verdict: Verdict,
    pub kept: bool,
}

/// Returns the mark of a line with this verdict. Outside kept groups, every line is removed.
fn marked(kept: bool, verdict: Verdict) -> Mark {
    let verdict = if kept { verdict } else { Verdict::Remove };
    Mark { verdict, kept }
}

/// Appends the mark of each line of `nodes`.
#[cycle(pruning)]
pub(crate) fn prune(nodes: &[Node], kept: bool, marks: &mut Vec<Mark>) -> Result<(), AllocError> {
    for node in nodes {
        match node {
            Node::Text => marks.push(marked(kept, Verdict::Keep))?,
            Node::Section(section) => prune_section(section, kept, marks)?,
        }
    }
    Ok(())
}

/// Appends the mark of each line of a section.
#[cycle(pruning)]
fn prune_section(section: &Section, kept: bool, marks: &mut Vec<Mark>) -> Result<(), AllocError> {
    let table = Table::of(section.groups.as_slice());
    for (at, group) in section.groups.iter().enumerate() {
        marks.push(marked(kept, table.opener_verdict(at, group)))?;
        prune(
            group.nodes.as_slice(),
            kept && table.keeps(at, group),
            marks,
        )?;
    }
    if section.is_closed {
        marks.push(marked(kept, table.endif_verdict()))?;
    }
    Ok(())
}

/// The facts about all groups of a section that the table of verdicts asks for. Groups count from
/// 0.
#[derive(Clone, Copy)]
struct Table {
    /// The first group that isn't false.
    first_kept: Option<usize>,
    /// The first true group.
    first_true: Option<usize>,
    /// The group after the first true one, if any.
    next: Option<usize>,
}

impl Table {
    /// Returns the table of a section with these groups.
    fn of(groups: &[Group]) -> Table {
        let first_true = groups.iter().position(|g| g.cond == Cond::Yes);
        Table {
            first_kept: groups.iter().position(|g| g.cond != Cond::No),
            first_true,
            next: first_true
                .map(|at| at.saturating_add(1))
                .filter(|at| *at < groups.len()),
        }
    }

    /// Returns whether a group is kept: it isn't false, and doesn't come after the first true one.
    fn keeps(self, at: usize, group: &Group) -> bool {
        group.cond != Cond::No && self.first_true.is_none_or(|first| at <= first)
    }

    /// Returns whether all directives of the section are removed: no group is kept, or the first
    /// kept one is true.
    fn gives_way(self) -> bool {
        self.first_kept == self.first_true
    }

    /// Returns the verdict of a group's opener.
    fn opener_verdict(self, at: usize, group: &Group) -> Verdict {
        let is_elif = group.role == Some(Role::ElifGroup);
        if self.gives_way() {
            Verdict::Remove
        } else if self.first_kept == Some(at) && is_elif {
            Verdict::ToIf
        } else if self.first_true == Some(at) && is_elif {
            Verdict::ToElse
        } else if self.next == Some(at) {
            Verdict::ToEndif
        } else if self.keeps(at, group) {
            Verdict::Keep
        } else {
            Verdict::Remove
        }
    }

    /// Returns the verdict of the section's `#endif`.
    fn endif_verdict(self) -> Verdict {
        if self.gives_way() || self.next.is_some() {
            Verdict::Remove
        } else {
            Verdict::Keep
        }
    }
}
