//! The tree of a text (C11 6.10). A walk over it visits the lines of the text in order.

use ud_model::{Cond, Role};

/// A text line, or a section.
#[cycle(tree)]
#[derive(Drop)]
pub(crate) enum Node {
    Text,
    Section(Section),
}

/// A section. At the end of the text and at a fault, it may lack its `#endif`.
#[cycle(tree)]
#[derive(Drop)]
pub(crate) struct Section {
    pub groups: Vec<Group>,
    pub is_closed: bool,
}

/// A group of a section: its opener, with the value of the condition, and the nodes after the
/// opener.
#[cycle(tree)]
#[derive(Drop)]
pub(crate) struct Group {
    pub role: Option<Role>,
    pub cond: Cond,
    pub nodes: Vec<Node>,
}
