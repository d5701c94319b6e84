//! The parts of a list or a vector, with its tail.
use syntax_tree::trees::Tree;

/// The parts of a list or a vector, and the list's tail, where it has one.
#[derive(Clone, Copy)]
pub struct Row<'a> {
    pub items: &'a [Tree],
    pub end: Option<Tree>,
}
