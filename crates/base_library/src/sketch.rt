//! How the trees of a macro are made: a row of steps, the parts of a list before the list.

/// A step, which puts one tree at the end of a row of trees. Trees of the prelude have no places.
#[derive(Clone, Copy)]
pub enum Step {
    /// An identifier.
    Name(&'static str),
    /// A truth value.
    Truth(bool),
    /// A list, which takes so many trees from the end of the row as its parts.
    List(usize),
    /// The same, with an identifier as its tail.
    Dotted(usize, &'static str),
}

/// A macro: its name, its literals, and the steps that make its patterns and templates, each template behind its pattern.
#[derive(Clone, Copy)]
pub struct Sketch {
    pub name: &'static str,
    pub literals: &'static [&'static str],
    pub steps: &'static [Step],
}
