//! Places in texts.
use crate::Text;

/// A part of a text, in bytes.
#[derive(Clone, Copy)]
pub struct Span {
    pub start: u32,
    pub end: u32,
}

/// A zero-based line and the units before a place in it (LSP 3.17, Position), which are those of an encoding.
#[derive(Clone, Copy, PartialEq, Eq)]
pub struct Pos {
    pub line: u32,
    pub character: u32,
}

/// From one position up to another (LSP 3.17, Range).
#[derive(Clone, Copy, PartialEq, Eq)]
pub struct Range {
    pub start: Pos,
    pub end: Pos,
}

/// A range in a document (LSP 3.17, Location).
#[derive(Drop)]
pub struct Place {
    pub uri: Text,
    pub range: Range,
}
