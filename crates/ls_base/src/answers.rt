//! What is asked of the product, what it answers, and what changes a document.
use crate::{Items, Place, Range, Text};

/// From a binder to one of its uses.
#[derive(Drop)]
pub struct Arrow {
    pub from: Place,
    pub to: Place,
    /// The use's token as written.
    pub name: Text,
}

/// A range to light up, and the kind of its use (LSP 3.17, DocumentHighlightKind).
#[derive(Clone, Copy)]
pub struct Highlight {
    pub range: Range,
    pub kind: u8,
}

/// New text for a range.
#[derive(Drop)]
pub struct TextEdit {
    pub range: Range,
    pub new_text: Text,
}

/// The edits of one document.
#[derive(Drop)]
pub struct DocEdits {
    pub uri: Text,
    pub edits: Items<TextEdit>,
}

/// What is wrong at a range. A severity of 1 is an error, of 2 a warning (LSP 3.17, Diagnostic).
#[derive(Drop)]
pub struct Diagnostic {
    pub range: Range,
    pub code: u32,
    pub severity: u8,
    pub message: Text,
}

/// New text for a range of a document, or for all of it.
#[derive(Drop)]
pub struct Change {
    pub range: Option<Range>,
    pub text: Text,
}

/// What is asked at a position.
#[derive(Clone, Copy)]
pub enum Query {
    Definition,
    References { declaration: bool },
    Highlights,
    Prepare,
    Arrows,
}

/// What is answered.
#[derive(Drop)]
pub enum Answer {
    Nothing,
    Places(Items<Place>),
    Highlights(Items<Highlight>),
    Prepared { range: Range, placeholder: Text },
    Arrows(Items<Arrow>),
    Edits(Items<DocEdits>),
}
