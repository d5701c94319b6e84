//! The limits of the product. Sizes of texts and messages are bytes.

/// Open documents.
pub const MAX_DOCUMENTS: usize = 64;

/// Units of all open documents together.
pub const MAX_UNITS: usize = 128;

/// The text of a document, in bytes.
pub const MAX_TEXT: usize = 1_048_576;

/// The header part of a message with its empty line, in bytes.
pub const MAX_HEADER: usize = 4_096;

/// The body of a message, in bytes.
pub const MAX_BODY: usize = 8_388_608;

/// Open lists, vectors and abbreviations of data.
pub const MAX_DATA_DEPTH: usize = 400;

/// Nested cores of an expansion.
pub const MAX_CORE_DEPTH: usize = 400;

/// Nested nodes of a tree that a macro use builds.
pub const MAX_TREE_DEPTH: usize = 1_000;

/// Macro uses of a form.
pub const MAX_USES: usize = 10_000;

/// The node count of a form.
pub const MAX_FORM_NODES: usize = 200_000;

/// The nodes of a built tree, a shared part counted each time that it stands there.
pub const MAX_TREE_NODES: usize = 4_194_304;

/// The node count of a unit.
pub const MAX_UNIT_NODES: usize = 500_000;
