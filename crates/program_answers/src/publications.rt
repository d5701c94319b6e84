//! The diagnostics of a document as they are published (LSP 3.17, publishDiagnostics).

use ls_base::{Diagnostic, Items, Text};

/// The diagnostics of a document. One that is closed has none, and no version.
#[derive(Drop)]
pub struct Published {
    pub uri: Text,
    pub version: Option<i64>,
    pub list: Items<Diagnostic>,
}
