//! Bytes of documents, lit ones with their kinds and drawn pairs: how each of them is put in order, each once.
ghost use Rattle.std.specs.Prelude.{◌≡◌, map, IfOk};
ghost use Rattle.scheme_model.specs.Answers.{bytes_before, drawn_before, lit_before, ordered_by};
ghost use Rattle.program_answers.specs.BytesKept.{bytes_seen, drawn_seen, has_end, lit_seen};
ghost use Rattle.read_documents.specs.Places.{bytes_at};

use ls_base::{Items, Mem, Span};
use read_documents::findings::At;

/// Bytes of a document, by its place.
#[derive(Clone, Copy, PartialEq, Eq, PartialOrd, Ord)]
pub struct Bytes {
    pub document: usize,
    pub start: u32,
    pub end: u32,
}

/// Bytes to light up, and the kind of the use there (LSP 3.17, DocumentHighlightKind).
#[derive(Clone, Copy, PartialEq, Eq, PartialOrd, Ord)]
pub struct Lit {
    pub bytes: Bytes,
    pub kind: u8,
}

/// An arrow, from the bytes of a binder to those of a use.
#[derive(Clone, Copy, PartialEq, Eq, PartialOrd, Ord)]
pub struct Drawn {
    pub from: Bytes,
    pub to: Bytes,
}

impl Bytes {
    /// Bytes where something stands.
    pub fn of(at: At) -> Bytes
        ensures { bytes_seen result ≡ bytes_at at }
    {
        Bytes {
            document: at.document,
            start: at.span.start,
            end: at.span.end,
        }
    }

    /// Where they stand.
    pub fn at(self) -> At
        ensures { bytes_at result ≡ bytes_seen self }
    {
        At {
            document: self.document,
            span: Span {
                start: self.start,
                end: self.end,
            },
        }
    }
}

impl Drawn {
    /// Whether an end is in a document.
    pub fn has_end(&self, document: usize) -> bool
        ensures { result ≡ has_end document (drawn_seen self.now) }
    {
        self.from.document == document || self.to.document == document
    }
}

/// Bytes in order, each once.
pub fn bytes_in_order(all: Vec<Bytes>) -> Mem<Items<Bytes>>
    ensures { IfOk result (λ sorted. map bytes_seen sorted ≡ ordered_by bytes_before (map bytes_seen all.items)) }
{
    let mut sorted = all;
    sorted.sort()?;
    sorted.dedup();
    Ok(Items::from_vec(sorted))
}

/// Lit bytes in order, each once.
pub fn lit_in_order(all: Vec<Lit>) -> Mem<Items<Lit>>
    ensures { IfOk result (λ sorted. map lit_seen sorted ≡ ordered_by lit_before (map lit_seen all.items)) }
{
    let mut sorted = all;
    sorted.sort()?;
    sorted.dedup();
    Ok(Items::from_vec(sorted))
}

/// Drawn pairs in order, each once.
pub fn drawn_in_order(all: Vec<Drawn>) -> Mem<Items<Drawn>>
    ensures { IfOk result (λ sorted. map drawn_seen sorted ≡ ordered_by drawn_before (map drawn_seen all.items)) }
{
    let mut sorted = all;
    sorted.sort()?;
    sorted.dedup();
    Ok(Items::from_vec(sorted))
}
