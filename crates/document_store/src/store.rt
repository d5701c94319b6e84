//! The open documents, by their uris.
ghost use Rattle.std.specs.Prelude.{◌≡◌, ◌≢◌, ◌≤◌, length, slice_get, if◌then◌else◌, IfSome, IfErr, OnErr, IsErrOf};
ghost use Rattle.std.specs.Option.{option_map};
ghost use Rattle.std.specs.FinMap.{empty, keys, len, remove};
ghost use Rattle.ls_base.specs.Limits.{max_documents, max_text};
ghost use Rattle.document_store.specs.Texts as texts;
ghost use Rattle.document_store.specs.Texts.{added, after, closed, has_room, is_open, text_at, version_at};
ghost use Rattle.document_store.specs.Faults.{Follows};

use crate::StoreFault;
use crate::edit::edits;
use crate::kept::Kept;
use ls_base::limits::{MAX_DOCUMENTS, MAX_TEXT};
use ls_base::{Change, Encoding, Text};
use std::alloc::Global;
use std::collections::BTreeMap;
use std::marker::Model;

/// The open documents, at most 64, each with a text of at most 1,048,576 bytes. Contracts see them as a finite map
/// from uris to versions and texts.
#[derive(Drop)]
pub struct Store {
    docs: BTreeMap<String, Kept>,
    alloc: Global,
}

impl Model for Store {
    ghost use Rattle.std.specs.Prelude.{◌≤◌, length};
    ghost use Rattle.ls_base.specs.Limits.{max_documents};
    ghost use Rattle.document_store.specs.Texts.{Texts};
    ghost use Rattle.document_store.specs.Docs.{coded_texts, texts_of};

    ghost Value = { Texts };

    ghost coded = { coded_texts };

    ghost view = { λ s. texts_of s.docs.entries };

    ghost invariant = { λ s. length s.docs.entries ≤ max_documents };
}

impl Store {
    /// The store without documents.
    pub fn new(alloc: Global) -> Store
        ensures { result ≡ empty }
    {
        Store {
            docs: BTreeMap::new(alloc),
            alloc,
        }
    }

    /// Whether a document may be added: it is open already, or fewer than the most are.
    fn has_room(&self, uri: &str) -> bool
        ensures { result ≡ has_room self.now uri.now }
    {
        self.docs.contains_key(uri) || self.docs.len() < MAX_DOCUMENTS
    }

    /// Opens a document, or gives one that is open a new version and text. A 65th document is refused as `TooMany`,
    /// and else a text over the limit as `TooLong`.
    pub fn add(&mut self, uri: &str, version: i64, text: &str) -> Result<(), StoreFault>
        ensures event { Follows result self.old self.new (added self.old uri.now version text.now) }
        ensures kept { OnErr result (self.new ≡ self.old) }
    {
        if !self.has_room(uri) {
            return Err(StoreFault::TooMany);
        }
        if text.len() > MAX_TEXT {
            return Err(StoreFault::TooLong);
        }
        let key = String::from_str(self.alloc, uri)?;
        let text = Text::of(self.alloc, text)?;
        self.docs.insert(key, Kept { version, text })?;
        Ok(())
    }

    /// Changes a document, and gives it a new version: each change applies to what the one before left, its positions
    /// counted in the encoding. A uri that isn't open is refused as `NotOpen`; then, change by change, a range whose
    /// start stands after its end as `BadRange`, before any of it is clamped, and a text over the limit as `TooLong`,
    /// which takes the document away.
    pub fn change(
        &mut self,
        uri: &str,
        version: i64,
        changes: &[Change],
        encoding: Encoding,
    ) -> Result<(), StoreFault>
        ensures event { Follows result self.old self.new
            (after encoding self.old (texts.Changed uri.now version changes.now)) }
        ensures kept { IfErr result (λ fault. fault ≢ StoreFault.TooLong → self.new ≡ self.old) }
        ensures gone { IsErrOf result StoreFault.TooLong → self.new ≡ remove self.old uri.now }
    {
        let Some(doc) = self.docs.get_mut(uri) else {
            return Err(StoreFault::NotOpen);
        };
        match edits(self.alloc, doc.text.as_str(), changes, encoding) {
            Ok(text) => {
                *doc = Kept { version, text };
                Ok(())
            }
            Err(fault) => {
                if fault == StoreFault::TooLong {
                    self.close(uri);
                }
                Err(fault)
            }
        }
    }

    /// Closes a document. False exactly where the uri isn't open.
    pub fn close(&mut self, uri: &str) -> bool
        ensures was_open { result ≡ is_open self.old uri.now }
        ensures closed { self.new ≡ remove self.old uri.now }
        ensures event { closed self.old uri.now ≡ (self.new, (if result then None else Some texts.NotOpen)) }
    {
        self.docs.remove(uri).is_some()
    }

    /// The text of a document. `None` exactly where the uri isn't open.
    pub fn text(&self, uri: &str) -> Option<&str>
        ensures exact { option_map (λ text. text.now) result ≡ text_at self.now uri.now }
        ensures short { IfSome result (λ text. length text.now ≤ max_text) }
    {
        let doc = self.docs.get(uri)?;
        Some(doc.text.as_str())
    }

    /// The version of a document. `None` exactly where the uri isn't open.
    pub fn version(&self, uri: &str) -> Option<i64>
        ensures { result ≡ version_at self.now uri.now }
    {
        let doc = self.docs.get(uri)?;
        Some(doc.version)
    }

    /// The nth uri in byte order. `None` exactly where there is no nth.
    pub fn doc(&self, n: u32) -> Option<&str>
        ensures exact { option_map (λ uri. uri.now) result ≡ slice_get (keys self.now) n }
        ensures few { len self.now ≤ max_documents }
    {
        let uri = self.docs.keys().nth(n as usize)?;
        Some(uri.as_str())
    }
}
