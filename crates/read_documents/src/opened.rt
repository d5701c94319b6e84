//! The documents of a store, one by one.
ghost use Rattle.std.specs.Prelude.{◌≡◌, ◌≤◌, length, slice_get, IfSome};
ghost use Rattle.std.specs.Option.{option_map};
ghost use Rattle.std.specs.FinMap.{entries};
ghost use Rattle.ls_base.specs.Limits.{max_documents, max_text};
ghost use Rattle.read_documents.specs.Stored.{opened};

use document_store::Store;

/// An open document: its uri, its version and its text.
#[derive(Clone, Copy)]
pub struct Opened<'a> {
    pub uri: &'a str,
    pub version: i64,
    pub text: &'a str,
}

/// The nth document, in the order of the uris. `None` exactly where there is no nth.
pub fn nth(store: &Store, n: u32) -> Option<Opened<'_>>
    ensures exact { option_map opened result ≡ slice_get (entries store.now) n }
    ensures short { IfSome result (λ document. length document.text.now ≤ max_text) }
    ensures few { length (entries store.now) ≤ max_documents }
{
    let uri = store.doc(n)?;
    let version = store.version(uri)?;
    let text = store.text(uri)?;
    Some(Opened { uri, version, text })
}
