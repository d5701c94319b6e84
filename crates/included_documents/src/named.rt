//! Uris, each read once.
ghost use Rattle.std.specs.Prelude.{◌≡◌, All, IfOk, map};
ghost use Rattle.included_documents.specs.Kept.{IsRead, uris_in};

use crate::urls::url_of;
use ls_base::{Mem, Text};
use std::alloc::Global;
use url::Url;

/// The uri of a document, and the URL that it is, if it is one.
#[derive(Drop)]
pub struct Named {
    pub uri: Text,
    pub url: Option<Url>,
}

/// A uri, read.
fn read_one(alloc: Global, uri: &str) -> Mem<Named>
    ensures read { IfOk result IsRead }
    ensures uri { IfOk result (λ document. document.uri ≡ uri.now) }
{
    let url = url_of(alloc, uri)?;
    let uri = Text::of(alloc, uri)?;
    Ok(Named { uri, url })
}

/// Uris, each read.
pub fn read_each(alloc: Global, uris: &[&str]) -> Mem<Vec<Named>>
    ensures read { IfOk result (λ documents. All IsRead documents.items) }
    ensures uris { IfOk result (λ documents. uris_in documents.items ≡ map (λ uri. uri.now) uris.now) }
{
    let mut documents = Vec::new(alloc);
    for uri in uris {
        documents.push(read_one(alloc, uri)?)?;
    }
    Ok(documents)
}
