//! The uris of the open documents, each read once, and which of them a string means in another.
ghost use Rattle.std.specs.Prelude.{◌≡◌, ◌<◌, IfOk, Some, length, map};
ghost use Rattle.std.specs.Str.{bytes_eq};
ghost use Rattle.url.specs.Parser.{parse_url};
ghost use Rattle.included_documents.specs.Meant.{at_text, first_place, meant, path_from, text_of};

use crate::firsts::{Firsts, first_uris, first_urls};
use crate::named::{Named, read_each};
use crate::paths::path_from;
use crate::urls::joined;
use ls_base::Mem;
use std::alloc::Global;
use std::marker::Model;
use url::Url;

/// The uris of documents in their order, and by the text of each URL and by each uri the first document that has it. Contracts see
/// the uris.
#[derive(Drop)]
pub struct Uris {
    documents: Vec<Named>,
    by_url: Firsts,
    by_uri: Firsts,
}

impl Model for Uris {
    ghost use Rattle.std.specs.Prelude.{ℕ, List};
    ghost use Rattle.included_documents.specs.Kept.{AreRead, uris_in};

    ghost Value = { List (List ℕ) };

    ghost view = { λ u. uris_in u.documents.items };

    ghost invariant = { λ u. AreRead u.documents.items u.by_url u.by_uri };
}

impl Uris {
    /// Those of documents, in their order.
    pub fn of(alloc: Global, uris: &[&str]) -> Mem<Uris>
        ensures { IfOk result (λ read. read ≡ map (λ uri. uri.now) uris.now) }
    {
        let documents = read_each(alloc, uris)?;
        let by_url = first_urls(alloc, documents.as_slice())?;
        let by_uri = first_uris(alloc, documents.as_slice())?;
        Ok(Uris {
            documents,
            by_url,
            by_uri,
        })
    }

    /// The place of the document that a string means in a document.
    pub fn meant(&self, alloc: Global, document: usize, string: &str) -> Mem<Option<usize>>
        requires { document < length self.now }
        ensures { IfOk result (λ place. place ≡ meant self.now document string.now) }
    {
        let Named { uri, url } = &self.documents[document];
        match url {
            None => Ok(self.at_path(alloc, uri.as_str(), string)?),
            Some(base) => Ok(self.at_url(base, string)?),
        }
    }

    /// The place of the first document with the URL that a string is against another.
    fn at_url(&self, base: &Url, string: &str) -> Mem<Option<usize>>
        ensures { IfOk result (λ place. place ≡ at_text self.now (text_of (parse_url (Some base.now) string.now))) }
    {
        match joined(base, string)? {
            None => Ok(None),
            Some(url) => Ok(self.by_url.get(url.as_str()).copied()),
        }
    }

    /// The place of the document that is called by a path, from another.
    fn at_path(&self, alloc: Global, uri: &str, path: &str) -> Mem<Option<usize>>
        ensures { IfOk result (λ place. place ≡ first_place (bytes_eq (path_from uri.now path.now)) 0 self.now) }
    {
        let there = path_from(alloc, uri, path)?;
        Ok(self.by_uri.get(there.as_str()).copied())
    }
}
