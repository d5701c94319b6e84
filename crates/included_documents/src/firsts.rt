//! The place of the first document with each text.
ghost use Rattle.std.specs.Prelude.{◌≡◌, ℕ, List, All, IfOk, OnOk};
ghost use Rattle.std.specs.BTreeMap.{get_by_text};
ghost use Rattle.std.specs.Option.{option_or};
ghost use Rattle.std.specs.Str.{bytes_eq};
ghost use Rattle.included_documents.specs.Kept.{IsRead, is_url, place_if, uris_in};
ghost use Rattle.included_documents.specs.Meant.{first_place, is_at};

use crate::named::Named;
use ls_base::Mem;
use std::alloc::Global;
use std::collections::BTreeMap;
use url::Url;

/// Places by texts.
pub type Firsts = BTreeMap<String, usize>;

/// Notes the place of a text, if it is new.
fn note(alloc: Global, firsts: &mut Firsts, text: &str, place: usize) -> Mem<()>
    ensures { OnOk result ((s : List ℕ) → get_by_text firsts.new s ≡ option_or (get_by_text firsts.old s) (place_if (bytes_eq s text.now) place)) }
{
    if firsts.contains_key(text) {
        return Ok(());
    }
    firsts.insert(String::from_str(alloc, text)?, place)?;
    Ok(())
}

/// Notes the place of a document's URL, if it has one and that is new.
fn note_url(alloc: Global, firsts: &mut Firsts, url: &Option<Url>, place: usize) -> Mem<()>
    ensures { OnOk result ((s : List ℕ) → get_by_text firsts.new s ≡ option_or (get_by_text firsts.old s) (place_if (is_url s url.now) place)) }
{
    match url {
        None => Ok(()),
        Some(url) => Ok(note(alloc, firsts, url.as_str(), place)?),
    }
}

/// The place of the first document with each uri.
pub fn first_uris(alloc: Global, documents: &[Named]) -> Mem<Firsts>
    ensures { IfOk result (λ firsts. (s : List ℕ) → get_by_text firsts s ≡ first_place (bytes_eq s) 0 (uris_in documents.now)) }
{
    let mut firsts = BTreeMap::new(alloc);
    for (place, document) in documents.iter().enumerate() {
        note(alloc, &mut firsts, document.uri.as_str(), place)?;
    }
    Ok(firsts)
}

/// The place of the first document with each URL.
pub fn first_urls(alloc: Global, documents: &[Named]) -> Mem<Firsts>
    requires { All IsRead documents.now }
    ensures { IfOk result (λ firsts. (s : List ℕ) → get_by_text firsts s ≡ first_place (is_at s) 0 (uris_in documents.now)) }
{
    let mut firsts = BTreeMap::new(alloc);
    for (place, document) in documents.iter().enumerate() {
        note_url(alloc, &mut firsts, &document.url, place)?;
    }
    Ok(firsts)
}
