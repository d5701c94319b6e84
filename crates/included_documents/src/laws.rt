//! Laws of the definitions. Each is the contract of a function that does nothing.
ghost use Rattle.std.specs.Prelude.{◌≡◌, ℕ, List, None, Ok};
ghost use Rattle.url.specs.Parts.{Parts};
ghost use Rattle.url.specs.Parser.{parse_url};
ghost use Rattle.included_documents.specs.Meant.{meant_in};

/// What strings mean in a document depends on the document's URL alone, however its uri spells that.
pub fn urls_alone_decide()
    ensures { (uris : List (List ℕ)) (uri other string : List ℕ) (url : Parts) → parse_url None uri ≡ Ok url → parse_url None other ≡ Ok url →
        meant_in uris uri string ≡ meant_in uris other string }
{}
