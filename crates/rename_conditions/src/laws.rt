//! Laws of the definitions. Each is the contract of a function that does nothing.
ghost use Rattle.std.specs.Prelude.{◌≡◌, ◌↔◌, ℕ, List, Option, Ok};
ghost use Rattle.scheme_model.specs.declared.Occ.{Occ};
ghost use Rattle.rename_conditions.specs.Readers.{Reader, Reading, ReadsAs, IsReader};
ghost use Rattle.rename_conditions.specs.Opened.{Opened, DocEdits};
ghost use Rattle.rename_conditions.specs.Renames.{rename_in};
ghost use Rattle.rename_conditions.specs.Accepted.{IsAccepted};

/// A rename has these edits exactly where it is accepted with them.
pub fn accepted_exactly()
    ensures { (r : Reader) (w : Opened) (at : Option Occ) (new : List ℕ) (es : List DocEdits) →
        rename_in r w at new ≡ Ok es ↔ IsAccepted r w at new es }
{}

/// There is a way to read all texts by the rules.
pub fn texts_are_read()
    ensures { (read : List ℕ → Option Reading) × ((text : List ℕ) → ReadsAs text (read text)) }
{}

/// There is a way to read all texts, and to tell which texts are one identifier, by the rules.
pub fn reader_is_there()
    ensures { (r : Reader) × IsReader r }
{}

/// It is the only one.
pub fn readers_are_one()
    ensures { (r s : Reader) → IsReader r → IsReader s → r ≡ s }
{}
