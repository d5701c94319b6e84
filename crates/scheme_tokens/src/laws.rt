//! Laws of reading (R7RS 7.1.1).
ghost use Rattle.std.specs.Prelude.{◌≡◌, ◌⊎◌, ◌++◌, Bool, List, ℕ, IfOk, Option};
ghost use Rattle.scheme_model.specs.Data.{Datum};
ghost use Rattle.scheme_model.specs.Declarations.{symbol_tree};
ghost use Rattle.scheme_model.specs.Requirements.{LibraryName, library_name_of};
ghost use Rattle.scheme_tokens.specs.Apart.{AreApart};
ghost use Rattle.scheme_tokens.specs.Lexical.{byte_count, is_inside, Atomic, Ends, IsIdentifier, IsToken, Name, Token, TokenKind};
ghost use Rattle.scheme_tokens.specs.Faults.{FaultAt};
ghost use Rattle.scheme_tokens.specs.LibraryNames.{library_text, IsProper};
ghost use Rattle.scheme_tokens.specs.Stopping.{IsRead};
ghost use Rattle.scheme_tokens.specs.Spelling.{barred, IsSpelling};

/// A text has one reading at most: one list of tokens, and then it ends, or stops at one fault. So a text that stops isn't
/// spelled by any tokens.
pub fn one_reading()
    ensures { (text : List ℕ) (ts us : List Token) (end fin : Option FaultAt) →
        IsRead ts end text → IsRead us fin text → (ts ≡ us) × (end ≡ fin) }
{}

/// Each text has a reading: it is tokens up to its end, or it stops.
pub fn every_text()
    ensures { (text : List ℕ) → (ts : List Token) × (end : Option FaultAt) × IsRead ts end text }
{}

/// A symbol, spelled with or without bars asked for, is one identifier, which names it again.
pub fn spelled_back()
    ensures { (name text : List ℕ) (bars : Bool) → IsSpelling name bars text → IsIdentifier name text }
{}

/// The tokens of a text rise and don't overlap, each takes some bytes, and all lie within the text.
pub fn tokens_apart()
    ensures { (text : List ℕ) (ts : List Token) (end : Option FaultAt) → IsRead ts end text → AreApart 0 ts (byte_count text) }
{}

/// A text begins with one token at most.
pub fn one_first_token()
    ensures { (k j : TokenKind) (glyphs others rest behind : List ℕ) → glyphs ++ rest ≡ others ++ behind →
        IsToken k glyphs rest → IsToken j others behind → (k ≡ j) × (glyphs ≡ others) }
{}

/// A name that is written begins each text with exactly its token, where it is written between bars or a delimiter follows, or
/// the end.
pub fn spelled_before()
    ensures { (name text rest : List ℕ) (bars : Bool) → IsSpelling name bars text → (text ≡ barred name) ⊎ Ends is_inside rest →
        (b : Bool) × IsToken (Atomic (Name name b)) text rest }
{}

/// Proper names of libraries with one text are one name (R7RS 5.6.1).
pub fn texts_tell_proper()
    ensures { (m n : LibraryName) → IsProper m → IsProper n → library_text m ≡ library_text n → m ≡ n }
{}

/// The library's name that a datum is has a part at least, and proper ones.
pub fn names_are_proper()
    ensures { (d : Datum) → IfOk (library_name_of (λ s. s) (symbol_tree d)) IsProper }
{}

/// There are texts for all names of libraries that tell them apart, and of proper names they are those that the names are
/// written by.
pub fn names_are_told()
    ensures { (spelled : LibraryName → List ℕ) × ((m n : LibraryName) → spelled m ≡ spelled n → m ≡ n) × ((n : LibraryName) → IsProper n → spelled n ≡ library_text n) }
{}
