//! Laws of reading (R7RS 7.1.2).
ghost use Rattle.std.specs.Prelude.{◌≡◌, ◌⊎◌, ◌≤◌, List, ℕ, Some, slice_get};
ghost use Rattle.ls_base.specs.Limits.{max_text};
ghost use Rattle.scheme_tokens.specs.Lexical.{byte_count};
ghost use Rattle.scheme_model.specs.Data.{Datum, place_of};
ghost use Rattle.scheme_model.specs.Faults.{Stop};
ghost use Rattle.datum_reader.specs.WellFormed.{IsIn, WasRead, CanSeed};
ghost use Rattle.datum_reader.specs.NameTokens.{NamesAreTokens};
ghost use Rattle.datum_reader.specs.Seeded.{seeded};
ghost use Rattle.datum_reader.specs.Texts.{StopsAt, IsReading};

/// A text has one list of data at most.
pub fn one_reading()
    ensures { (text : List ℕ) (ds es : List Datum) → IsReading text ds → IsReading text es → ds ≡ es }
{}

/// A text stops at one place at most, for one reason.
pub fn one_stop()
    ensures { (text : List ℕ) (e f : Stop) → StopsAt text e → StopsAt text f → e ≡ f }
{}

/// A text that is data stops nowhere.
pub fn never_reads_and_stops()
    ensures { (text : List ℕ) (ds : List Datum) (e : Stop) → IsReading text ds → ¬ StopsAt text e }
{}

/// Each text is data, or it stops somewhere.
pub fn every_text()
    ensures { (text : List ℕ) → ((ds : List Datum) × IsReading text ds) ⊎ ((e : Stop) × StopsAt text e) }
{}

/// The data of a text of at most 1,048,576 bytes were read.
pub fn data_were_read()
    ensures { (text : List ℕ) (ds : List Datum) (n : ℕ) (d : Datum) →
        byte_count text ≤ max_text → IsReading text ds → slice_get ds n ≡ Some d → WasRead d }
{}

/// A part of what was read was read.
pub fn parts_were_read()
    ensures { (d e : Datum) → IsIn d e → WasRead e → WasRead d }
{}

/// A tree can be made of what was read: its tree, as any form of any unit, has at most 4,194,304 nodes and a depth of at most
/// 1,000.
pub fn read_data_have_trees()
    ensures { (d : Datum) → WasRead d → CanSeed d }
{}

/// Each identifier of a form that has a place was read from the token there: a name token that spells its symbol.
pub fn names_are_tokens()
    ensures { (d : Datum) (unit form : ℕ) (read : WasRead d) →
        NamesAreTokens read.reading.tokens (place_of d).first (seeded unit form d) }
{}
