//! Laws of the program's definition. Each is the contract of a function that does nothing.
ghost use Rattle.std.specs.Prelude.{◌≡◌, ℕ, ◌*◌, ◌≤◌, List, map, length};
ghost use Rattle.scheme_model.specs.Data.{Datum};
ghost use Rattle.scheme_model.specs.UnitExpansion.{Formed};
ghost use Rattle.scheme_model.specs.Includes.{Document};
ghost use Rattle.scheme_model.specs.Program.{Prepared, UnitResult, units_of, prepare, reached, program_of};
ghost use Rattle.scheme_model.specs.Diagnostics.{Diagnostic, Span, diagnostics_of};
ghost use Rattle.datum_reader.specs.Texts.{IsReading};
ghost use Rattle.program_laws.specs.Circles.{IsClosed};
ghost use Rattle.program_laws.specs.Texts.{IsOfText};
ghost use Rattle.program_laws.specs.Parts.{TellsNothing};
ghost use Rattle.program_laws.specs.Turns.{Each, datum_size, AreBounded, IsDone};

/// What units import, directly or not, is closed (R7RS 5.6): a unit that one of them imports is one of them.
pub fn reached_is_closed()
    ensures { (units : List Prepared) (ns : List ℕ) → IsClosed units (reached units (length units) ns) }
{}

/// Each unit of the documents has exactly one result, broken or not, and the results stand in the units' order (R7RS 5.1, 5.6): the
/// walk that goes over the units, each after those that it imports, comes to all.
pub fn each_unit_has_a_result()
    ensures { (ds : List Document) → map (λ (r : UnitResult). r.unit) (program_of ds).units ≡ prepare (units_of ds) 0 (units_of ds) }
{}

/// What is read from a text of fewer than 2^59 bytes is bounded (R7RS 7.1.1, 7.1.2): each token has a character, and a datum has at most
/// two nodes for each token.
pub fn texts_are_bounded()
    ensures read { (text : List ℕ) (ds : List Datum) → IsReading text ds → Each (λ (d : Datum). datum_size d ≤ 2 * length text) ds }
    ensures bounded { (ds : List Document) → Each IsOfText ds → AreBounded ds }
{}

/// The turns that bound the recursion of the definitions are never used up (R7RS 4.3, 5.1), whatever the documents are, as long as no
/// datum has 2^60 nodes: each form of each unit comes to its parts, or to a fault of its own, and no diagnostic has the code that
/// stands for the end of the turns.
pub fn turns_suffice()
    ensures forms { (ds : List Document) → AreBounded ds → Each (λ (u : UnitResult). Each (λ (f : Formed). IsDone f.result) u.forms) (program_of ds).units }
    ensures codes { (spans : List (List Span)) (ds : List Document) → AreBounded ds → Each (λ (d : Diagnostic). d.code ≡ 0 → ⊥) (diagnostics_of spans (program_of ds)) }
{}

/// Nothing comes of the program of a text that others include but its forms (R7RS 4.1.7), whatever the documents are: no import, definition
/// or export, and nothing is told of it unless it is broken as a whole. What its forms come to is the units' that include it.
pub fn parts_tell_nothing()
    ensures { (spans : List (List Span)) (ds : List Document) → Each (TellsNothing spans (program_of ds)) (program_of ds).units }
{}
