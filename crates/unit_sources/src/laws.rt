//! Laws of what the calls answer. Each is the contract of a function that does nothing.
ghost use Rattle.std.specs.Option.{option_map};
ghost use Rattle.std.specs.Prelude.{◌≡◌, ◌||◌, ◌++◌, [], ℕ, List, Some, None, true, length, map, reverse, slice_get};
ghost use Rattle.scheme_model.specs.Included.{Texts};
ghost use Rattle.scheme_model.specs.IncludedUnits.{Placed, UnitSource, library_of};
ghost use Rattle.scheme_model.specs.Includes.{Document};
ghost use Rattle.scheme_model.specs.Program.{all_names, has_name, known_in, forms_or_none, prepared, specs_from, is_in, name_if, unit_named, is_repeated, Progress, work};
ghost use Rattle.scheme_model.specs.Data.{Datum};
ghost use Rattle.scheme_model.specs.Requirements.{Known, LibraryName};
ghost use Rattle.scheme_model.specs.StandardLibraries.{standard_libraries};
ghost use Rattle.scheme_tokens.specs.LibraryNames.{library_text, IsProper};
ghost use Rattle.unit_sources.specs.Sources.{AreImports};
ghost use Rattle.unit_sources.specs.UnitsRead.{IsSource};
ghost use Rattle.unit_sources.specs.declared.units.UnitSource.{UnitSource as CodeSource};
ghost use Rattle.unit_sources.specs.Repeated.{repeated_places, has_standard_name};
ghost use Rattle.unit_sources.specs.Orders.{with_imports, numbers, HaveNoFault};
ghost use Rattle.import_sets.specs.InTurn.{in_turn};

/// A library is defined twice where its name is a standard library's, or it is among the repeated ones (R7RS 5.6).
pub fn repeated_are_defined_twice()
    ensures { (all : List Placed) (n : ℕ) (u : Placed) → slice_get all n ≡ Some u →
        is_repeated all (prepared all n u) ≡ (has_standard_name (name_if n u.source) || is_in n (repeated_places all)) }
{}

/// A standard name means the standard library: it means no unit, whatever units have it (R7RS 5.6).
pub fn standard_names_mean_no_unit()
    ensures { (all : List Placed) (n : LibraryName) → has_standard_name (Some n) ≡ true → unit_named n 0 all ≡ None }
{}

/// Where nothing breaks the units, their turns are the order in which they are expanded (R7RS 5.6).
pub fn turns_are_the_order_of_work()
    ensures { (all : List Placed) (known : Known) (before : Progress) → before.results ≡ [] → HaveNoFault all (with_imports all) →
        reverse (numbers (work all (with_imports all) known (length all) before).results) ≡ in_turn (with_imports all) (length all) [] }
{}

/// What a datum is as a library rests on which proper names there are, and on no others (R7RS 4.2.1, 5.6.1).
pub fn units_by_proper_names()
    ensures { (known others : Known) → ((n : LibraryName) → IsProper n → known n ≡ others n) → (t : Texts) (document : ℕ) (d : Datum) →
        library_of t known document d ≡ library_of t others document d }
{}

/// Whether a library is there is told by the text of its name, among those of the standard libraries and of the documents'
/// (R7RS 4.2.1).
pub fn known_by_texts()
    ensures { (ds : List Document) (n : LibraryName) → IsProper n →
        known_in ds n ≡ has_name (map (λ l. library_text l.name) standard_libraries ++ map library_text (all_names ds)) (library_text n) }
{}

/// What is read of a unit is its imports, and its name where it is a library, however names are told apart by texts that write
/// each proper one as it is written.
pub fn names_are_read()
    ensures imports { (spelled : LibraryName → List ℕ) → ((n : LibraryName) → IsProper n → spelled n ≡ library_text n) →
        (unit : ℕ) (c : CodeSource) (u : UnitSource) (d : Datum) → IsSource unit c u d → AreImports spelled c.imports (specs_from unit 0 (forms_or_none u.forms)) }
    ensures name { (spelled : LibraryName → List ℕ) → ((n : LibraryName) → IsProper n → spelled n ≡ library_text n) →
        (t : Texts) (known : Known) (unit document : ℕ) (c : CodeSource) (d : Datum) → IsSource unit c (library_of t known document d) d →
        c.name ≡ option_map spelled (library_of t known document d).name }
{}
