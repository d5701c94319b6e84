//! Laws of the standard libraries' names as texts (R7RS 5.6.1, Appendix A).
ghost use Rattle.std.specs.Prelude.{◌≡◌, ℕ, List, map};
ghost use Rattle.scheme_model.specs.Requirements.{LibraryName};
ghost use Rattle.scheme_model.specs.StandardLibraries.{standard_libraries};
ghost use Rattle.scheme_tokens.specs.LibraryNames.{library_text, IsProper};
ghost use Rattle.base_library.specs.Texts.{name_text, SpellsStandard};

/// There are texts for all names that tell them apart and name the standard libraries. Of names that can be read they are those
/// that the names are written by.
pub fn names_are_told()
    ensures { (spelled : LibraryName → List ℕ) × SpellsStandard spelled × ((n : LibraryName) → IsProper n → spelled n ≡ library_text n) }
{}

/// The texts that the standard libraries are known by are those that their names are written by.
pub fn standard_names_are_written()
    ensures { map (λ l. name_text l.name) standard_libraries ≡ map (λ l. library_text l.name) standard_libraries }
{}
