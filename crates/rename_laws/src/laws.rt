//! Laws of the program's definition. Each is the contract of a function that does nothing.
ghost use Rattle.std.specs.Prelude.{◌≡◌, ◌↔◌, ℕ, List, []};
ghost use Rattle.scheme_model.specs.Diagnostics.{Span};
ghost use Rattle.scheme_model.specs.Includes.{Document};
ghost use Rattle.scheme_model.specs.Program.{result_at, program_of};
ghost use Rattle.rename_model.specs.SameProgram.{unit_errors};
ghost use Rattle.rename_conditions.specs.Renames.{errors_of};
ghost use Rattle.program_differences.specs.Exported.{ExportsAreGiven};

/// Each export of a unit is given by the export declaration of its name, in their order, whatever the documents are (R7RS 5.6.1): what
/// units define that are expanded later changes nothing of it.
pub fn exports_are_given()
    ensures { (ds : List Document) → ExportsAreGiven (program_of ds) }
{}

/// The comparison of two programs finds an Error in a unit exactly where a diagnostic of the unit is one, whatever the documents are
/// and wherever their tokens stand.
pub fn errors_are_one()
    ensures { (spans : List (List Span)) (ds : List Document) (n : ℕ) →
        errors_of spans (program_of ds) (result_at (program_of ds).units n) ≡ [] ↔ unit_errors (result_at (program_of ds).units n) ≡ [] }
{}
