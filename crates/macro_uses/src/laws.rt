//! Laws of the definition. Each is the contract of a function that does nothing.
ghost use Rattle.std.specs.Prelude.{◌≡◌, List};
ghost use Rattle.scheme_model.specs.Includes.{Document};
ghost use Rattle.macro_uses.specs.MacroUses.{program_uses};
ghost use Rattle.macro_uses.specs.ScopedUses.{scoped_program_uses};

/// Expanding the documents by scopes counts the macro uses that expanding them by substitution counts (R7RS 4.3), whatever they are.
pub fn uses_are_substituted()
    ensures { (ds : List Document) → scoped_program_uses ds ≡ program_uses ds }
{}
