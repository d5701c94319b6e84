//! What stands under other numbers as it stood.
ghost use Rattle.std.specs.Prelude.{◌≡◌, ℕ, List};
ghost use Rattle.scheme_model.specs.Prelude.{prelude};
ghost use Rattle.scheme_model.specs.Program.{prelude_unit};
ghost use Rattle.syntax_tree.specs.declared.trees.Work.{Work};
ghost use Rattle.base_library.specs.Macros.{AreMacros};
ghost use Rattle.base_library.specs.declared.macros.PreludeMacro.{PreludeMacro};
ghost use Rattle.renumbering_laws.specs.Renumbering.{Renumbering};
ghost use Rattle.moves.specs.Works.{WorkMoves};

/// The macros of the prelude (R7RS 4.2, 7.3) stand in a work under other numbers as they stood, where the prelude's unit keeps its number: none of their
/// trees has a place.
pub fn prelude_macros_stay()
    ensures { (r : Renumbering) (old new : Work) (macros : List PreludeMacro) → ((u n : ℕ) → r.definition u n ≡ n) → r.unit prelude_unit ≡ prelude_unit → WorkMoves r old new → AreMacros old macros prelude → AreMacros new macros prelude }
{}
