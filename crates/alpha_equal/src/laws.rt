//! Laws of what the code has of programs. Each is the contract of a function that does nothing.
ghost use Rattle.std.specs.Prelude.{◌≡◌, ℕ, List, ◌∷◌, length, map};
ghost use Rattle.scheme_model.specs.Cores.{Parts};
ghost use Rattle.scheme_model.specs.Ident.{Ident as Identifier};
ghost use Rattle.scheme_model.specs.IncludedUnits.{Placed};
ghost use Rattle.scheme_model.specs.Program.{Program as ModelProgram};
ghost use Rattle.scheme_model.specs.ProgramArrows.{program_table};
ghost use Rattle.scheme_model.specs.Requirements.{LibraryName};
ghost use Rattle.scheme_model.specs.Substitution.{Table};
ghost use Rattle.rename_model.specs.Walks.{form_points, number_in};
ghost use Rattle.syntax_tree.specs.Macros.{IsIdent};
ghost use Rattle.syntax_tree.specs.Names.{AreToldApart};
ghost use Rattle.syntax_tree.specs.declared.trees.Work.{Work};
ghost use Rattle.core_tree.specs.Cores.{PartsStand};
ghost use Rattle.core_tree.specs.Levels.{DefineOnTop};
ghost use Rattle.core_tree.specs.Units.{ProgramStands};
ghost use Rattle.core_tree.specs.declared.units.ExpandedItem.{ExpandedItem};
ghost use Rattle.core_tree.specs.declared.units.Program.{Program};
ghost use Rattle.alpha_equal.specs.declared.nodes.Node.TheVariants as nodes;
ghost use Rattle.alpha_equal.specs.Marks.{ANode, ANumber, items_marks, AreMarks};
ghost use Rattle.alpha_equal.specs.Numbered.{number_at};

/// The marks of a form of a unit are the points of the form that it stands for.
pub fn marks_are_points()
    ensures { (work : Work) (table : Table) (unit form : ℕ) (items : List ExpandedItem) (ps : Parts) →
        PartsStand work unit form (map (λ i. i.part) items) ps → DefineOnTop ps →
        AreMarks work table unit form (ANode nodes.Form ∷ ANumber (length items) ∷ items_marks items) (form_points table ps) }
{}

/// The number that the code has for what a unit defines is the number of the definition.
pub fn numbers_are_told()
    ensures { (work : Work) (text : LibraryName → List ℕ) (uris : List (List ℕ)) (all : List Placed) (c : Program) (p : ModelProgram) →
        AreToldApart work.symbols.idents → ProgramStands work text uris all c p → (unit n : ℕ) (i : Identifier) → IsIdent work.symbols n i →
        number_at c.units (record { unit = unit; ident = n }) ≡ number_in (program_table p) unit i }
{}
