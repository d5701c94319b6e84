//! The law of the way back from other numbers.
ghost use Rattle.std.specs.Prelude.{◌≡◌, ℕ};
ghost use Rattle.scheme_model.specs.Ident.{Ident as Identifier};
ghost use Rattle.scheme_model.specs.Trees.{Tree};
ghost use Rattle.scheme_model.specs.Questions.{Around};
ghost use Rattle.syntax_tree.specs.declared.trees.Work.{Work};
ghost use Rattle.syntax_tree.specs.declared.trees.table.Region.{Region};
ghost use Rattle.core_tree.specs.declared.units.UnitForm.{UnitForm};
ghost use Rattle.renumbering_laws.specs.Moving.{move_tree};
ghost use Rattle.renumbering_laws.specs.Renumbering.{Renumbering, change};
ghost use Rattle.renumbering_laws.specs.NewSurroundings.{HasOldNumbers, around_new};
ghost use Rattle.kept_forms.specs.KeptForms.{KeptForm};
ghost use Rattle.carried_laws.specs.Entries.{kept_as};
ghost use Rattle.moves.specs.Numbers.{IsBack};
ghost use Rattle.form_cache.specs.Entries.{Editions, IsEntry};
ghost use Rattle.form_cache.specs.declared.entries.Entry.{Entry};
ghost use Rattle.renumbered_entries.specs.Renumbered.{EditionsMove, IsEntryUnder};

/// By the way back from new numbers an entry stands for what it stood for before them, and editions are of the rules of which they were.
pub fn entries_come_back()
    ensures entries { (r s : Renumbering) (b : HasOldNumbers r) (c : HasOldNumbers s) → IsBack r s → (work : Work) (region : Region) (e : Editions) (unit : ℕ) (n : ℕ × Tree Identifier) (x : Entry) (f : UnitForm) (k : KeptForm) (w u : Around) →
        IsEntryUnder s c work region e (r.unit unit) (r.form unit n.0, move_tree (change r) n.1) x f (kept_as r k) (around_new r b w) (around_new r b u) → IsEntry work region e unit n x f k w u }
    ensures editions { (r s : Renumbering) → IsBack r s → (e f g : Editions) → EditionsMove r e f → EditionsMove s f g → (n : ℕ) → g n ≡ e n }
{}
