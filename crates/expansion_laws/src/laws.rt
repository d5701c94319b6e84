//! Laws of the definitions. Each is the contract of a function that does nothing.
ghost use Rattle.std.specs.Prelude.{◌≡◌, ℕ, suc, ◌+◌, ◌^◌, ◌≤◌, true, false, List, []};
ghost use Rattle.scheme_model.specs.Ident.{Ident as Identifier};
ghost use Rattle.scheme_model.specs.Trees.{Tree};
ghost use Rattle.scheme_model.specs.Cores.{Part as ModelPart, Parts as ModelParts};
ghost use Rattle.scheme_model.specs.Steps.{Broken};
ghost use Rattle.scheme_model.specs.Order.{Item as ModelItem, WaitingUse, Left, Note};
ghost use Rattle.scheme_model.specs.UnitExpansion.{Formed};
ghost use Rattle.scheme_model.specs.ScopedExpansion.{FramedIdent, ScopedState};
ghost use Rattle.scheme_model.specs.Substitution.{Defined};
ghost use Rattle.scheme_model.specs.Requirements.{Known};
ghost use Rattle.scheme_model.specs.IncludedUnits.{Placed};
ghost use Rattle.scheme_model.specs.Program.{Prepared, is_ready};
ghost use Rattle.scheme_model.specs.CountedExpansion.{counted};
ghost use Rattle.scheme_model.specs.ScopedProgram.{scoped_work, scoped_before, scoped_unit_over, scoped_start_after};
ghost use Rattle.syntax_tree.specs.Names.{Names as AnyNames, KeepsNames};
ghost use Rattle.syntax_tree.specs.Works.{KeepsTrees};
ghost use Rattle.syntax_tree.specs.declared.trees.Work.{Work as AnyWork};
ghost use Rattle.syntax_tree.specs.declared.trees.table.Region.{Region as AnyRegion};
ghost use Rattle.core_tree.specs.Names.{AllMatch};
ghost use Rattle.core_tree.specs.Cores.{PartStands, PartsStand};
ghost use Rattle.core_tree.specs.Levels.{PartBinds};
ghost use Rattle.core_tree.specs.Traces.{IsFault};
ghost use Rattle.core_tree.specs.Units.{FormsStand, defined_by};
ghost use Rattle.core_tree.specs.declared.cores.CorePart.{CorePart as AnyPart};
ghost use Rattle.core_tree.specs.declared.traces.FormFault.{FormFault as AnyFault};
ghost use Rattle.core_tree.specs.declared.units.UnitForm.{UnitForm as AnyForm};
ghost use Rattle.core_tree.specs.declared.traces.Trace.{Trace as AnyTrace};
ghost use Rattle.unit_scopes.specs.Others.{OthersStay, InOrder};
ghost use Rattle.unit_scopes.specs.Outcomes.{Grows};
ghost use Rattle.unit_scopes.specs.Searched.{searched, searched_unit_over, all_passed, front_passed, front_finished};
ghost use Rattle.unit_scopes.specs.Stepped.{IsFresh};
ghost use Rattle.expansion_laws.specs.Tops.{OfOk, ItemBinds, ItemsBind};
ghost use Rattle.unit_scopes.specs.Units.{CountsFor, HasSpace, ItemFor, declared, uses_met, expanded};
ghost use Rattle.unit_scopes.specs.Kept.{WaitsFor};
ghost use Rattle.form_parts.specs.declared.items.Item.{Item as AnyItem};
ghost use Rattle.form_parts.specs.declared.items.WaitingUse.{WaitingUse as AnyWaiting};
ghost use Rattle.unit_scopes.specs.declared.scope.Budget.{Budget as AnyBudget};

/// Each unit that is ready, whatever was worked on before it, comes to the same forms and the same state where a definition goes
/// through the notes that speak of its identifier as where it goes through all (R7RS 4.3, 5.3): the whole unit, its forms as they are
/// gone through, and what they set aside as it is expanded, each form after form.
pub fn notes_are_searched()
    ensures whole { (all : List Placed) (units : List Prepared) (known : Known) (n : ℕ) (p : Prepared) →
        let g = scoped_work all units known n scoped_before in is_ready all units g.results p ≡ true → searched_unit_over known p (scoped_start_after all p g) ≡ scoped_unit_over known p (scoped_start_after all p g) }
    ensures passed { (all : List Placed) (units : List Prepared) (known : Known) (n : ℕ) (p : Prepared) →
        let g = scoped_work all units known n scoped_before in is_ready all units g.results p ≡ true → all_passed (searched known) p (scoped_start_after all p g) ≡ all_passed (counted known) p (scoped_start_after all p g) }
    ensures each_passed { (all : List Placed) (units : List Prepared) (known : Known) (n : ℕ) (p : Prepared) →
        let g = scoped_work all units known n scoped_before in is_ready all units g.results p ≡ true → (k : ℕ) → front_passed (searched known) k p (scoped_start_after all p g) ≡ front_passed (counted known) k p (scoped_start_after all p g) }
    ensures each_finished { (all : List Placed) (units : List Prepared) (known : Known) (n : ℕ) (p : Prepared) →
        let g = scoped_work all units known n scoped_before in is_ready all units g.results p ≡ true → (k : ℕ) →
        let q = all_passed (counted known) p (scoped_start_after all p g) in front_finished (searched known) k p q ≡ front_finished (counted known) k p q }
{}

/// A step of one form of a unit leaves its other forms as they are, whether the form is gone through, its macro uses are met or what it
/// set aside is expanded (R7RS 5.3): only the former defines anything in the unit. What another form counted, met and defined stands for the same
/// afterwards, in a work that has only grown; and the unit's definitions stay in the order of their forms.
pub fn other_forms_stay()
    ensures declared { (known : Known) (n : ℕ) (t : Tree Identifier) (notes : List (Note FramedIdent)) (s : ScopedState) → OthersStay n s (declared known n t notes s).1 }
    ensures expanded { (known : Known) (n : ℕ) (i : ModelItem Identifier) (s : ScopedState) → OthersStay n s (expanded known n i s).1 }
    ensures met { (known : Known) (n : ℕ) (us : List (WaitingUse Identifier)) (s : ScopedState) → OthersStay n s (uses_met known n us s) }
    ensures met_table { (known : Known) (n : ℕ) (us : List (WaitingUse Identifier)) (s : ScopedState) → (uses_met known n us s).table ≡ s.table }
    ensures table { (known : Known) (n : ℕ) (i : ModelItem Identifier) (s : ScopedState) → (expanded known n i s).1.table ≡ s.table }
    ensures counts { (old new : AnyWork) (n m : ℕ) (budget : AnyBudget) (trace : AnyTrace) (s t : ScopedState) → (m ≡ n → ⊥) → OthersStay n s t →
        KeepsNames old.symbols new.symbols → CountsFor old s m budget trace → CountsFor new t m budget trace }
    ensures in_order { (n first behind : ℕ) (s t : ScopedState) → OthersStay n s t → first ≤ n → behind ≤ suc n →
        InOrder (λ (d : Defined). d.form) first behind (defined_by s.unit s.table) → InOrder (λ (d : Defined). d.form) first (suc n) (defined_by t.unit t.table) }
{}

/// Where no form has counted, met or defined anything yet, as in a unit that was begun just now, counts of nothing are each form's
/// (R7RS 5.1): there is space for its first step, and the unit's definitions, which are none, are in order.
pub fn fresh_counts()
    ensures counts { (work : AnyWork) (s : ScopedState) (m : ℕ) (budget : AnyBudget) (trace : AnyTrace) → IsFresh s m → budget.uses ≡ 0 → budget.nodes ≡ 0 → budget.locals ≡ 0 →
        trace.definitions ≡ [] → trace.keywords ≡ [] → trace.uses ≡ [] → CountsFor work s m budget trace }
    ensures space { (budget : AnyBudget) → budget.locals ≡ 0 → HasSpace (2 ^ 43 + 2 ^ 40) budget }
    ensures in_order { (s : ScopedState) → ((m : ℕ) → IsFresh s m) → InOrder (λ (d : Defined). d.form) 0 0 (defined_by s.unit s.table) }
{}

/// What each call leaves of a work adds up: a work grows by nothing, and by one step behind another. Where the same nodes stand over
/// more names, trees are kept, as where a unit is begun.
pub fn works_grow()
    ensures itself { (w : AnyWork) (region : AnyRegion) → Grows w w region }
    ensures steps { (a b c : AnyWork) (region : AnyRegion) → Grows a b region → Grows b c region → Grows a c region }
    ensures trees { (a b c : AnyWork) → KeepsTrees a b → KeepsTrees b c → KeepsTrees a c }
    ensures names { (a b c : AnyNames) → KeepsNames a b → KeepsNames b c → KeepsNames a c }
    ensures same { (old new : AnyWork) → new.trees ≡ old.trees → KeepsNames old.symbols new.symbols → KeepsTrees old new }
{}

/// What a form set aside it still set aside in a work that has only grown, as it has after each call, and its uses wait (R7RS 5.3).
pub fn items_stay()
    ensures item { (old new : AnyWork) (region : AnyRegion) (unit form : ℕ) (x : AnyItem) (i : ModelItem Identifier) → KeepsTrees old new → KeepsNames old.symbols new.symbols →
        ItemFor old region unit form x i → ItemFor new region unit form x i }
    ensures items { (old new : AnyWork) (region : AnyRegion) (unit form : ℕ) (xs : List AnyItem) (ys : List (ModelItem Identifier)) → KeepsTrees old new → KeepsNames old.symbols new.symbols →
        AllMatch (ItemFor old region unit form) xs ys → AllMatch (ItemFor new region unit form) xs ys }
    ensures uses { (old new : AnyWork) (unit form : ℕ) (xs : List AnyWaiting) (us : List (WaitingUse Identifier)) → KeepsTrees old new → KeepsNames old.symbols new.symbols →
        AllMatch (WaitsFor old unit form) xs us → AllMatch (WaitsFor new unit form) xs us }
{}

/// What was expanded stands for the same in a work that has only grown: a part, the parts of a form, a form's fault, and the forms of
/// a unit from one on.
pub fn parts_stay()
    ensures part { (old new : AnyWork) (unit form : ℕ) (x : AnyPart) (p : ModelPart) → KeepsTrees old new → KeepsNames old.symbols new.symbols → PartStands old unit form x p → PartStands new unit form x p }
    ensures parts { (old new : AnyWork) (unit form : ℕ) (xs : List AnyPart) (ps : ModelParts) → KeepsTrees old new → KeepsNames old.symbols new.symbols → PartsStand old unit form xs ps → PartsStand new unit form xs ps }
    ensures fault { (old new : AnyNames) (e : AnyFault) (b : Broken) → KeepsNames old new → IsFault old e b → IsFault new e b }
    ensures forms { (old new : AnyWork) (unit form : ℕ) (cs : List AnyForm) (fs : List Formed) → KeepsTrees old new → KeepsNames old.symbols new.symbols → FormsStand old unit form cs fs → FormsStand new unit form cs fs }
{}

/// What a form of a unit sets aside binds definitions of the unit, and so does each part that comes of it; all that stands inside binds
/// locals (R7RS 5.3).
pub fn forms_define_on_top()
    ensures declared { (known : Known) (n : ℕ) (t : Tree Identifier) (notes : List (Note FramedIdent)) (s : ScopedState) → OfOk (λ (l : Left Identifier). ItemsBind false l.items) (declared known n t notes s).0.left }
    ensures expanded { (known : Known) (n : ℕ) (i : ModelItem Identifier) (s : ScopedState) → ItemBinds false i → OfOk (PartBinds false) (expanded known n i s).0 }
{}
