//! Laws of the definitions. Each is the contract of a function that does nothing.
ghost use Rattle.std.specs.Prelude.{◌≡◌, ℕ, true, List, [], ◌∷◌, ◌++◌, map, Result};
ghost use Rattle.scheme_model.specs.Ident.{Ident as Identifier, Written};
ghost use Rattle.scheme_model.specs.Trees.{Tree};
ghost use Rattle.scheme_model.specs.Steps.{Broken};
ghost use Rattle.scheme_model.specs.Order.{Left, run};
ghost use Rattle.scheme_model.specs.Requirements.{Known};
ghost use Rattle.scheme_model.specs.Expression.{expand};
ghost use Rattle.scheme_model.specs.UnitExpansion.{one_form, form_parts};
ghost use Rattle.scheme_model.specs.ScopedExpansion.{ScopedState};
ghost use Rattle.scheme_model.specs.CountedExpansion.{counted};
ghost use Rattle.scheme_model.specs.Questions.{Around};
ghost use Rattle.scheme_model.specs.FormsAlike.{set_aside};
ghost use Rattle.scheme_model.specs.IncludedUnits.{Placed};
ghost use Rattle.scheme_model.specs.Program.{Prepared, is_ready, enough_turns, forms_at_work};
ghost use Rattle.scheme_model.specs.ScopedProgram.{ScopedProgress, scoped_work, scoped_before, forms_over, scoped_start_after};
ghost use Rattle.form_laws.specs.Begins.{Begins, FormBegins, RestBegins};
ghost use Rattle.unit_scopes.specs.Searched.{searched};
ghost use Rattle.kept_forms.specs.KeptForms.{FormOrKept, LeftOrKept, form_of, around_form, numbers_of};
ghost use Rattle.kept_forms.specs.Carried.{Onwards};
ghost use Rattle.forgotten_locals.specs.Outside.{IsOutside};
ghost use Rattle.forgotten_locals.specs.Ways.{Way, forgetting, firsts_by, seconds_by, unit_by, AtTurns, AllKept};
ghost use Rattle.forgotten_locals.specs.Programs.{IsProgressOutside};
ghost use Rattle.note_laws.specs.Told.{ImportsOthers};
ghost use Rattle.kept_turns.specs.Turns.{AtFirst};
ghost use Rattle.kept_turns.specs.Ready.{AllReady};
ghost use Rattle.searched_turns.specs.GoingOn.{going_on};

/// A turn in which definitions go through the notes that speak of their identifiers alone comes to what it comes to where they go through all
/// notes (R7RS 5.3), where nothing local is there when it comes and the unit imports nothing of its own.
pub fn searched_turns_are_counted()
    ensures first { (v : Around) (turns : ℕ) (t : Tree Identifier) → IsOutside v.state → ImportsOthers v.state → FormBegins v t → run (searched v.known) turns [] (one_form t v.notes) v.state ≡ set_aside v turns t }
    ensures second { (v : Around) (turns : ℕ) (fs : List ℕ) (r : Result (Left Identifier) Broken) → IsOutside v.state → ImportsOthers v.state → Begins v.state → RestBegins v r →
        form_parts (searched v.known) (expand (searched v.known) turns) [] fs r v.state ≡ form_parts (counted v.known) (expand (counted v.known) turns) [] fs r v.state }
{}

/// So a unit of which some forms are kept, and what is local is forgotten behind each turn, comes to what it comes to where definitions go through all
/// notes (R7RS 4.3, 5.1, 5.3), and the same may be kept of each at its turns. At no turn it imports anything of its own, nor at that of a form that is next.
pub fn units_keep_while_they_search()
    ensures same { (all : List Placed) (units : List Prepared) (known : Known) (n : ℕ) (h : ScopedProgress) (p : Prepared) (xs : List FormOrKept) →
        let g = scoped_work all units known n scoped_before in let s = scoped_start_after all p h in
        IsProgressOutside g h → is_ready all units g.results p ≡ true → map form_of xs ≡ forms_over (Written p.number) p.number 0 (forms_at_work p) → AllKept (forgetting enough_turns) enough_turns known xs s →
        unit_by (going_on enough_turns) known xs s ≡ unit_by (forgetting enough_turns) known xs s }
    ensures kept { (all : List Placed) (units : List Prepared) (known : Known) (n : ℕ) (h : ScopedProgress) (p : Prepared) (xs : List FormOrKept) →
        let g = scoped_work all units known n scoped_before in let s = scoped_start_after all p h in
        IsProgressOutside g h → is_ready all units g.results p ≡ true → map form_of xs ≡ forms_over (Written p.number) p.number 0 (forms_at_work p) → AllKept (forgetting enough_turns) enough_turns known xs s →
        AllKept (going_on enough_turns) enough_turns known xs s }
    ensures ready { (all : List Placed) (units : List Prepared) (known : Known) (n : ℕ) (h : ScopedProgress) (p : Prepared) (xs : List FormOrKept) →
        let g = scoped_work all units known n scoped_before in let s = scoped_start_after all p h in
        IsProgressOutside g h → is_ready all units g.results p ≡ true → map form_of xs ≡ forms_over (Written p.number) p.number 0 (forms_at_work p) → AllKept (forgetting enough_turns) enough_turns known xs s →
        AllReady (going_on enough_turns) known xs s }
    ensures imports { (all : List Placed) (units : List Prepared) (known : Known) (n : ℕ) (h : ScopedProgress) (p : Prepared) (xs : List FormOrKept) →
        let g = scoped_work all units known n scoped_before in let s = scoped_start_after all p h in
        IsProgressOutside g h → is_ready all units g.results p ≡ true → map form_of xs ≡ forms_over (Written p.number) p.number 0 (forms_at_work p) → AllKept (forgetting enough_turns) enough_turns known xs s →
        AtTurns (λ v x. ImportsOthers v.state) (λ v r. ImportsOthers v.state) (forgetting enough_turns) known xs s }
    ensures first { (way : Way) (known : Known) (ys zs : List FormOrKept) (x : FormOrKept) (s : ScopedState) → AtTurns (λ v x. ImportsOthers v.state) (λ v r. ImportsOthers v.state) way known (ys ++ x ∷ zs) s →
        AtFirst (λ v. ImportsOthers v.state) way known ys x zs s }
    ensures second { (way : Way) (known : Known) (xs : List FormOrKept) (s : ScopedState) → AtTurns (λ v x. ImportsOthers v.state) (λ v r. ImportsOthers v.state) way known xs s → let fs = numbers_of xs in
        Onwards (λ ls t. (rs : List LeftOrKept) (r : LeftOrKept) (qs : List LeftOrKept) → ls ≡ rs ++ r ∷ qs → Onwards (λ ps u. ImportsOthers (around_form known r.form [] u).state) (seconds_by way known fs rs t)) (firsts_by way known fs xs [] s) }
{}
