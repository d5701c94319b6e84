//! Laws of the definitions. Each is the contract of a function that does nothing.
ghost use Rattle.std.specs.Prelude.{◌≡◌, ◌↔◌, ℕ, true, List, [], ◌∷◌, ◌++◌, map, Result};
ghost use Rattle.scheme_model.specs.Ident.{Ident as Identifier, Written};
ghost use Rattle.scheme_model.specs.Trees.{Tree};
ghost use Rattle.scheme_model.specs.Steps.{Broken};
ghost use Rattle.scheme_model.specs.Order.{Left};
ghost use Rattle.scheme_model.specs.Requirements.{Known};
ghost use Rattle.scheme_model.specs.Questions.{Around, SameAnswer};
ghost use Rattle.scheme_model.specs.FormsAlike.{questions_of_pass, questions_of_left};
ghost use Rattle.scheme_model.specs.IncludedUnits.{Placed};
ghost use Rattle.scheme_model.specs.Program.{Prepared, is_ready, enough_turns, forms_at_work};
ghost use Rattle.scheme_model.specs.ScopedProgram.{ScopedProgress, scoped_work, scoped_before, forms_over, scoped_start_after};
ghost use Rattle.form_laws.specs.Begins.{Each, Begins};
ghost use Rattle.kept_forms.specs.KeptForms.{FormOrKept, LeftOrKept, form_of, around_form, numbers_of};
ghost use Rattle.kept_forms.specs.Carried.{Onwards};
ghost use Rattle.forgotten_locals.specs.Ways.{forgetting, firsts_by, seconds_by, AllKept};
ghost use Rattle.forgotten_locals.specs.Programs.{IsProgressOutside};
ghost use Rattle.carried_forms.specs.Worked.{WorkedForm, worked_unit};
ghost use Rattle.carried_forms.specs.Carried.{IsIn};
ghost use Rattle.kept_turns.specs.Turns.{AtFirst};
ghost use Rattle.turns_at_work.specs.AtTurn.{IsAroundOutside};

/// Where some forms of a unit are kept, and what is local is forgotten, each turn of a form that comes has around it what the form has around it at
/// that turn where all forms are expanded, but for what is local (R7RS 4.3, 5.1, 5.3). So what a form asks has its answers at one where it has
/// them at the other.
pub fn turns_are_at_work()
    ensures first { (all : List Placed) (units : List Prepared) (known : Known) (n : ℕ) (h : ScopedProgress) (p : Prepared) (ys zs : List FormOrKept) (x : FormOrKept) (g : WorkedForm) →
        let a = scoped_work all units known n scoped_before in let s = scoped_start_after all p h in let xs = ys ++ x ∷ zs in
        IsProgressOutside a h → is_ready all units a.results p ≡ true → map form_of xs ≡ forms_over (Written p.number) p.number 0 (forms_at_work p) → AllKept (forgetting enough_turns) enough_turns known xs s →
        IsIn g (worked_unit known p (scoped_start_after all p a)).forms → g.form ≡ x.form → AtFirst (λ v. IsAroundOutside g.around v) (forgetting enough_turns) known ys x zs s }
    ensures second { (all : List Placed) (units : List Prepared) (known : Known) (n : ℕ) (h : ScopedProgress) (p : Prepared) (xs : List FormOrKept) (g : WorkedForm) →
        let a = scoped_work all units known n scoped_before in let s = scoped_start_after all p h in let fs = numbers_of xs in
        IsProgressOutside a h → is_ready all units a.results p ≡ true → map form_of xs ≡ forms_over (Written p.number) p.number 0 (forms_at_work p) → AllKept (forgetting enough_turns) enough_turns known xs s →
        IsIn g (worked_unit known p (scoped_start_after all p a)).forms →
        Onwards (λ ls t. (rs : List LeftOrKept) (r : LeftOrKept) (qs : List LeftOrKept) → ls ≡ rs ++ r ∷ qs → Onwards (λ ps u. g.form ≡ r.form → IsAroundOutside g.later (around_form known r.form [] u)) (seconds_by (forgetting enough_turns) known fs rs t)) (firsts_by (forgetting enough_turns) known fs xs [] s) }
    ensures pass { (w g v : Around) (turns : ℕ) (t : Tree Identifier) → IsAroundOutside g v → Begins w.state → Begins g.state → Each (SameAnswer w v) (questions_of_pass w turns t) ↔ Each (SameAnswer w g) (questions_of_pass w turns t) }
    ensures left { (w g v : Around) (turns : ℕ) (r : Result (Left Identifier) Broken) → IsAroundOutside g v → Begins w.state → Begins g.state → Each (SameAnswer w v) (questions_of_left w turns r) ↔ Each (SameAnswer w g) (questions_of_left w turns r) }
{}
