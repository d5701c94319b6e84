//! Laws of the definitions. Each is the contract of a function that does nothing.
ghost use Rattle.std.specs.Prelude.{◌≡◌, ◌↔◌, ℕ, true, List, map, length, Option, Result};
ghost use Rattle.scheme_model.specs.Ident.{Ident as Identifier, Written};
ghost use Rattle.scheme_model.specs.Trees.{Tree};
ghost use Rattle.scheme_model.specs.Steps.{Broken};
ghost use Rattle.scheme_model.specs.Order.{Left};
ghost use Rattle.scheme_model.specs.Requirements.{Known};
ghost use Rattle.scheme_model.specs.Questions.{Around, Moment, SameAnswer};
ghost use Rattle.scheme_model.specs.FormsAlike.{questions_of_pass, questions_of_left, set_aside};
ghost use Rattle.scheme_model.specs.Includes.{Document};
ghost use Rattle.scheme_model.specs.IncludedUnits.{Placed};
ghost use Rattle.scheme_model.specs.Program.{known_in, units_of, prepare, program_of, Prepared, is_ready, enough_turns, forms_at_work};
ghost use Rattle.scheme_model.specs.ScopedProgram.{ScopedProgress, scoped_work, scoped_worked, scoped_before, forms_over, scoped_unit_over, scoped_start_after};
ghost use Rattle.form_laws.specs.Begins.{Each, Begins, FormBegins, RestBegins};
ghost use Rattle.kept_forms.specs.KeptForms.{FormOrKept, KeptForm, KeptParts, form_of};
ghost use Rattle.kept_forms.specs.Carried.{UnitKept, PassKept, RestKept};
ghost use Rattle.kept_forms.specs.KeptPrograms.{Keeping, ProgramKeeps, program_not_kept, SameProgress};
ghost use Rattle.forgotten_locals.specs.Outside.{IsOutside, around_outside, ForgetsLocals};
ghost use Rattle.forgotten_locals.specs.Ways.{anew, forgetting, unit_by, AtTurns, AllKept, AllBegin};
ghost use Rattle.forgotten_locals.specs.Programs.{forgetting_work, forgetting_worked, forgetting_program_of, AtUnits, UnitIsKept, units_sum, uses_forgetting, IsProgressOutside};

/// What is local is asked of nothing that is around a form (R7RS 4.3, 5.3): whatever the form asks has the same answer where it is
/// forgotten. So a form may be kept there where it may be kept here, and a form that may begin here may begin there.
pub fn what_is_local_is_not_asked()
    ensures pass { (w v : Around) (turns : ℕ) (t : Tree Identifier) → Begins w.state → Begins v.state →
        Each (SameAnswer w (around_outside v)) (questions_of_pass w turns t) ↔ Each (SameAnswer w v) (questions_of_pass w turns t) }
    ensures left { (w v : Around) (turns : ℕ) (r : Result (Left Identifier) Broken) → Begins w.state → Begins v.state →
        Each (SameAnswer w (around_outside v)) (questions_of_left w turns r) ↔ Each (SameAnswer w v) (questions_of_left w turns r) }
    ensures pass_kept { (v : Around) (turns : ℕ) (t : Tree Identifier) (k : Option KeptForm) → Begins v.state → PassKept (around_outside v) turns t k ↔ PassKept v turns t k }
    ensures rest_kept { (v : Around) (turns : ℕ) (k : Option KeptParts) → Begins v.state → RestKept (around_outside v) turns k ↔ RestKept v turns k }
    ensures begins { (v : Around) (t : Tree Identifier) → FormBegins v t → FormBegins (around_outside v) t }
    ensures rest_begins { (v : Around) (r : Result (Left Identifier) Broken) → RestBegins v r → RestBegins (around_outside v) r }
{}

/// A unit of a program of which some forms are kept may forget what is local behind each form's turn (R7RS 4.3, 5.1, 5.3). It comes to what
/// it comes to where every form is expanded and nothing is forgotten, and goes to that state outside of all forms. Nothing local is there
/// when a turn comes; each form may begin there, so what it comes to may be kept in turn. What may be kept of a form is told by the unit of
/// which every form is expanded, whatever else is kept, and whether what is local is forgotten or not.
pub fn units_may_forget_what_is_local()
    ensures same { (all : List Placed) (units : List Prepared) (known : Known) (n : ℕ) (h : ScopedProgress) (p : Prepared) (xs : List FormOrKept) →
        let g = scoped_work all units known n scoped_before in let s = scoped_start_after all p h in
        IsProgressOutside g h → is_ready all units g.results p ≡ true → map form_of xs ≡ forms_over (Written p.number) p.number 0 (forms_at_work p) → AllKept (forgetting enough_turns) enough_turns known xs s →
        ForgetsLocals (scoped_unit_over known p (scoped_start_after all p g)) (unit_by (forgetting enough_turns) known xs s) }
    ensures begins { (all : List Placed) (units : List Prepared) (known : Known) (n : ℕ) (h : ScopedProgress) (p : Prepared) (xs : List FormOrKept) →
        let g = scoped_work all units known n scoped_before in let s = scoped_start_after all p h in
        IsProgressOutside g h → is_ready all units g.results p ≡ true → map form_of xs ≡ forms_over (Written p.number) p.number 0 (forms_at_work p) → AllKept (forgetting enough_turns) enough_turns known xs s →
        AllBegin (forgetting enough_turns) known xs s }
    ensures outside { (all : List Placed) (p : Prepared) (known : Known) (turns : ℕ) (g h : ScopedProgress) (xs : List FormOrKept) → IsProgressOutside g h →
        AtTurns (λ v x. IsOutside v.state) (λ v r. IsOutside v.state) (forgetting turns) known xs (scoped_start_after all p h) }
    ensures kept { (all : List Placed) (units : List Prepared) (known : Known) (n : ℕ) (h : ScopedProgress) (p : Prepared) (xs : List FormOrKept) →
        let g = scoped_work all units known n scoped_before in
        IsProgressOutside g h → is_ready all units g.results p ≡ true → map form_of xs ≡ forms_over (Written p.number) p.number 0 (forms_at_work p) →
        AllKept (forgetting enough_turns) enough_turns known xs (scoped_start_after all p h) ↔ AllKept (anew enough_turns) enough_turns known xs (scoped_start_after all p g) }
    ensures kept_there { (all : List Placed) (units : List Prepared) (known : Known) (n : ℕ) (h : ScopedProgress) (p : Prepared) (xs : List FormOrKept) →
        let g = scoped_work all units known n scoped_before in
        SameProgress h g → is_ready all units g.results p ≡ true → map form_of xs ≡ forms_over (Written p.number) p.number 0 (forms_at_work p) →
        UnitKept known enough_turns xs (scoped_start_after all p h) ↔ AllKept (anew enough_turns) enough_turns known xs (scoped_start_after all p g) }
{}

/// So may a program (R7RS 5), and it is the program. What may be kept of its forms is told by the program of which every form is expanded.
pub fn programs_may_forget_what_is_local()
    ensures progress { (all : List Placed) (units : List Prepared) (known : Known) (keep : Keeping) (n : ℕ) → AtUnits all units (UnitIsKept (forgetting enough_turns) known keep) (forgetting_worked all units known keep) n scoped_before →
        IsProgressOutside (scoped_work all units known n scoped_before) (forgetting_work all units known keep n scoped_before) }
    ensures program { (documents : List Document) (keep : Keeping) → let all = units_of documents in let units = prepare all 0 all in let known = known_in documents in
        AtUnits all units (UnitIsKept (forgetting enough_turns) known keep) (forgetting_worked all units known keep) (length units) scoped_before → forgetting_program_of keep documents ≡ program_of documents }
    ensures kept { (all : List Placed) (units : List Prepared) (known : Known) (keep : Keeping) (n : ℕ) →
        AtUnits all units (UnitIsKept (forgetting enough_turns) known keep) (forgetting_worked all units known keep) n scoped_before ↔ AtUnits all units (UnitIsKept (anew enough_turns) known keep) (scoped_worked all units known) n scoped_before }
    ensures kept_there { (all : List Placed) (units : List Prepared) (known : Known) (keep : Keeping) (n : ℕ) →
        ProgramKeeps all units known keep n scoped_before ↔ AtUnits all units (UnitIsKept (anew enough_turns) known keep) (scoped_worked all units known) n scoped_before }
    ensures uses { (all : List Placed) (units : List Prepared) (known : Known) (keep : Keeping) (n : ℕ) → AtUnits all units (UnitIsKept (forgetting enough_turns) known keep) (forgetting_worked all units known keep) n scoped_before →
        units_sum all units (uses_forgetting known keep) (forgetting_worked all units known keep) n scoped_before ≡ program_not_kept all units known keep n scoped_before }
{}
