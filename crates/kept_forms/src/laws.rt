//! Laws of the definitions. Each is the contract of a function that does nothing.
ghost use Rattle.std.specs.Prelude.{◌≡◌, ℕ, true, List, map, length, Option, Some, Ok};
ghost use Rattle.scheme_model.specs.Ident.{Ident as Identifier, Written};
ghost use Rattle.scheme_model.specs.Trees.{Tree};
ghost use Rattle.scheme_model.specs.Order.{Left};
ghost use Rattle.scheme_model.specs.Substitution.{definition_count};
ghost use Rattle.scheme_model.specs.Questions.{Around};
ghost use Rattle.scheme_model.specs.FormsAlike.{set_aside, start};
ghost use Rattle.form_laws.specs.Begins.{FormBegins, LeftBegins};
ghost use Rattle.scheme_model.specs.Requirements.{Known};
ghost use Rattle.scheme_model.specs.Includes.{Document};
ghost use Rattle.scheme_model.specs.IncludedUnits.{Placed};
ghost use Rattle.scheme_model.specs.Program.{known_in, units_of, prepare, program_of, Prepared, is_ready, enough_turns, forms_at_work};
ghost use Rattle.scheme_model.specs.ScopedProgram.{ScopedProgress, scoped_work, scoped_before, forms_over, scoped_unit_over, scoped_start_after};
ghost use Rattle.kept_forms.specs.KeptForms.{KeptAside, KeptParts, FormOrKept, form_of, put_aside, counts_at, unit_keeping};
ghost use Rattle.kept_forms.specs.Carried.{kept_aside, kept_parts, kept_form, no_counts, PassKept, RestKept, FormFits, UnitKept, UnitBegins, Onwards, SameWork};
ghost use Rattle.kept_forms.specs.Worked.{unit_worked, uses_not_kept, UsesTold};
ghost use Rattle.kept_forms.specs.KeptPrograms.{Keeping, kept_work, kept_program_of, ProgramKeeps, program_worked, program_not_kept, SameProgress};

/// A unit of a program of which some forms are kept comes to what it comes to where every form is expanded (R7RS 4.3, 5.1, 5.3), as long as
/// the questions of each kept form have their answers where its turn comes: it goes through the same, each form to the same parts or the
/// same fault, with the same counts, keywords and uses; and where the counts come to too many nodes, work ends in the same form, behind the
/// same item. Each form may begin where its turn comes, so what it comes to there may be kept in turn. The unit begins where the units
/// before it left the same but for the times at which bodies were entered.
pub fn kept_forms_come_to_the_same()
    ensures same { (all : List Placed) (units : List Prepared) (known : Known) (n : ℕ) (h : ScopedProgress) (p : Prepared) (xs : List FormOrKept) →
        let g = scoped_work all units known n scoped_before in let s = scoped_start_after all p h in
        SameProgress h g → is_ready all units g.results p ≡ true → map form_of xs ≡ forms_over (Written p.number) p.number 0 (forms_at_work p) → UnitKept known enough_turns xs s →
        SameWork (unit_keeping known enough_turns xs s) (scoped_unit_over known p (scoped_start_after all p g)) }
    ensures begins { (all : List Placed) (units : List Prepared) (known : Known) (n : ℕ) (h : ScopedProgress) (p : Prepared) (xs : List FormOrKept) →
        let g = scoped_work all units known n scoped_before in let s = scoped_start_after all p h in
        SameProgress h g → is_ready all units g.results p ≡ true → map form_of xs ≡ forms_over (Written p.number) p.number 0 (forms_at_work p) → UnitKept known enough_turns xs s →
        UnitBegins known enough_turns xs s }
{}

/// As many macro uses are worked in it as the forms that aren't kept have counted where every form is expanded; of a form that is kept in
/// its first part alone, those of the rest. Where work goes through, what the forms have counted is what they tell.
pub fn kept_forms_are_not_worked()
    ensures worked { (all : List Placed) (units : List Prepared) (known : Known) (n : ℕ) (h : ScopedProgress) (p : Prepared) (xs : List FormOrKept) →
        let g = scoped_work all units known n scoped_before in let s = scoped_start_after all p h in
        SameProgress h g → is_ready all units g.results p ≡ true → map form_of xs ≡ forms_over (Written p.number) p.number 0 (forms_at_work p) → UnitKept known enough_turns xs s →
        unit_worked known enough_turns xs s ≡ uses_not_kept xs (scoped_unit_over known p (scoped_start_after all p g)).1 }
    ensures told { (all : List Placed) (units : List Prepared) (known : Known) (n : ℕ) (h : ScopedProgress) (p : Prepared) (xs : List FormOrKept) →
        let g = scoped_work all units known n scoped_before in let s = scoped_start_after all p h in
        SameProgress h g → is_ready all units g.results p ≡ true → map form_of xs ≡ forms_over (Written p.number) p.number 0 (forms_at_work p) → UnitKept known enough_turns xs s →
        Onwards (λ rs t. UsesTold rs t) (scoped_unit_over known p (scoped_start_after all p g)) }
{}

/// A program of which some forms are kept is the program (R7RS 5), as long as the questions of each kept form have their answers where its
/// turn comes, and so it is after each of its units. As many macro uses are worked in all its units as the forms that aren't kept count.
pub fn kept_programs_are_programs()
    ensures progress { (all : List Placed) (units : List Prepared) (known : Known) (keep : Keeping) (n : ℕ) → ProgramKeeps all units known keep n scoped_before →
        SameProgress (kept_work all units known keep n scoped_before) (scoped_work all units known n scoped_before) }
    ensures program { (documents : List Document) (keep : Keeping) → let all = units_of documents in let units = prepare all 0 all in
        ProgramKeeps all units (known_in documents) keep (length units) scoped_before → kept_program_of keep documents ≡ program_of documents }
    ensures worked { (all : List Placed) (units : List Prepared) (known : Known) (keep : Keeping) (n : ℕ) → ProgramKeeps all units known keep n scoped_before →
        program_worked all units known keep n scoped_before ≡ program_not_kept all units known keep n scoped_before }
{}

/// What a form comes to where it may begin may be kept from there: what it set aside and noted, and what that was expanded to, if its turn came
/// again with what it had counted; so may the rest where the first part was kept already.
pub fn forms_may_be_kept()
    ensures pass { (w : Around) (turns : ℕ) (t : Tree Identifier) (parts : Option KeptParts) → start w.state ≡ no_counts → FormBegins w t → PassKept w turns t (Some (kept_form (kept_aside w turns t) parts)) }
    ensures rest { (w : Around) (turns before : ℕ) (l : Left Identifier) → LeftBegins w l → RestKept w turns (Some (kept_parts w turns before l)) }
    ensures fits { (w v : Around) (turns : ℕ) (t : Tree Identifier) (l : Left Identifier) → FormBegins w t → (set_aside w turns t).0.left ≡ Ok l → start v.state ≡ counts_at w.state.form (set_aside w turns t).1 →
        FormFits (Some (kept_form (kept_aside w turns t) (Some (kept_parts v turns (definition_count w.state.table w.state.unit) l)))) }
    ensures fits_again { (w v : Around) (turns : ℕ) (k : KeptAside) (l : Left Identifier) → (put_aside w k).0.left ≡ Ok l → start v.state ≡ counts_at w.state.form (put_aside w k).1 →
        FormFits (Some (kept_form k (Some (kept_parts v turns (definition_count w.state.table w.state.unit) l)))) }
{}
