//! Laws of the definitions. Each is the contract of a function that does nothing.
ghost use Rattle.std.specs.Prelude.{◌≡◌, ◌↔◌, ℕ, true, false, List, map, Option, Some, None, Ok};
ghost use Rattle.scheme_model.specs.Ident.{Ident as Identifier, Written};
ghost use Rattle.scheme_model.specs.Trees.{Tree};
ghost use Rattle.scheme_model.specs.Meaning.{Standard};
ghost use Rattle.scheme_model.specs.Order.{Left, is_some};
ghost use Rattle.scheme_model.specs.Requirements.{Known};
ghost use Rattle.scheme_model.specs.ScopedExpansion.{ScopedState};
ghost use Rattle.scheme_model.specs.Questions.{Around, Moment, Question, SameAnswer};
ghost use Rattle.scheme_model.specs.IncludedUnits.{Placed};
ghost use Rattle.scheme_model.specs.Program.{Prepared, is_ready, fault_before, result_at, enough_turns, forms_at_work, prelude_unit};
ghost use Rattle.scheme_model.specs.ScopedProgram.{ScopedProgress, scoped_work, scoped_before, forms_over, scoped_start_after};
ghost use Rattle.scheme_model.specs.FormsAlike.{start, set_aside_asking, questions_of_pass, questions_of_left};
ghost use Rattle.form_laws.specs.Begins.{Each, FormBegins, LeftBegins};
ghost use Rattle.question_laws.specs.Noted.{all_noted, IsClosed};
ghost use Rattle.kept_forms.specs.KeptForms.{KeptParts, FormOrKept, form_of};
ghost use Rattle.kept_forms.specs.Carried.{kept_aside, kept_parts, kept_form, no_counts};
ghost use Rattle.forgotten_locals.specs.Ways.{anew, forgetting, AllKept};
ghost use Rattle.forgotten_locals.specs.Programs.{IsProgressOutside};
ghost use Rattle.mentioned_units.specs.Mentioned.{Mask, NoteIn, Mentions, IsMentioned, IsRestMentioned, AllMentioned};
ghost use Rattle.mentioned_units.specs.Unchanged.{macro_of, in_progress, IsUnchanged, Unchanged, HasNothing, KnowsSame, SameSoFar};

/// A question that mentions some units alone has the same answer in two surroundings in which each of these is the same (R7RS 4.3, 5.2, 5.3): it
/// defines the same identifiers, of which the same are keywords, and imports the same, and its macros have the same rules. Whether a library is
/// known is asked by its name alone; whether a definition is an assignment, and how one ends, of the form's own unit, and the latter of
/// the unit's notes too.
pub fn answers_are_told_by_units()
    ensures { (mask : Mask) (w v : Around) (q : Moment × Question) → SameSoFar mask w v → Mentions mask w q → SameAnswer w v q }
{}

/// A unit of a program of which each form is kept, and mentions some units alone, keeps all its forms in another program in which it has the same
/// forms, and each of these units is the same where it begins (R7RS 5.1). So it does again, by the same units: no form of it has to be looked at.
/// It is all one whether what is local is forgotten; and what a form comes to where it is expanded mentions what its noted questions do.
pub fn units_keep_their_forms()
    ensures mentioned { (mask : Mask) (all there : List Placed) (units others : List Prepared) (known knows : Known) (n m : ℕ) (p q : Prepared) (xs : List FormOrKept) →
        let g = scoped_work all units known n scoped_before in let h = scoped_work there others knows m scoped_before in let s = scoped_start_after all p g in let t = scoped_start_after there q h in
        is_ready all units g.results p ≡ true → is_ready there others h.results q ≡ true →
        map form_of xs ≡ forms_over (Written p.number) p.number 0 (forms_at_work p) → map form_of xs ≡ forms_over (Written q.number) q.number 0 (forms_at_work q) →
        Unchanged mask s t → KnowsSame mask known knows → AllMentioned mask (anew enough_turns) enough_turns known xs s → AllMentioned mask (anew enough_turns) enough_turns knows xs t }
    ensures kept { (mask : Mask) (turns : ℕ) (known : Known) (xs : List FormOrKept) (s : ScopedState) → AllMentioned mask (anew turns) turns known xs s → AllKept (anew turns) turns known xs s }
    ensures forgetting { (mask : Mask) (all : List Placed) (units : List Prepared) (known : Known) (n : ℕ) (h : ScopedProgress) (p : Prepared) (xs : List FormOrKept) →
        let g = scoped_work all units known n scoped_before in
        IsProgressOutside g h → is_ready all units g.results p ≡ true → map form_of xs ≡ forms_over (Written p.number) p.number 0 (forms_at_work p) →
        AllMentioned mask (forgetting enough_turns) enough_turns known xs (scoped_start_after all p h) ↔ AllMentioned mask (anew enough_turns) enough_turns known xs (scoped_start_after all p g) }
    ensures expanded { (mask : Mask) (v : Around) (turns : ℕ) (t : Tree Identifier) (parts : Option KeptParts) → start v.state ≡ no_counts → FormBegins v t → IsClosed v.state →
        Each (Mentions mask v) (all_noted v (questions_of_pass v turns t)) → Each (NoteIn mask) (set_aside_asking v turns t).0.notes → IsMentioned mask turns v t (Some (kept_form (kept_aside v turns t) parts)) }
    ensures rest_expanded { (mask : Mask) (v : Around) (turns before : ℕ) (l : Left Identifier) → LeftBegins v l → IsClosed v.state →
        Each (Mentions mask v) (all_noted v (questions_of_left v turns (Ok l))) → IsRestMentioned mask turns v (Ok l) (Some (kept_parts v turns before l)) }
{}

/// What a unit is to others stays as it is once it was worked on (R7RS 5.2, 5.3), and so do the prelude and the macros of standard names; a unit that
/// wasn't worked on yet has nothing. So a unit begins where all that it mentions is the same in two programs, if it imports the same in both and
/// each other unit that it mentions is the same in what was worked on before it.
pub fn other_units_stay()
    ensures stay { (all : List Placed) (units : List Prepared) (known : Known) (n m u : ℕ) → let g = scoped_work all units known n scoped_before in
        is_some (result_at g.results u) ≡ true → IsUnchanged u (in_progress g) (in_progress (scoped_work all units known m g)) }
    ensures prelude { (all : List Placed) (units : List Prepared) (known : Known) (n : ℕ) → IsUnchanged prelude_unit (in_progress scoped_before) (in_progress (scoped_work all units known n scoped_before)) }
    ensures standard { (all : List Placed) (units : List Prepared) (known : Known) (n : ℕ) (x : List ℕ) → macro_of (scoped_work all units known n scoped_before).macros (Standard x) ≡ macro_of scoped_before.macros (Standard x) }
    ensures nothing { (all : List Placed) (units : List Prepared) (known : Known) (n u : ℕ) → let g = scoped_work all units known n scoped_before in
        is_some (result_at g.results u) ≡ false → (u ≡ prelude_unit → ⊥) → HasNothing u (in_progress g) }
    ensures starts { (mask : Mask) (all there : List Placed) (units others : List Prepared) (known knows : Known) (n m : ℕ) (p q : Prepared) →
        let g = scoped_work all units known n scoped_before in let h = scoped_work there others knows m scoped_before in let s = scoped_start_after all p g in let t = scoped_start_after there q h in
        is_ready all units g.results p ≡ true → is_ready there others h.results q ≡ true → fault_before all units p ≡ None →
        t.unit ≡ s.unit → t.program ≡ s.program → ((x : List ℕ) → t.entry t.unit x ≡ s.entry s.unit x) →
        ((u : ℕ) → mask.units u ≡ true → (u ≡ s.unit → ⊥) → IsUnchanged u (in_progress g) (in_progress h)) → Unchanged mask s t }
{}
