//! Laws of the definitions. Each is the contract of a function that does nothing.
ghost use Rattle.std.specs.Prelude.{◌≡◌, ◌↔◌, ℕ, List, map, Bool, true, Option, Some, Ok};
ghost use Rattle.scheme_model.specs.Substitution.{definition_count};
ghost use Rattle.scheme_model.specs.Program.{Prepared, is_ready, enough_turns, forms_at_work};
ghost use Rattle.scheme_model.specs.Questions.{Around, SameAnswer};
ghost use Rattle.scheme_model.specs.Order.{Left};
ghost use Rattle.scheme_model.specs.Ident.{Ident as Identifier, Written};
ghost use Rattle.scheme_model.specs.Requirements.{Known};
ghost use Rattle.scheme_model.specs.UnitExpansion.{Formed};
ghost use Rattle.scheme_model.specs.ScopedExpansion.{ScopedState};
ghost use Rattle.scheme_model.specs.IncludedUnits.{Placed};
ghost use Rattle.scheme_model.specs.ScopedProgram.{ScopedProgress, scoped_work, scoped_before, forms_over, scoped_start_after};
ghost use Rattle.scheme_model.specs.FormsAlike.{questions_of_pass, questions_of_left};
ghost use Rattle.form_laws.specs.Begins.{Each};
ghost use Rattle.question_laws.specs.Noted.{IsClosed};
ghost use Rattle.kept_forms.specs.KeptForms.{KeptForm, KeptParts, FormOrKept, form_of};
ghost use Rattle.kept_forms.specs.Carried.{kept_form, kept_parts};
ghost use Rattle.forgotten_locals.specs.Ways.{forgetting, unit_by, AtTurns, AllKept};
ghost use Rattle.forgotten_locals.specs.Programs.{IsProgressOutside};
ghost use Rattle.carried_forms.specs.Worked.{WorkedForm, worked_unit};
ghost use Rattle.carried_forms.specs.Carried.{IsIn};
ghost use Rattle.carried_laws.specs.AtWork.{IsAtWork};
ghost use Rattle.carried_laws.specs.CarriedEntries.{came_to, IsKeptWhole};
ghost use Rattle.carried_laws.specs.Entries.{StandsFor, RestAnswers, HasAnswers};
ghost use Rattle.turns_at_work.specs.AtTurn.{IsAroundOutside};
ghost use Rattle.answers_at_turns.specs.Had.{Had, HadStands, HasFirst, HasLater, OnlyFirst, OnlyLater, KeepsFirst, KeepsLater, AreKept, FirstIs, LaterIs, at_turns};

/// What is noted of what was kept of a form has its answers where the form's turns come just where all that was asked has its answers at the form that
/// is worked on (R7RS 4.3, 5.3), though what is local is forgotten there.
pub fn notes_tell_at_turns()
    ensures first { (n : ℕ) (program : Bool) (h : Had) (g : WorkedForm) (v : Around) → HadStands n program (g.form, g.tree) h → IsAtWork n g → IsAroundOutside g.around v → IsClosed v.state → v.state.program ≡ program →
        HasFirst h (g.form, g.tree) v ↔ Each (SameAnswer h.first g.around) (questions_of_pass h.first enough_turns g.tree) }
    ensures later { (n : ℕ) (program : Bool) (h : Had) (g : WorkedForm) (v : Around) → HadStands n program (g.form, g.tree) h → IsAtWork n g → Each (SameAnswer h.first g.around) (questions_of_pass h.first enough_turns g.tree) →
        IsAroundOutside g.later v → IsClosed v.state → v.state.program ≡ program → HasLater h v ↔ RestAnswers h.later g.later h.kept.parts }
{}

/// What a form comes to where its turns come is an entry, of which all that was asked has its answers at the form that is worked on (R7RS 4.3, 5.3): where
/// all of it is expanded, and where its second part alone is, behind a first part that was kept.
pub fn turns_stand_for_their_forms()
    ensures form { (n : ℕ) (g : WorkedForm) (v u : Around) → IsAtWork n g → IsAroundOutside g.around v → IsAroundOutside g.later u → IsAtWork n (at_turns g v u) }
    ensures entry { (n : ℕ) (g : WorkedForm) (v u : Around) → IsAtWork n g → IsAroundOutside g.around v → IsAroundOutside g.later u → let k = came_to (at_turns g v u) in
        StandsFor n (g.form, g.tree) k v u × HasAnswers (g.form, g.tree) k v u g }
    ensures rest { (n : ℕ) (program : Bool) (h : Had) (g : WorkedForm) (u : Around) (l : Left Identifier) → HadStands n program (g.form, g.tree) h → IsAtWork n g → Each (SameAnswer h.first g.around) (questions_of_pass h.first enough_turns g.tree) →
        IsAroundOutside g.later u → g.left ≡ Ok l → let k = kept_form h.kept.aside (Some (kept_parts u enough_turns (definition_count g.around.state.table g.around.state.unit) l)) in
        StandsFor n (g.form, g.tree) k h.first u × HasAnswers (g.form, g.tree) k h.first u g }
{}

/// Where work on a unit went through, and at each turn all was kept that has its answers there, each form of which what was kept has its answers at the form
/// that is worked on is kept whole (R7RS 4.3, 5.3). And where only what has its answers was kept, all that was asked has its answers there.
pub fn what_has_its_answers_is_kept()
    ensures whole { (all : List Placed) (units : List Prepared) (known : Known) (n : ℕ) (h : ScopedProgress) (p : Prepared) (xs : List FormOrKept) (had : ℕ → Option Had) (kept_first : ℕ → Bool) (fs : List Formed) (end : ScopedState) (x : FormOrKept) (g : WorkedForm) (b : Had) →
        let a = scoped_work all units known n scoped_before in let s = scoped_start_after all p h in let way = forgetting enough_turns in
        IsProgressOutside a h → is_ready all units a.results p ≡ true → map form_of xs ≡ forms_over (Written p.number) p.number 0 (forms_at_work p) → AllKept way enough_turns known xs s → unit_by way known xs s ≡ (Some fs, end) →
        AtTurns (KeepsFirst had) (KeepsLater had kept_first) way known xs s → AreKept kept_first xs → IsIn x xs → IsIn g (worked_unit known p (scoped_start_after all p a)).forms → g.form ≡ x.form → had x.form ≡ Some b → HadStands p.number s.program (form_of x) b →
        HasAnswers (form_of x) b.kept b.first b.later g → IsKeptWhole x.kept }
    ensures only { (all : List Placed) (units : List Prepared) (known : Known) (n : ℕ) (h : ScopedProgress) (p : Prepared) (xs : List FormOrKept) (had : ℕ → Option Had) (fs : List Formed) (end : ScopedState) (x : FormOrKept) (g : WorkedForm) (b : Had) (d : KeptForm) →
        let a = scoped_work all units known n scoped_before in let s = scoped_start_after all p h in let way = forgetting enough_turns in
        IsProgressOutside a h → is_ready all units a.results p ≡ true → map form_of xs ≡ forms_over (Written p.number) p.number 0 (forms_at_work p) → AllKept way enough_turns known xs s → unit_by way known xs s ≡ (Some fs, end) →
        AtTurns (OnlyFirst had) (OnlyLater had) way known xs s → IsIn x xs → IsIn g (worked_unit known p (scoped_start_after all p a)).forms → g.form ≡ x.form → had x.form ≡ Some b → HadStands p.number s.program (form_of x) b →
        x.kept ≡ Some d → Each (SameAnswer b.first g.around) (questions_of_pass b.first enough_turns x.tree) × ((c : KeptParts) → d.parts ≡ Some c → HasAnswers (form_of x) b.kept b.first b.later g) }
{}

/// Where work on a unit went through, and what there is of each form behind its turns came there, or has its answers there, all that was asked has its answers at
/// the form that is worked on (R7RS 4.3, 5.3): for forms that are kept, for those of which the second part alone is expanded, and for those that are expanded.
pub fn turns_leave_entries()
    ensures { (all : List Placed) (units : List Prepared) (known : Known) (n : ℕ) (h : ScopedProgress) (p : Prepared) (xs : List FormOrKept) (now : ℕ → Option Had) (fs : List Formed) (end : ScopedState) (x : FormOrKept) (g : WorkedForm) (b : Had) →
        let a = scoped_work all units known n scoped_before in let s = scoped_start_after all p h in let way = forgetting enough_turns in
        IsProgressOutside a h → is_ready all units a.results p ≡ true → map form_of xs ≡ forms_over (Written p.number) p.number 0 (forms_at_work p) → AllKept way enough_turns known xs s → unit_by way known xs s ≡ (Some fs, end) →
        AtTurns (FirstIs now) (LaterIs now) way known xs s → IsIn x xs → IsIn g (worked_unit known p (scoped_start_after all p a)).forms → g.form ≡ x.form → now x.form ≡ Some b → HadStands p.number s.program (form_of x) b →
        HasAnswers (form_of x) b.kept b.first b.later g }
{}
