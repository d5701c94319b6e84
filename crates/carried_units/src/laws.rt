//! Laws of the definitions. Each is the contract of a function that does nothing.
ghost use Rattle.std.specs.Prelude.{◌≡◌, ◌<◌, ◌≤◌, ℕ, List, map, length, Bool, true, Option, Some, None};
ghost use Rattle.scheme_model.specs.Ident.{Written};
ghost use Rattle.scheme_model.specs.UnitExpansion.{Formed};
ghost use Rattle.scheme_model.specs.Program.{Prepared, known_in, units_of, prepare, fault_before, is_ready, first_ready, enough_turns, forms_at_work};
ghost use Rattle.scheme_model.specs.ScopedProgram.{ScopedProgress, scoped_work, scoped_before, forms_over, scoped_unit_over, scoped_start_after};
ghost use Rattle.form_laws.specs.Begins.{Each};
ghost use Rattle.kept_forms.specs.KeptForms.{FormOrKept, form_of};
ghost use Rattle.kept_forms.specs.KeptPrograms.{Keeping};
ghost use Rattle.forgotten_locals.specs.Ways.{forgetting, AtTurns, AllKept};
ghost use Rattle.forgotten_locals.specs.Programs.{IsProgressOutside, AtUnits, forgetting_worked, units_sum, uses_forgetting};
ghost use Rattle.carried_forms.specs.Worked.{WorkedUnit, OpenDocument, read_documents, worked_unit, units_at_work};
ghost use Rattle.carried_forms.specs.Carried.{IsIn, carried, work};
ghost use Rattle.carried_laws.specs.CarriedEntries.{IsKeptWhole, KeepsAll};
ghost use Rattle.answers_at_turns.specs.Had.{Had, KeepsFirst, KeepsLater, AreKept};
ghost use Rattle.carried_units.specs.Entries.{CarriedHave, AllHave, KeepsAnswers};

/// Work goes through each unit that has a carried form. So where at each turn of it all is kept that has its answers there, and each carried form has an
/// entry that has them where the form is worked on, all carried forms are kept whole (R7RS 4.3, 5.3): all those of a program, where so it is in each unit
/// that is worked on.
pub fn carried_forms_are_kept_whole()
    ensures went { (before after : List OpenDocument) (n f : ℕ) (p : Prepared) →
        let ds = read_documents after in let all = units_of ds in let units = prepare all 0 all in let known = known_in ds in let a = scoped_work all units known n scoped_before in
        n < length units → first_ready (is_ready all units a.results) units ≡ Some p → fault_before all units p ≡ None → IsIn (p.number, f) (carried before after) →
        (fs : List Formed) × ((scoped_unit_over known p (scoped_start_after all p a)).0 ≡ Some fs) }
    ensures unit { (before after : List OpenDocument) (n : ℕ) (h : ScopedProgress) (p : Prepared) (xs : List FormOrKept) (had : ℕ → Option Had) (kept_first : ℕ → Bool) →
        let ds = read_documents after in let all = units_of ds in let units = prepare all 0 all in let known = known_in ds in let a = scoped_work all units known n scoped_before in
        let s = scoped_start_after all p h in let way = forgetting enough_turns in
        n < length units → first_ready (is_ready all units a.results) units ≡ Some p → fault_before all units p ≡ None → IsProgressOutside a h →
        map form_of xs ≡ forms_over (Written p.number) p.number 0 (forms_at_work p) → AllKept way enough_turns known xs s → AreKept kept_first xs → AtTurns (KeepsFirst had) (KeepsLater had kept_first) way known xs s →
        CarriedHave before after p.number s.program had (worked_unit known p (scoped_start_after all p a)).forms →
        Each (λ (x : FormOrKept). IsIn (p.number, x.form) (carried before after) → IsKeptWhole x.kept) xs }
    ensures all { (before after : List OpenDocument) (keep : Keeping) →
        Each (λ (w : WorkedUnit). Each (λ (x : FormOrKept). IsIn (w.number, x.form) (carried before after) → IsKeptWhole x.kept) (keep w.number)) (units_at_work (read_documents after)) → KeepsAll (carried before after) keep }
{}

/// Where in each unit of a program all is kept that has its answers where the turns of its forms come, and each carried form has an entry that has them where
/// the form is worked on, all carried forms are kept whole (R7RS 4.3, 5.3). So no more macro uses of forms that aren't kept are worked, while what is local
/// is forgotten, than the work of the event.
pub fn programs_that_keep_all_stay_within_work()
    ensures keeps { (before after : List OpenDocument) (keep : Keeping) (had : ℕ → ℕ → Option Had) (kept_first : ℕ → ℕ → Bool) → let ds = read_documents after in let all = units_of ds in let units = prepare all 0 all in let known = known_in ds in
        AtUnits all units (KeepsAnswers known keep had kept_first) (forgetting_worked all units known keep) (length units) scoped_before → AllHave before after had → KeepsAll (carried before after) keep }
    ensures worked { (before after : List OpenDocument) (keep : Keeping) (had : ℕ → ℕ → Option Had) (kept_first : ℕ → ℕ → Bool) → let ds = read_documents after in let all = units_of ds in let units = prepare all 0 all in let known = known_in ds in
        AtUnits all units (KeepsAnswers known keep had kept_first) (forgetting_worked all units known keep) (length units) scoped_before → AllHave before after had →
        units_sum all units (uses_forgetting known keep) (forgetting_worked all units known keep) (length units) scoped_before ≤ work before after }
{}
