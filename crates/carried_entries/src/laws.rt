//! Laws of the definitions. Each is the contract of a function that does nothing.
ghost use Rattle.std.specs.Prelude.{ℕ, List, length, Option};
ghost use Rattle.scheme_model.specs.Program.{known_in, units_of, prepare};
ghost use Rattle.scheme_model.specs.ScopedProgram.{scoped_before};
ghost use Rattle.renumbering_laws.specs.Renumbering.{Renumbering};
ghost use Rattle.renumbering_laws.specs.NewSurroundings.{HasOldNumbers};
ghost use Rattle.kept_forms.specs.KeptPrograms.{Keeping};
ghost use Rattle.forgotten_locals.specs.Programs.{AtUnits, forgetting_worked};
ghost use Rattle.carried_forms.specs.Worked.{OpenDocument, AreOpenOnce, read_documents};
ghost use Rattle.carried_laws.specs.Homes.{HomesGoOn};
ghost use Rattle.carried_laws.specs.CarriedOver.{pairs_between, numbers_between, prepared_of, AllHomesGoOn};
ghost use Rattle.agreeing_numbers.specs.Following.{Follows};
ghost use Rattle.answers_at_turns.specs.Had.{Had};
ghost use Rattle.carried_units.specs.Entries.{AllHave};
ghost use Rattle.carried_entries.specs.NewEntries.{AllHad, EntriesGoOn, LeavesEntries};

/// Where each form that goes on had an entry of which all that was asked has its answers, so has each carried form in the next program, under any numbers
/// that tell the old ones, send these forms to where they go on, and follow those of the event wherever these lead to what is there then (R7RS 4.3, 5.3).
pub fn entries_of_carried_forms_go_on()
    ensures { (before after : List OpenDocument) (r : Renumbering) (b : HasOldNumbers r) (had now : ℕ → ℕ → Option Had) → AreOpenOnce before → AreOpenOnce after → AllHomesGoOn before after →
        HomesGoOn r (prepared_of before) (prepared_of after) (pairs_between before after) → Follows (numbers_between before after) r (read_documents after) → EntriesGoOn before after r b had now → AllHad before after had → AllHave before after now }
{}

/// Where each unit of a program leaves entries behind the turns of its forms, that came there or have their answers there, each form that goes on in a next
/// program had an entry of which all that was asked has its answers (R7RS 4.3, 5.3).
pub fn programs_leave_entries()
    ensures { (before after : List OpenDocument) (keep : Keeping) (now : ℕ → ℕ → Option Had) → let ds = read_documents before in let all = units_of ds in let units = prepare all 0 all in let known = known_in ds in
        AtUnits all units (LeavesEntries known keep now) (forgetting_worked all units known keep) (length units) scoped_before → AllHad before after now }
{}
