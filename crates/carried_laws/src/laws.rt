//! Laws of the definitions. Each is the contract of a function that does nothing.
ghost use Rattle.std.specs.Prelude.{◌≡◌, ◌≤◌, ℕ, List, Bool, true, Some, length};
ghost use Rattle.scheme_model.specs.Ident.{Ident as Identifier};
ghost use Rattle.scheme_model.specs.Trees.{Tree};
ghost use Rattle.scheme_model.specs.Order.{Left};
ghost use Rattle.scheme_model.specs.Questions.{Around};
ghost use Rattle.scheme_model.specs.Includes.{Document};
ghost use Rattle.scheme_model.specs.Program.{known_in, units_of, prepare, program_of};
ghost use Rattle.scheme_model.specs.ScopedProgram.{scoped_before};
ghost use Rattle.form_laws.specs.Begins.{Each};
ghost use Rattle.renumbering_laws.specs.Moving.{move_tree};
ghost use Rattle.renumbering_laws.specs.Renumbering.{Renumbering, ident, change, left_as};
ghost use Rattle.renumbering_laws.specs.NewSurroundings.{HasOldNumbers, around_new};
ghost use Rattle.question_laws.specs.Noted.{IsClosed};
ghost use Rattle.kept_forms.specs.KeptForms.{KeptForm, FormOrKept, form_of};
ghost use Rattle.kept_forms.specs.Carried.{kept_aside, kept_parts};
ghost use Rattle.kept_forms.specs.KeptPrograms.{Keeping, kept_program_of, ProgramKeeps, program_worked, program_not_kept};
ghost use Rattle.carried_forms.specs.Worked.{WorkedForm, WorkedUnit, OpenDocument, AreOpenOnce, read_documents, units_at_work};
ghost use Rattle.carried_forms.specs.Paired.{FormText, by_ends, UnitPair};
ghost use Rattle.carried_forms.specs.Carried.{IsIn, asks_alike, worked_at, carried, work};
ghost use Rattle.carried_laws.specs.AtWork.{IsAtWork, AreAtWork};
ghost use Rattle.carried_laws.specs.NotedEntries.{IsClosedForm, AreClosed, HasNotedAnswers, UnitsNoted};
ghost use Rattle.carried_laws.specs.CarriedEntries.{came_to, KeepsAll};
ghost use Rattle.carried_laws.specs.CarriedKeeping.{carried_keeping};
ghost use Rattle.carried_laws.specs.Homes.{At, HomesGoOn};
ghost use Rattle.carried_laws.specs.HomeUris.{HomesOfUris, TellsByTrees, StandAlike};
ghost use Rattle.carried_laws.specs.CarriedOver.{pairs_between, prepared_of, AllHomesGoOn, AreOwn, CarriedOver};
ghost use Rattle.carried_laws.specs.Entries.{StandsFor, IsEntry, AreEntries, HasAnswers, Stays, FormsStay, UnitsStay, keeping_as, kept_from, aside_as, kept_parts_as, kept_as};

/// What is kept of a form in surroundings under new numbers is what was kept of it there, under the new numbers; so an entry stays one
/// (R7RS 4.3, 5.3).
pub fn entries_take_new_numbers()
    ensures aside { (r : Renumbering) (b : HasOldNumbers r) (w : Around) (turns : ℕ) (t : Tree Identifier) → kept_aside (around_new r b w) turns (move_tree (change r) t) ≡ aside_as r (kept_aside w turns t) }
    ensures parts { (r : Renumbering) (b : HasOldNumbers r) (w : Around) (turns n : ℕ) (l : Left Identifier) → kept_parts (around_new r b w) turns n (left_as r (ident r) l) ≡ kept_parts_as r (kept_parts w turns n l) }
    ensures entry { (r : Renumbering) (b : HasOldNumbers r) (n : ℕ) (x : ℕ × Tree Identifier) (k : KeptForm) (w u : Around) → StandsFor n x k w u →
        StandsFor (r.unit n) (r.form n x.0, move_tree (change r) x.1) (kept_as r k) (around_new r b w) (around_new r b u) }
{}

/// What is kept of the units of a program are entries, from one program to the next: those of the program before are under the new numbers of those
/// units that tell their old ones, and what stays in the program after is, with the numbers that its definitions have there; and so is what a form
/// came to there.
pub fn entries_go_on()
    ensures renumbered { (r : Renumbering) (b : HasOldNumbers r) (keep : Keeping) → ((u v : ℕ) → b.unit_back v ≡ Some u → r.unit u ≡ v) → AreEntries keep → AreEntries (keeping_as r b keep) }
    ensures kept { (n : ℕ) (xs : List FormOrKept) (gs : List WorkedForm) → FormsStay n xs gs → Each (λ (x : FormOrKept). IsEntry n (form_of x) x.kept) xs }
    ensures numbered { (n : ℕ) (x : ℕ × Tree Identifier) (k : KeptForm) (w u : Around) (to : ℕ) → StandsFor n x k w u → StandsFor n x (kept_from to k) w u }
    ensures expanded { (w : WorkedUnit) → AreAtWork w → Each (λ (g : WorkedForm). IsEntry w.number (g.form, g.tree) (Some (came_to g))) w.forms }
{}

/// Each form of a program that is worked on may begin where its turn comes, and has counted nothing yet; and so may what it set aside where its turn
/// comes again, when it has counted what it had (R7RS 5.1).
pub fn forms_begin_at_work()
    ensures { (ds : List Document) → Each AreAtWork (units_at_work ds) }
{}

/// Entries may be kept in a program in which all that was asked has its answers where the turns of their forms come, whatever other
/// entries are kept: with what they stand for put into its place the program is the program (R7RS 5).
pub fn entries_may_be_kept()
    ensures keeps { (ds : List Document) (keep : Keeping) → UnitsStay keep (units_at_work ds) → let all = units_of ds in let units = prepare all 0 all in ProgramKeeps all units (known_in ds) keep (length units) scoped_before }
    ensures program { (ds : List Document) (keep : Keeping) → UnitsStay keep (units_at_work ds) → kept_program_of keep ds ≡ program_of ds }
{}

/// What is noted of an entry suffices: where it has its answers, so has all that was asked. What is imported stands at both turns of each form of a
/// program that is worked on (R7RS 5.2), and where it stood in surroundings it stands in those under new numbers.
pub fn noted_answers_suffice()
    ensures answers { (n : ℕ) (k : KeptForm) (w u : Around) (g : WorkedForm) → StandsFor n (g.form, g.tree) k w u → IsAtWork n g → IsClosedForm g → HasNotedAnswers g.tree k w u g → HasAnswers (g.form, g.tree) k w u g }
    ensures stands { (ds : List Document) → Each AreClosed (units_at_work ds) }
    ensures new_numbers { (r : Renumbering) (b : HasOldNumbers r) (w : Around) → IsClosed w.state → IsClosed (around_new r b w).state }
{}

/// So entries of which all that is noted has its answers where the turns of their forms come may be kept, and with them the program is the program
/// (R7RS 5).
pub fn noted_entries_may_be_kept()
    ensures stays { (ds : List Document) (keep : Keeping) → UnitsNoted keep (units_at_work ds) → UnitsStay keep (units_at_work ds) }
    ensures program { (ds : List Document) (keep : Keeping) → UnitsNoted keep (units_at_work ds) → kept_program_of keep ds ≡ program_of ds }
{}

/// What a form that was worked on came to is an entry. Under any numbers that tell the old ones, in which the form is the one after the event and asks
/// alike before and after, that entry may stay (R7RS 4.3, 5.3).
pub fn forms_that_ask_alike_may_stay()
    ensures entry { (n : ℕ) (f : WorkedForm) → IsAtWork n f → StandsFor n (f.form, f.tree) (came_to f) f.around f.later }
    ensures stays { (r : Renumbering) (b : HasOldNumbers r) (n : ℕ) (f g : WorkedForm) → IsAtWork n f → asks_alike r f g ≡ true → r.form n f.form ≡ g.form → move_tree (change r) f.tree ≡ g.tree →
        Stays (r.unit n) (g.form, g.tree) (Some (kept_as r (came_to f))) g }
{}

/// Where all carried forms are kept, whatever else is, no more macro uses are worked in the program than the work of the event.
pub fn work_bounds_what_is_worked()
    ensures not_kept { (before after : List OpenDocument) (keep : Keeping) → let ds = read_documents after in let all = units_of ds in let units = prepare all 0 all in
        ProgramKeeps all units (known_in ds) keep (length units) scoped_before → KeepsAll (carried before after) keep → program_not_kept all units (known_in ds) keep (length units) scoped_before ≤ work before after }
    ensures worked { (before after : List OpenDocument) (keep : Keeping) → let ds = read_documents after in let all = units_of ds in let units = prepare all 0 all in
        ProgramKeeps all units (known_in ds) keep (length units) scoped_before → KeepsAll (carried before after) keep → program_worked all units (known_in ds) keep (length units) scoped_before ≤ work before after }
{}

/// Each form that is carried from a program to the next may be kept there, of what it came to before under the new numbers (R7RS 4.3, 5.3), where
/// the homes of included forms go on: where a part's forms get other numbers in the part than where it is included, what was kept would
/// have its places at those. They do where no form is included.
pub fn carried_forms_may_be_kept()
    ensures over { (before after : List OpenDocument) (c : ℕ × ℕ) → AreOpenOnce before → AreOpenOnce after → AllHomesGoOn before after → IsIn c (carried before after) → CarriedOver before after c }
    ensures own { (before after : List OpenDocument) → AreOwn before → AreOwn after → AllHomesGoOn before after }
{}

/// So exactly the carried forms may be kept: with what they came to before put into its place, under the new numbers, the program is the
/// program (R7RS 5), and at most the work of the event is worked.
pub fn programs_keep_what_is_carried()
    ensures stays { (before after : List OpenDocument) → AreOpenOnce before → AreOpenOnce after → AllHomesGoOn before after → UnitsStay (carried_keeping before after) (units_at_work (read_documents after)) }
    ensures program { (before after : List OpenDocument) → AreOpenOnce before → AreOpenOnce after → AllHomesGoOn before after → kept_program_of (carried_keeping before after) (read_documents after) ≡ program_of (read_documents after) }
    ensures worked { (before after : List OpenDocument) → AreOpenOnce before → AreOpenOnce after → AllHomesGoOn before after → let ds = read_documents after in let all = units_of ds in let units = prepare all 0 all in
        program_worked all units (known_in ds) (carried_keeping before after) (length units) scoped_before ≤ work before after }
{}

/// An entry that may stay where a form is worked on may stay in the next program too, where the form asks alike before and after under some numbers that
/// tell the old ones: it asked the same where it was expanded (R7RS 4.3, 5.3). So entries may be kept over any number of events; and all that was
/// asked has its answers there in the surroundings for which the entry stands, under the new numbers.
pub fn entries_stay_on()
    ensures stays { (r : Renumbering) (b : HasOldNumbers r) (n : ℕ) (k : KeptForm) (f g : WorkedForm) → IsAtWork n f → Stays n (f.form, f.tree) (Some k) f → asks_alike r f g ≡ true → r.form n f.form ≡ g.form → move_tree (change r) f.tree ≡ g.tree →
        Stays (r.unit n) (g.form, g.tree) (Some (kept_as r k)) g }
    ensures there { (r : Renumbering) (b : HasOldNumbers r) (n : ℕ) (k : KeptForm) (w u : Around) (f g : WorkedForm) → IsAtWork n f → StandsFor n (f.form, f.tree) k w u → HasAnswers (f.form, f.tree) k w u f → asks_alike r f g ≡ true → r.form n f.form ≡ g.form → move_tree (change r) f.tree ≡ g.tree →
        StandsFor (r.unit n) (g.form, g.tree) (kept_as r k) (around_new r b w) (around_new r b u) × HasAnswers (g.form, g.tree) (kept_as r k) (around_new r b w) (around_new r b u) g }
{}

/// A form that goes on has the number and the tree that it had (R7RS 2, 5.1), under any numbers that send its unit to the one that it goes on as, its
/// number to the one that it has there, and homes of included forms to where they are at home afterwards; and such homes are told by the uris of
/// their texts.
pub fn trees_go_on_at_home()
    ensures tree { (before after : List OpenDocument) (r : Renumbering) (p : UnitPair) (q : ℕ × ℕ) (f g : WorkedForm) → IsIn p (pairs_between before after) → IsIn q p.forms →
        worked_at (units_at_work (read_documents before)) p.before q.0 ≡ Some f → worked_at (units_at_work (read_documents after)) p.after q.1 ≡ Some g → r.unit p.before ≡ p.after → r.form p.before q.0 ≡ q.1 →
        HomesGoOn r (prepared_of before) (prepared_of after) (pairs_between before after) → (r.form p.before f.form ≡ g.form) × (move_tree (change r) f.tree ≡ g.tree) }
    ensures homes { (before after : List OpenDocument) (r : Renumbering) → HomesOfUris r before after → HomesGoOn r (prepared_of before) (prepared_of after) (pairs_between before after) }
{}

/// Where forms of a kind that is told by their trees, such as all that aren't lists that include, stand at the same places of two texts with the same
/// trees, each of them that is paired by the ends keeps its place.
pub fn ends_keep_their_places()
    ensures { (kind : FormText → Bool) (fs gs : List FormText) (q : ℕ × ℕ) (f : FormText) → TellsByTrees kind → StandAlike kind fs gs → IsIn q (by_ends fs gs) → At fs q.0 f → kind f ≡ true → q.1 ≡ q.0 }
{}
