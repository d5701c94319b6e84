//! Laws of the definitions. Each is the contract of a function that does nothing.
ghost use Rattle.std.specs.Prelude.{◌≡◌, ℕ, List, [], map, Result};
ghost use Rattle.scheme_model.specs.Ident.{Ident};
ghost use Rattle.scheme_model.specs.Identifiers.{Name};
ghost use Rattle.scheme_model.specs.Trees.{Tree};
ghost use Rattle.scheme_model.specs.Requirements.{Known};
ghost use Rattle.scheme_model.specs.RulesShape.{option_map};
ghost use Rattle.scheme_model.specs.Steps.{Broken};
ghost use Rattle.scheme_model.specs.Order.{Item, WaitingUse, Left, Pending, run, meet_all};
ghost use Rattle.scheme_model.specs.Substitution.{Table, Entries, State, model};
ghost use Rattle.scheme_model.specs.ScopedExpansion.{FramedIdent, ScopedState};
ghost use Rattle.scheme_model.specs.CountedExpansion.{counted};
ghost use Rattle.scheme_model.specs.UnitExpansion.{unit};
ghost use Rattle.scheme_model.specs.Questions.{Around, Moment, Question, answer, SameAnswer, Asking, asking};
ghost use Rattle.scheme_model.specs.Expression.{item_part, expand};
ghost use Rattle.scheme_model.specs.FormsAlike.{finish_by, set_aside_asking, finish_asking};
ghost use Rattle.scheme_model.specs.Live.{NameUse};
ghost use Rattle.scheme_model.specs.Entries.{Entry};
ghost use Rattle.scheme_model.specs.Program.{Prepared, Progress, UnitResult, ExportSpec, names_of_unit, export_all, start_of, form_trees, unit_over, prelude_unit, progress_before, forms_at_work};
ghost use Rattle.scheme_model.specs.ScopedProgram.{ScopedProgress, scoped_start_of, scoped_unit_over, scoped_before};
ghost use Rattle.scheme_model.specs.ProgramArrows.{program_leaves, program_keywords, arrows_with};
ghost use Rattle.renumbering_laws.specs.Moving.{move_tree};
ghost use Rattle.renumbering_laws.specs.Renumbering.{Renumbering, IsOneToOne, ident, change, named_as, result_as, left_as, parts_as, part_as, item_as, use_as, formed_as, numbered_as, IsRenumbered};
ghost use Rattle.renumbering_laws.specs.States.{named_pending, named_pass, TablesMove, EntriesMove, StatesMove, StatesRest, StatesGo, StatesGoRest};
ghost use Rattle.renumbering_laws.specs.ScopedStates.{IsOnto, scoped_pending, scoped_pass, ScopedMove, ScopedRest, ScopedGo, ScopedGoRest};
ghost use Rattle.renumbering_laws.specs.NewStates.{HasInverse, state_new, scoped_state_new};
ghost use Rattle.renumbering_laws.specs.Units.{KeepsPrelude, ProgressMoves, ScopedProgressMoves, UnitMoves, FormsMove, ScopedFormsMove, form_as};
ghost use Rattle.renumbering_laws.specs.Exports.{entry_as, export_as, exported_as};
ghost use Rattle.renumbering_laws.specs.Asked.{new_moment, new_question, new_answer, new_asked, new_asking, new_pass, AroundMoves, TurnsMove};
ghost use Rattle.renumbering_laws.specs.NewSurroundings.{HasOldNumbers, around_new};
ghost use Rattle.renumbering_laws.specs.Pairings.{ArePairs, IsAside, Sends, forth, paired};
ghost use Rattle.renumbering_laws.specs.Arrows.{leaf_as, name_use_as, arrow_as, UnitsMove, SameMembers, UnitsMoveAround, BoundAlike, AreApart};

/// A form of a unit comes to the same under other numbers of units, of the forms of each and of its definitions (R7RS 4.3, 5.3). In states
/// that correspond, going through it sets the same aside, and notes, meets and defines the same; what it set aside is expanded to the
/// same; and so are the forms of a unit, to where work on it ends. All that is told is renumbered, a fault too, no count changes, and
/// the states that are left correspond, with the same definitions made since. Units are renumbered one to one, and so are the forms of
/// each, in any order; of definitions, only the numbers that the unit has yet to give are looked at.
pub fn forms_are_renumbered()
    ensures set_aside { (r : Renumbering) (w : IsOnto r) (known : Known) (u turns : ℕ) (p : Pending Ident FramedIdent) (s t : ScopedState) → IsOneToOne r → ScopedMove r w u s t →
        IsRenumbered (scoped_pass r w) (ScopedGo r w u s t) (run (counted known) turns [] p s) (run (counted known) turns [] (scoped_pending r w p) t) }
    ensures finished { (r : Renumbering) (w : IsOnto r) (known : Known) (u turns : ℕ) (l : Result (Left Ident) Broken) (s t : ScopedState) → IsOneToOne r → ScopedMove r w u s t →
        IsRenumbered (result_as r (parts_as r)) (ScopedGo r w u s t) (finish_by (counted known) turns [] l s) (finish_by (counted known) turns [] (result_as r (left_as r (ident r)) l) t) }
    ensures whole_unit { (r : Renumbering) (w : IsOnto r) (known : Known) (u turns : ℕ) (ts : List (ℕ × Tree Ident)) (s t : ScopedState) → IsOneToOne r → ScopedRest r w u s t →
        IsRenumbered (option_map (map (formed_as r u))) (ScopedGoRest r w u s t) (unit (counted known) turns [] ts s) (unit (counted known) turns [] (map (numbered_as r u (ident r)) ts) t) }
{}

/// So it does where binders are substituted; a form's new number then needs no old one.
pub fn substituted_forms_are_renumbered()
    ensures set_aside { (r : Renumbering) (known : Known) (u turns : ℕ) (p : Pending Name Name) (s t : State) → IsOneToOne r → StatesMove r u s t →
        IsRenumbered (named_pass r) (StatesGo r u s t) (run (model known) turns tt p s) (run (model known) turns tt (named_pending r p) t) }
    ensures finished { (r : Renumbering) (known : Known) (u turns : ℕ) (l : Result (Left Name) Broken) (s t : State) → IsOneToOne r → StatesMove r u s t →
        IsRenumbered (result_as r (parts_as r)) (StatesGo r u s t) (finish_by (model known) turns tt l s) (finish_by (model known) turns tt (result_as r (left_as r (named_as r)) l) t) }
    ensures whole_unit { (r : Renumbering) (known : Known) (u turns : ℕ) (ts : List (ℕ × Tree Name)) (s t : State) → IsOneToOne r → StatesRest r u s t →
        IsRenumbered (option_map (map (formed_as r u))) (StatesGoRest r u s t) (unit (model known) turns tt ts s) (unit (model known) turns tt (map (numbered_as r u (named_as r)) ts) t) }
{}

/// Each state corresponds to one under new numbers, where each of these has one old one and definitions keep theirs. So the laws above speak
/// of every state.
pub fn states_take_new_numbers()
    ensures scoped { (r : Renumbering) (w : HasInverse r) (s : ScopedState) → ScopedMove r w.forms s.unit s (scoped_state_new r w s) }
    ensures substituted { (r : Renumbering) (w : HasInverse r) (s : State) → StatesMove r s.unit s (state_new r w s) }
    ensures one_to_one { (r : Renumbering) → HasInverse r → IsOneToOne r }
{}

/// Numbers that are paired, of units and of the forms of each, are such a renumbering, whatever the pairs: it sends the first of each pair to the
/// second, where none stands in two pairs, and keeps a number that stands in none. So it keeps the prelude, where this isn't paired.
pub fn pairs_are_renumberings()
    ensures inverse { (units : List (ℕ × ℕ)) (forms : ℕ → List (ℕ × ℕ)) → HasInverse (paired units forms) }
    ensures sent { (ps : List (ℕ × ℕ)) → ArePairs ps → Sends (forth ps) ps }
    ensures prelude_kept { (units : List (ℕ × ℕ)) (forms : ℕ → List (ℕ × ℕ)) → IsAside prelude_unit units → IsAside 0 (forms prelude_unit) → KeepsPrelude (paired units forms) }
{}

/// A unit of a program comes to the same under its new number (R7RS 5.1, 5.6), where what was expanded before it corresponds: its forms are those
/// before, renumbered, and what is defined by then corresponds. The prelude corresponds to itself where its unit and its form keep their
/// numbers. A unit's forms are the same where its own aren't renumbered, each with the
/// home of its text under the new numbers.
pub fn units_are_renumbered()
    ensures scoped { (r : Renumbering) (w : IsOnto r) (known : Known) (p q : Prepared) (g h : ScopedProgress) (entry entry' : Entries) →
        IsOneToOne r → UnitMoves r p q g.table h.table → ScopedFormsMove r p q → ScopedProgressMoves r w g h → EntriesMove r entry entry' →
        IsRenumbered (option_map (map (formed_as r p.number))) (ScopedGoRest r w p.number (scoped_start_of p g entry) (scoped_start_of q h entry')) (scoped_unit_over known p (scoped_start_of p g entry)) (scoped_unit_over known q (scoped_start_of q h entry')) }
    ensures substituted { (r : Renumbering) (known : Known) (p q : Prepared) (g h : Progress) (entry entry' : Entries) →
        IsOneToOne r → UnitMoves r p q g.table h.table → FormsMove r p q → ProgressMoves r g h → EntriesMove r entry entry' →
        IsRenumbered (option_map (map (formed_as r p.number))) (StatesGoRest r p.number (start_of p g.table g.macros entry) (start_of q h.table h.macros entry')) (unit_over known (form_trees p.number 0 (forms_at_work p)) (start_of p g.table g.macros entry)) (unit_over known (form_trees q.number 0 (forms_at_work q)) (start_of q h.table h.macros entry')) }
    ensures prelude { (r : Renumbering) (w : IsOnto r) → IsOneToOne r → KeepsPrelude r → ScopedProgressMoves r w scoped_before scoped_before }
    ensures substituted_prelude { (r : Renumbering) → IsOneToOne r → KeepsPrelude r → ProgressMoves r progress_before progress_before }
    ensures same_forms { (r : Renumbering) (p q : Prepared) → q.number ≡ r.unit p.number → forms_at_work q ≡ map (form_as r) (forms_at_work p) → ((n : ℕ) → r.form p.number n ≡ n) → FormsMove r p q × ScopedFormsMove r p q }
{}

/// What a unit exports, and the faults of its exports, are the same, renumbered, where what it imports and what units define are (R7RS 5.6).
pub fn exports_are_renumbered()
    ensures { (r : Renumbering) (table table' : Table) (u : ℕ) (imports : List Entry) (exports : List ExportSpec) → TablesMove r table table' →
        export_all (names_of_unit table' (r.unit u) (map (entry_as r) imports)) [] (map (export_as r u) exports) ≡ exported_as r u (export_all (names_of_unit table u imports) [] exports) }
{}

/// The arrows of units whose forms come to the same are the same, renumbered, where the names in imports and exports and what units define
/// are (DrRacket's Check Syntax). Where the units come in another order, the same arrows are told in another order, since each local is
/// bound in its unit.
pub fn arrows_are_renumbered()
    ensures in_order { (r : Renumbering) (us vs : List UnitResult) (names : List NameUse) (table table' : Table) → IsOneToOne r → UnitsMove r us vs → TablesMove r table table' →
        arrows_with (program_leaves vs) (program_keywords vs) (map (name_use_as r) names) table' ≡ map (arrow_as r) (arrows_with (program_leaves us) (program_keywords us) names table) }
    ensures in_any_order { (r : Renumbering) (us vs : List UnitResult) (names names' : List NameUse) (table table' : Table) →
        IsOneToOne r → UnitsMoveAround r us vs → BoundAlike (map (leaf_as r) (program_leaves us)) (program_leaves vs) → SameMembers (map (name_use_as r) names) names' → TablesMove r table table' →
        SameMembers (map (arrow_as r) (arrows_with (program_leaves us) (program_keywords us) names table)) (arrows_with (program_leaves vs) (program_keywords vs) names' table') }
    ensures bound_alike { (r : Renumbering) (us vs : List UnitResult) → IsOneToOne r → UnitsMoveAround r us vs → AreApart us → BoundAlike (map (leaf_as r) (program_leaves us)) (program_leaves vs) }
{}

/// A form asks the same under other numbers (R7RS 4.3, 5.3): where its turn comes in surroundings that correspond, going through it sets the
/// same aside and notes the same, and what it set aside is expanded to the same, each with the same questions at the same moments, all
/// renumbered. So its macro uses are met, and each item is expanded, from any moment on. And in such surroundings each question has, at its moment, the answer that it had, renumbered. Units are renumbered one to
/// one, and so are the forms of each; no new number needs an old one.
pub fn questions_are_renumbered()
    ensures set_aside { (r : Renumbering) (w v : Around) (turns : ℕ) (t : Tree Ident) → IsOneToOne r → TurnsMove r w v →
        let p = set_aside_asking w turns t in set_aside_asking v turns (move_tree (change r) t) ≡ (new_pass r p.0, new_asking r p.1) }
    ensures finished { (r : Renumbering) (w v : Around) (turns : ℕ) (l : Result (Left Ident) Broken) → IsOneToOne r → TurnsMove r w v →
        let p = finish_asking w turns l in finish_asking v turns (result_as r (left_as r (ident r)) l) ≡ (result_as r (parts_as r) p.0, new_asking r p.1) }
    ensures uses { (r : Renumbering) (w v : Around) (us : List (WaitingUse Ident)) (s : Asking) → IsOneToOne r → TurnsMove r w v → meet_all (asking v) [] (map (use_as r (ident r)) us) (new_asking r s) ≡ new_asking r (meet_all (asking w) [] us s) }
    ensures item { (r : Renumbering) (w v : Around) (turns depth : ℕ) (i : Item Ident) (s : Asking) → IsOneToOne r → TurnsMove r w v →
        let p = item_part (expand (asking w) turns) (asking w) depth [] i s in item_part (expand (asking v) turns) (asking v) depth [] (item_as r (ident r) i) (new_asking r s) ≡ (result_as r (part_as r) p.0, new_asking r p.1) }
    ensures answers { (r : Renumbering) (w v : Around) (n : Moment) (q : Question) → IsOneToOne r → AroundMoves r w v → answer v (new_moment r n) (new_question r q) ≡ new_answer r (answer w n q) }
    ensures same_answers { (r : Renumbering) (w v w' v' : Around) (q : Moment × Question) → IsOneToOne r → AroundMoves r w w' → AroundMoves r v v' → SameAnswer w v q → SameAnswer w' v' (new_asked r q) }
{}

/// All surroundings of a form correspond to some under new numbers, where the old number of each is told and definitions keep theirs. So the
/// law above speaks of every form.
pub fn surroundings_take_new_numbers()
    ensures turns { (r : Renumbering) (b : HasOldNumbers r) (w : Around) → TurnsMove r w (around_new r b w) }
    ensures one_to_one { (r : Renumbering) → HasOldNumbers r → IsOneToOne r }
{}
