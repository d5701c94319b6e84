//! Laws of the definitions. Each is the contract of a function that does nothing.
ghost use Rattle.std.specs.Prelude.{◌≡◌, ◌↔◌, ℕ, true, List, [], map, length, Option, Ok};
ghost use Rattle.std.specs.List.{Contains};
ghost use Rattle.scheme_model.specs.Ident.{Ident as Identifier};
ghost use Rattle.scheme_model.specs.Trees.{Tree};
ghost use Rattle.scheme_model.specs.Order.{Item, Left, Transformer, WaitingUse, meet_all, run};
ghost use Rattle.scheme_model.specs.Expression.{expand, item_part};
ghost use Rattle.scheme_model.specs.UnitExpansion.{max_depth, one_form};
ghost use Rattle.scheme_model.specs.ScopedExpansion.{Frames, ScopedState};
ghost use Rattle.scheme_model.specs.Questions.{Moment, Around, at_moment, Question, answer, SameAnswer};
ghost use Rattle.scheme_model.specs.FormsAlike.{start, again, Leaves, bare_kept, set_aside_asking, bound_moved, left_with, finish_by, questions_of_pass, questions_of_left};
ghost use Rattle.form_laws.specs.Begins.{Each, Begins, FormBegins, SameForm};
ghost use Rattle.question_laws.specs.Noted.{all_noted, IsClosed, SameUnit};
ghost use Rattle.scheme_model.specs.Requirements.{Known};
ghost use Rattle.scheme_model.specs.IncludedUnits.{Placed};
ghost use Rattle.scheme_model.specs.Program.{Prepared, is_ready, enough_turns};
ghost use Rattle.scheme_model.specs.ScopedProgram.{ScopedProgress, scoped_work, scoped_before, scoped_unit_over, scoped_start_after};
ghost use Rattle.forgotten_locals.specs.Outside.{outside, macros_outside, IsOutsideOf, IsOutside, ForgetsLocals};
ghost use Rattle.forgotten_locals.specs.Ways.{unit_by};
ghost use Rattle.forgotten_locals.specs.Programs.{IsProgressOutside};
ghost use Rattle.syntax_tree.specs.Names.{Names as AnyNames};
ghost use Rattle.form_notes.specs.Noted.{Noted, Since};
ghost use Rattle.form_notes.specs.Standing.{HaveNotes};
ghost use Rattle.form_notes.specs.declared.notes.Note.{Note as AnyNote};
ghost use Rattle.noted_steps.specs.Noting.{Noting, noting, begun};
ghost use Rattle.note_laws.specs.Told.{bare_noted, told, since_of, goes_noting, ImportsOthers};
ghost use Rattle.note_laws.specs.Moments.{IsBefore};
ghost use Rattle.note_laws.specs.SameRoots.{SameRoot, NoLocalEntry, IsOfRoot, IsBehind, SameBehind, RootsBehind};
ghost use Rattle.note_laws.specs.SameParts.{SamePart};
ghost use Rattle.note_laws.specs.Tested.{IsOfStart, HasAnswer, SameAtStart};
ghost use Rattle.note_laws.specs.Searching.{searching, forms_anew};

/// What an expansion notes is what is to be noted of the form's questions, each with its answer, latest first (R7RS 4.3, 5.3): so of its first
/// part and of its second, where nothing local is left of other forms and the unit imports nothing of its own. Only the times at which bodies
/// were entered, which no look-up reads, are others. And the form leaves what it has made and found by them.
pub fn notes_are_questions()
    ensures pass { (w : Around) (turns : ℕ) (t : Tree Identifier) (e : ℕ → Option (Transformer Frames Identifier)) → IsOutside w.state → FormBegins w t → IsClosed w.state → ImportsOthers w.state →
        map bare_noted (run (noting w.known) turns [] (one_form t w.notes) (begun (length w.notes) (since_of w e) w.state)).1.noted ≡ map (told w) (all_noted w (questions_of_pass w turns t)) }
    ensures leaves { (w : Around) (turns : ℕ) (t : Tree Identifier) (e : ℕ → Option (Transformer Frames Identifier)) → IsOutside w.state → FormBegins w t → IsClosed w.state → ImportsOthers w.state →
        Leaves w (set_aside_asking w turns t).1.moment (goes_noting w turns t e).0 }
    ensures left { (w : Around) (turns before : ℕ) (l : Left Identifier) (e : ℕ → Option (Transformer Frames Identifier)) → IsOutside w.state → Begins w.state → IsClosed w.state → ImportsOthers w.state →
        map bare_noted (finish_by (noting w.known) turns [] (Ok l) (begun before (since_of w e) w.state)).1.noted ≡ map (told w) (all_noted w (questions_of_left w turns (Ok l))) }
{}

/// Each unit of a program may forget what is local behind each form's turn while a definition goes through the notes that speak of its identifier
/// alone (R7RS 4.3, 5.1, 5.3): it comes to what it comes to where nothing is forgotten and a definition goes through all notes, and goes to that
/// state outside of all forms. When it begins it imports nothing of its own.
pub fn units_forget_while_they_search()
    ensures imports { (all : List Placed) (units : List Prepared) (known : Known) (n : ℕ) (p : Prepared) →
        let g = scoped_work all units known n scoped_before in is_ready all units g.results p ≡ true → ImportsOthers (scoped_start_after all p g) }
    ensures same { (all : List Placed) (units : List Prepared) (known : Known) (n : ℕ) (h : ScopedProgress) (p : Prepared) →
        let g = scoped_work all units known n scoped_before in is_ready all units g.results p ≡ true → IsProgressOutside g h →
        ForgetsLocals (scoped_unit_over known p (scoped_start_after all p g)) (unit_by (searching enough_turns) known (forms_anew p) (scoped_start_after all p h)) }
{}

/// Notes of the code stand for notes exactly where they stand for these without times (R7RS 5.3): of a definition a note tells its name and place, whether
/// it is a keyword's, how many notes it came after, and how it ends.
pub fn notes_tell_no_times()
    ensures { (names : AnyNames) (r : Since) (xs : List AnyNote) (ms : List Noted) → HaveNotes names r xs ms ↔ HaveNotes names r xs (map bare_noted ms) }
{}

/// Notes that have their answers in other surroundings of the form are what is to be noted there (R7RS 4.3, 5.3). So they go on to be the form's notes, over
/// any number of events.
pub fn notes_stay()
    ensures pass { (w v : Around) (turns : ℕ) (t : Tree Identifier) → SameUnit w v → Begins w.state → Begins v.state → IsClosed w.state → IsClosed v.state → Each (SameAnswer w v) (all_noted w (questions_of_pass w turns t)) →
        map (told v) (all_noted v (questions_of_pass v turns t)) ≡ map (told w) (all_noted w (questions_of_pass w turns t)) }
    ensures left { (w v : Around) (turns from to : ℕ) (l : Left Identifier) → SameUnit w v → Begins w.state → Begins v.state → IsClosed w.state → IsClosed v.state → Each (SameAnswer w v) (all_noted w (questions_of_left w turns (Ok l))) →
        map (told v) (all_noted v (questions_of_left v turns (Ok (left_with (bound_moved from to) l)))) ≡ map (told w) (all_noted w (questions_of_left w turns (Ok l))) }
{}

/// Where the notes of a form's start have their answers in other surroundings of the form, its questions of the start have the answers that they had, and the
/// other way round (R7RS 4.3, 5.3): so a form is tested by its notes alone. All notes of its second part are of the start.
pub fn notes_are_tested()
    ensures pass { (w v : Around) (turns : ℕ) (t : Tree Identifier) (ms : List Noted) → SameForm w v → map bare_noted ms ≡ map (told w) (all_noted w (questions_of_pass w turns t)) →
        ((m : Noted) → Contains ms m → IsOfStart m → HasAnswer v m) ↔ Each (SameAtStart w v) (all_noted w (questions_of_pass w turns t)) }
    ensures left { (w v : Around) (turns : ℕ) (l : Left Identifier) (ms : List Noted) → SameForm w v → Begins w.state → map bare_noted ms ≡ map (told w) (all_noted w (questions_of_left w turns (Ok l))) →
        ((m : Noted) → Contains ms m → HasAnswer v m) ↔ Each (SameAnswer w v) (all_noted w (questions_of_left w turns (Ok l))) }
{}

/// What a form set aside defines nothing in its unit (R7RS 5.3): what its second part began with, and how many notes there were, is as it was
/// behind its macro uses, behind each item, and behind all.
pub fn second_parts_define_nothing()
    ensures uses { (known : Known) (us : List (WaitingUse Identifier)) (s : Noting) → SamePart s (meet_all (noting known) [] us s) }
    ensures item { (known : Known) (turns : ℕ) (i : Item Identifier) (s : Noting) → SamePart s (item_part (expand (noting known) turns) (noting known) max_depth [] i s).1 }
    ensures left { (known : Known) (turns : ℕ) (l : Left Identifier) (s : Noting) → SamePart s (finish_by (noting known) turns [] (Ok l) s).1 }
{}

/// An answer that is no definition's is read of the root (R7RS 4.3, 5.3): it is the same in two states with one root, such as a state and
/// what is outside in it. So it is at a form's moment what it is where the form has gone to it and nothing local is left, and notes that are asked
/// behind definitions of the form are tested where these stand again.
pub fn answers_are_of_the_root()
    ensures same { (v u : Around) (n m : Moment) (q : Question) → NoLocalEntry v.state → SameRoot (at_moment v n) (at_moment u m) → u.known ≡ v.known → IsOfRoot q → answer u m q ≡ answer v n q }
    ensures roots { (s t : ScopedState) → t.unit ≡ s.unit → t.program ≡ s.program → t.table ≡ s.table → t.entry ≡ s.entry → map bare_kept (macros_outside t.macros) ≡ map bare_kept (macros_outside s.macros) → SameRoot s t }
    ensures outside_of { (s t : ScopedState) → IsOutsideOf s t → SameRoot s t }
    ensures outside { (v : Around) (n : Moment) (q : Question) → NoLocalEntry v.state → IsOfRoot q → let u : Around = record { state = outside (again v n); known = v.known; notes = v.notes } in answer u (start u.state) q ≡ answer v n q }
    ensures notes { (w v : Around) (u : ℕ → Around) (turns : ℕ) (t : Tree Identifier) (ms : List Noted) → let qs = all_noted w (questions_of_pass w turns t) in SameForm w v → NoLocalEntry v.state → map bare_noted ms ≡ map (told w) qs →
        Each (RootsBehind v u) qs → ((m : Noted) → Contains ms m → IsBehind m → HasAnswer (u m.behind) m) ↔ Each (SameBehind w v) qs }
{}

/// What a form has defined in its unit where it asks a question (R7RS 5.3), with the macros of it, is the end of what it has defined in all: so how
/// many definitions there are tells which, and which macros that aren't local. The same goes for what is noted.
pub fn moments_go_on()
    ensures asked { (w : Around) (turns : ℕ) (t : Tree Identifier) → NoLocalEntry w.state → Each (λ q. IsBefore q.0 (set_aside_asking w turns t).1.moment) (questions_of_pass w turns t) }
    ensures noted { (w : Around) (turns : ℕ) (t : Tree Identifier) → NoLocalEntry w.state → Each (λ q. IsBefore q.0 (set_aside_asking w turns t).1.moment) (all_noted w (questions_of_pass w turns t)) }
    ensures told { (k n m : Moment) → IsBefore k m → IsBefore n m → length k.table ≡ length n.table → (k.table ≡ n.table) × (macros_outside k.macros ≡ macros_outside n.macros) }
{}
