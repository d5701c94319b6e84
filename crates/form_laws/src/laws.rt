//! Laws of the definitions. Each is the contract of a function that does nothing.
ghost use Rattle.std.specs.Prelude.{◌≡◌, ℕ, List, [], Ok};
ghost use Rattle.scheme_model.specs.Ident.{Ident as Identifier, Written};
ghost use Rattle.scheme_model.specs.Trees.{Tree, map_tree};
ghost use Rattle.scheme_model.specs.Order.{Left};
ghost use Rattle.scheme_model.specs.ScopedExpansion.{ScopedState};
ghost use Rattle.scheme_model.specs.Questions.{Around, SameAnswer};
ghost use Rattle.scheme_model.specs.FormsAlike.{bound_moved, left_with, parts_with, or_fault, moved_by, set_aside, finish, set_aside_asking, finish_asking, questions_of_pass, questions_of_left, IsSetAside, IsFinished, SameAside, SameFinish};
ghost use Rattle.form_laws.specs.Begins.{Each, TreeWith, IsRooted, IsEntry, Begins, FormBegins, LeftBegins, SameForm};

/// A form of a unit comes to the same in two surroundings in which its questions have the same answers (R7RS 4.3, 5.3): going through it sets
/// the same aside, up to the numbers of the unit's definitions, which move with how many the unit has before the form, and notes,
/// counts, meets and defines the same; and what it set aside is expanded to the same. What the form's own frames, bodies and macro uses
/// answer is asked of nothing.
pub fn forms_come_to_the_same()
    ensures set_aside { (w v : Around) (turns : ℕ) (t : Tree Identifier) → SameForm w v → FormBegins w t → FormBegins v t → Each (SameAnswer w v) (questions_of_pass w turns t) →
        SameAside w v (set_aside w turns t) (set_aside v turns t) }
    ensures finished { (w v : Around) (turns from to : ℕ) (l : Left Identifier) → SameForm w v → LeftBegins w l → LeftBegins v (left_with (bound_moved from to) l) → Each (SameAnswer w v) (questions_of_left w turns (Ok l)) →
        SameFinish w v (bound_moved from to) (finish w turns (Ok l)) (finish v turns (Ok (left_with (bound_moved from to) l))) }
{}

/// The form with its questions is the form: it sets the same aside and is expanded to the same, and where it goes to is told by what it
/// has counted, met, made and found itself, put into its surroundings (R7RS 4.3, 5.3). So it does in other surroundings in which its
/// questions have the same answers, there with other numbers of the unit's definitions.
pub fn forms_are_told_by_questions()
    ensures set_aside { (w : Around) (turns : ℕ) (t : Tree Identifier) → FormBegins w t → let p = set_aside_asking w turns t in IsSetAside w p p.0.left (set_aside w turns t) }
    ensures finished { (w : Around) (turns : ℕ) (l : Left Identifier) → LeftBegins w l → let p = finish_asking w turns (Ok l) in IsFinished w p p.0 (finish w turns (Ok l)) }
    ensures set_aside_there { (w v : Around) (turns : ℕ) (t : Tree Identifier) → SameForm w v → FormBegins w t → FormBegins v t → Each (SameAnswer w v) (questions_of_pass w turns t) →
        let p = set_aside_asking w turns t in IsSetAside v p (or_fault (left_with (moved_by w v)) p.0.left) (set_aside v turns t) }
    ensures finished_there { (w v : Around) (turns from to : ℕ) (l : Left Identifier) → SameForm w v → LeftBegins w l → LeftBegins v (left_with (bound_moved from to) l) → Each (SameAnswer w v) (questions_of_left w turns (Ok l)) →
        let p = finish_asking w turns (Ok l) in IsFinished v p (or_fault (parts_with (bound_moved from to)) p.0) (finish v turns (Ok (left_with (bound_moved from to) l))) }
{}

/// A form as it is written may begin in a state in which nothing was made or found yet, whatever its unit imports that isn't local (R7RS 5.1):
/// each of its identifiers stands there.
pub fn forms_may_begin()
    ensures fresh { (s : ScopedState) → s.table ≡ [] → s.macros ≡ [] → s.places ≡ [] → s.definitions ≡ [] → ((u : ℕ) (x : List ℕ) → IsEntry (s.entry u x)) → Begins s }
    ensures written { (s : ScopedState) (u : ℕ) (t : Tree (List ℕ)) → TreeWith (IsRooted s) (map_tree (Written u) t) }
{}

/// Where all that a form asks has the same answers in other surroundings, it asks the same there, each question at the same moment (R7RS 4.3,
/// 5.3): so what has its answers in both is the same for both. Its second part asks the same there too, with other numbers of the unit's
/// definitions.
pub fn forms_ask_alike()
    ensures pass { (w v : Around) (turns : ℕ) (t : Tree Identifier) → SameForm w v → Begins w.state → Begins v.state → Each (SameAnswer w v) (questions_of_pass w turns t) →
        questions_of_pass v turns t ≡ questions_of_pass w turns t }
    ensures left { (w v : Around) (turns from to : ℕ) (l : Left Identifier) → SameForm w v → Begins w.state → Begins v.state → Each (SameAnswer w v) (questions_of_left w turns (Ok l)) →
        questions_of_left v turns (Ok (left_with (bound_moved from to) l)) ≡ questions_of_left w turns (Ok l) }
{}
