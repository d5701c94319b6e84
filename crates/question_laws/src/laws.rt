//! Laws of the definitions. Each is the contract of a function that does nothing.
ghost use Rattle.std.specs.Prelude.{◌≡◌, ℕ, true, false, ◌↔◌, ◌⊎◌, List, Ok};
ghost use Rattle.scheme_model.specs.Ident.{Ident as Identifier};
ghost use Rattle.scheme_model.specs.Trees.{Tree};
ghost use Rattle.scheme_model.specs.Order.{Left};
ghost use Rattle.scheme_model.specs.Requirements.{Known};
ghost use Rattle.scheme_model.specs.IncludedUnits.{Placed};
ghost use Rattle.scheme_model.specs.Program.{Prepared};
ghost use Rattle.scheme_model.specs.ScopedProgram.{scoped_work, scoped_before, scoped_start_after};
ghost use Rattle.scheme_model.specs.OwnAnswers.{root_means};
ghost use Rattle.scheme_model.specs.Questions.{Around, Moment, Question, at_moment, SameAnswer};
ghost use Rattle.scheme_model.specs.FormsAlike.{questions_of_pass, questions_of_left, set_aside, finish, set_aside_asking, start, again};
ghost use Rattle.form_laws.specs.Begins.{Each, Begins, FormBegins, LeftBegins, SameForm};
ghost use Rattle.question_laws.specs.Noted.{before_uses, defines_within, answers_alone, all_noted, HasPart, AreNotes, IsClosed, SameUnit};

/// What an identifier means at a moment of a form is told by what it meant when the form began (R7RS 4.3, 5.3): where the form's own
/// definitions have neither it nor an identifier within it, it means what the identifier before the form's macro uses meant then; and where
/// they have it, or what it was before a use of the form inserted it, it means that definition whatever is around the form.
pub fn moments_are_told()
    ensures outside { (w : Around) (n : Moment) (i : Identifier) → Begins w.state → defines_within n.table i ≡ false → root_means (at_moment w n) i ≡ root_means w.state (before_uses w.state i) }
    ensures alone { (w v : Around) (n : Moment) (i : Identifier) → Begins w.state → Begins v.state → SameForm w v → answers_alone w.state n.table i ≡ true → root_means (at_moment v n) i ≡ root_means (at_moment w n) i }
{}

/// The noted questions are all that a form asks, and no more: two surroundings that give these the same answers give the same answers to
/// all questions of the form, and the other way round. The second part of a form defines nothing, so all that is noted for it is asked when it
/// begins; of its first part, only what its own definitions have a part in is asked later. In which order the notes stand, and how often, is
/// all one.
pub fn noted_questions_suffice()
    ensures pass { (w v : Around) (turns : ℕ) (t : Tree Identifier) → SameUnit w v → FormBegins w t → FormBegins v t → IsClosed w.state → IsClosed v.state →
        Each (SameAnswer w v) (all_noted w (questions_of_pass w turns t)) ↔ Each (SameAnswer w v) (questions_of_pass w turns t) }
    ensures left { (w v : Around) (turns : ℕ) (l : Left Identifier) → SameUnit w v → Begins w.state → Begins v.state → IsClosed w.state → IsClosed v.state →
        Each (SameAnswer w v) (all_noted w (questions_of_left w turns (Ok l))) ↔ Each (SameAnswer w v) (questions_of_left w turns (Ok l)) }
    ensures pass_first { (w : Around) (turns : ℕ) (t : Tree Identifier) → Each (λ q. (q.0 ≡ start w.state) ⊎ HasPart q) (all_noted w (questions_of_pass w turns t)) }
    ensures left_first { (w : Around) (turns : ℕ) (l : Left Identifier) → Begins w.state → Each (λ q. q.0 ≡ start w.state) (all_noted w (questions_of_left w turns (Ok l))) }
    ensures notes { (w v : Around) (qs ns : List (Moment × Question)) → AreNotes w qs ns → Each (SameAnswer w v) ns ↔ Each (SameAnswer w v) (all_noted w qs) }
{}

/// Each definition that is imported, or that a macro is kept for, stands in its unit where a unit of a program begins (R7RS 5.2, 5.3), whatever
/// unit it is and however many were worked on before it; and so it does behind each form: after its first part, after its second, and where what
/// it has made and found elsewhere is put into other surroundings.
pub fn imports_stand()
    ensures units { (all : List Placed) (units : List Prepared) (known : Known) (n : ℕ) (p : Prepared) → IsClosed (scoped_start_after all p (scoped_work all units known n scoped_before)) }
    ensures pass { (w : Around) (turns : ℕ) (t : Tree Identifier) → IsClosed w.state → IsClosed (set_aside w turns t).1 }
    ensures left { (w : Around) (turns : ℕ) (l : Left Identifier) → IsClosed w.state → IsClosed (finish w turns (Ok l)).1 }
    ensures put { (w v : Around) (turns : ℕ) (t : Tree Identifier) → Begins w.state → IsClosed v.state → IsClosed (again v (set_aside_asking w turns t).1.moment) }
{}
