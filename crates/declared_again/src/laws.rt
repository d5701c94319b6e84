//! Laws of declarations that are made again. No code stands on them.
ghost use Rattle.std.specs.Prelude.{◌≡◌, ℕ, ◌++◌, List, [], Option};
ghost use Rattle.scheme_model.specs.Ident.{Ident as Identifier};
ghost use Rattle.scheme_model.specs.Trees.{Tree};
ghost use Rattle.scheme_model.specs.ExpansionFaults.{Named};
ghost use Rattle.scheme_model.specs.RulesShape.{Rules};
ghost use Rattle.scheme_model.specs.Order.{Note};
ghost use Rattle.scheme_model.specs.ScopedExpansion.{FramedIdent, ScopedMacro};
ghost use Rattle.scheme_model.specs.Questions.{Around, Moment, Question, unit_outcome};
ghost use Rattle.scheme_model.specs.FormsAlike.{set_aside_asking, again};
ghost use Rattle.form_laws.specs.Begins.{Each, IsEntry};
ghost use Rattle.forgotten_locals.specs.Outside.{outside};
ghost use Rattle.declared_again.specs.Endings.{endings, outcome_outside, AtRoot, Made, MadeAtEach, IsMadeAgain, AreMadeAgain, MadeInOrder, NoteAtRoot};

/// Of all that a form that is gone through has made, what isn't local is what its definitions made in its unit (R7RS 5.3), at its end and
/// at the moment of each question: so it is made again in other surroundings of the form by those that stood, one after another.
pub fn definitions_make_what_is_left()
    ensures made { (w : Around) (turns : ℕ) (t : Tree Identifier) → let q = (set_aside_asking w turns t).1 in Made w q.moment (endings q.asked) × MadeAtEach w q.asked }
    ensures again { (w v : Around) (turns : ℕ) (t : Tree Identifier) → v.state.unit ≡ w.state.unit → v.state.form ≡ w.state.form →
        let q = (set_aside_asking w turns t).1 in IsMadeAgain w v q.moment (endings q.asked) × AreMadeAgain w v q.asked }
{}

/// The definitions of a form that is gone through are made in its unit itself, one after another (R7RS 5.3): each in view of notes that the
/// form still has at the next one, and in the end.
pub fn definitions_are_made_in_order()
    ensures { (w : Around) (turns : ℕ) (t : Tree Identifier) → let q = set_aside_asking w turns t in MadeInOrder (endings q.1.asked) q.0.notes }
{}

/// While a form is gone through, nothing is inside a body (R7RS 5.3), at its end and at the moment of each question: all macros that it has
/// made, and those that it has used, were defined at the root of their units, where those around it were.
pub fn declarations_stay_at_the_root()
    ensures { (w : Around) (turns : ℕ) (t : Tree Identifier) → Each (λ (k : ScopedMacro). k.frames ≡ []) w.state.macros →
        let q = (set_aside_asking w turns t).1 in AtRoot q.moment × Each (λ (x : Moment × Question). AtRoot x.0) q.asked }
{}

/// How a definition of a form ends is told by the state at its moment without what is local (R7RS 5.3), where the form's moment and all
/// notes are at the root.
pub fn definitions_end_as_outside()
    ensures { (v : Around) (n : Moment) (x : Named Identifier) (r : Option (Rules Identifier)) (ns : List (Note FramedIdent)) → AtRoot n → ((u : ℕ) (s : List ℕ) → IsEntry (v.state.entry u s)) →
        Each NoteAtRoot (ns ++ v.notes) → unit_outcome v n [] x r ns ≡ outcome_outside v (outside (again v n)) x r ns }
{}
