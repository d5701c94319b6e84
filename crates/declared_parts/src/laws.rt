//! Laws of what forms make in their units.
ghost use Rattle.std.specs.Prelude.{◌≡◌, ℕ, List, map, Option};
ghost use Rattle.scheme_model.specs.Ident.{Ident as Identifier};
ghost use Rattle.scheme_model.specs.Trees.{Tree};
ghost use Rattle.scheme_model.specs.Order.{Transformer};
ghost use Rattle.scheme_model.specs.ScopedExpansion.{Frames, ScopedState};
ghost use Rattle.scheme_model.specs.Questions.{Around};
ghost use Rattle.scheme_model.specs.FormsAlike.{Leaves, set_aside_asking, questions_of_pass};
ghost use Rattle.form_laws.specs.Begins.{Each, FormBegins};
ghost use Rattle.form_notes.specs.Noted.{Noted};
ghost use Rattle.question_laws.specs.Noted.{all_noted, IsClosed};
ghost use Rattle.forgotten_locals.specs.Outside.{IsOutside, IsOutsideOf};
ghost use Rattle.note_laws.specs.Told.{bare_noted, told, goes_noting, ImportsOthers};
ghost use Rattle.declared_again.specs.Endings.{endings};
ghost use Rattle.declared_parts.specs.Parts.{MacrosThere};
ghost use Rattle.declared_parts.specs.Stood.{IsThere};

/// Each macro that a form defined in its unit when it was gone through is there in the end (R7RS 5.3): no later definition of the form takes its place,
/// since one of an identifier that is defined doesn't stand.
pub fn macros_that_stood_are_there()
    ensures { (w : Around) (turns : ℕ) (t : Tree Identifier) → let q = (set_aside_asking w turns t).1 in Each (IsThere w q.moment) (endings q.asked) }
{}

/// So each macro that a form noted to be defined in its unit is there when the form was gone through (R7RS 5.3), and still where what is local is
/// forgotten then.
pub fn noted_macros_are_there()
    ensures told { (w : Around) (turns : ℕ) (t : Tree Identifier) (ms : List Noted) (s : ScopedState) → map bare_noted ms ≡ map (told w) (all_noted w (questions_of_pass w turns t)) → Leaves w (set_aside_asking w turns t).1.moment s → MacrosThere s ms }
    ensures noted { (w : Around) (turns : ℕ) (t : Tree Identifier) (e : ℕ → Option (Transformer Frames Identifier)) → IsOutside w.state → FormBegins w t → IsClosed w.state → ImportsOthers w.state →
        let q = goes_noting w turns t e in MacrosThere q.0 q.1 × ((s : ScopedState) → IsOutsideOf q.0 s → MacrosThere s q.1) }
{}
