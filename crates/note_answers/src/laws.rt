//! Laws of the editions of macros. Each is the contract of a function that does nothing.
ghost use Rattle.std.specs.Prelude.{◌≡◌, ◌⊎◌, ℕ, Option};
ghost use Rattle.scheme_model.specs.Ident.{Ident as Identifier};
ghost use Rattle.scheme_model.specs.Order.{Transformer};
ghost use Rattle.scheme_model.specs.ScopedExpansion.{Frames};
ghost use Rattle.scheme_model.specs.Questions.{Around};
ghost use Rattle.syntax_tree.specs.declared.meaning.Meaning.{Meaning as AnyMeaning};
ghost use Rattle.syntax_tree.specs.declared.trees.Work.{Work as AnyWork};
ghost use Rattle.form_notes.specs.Noted.{Noted, Since};
ghost use Rattle.form_notes.specs.Standing.{IsNote};
ghost use Rattle.form_notes.specs.declared.notes.Note.{Note as AnyNote};
ghost use Rattle.unit_scopes.specs.Macros.{edition_in};
ghost use Rattle.unit_scopes.specs.declared.macros.Macros.{Macros as AnyMacros};
ghost use Rattle.unit_scopes.specs.declared.scope.UnitScope.{UnitScope as AnyScope};
ghost use Rattle.note_answers.specs.Answered.{IsAskedOutside, CanAsk, KeepsEdition};
ghost use Rattle.note_answers.specs.EditionsOn.{EditionsGoOn, EachTellsRules, RulesTold};

/// Where each macro that has the rules that it had before has the edition that it had, a note that told the rules by that edition finds its macro's
/// rules exactly by it (R7RS 4.3). So it goes on as macros are made: each with the edition that it had, or with rules that it hadn't.
pub fn editions_go_on()
    ensures kept { (work : AnyWork) (u : AnyScope) (v : Around) (r : Since) (before : AnyMacros) (x : AnyNote) (m : Noted) → CanAsk work u v r → EachTellsRules r.editions → EditionsGoOn before u.macros v.state.form r.editions →
        IsNote work.symbols r x m → IsAskedOutside m.question → RulesTold before v.state.form x.question → KeepsEdition work u v r x.question }
    ensures made { (before old new : AnyMacros) (form : ℕ) (editions : ℕ → Option (Transformer Frames Identifier)) (d : AnyMeaning) → EditionsGoOn before old form editions → ((c : AnyMeaning) → (c ≡ d → ⊥) → edition_in new form c ≡ edition_in old form c) →
        (edition_in new form d ≡ edition_in before form d) ⊎ (editions (edition_in new form d) ≡ editions (edition_in before form d) → ⊥) → EditionsGoOn before new form editions }
{}
