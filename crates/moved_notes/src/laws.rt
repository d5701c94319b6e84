//! Laws of the definitions. Each is the contract of a function that does nothing.
ghost use Rattle.std.specs.Prelude.{◌≡◌, ℕ, List, map, Ok};
ghost use Rattle.scheme_model.specs.Ident.{Ident as Identifier};
ghost use Rattle.scheme_model.specs.Trees.{Tree};
ghost use Rattle.scheme_model.specs.Order.{Left};
ghost use Rattle.scheme_model.specs.Questions.{Around, Moment, Question};
ghost use Rattle.scheme_model.specs.FormsAlike.{questions_of_pass, questions_of_left};
ghost use Rattle.renumbering_laws.specs.Moving.{move_tree};
ghost use Rattle.renumbering_laws.specs.Renumbering.{Renumbering, IsOneToOne, ident, change, left_as};
ghost use Rattle.renumbering_laws.specs.Asked.{new_asked, TurnsMove};
ghost use Rattle.question_laws.specs.Noted.{all_noted};
ghost use Rattle.form_notes.specs.Noted.{Noted};
ghost use Rattle.note_laws.specs.Told.{bare_noted, told};
ghost use Rattle.moved_numbers.specs.Notes.{noted_as};

/// What is to be noted of a form's questions is the same under other numbers, where its turn comes in surroundings that correspond (R7RS 4.3, 5.3): so
/// notes of the form, renumbered, are its notes there.
pub fn notes_take_new_numbers()
    ensures noted { (r : Renumbering) (w v : Around) (qs : List (Moment × Question)) → IsOneToOne r → TurnsMove r w v → all_noted v (map (new_asked r) qs) ≡ map (new_asked r) (all_noted w qs) }
    ensures told { (r : Renumbering) (w v : Around) (q : Moment × Question) → IsOneToOne r → TurnsMove r w v → told v (new_asked r q) ≡ noted_as r (told w q) }
    ensures pass { (r : Renumbering) (w v : Around) (turns : ℕ) (t : Tree Identifier) (ms : List Noted) → IsOneToOne r → TurnsMove r w v → map bare_noted ms ≡ map (told w) (all_noted w (questions_of_pass w turns t)) →
        map bare_noted (map (noted_as r) ms) ≡ map (told v) (all_noted v (questions_of_pass v turns (move_tree (change r) t))) }
    ensures left { (r : Renumbering) (w v : Around) (turns : ℕ) (l : Left Identifier) (ms : List Noted) → IsOneToOne r → TurnsMove r w v → map bare_noted ms ≡ map (told w) (all_noted w (questions_of_left w turns (Ok l))) →
        map bare_noted (map (noted_as r) ms) ≡ map (told v) (all_noted v (questions_of_left v turns (Ok (left_as r (ident r) l)))) }
{}
