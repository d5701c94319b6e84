//! Laws of the definition. Each is the contract of a function that does nothing.
ghost use Rattle.std.specs.Prelude.{◌≡◌, ◌≤◌, ℕ, true, List, [], length, Result};
ghost use Rattle.macro_uses.specs.MacroUses.{program_uses};
ghost use Rattle.scheme_model.specs.Ident.{Ident as Identifier};
ghost use Rattle.scheme_model.specs.Trees.{Tree};
ghost use Rattle.scheme_model.specs.Steps.{Broken};
ghost use Rattle.scheme_model.specs.Order.{Left};
ghost use Rattle.scheme_model.specs.Questions.{Around, Moment, Question, answer, SameAnswer};
ghost use Rattle.scheme_model.specs.FormsAlike.{questions_of_pass, questions_of_left};
ghost use Rattle.form_laws.specs.Begins.{Each, FormBegins, LeftBegins};
ghost use Rattle.renumbering_laws.specs.Moving.{move_tree};
ghost use Rattle.renumbering_laws.specs.Renumbering.{Renumbering, IsOneToOne, ident, change, result_as, left_as};
ghost use Rattle.renumbering_laws.specs.Asked.{new_moment, new_question, new_answer, new_asked, AroundMoves, TurnsMove};
ghost use Rattle.renumbering_laws.specs.NewSurroundings.{HasOldNumbers, around_new};
ghost use Rattle.renumbering_laws.specs.Units.{KeepsPrelude};
ghost use Rattle.carried_forms.specs.Paired.{FormText, UnitText, UnitPair, by_ends, Rise, AreTold, AreWithin, unit_pairs, with_themselves, renumbering};
ghost use Rattle.carried_forms.specs.Worked.{WorkedUnit, OpenDocument, AreOpenOnce, read_documents, unit_texts};
ghost use Rattle.carried_forms.specs.Carried.{has_same_answer, have_same_answers, IsIn, IsCarried, carried_by, work};

/// The forms of a unit are paired one to one and in their order, and no two forms of a unit get one number, whether they go on or not.
pub fn forms_are_paired_in_order()
    ensures order { (fs gs : List FormText) → Rise 0 0 (length fs) (length gs) (by_ends fs gs) }
    ensures numbers { (us vs : List UnitText) (u f g : ℕ) → (renumbering (unit_pairs us vs)).form u f ≡ (renumbering (unit_pairs us vs)).form u g → f ≡ g }
{}

/// Units get numbers one to one, whether they go on or not: before the event no two units that aren't broken as a whole are of one document, kind
/// and name, and after it units behind the most are broken.
pub fn units_are_numbered_apart()
    ensures { (us vs : List UnitText) → AreTold us → AreWithin 0 vs → (u v : ℕ) → (renumbering (unit_pairs us vs)).unit u ≡ (renumbering (unit_pairs us vs)).unit v → u ≡ v }
{}

/// Programs are so, where no uri is open twice: of their units that aren't broken as a whole no two are of one document, kind and name, and units
/// behind the most are broken (R7RS 5.1, 5.6).
pub fn programs_tell_their_units()
    ensures told { (ds : List OpenDocument) → AreOpenOnce ds → AreTold (unit_texts ds) }
    ensures within { (ds : List OpenDocument) → AreOpenOnce ds → AreWithin 0 (unit_texts ds) }
{}

/// Where nothing changed each unit that isn't broken goes on as itself with all its forms, where no two such units are of one document, kind and
/// name.
pub fn nothing_changed()
    ensures { (us : List UnitText) → AreTold us → unit_pairs us us ≡ with_themselves 0 us }
{}

/// The test for one answer tells that it is one: where it holds, the answer there is the answer here in the new numbers.
pub fn same_answers_are_equal()
    ensures { (r : Renumbering) (w v : Around) (n : Moment) (q : Question) → has_same_answer r w v (n, q) ≡ true → answer v (new_moment r n) (new_question r q) ≡ new_answer r (answer w n q) }
{}

/// The numbers of the pairs are a renumbering: units get them one to one, and so do the forms of each; the prelude keeps its own; and the old
/// number of each is told.
pub fn pairs_are_renumbered()
    ensures one_to_one { (us vs : List UnitText) → AreTold us → AreWithin 0 vs → IsOneToOne (renumbering (unit_pairs us vs)) }
    ensures prelude_kept { (ps : List UnitPair) → KeepsPrelude (renumbering ps) }
    ensures old_numbers { (us vs : List UnitText) → AreTold us → AreWithin 0 vs → HasOldNumbers (renumbering (unit_pairs us vs)) }
{}

/// A form that may begin may begin under other numbers in the surroundings under them, and so may what it set aside (R7RS 5.1).
pub fn forms_begin_under_new_numbers()
    ensures pass { (r : Renumbering) (b : HasOldNumbers r) (w : Around) (t : Tree Identifier) → FormBegins w t → FormBegins (around_new r b w) (move_tree (change r) t) }
    ensures left { (r : Renumbering) (b : HasOldNumbers r) (w : Around) (l : Left Identifier) → LeftBegins w l → LeftBegins (around_new r b w) (left_as r (ident r) l) }
{}

/// What has the same answer up to the numbers has it in the surroundings after as in those before under the new numbers: each question, and
/// all that a form asks there under its own new numbers, when it is gone through and when what it set aside is expanded. So it has after one
/// more renumbering of both that leaves what is after as it is, such as one that gives what doesn't go on still other numbers that nothing
/// has there.
pub fn questions_keep_their_answers()
    ensures question { (r : Renumbering) (w v u : Around) (q : Moment × Question) → IsOneToOne r → AroundMoves r w u → has_same_answer r w v q ≡ true → SameAnswer u v (new_asked r q) }
    ensures pass { (r : Renumbering) (w v u : Around) (turns : ℕ) (t : Tree Identifier) → IsOneToOne r → TurnsMove r w u → have_same_answers r w v (questions_of_pass w turns t) ≡ true →
        Each (SameAnswer u v) (questions_of_pass u turns (move_tree (change r) t)) }
    ensures left { (r : Renumbering) (w v u : Around) (turns : ℕ) (l : Result (Left Identifier) Broken) → IsOneToOne r → TurnsMove r w u → have_same_answers r w v (questions_of_left w turns l) ≡ true →
        Each (SameAnswer u v) (questions_of_left u turns (result_as r (left_as r (ident r)) l)) }
    ensures once_more { (r s : Renumbering) (w v u x : Around) (q : Moment × Question) → IsOneToOne r → IsOneToOne s → AroundMoves r w u → AroundMoves s u x → AroundMoves s v v → has_same_answer r w v q ≡ true →
        SameAnswer x v (new_asked s (new_asked r q)) }
{}

/// The carried forms are exactly those that go on, were worked on before and after, and have the same answers to all that they ask.
pub fn carried_exactly()
    ensures only { (r : Renumbering) (us vs : List WorkedUnit) (ps : List UnitPair) (c : ℕ × ℕ) → IsIn c (carried_by r us vs ps) → IsCarried r us vs ps c }
    ensures all { (r : Renumbering) (us vs : List WorkedUnit) (ps : List UnitPair) (c : ℕ × ℕ) → IsCarried r us vs ps c → IsIn c (carried_by r us vs ps) }
{}

/// The work of an event is at most the macro uses of the program that is there after it; it is all of them where nothing was open before, and
/// none where nothing is open after.
pub fn work_is_bounded()
    ensures most { (before after : List OpenDocument) → work before after ≤ program_uses (read_documents after) }
    ensures all { (after : List OpenDocument) → work [] after ≡ program_uses (read_documents after) }
    ensures none { (before : List OpenDocument) → work before [] ≡ 0 }
{}
