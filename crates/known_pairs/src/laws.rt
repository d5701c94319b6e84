//! Laws of the definitions. Each is the contract of a function that does nothing.
ghost use Rattle.std.specs.Prelude.{◌≡◌, ◌≤◌, ℕ, List, Some};
ghost use Rattle.renumbering_laws.specs.Moving.{move_tree};
ghost use Rattle.renumbering_laws.specs.Renumbering.{Renumbering, change};
ghost use Rattle.renumbering_laws.specs.NewSurroundings.{HasOldNumbers};
ghost use Rattle.carried_forms.specs.Paired.{UnitPair};
ghost use Rattle.carried_forms.specs.Worked.{WorkedForm, OpenDocument, AreOpenOnce, read_documents, units_at_work};
ghost use Rattle.carried_forms.specs.Carried.{IsIn, worked_at, carried, work};
ghost use Rattle.carried_laws.specs.Homes.{HomesGoOn};
ghost use Rattle.carried_laws.specs.CarriedOver.{numbers_between, pairs_between, prepared_of, AllHomesGoOn};
ghost use Rattle.agreeing_numbers.specs.Following.{Follows};
ghost use Rattle.known_pairs.specs.Known.{pairs_known, numbers_known, carried_known, work_known, KnownHomes};

/// Where units are paired before their forms are worked on, so that one goes on whose forms count too many nodes after the event, all pairs of the event are
/// there, and its numbers are followed (R7RS 5.1). So each carried form is carried, and no more is worked than the work of the event.
pub fn pairs_known_before_carry_as_much()
    ensures pairs { (before after : List OpenDocument) (p : UnitPair) → AreOpenOnce before → AreOpenOnce after → IsIn p (pairs_between before after) → IsIn p (pairs_known before after) }
    ensures tell { (before after : List OpenDocument) → AreOpenOnce before → AreOpenOnce after → HasOldNumbers (numbers_known before after) }
    ensures follow { (before after : List OpenDocument) → AreOpenOnce before → AreOpenOnce after → Follows (numbers_between before after) (numbers_known before after) (read_documents after) }
    ensures carried { (before after : List OpenDocument) (c : ℕ × ℕ) → AreOpenOnce before → AreOpenOnce after → AllHomesGoOn before after → IsIn c (carried before after) → IsIn c (carried_known before after) }
    ensures work { (before after : List OpenDocument) → AreOpenOnce before → AreOpenOnce after → AllHomesGoOn before after → work_known before after ≤ work before after }
{}

/// A form that goes on by these pairs has the number and the tree that it had (R7RS 2, 5.1), under any numbers that send its unit, its number, and homes of
/// included forms to what they go on as; and such homes are told by the uris of their texts.
pub fn known_trees_go_on_at_home()
    ensures tree { (before after : List OpenDocument) (r : Renumbering) (p : UnitPair) (q : ℕ × ℕ) (f g : WorkedForm) → IsIn p (pairs_known before after) → IsIn q p.forms →
        worked_at (units_at_work (read_documents before)) p.before q.0 ≡ Some f → worked_at (units_at_work (read_documents after)) p.after q.1 ≡ Some g → r.unit p.before ≡ p.after → r.form p.before q.0 ≡ q.1 →
        HomesGoOn r (prepared_of before) (prepared_of after) (pairs_known before after) → (r.form p.before f.form ≡ g.form) × (move_tree (change r) f.tree ≡ g.tree) }
    ensures homes { (before after : List OpenDocument) (r : Renumbering) → KnownHomes r before after → HomesGoOn r (prepared_of before) (prepared_of after) (pairs_known before after) }
{}
