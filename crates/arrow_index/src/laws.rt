//! Laws of the definitions that this crate answers. Each is the contract of a function that does nothing.
ghost use Rattle.std.specs.Prelude.{◌≡◌, ◌↔◌, List, Bool, true};
ghost use Rattle.scheme_model.specs.declared.Occ.{Occ};
ghost use Rattle.scheme_model.specs.Spelling.{Link, is_member, class_of};
ghost use Rattle.program_leaves.specs.Members.{IsIn};
ghost use Rattle.arrow_index.specs.Classes.{IsClosed};

/// The class of an occurrence is the least set that holds it and has with an end of a link the other one, so it hangs on which links
/// there are, and not on their order. A set is told by a test of occurrences.
pub fn classes_are_least()
    ensures holds { (ls : List Link) (o : Occ) → is_member (class_of ls o) o ≡ true }
    ensures closed { (ls : List Link) (o : Occ) → IsClosed ls (is_member (class_of ls o)) }
    ensures least { (ls : List Link) (o : Occ) (set : Occ → Bool) → set o ≡ true → IsClosed ls set → (p : Occ) → is_member (class_of ls o) p ≡ true → set p ≡ true }
    ensures order { (ls ms : List Link) (o p : Occ) → ((l : Link) → IsIn l ls ↔ IsIn l ms) → is_member (class_of ls o) p ≡ is_member (class_of ms o) p }
{}
