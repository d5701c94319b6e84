//! Laws of the classes that renames take. Each is the contract of a function that does nothing.
ghost use Rattle.std.specs.Prelude.{◌≡◌, ℕ, List, [], true, false};
ghost use Rattle.scheme_model.specs.declared.Occ.{Occ};
ghost use Rattle.scheme_model.specs.Spelling.{class_of, is_joined, is_member};
ghost use Rattle.text_edits.specs.Members.{is_part};
ghost use Rattle.rename_conditions.specs.Readers.{Reader};
ghost use Rattle.rename_conditions.specs.Opened.{opened, class_in};
ghost use Rattle.class_laws.specs.Joined.{AreJoined};

/// The class that a rename takes is by links alone, whatever the texts are and however they are read. Exactly the ends of links have a
/// prefix, so none is left out: the class of an end of a link is what links join to it, and as a list that of the links. What is no
/// end of a link has no class.
pub fn classes_are_by_links()
    ensures prefixed { (r : Reader) (uris texts : List (List ℕ)) (o : Occ) → let w = opened r uris texts in is_part w.links o ≡ is_joined w.links o }
    ensures joined { (r : Reader) (uris texts : List (List ℕ)) (o p : Occ) → let w = opened r uris texts in is_member (class_in w o) p ≡ true → AreJoined w.links o p }
    ensures whole { (r : Reader) (uris texts : List (List ℕ)) (o p : Occ) → let w = opened r uris texts in is_joined w.links o ≡ true → AreJoined w.links o p → is_member (class_in w o) p ≡ true }
    ensures same { (r : Reader) (uris texts : List (List ℕ)) (o : Occ) → let w = opened r uris texts in is_joined w.links o ≡ true → class_in w o ≡ class_of w.links o }
    ensures none { (r : Reader) (uris texts : List (List ℕ)) (o : Occ) → let w = opened r uris texts in is_joined w.links o ≡ false → class_in w o ≡ [] }
{}
