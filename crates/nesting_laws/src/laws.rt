//! Laws of the definitions. Each is the contract of a function that does nothing.
ghost use Rattle.std.specs.Prelude.{◌≡◌, ◌<◌, ℕ, length, true, false, Some};
ghost use Rattle.scheme_model.specs.Includes.{StringAt, Naming, named_by, is_among, is_on_circle, document_at, naming, usable};
ghost use Rattle.scheme_model.specs.Included.{Sources, all_texts, forms_of, declarations_of, included_data};
ghost use Rattle.nesting_laws.specs.Onward.{onward, IsClosed};

/// What a document names, directly or not, is closed: a document that one of these names is one of these.
pub fn named_onward_is_closed()
    ensures { (all : Naming) (n : ℕ) → IsClosed all (onward all n) }
{}

/// A document that another names and that isn't on a circle names fewer documents onward than the other, and fewer than there are.
pub fn nested_names_fewer()
    ensures named { (all : Naming) (n m : ℕ) → m < length all → is_among (named_by all n) m ≡ true → is_on_circle all m ≡ false → length (onward all m) < length (onward all n) }
    ensures most { (all : Naming) (m : ℕ) → m < length all → is_on_circle all m ≡ false → length (onward all m) < length all }
{}

/// However deep includes are nested (R7RS 4.1.7, 5.6.1), a string that means a text that can be included gives the forms, or the
/// declarations, that are the data of that text, with all that these include.
pub fn nested_texts_are_given()
    ensures forms { (o : Sources) → o.usable ≡ usable (naming o.documents) o.documents → (n m : ℕ) (s : StringAt) → (document_at o.documents n).meant s.characters ≡ Some m → is_among o.usable m ≡ true →
        (all_texts o).as_forms n s ≡ forms_of (all_texts o) (included_data o.documents m) }
    ensures declarations { (o : Sources) → o.usable ≡ usable (naming o.documents) o.documents → (n m : ℕ) (s : StringAt) → (document_at o.documents n).meant s.characters ≡ Some m → is_among o.usable m ≡ true →
        (all_texts o).as_declarations n s ≡ declarations_of (all_texts o) o.known (included_data o.documents m) }
{}
