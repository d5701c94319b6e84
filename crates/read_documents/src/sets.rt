//! The libraries that import sets are of (R7RS 5.2), and the units that are libraries by their names.
ghost use Rattle.std.specs.Prelude.{◌≡◌};
ghost use Rattle.std.specs.Option.{option_map};
ghost use Rattle.read_documents.specs.Libraries.{library_of};

use import_sets::ImportSet;
use std::collections::BTreeMap;

/// The places of the units that are libraries by their names: the first with each name. Units behind the most aren't among them.
pub type Firsts = BTreeMap<String, usize>;

/// The library that a set is of, unless it has no shape.
pub fn library_in(set: &ImportSet) -> Option<&str>
    ensures { option_map (λ s. s.now) result ≡ library_of set.now }
{
    match set {
        ImportSet::Library(name) => Some(name.as_str()),
        ImportSet::Only { set, .. } => library_in(set),
        ImportSet::Except { set, .. } => library_in(set),
        ImportSet::Prefix { set, .. } => library_in(set),
        ImportSet::Rename { set, .. } => library_in(set),
        ImportSet::Bad => None,
    }
}
