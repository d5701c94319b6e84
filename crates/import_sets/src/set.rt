//! Import sets (R7RS 5.2).
ghost use Rattle.std.specs.Prelude.{◌≡◌};
ghost use Rattle.import_sets.specs.Given.{has_bad, lists_none};

use ls_base::{Items, Text};
use scheme_model::Occ;

/// An identifier of a set, with the place where it stands.
#[derive(Drop)]
pub struct SetName {
    pub name: Text,
    pub occ: Option<Occ>,
}

/// An identifier of a set, and the one under which `rename` gives it.
#[derive(Drop)]
pub struct NamePair {
    pub from: SetName,
    pub to: SetName,
}

/// A library's name as a text, and what modifiers do to what it exports, the innermost first. `Bad` stands for a set, or an
/// inner set, without the shape of one.
#[derive(Drop)]
pub enum ImportSet {
    Library(Text),
    Only {
        set: Box<ImportSet>,
        names: Items<SetName>,
    },
    Except {
        set: Box<ImportSet>,
        names: Items<SetName>,
    },
    Prefix {
        set: Box<ImportSet>,
        prefix: Text,
    },
    Rename {
        set: Box<ImportSet>,
        pairs: Items<NamePair>,
    },
    Bad,
}

/// Whether a set, or a set inside of it, has no shape.
pub fn has_bad(set: &ImportSet) -> bool
    ensures { result ≡ has_bad set.now }
{
    match set {
        ImportSet::Library(_) => false,
        ImportSet::Only { set, .. } => has_bad(set),
        ImportSet::Except { set, .. } => has_bad(set),
        ImportSet::Prefix { set, .. } => has_bad(set),
        ImportSet::Rename { set, .. } => has_bad(set),
        ImportSet::Bad => true,
    }
}

/// Whether no modifier of a set lists identifiers.
pub fn lists_none(set: &ImportSet) -> bool
    ensures { result ≡ lists_none set.now }
{
    match set {
        ImportSet::Library(_) => true,
        ImportSet::Only { set: _, names: _ } => false,
        ImportSet::Except { set: _, names: _ } => false,
        ImportSet::Prefix { set, prefix: _ } => lists_none(set),
        ImportSet::Rename { set: _, pairs: _ } => false,
        ImportSet::Bad => true,
    }
}
