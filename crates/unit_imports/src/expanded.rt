//! What units come to.
ghost use Rattle.std.specs.Prelude.{◌≡◌};
ghost use Rattle.unit_imports.specs.Whole.{with_forms};

use core_tree::units::{NameUse, UnitForm};
use ls_base::Items;
use read_documents::findings::Finding;
use scheme_model::Occ;
use syntax_tree::units::Entry;

/// What a unit came to: what it imports, its forms, the identifiers of its imports and exports, the second identifiers of the
/// pairs that its imports rename by, what it exports, and what is wrong in it.
#[derive(Drop)]
pub struct Expanded {
    pub entries: Vec<Entry>,
    pub forms: Items<UnitForm>,
    pub names: Items<NameUse>,
    pub seconds: Items<Occ>,
    pub exports: Items<Entry>,
    pub findings: Vec<Finding>,
}

/// What a unit came to, but for its forms.
#[derive(Drop)]
pub struct Rest {
    pub entries: Vec<Entry>,
    pub names: Items<NameUse>,
    pub seconds: Items<Occ>,
    pub exports: Items<Entry>,
    pub findings: Vec<Finding>,
}

impl Rest {
    /// The whole, with these forms.
    pub fn with(self, forms: Items<UnitForm>) -> Expanded
        ensures { result ≡ with_forms self forms }
    {
        let Rest {
            entries,
            names,
            seconds,
            exports,
            findings,
        } = self;
        Expanded {
            entries,
            forms,
            names,
            seconds,
            exports,
            findings,
        }
    }
}
