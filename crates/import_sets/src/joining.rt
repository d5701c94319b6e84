//! Whether meanings are the same, and origins one behind the other.
ghost use Rattle.std.specs.Prelude.{◌≡◌, ◌++◌, OnOk};
ghost use Rattle.import_sets.specs.Given.{same_meaning};

use ls_base::{Items, Mem};
use syntax_tree::meaning::Meaning;
use syntax_tree::units::Origin;

/// Whether two names mean the same.
pub fn same_meaning(a: Meaning, b: Meaning) -> bool
    ensures { result ≡ same_meaning a b }
{
    a == b
}

/// Adds origins at the end.
pub fn add_origins(all: &mut Items<Origin>, more: Items<Origin>) -> Mem<()>
    ensures { OnOk result (all.new ≡ all.old ++ more) }
{
    for origin in more.into_vec() {
        all.push(origin)?;
    }
    Ok(())
}
