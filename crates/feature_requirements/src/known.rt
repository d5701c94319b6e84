//! The libraries that there are, by their names (R7RS 4.2.1, 5.6): those for which a requirement `(library name)` holds.
ghost use Rattle.std.specs.Prelude.{◌≡◌, ℕ, List, IfOk};
ghost use Rattle.std.specs.BTreeSet.{contains_text};
ghost use Rattle.scheme_model.specs.Program.{has_name};
ghost use Rattle.scheme_model.specs.Requirements.{Known, LibraryName};
ghost use Rattle.scheme_tokens.specs.LibraryNames.{IsProper};
ghost use Rattle.feature_requirements.specs.Judged.{Knows, library_text};

use ls_base::{Items, Mem, Text};
use std::alloc::Global;
use std::collections::BTreeSet;

/// The libraries that there are, made once for all units of a program.
#[derive(Drop)]
pub struct Libraries {
    pub names: BTreeSet<String>,
}

impl Libraries {
    /// The libraries with these names.
    pub fn of(alloc: Global, listed: &Items<Text>) -> Mem<Libraries>
        ensures names { IfOk result (λ l. (s : List ℕ) → contains_text l.names s ≡ has_name listed.now s) }
        ensures knows { (known : Known) → ((n : LibraryName) → IsProper n → known n ≡ has_name listed.now (library_text n)) → IfOk result (λ l. Knows l.names known) }
    {
        let names = names(alloc, listed.as_slice())?;
        Ok(Libraries { names })
    }
}

/// A set of these names.
fn names(alloc: Global, listed: &[Text]) -> Mem<BTreeSet<String>>
    ensures { IfOk result (λ names. (s : List ℕ) → contains_text names s ≡ has_name listed.now s) }
{
    let mut names = BTreeSet::new(alloc);
    for library in listed {
        names.insert(String::from_str(alloc, library.as_str())?)?;
    }
    Ok(names)
}
