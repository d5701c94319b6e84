//! The libraries that there are, by their names (R7RS 4.2.1, 5.6): those for which a requirement `(library name)` holds.
ghost use Rattle.std.specs.Prelude.{◌≡◌, ℕ, List, IfOk};
ghost use Rattle.std.specs.BTreeSet.{contains_text};
ghost use Rattle.scheme_model.specs.Program.{has_name};
ghost use Rattle.scheme_model.specs.Requirements.{Known, LibraryName};
ghost use Rattle.scheme_tokens.specs.LibraryNames.{library_text, IsProper};
ghost use Rattle.known_libraries.specs.PartsRead.{Knows};

use ls_base::{Items, Mem, Text};
use std::alloc::Global;
use std::collections::BTreeSet;

/// The libraries that there are, made once for all that are read.
#[derive(Drop)]
pub struct KnownLibraries {
    pub names: BTreeSet<String>,
}

impl KnownLibraries {
    /// The libraries whose names have these texts: their parts in parentheses, with one space between each two.
    pub fn of(alloc: Global, listed: &Items<Text>) -> Mem<KnownLibraries>
        ensures names { IfOk result (λ known. (s : List ℕ) → contains_text known.names s ≡ has_name listed.now s) }
        ensures knows { (has : Known) → ((n : LibraryName) → IsProper n → has n ≡ has_name listed.now (library_text n)) → IfOk result (λ known. Knows known.names has) }
    {
        let names = names(alloc, listed.as_slice())?;
        Ok(KnownLibraries { names })
    }
}

/// A set of these names.
fn names(alloc: Global, listed: &[Text]) -> Mem<BTreeSet<String>>
    ensures { IfOk result (λ names. (s : List ℕ) → contains_text names s ≡ has_name listed.now s) }
{
    let mut names = BTreeSet::new(alloc);
    for library in listed {
        names.insert(String::from_str(alloc, library.as_str())?)?;
    }
    Ok(names)
}
