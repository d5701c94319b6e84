//! Which names there are.
ghost use Rattle.std.specs.Prelude.{◌≡◌, ℕ, List, map, IfOk};
ghost use Rattle.std.specs.HashSet.{contains_text};
ghost use Rattle.import_sets.specs.Given.{has_name, is_listed, missing};
ghost use Rattle.import_sets.specs.declared.set.NamePair.{NamePair as PairOfNames};

use crate::copy::copy_of_name;
use crate::set::{NamePair, SetName};
use ls_base::Mem;
use std::alloc::Global;
use std::collections::HashSet;
use syntax_tree::units::Entry;

/// The names of entries.
fn names_of(alloc: Global, entries: &[Entry]) -> Mem<HashSet<String>>
    ensures { IfOk result (λ names. (s : List ℕ) → contains_text names s ≡ has_name entries.now s) }
{
    let mut names = HashSet::new(alloc);
    for entry in entries {
        names.insert(String::from_str(alloc, entry.name.as_str())?)?;
    }
    Ok(names)
}

/// The names that a modifier lists.
pub fn listed(alloc: Global, names: &[SetName]) -> Mem<HashSet<String>>
    ensures { IfOk result (λ listed. (s : List ℕ) → contains_text listed s ≡ is_listed names.now s) }
{
    let mut listed = HashSet::new(alloc);
    for name in names {
        listed.insert(String::from_str(alloc, name.name.as_str())?)?;
    }
    Ok(listed)
}

/// The first of these identifiers whose name no entry has.
pub fn missing(alloc: Global, names: &[SetName], entries: &[Entry]) -> Mem<Option<SetName>>
    ensures { IfOk result (λ name. name ≡ missing names.now entries.now) }
{
    let there = names_of(alloc, entries)?;
    for name in names {
        if !there.contains(name.name.as_str()) {
            return Ok(Some(copy_of_name(name)?));
        }
    }
    Ok(None)
}

/// The first of the identifiers that are to be renamed whose name no entry has.
pub fn missing_pair(alloc: Global, pairs: &[NamePair], entries: &[Entry]) -> Mem<Option<SetName>>
    ensures { IfOk result
        (λ name. name ≡ missing (map (λ (p : PairOfNames). p.from) pairs.now) entries.now) }
{
    let there = names_of(alloc, entries)?;
    for pair in pairs {
        if !there.contains(pair.from.name.as_str()) {
            return Ok(Some(copy_of_name(&pair.from)?));
        }
    }
    Ok(None)
}
