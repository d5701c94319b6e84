//! The modifier `rename` (R7RS 5.2), all pairs at once.
ghost use Rattle.std.specs.Prelude.{◌≡◌, ◌++◌, [], ℕ, List, map, IfOk, OnOk};
ghost use Rattle.std.specs.BTreeMap.{get_by_text};
ghost use Rattle.std.specs.Option.{option_map_or};
ghost use Rattle.import_sets.specs.Given.{given_under, place_origin, renamed, under, rename_all, rename, Same};

use crate::ImportFault;
use crate::clash::gathered;
use crate::copy::copy_of_name;
use crate::names::missing_pair;
use crate::set::{NamePair, SetName};
use ls_base::{Items, Mem, Text};
use scheme_model::Occ;
use std::alloc::Global;
use std::collections::BTreeMap;
use syntax_tree::units::{Entry, Origin};

/// The identifiers under which names are given, in the order of the pairs, by the names.
fn given_under(alloc: Global, pairs: &[NamePair]) -> Mem<BTreeMap<String, Vec<SetName>>>
    ensures { IfOk result (λ map. (s : List ℕ) →
        option_map_or (λ names. names.items) (get_by_text map s) [] ≡ given_under pairs.now s) }
{
    let mut under: BTreeMap<String, Vec<SetName>> = BTreeMap::new(alloc);
    for pair in pairs {
        let from = String::from_str(alloc, pair.from.name.as_str())?;
        let to = copy_of_name(&pair.to)?;
        under.entry(from)?.or_default().push(to)?;
    }
    Ok(under)
}

/// The identifiers under which a name is given.
fn names_under<'a>(under: &'a BTreeMap<String, Vec<SetName>>, name: &str) -> &'a [SetName]
    ensures { result.now ≡ option_map_or (λ names. names.items) (get_by_text under.now name.now) [] }
{
    match under.get(name) {
        Some(names) => names.as_slice(),
        None => &[],
    }
}

/// What spells the second identifier of a pair: its place, where it has one.
fn place_origin(alloc: Global, occ: Option<Occ>) -> Mem<Items<Origin>>
    ensures { IfOk result (λ origins. origins ≡ place_origin occ) }
{
    let mut origins = Items::new(alloc);
    if occ.is_some() {
        origins.push(Origin {
            occ,
            prefix: Text::of(alloc, "")?,
        })?;
    }
    Ok(origins)
}

/// An entry under another name, which its second identifier spells.
pub fn renamed(alloc: Global, entry: &Entry, name: &SetName) -> Mem<Entry>
    ensures { IfOk result (λ new. new ≡ renamed entry.now name.now) }
{
    Ok(Entry {
        name: name.name.clone()?,
        meaning: entry.meaning,
        origins: place_origin(alloc, name.occ)?,
    })
}

/// Adds an entry under each of these names, or as it is where there are none.
fn add_under(alloc: Global, all: &mut Items<Entry>, entry: Entry, names: &[SetName]) -> Mem<()>
    ensures { OnOk result (all.new ≡ all.old ++ under entry names.now) }
{
    if names.is_empty() {
        return Ok(all.push(entry)?);
    }
    for name in names {
        all.push(renamed(alloc, &entry, name)?)?;
    }
    Ok(())
}

/// Entries under their new names, where they have some.
fn renamed_all(alloc: Global, entries: Items<Entry>, pairs: &[NamePair]) -> Mem<Items<Entry>>
    ensures { IfOk result (λ all. all ≡ rename_all pairs.now entries) }
{
    let under = given_under(alloc, pairs)?;
    let mut all = Items::new(alloc);
    for entry in entries.into_vec() {
        let names = names_under(&under, entry.name.as_str());
        add_under(alloc, &mut all, entry, names)?;
    }
    Ok(all)
}

/// The entries with each name that is the first of a pair under the second of each such pair.
pub fn rename(
    alloc: Global,
    entries: Items<Entry>,
    pairs: &[NamePair],
) -> Result<Items<Entry>, ImportFault>
    ensures { Same result (rename pairs.now entries) }
{
    if let Some(name) = missing_pair(alloc, pairs, entries.as_slice())? {
        return Err(ImportFault::NotThere(name));
    }
    Ok(gathered(alloc, renamed_all(alloc, entries, pairs)?)?)
}
