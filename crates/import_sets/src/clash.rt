//! Entries in which a name may stand twice, put together, and the names that clash (R7RS 5.2).
ghost use Rattle.std.specs.Prelude.{◌≡◌, map, reverse, IfOk};
ghost use Rattle.import_sets.specs.Given.{both, finished, least_of, gathered, Same};

use crate::ImportFault;
use crate::gather::{Gathering, Group};
use crate::origins::Origins;
use ls_base::{Items, Mem, Text};
use std::alloc::Global;
use syntax_tree::units::{Entry, Origin};

/// The least of some names in byte order, which stand with the latest last.
fn least(names: Vec<Text>) -> Option<Text>
    ensures { result ≡ least_of (reverse names.items) }
{
    let mut rest = names;
    let mut least = rest.pop()?;
    while let Some(name) = rest.pop() {
        if name < least {
            least = name;
        }
    }
    Some(least)
}

/// The origins of both, those of the second each once.
fn both(alloc: Global, origins: Items<Origin>, more: Items<Origin>) -> Mem<Items<Origin>>
    ensures { IfOk result (λ all. all ≡ both origins more) }
{
    if more.as_slice().is_empty() {
        return Ok(origins);
    }
    let mut origins = Origins::of(alloc, origins)?;
    for origin in more.into_vec() {
        origins = origins.with(origin)?;
    }
    let Origins { all, keys: _ } = origins;
    Ok(all)
}

/// The entries with all their origins.
pub fn finished(alloc: Global, groups: Vec<Group>) -> Mem<Items<Entry>>
    ensures { IfOk result (λ all. all ≡ map finished groups.items) }
{
    let mut all = Items::new(alloc);
    for group in groups {
        let Group { entry, more } = group;
        let Entry {
            name,
            meaning,
            origins,
        } = entry;
        all.push(Entry {
            name,
            meaning,
            origins: both(alloc, origins, more)?,
        })?;
    }
    Ok(all)
}

/// Entries in which each name stands once, or the first name in byte order with two meanings.
pub fn gathered(alloc: Global, entries: Items<Entry>) -> Result<Items<Entry>, ImportFault>
    ensures { Same result (gathered entries) }
{
    let mut gathering = Gathering::new(alloc);
    for entry in entries.into_vec() {
        gathering = gathering.take_in(alloc, entry)?;
    }
    let Gathering {
        groups,
        places: _,
        clashes,
    } = gathering;
    if let Some(name) = least(clashes) {
        return Err(ImportFault::Clash(name));
    }
    Ok(finished(alloc, groups)?)
}
