//! The modifiers `only`, `except` and `prefix` (R7RS 5.2).
ghost use Rattle.std.specs.Prelude.{◌≡◌, map, IfOk};
ghost use Rattle.import_sets.specs.Given.{prefixed_origin, prefixed, only, except, Same};

use crate::ImportFault;
use crate::copy::joined;
use crate::names::{listed, missing};
use crate::set::SetName;
use ls_base::{Items, Mem};
use std::alloc::Global;
use syntax_tree::units::{Entry, Origin};

/// The entries with these names.
pub fn only(
    alloc: Global,
    entries: Items<Entry>,
    names: &[SetName],
) -> Result<Items<Entry>, ImportFault>
    ensures { Same result (only names.now entries) }
{
    if let Some(name) = missing(alloc, names, entries.as_slice())? {
        return Err(ImportFault::NotThere(name));
    }
    let listed = listed(alloc, names)?;
    let mut kept = entries.into_vec();
    kept.retain(|entry| listed.contains(entry.name.as_str()));
    Ok(Items::from_vec(kept))
}

/// The entries without these names.
pub fn except(
    alloc: Global,
    entries: Items<Entry>,
    names: &[SetName],
) -> Result<Items<Entry>, ImportFault>
    ensures { Same result (except names.now entries) }
{
    if let Some(name) = missing(alloc, names, entries.as_slice())? {
        return Err(ImportFault::NotThere(name));
    }
    let listed = listed(alloc, names)?;
    let mut kept = entries.into_vec();
    kept.retain(|entry| !listed.contains(entry.name.as_str()));
    Ok(Items::from_vec(kept))
}

/// What spells a name, behind one more prefix.
fn prefixed_origins(alloc: Global, prefix: &str, origins: &[Origin]) -> Mem<Items<Origin>>
    ensures { IfOk result (λ all. all ≡ map (prefixed_origin prefix.now) origins.now) }
{
    let mut all = Items::new(alloc);
    for origin in origins {
        all.push(Origin {
            occ: origin.occ,
            prefix: joined(alloc, prefix, origin.prefix.as_str())?,
        })?;
    }
    Ok(all)
}

/// The entries with a prefix before their names, and before what spells them.
pub fn prefixed(alloc: Global, entries: &[Entry], prefix: &str) -> Mem<Items<Entry>>
    ensures { IfOk result (λ all. all ≡ map (prefixed prefix.now) entries.now) }
{
    let mut all = Items::new(alloc);
    for entry in entries {
        all.push(Entry {
            name: joined(alloc, prefix, entry.name.as_str())?,
            meaning: entry.meaning,
            origins: prefixed_origins(alloc, prefix, entry.origins.as_slice())?,
        })?;
    }
    Ok(all)
}
