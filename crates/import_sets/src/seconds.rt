//! The second identifiers of the pairs that sets rename by (R7RS 5.2).
ghost use Rattle.std.specs.Prelude.{◌≡◌, ◌++◌, [], IfOk, OnOk, option_to_list, if◌then◌else◌};
ghost use Rattle.scheme_model.specs.Entries as model;
ghost use Rattle.scheme_model.specs.Spelling.{second_places};
ghost use Rattle.import_sets.specs.Given.{has_bad};
ghost use Rattle.import_sets.specs.Seconds.{pair_seconds, seconds};
ghost use Rattle.import_sets.specs.Sets.{IsSet};

use crate::set::{ImportSet, NamePair, has_bad};
use ls_base::{Items, Mem};
use scheme_model::Occ;
use std::alloc::Global;

/// Adds a place, if there is one.
fn add_place(places: &mut Items<Occ>, place: Option<Occ>) -> Mem<()>
    ensures { OnOk result (places.new ≡ places.old ++ option_to_list place) }
{
    if let Some(occ) = place {
        places.push(occ)?;
    }
    Ok(())
}

/// Adds the places of the second identifiers of pairs.
fn add_pairs(places: &mut Items<Occ>, pairs: &[NamePair]) -> Mem<()>
    ensures { OnOk result (places.new ≡ places.old ++ pair_seconds pairs.now) }
{
    for pair in pairs {
        add_place(places, pair.to.occ)?;
    }
    Ok(())
}

/// Adds those of a set.
fn add_all(places: &mut Items<Occ>, set: &ImportSet) -> Mem<()>
    ensures { OnOk result (places.new ≡ places.old ++ seconds set.now) }
{
    match set {
        ImportSet::Library(_) => Ok(()),
        ImportSet::Only { set, .. } => add_all(places, set),
        ImportSet::Except { set, .. } => add_all(places, set),
        ImportSet::Prefix { set, .. } => add_all(places, set),
        ImportSet::Rename { set, pairs } => {
            add_all(places, set)?;
            add_pairs(places, pairs.as_slice())
        }
        ImportSet::Bad => Ok(()),
    }
}

/// Those of a set that has a shape.
fn seconds_in(alloc: Global, set: &ImportSet) -> Mem<Items<Occ>>
    ensures { IfOk result (λ places. places ≡ (if has_bad set.now then [] else seconds set.now)) }
{
    if has_bad(set) {
        return Ok(Items::new(alloc));
    }
    let mut places = Items::new(alloc);
    add_all(&mut places, set)?;
    Ok(places)
}

/// The places of the second identifiers of all pairs that a set renames by, if it has a shape, whatever its library gives.
pub fn second_places(alloc: Global, set: &ImportSet) -> Mem<Items<Occ>>
    ensures { (s : model.ImportSet) → IsSet set.now s → IfOk result (λ places. places ≡ second_places s) }
{
    Ok(seconds_in(alloc, set)?)
}
