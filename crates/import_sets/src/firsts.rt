//! The first place of each name: of entries, and of libraries, which import sets name.
ghost use Rattle.std.specs.Prelude.{◌≡◌, ◌<◌, ℕ, List, Some, IfOk, OnOk, length, slice_get};
ghost use Rattle.std.specs.BTreeMap.{get_by_text};
ghost use Rattle.std.specs.Str.{bytes_eq};
ghost use Rattle.import_sets.specs.Firsts.{first_of, place_if, place_of, place_in, place_under};

use crate::set::ImportSet;
use ls_base::Mem;
use std::alloc::Global;
use std::collections::{BTreeMap, HashMap};
use syntax_tree::units::Entry;

/// Notes the place of a name, if it is new.
pub fn note_first(
    alloc: Global,
    places: &mut BTreeMap<String, usize>,
    name: &str,
    place: usize,
) -> Mem<()>
    ensures { OnOk result ((s : List ℕ) → get_by_text places.new s
        ≡ first_of (get_by_text places.old s) (place_if (bytes_eq name.now s) place)) }
{
    if places.contains_key(name) {
        return Ok(());
    }
    places.insert(String::from_str(alloc, name)?, place)?;
    Ok(())
}

/// Places of entries by their names, which the entries hold.
pub type EntryPlaces<'a> = HashMap<&'a str, usize>;

/// Notes the place of an entry's name, if it is new.
fn note_entry<'a>(places: &mut EntryPlaces<'a>, name: &'a str, place: usize) -> Mem<()>
    ensures { OnOk result ((s : List ℕ) → place_under places.new s
        ≡ first_of (place_under places.old s) (place_if (bytes_eq name.now s) place)) }
{
    if places.contains_key(name) {
        return Ok(());
    }
    places.insert(name, place)?;
    Ok(())
}

/// The place of the first entry with each name.
pub fn entry_places<'a>(alloc: Global, entries: &'a [Entry]) -> Mem<EntryPlaces<'a>>
    ensures { IfOk result (λ places. (s : List ℕ) → place_under places s ≡ place_of s 0 entries.now) }
{
    let mut places = HashMap::new(alloc);
    for (place, entry) in entries.iter().enumerate() {
        note_entry(&mut places, entry.name.as_str(), place)?;
    }
    Ok(places)
}

/// The place of the first entry with a name.
pub fn entry_place(places: &EntryPlaces<'_>, name: &str) -> Option<usize>
    ensures { result ≡ place_under places.now name.now }
{
    places.get(name).copied()
}

/// The place of a name.
pub fn place_for(places: &BTreeMap<String, usize>, name: &str) -> Option<usize>
    ensures { result ≡ get_by_text places.now name.now }
{
    places.get(name).copied()
}

/// The entry at a place.
pub fn entry_at(entries: &[Entry], place: usize) -> &Entry
    requires { place < length entries.now }
    ensures { slice_get entries.now place ≡ Some result.now }
{
    &entries[place]
}

/// The place of the library that a set names.
pub fn place_in(firsts: &BTreeMap<String, usize>, set: &ImportSet) -> Option<usize>
    ensures { result ≡ place_in (λ s. get_by_text firsts.now s) set.now }
{
    match set {
        ImportSet::Library(name) => firsts.get(name.as_str()).copied(),
        ImportSet::Only { set, .. } => place_in(firsts, set),
        ImportSet::Except { set, .. } => place_in(firsts, set),
        ImportSet::Prefix { set, .. } => place_in(firsts, set),
        ImportSet::Rename { set, .. } => place_in(firsts, set),
        ImportSet::Bad => None,
    }
}
