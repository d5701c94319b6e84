//! Which unit a library's name means: the first that has it.
ghost use Rattle.std.specs.Prelude.{◌≡◌, ℕ, List, None, Some, if◌then◌else◌, IfOk, OnOk};
ghost use Rattle.std.specs.BTreeMap.{get_by_text};
ghost use Rattle.std.specs.Str.{bytes_eq};
ghost use Rattle.unit_sources.specs.Named.{is_name, place_named};
ghost use Rattle.import_sets.specs.Firsts.{first_of, place_if};

use crate::units::UnitSource;
use import_sets::firsts::note_first;
use ls_base::{Mem, Text};
use std::alloc::Global;
use std::collections::BTreeMap;

/// Notes the place of a unit, if it has a name and that is new.
fn note_unit(
    alloc: Global,
    places: &mut BTreeMap<String, usize>,
    name: &Option<Text>,
    place: usize,
) -> Mem<()>
    ensures { OnOk result ((s : List ℕ) → get_by_text places.new s
        ≡ first_of (get_by_text places.old s) (place_if (is_name s name.now) place)) }
{
    match name {
        None => Ok(()),
        Some(name) => note_first(alloc, places, name.as_str(), place),
    }
}

/// The place of the first unit with each name.
pub fn first_places(alloc: Global, units: &[UnitSource]) -> Mem<BTreeMap<String, usize>>
    ensures { IfOk result (λ places. (s : List ℕ) → get_by_text places s ≡ place_named s 0 units.now) }
{
    let mut places = BTreeMap::new(alloc);
    for (place, unit) in units.iter().enumerate() {
        note_unit(alloc, &mut places, &unit.name, place)?;
    }
    Ok(places)
}
