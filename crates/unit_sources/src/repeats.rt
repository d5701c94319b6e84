//! Libraries whose name an earlier library has.
ghost use Rattle.std.specs.Prelude.{◌≡◌, ◌<◌, ◌^◌, ◌++◌, ◌∷◌, [], ℕ, List, IfOk, OnOk, length, true, if◌then◌else◌};
ghost use Rattle.std.specs.BTreeMap.{get_by_text};
ghost use Rattle.scheme_model.specs.Requirements.{LibraryName};
ghost use Rattle.scheme_model.specs.IncludedUnits.{Placed};
ghost use Rattle.scheme_model.specs.Program.{is_in};
ghost use Rattle.unit_sources.specs.Named.{place_named, is_other, is_later, later_from};
ghost use Rattle.unit_sources.specs.Sources.{TellsNames, AreUnits};
ghost use Rattle.unit_sources.specs.Repeated.{repeated_places};

use crate::firsts::first_places;
use crate::units::UnitSource;
use import_sets::places::push_if;
use ls_base::{Items, Mem, Text};
use std::alloc::Global;
use std::collections::BTreeMap;

/// The places of the libraries whose name an earlier one has. A unit that doesn't come into question, as one with a bad
/// declaration, is given without a name. Which names are standard isn't known here: who calls it adds the libraries with those.
pub fn repeated(alloc: Global, units: &[UnitSource]) -> Mem<Items<u32>>
    requires { length units.now < 2 ^ 32 }
    ensures repeated { (spelled : LibraryName → List ℕ) → TellsNames spelled → (all : List Placed) → AreUnits spelled units.now all →
        IfOk result (λ places. places ≡ repeated_places all) }
    // Whatever the units are.
    ensures within { IfOk result (λ places. (n : ℕ) → is_in n places ≡ true → n < length units.now) }
{
    let firsts = first_places(alloc, units)?;
    Ok(later_places(alloc, units, &firsts)?)
}

/// The places of the units that aren't the first with their name.
fn later_places(
    alloc: Global,
    units: &[UnitSource],
    firsts: &BTreeMap<String, usize>,
) -> Mem<Items<u32>>
    requires few { length units.now < 2 ^ 32 }
    requires firsts { (s : List ℕ) → get_by_text firsts.now s ≡ place_named s 0 units.now }
    ensures { IfOk result (λ places. places ≡ later_from units.now 0 units.now) }
{
    let mut places = Items::new(alloc);
    for (place, unit) in units.iter().enumerate() {
        push_if(
            &mut places,
            is_later(firsts, &unit.name, place),
            place as u32,
        )?;
    }
    Ok(places)
}

/// Whether the first unit with a name is another.
fn is_later(firsts: &BTreeMap<String, usize>, name: &Option<Text>, place: usize) -> bool
    ensures { result ≡ is_later (λ s. get_by_text firsts.now s) place name.now }
{
    match name {
        None => false,
        Some(name) => is_other(firsts, name.as_str(), place),
    }
}

/// Whether a name has its first place elsewhere, or nowhere.
fn is_other(firsts: &BTreeMap<String, usize>, name: &str, place: usize) -> bool
    ensures { result ≡ is_other (get_by_text firsts.now name.now) place }
{
    match firsts.get(name) {
        None => true,
        Some(first) => *first != place,
    }
}
