//! The units by their places, each with the places of what it imports.
ghost use Rattle.std.specs.Prelude.{◌≡◌, ◌<◌, ℕ, List, Option, IfOk, length};
ghost use Rattle.std.specs.BTreeMap.{get_by_text};
ghost use Rattle.std.specs.BTreeSet.{contains};
ghost use Rattle.std.specs.Ordering.{nat_cmp};
ghost use Rattle.scheme_model.specs.Program.{is_in};
ghost use Rattle.unit_sources.specs.Named.{place_named, imported_places};
ghost use Rattle.import_sets.specs.Firsts.{place_in};
ghost use Rattle.import_sets.specs.Graphs.{row};
ghost use Rattle.unit_sources.specs.Graphs.{SameRows, rows_of, graph_of};

use crate::firsts::first_places;
use crate::units::{ImportSpec, UnitSource};
use import_sets::firsts::place_in;
use import_sets::places::Places;
use ls_base::{Items, Mem};
use std::alloc::Global;
use std::collections::BTreeMap;

/// The places of the libraries that a unit imports, each once.
fn imported(
    alloc: Global,
    firsts: &BTreeMap<String, usize>,
    imports: &[ImportSpec],
) -> Mem<Items<usize>>
    ensures { IfOk result (λ places. (n : ℕ) → is_in n places
        ≡ is_in n (imported_places (λ s. get_by_text firsts.now s) imports.now)) }
{
    let mut places = Places::new(alloc);
    for import in imports {
        places = places.with(place_in(firsts, &import.set))?;
    }
    let Places { all, seen: _ } = places;
    Ok(all)
}

/// What units import, where names are known by their first places.
fn rows(
    alloc: Global,
    firsts: &BTreeMap<String, usize>,
    units: &[UnitSource],
) -> Mem<Vec<Items<usize>>>
    ensures { IfOk result (λ rows. SameRows rows.items (rows_of (λ s. get_by_text firsts.now s) units.now)) }
{
    let mut rows = Vec::new(alloc);
    for unit in units {
        rows.push(imported(alloc, firsts, unit.imports.as_slice())?)?;
    }
    Ok(rows)
}

/// What units import of one another: a name means the first unit that has it.
pub fn graph(alloc: Global, units: &[UnitSource]) -> Mem<Vec<Items<usize>>>
    ensures { IfOk result (λ rows. SameRows rows.items (graph_of units.now)) }
{
    let firsts = first_places(alloc, units)?;
    Ok(rows(alloc, &firsts, units)?)
}
