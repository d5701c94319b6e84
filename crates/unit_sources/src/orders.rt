//! The order of units, each after what it imports (R7RS 5.6).
ghost use Rattle.std.specs.Prelude.{◌<◌, ◌^◌, ℕ, List, length, IfOk};
ghost use Rattle.scheme_model.specs.Requirements.{LibraryName};
ghost use Rattle.scheme_model.specs.IncludedUnits.{Placed};
ghost use Rattle.unit_sources.specs.Sources.{TellsNames, AreUnits};
ghost use Rattle.unit_sources.specs.Orders.{Answers, ArePlaces};

use crate::circles::names_at;
use crate::fault::LibraryFault;
use crate::graph::graph;
use crate::units::UnitSource;
use import_sets::circles::on_circles;
use import_sets::turns::turns;
use ls_base::Items;
use std::alloc::Global;

/// The places of the units so that each comes after what it imports of them, and of those that may come the first in the list.
/// Where units import one another in a circle, `Cycle` has the names of all libraries on a circle, in the order of the list. A
/// name means the first unit that has it. Who calls it and is answered `Cycle` gives the units again, those without their imports.
pub fn order(alloc: Global, units: &[UnitSource]) -> Result<Items<u32>, LibraryFault>
    requires { length units.now < 2 ^ 32 }
    ensures answers { (spelled : LibraryName → List ℕ) → TellsNames spelled → (all : List Placed) → AreUnits spelled units.now all →
        Answers spelled all result }
    // Whatever the units are.
    ensures places { IfOk result (ArePlaces (length units.now)) }
{
    let graph = graph(alloc, units)?;
    let rows = graph.as_slice();
    let circles = on_circles(alloc, rows)?;
    let places = circles.as_slice();
    if places.is_empty() {
        return Ok(turns(alloc, rows)?);
    }
    let names = names_at(alloc, units, places)?;
    Err(LibraryFault::Cycle(names))
}
