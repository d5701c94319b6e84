//! The second identifiers of the pairs that a unit's imports rename by (R7RS 5.2).
ghost use Rattle.std.specs.Prelude.{◌≡◌, ◌++◌, ℕ, List, IfOk, OnOk};
ghost use Rattle.std.specs.List.{flat_map};
ghost use Rattle.scheme_model.specs.Requirements.{LibraryName};
ghost use Rattle.scheme_model.specs.Program as program;
ghost use Rattle.scheme_model.specs.Spelling.{second_places};
ghost use Rattle.core_tree.specs.Names.{AllMatch};
ghost use Rattle.read_documents.specs.UnitSources.{IsSpec};

use import_sets::second_places;
use ls_base::{Items, Mem};
use scheme_model::Occ;
use std::alloc::Global;
use unit_sources::ImportSpec;

/// Those of all sets, in their order.
pub fn seconds_in(alloc: Global, specs: &[ImportSpec]) -> Mem<Items<Occ>>
    ensures { (spelled : LibraryName → List ℕ) → (ss : List program.ImportSpec) → AllMatch (IsSpec spelled) specs.now ss →
        IfOk result (λ places. places ≡ flat_map (λ (s : program.ImportSpec). second_places s.set) ss) }
{
    let mut places = Items::new(alloc);
    for spec in specs {
        add(&mut places, second_places(alloc, &spec.set)?)?;
    }
    Ok(places)
}

/// Adds places at the end.
fn add(places: &mut Items<Occ>, more: Items<Occ>) -> Mem<()>
    ensures { OnOk result (places.new ≡ places.old ++ more) }
{
    for place in more.into_vec() {
        places.push(place)?;
    }
    Ok(())
}
