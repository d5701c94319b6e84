//! What one export gives (R7RS 5.6.1).
ghost use Rattle.std.specs.Prelude.{◌≡◌, ◌<◌, ℕ, List, Option, Some, None, IfOk, length, slice_get};
ghost use Rattle.import_sets.specs.Given.{same_place};
ghost use Rattle.import_sets.specs.Firsts.{place_of, place_under};
ghost use Rattle.unit_sources.specs.Exported.{entry_named, exported, export_one};

use crate::fault::LibraryFault;
use crate::units::ExportSpec;
use import_sets::firsts::{EntryPlaces, entry_at, entry_place};
use import_sets::{copy_of_origins, renamed};
use ls_base::Mem;
use scheme_model::Occ;
use std::alloc::Global;
use syntax_tree::units::Entry;

/// What an export gives: an entry, or nothing by its fault.
#[derive(Drop)]
pub enum Export {
    Given(Entry),
    Refused(LibraryFault),
}

/// Whether two identifiers stand at one place.
fn same_place(a: Option<Occ>, b: Option<Occ>) -> bool
    ensures { result ≡ same_place a b }
{
    a == b
}

/// An entry under the external name of an export.
fn exported(alloc: Global, spec: &ExportSpec, entry: &Entry) -> Mem<Entry>
    ensures { IfOk result (λ given. given ≡ exported spec.now entry.now) }
{
    if same_place(spec.inner.occ, spec.outer.occ) {
        return Ok(Entry {
            name: spec.outer.name.clone()?,
            meaning: entry.meaning,
            origins: copy_of_origins(alloc, entry.origins.as_slice())?,
        });
    }
    renamed(alloc, entry, &spec.outer)
}

/// What an export gives of these entries, whose places are known by their names. `again` tells that an earlier export has its
/// external name.
pub fn export_one(
    alloc: Global,
    spec: &ExportSpec,
    entries: &[Entry],
    places: &EntryPlaces<'_>,
    again: bool,
) -> Mem<Export>
    requires { (s : List ℕ) → place_under places.now s ≡ place_of s 0 entries.now }
    ensures { IfOk result (λ export. export ≡ export_one again spec.now (entry_named spec.now.inner.name entries.now)) }
{
    let Some(place) = entry_place(places, spec.inner.name.as_str()) else {
        let name = spec.inner.name.clone()?;
        return Ok(Export::Refused(LibraryFault::NotDefined(name)));
    };
    if again {
        let name = spec.outer.name.clone()?;
        return Ok(Export::Refused(LibraryFault::SameExport(name)));
    }
    Ok(Export::Given(exported(alloc, spec, entry_at(entries, place))?))
}
