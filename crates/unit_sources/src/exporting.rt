//! What a library exports (R7RS 5.6.1).
ghost use Rattle.std.specs.Prelude.{◌≡◌, ◌<◌, ◌^◌, ◌++◌, ◌∷◌, [], ℕ, List, IfOk, Option, length};
ghost use Rattle.std.specs.BTreeMap.{get_by_text};
ghost use Rattle.std.specs.BTreeSet.{contains_text};
ghost use Rattle.scheme_model.specs.Entries as model;
ghost use Rattle.scheme_model.specs.Program as program;
ghost use Rattle.syntax_tree.specs.Names.{Names};
ghost use Rattle.syntax_tree.specs.Meant.{AreEntries};
ghost use Rattle.unit_sources.specs.Sources.{AreExports};
ghost use Rattle.unit_sources.specs.Exported.{no_exports, put_all};
ghost use Rattle.unit_sources.specs.Exports.{AreExported};

use crate::exported::{Export, export_one};
use crate::fault::LibraryFault;
use crate::units::{ExportSpec, UnitSource};
use import_sets::firsts::entry_places;
use ls_base::{Items, Mem};
use std::alloc::Global;
use std::collections::{BTreeMap, BTreeSet};
use syntax_tree::units::Entry;

/// Why an export gives nothing, by its place among the exports.
#[derive(Drop)]
pub struct ExportFault {
    pub place: u32,
    pub fault: LibraryFault,
}

/// What a unit exports, and the faults of exports that give nothing.
#[derive(Drop)]
pub struct Exports {
    pub entries: Items<Entry>,
    pub faults: Items<ExportFault>,
}

impl Exports {
    ghost use Rattle.unit_sources.specs.Exported.{put_export};

    fn new(alloc: Global) -> Exports
        ensures { result ≡ no_exports }
    {
        Exports {
            entries: Items::new(alloc),
            faults: Items::new(alloc),
        }
    }

    /// With what the export at a place gives.
    fn with(self, place: u32, export: Export) -> Mem<Exports>
        ensures { IfOk result (λ new. new ≡ put_export place self export) }
    {
        let Exports {
            mut entries,
            mut faults,
        } = self;
        match export {
            Export::Given(entry) => entries.push(entry)?,
            Export::Refused(fault) => faults.push(ExportFault { place, fault })?,
        }
        Ok(Exports { entries, faults })
    }
}

/// What exports give of these entries, each after those before it.
fn given_all(alloc: Global, specs: &[ExportSpec], names: &[Entry]) -> Mem<Exports>
    requires { length specs.now < 2 ^ 32 }
    ensures { IfOk result (λ exports. exports ≡ put_all names.now no_exports [] 0 specs.now) }
{
    let places = entry_places(alloc, names)?;
    let mut seen = BTreeSet::new(alloc);
    let mut exports = Exports::new(alloc);
    for (place, spec) in specs.iter().enumerate() {
        let again = seen.contains(spec.outer.name.as_str());
        let export = export_one(alloc, spec, names, &places, again)?;
        exports = exports.with(place as u32, export)?;
        seen.insert(String::from_str(alloc, spec.outer.name.as_str())?)?;
    }
    Ok(exports)
}

/// What a unit exports of these names, in the order of its exports. The names are what the unit defines and imports; of those
/// that are alike the first counts, so a definition stands before an import. An export of another name gives nothing and is
/// `NotDefined`, with the inner name; else a second export of one external name gives nothing and is `SameExport`, with that.
pub fn exports_of(alloc: Global, source: &UnitSource, names: &[Entry]) -> Mem<Exports>
    requires { length source.now.exports < 2 ^ 32 }
    ensures { (table : Names) → (es : List model.Entry) → AreEntries table names.now es →
        (find : List ℕ → Option model.Entry) → ((s : List ℕ) → find s ≡ model.entry_at es s) →
        (xs : List program.ExportSpec) → AreExports source.now.exports xs →
        IfOk result (λ exports. AreExported table xs exports (program.export_all find [] xs)) }
{
    Ok(given_all(alloc, source.exports.as_slice(), names)?)
}
