//! The identifiers of a unit's imports and exports, and what they mean (R7RS 5.2, 5.6.1).
#![tactic(auto, using(crate::proofs::MeaningLaws::names_itself, crate::proofs::MeaningLaws::names_on))]

ghost use Rattle.std.specs.Prelude.{◌≡◌, ◌++◌, ◌∷◌, [], ℕ, List, Option, Some, not, None, map, Result, IfOk, OnOk};
ghost use Rattle.std.specs.Option.{option_map};
ghost use Rattle.scheme_model.specs.Requirements.{LibraryName};
ghost use Rattle.scheme_model.specs.Meaning as meant;
ghost use Rattle.scheme_model.specs.Entries as model;
ghost use Rattle.scheme_model.specs.Live as live;
ghost use Rattle.scheme_model.specs.IncludedUnits.{Placed};
ghost use Rattle.scheme_model.specs.Program as program;
ghost use Rattle.scheme_model.specs.ProgramArrows.{import_uses, uses_in_set};
ghost use Rattle.syntax_tree.specs.Names.{Names, KeepsNames};
ghost use Rattle.syntax_tree.specs.Meant.{AreEntries, IsEntry, IsGivenMeaning};
ghost use Rattle.core_tree.specs.Names.{AllMatch};
ghost use Rattle.core_tree.specs.Units.{AreNames, given_exports};
ghost use Rattle.import_sets.specs.Firsts.{place_of, place_under};
ghost use Rattle.import_sets.specs.Given as code;
ghost use Rattle.import_sets.specs.Sets.{IsSet, IsSetOf, named, paired};
ghost use Rattle.unit_sources.specs.Exported.{entry_named};
ghost use Rattle.unit_sources.specs.Sources.{AreExports, IsExport};
ghost use Rattle.unit_imports.specs.Defined.{FindsNames};
ghost use Rattle.unit_imports.specs.EntriesMeant.{ExportsMean};
ghost use Rattle.unit_imports.specs.SetsGiven.{AreLibraries};
ghost use Rattle.read_documents.specs.UnitSources.{IsSpec, HaveOneIfSame};
ghost use Rattle.unit_imports.specs.NamesUsed.{AddsName, AddsNames, external_adds, external_use, external_uses, inner_use, own_use, unless_fault};

use crate::entries::{Libraries, library_entries};
use crate::joining::own_origin;
use core_tree::cores::Target;
use core_tree::units::NameUse;
use import_sets::firsts::{EntryPlaces, entry_at, entry_place, entry_places};
use import_sets::modify::{except, only, prefixed};
use import_sets::rename::rename;
use import_sets::{ImportFault, ImportSet, NamePair, SetName, copy_of_origins, lists_none};
use ls_base::{Items, Mem, Memory};
use std::alloc::Global;
use std::collections::{BTreeMap, BTreeSet};
use syntax_tree::meaning::Meaning;
use syntax_tree::symbols::{Ident, Symbols};
use syntax_tree::trees::Work;
use syntax_tree::units::{Entry, Origin};
use unit_sources::{ExportSpec, ImportSpec, UnitSource};

/// The entries of a unit and their places by name.
#[derive(Clone, Copy)]
struct Found<'a, 'p> {
    entries: &'a [Entry],
    places: &'p EntryPlaces<'a>,
    ghost placed: { (s : List ℕ) → place_under places.now s ≡ place_of s 0 entries.now },
}

impl<'a, 'p> Found<'a, 'p> {
    /// The first entry with a name.
    fn entry(&self, name: &str) -> Option<&'a Entry>
        ensures { option_map (λ e. e.now) result ≡ entry_named name.now self.now.entries.now }
    {
        let Some(place) = entry_place(self.places, name) else {
            return None;
        };
        Some(entry_at(self.entries, place))
    }
}

/// The identifiers of a unit: those of its import sets, those of its exports, and at the end the external names of the exports that
/// give something. What it can export is handed in.
pub fn names_used(
    alloc: Global,
    work: &mut Work,
    libraries: Libraries<'_>,
    unit: u32,
    source: &UnitSource,
    names: &[Entry],
) -> Mem<Items<NameUse>>
    requires { ExportsMean work.old.symbols libraries.expanded.now }
    ensures trees { work.new.trees ≡ work.old.trees }
    ensures names { KeepsNames work.old.symbols work.new.symbols }
    ensures exact { (spelled : LibraryName → List ℕ) → (all : List Placed) → (rs : List program.UnitResult) →
        AreLibraries work.old.symbols libraries.entry spelled all rs → (ss : List program.ImportSpec) → AllMatch (IsSpec spelled) source.now.imports ss →
        (find : List ℕ → Option model.Entry) → FindsNames work.old.symbols names.now find →
        (xs : List program.ExportSpec) → AreExports source.now.exports xs → HaveOneIfSame xs →
        IfOk result (λ uses. AreNames work.new.symbols unit uses (import_uses all rs ss ++ live.all_export_uses find xs) (given_exports find [] xs)) }
{
    let places = entry_places(alloc, names)?;
    let found = Found {
        entries: names,
        places: &places,
    };
    let exports = source.exports.as_slice();
    let symbols = &mut work.symbols;
    let mut all = Identifiers {
        unit,
        uses: Vec::new(alloc),
    };
    all.add_sets(alloc, symbols, libraries, source.imports.as_slice())?;
    all.add_exports(alloc, symbols, exports, found)?;
    all.add_externals(alloc, symbols, exports, found)?;
    Ok(Items::from_vec(all.uses))
}

/// The identifiers of a unit so far.
#[derive(Drop)]
struct Identifiers {
    unit: u32,
    uses: Vec<NameUse>,
}

impl Identifiers {
    /// Adds those of import sets.
    fn add_sets(
        &mut self,
        alloc: Global,
        symbols: &mut Symbols,
        libraries: Libraries<'_>,
        specs: &[ImportSpec],
    ) -> Mem<()>
        requires { ExportsMean symbols.old libraries.expanded.now }
        ensures names { KeepsNames symbols.old symbols.new }
        ensures adds { (spelled : LibraryName → List ℕ) → (all : List Placed) → (rs : List program.UnitResult) →
            AreLibraries symbols.old libraries.entry spelled all rs → (ss : List program.ImportSpec) → AllMatch (IsSpec spelled) specs.now ss →
            OnOk result (AddsNames symbols.new self.old self.new (import_uses all rs ss)) }
    {
        for spec in specs {
            self.add_import(alloc, symbols, libraries, &spec.set)?;
        }
        Ok(())
    }

    /// Adds those of an import set, if its library gives something. Where none are listed the library isn't looked at.
    fn add_import(
        &mut self,
        alloc: Global,
        symbols: &mut Symbols,
        libraries: Libraries<'_>,
        set: &ImportSet,
    ) -> Mem<()>
        requires { ExportsMean symbols.old libraries.expanded.now }
        ensures names { KeepsNames symbols.old symbols.new }
        ensures adds { (spelled : LibraryName → List ℕ) → (all : List Placed) → (rs : List program.UnitResult) →
            AreLibraries symbols.old libraries.entry spelled all rs → (s : model.ImportSet) → IsSetOf (λ t n. t ≡ spelled n) set.now s →
            OnOk result (AddsNames symbols.new self.old self.new (uses_in_set all rs s (model.library_in s))) }
    {
        if lists_none(set) {
            return Ok(());
        }
        match library_entries(alloc, symbols, libraries, set)? {
            None => Ok(()),
            Some(exports) => {
                self.add_set(alloc, symbols, set, exports)?;
                Ok(())
            }
        }
    }

    /// Adds those of a set whose library exports these, from the innermost set outwards. What it gives is what the set gives, unless
    /// that has a fault.
    fn add_set(
        &mut self,
        alloc: Global,
        symbols: &mut Symbols,
        set: &ImportSet,
        exports: Items<Entry>,
    ) -> Mem<Option<Items<Entry>>>
        ensures names { KeepsNames symbols.old symbols.new }
        ensures gives { IfOk result (λ inner. inner ≡ unless_fault (code.given set.now exports)) }
        ensures adds { (s : model.ImportSet) → IsSet set.now s → (es : List model.Entry) → AreEntries symbols.old exports es →
            OnOk result (AddsNames symbols.new self.old self.new (live.set_uses es s)) }
    {
        match set {
            ImportSet::Library(_) => Ok(Some(exports)),
            ImportSet::Only { set, names } => {
                let inner = self.add_set(alloc, symbols, set, exports)?;
                symbols.told_apart();
                match inner {
                    None => Ok(None),
                    Some(inner) => {
                        self.add_listed(alloc, symbols, names.as_slice(), inner.as_slice())?;
                        Ok(given(only(alloc, inner, names.as_slice()))?)
                    }
                }
            }
            ImportSet::Except { set, names } => {
                let inner = self.add_set(alloc, symbols, set, exports)?;
                symbols.told_apart();
                match inner {
                    None => Ok(None),
                    Some(inner) => {
                        self.add_listed(alloc, symbols, names.as_slice(), inner.as_slice())?;
                        Ok(given(except(alloc, inner, names.as_slice()))?)
                    }
                }
            }
            ImportSet::Prefix { set, prefix } => {
                match self.add_set(alloc, symbols, set, exports)? {
                    None => Ok(None),
                    Some(inner) => Ok(Some(prefixed(alloc, inner.as_slice(), prefix.as_str())?)),
                }
            }
            ImportSet::Rename { set, pairs } => {
                let inner = self.add_set(alloc, symbols, set, exports)?;
                symbols.told_apart();
                match inner {
                    None => Ok(None),
                    Some(inner) => {
                        self.add_pairs(alloc, symbols, pairs.as_slice(), inner.as_slice())?;
                        Ok(given(rename(alloc, inner, pairs.as_slice()))?)
                    }
                }
            }
            ImportSet::Bad => Ok(None),
        }
    }

    /// Adds the names of a modifier that the set inside gives.
    fn add_listed(
        &mut self,
        alloc: Global,
        symbols: &mut Symbols,
        names: &[SetName],
        inner: &[Entry],
    ) -> Mem<()>
        ensures names { KeepsNames symbols.old symbols.new }
        ensures adds { (es : List model.Entry) → AreEntries symbols.old inner.now es →
            OnOk result (AddsNames symbols.new self.old self.new (live.listed_uses es (map named names.now))) }
    {
        let places = entry_places(alloc, inner)?;
        let found = Found {
            entries: inner,
            places: &places,
        };
        for name in names {
            self.add_found(alloc, symbols, name, found)?;
        }
        Ok(())
    }

    /// Adds the names of pairs whose first one the set inside gives.
    fn add_pairs(
        &mut self,
        alloc: Global,
        symbols: &mut Symbols,
        pairs: &[NamePair],
        inner: &[Entry],
    ) -> Mem<()>
        ensures names { KeepsNames symbols.old symbols.new }
        ensures adds { (es : List model.Entry) → AreEntries symbols.old inner.now es →
            OnOk result (AddsNames symbols.new self.old self.new (live.pair_uses es (map paired pairs.now))) }
    {
        let places = entry_places(alloc, inner)?;
        let found = Found {
            entries: inner,
            places: &places,
        };
        for NamePair { from, to } in pairs {
            self.add_found(alloc, symbols, from, found)?;
            self.add_second(alloc, symbols, from, to, found)?;
        }
        Ok(())
    }

    /// Adds an identifier, where it names an entry.
    fn add_found(
        &mut self,
        alloc: Global,
        symbols: &mut Symbols,
        name: &SetName,
        found: Found<'_, '_>,
    ) -> Mem<()>
        ensures names { KeepsNames symbols.old symbols.new }
        ensures adds { (find : List ℕ → Option model.Entry) → FindsNames symbols.old found.entry.entries.now find →
            OnOk result (AddsNames symbols.new self.old self.new (live.entry_use (find name.now.name) (named name.now))) }
    {
        match found.entry(name.name.as_str()) {
            None => Ok(()),
            Some(entry) => Ok(self.add_entry(alloc, symbols, name, entry)?),
        }
    }

    /// Adds a second identifier, where the first names an entry.
    fn add_second(
        &mut self,
        alloc: Global,
        symbols: &mut Symbols,
        first: &SetName,
        second: &SetName,
        found: Found<'_, '_>,
    ) -> Mem<()>
        ensures names { KeepsNames symbols.old symbols.new }
        ensures adds { (find : List ℕ → Option model.Entry) → FindsNames symbols.old found.entry.entries.now find →
            OnOk result (AddsNames symbols.new self.old self.new (live.second_use (find first.now.name) (named second.now))) }
    {
        match found.entry(first.name.as_str()) {
            None => Ok(()),
            Some(entry) => Ok(self.add_own(alloc, symbols, second, entry.meaning)?),
        }
    }

    /// Adds both identifiers of each export.
    fn add_exports(
        &mut self,
        alloc: Global,
        symbols: &mut Symbols,
        specs: &[ExportSpec],
        found: Found<'_, '_>,
    ) -> Mem<()>
        ensures names { KeepsNames symbols.old symbols.new }
        ensures adds { (find : List ℕ → Option model.Entry) → FindsNames symbols.old found.entry.entries.now find →
            (xs : List program.ExportSpec) → AreExports specs.now xs →
            OnOk result (AddsNames symbols.new self.old self.new (live.all_export_uses find xs)) }
    {
        for spec in specs {
            self.add_export(alloc, symbols, spec, found)?;
        }
        Ok(())
    }

    /// Adds both identifiers of an export.
    fn add_export(
        &mut self,
        alloc: Global,
        symbols: &mut Symbols,
        spec: &ExportSpec,
        found: Found<'_, '_>,
    ) -> Mem<()>
        ensures names { KeepsNames symbols.old symbols.new }
        ensures adds { (find : List ℕ → Option model.Entry) → FindsNames symbols.old found.entry.entries.now find →
            (x : program.ExportSpec) → IsExport spec.now x →
            OnOk result (AddsNames symbols.new self.old self.new (live.export_uses find x)) }
    {
        self.add_inner(alloc, symbols, &spec.inner, found)?;
        if !is_renamed(spec) {
            return Ok(());
        }
        let meaning = meaning_of(symbols, found, &spec.inner)?;
        Ok(self.add_own(alloc, symbols, &spec.outer, meaning)?)
    }

    /// Adds the identifier that is exported.
    fn add_inner(
        &mut self,
        alloc: Global,
        symbols: &mut Symbols,
        name: &SetName,
        found: Found<'_, '_>,
    ) -> Mem<()>
        ensures names { KeepsNames symbols.old symbols.new }
        ensures adds { (find : List ℕ → Option model.Entry) → FindsNames symbols.old found.entry.entries.now find →
            OnOk result (AddsNames symbols.new self.old self.new (inner_use (find name.now.name) (named name.now) ∷ [])) }
    {
        match found.entry(name.name.as_str()) {
            Some(entry) => Ok(self.add_entry(alloc, symbols, name, entry)?),
            None => Ok(self.add_free(alloc, symbols, name)?),
        }
    }

    /// Adds the external names of the exports that give something, in their order.
    fn add_externals(
        &mut self,
        alloc: Global,
        symbols: &mut Symbols,
        specs: &[ExportSpec],
        found: Found<'_, '_>,
    ) -> Mem<()>
        ensures names { KeepsNames symbols.old symbols.new }
        ensures adds { (find : List ℕ → Option model.Entry) → FindsNames symbols.old found.entry.entries.now find →
            (xs : List program.ExportSpec) → AreExports specs.now xs →
            OnOk result (AddsNames symbols.new self.old self.new (external_uses find (given_exports find [] xs))) }
    {
        let mut seen = BTreeSet::new(alloc);
        for spec in specs {
            let again = seen.contains(spec.outer.name.as_str());
            self.add_external(alloc, symbols, spec, found, again)?;
            seen.insert(String::from_str(alloc, spec.outer.name.as_str())?)?;
        }
        Ok(())
    }

    /// Adds the external name of an export, if that gives something. `again` tells that an earlier export has its external name.
    fn add_external(
        &mut self,
        alloc: Global,
        symbols: &mut Symbols,
        spec: &ExportSpec,
        found: Found<'_, '_>,
        again: bool,
    ) -> Mem<()>
        ensures names { KeepsNames symbols.old symbols.new }
        ensures adds { (find : List ℕ → Option model.Entry) → FindsNames symbols.old found.entry.entries.now find → (x : program.ExportSpec) → IsExport spec.now x →
            OnOk result (AddsNames symbols.new self.old self.new (external_adds again (find spec.now.inner.name) x)) }
    {
        if again {
            return Ok(());
        }
        match found.entry(spec.inner.name.as_str()) {
            None => Ok(()),
            Some(entry) => Ok(self.add_given(alloc, symbols, spec, entry)?),
        }
    }

    /// Adds the external name of an export that gives an entry.
    fn add_given(
        &mut self,
        alloc: Global,
        symbols: &mut Symbols,
        spec: &ExportSpec,
        entry: &Entry,
    ) -> Mem<()>
        ensures names { KeepsNames symbols.old symbols.new }
        ensures adds { (e : model.Entry) → IsEntry symbols.old entry.now e → (x : program.ExportSpec) → IsExport spec.now x →
            OnOk result (AddsNames symbols.new self.old self.new (external_use (Some e) x)) }
    {
        if is_renamed(spec) {
            return Ok(self.add_own(alloc, symbols, &spec.outer, entry.meaning)?);
        }
        Ok(self.add_entry(alloc, symbols, &spec.outer, entry)?)
    }

    /// Adds an identifier that names an entry.
    fn add_entry(
        &mut self,
        alloc: Global,
        symbols: &mut Symbols,
        name: &SetName,
        entry: &Entry,
    ) -> Mem<()>
        ensures names { KeepsNames symbols.old symbols.new }
        ensures adds { (e : model.Entry) → IsEntry symbols.old entry.now e →
            OnOk result (AddsNames symbols.new self.old self.new (live.entry_use (Some e) (named name.now))) }
    {
        let origins = copy_of_origins(alloc, entry.origins.as_slice())?;
        Ok(self.add(symbols, name, entry.meaning, origins)?)
    }

    /// Adds an identifier that spells itself.
    fn add_own(
        &mut self,
        alloc: Global,
        symbols: &mut Symbols,
        name: &SetName,
        meaning: Meaning,
    ) -> Mem<()>
        ensures names { KeepsNames symbols.old symbols.new }
        ensures adds { (m : meant.Meaning) → IsGivenMeaning symbols.old meaning m → OnOk result (AddsNames symbols.new self.old self.new (own_use m (named name.now) ∷ [])) }
    {
        let origins = own_origin(alloc, name.occ)?;
        Ok(self.add(symbols, name, meaning, origins)?)
    }

    /// Adds an identifier that means nothing.
    fn add_free(&mut self, alloc: Global, symbols: &mut Symbols, name: &SetName) -> Mem<()>
        ensures names { KeepsNames symbols.old symbols.new }
        ensures adds { OnOk result (AddsNames symbols.new self.old self.new (inner_use None (named name.now) ∷ [])) }
    {
        let symbol = symbols.symbol(name.name.as_str())?;
        Ok(self.add(symbols, name, Meaning::Free(symbol), Items::new(alloc))?)
    }

    /// Adds an identifier with its meaning and what spells it.
    fn add(
        &mut self,
        symbols: &mut Symbols,
        name: &SetName,
        meaning: Meaning,
        origins: Items<Origin>,
    ) -> Mem<()>
        ensures names { KeepsNames symbols.old symbols.new }
        ensures adds { OnOk result (AddsName symbols.new self.old self.new name.now meaning origins) }
    {
        let symbol = symbols.symbol(name.name.as_str())?;
        let ident = symbols.ident(Ident::Written {
            unit: self.unit,
            symbol,
        })?;
        self.uses.push(NameUse {
            target: Target {
                meaning,
                ident,
                occ: name.occ,
            },
            origins,
        })?;
        Ok(())
    }
}

/// Whether an export is given under another name: its two identifiers stand at two places.
fn is_renamed(spec: &ExportSpec) -> bool
    ensures { result ≡ not (code.same_place spec.now.inner.occ spec.now.outer.occ) }
{
    spec.inner.occ != spec.outer.occ
}

/// What an exported identifier means.
fn meaning_of(symbols: &mut Symbols, found: Found<'_, '_>, name: &SetName) -> Mem<Meaning>
    ensures names { KeepsNames symbols.old symbols.new }
    ensures means { (find : List ℕ → Option model.Entry) → FindsNames symbols.old found.entry.entries.now find →
        IfOk result (λ m. IsGivenMeaning symbols.new m (live.meaning_or (find name.now.name) name.now.name)) }
{
    match found.entry(name.name.as_str()) {
        Some(entry) => Ok(entry.meaning),
        None => Ok(Meaning::Free(symbols.symbol(name.name.as_str())?)),
    }
}

/// What a set gives, where it has no fault.
fn given(given: Result<Items<Entry>, ImportFault>) -> Mem<Option<Items<Entry>>>
    ensures { (answer : Result (List Entry) ImportFault) → code.Same given answer → IfOk result (λ inner. inner ≡ unless_fault answer) }
{
    match given {
        Ok(entries) => Ok(Some(entries)),
        Err(ImportFault::Memory) => Err(Memory),
        Err(_) => Ok(None),
    }
}
