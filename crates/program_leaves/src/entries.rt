//! The entries of units by their names.
ghost use Rattle.std.specs.Prelude.{◌≡◌, ℕ, List, Some, None, if◌then◌else◌, IfOk, OnOk};
ghost use Rattle.std.specs.Str.{bytes_eq};
ghost use Rattle.std.specs.Option.{option_map};
ghost use Rattle.scheme_model.specs.IncludedUnits.{Placed};
ghost use Rattle.scheme_model.specs.Program.{Program as ModelProgram};
ghost use Rattle.scheme_model.specs.Requirements.{LibraryName};
ghost use Rattle.syntax_tree.specs.declared.trees.Work.{Work as AnyWork};
ghost use Rattle.core_tree.specs.Names.{AllMatch};
ghost use Rattle.core_tree.specs.Units.{ProgramStands};
ghost use Rattle.program_leaves.specs.Placed.{first_or};
ghost use Rattle.program_leaves.specs.Entries.{now_of, named, entry_named, entry_found, HasEntries, Gives};

use core_tree::units::{Program, Unit};
use ls_base::Mem;
use std::alloc::Global;
use std::collections::BTreeMap;
use syntax_tree::units::Entry;

/// For each unit its entries by their names.
#[derive(Drop)]
pub struct Entries<'a> {
    pub units: Vec<BTreeMap<String, &'a Entry>>,
}

/// Puts an entry under its name, where none is there yet.
fn put_entry<'a>(
    alloc: Global,
    entry: &'a Entry,
    found: &mut BTreeMap<String, &'a Entry>,
) -> Mem<()>
    ensures { OnOk result ((s : List ℕ) → named found.new s ≡ first_or (named found.old s) (if bytes_eq entry.now.name s then Some entry.now else None)) }
{
    if found.contains_key(entry.name.as_str()) {
        return Ok(());
    }
    let name = String::from_str(alloc, entry.name.as_str())?;
    found.insert(name, entry)?;
    Ok(())
}

/// Entries by their names. Of those with one name the first counts.
fn by_name<'a>(alloc: Global, entries: &'a [Entry]) -> Mem<BTreeMap<String, &'a Entry>>
    ensures { IfOk result (λ found. (s : List ℕ) → named found s ≡ entry_named entries.now s) }
{
    let mut found = BTreeMap::new(alloc);
    for entry in entries {
        put_entry(alloc, entry, &mut found)?;
    }
    Ok(found)
}

/// The entries of units by their names.
fn all_by_name<'a>(alloc: Global, units: &'a [Unit]) -> Mem<Vec<BTreeMap<String, &'a Entry>>>
    ensures { IfOk result (λ found. AllMatch HasEntries found.items units.now) }
{
    let mut found = Vec::new(alloc);
    for unit in units {
        let entries = by_name(alloc, unit.entries.as_slice())?;
        found.push(entries)?;
    }
    Ok(found)
}

impl<'a> Entries<'a> {
    /// Those of a program.
    pub fn of(alloc: Global, program: &'a Program) -> Mem<Entries<'a>>
        ensures { (work : AnyWork) (text : LibraryName → List ℕ) (uris : List (List ℕ)) (all : List Placed) (p : ModelProgram) →
            ProgramStands work text uris all program.now p → IfOk result (λ entries. Gives work.symbols entries.units.items p.units) }
    {
        let units = all_by_name(alloc, program.units.as_slice())?;
        Ok(Entries { units })
    }

    /// The entry of a unit with a name.
    pub fn entry(&self, unit: u32, name: &str) -> Option<&'a Entry>
        ensures { option_map now_of result ≡ entry_found self.now.units.items unit name.now }
    {
        match self.units.get(unit as usize) {
            None => None,
            Some(found) => found.get(name).copied(),
        }
    }
}
