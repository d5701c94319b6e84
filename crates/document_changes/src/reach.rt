//! The units in reach of a class of occurrences: those that hold one of them, and those that import a unit in reach (R7RS 5.6).
ghost use Rattle.std.specs.Prelude.{◌≡◌, List, map, IfOk};
ghost use Rattle.scheme_model.specs.Program.{UnitResult};
ghost use Rattle.rename_model.specs.Reach as model;
ghost use Rattle.program_differences.specs.Reached.{HaveImports};

use core_tree::units::Program;
use ls_base::{Items, Mem};
use program_answers::classes::{Class, ClassPart};
use program_differences::reach::in_reach;
use read_documents::form_numbers::number_of;
use scheme_model::Occ;
use std::alloc::Global;

/// The units of a program in reach of a class, in the order of the list.
pub fn units_in_reach(alloc: Global, program: &Program, class: &Class) -> Mem<Items<u32>>
    ensures { (rs : List UnitResult) → HaveImports 0 program.now.units rs → IfOk result (λ units. units ≡ model.in_reach rs (map (λ part. part.occ) class.now.parts)) }
{
    let occs = occurrences(alloc, class.parts.as_slice())?;
    let places = in_reach(alloc, program.units.as_slice(), occs.as_slice())?;
    Ok(numbers(alloc, places.as_slice())?)
}

/// Where the parts of a class stand.
fn occurrences(alloc: Global, parts: &[ClassPart]) -> Mem<Vec<Occ>>
    ensures { IfOk result (λ occs. occs.items ≡ map (λ part. part.occ) parts.now) }
{
    let mut occs = Vec::new(alloc);
    for part in parts {
        occs.push(part.occ)?;
    }
    Ok(occs)
}

/// Places of units, as their numbers.
fn numbers(alloc: Global, places: &[usize]) -> Mem<Items<u32>>
    ensures { IfOk result (λ units. units ≡ places.now) }
{
    let mut units = Items::new(alloc);
    for place in places {
        let number = number_of(*place)?;
        units.push(number)?;
    }
    Ok(units)
}
