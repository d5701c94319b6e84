//! The names of the units on circles of imports.
ghost use Rattle.std.specs.Prelude.{◌≡◌, ◌<◌, ◌++◌, ℕ, IfOk, OnOk, length, true};
ghost use Rattle.scheme_model.specs.Program.{is_in};
ghost use Rattle.unit_sources.specs.Graphs.{name_at, as_list, names_at};

use crate::units::UnitSource;
use ls_base::{Items, Mem, Text};
use std::alloc::Global;

/// Adds a name, where there is one.
fn push_name(names: &mut Items<Text>, name: &Option<Text>) -> Mem<()>
    ensures { OnOk result (names.new ≡ names.old ++ as_list name.now) }
{
    if let Some(name) = name {
        names.push(name.clone()?)?;
    }
    Ok(())
}

/// Adds the name of the unit at a place, where it has one.
fn push_name_at(names: &mut Items<Text>, units: &[UnitSource], place: usize) -> Mem<()>
    requires { place < length units.now }
    ensures { OnOk result (names.new ≡ names.old ++ as_list (name_at units.now place)) }
{
    Ok(push_name(names, &units[place].name)?)
}

/// The names of the units at these places.
pub fn names_at(alloc: Global, units: &[UnitSource], places: &[usize]) -> Mem<Items<Text>>
    requires { (n : ℕ) → is_in n places.now ≡ true → n < length units.now }
    ensures { IfOk result (λ names. names ≡ names_at units.now places.now) }
{
    let mut names = Items::new(alloc);
    for place in places {
        push_name_at(&mut names, units, *place)?;
    }
    Ok(names)
}
