//! What is kept of forms, by their units and by their places in these.
ghost use Rattle.std.specs.Prelude.{◌≡◌, ℕ, ◌<◌, ◌≤◌, ◌&&◌, [], length, nat_eq, slice_get, Some, None, OnOk, if◌then◌else◌};
ghost use Rattle.std.specs.Option.{option_copied};
ghost use Rattle.form_cache.specs.Cached.{HasPlace, entries_at, entries_of, entry_if, entry_in};

use crate::entries::Entry;
use ls_base::Mem;
use std::alloc::Global;

/// The entries of forms, by unit and by place. A form has none where it wasn't expanded yet, or where its entry was taken out.
#[derive(Drop)]
pub struct FormCache {
    alloc: Global,
    units: Vec<Vec<Option<Entry>>>,
}

impl FormCache {
    /// Nothing is kept. It takes no memory.
    pub fn new(alloc: Global) -> FormCache
        ensures { (unit : ℕ) → entries_of result unit ≡ [] }
    {
        FormCache {
            alloc,
            units: Vec::new(alloc),
        }
    }

    /// The entries of a unit, by the places of its forms; of a unit that has none, no places. It takes no memory.
    pub fn entries(&self, unit: usize) -> &[Option<Entry>]
        ensures { result.now ≡ entries_of self.now unit }
    {
        match self.units.get(unit) {
            None => &[],
            Some(forms) => forms,
        }
    }

    /// The entry of a form, where there is one. It takes no memory.
    pub fn peek(&self, unit: usize, form: usize) -> Option<&Entry>
        ensures { option_copied result ≡ entry_in self.now unit form }
    {
        match self.entries(unit).get(form) {
            None => None,
            Some(entry) => entry.as_ref(),
        }
    }

    /// Takes out the entry of a form, where there is one. It takes no memory.
    pub fn take(&mut self, unit: usize, form: usize) -> Option<Entry>
        ensures taken { result ≡ entry_in self.old unit form }
        ensures others { (u f : ℕ) → entry_in self.new u f ≡ (if nat_eq u unit && nat_eq f form then None else entry_in self.old u f) }
        ensures places { (u f : ℕ) → HasPlace self.old u f → HasPlace self.new u f }
    {
        match self.units.get_mut(unit) {
            None => None,
            Some(forms) => match forms.get_mut(form) {
                None => None,
                Some(entry) => entry.take(),
            },
        }
    }

    /// Makes places for the entries of so many forms of a unit.
    pub fn reserve(&mut self, unit: usize, forms: usize) -> Mem<()>
        ensures places { (f : ℕ) → f < forms → OnOk result (HasPlace self.new unit f) }
        ensures others { (u f : ℕ) → HasPlace self.old u f → HasPlace self.new u f }
        ensures entries { (u f : ℕ) → entry_in self.new u f ≡ entry_in self.old u f }
    {
        widen(self.alloc, &mut self.units, unit)?;
        make_places(&mut self.units[unit], forms)
    }

    /// Keeps the entry of a form, for which there is a place, and which has none yet. It takes no memory.
    pub fn put(&mut self, unit: usize, form: usize, entry: Entry)
        requires place { HasPlace self.old unit form }
        requires none { entry_in self.old unit form ≡ None }
        ensures entries { (u f : ℕ) → entry_in self.new u f ≡ (if nat_eq u unit && nat_eq f form then Some entry else entry_in self.old u f) }
        ensures places { (u f : ℕ) → HasPlace self.old u f → HasPlace self.new u f }
    {
        self.units[unit][form] = Some(entry);
    }
}

// There is a list for the unit of this number from now on, and all lists are as before.
fn widen(alloc: Global, units: &mut Vec<Vec<Option<Entry>>>, unit: usize) -> Mem<()>
    ensures within { OnOk result (unit < length units.new.items) }
    ensures same { (u : ℕ) → entries_at units.new.items u ≡ entries_at units.old.items u }
{
    while units.len() <= unit {
        units.push(Vec::new(alloc))?;
    }
    Ok(())
}

// Makes places for so many entries.
fn make_places(forms: &mut Vec<Option<Entry>>, count: usize) -> Mem<()>
    ensures places { OnOk result (count ≤ length forms.new.items) }
    ensures others { length forms.old.items ≤ length forms.new.items }
    ensures entries { (f : ℕ) → entry_if (slice_get forms.new.items f) ≡ entry_if (slice_get forms.old.items f) }
{
    for _ in forms.len()..count {
        forms.push(None)?;
    }
    Ok(())
}
