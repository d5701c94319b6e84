//! A vector of slots, each of which holds a value or is vacant. The vacant ones are linked, and are filled before the vector grows.
ghost use Rattle.std.specs.Prelude.{◌≡◌, ◌+◌, ◌≤◌, [], length, min, count_by, is_some, slice_set, IsSome, IsOk, Some, IfOk, OnOk, OnErr};
ghost use Rattle.node_pool.specs.SlotLists.{at, IsFilled};

use crate::faults::Mem;
use std::alloc::Global;
use std::marker::Model;
use std::mem;

/// Values by numbers that are handed out, and again once their value was removed.
#[derive(Drop)]
pub(crate) struct Slots<T> {
    entries: Vec<Entry<T>>,
    // How many entries are occupied.
    live: usize,
    // The first vacant entry, or `entries.len()` where there is none.
    next: usize,
    // How many more values are promised a slot without memory.
    spare: usize,
}

#[derive(Drop)]
enum Entry<T> {
    // The next vacant entry, or the number behind the last entry.
    Vacant(usize),
    Occupied(T),
}

impl<T> Model for Slots<T> {
    ghost use Rattle.std.specs.Prelude.{map};
    ghost use Rattle.node_pool.specs.SlotLists.{SlotList, slots_code};

    ghost Value = { SlotList T };

    ghost coded = { slots_code T.code };

    ghost use Rattle.node_pool.specs.Entries.{value_of, AreSlots};

    ghost view = { λ s. record { slots = map value_of s.entries.items; spare = s.spare } };

    ghost invariant = { λ s. AreSlots s.entries s.live s.next s.spare };
}

impl<T: Drop> Slots<T> {
    /// No slots, which take no memory.
    pub(crate) fn new(alloc: Global) -> Slots<T>
        ensures { result.slots ≡ [] }
    {
        Slots {
            entries: Vec::new(alloc),
            live: 0,
            next: 0,
            spare: 0,
        }
    }

    /// How many slots there are.
    pub(crate) fn len(&self) -> usize
        ensures { result ≡ length self.now.slots }
    {
        self.entries.len()
    }

    /// How many slots hold a value.
    pub(crate) fn live(&self) -> usize
        ensures { result ≡ count_by is_some self.now.slots }
    {
        self.live
    }

    /// From now on the next `n` calls of `insert` take no memory.
    pub(crate) fn reserve(&mut self, n: usize) -> Mem<()>
        ensures room { OnOk result (n ≤ self.new.spare) }
        ensures more { self.old.spare ≤ self.new.spare }
        ensures had_room { n ≤ self.old.spare → IsOk result }
        ensures slots { self.new.slots ≡ self.old.slots }
    {
        if self.spare >= n {
            return Ok(());
        }
        if self.entries.capacity() - self.live < n {
            let missing = n - (self.entries.len() - self.live);
            self.entries.reserve(missing)?;
        }
        self.spare = n;
        Ok(())
    }

    /// How many more values are promised a slot without memory.
    pub(crate) fn spare(&self) -> usize
        ensures { result ≡ self.now.spare }
    {
        self.spare
    }

    /// From now on no more than `n` values are promised a slot without memory.
    pub(crate) fn give_back(&mut self, n: usize)
        ensures spare { self.new.spare ≡ min n self.old.spare }
        ensures slots { self.new.slots ≡ self.old.slots }
    {
        self.spare = self.spare.min(n);
    }

    /// Fills a vacant slot, or makes one where each holds a value.
    pub(crate) fn insert(&mut self, value: T) -> Mem<usize>
        ensures filled { IfOk result (λ number. IsFilled self.old.slots self.new.slots number value) }
        ensures spare { OnOk result (self.old.spare ≤ self.new.spare + 1) }
        ensures none_spare { OnErr result (self.old.spare ≡ 0) }
        ensures err { OnErr result (self.new ≡ self.old) }
    {
        let number = self.next;
        if number == self.entries.len() {
            self.entries.reserve(1)?;
            self.entries.push_reserved(Entry::Occupied(value));
            self.live += 1;
            self.spare = self.spare.saturating_sub(1);
            self.next = number + 1;
            return Ok(number);
        }
        self.live += 1;
        self.spare = self.spare.saturating_sub(1);
        match mem::replace(&mut self.entries[number], Entry::Occupied(value)) {
            Entry::Vacant(next) => self.next = next,
            Entry::Occupied(_) => unreachable!(),
        }
        Ok(number)
    }

    /// Takes the value out of a slot, which is vacant from now on.
    pub(crate) fn remove(&mut self, number: usize) -> T
        requires { IsSome (at self.old.slots number) }
        ensures value { at self.old.slots number ≡ Some result }
        ensures slots { self.new.slots ≡ slice_set self.old.slots number None }
        ensures spare { self.new.spare ≡ self.old.spare + 1 }
    {
        let vacant = Entry::Vacant(self.next);
        match mem::replace(&mut self.entries[number], vacant) {
            Entry::Occupied(value) => {
                self.live -= 1;
                self.spare += 1;
                self.next = number;
                value
            }
            Entry::Vacant(_) => unreachable!(),
        }
    }

    /// Writes another value into a slot that holds one, and gives that back.
    pub(crate) fn replace(&mut self, number: usize, value: T) -> T
        requires { IsSome (at self.old.slots number) }
        ensures value { at self.old.slots number ≡ Some result }
        ensures slots { self.new.slots ≡ slice_set self.old.slots number (Some value) }
        ensures spare { self.new.spare ≡ self.old.spare }
    {
        match mem::replace(&mut self.entries[number], Entry::Occupied(value)) {
            Entry::Occupied(value) => value,
            Entry::Vacant(_) => unreachable!(),
        }
    }

    /// Whether a slot holds a value.
    pub(crate) fn holds(&self, number: usize) -> bool
        ensures { result ≡ is_some (at self.now.slots number) }
    {
        match self.entries.get(number) {
            Some(Entry::Occupied(_)) => true,
            Some(Entry::Vacant(_)) => false,
            None => false,
        }
    }

    /// The value in a slot.
    pub(crate) fn get(&self, number: usize) -> &T
        requires { IsSome (at self.now.slots number) }
        ensures { at self.now.slots number ≡ Some result.now }
    {
        match &self.entries[number] {
            Entry::Occupied(value) => value,
            Entry::Vacant(_) => unreachable!(),
        }
    }

    /// Writes another value into a slot that holds one.
    pub(crate) fn set(&mut self, number: usize, value: T)
        requires { IsSome (at self.old.slots number) }
        ensures slots { self.new.slots ≡ slice_set self.old.slots number (Some value) }
        ensures spare { self.new.spare ≡ self.old.spare }
    {
        self.entries[number] = Entry::Occupied(value);
    }
}
