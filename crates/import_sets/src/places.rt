//! Places in a list, and rows of them: for each unit the places of what it imports.
ghost use Rattle.std.specs.Prelude.{◌≡◌, ◌<◌, ◌++◌, ◌∷◌, [], ℕ, Option, IfOk, OnOk, length, if◌then◌else◌};
ghost use Rattle.std.specs.BTreeSet.{contains};
ghost use Rattle.std.specs.Ordering.{nat_cmp};
ghost use Rattle.scheme_model.specs.Program.{is_in};
ghost use Rattle.import_sets.specs.Graphs.{row};

use ls_base::{Items, Mem};
use std::alloc::Global;
use std::collections::BTreeSet;

/// Places, each once.
#[derive(Drop)]
pub struct Places {
    pub all: Items<usize>,
    pub seen: BTreeSet<usize>,
    pub ghost told: { (n : ℕ) → contains nat_cmp seen n ≡ is_in n all },
}

impl Places {
    ghost use Rattle.std.specs.Prelude.{◌||◌, []};
    ghost use Rattle.import_sets.specs.Graphs.{is_place, with_new};

    pub fn new(alloc: Global) -> Places
        ensures { result.all ≡ [] }
    {
        Places {
            all: Items::new(alloc),
            seen: BTreeSet::new(alloc),
        }
    }

    /// With a place more, if there is one and it isn't there yet.
    pub fn with(self, place: Option<usize>) -> Mem<Places>
        ensures all { IfOk result (λ new. new.all ≡ with_new self.all place) }
        ensures members { IfOk result (λ new. (n : ℕ) → is_in n new.all ≡ (is_in n self.all || is_place n place)) }
    {
        let Places { mut all, mut seen } = self;
        let Some(place) = place else {
            return Ok(Places { all, seen });
        };
        if seen.insert(place)? {
            all.push(place)?;
            return Ok(Places { all, seen });
        }
        Ok(Places { all, seen })
    }
}

/// The row at a place.
pub fn row(graph: &[Items<usize>], place: usize) -> &[usize]
    requires { place < length graph.now }
    ensures { result.now ≡ row graph.now place }
{
    graph[place].as_slice()
}

/// Adds a place, if it is told to.
pub fn push_if<T: Copy>(places: &mut Items<T>, add: bool, place: T) -> Mem<()>
    ensures { OnOk result (places.new ≡ (if add then places.old ++ place ∷ [] else places.old)) }
{
    if add {
        places.push(place)?;
    }
    Ok(())
}
