//! Entries in which a name may stand twice, put together one by one (R7RS 5.2): with one meaning they are one entry, with two
//! they clash.
ghost use Rattle.std.specs.Prelude.{◌≡◌, ◌<◌, ◌++◌, ◌∷◌, [], ℕ, List, Option, None, Some, map, reverse, length, slice_get, slice_set, IfOk, OnOk};
ghost use Rattle.std.specs.HashMap.{get_by_text};
ghost use Rattle.import_sets.specs.Given.{place_of};

use crate::joining::{add_origins, same_meaning};
use ls_base::{Items, Mem, Text};
use std::alloc::Global;
use std::collections::HashMap;
use syntax_tree::units::{Entry, Origin};

/// An entry, and what spells the later ones of its name.
#[derive(Drop)]
pub struct Group {
    pub entry: Entry,
    pub more: Items<Origin>,
}

/// The entries put together so far, the place of each name among them, and the names that clashed.
#[derive(Drop)]
pub struct Gathering {
    pub groups: Vec<Group>,
    pub places: HashMap<String, usize>,
    pub clashes: Vec<Text>,
    pub ghost placed: { (s : List ℕ) → get_by_text places s ≡ place_of groups.items s },
}

impl Gathering {
    ghost use Rattle.import_sets.specs.Given.{nothing_yet, take_in, alone};
    ghost use Rattle.import_sets.specs.GatheringSeen.{seen};

    pub fn new(alloc: Global) -> Gathering
        ensures { seen result ≡ nothing_yet }
    {
        Gathering {
            groups: Vec::new(alloc),
            places: HashMap::new(alloc),
            clashes: Vec::new(alloc),
        }
    }

    /// The place of a name among the entries.
    fn place(&self, name: &str) -> Option<usize>
        ensures { result ≡ place_of self.now.groups.items name.now }
    {
        self.places.get(name).copied()
    }

    /// With an entry whose name is new.
    fn with_new(self, alloc: Global, entry: Entry) -> Mem<Gathering>
        requires { place_of self.groups.items entry.name ≡ None }
        ensures groups { IfOk result (λ g. g.groups.items ≡ self.groups.items ++ alone entry ∷ []) }
        ensures clashes { IfOk result (λ g. g.clashes.items ≡ self.clashes.items) }
    {
        let Gathering {
            mut groups,
            mut places,
            clashes,
        } = self;
        places.insert(String::from_str(alloc, entry.name.as_str())?, groups.len())?;
        groups.push(Group {
            entry,
            more: Items::new(alloc),
        })?;
        Ok(Gathering {
            groups,
            places,
            clashes,
        })
    }

    /// With further origins beside the entry at a place.
    fn with_origins(self, place: usize, origins: Items<Origin>) -> Mem<Gathering>
        requires { place < length self.groups.items }
        ensures groups { (g : Group) → slice_get self.groups.items place ≡ Some g →
            IfOk result (λ h. h.groups.items
            ≡ slice_set self.groups.items place (record g { more = g.more ++ origins })) }
        ensures clashes { IfOk result (λ g. g.clashes.items ≡ self.clashes.items) }
    {
        let Gathering {
            mut groups,
            places,
            clashes,
        } = self;
        add_origins(&mut groups[place].more, origins)?;
        Ok(Gathering {
            groups,
            places,
            clashes,
        })
    }

    /// With a name that clashed.
    fn with_clash(self, name: Text) -> Mem<Gathering>
        ensures groups { IfOk result (λ g. g.groups.items ≡ self.groups.items) }
        ensures clashes { IfOk result (λ g. g.clashes.items ≡ self.clashes.items ++ name ∷ []) }
    {
        let Gathering {
            groups,
            places,
            mut clashes,
        } = self;
        clashes.push(name)?;
        Ok(Gathering {
            groups,
            places,
            clashes,
        })
    }

    /// With one entry more.
    pub fn take_in(self, alloc: Global, entry: Entry) -> Mem<Gathering>
        ensures { IfOk result (λ g. seen g ≡ take_in (seen self) entry) }
    {
        let Some(place) = self.place(entry.name.as_str()) else {
            return Ok(self.with_new(alloc, entry)?);
        };
        let Entry {
            name,
            meaning,
            origins,
        } = entry;
        if same_meaning(self.groups[place].entry.meaning, meaning) {
            return Ok(self.with_origins(place, origins)?);
        }
        Ok(self.with_clash(name)?)
    }
}
