//! What import sets give together (R7RS 5.2, 5.6.1): of a name with two meanings the earlier stays, and with one it has what spells
//! it in both, each once.
ghost use Rattle.std.specs.Prelude.{◌≡◌, ℕ, List, [], map, IfOk};
ghost use Rattle.std.specs.Option.{is_some};
ghost use Rattle.std.specs.HashMap.{get_by_text};
ghost use Rattle.scheme_model.specs.Entries as model;
ghost use Rattle.syntax_tree.specs.Names.{Names};
ghost use Rattle.syntax_tree.specs.Meant.{AreEntries};
ghost use Rattle.import_sets.specs.Sets.{TellsApart};
ghost use Rattle.import_sets.specs.Given.{finished, has_name, place_origin, take_all};
ghost use Rattle.import_sets.specs.GatheringSeen.{seen};
ghost use Rattle.unit_imports.specs.EntriesMeant.{EachOnce, HaveMeaning};
ghost use Rattle.unit_imports.specs.Joining.{AreApart, GatheredAs, GroupsMean, GroupsStand, plain_origin};

use import_sets::clash::finished;
use import_sets::gather::Gathering;
use ls_base::{Items, Mem, Text};
use scheme_model::Occ;
use std::alloc::Global;
use std::collections::HashMap;
use syntax_tree::units::{Entry, Origin};

/// The entries of a unit, each name once, and which names there are.
#[derive(Drop)]
pub struct Joined {
    pub entries: Vec<Entry>,
    pub places: HashMap<String, usize>,
    pub ghost told: { (s : List ℕ) → is_some (get_by_text places s) ≡ has_name entries.items s },
}

impl Joined {
    /// What was put together.
    pub fn of(alloc: Global, gathering: Gathering) -> Mem<Joined>
        ensures entries { IfOk result (λ joined. joined.entries.items ≡ map finished gathering.groups.items) }
        ensures once { AreApart gathering.groups.items → IfOk result (λ joined. EachOnce joined.entries.items) }
    {
        let Gathering {
            groups,
            places,
            clashes: _,
        } = gathering;
        Ok(Joined {
            entries: finished(alloc, groups)?.into_vec(),
            places,
        })
    }

    /// Whether there is a name.
    pub fn has(&self, name: &str) -> bool
        ensures { result ≡ has_name self.now.entries.items name.now }
    {
        self.places.contains_key(name)
    }
}

/// With further entries, one by one.
fn take_all(alloc: Global, gathering: Gathering, entries: Items<Entry>) -> Mem<Gathering>
    ensures { IfOk result (λ new. seen new ≡ take_all (seen gathering) entries) }
{
    let mut gathering = gathering;
    for entry in entries.into_vec() {
        gathering = gathering.take_in(alloc, entry)?;
    }
    Ok(gathering)
}

/// With further entries, one by one, all of which stand for some.
pub fn join_all(alloc: Global, gathering: Gathering, entries: Items<Entry>) -> Mem<Gathering>
    ensures means { (names : Names) → TellsApart names → GroupsMean names gathering.groups.items → HaveMeaning names entries →
        IfOk result (λ new. GroupsMean names new.groups.items) }
    ensures apart { AreApart gathering.groups.items → IfOk result (λ new. AreApart new.groups.items) }
    ensures exact { gathering.clashes.items ≡ [] → (names : Names) → TellsApart names → (es : List model.Entry) → GroupsStand names gathering.groups.items es →
        (ds : List model.Entry) → AreEntries names entries ds → IfOk result (λ new. GatheredAs names (seen new) (model.gather es ds [])) }
{
    Ok(take_all(alloc, gathering, entries)?)
}

/// A place spells by itself; without one nothing does.
pub fn own_origin(alloc: Global, occ: Option<Occ>) -> Mem<Items<Origin>>
    ensures { IfOk result (λ origins. origins ≡ place_origin occ) }
{
    match occ {
        None => Ok(Items::new(alloc)),
        Some(_) => Ok(origin(alloc, occ)?),
    }
}

/// An origin without a prefix; without a place it is that of a standard name.
pub fn origin(alloc: Global, occ: Option<Occ>) -> Mem<Items<Origin>>
    ensures { IfOk result (λ origins. origins ≡ plain_origin occ) }
{
    let mut origins = Items::new(alloc);
    origins.push(Origin {
        occ,
        prefix: Text::of(alloc, "")?,
    })?;
    Ok(origins)
}
