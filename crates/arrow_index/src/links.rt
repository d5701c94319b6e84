//! Links, and how they are added one by one.
ghost use Rattle.std.specs.Prelude.{◌≡◌, ◌<◌, ◌++◌, ◌∷◌, [], ℕ, List, None, Some, length, map, slice_get, OnOk};
ghost use Rattle.scheme_model.specs.Entries.{Origin as ModelOrigin, Source, StandardName, place_origin};
ghost use Rattle.scheme_model.specs.Meaning.{Meaning as ModelMeaning};
ghost use Rattle.scheme_model.specs.Spelling.{links_at, links_to_themselves, arrow_links};
ghost use Rattle.syntax_tree.specs.Meant.{IsGivenMeaning, IsSource, IsOrigin, AreOrigins};
ghost use Rattle.program_leaves.specs.Pairs.{as_arrow};
ghost use Rattle.arrow_index.specs.Links.{as_link};

use ls_base::{Mem, Text};
use program_leaves::pairs::Pair;
use scheme_model::Occ;
use std::alloc::Global;
use syntax_tree::meaning::Meaning;
use syntax_tree::symbols::SymNo;
use syntax_tree::trees::Work;
use syntax_tree::units::Origin;

/// What an occurrence takes its characters from: an occurrence, or a standard name.
#[derive(Drop, PartialEq, Eq, PartialOrd, Ord)]
pub enum LinkOrigin {
    Place(Occ),
    Standard(Text),
}

/// An occurrence takes its characters, behind a prefix, from an origin.
#[derive(Drop, PartialEq, Eq, PartialOrd, Ord)]
pub struct Link {
    pub origin: LinkOrigin,
    pub target: Occ,
    pub prefix: Text,
}

/// Adds the link to a place without a prefix.
pub fn add_place_link(alloc: Global, origin: Occ, target: Occ, links: &mut Vec<Link>) -> Mem<()>
    ensures { OnOk result (map as_link links.new.items ≡ map as_link links.old.items ++ links_at (Some target) (place_origin (Some origin))) }
{
    let prefix = Text::of(alloc, "")?;
    Ok(links.push(Link {
        origin: LinkOrigin::Place(origin),
        target,
        prefix,
    })?)
}

/// Adds the link to a place without a prefix, where there is one.
pub fn add_link(alloc: Global, origin: Option<Occ>, target: Occ, links: &mut Vec<Link>) -> Mem<()>
    ensures { OnOk result (map as_link links.new.items ≡ map as_link links.old.items ++ links_at (Some target) (place_origin origin)) }
{
    match origin {
        None => Ok(()),
        Some(place) => Ok(add_place_link(alloc, place, target, links)?),
    }
}

/// Adds a link to a standard name.
fn link_standard(
    alloc: Global,
    work: &Work,
    symbol: SymNo,
    prefix: &Text,
    target: Occ,
    links: &mut Vec<Link>,
) -> Mem<()>
    requires { symbol < length work.now.symbols.symbols }
    ensures { (s : List ℕ) → slice_get work.now.symbols.symbols symbol ≡ Some s →
        OnOk result (map as_link links.new.items ≡ map as_link links.old.items ++ record { origin = StandardName s; target = target; prefix = prefix.now } ∷ []) }
{
    let name = Text::of(alloc, work.symbols.name(symbol))?;
    let prefix = prefix.clone()?;
    Ok(links.push(Link {
        origin: LinkOrigin::Standard(name),
        target,
        prefix,
    })?)
}

/// Adds the link to an origin of a name with this meaning that has no place.
fn link_meant(
    alloc: Global,
    work: &Work,
    meaning: Meaning,
    prefix: &Text,
    target: Occ,
    links: &mut Vec<Link>,
) -> Mem<()>
    requires { (m : ModelMeaning) × IsGivenMeaning work.now.symbols meaning m }
    ensures { (m : ModelMeaning) (s : Source) → IsGivenMeaning work.now.symbols meaning m → IsSource m None s →
        OnOk result (map as_link links.new.items ≡ map as_link links.old.items ++ record { origin = s; target = target; prefix = prefix.now } ∷ []) }
{
    match meaning {
        Meaning::Standard(symbol) => Ok(link_standard(alloc, work, symbol, prefix, target, links)?),
        Meaning::Local(_) => Ok(()),
        Meaning::Global { .. } => Ok(()),
        Meaning::Free(_) => Ok(()),
    }
}

/// Adds the link to an origin of a name with this meaning.
fn link_origin(
    alloc: Global,
    work: &Work,
    meaning: Meaning,
    origin: &Origin,
    target: Occ,
    links: &mut Vec<Link>,
) -> Mem<()>
    requires { (m : ModelMeaning) × IsGivenMeaning work.now.symbols meaning m }
    ensures { (m : ModelMeaning) (p : ModelOrigin) → IsGivenMeaning work.now.symbols meaning m → IsOrigin m origin.now p →
        OnOk result (map as_link links.new.items ≡ map as_link links.old.items ++ links_at (Some target) (p ∷ [])) }
{
    match origin.occ {
        None => Ok(link_meant(alloc, work, meaning, &origin.prefix, target, links)?),
        Some(place) => {
            let prefix = origin.prefix.clone()?;
            Ok(links.push(Link {
                origin: LinkOrigin::Place(place),
                target,
                prefix,
            })?)
        }
    }
}

/// Adds the links to the origins of a name with this meaning.
pub fn link_origins(
    alloc: Global,
    work: &Work,
    meaning: Meaning,
    origins: &[Origin],
    target: Occ,
    links: &mut Vec<Link>,
) -> Mem<()>
    requires { (m : ModelMeaning) × IsGivenMeaning work.now.symbols meaning m }
    ensures { (m : ModelMeaning) (ps : List ModelOrigin) → IsGivenMeaning work.now.symbols meaning m → AreOrigins m origins.now ps →
        OnOk result (map as_link links.new.items ≡ map as_link links.old.items ++ links_at (Some target) ps) }
{
    for origin in origins {
        link_origin(alloc, work, meaning, origin, target, links)?;
    }
    Ok(())
}

/// Adds the links of occurrences to themselves.
pub fn link_themselves(alloc: Global, places: &[Occ], links: &mut Vec<Link>) -> Mem<()>
    ensures { OnOk result (map as_link links.new.items ≡ map as_link links.old.items ++ links_to_themselves places.now) }
{
    for place in places {
        add_place_link(alloc, *place, *place, links)?;
    }
    Ok(())
}

/// Adds the links of arrows.
pub fn link_arrows(alloc: Global, pairs: &[Pair], links: &mut Vec<Link>) -> Mem<()>
    ensures { OnOk result (map as_link links.new.items ≡ map as_link links.old.items ++ arrow_links (map as_arrow pairs.now)) }
{
    for pair in pairs {
        add_place_link(alloc, pair.binder, pair.target, links)?;
    }
    Ok(())
}
