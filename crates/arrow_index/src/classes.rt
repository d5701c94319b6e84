//! Classes: the occurrences that are spelled together with one, each with its prefixes. A class is found by going from the
//! occurrence over the links, in both directions; a standard name leads nowhere.
ghost use Rattle.std.specs.Prelude.{◌≡◌, ◌≤◌, ◌↔◌, ◌++◌, ◌∷◌, [], ℕ, List, length, map, not, true, false, IfOk, OnOk, if◌then◌else◌};
ghost use Rattle.std.specs.List.{Contains, flat_map};
ghost use Rattle.std.specs.List.Sorted.{IsPartitionPoint, IsStrictlySortedBy};
ghost use Rattle.std.specs.Ordering.{is_lt, nat_cmp};
ghost use Rattle.std.specs.Cmp.Lexicographic.{slice_cmp};
ghost use Rattle.std.specs.BTreeSet.{contains};
ghost use Rattle.scheme_model.specs.declared.Occ.{Occ as AnyOcc};
ghost use Rattle.scheme_model.specs.Entries.{same_occ};
ghost use Rattle.scheme_model.specs.Spelling.{Link as ModelLink, class_of, is_member, is_place, is_end, is_joined};
ghost use Rattle.program_leaves.specs.Pairs.{as_arrow, AreArrows};
ghost use Rattle.program_leaves.specs.Placed.{occ_cmp};
ghost use Rattle.arrow_index.specs.Links.{source_of, as_link};
ghost use Rattle.arrow_index.specs.Classes.{Gains, Reaches, ways_over, ways_of, parts_from, names_from, has_part, part_cmp, AreSaid, AreParts, AreStandard};
ghost use Rattle.arrow_index.specs.declared.classes.ClassPart.{ClassPart as AnyPart};

use crate::links::{Link, LinkOrigin};
use crate::queries::uses_of;
use ls_base::{Items, Mem, Text};
use program_leaves::pairs::{Pair, pairs_in_order};
use scheme_model::Occ;
use std::alloc::Global;
use std::collections::BTreeSet;

/// A member of a class, and a prefix behind which it takes its characters.
#[derive(Drop, PartialEq, Eq, PartialOrd, Ord)]
pub struct ClassPart {
    pub occ: Occ,
    pub prefix: Text,
}

/// Whether an origin is an occurrence.
fn is_place(origin: &LinkOrigin, occ: Occ) -> bool
    ensures { result ≡ is_place (source_of origin.now) occ }
{
    match origin {
        LinkOrigin::Place(place) => *place == occ,
        LinkOrigin::Standard(_) => false,
    }
}

/// Whether a link joins an occurrence.
fn is_end(link: &Link, occ: Occ) -> bool
    ensures { result ≡ is_end occ (as_link link.now) }
{
    link.target == occ || is_place(&link.origin, occ)
}

/// Whether a link joins an occurrence, as its target or as its origin.
pub fn is_joined(links: &[Link], occ: Occ) -> bool
    ensures { (all : List ModelLink) → AreSaid links.now all → result ≡ is_joined all occ }
{
    for link in links {
        if is_end(link, occ) {
            return true;
        }
    }
    false
}

/// Adds the ends of a link that are occurrences.
fn add_ends(link: &Link, ends: &mut BTreeSet<Occ>) -> Mem<()>
    ensures { OnOk result (Gains ends.old ends.new (λ o. is_end o (as_link link.now))) }
{
    ends.insert(link.target)?;
    if let LinkOrigin::Place(place) = &link.origin {
        ends.insert(*place)?;
    }
    Ok(())
}

/// What links join.
fn ends_of(alloc: Global, links: &[Link]) -> Mem<BTreeSet<Occ>>
    ensures { IfOk result (λ ends. (o : AnyOcc) → contains occ_cmp ends o ≡ is_joined (map as_link links.now) o) }
{
    let mut ends = BTreeSet::new(alloc);
    for link in links {
        add_ends(link, &mut ends)?;
    }
    Ok(ends)
}

/// Adds the ways over a link, from each end to the other.
fn add_ways(link: &Link, ways: &mut Vec<Pair>) -> Mem<()>
    ensures { OnOk result (map as_arrow ways.new.items ≡ map as_arrow ways.old.items ++ ways_over (as_link link.now)) }
{
    match &link.origin {
        LinkOrigin::Place(place) => {
            ways.push(Pair {
                binder: *place,
                target: link.target,
            })?;
            ways.push(Pair {
                binder: link.target,
                target: *place,
            })?;
            Ok(())
        }
        LinkOrigin::Standard(_) => Ok(()),
    }
}

/// The ways over links in no order, of which some may stand twice.
fn all_ways(alloc: Global, links: &[Link]) -> Mem<Vec<Pair>>
    ensures { IfOk result (λ ways. map as_arrow ways.items ≡ ways_of (map as_link links.now)) }
{
    let mut ways = Vec::new(alloc);
    for link in links {
        add_ways(link, &mut ways)?;
    }
    Ok(ways)
}

/// The ways over links, sorted by where they begin and where they end, each once.
fn ways(alloc: Global, links: &[Link]) -> Mem<Items<Pair>>
    ensures { IfOk result (λ ways. AreArrows ways (ways_of (map as_link links.now))) }
{
    let ways = all_ways(alloc, links)?;
    Ok(pairs_in_order(ways)?)
}

/// Takes an occurrence out of those outside, and leaves it to be gone on from; one that isn't outside was reached before.
fn reach(outside: &mut BTreeSet<Occ>, left: &mut Vec<Occ>, occ: Occ) -> Mem<()>
    ensures { OnOk result (Reaches outside.old left.old.items outside.new left.new.items (same_occ occ)) }
{
    if outside.remove(&occ) {
        left.push(occ)?;
    }
    Ok(())
}

/// Takes occurrences out of those outside.
fn reach_all(outside: &mut BTreeSet<Occ>, left: &mut Vec<Occ>, occs: &[Occ]) -> Mem<()>
    ensures { OnOk result (Reaches outside.old left.old.items outside.new left.new.items (is_member occs.now)) }
{
    for occ in occs {
        reach(outside, left, *occ)?;
    }
    Ok(())
}

/// What links join outside of the class of an occurrence.
fn outside_of(alloc: Global, links: &[Link], occ: Occ) -> Mem<BTreeSet<Occ>>
    ensures { IfOk result (λ outside. (o : AnyOcc) → is_joined (map as_link links.now) o ≡ true →
        contains occ_cmp outside o ≡ not (is_member (class_of (map as_link links.now) occ) o)) }
{
    let ways = ways(alloc, links)?;
    let mut outside = ends_of(alloc, links)?;
    let mut left = Vec::new(alloc);
    reach(&mut outside, &mut left, occ)?;
    while let Some(place) = left.pop() {
        let next = uses_of(alloc, ways.as_slice(), place)?;
        reach_all(&mut outside, &mut left, next.as_slice())?;
    }
    Ok(outside)
}

/// Adds the part that a link gives: its target behind its prefix, unless that is outside.
fn add_part(link: &Link, outside: &BTreeSet<Occ>, parts: &mut Vec<ClassPart>) -> Mem<()>
    ensures { OnOk result (parts.new.items ≡ parts.old.items ++ parts_from (λ o. contains occ_cmp outside.now o) link.now) }
{
    if outside.contains(&link.target) {
        return Ok(());
    }
    let prefix = link.prefix.clone()?;
    Ok(parts.push(ClassPart {
        occ: link.target,
        prefix,
    })?)
}

/// The parts of a class in no order, of which some may stand twice.
fn all_parts(alloc: Global, links: &[Link], outside: &BTreeSet<Occ>) -> Mem<Vec<ClassPart>>
    ensures { IfOk result (λ parts. parts.items ≡ flat_map (parts_from (λ o. contains occ_cmp outside.now o)) links.now) }
{
    let mut parts = Vec::new(alloc);
    for link in links {
        add_part(link, outside, &mut parts)?;
    }
    Ok(parts)
}

/// Parts in order, each once.
fn parts_in_order(parts: Vec<ClassPart>) -> Mem<Items<ClassPart>>
    ensures { IfOk result (λ sorted. IsStrictlySortedBy part_cmp sorted × ((p : AnyPart) → Contains sorted p ↔ Contains parts.items p)) }
{
    let mut parts = parts;
    parts.sort()?;
    parts.dedup();
    Ok(Items::from_vec(parts))
}

/// The class of an occurrence: each prefix of each member, sorted by occurrence and prefix.
pub fn class_of(alloc: Global, links: &[Link], occ: Occ) -> Mem<Items<ClassPart>>
    ensures sorted { IfOk result (IsStrictlySortedBy part_cmp) }
    ensures exact { (all : List ModelLink) → AreSaid links.now all → IfOk result (λ parts. AreParts parts all occ) }
{
    let outside = outside_of(alloc, links, occ)?;
    let parts = all_parts(alloc, links, &outside)?;
    Ok(parts_in_order(parts)?)
}

/// Whether a part stands for an occurrence that comes before another.
fn is_part_before(part: &ClassPart, occ: Occ) -> bool
    ensures { result ≡ is_lt (occ_cmp part.now.occ occ) }
{
    part.occ < occ
}

/// The place of the first part whose occurrence doesn't come before another.
fn first_part(parts: &[ClassPart], occ: Occ) -> usize
    requires { IsStrictlySortedBy part_cmp parts.now }
    ensures bound { result ≤ length parts.now }
    ensures point { IsPartitionPoint (λ p. is_lt (occ_cmp p.occ occ) ≡ true) (λ p. is_lt (occ_cmp p.occ occ) ≡ false) parts.now result }
{
    parts.partition_point(|part| is_part_before(part, occ))
}

/// Whether an occurrence has one of these parts.
fn has_part(parts: &[ClassPart], occ: Occ) -> bool
    requires { IsStrictlySortedBy part_cmp parts.now }
    ensures { result ≡ has_part parts.now occ }
{
    match parts.get(first_part(parts, occ)) {
        Some(part) => part.occ == occ,
        None => false,
    }
}

/// Adds a name, where that is wanted.
fn add_name(name: &Text, is_wanted: bool, names: &mut Vec<Text>) -> Mem<()>
    ensures { OnOk result (names.new.items ≡ names.old.items ++ (if is_wanted then name.now ∷ [] else [])) }
{
    if is_wanted {
        let name = name.clone()?;
        names.push(name)?;
    }
    Ok(())
}

/// Adds the origin of a link to a member, where it is a standard name.
fn add_standard(link: &Link, parts: &[ClassPart], names: &mut Vec<Text>) -> Mem<()>
    requires { IsStrictlySortedBy part_cmp parts.now }
    ensures { OnOk result (names.new.items ≡ names.old.items ++ names_from (has_part parts.now) link.now) }
{
    match &link.origin {
        LinkOrigin::Place(_) => Ok(()),
        LinkOrigin::Standard(name) => Ok(add_name(name, has_part(parts, link.target), names)?),
    }
}

/// Names in order, each once.
fn names_in_order(names: Vec<Text>) -> Mem<Items<Text>>
    ensures { IfOk result (λ sorted. IsStrictlySortedBy (slice_cmp nat_cmp) sorted × ((s : List ℕ) → Contains sorted s ↔ Contains names.items s)) }
{
    let mut names = names;
    names.sort()?;
    names.dedup();
    Ok(Items::from_vec(names))
}

/// The standard names of links to members in no order, of which some may stand twice.
fn all_names(alloc: Global, links: &[Link], parts: &[ClassPart]) -> Mem<Vec<Text>>
    requires { IsStrictlySortedBy part_cmp parts.now }
    ensures { IfOk result (λ names. names.items ≡ flat_map (names_from (has_part parts.now)) links.now) }
{
    let mut names = Vec::new(alloc);
    for link in links {
        add_standard(link, parts, &mut names)?;
    }
    Ok(names)
}

/// The standard names that a member of a class takes characters from, in order, each once. The parts are those of the class.
pub fn standard_names(alloc: Global, links: &[Link], parts: &[ClassPart]) -> Mem<Items<Text>>
    requires { IsStrictlySortedBy part_cmp parts.now }
    ensures { (all : List ModelLink) (occ : AnyOcc) → AreSaid links.now all → AreParts parts.now all occ → IfOk result (λ names. AreStandard names all occ) }
{
    let names = all_names(alloc, links, parts)?;
    Ok(names_in_order(names)?)
}
