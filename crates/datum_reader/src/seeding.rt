//! The tree of a datum (R7RS 7.1.2), with the places of its tokens.
ghost use Rattle.std.specs.Prelude.{◌≡◌, ◌+◌, ◌^◌, ◌<◌, ◌≤◌, All, MatchResult, IfOk, OnOk, Err};
ghost use Rattle.scheme_model.specs.Trees.{map_tree, placed_by};
ghost use Rattle.scheme_model.specs.Measures.{tree_size};
ghost use Rattle.scheme_model.specs.DataTrees.{form_as, form_of};
ghost use Rattle.scheme_model.specs.Ident.{root};
ghost use Rattle.syntax_tree.specs.Names.{KeepsNames};
ghost use Rattle.syntax_tree.specs.Interned.{interned};
ghost use Rattle.syntax_tree.specs.Works.{StandsFor, IsOpened, LiesIn, KeepsTrees, SameRegions, AddsIn, live_count};
ghost use Rattle.datum_reader.specs.WellFormed.{WasRead};
ghost use Rattle.datum_reader.specs.Seeded.{seeded, seeded_as};
ghost use Rattle.datum_reader.specs.Seeding.{part_tree, parts_trees, tail_tree, CanBeSeeded, TailCanBeSeeded, Seeds, SeedsAll, SeedsTail, Prepares};
ghost use Rattle.datum_reader.specs.Views.{datum_of};

use crate::datum::{Datum, Shape};
use crate::seeding::leaves::{atom_node, bytes_node, mark_node};
use scheme_model::{Home, Occ};
use std::alloc::Global;
use syntax_tree::trees::{Node, PoolFault, Region, Tree, Work};

mod leaves;

pub use leaves::joined;

/// Adds the tree of a datum, the form `form` of the unit `unit`, which was read from a text of at most 1,048,576 bytes. Its names
/// are written in this unit. What was read from a token has that token's place, whose number counts from the datum's first token;
/// the identifier that a mark implies (R7RS 4.1.2, 4.2.8) has none. A bytevector is one atom, its numerals with one space
/// between each two. All its nodes lie in the region; one is added for each node of the tree, and of the tree's names those that
/// are new. `Full` comes only where the nodes that live and those of the tree are together more than 2^31. What a fault leaves of
/// the tree stays.
pub fn seed(
    alloc: Global,
    work: &mut Work,
    region: &Region,
    datum: &Datum,
    unit: u32,
    form: u32,
) -> Result<Tree, PoolFault>
    requires region { IsOpened work.old region.now }
    requires read { WasRead (datum_of datum.now) }
    ensures tree { IfOk result (λ tree. StandsFor work.new tree (seeded unit form (datum_of datum.now))) }
    ensures form { map_tree root (seeded unit form (datum_of datum.now)) ≡ form_of unit form (datum_of datum.now) }
    ensures region { IfOk result (λ tree. LiesIn work.new region.now tree) }
    ensures keeps { KeepsTrees work.old work.new }
    ensures added { AddsIn work.old work.new region.now }
    ensures regions { SameRegions work.old work.new }
    ensures names { MatchResult result (λ _. work.new.symbols ≡ interned (seeded unit form (datum_of datum.now)) work.old.symbols)
        (λ _. KeepsNames work.new.symbols (interned (seeded unit form (datum_of datum.now)) work.old.symbols)) }
    ensures old_names { KeepsNames work.old.symbols work.new.symbols }
    ensures nodes { MatchResult result (λ _. live_count work.new ≡ live_count work.old + tree_size (seeded unit form (datum_of datum.now)))
        (λ _. live_count work.new < live_count work.old + tree_size (seeded unit form (datum_of datum.now))) }
    ensures full { result ≡ Err PoolFault.Full → 2 ^ 31 < live_count work.old + tree_size (seeded unit form (datum_of datum.now)) }
{
    let home = Home {
        unit,
        form,
        first: datum.first,
    };
    Ok(seed_as(alloc, work, region, datum, home, unit)?)
}

/// Adds the tree of a datum of a text with this home, as `seed` does, its names written in the unit `into`.
pub fn seed_as(
    alloc: Global,
    work: &mut Work,
    region: &Region,
    datum: &Datum,
    home: Home,
    into: u32,
) -> Result<Tree, PoolFault>
    requires region { IsOpened work.old region.now }
    requires read { WasRead (datum_of datum.now) }
    ensures tree { IfOk result (λ tree. StandsFor work.new tree (seeded_as into home (datum_of datum.now))) }
    ensures form { map_tree root (seeded_as into home (datum_of datum.now)) ≡ form_as into home (datum_of datum.now) }
    ensures region { IfOk result (λ tree. LiesIn work.new region.now tree) }
    ensures keeps { KeepsTrees work.old work.new }
    ensures added { AddsIn work.old work.new region.now }
    ensures regions { SameRegions work.old work.new }
    ensures names { MatchResult result (λ _. work.new.symbols ≡ interned (seeded_as into home (datum_of datum.now)) work.old.symbols)
        (λ _. KeepsNames work.new.symbols (interned (seeded_as into home (datum_of datum.now)) work.old.symbols)) }
    ensures old_names { KeepsNames work.old.symbols work.new.symbols }
    ensures nodes { MatchResult result (λ _. live_count work.new ≡ live_count work.old + tree_size (seeded_as into home (datum_of datum.now)))
        (λ _. live_count work.new < live_count work.old + tree_size (seeded_as into home (datum_of datum.now))) }
    ensures full { result ≡ Err PoolFault.Full → 2 ^ 31 < live_count work.old + tree_size (seeded_as into home (datum_of datum.now)) }
{
    let taken = Taken { into, home };
    Ok(seed_datum(alloc, work, region, datum, taken)?)
}

/// A form as a unit takes it: the unit in which its names are written, and the home of its text.
#[derive(Clone, Copy)]
struct Taken {
    into: u32,
    home: Home,
}

impl Taken {
    /// The place of a token by its number in the text.
    fn place(self, token: u32) -> Occ
        ensures { result ≡ placed_by self.home token }
    {
        Occ {
            unit: self.home.unit,
            form: self.home.form,
            token: token.saturating_sub(self.home.first),
        }
    }
}

/// Adds the tree of a part of a form.
#[cycle(parts)]
fn seed_datum(
    alloc: Global,
    work: &mut Work,
    region: &Region,
    datum: &Datum,
    taken: Taken,
) -> Result<Tree, PoolFault>
    requires region { IsOpened work.old region.now }
    requires read { CanBeSeeded datum.now }
    ensures { Seeds work.old work.new region.now (part_tree taken.into taken.home datum.now) result }
{
    let node = seed_node(alloc, work, region, datum, taken)?;
    Ok(work.add(region, node)?)
}

/// Adds the trees below a part of a form, and makes the part's own node.
#[cycle(parts)]
fn seed_node(
    alloc: Global,
    work: &mut Work,
    region: &Region,
    datum: &Datum,
    taken: Taken,
) -> Result<Node, PoolFault>
    requires region { IsOpened work.old region.now }
    requires read { CanBeSeeded datum.now }
    ensures { Prepares work.old work.new region.now (part_tree taken.into taken.home datum.now) result }
{
    let occ = taken.place(datum.first);
    match &datum.shape {
        Shape::Atom(atom) => Ok(atom_node(&mut work.symbols, atom, taken.into, occ)?),
        Shape::Implied(mark) => Ok(mark_node(&mut work.symbols, *mark, taken.into)?),
        Shape::Bytes(numerals) => Ok(bytes_node(alloc, &mut work.symbols, numerals, occ)?),
        Shape::Vector(parts) => {
            let items = seed_parts(alloc, work, region, parts.as_slice(), taken)?;
            let occ = Some(occ);
            Ok(Node::Vector { items, occ })
        }
        Shape::List(parts, end) => {
            let items = seed_parts(alloc, work, region, parts.as_slice(), taken)?;
            let tail = seed_tail(alloc, work, region, end, taken)?;
            let occ = Some(occ);
            Ok(Node::List { items, tail, occ })
        }
    }
}

/// Adds the trees of the parts of a list or a vector, in order.
#[cycle(parts)]
fn seed_parts(
    alloc: Global,
    work: &mut Work,
    region: &Region,
    parts: &[Datum],
    taken: Taken,
) -> Result<Vec<Tree>, PoolFault>
    requires region { IsOpened work.old region.now }
    requires read { All CanBeSeeded parts.now }
    ensures { SeedsAll work.old work.new region.now (parts_trees taken.into taken.home parts.now) result }
{
    let mut trees = Vec::with_capacity(alloc, parts.len())?;
    for part in parts {
        let tree = seed_datum(alloc, work, region, part, taken)?;
        trees.push(tree)?;
    }
    Ok(trees)
}

/// Adds the tree of a list's tail, where it has one.
#[cycle(parts)]
fn seed_tail(
    alloc: Global,
    work: &mut Work,
    region: &Region,
    tail: &Option<Box<Datum>>,
    taken: Taken,
) -> Result<Option<Tree>, PoolFault>
    requires region { IsOpened work.old region.now }
    requires read { TailCanBeSeeded tail.now }
    ensures { SeedsTail work.old work.new region.now (tail_tree taken.into taken.home tail.now) result }
{
    match tail {
        None => Ok(None),
        Some(datum) => Ok(Some(seed_datum(alloc, work, region, datum, taken)?)),
    }
}
