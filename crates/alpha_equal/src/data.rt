//! Quoted data as lists of nodes, from the outside in and left to right, with the holes of quasiquoted data (R7RS 4.2.8).
ghost use Rattle.std.specs.Prelude.{◌≡◌, ℕ, ◌+◌, ◌^◌, ◌<◌, ◌++◌, ◌∷◌, [], List, Option, true, false, if◌then◌else◌, OnOk};
ghost use Rattle.scheme_model.specs.Trees.{Tree as ModelTree, Trees, Tail};
ghost use Rattle.scheme_model.specs.Cores.{hole_weight, weight, weights, tail_weight};
ghost use Rattle.scheme_model.specs.Holes.{FillsHole, HasHoles, AreLike, IsTailLike, places_in, places_among, places_behind};
ghost use Rattle.scheme_model.specs.RulesShape.{nowhere};
ghost use Rattle.scheme_model.specs.Ident.{Ident as Identifier, symbol_of};
ghost use Rattle.rename_model.specs.Walks.{nodes_in, nodes_among, nodes_behind};
ghost use Rattle.syntax_tree.specs.Looks.{PartsStand, EndStands, StandsWithin, PartsWithin, EndWithin};
ghost use Rattle.syntax_tree.specs.Works.{StandsFor};
ghost use Rattle.core_tree.specs.Cores.{IsHoled};
ghost use Rattle.program_leaves.specs.Adds.{Adds};
ghost use Rattle.program_leaves.specs.Holes.{is_next, behind_first, AllFrom};
ghost use Rattle.alpha_equal.specs.Data.{left, a_list, IsDatumNode};

use ls_base::Mem;
use scheme_model::Occ;
use syntax_tree::look::{Look, look_at, place_of};
use syntax_tree::symbols::IdNo;
use syntax_tree::trees::{Leaf, Tree, Work};

/// A node of a datum: a name, a hole, another atom, a list by the number of its parts and whether it has a tail, or a vector.
#[derive(Clone, Copy)]
pub enum DatumNode {
    Name { ident: IdNo, occ: Option<Occ> },
    Hole,
    Atom { leaf: Leaf, occ: Option<Occ> },
    List { parts: usize, dotted: bool },
    Vector { parts: usize },
}

/// How far a walk over a datum with holes is: how many nodes outside of holes it has passed, and how many holes.
#[derive(Drop)]
pub struct Walk<'a> {
    pub places: &'a [u32],
    pub nodes: u64,
    pub passed: usize,
}

/// Whether a hole is next, which then is passed, as a node is otherwise.
fn pass(walk: &mut Walk<'_>) -> bool
    ensures answer { result ≡ is_next (left walk.old) walk.old.nodes }
    ensures left { left walk.new ≡ (if result then behind_first (left walk.old) else left walk.old) }
    ensures hole { result ≡ true → walk.new.nodes ≡ walk.old.nodes }
    ensures node { result ≡ false → walk.old.nodes < 2 ^ 63 → walk.new.nodes ≡ walk.old.nodes + 1 }
{
    if walk.passed < walk.places.len() && u64::from(walk.places[walk.passed]) == walk.nodes {
        walk.passed += 1;
        return true;
    }
    walk.nodes = walk.nodes.saturating_add(1);
    false
}

/// Adds a list by the number of its parts and whether it has a tail.
fn add_list(parts: usize, end: Option<Tree>, nodes: &mut Vec<DatumNode>) -> Mem<()>
    ensures { OnOk result (nodes.new.items ≡ nodes.old.items ++ a_list parts end ∷ []) }
{
    let dotted = end.is_some();
    Ok(nodes.push(DatumNode::List { parts, dotted })?)
}

/// Adds the nodes of a datum, at most `depth` nodes deep, with its holes.
#[cycle(data)]
fn add_datum(
    work: &Work,
    tree: Tree,
    depth: u32,
    walk: &mut Walk<'_>,
    nodes: &mut Vec<DatumNode>,
) -> Mem<()>
    requires { StandsWithin work.now tree depth }
    ensures { (t : ModelTree Identifier) (h : ModelTree (Option (List ℕ))) (rest : List ℕ) → StandsFor work.now tree t → HasHoles symbol_of t h →
        left walk.old ≡ places_in hole_weight walk.old.nodes h ++ rest →
        AllFrom (walk.old.nodes + weight hole_weight h) rest → walk.old.nodes + weight hole_weight h < 2 ^ 63 →
        OnOk result (Adds (IsDatumNode work.now.symbols) nodes.old.items nodes.new.items (nodes_in nowhere h)
        × (left walk.new ≡ rest) × (walk.new.nodes ≡ walk.old.nodes + weight hole_weight h)) }
{
    if pass(walk) {
        return Ok(nodes.push(DatumNode::Hole)?);
    }
    match look_at(work, tree) {
        Look::Name(ident) => {
            let occ = place_of(work, tree);
            Ok(nodes.push(DatumNode::Name { ident, occ })?)
        }
        Look::Atom(leaf) => {
            let occ = place_of(work, tree);
            Ok(nodes.push(DatumNode::Atom { leaf, occ })?)
        }
        Look::List(items, end) => {
            add_list(items.len(), end, nodes)?;
            Ok(add_data(work, items, end, depth - 1, walk, nodes)?)
        }
        Look::Vector(items) => {
            nodes.push(DatumNode::Vector { parts: items.len() })?;
            Ok(add_data(work, items, None, depth - 1, walk, nodes)?)
        }
    }
}

/// Adds the nodes of the parts of a list or a vector, and of its tail, where it has one.
#[cycle(data)]
fn add_data(
    work: &Work,
    items: &[Tree],
    end: Option<Tree>,
    depth: u32,
    walk: &mut Walk<'_>,
    nodes: &mut Vec<DatumNode>,
) -> Mem<()>
    requires parts { PartsWithin work.now items.now depth }
    requires tail { EndWithin work.now end depth }
    ensures { (ts : Trees Identifier) (tail : Tail Identifier) (us : Trees (Option (List ℕ))) (last : Tail (Option (List ℕ))) (rest : List ℕ) →
        PartsStand work.now items.now ts → EndStands work.now end tail →
        AreLike (FillsHole symbol_of) ts us → IsTailLike (FillsHole symbol_of) tail last →
        left walk.old ≡ places_among hole_weight walk.old.nodes us ++ places_behind hole_weight (walk.old.nodes + weights hole_weight us) last ++ rest →
        AllFrom (walk.old.nodes + weights hole_weight us + tail_weight hole_weight last) rest →
        walk.old.nodes + weights hole_weight us + tail_weight hole_weight last < 2 ^ 63 →
        OnOk result (Adds (IsDatumNode work.now.symbols) nodes.old.items nodes.new.items (nodes_among nowhere us ++ nodes_behind nowhere last)
        × (left walk.new ≡ rest) × (walk.new.nodes ≡ walk.old.nodes + weights hole_weight us + tail_weight hole_weight last)) }
{
    for k in 0..items.len() {
        add_datum(work, items[k], depth, walk, nodes)?;
    }
    match end {
        None => Ok(()),
        Some(tail) => Ok(add_datum(work, tail, depth, walk, nodes)?),
    }
}

/// Adds the nodes of a datum with holes at these places.
pub fn datum_nodes(work: &Work, datum: Tree, places: &[u32], nodes: &mut Vec<DatumNode>) -> Mem<()>
    requires { (h : ModelTree (Option (List ℕ))) × IsHoled work.now datum places.now h }
    ensures { (h : ModelTree (Option (List ℕ))) → IsHoled work.now datum places.now h →
        OnOk result (Adds (IsDatumNode work.now.symbols) nodes.old.items nodes.new.items (nodes_in nowhere h)) }
{
    let depth = work.depth(datum);
    let _size = work.size(datum);
    let mut walk = Walk {
        places,
        nodes: 0,
        passed: 0,
    };
    Ok(add_datum(work, datum, depth, &mut walk, nodes)?)
}
