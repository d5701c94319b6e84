//! The names of data with holes that stand in no hole.
ghost use Rattle.std.specs.Prelude.{◌≡◌, ℕ, ◌+◌, ◌^◌, ◌<◌, ◌++◌, List, Option, true, false, map, if◌then◌else◌, IfOk, OnOk};
ghost use Rattle.scheme_model.specs.Trees.{Tree as ModelTree, Trees, Tail};
ghost use Rattle.scheme_model.specs.Cores.{hole_weight, weight, weights, tail_weight};
ghost use Rattle.scheme_model.specs.Holes.{FillsHole, HasHoles, AreLike, IsTailLike, places_in, places_among, places_behind};
ghost use Rattle.scheme_model.specs.Ident.{Ident as Identifier, symbol_of};
ghost use Rattle.syntax_tree.specs.Looks.{PartsStand, EndStands, StandsWithin, PartsWithin, EndWithin};
ghost use Rattle.syntax_tree.specs.Works.{StandsFor};
ghost use Rattle.core_tree.specs.Cores.{IsHoled};
ghost use Rattle.program_leaves.specs.Holes.{occs_in, occs_among, occs_behind, left, is_next, behind_first, AllFrom};

use ls_base::Mem;
use std::alloc::Global;
use syntax_tree::look::{Look, look_at, place_of};
use syntax_tree::rules::Named;
use syntax_tree::trees::{Tree, Work};

/// How far a walk over a datum with holes is: how many nodes outside of holes it has passed, and how many holes.
#[derive(Drop)]
pub struct Holes<'a> {
    pub places: &'a [u32],
    pub nodes: u64,
    pub passed: usize,
}

/// Whether a hole is next, which then is passed, as a node is otherwise.
fn pass(holes: &mut Holes<'_>) -> bool
    ensures answer { result ≡ is_next (left holes.old) holes.old.nodes }
    ensures left { left holes.new ≡ (if result then behind_first (left holes.old) else left holes.old) }
    ensures hole { result ≡ true → holes.new.nodes ≡ holes.old.nodes }
    ensures node { result ≡ false → holes.old.nodes < 2 ^ 63 → holes.new.nodes ≡ holes.old.nodes + 1 }
{
    if holes.passed < holes.places.len() && u64::from(holes.places[holes.passed]) == holes.nodes {
        holes.passed += 1;
        return true;
    }
    holes.nodes = holes.nodes.saturating_add(1);
    false
}

/// Adds the names of a datum, at most `depth` nodes deep, that stand in no hole.
#[cycle(outside)]
fn add_outside(
    work: &Work,
    tree: Tree,
    depth: u32,
    holes: &mut Holes<'_>,
    names: &mut Vec<Named>,
) -> Mem<()>
    requires { StandsWithin work.now tree depth }
    ensures { (t : ModelTree Identifier) (h : ModelTree (Option (List ℕ))) (rest : List ℕ) → StandsFor work.now tree t → HasHoles symbol_of t h →
        left holes.old ≡ places_in hole_weight holes.old.nodes h ++ rest →
        AllFrom (holes.old.nodes + weight hole_weight h) rest → holes.old.nodes + weight hole_weight h < 2 ^ 63 →
        OnOk result ((map (λ n. n.occ) names.new.items ≡ map (λ n. n.occ) names.old.items ++ occs_in h)
        × (left holes.new ≡ rest) × (holes.new.nodes ≡ holes.old.nodes + weight hole_weight h)) }
{
    if pass(holes) {
        return Ok(());
    }
    match look_at(work, tree) {
        Look::Name(ident) => {
            let occ = place_of(work, tree);
            Ok(names.push(Named { ident, occ })?)
        }
        Look::Atom(_) => Ok(()),
        Look::List(items, end) => Ok(add_row_outside(work, items, end, depth - 1, holes, names)?),
        Look::Vector(items) => Ok(add_row_outside(work, items, None, depth - 1, holes, names)?),
    }
}

/// Adds the names of the parts of a list or a vector, and of its tail, where it has one, that stand in no hole.
#[cycle(outside)]
fn add_row_outside(
    work: &Work,
    items: &[Tree],
    end: Option<Tree>,
    depth: u32,
    holes: &mut Holes<'_>,
    names: &mut Vec<Named>,
) -> Mem<()>
    requires parts { PartsWithin work.now items.now depth }
    requires tail { EndWithin work.now end depth }
    ensures { (ts : Trees Identifier) (tail : Tail Identifier) (us : Trees (Option (List ℕ))) (last : Tail (Option (List ℕ))) (rest : List ℕ) →
        PartsStand work.now items.now ts → EndStands work.now end tail →
        AreLike (FillsHole symbol_of) ts us → IsTailLike (FillsHole symbol_of) tail last →
        left holes.old ≡ places_among hole_weight holes.old.nodes us ++ places_behind hole_weight (holes.old.nodes + weights hole_weight us) last ++ rest →
        AllFrom (holes.old.nodes + weights hole_weight us + tail_weight hole_weight last) rest →
        holes.old.nodes + weights hole_weight us + tail_weight hole_weight last < 2 ^ 63 →
        OnOk result ((map (λ n. n.occ) names.new.items ≡ map (λ n. n.occ) names.old.items ++ occs_among us ++ occs_behind last)
        × (left holes.new ≡ rest) × (holes.new.nodes ≡ holes.old.nodes + weights hole_weight us + tail_weight hole_weight last)) }
{
    for k in 0..items.len() {
        add_outside(work, items[k], depth, holes, names)?;
    }
    match end {
        None => Ok(()),
        Some(tail) => Ok(add_outside(work, tail, depth, holes, names)?),
    }
}

/// The names of a datum that stand in none of the holes at these places.
pub fn outside(alloc: Global, work: &Work, datum: Tree, places: &[u32]) -> Mem<Vec<Named>>
    requires { (h : ModelTree (Option (List ℕ))) × IsHoled work.now datum places.now h }
    ensures { (h : ModelTree (Option (List ℕ))) → IsHoled work.now datum places.now h →
        IfOk result (λ names. map (λ n. n.occ) names.items ≡ occs_in h) }
{
    let depth = work.depth(datum);
    let _size = work.size(datum);
    let mut holes = Holes {
        places,
        nodes: 0,
        passed: 0,
    };
    let mut names = Vec::new(alloc);
    add_outside(work, datum, depth, &mut holes, &mut names)?;
    Ok(names)
}
