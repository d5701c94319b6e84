//! Whether two trees are the same: the same data with the same identifiers, each at the same place.
ghost use Rattle.std.specs.Prelude.{◌≡◌, ◌↔◌, ◌≤◌, IsTrue, length, Option, Some};
ghost use Rattle.scheme_model.specs.Ident.{Ident as Identifier};
ghost use Rattle.scheme_model.specs.Matching.{behind};
ghost use Rattle.scheme_model.specs.Trees.{Atom, Tree as ModelTree, atom, dotted, list, name, proper, vector, Trees, Tail};
ghost use Rattle.scheme_model.specs.declared.Occ.{Occ as AnyOcc};
ghost use Rattle.syntax_tree.specs.Looks.{AreStanding, EndIsStanding, EndStands, EndWithin, PartsStand, PartsWithin, StandsWithin};
ghost use Rattle.syntax_tree.specs.Macros.{IsIdent};
ghost use Rattle.syntax_tree.specs.Placed.{tree_place};
ghost use Rattle.syntax_tree.specs.Standing.{leaf_tree};
ghost use Rattle.syntax_tree.specs.Works.{IsStanding, StandsFor};
ghost use Rattle.syntax_tree.specs.declared.trees.Work.{Work as AnyWork};

use scheme_model::Occ;
use syntax_tree::look::{Look, look_at, place_of};
use syntax_tree::symbols::IdNo;
use syntax_tree::trees::{Leaf, Tree, Work};

/// Whether two trees are the same. It takes no memory.
pub fn same_tree(work: &Work, one: Tree, other: Tree) -> bool
    requires one { IsStanding work.now one }
    requires other { IsStanding work.now other }
    ensures { (t : ModelTree Identifier) (u : ModelTree Identifier) → StandsFor work.now one t → StandsFor work.now other u → IsTrue result ↔ (t ≡ u) }
{
    let left = work.depth(one);
    same_within(work, one, other, left)
}

/// Whether two trees are the same, of which the first is at most `left` nodes deep.
#[cycle(trees)]
fn same_within(work: &Work, one: Tree, other: Tree, left: u32) -> bool
    requires one { StandsWithin work.now one left }
    requires other { IsStanding work.now other }
    ensures { (t : ModelTree Identifier) (u : ModelTree Identifier) → StandsFor work.now one t → StandsFor work.now other u → IsTrue result ↔ (t ≡ u) }
{
    if !same_place(place_of(work, one), place_of(work, other)) {
        return false;
    }
    match look_at(work, one) {
        Look::Name(ident) => is_name(work, other, ident),
        Look::Atom(leaf) => is_atom(work, other, leaf),
        Look::List(parts, end) => is_list(work, other, parts, end, left - 1),
        Look::Vector(parts) => is_vector(work, other, parts, left - 1),
    }
}

/// Whether a tree is the list of these parts and of this tail, which are at most `left` nodes deep.
#[cycle(trees)]
fn is_list(work: &Work, tree: Tree, parts: &[Tree], end: Option<Tree>, left: u32) -> bool
    requires parts { PartsWithin work.now parts.now left }
    requires tail { EndWithin work.now end left }
    requires tree { IsStanding work.now tree }
    ensures { (ts : Trees Identifier) (tail : Tail Identifier) (u : ModelTree Identifier) → PartsStand work.now parts.now ts → EndStands work.now end tail → StandsFor work.now tree u → IsTrue result ↔ (list ts tail (tree_place u) ≡ u) }
{
    match look_at(work, tree) {
        Look::List(others, other_end) => {
            same_parts(work, parts, others, 0, left) && same_ends(work, end, other_end, left)
        }
        Look::Name(_) => false,
        Look::Atom(_) => false,
        Look::Vector(_) => false,
    }
}

/// Whether a tree is the vector of these parts, which are at most `left` nodes deep.
#[cycle(trees)]
fn is_vector(work: &Work, tree: Tree, parts: &[Tree], left: u32) -> bool
    requires parts { PartsWithin work.now parts.now left }
    requires tree { IsStanding work.now tree }
    ensures { (ts : Trees Identifier) (u : ModelTree Identifier) → PartsStand work.now parts.now ts → StandsFor work.now tree u → IsTrue result ↔ (vector ts (tree_place u) ≡ u) }
{
    match look_at(work, tree) {
        Look::Vector(others) => same_parts(work, parts, others, 0, left),
        Look::Name(_) => false,
        Look::Atom(_) => false,
        Look::List(_, _) => false,
    }
}

/// Whether the parts of two lists or vectors are the same from a place on, of which the first are at most `left` nodes deep.
#[cycle(trees)]
pub(crate) fn same_parts(
    work: &Work,
    parts: &[Tree],
    others: &[Tree],
    from: usize,
    left: u32,
) -> bool
    requires one { PartsWithin work.now parts.now left }
    requires other { AreStanding work.now others.now }
    requires from { (from ≤ length parts.now) × (from ≤ length others.now) }
    ensures { (ts : Trees Identifier) (us : Trees Identifier) → PartsStand work.now parts.now ts → PartsStand work.now others.now us → IsTrue result ↔ (behind from ts ≡ behind from us) }
{
    let count = parts.len();
    if others.len() != count {
        return false;
    }
    for k in from..count {
        if !same_within(work, parts[k], others[k], left) {
            return false;
        }
    }
    true
}

/// Whether the tails of two lists are the same, of which the first is at most `left` nodes deep.
#[cycle(trees)]
pub(crate) fn same_ends(work: &Work, end: Option<Tree>, other: Option<Tree>, left: u32) -> bool
    requires one { EndWithin work.now end left }
    requires other { EndIsStanding work.now other }
    ensures { (tail : Tail Identifier) (last : Tail Identifier) → EndStands work.now end tail → EndStands work.now other last → IsTrue result ↔ (tail ≡ last) }
{
    match end {
        None => is_proper(other),
        Some(end) => is_dotted(work, other, end, left),
    }
}

/// Whether a list's tail is this tree, which is at most `left` nodes deep.
#[cycle(trees)]
fn is_dotted(work: &Work, end: Option<Tree>, tree: Tree, left: u32) -> bool
    requires tree { StandsWithin work.now tree left }
    requires end { EndIsStanding work.now end }
    ensures { (t : ModelTree Identifier) (last : Tail Identifier) → StandsFor work.now tree t → EndStands work.now end last → IsTrue result ↔ (dotted t ≡ last) }
{
    match end {
        None => false,
        Some(end) => same_within(work, tree, end, left),
    }
}

/// Whether a list has no tail.
fn is_proper(end: Option<Tree>) -> bool
    ensures { (work : AnyWork) (last : Tail Identifier) → EndStands work end last → IsTrue result ↔ (proper ≡ last) }
{
    match end {
        None => true,
        Some(_) => false,
    }
}

/// Whether a tree is an identifier.
fn is_name(work: &Work, tree: Tree, ident: IdNo) -> bool
    requires tree { IsStanding work.now tree }
    ensures { (i : Identifier) (u : ModelTree Identifier) → IsIdent work.now.symbols ident i → StandsFor work.now tree u → IsTrue result ↔ (name i (tree_place u) ≡ u) }
{
    work.symbols.told_apart();
    match look_at(work, tree) {
        Look::Name(other) => ident == other,
        Look::Atom(_) => false,
        Look::List(_, _) => false,
        Look::Vector(_) => false,
    }
}

/// Whether a tree is an atom.
fn is_atom(work: &Work, tree: Tree, leaf: Leaf) -> bool
    requires tree { IsStanding work.now tree }
    ensures { (a : Atom) (o : Option AnyOcc) (u : ModelTree Identifier) → leaf_tree work.now.symbols leaf o ≡ Some (atom a o) → StandsFor work.now tree u → IsTrue result ↔ (atom a (tree_place u) ≡ u) }
{
    work.symbols.told_apart();
    match look_at(work, tree) {
        Look::Atom(other) => leaf == other,
        Look::Name(_) => false,
        Look::List(_, _) => false,
        Look::Vector(_) => false,
    }
}

/// Whether two places are one.
fn same_place(one: Option<Occ>, other: Option<Occ>) -> bool
    ensures { IsTrue result ↔ (one ≡ other) }
{
    one == other
}
