//! A tree by its outermost node, for walks.
ghost use Rattle.std.specs.Prelude.{◌≡◌};
ghost use Rattle.scheme_model.specs.Trees.{Tree as ModelTree};
ghost use Rattle.scheme_model.specs.Ident.{Ident as Identifier};
ghost use Rattle.syntax_tree.specs.Looks.{IsLook, LookNamed};
ghost use Rattle.syntax_tree.specs.Placed.{tree_place};
ghost use Rattle.syntax_tree.specs.Works.{StandsFor, IsStanding, CanName};
ghost use Rattle.syntax_tree.specs.declared.trees.table.Region.{Region};

use crate::symbols::IdNo;
use crate::trees::{Leaf, Node, Tree, Work};
use scheme_model::Occ;

/// What a tree is: an identifier, another atom, a list with its parts and its tail, or a vector with its parts.
#[derive(Clone, Copy, Debug)]
pub enum Look<'a> {
    Name(IdNo),
    Atom(Leaf),
    List(&'a [Tree], Option<Tree>),
    Vector(&'a [Tree]),
}

/// What a tree is. Where nodes of a region may name the tree, they may name the parts that are seen. It takes no memory.
#[inline(always)]
pub fn look_at(work: &Work, tree: Tree) -> Look<'_>
    requires { IsStanding work.now tree }
    ensures look { (t : ModelTree Identifier) → StandsFor work.now tree t → IsLook work.now result t }
    ensures named { (region : Region) → CanName work.now region tree → LookNamed work.now region result }
{
    match work.node(tree) {
        Node::Atom {
            leaf: Leaf::Name(id),
            ..
        } => Look::Name(*id),
        Node::Atom { leaf, .. } => Look::Atom(*leaf),
        Node::List { items, tail, .. } => Look::List(items.as_slice(), *tail),
        Node::Vector { items, .. } => Look::Vector(items.as_slice()),
    }
}

/// Where a tree stands in a text, where it was read from one. It takes no memory.
#[inline(always)]
pub fn place_of(work: &Work, tree: Tree) -> Option<Occ>
    requires { IsStanding work.now tree }
    ensures { (t : ModelTree Identifier) → StandsFor work.now tree t → result ≡ tree_place t }
{
    match work.node(tree) {
        Node::Atom { leaf: _, occ } => *occ,
        Node::List {
            items: _,
            tail: _,
            occ,
        } => *occ,
        Node::Vector { items: _, occ } => *occ,
    }
}
