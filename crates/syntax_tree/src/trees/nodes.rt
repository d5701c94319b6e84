//! Nodes, whose parts are trees by number.
ghost use Rattle.std.specs.Prelude.{◌≡◌};
ghost use Rattle.syntax_tree.specs.NodePlaces.{place_in, placed_at};
ghost use Rattle.syntax_tree.specs.Kept.{shape_of};

use crate::symbols::{IdNo, SymNo};
use scheme_model::Occ;

/// A tree: the number of its outermost node.
#[derive(Clone, Copy, Debug, PartialEq, Eq, PartialOrd, Ord, Hash)]
pub struct Tree {
    pub number: u32,
}

/// A datum without parts (R7RS 7.1.2). The text of a numeral, the characters of a string and the numerals of a
/// bytevector, with one space between each two, are kept as symbols.
#[derive(Clone, Copy, Debug, PartialEq, Eq)]
pub enum Leaf {
    Name(IdNo),
    Numeral(SymNo),
    Quoted(SymNo),
    Char(char),
    Bool(bool),
    Bytes(SymNo),
}

/// A node. The tail of a list is never a list itself. The place is that of a name, or of the first token of anything
/// else, and there is none where the node was built.
#[derive(Drop)]
pub enum Node {
    Atom {
        leaf: Leaf,
        occ: Option<Occ>,
    },
    List {
        items: Vec<Tree>,
        tail: Option<Tree>,
        occ: Option<Occ>,
    },
    Vector {
        items: Vec<Tree>,
        occ: Option<Occ>,
    },
}

/// Where a node stands in a text, if it was read from one.
pub(crate) fn place_in(node: &Node) -> Option<Occ>
    ensures { result ≡ place_in (shape_of node.now) }
{
    match node {
        Node::Atom { leaf: _, occ } => *occ,
        Node::List {
            items: _,
            tail: _,
            occ,
        } => *occ,
        Node::Vector { items: _, occ } => *occ,
    }
}

/// The same node at another place.
pub(crate) fn placed_at(place: Option<Occ>, node: Node) -> Node
    ensures { shape_of result ≡ placed_at place (shape_of node) }
{
    match node {
        Node::Atom { leaf, occ: _ } => Node::Atom { leaf, occ: place },
        Node::List {
            items,
            tail,
            occ: _,
        } => Node::List {
            items,
            tail,
            occ: place,
        },
        Node::Vector { items, occ: _ } => Node::Vector { items, occ: place },
    }
}
