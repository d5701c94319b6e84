//! The points of constants and of quoted data.
ghost use Rattle.std.specs.Prelude.{◌≡◌, ℕ, ◌∷◌, [], Option, Some, None, if◌then◌else◌, OnOk};
ghost use Rattle.scheme_model.specs.declared.Occ.{Occ as AnyOcc};
ghost use Rattle.scheme_model.specs.Trees.{Atom, atom};
ghost use Rattle.rename_model.specs.Walks.{Seen as ModelSeen, AtShape, ShowsNothing, IsTrue, IsFalse, point, number, truth_number as model_number, atom_points};
ghost use Rattle.syntax_tree.specs.Names.{Names};
ghost use Rattle.syntax_tree.specs.Standing.{leaf_tree};
ghost use Rattle.program_leaves.specs.Adds.{Adds};
ghost use Rattle.alpha_equal.specs.Points.{node_as, IsSeen, IsPoint};

use crate::nodes::Node;
use crate::points::{Point, SHAPE, Seen};
use ls_base::Mem;
use syntax_tree::trees::Leaf;

/// Adds what only shape tells.
pub fn add_shape<'a>(seen: Seen<'a>, points: &mut Vec<Point<'a>>) -> Mem<()>
    ensures { (names : Names) (unit form : ℕ) (s : ModelSeen) → IsSeen names unit form seen.entry s →
        OnOk result (Adds (IsPoint names unit form) points.old.items points.new.items (point AtShape s None ShowsNothing ∷ [])) }
{
    Ok(points.push(Point { told: SHAPE, seen })?)
}

/// Adds a number.
pub fn add_number(count: usize, points: &mut Vec<Point<'_>>) -> Mem<()>
    ensures { (names : Names) (unit form : ℕ) → OnOk result (Adds (IsPoint names unit form) points.old.items points.new.items (number count ∷ [])) }
{
    Ok(add_shape(Seen::Number(count as u64), points)?)
}

/// A truth value as a number.
pub fn truth_number(holds: bool) -> usize
    ensures { result ≡ model_number holds }
{
    if holds { 1 } else { 0 }
}

/// The node of a truth value.
pub fn truth_node(holds: bool) -> Node
    ensures { node_as result ≡ (if holds then IsTrue else IsFalse) }
{
    if holds { Node::True } else { Node::False }
}

/// Adds an atom that isn't a name.
pub fn add_atom(leaf: Leaf, points: &mut Vec<Point<'_>>) -> Mem<()>
    ensures { (names : Names) (unit form : ℕ) (a : Atom) (o : Option AnyOcc) → leaf_tree names leaf o ≡ Some (atom a o) →
        OnOk result (Adds (IsPoint names unit form) points.old.items points.new.items (atom_points AtShape None a)) }
{
    match leaf {
        Leaf::Name(_) => Ok(()),
        Leaf::Numeral(text) => Ok(add_shape(Seen::Name(Node::Numeral, text), points)?),
        Leaf::Quoted(text) => Ok(add_shape(Seen::Name(Node::String, text), points)?),
        Leaf::Char(c) => {
            add_shape(Seen::Node(Node::Character), points)?;
            Ok(add_shape(Seen::Number(u64::from(u32::from(c))), points)?)
        }
        Leaf::Bool(holds) => Ok(add_shape(Seen::Node(truth_node(holds)), points)?),
        Leaf::Bytes(text) => Ok(add_shape(Seen::Name(Node::Bytes, text), points)?),
    }
}
