//! Nodes with the size and the depth of their trees, by which walks are measured.
ghost use Rattle.std.specs.Prelude.{◌≡◌, ◌^◌, ◌<◌, sum_by};
ghost use Rattle.syntax_tree.specs.Nodes.{parts_of};
ghost use Rattle.syntax_tree.specs.Kept.{size_at, depth_at, numbers, shape_of, shape_size, shape_depth, deepest, AllLive};

use crate::trees::nodes::{Node, Tree};
use node_pool::{NodeId, Pool};

/// A node with the number of nodes and the depth of its tree. A part that stands twice counts twice.
#[derive(Drop)]
pub struct Kept {
    pub node: Node,
    pub size: u32,
    pub depth: u32,
}

/// The nodes of some trees together, and the greatest depth of one of them, 0 where there are none.
fn measure_parts(pool: &Pool<Kept>, parts: &[Tree]) -> (u32, u32)
    requires live { AllLive pool.now.nodes (numbers parts.now) }
    requires fits { sum_by (size_at pool.now.nodes) (numbers parts.now) < 2 ^ 32 }
    ensures size { result.0 ≡ sum_by (size_at pool.now.nodes) (numbers parts.now) }
    ensures depth { result.1 ≡ deepest (depth_at pool.now.nodes) (numbers parts.now) }
{
    let mut size = 0;
    let mut depth: u32 = 0;
    for part in parts {
        let kept = pool.get(NodeId {
            number: part.number,
        });
        size += kept.size;
        depth = depth.max(kept.depth);
    }
    (size, depth)
}

/// The nodes and the depth of a tree whose outermost node this is: that node has depth 1.
pub fn measure(pool: &Pool<Kept>, node: &Node) -> (u32, u32)
    requires live { AllLive pool.now.nodes (parts_of (shape_of node.now)) }
    requires size { shape_size (size_at pool.now.nodes) (shape_of node.now) < 2 ^ 32 }
    requires depth { shape_depth (depth_at pool.now.nodes) (shape_of node.now) < 2 ^ 32 }
    ensures size { result.0 ≡ shape_size (size_at pool.now.nodes) (shape_of node.now) }
    ensures depth { result.1 ≡ shape_depth (depth_at pool.now.nodes) (shape_of node.now) }
{
    match node {
        Node::Atom { leaf: _, occ: _ } => (1, 1),
        Node::List {
            items,
            tail: None,
            occ: _,
        } => {
            let (size, depth) = measure_parts(pool, items);
            (1 + size, 1 + depth)
        }
        Node::List {
            items,
            tail: Some(tail),
            occ: _,
        } => {
            let (size, depth) = measure_parts(pool, items);
            let end = pool.get(NodeId {
                number: tail.number,
            });
            (1 + size + end.size, 1 + depth.max(end.depth))
        }
        Node::Vector { items, occ: _ } => {
            let (size, depth) = measure_parts(pool, items);
            (1 + size, 1 + depth)
        }
    }
}
