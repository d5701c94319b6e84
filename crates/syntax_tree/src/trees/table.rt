//! The table of nodes, and its regions.
ghost use Rattle.std.specs.Prelude.{◌≡◌, ◌≢◌, ℕ, ◌+◌, ◌^◌, ◌<◌, ◌≤◌, ◌↔◌, [], min, Err, Some, None, length, IsSome, IsOk, IfOk, OnOk, OnErr};
ghost use Rattle.std.specs.FinMap as map;
ghost use Rattle.scheme_model.specs.Trees.{Tree as ModelTree};
ghost use Rattle.scheme_model.specs.Measures.{tree_size, tree_depth};
ghost use Rattle.scheme_model.specs.Ident.{Ident as Identifier};
ghost use Rattle.ls_base.specs.Limits.{max_tree_nodes, max_tree_depth};
ghost use Rattle.node_pool.specs.Pools.{HasRanks};
ghost use Rattle.syntax_tree.specs.Names.{Names};
ghost use Rattle.std.specs.Option.{option_map};
ghost use Rattle.syntax_tree.specs.Nodes.{Lived, IsPut, back_to, shape_at};
ghost use Rattle.syntax_tree.specs.NodePlaces.{place_in, placed_at};
ghost use Rattle.syntax_tree.specs.Regions.{IsOpenIn, count_at, with_outer, OutlivesNone, CanGoBack, MayName, MayNameParts, IsClosed, ArePartsFirst};
ghost use Rattle.syntax_tree.specs.Standing.{Stands};
ghost use Rattle.syntax_tree.specs.Kept.{shape_of, outers_at};
ghost use Rattle.syntax_tree.specs.Added.{FitsInto};

use crate::trees::faults::PoolFault;
use crate::trees::measures::{Kept, measure};
use crate::trees::nodes::{self, Leaf, Node, Tree};
use ls_base::{Mem, Memory};
use node_pool::{Mark, NodeId, Pool};
use scheme_model::Occ;
use std::alloc::Global;
use std::marker::Model;

/// Nodes of one table that are let go together.
#[derive(Drop)]
pub struct Region {
    in_pool: node_pool::Region,
}

/// All nodes, by number. For the number of each open region stand the numbers of those that were said to outlive it; where the
/// vector ends before it, none was.
#[derive(Drop)]
pub struct Trees {
    alloc: Global,
    pool: Pool<Kept>,
    outers: Vec<Vec<usize>>,
}

impl Model for Trees {
    ghost use Rattle.syntax_tree.specs.Regions.{Forest};
    ghost use Rattle.syntax_tree.specs.Codes.{forest_code};

    ghost Value = { Forest };

    ghost coded = { forest_code };

    ghost use Rattle.syntax_tree.specs.Kept.{nodes_of, regions_of, IsTable};

    ghost view = { λ t. record { nodes = nodes_of t.pool.nodes; identity = t.pool.identity; regions = regions_of t.outers.items t.pool.regions; counts = t.pool.regions; spare = t.pool.spare } };

    ghost invariant = { λ t. IsTable t.pool.nodes (regions_of t.outers.items t.pool.regions) };
}

// There is a list of this number from now on, and all lists are as before.
fn widen(alloc: Global, outers: &mut Vec<Vec<usize>>, number: usize) -> Mem<()>
    ensures within { OnOk result (number < length outers.new.items) }
    ensures same { (q : ℕ) → outers_at outers.new.items q ≡ outers_at outers.old.items q }
{
    while outers.len() <= number {
        outers.push(Vec::new(alloc))?;
    }
    Ok(())
}

// The list of this number is empty from now on.
fn forget(alloc: Global, outers: &mut Vec<Vec<usize>>, number: usize)
    ensures here { outers_at outers.new.items number ≡ [] }
    ensures others { (q : ℕ) → q ≢ number → outers_at outers.new.items q ≡ outers_at outers.old.items q }
{
    if number < outers.len() {
        outers[number] = Vec::new(alloc);
    }
}

impl Trees {
    /// No nodes and no regions, which take no memory.
    pub(crate) fn new(alloc: Global) -> Trees
        ensures nodes { result.nodes ≡ map.empty }
        ensures identity { result.identity ≡ None }
        ensures regions { result.regions ≡ map.empty }
    {
        Trees {
            alloc,
            pool: Pool::new(alloc),
            outers: Vec::new(alloc),
        }
    }

    /// Opens a region, which none outlives.
    pub(crate) fn open_region(&mut self) -> Mem<Region>
        ensures opened { IfOk result (λ region. IsOpenIn self.new region.in_pool) }
        ensures fresh { IfOk result (λ region. map.get self.old.regions region.in_pool.number ≡ None) }
        ensures same { (name : ℕ) → self.old.identity ≡ Some name → self.new.identity ≡ Some name }
        ensures regions { IfOk result (λ region. self.new.regions ≡ map.insert self.old.regions region.in_pool.number []) }
        ensures counts { IfOk result (λ region. self.new.counts ≡ map.insert self.old.counts region.in_pool.number 0) }
        ensures nodes { self.new.nodes ≡ self.old.nodes }
        ensures spare { self.new.spare ≡ self.old.spare }
        ensures err { OnErr result (self.new ≡ self.old) }
    {
        let in_pool = match self.pool.open_region() {
            Ok(in_pool) => in_pool,
            Err(_) => return Err(Memory),
        };
        forget(self.alloc, &mut self.outers, in_pool.number());
        Ok(Region { in_pool })
    }

    /// From now on the first region outlives the second.
    pub(crate) fn outlive(&mut self, outer: &Region, inner: &Region) -> Mem<()>
        requires { IsSome (map.get self.old.regions inner.now.in_pool.number) }
        ensures regions { OnOk result (self.new.regions ≡ with_outer self.old.regions outer.now.in_pool.number inner.now.in_pool.number) }
        ensures identity { self.new.identity ≡ self.old.identity }
        ensures counts { self.new.counts ≡ self.old.counts }
        ensures nodes { self.new.nodes ≡ self.old.nodes }
        ensures spare { self.new.spare ≡ self.old.spare }
        ensures err { OnErr result (self.new ≡ self.old) }
    {
        let number = inner.in_pool.number();
        widen(self.alloc, &mut self.outers, number)?;
        self.outers[number].push(outer.in_pool.number())?;
        Ok(())
    }

    /// Adds a node.
    pub(crate) fn add(&mut self, region: &Region, node: Node) -> Result<Tree, PoolFault>
        requires region { IsOpenIn self.old region.now.in_pool }
        requires fits { FitsInto self.old.nodes (shape_of node) }
        requires names { MayNameParts self.old.nodes self.old.regions region.now.in_pool.number (shape_of node) }
        ensures put { IfOk result (λ tree. IsPut self.old.nodes self.new.nodes tree.number
            (record { node = shape_of node; region = region.now.in_pool.number; rank = count_at self.old region.now.in_pool.number })) }
        ensures identity { self.new.identity ≡ self.old.identity }
        ensures regions { self.new.regions ≡ self.old.regions }
        ensures counts { OnOk result (self.new.counts ≡ map.insert self.old.counts region.now.in_pool.number (count_at self.old region.now.in_pool.number + 1)) }
        ensures spare { OnOk result (self.old.spare ≤ self.new.spare + 1) }
        ensures full { (result ≡ Err PoolFault.Full) ↔ (map.len self.old.nodes ≡ 2 ^ 31) }
        ensures memory { result ≡ Err PoolFault.Memory → self.old.spare ≡ 0 }
        ensures room { OnOk result (map.len self.new.nodes ≤ 2 ^ 31) }
        ensures err { OnErr result (self.new ≡ self.old) }
    {
        self.pool.ranked();
        let (size, depth) = measure(&self.pool, &node);
        let id = match self.pool.put(&region.in_pool, Kept { node, size, depth }) {
            Ok(id) => id,
            Err(node_pool::PoolFault::Full) => return Err(PoolFault::Full),
            Err(node_pool::PoolFault::Memory) => return Err(PoolFault::Memory),
        };
        Ok(Tree { number: id.number })
    }

    /// From now on the next `n` nodes are added without memory.
    pub(crate) fn reserve(&mut self, n: u32) -> Mem<()>
        ensures spare { OnOk result (n ≤ self.new.spare) }
        ensures more { self.old.spare ≤ self.new.spare }
        ensures had_room { n ≤ self.old.spare → IsOk result }
        ensures kept { self.new ≡ record self.old { spare = self.new.spare } }
    {
        if self.pool.reserve(n).is_err() {
            return Err(Memory);
        }
        Ok(())
    }

    /// How many nodes can be added without memory.
    pub(crate) fn spare(&self) -> usize
        ensures { result ≡ self.now.spare }
    {
        self.pool.spare()
    }

    /// From now on no more than `n` nodes are promised that they are added without memory.
    pub(crate) fn give_back(&mut self, n: usize)
        ensures { self.new ≡ record self.old { spare = min n self.old.spare } }
    {
        self.pool.give_back(n);
    }

    /// The node of a number.
    #[inline(always)]
    pub(crate) fn node(&self, tree: Tree) -> &Node
        requires { IsSome (map.get self.now.nodes tree.number) }
        ensures shape { shape_at self.now.nodes tree.number ≡ Some (shape_of result.now) }
        ensures names { (r : ℕ) → MayName self.now.nodes self.now.regions r tree.number →
            MayNameParts self.now.nodes self.now.regions r (shape_of result.now) }
    {
        let kept = self.pool.get(NodeId {
            number: tree.number,
        });
        &kept.node
    }

    /// The nodes of a tree, a shared part counted each time.
    #[inline(always)]
    pub(crate) fn size(&self, tree: Tree) -> u32
        requires { IsSome (map.get self.now.nodes tree.number) }
        ensures { (names : Names) (t : ModelTree Identifier) → Stands self.now.nodes names t tree.number →
            result ≡ tree_size t }
    {
        let kept = self.pool.get(NodeId {
            number: tree.number,
        });
        kept.size
    }

    /// The depth of a tree.
    #[inline(always)]
    pub(crate) fn depth(&self, tree: Tree) -> u32
        requires { IsSome (map.get self.now.nodes tree.number) }
        ensures { (names : Names) (t : ModelTree Identifier) → Stands self.now.nodes names t tree.number →
            result ≡ tree_depth t }
    {
        let kept = self.pool.get(NodeId {
            number: tree.number,
        });
        kept.depth
    }

    /// The numbers of the nodes that live are lower. It takes no memory.
    pub fn end(&self) -> u32
        ensures below { (n : ℕ) → IsSome (map.get self.now.nodes n) → n < result }
        ensures few { result ≤ 2 ^ 31 }
    {
        self.pool.end()
    }

    /// Where the node of a number stands in a text, if a node lives there. It takes no memory.
    pub fn place_at(&self, number: u32) -> Option<Option<Occ>>
        ensures { result ≡ option_map place_in (shape_at self.now.nodes number) }
    {
        let id = NodeId { number };
        if self.pool.lives(id) {
            let kept = self.pool.get(id);
            return Some(nodes::place_in(&kept.node));
        }
        None
    }

    /// Gives the node of a number another place. It takes no memory.
    pub fn set_place(&mut self, number: u32, place: Option<Occ>)
        requires { IsSome (map.get self.old.nodes number) }
        ensures nodes { (l : Lived) → map.get self.old.nodes number ≡ Some l →
            self.new.nodes ≡ map.insert self.old.nodes number (record l { node = placed_at place l.node }) }
        ensures identity { self.new.identity ≡ self.old.identity }
        ensures regions { self.new.regions ≡ self.old.regions }
        ensures counts { self.new.counts ≡ self.old.counts }
        ensures spare { self.new.spare ≡ self.old.spare }
    {
        let id = NodeId { number };
        let hole = Node::Atom {
            leaf: Leaf::Bool(false),
            occ: None,
        };
        let Kept { node, size, depth } = self.pool.replace(
            id,
            Kept {
                node: hole,
                size: 1,
                depth: 1,
            },
        );
        let node = nodes::placed_at(place, node);
        self.pool.replace(id, Kept { node, size, depth });
    }

    /// How many nodes live.
    pub(crate) fn live(&self) -> u32
        ensures live { result ≡ map.len self.now.nodes }
        ensures few { result ≤ 2 ^ 31 }
    {
        self.pool.live()
    }

    /// This moment of a region.
    pub(crate) fn mark(&self, region: &Region) -> Mark
        requires { IsOpenIn self.now region.now.in_pool }
        ensures count { result.count ≡ count_at self.now region.now.in_pool.number }
        ensures ranks { HasRanks self.now.nodes region.now.in_pool.number result.count }
    {
        self.pool.mark(&region.in_pool)
    }

    /// The nodes of a region go that were added since the mark.
    pub(crate) fn back_to(&mut self, region: &Region, mark: Mark)
        requires region { IsOpenIn self.old region.now.in_pool }
        requires mark { mark.count ≤ count_at self.old region.now.in_pool.number }
        requires unnamed { CanGoBack self.old.nodes region.now.in_pool.number mark.count }
        ensures nodes { self.new.nodes ≡ back_to self.old.nodes region.now.in_pool.number mark.count }
        ensures identity { self.new.identity ≡ self.old.identity }
        ensures regions { self.new.regions ≡ self.old.regions }
        ensures counts { self.new.counts ≡ map.insert self.old.counts region.now.in_pool.number mark.count }
        ensures live { map.len self.new.nodes + count_at self.old region.now.in_pool.number ≡ map.len self.old.nodes + mark.count }
        ensures room { map.len self.new.nodes + self.new.spare ≡ map.len self.old.nodes + self.old.spare }
    {
        self.pool.back_to(&region.in_pool, mark);
    }

    /// Ends a region: its nodes go.
    pub(crate) fn release(&mut self, region: Region)
        requires region { IsOpenIn self.old region.in_pool }
        requires last { OutlivesNone self.old.regions region.in_pool.number }
        ensures nodes { self.new.nodes ≡ back_to self.old.nodes region.in_pool.number 0 }
        ensures identity { self.new.identity ≡ self.old.identity }
        ensures regions { self.new.regions ≡ map.remove self.old.regions region.in_pool.number }
        ensures counts { self.new.counts ≡ map.remove self.old.counts region.in_pool.number }
        ensures live { map.len self.new.nodes + count_at self.old region.in_pool.number ≡ map.len self.old.nodes }
        ensures room { map.len self.new.nodes + self.new.spare ≡ map.len self.old.nodes + self.old.spare }
    {
        self.pool.release(region.in_pool);
    }

    /// Each node names only nodes of its region or of regions that outlive it, and in its region only such as were added before it.
    /// The nodes of an open region have the ranks below their count.
    pub(crate) fn closed(&self)
        ensures closed { IsClosed self.now.nodes self.now.regions }
        ensures first { ArePartsFirst self.now.nodes }
        ensures ranks { (r : ℕ) → IsSome (map.get self.now.regions r) → HasRanks self.now.nodes r (count_at self.now r) }
    {
        self.pool.ranked();
    }

    /// No tree is larger or deeper than one that may be added.
    pub(crate) fn small(&self)
        ensures nodes { (names : Names) (t : ModelTree Identifier) (n : ℕ) → Stands self.now.nodes names t n → tree_size t ≤ max_tree_nodes }
        ensures depth { (names : Names) (t : ModelTree Identifier) (n : ℕ) → Stands self.now.nodes names t n → tree_depth t ≤ max_tree_depth }
    {
        let _pool = &self.pool;
    }
}
