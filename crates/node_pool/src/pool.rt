//! The pool: nodes by ids, in regions that go back to a mark and end.
ghost use Rattle.std.specs.Prelude.{◌≡◌, ◌≢◌, ℕ, ◌+◌, ◌-◌, ◌^◌, ◌<◌, ◌≤◌, ◌↔◌, min, Err, Some, None, is_some, IsSome, IsOk, IfOk, OnOk, OnErr};
ghost use Rattle.std.specs.FinMap as map;
ghost use Rattle.node_pool.specs.NodePool.{Lived, Nodes, IsPut, back_to};
ghost use Rattle.node_pool.specs.Pools.{live_count, node_at, IsLive, IsOpened, count_in, lived_in, Keeps, Reaches, HasRanks, OnlyAdds};
ghost use Rattle.node_pool.specs.declared.pool.Region.{Region as AnyRegion};

use crate::faults::{Mem, PoolFault};
use crate::slots::Slots;
use std::alloc::Global;
use std::marker::Model;
use std::rc::Rc;
use std::sync::ledger::Blank;

/// The most nodes that live.
const MAX_LIVE: usize = 2_147_483_648;

/// The id of a node. It is its node's own as long as that lives.
#[derive(Clone, Copy)]
pub struct NodeId {
    pub number: u32,
}

/// Nodes of one pool that go together.
#[derive(Drop)]
pub struct Region {
    number: usize,
    pool: Rc<Blank>,
}

impl Region {
    /// The number of the region. Another one may get it once this one has ended.
    pub fn number(&self) -> usize
        ensures { result ≡ self.now.number }
    {
        self.number
    }
}

/// A moment of a region, to which it can go back: how many nodes it had.
#[derive(Clone, Copy)]
pub struct Mark {
    count: u32,
}

// A node with its region, its rank there, and the slot of the node with the rank before.
#[derive(Drop)]
struct Held<N> {
    node: N,
    region: usize,
    rank: u32,
    before: u32,
}

// How many nodes an open region has, and the slot of the last one.
#[derive(Clone, Copy)]
struct Chain {
    count: u32,
    last: u32,
}

/// Nodes by their ids. What tells this pool from others is made with the first region.
#[derive(Drop)]
pub struct Pool<N> {
    alloc: Global,
    nodes: Slots<Held<N>>,
    regions: Slots<Chain>,
    identity: Option<Rc<Blank>>,
}

impl<N> Model for Pool<N> {
    ghost use Rattle.node_pool.specs.NodePool.{NodePool, pool_code};

    ghost Value = { NodePool N };

    ghost coded = { pool_code N.code };

    ghost use Rattle.std.specs.Option.{option_map};
    ghost use Rattle.node_pool.specs.Chains.{nodes_of, regions_of, AreChained};

    ghost view = { λ p. record { nodes = nodes_of p.nodes.slots; regions = regions_of p.regions.slots; identity = option_map (λ rc. rc.value.name) p.identity; spare = p.nodes.spare } };

    ghost invariant = { λ p. AreChained p.nodes.slots p.regions.slots };
}

impl<N: Drop> Pool<N> {
    /// No nodes and no regions, which take no memory.
    pub fn new(alloc: Global) -> Pool<N>
        ensures nodes { result.nodes ≡ map.empty }
        ensures regions { result.regions ≡ map.empty }
        ensures identity { result.identity ≡ None }
    {
        Pool {
            alloc,
            nodes: Slots::new(alloc),
            regions: Slots::new(alloc),
            identity: None,
        }
    }

    /// What tells this pool from others.
    fn owner(&self) -> Mem<Rc<Blank>>
        ensures { IfOk result (λ pool. (name : ℕ) → self.now.identity ≡ Some name → pool.value.name ≡ name) }
    {
        match &self.identity {
            Some(pool) => Ok(pool.clone()?),
            None => Ok(Rc::new(self.alloc, Blank::new(1))?),
        }
    }

    /// Opens a region, in which no node lies.
    pub fn open_region(&mut self) -> Mem<Region>
        ensures opened { IfOk result (λ region. IsOpened self.new region) }
        ensures fresh { IfOk result (λ region. map.get self.old.regions region.number ≡ None) }
        ensures regions { IfOk result (λ region. self.new.regions ≡ map.insert self.old.regions region.number 0) }
        ensures same { (name : ℕ) → self.old.identity ≡ Some name → self.new.identity ≡ Some name }
        ensures keeps { Keeps self.old self.new }
        ensures nodes { self.new.nodes ≡ self.old.nodes }
        ensures spare { self.new.spare ≡ self.old.spare }
        ensures err { OnErr result (self.new ≡ self.old) }
    {
        let pool = self.owner()?;
        let identity = pool.clone()?;
        let number = self.regions.insert(Chain { count: 0, last: 0 })?;
        self.identity = Some(identity);
        Ok(Region { number, pool })
    }

    /// Puts a node into a region. `Full` comes exactly where 2^31 nodes live, and `Memory` only where nothing is spare.
    pub fn put(&mut self, region: &Region, node: N) -> Result<NodeId, PoolFault>
        requires { IsOpened self.old region.now }
        ensures put { IfOk result (λ id. IsPut self.old.nodes self.new.nodes id.number (lived_in self.old region.now node)) }
        ensures lives { IfOk result (λ id. node_at self.new id ≡ Some node) }
        ensures keeps { Keeps self.old self.new }
        ensures region { OnOk result (self.new.regions ≡ map.insert self.old.regions region.now.number (count_in self.old region.now + 1)) }
        ensures identity { self.new.identity ≡ self.old.identity }
        ensures one_more { OnOk result (live_count self.new ≡ live_count self.old + 1) }
        ensures room { OnOk result (live_count self.new ≤ 2 ^ 31) }
        ensures spare { OnOk result (self.old.spare ≤ self.new.spare + 1) }
        ensures full { (result ≡ Err PoolFault.Full) ↔ (live_count self.old ≡ 2 ^ 31) }
        ensures memory { result ≡ Err PoolFault.Memory → self.old.spare ≡ 0 }
        ensures err { OnErr result (self.new ≡ self.old) }
    {
        if self.nodes.live() == MAX_LIVE {
            return Err(PoolFault::Full);
        }
        let chain = *self.regions.get(region.number);
        let number = self.nodes.insert(Held {
            node,
            region: region.number,
            rank: chain.count,
            before: chain.last,
        })?;
        let last = number as u32;
        self.regions.set(
            region.number,
            Chain {
                count: chain.count + 1,
                last,
            },
        );
        Ok(NodeId { number: last })
    }

    /// From now on the next `n` puts take no memory.
    pub fn reserve(&mut self, n: u32) -> Mem<()>
        ensures spare { OnOk result (n ≤ self.new.spare) }
        ensures more { self.old.spare ≤ self.new.spare }
        ensures had_room { n ≤ self.old.spare → IsOk result }
        ensures kept { self.new ≡ record self.old { spare = self.new.spare } }
    {
        self.nodes.reserve(n as usize)?;
        Ok(())
    }

    /// How many puts take no memory. It takes none.
    pub fn spare(&self) -> usize
        ensures { result ≡ self.now.spare }
    {
        self.nodes.spare()
    }

    /// From now on no more than `n` puts are promised that they take no memory: what was reserved, or came of nodes that went, is
    /// given back down to this. It takes no memory.
    pub fn give_back(&mut self, n: usize)
        ensures { self.new ≡ record self.old { spare = min n self.old.spare } }
    {
        self.nodes.give_back(n);
    }

    /// The node of an id. It takes no memory.
    #[inline(always)]
    pub fn get(&self, id: NodeId) -> &N
        requires { IsLive self.now id }
        ensures { node_at self.now id ≡ Some result.now }
    {
        let held = self.nodes.get(id.number as usize);
        &held.node
    }

    /// The ids of the nodes that live have lower numbers. It takes no memory.
    pub fn end(&self) -> u32
        ensures below { (id : ℕ) → IsSome (map.get self.now.nodes id) → id < result }
        ensures few { result ≤ 2 ^ 31 }
    {
        self.nodes.len() as u32
    }

    /// Whether a node lives under an id. It takes no memory.
    pub fn lives(&self, id: NodeId) -> bool
        ensures { result ≡ is_some (map.get self.now.nodes id.number) }
    {
        self.nodes.holds(id.number as usize)
    }

    /// Puts another node in place of one that lives, with its id, region and rank, and gives that one back. It takes no memory.
    pub fn replace(&mut self, id: NodeId, node: N) -> N
        requires { IsLive self.old id }
        ensures was { node_at self.old id ≡ Some result }
        ensures nodes { (l : Lived N) → map.get self.old.nodes id.number ≡ Some l →
            self.new.nodes ≡ map.insert self.old.nodes id.number (record l { node = node }) }
        ensures regions { self.new.regions ≡ self.old.regions }
        ensures identity { self.new.identity ≡ self.old.identity }
        ensures spare { self.new.spare ≡ self.old.spare }
    {
        let number = id.number as usize;
        let held = self.nodes.get(number);
        let (region, rank, before) = (held.region, held.rank, held.before);
        let held = self.nodes.replace(
            number,
            Held {
                node,
                region,
                rank,
                before,
            },
        );
        held.node
    }

    /// How many nodes live. It takes no memory.
    pub fn live(&self) -> u32
        ensures live { result ≡ live_count self.now }
        ensures few { result ≤ 2 ^ 31 }
    {
        self.nodes.live() as u32
    }

    /// Nodes live in open regions alone, and those of a region have the ranks below its count.
    pub fn ranked(&self)
        ensures homes { (id : ℕ) (l : Lived N) → map.get self.now.nodes id ≡ Some l → IsSome (map.get self.now.regions l.region) }
        ensures ranks { (region count : ℕ) → map.get self.now.regions region ≡ Some count → HasRanks self.now.nodes region count }
    {
        let _nodes = &self.nodes;
    }

    // How many nodes a region has: they have the ranks below.
    fn count(&self, region: usize) -> u32
        requires { IsSome (map.get self.now.regions region) }
        ensures count { map.get self.now.regions region ≡ Some result }
        ensures ranks { HasRanks self.now.nodes region result }
    {
        self.regions.get(region).count
    }

    /// This moment of a region. It takes no memory.
    pub fn mark(&self, region: &Region) -> Mark
        requires { IsOpened self.now region.now }
        ensures count { result.count ≡ count_in self.now region.now }
        ensures ranks { HasRanks self.now.nodes region.now.number result.count }
        ensures reaches { Reaches self.now region.now result }
    {
        Mark {
            count: self.count(region.number),
        }
    }

    // The last node of a region goes.
    fn drop_last(&mut self, region: usize)
        requires { (k : ℕ) × (map.get self.old.regions region ≡ Some (k + 1)) }
        ensures nodes { (k : ℕ) → map.get self.old.regions region ≡ Some (k + 1) → self.new.nodes ≡ back_to self.old.nodes region k }
        ensures regions { (k : ℕ) → map.get self.old.regions region ≡ Some (k + 1) → self.new.regions ≡ map.insert self.old.regions region k }
        ensures identity { self.new.identity ≡ self.old.identity }
        ensures one_less { live_count self.new + 1 ≡ live_count self.old }
        ensures room { live_count self.new + self.new.spare ≡ live_count self.old + self.old.spare }
    {
        let chain = *self.regions.get(region);
        let held = self.nodes.remove(chain.last as usize);
        self.regions.set(
            region,
            Chain {
                count: held.rank,
                last: held.before,
            },
        );
    }

    // The nodes of a region go whose ranks aren't below this number, the last one first.
    fn shorten(&mut self, region: usize, count: u32)
        requires { (k : ℕ) × (map.get self.old.regions region ≡ Some k) × (count ≤ k) }
        ensures nodes { self.new.nodes ≡ back_to self.old.nodes region count }
        ensures regions { self.new.regions ≡ map.insert self.old.regions region count }
        ensures identity { self.new.identity ≡ self.old.identity }
        ensures undone { (before : Nodes N) → HasRanks before region count → OnlyAdds before self.old.nodes region →
            self.new.nodes ≡ before }
        ensures live { (k : ℕ) → map.get self.old.regions region ≡ Some k → live_count self.new + k ≡ live_count self.old + count }
        ensures room { live_count self.new + self.new.spare ≡ live_count self.old + self.old.spare }
    {
        let mut left = self.count(region);
        while left > count {
            self.drop_last(region);
            left -= 1;
        }
    }

    /// The nodes of a region go that were put since the mark. It takes no memory, and time by the nodes that go.
    pub fn back_to(&mut self, region: &Region, mark: Mark)
        requires region { IsOpened self.old region.now }
        requires mark { Reaches self.old region.now mark }
        ensures nodes { self.new.nodes ≡ back_to self.old.nodes region.now.number mark.count }
        ensures regions { self.new.regions ≡ map.insert self.old.regions region.now.number mark.count }
        ensures identity { self.new.identity ≡ self.old.identity }
        ensures open { (other : AnyRegion) → IsOpened self.old other → IsOpened self.new other }
        ensures undone { (before : Nodes N) → HasRanks before region.now.number mark.count →
            OnlyAdds before self.old.nodes region.now.number → self.new.nodes ≡ before }
        ensures live { live_count self.new + count_in self.old region.now ≡ live_count self.old + mark.count }
        ensures room { live_count self.new + self.new.spare ≡ live_count self.old + self.old.spare }
    {
        self.shorten(region.number, mark.count);
    }

    /// Ends a region: its nodes go. It takes no memory, and time by the nodes that go.
    pub fn release(&mut self, region: Region)
        requires { IsOpened self.old region }
        ensures nodes { self.new.nodes ≡ back_to self.old.nodes region.number 0 }
        ensures regions { self.new.regions ≡ map.remove self.old.regions region.number }
        ensures identity { self.new.identity ≡ self.old.identity }
        ensures others { (other : AnyRegion) → other.number ≢ region.number → IsOpened self.old other → IsOpened self.new other }
        ensures live { live_count self.new + count_in self.old region ≡ live_count self.old }
        ensures room { live_count self.new + self.new.spare ≡ live_count self.old + self.old.spare }
    {
        self.shorten(region.number, 0);
        self.regions.remove(region.number);
    }
}
