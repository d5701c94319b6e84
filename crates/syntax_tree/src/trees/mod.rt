//! Trees by number. A node is kept with the size and the depth of its tree, and trees may share parts.
ghost use Rattle.std.specs.Prelude.{◌≡◌, ◌≢◌, ℕ, ◌+◌, ◌^◌, ◌≤◌, ◌↔◌, [], min, Err, Some, IsSome, IsOk, IfOk, OnOk, OnErr};
ghost use Rattle.std.specs.FinMap as map;
ghost use Rattle.scheme_model.specs.Trees.{Tree as ModelTree};
ghost use Rattle.scheme_model.specs.Measures.{tree_size, tree_depth};
ghost use Rattle.scheme_model.specs.Ident.{Ident as Identifier};
ghost use Rattle.ls_base.specs.Limits.{max_tree_nodes, max_tree_depth};
ghost use Rattle.node_pool.specs.Pools.{HasRanks, OnlyAdds};
ghost use Rattle.syntax_tree.specs.Nodes.{Lived, Nodes, IsPut, back_to};
ghost use Rattle.syntax_tree.specs.Regions.{with_outer, IsClosed, CanRelease, NamesNone, Outlives, OutlivesNone, CanGoBack};
ghost use Rattle.syntax_tree.specs.Kept.{shape_of};
ghost use Rattle.syntax_tree.specs.Works.{StandsFor, IsStanding, IsNodeOf, CanAdd, IsOpened, LiesIn, OutlivesIn, CanName, CanNameParts, count_in, lived_in, Reaches, KeepsTrees, SameRegions, live_count, node_at};
ghost use Rattle.syntax_tree.specs.declared.trees.table.Region.{Region as AnyRegion};

use crate::symbols::Symbols;
use ls_base::Mem;
use std::alloc::Global;

mod faults;
pub mod laws;
mod measures;
mod nodes;
mod table;

pub use faults::PoolFault;
pub use node_pool::Mark;
pub use nodes::{Leaf, Node, Tree};
pub use table::{Region, Trees};

/// The trees and the names in them.
#[derive(Drop)]
pub struct Work {
    pub trees: Trees,
    pub symbols: Symbols,
}

impl Work {
    /// No nodes and no names, which take no memory.
    pub fn new(alloc: Global) -> Work
        ensures nodes { live_count result ≡ 0 }
        ensures symbols { result.symbols.symbols ≡ [] }
        ensures idents { result.symbols.idents ≡ [] }
    {
        Work {
            trees: Trees::new(alloc),
            symbols: Symbols::new(alloc),
        }
    }

    /// Opens a region, to which nodes can be added.
    pub fn open_region(&mut self) -> Mem<Region>
        ensures opened { IfOk result (λ region. IsOpened self.new region) }
        ensures fresh { IfOk result (λ region. ¬ IsOpened self.old region) }
        ensures regions { IfOk result (λ region. self.new.trees.regions ≡ map.insert self.old.trees.regions region.in_pool.number []) }
        ensures counts { IfOk result (λ region. self.new.trees.counts ≡ map.insert self.old.trees.counts region.in_pool.number 0) }
        ensures keeps { KeepsTrees self.old self.new }
        ensures nodes { self.new.trees.nodes ≡ self.old.trees.nodes }
        ensures spare { self.new.trees.spare ≡ self.old.trees.spare }
        ensures symbols { self.new.symbols ≡ self.old.symbols }
        ensures err { OnErr result (self.new ≡ self.old) }
    {
        Ok(self.trees.open_region()?)
    }

    /// From now on nodes of the second region may name nodes of the first, which is to be let go only after it.
    pub fn outlive(&mut self, outer: &Region, inner: &Region) -> Mem<()>
        requires outer { IsOpened self.old outer.now }
        requires inner { IsOpened self.old inner.now }
        ensures outlives { OnOk result (OutlivesIn self.new outer.now inner.now) }
        ensures regions { OnOk result (self.new.trees.regions ≡ with_outer self.old.trees.regions outer.now.in_pool.number inner.now.in_pool.number) }
        ensures counts { self.new.trees.counts ≡ self.old.trees.counts }
        ensures keeps { KeepsTrees self.old self.new }
        ensures nodes { self.new.trees.nodes ≡ self.old.trees.nodes }
        ensures spare { self.new.trees.spare ≡ self.old.trees.spare }
        ensures symbols { self.new.symbols ≡ self.old.symbols }
        ensures err { OnErr result (self.new ≡ self.old) }
    {
        self.trees.outlive(outer, inner)?;
        Ok(())
    }

    /// Adds a node to a region. `Full` comes exactly where 2^31 nodes live.
    #[inline(always)]
    pub fn add(&mut self, region: &Region, node: Node) -> Result<Tree, PoolFault>
        requires region { IsOpened self.old region.now }
        requires small { CanAdd self.old node }
        requires names { CanNameParts self.old region.now node }
        ensures tree { IfOk result (λ tree. (t : ModelTree Identifier) → IsNodeOf self.old node t →
            StandsFor self.new tree t) }
        ensures put { IfOk result (λ tree. IsPut self.old.trees.nodes self.new.trees.nodes tree.number
            (lived_in self.old region.now node)) }
        ensures region { IfOk result (λ tree. LiesIn self.new region.now tree) }
        ensures keeps { KeepsTrees self.old self.new }
        ensures regions { SameRegions self.old self.new }
        ensures symbols { self.new.symbols ≡ self.old.symbols }
        ensures counts { OnOk result (self.new.trees.counts ≡
            map.insert self.old.trees.counts region.now.in_pool.number (count_in self.old region.now + 1)) }
        ensures spare { OnOk result (self.old.trees.spare ≤ self.new.trees.spare + 1) }
        ensures one_more { OnOk result (live_count self.new ≡ live_count self.old + 1) }
        ensures full { (result ≡ Err PoolFault.Full) ↔ (live_count self.old ≡ 2 ^ 31) }
        ensures memory { result ≡ Err PoolFault.Memory → self.old.trees.spare ≡ 0 }
        ensures room { OnOk result (live_count self.new ≤ 2 ^ 31) }
        ensures err { OnErr result (self.new ≡ self.old) }
    {
        Ok(self.trees.add(region, node)?)
    }

    /// From now on the next `n` nodes are added without memory.
    pub fn reserve(&mut self, n: u32) -> Mem<()>
        ensures spare { OnOk result (n ≤ self.new.trees.spare) }
        ensures more { self.old.trees.spare ≤ self.new.trees.spare }
        ensures had_room { n ≤ self.old.trees.spare → IsOk result }
        ensures trees { self.new.trees ≡ record self.old.trees { spare = self.new.trees.spare } }
        ensures symbols { self.new.symbols ≡ self.old.symbols }
        ensures keeps { KeepsTrees self.old self.new }
    {
        Ok(self.trees.reserve(n)?)
    }

    /// How many nodes can be added without memory. It takes none.
    pub fn spare(&self) -> usize
        ensures { result ≡ self.now.trees.spare }
    {
        self.trees.spare()
    }

    /// From now on no more than `n` nodes are promised that they are added without memory; all else is as before. It takes none.
    pub fn give_back(&mut self, n: usize)
        ensures trees { self.new.trees ≡ record self.old.trees { spare = min n self.old.trees.spare } }
        ensures symbols { self.new.symbols ≡ self.old.symbols }
        ensures keeps { KeepsTrees self.old self.new }
    {
        self.trees.give_back(n);
    }

    /// The node of a tree. It takes no memory.
    #[inline(always)]
    pub fn node(&self, tree: Tree) -> &Node
        requires { IsStanding self.now tree }
        ensures node { node_at self.now tree ≡ Some (shape_of result.now) }
        ensures tree { (t : ModelTree Identifier) → StandsFor self.now tree t → IsNodeOf self.now result.now t }
        ensures names { (region : AnyRegion) → CanName self.now region tree → CanNameParts self.now region result.now }
    {
        self.trees.node(tree)
    }

    /// The nodes of a tree, a part that is shared counted each time that it stands there. It takes no memory.
    #[inline(always)]
    pub fn size(&self, tree: Tree) -> u32
        requires { IsStanding self.now tree }
        ensures { (t : ModelTree Identifier) → StandsFor self.now tree t → result ≡ tree_size t }
    {
        self.trees.size(tree)
    }

    /// The depth of a tree, whose outermost node has depth 1. It takes no memory.
    #[inline(always)]
    pub fn depth(&self, tree: Tree) -> u32
        requires { IsStanding self.now tree }
        ensures { (t : ModelTree Identifier) → StandsFor self.now tree t → result ≡ tree_depth t }
    {
        self.trees.depth(tree)
    }

    /// How many nodes live. It takes no memory.
    pub fn live(&self) -> u32
        ensures live { result ≡ live_count self.now }
        ensures few { result ≤ 2 ^ 31 }
    {
        self.trees.live()
    }

    /// This moment of a region. It takes no memory.
    pub fn mark(&self, region: &Region) -> Mark
        requires { IsOpened self.now region.now }
        ensures count { result.count ≡ count_in self.now region.now }
        ensures ranks { HasRanks self.now.trees.nodes region.now.in_pool.number result.count }
        ensures reaches { Reaches self.now region.now result }
    {
        self.trees.mark(region)
    }

    /// The nodes of a region go that were added since the mark, where no node of another region names one of them. It takes no
    /// memory, and time by the nodes that go.
    pub fn back_to(&mut self, region: &Region, mark: Mark)
        requires region { IsOpened self.old region.now }
        requires mark { Reaches self.old region.now mark }
        requires unnamed { CanGoBack self.old.trees.nodes region.now.in_pool.number mark.count }
        ensures nodes { self.new.trees.nodes ≡ back_to self.old.trees.nodes region.now.in_pool.number mark.count }
        ensures undone { (before : Nodes) → HasRanks before region.now.in_pool.number mark.count →
            OnlyAdds before self.old.trees.nodes region.now.in_pool.number → self.new.trees.nodes ≡ before }
        ensures stays { (tree : Tree) (t : ModelTree Identifier) → StandsFor self.old tree t → IsSome (node_at self.new tree) →
            StandsFor self.new tree t }
        ensures regions { SameRegions self.old self.new }
        ensures counts { self.new.trees.counts ≡ map.insert self.old.trees.counts region.now.in_pool.number mark.count }
        ensures symbols { self.new.symbols ≡ self.old.symbols }
        ensures live { live_count self.new + count_in self.old region.now ≡ live_count self.old + mark.count }
        ensures room { live_count self.new + self.new.trees.spare ≡ live_count self.old + self.old.trees.spare }
    {
        self.trees.closed();
        self.trees.back_to(region, mark);
    }

    /// Ends a region that outlives no other one: its nodes go. It takes no memory, and time by the nodes that go.
    pub fn release(&mut self, region: Region)
        requires region { IsOpened self.old region }
        requires last { OutlivesNone self.old.trees.regions region.in_pool.number }
        ensures nodes { self.new.trees.nodes ≡ back_to self.old.trees.nodes region.in_pool.number 0 }
        ensures gone { (tree : Tree) → ¬ LiesIn self.new region tree }
        ensures stays { (tree : Tree) (t : ModelTree Identifier) → StandsFor self.old tree t → ¬ LiesIn self.old region tree →
            StandsFor self.new tree t }
        ensures regions { self.new.trees.regions ≡ map.remove self.old.trees.regions region.in_pool.number }
        ensures others { (other : AnyRegion) → other.in_pool.number ≢ region.in_pool.number → IsOpened self.old other → IsOpened self.new other }
        ensures outlives { (a b : ℕ) → b ≢ region.in_pool.number → Outlives self.old.trees.regions a b → Outlives self.new.trees.regions a b }
        ensures counts { self.new.trees.counts ≡ map.remove self.old.trees.counts region.in_pool.number }
        ensures symbols { self.new.symbols ≡ self.old.symbols }
        ensures live { live_count self.new + count_in self.old region ≡ live_count self.old }
        ensures room { live_count self.new + self.new.trees.spare ≡ live_count self.old + self.old.trees.spare }
    {
        self.trees.closed();
        self.trees.release(region);
    }

    /// Each node names only nodes of its region or of regions that outlive it. So a region that may be let go is named by no node
    /// of another.
    pub fn named_while_they_live(&self)
        ensures closed { IsClosed self.now.trees.nodes self.now.trees.regions }
        ensures unnamed { (r n : ℕ) (l : Lived) → CanRelease self.now.trees r →
            map.get self.now.trees.nodes n ≡ Some l → l.region ≢ r → NamesNone self.now.trees.nodes r l.node }
    {
        self.trees.closed();
    }

    /// A tree that stands has at most 4,194,304 nodes, a part that is shared counted each time, and a depth of at most 1,000.
    pub fn trees_fit(&self)
        ensures nodes { (tree : Tree) (t : ModelTree Identifier) → StandsFor self.now tree t → tree_size t ≤ max_tree_nodes }
        ensures depth { (tree : Tree) (t : ModelTree Identifier) → StandsFor self.now tree t → tree_depth t ≤ max_tree_depth }
    {
        self.trees.small();
    }
}
