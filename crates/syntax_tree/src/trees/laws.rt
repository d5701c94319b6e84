//! Laws about what numbers of trees stand for, and about identifiers as the definitions see them.
ghost use Rattle.std.specs.Prelude.{◌≡◌, ℕ};
ghost use Rattle.node_pool.specs.Pools.{HasRanks, OnlyAdds};
ghost use Rattle.node_pool.specs.declared.pool.Mark.{Mark};
ghost use Rattle.scheme_model.specs.Trees.{Tree as ModelTree};
ghost use Rattle.scheme_model.specs.Ident.{Ident as Identifier, root};
ghost use Rattle.syntax_tree.specs.Names.{Names, KeepsNames};
ghost use Rattle.syntax_tree.specs.Nodes.{Nodes};
ghost use Rattle.syntax_tree.specs.Regions.{Regions, IsClosed, CanGoBack};
ghost use Rattle.syntax_tree.specs.Works.{StandsFor, KeepsTrees, AddsIn, Reaches, with_names};
ghost use Rattle.syntax_tree.specs.declared.trees.Work.{Work};
ghost use Rattle.syntax_tree.specs.declared.trees.nodes.Tree.{Tree};
ghost use Rattle.syntax_tree.specs.declared.trees.table.Region.{Region};

/// A number stands for one tree at most.
pub fn stands_once()
    ensures { (work : Work) (tree : Tree) (t u : ModelTree Identifier) →
        StandsFor work tree t → StandsFor work tree u → t ≡ u }
{}

/// While names keep their numbers, what stood before still stands for the same tree.
pub fn names_keep_trees()
    ensures { (work : Work) (names : Names) → KeepsNames work.symbols names → KeepsTrees work (with_names work names) }
{}

/// Where since a mark nodes were added to its region alone, the region can go back to it.
pub fn additions_can_be_undone()
    ensures adds { (old new : Work) (region : Region) → KeepsTrees old new → AddsIn old new region →
        OnlyAdds old.trees.nodes new.trees.nodes region.in_pool.number }
    ensures reached { (before : Nodes) (now : Work) (region : Region) (mark : Mark) → HasRanks before region.in_pool.number mark.count →
        OnlyAdds before now.trees.nodes region.in_pool.number → Reaches now region mark }
    ensures unnamed { (before now : Nodes) (regions : Regions) (r count : ℕ) → IsClosed before regions → HasRanks before r count →
        OnlyAdds before now r → CanGoBack now r count }
{}

/// Different identifiers are different names of the definitions.
pub fn names_told_apart()
    ensures { (i j : Identifier) → root i ≡ root j → i ≡ j }
{}
