//! Rows of trees that steps make. Their names are written in the prelude's unit, and no tree has a place.
ghost use Rattle.std.specs.Prelude.{◌≡◌, ◌-◌, ◌≤◌, List, length, take, drop, OnOk, IfOk};
ghost use Rattle.ls_base.specs.Limits.{max_tree_depth};
ghost use Rattle.scheme_model.specs.Trees.{Tree as ModelTree};
ghost use Rattle.scheme_model.specs.Ident.{Ident as Identifier};
ghost use Rattle.syntax_tree.specs.Works.{IsOpened};
ghost use Rattle.syntax_tree.specs.declared.trees.Work.{Work as AnyWork};
ghost use Rattle.datum_reader.specs.Seeding.{trees_from, Seeds, SeedsAll, Interns};
ghost use Rattle.base_library.specs.Sketches.{name_tree, made, row_size};
ghost use Rattle.base_library.specs.Rows.{Holds, Readies, Takes, CanTake};

use crate::sketch::Step;
use ls_base::Mem;
use std::alloc::{AllocError, Global};
use syntax_tree::symbols::{Ident, Symbols};
use syntax_tree::trees::{Leaf, Node, PoolFault, Region, Tree, Work};

/// The number of the prelude's unit.
pub const UNIT: u32 = 128;

/// Adds the trees that some steps make to a region, in order. One node is added for each node of these trees.
pub fn make_trees(
    alloc: Global,
    work: &mut Work,
    region: &Region,
    steps: &[Step],
) -> Result<Vec<Tree>, PoolFault>
    requires region { IsOpened work.old region.now }
    requires few { row_size (made steps.now) ≤ max_tree_depth }
    ensures { SeedsAll work.old work.new region.now (trees_from (made steps.now)) result }
{
    let mut trees = Vec::new(alloc);
    for step in steps {
        let tree = take_step(work, region, &mut trees, *step)?;
        trees.push(tree)?;
    }
    Ok(trees)
}

/// Adds the tree of a step, and takes its parts from the end of the row.
fn take_step(
    work: &mut Work,
    region: &Region,
    trees: &mut Vec<Tree>,
    step: Step,
) -> Result<Tree, PoolFault>
    requires region { IsOpened work.old region.now }
    requires small { CanTake work.old region.now step trees.old.items }
    ensures { (start : AnyWork) (ts : List (ModelTree Identifier)) → Holds start work.old region.now ts trees.old.items →
        Takes start work.new region.now ts step trees.new.items result }
{
    let node = step_node(work, region, trees, step)?;
    Ok(work.add(region, node)?)
}

/// The outermost node of the tree of a step.
fn step_node(
    work: &mut Work,
    region: &Region,
    trees: &mut Vec<Tree>,
    step: Step,
) -> Result<Node, PoolFault>
    requires { IsOpened work.old region.now }
    ensures { (start : AnyWork) (ts : List (ModelTree Identifier)) → Holds start work.old region.now ts trees.old.items →
        Readies start work.new region.now ts step trees.new.items result }
{
    match step {
        Step::Name(name) => Ok(name_node(&mut work.symbols, name)?),
        Step::Truth(value) => Ok(Node::Atom {
            leaf: Leaf::Bool(value),
            occ: None,
        }),
        Step::List(count) => {
            let items = taken(trees, count)?;
            Ok(Node::List {
                items,
                tail: None,
                occ: None,
            })
        }
        Step::Dotted(count, name) => {
            let items = taken(trees, count)?;
            let tail = Some(add_name(work, region, name)?);
            Ok(Node::List {
                items,
                tail,
                occ: None,
            })
        }
    }
}

/// Takes so many trees from the end of a row.
fn taken(trees: &mut Vec<Tree>, count: usize) -> Result<Vec<Tree>, AllocError>
    ensures left { OnOk result (trees.new.items ≡ take (length trees.old.items - count) trees.old.items) }
    ensures taken { IfOk result (λ items. items.items ≡ drop (length trees.old.items - count) trees.old.items) }
{
    let at = trees.len().saturating_sub(count);
    Ok(trees.split_off(at)?)
}

/// Adds an identifier.
fn add_name(work: &mut Work, region: &Region, name: &str) -> Result<Tree, PoolFault>
    requires { IsOpened work.old region.now }
    ensures { Seeds work.old work.new region.now (name_tree name.now) result }
{
    let node = name_node(&mut work.symbols, name)?;
    Ok(work.add(region, node)?)
}

/// The node of an identifier.
fn name_node(symbols: &mut Symbols, name: &str) -> Mem<Node>
    ensures { Interns symbols.old symbols.new (name_tree name.now) result }
{
    let symbol = symbols.symbol(name)?;
    let number = symbols.ident(Ident::Written { unit: UNIT, symbol })?;
    Ok(Node::Atom {
        leaf: Leaf::Name(number),
        occ: None,
    })
}
