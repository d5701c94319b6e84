//! The names in trees, from left to right.
ghost use Rattle.std.specs.Prelude.{◌++◌, OnOk, IfOk};
ghost use Rattle.scheme_model.specs.Trees.{Tree as ModelTree, Trees, Tail};
ghost use Rattle.scheme_model.specs.Matching.{behind};
ghost use Rattle.scheme_model.specs.Ident.{Ident as Identifier};
ghost use Rattle.syntax_tree.specs.Looks.{PartsStand, EndStands, StandsWithin, PartsWithin, EndWithin};
ghost use Rattle.syntax_tree.specs.Placed.{IsNamed};
ghost use Rattle.syntax_tree.specs.Works.{StandsFor, IsStanding};
ghost use Rattle.core_tree.specs.Names.{AllMatch};
ghost use Rattle.program_leaves.specs.Adds.{Adds};
ghost use Rattle.program_leaves.specs.Names.{names_in, names_among, names_behind};

use ls_base::Mem;
use std::alloc::Global;
use syntax_tree::look::{Look, look_at, place_of};
use syntax_tree::rules::Named;
use syntax_tree::trees::{Tree, Work};

/// Adds the names of a tree that is at most `left` nodes deep.
#[cycle(names)]
pub fn add_names(work: &Work, tree: Tree, left: u32, names: &mut Vec<Named>) -> Mem<()>
    requires { StandsWithin work.now tree left }
    ensures { (t : ModelTree Identifier) → StandsFor work.now tree t →
        OnOk result (Adds (IsNamed work.now.symbols) names.old.items names.new.items (names_in t)) }
{
    match look_at(work, tree) {
        Look::Name(ident) => {
            let occ = place_of(work, tree);
            Ok(names.push(Named { ident, occ })?)
        }
        Look::Atom(_) => Ok(()),
        Look::List(items, end) => Ok(add_row(work, items, 0, end, left - 1, names)?),
        Look::Vector(items) => Ok(add_row(work, items, 0, None, left - 1, names)?),
    }
}

/// Adds the names of the parts of a list or a vector from a place on, and of its tail, where it has one.
#[cycle(names)]
pub fn add_row(
    work: &Work,
    items: &[Tree],
    from: usize,
    end: Option<Tree>,
    left: u32,
    names: &mut Vec<Named>,
) -> Mem<()>
    requires parts { PartsWithin work.now items.now left }
    requires tail { EndWithin work.now end left }
    ensures { (ts : Trees Identifier) (tail : Tail Identifier) → PartsStand work.now items.now ts → EndStands work.now end tail →
        OnOk result (Adds (IsNamed work.now.symbols) names.old.items names.new.items (names_among (behind from ts) ++ names_behind tail)) }
{
    for k in from..items.len() {
        add_names(work, items[k], left, names)?;
    }
    match end {
        None => Ok(()),
        Some(tail) => Ok(add_names(work, tail, left, names)?),
    }
}

/// The names of a tree.
pub fn names_of(alloc: Global, work: &Work, tree: Tree) -> Mem<Vec<Named>>
    requires { IsStanding work.now tree }
    ensures { (t : ModelTree Identifier) → StandsFor work.now tree t →
        IfOk result (λ names. AllMatch (IsNamed work.now.symbols) names.items (names_in t)) }
{
    let left = work.depth(tree);
    let mut names = Vec::new(alloc);
    add_names(work, tree, left, &mut names)?;
    Ok(names)
}
