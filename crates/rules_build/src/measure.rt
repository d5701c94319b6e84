//! How many nodes a tree would have, and whether it would be too deep, before it is built.
ghost use Rattle.std.specs.Prelude.{◌≡◌, ◌+◌, max, nat_le};
ghost use Rattle.scheme_model.specs.Identifiers.{Number};
ghost use Rattle.scheme_model.specs.Trees.{Trees, no_trees, Tail};
ghost use Rattle.scheme_model.specs.Measures.{tree_size, trees_size, tail_size, tree_depth, trees_depth, tail_depth};
ghost use Rattle.scheme_model.specs.Ident.{Ident as Identifier};
ghost use Rattle.syntax_tree.specs.declared.trees.table.Region.{Region};
ghost use Rattle.rules_build.specs.Drafts.{spent, Draft, Drafts, IsDraft, AreDrafts, IsRestOf, tree_of, row_of, CanStand, AllCanStand, RestStands};

use crate::plan::{End, Plan, spend};
use syntax_tree::look::{Look, look_at};
use syntax_tree::trees::{Tree, Work};

/// Takes as many as the tree would have nodes from `room`.
#[cycle(size)]
pub fn take_size(work: &Work, plan: &Plan, room: &mut Option<u32>)
    requires { CanStand work.now plan.now }
    ensures { (region : Region) (k : Number) (d : Draft) → IsDraft work.now region plan.now d →
        room.new ≡ spent room.old (tree_size (tree_of k d)) }
{
    match plan {
        Plan::Held(tree) => *room = spend(*room, work.size(*tree)),
        Plan::Name(_, _) => *room = spend(*room, 1),
        Plan::Atom(_) => *room = spend(*room, 1),
        Plan::Vector(items) => {
            *room = spend(*room, 1);
            take_sizes(work, items, room);
        }
        Plan::List(items, end) => {
            *room = spend(*room, 1);
            take_sizes(work, items, room);
            match end {
                End::Proper => {}
                End::Dotted(tail) => take_size(work, tail, room),
                End::Behind(list, from) => take_behind(work, *list, *from, room),
            }
        }
    }
}

/// The same for trees in a row.
#[cycle(size)]
fn take_sizes(work: &Work, plans: &[Plan], room: &mut Option<u32>)
    requires { AllCanStand work.now plans.now }
    ensures { (region : Region) (k : Number) (ds : Drafts) → AreDrafts work.now region plans.now ds →
        room.new ≡ spent room.old (trees_size (row_of k ds no_trees)) }
{
    for plan in plans {
        take_size(work, plan, room);
    }
}

/// The same for the parts of a list from a place on, and its tail.
fn take_behind(work: &Work, list: Tree, from: u32, room: &mut Option<u32>)
    requires { RestStands work.now list from }
    ensures { (region : Region) (us : Trees Identifier) (tail : Tail Identifier) → IsRestOf work.now region list from us tail →
        room.new ≡ spent room.old (trees_size us + tail_size tail) }
{
    match look_at(work, list) {
        Look::List(items, end) => {
            for k in from as usize..items.len() {
                if room.is_none() {
                    return;
                }
                *room = spend(*room, work.size(items[k]));
            }
            match end {
                None => {}
                Some(tail) => *room = spend(*room, work.size(tail)),
            }
        }
        Look::Name(_) => {}
        Look::Atom(_) => {}
        Look::Vector(_) => {}
    }
}

/// Whether a tree would be at most `left` nodes deep.
#[cycle(depth)]
pub fn fits(work: &Work, plan: &Plan, left: u32) -> bool
    requires { CanStand work.now plan.now }
    ensures { (region : Region) (k : Number) (d : Draft) → IsDraft work.now region plan.now d →
        result ≡ nat_le (tree_depth (tree_of k d)) left }
{
    match plan {
        Plan::Held(tree) => work.depth(*tree) <= left,
        Plan::Name(_, _) => 1 <= left,
        Plan::Atom(_) => 1 <= left,
        Plan::Vector(items) => 1 <= left && all_fit(work, items, left - 1),
        Plan::List(items, end) => {
            if left == 0 || !all_fit(work, items, left - 1) {
                return false;
            }
            match end {
                End::Proper => true,
                End::Dotted(tail) => fits(work, tail, left - 1),
                End::Behind(list, from) => behind_fits(work, *list, *from, left - 1),
            }
        }
    }
}

/// The same for trees in a row.
#[cycle(depth)]
fn all_fit(work: &Work, plans: &[Plan], left: u32) -> bool
    requires { AllCanStand work.now plans.now }
    ensures { (region : Region) (k : Number) (ds : Drafts) → AreDrafts work.now region plans.now ds →
        result ≡ nat_le (trees_depth (row_of k ds no_trees)) left }
{
    for plan in plans {
        if !fits(work, plan, left) {
            return false;
        }
    }
    true
}

/// The same for the parts of a list from a place on, and its tail.
fn behind_fits(work: &Work, list: Tree, from: u32, left: u32) -> bool
    requires { RestStands work.now list from }
    ensures { (region : Region) (us : Trees Identifier) (tail : Tail Identifier) → IsRestOf work.now region list from us tail →
        result ≡ nat_le (max (trees_depth us) (tail_depth tail)) left }
{
    match look_at(work, list) {
        Look::List(items, end) => {
            for k in from as usize..items.len() {
                if work.depth(items[k]) > left {
                    return false;
                }
            }
            match end {
                None => true,
                Some(tail) => work.depth(tail) <= left,
            }
        }
        Look::Name(_) => true,
        Look::Atom(_) => true,
        Look::Vector(_) => true,
    }
}
