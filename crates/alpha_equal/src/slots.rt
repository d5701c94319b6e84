//! The rules of a macro with holes for their leaves, and the points that these become with the leaves.
ghost use Rattle.std.specs.Prelude.{◌≡◌, ℕ, List, IfOk, OnOk};
ghost use Rattle.scheme_model.specs.Cores.{RuleLeaf as ModelLeaf};
ghost use Rattle.scheme_model.specs.Substitution.{Table};
ghost use Rattle.rename_model.specs.Walks.{Slot as ModelSlot, leaf_spot as model_spot, leaf_points, filled};
ghost use Rattle.core_tree.specs.Names.{AllMatch, IsLeaf};
ghost use Rattle.program_leaves.specs.Adds.{Adds};
ghost use Rattle.alpha_equal.specs.Points.{node_as, spot_as, IsPoint};
ghost use Rattle.alpha_equal.specs.Slots.{IsSlot};
ghost use Rattle.alpha_equal.specs.Filled.{KnowsNumbers, FillsOne};

use crate::meanings::meaning_at;
use crate::nodes::Node;
use crate::numbers::Numbers;
use crate::points::{Point, Seen, Shown, Spot, Told};
use core_tree::cores::RuleLeaf;
use ls_base::Mem;
use syntax_tree::trees::Work;

/// A point, or a leaf of a kind.
#[derive(Clone, Copy)]
pub enum Slot<'a> {
    Fixed(Point<'a>),
    Leaf(Node),
}

/// Where a leaf of rules stands: an identifier of a template may be left out.
fn leaf_spot(literal: bool) -> Spot
    ensures { spot_as result ≡ model_spot literal }
{
    if literal { Spot::Rule } else { Spot::Template }
}

/// Adds a leaf of rules: what it is, and what it means where the macro is defined.
fn add_leaf(
    work: &Work,
    numbers: &Numbers,
    kind: Node,
    leaf: RuleLeaf,
    points: &mut Vec<Point<'_>>,
) -> Mem<()>
    requires { (unit form : ℕ) × (l : ModelLeaf) × IsLeaf work.now.symbols unit form leaf l }
    ensures { (table : Table) (unit form : ℕ) (l : ModelLeaf) → KnowsNumbers work.now.symbols numbers.now table → IsLeaf work.now.symbols unit form leaf l →
        OnOk result (Adds (IsPoint work.now.symbols unit form) points.old.items points.new.items (leaf_points table (node_as kind) l)) }
{
    let target = leaf.target;
    points.push(Point {
        told: Told {
            spot: Spot::Rule,
            occ: target.occ,
            shown: Shown::Meaning(target.meaning),
        },
        seen: Seen::Node(kind),
    })?;
    let spot = leaf_spot(leaf.literal);
    let point = meaning_at(work, numbers, spot, target.meaning, target.occ);
    Ok(points.push(point)?)
}

/// Adds the points of a slot, where the next leaf is the one at a place, and tells the place of the next leaf then.
fn fill_one<'a>(
    work: &Work,
    numbers: &Numbers,
    slot: Slot<'a>,
    leaves: &[RuleLeaf],
    next: usize,
    points: &mut Vec<Point<'a>>,
) -> Mem<usize>
    requires { (unit form : ℕ) × (ls : List ModelLeaf) × AllMatch (IsLeaf work.now.symbols unit form) leaves.now ls }
    ensures { (table : Table) (unit form : ℕ) (s : ModelSlot) (ls : List ModelLeaf) → KnowsNumbers work.now.symbols numbers.now table →
        IsSlot work.now.symbols unit form slot.entry s → AllMatch (IsLeaf work.now.symbols unit form) leaves.now ls →
        IfOk result (λ after. FillsOne work.now.symbols table unit form points.old.items points.new.items s ls next after) }
{
    match slot {
        Slot::Fixed(point) => {
            points.push(point)?;
            Ok(next)
        }
        Slot::Leaf(kind) => {
            if next >= leaves.len() {
                return Ok(next);
            }
            add_leaf(work, numbers, kind, leaves[next], points)?;
            Ok(next + 1)
        }
    }
}

/// Adds the points of slots, whose leaves are these in their order.
pub fn fill<'a>(
    work: &Work,
    numbers: &Numbers,
    slots: &[Slot<'a>],
    leaves: &[RuleLeaf],
    points: &mut Vec<Point<'a>>,
) -> Mem<()>
    requires { (unit form : ℕ) × (ls : List ModelLeaf) × AllMatch (IsLeaf work.now.symbols unit form) leaves.now ls }
    ensures { (table : Table) (unit form : ℕ) (ss : List ModelSlot) (ls : List ModelLeaf) → KnowsNumbers work.now.symbols numbers.now table →
        AllMatch (IsSlot work.now.symbols unit form) slots.now ss → AllMatch (IsLeaf work.now.symbols unit form) leaves.now ls →
        OnOk result (Adds (IsPoint work.now.symbols unit form) points.old.items points.new.items (filled table ss ls)) }
{
    let mut next = 0;
    for k in 0..slots.len() {
        next = fill_one(work, numbers, slots[k], leaves, next, points)?;
    }
    Ok(())
}
