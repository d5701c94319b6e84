//! The instance of a template (R7RS 4.3.2).
#![tactic(auto)]

ghost use Rattle.std.specs.Prelude.{◌≡◌, ◌+◌, ◌^◌, ◌<◌, ℕ, Err, IfOk};
ghost use Rattle.scheme_model.specs.Identifiers.{Number};
ghost use Rattle.scheme_model.specs.RulesShape.{Rules as ModelRules};
ghost use Rattle.scheme_model.specs.Matching.{Chosen};
ghost use Rattle.scheme_model.specs.Ident.{Ident as Identifier};
ghost use Rattle.syntax_tree.specs.Macros.{RulesFor, MatchedFor};
ghost use Rattle.syntax_tree.specs.Bound.{MayNameBindings, IsMatched};
ghost use Rattle.syntax_tree.specs.Numbered.{number_of};
ghost use Rattle.syntax_tree.specs.Works.{IsOpened, CanName, KeepsTrees, SameRegions, AddsIn, live_count};
ghost use Rattle.syntax_tree.specs.declared.trees.table.Region.{Region as AnyRegion};
ghost use Rattle.rules_build.specs.Adds.{Inserts};
ghost use Rattle.rules_build.specs.Builds.{instance, Builds, CountsNodes, IsPlanned};

use crate::adding::add_plan;
use crate::index::index_of;
use crate::measure::{fits, take_size};
use crate::plan::Plan;
use crate::values::all_bound;
use crate::walk::Walk;
use std::alloc::Global;
use syntax_tree::rules::{Matched, Roles, Rules};
use syntax_tree::symbols::UseNo;
use syntax_tree::trees::{Region, Tree, Work};

mod adding;
mod fault;
mod index;
mod measure;
mod plan;
mod used;
mod values;
mod walk;

pub use fault::BuildFault;

/// The most nodes of a built tree, a shared part counted each time that it stands there.
const MAX_NODES: u32 = 4_194_304;

/// The greatest depth of a built tree.
const MAX_DEPTH: u32 = 1_000;

/// Builds the instance of the template of the rule that matched, for the macro use of this number: a variable gives what it stands
/// for, and any other identifier is marked by the use. What was built is taken from `left`, in which the value of a variable counts
/// 1 whatever its size. The nodes are added to the region, which may name the nodes that the bindings name.
pub fn build(
    alloc: Global,
    work: &mut Work,
    region: &Region,
    rules: &Rules,
    matched: &Matched,
    number: UseNo,
    left: &mut u32,
) -> Result<Tree, BuildFault>
    requires region { IsOpened work.old region.now }
    requires matched { IsMatched work.old region.now rules.now matched.now }
    ensures tree { (r : ModelRules Identifier) (m : Chosen Identifier Identifier) → RulesFor work.old rules.now r → MatchedFor work.old matched.now r m →
        MayNameBindings work.old region.now matched.now.bindings m.match.bindings →
        Builds work.new left.old left.new (instance r (number_of number) m left.old) result }
    ensures nodes { (r : ModelRules Identifier) (m : Chosen Identifier Identifier) → RulesFor work.old rules.now r → MatchedFor work.old matched.now r m →
        MayNameBindings work.old region.now matched.now.bindings m.match.bindings →
        CountsNodes work.old work.new left.old (instance r (number_of number) m left.old) result }
    ensures region { IfOk result (λ tree. CanName work.new region.now tree) }
    ensures keeps { KeepsTrees work.old work.new }
    ensures added { AddsIn work.old work.new region.now }
    ensures regions { SameRegions work.old work.new }
    ensures names { Inserts work.old.symbols work.new.symbols (number_of number) }
    ensures full { result ≡ Err BuildFault.Full → 2 ^ 31 < live_count work.old + left.old }
{
    let (plan, rest) = planned(alloc, work, rules, matched, *left)?;
    let tree = add_plan(alloc, work, region, &plan, number)?;
    *left = rest;
    Ok(tree)
}

/// The plan of the instance, and what is left when what it counts is taken.
fn planned(
    alloc: Global,
    work: &Work,
    rules: &Rules,
    matched: &Matched,
    left: u32,
) -> Result<(Plan, u32), BuildFault>
    requires matched { (region : AnyRegion) × IsMatched work.now region rules.now matched.now }
    ensures { (region : AnyRegion) (k : Number) (r : ModelRules Identifier) (m : Chosen Identifier Identifier) →
        RulesFor work.now rules.now r → MatchedFor work.now matched.now r m →
        MayNameBindings work.now region matched.now.bindings m.match.bindings →
        IsPlanned work.now region k left (instance r k m left) result }
{
    let roles = Roles::of(alloc, rules.ellipsis, rules.literals.as_slice())?;
    let bounds = all_bound(alloc, matched.bindings.as_slice())?;
    let index = index_of(alloc, &bounds)?;
    let template = rules.rules.as_slice()[matched.rule as usize].template;
    let walk = Walk {
        alloc,
        work,
        roles: &roles,
    };
    let mut room = Some(left);
    let plan = walk.tree(
        template,
        false,
        &bounds,
        &index,
        work.depth(template),
        &mut room,
    )?;
    let Some(rest) = room else {
        return Err(BuildFault::NodeBudget);
    };
    let mut nodes = Some(MAX_NODES);
    take_size(work, &plan, &mut nodes);
    if nodes.is_none() {
        return Err(BuildFault::NodeBudget);
    }
    if !fits(work, &plan, MAX_DEPTH) {
        return Err(BuildFault::DepthBudget);
    }
    Ok((plan, rest))
}
