//! Adding the nodes of a plan.
ghost use Rattle.std.specs.Prelude.{IfOk};
ghost use Rattle.scheme_model.specs.Identifiers.{Number};
ghost use Rattle.scheme_model.specs.Trees.{Tree as ModelTree, Trees, Tail, name, no_trees};
ghost use Rattle.scheme_model.specs.TreeParts.{append};
ghost use Rattle.scheme_model.specs.Ident.{Ident as Identifier, Inserted};
ghost use Rattle.syntax_tree.specs.Looks.{PartsStand};
ghost use Rattle.syntax_tree.specs.Macros.{IsIdent};
ghost use Rattle.syntax_tree.specs.Numbered.{number_of};
ghost use Rattle.syntax_tree.specs.Works.{IsNodeOf, CanAdd, CanNameParts, IsOpened};
ghost use Rattle.syntax_tree.specs.declared.trees.table.Region.{Region as AnyRegion};
ghost use Rattle.rules_build.specs.Drafts.{Draft, Drafts, Ending, IsDraft, AreDrafts, IsEnding, IsRestOf, RestStands, tree_of, row_of, tail_of, ending_parts, makes, all_make, ending_makes};
ghost use Rattle.rules_build.specs.Adds.{Adds, AddsAll, AddsEnd, AreNamed, CanBeAdded, AllCanBeAdded, EndCanBeAdded, CopiesRest};

use crate::BuildFault;
use crate::plan::{End, Plan};
use ls_base::{Mem, Memory};
use scheme_model::Occ;
use std::alloc::Global;
use syntax_tree::symbols::{IdNo, Ident, UseNo};
use syntax_tree::trees::{Leaf, Node, Region, Tree, Work};

/// Adds the nodes of a plan, of which the use of this number is the macro use.
#[cycle(adding)]
pub fn add_plan(
    alloc: Global,
    work: &mut Work,
    region: &Region,
    plan: &Plan,
    number: UseNo,
) -> Result<Tree, BuildFault>
    requires region { IsOpened work.old region.now }
    requires plan { CanBeAdded work.old region.now (number_of number) plan.now }
    ensures { (d : Draft) → IsDraft work.old region.now plan.now d →
        Adds work.old work.new region.now (number_of number) (makes d) (tree_of (number_of number) d) result }
{
    match plan {
        Plan::Held(tree) => Ok(*tree),
        Plan::Name(id, occ) => Ok(add_name(work, region, *id, *occ, number)?),
        Plan::Atom(leaf) => Ok(add_node(
            work,
            region,
            Node::Atom {
                leaf: *leaf,
                occ: None,
            },
        )?),
        Plan::Vector(plans) => {
            let items = add_all(alloc, work, region, plans, number)?;
            Ok(add_node(work, region, Node::Vector { items, occ: None })?)
        }
        Plan::List(plans, end) => {
            let mut items = add_all(alloc, work, region, plans, number)?;
            let tail = add_end(alloc, work, region, end, number, &mut items)?;
            Ok(add_node(
                work,
                region,
                Node::List {
                    items,
                    tail,
                    occ: None,
                },
            )?)
        }
    }
}

/// Adds the nodes of plans in a row.
#[cycle(adding)]
fn add_all(
    alloc: Global,
    work: &mut Work,
    region: &Region,
    plans: &[Plan],
    number: UseNo,
) -> Result<Vec<Tree>, BuildFault>
    requires region { IsOpened work.old region.now }
    requires plans { AllCanBeAdded work.old region.now (number_of number) plans.now }
    ensures { (ds : Drafts) → AreDrafts work.old region.now plans.now ds →
        AddsAll work.old work.new region.now (number_of number) (all_make ds) (row_of (number_of number) ds no_trees) result }
{
    let mut items = Vec::with_capacity(alloc, plans.len())?;
    for plan in plans {
        let item = add_plan(alloc, work, region, plan, number)?;
        items.push(item)?;
    }
    Ok(items)
}

/// Adds the nodes of what comes behind the parts of a list. The parts of a list that is there are added to them.
#[cycle(adding)]
fn add_end(
    alloc: Global,
    work: &mut Work,
    region: &Region,
    end: &End,
    number: UseNo,
    items: &mut Vec<Tree>,
) -> Result<Option<Tree>, BuildFault>
    requires region { IsOpened work.old region.now }
    requires end { EndCanBeAdded work.old region.now (number_of number) end.now }
    ensures { (e : Ending) (us : Trees Identifier) → IsEnding work.old region.now end.now e → PartsStand work.old items.old.items us →
        AreNamed work.old region.now items.old.items →
        AddsEnd work.old work.new region.now (number_of number) (ending_makes e) (append us (ending_parts e)) (tail_of (number_of number) e) items.new.items result }
{
    match end {
        End::Proper => Ok(None),
        End::Dotted(plan) => Ok(Some(add_plan(alloc, work, region, plan, number)?)),
        End::Behind(list, from) => Ok(copy_behind(work, *list, *from, items)?),
    }
}

/// Adds the parts of a list from a place on to others. Its tail is the result.
fn copy_behind(work: &Work, list: Tree, from: u32, items: &mut Vec<Tree>) -> Mem<Option<Tree>>
    requires { RestStands work.now list from }
    ensures { (region : AnyRegion) (us : Trees Identifier) (vs : Trees Identifier) (tail : Tail Identifier) →
        IsRestOf work.now region list from us tail → PartsStand work.now items.old.items vs → AreNamed work.now region items.old.items →
        IfOk result (λ end. CopiesRest work.now region (append vs us) tail items.new.items end) }
{
    match work.node(list) {
        Node::List {
            items: parts,
            tail,
            ..
        } => {
            for k in from as usize..parts.len() {
                items.push(parts[k])?;
            }
            Ok(*tail)
        }
        Node::Atom { .. } => Ok(None),
        Node::Vector { .. } => Ok(None),
    }
}

/// Adds the node of an identifier of the template, marked by the use.
fn add_name(
    work: &mut Work,
    region: &Region,
    id: IdNo,
    occ: Option<Occ>,
    number: UseNo,
) -> Result<Tree, BuildFault>
    requires region { IsOpened work.old region.now }
    requires id { (i : Identifier) × IsIdent work.old.symbols id i }
    ensures { (i : Identifier) → IsIdent work.old.symbols id i →
        Adds work.old work.new region.now (number_of number) 1 (name (Inserted i (number_of number)) occ) result }
{
    let inserted = work.symbols.ident(Ident::Inserted { id, number })?;
    Ok(add_node(
        work,
        region,
        Node::Atom {
            leaf: Leaf::Name(inserted),
            occ,
        },
    )?)
}

/// Adds a node.
fn add_node(work: &mut Work, region: &Region, node: Node) -> Result<Tree, BuildFault>
    requires region { IsOpened work.old region.now }
    requires small { CanAdd work.old node }
    requires names { CanNameParts work.old region.now node }
    ensures { (k : Number) (t : ModelTree Identifier) → IsNodeOf work.old node t →
        Adds work.old work.new region.now k 1 t result }
{
    Ok(work.add(region, node)?)
}
