//! Which occurrences are live: leaves of cores, keywords, matched literals, and names in imports and exports.
ghost use Rattle.std.specs.Prelude.{◌≡◌, ◌||◌, List, map, IfOk, OnOk};
ghost use Rattle.std.specs.BTreeSet.{contains};
ghost use Rattle.scheme_model.specs.declared.Occ.{Occ as AnyOcc};
ghost use Rattle.scheme_model.specs.Live.{CoreLeaf};
ghost use Rattle.scheme_model.specs.ProgramArrows.{any, is_occ, leaf_at};
ghost use Rattle.program_leaves.specs.Leaves.{seen_of, IsSeen};
ghost use Rattle.program_leaves.specs.Placed.{occ_cmp, placed_of, use_of, AreAllSeen};
ghost use Rattle.program_leaves.specs.Sights.{Grows, all_names, name_at, use_at};

use crate::holes::outside;
use crate::leaves::Leaf;
use crate::names::names_of;
use crate::sight::{PlacedLeaf, PlacedTarget};
use core_tree::units::{NameUse, Program, Unit};
use ls_base::Mem;
use scheme_model::Occ;
use std::alloc::Global;
use std::collections::BTreeSet;
use syntax_tree::rules::Named;
use syntax_tree::trees::Work;

/// Adds a place, where there is one.
fn add_live(place: Option<Occ>, live: &mut BTreeSet<Occ>) -> Mem<()>
    ensures { OnOk result (Grows live.old live.new (λ o. is_occ o place)) }
{
    match place {
        None => Ok(()),
        Some(occ) => {
            live.insert(occ)?;
            Ok(())
        }
    }
}

/// Adds the places of names.
fn add_live_names(names: &[Named], live: &mut BTreeSet<Occ>) -> Mem<()>
    ensures { OnOk result (Grows live.old live.new (λ o. any (λ n. is_occ o n.occ) names.now)) }
{
    for name in names {
        add_live(name.occ, live)?;
    }
    Ok(())
}

/// Adds the places of a leaf.
fn add_live_leaf(
    alloc: Global,
    work: &Work,
    leaf: &PlacedLeaf<'_>,
    live: &mut BTreeSet<Occ>,
) -> Mem<()>
    requires { (ls : List CoreLeaf) × IsSeen work.now leaf.now.at.unit leaf.now.at.form (seen_of leaf.now.leaf) ls }
    ensures { (ls : List CoreLeaf) → IsSeen work.now leaf.now.at.unit leaf.now.at.form (seen_of leaf.now.leaf) ls →
        OnOk result (Grows live.old live.new (λ o. any (leaf_at o) ls)) }
{
    match leaf.leaf {
        Leaf::Binds { local: _, binder } => Ok(add_live(binder.occ, live)?),
        Leaf::Uses(target) => Ok(add_live(target.occ, live)?),
        Leaf::Assigns(target) => Ok(add_live(target.occ, live)?),
        Leaf::Quoted(datum) => {
            let names = names_of(alloc, work, datum)?;
            Ok(add_live_names(names.as_slice(), live)?)
        }
        Leaf::Holed { datum, places } => {
            let names = outside(alloc, work, datum, places)?;
            Ok(add_live_names(names.as_slice(), live)?)
        }
        Leaf::Defines(_) => Ok(()),
    }
}

/// Adds the places of leaves.
fn add_live_leaves(
    alloc: Global,
    work: &Work,
    leaves: &[PlacedLeaf<'_>],
    live: &mut BTreeSet<Occ>,
) -> Mem<()>
    requires { (ls : List CoreLeaf) × AreAllSeen work.now (map placed_of leaves.now) ls }
    ensures { (ls : List CoreLeaf) → AreAllSeen work.now (map placed_of leaves.now) ls →
        OnOk result (Grows live.old live.new (λ o. any (leaf_at o) ls)) }
{
    for leaf in leaves {
        add_live_leaf(alloc, work, leaf, live)?;
    }
    Ok(())
}

/// Adds the places of uses.
fn add_live_uses(uses: &[PlacedTarget], live: &mut BTreeSet<Occ>) -> Mem<()>
    ensures { OnOk result (Grows live.old live.new (λ o. any (use_at o) (map use_of uses.now))) }
{
    for target in uses {
        add_live(target.target.occ, live)?;
    }
    Ok(())
}

/// Adds the places of names in imports and exports of a unit.
fn add_live_unit(names: &[NameUse], live: &mut BTreeSet<Occ>) -> Mem<()>
    ensures { OnOk result (Grows live.old live.new (λ o. any (name_at o) names.now)) }
{
    for name in names {
        add_live(name.target.occ, live)?;
    }
    Ok(())
}

/// Adds the places of names in imports and exports.
fn add_live_units(units: &[Unit], live: &mut BTreeSet<Occ>) -> Mem<()>
    ensures { OnOk result (Grows live.old live.new (λ o. any (name_at o) (all_names units.now))) }
{
    for unit in units {
        add_live_unit(unit.names.as_slice(), live)?;
    }
    Ok(())
}

/// The live occurrences of a program with these leaves, keywords and matched literals.
pub fn live_in(
    alloc: Global,
    work: &Work,
    leaves: &[PlacedLeaf<'_>],
    met: &[PlacedTarget],
    program: &Program,
) -> Mem<BTreeSet<Occ>>
    requires { (ls : List CoreLeaf) × AreAllSeen work.now (map placed_of leaves.now) ls }
    ensures { (ls : List CoreLeaf) → AreAllSeen work.now (map placed_of leaves.now) ls →
        IfOk result (λ live. (o : AnyOcc) →
        contains occ_cmp live o ≡ ((any (leaf_at o) ls || any (use_at o) (map use_of met.now)) || any (name_at o) (all_names program.now.units))) }
{
    let mut live = BTreeSet::new(alloc);
    add_live_leaves(alloc, work, leaves, &mut live)?;
    add_live_uses(met, &mut live)?;
    add_live_units(program.units.as_slice(), &mut live)?;
    Ok(live)
}
