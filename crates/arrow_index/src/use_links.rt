//! The links of uses, of names in imports and exports, and of macros.
ghost use Rattle.std.specs.Prelude.{◌≡◌, ◌++◌, ◌∷◌, [], List, Some, map, OnOk};
ghost use Rattle.scheme_model.specs.Cores.{Target as ModelTarget, RuleLeaf as ModelLeaf};
ghost use Rattle.scheme_model.specs.Live.{CoreLeaf, NameUse as ModelName};
ghost use Rattle.scheme_model.specs.Program.{UnitResult};
ghost use Rattle.scheme_model.specs.ProgramArrows.{is_live_at, core_targets};
ghost use Rattle.scheme_model.specs.Substitution.{Table};
ghost use Rattle.scheme_model.specs.Spelling.{links_at, links_to_themselves, target_origins, target_links, name_links, leaf_targets, macro_links};
ghost use Rattle.core_tree.specs.Names.{AllMatch, IsTarget, IsLeaf};
ghost use Rattle.program_leaves.specs.Leaves.{seen_of, IsSeen};
ghost use Rattle.program_leaves.specs.Placed.{placed_of, use_of, AreAllSeen, IsUseOf};
ghost use Rattle.program_leaves.specs.Sights.{Sees, IsNameOf, all_names, all_seconds};
ghost use Rattle.program_leaves.specs.Entries.{Gives};
ghost use Rattle.arrow_index.specs.Links.{as_link};

use crate::arrows::is_static;
use crate::ident_links::link_ident;
use crate::links::{Link, add_link, link_arrows, link_origins, link_themselves};
use core_tree::cores::{RuleLeaf, Target};
use core_tree::units::{NameUse, Unit};
use ls_base::Mem;
use program_leaves::entries::Entries;
use program_leaves::leaves::Leaf;
use program_leaves::sight::{FormNo, PlacedLeaf, PlacedTarget, Sight};
use program_leaves::variables::add_rules_arrows;
use scheme_model::Occ;
use std::alloc::Global;
use syntax_tree::meaning::Meaning;
use syntax_tree::trees::Work;

/// Adds the links of a use at a place.
fn link_placed(
    alloc: Global,
    work: &Work,
    sight: &Sight<'_>,
    entries: &Entries<'_>,
    at: FormNo,
    target: Target,
    occ: Occ,
    links: &mut Vec<Link>,
) -> Mem<()>
    requires target { (t : ModelTarget) × IsTarget work.now.symbols at.unit at.form target t }
    requires entries { (rs : List UnitResult) × Gives work.now.symbols entries.now.units.items rs }
    ensures { (leaves : List CoreLeaf) (keywords : List ModelTarget) (names : List ModelName) (table : Table) (rs : List UnitResult) (t : ModelTarget) →
        Sees work.now sight.now leaves keywords names table → Gives work.now.symbols entries.now.units.items rs → IsTarget work.now.symbols at.unit at.form target t →
        OnOk result (map as_link links.new.items ≡ map as_link links.old.items ++ links_at (Some occ) (target_origins leaves table rs t)) }
{
    match target.meaning {
        Meaning::Local(count) => {
            let place = sight.local_at(at, count);
            Ok(add_link(alloc, place, occ, links)?)
        }
        Meaning::Global { .. } => Ok(link_ident(
            alloc,
            work,
            sight,
            entries,
            target.ident,
            occ,
            links,
        )?),
        Meaning::Standard(_) => Ok(link_ident(
            alloc,
            work,
            sight,
            entries,
            target.ident,
            occ,
            links,
        )?),
        Meaning::Free(_) => Ok(link_ident(alloc, work, sight, entries, target.ident, occ, links)?),
    }
}

/// Adds the links of a use.
fn link_target(
    alloc: Global,
    work: &Work,
    sight: &Sight<'_>,
    entries: &Entries<'_>,
    at: FormNo,
    target: Target,
    links: &mut Vec<Link>,
) -> Mem<()>
    requires target { (t : ModelTarget) × IsTarget work.now.symbols at.unit at.form target t }
    requires entries { (rs : List UnitResult) × Gives work.now.symbols entries.now.units.items rs }
    ensures { (leaves : List CoreLeaf) (keywords : List ModelTarget) (names : List ModelName) (table : Table) (rs : List UnitResult) (t : ModelTarget) →
        Sees work.now sight.now leaves keywords names table → Gives work.now.symbols entries.now.units.items rs → IsTarget work.now.symbols at.unit at.form target t →
        OnOk result (map as_link links.new.items ≡ map as_link links.old.items ++ links_at t.occ (target_origins leaves table rs t)) }
{
    match target.occ {
        None => Ok(()),
        Some(occ) => Ok(link_placed(alloc, work, sight, entries, at, target, occ, links)?),
    }
}

/// Adds the links of uses.
pub fn link_targets(
    alloc: Global,
    work: &Work,
    sight: &Sight<'_>,
    entries: &Entries<'_>,
    targets: &[PlacedTarget],
    links: &mut Vec<Link>,
) -> Mem<()>
    requires targets { (ts : List ModelTarget) × AllMatch (IsUseOf work.now) (map use_of targets.now) ts }
    requires entries { (rs : List UnitResult) × Gives work.now.symbols entries.now.units.items rs }
    ensures { (leaves : List CoreLeaf) (keywords : List ModelTarget) (names : List ModelName) (table : Table) (rs : List UnitResult) (ts : List ModelTarget) →
        Sees work.now sight.now leaves keywords names table → Gives work.now.symbols entries.now.units.items rs → AllMatch (IsUseOf work.now) (map use_of targets.now) ts →
        OnOk result (map as_link links.new.items ≡ map as_link links.old.items ++ target_links leaves table rs ts) }
{
    for target in targets {
        link_target(alloc, work, sight, entries, target.at, target.target, links)?;
    }
    Ok(())
}

/// Adds the links of a leaf, where it is a use.
fn link_use(
    alloc: Global,
    work: &Work,
    sight: &Sight<'_>,
    entries: &Entries<'_>,
    leaf: &PlacedLeaf<'_>,
    links: &mut Vec<Link>,
) -> Mem<()>
    requires leaf { (ls : List CoreLeaf) × IsSeen work.now leaf.now.at.unit leaf.now.at.form (seen_of leaf.now.leaf) ls }
    requires entries { (rs : List UnitResult) × Gives work.now.symbols entries.now.units.items rs }
    ensures { (leaves : List CoreLeaf) (keywords : List ModelTarget) (names : List ModelName) (table : Table) (rs : List UnitResult) (ls : List CoreLeaf) →
        Sees work.now sight.now leaves keywords names table → Gives work.now.symbols entries.now.units.items rs →
        IsSeen work.now leaf.now.at.unit leaf.now.at.form (seen_of leaf.now.leaf) ls →
        OnOk result (map as_link links.new.items ≡ map as_link links.old.items ++ target_links leaves table rs (core_targets ls)) }
{
    match leaf.leaf {
        Leaf::Uses(target) => Ok(link_target(alloc, work, sight, entries, leaf.at, target, links)?),
        Leaf::Assigns(target) => Ok(link_target(
            alloc, work, sight, entries, leaf.at, target, links,
        )?),
        Leaf::Binds { .. } => Ok(()),
        Leaf::Quoted(_) => Ok(()),
        Leaf::Holed { .. } => Ok(()),
        Leaf::Defines(_) => Ok(()),
    }
}

/// Adds the links of the uses among leaves.
pub fn link_uses(
    alloc: Global,
    work: &Work,
    sight: &Sight<'_>,
    entries: &Entries<'_>,
    found: &[PlacedLeaf<'_>],
    links: &mut Vec<Link>,
) -> Mem<()>
    requires leaves { (ls : List CoreLeaf) × AreAllSeen work.now (map placed_of found.now) ls }
    requires entries { (rs : List UnitResult) × Gives work.now.symbols entries.now.units.items rs }
    ensures { (leaves : List CoreLeaf) (keywords : List ModelTarget) (names : List ModelName) (table : Table) (rs : List UnitResult) (ls : List CoreLeaf) →
        Sees work.now sight.now leaves keywords names table → Gives work.now.symbols entries.now.units.items rs → AreAllSeen work.now (map placed_of found.now) ls →
        OnOk result (map as_link links.new.items ≡ map as_link links.old.items ++ target_links leaves table rs (core_targets ls)) }
{
    for leaf in found {
        link_use(alloc, work, sight, entries, leaf, links)?;
    }
    Ok(())
}

/// Adds the links of a name in an import or an export.
fn link_name(alloc: Global, work: &Work, name: &NameUse, links: &mut Vec<Link>) -> Mem<()>
    requires { (n : ModelName) × IsNameOf work.now name.now n }
    ensures { (n : ModelName) → IsNameOf work.now name.now n →
        OnOk result (map as_link links.new.items ≡ map as_link links.old.items ++ links_at n.occ n.origins) }
{
    match name.target.occ {
        None => Ok(()),
        Some(occ) => Ok(link_origins(
            alloc,
            work,
            name.target.meaning,
            name.origins.as_slice(),
            occ,
            links,
        )?),
    }
}

/// Adds the links of names in imports and exports of a unit.
fn link_names(alloc: Global, work: &Work, found: &[NameUse], links: &mut Vec<Link>) -> Mem<()>
    requires { (ns : List ModelName) × AllMatch (IsNameOf work.now) found.now ns }
    ensures { (ns : List ModelName) → AllMatch (IsNameOf work.now) found.now ns →
        OnOk result (map as_link links.new.items ≡ map as_link links.old.items ++ name_links ns) }
{
    for name in found {
        link_name(alloc, work, name, links)?;
    }
    Ok(())
}

/// Adds the links of names in imports and exports of units.
pub fn link_all_names(alloc: Global, work: &Work, units: &[Unit], links: &mut Vec<Link>) -> Mem<()>
    requires { (ns : List ModelName) × AllMatch (IsNameOf work.now) (all_names units.now) ns }
    ensures { (ns : List ModelName) → AllMatch (IsNameOf work.now) (all_names units.now) ns →
        OnOk result (map as_link links.new.items ≡ map as_link links.old.items ++ name_links ns) }
{
    for unit in units {
        link_names(alloc, work, unit.names.as_slice(), links)?;
    }
    Ok(())
}

/// Adds the links to themselves of the second identifiers of the pairs that imports of units rename by.
pub fn link_seconds(alloc: Global, units: &[Unit], links: &mut Vec<Link>) -> Mem<()>
    ensures { OnOk result (map as_link links.new.items ≡ map as_link links.old.items ++ links_to_themselves (all_seconds units.now)) }
{
    for unit in units {
        link_themselves(alloc, unit.seconds.as_slice(), links)?;
    }
    Ok(())
}

/// Adds the links of a leaf of rules, where they are those of what it means where its macro is defined.
fn link_static(
    alloc: Global,
    work: &Work,
    sight: &Sight<'_>,
    entries: &Entries<'_>,
    at: FormNo,
    leaf: &RuleLeaf,
    links: &mut Vec<Link>,
) -> Mem<()>
    requires leaf { (m : ModelLeaf) × IsLeaf work.now.symbols at.unit at.form leaf.now m }
    requires entries { (rs : List UnitResult) × Gives work.now.symbols entries.now.units.items rs }
    ensures { (leaves : List CoreLeaf) (keywords : List ModelTarget) (names : List ModelName) (table : Table) (rs : List UnitResult) (m : ModelLeaf) →
        Sees work.now sight.now leaves keywords names table → Gives work.now.symbols entries.now.units.items rs → IsLeaf work.now.symbols at.unit at.form leaf.now m →
        OnOk result (map as_link links.new.items ≡ map as_link links.old.items ++ target_links leaves table rs (leaf_targets (is_live_at leaves keywords names) (m ∷ []))) }
{
    if is_static(sight, leaf) {
        return Ok(link_target(alloc, work, sight, entries, at, leaf.target, links)?);
    }
    Ok(())
}

/// Adds the links of leaves of rules.
fn link_statics(
    alloc: Global,
    work: &Work,
    sight: &Sight<'_>,
    entries: &Entries<'_>,
    at: FormNo,
    found: &[RuleLeaf],
    links: &mut Vec<Link>,
) -> Mem<()>
    requires leaves { (ms : List ModelLeaf) × AllMatch (IsLeaf work.now.symbols at.unit at.form) found.now ms }
    requires entries { (rs : List UnitResult) × Gives work.now.symbols entries.now.units.items rs }
    ensures { (leaves : List CoreLeaf) (keywords : List ModelTarget) (names : List ModelName) (table : Table) (rs : List UnitResult) (ms : List ModelLeaf) →
        Sees work.now sight.now leaves keywords names table → Gives work.now.symbols entries.now.units.items rs → AllMatch (IsLeaf work.now.symbols at.unit at.form) found.now ms →
        OnOk result (map as_link links.new.items ≡ map as_link links.old.items ++ target_links leaves table rs (leaf_targets (is_live_at leaves keywords names) ms)) }
{
    for leaf in found {
        link_static(alloc, work, sight, entries, at, leaf, links)?;
    }
    Ok(())
}

/// Adds the links in a leaf, where it is the definition of a macro.
fn link_macro(
    alloc: Global,
    work: &Work,
    sight: &Sight<'_>,
    entries: &Entries<'_>,
    leaf: &PlacedLeaf<'_>,
    links: &mut Vec<Link>,
) -> Mem<()>
    requires leaf { (ls : List CoreLeaf) × IsSeen work.now leaf.now.at.unit leaf.now.at.form (seen_of leaf.now.leaf) ls }
    requires entries { (rs : List UnitResult) × Gives work.now.symbols entries.now.units.items rs }
    ensures { (leaves : List CoreLeaf) (keywords : List ModelTarget) (names : List ModelName) (table : Table) (rs : List UnitResult) (ls : List CoreLeaf) →
        Sees work.now sight.now leaves keywords names table → Gives work.now.symbols entries.now.units.items rs →
        IsSeen work.now leaf.now.at.unit leaf.now.at.form (seen_of leaf.now.leaf) ls →
        OnOk result (map as_link links.new.items ≡ map as_link links.old.items ++ macro_links (is_live_at leaves keywords names) leaves table rs ls) }
{
    match leaf.leaf {
        Leaf::Defines(definition) => {
            let mut pairs = Vec::new(alloc);
            add_rules_arrows(alloc, work, &definition.rules, &mut pairs)?;
            link_arrows(alloc, pairs.as_slice(), links)?;
            Ok(link_statics(
                alloc,
                work,
                sight,
                entries,
                leaf.at,
                definition.leaves.as_slice(),
                links,
            )?)
        }
        Leaf::Uses(_) => Ok(()),
        Leaf::Assigns(_) => Ok(()),
        Leaf::Binds { .. } => Ok(()),
        Leaf::Quoted(_) => Ok(()),
        Leaf::Holed { .. } => Ok(()),
    }
}

/// Adds the links in the macros among leaves.
pub fn link_macros(
    alloc: Global,
    work: &Work,
    sight: &Sight<'_>,
    entries: &Entries<'_>,
    found: &[PlacedLeaf<'_>],
    links: &mut Vec<Link>,
) -> Mem<()>
    requires leaves { (ls : List CoreLeaf) × AreAllSeen work.now (map placed_of found.now) ls }
    requires entries { (rs : List UnitResult) × Gives work.now.symbols entries.now.units.items rs }
    ensures { (leaves : List CoreLeaf) (keywords : List ModelTarget) (names : List ModelName) (table : Table) (rs : List UnitResult) (ls : List CoreLeaf) →
        Sees work.now sight.now leaves keywords names table → Gives work.now.symbols entries.now.units.items rs → AreAllSeen work.now (map placed_of found.now) ls →
        OnOk result (map as_link links.new.items ≡ map as_link links.old.items ++ macro_links (is_live_at leaves keywords names) leaves table rs ls) }
{
    for leaf in found {
        link_macro(alloc, work, sight, entries, leaf, links)?;
    }
    Ok(())
}
