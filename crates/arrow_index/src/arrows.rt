//! The arrows of a program, from binders to uses.
ghost use Rattle.std.specs.Prelude.{◌≡◌, ℕ, ◌++◌, ◌↔◌, ◌||◌, not, [], ◌∷◌, List, map, IfOk, OnOk};
ghost use Rattle.scheme_model.specs.Cores.{Target as ModelTarget, RuleLeaf as ModelLeaf};
ghost use Rattle.scheme_model.specs.Live.{CoreLeaf, NameUse as ModelName};
ghost use Rattle.scheme_model.specs.Meaning.{Meaning as ModelMeaning};
ghost use Rattle.scheme_model.specs.Substitution.{Table};
ghost use Rattle.scheme_model.specs.ProgramArrows.{Arrow, binder_of, is_live_at, arrow_of, target_arrows, name_arrows, leaf_arrows, arrows_of};
ghost use Rattle.scheme_model.specs.IncludedUnits.{Placed};
ghost use Rattle.scheme_model.specs.Program.{Program as ModelProgram};
ghost use Rattle.scheme_model.specs.Requirements.{LibraryName};
ghost use Rattle.syntax_tree.specs.Meant.{IsMeaning};
ghost use Rattle.syntax_tree.specs.declared.trees.Work.{Work as AnyWork};
ghost use Rattle.core_tree.specs.Names.{AllMatch, IsLeaf};
ghost use Rattle.core_tree.specs.Units.{ProgramStands};
ghost use Rattle.program_leaves.specs.Formed.{AreFormedIn};
ghost use Rattle.program_leaves.specs.Members.{IsIn};
ghost use Rattle.program_leaves.specs.Placed.{placed_of, use_of, AreAllSeen, IsUseOf};
ghost use Rattle.program_leaves.specs.Leaves.{seen_of, IsSeen};
ghost use Rattle.program_leaves.specs.Sights.{Sees, SeesProgram, all_names, IsNameOf};
ghost use Rattle.program_leaves.specs.Pairs.{as_arrow, AreArrows};
ghost use Rattle.program_leaves.specs.Variables.{all_arrows_at};

use core_tree::cores::RuleLeaf;
use core_tree::units::{NameUse, Program, Unit};
use ls_base::{Items, Mem};
use program_leaves::leaves::Leaf;
use program_leaves::pairs::{Pair, pairs_in_order};
use program_leaves::sight::{FormNo, PlacedLeaf, PlacedTarget, Sight};
use program_leaves::variables::{add_arrow, add_rules_arrows};
use scheme_model::Occ;
use std::alloc::Global;
use syntax_tree::meaning::Meaning;
use syntax_tree::trees::Work;

/// Adds the arrow from what binds a meaning in a form to a place.
fn add_meant(
    sight: &Sight<'_>,
    at: FormNo,
    meaning: Meaning,
    place: Option<Occ>,
    pairs: &mut Vec<Pair>,
) -> Mem<()>
    ensures { (work : AnyWork) (leaves : List CoreLeaf) (keywords : List ModelTarget) (names : List ModelName) (table : Table) (m : ModelMeaning) →
        Sees work sight.now leaves keywords names table → IsMeaning work.symbols at.unit at.form meaning m →
        OnOk result (map as_arrow pairs.new.items ≡ map as_arrow pairs.old.items ++ arrow_of (binder_of leaves table m) place) }
{
    let binder = sight.binder_of(at, meaning);
    Ok(add_arrow(binder, place, pairs)?)
}

/// Whether a leaf of rules has an arrow by what it means where its macro is defined: a literal, or one that isn't live.
pub fn is_static(sight: &Sight<'_>, leaf: &RuleLeaf) -> bool
    ensures { (work : AnyWork) (leaves : List CoreLeaf) (keywords : List ModelTarget) (names : List ModelName) (table : Table) →
        Sees work sight.now leaves keywords names table → result ≡ (leaf.now.literal || not (is_live_at leaves keywords names leaf.now.target.occ)) }
{
    leaf.literal || !sight.is_live(leaf.target.occ)
}

/// Adds the arrow to a leaf of rules, where it has one by what it means where the macro is defined.
fn add_rule_leaf(sight: &Sight<'_>, at: FormNo, leaf: &RuleLeaf, pairs: &mut Vec<Pair>) -> Mem<()>
    ensures { (work : AnyWork) (leaves : List CoreLeaf) (keywords : List ModelTarget) (names : List ModelName) (table : Table) (m : ModelLeaf) →
        Sees work sight.now leaves keywords names table → IsLeaf work.symbols at.unit at.form leaf.now m →
        OnOk result (map as_arrow pairs.new.items ≡ map as_arrow pairs.old.items ++ leaf_arrows (binder_of leaves table) (is_live_at leaves keywords names) (m ∷ [])) }
{
    if is_static(sight, leaf) {
        return Ok(add_meant(sight, at, leaf.target.meaning, leaf.target.occ, pairs)?);
    }
    Ok(())
}

/// Adds the arrows to leaves of rules, by what they mean where their macro is defined.
fn add_static(sight: &Sight<'_>, at: FormNo, found: &[RuleLeaf], pairs: &mut Vec<Pair>) -> Mem<()>
    ensures { (work : AnyWork) (leaves : List CoreLeaf) (keywords : List ModelTarget) (names : List ModelName) (table : Table) (ms : List ModelLeaf) →
        Sees work sight.now leaves keywords names table → AllMatch (IsLeaf work.symbols at.unit at.form) found.now ms →
        OnOk result (map as_arrow pairs.new.items ≡ map as_arrow pairs.old.items ++ leaf_arrows (binder_of leaves table) (is_live_at leaves keywords names) ms) }
{
    for leaf in found {
        add_rule_leaf(sight, at, leaf, pairs)?;
    }
    Ok(())
}

/// Adds the arrows that a leaf of a core gives.
fn add_leaf(
    alloc: Global,
    work: &Work,
    sight: &Sight<'_>,
    leaf: &PlacedLeaf<'_>,
    pairs: &mut Vec<Pair>,
) -> Mem<()>
    requires { (ls : List CoreLeaf) × IsSeen work.now leaf.now.at.unit leaf.now.at.form (seen_of leaf.now.leaf) ls }
    ensures { (leaves : List CoreLeaf) (keywords : List ModelTarget) (names : List ModelName) (table : Table) (ls : List CoreLeaf) →
        Sees work.now sight.now leaves keywords names table → IsSeen work.now leaf.now.at.unit leaf.now.at.form (seen_of leaf.now.leaf) ls →
        OnOk result (map as_arrow pairs.new.items ≡ map as_arrow pairs.old.items ++ all_arrows_at (binder_of leaves table) (is_live_at leaves keywords names) ls) }
{
    match leaf.leaf {
        Leaf::Binds { .. } => Ok(()),
        Leaf::Uses(target) => Ok(add_meant(sight, leaf.at, target.meaning, target.occ, pairs)?),
        Leaf::Assigns(target) => Ok(add_meant(sight, leaf.at, target.meaning, target.occ, pairs)?),
        Leaf::Quoted(_) => Ok(()),
        Leaf::Holed { .. } => Ok(()),
        Leaf::Defines(definition) => {
            add_rules_arrows(alloc, work, &definition.rules, pairs)?;
            Ok(add_static(sight, leaf.at, definition.leaves.as_slice(), pairs)?)
        }
    }
}

/// Adds the arrows that leaves of cores give.
fn add_leaves(
    alloc: Global,
    work: &Work,
    sight: &Sight<'_>,
    found: &[PlacedLeaf<'_>],
    pairs: &mut Vec<Pair>,
) -> Mem<()>
    requires { (ls : List CoreLeaf) × AreAllSeen work.now (map placed_of found.now) ls }
    ensures { (leaves : List CoreLeaf) (keywords : List ModelTarget) (names : List ModelName) (table : Table) (ls : List CoreLeaf) →
        Sees work.now sight.now leaves keywords names table → AreAllSeen work.now (map placed_of found.now) ls →
        OnOk result (map as_arrow pairs.new.items ≡ map as_arrow pairs.old.items ++ all_arrows_at (binder_of leaves table) (is_live_at leaves keywords names) ls) }
{
    for leaf in found {
        add_leaf(alloc, work, sight, leaf, pairs)?;
    }
    Ok(())
}

/// Adds the arrows to keywords and matched literals.
fn add_met(sight: &Sight<'_>, met: &[PlacedTarget], pairs: &mut Vec<Pair>) -> Mem<()>
    ensures { (work : AnyWork) (leaves : List CoreLeaf) (keywords : List ModelTarget) (names : List ModelName) (table : Table) (ts : List ModelTarget) →
        Sees work sight.now leaves keywords names table → AllMatch (IsUseOf work) (map use_of met.now) ts →
        OnOk result (map as_arrow pairs.new.items ≡ map as_arrow pairs.old.items ++ target_arrows (binder_of leaves table) ts) }
{
    for target in met {
        add_meant(
            sight,
            target.at,
            target.target.meaning,
            target.target.occ,
            pairs,
        )?;
    }
    Ok(())
}

/// Adds the arrows to names of imports and exports, which mean the same in each form.
fn add_unit_names(sight: &Sight<'_>, found: &[NameUse], pairs: &mut Vec<Pair>) -> Mem<()>
    ensures { (work : AnyWork) (leaves : List CoreLeaf) (keywords : List ModelTarget) (names : List ModelName) (table : Table) (ns : List ModelName) →
        Sees work sight.now leaves keywords names table → AllMatch (IsNameOf work) found.now ns →
        OnOk result (map as_arrow pairs.new.items ≡ map as_arrow pairs.old.items ++ name_arrows (binder_of leaves table) ns) }
{
    for name in found {
        let at = FormNo { unit: 0, form: 0 };
        add_meant(sight, at, name.target.meaning, name.target.occ, pairs)?;
    }
    Ok(())
}

/// Adds the arrows to names of imports and exports of units.
fn add_all_names(sight: &Sight<'_>, units: &[Unit], pairs: &mut Vec<Pair>) -> Mem<()>
    ensures { (work : AnyWork) (leaves : List CoreLeaf) (keywords : List ModelTarget) (names : List ModelName) (table : Table) (ns : List ModelName) →
        Sees work sight.now leaves keywords names table → AllMatch (IsNameOf work) (all_names units.now) ns →
        OnOk result (map as_arrow pairs.new.items ≡ map as_arrow pairs.old.items ++ name_arrows (binder_of leaves table) ns) }
{
    for unit in units {
        add_unit_names(sight, unit.names.as_slice(), pairs)?;
    }
    Ok(())
}

/// The arrows of a program in no order, of which some may stand twice.
fn all_arrows(alloc: Global, work: &Work, sight: &Sight<'_>, program: &Program) -> Mem<Vec<Pair>>
    requires { (ls : List CoreLeaf) × AreAllSeen work.now (map placed_of sight.now.leaves.items) ls }
    ensures { (text : LibraryName → List ℕ) (uris : List (List ℕ)) (all : List Placed) (p : ModelProgram) →
        ProgramStands work.now text uris all program.now p → SeesProgram work.now sight.now all p →
        IfOk result (λ pairs. (a : Arrow) → IsIn a (map as_arrow pairs.items) ↔ IsIn a (arrows_of all p)) }
{
    let mut pairs = Vec::new(alloc);
    add_leaves(alloc, work, sight, sight.leaves.as_slice(), &mut pairs)?;
    add_met(sight, sight.met.as_slice(), &mut pairs)?;
    add_all_names(sight, program.units.as_slice(), &mut pairs)?;
    Ok(pairs)
}

/// The arrows of a program that is seen already, in order, each once.
pub fn arrows_seen(
    alloc: Global,
    work: &Work,
    sight: &Sight<'_>,
    program: &Program,
) -> Mem<Items<Pair>>
    requires { (ls : List CoreLeaf) × AreAllSeen work.now (map placed_of sight.now.leaves.items) ls }
    ensures { (text : LibraryName → List ℕ) (uris : List (List ℕ)) (all : List Placed) (p : ModelProgram) →
        ProgramStands work.now text uris all program.now p → SeesProgram work.now sight.now all p → IfOk result (λ pairs. AreArrows pairs (arrows_of all p)) }
{
    let pairs = all_arrows(alloc, work, sight, program)?;
    Ok(pairs_in_order(pairs)?)
}

/// The arrows of a program: the pairs of a binder and one of its uses, sorted by binder and use, each once.
pub fn arrows(alloc: Global, work: &Work, program: &Program) -> Mem<Items<Pair>>
    requires { AreFormedIn work.now program.now.units }
    ensures { (text : LibraryName → List ℕ) (uris : List (List ℕ)) (all : List Placed) (p : ModelProgram) →
        ProgramStands work.now text uris all program.now p → IfOk result (λ pairs. AreArrows pairs (arrows_of all p)) }
{
    let sight = Sight::of(alloc, work, program)?;
    Ok(arrows_seen(alloc, work, &sight, program)?)
}
