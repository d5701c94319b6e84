//! The binders of an occurrence.
ghost use Rattle.std.specs.Prelude.{◌≡◌, ◌↔◌, ℕ, ◌++◌, List, map, IfOk, OnOk};
ghost use Rattle.std.specs.List.{Contains, flat_map};
ghost use Rattle.std.specs.List.Sorted.{IsStrictlySortedBy};
ghost use Rattle.scheme_model.specs.declared.Occ.{Occ as AnyOcc};
ghost use Rattle.scheme_model.specs.Entries.{same_occ};
ghost use Rattle.scheme_model.specs.Live.{CoreLeaf};
ghost use Rattle.scheme_model.specs.ProgramArrows.{any, arrows_of, leaf_binders, itself_among, binders_at, binders_in as program_binders};
ghost use Rattle.scheme_model.specs.IncludedUnits.{Placed};
ghost use Rattle.scheme_model.specs.Program.{Program as ModelProgram};
ghost use Rattle.scheme_model.specs.Requirements.{LibraryName};
ghost use Rattle.core_tree.specs.Units.{ProgramStands};
ghost use Rattle.program_leaves.specs.Formed.{AreFormedIn};
ghost use Rattle.program_leaves.specs.Leaves.{seen_of, IsSeen};
ghost use Rattle.program_leaves.specs.Members.{IsIn};
ghost use Rattle.program_leaves.specs.Placed.{occ_cmp, placed_of, AreAllSeen};
ghost use Rattle.program_leaves.specs.Pairs.{AreArrows, AreOccs};
ghost use Rattle.program_leaves.specs.Sights.{SeesProgram};
ghost use Rattle.arrow_index.specs.Binders.{defined_places, form_places, unit_places, binders_with};

use core_tree::cores::Binder;
use core_tree::units::{Program, Unit, UnitForm};
use ls_base::{Items, Mem};
use program_leaves::leaves::Leaf;
use program_leaves::pairs::Pair;
use program_leaves::sight::{PlacedLeaf, Sight};
use program_leaves::variables::{add_place, add_rules_binders};
use scheme_model::Occ;
use std::alloc::Global;
use syntax_tree::trees::Work;

/// Adds the places of what a leaf binds: a binder, or pattern variables.
fn add_leaf_binders(
    alloc: Global,
    work: &Work,
    leaf: &PlacedLeaf<'_>,
    places: &mut Vec<Occ>,
) -> Mem<()>
    requires { (ls : List CoreLeaf) × IsSeen work.now leaf.now.at.unit leaf.now.at.form (seen_of leaf.now.leaf) ls }
    ensures { (ls : List CoreLeaf) → IsSeen work.now leaf.now.at.unit leaf.now.at.form (seen_of leaf.now.leaf) ls →
        OnOk result (places.new.items ≡ places.old.items ++ leaf_binders ls) }
{
    match leaf.leaf {
        Leaf::Binds { local: _, binder } => Ok(add_place(binder.occ, places)?),
        Leaf::Defines(definition) => Ok(add_rules_binders(alloc, work, &definition.rules, places)?),
        Leaf::Uses(_) => Ok(()),
        Leaf::Assigns(_) => Ok(()),
        Leaf::Quoted(_) => Ok(()),
        Leaf::Holed { .. } => Ok(()),
    }
}

/// Adds the places of what leaves bind.
fn add_core_binders(
    alloc: Global,
    work: &Work,
    leaves: &[PlacedLeaf<'_>],
    places: &mut Vec<Occ>,
) -> Mem<()>
    requires { (ls : List CoreLeaf) × AreAllSeen work.now (map placed_of leaves.now) ls }
    ensures { (ls : List CoreLeaf) → AreAllSeen work.now (map placed_of leaves.now) ls →
        OnOk result (places.new.items ≡ places.old.items ++ leaf_binders ls) }
{
    for leaf in leaves {
        add_leaf_binders(alloc, work, leaf, places)?;
    }
    Ok(())
}

/// Adds the places of definitions.
fn add_defined_places(binders: &[Binder], places: &mut Vec<Occ>) -> Mem<()>
    ensures { OnOk result (places.new.items ≡ places.old.items ++ defined_places binders.now) }
{
    for binder in binders {
        add_place(binder.occ, places)?;
    }
    Ok(())
}

/// Adds the places of what the forms of a unit define.
fn add_form_places(forms: &[UnitForm], places: &mut Vec<Occ>) -> Mem<()>
    ensures { OnOk result (places.new.items ≡ places.old.items ++ form_places forms.now) }
{
    for form in forms {
        add_defined_places(form.trace.definitions.as_slice(), places)?;
    }
    Ok(())
}

/// Adds the places of what units define.
fn add_unit_places(units: &[Unit], places: &mut Vec<Occ>) -> Mem<()>
    ensures { OnOk result (places.new.items ≡ places.old.items ++ unit_places units.now) }
{
    for unit in units {
        add_form_places(unit.forms.as_slice(), places)?;
    }
    Ok(())
}

/// What binds in a program: the binders in cores, the pattern variables of rules, and what units define.
pub fn binders_in(alloc: Global, work: &Work, sight: &Sight<'_>, program: &Program) -> Mem<Vec<Occ>>
    requires { (ls : List CoreLeaf) × AreAllSeen work.now (map placed_of sight.now.leaves.items) ls }
    ensures { (text : LibraryName → List ℕ) (uris : List (List ℕ)) (all : List Placed) (p : ModelProgram) →
        ProgramStands work.now text uris all program.now p → SeesProgram work.now sight.now all p →
        IfOk result (λ places. (o : AnyOcc) → IsIn o places.items ↔ IsIn o (program_binders p)) }
{
    let mut places = Vec::new(alloc);
    add_core_binders(alloc, work, sight.leaves.as_slice(), &mut places)?;
    add_unit_places(program.units.as_slice(), &mut places)?;
    Ok(places)
}

/// Whether an occurrence is among some.
fn is_among(places: &[Occ], occ: Occ) -> bool
    ensures { result ≡ any (λ p. same_occ p occ) places.now }
{
    for place in places {
        if *place == occ {
            return true;
        }
    }
    false
}

/// Adds an occurrence, where it is among some.
fn add_itself(places: &[Occ], occ: Occ, binders: &mut Vec<Occ>) -> Mem<()>
    ensures { OnOk result (binders.new.items ≡ binders.old.items ++ itself_among places.now occ) }
{
    if is_among(places, occ) {
        return Ok(binders.push(occ)?);
    }
    Ok(())
}

/// Adds the binder of a pair that points to an occurrence.
fn add_pointing(pair: &Pair, occ: Occ, binders: &mut Vec<Occ>) -> Mem<()>
    ensures { OnOk result (binders.new.items ≡ binders.old.items ++ binders_with occ pair.now) }
{
    if pair.target == occ {
        return Ok(binders.push(pair.binder)?);
    }
    Ok(())
}

/// The binders with an arrow to an occurrence.
fn pointing(alloc: Global, pairs: &[Pair], occ: Occ) -> Mem<Vec<Occ>>
    ensures { IfOk result (λ binders. binders.items ≡ flat_map (binders_with occ) pairs.now) }
{
    let mut binders = Vec::new(alloc);
    for pair in pairs {
        add_pointing(pair, occ, &mut binders)?;
    }
    Ok(binders)
}

/// Occurrences in order, each once.
pub fn occs_in_order(places: Vec<Occ>) -> Mem<Items<Occ>>
    ensures { IfOk result (λ sorted. IsStrictlySortedBy occ_cmp sorted × ((o : AnyOcc) → Contains sorted o ↔ Contains places.items o)) }
{
    let mut places = places;
    places.sort()?;
    places.dedup();
    Ok(Items::from_vec(places))
}

/// The binders of an occurrence, in order: itself where it is among what binds, and each that has an arrow to it.
pub fn binders_among(alloc: Global, places: &[Occ], pairs: &[Pair], occ: Occ) -> Mem<Items<Occ>>
    ensures { (all : List Placed) (p : ModelProgram) → ((o : AnyOcc) → IsIn o places.now ↔ IsIn o (program_binders p)) → AreArrows pairs.now (arrows_of all p) →
        IfOk result (λ binders. AreOccs binders (binders_at (program_binders p) (arrows_of all p) occ)) }
{
    let mut binders = pointing(alloc, pairs, occ)?;
    add_itself(places, occ, &mut binders)?;
    Ok(occs_in_order(binders)?)
}

/// The binders of an occurrence, in order: itself where it binds, and each that has an arrow to it. The pairs are those of the program.
pub fn binders_of(
    alloc: Global,
    work: &Work,
    program: &Program,
    pairs: &[Pair],
    occ: Occ,
) -> Mem<Items<Occ>>
    requires { AreFormedIn work.now program.now.units }
    ensures { (text : LibraryName → List ℕ) (uris : List (List ℕ)) (all : List Placed) (p : ModelProgram) →
        ProgramStands work.now text uris all program.now p → AreArrows pairs.now (arrows_of all p) →
        IfOk result (λ binders. AreOccs binders (binders_at (program_binders p) (arrows_of all p) occ)) }
{
    let sight = Sight::of(alloc, work, program)?;
    let places = binders_in(alloc, work, &sight, program)?;
    Ok(binders_among(alloc, places.as_slice(), pairs, occ)?)
}
