//! Where a program is written and where it is read (LSP 3.17, DocumentHighlightKind).
ghost use Rattle.std.specs.Prelude.{◌≡◌, ℕ, ◌++◌, ◌↔◌, List, map, IfOk, OnOk};
ghost use Rattle.scheme_model.specs.declared.Occ.{Occ as AnyOcc};
ghost use Rattle.scheme_model.specs.Live.{CoreLeaf};
ghost use Rattle.scheme_model.specs.IncludedUnits.{Placed};
ghost use Rattle.scheme_model.specs.Program.{Program as ModelProgram};
ghost use Rattle.scheme_model.specs.ProgramArrows.{binders_in as program_binders};
ghost use Rattle.scheme_model.specs.Requirements.{LibraryName};
ghost use Rattle.syntax_tree.specs.declared.trees.Work.{Work as AnyWork};
ghost use Rattle.core_tree.specs.Units.{ProgramStands};
ghost use Rattle.scheme_model.specs.Accesses.{assigned_in, referred_in, written_in as program_written, read_in as program_read};
ghost use Rattle.program_leaves.specs.Pairs.{AreOccs};
ghost use Rattle.arrow_index.specs.Keywords.{core_places, macro_places, trace_places, keyword_places, forms_keywords, units_keywords};
ghost use Rattle.program_leaves.specs.Leaves.{seen_of, IsSeen};
ghost use Rattle.program_leaves.specs.Members.{IsIn};
ghost use Rattle.program_leaves.specs.Placed.{placed_of, AreAllSeen};
ghost use Rattle.program_leaves.specs.Sights.{SeesProgram};

use crate::binders::occs_in_order;
use core_tree::cores::Target;
use core_tree::traces::{MacroUse, Trace};
use core_tree::units::{Program, Unit, UnitForm};
use ls_base::{Items, Mem};
use program_leaves::leaves::Leaf;
use program_leaves::sight::{PlacedLeaf, Sight};
use program_leaves::variables::add_place;
use scheme_model::Occ;
use std::alloc::Global;

// ---- leaves

/// Adds the place of what a leaf assigns.
fn add_assigned(leaf: &PlacedLeaf<'_>, places: &mut Vec<Occ>) -> Mem<()>
    ensures { (work : AnyWork) (ls : List CoreLeaf) → IsSeen work leaf.now.at.unit leaf.now.at.form (seen_of leaf.now.leaf) ls →
        OnOk result (places.new.items ≡ places.old.items ++ assigned_in ls) }
{
    match leaf.leaf {
        Leaf::Assigns(target) => Ok(add_place(target.occ, places)?),
        Leaf::Binds { .. } => Ok(()),
        Leaf::Uses(_) => Ok(()),
        Leaf::Quoted(_) => Ok(()),
        Leaf::Holed { .. } => Ok(()),
        Leaf::Defines(_) => Ok(()),
    }
}

/// Adds the places of what leaves assign.
fn add_all_assigned(leaves: &[PlacedLeaf<'_>], places: &mut Vec<Occ>) -> Mem<()>
    ensures { (work : AnyWork) (ls : List CoreLeaf) → AreAllSeen work (map placed_of leaves.now) ls →
        OnOk result (places.new.items ≡ places.old.items ++ assigned_in ls) }
{
    for leaf in leaves {
        add_assigned(leaf, places)?;
    }
    Ok(())
}

/// Adds the place where a leaf refers.
fn add_referred(leaf: &PlacedLeaf<'_>, places: &mut Vec<Occ>) -> Mem<()>
    ensures { (work : AnyWork) (ls : List CoreLeaf) → IsSeen work leaf.now.at.unit leaf.now.at.form (seen_of leaf.now.leaf) ls →
        OnOk result (places.new.items ≡ places.old.items ++ referred_in ls) }
{
    match leaf.leaf {
        Leaf::Uses(target) => Ok(add_place(target.occ, places)?),
        Leaf::Binds { .. } => Ok(()),
        Leaf::Assigns(_) => Ok(()),
        Leaf::Quoted(_) => Ok(()),
        Leaf::Holed { .. } => Ok(()),
        Leaf::Defines(_) => Ok(()),
    }
}

/// Adds the places where leaves refer.
fn add_all_referred(leaves: &[PlacedLeaf<'_>], places: &mut Vec<Occ>) -> Mem<()>
    ensures { (work : AnyWork) (ls : List CoreLeaf) → AreAllSeen work (map placed_of leaves.now) ls →
        OnOk result (places.new.items ≡ places.old.items ++ referred_in ls) }
{
    for leaf in leaves {
        add_referred(leaf, places)?;
    }
    Ok(())
}

// ---- keywords

/// Adds the places of keywords of core forms.
fn add_core_keywords(keywords: &[Target], places: &mut Vec<Occ>) -> Mem<()>
    ensures { OnOk result (places.new.items ≡ places.old.items ++ core_places keywords.now) }
{
    for keyword in keywords {
        add_place(keyword.occ, places)?;
    }
    Ok(())
}

/// Adds the places of the keywords of macro uses.
fn add_macro_keywords(uses: &[MacroUse], places: &mut Vec<Occ>) -> Mem<()>
    ensures { OnOk result (places.new.items ≡ places.old.items ++ macro_places uses.now) }
{
    for macro_use in uses {
        add_place(macro_use.keyword.occ, places)?;
    }
    Ok(())
}

/// Adds the places of the keywords that the expansion of a form met.
fn add_trace_keywords(trace: &Trace, places: &mut Vec<Occ>) -> Mem<()>
    ensures { OnOk result (places.new.items ≡ places.old.items ++ trace_places trace.now) }
{
    add_core_keywords(trace.keywords.as_slice(), places)?;
    Ok(add_macro_keywords(trace.uses.as_slice(), places)?)
}

/// Adds the places of the keywords of a form, unless it is broken.
fn add_form_keywords(form: &UnitForm, places: &mut Vec<Occ>) -> Mem<()>
    ensures { OnOk result (places.new.items ≡ places.old.items ++ keyword_places form.now) }
{
    match form.fault {
        Some(_) => Ok(()),
        None => Ok(add_trace_keywords(&form.trace, places)?),
    }
}

/// Adds the places of the keywords of a unit's forms.
fn add_unit_keywords(forms: &[UnitForm], places: &mut Vec<Occ>) -> Mem<()>
    ensures { OnOk result (places.new.items ≡ places.old.items ++ forms_keywords forms.now) }
{
    for form in forms {
        add_form_keywords(form, places)?;
    }
    Ok(())
}

/// Adds the places of the keywords of units.
fn add_all_keywords(units: &[Unit], places: &mut Vec<Occ>) -> Mem<()>
    ensures { OnOk result (places.new.items ≡ places.old.items ++ units_keywords units.now) }
{
    for unit in units {
        add_unit_keywords(unit.forms.as_slice(), places)?;
    }
    Ok(())
}

// ---- a program

/// Where a program is written, in order: what binds, of which these are the places, and what is assigned.
pub fn written_in(alloc: Global, sight: &Sight<'_>, binders: &[Occ]) -> Mem<Items<Occ>>
    ensures { (work : AnyWork) (all : List Placed) (p : ModelProgram) → SeesProgram work sight.now all p → ((o : AnyOcc) → IsIn o binders.now ↔ IsIn o (program_binders p)) →
        IfOk result (λ written. AreOccs written (program_written p)) }
{
    let mut places = Vec::new(alloc);
    places.extend_from_slice(binders)?;
    add_all_assigned(sight.leaves.as_slice(), &mut places)?;
    Ok(occs_in_order(places)?)
}

/// Where a program is read, in order: what refers, and keywords.
pub fn read_in(alloc: Global, sight: &Sight<'_>, program: &Program) -> Mem<Items<Occ>>
    ensures { (work : AnyWork) (text : LibraryName → List ℕ) (uris : List (List ℕ)) (all : List Placed) (p : ModelProgram) →
        ProgramStands work text uris all program.now p → SeesProgram work sight.now all p → IfOk result (λ read. AreOccs read (program_read p)) }
{
    let mut places = Vec::new(alloc);
    add_all_referred(sight.leaves.as_slice(), &mut places)?;
    add_all_keywords(program.units.as_slice(), &mut places)?;
    Ok(occs_in_order(places)?)
}
