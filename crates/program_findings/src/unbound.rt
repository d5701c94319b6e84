//! References and assignments that mean nothing (R7RS 4.1.1).
ghost use Rattle.std.specs.Prelude.{◌≡◌, ◌++◌, ℕ, List, map, OnOk, IfOk};
ghost use Rattle.std.specs.List.{flat_map};
ghost use Rattle.scheme_model.specs.Live.{unit_leaves};
ghost use Rattle.scheme_model.specs.UnitExpansion.{Formed};
ghost use Rattle.syntax_tree.specs.declared.trees.Work.{Work};
ghost use Rattle.core_tree.specs.Names.{AllMatch};
ghost use Rattle.core_tree.specs.Units.{FormsStand};
ghost use Rattle.program_leaves.specs.Leaves.{seen_of};
ghost use Rattle.program_findings.specs.Unbound.{IsUnbound, form_unbound, free_leaf, free_use, free_uses, unbound_in};

use core_tree::cores::Target;
use core_tree::units::UnitForm;
use ls_base::Mem;
use program_leaves::leaves::{Leaf, add_form};
use std::alloc::Global;
use syntax_tree::meaning::Meaning;

/// The unbound references and assignments of forms that stand in a text. A broken form has none.
pub fn unbound(alloc: Global, forms: &[&UnitForm]) -> Mem<Vec<Target>>
    ensures { (work : Work) (unit : ℕ) (rs : List Formed) → FormsStand work unit 0 (map (λ form. form.now) forms.now) rs →
        IfOk result (λ found. AllMatch (IsUnbound work.symbols) found.items (unbound_in (unit_leaves rs))) }
{
    Ok(in_forms(alloc, forms)?)
}

/// Those of forms, in order.
fn in_forms(alloc: Global, forms: &[&UnitForm]) -> Mem<Vec<Target>>
    ensures { IfOk result (λ found. found.items ≡ flat_map form_unbound (map (λ form. form.now) forms.now)) }
{
    let mut found = Vec::new(alloc);
    for form in forms {
        in_form(alloc, &mut found, form)?;
    }
    Ok(found)
}

/// Adds those of a form.
fn in_form(alloc: Global, found: &mut Vec<Target>, form: &UnitForm) -> Mem<()>
    ensures { OnOk result (found.new.items ≡ found.old.items ++ form_unbound form.now) }
{
    if form.fault.is_some() {
        return Ok(());
    }
    let mut leaves = Vec::new(alloc);
    add_form(form, &mut leaves)?;
    Ok(in_leaves(found, leaves)?)
}

/// Adds those among leaves.
fn in_leaves(found: &mut Vec<Target>, leaves: Vec<Leaf<'_>>) -> Mem<()>
    ensures { OnOk result (found.new.items ≡ found.old.items ++ free_uses (map seen_of leaves.entry.items)) }
{
    for leaf in leaves {
        in_leaf(found, leaf)?;
    }
    Ok(())
}

/// Adds a leaf, if it is one.
fn in_leaf(found: &mut Vec<Target>, leaf: Leaf<'_>) -> Mem<()>
    ensures { OnOk result (found.new.items ≡ found.old.items ++ free_leaf (seen_of leaf.entry)) }
{
    match leaf {
        Leaf::Uses(target) => add(found, target),
        Leaf::Assigns(target) => add(found, target),
        Leaf::Binds { .. } => Ok(()),
        Leaf::Quoted(_) => Ok(()),
        Leaf::Holed { .. } => Ok(()),
        Leaf::Defines(_) => Ok(()),
    }
}

/// Adds a use, where it is unbound and stands in a text.
fn add(found: &mut Vec<Target>, target: Target) -> Mem<()>
    ensures { OnOk result (found.new.items ≡ found.old.items ++ free_use target) }
{
    if target.occ.is_none() {
        return Ok(());
    }
    match target.meaning {
        Meaning::Free(_) => Ok(found.push(target)?),
        Meaning::Local(_) => Ok(()),
        Meaning::Global { .. } => Ok(()),
        Meaning::Standard(_) => Ok(()),
    }
}
