//! The leaves of cores: binders, uses, assignments, quoted data and macros, in the order in which they stand.
ghost use Rattle.std.specs.Prelude.{◌≡◌, ◌++◌, map, slice_get, OnOk};
ghost use Rattle.program_leaves.specs.Leaves.{seen_of, core_seen, cores_seen, clause_seen, clauses_seen, part_seen, parts_seen, binders_seen, macro_seen, macros_seen, field_seen, fields_seen, items_seen};

use core_tree::cores::{Binder, Clause, Core, CorePart, FieldUse, MacroDef, Target};
use core_tree::units::UnitForm;
use ls_base::Mem;
use syntax_tree::meaning::Meaning;
use syntax_tree::trees::Tree;

/// A leaf of a core. Of a quasiquoted datum what stands in its holes isn't quoted.
#[derive(Clone, Copy)]
pub enum Leaf<'a> {
    Binds { local: bool, binder: Binder },
    Uses(Target),
    Assigns(Target),
    Quoted(Tree),
    Holed { datum: Tree, places: &'a [u32] },
    Defines(&'a MacroDef),
}

/// Adds the leaves of a core.
#[cycle(leaves)]
fn add_core<'a>(core: &'a Core, leaves: &mut Vec<Leaf<'a>>) -> Mem<()>
    ensures { OnOk result (map seen_of leaves.new.items ≡ map seen_of leaves.old.items ++ core_seen core.now) }
{
    match core {
        Core::Ref(target) => Ok(leaves.push(Leaf::Uses(*target))?),
        Core::Const(_) => Ok(()),
        Core::Quote(datum) => Ok(leaves.push(Leaf::Quoted(*datum))?),
        Core::Quasi {
            datum,
            places,
            parts,
        } => {
            leaves.push(Leaf::Holed {
                datum: *datum,
                places: places.as_slice(),
            })?;
            Ok(add_cores(parts.as_slice(), leaves)?)
        }
        Core::Lambda(clause) => Ok(add_clause(clause, leaves)?),
        Core::CaseLambda(clauses) => Ok(add_clauses(clauses.as_slice(), leaves)?),
        Core::If(parts) => Ok(add_cores(parts.as_slice(), leaves)?),
        Core::Set { target, value } => {
            leaves.push(Leaf::Assigns(*target))?;
            Ok(add_core(value, leaves)?)
        }
        Core::Call(parts) => Ok(add_cores(parts.as_slice(), leaves)?),
        Core::Body(parts) => Ok(add_parts(parts.as_slice(), leaves)?),
        Core::LetSyntax { macros, body } => {
            add_macros(macros.as_slice(), leaves)?;
            Ok(add_core(body, leaves)?)
        }
    }
}

/// Adds the leaves of cores.
#[cycle(leaves)]
fn add_cores<'a>(cores: &'a [Core], leaves: &mut Vec<Leaf<'a>>) -> Mem<()>
    ensures { OnOk result (map seen_of leaves.new.items ≡ map seen_of leaves.old.items ++ cores_seen cores.now) }
{
    for core in cores {
        add_core(core, leaves)?;
    }
    Ok(())
}

/// Adds the leaves of a clause.
#[cycle(leaves)]
fn add_clause<'a>(clause: &'a Clause, leaves: &mut Vec<Leaf<'a>>) -> Mem<()>
    ensures { OnOk result (map seen_of leaves.new.items ≡ map seen_of leaves.old.items ++ clause_seen clause.now) }
{
    add_binders(true, clause.binders.as_slice(), leaves)?;
    Ok(add_core(&clause.body, leaves)?)
}

/// Adds the leaves of clauses.
#[cycle(leaves)]
fn add_clauses<'a>(clauses: &'a [Clause], leaves: &mut Vec<Leaf<'a>>) -> Mem<()>
    ensures { OnOk result (map seen_of leaves.new.items ≡ map seen_of leaves.old.items ++ clauses_seen clauses.now) }
{
    for clause in clauses {
        add_clause(clause, leaves)?;
    }
    Ok(())
}

/// Adds the leaves of a part, whose own binders are locals or definitions of the unit.
#[cycle(leaves)]
fn add_part<'a>(local: bool, part: &'a CorePart, leaves: &mut Vec<Leaf<'a>>) -> Mem<()>
    ensures { OnOk result (map seen_of leaves.new.items ≡ map seen_of leaves.old.items ++ part_seen part.now local) }
{
    match part {
        CorePart::Expression(core) => Ok(add_core(core, leaves)?),
        CorePart::Define { binder, value } => {
            leaves.push(Leaf::Binds {
                local,
                binder: *binder,
            })?;
            Ok(add_core(value, leaves)?)
        }
        CorePart::Values {
            binders,
            dotted: _,
            value,
        } => {
            add_binders(local, binders.as_slice(), leaves)?;
            Ok(add_core(value, leaves)?)
        }
        CorePart::Fields {
            binders,
            fields,
            modified: _,
            used,
        } => {
            add_binders(local, binders.as_slice(), leaves)?;
            add_binders(true, fields.as_slice(), leaves)?;
            Ok(add_used(fields.as_slice(), used.as_slice(), leaves)?)
        }
        CorePart::Syntax(definition) => Ok(add_macro(local, definition, leaves)?),
    }
}

/// Adds the leaves of the parts of a body.
#[cycle(leaves)]
fn add_parts<'a>(parts: &'a [CorePart], leaves: &mut Vec<Leaf<'a>>) -> Mem<()>
    ensures { OnOk result (map seen_of leaves.new.items ≡ map seen_of leaves.old.items ++ parts_seen parts.now) }
{
    for part in parts {
        add_part(true, part, leaves)?;
    }
    Ok(())
}

/// Adds binders.
fn add_binders<'a>(local: bool, binders: &[Binder], leaves: &mut Vec<Leaf<'a>>) -> Mem<()>
    ensures { OnOk result (map seen_of leaves.new.items ≡ map seen_of leaves.old.items ++ binders_seen local binders.now) }
{
    for binder in binders {
        leaves.push(Leaf::Binds {
            local,
            binder: *binder,
        })?;
    }
    Ok(())
}

/// Adds a macro: its binder and its rules.
fn add_macro<'a>(local: bool, definition: &'a MacroDef, leaves: &mut Vec<Leaf<'a>>) -> Mem<()>
    ensures { OnOk result (map seen_of leaves.new.items ≡ map seen_of leaves.old.items ++ macro_seen local definition.now) }
{
    leaves.push(Leaf::Binds {
        local,
        binder: definition.binder,
    })?;
    Ok(leaves.push(Leaf::Defines(definition))?)
}

/// Adds local macros.
fn add_macros<'a>(macros: &'a [MacroDef], leaves: &mut Vec<Leaf<'a>>) -> Mem<()>
    ensures { OnOk result (map seen_of leaves.new.items ≡ map seen_of leaves.old.items ++ macros_seen macros.now) }
{
    for definition in macros {
        add_macro(true, definition, leaves)?;
    }
    Ok(())
}

/// Adds a field that a record's constructor uses.
fn add_field<'a>(fields: &[Binder], field: FieldUse, leaves: &mut Vec<Leaf<'a>>) -> Mem<()>
    ensures { OnOk result (map seen_of leaves.new.items ≡ map seen_of leaves.old.items ++ field_seen (slice_get fields.now field.field) field) }
{
    match fields.get(field.field as usize) {
        None => Ok(()),
        Some(binder) => Ok(leaves.push(Leaf::Uses(Target {
            meaning: Meaning::Local(binder.number),
            ident: binder.ident,
            occ: field.occ,
        }))?),
    }
}

/// Adds the fields that a record's constructor uses.
fn add_used<'a>(fields: &[Binder], used: &[FieldUse], leaves: &mut Vec<Leaf<'a>>) -> Mem<()>
    ensures { OnOk result (map seen_of leaves.new.items ≡ map seen_of leaves.old.items ++ fields_seen fields.now used.now) }
{
    for field in used {
        add_field(fields, *field, leaves)?;
    }
    Ok(())
}

/// Adds the leaves of a form of a unit, whose parts define.
pub fn add_form<'a>(form: &'a UnitForm, leaves: &mut Vec<Leaf<'a>>) -> Mem<()>
    ensures { OnOk result (map seen_of leaves.new.items ≡ map seen_of leaves.old.items ++ items_seen form.now.items) }
{
    for item in form.items.as_slice() {
        add_part(false, &item.part, leaves)?;
    }
    Ok(())
}
