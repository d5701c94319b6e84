//! A form of a unit as a list of marks, from the outside in and left to right: its nodes with the numbers of their parts, its uses
//! and binders, and where its data and the rules of its macros stand.
ghost use Rattle.std.specs.Prelude.{◌≡◌, ◌++◌, ◌∷◌, [], map, length, OnOk};
ghost use Rattle.rename_model.specs.Walks.{truth_number};
ghost use Rattle.alpha_equal.specs.declared.nodes.Node.TheVariants as nodes;
ghost use Rattle.alpha_equal.specs.Marks.{ANode, ANumber, mark_of, core_marks, cores_marks, clause_marks, clauses_marks, part_marks, parts_marks, part_binding, parts_binding, macro_bindings, macros_marks, bound_marks, bounds_marks, formal_marks, number_marks, used_marks, items_marks};

use crate::nodes::Node;
use core_tree::cores::{Binder, Clause, Core, CorePart, FieldUse, MacroDef, Target};
use core_tree::units::ExpandedItem;
use ls_base::Mem;
use syntax_tree::trees::Tree;

/// A mark: a node, a number, a use, an atom that stands for itself, quoted data with the places of its holes, binders of a kind
/// that bind locals, or a macro's rules.
#[derive(Clone, Copy)]
pub enum Mark<'a> {
    Node(Node),
    Number(u64),
    Use(Target),
    Atom(Tree),
    Datum { datum: Tree, places: &'a [u32] },
    Binders(Node, &'a [Binder]),
    Rules(&'a MacroDef),
}

/// Adds a node.
fn add_node<'a>(kind: Node, marks: &mut Vec<Mark<'a>>) -> Mem<()>
    ensures { OnOk result (map mark_of marks.new.items ≡ map mark_of marks.old.items ++ ANode kind ∷ []) }
{
    Ok(marks.push(Mark::Node(kind))?)
}

/// Adds a number.
fn add_number<'a>(number: usize, marks: &mut Vec<Mark<'a>>) -> Mem<()>
    ensures { OnOk result (map mark_of marks.new.items ≡ map mark_of marks.old.items ++ ANumber number ∷ []) }
{
    Ok(marks.push(Mark::Number(number as u64))?)
}

/// Adds whether something holds, as a number.
fn add_truth<'a>(holds: bool, marks: &mut Vec<Mark<'a>>) -> Mem<()>
    ensures { OnOk result (map mark_of marks.new.items ≡ map mark_of marks.old.items ++ ANumber (truth_number holds) ∷ []) }
{
    let number = if holds { 1 } else { 0 };
    Ok(marks.push(Mark::Number(number))?)
}

/// Adds a node with the number of its parts.
fn add_counted<'a>(kind: Node, parts: usize, marks: &mut Vec<Mark<'a>>) -> Mem<()>
    ensures { OnOk result (map mark_of marks.new.items ≡ map mark_of marks.old.items ++ ANode kind ∷ ANumber parts ∷ []) }
{
    add_node(kind, marks)?;
    Ok(add_number(parts, marks)?)
}

/// Adds the marks of a core.
#[cycle(marks)]
fn add_core<'a>(core: &'a Core, marks: &mut Vec<Mark<'a>>) -> Mem<()>
    ensures { OnOk result (map mark_of marks.new.items ≡ map mark_of marks.old.items ++ core_marks core.now) }
{
    match core {
        Core::Ref(target) => {
            add_node(Node::Reference, marks)?;
            Ok(marks.push(Mark::Use(*target))?)
        }
        Core::Const(atom) => {
            add_node(Node::Constant, marks)?;
            Ok(marks.push(Mark::Atom(*atom))?)
        }
        Core::Quote(datum) => {
            add_node(Node::Quotation, marks)?;
            Ok(marks.push(Mark::Datum {
                datum: *datum,
                places: &[],
            })?)
        }
        Core::Quasi {
            datum,
            places,
            parts,
        } => {
            add_counted(Node::Quasiquotation, parts.len(), marks)?;
            marks.push(Mark::Datum {
                datum: *datum,
                places: places.as_slice(),
            })?;
            Ok(add_cores(parts.as_slice(), marks)?)
        }
        Core::Lambda(clause) => Ok(add_clause(clause, marks)?),
        Core::CaseLambda(clauses) => {
            add_counted(Node::CaseLambda, clauses.len(), marks)?;
            Ok(add_clauses(clauses.as_slice(), marks)?)
        }
        Core::If(parts) => {
            add_counted(Node::Conditional, parts.len(), marks)?;
            Ok(add_cores(parts.as_slice(), marks)?)
        }
        Core::Set { target, value } => {
            add_node(Node::Assignment, marks)?;
            marks.push(Mark::Use(*target))?;
            Ok(add_core(value, marks)?)
        }
        Core::Call(parts) => {
            add_counted(Node::Call, parts.len(), marks)?;
            Ok(add_cores(parts.as_slice(), marks)?)
        }
        Core::Body(parts) => {
            add_counted(Node::Body, parts.len(), marks)?;
            add_all_binders(parts.as_slice(), marks)?;
            Ok(add_parts(parts.as_slice(), marks)?)
        }
        Core::LetSyntax { macros, body } => {
            add_counted(Node::LocalMacros, macros.len(), marks)?;
            add_macros(macros.as_slice(), marks)?;
            Ok(add_core(body, marks)?)
        }
    }
}

/// Adds the marks of cores.
#[cycle(marks)]
fn add_cores<'a>(cores: &'a [Core], marks: &mut Vec<Mark<'a>>) -> Mem<()>
    ensures { OnOk result (map mark_of marks.new.items ≡ map mark_of marks.old.items ++ cores_marks cores.now) }
{
    for core in cores {
        add_core(core, marks)?;
    }
    Ok(())
}

/// Adds the marks of a clause.
#[cycle(marks)]
fn add_clause<'a>(clause: &'a Clause, marks: &mut Vec<Mark<'a>>) -> Mem<()>
    ensures { OnOk result (map mark_of marks.new.items ≡ map mark_of marks.old.items ++ clause_marks clause.now) }
{
    add_formals(clause.binders.as_slice(), clause.dotted, marks)?;
    Ok(add_core(&clause.body, marks)?)
}

/// Adds the marks of clauses.
#[cycle(marks)]
fn add_clauses<'a>(clauses: &'a [Clause], marks: &mut Vec<Mark<'a>>) -> Mem<()>
    ensures { OnOk result (map mark_of marks.new.items ≡ map mark_of marks.old.items ++ clauses_marks clauses.now) }
{
    for clause in clauses {
        add_clause(clause, marks)?;
    }
    Ok(())
}

/// Adds the marks of a part, whose own binders are locals or definitions of the unit.
#[cycle(marks)]
fn add_part<'a>(local: bool, part: &'a CorePart, marks: &mut Vec<Mark<'a>>) -> Mem<()>
    ensures { OnOk result (map mark_of marks.new.items ≡ map mark_of marks.old.items ++ part_marks part.now local) }
{
    match part {
        CorePart::Expression(core) => {
            add_node(Node::Expression, marks)?;
            Ok(add_core(core, marks)?)
        }
        CorePart::Define { binder, value } => {
            add_node(Node::Definition, marks)?;
            add_bound(local, *binder, marks)?;
            Ok(add_core(value, marks)?)
        }
        CorePart::Values {
            binders,
            dotted,
            value,
        } => {
            add_counted(Node::Values, binders.len(), marks)?;
            add_truth(*dotted, marks)?;
            add_all_bound(local, binders.as_slice(), marks)?;
            Ok(add_core(value, marks)?)
        }
        CorePart::Fields {
            binders,
            fields,
            modified,
            used,
        } => {
            add_counted(Node::Record, binders.len(), marks)?;
            add_number(fields.len(), marks)?;
            add_number(modified.len(), marks)?;
            add_number(used.len(), marks)?;
            add_all_bound(local, binders.as_slice(), marks)?;
            add_modified(modified.as_slice(), marks)?;
            Ok(add_used(used.as_slice(), marks)?)
        }
        CorePart::Syntax(definition) => {
            add_node(Node::Syntax, marks)?;
            add_bound(local, definition.binder, marks)?;
            Ok(marks.push(Mark::Rules(definition))?)
        }
    }
}

/// Adds the marks of the parts of a body.
#[cycle(marks)]
fn add_parts<'a>(parts: &'a [CorePart], marks: &mut Vec<Mark<'a>>) -> Mem<()>
    ensures { OnOk result (map mark_of marks.new.items ≡ map mark_of marks.old.items ++ parts_marks parts.now) }
{
    for part in parts {
        add_part(true, part, marks)?;
    }
    Ok(())
}

/// Adds the binders of a clause.
fn add_formals<'a>(binders: &'a [Binder], dotted: bool, marks: &mut Vec<Mark<'a>>) -> Mem<()>
    ensures { OnOk result (map mark_of marks.new.items ≡ map mark_of marks.old.items ++ formal_marks binders.now dotted) }
{
    add_counted(Node::Procedure, binders.len(), marks)?;
    add_truth(dotted, marks)?;
    Ok(marks.push(Mark::Binders(Node::Procedure, binders))?)
}

/// Adds what a part of a body binds.
fn add_binders<'a>(part: &'a CorePart, marks: &mut Vec<Mark<'a>>) -> Mem<()>
    ensures { OnOk result (map mark_of marks.new.items ≡ map mark_of marks.old.items ++ part_binding part.now ∷ []) }
{
    let mark = match part {
        CorePart::Expression(_) => Mark::Binders(Node::Expression, &[]),
        CorePart::Define { binder, value: _ } => {
            Mark::Binders(Node::Definition, std::slice::from_ref(binder))
        }
        CorePart::Values {
            binders,
            dotted: _,
            value: _,
        } => Mark::Binders(Node::Values, binders.as_slice()),
        CorePart::Fields {
            binders,
            fields: _,
            modified: _,
            used: _,
        } => Mark::Binders(Node::Record, binders.as_slice()),
        CorePart::Syntax(definition) => {
            Mark::Binders(Node::Syntax, std::slice::from_ref(&definition.binder))
        }
    };
    Ok(marks.push(mark)?)
}

/// Adds what the parts of a body bind.
fn add_all_binders<'a>(parts: &'a [CorePart], marks: &mut Vec<Mark<'a>>) -> Mem<()>
    ensures { OnOk result (map mark_of marks.new.items ≡ map mark_of marks.old.items ++ parts_binding parts.now) }
{
    for part in parts {
        add_binders(part, marks)?;
    }
    Ok(())
}

/// Adds what a binder is: a local, or the definition of its unit with a number.
fn add_bound<'a>(local: bool, binder: Binder, marks: &mut Vec<Mark<'a>>) -> Mem<()>
    ensures { OnOk result (map mark_of marks.new.items ≡ map mark_of marks.old.items ++ bound_marks local binder) }
{
    if local {
        return Ok(add_node(Node::BindsLocal, marks)?);
    }
    add_node(Node::BindsDefinition, marks)?;
    Ok(marks.push(Mark::Number(binder.number))?)
}

/// Adds what binders are.
fn add_all_bound<'a>(local: bool, binders: &[Binder], marks: &mut Vec<Mark<'a>>) -> Mem<()>
    ensures { OnOk result (map mark_of marks.new.items ≡ map mark_of marks.old.items ++ bounds_marks local binders.now) }
{
    for binder in binders {
        add_bound(local, *binder, marks)?;
    }
    Ok(())
}

/// Adds the numbers of fields that have a modifier.
fn add_modified<'a>(fields: &[u32], marks: &mut Vec<Mark<'a>>) -> Mem<()>
    ensures { OnOk result (map mark_of marks.new.items ≡ map mark_of marks.old.items ++ number_marks fields.now) }
{
    for field in fields {
        marks.push(Mark::Number(u64::from(*field)))?;
    }
    Ok(())
}

/// Adds the numbers of fields that a constructor uses.
fn add_used<'a>(fields: &[FieldUse], marks: &mut Vec<Mark<'a>>) -> Mem<()>
    ensures { OnOk result (map mark_of marks.new.items ≡ map mark_of marks.old.items ++ used_marks fields.now) }
{
    for used in fields {
        marks.push(Mark::Number(u64::from(used.field)))?;
    }
    Ok(())
}

/// Adds what local macros bind.
fn add_macro_binders<'a>(macros: &'a [MacroDef], marks: &mut Vec<Mark<'a>>) -> Mem<()>
    ensures { OnOk result (map mark_of marks.new.items ≡ map mark_of marks.old.items ++ macro_bindings macros.now) }
{
    for definition in macros {
        let binder = std::slice::from_ref(&definition.binder);
        marks.push(Mark::Binders(Node::Syntax, binder))?;
    }
    Ok(())
}

/// Adds local macros: what they bind, and then their rules.
fn add_macros<'a>(macros: &'a [MacroDef], marks: &mut Vec<Mark<'a>>) -> Mem<()>
    ensures { OnOk result (map mark_of marks.new.items ≡ map mark_of marks.old.items ++ (macro_bindings macros.now ++ macros_marks macros.now)) }
{
    add_macro_binders(macros, marks)?;
    Ok(add_rules(macros, marks)?)
}

/// Adds the rules of local macros.
fn add_rules<'a>(macros: &'a [MacroDef], marks: &mut Vec<Mark<'a>>) -> Mem<()>
    ensures { OnOk result (map mark_of marks.new.items ≡ map mark_of marks.old.items ++ macros_marks macros.now) }
{
    for definition in macros {
        marks.push(Mark::Rules(definition))?;
    }
    Ok(())
}

/// Adds the marks of the items of a form of a unit, whose parts define.
fn add_items<'a>(items: &'a [ExpandedItem], marks: &mut Vec<Mark<'a>>) -> Mem<()>
    ensures { OnOk result (map mark_of marks.new.items ≡ map mark_of marks.old.items ++ items_marks items.now) }
{
    for item in items {
        add_part(false, &item.part, marks)?;
    }
    Ok(())
}

/// Adds the marks of a form of a unit with these items.
pub fn add_form<'a>(items: &'a [ExpandedItem], marks: &mut Vec<Mark<'a>>) -> Mem<()>
    ensures { OnOk result (map mark_of marks.new.items ≡ map mark_of marks.old.items ++ ANode nodes.Form ∷ ANumber (length items.now) ∷ items_marks items.now) }
{
    add_counted(Node::Form, items.len(), marks)?;
    Ok(add_items(items, marks)?)
}
