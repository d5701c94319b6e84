//! What the forms of a body or a unit set aside while they are gone through (R7RS 5.3.2).
ghost use Rattle.std.specs.Prelude.{◌≡◌, map, reverse, IfOk};
ghost use Rattle.form_parts.specs.FormsSeen.{form_at};

use core_forms::{ClauseShape, LocalMacro, NamePart};
use core_tree::cores::{Binder, FieldUse, Target};
use ls_base::{Items, Mem};
use scheme_model::Occ;
use scope_env::ScopeNo;
use std::alloc::Global;
use syntax_tree::meaning::Meaning;
use syntax_tree::trees::Tree;

/// A form with the place that a fault in it has, where it has none itself.
#[derive(Clone, Copy)]
pub struct Form {
    pub here: Option<Occ>,
    pub tree: Tree,
}

/// A definition, or an expression, to be expanded once all definitions of its body or unit stand.
#[derive(Drop)]
pub enum Kept {
    Expression(Form),
    Value(Binder, Form),
    Function(Binder, Option<Occ>, ClauseShape),
    /// A later definition of a program's variable.
    Assigned(NamePart, Form),
    AssignedFunction(NamePart, Option<Occ>, ClauseShape),
    Values {
        binders: Vec<Binder>,
        dotted: bool,
        form: Form,
    },
    Record {
        binders: Vec<Binder>,
        fields: Vec<Binder>,
        modified: Vec<u32>,
        used: Vec<FieldUse>,
    },
    Macro(Binder, Meaning),
}

/// A macro use that waits to be met: its keyword, and the leaves of the form that met a literal, which mean what they do once all
/// definitions of their place stand.
#[derive(Drop)]
pub struct WaitingUse {
    pub keyword: Target,
    pub literals: Vec<NamePart>,
}

/// What a form of a unit set aside.
#[derive(Drop)]
pub struct Item {
    pub kept: Kept,
}

/// What is left of a form of a unit once it was gone through: the macro uses that wait, and what was set aside.
#[derive(Drop)]
pub struct Left {
    pub uses: Vec<WaitingUse>,
    pub items: Items<Item>,
}

/// Where forms are gone through: a unit's own scope, or that of a body.
#[derive(Clone, Copy)]
pub struct Spot {
    pub scope: ScopeNo,
    pub in_body: bool,
}

/// What is left to be gone through, the next form last, what was set aside, and the macro uses that wait.
#[derive(Drop)]
pub struct Pending {
    pub todo: Vec<Form>,
    pub aside: Vec<Kept>,
    pub uses: Vec<WaitingUse>,
}

/// The names of local macros.
pub fn names_of(alloc: Global, macros: &[LocalMacro]) -> Mem<Vec<NamePart>>
    ensures { IfOk result (λ names. names.items ≡ map (λ m. m.name) macros.now) }
{
    let mut names = Vec::new(alloc);
    for local in macros {
        names.push(local.name)?;
    }
    Ok(names)
}

/// Forms that are to be gone through, the first one last.
pub fn forms_at(alloc: Global, here: Option<Occ>, forms: &[Tree]) -> Mem<Vec<Form>>
    ensures { IfOk result (λ todo. todo.items ≡ map (form_at here) (reverse forms.now)) }
{
    Ok(
        forms
            .iter()
            .rev()
            .map(|tree| Form { here, tree: *tree })
            .collect(alloc)?,
    )
}
