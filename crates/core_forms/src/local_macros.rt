//! `let-syntax` and `letrec-syntax` (R7RS 4.3.1), which have one shape.
ghost use Rattle.std.specs.Prelude.{◌≡◌, map, IfOk};
ghost use Rattle.scheme_model.specs.Trees.{Tree as ModelTree, Trees, Tail};
ghost use Rattle.scheme_model.specs.Shapes.{local_macros_of};
ghost use Rattle.scheme_model.specs.Ident.{Ident as Identifier, same_ident};
ghost use Rattle.syntax_tree.specs.Looks.{PartsStand, EndStands, AreStanding, AllNamed};
ghost use Rattle.syntax_tree.specs.Works.{StandsFor, IsStanding, CanName};
ghost use Rattle.core_forms.specs.Parts.{IsMacro, AreBindings};
ghost use Rattle.core_forms.specs.Steps.{binding_of, bindings_in, bindings_of_list};
ghost use Rattle.core_forms.specs.Ends.{Ends, IsLocal};
ghost use Rattle.core_forms.specs.Named.{MacroNamed, MacrosNamed, ShapeNamed};
ghost use Rattle.syntax_tree.specs.declared.trees.table.Region.{Region};

use crate::definition::syntax_of;
use crate::fault::CoreFault;
use crate::names::distinct;
use crate::rows::{Row, row_of, some_of};
use crate::shape::{CoreShape, LocalMacro, NamePart};
use ls_base::{Mem, Memory};
use std::alloc::Global;
use syntax_tree::look::{Look, look_at};
use syntax_tree::trees::{Tree, Work};

/// `((id rules) ...) body`.
pub fn local_macros_of(
    alloc: Global,
    work: &Work,
    items: &[Tree],
    end: Option<Tree>,
) -> Result<CoreShape, CoreFault>
    requires { AreStanding work.now items.now }
    ensures read { (ts : Trees Identifier) (tail : Tail Identifier) → PartsStand work.now items.now ts → EndStands work.now end tail →
        Ends work.now (IsLocal work.now) (local_macros_of same_ident ts tail) result }
    ensures named { (region : Region) → AllNamed work.now region items.now → IfOk result (ShapeNamed work.now region) }
{
    match row_of(work, items) {
        Row::Empty => Err(CoreFault::BadForm),
        Row::Parts(first, rest) => {
            let macros = bindings_of_list(alloc, work, first)?;
            let body = some_of(alloc, work, rest, end)?;
            let names = macro_names(alloc, macros.as_slice())?;
            distinct(alloc, work, names.as_slice())?;
            Ok(CoreShape::LetSyntax { macros, body })
        }
    }
}

/// The list of the macros.
fn bindings_of_list(alloc: Global, work: &Work, tree: Tree) -> Result<Vec<LocalMacro>, CoreFault>
    requires { IsStanding work.now tree }
    ensures read { (t : ModelTree Identifier) → StandsFor work.now tree t → Ends work.now (AreBindings work.now) (bindings_of_list t) result }
    ensures named { (region : Region) → CanName work.now region tree → IfOk result (MacrosNamed work.now region) }
{
    match look_at(work, tree) {
        Look::List(items, end) => {
            if end.is_some() {
                return Err(CoreFault::BadForm);
            }
            bindings_in(alloc, work, items)
        }
        Look::Name(_) => Err(CoreFault::BadForm),
        Look::Atom(_) => Err(CoreFault::BadForm),
        Look::Vector(_) => Err(CoreFault::BadForm),
    }
}

/// Macros in a row.
fn bindings_in(alloc: Global, work: &Work, items: &[Tree]) -> Result<Vec<LocalMacro>, CoreFault>
    requires { AreStanding work.now items.now }
    ensures read { (ts : Trees Identifier) → PartsStand work.now items.now ts → Ends work.now (AreBindings work.now) (bindings_in ts) result }
    ensures named { (region : Region) → AllNamed work.now region items.now → IfOk result (MacrosNamed work.now region) }
{
    let mut macros = Vec::new(alloc);
    for item in items {
        let read = binding_of(work, *item)?;
        macros.push(read)?;
    }
    Ok(macros)
}

/// `(id rules)`.
fn binding_of(work: &Work, tree: Tree) -> Result<LocalMacro, CoreFault>
    requires { IsStanding work.now tree }
    ensures read { (t : ModelTree Identifier) → StandsFor work.now tree t → Ends work.now (IsMacro work.now) (binding_of t) result }
    ensures named { (region : Region) → CanName work.now region tree → IfOk result (MacroNamed work.now region) }
{
    match look_at(work, tree) {
        Look::List(items, end) => syntax_of(work, items, end),
        Look::Name(_) => Err(CoreFault::BadForm),
        Look::Atom(_) => Err(CoreFault::BadForm),
        Look::Vector(_) => Err(CoreFault::BadForm),
    }
}

/// The names of macros.
fn macro_names(alloc: Global, macros: &[LocalMacro]) -> Mem<Vec<NamePart>>
    ensures { IfOk result (λ names. names.items ≡ map (λ m. m.name) macros.now) }
{
    let mut names = Vec::new(alloc);
    for item in macros {
        names.push(item.name)?;
    }
    Ok(names)
}
