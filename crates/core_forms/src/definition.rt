//! Definitions (R7RS 5.3): of a variable, of a procedure, of several names, of a macro; and `set!`, which has the same shape.
ghost use Rattle.std.specs.Prelude.{IfOk};
ghost use Rattle.scheme_model.specs.Trees.{Tree as ModelTree, Trees, Tail};
ghost use Rattle.scheme_model.specs.Shapes.{named_tree_of, syntax_of, definition_of, procedure_of, values_of};
ghost use Rattle.scheme_model.specs.Ident.{Ident as Identifier, same_ident};
ghost use Rattle.syntax_tree.specs.Looks.{PartsStand, EndStands, AreStanding, EndIsStanding, AllNamed};
ghost use Rattle.syntax_tree.specs.Works.{StandsFor, IsStanding};
ghost use Rattle.core_forms.specs.Parts.{IsMacro};
ghost use Rattle.core_forms.specs.Steps.{variable_of};
ghost use Rattle.core_forms.specs.Ends.{Ends, IsDefinition, AreValues};
ghost use Rattle.core_forms.specs.Named.{MacroNamed, ShapeNamed};
ghost use Rattle.syntax_tree.specs.declared.trees.table.Region.{Region};

use crate::fault::CoreFault;
use crate::names::{distinct, formals_in, formals_of, name_of};
use crate::rows::{Row, one_of, row_of, some_of};
use crate::shape::{ClauseShape, CoreShape, LocalMacro};
use std::alloc::Global;
use syntax_tree::look::{Look, look_at};
use syntax_tree::trees::{Tree, Work};

/// A name and a tree, as `set!` has them.
pub fn named_tree_of(
    work: &Work,
    items: &[Tree],
    end: Option<Tree>,
) -> Result<LocalMacro, CoreFault>
    requires { AreStanding work.now items.now }
    ensures read { (ts : Trees Identifier) (tail : Tail Identifier) → PartsStand work.now items.now ts → EndStands work.now end tail →
        Ends work.now (IsMacro work.now) (named_tree_of ts tail) result }
    ensures named { (region : Region) → AllNamed work.now region items.now → IfOk result (MacroNamed work.now region) }
{
    match row_of(work, items) {
        Row::Empty => Err(CoreFault::BadForm),
        Row::Parts(first, rest) => {
            let name = name_of(work, first)?;
            let rules = one_of(work, rest, end)?;
            Ok(LocalMacro { name, rules })
        }
    }
}

/// A macro's name and its rules, which are a list.
pub fn syntax_of(work: &Work, items: &[Tree], end: Option<Tree>) -> Result<LocalMacro, CoreFault>
    requires parts { AreStanding work.now items.now }
    requires tail { EndIsStanding work.now end }
    ensures read { (ts : Trees Identifier) (tail : Tail Identifier) → PartsStand work.now items.now ts → EndStands work.now end tail →
        Ends work.now (IsMacro work.now) (syntax_of ts tail) result }
    ensures named { (region : Region) → AllNamed work.now region items.now → IfOk result (MacroNamed work.now region) }
{
    let named = named_tree_of(work, items, end)?;
    match look_at(work, named.rules) {
        Look::List(_, _) => Ok(named),
        Look::Name(_) => Err(CoreFault::BadForm),
        Look::Atom(_) => Err(CoreFault::BadForm),
        Look::Vector(_) => Err(CoreFault::BadForm),
    }
}

/// `(define id e)` or `(define (id . formals) body)`.
pub fn definition_of(
    alloc: Global,
    work: &Work,
    items: &[Tree],
    end: Option<Tree>,
) -> Result<CoreShape, CoreFault>
    requires { AreStanding work.now items.now }
    ensures read { (ts : Trees Identifier) (tail : Tail Identifier) → PartsStand work.now items.now ts → EndStands work.now end tail →
        Ends work.now (IsDefinition work.now) (definition_of same_ident ts tail) result }
    ensures named { (region : Region) → AllNamed work.now region items.now → IfOk result (ShapeNamed work.now region) }
{
    match row_of(work, items) {
        Row::Empty => Err(CoreFault::BadForm),
        Row::Parts(first, rest) => match look_at(work, first) {
            Look::Name(_) => variable_of(work, items, end),
            Look::List(parts, last) => procedure_of(alloc, work, parts, last, rest, end),
            Look::Atom(_) => Err(CoreFault::BadForm),
            Look::Vector(_) => Err(CoreFault::BadForm),
        },
    }
}

/// The definition of a variable, whose name stands first.
fn variable_of(work: &Work, items: &[Tree], end: Option<Tree>) -> Result<CoreShape, CoreFault>
    requires { AreStanding work.now items.now }
    ensures read { (ts : Trees Identifier) (tail : Tail Identifier) → PartsStand work.now items.now ts → EndStands work.now end tail →
        Ends work.now (IsDefinition work.now) (variable_of ts tail) result }
    ensures named { (region : Region) → AllNamed work.now region items.now → IfOk result (ShapeNamed work.now region) }
{
    let named = named_tree_of(work, items, end)?;
    Ok(CoreShape::Define {
        name: named.name,
        value: named.rules,
    })
}

/// The definition of a procedure: the parts and the tail of the list of its name and formals, and its body.
fn procedure_of(
    alloc: Global,
    work: &Work,
    parts: &[Tree],
    last: Option<Tree>,
    items: &[Tree],
    end: Option<Tree>,
) -> Result<CoreShape, CoreFault>
    requires parts { AreStanding work.now parts.now }
    requires tail { EndIsStanding work.now last }
    ensures read { (us : Trees Identifier) (rest : Tail Identifier) (ts : Trees Identifier) (tail : Tail Identifier) →
        PartsStand work.now parts.now us → EndStands work.now last rest → PartsStand work.now items.now ts → EndStands work.now end tail →
        Ends work.now (IsDefinition work.now) (procedure_of same_ident (us, rest) ts tail) result }
    ensures named { (region : Region) → AllNamed work.now region items.now → IfOk result (ShapeNamed work.now region) }
{
    match row_of(work, parts) {
        Row::Empty => Err(CoreFault::BadForm),
        Row::Parts(first, others) => {
            let name = name_of(work, first)?;
            let formals = formals_in(alloc, work, others, last)?;
            let body = some_of(alloc, work, items, end)?;
            distinct(alloc, work, formals.names.as_slice())?;
            let clause = ClauseShape { formals, body };
            Ok(CoreShape::Procedure { name, clause })
        }
    }
}

/// `(define-values formals e)`.
pub fn values_of(
    alloc: Global,
    work: &Work,
    items: &[Tree],
    end: Option<Tree>,
) -> Result<CoreShape, CoreFault>
    requires { AreStanding work.now items.now }
    ensures read { (ts : Trees Identifier) (tail : Tail Identifier) → PartsStand work.now items.now ts → EndStands work.now end tail →
        Ends work.now (AreValues work.now) (values_of same_ident ts tail) result }
    ensures named { (region : Region) → AllNamed work.now region items.now → IfOk result (ShapeNamed work.now region) }
{
    match row_of(work, items) {
        Row::Empty => Err(CoreFault::BadForm),
        Row::Parts(first, rest) => {
            let formals = formals_of(alloc, work, first)?;
            let value = one_of(work, rest, end)?;
            distinct(alloc, work, formals.names.as_slice())?;
            Ok(CoreShape::Values { formals, value })
        }
    }
}
