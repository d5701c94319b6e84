//! `if` and `cond-expand` (R7RS 4.1.5, 4.2.1), and `syntax-error` (R7RS 4.3.3).
ghost use Rattle.std.specs.Prelude.{◌≡◌, ℕ, List, slice_get, Some, IfOk};
ghost use Rattle.scheme_model.specs.Trees.{Tree as ModelTree, Trees, Tail};
ghost use Rattle.scheme_model.specs.Shapes.{if_of, error_text_of};
ghost use Rattle.scheme_model.specs.Ident.{Ident as Identifier};
ghost use Rattle.syntax_tree.specs.Looks.{PartsStand, EndStands, AreStanding, AllNamed};
ghost use Rattle.syntax_tree.specs.Works.{StandsFor, IsStanding, CanName};
ghost use Rattle.core_forms.specs.Parts.{AreTrees, IsChoice, AreChoices, IsSymbol};
ghost use Rattle.core_forms.specs.Forms.{choice_of, choices_in};
ghost use Rattle.core_forms.specs.Steps.{choice_with, cond_expand_of};
ghost use Rattle.core_forms.specs.Ends.{Ends};
ghost use Rattle.core_forms.specs.Named.{ChoiceNamed, ChoicesNamed, TreesNamed};
ghost use Rattle.syntax_tree.specs.declared.trees.table.Region.{Region};

use crate::fault::CoreFault;
use crate::rows::{Row, row_of};
use crate::shape::Choice;
use std::alloc::Global;
use syntax_tree::look::{Look, look_at};
use syntax_tree::symbols::SymNo;
use syntax_tree::trees::{Leaf, Tree, Work};

/// `(if test consequent)` and `(if test consequent alternate)`.
pub fn if_of(
    alloc: Global,
    work: &Work,
    items: &[Tree],
    end: Option<Tree>,
) -> Result<Vec<Tree>, CoreFault>
    ensures read { (ts : Trees Identifier) (tail : Tail Identifier) → PartsStand work.now items.now ts → EndStands work.now end tail →
        Ends work.now (AreTrees work.now) (if_of ts tail) result }
    ensures named { (region : Region) → AllNamed work.now region items.now → IfOk result (TreesNamed work.now region) }
{
    if end.is_some() {
        return Err(CoreFault::BadForm);
    }
    if items.len() < 2 {
        return Err(CoreFault::BadForm);
    }
    if items.len() > 3 {
        return Err(CoreFault::BadForm);
    }
    Ok(Vec::from_slice(alloc, items)?)
}

/// `(cond-expand clause ...)` of one clause or more. Which clause holds isn't asked here.
pub fn cond_expand_of(
    alloc: Global,
    work: &Work,
    items: &[Tree],
    end: Option<Tree>,
) -> Result<Vec<Choice>, CoreFault>
    requires { AreStanding work.now items.now }
    ensures read { (ts : Trees Identifier) (tail : Tail Identifier) → PartsStand work.now items.now ts → EndStands work.now end tail →
        Ends work.now (AreChoices work.now) (cond_expand_of ts tail) result }
    ensures named { (region : Region) → AllNamed work.now region items.now → IfOk result (ChoicesNamed work.now region) }
{
    match row_of(work, items) {
        Row::Empty => Err(CoreFault::BadForm),
        Row::Parts(_, _) => {
            if end.is_some() {
                return Err(CoreFault::BadForm);
            }
            choices_in(alloc, work, items)
        }
    }
}

/// Clauses in a row.
fn choices_in(alloc: Global, work: &Work, items: &[Tree]) -> Result<Vec<Choice>, CoreFault>
    requires { AreStanding work.now items.now }
    ensures read { (ts : Trees Identifier) → PartsStand work.now items.now ts → Ends work.now (AreChoices work.now) (choices_in ts) result }
    ensures named { (region : Region) → AllNamed work.now region items.now → IfOk result (ChoicesNamed work.now region) }
{
    let mut choices = Vec::new(alloc);
    for item in items {
        let read = choice_of(alloc, work, *item)?;
        choices.push(read)?;
    }
    Ok(choices)
}

/// A clause: a list of a requirement and forms.
fn choice_of(alloc: Global, work: &Work, tree: Tree) -> Result<Choice, CoreFault>
    requires { IsStanding work.now tree }
    ensures read { (t : ModelTree Identifier) → StandsFor work.now tree t → Ends work.now (IsChoice work.now) (choice_of t) result }
    ensures named { (region : Region) → CanName work.now region tree → IfOk result (ChoiceNamed work.now region) }
{
    match look_at(work, tree) {
        Look::List(items, end) => choice_with(alloc, work, items, end),
        Look::Name(_) => Err(CoreFault::BadForm),
        Look::Atom(_) => Err(CoreFault::BadForm),
        Look::Vector(_) => Err(CoreFault::BadForm),
    }
}

/// The parts of a clause.
fn choice_with(
    alloc: Global,
    work: &Work,
    items: &[Tree],
    end: Option<Tree>,
) -> Result<Choice, CoreFault>
    ensures read { (ts : Trees Identifier) (tail : Tail Identifier) → PartsStand work.now items.now ts → EndStands work.now end tail →
        Ends work.now (IsChoice work.now) (choice_with ts tail) result }
    ensures named { (region : Region) → AllNamed work.now region items.now → IfOk result (ChoiceNamed work.now region) }
{
    match row_of(work, items) {
        Row::Empty => Err(CoreFault::BadForm),
        Row::Parts(requirement, rest) => {
            if end.is_some() {
                return Err(CoreFault::BadForm);
            }
            let forms = Vec::from_slice(alloc, rest)?;
            Ok(Choice { requirement, forms })
        }
    }
}

/// The text of `(syntax-error "text" form ...)`.
pub fn error_text_of(work: &Work, items: &[Tree], end: Option<Tree>) -> Result<SymNo, CoreFault>
    requires { AreStanding work.now items.now }
    ensures { (ts : Trees Identifier) (tail : Tail Identifier) → PartsStand work.now items.now ts → EndStands work.now end tail →
        Ends work.now (IsSymbol work.now) (error_text_of ts tail) result }
{
    if end.is_some() {
        return Err(CoreFault::BadForm);
    }
    match row_of(work, items) {
        Row::Empty => Err(CoreFault::BadForm),
        Row::Parts(first, _) => match look_at(work, first) {
            Look::Atom(Leaf::Quoted(symbol)) => Ok(symbol),
            Look::Atom(_) => Err(CoreFault::BadForm),
            Look::Name(_) => Err(CoreFault::BadForm),
            Look::List(_, _) => Err(CoreFault::BadForm),
            Look::Vector(_) => Err(CoreFault::BadForm),
        },
    }
}
