//! Rows of trees: by the first, whole, or a single one.
ghost use Rattle.std.specs.Prelude.{IfOk};
ghost use Rattle.scheme_model.specs.Trees.{Trees, Tail};
ghost use Rattle.scheme_model.specs.Shapes.{one_of, some_of, proper_of};
ghost use Rattle.scheme_model.specs.Ident.{Ident as Identifier};
ghost use Rattle.syntax_tree.specs.Looks.{PartsStand, EndStands, AllNamed};
ghost use Rattle.syntax_tree.specs.Works.{StandsFor, CanName};
ghost use Rattle.core_forms.specs.Parts.{IsRow, AreTrees};
ghost use Rattle.core_forms.specs.Ends.{Ends};
ghost use Rattle.core_forms.specs.Named.{RowNamed, TreesNamed};
ghost use Rattle.syntax_tree.specs.declared.trees.table.Region.{Region};

use crate::fault::CoreFault;
use std::alloc::Global;
use syntax_tree::trees::{Tree, Work};

/// Trees in a row: none, or a first and those behind it.
#[derive(Clone, Copy)]
pub enum Row<'a> {
    Empty,
    Parts(Tree, &'a [Tree]),
}

/// A row by its first tree.
pub fn row_of<'a>(work: &Work, items: &'a [Tree]) -> Row<'a>
    ensures read { (ts : Trees Identifier) → PartsStand work.now items.now ts → IsRow work.now result ts }
    ensures named { (region : Region) → AllNamed work.now region items.now → RowNamed work.now region result }
{
    match items.split_first() {
        None => Row::Empty,
        Some((first, rest)) => Row::Parts(*first, rest),
    }
}

/// The trees of a proper list.
pub fn proper_of(
    alloc: Global,
    work: &Work,
    items: &[Tree],
    end: Option<Tree>,
) -> Result<Vec<Tree>, CoreFault>
    ensures read { (ts : Trees Identifier) (tail : Tail Identifier) → PartsStand work.now items.now ts → EndStands work.now end tail →
        Ends work.now (AreTrees work.now) (proper_of ts tail) result }
    ensures named { (region : Region) → AllNamed work.now region items.now → IfOk result (TreesNamed work.now region) }
{
    if end.is_some() {
        return Err(CoreFault::BadForm);
    }
    Ok(Vec::from_slice(alloc, items)?)
}

/// The trees of a proper list of one tree or more.
pub fn some_of(
    alloc: Global,
    work: &Work,
    items: &[Tree],
    end: Option<Tree>,
) -> Result<Vec<Tree>, CoreFault>
    ensures read { (ts : Trees Identifier) (tail : Tail Identifier) → PartsStand work.now items.now ts → EndStands work.now end tail →
        Ends work.now (AreTrees work.now) (some_of ts tail) result }
    ensures named { (region : Region) → AllNamed work.now region items.now → IfOk result (TreesNamed work.now region) }
{
    match row_of(work, items) {
        Row::Empty => Err(CoreFault::BadForm),
        Row::Parts(_, _) => proper_of(alloc, work, items, end),
    }
}

/// The one tree of a proper list.
pub fn one_of(work: &Work, items: &[Tree], end: Option<Tree>) -> Result<Tree, CoreFault>
    ensures read { (ts : Trees Identifier) (tail : Tail Identifier) → PartsStand work.now items.now ts → EndStands work.now end tail →
        Ends work.now (StandsFor work.now) (one_of ts tail) result }
    ensures named { (region : Region) → AllNamed work.now region items.now → IfOk result (CanName work.now region) }
{
    match row_of(work, items) {
        Row::Empty => Err(CoreFault::BadForm),
        Row::Parts(first, rest) => match row_of(work, rest) {
            Row::Parts(_, _) => Err(CoreFault::BadForm),
            Row::Empty => match end {
                None => Ok(first),
                Some(_) => Err(CoreFault::BadForm),
            },
        },
    }
}
