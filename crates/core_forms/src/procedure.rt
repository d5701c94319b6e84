//! `lambda` and `case-lambda` (R7RS 4.1.4, 4.2.9).
ghost use Rattle.std.specs.Prelude.{List, IfOk};
ghost use Rattle.scheme_model.specs.Trees.{Tree as ModelTree, Trees, Tail};
ghost use Rattle.scheme_model.specs.Shapes.{Clause, clause_in, clauses_in, distinct_all, lambda_of, case_lambda_of};
ghost use Rattle.scheme_model.specs.Ident.{Ident as Identifier, same_ident};
ghost use Rattle.syntax_tree.specs.Looks.{PartsStand, EndStands, AreStanding, AllNamed};
ghost use Rattle.syntax_tree.specs.Works.{StandsFor, IsStanding, CanName};
ghost use Rattle.core_forms.specs.Parts.{AllMatch, IsClause, AreClauses};
ghost use Rattle.core_forms.specs.Steps.{clause_of};
ghost use Rattle.core_forms.specs.Ends.{Ends, Passes};
ghost use Rattle.core_forms.specs.Named.{ClauseNamed, ClausesNamed};
ghost use Rattle.syntax_tree.specs.declared.trees.table.Region.{Region};

use crate::fault::CoreFault;
use crate::names::{distinct, formals_of};
use crate::rows::{Row, row_of, some_of};
use crate::shape::ClauseShape;
use std::alloc::Global;
use syntax_tree::look::{Look, look_at};
use syntax_tree::trees::{Tree, Work};

/// `(lambda formals body)`.
pub fn lambda_of(
    alloc: Global,
    work: &Work,
    items: &[Tree],
    end: Option<Tree>,
) -> Result<ClauseShape, CoreFault>
    requires { AreStanding work.now items.now }
    ensures read { (ts : Trees Identifier) (tail : Tail Identifier) → PartsStand work.now items.now ts → EndStands work.now end tail →
        Ends work.now (IsClause work.now) (lambda_of same_ident ts tail) result }
    ensures named { (region : Region) → AllNamed work.now region items.now → IfOk result (ClauseNamed work.now region) }
{
    let clause = clause_in(alloc, work, items, end)?;
    distinct(alloc, work, clause.formals.names.as_slice())?;
    Ok(clause)
}

/// Formals and a body, whose names may be equal yet.
fn clause_in(
    alloc: Global,
    work: &Work,
    items: &[Tree],
    end: Option<Tree>,
) -> Result<ClauseShape, CoreFault>
    requires { AreStanding work.now items.now }
    ensures read { (ts : Trees Identifier) (tail : Tail Identifier) → PartsStand work.now items.now ts → EndStands work.now end tail →
        Ends work.now (IsClause work.now) (clause_in ts tail) result }
    ensures named { (region : Region) → AllNamed work.now region items.now → IfOk result (ClauseNamed work.now region) }
{
    match row_of(work, items) {
        Row::Empty => Err(CoreFault::BadForm),
        Row::Parts(first, rest) => {
            let formals = formals_of(alloc, work, first)?;
            let body = some_of(alloc, work, rest, end)?;
            Ok(ClauseShape { formals, body })
        }
    }
}

/// A clause of `case-lambda`.
fn clause_of(alloc: Global, work: &Work, tree: Tree) -> Result<ClauseShape, CoreFault>
    requires { IsStanding work.now tree }
    ensures read { (t : ModelTree Identifier) → StandsFor work.now tree t → Ends work.now (IsClause work.now) (clause_of t) result }
    ensures named { (region : Region) → CanName work.now region tree → IfOk result (ClauseNamed work.now region) }
{
    match look_at(work, tree) {
        Look::List(items, end) => clause_in(alloc, work, items, end),
        Look::Name(_) => Err(CoreFault::BadForm),
        Look::Atom(_) => Err(CoreFault::BadForm),
        Look::Vector(_) => Err(CoreFault::BadForm),
    }
}

/// Clauses in a row.
fn clauses_in(alloc: Global, work: &Work, items: &[Tree]) -> Result<Vec<ClauseShape>, CoreFault>
    requires { AreStanding work.now items.now }
    ensures read { (ts : Trees Identifier) → PartsStand work.now items.now ts →
        Ends work.now (AreClauses work.now) (clauses_in ts) result }
    ensures named { (region : Region) → AllNamed work.now region items.now → IfOk result (ClausesNamed work.now region) }
{
    let mut clauses = Vec::new(alloc);
    for item in items {
        let read = clause_of(alloc, work, *item)?;
        clauses.push(read)?;
    }
    Ok(clauses)
}

/// Whether the names of each clause differ.
fn distinct_all(alloc: Global, work: &Work, clauses: &[ClauseShape]) -> Result<(), CoreFault>
    ensures { (cs : List (Clause Identifier)) → AllMatch (IsClause work.now) clauses.now cs →
        Passes work.now (distinct_all same_ident cs) result }
{
    for clause in clauses {
        distinct(alloc, work, clause.formals.names.as_slice())?;
    }
    Ok(())
}

/// `(case-lambda (formals body) ...)`.
pub fn case_lambda_of(
    alloc: Global,
    work: &Work,
    items: &[Tree],
    end: Option<Tree>,
) -> Result<Vec<ClauseShape>, CoreFault>
    requires { AreStanding work.now items.now }
    ensures read { (ts : Trees Identifier) (tail : Tail Identifier) → PartsStand work.now items.now ts → EndStands work.now end tail →
        Ends work.now (AreClauses work.now) (case_lambda_of same_ident ts tail) result }
    ensures named { (region : Region) → AllNamed work.now region items.now → IfOk result (ClausesNamed work.now region) }
{
    if end.is_some() {
        return Err(CoreFault::BadForm);
    }
    let clauses = clauses_in(alloc, work, items)?;
    distinct_all(alloc, work, clauses.as_slice())?;
    Ok(clauses)
}
