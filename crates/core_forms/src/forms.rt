//! The readers of core forms by their keywords (R7RS 4.1, 4.2.1, 4.2.8, 4.3, 5.3, 5.5).
ghost use Rattle.std.specs.Prelude.{◌≡◌, true, false, Option, Some, Ok, Err, IfOk};
ghost use Rattle.scheme_model.specs.Trees.{Trees, Tail};
ghost use Rattle.scheme_model.specs.Keywords.{CoreKeyword as ModelKeyword, IsQuasiquote, IsSet, IsBegin};
ghost use Rattle.scheme_model.specs.Quasiquote.{Mark};
ghost use Rattle.scheme_model.specs.Ident.{Ident as Identifier};
ghost use Rattle.syntax_tree.specs.Looks.{PartsStand, EndStands, AreStanding, EndIsStanding, AllNamed};
ghost use Rattle.scheme_model.specs.Shapes.{syntax_of};
ghost use Rattle.core_forms.specs.Forms.{shape_of};
ghost use Rattle.core_forms.specs.Marks.{AreMarks};
ghost use Rattle.core_forms.specs.Ends.{keyword_as, Ends, ShapeFor, IsSyntax};
ghost use Rattle.core_forms.specs.declared.fault.CoreFault.TheVariants as fault;
ghost use Rattle.core_forms.specs.Named.{ShapeNamed};
ghost use Rattle.syntax_tree.specs.declared.trees.table.Region.{Region};

use crate::conditional::{cond_expand_of, error_text_of, if_of};
use crate::definition::{definition_of, named_tree_of, syntax_of, values_of};
use crate::fault::CoreFault;
use crate::local_macros::local_macros_of;
use crate::procedure::{case_lambda_of, lambda_of};
use crate::quasi::holes_of;
use crate::records::record_of;
use crate::rows::{one_of, proper_of, some_of};
use crate::shape::{CoreKeyword, CoreShape, QuasiMark};
use std::alloc::Global;
use syntax_tree::trees::{Tree, Work};

/// The shape of the trees behind a keyword.
pub fn shape_of(
    alloc: Global,
    work: &Work,
    keyword: CoreKeyword,
    items: &[Tree],
    end: Option<Tree>,
    expression: bool,
    marks: &[QuasiMark],
) -> Result<CoreShape, CoreFault>
    requires parts { AreStanding work.now items.now }
    requires tail { EndIsStanding work.now end }
    ensures read { (k : ModelKeyword) (mark : Identifier → Option Mark) (ts : Trees Identifier) (tail : Tail Identifier) → keyword_as keyword ≡ Some k →
        AreMarks work.now marks.now mark → PartsStand work.now items.now ts → EndStands work.now end tail →
        Ends work.now (ShapeFor work.now) (shape_of k expression mark ts tail) result }
    ensures named { (region : Region) → AllNamed work.now region items.now → IfOk result (ShapeNamed work.now region) }
{
    match keyword {
        CoreKeyword::Quote => Ok(CoreShape::Quote(one_of(work, items, end)?)),
        CoreKeyword::Quasiquote => quasiquotation(alloc, work, items, end, marks),
        CoreKeyword::Unquote => Err(CoreFault::BadForm),
        CoreKeyword::UnquoteSplicing => Err(CoreFault::BadForm),
        CoreKeyword::Lambda => Ok(CoreShape::Lambda(lambda_of(alloc, work, items, end)?)),
        CoreKeyword::CaseLambda => {
            Ok(CoreShape::CaseLambda(case_lambda_of(alloc, work, items, end)?))
        }
        CoreKeyword::If => Ok(CoreShape::If(if_of(alloc, work, items, end)?)),
        CoreKeyword::Set => assignment(work, items, end),
        CoreKeyword::Begin => sequence(alloc, work, items, end, expression),
        CoreKeyword::Define => unless_expression(
            expression,
            definition_of(alloc, work, items, end)?,
        ),
        CoreKeyword::DefineValues => unless_expression(
            expression,
            values_of(alloc, work, items, end)?,
        ),
        CoreKeyword::DefineRecordType => {
            if expression {
                return Err(CoreFault::BadPlace);
            }
            record_of(alloc, work, items, end)
        }
        CoreKeyword::DefineSyntax => unless_expression(
            expression,
            define_syntax(work, items, end)?,
        ),
        CoreKeyword::LetSyntax => local_macros_of(alloc, work, items, end),
        CoreKeyword::LetrecSyntax => local_macros_of(alloc, work, items, end),
        CoreKeyword::CondExpand => {
            Ok(CoreShape::CondExpand(cond_expand_of(alloc, work, items, end)?))
        }
        CoreKeyword::SyntaxError => Ok(CoreShape::SyntaxError(error_text_of(work, items, end)?)),
        CoreKeyword::Include => Ok(CoreShape::Include),
        CoreKeyword::IncludeCi => Ok(CoreShape::Include),
    }
}

/// A definition has no place among expressions.
fn unless_expression(expression: bool, shape: CoreShape) -> Result<CoreShape, CoreFault>
    ensures misplaced { expression ≡ true → result ≡ Err fault.BadPlace }
    ensures whole { expression ≡ false → result ≡ Ok shape }
{
    if expression {
        return Err(CoreFault::BadPlace);
    }
    Ok(shape)
}

/// `(quasiquote datum)`.
fn quasiquotation(
    alloc: Global,
    work: &Work,
    items: &[Tree],
    end: Option<Tree>,
    marks: &[QuasiMark],
) -> Result<CoreShape, CoreFault>
    requires parts { AreStanding work.now items.now }
    requires tail { EndIsStanding work.now end }
    ensures read { (mark : Identifier → Option Mark) (ts : Trees Identifier) (tail : Tail Identifier) → AreMarks work.now marks.now mark →
        PartsStand work.now items.now ts → EndStands work.now end tail →
        Ends work.now (ShapeFor work.now) (shape_of IsQuasiquote true mark ts tail) result }
    ensures named { (region : Region) → AllNamed work.now region items.now → IfOk result (ShapeNamed work.now region) }
{
    let datum = one_of(work, items, end)?;
    let found = holes_of(alloc, work, marks, datum)?;
    Ok(CoreShape::Quasi {
        datum,
        parts: found.trees,
        places: found.places,
    })
}

/// `(set! id e)`.
fn assignment(work: &Work, items: &[Tree], end: Option<Tree>) -> Result<CoreShape, CoreFault>
    requires { AreStanding work.now items.now }
    ensures read { (mark : Identifier → Option Mark) (ts : Trees Identifier) (tail : Tail Identifier) → PartsStand work.now items.now ts →
        EndStands work.now end tail → Ends work.now (ShapeFor work.now) (shape_of IsSet true mark ts tail) result }
    ensures named { (region : Region) → AllNamed work.now region items.now → IfOk result (ShapeNamed work.now region) }
{
    let named = named_tree_of(work, items, end)?;
    Ok(CoreShape::Set {
        name: named.name,
        value: named.rules,
    })
}

/// `(begin form ...)`, with one form at least as an expression.
fn sequence(
    alloc: Global,
    work: &Work,
    items: &[Tree],
    end: Option<Tree>,
    expression: bool,
) -> Result<CoreShape, CoreFault>
    requires { AreStanding work.now items.now }
    ensures read { (mark : Identifier → Option Mark) (ts : Trees Identifier) (tail : Tail Identifier) → PartsStand work.now items.now ts →
        EndStands work.now end tail → Ends work.now (ShapeFor work.now) (shape_of IsBegin expression mark ts tail) result }
    ensures named { (region : Region) → AllNamed work.now region items.now → IfOk result (ShapeNamed work.now region) }
{
    if expression {
        return Ok(CoreShape::Begin(some_of(alloc, work, items, end)?));
    }
    Ok(CoreShape::Begin(proper_of(alloc, work, items, end)?))
}

/// `(define-syntax id rules)`.
fn define_syntax(work: &Work, items: &[Tree], end: Option<Tree>) -> Result<CoreShape, CoreFault>
    requires parts { AreStanding work.now items.now }
    requires tail { EndIsStanding work.now end }
    ensures read { (ts : Trees Identifier) (tail : Tail Identifier) → PartsStand work.now items.now ts → EndStands work.now end tail →
        Ends work.now (IsSyntax work.now) (syntax_of ts tail) result }
    ensures named { (region : Region) → AllNamed work.now region items.now → IfOk result (ShapeNamed work.now region) }
{
    let named = syntax_of(work, items, end)?;
    Ok(CoreShape::DefineSyntax {
        name: named.name,
        rules: named.rules,
    })
}
