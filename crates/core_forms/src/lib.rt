//! The shapes of core forms (R7RS 4.1, 4.2.1, 4.2.8, 4.3, 5.3, 5.5).
#![tactic(auto)]

ghost use Rattle.std.specs.Prelude.{◌≡◌, Option, Some, IfOk};
ghost use Rattle.scheme_model.specs.Trees.{Tree as ModelTree, Trees, Tail};
ghost use Rattle.scheme_model.specs.Keywords.{CoreKeyword as ModelKeyword};
ghost use Rattle.scheme_model.specs.Quasiquote.{Mark};
ghost use Rattle.scheme_model.specs.Ident.{Ident as Identifier};
ghost use Rattle.syntax_tree.specs.Looks.{PartsStand, EndStands, AreStanding};
ghost use Rattle.syntax_tree.specs.Works.{StandsFor, IsStanding, CanName};
ghost use Rattle.core_forms.specs.Forms.{shape_of, shape_in};
ghost use Rattle.core_forms.specs.Marks.{AreMarks};
ghost use Rattle.core_forms.specs.Ends.{keyword_as, Ends, ShapeFor};
ghost use Rattle.core_forms.specs.Named.{ShapeNamed};
ghost use Rattle.syntax_tree.specs.declared.trees.table.Region.{Region};

use ls_base::Items;
use std::alloc::Global;
use syntax_tree::look::{Look, look_at};
use syntax_tree::trees::{Tree, Work};

mod conditional;
mod definition;
mod fault;
mod forms;
mod local_macros;
mod names;
mod procedure;
mod quasi;
mod records;
mod rows;
mod shape;

pub use fault::CoreFault;
pub use shape::{
    Choice, ClauseShape, CoreKeyword, CoreShape, FieldShape, Formals, LocalMacro, NamePart,
    QuasiMark,
};

/// The shape of a core form, or the lowest fault that holds. The form's first part, its keyword, isn't looked at. The marks are the
/// identifiers of a quasiquotation that mean `quasiquote`, `unquote` and `unquote-splicing`.
pub fn parse_core(
    alloc: Global,
    work: &Work,
    keyword: CoreKeyword,
    form: Tree,
    expression: bool,
    marks: &Items<QuasiMark>,
) -> Result<CoreShape, CoreFault>
    requires keyword { (k : ModelKeyword) × (keyword_as keyword ≡ Some k) }
    requires standing { IsStanding work.now form }
    ensures shape { (k : ModelKeyword) (mark : Identifier → Option Mark) (t : ModelTree Identifier) → keyword_as keyword ≡ Some k →
        AreMarks work.now marks.now mark → StandsFor work.now form t →
        Ends work.now (ShapeFor work.now) (shape_in k expression mark t) result }
    ensures named { (region : Region) → CanName work.now region form → IfOk result (ShapeNamed work.now region) }
{
    match look_at(work, form) {
        Look::List(items, end) => match rows::row_of(work, items) {
            rows::Row::Empty => Err(CoreFault::BadForm),
            rows::Row::Parts(_, rest) => {
                forms::shape_of(
                    alloc,
                    work,
                    keyword,
                    rest,
                    end,
                    expression,
                    marks.as_slice(),
                )
            }
        },
        Look::Name(_) => Err(CoreFault::BadForm),
        Look::Atom(_) => Err(CoreFault::BadForm),
        Look::Vector(_) => Err(CoreFault::BadForm),
    }
}
