//! What the heads within a quasiquotation mark, and what it counts (R7RS 4.2.8).
ghost use Rattle.std.specs.Prelude.{◌≡◌, ◌+◌, ◌<◌, Option, Some, Ok};
ghost use Rattle.scheme_model.specs.Trees.{Tree as ModelTree};
ghost use Rattle.scheme_model.specs.Meaning.{Head as ModelHead, IsCore, IsAuxiliary};
ghost use Rattle.scheme_model.specs.Keywords.{CoreKeyword as ModelKeyword};
ghost use Rattle.scheme_model.specs.Quasiquote.{Mark, Pieces, quasi_of};
ghost use Rattle.scheme_model.specs.Cores.{outside};
ghost use Rattle.scheme_model.specs.Expression.{mark_of};
ghost use Rattle.scheme_model.specs.Ident.{Ident as Identifier};
ghost use Rattle.syntax_tree.specs.Works.{StandsFor};
ghost use Rattle.core_forms.specs.Ends.{keyword_as};
ghost use Rattle.core_forms.specs.Parts.{AllMatch};
ghost use Rattle.form_parts.specs.Heads.{auxiliary_as, IsHead};
ghost use Rattle.form_parts.specs.Marked.{mark_word, IsQuasi};

use crate::heads::{Auxiliary, Head};
use core_forms::CoreKeyword;
use syntax_tree::trees::{Tree, Work};

/// How many nodes of a datum stand outside of its unquoted expressions, with that of the quasiquotation itself.
pub fn outside(work: &Work, datum: Tree, parts: &[Tree]) -> u32
    requires { IsQuasi work.now datum parts.now }
    ensures { (mark : Identifier → Option Mark) (t : ModelTree Identifier) (p : Pieces Identifier) → StandsFor work.now datum t →
        AllMatch (StandsFor work.now) parts.now p.holes → quasi_of mark t ≡ Ok p → result ≡ 1 + outside p.datum }
{
    let mut count = work.size(datum) + 1;
    for part in parts {
        count -= work.size(*part);
    }
    count
}

/// What the keyword of a core form marks in a quasiquotation.
fn core_mark(core: CoreKeyword) -> Option<CoreKeyword>
    ensures { (k : ModelKeyword) → keyword_as core ≡ Some k → result ≡ mark_word (mark_of (IsCore k)) }
{
    match core {
        CoreKeyword::Quasiquote => Some(CoreKeyword::Quasiquote),
        _ => None,
    }
}

/// What an auxiliary keyword marks in a quasiquotation.
fn auxiliary_mark(auxiliary: Auxiliary) -> Option<CoreKeyword>
    ensures { result ≡ mark_word (mark_of (IsAuxiliary (auxiliary_as auxiliary))) }
{
    match auxiliary {
        Auxiliary::Unquote => Some(CoreKeyword::Unquote),
        Auxiliary::UnquoteSplicing => Some(CoreKeyword::UnquoteSplicing),
        Auxiliary::SyntaxRules | Auxiliary::Other => None,
    }
}

/// What a head marks in a quasiquotation.
pub fn head_mark(head: Head) -> Option<CoreKeyword>
    ensures { (h : ModelHead) → IsHead head h → result ≡ mark_word (mark_of h) }
{
    match head {
        Head::Core(core) => core_mark(core),
        Head::Auxiliary(auxiliary) => auxiliary_mark(auxiliary),
        Head::Macro | Head::Other => None,
    }
}
