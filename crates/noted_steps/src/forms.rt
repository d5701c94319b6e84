//! What a core form asks before it is read, noted (R7RS 4.2.1, 4.2.8).
ghost use Rattle.std.specs.Prelude.{◌≡◌, List, Option, Some};
ghost use Rattle.scheme_model.specs.declared.Occ.{Occ};
ghost use Rattle.scheme_model.specs.Ident.{Ident as Identifier};
ghost use Rattle.scheme_model.specs.Keywords.{CoreKeyword as ModelKeyword};
ghost use Rattle.scheme_model.specs.Requirements.{Known};
ghost use Rattle.scheme_model.specs.ScopedExpansion.{Frames};
ghost use Rattle.scheme_model.specs.Trees.{Tree as ModelTree, Trees, Tail, list, tree};
ghost use Rattle.syntax_tree.specs.Works.{IsStanding, StandsFor};
ghost use Rattle.core_forms.specs.Ends.{keyword_as};
ghost use Rattle.feature_requirements.specs.Judged.{Knows};
ghost use Rattle.unit_scopes.specs.Outcomes.{At, CanLook};
ghost use Rattle.noted_steps.specs.Asked.{form_asked};
ghost use Rattle.noted_steps.specs.Noting.{Noting};
ghost use Rattle.noted_steps.specs.Standing.{Stands, with_notes};

use crate::libraries::note_libraries;
use crate::marks::note_marks;
use core_forms::CoreKeyword;
use scope_env::ScopeNo;
use std::alloc::Global;
use syntax_tree::trees::{Tree, Work};
use unit_scopes::scope::UnitScope;

/// Notes what a core form asks before it is read.
pub fn note_form(
    units: &mut UnitScope,
    alloc: Global,
    work: &Work,
    scope: ScopeNo,
    core: CoreKeyword,
    form: Tree,
)
    requires look { CanLook work.now units.old scope }
    requires form { IsStanding work.now form }
    ensures noted { (known : Known) (ls : List Frames) (s : Noting) (fs : Frames) (c : ModelKeyword) (head : ModelTree Identifier) (ts : Trees Identifier) (tail : Tail Identifier) (o : Option Occ) → Knows units.old.libraries known →
        Stands work.now units.old ls s → At ls scope fs → keyword_as core ≡ Some c → StandsFor work.now form (list (tree head ts) tail o) → Stands work.now units.new ls (form_asked known fs c ts tail s) }
    ensures rest { units.new ≡ with_notes units.old units.new.form.trace.notes }
{
    match core {
        CoreKeyword::Quasiquote => note_marks(units, work, scope, form),
        CoreKeyword::CondExpand => note_libraries(units, alloc, work, form),
        _ => {}
    }
}
