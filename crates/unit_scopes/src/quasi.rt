//! Which identifiers of a quasiquotation are marks, by what they mean around it (R7RS 4.2.8).
ghost use Rattle.std.specs.Prelude.{◌≡◌, ◌≢◌, ◌<◌, List, [], length, Option, Some, Ok, IfOk, OnOk};
ghost use Rattle.scheme_model.specs.Trees.{Tree as ModelTree, Trees};
ghost use Rattle.scheme_model.specs.Building.{stands_in, stands_among};
ghost use Rattle.scheme_model.specs.Ident.{Ident as Identifier, same_ident};
ghost use Rattle.scheme_model.specs.ScopedExpansion.{Frames, ScopedState};
ghost use Rattle.syntax_tree.specs.Looks.{PartsStand, StandsWithin, PartsWithin};
ghost use Rattle.syntax_tree.specs.Macros.{IsIdent};
ghost use Rattle.syntax_tree.specs.Works.{StandsFor, IsStanding};
ghost use Rattle.core_forms.specs.Marks.{AreMarks};
ghost use Rattle.core_forms.specs.declared.shape.CoreKeyword.TheVariants as keyword_word;
ghost use Rattle.form_parts.specs.Marked.{mark_word, mark_here, mark_within, AddsMarks};
ghost use Rattle.unit_scopes.specs.State.{Stands};
ghost use Rattle.unit_scopes.specs.Outcomes.{At, CanLook};

use crate::scope::UnitScope;
use core_forms::{CoreKeyword, QuasiMark};
use form_parts::quasi::head_mark;
use ls_base::{Items, Mem};
use scope_env::ScopeNo;
use std::alloc::Global;
use syntax_tree::look::{Look, look_at};
use syntax_tree::symbols::IdNo;
use syntax_tree::trees::{Tree, Work};

impl UnitScope {
    /// The identifiers of a form that are marks, where it is a quasiquotation.
    pub fn marks(
        &self,
        alloc: Global,
        work: &Work,
        scope: ScopeNo,
        core: CoreKeyword,
        form: Tree,
    ) -> Mem<Items<QuasiMark>>
        requires look { CanLook work.now self.now scope }
        requires form { IsStanding work.now form }
        ensures marks { core ≡ keyword_word.Quasiquote → (ls : List Frames) (s : ScopedState) (fs : Frames) (t : ModelTree Identifier) →
            Stands work.now self.now ls s → At ls scope fs → StandsFor work.now form t →
            IfOk result (λ marks. AreMarks work.now marks (mark_within t (mark_here s fs))) }
        ensures none { core ≢ keyword_word.Quasiquote → IfOk result (λ marks. marks ≡ []) }
    {
        let mut marks = Items::new(alloc);
        if core != CoreKeyword::Quasiquote {
            return Ok(marks);
        }
        let depth = work.depth(form);
        self.add_marks(work, scope, form, depth, &mut marks)?;
        Ok(marks)
    }

    /// Adds the marks among the identifiers of a tree that is at most `left` nodes deep.
    #[cycle(marks)]
    fn add_marks(
        &self,
        work: &Work,
        scope: ScopeNo,
        tree: Tree,
        left: u32,
        marks: &mut Items<QuasiMark>,
    ) -> Mem<()>
        requires look { CanLook work.now self.now scope }
        requires within { StandsWithin work.now tree left }
        ensures { (ls : List Frames) (s : ScopedState) (fs : Frames) (t : ModelTree Identifier) → Stands work.now self.now ls s → At ls scope fs →
            StandsFor work.now tree t → OnOk result (AddsMarks work.now.symbols marks.old marks.new (mark_here s fs) (λ i. stands_in same_ident i t)) }
    {
        match look_at(work, tree) {
            Look::Name(ident) => Ok(self.add_mark(work, scope, ident, marks)?),
            Look::Atom(_) => Ok(()),
            Look::Vector(items) => Ok(self.add_all_marks(work, scope, items, left - 1, marks)?),
            Look::List(items, end) => {
                self.add_all_marks(work, scope, items, left - 1, marks)?;
                match end {
                    None => Ok(()),
                    Some(tail) => Ok(self.add_marks(work, scope, tail, left - 1, marks)?),
                }
            }
        }
    }

    /// Adds the marks among the identifiers of trees that are at most `left` nodes deep.
    #[cycle(marks)]
    fn add_all_marks(
        &self,
        work: &Work,
        scope: ScopeNo,
        items: &[Tree],
        left: u32,
        marks: &mut Items<QuasiMark>,
    ) -> Mem<()>
        requires look { CanLook work.now self.now scope }
        requires within { PartsWithin work.now items.now left }
        ensures { (ls : List Frames) (s : ScopedState) (fs : Frames) (ts : Trees Identifier) → Stands work.now self.now ls s → At ls scope fs →
            PartsStand work.now items.now ts → OnOk result (AddsMarks work.now.symbols marks.old marks.new (mark_here s fs) (λ i. stands_among same_ident i ts)) }
    {
        for item in items {
            self.add_marks(work, scope, *item, left, marks)?;
        }
        Ok(())
    }

    /// Adds an identifier, where it is a mark.
    fn add_mark(
        &self,
        work: &Work,
        scope: ScopeNo,
        ident: IdNo,
        marks: &mut Items<QuasiMark>,
    ) -> Mem<()>
        requires look { CanLook work.now self.now scope }
        requires ident { ident < length work.now.symbols.idents }
        ensures { (ls : List Frames) (s : ScopedState) (fs : Frames) (j : Identifier) → Stands work.now self.now ls s → At ls scope fs →
            IsIdent work.now.symbols ident j → OnOk result (AddsMarks work.now.symbols marks.old marks.new (mark_here s fs) (λ i. same_ident i j)) }
    {
        work.symbols.told_apart();
        if let Some(keyword) = self.mark(work, scope, ident) {
            marks.push(QuasiMark { ident, keyword })?;
        }
        Ok(())
    }

    /// What an identifier marks in a quasiquotation.
    fn mark(&self, work: &Work, scope: ScopeNo, ident: IdNo) -> Option<CoreKeyword>
        requires look { CanLook work.now self.now scope }
        requires ident { ident < length work.now.symbols.idents }
        ensures { (ls : List Frames) (s : ScopedState) (fs : Frames) (i : Identifier) → Stands work.now self.now ls s → At ls scope fs →
            IsIdent work.now.symbols ident i → result ≡ mark_word (mark_here s fs i) }
    {
        head_mark(self.head_of(work, scope, ident))
    }
}
