//! What identifiers mean where they stand, and what a form is by the meaning of its head (R7RS 4.1, 4.3).
ghost use Rattle.std.specs.Prelude.{◌<◌, List, length, Some};
ghost use Rattle.scheme_model.specs.Ident.{Ident as Identifier};
ghost use Rattle.scheme_model.specs.Order.{is_some};
ghost use Rattle.scheme_model.specs.Meaning.{Meaning as ModelMeaning, head_as};
ghost use Rattle.scheme_model.specs.Keywords.{core_named, auxiliary_named};
ghost use Rattle.scheme_model.specs.ScopedExpansion.{Frames, ScopedState, macro_at};
ghost use Rattle.syntax_tree.specs.Macros.{IsIdent};
ghost use Rattle.syntax_tree.specs.Meant.{IsMeaning};
ghost use Rattle.core_forms.specs.Parts.{IsName};
ghost use Rattle.scheme_model.specs.ExpansionFaults.{Named};
ghost use Rattle.core_tree.specs.Names.{IsTarget};
ghost use Rattle.scheme_model.specs.CountedExpansion.{means_here};
ghost use Rattle.form_parts.specs.Heads.{IsHead};
ghost use Rattle.unit_scopes.specs.State.{Stands};
ghost use Rattle.unit_scopes.specs.Outcomes.{At, CanLook};

use crate::scope::UnitScope;
use core_forms::NamePart;
use core_tree::cores::Target;
use form_parts::heads::{Head, auxiliary_named, core_named};
use scope_env::ScopeNo;
use syntax_tree::meaning::Meaning;
use syntax_tree::symbols::IdNo;
use syntax_tree::trees::Work;

impl UnitScope {
    /// What an identifier means in a scope.
    #[inline(always)]
    pub(crate) fn means(&self, work: &Work, scope: ScopeNo, ident: IdNo) -> Meaning
        requires look { CanLook work.now self.now scope }
        requires ident { ident < length work.now.symbols.idents }
        ensures { (ls : List Frames) (s : ScopedState) (fs : Frames) (i : Identifier) → Stands work.now self.now ls s → At ls scope fs → IsIdent work.now.symbols ident i →
            IsMeaning work.now.symbols s.unit s.form result (means_here s fs i) }
    {
        self.env.resolve(scope, ident, &work.symbols)
    }

    /// An identifier where it is used.
    #[inline(always)]
    pub fn target(&self, work: &Work, scope: ScopeNo, name: NamePart) -> Target
        requires look { CanLook work.now self.now scope }
        requires ident { name.ident < length work.now.symbols.idents }
        ensures { (ls : List Frames) (s : ScopedState) (fs : Frames) (n : Named Identifier) → Stands work.now self.now ls s → At ls scope fs → IsName work.now name n →
            IsTarget work.now.symbols s.unit s.form result (record { meaning = means_here s fs n.name; ident = n.name; occ = n.occ }) }
    {
        Target {
            meaning: self.means(work, scope, name.ident),
            ident: name.ident,
            occ: name.occ,
        }
    }

    /// What a form is whose head means this.
    pub fn head_by(&self, work: &Work, meaning: Meaning) -> Head
        requires { (ls : List Frames) × ((s : ScopedState) × Stands work.now self.now ls s × ((m : ModelMeaning) × IsMeaning work.now.symbols s.unit s.form meaning m)) }
        ensures { (ls : List Frames) (s : ScopedState) (m : ModelMeaning) → Stands work.now self.now ls s → IsMeaning work.now.symbols s.unit s.form meaning m →
            IsHead result (head_as (λ x. is_some (macro_at s.macros x)) m) }
    {
        if let Meaning::Standard(symbol) = meaning {
            let name = work.symbols.name(symbol);
            if let Some(keyword) = core_named(name) {
                return Head::Core(keyword);
            }
            if let Some(auxiliary) = auxiliary_named(name) {
                return Head::Auxiliary(auxiliary);
            }
        }
        match self.macros.meaning(self.form.number, meaning) {
            Some(_) => Head::Macro,
            None => Head::Other,
        }
    }

    /// What a form is whose head is this identifier in a scope.
    pub(crate) fn head_of(&self, work: &Work, scope: ScopeNo, ident: IdNo) -> Head
        requires look { CanLook work.now self.now scope }
        requires ident { ident < length work.now.symbols.idents }
        ensures { (ls : List Frames) (s : ScopedState) (fs : Frames) (i : Identifier) → Stands work.now self.now ls s → At ls scope fs → IsIdent work.now.symbols ident i →
            IsHead result (head_as (λ x. is_some (macro_at s.macros x)) (means_here s fs i)) }
    {
        self.head_by(work, self.means(work, scope, ident))
    }
}
