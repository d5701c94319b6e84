//! The rules of macros where they are defined (R7RS 4.3.1, 5.4): a list whose head means `syntax-rules`.
ghost use Rattle.std.specs.Prelude.{◌≡◌, List, ◌++◌, Some, IfOk, OnOk, [], map, None};
ghost use Rattle.scheme_model.specs.Ident.{Ident as Identifier};
ghost use Rattle.scheme_model.specs.Trees.{Tree as ModelTree};
ghost use Rattle.scheme_model.specs.Order.{rules_parts_of, Note as ModelNote, RulesParts, rules_parts, rules_note, rules_at, is_rules};
ghost use Rattle.syntax_tree.specs.Works.{StandsFor, IsStanding};
ghost use Rattle.unit_scopes.specs.Told.{rules_fault, told};
ghost use Rattle.scheme_model.specs.Requirements.{Known};
ghost use Rattle.scheme_model.specs.Cores.{Binder as ModelBinder};
ghost use Rattle.scheme_model.specs.Expression.{meaning_of, macro_def};
ghost use Rattle.scheme_model.specs.Meaning.{Head as ModelHead};
ghost use Rattle.form_parts.specs.Heads.{IsHead};
ghost use Rattle.scheme_model.specs.ScopedExpansion.{Frames, FramedIdent, ScopedState};
ghost use Rattle.syntax_tree.specs.Meant.{IsMeaning};
ghost use Rattle.syntax_tree.specs.declared.trees.table.Region.{Region as AnyRegion};
ghost use Rattle.scheme_model.specs.Leaves.{Leaf as ModelLeaf};
ghost use Rattle.rules_check.specs.Gathered.{AreLeaves};
ghost use Rattle.core_tree.specs.Names.{AllMatch, IsBinder, IsLeaf, IsMacro as IsMacroDef};
ghost use Rattle.unit_scopes.specs.Searched.{searched};
ghost use Rattle.unit_scopes.specs.State.{IsMacro, Stands};
ghost use Rattle.unit_scopes.specs.Kept.{NotesFor};
ghost use Rattle.unit_scopes.specs.Outcomes.{At, CanLook, EndsHere};
ghost use Rattle.unit_scopes.specs.RulesTold.{CanTell, Tests, definition_leaf};
ghost use Rattle.unit_scopes.specs.Counts.{CountsSome};
ghost use Rattle.unit_scopes.specs.Asks.{AskedStands};

use crate::asked::{Asked, Asking, Note};
use crate::counting::fails_at;
use crate::macros::{Macro, copy_rules};
use crate::scope::UnitScope;
use core_forms::NamePart;
use core_tree::cores::{Binder, MacroDef, RuleLeaf as CoreLeaf};
use feature_requirements::fault::{ExpandFault, code, fails};
use form_parts::heads::{Auxiliary, Head, rules_head};
use ls_base::{Items, Mem};
use rules_check::{RuleLeaf, RulesFault, check, leaves};
use scheme_model::Occ;
use scope_env::ScopeNo;
use std::alloc::Global;
use syntax_tree::meaning::Meaning;
use syntax_tree::rules::{Named, Rules};
use syntax_tree::trees::{Tree, Work};

/// An identifier with its place, as core forms have it.
fn part(name: Named) -> NamePart
    ensures ident { result.ident ≡ name.ident }
    ensures place { result.occ ≡ name.occ }
{
    NamePart {
        ident: name.ident,
        occ: name.occ,
    }
}

/// No rules, which take no memory.
fn no_rules(alloc: Global) -> Rules
    ensures { result ≡ record { ellipsis = None; literals = []; rules = [] } }
{
    Rules {
        ellipsis: None,
        literals: Items::new(alloc),
        rules: Items::new(alloc),
    }
}

/// Whether a head means `syntax-rules`.
fn is_rules(head: Head) -> bool
    ensures { (h : ModelHead) → IsHead head h → result ≡ is_rules h }
{
    match head {
        Head::Auxiliary(Auxiliary::SyntaxRules) => true,
        Head::Auxiliary(Auxiliary::Unquote) => false,
        Head::Auxiliary(Auxiliary::UnquoteSplicing) => false,
        Head::Auxiliary(Auxiliary::Other) => false,
        Head::Core(_) | Head::Macro | Head::Other => false,
    }
}

impl UnitScope {
    /// Notes what the head of rules was taken for.
    pub fn note_rules(&self, work: &Work, scope: ScopeNo, rules: Tree, asked: &mut Asked) -> Mem<()>
        requires look { CanLook work.now self.now scope }
        requires rules { IsStanding work.now rules }
        ensures stands { AskedStands work.now.symbols asked.old → OnOk result (AskedStands work.now.symbols asked.new) }
        ensures notes { (known : Known) (ls : List Frames) (s : ScopedState) (fs : Frames) (t : ModelTree Identifier) (ns : List (ModelNote FramedIdent)) → Stands work.now self.now ls s →
            At ls scope fs → StandsFor work.now rules t → NotesFor work.now ls asked.old ns →
            OnOk result (NotesFor work.now ls asked.new (rules_note (searched known) fs s (rules_parts_of t) ++ ns)) }
    {
        let Some(ident) = rules_head(work, rules) else {
            return Ok(());
        };
        let keyword = self.head_of(work, scope, ident).is_keyword();
        let at = Asking { scope, ident };
        asked.push(
            &work.symbols,
            Note::LookedUp {
                at,
                head: false,
                keyword,
            },
        )?;
        Ok(())
    }

    /// Tests that the head of rules means `syntax-rules`.
    pub fn test_rules(
        &self,
        work: &Work,
        scope: ScopeNo,
        here: Option<Occ>,
        rules: Tree,
    ) -> Result<(), ExpandFault>
        requires look { CanLook work.now self.now scope }
        requires rules { IsStanding work.now rules }
        ensures { (known : Known) (ls : List Frames) (s : ScopedState) (fs : Frames) (t : ModelTree Identifier) → Stands work.now self.now ls s →
            At ls scope fs → StandsFor work.now rules t → Tests work.now s result (rules_parts (searched known) here fs (rules_parts_of t) s) }
    {
        let Some(ident) = rules_head(work, rules) else {
            return Err(fails(here, code::BAD_FORM));
        };
        if !is_rules(self.head_of(work, scope, ident)) {
            return Err(fails(here, code::BAD_FORM));
        }
        Ok(())
    }

    /// Counts rules and checks them: the macro of this scope that they make.
    pub fn read_macro(
        &mut self,
        alloc: Global,
        work: &Work,
        scope: ScopeNo,
        here: Option<Occ>,
        rules: Tree,
    ) -> Result<Macro, ExpandFault>
        requires look { CanLook work.now self.old scope }
        requires rules { IsStanding work.now rules }
        ensures read { (known : Known) (region : AnyRegion) (ls : List Frames) (s : ScopedState) (fs : Frames) (t : ModelTree Identifier) (r : RulesParts Identifier) →
            Stands work.now self.old ls s → At ls scope fs → StandsFor work.now rules t → rules_parts_of t ≡ Some r →
            EndsHere (λ k rs. IsMacro work.now ls k (record { env = fs; rules = rs })) work.now work.now region self.old self.new ls result (rules_at (searched known) here t r s) }
        ensures nodes { CountsSome self.old self.new }
        ensures counts { OnOk result ((self.new.form.budget.locals ≡ self.old.form.budget.locals) × (self.new.form.budget.uses ≡ self.old.form.budget.uses)) }
    {
        self.count(here, work.size(rules))?;
        match check(alloc, work, rules) {
            Ok(checked) => {
                let leaves = leaves(alloc, work, rules, &checked)?;
                Ok(Macro {
                    scope,
                    rules: checked,
                    leaves,
                    edition: 0,
                })
            }
            Err(fault) => Err(bad_rules(here, fault)),
        }
    }

    /// A macro with its leaves and what these mean where it is defined, once all definitions there stand.
    pub fn macro_def(
        &self,
        alloc: Global,
        work: &Work,
        binder: Binder,
        meaning: Meaning,
    ) -> Mem<MacroDef>
        requires { CanTell work.now self.now meaning }
        ensures { (known : Known) (ls : List Frames) (s : ScopedState) (b : ModelBinder) → Stands work.now self.now ls s → IsBinder work.now.symbols s.unit s.form binder b →
            IsMeaning work.now.symbols s.unit s.form meaning (meaning_of b.bound b.ident) → IfOk result (λ d. IsMacroDef work.now s.unit s.form d (macro_def (searched known) s b)) }
    {
        let Some(defined) = self.macros.meaning(self.form.number, meaning) else {
            return Ok(MacroDef {
                binder,
                rules: no_rules(alloc),
                leaves: Vec::new(alloc),
            });
        };
        let leaves = self.rule_leaves(alloc, work, defined.scope, defined.leaves.as_slice())?;
        let rules = copy_rules(alloc, &defined.rules)?;
        Ok(MacroDef {
            binder,
            rules,
            leaves,
        })
    }

    /// The leaves of rules with what they mean in the scope of their macro.
    fn rule_leaves(
        &self,
        alloc: Global,
        work: &Work,
        scope: ScopeNo,
        leaves: &[RuleLeaf],
    ) -> Mem<Vec<CoreLeaf>>
        requires look { CanLook work.now self.now scope }
        requires leaves { (ms : List (ModelLeaf Identifier)) × AreLeaves work.now.symbols leaves.now ms }
        ensures { (ls : List Frames) (s : ScopedState) (fs : Frames) (ms : List (ModelLeaf Identifier)) → Stands work.now self.now ls s → At ls scope fs →
            AreLeaves work.now.symbols leaves.now ms → IfOk result (λ found. AllMatch (IsLeaf work.now.symbols s.unit s.form) found.items (map (definition_leaf s fs) ms)) }
    {
        let mut found = Vec::new(alloc);
        for leaf in leaves {
            found.push(CoreLeaf {
                target: self.target(work, scope, part(leaf.name)),
                literal: leaf.literal,
            })?;
        }
        Ok(found)
    }
}

/// The fault of rules that are none.
fn bad_rules(here: Option<Occ>, fault: RulesFault) -> ExpandFault
    ensures { result ≡ told here (rules_fault fault) }
{
    match fault {
        RulesFault::BadShape => fails(here, code::BAD_RULES),
        RulesFault::TwoEllipses => fails(here, code::TWO_ELLIPSES),
        RulesFault::DuplicateVariable(name) => {
            fails_at(here, code::DUPLICATE_VARIABLE, part(name))
        }
        RulesFault::Depth(name) => { fails_at(here, code::ELLIPSIS_DEPTH, part(name)) }
        RulesFault::IdleEllipsis => fails(here, code::IDLE_ELLIPSIS),
        RulesFault::Memory => ExpandFault::Memory,
    }
}
