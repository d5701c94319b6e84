//! Macro uses (R7RS 4.3.2): which literals mean the same, the rule that matches, and the instance of its template.
ghost use Rattle.std.specs.Prelude.{◌≡◌, ℕ, true, map, filter, Option, Some, IfOk, ◌+◌, List, OnOk, ◌≤◌, ◌<◌, ◌-◌, [], ◌∷◌, ◌++◌, length, IfSome};
ghost use Rattle.scheme_model.specs.declared.Occ.{Occ};
ghost use Rattle.scheme_model.specs.Trees.{Trees, Tail, name};
ghost use Rattle.scheme_model.specs.Order.{Transformer, WaitingUse as ModelWaiting, comparisons, has_use, use_of, meet_waiting, meet_all};
ghost use Rattle.scheme_model.specs.Ident.{Ident as Identifier};
ghost use Rattle.syntax_tree.specs.Works.{StandsFor, CanName, IsOpened};
ghost use Rattle.scheme_model.specs.ExpansionFaults.{Named};
ghost use Rattle.scheme_model.specs.Requirements.{Known};
ghost use Rattle.scheme_model.specs.RulesShape.{Rules as ModelRules, role_of, dots_of};
ghost use Rattle.scheme_model.specs.Matching.{Chosen, compared};
ghost use Rattle.scheme_model.specs.Cores.{Target as ModelTarget};
ghost use Rattle.scheme_model.specs.ScopedExpansion.{Frames, ScopedState};
ghost use Rattle.syntax_tree.specs.Macros.{identifiers, IsIdent, RulesFor, MatchedFor, AreLeaves};
ghost use Rattle.core_tree.specs.Names.{AllMatch, IsTarget};
ghost use Rattle.unit_scopes.specs.Searched.{searched};
ghost use Rattle.unit_scopes.specs.State.{Stands};
ghost use Rattle.unit_scopes.specs.Used.{UseFor, CanUse, ComparisonFor, AreHeld, comparison_of, match_of_use, use_number, target_at, meanings_equal, build_fault, FindsUse, HasMatch, InstanceFor, Instances};
ghost use Rattle.unit_scopes.specs.Kept.{WaitsFor};
ghost use Rattle.core_forms.specs.Parts.{IsName};
ghost use Rattle.core_forms.specs.declared.shape.NamePart.{NamePart as AnyName};
ghost use Rattle.unit_scopes.specs.Outcomes.{At, EndsHere, CanLook, Grows};
ghost use Rattle.syntax_tree.specs.Numbered.{number_of};
ghost use Rattle.syntax_tree.specs.declared.trees.table.Region.{Region as AnyRegion};
ghost use Rattle.rules_match.specs.Matches.{ArePairs};
ghost use Rattle.rules_build.specs.Builds.{instance};
ghost use Rattle.unit_scopes.specs.Macros.{macro_in};
ghost use Rattle.unit_scopes.specs.Stepped.{with_use_begun, with_uses};
ghost use Rattle.unit_scopes.specs.declared.macros.Macro.{Macro as AnyMacro};

use crate::counting::{MAX_NODES, fails_at};
use crate::scope::UnitScope;
use core_forms::NamePart;
use core_tree::cores::Target;
use core_tree::traces::MacroUse;
use feature_requirements::fault::{ExpandFault, code, fails};
use form_parts::items::WaitingUse;
use form_parts::names::{name_at, name_of};
use ls_base::{Items, Mem, Memory};
use rules_build::{BuildFault, build};
use rules_match::{MatchFault, literal_pairs, match_rules};
use scheme_model::Occ;
use scope_env::ScopeNo;
use std::alloc::Global;
use syntax_tree::meaning::Meaning;
use syntax_tree::rules::{IdPair, Matched};
use syntax_tree::symbols::UseNo;
use syntax_tree::trees::{Region, Tree, Work};

/// The most macro uses of a form.
const MAX_USES: u32 = 10_000;

/// A macro use that is about to be made: where it stands, its keyword, and what means its macro.
#[derive(Clone, Copy)]
pub struct Use {
    pub scope: ScopeNo,
    pub here: Option<Occ>,
    pub keyword: Target,
    pub form: Tree,
}

/// What a macro use gives: its tree, and the use, which is still to be met.
#[derive(Drop)]
pub struct Instance {
    pub tree: Tree,
    pub met: WaitingUse,
}

/// A literal of rules and the identifier at its place, and whether they mean the same.
#[derive(Clone, Copy)]
pub struct Comparison {
    pub pair: IdPair,
    pub held: bool,
}

impl UnitScope {
    /// The comparisons of a use, and the scope of its macro. One that the budget refuses has none.
    pub fn compare(&self, alloc: Global, work: &Work, at: Use) -> Mem<(ScopeNo, Vec<Comparison>)>
        requires { CanUse work.now self.now at }
        ensures { (known : Known) (ls : List Frames) (s : ScopedState) (fs : Frames) (keyword : ModelTarget) (m : Transformer Frames Identifier) (ts : Trees Identifier) (tail : Tail Identifier) →
            Stands work.now self.now ls s → At ls at.scope fs → UseFor work.now s at keyword m ts tail →
            IfOk result (λ p. At ls p.0 m.env × AllMatch (ComparisonFor work.now ls p.0 at.scope) p.1.items (comparisons (searched known) fs m ts tail s)) }
    {
        let Some(used) = self.macros.meaning(self.form.number, at.keyword.meaning) else {
            return Ok((at.scope, Vec::new(alloc)));
        };
        if self.form.budget.uses == MAX_USES {
            return Ok((used.scope, Vec::new(alloc)));
        }
        let pairs = literal_pairs(alloc, work, &used.rules, at.form)?;
        let comparisons = self.compare_each(alloc, work, used.scope, at.scope, pairs.as_slice())?;
        Ok((used.scope, comparisons))
    }

    /// Whether each literal means in one scope the same as the identifier beside it in another.
    fn compare_each(
        &self,
        alloc: Global,
        work: &Work,
        literal_scope: ScopeNo,
        scope: ScopeNo,
        pairs: &[IdPair],
    ) -> Mem<Vec<Comparison>>
        requires literals { CanLook work.now self.now literal_scope }
        requires look { CanLook work.now self.now scope }
        requires pairs { (qs : List (Identifier × Identifier)) × ArePairs work.now pairs.now qs }
        ensures { (ls : List Frames) (s : ScopedState) (gs : Frames) (fs : Frames) (qs : List (Identifier × Identifier)) → Stands work.now self.now ls s → At ls literal_scope gs → At ls scope fs →
            ArePairs work.now pairs.now qs → IfOk result (λ cs. AllMatch (ComparisonFor work.now ls literal_scope scope) cs.items (map (comparison_of s gs fs) qs)) }
    {
        let mut comparisons = Vec::new(alloc);
        for pair in pairs {
            comparisons.push(self.comparison(work, literal_scope, scope, *pair))?;
        }
        Ok(comparisons)
    }

    /// Whether a literal means in one scope the same as the identifier beside it in another.
    fn comparison(
        &self,
        work: &Work,
        literal_scope: ScopeNo,
        scope: ScopeNo,
        pair: IdPair,
    ) -> Comparison
        requires literals { CanLook work.now self.now literal_scope }
        requires look { CanLook work.now self.now scope }
        requires literal { pair.literal < length work.now.symbols.idents }
        requires ident { pair.ident < length work.now.symbols.idents }
        ensures { (ls : List Frames) (s : ScopedState) (gs : Frames) (fs : Frames) (l : Identifier) (i : Identifier) → Stands work.now self.now ls s → At ls literal_scope gs → At ls scope fs →
            IsIdent work.now.symbols pair.literal l → IsIdent work.now.symbols pair.ident i → ComparisonFor work.now ls literal_scope scope result (comparison_of s gs fs (l, i)) }
    {
        work.symbols.told_apart();
        let literal = self.means(work, literal_scope, pair.literal);
        let ident = self.means(work, scope, pair.ident);
        Comparison {
            pair,
            held: same_meaning(literal, ident),
        }
    }

    /// What a use gives, where these literals mean the same as the identifiers at their places.
    pub fn apply(
        &mut self,
        alloc: Global,
        work: &mut Work,
        region: &Region,
        at: Use,
        same: &Items<IdPair>,
    ) -> Result<Instance, ExpandFault>
        requires opened { IsOpened work.old region.now }
        requires usable { CanUse work.old self.old at }
        requires named { CanName work.old region.now at.form }
        ensures used { (known : Known) (ls : List Frames) (s : ScopedState) (fs : Frames) (keyword : ModelTarget) (m : Transformer Frames Identifier) (ts : Trees Identifier) (tail : Tail Identifier) →
            Stands work.old self.old ls s → At ls at.scope fs → UseFor work.old s at keyword m ts tail →
            (has_use (searched known) s ≡ true → AreHeld work.old s m.env fs same.now (compared (role_of identifiers m.rules) (dots_of identifiers m.rules) m.rules.rules ts tail)) →
            EndsHere (InstanceFor work.new region.now self.new.unit self.new.form.number) work.old work.new region.now self.old self.new ls result (use_of (searched known) at.here fs keyword m ts tail s) }
        ensures counted { OnOk result (self.new.form.budget.uses ≡ self.old.form.budget.uses + 1) }
        ensures locals { OnOk result (self.new.form.budget.locals ≡ self.old.form.budget.locals) }
        ensures scopes { self.new.env.scopes ≡ self.old.env.scopes }
        ensures trace { self.new.form.trace ≡ self.old.form.trace }
        ensures macros { self.new.macros ≡ self.old.macros }
    {
        if self.form.budget.uses == MAX_USES {
            return Err(fails(at.here, code::USE_BUDGET));
        }
        let matched = self.match_use(alloc, work, at, same)?;
        let scope = self.macro_scope(at.keyword.meaning);
        let number = self.begin_use(scope)?;
        let Some(matched) = matched else {
            return Err(fails_at(at.here, code::NO_RULE, name_of(at.keyword)));
        };
        let tree = self.instance(alloc, work, region, at, number, &matched)?;
        work.symbols.told_apart();
        let literals = leaf_names(alloc, work, matched.literals.as_slice())?;
        Ok(Instance {
            tree,
            met: WaitingUse {
                keyword: at.keyword,
                literals,
            },
        })
    }

    /// The rule that a use matches, where one does.
    fn match_use(
        &self,
        alloc: Global,
        work: &Work,
        at: Use,
        same: &Items<IdPair>,
    ) -> Mem<Option<Matched>>
        requires { CanUse work.now self.now at }
        ensures found { (ls : List Frames) (s : ScopedState) (fs : Frames) (keyword : ModelTarget) (m : Transformer Frames Identifier) (ts : Trees Identifier) (tail : Tail Identifier) →
            Stands work.now self.now ls s → UseFor work.now s at keyword m ts tail →
            AreHeld work.now s m.env fs same.now (compared (role_of identifiers m.rules) (dots_of identifiers m.rules) m.rules.rules ts tail) →
            IfOk result (λ o. FindsUse work.now m.rules (match_of_use s fs m ts tail) o) }
        ensures matched { (region : AnyRegion) → CanName work.now region at.form → IfOk result (λ o. IfSome o (λ matched. HasMatch work.now region self.now at matched)) }
    {
        let Some(used) = self.macros.meaning(self.form.number, at.keyword.meaning) else {
            return Ok(None);
        };
        match match_rules(alloc, work, &used.rules, at.form, same) {
            Ok(matched) => Ok(Some(matched)),
            Err(MatchFault::NoRule) => Ok(None),
            Err(MatchFault::Memory) => Err(Memory),
        }
    }

    /// The scope of the macro that this means.
    fn macro_scope(&self, meaning: Meaning) -> ScopeNo
        ensures { (k : AnyMacro) → macro_in self.now.macros self.now.form.number meaning ≡ Some k → result ≡ k.scope }
    {
        match self.macros.meaning(self.form.number, meaning) {
            Some(used) => used.scope,
            None => self.root,
        }
    }

    /// Begins the next use of the form, of a macro of this scope.
    fn begin_use(&mut self, scope: ScopeNo) -> Mem<UseNo>
        requires scope { scope < length self.old.env.scopes }
        requires few { self.old.form.budget.uses < 10000 }
        ensures begun { OnOk result (self.new ≡ with_use_begun self.old scope) }
        ensures number { IfOk result (λ number. number_of number ≡ use_number self.old) }
        ensures scopes { self.new.env.scopes ≡ self.old.env.scopes }
        ensures trace { self.new.form.trace ≡ self.old.form.trace }
        ensures macros { self.new.macros ≡ self.old.macros }
    {
        let number = UseNo {
            unit: self.unit,
            form: self.form.number,
            count: self.form.budget.uses,
        };
        self.env.note_use(number, scope)?;
        self.form.budget.uses += 1;
        Ok(number)
    }

    /// The instance of the template of the rule that matched.
    fn instance(
        &mut self,
        alloc: Global,
        work: &mut Work,
        region: &Region,
        at: Use,
        number: UseNo,
        matched: &Matched,
    ) -> Result<Tree, ExpandFault>
        requires opened { IsOpened work.old region.now }
        requires matched { HasMatch work.old region.now self.old at matched.now }
        requires few { self.old.form.budget.nodes ≤ 200000 }
        ensures built { (k : AnyMacro) (r : ModelRules Identifier) (m : Chosen Identifier Identifier) → macro_in self.old.macros self.old.form.number at.keyword.meaning ≡ Some k →
            RulesFor work.old k.rules r → MatchedFor work.old matched.now r m →
            Instances work.old work.new region.now self.old self.new at.here (instance r (number_of number) m (200000 - self.old.form.budget.nodes)) result }
        ensures grows { Grows work.old work.new region.now }
        ensures scopes { self.new.env.scopes ≡ self.old.env.scopes }
        ensures trace { self.new.form.trace ≡ self.old.form.trace }
        ensures macros { self.new.macros ≡ self.old.macros }
    {
        let Some(used) = self.macros.meaning(self.form.number, at.keyword.meaning) else {
            return Err(fails(at.here, code::BAD_FORM));
        };
        let mut left = MAX_NODES - self.form.budget.nodes;
        let built = build(alloc, work, region, &used.rules, matched, number, &mut left);
        self.form.budget.nodes = MAX_NODES - left;
        match built {
            Ok(tree) => Ok(tree),
            Err(fault) => Err(build_fails(at.here, fault)),
        }
    }

    /// Identifiers where they are used.
    fn targets(
        &self,
        alloc: Global,
        work: &Work,
        scope: ScopeNo,
        names: &[NamePart],
    ) -> Mem<Vec<Target>>
        requires look { CanLook work.now self.now scope }
        requires names { (ns : List (Named Identifier)) × AllMatch (IsName work.now) names.now ns }
        ensures { (ls : List Frames) (s : ScopedState) (fs : Frames) (ns : List (Named Identifier)) → Stands work.now self.now ls s → At ls scope fs → AllMatch (IsName work.now) names.now ns →
            IfOk result (λ targets. AllMatch (IsTarget work.now.symbols s.unit s.form) targets.items (map (target_at s fs) ns)) }
    {
        let mut targets = Vec::new(alloc);
        for name in names {
            targets.push(self.target(work, scope, *name))?;
        }
        Ok(targets)
    }

    /// A macro use is met, with what its literals mean by now.
    pub fn meet(&mut self, alloc: Global, work: &Work, scope: ScopeNo, used: &WaitingUse) -> Mem<()>
        requires look { CanLook work.now self.old scope }
        requires waits { (w : ModelWaiting Identifier) × WaitsFor work.now self.old.unit self.old.form.number used.now w }
        ensures met { (known : Known) (ls : List Frames) (s : ScopedState) (fs : Frames) (w : ModelWaiting Identifier) → Stands work.now self.old ls s → At ls scope fs →
            WaitsFor work.now self.old.unit self.old.form.number used.now w →
            OnOk result (Stands work.now self.new ls (meet_waiting (searched known) fs w s)) }
        ensures rest { OnOk result (self.new ≡ with_uses self.old self.new.form.trace.uses) }
    {
        let literals = self.targets(alloc, work, scope, used.literals.as_slice())?;
        self.form.trace.uses.push(MacroUse {
            keyword: used.keyword,
            literals,
        })?;
        Ok(())
    }

    /// Macro uses are met, one after another.
    pub fn meet_all(
        &mut self,
        alloc: Global,
        work: &Work,
        scope: ScopeNo,
        uses: &[WaitingUse],
    ) -> Mem<()>
        requires look { CanLook work.now self.old scope }
        requires waits { (us : List (ModelWaiting Identifier)) × AllMatch (WaitsFor work.now self.old.unit self.old.form.number) uses.now us }
        ensures met { (known : Known) (ls : List Frames) (s : ScopedState) (fs : Frames) (us : List (ModelWaiting Identifier)) → Stands work.now self.old ls s → At ls scope fs →
            AllMatch (WaitsFor work.now self.old.unit self.old.form.number) uses.now us →
            OnOk result (Stands work.now self.new ls (meet_all (searched known) fs us s)) }
        ensures rest { OnOk result (self.new ≡ with_uses self.old self.new.form.trace.uses) }
    {
        for used in uses {
            self.meet(alloc, work, scope, used)?;
        }
        Ok(())
    }
}

/// The identifiers that leaves are, with their places.
fn leaf_names(alloc: Global, work: &Work, leaves: &[Tree]) -> Mem<Vec<NamePart>>
    requires { (ns : List (Named Identifier)) × AreLeaves work.now leaves.now ns }
    ensures { (ns : List (Named Identifier)) → AreLeaves work.now leaves.now ns → IfOk result (λ names. AllMatch (IsName work.now) names.items ns) }
{
    let mut names = Vec::new(alloc);
    for leaf in leaves {
        add_name(work, *leaf, &mut names)?;
    }
    Ok(names)
}

/// Adds the identifier that a leaf is.
fn add_name(work: &Work, leaf: Tree, names: &mut Vec<NamePart>) -> Mem<()>
    requires { (n : Named Identifier) × StandsFor work.now leaf (name n.name n.occ) }
    ensures { (n : Named Identifier) → StandsFor work.now leaf (name n.name n.occ) → OnOk result ((x : AnyName) × (names.new.items ≡ names.old.items ++ x ∷ []) × IsName work.now x n) }
{
    let Some(name) = name_at(work, leaf) else {
        return Ok(());
    };
    names.push(name)?;
    Ok(())
}

/// Whether two identifiers mean the same.
pub(crate) fn same_meaning(a: Meaning, b: Meaning) -> bool
    ensures { result ≡ meanings_equal a b }
{
    a == b
}

/// The fault of an instance that couldn't be built.
fn build_fails(here: Option<Occ>, fault: BuildFault) -> ExpandFault
    ensures { result ≡ build_fault here fault }
{
    match fault {
        BuildFault::EllipsisLength => fails(here, code::ELLIPSIS_LENGTH),
        BuildFault::NodeBudget => fails(here, code::NODE_BUDGET),
        BuildFault::DepthBudget => fails(here, code::DEPTH_BUDGET),
        BuildFault::Full => ExpandFault::Full,
        BuildFault::Memory => ExpandFault::Memory,
    }
}

/// Which comparisons held.
pub fn held(alloc: Global, comparisons: &[Comparison]) -> Mem<Items<IdPair>>
    ensures { IfOk result (λ same. same ≡ map (λ c. c.pair) (filter (λ c. c.held) comparisons.now)) }
{
    let mut same = Items::new(alloc);
    for comparison in comparisons {
        if comparison.held {
            same.push(comparison.pair)?;
        }
    }
    Ok(same)
}
