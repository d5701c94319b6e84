//! A macro use (R7RS 4.3.2): what it asks is noted, its macro's rules and its comparisons, and then it gives a tree.
ghost use Rattle.std.specs.Prelude.{◌≡◌, ℕ, ◌+◌, IfOk, OnOk};
ghost use Rattle.scheme_model.specs.Ident.{Ident as Identifier};
ghost use Rattle.scheme_model.specs.Requirements.{Known};
ghost use Rattle.scheme_model.specs.Order.{Transformer, comparisons, use_of};
ghost use Rattle.scheme_model.specs.Cores.{Target as ModelTarget};
ghost use Rattle.scheme_model.specs.Trees.{Trees, Tail};
ghost use Rattle.scheme_model.specs.ScopedExpansion.{Frames};
ghost use Rattle.std.specs.Prelude.{List};
ghost use Rattle.syntax_tree.specs.Works.{IsOpened, CanName};
ghost use Rattle.core_tree.specs.Names.{AllMatch};
ghost use Rattle.unit_scopes.specs.Outcomes.{At as Stand};
ghost use Rattle.unit_scopes.specs.Used.{ComparisonFor, InstanceFor};
ghost use Rattle.noted_steps.specs.Noting.{Noting, noting};
ghost use Rattle.noted_steps.specs.Standing.{Stands, with_notes};
ghost use Rattle.noted_steps.specs.Used.{compared_first};
ghost use Rattle.noted_steps.specs.Outcomes.{EndsHere};
ghost use Rattle.noted_steps.specs.Kept.{CanUse, UseFor};
ghost use Rattle.expander.specs.Ready.{rules_asked};

use feature_requirements::fault::ExpandFault;
use ls_base::Mem;
use noted_steps::noted::{note_comparisons, note_use};
use scope_env::ScopeNo;
use std::alloc::Global;
use syntax_tree::trees::{Region, Work};
use unit_scopes::scope::UnitScope;
use unit_scopes::uses::{Comparison, Instance, Use, held};

/// The comparisons of a use, and the scope of its macro. They are noted, and so is which rules the macro has.
pub(crate) fn compare_use(
    units: &mut UnitScope,
    alloc: Global,
    work: &Work,
    at: Use,
) -> Mem<(ScopeNo, Vec<Comparison>)>
    requires { CanUse work.now units.old at }
    ensures compared { (known : Known) (ls : List Frames) (s : Noting) (fs : Frames) (keyword : ModelTarget) (m : Transformer Frames Identifier) (ts : Trees Identifier) (tail : Tail Identifier) →
        Stands work.now units.old ls s → Stand ls at.scope fs → UseFor work.now s at keyword m ts tail →
        IfOk result (λ p. Stand ls p.0 m.env × AllMatch (ComparisonFor work.now ls p.0 at.scope) p.1.items (comparisons (noting known) fs m ts tail s) × Stands work.now units.new ls (compared_first (noting known) fs m ts tail (rules_asked known keyword s))) }
    ensures rest { units.new ≡ with_notes units.old units.new.form.trace.notes }
{
    note_use(units, at.keyword.meaning);
    let (scope, comparisons) = units.compare(alloc, work, at)?;
    note_comparisons(units, work, scope, at.scope, &comparisons);
    Ok((scope, comparisons))
}

/// What a use gives, once its comparisons were noted.
pub(crate) fn apply_use(
    units: &mut UnitScope,
    alloc: Global,
    work: &mut Work,
    region: &Region,
    at: Use,
    compared: &[Comparison],
) -> Result<Instance, ExpandFault>
    requires opened { IsOpened work.old region.now }
    requires usable { CanUse work.old units.old at }
    requires named { CanName work.old region.now at.form }
    ensures used { (known : Known) (ls : List Frames) (s : Noting) (fs : Frames) (keyword : ModelTarget) (m : Transformer Frames Identifier) (ts : Trees Identifier) (tail : Tail Identifier) (scope : ℕ) →
        Stands work.old units.old ls (compared_first (noting known) fs m ts tail s) → Stand ls at.scope fs → UseFor work.old s at keyword m ts tail →
        AllMatch (ComparisonFor work.old ls scope at.scope) compared.now (comparisons (noting known) fs m ts tail s) →
        EndsHere (InstanceFor work.new region.now units.new.unit units.new.form.number) work.old work.new region.now units.old units.new ls result (use_of (noting known) at.here fs keyword m ts tail s) }
    ensures counted { OnOk result (units.new.form.budget.uses ≡ units.old.form.budget.uses + 1) }
    ensures locals { OnOk result (units.new.form.budget.locals ≡ units.old.form.budget.locals) }
    ensures scopes { units.new.env.scopes ≡ units.old.env.scopes }
{
    let same = held(alloc, compared)?;
    let given = units.apply(alloc, work, region, at, &same);
    work.symbols.told_apart();
    given
}
