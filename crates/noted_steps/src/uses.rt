//! Macro uses while what is asked is noted (R7RS 4.3.2): what literals mean when a use is met.
ghost use Rattle.std.specs.Prelude.{◌≡◌, List, OnOk};
ghost use Rattle.scheme_model.specs.Ident.{Ident as Identifier};
ghost use Rattle.scheme_model.specs.Order.{WaitingUse as ModelWaiting, meet_waiting, meet_all};
ghost use Rattle.scheme_model.specs.Requirements.{Known};
ghost use Rattle.scheme_model.specs.ScopedExpansion.{Frames};
ghost use Rattle.core_tree.specs.Names.{AllMatch};
ghost use Rattle.unit_scopes.specs.Kept.{WaitsFor};
ghost use Rattle.unit_scopes.specs.Outcomes.{At};
ghost use Rattle.unit_scopes.specs.Stepped.{with_uses};
ghost use Rattle.noted_steps.specs.Kept.{CanLook};
ghost use Rattle.noted_steps.specs.Noting.{Noting, noting};
ghost use Rattle.noted_steps.specs.Standing.{Stands, with_notes};

use crate::noted::note_names;
use form_parts::items::WaitingUse;
use ls_base::Mem;
use scope_env::ScopeNo;
use std::alloc::Global;
use syntax_tree::trees::Work;
use unit_scopes::scope::UnitScope;

/// A macro use is met, with what its literals mean by now, which is noted.
pub fn meet(
    units: &mut UnitScope,
    alloc: Global,
    work: &Work,
    scope: ScopeNo,
    used: &WaitingUse,
) -> Mem<()>
    requires look { CanLook work.now units.old scope }
    requires waits { (w : ModelWaiting Identifier) × WaitsFor work.now units.old.unit units.old.form.number used.now w }
    ensures met { (known : Known) (ls : List Frames) (s : Noting) (fs : Frames) (w : ModelWaiting Identifier) → Stands work.now units.old ls s → At ls scope fs →
        WaitsFor work.now units.old.unit units.old.form.number used.now w →
        OnOk result (Stands work.now units.new ls (meet_waiting (noting known) fs w s)) }
    ensures rest { OnOk result (units.new ≡ with_notes (with_uses units.old units.new.form.trace.uses) units.new.form.trace.notes) }
{
    note_names(units, work, scope, used.literals.as_slice());
    units.meet(alloc, work, scope, used)?;
    Ok(())
}

/// Macro uses are met, one after another.
pub fn meet_all(
    units: &mut UnitScope,
    alloc: Global,
    work: &Work,
    scope: ScopeNo,
    uses: &[WaitingUse],
) -> Mem<()>
    requires look { CanLook work.now units.old scope }
    requires waits { (us : List (ModelWaiting Identifier)) × AllMatch (WaitsFor work.now units.old.unit units.old.form.number) uses.now us }
    ensures met { (known : Known) (ls : List Frames) (s : Noting) (fs : Frames) (us : List (ModelWaiting Identifier)) → Stands work.now units.old ls s → At ls scope fs →
        AllMatch (WaitsFor work.now units.old.unit units.old.form.number) uses.now us →
        OnOk result (Stands work.now units.new ls (meet_all (noting known) fs us s)) }
    ensures rest { OnOk result (units.new ≡ with_notes (with_uses units.old units.new.form.trace.uses) units.new.form.trace.notes) }
{
    for used in uses {
        meet(units, alloc, work, scope, used)?;
    }
    Ok(())
}
