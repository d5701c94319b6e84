//! Where the part of a form begins that notes what it asks, and where it ends.
ghost use Rattle.std.specs.Prelude.{◌≡◌, ℕ, List, length, Bool, true, Option, OnOk};
ghost use Rattle.scheme_model.specs.Ident.{Ident as Identifier};
ghost use Rattle.scheme_model.specs.Order.{Transformer};
ghost use Rattle.scheme_model.specs.ScopedExpansion.{Frames, ScopedState};
ghost use Rattle.syntax_tree.specs.declared.trees.Work.{Work as AnyWork};
ghost use Rattle.form_notes.specs.Noted.{Noted, beginning};
ghost use Rattle.form_notes.specs.Standing.{HaveNotes, InOrder};
ghost use Rattle.unit_scopes.specs.Editions.{EditionsTell};
ghost use Rattle.unit_scopes.specs.State.{Stands as PlainStands};
ghost use Rattle.noted_steps.specs.Noting.{Noting, going};
ghost use Rattle.noted_steps.specs.Standing.{Stands, with_notes};

use ls_base::{Mem, Memory};
use unit_scopes::scope::UnitScope;

/// The part of the form at work begins: its notes go on behind those that there are.
pub fn begin_notes(units: &mut UnitScope)
    ensures begun { (work : AnyWork) (ls : List Frames) (s : ScopedState) (exact : Bool) (before : ℕ) (editions : ℕ → Option (Transformer Frames Identifier)) (ms : List Noted) →
        let since = beginning s.unit s.form (s.uses s.form) editions in
        PlainStands work units.old ls s → (exact ≡ true → EditionsTell work.symbols units.old.macros s editions) → (exact ≡ true → length units.old.asked.notes.items ≡ before) →
        (exact ≡ true → HaveNotes work.symbols since units.old.form.trace.notes.notes ms) → Stands work units.new ls (going exact before since ms s) }
    ensures rest { units.new ≡ with_notes units.old units.new.form.trace.notes }
{
    let begun = units.form.budget.uses;
    begin_at(units, begun);
}

/// The part goes on with another of its items: behind the notes that there are, and with the macro uses that it had begun with.
pub fn resume_notes(units: &mut UnitScope)
    ensures begun { (work : AnyWork) (ls : List Frames) (s : ScopedState) (exact : Bool) (before : ℕ) (editions : ℕ → Option (Transformer Frames Identifier)) (ms : List Noted) →
        let since = beginning s.unit s.form units.old.form.trace.notes.begun editions in
        PlainStands work units.old ls s → (exact ≡ true → EditionsTell work.symbols units.old.macros s editions) → (exact ≡ true → length units.old.asked.notes.items ≡ before) →
        (exact ≡ true → HaveNotes work.symbols since units.old.form.trace.notes.notes ms) → Stands work units.new ls (going exact before since ms s) }
    ensures rest { units.new ≡ with_notes units.old units.new.form.trace.notes }
{
    let begun = units.form.trace.notes.begun;
    begin_at(units, begun);
}

/// The form at work has defined nothing yet in the part that notes, and that began when it had begun so many macro uses.
fn begin_at(units: &mut UnitScope, begun: u32)
    ensures begun { (work : AnyWork) (ls : List Frames) (s : ScopedState) (exact : Bool) (before : ℕ) (editions : ℕ → Option (Transformer Frames Identifier)) (ms : List Noted) →
        let since = beginning s.unit s.form begun editions in
        PlainStands work units.old ls s → (exact ≡ true → EditionsTell work.symbols units.old.macros s editions) → (exact ≡ true → length units.old.asked.notes.items ≡ before) →
        (exact ≡ true → HaveNotes work.symbols since units.old.form.trace.notes.notes ms) → Stands work units.new ls (going exact before since ms s) }
    ensures rest { units.new ≡ with_notes units.old units.new.form.trace.notes }
{
    let alloc = units.alloc;
    let unit = units.unit;
    let number = units.form.number;
    let before = units.asked.count();
    units
        .form
        .trace
        .notes
        .restart(alloc, unit, number, begun, before);
}

/// The part ends, unless some note was lost for want of memory.
pub fn end_notes(units: &UnitScope) -> Mem<()>
    ensures notes { (work : AnyWork) (ls : List Frames) (s : Noting) → Stands work units.now ls s → s.exact ≡ true → OnOk result (HaveNotes work.symbols s.since units.now.form.trace.notes.notes s.noted) }
    ensures order { (work : AnyWork) (ls : List Frames) (s : Noting) → Stands work units.now ls s → s.exact ≡ true →
        OnOk result (InOrder units.now.form.trace.notes.first units.now.form.trace.notes.notes (length s.since.own)) }
{
    if units.form.trace.notes.lost {
        return Err(Memory);
    }
    Ok(())
}
