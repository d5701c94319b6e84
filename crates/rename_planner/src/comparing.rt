//! The comparison of the program that there is with that of the edited texts.
ghost use Rattle.std.specs.Prelude.{◌≡◌, ◌≢◌, ◌+◌, List, Err, map};
ghost use Rattle.std.specs.FinMap.{entries};
ghost use Rattle.scheme_model.specs.Program.{units_of};
ghost use Rattle.rename_model.specs.Difference as difference;
ghost use Rattle.read_documents.specs.Readings.{Read, AreReadAs, documents_in, program_in, uses_in};
ghost use Rattle.program_differences.specs.Differences.{plan_as};
ghost use Rattle.document_changes.specs.Edited.{CanEdit, edited_texts};
ghost use Rattle.rename_conditions.specs.Renames as model;
ghost use Rattle.rename_planner.specs.Planning.{ComesTo, Holds};

use ls_base::{DocEdits, Items, Steps};
use program_differences::difference::first_difference;
use program_differences::plan::Plan;
use rename_answers::RenameFault;
use std::alloc::Global;
use std::sync::ledger::Ledger;
use workspace_state::Workspace;

/// Refused where the program of the edited texts isn't the same but for what is asked to change: the first difference.
pub fn compare<L: Ledger>(
    alloc: Global,
    ws: &mut Workspace,
    edits: &Items<DocEdits>,
    plan: &Plan,
    steps: &mut Steps<L>,
) -> Result<(), RenameFault>
    requires { CanEdit ws.old.encoding edits.now (entries ws.old.texts) }
    ensures texts { ws.new.texts ≡ ws.old.texts }
    ensures encoding { ws.new.encoding ≡ ws.old.encoding }
    ensures exact { (rs ts : List Read) → AreReadAs (entries ws.old.texts) rs → AreReadAs (entries (edited_texts ws.old.encoding edits.now ws.old.texts)) ts →
        ComesTo ws.old.encoding (entries ws.old.texts) Holds (model.unless (difference.first_difference (units_of (documents_in rs)) (program_in rs) (program_in ts) (plan_as plan.now)) model.Differs) result }
    ensures steps { (ts : List Read) → AreReadAs (entries (edited_texts ws.old.encoding edits.now ws.old.texts)) ts → result ≢ Err RenameFault.Memory → steps.new ≡ steps.old + uses_in ts }
{
    let trial = ws.try_edits(edits, steps)?;
    let found = first_difference(alloc, ws.work(), ws.program(), trial.program(), plan);
    ws.end_trial(trial);
    match found? {
        Some(difference) => Err(RenameFault::Differs(difference)),
        None => Ok(()),
    }
}
