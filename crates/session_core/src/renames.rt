//! Renames are answered with their edits, or refused with a reason (LSP 3.17, textDocument/rename).
ghost use Rattle.std.specs.Prelude.{◌≡◌, ◌≢◌, ◌+◌, ◌<◌, List, length, Err, IfOk, OnOk};
ghost use Rattle.std.specs.declared.result.Result.{Result};
ghost use Rattle.std.specs.FinMap.{entries};
ghost use Rattle.rename_conditions.specs.Opened.{DocEdits as Edits};
ghost use Rattle.rename_conditions.specs.Readers.{Reader, IsReader};
ghost use Rattle.rename_conditions.specs.Renames.{Refusal};
ghost use Rattle.rename_answers.specs.RenameOutcomes.{AnswersAs};
ghost use Rattle.rename_answers.specs.ToldRenames.{opened_as, rename_uses, told_as};
ghost use Rattle.program_differences.specs.declared.plan.Difference.{Difference};
ghost use Rattle.session_replies.specs.Renamed.{IsRenamed};

use ls_base::{Mem, Steps, Text};
use lsp_messages::{At, Id};
use rename_answers::RenameFault;
use rename_planner::rename;
use rename_refusals::refusal_text;
use session_replies::Out;
use session_replies::replies::{renamed, request_failed};
use std::alloc::Global;
use std::sync::ledger::Ledger;
use workspace_state::Workspace;

/// Answers a rename of what stands at a position. The documents are as before.
pub fn on_rename<L: Ledger>(
    alloc: Global,
    workspace: &mut Workspace,
    id: Id,
    at: &At,
    new_name: &Text,
    steps: &mut Steps<L>,
) -> Mem<Out>
    ensures answer { IfOk result (IsRenamed workspace.old.encoding workspace.old.texts id at.now new_name.now) }
    ensures texts { workspace.new.texts ≡ workspace.old.texts }
    ensures encoding { workspace.new.encoding ≡ workspace.old.encoding }
    ensures steps { (r : Reader) → IsReader r → OnOk result (steps.new ≡ steps.old + rename_uses r workspace.old.encoding (entries workspace.old.texts) at.now.uri at.now.pos new_name.now) }
{
    workspace.collect()?;
    match rename(alloc, workspace, &at.uri, at.pos, new_name, steps) {
        Ok(edits) => Ok(renamed(alloc, id, edits)?),
        Err(fault) => {
            let text = refusal(alloc, workspace, fault)?;
            Ok(request_failed(alloc, id, text)?)
        }
    }
}

/// What a refused rename says. Want of memory is passed on.
fn refusal(alloc: Global, workspace: &Workspace, fault: RenameFault) -> Mem<Text>
    requires documents { (d : Difference) → fault ≡ RenameFault.Differs d → 0 < length (entries workspace.now.texts) }
    ensures memory { OnOk result (fault ≢ RenameFault.Memory) }
    ensures text { (r : Reader) (answer : Result (List Edits) Refusal) → IsReader r → AnswersAs workspace.now.encoding (entries workspace.now.texts) answer (Err fault)
        → IfOk result (λ text. told_as workspace.now.encoding (entries workspace.now.texts) (opened_as r (entries workspace.now.texts)) answer ≡ Err text) }
{
    Ok(refusal_text(alloc, workspace, &fault)?)
}
