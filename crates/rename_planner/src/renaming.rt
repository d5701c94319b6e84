//! A rename of an identifier (LSP 3.17, textDocument/rename).
ghost use Rattle.std.specs.Prelude.{◌≡◌, ◌≢◌, ◌+◌, ◌<◌, List, length, Err};
ghost use Rattle.std.specs.FinMap.{entries};
ghost use Rattle.program_differences.specs.declared.plan.Difference.{Difference};
ghost use Rattle.rename_conditions.specs.Readers.{Reader, IsReader};
ghost use Rattle.rename_answers.specs.RenameOutcomes.{AnswersAs};
ghost use Rattle.rename_answers.specs.ToldRenames.{rename_at, rename_uses};

use crate::comparing::compare;
use crate::planning::{Planned, plan_rename};
use ls_base::{DocEdits, Items, Pos, Steps, Text};
use rename_answers::RenameFault;
use std::alloc::Global;
use std::sync::ledger::Ledger;
use workspace_state::Workspace;

/// The edits by which the class of the identifier at a position gets a new name, or why it is refused. The workspace answers as before,
/// whatever comes.
pub fn rename<L: Ledger>(
    alloc: Global,
    ws: &mut Workspace,
    uri: &Text,
    position: Pos,
    new_name: &Text,
    steps: &mut Steps<L>,
) -> Result<Items<DocEdits>, RenameFault>
    ensures texts { ws.new.texts ≡ ws.old.texts }
    ensures encoding { ws.new.encoding ≡ ws.old.encoding }
    ensures answer { (r : Reader) → IsReader r →
        AnswersAs ws.old.encoding (entries ws.old.texts) (rename_at r ws.old.encoding (entries ws.old.texts) uri.now position new_name.now) result }
    // What differs, differs in a document.
    ensures documents { (d : Difference) → result ≡ Err (RenameFault.Differs d) → 0 < length (entries ws.old.texts) }
    // The macro uses of the edited texts are counted, where these were expanded.
    ensures steps { (r : Reader) → IsReader r → result ≢ Err RenameFault.Memory →
        steps.new ≡ steps.old + rename_uses r ws.old.encoding (entries ws.old.texts) uri.now position new_name.now }
{
    let Planned { edits, plan } = plan_rename(
        alloc,
        ws,
        uri.as_str(),
        position,
        new_name.as_str(),
    )?;
    compare(alloc, ws, &edits, &plan, steps)?;
    Ok(edits)
}
