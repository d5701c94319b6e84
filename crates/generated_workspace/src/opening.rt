//! Opens the libraries and the program of a workspace that is made of a number, one document after another.
ghost use Rattle.std.specs.Prelude.{◌≡◌, ◌≤◌, ◌<◌, ◌+◌, pos, length, OnOk};
ghost use Rattle.std.specs.FinMap.{empty, insert, len};
ghost use Rattle.ls_base.specs.Limits.{max_documents, max_text};
ghost use Rattle.ls_base.specs.declared.encoding.Encoding.TheVariants.{Utf16};
ghost use Rattle.program_answers.specs.Updates.{list_at};
ghost use Rattle.rename_conditions.specs.Readers.{Reader, IsReader};
ghost use Rattle.generated_workspace.specs.Generated as spec;
ghost use Rattle.generated_workspace.specs.Known.{IsKnownOf};
ghost use Rattle.generated_workspace.specs.Selfrun.{opening_uses, uses_of};

use crate::known::learn;
use crate::texts::{library_text, library_uri, main_text, main_uri};
use ls_base::{Mem, Steps, Text};
use program_answers::lists::Lists;
use std::alloc::Global;
use std::sync::ledger::Ledger;
use workspace_state::{DocEvent, Updated, Workspace};

/// The version of a document that no client has opened.
const VERSION: i64 = 0;

/// Opens so many libraries, and the program that uses the last of them.
pub fn open_all<L: Ledger>(
    alloc: Global,
    workspace: &mut Workspace,
    known: &mut Lists,
    libraries: u32,
    steps: &mut Steps<L>,
) -> Mem<()>
    requires some { 1 ≤ libraries }
    requires few { libraries ≤ 60 }
    requires none { workspace.old.texts ≡ empty }
    requires encoding { workspace.old.encoding ≡ Utf16 }
    requires known { IsKnownOf Utf16 workspace.old.texts (list_at known.old) }
    ensures encoding { workspace.new.encoding ≡ Utf16 }
    ensures texts { OnOk result (workspace.new.texts ≡ spec.selfrun_texts libraries) }
    ensures known { OnOk result (IsKnownOf Utf16 workspace.new.texts (list_at known.new)) }
    ensures steps { (r : Reader) → IsReader r → OnOk result (steps.new ≡ steps.old + opening_uses r libraries + uses_of r (spec.selfrun_texts libraries)) }
{
    open_libraries(alloc, workspace, known, libraries, steps)?;
    let uri = main_uri(alloc)?;
    let text = main_text(alloc, libraries - 1)?;
    open(workspace, known, uri, text, steps)?;
    Ok(())
}

/// Opens so many libraries.
fn open_libraries<L: Ledger>(
    alloc: Global,
    workspace: &mut Workspace,
    known: &mut Lists,
    libraries: u32,
    steps: &mut Steps<L>,
) -> Mem<()>
    requires few { libraries ≤ 60 }
    requires none { workspace.old.texts ≡ empty }
    requires encoding { workspace.old.encoding ≡ Utf16 }
    requires known { IsKnownOf Utf16 workspace.old.texts (list_at known.old) }
    ensures encoding { workspace.new.encoding ≡ Utf16 }
    ensures texts { OnOk result (workspace.new.texts ≡ spec.libraries libraries) }
    ensures known { OnOk result (IsKnownOf Utf16 workspace.new.texts (list_at known.new)) }
    ensures steps { (r : Reader) → IsReader r → OnOk result (steps.new ≡ steps.old + opening_uses r libraries) }
{
    for number in 0..libraries {
        let uri = library_uri(alloc, number)?;
        let text = library_text(alloc, number)?;
        open(workspace, known, uri, text, steps)?;
    }
    Ok(())
}

/// Opens a document, and keeps the lists that are published. There is room for it, and it isn't too long.
fn open<L: Ledger>(
    workspace: &mut Workspace,
    known: &mut Lists,
    uri: Text,
    text: Text,
    steps: &mut Steps<L>,
) -> Mem<()>
    requires room { len workspace.old.texts < max_documents }
    requires short { length text ≤ max_text }
    requires encoding { workspace.old.encoding ≡ Utf16 }
    requires known { IsKnownOf Utf16 workspace.old.texts (list_at known.old) }
    ensures encoding { workspace.new.encoding ≡ Utf16 }
    ensures texts { OnOk result (workspace.new.texts ≡ insert workspace.old.texts uri (pos 0, text)) }
    ensures known { OnOk result (IsKnownOf Utf16 workspace.new.texts (list_at known.new)) }
    ensures steps { (r : Reader) → IsReader r → OnOk result (steps.new ≡ steps.old + uses_of r workspace.new.texts) }
{
    let event = DocEvent::Added {
        uri,
        version: VERSION,
        text,
    };
    let Updated { lists, .. } = workspace.update(&event, steps)?;
    learn(known, lists)?;
    Ok(())
}
