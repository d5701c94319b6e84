//! The command `selfrun`: a workspace is made of a number, and what it answers is counted.
ghost use Rattle.std.specs.Prelude.{◌≡◌, ◌≤◌, ◌+◌, List, IfOk, OnOk};
ghost use Rattle.std.specs.FinMap.{empty, entries};
ghost use Rattle.ls_base.specs.declared.encoding.Encoding.TheVariants.{Utf16};
ghost use Rattle.read_documents.specs.Readings.{Read, AreReadAs};
ghost use Rattle.rename_conditions.specs.Readers.{Reader, IsReader};
ghost use Rattle.generated_workspace.specs.Generated.{selfrun_texts};
ghost use Rattle.generated_workspace.specs.Selfrun.{selfrun_lines, selfrun_uses};

use crate::counting::count_all;
use crate::opening::open_all;
use command_lines::count_lines;
use ls_base::{Mem, Steps, Text};
use std::alloc::Global;
use std::collections::BTreeMap;
use std::sync::ledger::Ledger;
use workspace_state::Workspace;

/// The lines of a workspace of so many libraries: its documents, diagnostics and arrows, the references of the function that its first
/// library defines, and the edits of its rename.
pub fn selfrun<L: Ledger>(alloc: Global, libraries: u32, steps: &mut Steps<L>) -> Mem<Text>
    requires some { 1 ≤ libraries }
    requires few { libraries ≤ 60 }
    ensures lines { (r : Reader) (rs : List Read) → IsReader r → AreReadAs (entries (selfrun_texts libraries)) rs → IfOk result (λ lines. lines ≡ selfrun_lines r rs libraries) }
    // Each document that is opened counts the macro uses of all that are open, and the rename those of the edited texts.
    ensures steps { (r : Reader) → IsReader r → OnOk result (steps.new ≡ steps.old + selfrun_uses r libraries) }
{
    let mut workspace = Workspace::new(alloc)?;
    Ok(lines_of(alloc, &mut workspace, libraries, steps)?)
}

/// The lines of so many libraries, opened in a workspace without documents.
fn lines_of<L: Ledger>(
    alloc: Global,
    workspace: &mut Workspace,
    libraries: u32,
    steps: &mut Steps<L>,
) -> Mem<Text>
    requires some { 1 ≤ libraries }
    requires few { libraries ≤ 60 }
    requires none { workspace.old.texts ≡ empty }
    requires encoding { workspace.old.encoding ≡ Utf16 }
    ensures lines { (r : Reader) (rs : List Read) → IsReader r → AreReadAs (entries (selfrun_texts libraries)) rs → IfOk result (λ lines. lines ≡ selfrun_lines r rs libraries) }
    ensures steps { (r : Reader) → IsReader r → OnOk result (steps.new ≡ steps.old + selfrun_uses r libraries) }
{
    let mut known = BTreeMap::new(alloc);
    open_all(alloc, workspace, &mut known, libraries, steps)?;
    workspace.collect()?;
    let counts = count_all(alloc, workspace, &known, steps)?;
    Ok(Text::from_string(count_lines(alloc, counts)?))
}
