//! A rename in the one document that a file is (LSP 3.17, textDocument/rename).
ghost use Rattle.std.specs.Prelude.{◌≡◌, ◌≢◌, ◌≤◌, ◌<◌, ◌+◌, ℕ, List, [], ◌∷◌, length, Err, IfOk, OnOk};
ghost use Rattle.std.specs.declared.result.Result.{Result};
ghost use Rattle.std.specs.FinMap.{empty, entries};
ghost use Rattle.ls_base.specs.Limits.{max_text};
ghost use Rattle.ls_base.specs.declared.encoding.Encoding.TheVariants.{Utf16};
ghost use Rattle.command_lines.specs.Diagnostics as diagnostics;
ghost use Rattle.program_differences.specs.declared.plan.Difference.{Difference};
ghost use Rattle.rename_conditions.specs.Opened.{DocEdits as Edits};
ghost use Rattle.rename_conditions.specs.Readers.{Reader, IsReader};
ghost use Rattle.rename_conditions.specs.Renames.{Refusal};
ghost use Rattle.rename_answers.specs.RenameOutcomes.{AnswersAs};
ghost use Rattle.rename_answers.specs.ToldRenames.{opened_as, rename_uses, text_uses, told_as};
ghost use Rattle.file_commands.specs.Renaming.{one_document, printed, rename_in_text, renamed_in, renaming_uses};

use command_lines::{diagnostic_lines, edit_lines, not_utf8, refusal_line};
use ls_base::{Mem, Pos, Steps, Text};
use rename_answers::RenameFault;
use rename_planner::rename;
use rename_refusals::refusal_text;
use std::alloc::Global;
use std::sync::ledger::Ledger;
use workspace_state::{DocEvent, Workspace};

/// The version of a document that no client has opened.
const VERSION: i64 = 0;

/// What is printed of a rename.
#[derive(Drop)]
pub enum Renamed {
    /// The edits.
    Edits(Text),
    /// Why it is refused.
    Refused(Text),
    /// That the file isn't UTF-8.
    NotUtf8(Text),
}

/// Renames what stands at a position of a file, which is the one document that is open. Positions are in UTF-16.
pub fn rename_in<L: Ledger>(
    alloc: Global,
    name: &Text,
    content: &[u8],
    position: Pos,
    new_name: &Text,
    steps: &mut Steps<L>,
) -> Mem<Renamed>
    requires { length content.now ≤ max_text }
    ensures renamed { (r : Reader) → IsReader r → IfOk result (λ renamed. renamed ≡ renamed_in r name.now content.now position new_name.now) }
    ensures steps { (r : Reader) → IsReader r → OnOk result (steps.new ≡ steps.old + renaming_uses r name.now content.now position new_name.now) }
{
    match str::from_utf8(content) {
        Ok(text) => Ok(rename_in_text(alloc, name, text, position, new_name, steps)?),
        Err(_) => Ok(Renamed::NotUtf8(not_utf8_line(alloc, name)?)),
    }
}

/// The line of a file that isn't UTF-8.
fn not_utf8_line(alloc: Global, name: &Text) -> Mem<Text>
    ensures { IfOk result (λ line. line ≡ diagnostics.diagnostic_line name.now diagnostics.not_utf8) }
{
    let diagnostic = not_utf8(alloc)?;
    Ok(Text::from_string(diagnostic_lines(alloc, name.as_str(), &[diagnostic])?))
}

/// Renames what stands at a position of a text.
fn rename_in_text<L: Ledger>(
    alloc: Global,
    name: &Text,
    text: &str,
    position: Pos,
    new_name: &Text,
    steps: &mut Steps<L>,
) -> Mem<Renamed>
    requires { length text.now ≤ max_text }
    ensures renamed { (r : Reader) → IsReader r → IfOk result (λ renamed. renamed ≡ printed (rename_in_text r name.now text.now position new_name.now)) }
    ensures steps { (r : Reader) → IsReader r
        → OnOk result (steps.new ≡ steps.old + (text_uses r (name.now ∷ []) (text.now ∷ []) + rename_uses r Utf16 (one_document name.now text.now) name.now position new_name.now)) }
{
    let mut workspace = Workspace::new(alloc)?;
    rename_alone(alloc, &mut workspace, name, text, position, new_name, steps)
}

/// Renames what stands at a position of a text, which is opened where no document is open.
fn rename_alone<L: Ledger>(
    alloc: Global,
    workspace: &mut Workspace,
    name: &Text,
    text: &str,
    position: Pos,
    new_name: &Text,
    steps: &mut Steps<L>,
) -> Mem<Renamed>
    requires none { workspace.old.texts ≡ empty }
    requires encoding { workspace.old.encoding ≡ Utf16 }
    requires short { length text.now ≤ max_text }
    ensures renamed { (r : Reader) → IsReader r → IfOk result (λ renamed. renamed ≡ printed (rename_in_text r name.now text.now position new_name.now)) }
    ensures steps { (r : Reader) → IsReader r
        → OnOk result (steps.new ≡ steps.old + (text_uses r (name.now ∷ []) (text.now ∷ []) + rename_uses r Utf16 (one_document name.now text.now) name.now position new_name.now)) }
{
    open(alloc, workspace, name, text, steps)?;
    Ok(rename_opened(alloc, workspace, name, position, new_name, steps)?)
}

/// Opens a text where no document is open.
fn open<L: Ledger>(
    alloc: Global,
    workspace: &mut Workspace,
    name: &Text,
    text: &str,
    steps: &mut Steps<L>,
) -> Mem<()>
    requires none { workspace.old.texts ≡ empty }
    requires encoding { workspace.old.encoding ≡ Utf16 }
    requires short { length text.now ≤ max_text }
    ensures texts { OnOk result (entries workspace.new.texts ≡ one_document name.now text.now) }
    ensures encoding { OnOk result (workspace.new.encoding ≡ Utf16) }
    ensures steps { (r : Reader) → IsReader r → OnOk result (steps.new ≡ steps.old + text_uses r (name.now ∷ []) (text.now ∷ [])) }
{
    let event = DocEvent::Added {
        uri: name.clone()?,
        version: VERSION,
        text: Text::of(alloc, text)?,
    };
    workspace.update(&event, steps)?;
    workspace.collect()?;
    Ok(())
}

/// Renames what stands at a position of the one text that is open.
fn rename_opened<L: Ledger>(
    alloc: Global,
    workspace: &mut Workspace,
    name: &Text,
    position: Pos,
    new_name: &Text,
    steps: &mut Steps<L>,
) -> Mem<Renamed>
    requires { workspace.old.encoding ≡ Utf16 }
    ensures renamed { (r : Reader) (text : List ℕ) → IsReader r → entries workspace.old.texts ≡ one_document name.now text
        → IfOk result (λ renamed. renamed ≡ printed (rename_in_text r name.now text position new_name.now)) }
    ensures steps { (r : Reader) (text : List ℕ) → IsReader r → entries workspace.old.texts ≡ one_document name.now text
        → OnOk result (steps.new ≡ steps.old + rename_uses r Utf16 (one_document name.now text) name.now position new_name.now) }
{
    match rename(alloc, workspace, name, position, new_name, steps) {
        Ok(edits) => Ok(Renamed::Edits(Text::from_string(edit_lines(alloc, edits.as_slice())?))),
        Err(fault) => {
            let refusal = refusal(alloc, workspace, &fault)?;
            Ok(Renamed::Refused(Text::from_string(refusal_line(alloc, refusal.as_str())?)))
        }
    }
}

/// What a refused rename says. Want of memory is passed on.
fn refusal(alloc: Global, workspace: &Workspace, fault: &RenameFault) -> Mem<Text>
    requires documents { (d : Difference) → fault.now ≡ RenameFault.Differs d → 0 < length (entries workspace.now.texts) }
    ensures memory { OnOk result (fault.now ≢ RenameFault.Memory) }
    ensures text { (r : Reader) (answer : Result (List Edits) Refusal) → IsReader r → AnswersAs workspace.now.encoding (entries workspace.now.texts) answer (Err fault.now)
        → IfOk result (λ text. told_as workspace.now.encoding (entries workspace.now.texts) (opened_as r (entries workspace.now.texts)) answer ≡ Err text) }
{
    Ok(refusal_text(alloc, workspace, fault)?)
}
