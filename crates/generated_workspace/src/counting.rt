//! What a workspace that is made of a number answers, counted: its diagnostics and arrows, and the references and the rename of the
//! function that its first library defines.
ghost use Rattle.std.specs.Prelude.{◌≡◌, ◌≢◌, ◌+◌, true, ℕ, List, length, if◌then◌else◌, Err, IfOk, OnOk};
ghost use Rattle.std.specs.FinMap.{entries};
ghost use Rattle.std.specs.List.{count_by, sum_by};
ghost use Rattle.std.specs.Str.{bytes_eq};
ghost use Rattle.ls_base.specs.declared.answers.Arrow as told;
ghost use Rattle.ls_base.specs.declared.answers.DocEdits as edited;
ghost use Rattle.ls_base.specs.declared.encoding.Encoding.TheVariants.{Utf16};
ghost use Rattle.document_store.specs.Texts.{Document as Entry};
ghost use Rattle.read_documents.specs.Readings.{Read, AreReadAs};
ghost use Rattle.program_answers.specs.ToldAnswers.{answer_of};
ghost use Rattle.program_answers.specs.Updates.{list_at};
ghost use Rattle.rename_conditions.specs.Readers.{Reader, IsReader};
ghost use Rattle.rename_answers.specs.ToldRenames.{rename_told, rename_uses};
ghost use Rattle.scheme_model.specs.Session as model;
ghost use Rattle.generated_workspace.specs.Generated as generated;
ghost use Rattle.generated_workspace.specs.Known.{IsKnownOf};
ghost use Rattle.generated_workspace.specs.Selfrun.{arrows_to, counts_of, defined_at, edits_in, new_name, places_in};

use crate::known::count_diagnostics;
use crate::texts::library_uri;
use command_lines::Counts;
use ls_base::{
    Answer, Arrow, DocEdits, Items, Mem, Memory, Pos, Query, Range, Steps, Text, TextEdit,
};
use program_answers::lists::Lists;
use rename_answers::RenameFault;
use rename_planner::rename;
use std::alloc::Global;
use std::sync::ledger::Ledger;
use workspace_state::Workspace;

/// Where the first library defines its function.
const DEFINED_AT: Pos = Pos {
    line: 0,
    character: 154,
};

/// What the function is renamed to.
const NEW_NAME: &str = "g";

/// Counts what a workspace answers, of which all that was published is known.
pub fn count_all<L: Ledger>(
    alloc: Global,
    workspace: &mut Workspace,
    known: &Lists,
    steps: &mut Steps<L>,
) -> Mem<Counts>
    requires encoding { workspace.old.encoding ≡ Utf16 }
    requires known { IsKnownOf Utf16 workspace.old.texts (list_at known.now) }
    ensures counts { (r : Reader) (rs : List Read) → IsReader r → AreReadAs (entries workspace.old.texts) rs → IfOk result (λ counts. counts ≡ counts_of r (entries workspace.old.texts) rs) }
    // The macro uses of the edited texts are counted.
    ensures steps { (r : Reader) → IsReader r → OnOk result (steps.new ≡ steps.old + rename_uses r Utf16 (entries workspace.old.texts) (generated.library_uri 0) defined_at new_name) }
{
    let uri = library_uri(alloc, 0)?;
    let opened = workspace.open().documents();
    let documents = opened.len();
    let diagnostics = count_diagnostics(alloc, opened, known)?;
    let arrows = count_arrows(alloc, workspace)?;
    let references = count_references(workspace, uri.as_str())?;
    let edits = count_edits(alloc, workspace, &uri, steps)?;
    Ok(Counts {
        documents,
        diagnostics,
        arrows,
        references,
        edits,
    })
}

/// How many arrows the documents have, each in the document that it leads to.
fn count_arrows(alloc: Global, workspace: &Workspace) -> Mem<usize>
    ensures { (rs : List Read) → AreReadAs (entries workspace.now.texts) rs →
        IfOk result (λ count. count ≡ sum_by (λ (d : List ℕ × Entry). arrows_to d.0 (answer_of workspace.now.encoding (entries workspace.now.texts) rs d.0 defined_at model.Arrows)) (entries workspace.now.texts)) }
{
    let mut ranges = Items::new(alloc);
    let documents = workspace.open().documents();
    for document in documents {
        let uri = document.uri.as_str();
        let answer = workspace.answer(&Query::Arrows, uri, DEFINED_AT)?;
        add_answer(&mut ranges, uri, answer)?;
    }
    Ok(ranges.as_slice().len())
}

/// Adds the ends of the arrows that lead to a document.
fn add_answer(ranges: &mut Items<Range>, uri: &str, answer: Answer) -> Mem<()>
    ensures { OnOk result (length ranges.new ≡ length ranges.old + arrows_to uri.now answer) }
{
    match answer {
        Answer::Arrows(arrows) => Ok(add_arrows(ranges, uri, arrows.as_slice())?),
        Answer::Nothing => Ok(()),
        Answer::Places(_) => Ok(()),
        Answer::Highlights(_) => Ok(()),
        Answer::Prepared { .. } => Ok(()),
        Answer::Edits(_) => Ok(()),
    }
}

/// Adds the ends of those arrows that lead to a document.
fn add_arrows(ranges: &mut Items<Range>, uri: &str, arrows: &[Arrow]) -> Mem<()>
    ensures { OnOk result (length ranges.new ≡ length ranges.old + count_by (λ (a : told.Arrow). bytes_eq a.to.uri uri.now) arrows.now) }
{
    for arrow in arrows {
        add_arrow(ranges, uri, arrow)?;
    }
    Ok(())
}

/// Adds the end of an arrow, if it leads to a document.
fn add_arrow(ranges: &mut Items<Range>, uri: &str, arrow: &Arrow) -> Mem<()>
    ensures { OnOk result (length ranges.new ≡ length ranges.old + (if bytes_eq arrow.now.to.uri uri.now then 1 else 0)) }
{
    if arrow.to.uri.as_str() == uri {
        ranges.push(arrow.to.range)?;
    }
    Ok(())
}

/// How many references the function has, with its definition.
fn count_references(workspace: &Workspace, uri: &str) -> Mem<usize>
    ensures { (rs : List Read) → AreReadAs (entries workspace.now.texts) rs →
        IfOk result (λ count. count ≡ places_in (answer_of workspace.now.encoding (entries workspace.now.texts) rs uri.now defined_at (model.References true))) }
{
    let answer = workspace.answer(&Query::References { declaration: true }, uri, DEFINED_AT)?;
    Ok(places_in(&answer))
}

/// How many places an answer has.
fn places_in(answer: &Answer) -> usize
    ensures { result ≡ places_in answer.now }
{
    match answer {
        Answer::Places(places) => places.as_slice().len(),
        Answer::Nothing => 0,
        Answer::Highlights(_) => 0,
        Answer::Prepared { .. } => 0,
        Answer::Arrows(_) => 0,
        Answer::Edits(_) => 0,
    }
}

/// How many edits rename the function. A rename that is refused has none.
fn count_edits<L: Ledger>(
    alloc: Global,
    workspace: &mut Workspace,
    uri: &Text,
    steps: &mut Steps<L>,
) -> Mem<usize>
    ensures edits { (r : Reader) → IsReader r →
        IfOk result (λ count. count ≡ edits_in (rename_told r workspace.old.encoding (entries workspace.old.texts) uri.now defined_at new_name)) }
    ensures steps { (r : Reader) → IsReader r → OnOk result (steps.new ≡ steps.old + rename_uses r workspace.old.encoding (entries workspace.old.texts) uri.now defined_at new_name) }
{
    let name = Text::of(alloc, NEW_NAME)?;
    Ok(count_renamed(alloc, workspace, uri, &name, steps)?)
}

/// How many edits rename the function to a name.
fn count_renamed<L: Ledger>(
    alloc: Global,
    workspace: &mut Workspace,
    uri: &Text,
    name: &Text,
    steps: &mut Steps<L>,
) -> Mem<usize>
    ensures edits { (r : Reader) → IsReader r →
        IfOk result (λ count. count ≡ edits_in (rename_told r workspace.old.encoding (entries workspace.old.texts) uri.now defined_at name.now)) }
    ensures steps { (r : Reader) → IsReader r → OnOk result (steps.new ≡ steps.old + rename_uses r workspace.old.encoding (entries workspace.old.texts) uri.now defined_at name.now) }
{
    match rename(alloc, workspace, uri, DEFINED_AT, name, steps) {
        Ok(edits) => Ok(edits_in(alloc, edits.as_slice())?),
        Err(fault) => Ok(no_edits(&fault)?),
    }
}

/// Want of memory is passed on, and any other fault is no edits.
fn no_edits(fault: &RenameFault) -> Mem<usize>
    ensures memory { OnOk result (fault.now ≢ RenameFault.Memory) }
    ensures none { IfOk result (λ count. count ≡ 0) }
{
    match fault {
        RenameFault::Memory => Err(Memory),
        RenameFault::NotBound => Ok(0),
        RenameFault::Standard(_) => Ok(0),
        RenameFault::BadName => Ok(0),
        RenameFault::Unreadable(_) => Ok(0),
        RenameFault::PrefixLost(_) => Ok(0),
        RenameFault::PrefixClash(_) => Ok(0),
        RenameFault::BrokenUnit { .. } => Ok(0),
        RenameFault::Limit(_) => Ok(0),
        RenameFault::Differs(_) => Ok(0),
    }
}

/// How many edits there are of documents.
fn edits_in(alloc: Global, documents: &[DocEdits]) -> Mem<usize>
    ensures { IfOk result (λ count. count ≡ sum_by (λ (d : edited.DocEdits). length d.edits) documents.now) }
{
    let mut ranges = Items::new(alloc);
    for document in documents {
        add_edits(&mut ranges, document.edits.as_slice())?;
    }
    Ok(ranges.as_slice().len())
}

/// Adds the ranges of edits.
fn add_edits(ranges: &mut Items<Range>, edits: &[TextEdit]) -> Mem<()>
    ensures { OnOk result (length ranges.new ≡ length ranges.old + length edits.now) }
{
    for edit in edits {
        ranges.push(edit.range)?;
    }
    Ok(())
}
