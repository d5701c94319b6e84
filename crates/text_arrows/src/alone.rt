//! A text alone, opened as the document `input`: its arrows, or what stops its reading.
ghost use Rattle.std.specs.Prelude.{◌≡◌, ◌≤◌, ◌+◌, ℕ, List, [], ◌∷◌, length, IfOk, OnOk};
ghost use Rattle.std.specs.FinMap.{empty};
ghost use Rattle.std.specs.String.{string_bytes};
ghost use Rattle.ls_base.specs.Limits.{max_text};
ghost use Rattle.ls_base.specs.declared.answers.Arrow as drawn;
ghost use Rattle.ls_base.specs.declared.encoding.Encoding.{Encoding};
ghost use Rattle.read_documents.specs.Readings.{Read, uses_in};
ghost use Rattle.text_arrows.specs.Alone.{HoldsAlone, HoldsText, IsDrawn, IsTold};
ghost use Rattle.text_arrows.specs.Printed.{IsReadAlone, lines_of};

use crate::printing::{lines, published_lines};
use ls_base::{Answer, Items, Mem, Pos, Query, Steps, Text};
use std::alloc::Global;
use std::sync::ledger::Ledger;
use workspace_state::{DocEvent, Published, Updated, Workspace};

/// The uri of the document.
const INPUT: &str = "input";

/// The begin of a text, where the arrows of a document are asked.
const START: Pos = Pos {
    line: 0,
    character: 0,
};

/// The lines of what a text comes to: its arrows, or what stops its reading.
#[derive(Drop)]
pub enum Told {
    Arrows(String),
    Stop(String),
}

/// What a text comes to, in a workspace without other documents.
pub fn answer_to<L: Ledger>(alloc: Global, text: &str, steps: &mut Steps<L>) -> Mem<Told>
    requires { length text.now ≤ max_text }
    ensures told { IfOk result (IsTold text.now) }
    // The macro uses are counted of the program that the text is.
    ensures steps { (r : Read) → IsReadAlone text.now r → OnOk result (steps.new ≡ steps.old + uses_in (r ∷ [])) }
{
    let mut workspace = Workspace::new(alloc)?;
    let lists = open(alloc, &mut workspace, text, steps)?;
    Ok(told_alone(alloc, &workspace, lists.as_slice())?)
}

/// What the text comes to that a workspace holds alone.
fn told_alone(alloc: Global, workspace: &Workspace, lists: &[Published]) -> Mem<Told>
    requires { HoldsText workspace.now lists.now }
    ensures { (text : List ℕ) → HoldsAlone text workspace.now lists.now
        → IfOk result (IsTold text) }
{
    if workspace.unreadable().is_some() {
        let lines = published_lines(alloc, lists)?;
        return Ok(Told::Stop(lines));
    }
    let answer = workspace.answer(&Query::Arrows, INPUT, START)?;
    let lines = arrow_lines(alloc, answer)?;
    Ok(Told::Arrows(lines))
}

/// Opens a text where no document is open, and gives what is published.
fn open<L: Ledger>(
    alloc: Global,
    workspace: &mut Workspace,
    text: &str,
    steps: &mut Steps<L>,
) -> Mem<Items<Published>>
    requires none { workspace.old.texts ≡ empty }
    requires encoding { workspace.old.encoding ≡ Encoding.Utf16 }
    requires short { length text.now ≤ max_text }
    ensures holds { IfOk result (HoldsAlone text.now workspace.new) }
    ensures steps { (r : Read) → IsReadAlone text.now r → OnOk result (steps.new ≡ steps.old + uses_in (r ∷ [])) }
{
    let event = DocEvent::Added {
        uri: Text::of(alloc, INPUT)?,
        version: 0,
        text: Text::of(alloc, text)?,
    };
    let Updated { lists, .. } = workspace.update(&event, steps)?;
    Ok(lists)
}

/// The lines of an answer that is arrows.
fn arrow_lines(alloc: Global, answer: Answer) -> Mem<String>
    requires { IsDrawn answer }
    ensures { (arrows : List drawn.Arrow) → answer ≡ Answer.Arrows arrows
        → IfOk result (λ text. string_bytes text ≡ lines_of arrows) }
{
    match answer {
        Answer::Arrows(arrows) => {
            let lines = lines(alloc, arrows.as_slice())?;
            Ok(lines)
        }
        Answer::Nothing
        | Answer::Places(_)
        | Answer::Highlights(_)
        | Answer::Prepared { .. }
        | Answer::Edits(_) => unreachable!(),
    }
}
