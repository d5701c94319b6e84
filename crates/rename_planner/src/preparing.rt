//! Whether an identifier can be renamed (LSP 3.17, textDocument/prepareRename).
ghost use Rattle.std.specs.Prelude.{◌≡◌, ◌↔◌, ℕ, List, None, IfOk};
ghost use Rattle.std.specs.FinMap.{entries};
ghost use Rattle.scheme_model.specs.Session as session;
ghost use Rattle.read_documents.specs.Readings.{Read, AreReadAs};
ghost use Rattle.program_answers.specs.ToldAnswers.{answer_of};
ghost use Rattle.rename_conditions.specs.Readers.{Reader, IsReader};
ghost use Rattle.rename_planner.specs.Preparing.{IsUnnamed, prepared_told};
ghost use Rattle.rename_answers.specs.ToldRenames.{rename_at};

use ls_base::{Answer, Mem, Pos, Query, Range, Text};
use workspace_state::Workspace;

/// The range of an identifier, and its token as it is written.
#[derive(Drop)]
pub struct Prepared {
    pub range: Range,
    pub placeholder: Text,
}

/// The identifier at a position. `None` exactly where a rename there is refused whatever the new name is.
pub fn prepare(ws: &Workspace, uri: &str, position: Pos) -> Mem<Option<Prepared>>
    ensures answer { (rs : List Read) → AreReadAs (entries ws.now.texts) rs →
        IfOk result (λ prepared. prepared_told prepared ≡ answer_of ws.now.encoding (entries ws.now.texts) rs uri.now position session.Prepare) }
    ensures refused { (r : Reader) (new : List ℕ) → IsReader r →
        IfOk result (λ prepared. prepared ≡ None ↔ IsUnnamed (rename_at r ws.now.encoding (entries ws.now.texts) uri.now position new)) }
{
    match ws.answer(&Query::Prepare, uri, position)? {
        Answer::Prepared { range, placeholder } => Ok(Some(Prepared { range, placeholder })),
        Answer::Nothing => Ok(None),
        Answer::Places(_) => Ok(None),
        Answer::Highlights(_) => Ok(None),
        Answer::Arrows(_) => Ok(None),
        Answer::Edits(_) => Ok(None),
    }
}
