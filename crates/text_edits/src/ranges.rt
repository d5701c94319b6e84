//! Edits at positions of an encoding (LSP 3.17, TextEdit).
ghost use Rattle.std.specs.Prelude.{◌≡◌, List, map, IfOk};
ghost use Rattle.ls_base.specs.Positions.{position_of};
ghost use Rattle.text_positions.specs.Lines.{AreLinesOf};
ghost use Rattle.text_edits.specs.Views.{edit_of, edit_told, range_at};

use crate::edits::Edit;
use ls_base::{Encoding, Items, Mem, Range, Span, TextEdit};
use std::alloc::Global;
use text_positions::Lines;

/// Bytes of a text as a range.
fn range(lines: &Lines, text: &str, span: Span, encoding: Encoding) -> Range
    requires { AreLinesOf lines.now text.now }
    ensures { result ≡ range_at encoding text.now span.start span.end }
{
    Range {
        start: lines.position(text, span.start, encoding),
        end: lines.position(text, span.end, encoding),
    }
}

/// The edits of a text, whose lines these are, at positions of an encoding.
pub fn placed(
    alloc: Global,
    lines: &Lines,
    text: &str,
    edits: &[Edit],
    encoding: Encoding,
) -> Mem<Items<TextEdit>>
    requires { AreLinesOf lines.now text.now }
    ensures { IfOk result (λ placed. placed ≡ map (edit_told encoding text.now) (map edit_of edits.now)) }
{
    let mut placed = Items::new(alloc);
    for edit in edits {
        placed.push(TextEdit {
            range: range(lines, text, edit.span, encoding),
            new_text: edit.text.clone()?,
        })?;
    }
    Ok(placed)
}
