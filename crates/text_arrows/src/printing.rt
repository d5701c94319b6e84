//! The lines of arrows and of what is published.
ghost use Rattle.std.specs.Prelude.{◌≡◌, IfOk};
ghost use Rattle.std.specs.String.{string_bytes};
ghost use Rattle.text_arrows.specs.Printed as spec;
ghost use Rattle.text_arrows.specs.Printed.{line_of, lines_of};

use command_lines::{diagnostic_lines, place_text};
use ls_base::Arrow;
use std::alloc::{AllocError, Global};
use workspace_state::Published;

/// The line of an arrow: where its binder and its use start, and the use's token.
fn line(alloc: Global, arrow: &Arrow) -> Result<String, AllocError>
    ensures { IfOk result (λ text. string_bytes text ≡ line_of arrow.now) }
{
    let from = place_text(alloc, arrow.from.range.start)?;
    let to = place_text(alloc, arrow.to.range.start)?;
    let name = arrow.name.as_str();
    format!(in alloc; "{from} {to} {name}\n")
}

/// The lines of arrows, in their order.
pub fn lines(alloc: Global, arrows: &[Arrow]) -> Result<String, AllocError>
    ensures { IfOk result (λ text. string_bytes text ≡ lines_of arrows.now) }
{
    let mut text = String::new(alloc);
    for arrow in arrows {
        let line = line(alloc, arrow)?;
        text.push_str(line.as_str())?;
    }
    Ok(text)
}

/// The lines of diagnostics that are published, list by list.
pub fn published_lines(alloc: Global, lists: &[Published]) -> Result<String, AllocError>
    ensures { IfOk result (λ text. string_bytes text ≡ spec.published_lines lists.now) }
{
    let mut text = String::new(alloc);
    for list in lists {
        let lines = diagnostic_lines(alloc, list.uri.as_str(), list.list.as_slice())?;
        text.push_str(lines.as_str())?;
    }
    Ok(text)
}
