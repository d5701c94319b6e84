//! Changes of a text.
ghost use Rattle.std.specs.Prelude.{◌≡◌, ◌≤◌, ◌++◌, length, IfOk};
ghost use Rattle.document_store.specs.Texts.{is_before, within_limit, edited, edits};
ghost use Rattle.document_store.specs.Faults.{Edits};
ghost use Rattle.ls_base.specs.Limits.{max_text};

use crate::StoreFault;
use ls_base::limits::MAX_TEXT;
use ls_base::{Change, Encoding, Pos, Text};
use std::alloc::Global;
use text_positions::Lines;

/// Whether a position stands before another: line first, and then character.
fn is_before(p: Pos, q: Pos) -> bool
    ensures { result ≡ is_before p q }
{
    p.line < q.line || p.line == q.line && p.character < q.character
}

/// A text of three parts, unless it is too long.
fn joined(alloc: Global, front: &str, middle: &str, back: &str) -> Result<Text, StoreFault>
    requires front { length front.now ≤ max_text }
    requires back { length back.now ≤ max_text }
    ensures edits { Edits result (within_limit (front.now ++ middle.now ++ back.now)) }
    ensures short { IfOk result (λ text. length text ≤ max_text) }
{
    if middle.len() > MAX_TEXT || front.len() + middle.len() + back.len() > MAX_TEXT {
        return Err(StoreFault::TooLong);
    }
    let mut text = String::with_capacity(alloc, front.len() + middle.len() + back.len())?;
    text.push_str(front)?;
    text.push_str(middle)?;
    text.push_str(back)?;
    Ok(Text::from_string(text))
}

/// A text after one change, whose positions count in the encoding.
fn edited(
    alloc: Global,
    text: &str,
    change: &Change,
    encoding: Encoding,
) -> Result<Text, StoreFault>
    requires { length text.now ≤ max_text }
    ensures edits { Edits result (edited encoding text.now change.now) }
    ensures short { IfOk result (λ text. length text ≤ max_text) }
{
    let new = change.text.as_str();
    let Some(range) = change.range else {
        return Ok(joined(alloc, "", new, "")?);
    };
    if is_before(range.end, range.start) {
        return Err(StoreFault::BadRange);
    }
    let lines = Lines::of(alloc, text)?;
    let front = &text[..lines.offset(text, range.start, encoding) as usize];
    let back = &text[lines.offset(text, range.end, encoding) as usize..];
    Ok(joined(alloc, front, new, back)?)
}

/// A text after changes, each applied to what the one before left.
pub fn edits(
    alloc: Global,
    text: &str,
    changes: &[Change],
    encoding: Encoding,
) -> Result<Text, StoreFault>
    requires { length text.now ≤ max_text }
    ensures edits { Edits result (edits encoding changes.now text.now) }
    ensures short { IfOk result (λ text. length text ≤ max_text) }
{
    let mut now = Text::of(alloc, text)?;
    for change in changes {
        now = edited(alloc, now.as_str(), change, encoding)?;
    }
    Ok(now)
}
