//! The edits of a document, and the edited text.
ghost use Rattle.std.specs.Prelude.{◌≡◌, ◌≤◌, ◌++◌, ℕ, List, length, map, drop, nat_lt, None, Some, IfOk, OnOk};
ghost use Rattle.std.specs.BTreeMap.{get};
ghost use Rattle.std.specs.Ordering.{nat_cmp};
ghost use Rattle.std.specs.Str.{chars};
ghost use Rattle.ls_base.specs.Limits.{max_text};
ghost use Rattle.scheme_model.specs.Kinds.{Token};
ghost use Rattle.datum_reader.specs.Texts.{TextReads};
ghost use Rattle.text_edits.specs.Edits.{edited};
ghost use Rattle.text_edits.specs.NewNames as new;
ghost use Rattle.text_edits.specs.Views.{edit_of, span_seen, grown, CanEdit};

use crate::names::{TokenNames, name_of};
use ls_base::limits::MAX_TEXT;
use ls_base::{Items, Mem, Span, Text};
use scheme_tokens::spell;
use std::alloc::Global;

/// New text for some bytes of a text.
#[derive(Drop)]
pub struct Edit {
    pub span: Span,
    pub text: Text,
}

/// Whether a token begins with a bar.
fn has_bar(text: &str, span: Span) -> bool
    ensures { result ≡ new.begins_with_bar (drop span.start text.now) }
{
    text.as_bytes().get(span.start as usize) == Some(&b'|')
}

/// A name as it is written: between bars where these are asked for, or where it needs them.
fn written(alloc: Global, name: &str, bars: bool) -> Mem<Text>
    ensures { IfOk result (λ text. text ≡ new.written name.now bars) }
{
    let text = spell(alloc, name, bars)?;
    let _shown = text.as_str();
    Ok(text)
}

/// Adds the edit of a token that gets a new name. It is written between bars where the token begins with one.
fn push_edit(alloc: Global, edits: &mut Items<Edit>, text: &str, span: Span, name: &str) -> Mem<()>
    ensures { OnOk result (map edit_of edits.new ≡ map edit_of edits.old ++ new.edit_if text.now (span_seen span) (Some name.now)) }
{
    let text = written(alloc, name, has_bar(text, span))?;
    Ok(edits.push(Edit { span, text })?)
}

/// The edits of a text whose tokens have these bytes: each token with a new name is written anew, and nothing else changes.
pub fn edits_of(alloc: Global, text: &str, spans: &[Span], names: &TokenNames) -> Mem<Items<Edit>>
    ensures exact { IfOk result (λ edits. map edit_of edits ≡ new.edits_of (λ n. get nat_cmp names.now n) text.now (map span_seen spans.now)) }
    // Where these are the tokens that the text has, the edits can be made.
    ensures made { (ts : List Token) → TextReads (chars text.now) ts None → map span_seen spans.now ≡ map new.span_of ts → IfOk result (CanEdit text.now) }
{
    let mut edits = Items::new(alloc);
    for (number, span) in spans.iter().enumerate() {
        if let Some(name) = name_of(names, number) {
            push_edit(alloc, &mut edits, text, *span, name.as_str())?;
        }
    }
    Ok(edits)
}

/// A length with more bytes, unless that is more than 1,048,576.
fn grown(length: usize, more: usize) -> Option<usize>
    requires { length ≤ max_text }
    ensures { result ≡ grown length more }
{
    if more > MAX_TEXT - length {
        None
    } else {
        Some(length + more)
    }
}

/// Whether a text has more than 1,048,576 bytes when it is edited. It makes no text.
pub fn is_too_long(text: &str, edits: &[Edit]) -> bool
    requires { CanEdit text.now edits.now }
    ensures { result ≡ nat_lt max_text (length (edited (map edit_of edits.now) text.now)) }
{
    let mut length = 0;
    let mut at = 0;
    for edit in edits {
        let Some(kept) = grown(length, edit.span.start as usize - at) else {
            return true;
        };
        let Some(longer) = grown(kept, edit.text.as_str().len()) else {
            return true;
        };
        length = longer;
        at = edit.span.end as usize;
    }
    grown(length, text.len() - at).is_none()
}

/// The edited text.
pub fn edited_text(alloc: Global, text: &str, edits: &[Edit]) -> Mem<Text>
    requires { CanEdit text.now edits.now }
    ensures { IfOk result (λ new. new ≡ edited (map edit_of edits.now) text.now) }
{
    let mut new = String::new(alloc);
    let mut at = 0;
    for edit in edits {
        new.push_str(&text[at..edit.span.start as usize])?;
        new.push_str(edit.text.as_str())?;
        at = edit.span.end as usize;
    }
    new.push_str(&text[at..])?;
    Ok(Text::from_string(new))
}
