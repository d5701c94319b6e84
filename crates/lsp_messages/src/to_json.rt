//! The text of the JSON of places in documents and of what is answered about them (LSP 3.17, "Basic JSON
//! Structures"): compact, with the keys of each object in byte order, and written piece by piece.
ghost use Rattle.std.specs.Prelude.{◌≡◌, ◌∷◌, [], ◌++◌, OnOk, IsTrue};
ghost use Rattle.std.specs.String.{string_bytes};
ghost use Rattle.json.specs.Print.{escape};
ghost use Rattle.serde_json.specs.Data.{Data, string};
ghost use Rattle.serde_json.specs.Written.{comma_if, compact_text};
ghost use Rattle.lsp_messages.specs.Replies.{natural_json, integer_json, list_json, position_json, range_json, place_json, arrow_json, highlight_json, text_edit_json, diagnostic_json};
ghost use Rattle.lsp_messages.specs.Written.{IsReadable, Writes};

use ls_base::{Arrow, Diagnostic, Highlight, Place, Pos, Range, Text, TextEdit};
use serde_json::Value;
use std::alloc::{AllocError, Global};
use std::fmt::Write;

/// What has one JSON.
pub(crate) trait ToJson {
    ghost json: { Self → Data };

    /// Appends the JSON's text.
    fn write_json(&self, alloc: Global, text: &mut String) -> Result<(), AllocError>
        ensures { OnOk result (Writes (json self.now) (string_bytes text.old) (string_bytes text.new)) };
}

/// Appends a piece of text.
pub(crate) fn put(text: &mut String, piece: &str) -> Result<(), AllocError>
    ensures { OnOk result (string_bytes text.new ≡ string_bytes text.old ++ piece.now) }
{
    text.push_str(piece)
}

/// Appends a comma, where something stands before.
pub(crate) fn comma(text: &mut String, later: bool) -> Result<(), AllocError>
    ensures { OnOk result (string_bytes text.new ≡ string_bytes text.old ++ comma_if later) }
{
    if later { put(text, ",") } else { Ok(()) }
}

/// Appends a whole number.
pub(crate) fn write_integer(text: &mut String, number: i64) -> Result<(), AllocError>
    ensures { OnOk result (Writes (integer_json number) (string_bytes text.old) (string_bytes text.new)) }
{
    write!(text, "{number}")
}

/// Whether nothing in a text has to be escaped in a string, so that it can be written as it stands.
fn is_plain(content: &str) -> bool
    ensures { IsTrue result → escape content.now ≡ content.now }
{
    for byte in content.as_bytes() {
        if *byte == b'"' || *byte == b'\\' || *byte < 32 {
            return false;
        }
    }
    true
}

/// Appends a string in quotes.
pub(crate) fn write_string(
    alloc: Global,
    text: &mut String,
    content: &str,
) -> Result<(), AllocError>
    ensures { OnOk result (Writes (string content.now) (string_bytes text.old) (string_bytes text.new)) }
{
    if is_plain(content) {
        put(text, "\"")?;
        put(text, content)?;
        put(text, "\"")?;
        Ok(())
    } else {
        let quoted = Value::try_from_str(alloc, content)?.to_string(alloc)?;
        put(text, quoted.as_str())
    }
}

/// Appends the list of the JSON of each item.
pub(crate) fn write_list<T: ToJson>(
    alloc: Global,
    text: &mut String,
    items: &[T],
) -> Result<(), AllocError>
    ensures { OnOk result (Writes (list_json T.json items.now) (string_bytes text.old) (string_bytes text.new)) }
{
    put(text, "[")?;
    let mut later = false;
    for item in items {
        comma(text, later)?;
        item.write_json(alloc, text)?;
        later = true;
    }
    put(text, "]")?;
    Ok(())
}

/// Appends an object of two members: what opens it with the first key, the first value, what stands between with
/// the second key, and the second value.
pub(crate) fn write_pair<T: ToJson, U: ToJson>(
    alloc: Global,
    text: &mut String,
    opening: &str,
    first: &T,
    between: &str,
    second: &U,
) -> Result<(), AllocError>
    ensures pieces { OnOk result (string_bytes text.new ≡ string_bytes text.old ++ (opening.now
        ++ (compact_text (T.json first.now) ++ (between.now
        ++ (compact_text (U.json second.now) ++ 125 ∷ []))))) }
    ensures first_readable { OnOk result (IsReadable (T.json first.now)) }
    ensures second_readable { OnOk result (IsReadable (U.json second.now)) }
{
    put(text, opening)?;
    first.write_json(alloc, text)?;
    put(text, between)?;
    second.write_json(alloc, text)?;
    put(text, "}")?;
    Ok(())
}

impl ToJson for u32 {
    ghost json = { natural_json };

    fn write_json(&self, _: Global, text: &mut String) -> Result<(), AllocError> {
        write_integer(text, i64::from(*self))
    }
}

impl ToJson for u8 {
    ghost json = { natural_json };

    fn write_json(&self, _: Global, text: &mut String) -> Result<(), AllocError> {
        write_integer(text, i64::from(*self))
    }
}

impl ToJson for Text {
    ghost json = { string };

    fn write_json(&self, alloc: Global, text: &mut String) -> Result<(), AllocError> {
        write_string(alloc, text, self.as_str())
    }
}

impl ToJson for Pos {
    ghost json = { position_json };

    fn write_json(&self, alloc: Global, text: &mut String) -> Result<(), AllocError> {
        write_pair(
            alloc,
            text,
            "{\"character\":",
            &self.character,
            ",\"line\":",
            &self.line,
        )
    }
}

impl ToJson for Range {
    ghost json = { range_json };

    fn write_json(&self, alloc: Global, text: &mut String) -> Result<(), AllocError> {
        write_pair(
            alloc,
            text,
            "{\"end\":",
            &self.end,
            ",\"start\":",
            &self.start,
        )
    }
}

impl ToJson for Place {
    ghost json = { place_json };

    fn write_json(&self, alloc: Global, text: &mut String) -> Result<(), AllocError> {
        write_pair(
            alloc,
            text,
            "{\"range\":",
            &self.range,
            ",\"uri\":",
            &self.uri,
        )
    }
}

impl ToJson for Arrow {
    ghost json = { arrow_json };

    fn write_json(&self, alloc: Global, text: &mut String) -> Result<(), AllocError> {
        write_pair(alloc, text, "{\"from\":", &self.from, ",\"to\":", &self.to)
    }
}

impl ToJson for Highlight {
    ghost json = { highlight_json };

    fn write_json(&self, alloc: Global, text: &mut String) -> Result<(), AllocError> {
        write_pair(
            alloc,
            text,
            "{\"kind\":",
            &self.kind,
            ",\"range\":",
            &self.range,
        )
    }
}

impl ToJson for TextEdit {
    ghost json = { text_edit_json };

    fn write_json(&self, alloc: Global, text: &mut String) -> Result<(), AllocError> {
        write_pair(
            alloc,
            text,
            "{\"newText\":",
            &self.new_text,
            ",\"range\":",
            &self.range,
        )
    }
}

impl ToJson for Diagnostic {
    ghost json = { diagnostic_json };

    fn write_json(&self, alloc: Global, text: &mut String) -> Result<(), AllocError> {
        put(text, "{\"code\":")?;
        self.code.write_json(alloc, text)?;
        put(text, ",\"message\":")?;
        self.message.write_json(alloc, text)?;
        put(text, ",\"range\":")?;
        self.range.write_json(alloc, text)?;
        put(text, ",\"severity\":")?;
        self.severity.write_json(alloc, text)?;
        put(text, ",\"source\":\"scheme_ls\"}")?;
        Ok(())
    }
}
