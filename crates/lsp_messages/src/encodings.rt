//! The encoding in which positions count (LSP 3.17, PositionEncodingKind).
ghost use Rattle.std.specs.Prelude.{◌≡◌, option_map};
ghost use Rattle.serde_json.specs.View.{view, items_view};
ghost use Rattle.lsp_messages.specs.Encodings as spec;

use ls_base::Encoding;
use serde_json::Value;

/// The name of an encoding.
pub(crate) fn encoding_name(encoding: Encoding) -> &'static str
    ensures { result.now ≡ spec.encoding_name encoding }
{
    match encoding {
        Encoding::Utf8 => "utf-8",
        Encoding::Utf16 => "utf-16",
        Encoding::Utf32 => "utf-32",
    }
}

/// The encoding of a name.
fn encoding_named(name: &str) -> Option<Encoding>
    ensures { result ≡ spec.encoding_named name.now }
{
    match name {
        "utf-8" => Some(Encoding::Utf8),
        "utf-16" => Some(Encoding::Utf16),
        "utf-32" => Some(Encoding::Utf32),
        _ => None,
    }
}

/// The encoding that a member of a list names.
fn encoding_in(value: &Value) -> Option<Encoding>
    ensures { result ≡ spec.encoding_in (view value.now) }
{
    encoding_named(value.as_str()?)
}

/// The first encoding that a list names.
fn first_encoding(values: &[Value]) -> Encoding
    ensures { result ≡ spec.first_encoding (items_view values.now) }
{
    for value in values {
        if let Some(encoding) = encoding_in(value) {
            return encoding;
        }
    }
    Encoding::Utf16
}

/// The list of the encodings that a client states, where it states one.
fn stated_encodings(message: &Value) -> Option<&[Value]>
    ensures { option_map (λ values. items_view values.now) result ≡ spec.stated_encodings (view message.now) }
{
    let capabilities = message.get("params")?.get("capabilities")?;
    let encodings = capabilities.get("general")?.get("positionEncodings")?;
    Some(encodings.as_array()?.as_slice())
}

/// The encoding that is agreed: the first that the client states and the server knows, or else UTF-16.
pub(crate) fn agreed_encoding(message: &Value) -> Encoding
    ensures { result ≡ spec.agreed_encoding (view message.now) }
{
    match stated_encodings(message) {
        None => Encoding::Utf16,
        Some(values) => first_encoding(values),
    }
}
