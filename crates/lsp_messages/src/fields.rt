//! Readers of the fields of an object (LSP 3.17, "Basic JSON Structures").
ghost use Rattle.std.specs.Prelude.{◌≡◌, IfOk};
ghost use Rattle.serde_json.specs.View.{view, items_view};
ghost use Rattle.lsp_messages.specs.Fields as spec;
ghost use Rattle.lsp_messages.specs.Fields.{Gives};

use crate::Id;
use crate::fault::{Fault, ReadError};
use ls_base::{Mem, Pos, Range, Text};
use serde_json::Value;
use std::alloc::Global;

/// The largest number of a position (LSP 3.17, uinteger).
const MAX_UINTEGER: u64 = 2_147_483_647;

/// A field of an object.
pub(crate) fn field<'v>(value: &'v Value, key: &str) -> Result<&'v Value, ReadError>
    ensures { Gives (λ v. view v.now) result (spec.field_at key.now (view value.now)) }
{
    Ok(value.get(key).ok_or(Fault::Bad)?)
}

/// A field that is a string.
pub(crate) fn text<'v>(value: &'v Value, key: &str) -> Result<&'v str, ReadError>
    ensures { Gives (λ s. s.now) result (spec.text_at key.now (view value.now)) }
{
    Ok(field(value, key)?.as_str().ok_or(Fault::Bad)?)
}

/// A field that is a boolean.
pub(crate) fn boolean(value: &Value, key: &str) -> Result<bool, ReadError>
    ensures { Gives (λ b. b) result (spec.boolean_at key.now (view value.now)) }
{
    Ok(field(value, key)?.as_bool().ok_or(Fault::Bad)?)
}

/// A field that is a list.
pub(crate) fn list<'v>(value: &'v Value, key: &str) -> Result<&'v [Value], ReadError>
    ensures { Gives (λ v. items_view v.now) result (spec.list_at key.now (view value.now)) }
{
    Ok(field(value, key)?.as_array().ok_or(Fault::Bad)?.as_slice())
}

/// A field that is a whole number.
pub(crate) fn integer(value: &Value, key: &str) -> Result<i64, ReadError>
    ensures { Gives (λ n. n) result (spec.integer_at key.now (view value.now)) }
{
    Ok(field(value, key)?.as_i64().ok_or(Fault::Bad)?)
}

/// A field that is a number of a position.
pub(crate) fn uinteger(value: &Value, key: &str) -> Result<u32, ReadError>
    ensures { Gives (λ n. n) result (spec.uinteger_at key.now (view value.now)) }
{
    let number = field(value, key)?.as_u64().ok_or(Fault::Bad)?;
    if number > MAX_UINTEGER {
        return Err(ReadError::Fault(Fault::Bad));
    }
    Ok(number as u32)
}

/// A field that is a position.
pub(crate) fn position(value: &Value, key: &str) -> Result<Pos, ReadError>
    ensures { Gives (λ p. p) result (spec.position_at key.now (view value.now)) }
{
    let position = field(value, key)?;
    let line = uinteger(position, "line")?;
    let character = uinteger(position, "character")?;
    Ok(Pos { line, character })
}

/// A range.
pub(crate) fn range(value: &Value) -> Result<Range, ReadError>
    ensures { Gives (λ r. r) result (spec.range_of (view value.now)) }
{
    let start = position(value, "start")?;
    let end = position(value, "end")?;
    Ok(Range { start, end })
}

/// The id that a value is, or `None` where it is none.
pub(crate) fn id(alloc: Global, value: &Value) -> Mem<Option<Id>>
    ensures { IfOk result (λ id. id ≡ spec.id_of (view value.now)) }
{
    if let Some(number) = value.as_i64() {
        return Ok(Some(Id::Number(number)));
    }
    match value.as_str() {
        None => Ok(None),
        Some(name) => Ok(Some(Id::Name(Text::of(alloc, name)?))),
    }
}
