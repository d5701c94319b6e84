//! Readers of arguments.
ghost use Rattle.std.specs.Prelude.{◌≡◌, ◌<◌, ◌^◌, IfOk, vec_len};

use crate::fault::{Row, RowFault};
use ls_base::{Encoding, Pos, Range};
use serde_json::Value;
use std::alloc::Global;
use std::str::from_utf8;

/// One more than the most bytes that a row may make.
const MADE: usize = 16_777_216;

/// The JSON of an argument.
pub fn json(alloc: Global, argument: &str) -> Row<Value> {
    match Value::from_str(alloc, argument) {
        Ok(value) => Ok(value),
        Err(error) if error.is_memory() => Err(RowFault::Memory),
        Err(_) => Err(RowFault::NoJson),
    }
}

pub fn list(value: &Value) -> Row<&Vec<Value>> {
    value.as_array().ok_or(RowFault::BadArgument)
}

/// An item of a list.
pub fn item(value: &Value, n: usize) -> Row<&Value> {
    value.get(n).ok_or(RowFault::BadArgument)
}

pub fn text(value: &Value) -> Row<&str> {
    value.as_str().ok_or(RowFault::BadArgument)
}

pub fn integer(value: &Value) -> Row<i64> {
    value.as_i64().ok_or(RowFault::BadArgument)
}

/// A number below 2^32.
pub fn number(value: &Value) -> Row<u32> {
    let number = value.as_u64().ok_or(RowFault::BadArgument)?;
    u32::try_from(number).ok().ok_or(RowFault::BadArgument)
}

/// A number below 256.
pub fn small(value: &Value) -> Row<u8> {
    let number = value.as_u64().ok_or(RowFault::BadArgument)?;
    u8::try_from(number).ok().ok_or(RowFault::BadArgument)
}

pub fn flag(value: &Value) -> Row<bool> {
    value.as_bool().ok_or(RowFault::BadArgument)
}

/// A position: `[LINE, CHARACTER]`.
pub fn position(value: &Value) -> Row<Pos> {
    let line = number(item(value, 0)?)?;
    let character = number(item(value, 1)?)?;
    Ok(Pos { line, character })
}

/// A range: `[POSITION, POSITION]`.
pub fn range(value: &Value) -> Row<Range> {
    let start = position(item(value, 0)?)?;
    let end = position(item(value, 1)?)?;
    Ok(Range { start, end })
}

/// An encoding by its name in the protocol (LSP 3.17, PositionEncodingKind).
pub fn encoding(value: &Value) -> Row<Encoding> {
    match text(value)? {
        "utf-8" => Ok(Encoding::Utf8),
        "utf-16" => Ok(Encoding::Utf16),
        "utf-32" => Ok(Encoding::Utf32),
        _ => Err(RowFault::BadArgument),
    }
}

/// Adds a text so many times.
fn push_times(bytes: &mut Vec<u8>, text: &str, times: u32) -> Row<()> {
    for _ in 0..times {
        if bytes.len() >= MADE {
            return Err(RowFault::TooLong);
        }
        bytes.extend_from_slice(text.as_bytes())?;
    }
    Ok(())
}

/// Adds the bytes of a list of numbers.
fn push_bytes(bytes: &mut Vec<u8>, numbers: &[Value]) -> Row<()> {
    for number in numbers {
        bytes.push(small(number)?)?;
    }
    Ok(())
}

/// Adds a part: a text, `{"repeat": [TEXT, TIMES]}` or `{"bytes": [NUMBER, ..]}`.
fn push_part(bytes: &mut Vec<u8>, part: &Value) -> Row<()> {
    if let Some(text) = part.as_str() {
        bytes.extend_from_slice(text.as_bytes())?;
        return Ok(());
    }
    if let Some(numbers) = part.get("bytes") {
        return push_bytes(bytes, list(numbers)?);
    }
    let repeat = part.get("repeat").ok_or(RowFault::BadArgument)?;
    let times = number(item(repeat, 1)?)?;
    push_times(bytes, text(item(repeat, 0)?)?, times)
}

/// Bytes: a text, or a list of parts.
pub fn made_bytes(alloc: Global, value: &Value) -> Row<Vec<u8>>
    ensures { IfOk result (λ bytes. vec_len bytes < 2 ^ 24) }
{
    let mut bytes = Vec::new(alloc);
    match value.as_str() {
        Some(text) => bytes.extend_from_slice(text.as_bytes())?,
        None => {
            for part in list(value)? {
                push_part(&mut bytes, part)?;
            }
        }
    }
    if bytes.len() >= MADE {
        return Err(RowFault::TooLong);
    }
    Ok(bytes)
}

/// A text of such bytes.
pub fn made(bytes: &[u8]) -> Row<&str>
    ensures { IfOk result (λ text. text.now ≡ bytes.now) }
{
    Ok(from_utf8(bytes)?)
}
