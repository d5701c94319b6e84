//! Rows of text_positions.
use row_values::argument::{encoding, item, made, made_bytes, number, position};
use row_values::fault::{Row, RowFault};
use row_values::shown::Shown;
use serde_json::Value;
use text_positions::Lines;

pub fn answer(out: &mut Shown, call: &str, argument: &Value) -> Row<()> {
    let bytes = made_bytes(out.alloc(), item(argument, 0)?)?;
    let text = made(&bytes)?;
    let lines = Lines::of(out.alloc(), text)?;
    let place = item(argument, 1)?;
    let encoding = encoding(item(argument, 2)?)?;
    match call {
        "offset" => out.number(lines.offset(text, position(place)?, encoding) as u64),
        "position" => {
            let pos = lines.position(text, number(place)?, encoding);
            out.numbers(&[pos.line, pos.character]);
        }
        _ => return Err(RowFault::NoCall),
    }
    Ok(())
}
