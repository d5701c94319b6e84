//! The lines of rows: a call with its argument, and its answer.
use crate::fault::{Row, RowFault};
use std::io;

/// A call, its group before its name, and its argument.
#[derive(Drop)]
pub struct Call<'a> {
    pub group: &'a str,
    pub name: &'a str,
    pub argument: &'a str,
}

/// The call of a line.
pub fn call_of(line: &str) -> Row<Call<'_>> {
    let (call, argument) = line.split_once('\t').ok_or(RowFault::NoTab)?;
    let (group, name) = call.split_once('/').ok_or(RowFault::NoCall)?;
    Ok(Call {
        group,
        name,
        argument,
    })
}

/// Prints an answer, or why there is none.
pub fn print<W: io::Write>(out: &mut W, answer: &Row<String>) -> io::Result<()> {
    match answer {
        Ok(text) => out.write_all(text.as_bytes())?,
        Err(fault) => {
            out.write_all(b"no answer: ")?;
            out.write_all(fault.words().as_bytes())?;
        }
    }
    out.write_all(b"\n")
}
