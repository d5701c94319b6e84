//! Rows of document_store, whose calls follow one another.
use document_store::{Store, StoreFault};
use ls_base::{Change, Text};
use row_values::argument::{encoding, integer, item, list, made, made_bytes, number, range, text};
use row_values::fault::{Row, RowFault};
use row_values::shown::Shown;
use serde_json::Value;
use std::alloc::Global;

pub fn answer(out: &mut Shown, store: &mut Store, call: &str, argument: &Value) -> Row<()> {
    match call {
        "new" => {
            *store = Store::new(out.alloc());
            out.string("ok");
        }
        "add" => add(out, store, argument)?,
        "change" => change(out, store, argument)?,
        "close" => out.flag(store.close(text(argument)?)),
        _ => look(out, store, call, argument)?,
    }
    Ok(())
}

/// What a store holds.
fn look(out: &mut Shown, store: &Store, call: &str, argument: &Value) -> Row<()> {
    match call {
        "text" => show(out, store.text(text(argument)?)),
        "version" => match store.version(text(argument)?) {
            Some(version) => out.integer(version),
            None => out.null(),
        },
        "uri" => show(out, store.doc(number(argument)?)),
        "holds" => {
            let bytes = made_bytes(out.alloc(), item(argument, 1)?)?;
            let held = store.text(text(item(argument, 0)?)?);
            out.flag(held == Some(made(&bytes)?));
        }
        _ => return Err(RowFault::NoCall),
    }
    Ok(())
}

fn show(out: &mut Shown, text: Option<&str>) {
    match text {
        Some(text) => out.string(text),
        None => out.null(),
    }
}

/// How a call that may be refused ended.
fn show_outcome(out: &mut Shown, done: Result<(), StoreFault>) {
    match done {
        Ok(()) => out.string("ok"),
        Err(StoreFault::Memory) => out.fail(RowFault::Memory),
        Err(StoreFault::NotOpen) => out.string("not open"),
        Err(StoreFault::BadRange) => out.string("bad range"),
        Err(StoreFault::TooLong) => out.string("too long"),
        Err(StoreFault::TooMany) => out.string("too many"),
    }
}

/// `[URI, VERSION, TEXT]`.
fn add(out: &mut Shown, store: &mut Store, argument: &Value) -> Row<()> {
    let uri = text(item(argument, 0)?)?;
    let version = integer(item(argument, 1)?)?;
    let bytes = made_bytes(out.alloc(), item(argument, 2)?)?;
    let added = store.add(uri, version, made(&bytes)?);
    show_outcome(out, added);
    Ok(())
}

/// `[RANGE or null, TEXT]`.
fn read_change(alloc: Global, value: &Value) -> Row<Change> {
    let given = item(value, 0)?;
    let range = match given {
        Value::Null => None,
        _ => Some(range(given)?),
    };
    let text = Text::of(alloc, text(item(value, 1)?)?)?;
    Ok(Change { range, text })
}

/// `[URI, VERSION, [CHANGE, ..], ENCODING]`.
fn change(out: &mut Shown, store: &mut Store, argument: &Value) -> Row<()> {
    let alloc = out.alloc();
    let uri = text(item(argument, 0)?)?;
    let version = integer(item(argument, 1)?)?;
    let mut changes = Vec::new(alloc);
    for value in list(item(argument, 2)?)? {
        changes.push(read_change(alloc, value)?)?;
    }
    let encoding = encoding(item(argument, 3)?)?;
    let changed = store.change(uri, version, &changes, encoding);
    show_outcome(out, changed);
    Ok(())
}
