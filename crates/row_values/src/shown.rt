//! Answers as they are written: compact JSON, item by item.
use crate::fault::{Row, RowFault};
use ls_base::Text;
use serde_json::Value;
use std::alloc::Global;

/// An answer that is being written. `fresh` tells that no item of the innermost list stands there yet, and `fault` why something is
/// missing, so that the functions that write need not tell each of their failures.
#[derive(Drop)]
pub struct Shown {
    alloc: Global,
    text: String,
    fresh: bool,
    fault: Option<RowFault>,
}

impl Shown {
    pub fn new(alloc: Global) -> Shown {
        Shown {
            alloc,
            text: String::new(alloc),
            fresh: true,
            fault: None,
        }
    }

    pub fn alloc(&self) -> Global {
        self.alloc
    }

    /// The answer, where all of it was written.
    pub fn into_text(self) -> Row<String> {
        match self.fault {
            Some(fault) => Err(fault),
            None => Ok(self.text),
        }
    }

    /// Tells why something is missing. The first fault is kept.
    pub fn fail(&mut self, fault: RowFault) {
        if self.fault.is_none() {
            self.fault = Some(fault);
        }
    }

    /// Adds a text as it stands.
    fn put(&mut self, text: &str) {
        if self.text.push_str(text).is_err() {
            self.fail(RowFault::Memory);
        }
    }

    /// Adds an item as it stands, behind a comma where another item is before it.
    pub fn item(&mut self, item: &str) {
        if !self.fresh {
            self.put(",");
        }
        self.put(item);
        self.fresh = false;
    }

    /// Adds an item that may be missing.
    fn item_or_fail(&mut self, item: Row<String>) {
        match item {
            Ok(item) => self.item(item.as_str()),
            Err(fault) => self.fail(fault),
        }
    }

    /// Begins a list.
    pub fn open(&mut self) {
        self.item("[");
        self.fresh = true;
    }

    /// Ends a list.
    pub fn close(&mut self) {
        self.put("]");
        self.fresh = false;
    }

    /// Begins an object.
    pub fn open_object(&mut self) {
        self.item("{");
        self.fresh = true;
    }

    /// Ends an object.
    pub fn close_object(&mut self) {
        self.put("}");
        self.fresh = false;
    }

    /// A key of an object, whose value is the next item.
    pub fn key(&mut self, name: &str) {
        self.string(name);
        self.put(":");
        self.fresh = true;
    }

    pub fn string(&mut self, text: &str) {
        self.item_or_fail(json_text(self.alloc, text));
    }

    /// A character as a text.
    pub fn letter(&mut self, c: char) {
        self.item_or_fail(json_letter(self.alloc, c));
    }

    pub fn number(&mut self, number: u64) {
        self.item_or_fail(digits(self.alloc, number));
    }

    pub fn integer(&mut self, number: i64) {
        self.item_or_fail(signed_digits(self.alloc, number));
    }

    /// A list of numbers.
    pub fn numbers(&mut self, numbers: &[u32]) {
        self.open();
        for number in numbers {
            self.number(*number as u64);
        }
        self.close();
    }

    /// A list of texts.
    pub fn texts(&mut self, texts: &[Text]) {
        self.open();
        for text in texts {
            self.string(text.as_str());
        }
        self.close();
    }

    pub fn flag(&mut self, flag: bool) {
        self.item(if flag { "true" } else { "false" });
    }

    pub fn null(&mut self) {
        self.item("null");
    }
}

fn json_text(alloc: Global, text: &str) -> Row<String> {
    Ok(Value::try_from_str(alloc, text)?.to_string(alloc)?)
}

fn json_letter(alloc: Global, c: char) -> Row<String> {
    let mut text = String::new(alloc);
    text.push(c)?;
    json_text(alloc, text.as_str())
}

fn digits(alloc: Global, number: u64) -> Row<String> {
    Ok(format!(in alloc; "{number}")?)
}

fn signed_digits(alloc: Global, number: i64) -> Row<String> {
    Ok(format!(in alloc; "{number}")?)
}
