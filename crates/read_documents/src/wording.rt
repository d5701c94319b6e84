//! The wording of all diagnostics.
ghost use Rattle.std.specs.Prelude.{◌≡◌, IfOk};
ghost use Rattle.scheme_model.specs.DiagnosticTexts.{worded, front, back, word_in, reading_words, shape_words, unit_words};

use ls_base::{Mem, Text};
use std::alloc::Global;

/// The message of a code, with what it names.
pub fn message(alloc: Global, code: u32, name: &str) -> Mem<Text>
    ensures { IfOk result (λ text. text ≡ worded code name.now) }
{
    let mut text = String::from_str(alloc, front(code))?;
    text.push_str(name)?;
    text.push_str(back(code))?;
    Ok(Text::from_string(text))
}

/// What stands in front of the name.
fn front(code: u32) -> &'static str
    ensures { result.now ≡ front code }
{
    if code <= 20 {
        return reading(code);
    }
    if code <= 50 {
        return shape(code);
    }
    unit(code)
}

/// What stands behind the name.
fn back(code: u32) -> &'static str
    ensures { result.now ≡ back code }
{
    if code == 26 { " matches" } else { "" }
}

/// Texts that don't read.
fn reading(code: u32) -> &'static str
    ensures { result.now ≡ word_in reading_words code }
{
    match code {
        1 => "bad token",
        2 => "open string",
        3 => "open bar",
        4 => "open comment",
        5 => "open list",
        6 => "stray close",
        7 => "bad dot",
        8 => "bad byte",
        9 => "datum label",
        10 => "directive",
        11 => "too deep",
        12 => "missing datum",
        _ => "",
    }
}

/// Rules, their uses, core forms, definitions, and how far an expansion may go.
fn shape(code: u32) -> &'static str
    ensures { result.now ≡ word_in shape_words code }
{
    match code {
        21 => "bad syntax-rules",
        22 => "two ellipses",
        23 => "duplicate pattern variable ",
        24 => "ellipsis depth of ",
        25 => "idle ellipsis",
        26 => "no rule of ",
        27 => "ellipsis lengths differ",
        31 => "bad form",
        32 => "duplicate binder ",
        33 => "definition in expression place",
        34 => "bad record",
        35 => "bad quasiquote",
        41 => "keyword redefined ",
        42 => "duplicate definition ",
        43 => "keyword used as value ",
        44 => "more than 10000 macro uses",
        45 => "more than 200000 nodes",
        46 => "too deep expansion",
        47 => "syntax error: ",
        48 => "include is refused",
        _ => "",
    }
}

/// Imports, exports, units as a whole, and what is accepted.
fn unit(code: u32) -> &'static str
    ensures { result.now ≡ word_in unit_words code }
{
    match code {
        51 => "not exported ",
        52 => "import clash ",
        53 => "bad import set",
        61 => "bad declaration",
        62 => "import cycle",
        63 => "library defined twice",
        64 => "not defined ",
        65 => "exported twice ",
        66 => "unit too large",
        67 => "too many units",
        68 => "include cycle",
        101 => "definition hides import ",
        102 => "library not known",
        103 => "unbound ",
        104 => "no import, (scheme base) is used",
        105 => "included text not usable ",
        _ => "",
    }
}
