//! Rows: calls of the lower crates with their answers, for tests alone, where what is answered is seen neither in a session
//! (`tests/sessions`) nor by computing a definition (`tests/definitions`). Nothing stands on this crate, and it is no part of
//! the product.
//!
//! A line of the input is `CALL`, a tab and `ARGUMENT`; a line of the output is the call's answer. Where there is none, the
//! line is `no answer: ` and why, so that a row which is not understood fails. `tests/rows` has the rows, each with the
//! answer that is wanted, and `tests/rows/make` composes this crate's `stdin` and `stdout` from them.
//!
//! Arguments and answers are compact JSON, the keys of objects in byte order. A TEXT is a string, or a list of
//! parts one behind another: strings, `{"repeat":[STRING,TIMES]}` and `{"bytes":[NUMBER,..]}`. A NAME, a URI or a VERSION is a plain string or number. POSITION is `[LINE,CHARACTER]`, RANGE
//! `[POSITION,POSITION]`, ENCODING "utf-8", "utf-16" or "utf-32". A fault of reading is `{"at":[START,END],"fault":NUMBER}`,
//! in bytes. Examples stand below their calls, the argument before `->` and the answer behind it.
//!
//! Tokens: `[KIND,START,END]` and behind that the value where the kind has one: of a name its symbol and whether it stands
//! in bars, of a numeral, a string and a character their text, of a boolean its value.
//!
//!     tokens/of TEXT              the tokens, or the fault
//!         "(|a b|"                -> [["(",0,1],["name",1,6,"a b",true]]
//!     tokens/front TEXT           the tokens up to the end or to the fault, and the fault or null
//!         "a ]"                   -> [[["name",0,1,"a",false]],{"at":[2,3],"fault":1}]
//!     tokens/symbol TEXT          the symbol of a text that is one identifier, or null
//!         "|a|"                   -> "a"
//!     tokens/spell [NAME,BARS]    how a symbol is spelled, with bars in any case or where they are needed, and the symbol that
//!                                 this text has
//!         ["a b",false]           -> ["|a b|","a b"]
//!
//! Data: `[KIND,PLACE]` and behind that a value as that of a token; the parts of a list (and then its tail) or of a vector;
//! the numerals of a bytevector. PLACE is `[FIRST TOKEN,LAST TOKEN,START,END]`. The identifier that a mark such as `'`
//! implies has no token, and its bytes are those in front of its mark. A fault is answered as such by all three calls.
//!
//!     data/of TEXT                the data, or the fault
//!         "(a . 1)"               -> [["list",[0,4,0,7],[["name",[1,1,1,2],"a",false]],["numeral",[3,3,5,6],"1"]]]
//!     data/innermost TEXT         of the first datum, what is reached through first parts, and how many data are round it
//!         "((x))"                 -> [2,["name",[2,2,2,3],"x",false]]
//!     data/size TEXT              of the first datum, how many parts a list or how many bytes a string has
//!         "(a b)"                 -> ["parts",2]
//!
//! Scopes, from an environment in which 0 and 1 are the own scopes of the units 0 and 1. IDENTIFIER is `[NAME,UNIT,[USE,..]]`: a name
//! written in a unit and then inserted by macro uses, each `[UNIT,FORM,COUNT]`. A MEANING is `["local",NUMBER]`, `["global",UNIT,IDENTIFIER]`,
//! `["standard",NAME]` or `["free",NAME]`, in answers with the numbers of identifiers and symbols in place of both, which count from 0 in
//! the order in which the row names them.
//!
//!     scopes/of [STEP,..]         what those steps answer that ask. `["child",SCOPE]` opens a scope, whose number is the next;
//!                                 `["bind",SCOPE,IDENTIFIER,MEANING]` binds an identifier; `["use",USE,SCOPE]` tells in which scope
//!                                 the macro of a use was defined; `["resolve",SCOPE,IDENTIFIER]` asks for a meaning, and
//!                                 `["noted",SCOPE,IDENTIFIER,HEAD]` for a meaning and the questions that were noted
//!         [["noted",0,["q",0,[]],true]]   -> [[["free",0],["lookup",0,true,["free",0]]]]
//!
//! Nodes, which are characters, in a pool with one region, whose begin is marked.
//!
//!     nodes/of [STEP,..]          what those steps answer that ask. A string puts its first character: its id, and what lives under
//!                                 it; a number makes room for so many puts; "mark" marks this moment; "back" goes back to the mark,
//!                                 and "end" ends the region and opens another: how many live
//!         ["a","mark","b","back","c"]   -> [[0,"a"],[1,"b"],1,[1,"c"]]
//!
//! Positions, whose characters are counted in an encoding.
//!
//!     positions/offset [TEXT,POSITION,ENCODING]   the offset in bytes of a position
//!         ["é!",[0,1],"utf-16"]   -> 2
//!     positions/position [TEXT,OFFSET,ENCODING]   the position of an offset
//!         ["é!",2,"utf-32"]       -> [0,1]
//!
//! Open documents: one store, which each call finds as the rows before left it. A call that may be refused answers "ok",
//! "not open", "bad range", "too long" or "too many".
//!
//!     store/new null              begins with none
//!         null                    -> "ok"
//!     store/add [URI,VERSION,TEXT]   opens a document
//!         ["a",1,"x"]             -> "ok"
//!     store/change [URI,VERSION,[[RANGE or null,STRING],..],ENCODING]   changes a document
//!         ["a",2,[[[[0,0],[0,1]],"y"]],"utf-16"]   -> "ok"
//!     store/text URI              its text, or null
//!         "a"                     -> "y"
//!     store/version URI           its version, or null
//!         "a"                     -> 2
//!     store/holds [URI,TEXT]      whether it has this text
//!         ["a","x"]               -> false
//!     store/uri N                 the Nth uri, which counts from 0, or null
//!         0                       -> "a"
//!     store/close URI             closes a document: whether it was open
//!         "a"                     -> true
//!
//! Units, each a text: its program, or where it has none its last library, in all calls unit 0. A NAME is `[STRING,PLACE]`. A SET is
//! `["library",STRING]`, `["bad set"]`, `["only",SET,[NAME,..]]`, `["except",SET,[NAME,..]]`, `["prefix",SET,STRING]` or
//! `["rename",SET,[[NAME,NAME],..]]`. An ENTRY is `[STRING,MEANING]` as an argument, and its own name spells it; in answers
//! `[STRING,MEANING,[[PREFIX,PLACE or null],..]]`. Meanings are those of scopes.
//!
//!     units/read [TEXT,[KNOWN,..]]   `[KIND,LIBRARY or null,SPAN,[[SET,SPAN,SPAN,SPAN],..],[[NAME,NAME],..],[[SPAN,DECLARED],..]]`:
//!                                 the first token; the imports, with the bytes of the set, of the set inside its modifier and of
//!                                 its library's name; the exports; and the forms. Or the bad declaration. KNOWN are libraries
//!         ["(import (a))",[]]     -> ["program",null,[0,1],[[["library","(a)"],[8,11],[8,11],[8,11]]],[],[[[0,12],true]]]
//!     units/imports [TEXT,[ENTRY,..]]   the entries that the first import gives of these, or its fault
//!         ["(import (prefix (a) p-))",[["x",["local",0]]]]   -> [["p-x",["local",0],[["p-",null]]]]
//!     units/exports [TEXT,[ENTRY,..]]   the entries that a unit exports of these, and each fault with the place of its export
//!         ["(define-library (a) (export x))",[]]   -> [[],[[0,["not defined","x"]]]]
//!     units/repeated [TEXT,..]    the places of libraries whose name an earlier one has
//!         ["(define-library (a))","(define-library (a))"]   -> [1]
//!     units/order [TEXT,..]       the places of units, each after what it imports, or the libraries on a circle
//!         ["(import (a))","(define-library (a))"]   -> [1,0]
#![tactic(auto)]

mod data;
mod nodes;
mod positions;
mod scopes;
mod store;
mod tokens;
mod units;

use document_store::Store;
use row_values::argument;
use row_values::fault::{Row, RowFault};
use row_values::lines::{Call, call_of, print};
use row_values::shown::Shown;
use serde_json::Value;
use std::alloc::Global;
use std::io;
use std::io::{BufRead, BufReader, BufWriter, Write};

/// Writes the answer to a call.
fn answer_to(out: &mut Shown, store: &mut Store, call: &Call<'_>, argument: &Value) -> Row<()> {
    match call.group {
        "tokens" => tokens::answer(out, call.name, argument),
        "data" => data::answer(out, call.name, argument),
        "scopes" => scopes::answer(out, call.name, argument),
        "units" => units::answer(out, call.name, argument),
        "nodes" => nodes::answer(out, call.name, argument),
        "positions" => positions::answer(out, call.name, argument),
        "store" => store::answer(out, store, call.name, argument),
        _ => Err(RowFault::NoCall),
    }
}

/// The answer to a row, which finds the store as the rows before left it.
fn answer(alloc: Global, store: &mut Store, line: &str) -> Row<String> {
    let call = call_of(line)?;
    let argument = argument::json(alloc, call.argument)?;
    let mut out = Shown::new(alloc);
    answer_to(&mut out, store, &call, &argument)?;
    out.into_text()
}

fn main(rt: HostRuntime) -> io::Result<()> {
    let alloc = rt.alloc();
    let mut store = Store::new(alloc);
    let mut out = BufWriter::new(alloc, io::writer(&rt))?;
    for line in BufReader::new(alloc, rt.reader())?.lines(alloc) {
        print(&mut out, &answer(alloc, &mut store, line?.as_str()))?;
    }
    out.flush()
}
