//! Rows of two programs: where they first differ, for tests alone. A rename compares its program with one of the same documents whose
//! identifiers got new names, so most of what tells programs apart is seen in no session: here any two programs are compared.
//! Nothing stands on this crate, and it is no part of the product.
//!
//! Lines, arguments and answers are as those of the program `rows` (`crates/rows/src/main.rt`). A PROGRAM is `[[URI,TEXT],..]`, its
//! documents; an OCC is `[UNIT,FORM,TOKEN]`; a SIDE is null, `["binder",OCC]`, `["standard",NAME]`, `["unbound",NAME]` or `["symbol",NAME]`.
//!
//!     differences/of [OLD,NEW,[OCC,..]]   two PROGRAMS with the same uris, and the occurrences of the old one whose names may
//!                                 change: null where all units are the same but for these, or the first place at which they aren't,
//!                                 `{"after":SIDE,"before":SIDE,"form":FORM,"kind":KIND,"occ":OCC or null,"unit":UNIT}`
//!         [[["a","x"]],[["a","y"]],[]]   -> {"after":["unbound","y"],"before":["unbound","x"],"form":0,"kind":"shadowed","occ":[0,0,0],"unit":0}
//!     differences/read [OLD,NEW]   how many forms each unit has, of both programs: they are read as above, and not compared
//!         [[["a","x y"]],[["a","x"]]]   -> [[2],[1]]
#![tactic(auto)]

ghost use Rattle.std.specs.Prelude.{◌≡◌, ◌<◌};

mod differences;
mod programs;

use ls_base::Steps;
use row_values::argument;
use row_values::fault::{Row, RowFault};
use row_values::lines::{call_of, print};
use row_values::shown::Shown;
use std::alloc::Global;
use std::io;
use std::io::{BufRead, BufReader, BufWriter, Write};
use std::marker::Brand;
use std::sync::ledger::{Blank, Ledger};

/// The answer to a row, whose macro uses are counted for nobody. (Its counter could not be proved where the line came as a `&str`.)
fn answer<L: Ledger>(alloc: Global, blank: Blank, line: &String) -> Row<String>
    requires name { blank.name ≡ L.name }
    requires parts { blank.parts ≡ L.parts }
    requires some { 0 < blank.parts }
{
    let mut steps = Steps::<L>::new(blank);
    let call = call_of(line.as_str())?;
    if call.group != "differences" {
        return Err(RowFault::NoCall);
    }
    let argument = argument::json(alloc, call.argument)?;
    let mut out = Shown::new(alloc);
    differences::answer(&mut out, call.name, &argument, &mut steps)?;
    out.into_text()
}

/// The same, with a counter of its own.
fn counted(alloc: Global, line: &String) -> Row<String> {
    answer::<Brand>(alloc, Blank::new(1), line)
}

fn main(rt: HostRuntime) -> io::Result<()> {
    let alloc = rt.alloc();
    let mut out = BufWriter::new(alloc, io::writer(&rt))?;
    for line in BufReader::new(alloc, rt.reader())?.lines(alloc) {
        let line = line?;
        print(&mut out, &counted(alloc, &line))?;
    }
    out.flush()
}
