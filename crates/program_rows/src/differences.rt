//! Rows of program_differences.
ghost use Rattle.program_differences.specs.Both.{AreComparable};

use crate::programs::{Programs, documents, read_both};
use core_tree::units::Program;
use ls_base::{Items, Steps};
use program_differences::difference::first_difference_in;
use program_differences::plan::{Difference, Plan, Side};
use row_values::argument::{item, list, number};
use row_values::fault::{Row, RowFault};
use row_values::shown::Shown;
use scheme_model::Occ;
use serde_json::Value;
use std::alloc::Global;
use std::sync::ledger::Ledger;

pub fn answer<L: Ledger>(
    out: &mut Shown,
    call: &str,
    argument: &Value,
    steps: &mut Steps<L>,
) -> Row<()> {
    let alloc = out.alloc();
    let old = documents(alloc, item(argument, 0)?)?;
    let new = documents(alloc, item(argument, 1)?)?;
    let programs = read_both(alloc, &old, &new, steps)?;
    match call {
        "of" => compare(out, &programs, item(argument, 2)?)?,
        "read" => show_forms_of_both(out, &programs),
        _ => return Err(RowFault::NoCall),
    }
    Ok(())
}

/// `[UNIT, FORM, TOKEN]`.
fn occurrence(value: &Value) -> Row<Occ> {
    Ok(Occ {
        unit: number(item(value, 0)?)?,
        form: number(item(value, 1)?)?,
        token: number(item(value, 2)?)?,
    })
}

/// The occurrences whose names may change, and no export that may.
fn plan_of(alloc: Global, occurrences: &[Value]) -> Row<Plan> {
    let mut class = Items::new(alloc);
    for value in occurrences {
        class.push(occurrence(value)?)?;
    }
    Ok(Plan {
        class,
        exports: Items::new(alloc),
    })
}

/// The places of so many units.
fn places(alloc: Global, units: usize) -> Row<Vec<usize>> {
    let mut places = Vec::new(alloc);
    for place in 0..units {
        places.push(place)?;
    }
    Ok(places)
}

/// The first difference of programs in any of their units, where the names of these occurrences may change.
fn compare(out: &mut Shown, programs: &Programs, occurrences: &Value) -> Row<()>
    requires { AreComparable programs.now.work programs.now.old programs.now.new }
{
    let Programs { work, old, new } = programs;
    let alloc = out.alloc();
    let plan = plan_of(alloc, list(occurrences)?)?;
    let reach = places(alloc, old.units.as_slice().len())?;
    match first_difference_in(alloc, work, old, new, &plan, reach.as_slice())? {
        None => out.null(),
        Some(difference) => show(out, &difference),
    }
    Ok(())
}

fn show(out: &mut Shown, difference: &Difference) {
    out.open_object();
    out.key("after");
    show_side(out, &difference.after);
    out.key("before");
    show_side(out, &difference.before);
    out.key("form");
    out.number(difference.form as u64);
    out.key("kind");
    show_kind(out, difference.kind);
    out.key("occ");
    match difference.occ {
        None => out.null(),
        Some(occ) => show_occurrence(out, occ),
    }
    out.key("unit");
    out.number(difference.unit as u64);
    out.close_object();
}

fn show_kind(out: &mut Shown, kind: u8) {
    match kind {
        1 => out.string("captured"),
        2 => out.string("shadowed"),
        3 => out.string("quoted"),
        4 => out.string("template"),
        5 => out.string("export"),
        6 => out.string("structure"),
        7 => out.string("broken"),
        _ => out.fail(RowFault::NotShown),
    }
}

fn show_occurrence(out: &mut Shown, occ: Occ) {
    out.numbers(&[occ.unit, occ.form, occ.token]);
}

fn show_side(out: &mut Shown, side: &Side) {
    match side {
        Side::Binder(occ) => {
            out.open();
            out.string("binder");
            show_occurrence(out, *occ);
            out.close();
        }
        Side::Standard(name) => show_named(out, "standard", name.as_str()),
        Side::Unbound(name) => show_named(out, "unbound", name.as_str()),
        Side::Symbol(name) => show_named(out, "symbol", name.as_str()),
        Side::Nothing => out.null(),
    }
}

/// `[WORD, NAME]`.
fn show_named(out: &mut Shown, word: &str, name: &str) {
    out.open();
    out.string(word);
    out.string(name);
    out.close();
}

/// `[[FORMS, ..], [FORMS, ..]]`.
fn show_forms_of_both(out: &mut Shown, programs: &Programs) {
    out.open();
    show_forms(out, &programs.old);
    show_forms(out, &programs.new);
    out.close();
}

/// How many forms each unit has.
fn show_forms(out: &mut Shown, program: &Program) {
    out.open();
    for unit in program.units.as_slice() {
        out.number(unit.forms.as_slice().len() as u64);
    }
    out.close();
}
