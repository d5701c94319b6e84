//! The number of each document's program among the units of all documents.
ghost use Rattle.std.specs.Prelude.{◌≡◌, ◌+◌, ◌≤◌, ℕ, List, length, filter, min, if◌then◌else◌, IfOk};
ghost use Rattle.scheme_model.specs.Declarations.{is_library};
ghost use Rattle.scheme_model.specs.Includes.{data_of as read_data, has_program, max_units};
ghost use Rattle.datum_reader.specs.Views.{data_of, datum_of};
ghost use Rattle.text_parts.specs.Documents.{document_of, documents_in};
ghost use Rattle.text_parts.specs.Places.{Each};
ghost use Rattle.text_parts.specs.Programs.{IsProgramPlace};

use crate::texts::TextRead;
use datum_reader::Datum;
use datum_reader::heads::is_headed;
use ls_base::Mem;
use ls_base::limits::MAX_UNITS;
use std::alloc::Global;

/// The number of a program, and whether there is one.
#[derive(Clone, Copy)]
pub struct ProgramPlace {
    pub number: usize,
    pub there: bool,
}

/// Whether a datum is a library.
fn is_library(datum: &Datum) -> bool
    ensures { result ≡ is_library (datum_of datum.now) }
{
    is_headed("define-library", datum)
}

/// How many libraries data have.
fn library_count(data: &[Datum]) -> usize
    ensures { result ≡ length (filter is_library (data_of data.now)) }
{
    let mut count = 0;
    for datum in data {
        if is_library(datum) {
            count += 1;
        }
    }
    count
}

/// Whether data have a program.
fn has_program(data: &[Datum]) -> bool
    ensures { result ≡ has_program (data_of data.now) }
{
    for datum in data {
        if !is_library(datum) {
            return true;
        }
    }
    false
}

/// The data of a text, none where it doesn't read.
fn data_in<'a>(text: &TextRead<'a>) -> &'a [Datum]
    ensures { (uris : List (List ℕ)) (n : ℕ) → data_of result.now ≡ read_data (document_of uris n text.now) }
{
    if !text.reads {
        return &[];
    }
    text.data
}

/// The place of a document's program behind so many units.
fn program_behind(before: usize, data: &[Datum]) -> ProgramPlace
    requires { before ≤ max_units }
    ensures number { result.number ≡ min (before + length (filter is_library (data_of data.now))) max_units }
    ensures there { result.there ≡ has_program (data_of data.now) }
{
    let libraries = library_count(data);
    let number = if libraries < MAX_UNITS - before {
        before + libraries
    } else {
        MAX_UNITS
    };
    let there = has_program(data);
    ProgramPlace { number, there }
}

/// How many units there are up to a program, itself among them if it is there.
fn units_with(program: ProgramPlace) -> usize
    requires { program.number ≤ max_units }
    ensures { result ≡ min (program.number + (if program.there then 1 else 0)) max_units }
{
    if program.there && program.number < MAX_UNITS {
        return program.number + 1;
    }
    program.number
}

/// The places of all programs. Behind the most units all have one number.
pub fn programs(alloc: Global, texts: &[TextRead<'_>]) -> Mem<Vec<ProgramPlace>>
    ensures size { IfOk result (λ programs. length programs.items ≡ length texts.now) }
    ensures each { (uris : List (List ℕ)) → IfOk result (λ programs. Each (IsProgramPlace (documents_in uris texts.now)) programs.items) }
{
    let mut programs = Vec::new(alloc);
    let mut before = 0;
    for text in texts {
        let program = program_behind(before, data_in(text));
        before = units_with(program);
        programs.push(program)?;
    }
    Ok(programs)
}
