//! The command `arrows`: reads a text and prints its arrows.
ghost use Rattle.std.specs.Prelude.{◌≡◌, ◌≤◌, List, ℕ, length};
ghost use Rattle.ls_base.specs.Limits.{max_text};
ghost use Rattle.text_arrows.specs.ArrowsOutcome.{ArrowsEndsAs, CountsText, OpensNone, TextEndsAs};
ghost use Rattle.text_arrows.specs.Printed.{AreLines, IsRefusal};
ghost use Rattle.command_output.specs.Prints.{sink_seen};
ghost use Rattle.command_output.specs.Reads.{source_seen};
ghost use Rattle.text_arrows.specs.ArrowsStatuses.{arrows_status, text_status};
ghost use Rattle.command_output.specs.Streams.{streams};

use crate::alone::{Told, answer_to};
use crate::reading::{ReadStop, read_all};
use crate::wording::NOT_UTF8;
use command_output::{SinkFailed, Status, print_all};
use ls_base::{Memory, Steps};
use ls_outside::{Sink, Source};
use std::alloc::Global;
use std::sync::ledger::Ledger;

/// How the answer to a text ends.
#[derive(Clone, Copy)]
pub enum TextEnd {
    /// Its arrows were printed.
    Printed,
    /// It doesn't read, which was printed.
    Refused,
    /// A write failed.
    WriteFailed,
    /// Memory ran out.
    NoMemory,
}

impl TextEnd {
    /// The status of a run that ends so.
    pub fn status(self) -> Status
        ensures { result ≡ text_status self }
    {
        match self {
            TextEnd::Printed => Status::Done,
            TextEnd::Refused => Status::Refused,
            TextEnd::WriteFailed => Status::SinkFault,
            TextEnd::NoMemory => Status::NoMemory,
        }
    }
}

/// How `arrows` ends.
#[derive(Clone, Copy)]
pub enum ArrowsEnd {
    /// The text was read whole, and its answer ended so.
    Answered(TextEnd),
    /// The text is longer than the limit.
    TooLong,
    /// A read failed.
    ReadFailed,
    /// Memory ran out.
    NoMemory,
}

impl ArrowsEnd {
    /// The status of a run that ends so.
    pub fn status(self) -> Status
        ensures { result ≡ arrows_status self }
    {
        match self {
            ArrowsEnd::Answered(end) => end.status(),
            ArrowsEnd::TooLong => Status::TooLong,
            ArrowsEnd::ReadFailed => Status::SourceFault,
            ArrowsEnd::NoMemory => Status::NoMemory,
        }
    }
}

/// Reads a text and prints its arrows.
pub fn arrows<I: Source, O: Sink, L: Ledger>(
    alloc: Global,
    input: &mut I,
    output: &mut O,
    steps: &mut Steps<L>,
) -> ArrowsEnd
    ensures ends { ArrowsEndsAs
        (streams (source_seen (I.left input.old) (I.faults input.old) (I.reads input.old))
        (sink_seen (O.taken output.old) (O.faults output.old) (O.writes output.old)))
        (streams (source_seen (I.left input.new) (I.faults input.new) (I.reads input.new))
        (sink_seen (O.taken output.new) (O.faults output.new) (O.writes output.new))) steps.old steps.new result }
    ensures steps { OpensNone result → steps.new ≡ steps.old }
{
    match read_all(alloc, input) {
        Ok(text) => ArrowsEnd::Answered(print_text(alloc, &text, output, steps)),
        Err(ReadStop::Long) => ArrowsEnd::TooLong,
        Err(ReadStop::Failed) => ArrowsEnd::ReadFailed,
        Err(ReadStop::Memory) => ArrowsEnd::NoMemory,
    }
}

/// Prints the arrows of a text, or the line for one that doesn't read.
fn print_text<O: Sink, L: Ledger>(
    alloc: Global,
    text: &[u8],
    output: &mut O,
    steps: &mut Steps<L>,
) -> TextEnd
    requires { length text.now ≤ max_text }
    ensures ends { TextEndsAs result text.now
        (sink_seen (O.taken output.old) (O.faults output.old) (O.writes output.old))
        (sink_seen (O.taken output.new) (O.faults output.new) (O.writes output.new)) }
    ensures counted { CountsText result text.now steps.old steps.new }
{
    let Ok(text) = str::from_utf8(text) else {
        return print_refusal(NOT_UTF8, output);
    };
    match answer_to(alloc, text, steps) {
        Ok(Told::Arrows(lines)) => print_lines(lines.as_str(), output),
        Ok(Told::Stop(line)) => print_refusal(line.as_str(), output),
        Err(Memory) => TextEnd::NoMemory,
    }
}

/// Prints the lines of the arrows of a text.
fn print_lines<O: Sink>(lines: &str, output: &mut O) -> TextEnd
    ensures { (text : List ℕ) → AreLines text lines.now → TextEndsAs result text
        (sink_seen (O.taken output.old) (O.faults output.old) (O.writes output.old))
        (sink_seen (O.taken output.new) (O.faults output.new) (O.writes output.new)) }
{
    match print_all(output, lines.as_bytes()) {
        Ok(()) => TextEnd::Printed,
        Err(SinkFailed) => TextEnd::WriteFailed,
    }
}

/// Prints the line for a text that doesn't read.
fn print_refusal<O: Sink>(line: &str, output: &mut O) -> TextEnd
    ensures { (text : List ℕ) → IsRefusal text line.now → TextEndsAs result text
        (sink_seen (O.taken output.old) (O.faults output.old) (O.writes output.old))
        (sink_seen (O.taken output.new) (O.faults output.new) (O.writes output.new)) }
{
    match print_all(output, line.as_bytes()) {
        Ok(()) => TextEnd::Refused,
        Err(SinkFailed) => TextEnd::WriteFailed,
    }
}
