//! The commands that work on files, or on a workspace made of a number, and print the lines of their work.
ghost use Rattle.std.specs.Prelude.{◌≡◌, ◌≤◌, length};
ghost use Rattle.ls_base.specs.Limits.{max_documents};
ghost use Rattle.file_fetching.specs.FilesSeen.{FilesSeen, files_seen};
ghost use Rattle.command_output.specs.Prints.{sink_seen};
ghost use Rattle.file_runs.specs.WorkOutcome.{CheckEndsAs, PrintsLines, RenameEndsAs, SelfrunEndsAs, check_status, work_seen};

use command_output::{SinkFailed, Status, print_all};
use file_commands::{Renamed, check_files, rename_in};
use file_fetching::{fetch_text, fetch_texts};
use generated_workspace::selfrun as selfrun_lines;
use ls_base::{Memory, Pos, Steps, Text};
use ls_outside::{Files, Sink};
use std::alloc::Global;
use std::sync::ledger::Ledger;

/// Prints the diagnostics of files.
pub fn check<O: Sink, F: Files, L: Ledger>(
    alloc: Global,
    names: &[Text],
    output: &mut O,
    files: &mut F,
    steps: &mut Steps<L>,
) -> Status
    requires { length names.now ≤ max_documents }
    ensures { CheckEndsAs names.now
        (work_seen (files_seen (F.held files.old) (F.asked files.old) (F.reads files.old) (F.faults files.old)) (sink_seen (O.taken output.old) (O.faults output.old) (O.writes output.old)) steps.old)
        (work_seen (files_seen (F.held files.new) (F.asked files.new) (F.reads files.new) (F.faults files.new)) (sink_seen (O.taken output.new) (O.faults output.new) (O.writes output.new)) steps.new) result }
{
    let contents = match fetch_texts(alloc, names, files) {
        Ok(contents) => contents,
        Err(stop) => return Status::of_fetch(stop),
    };
    match check_files(alloc, names, contents.as_slice(), steps) {
        Ok(checked) => print_lines(
            checked.lines.as_str(),
            status_of_check(checked.has_error),
            output,
        ),
        Err(Memory) => Status::NoMemory,
    }
}

/// Prints the edits of a rename in a file, or why it is refused.
pub fn rename<O: Sink, F: Files, L: Ledger>(
    alloc: Global,
    name: &Text,
    position: Pos,
    new_name: &Text,
    output: &mut O,
    files: &mut F,
    steps: &mut Steps<L>,
) -> Status
    ensures { RenameEndsAs name.now position new_name.now
        (work_seen (files_seen (F.held files.old) (F.asked files.old) (F.reads files.old) (F.faults files.old)) (sink_seen (O.taken output.old) (O.faults output.old) (O.writes output.old)) steps.old)
        (work_seen (files_seen (F.held files.new) (F.asked files.new) (F.reads files.new) (F.faults files.new)) (sink_seen (O.taken output.new) (O.faults output.new) (O.writes output.new)) steps.new) result }
{
    let content = match fetch_text(alloc, name.as_str(), files) {
        Ok(content) => content,
        Err(stop) => return Status::of_fetch(stop),
    };
    match rename_in(alloc, name, content.as_slice(), position, new_name, steps) {
        Ok(Renamed::Edits(lines)) => print_lines(lines.as_str(), Status::Done, output),
        Ok(Renamed::Refused(lines)) => print_lines(lines.as_str(), Status::Refused, output),
        Ok(Renamed::NotUtf8(lines)) => print_lines(lines.as_str(), Status::Refused, output),
        Err(Memory) => Status::NoMemory,
    }
}

/// Prints what is counted of a workspace of so many libraries.
pub fn selfrun<O: Sink, L: Ledger>(
    alloc: Global,
    libraries: u32,
    output: &mut O,
    steps: &mut Steps<L>,
) -> Status
    requires some { 1 ≤ libraries }
    requires few { libraries ≤ 60 }
    ensures { (files : FilesSeen) → SelfrunEndsAs libraries
        (work_seen files (sink_seen (O.taken output.old) (O.faults output.old) (O.writes output.old)) steps.old)
        (work_seen files (sink_seen (O.taken output.new) (O.faults output.new) (O.writes output.new)) steps.new) result }
{
    match selfrun_lines(alloc, libraries, steps) {
        Ok(lines) => print_lines(lines.as_str(), Status::Done, output),
        Err(Memory) => Status::NoMemory,
    }
}

/// The status of `check`, by whether an Error is printed.
fn status_of_check(has_error: bool) -> Status
    ensures { result ≡ check_status has_error }
{
    if has_error {
        Status::Refused
    } else {
        Status::Done
    }
}

/// Prints lines, and answers this status where all are printed.
pub fn print_lines<O: Sink>(lines: &str, status: Status, output: &mut O) -> Status
    ensures { PrintsLines lines.now status
        (sink_seen (O.taken output.old) (O.faults output.old) (O.writes output.old))
        (sink_seen (O.taken output.new) (O.faults output.new) (O.writes output.new)) result }
{
    match print_all(output, lines.as_bytes()) {
        Ok(()) => status,
        Err(SinkFailed) => Status::SinkFault,
    }
}
