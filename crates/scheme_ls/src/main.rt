//! The program `scheme_ls`: it makes the real outside, calls `run` and ends with its answer.
#![tactic(auto)]

ghost use Rattle.std.specs.Prelude.{◌≡◌, ◌<◌, ℕ, drop};
ghost use Rattle.command_output.specs.Prints.{sink_seen};
ghost use Rattle.command_output.specs.Reads.{source_seen};
ghost use Rattle.scheme_ls.specs.RunOutcome.{RunEnds, seen};
ghost use Rattle.command_words.specs.Words.{texts};
ghost use Rattle.file_fetching.specs.FilesSeen.{files_seen};

pub mod laws;
mod replay;
pub mod run;
mod wording;

use command_output::Status;
use ls_base::Steps;
use ls_outside::{Files, Sink, Source, StdFiles, StdSink, StdSource};
use std::alloc::Global;
use std::io::ErrorKind;
use std::marker::Brand;
use std::process::ExitCode;
use std::sync::ledger::{Blank, Ledger};
use std::{env, io};

/// The program's arguments, of which the first is its name.
fn arguments_of<R: std::rt::Env + AllocGlobal>(rt: &R) -> io::Result<Vec<String>> {
    let mut arguments = Vec::new(rt.alloc());
    for argument in env::args(rt)? {
        arguments.push(argument)?;
    }
    Ok(arguments)
}

/// The words after the program's name.
fn words_of(arguments: &[String]) -> &[String]
    ensures { result.now ≡ drop 1 arguments.now }
{
    match arguments {
        [] => &[],
        [_, words @ ..] => words,
    }
}

/// Calls `run` with the words after the program's name, and a counter of steps at 0.
fn run_counted<I: Source, O: Sink, F: Files, L: Ledger>(
    alloc: Global,
    blank: Blank,
    arguments: &[String],
    input: &mut I,
    output: &mut O,
    files: &mut F,
) -> u8
    requires name { blank.name ≡ L.name }
    requires parts { blank.parts ≡ L.parts }
    requires some { 0 < blank.parts }
    ensures { (steps : ℕ) × RunEnds (texts (drop 1 arguments.now))
        (seen (source_seen (I.left input.old) (I.faults input.old) (I.reads input.old))
        (sink_seen (O.taken output.old) (O.faults output.old) (O.writes output.old))
        (files_seen (F.held files.old) (F.asked files.old) (F.reads files.old) (F.faults files.old)) 0)
        (seen (source_seen (I.left input.new) (I.faults input.new) (I.reads input.new))
        (sink_seen (O.taken output.new) (O.faults output.new) (O.writes output.new))
        (files_seen (F.held files.new) (F.asked files.new) (F.reads files.new) (F.faults files.new)) steps) result }
{
    let mut steps = Steps::<L>::new(blank);
    run::run(alloc, words_of(arguments), input, output, files, &mut steps)
}

fn main(rt: HostRuntime) -> ExitCode {
    let arguments = match arguments_of(&rt) {
        Ok(arguments) => arguments,
        Err(error) if error.kind() == ErrorKind::OutOfMemory => {
            return ExitCode::from(Status::NoMemory.code());
        }
        // A word that isn't UTF-8 stands in no command.
        Err(_) => Vec::new(rt.alloc()),
    };
    let mut input = StdSource::new(rt.reader());
    let mut output = StdSink::new(io::writer(&rt));
    let mut files = StdFiles::new(&rt);
    let status = run_counted::<_, _, _, Brand>(
        rt.alloc(),
        Blank::new(1),
        &arguments,
        &mut input,
        &mut output,
        &mut files,
    );
    ExitCode::from(status)
}
