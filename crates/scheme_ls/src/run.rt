//! The top call, which the program is.
ghost use Rattle.std.specs.Prelude.{◌≡◌, ◌≤◌, List, ℕ, length};
ghost use Rattle.command_words.specs.Words.{texts};
ghost use Rattle.command_words.specs.declared.command.Command.TheVariants as asked;
ghost use Rattle.file_fetching.specs.FilesSeen.{files_seen};
ghost use Rattle.ls_base.specs.Limits.{max_documents};
ghost use Rattle.command_output.specs.Prints.{sink_seen};
ghost use Rattle.command_output.specs.Reads.{source_seen};
ghost use Rattle.scheme_ls.specs.RunOutcome.{CommandEndsAs, RunEnds, seen};

use crate::replay::replay;
use crate::wording::USAGE;
use command_output::Status;
use command_words::{Command, command_of};
use file_runs::work::{check, print_lines, rename, selfrun};
use ls_base::Steps;
use ls_outside::{Files, Sink, Source};
use session_serving::serve::{serve, serve_ahead};
use std::alloc::Global;
use std::sync::ledger::Ledger;
use text_arrows::arrows::arrows;

/// Does what the words ask for, over the outside that it is given, and answers the number of a status.
pub fn run<I: Source, O: Sink, F: Files, L: Ledger>(
    alloc: Global,
    words: &[String],
    input: &mut I,
    output: &mut O,
    files: &mut F,
    steps: &mut Steps<L>,
) -> u8
    ensures { RunEnds (texts words.now)
        (seen (source_seen (I.left input.old) (I.faults input.old) (I.reads input.old))
        (sink_seen (O.taken output.old) (O.faults output.old) (O.writes output.old))
        (files_seen (F.held files.old) (F.asked files.old) (F.reads files.old) (F.faults files.old)) steps.old)
        (seen (source_seen (I.left input.new) (I.faults input.new) (I.reads input.new))
        (sink_seen (O.taken output.new) (O.faults output.new) (O.writes output.new))
        (files_seen (F.held files.new) (F.asked files.new) (F.reads files.new) (F.faults files.new)) steps.new) result }
{
    let Ok(command) = command_of(alloc, words) else {
        return Status::NoMemory.code();
    };
    obey(alloc, &command, input, output, files, steps).code()
}

/// Does what a command asks for.
fn obey<I: Source, O: Sink, F: Files, L: Ledger>(
    alloc: Global,
    command: &Command,
    input: &mut I,
    output: &mut O,
    files: &mut F,
    steps: &mut Steps<L>,
) -> Status
    requires files { (names : List (List ℕ)) → command.now ≡ asked.Check names → length names ≤ max_documents }
    requires libraries { (count : ℕ) → command.now ≡ asked.Selfrun count → (1 ≤ count) × (count ≤ 60) }
    ensures { CommandEndsAs command.now
        (seen (source_seen (I.left input.old) (I.faults input.old) (I.reads input.old))
        (sink_seen (O.taken output.old) (O.faults output.old) (O.writes output.old))
        (files_seen (F.held files.old) (F.asked files.old) (F.reads files.old) (F.faults files.old)) steps.old)
        (seen (source_seen (I.left input.new) (I.faults input.new) (I.reads input.new))
        (sink_seen (O.taken output.new) (O.faults output.new) (O.writes output.new))
        (files_seen (F.held files.new) (F.asked files.new) (F.reads files.new) (F.faults files.new)) steps.new) result }
{
    match command {
        Command::Arrows => arrows(alloc, input, output, steps).status(),
        Command::Serve => serve(alloc, input, output, steps).status(),
        Command::ServeAhead => serve_ahead(alloc, input, output, steps).status(),
        Command::Replay { file } => replay(alloc, file, output, files, steps),
        Command::Check { files: names } => check(alloc, names.as_slice(), output, files, steps),
        Command::TooManyFiles => Status::TooLong,
        Command::Rename {
            file,
            position,
            name,
        } => rename(alloc, file, *position, name, output, files, steps),
        Command::Selfrun { libraries } => selfrun(alloc, *libraries, output, steps),
        Command::Unknown => print_lines(USAGE, Status::BadWords, output),
    }
}
