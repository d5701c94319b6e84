//! The command `replay`: a session over the bytes of a file.
ghost use Rattle.std.specs.Prelude.{List, ℕ, IfOk};
ghost use Rattle.file_fetching.specs.FilesSeen.{FilesSeen, files_seen};
ghost use Rattle.ls_outside.specs.Left.{pieces_left};
ghost use Rattle.ls_outside.specs.Sources.{AreCuts};
ghost use Rattle.command_output.specs.Prints.{sink_seen};
ghost use Rattle.file_runs.specs.WorkOutcome.{work_seen};
ghost use Rattle.scheme_ls.specs.ReplayOutcome.{ReplayEndsAs, Replays, recording_piece};

use command_output::Status;
use file_fetching::fetch_recording;
use ls_base::{Mem, Memory, Steps, Text};
use ls_outside::{Files, Pieces, Sink, SureSource};
use session_serving::serve::serve;
use std::alloc::Global;
use std::sync::ledger::Ledger;

/// How long the pieces are in which a recorded session is read, in bytes.
const PIECE: usize = 65_536;

/// A session over the bytes of a file of at most 67,108,864 bytes.
pub fn replay<O: Sink, F: Files, L: Ledger>(
    alloc: Global,
    name: &Text,
    output: &mut O,
    files: &mut F,
    steps: &mut Steps<L>,
) -> Status
    ensures { ReplayEndsAs name.now
        (work_seen (files_seen (F.held files.old) (F.asked files.old) (F.reads files.old) (F.faults files.old)) (sink_seen (O.taken output.old) (O.faults output.old) (O.writes output.old)) steps.old)
        (work_seen (files_seen (F.held files.new) (F.asked files.new) (F.reads files.new) (F.faults files.new)) (sink_seen (O.taken output.new) (O.faults output.new) (O.writes output.new)) steps.new) result }
{
    let recording = match fetch_recording(alloc, name.as_str(), files) {
        Ok(recording) => recording,
        Err(stop) => return Status::of_fetch(stop),
    };
    match pieces_of(alloc, recording) {
        Ok(pieces) => replay_pieces(alloc, pieces, output, steps),
        Err(Memory) => Status::NoMemory,
    }
}

/// A recorded session in pieces.
fn pieces_of(alloc: Global, recording: Vec<u8>) -> Mem<Pieces>
    ensures { IfOk result (λ pieces. AreCuts recording_piece recording.items (pieces_left pieces)) }
{
    Ok(Pieces::cut(alloc, recording.as_slice(), PIECE)?)
}

/// A session over pieces.
fn replay_pieces<O: Sink, L: Ledger>(
    alloc: Global,
    pieces: Pieces,
    output: &mut O,
    steps: &mut Steps<L>,
) -> Status
    ensures { (files : FilesSeen) (bytes : List ℕ) → AreCuts recording_piece bytes (pieces_left pieces) → Replays bytes
        (work_seen files (sink_seen (O.taken output.old) (O.faults output.old) (O.writes output.old)) steps.old)
        (work_seen files (sink_seen (O.taken output.new) (O.faults output.new) (O.writes output.new)) steps.new) result }
{
    let mut source = SureSource::new(pieces);
    serve(alloc, &mut source, output, steps).status()
}
