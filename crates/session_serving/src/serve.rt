//! One session over a source and a sink.
ghost use Rattle.std.specs.FinMap.{empty};
ghost use Rattle.std.specs.Prelude.{◌≡◌, Some, []};
ghost use Rattle.ls_base.specs.Frames.{rest};
ghost use Rattle.lsp_framing.specs.Deframed.{After};
ghost use Rattle.scheme_model.specs.Session.{begin};
ghost use Rattle.session_serving.specs.AheadOutcome.{ServesAhead, ServesBy};
ghost use Rattle.command_output.specs.Prints.{sink_seen};
ghost use Rattle.command_output.specs.Reads.{source_seen};
ghost use Rattle.session_serving.specs.ServeOutcome.{Serves};
ghost use Rattle.session_serving.specs.SessionEnds.{session_status};
ghost use Rattle.command_output.specs.Streams.{streams};

use crate::answering::Exit;
use crate::server::{PieceEnd, Server};
use command_output::Status;
use lookahead::Looking;
use ls_base::Steps;
use ls_outside::{Got, Sink, Source};
use lsp_framing::Deframer;
use reply_writing::replies::{WriteStop, say_farewell};
use session_core::Session;
use std::alloc::Global;
use std::sync::ledger::Ledger;

/// How many bytes are read at once, at most.
const BUFFER: usize = 65_536;

/// How many bytes a session takes, at most.
const MAX_STREAM: u64 = 1 << 40;

/// How a session ends.
#[derive(Clone, Copy)]
pub enum SessionEnd {
    /// By an `exit`.
    Exited(Exit),
    /// The input ended without `exit`.
    InputEnded,
    /// A read failed.
    ReadFailed,
    /// A write failed.
    WriteFailed,
    /// Memory ran out.
    NoMemory,
    /// The input has a fault of frames, which was logged.
    FrameFault,
    /// It took as many bytes as a session may.
    Endless,
}

impl SessionEnd {
    /// The status of a run that ends so.
    pub fn status(self) -> Status
        ensures { result ≡ session_status self }
    {
        match self {
            Self::Exited(exit) => exit.status(),
            Self::InputEnded => Status::Refused,
            Self::ReadFailed => Status::SourceFault,
            Self::WriteFailed => Status::SinkFault,
            Self::NoMemory => Status::NoMemory,
            Self::FrameFault => Status::FrameFault,
            Self::Endless => Status::Endless,
        }
    }
}

/// A session over the input: reads it piece by piece and writes all that answers a piece before it reads the next, until
/// `exit`, the end, a fault, or as many bytes as a session takes.
pub fn serve<I: Source, O: Sink, L: Ledger>(
    alloc: Global,
    input: &mut I,
    output: &mut O,
    steps: &mut Steps<L>,
) -> SessionEnd
    ensures { Serves
        (streams (source_seen (I.left input.old) (I.faults input.old) (I.reads input.old))
        (sink_seen (O.taken output.old) (O.faults output.old) (O.writes output.old)))
        (streams (source_seen (I.left input.new) (I.faults input.new) (I.reads input.new))
        (sink_seen (O.taken output.new) (O.faults output.new) (O.writes output.new))) steps.old steps.new result }
{
    serve_by(alloc, Looking::OneByOne, input, output, steps)
}

/// The same, but the bodies that a piece completes are looked at ahead, so that one can cancel a request before it.
pub fn serve_ahead<I: Source, O: Sink, L: Ledger>(
    alloc: Global,
    input: &mut I,
    output: &mut O,
    steps: &mut Steps<L>,
) -> SessionEnd
    ensures { ServesAhead
        (streams (source_seen (I.left input.old) (I.faults input.old) (I.reads input.old))
        (sink_seen (O.taken output.old) (O.faults output.old) (O.writes output.old)))
        (streams (source_seen (I.left input.new) (I.faults input.new) (I.reads input.new))
        (sink_seen (O.taken output.new) (O.faults output.new) (O.writes output.new))) steps.old steps.new result }
{
    serve_by(alloc, Looking::Ahead, input, output, steps)
}

/// A session that looks at the bodies of a piece so.
fn serve_by<I: Source, O: Sink, L: Ledger>(
    alloc: Global,
    looking: Looking,
    input: &mut I,
    output: &mut O,
    steps: &mut Steps<L>,
) -> SessionEnd
    ensures { ServesBy looking
        (streams (source_seen (I.left input.old) (I.faults input.old) (I.reads input.old))
        (sink_seen (O.taken output.old) (O.faults output.old) (O.writes output.old)))
        (streams (source_seen (I.left input.new) (I.faults input.new) (I.reads input.new))
        (sink_seen (O.taken output.new) (O.faults output.new) (O.writes output.new))) steps.old steps.new result }
{
    let Ok(session) = Session::new(alloc) else {
        return SessionEnd::NoMemory;
    };
    let mut server = Server {
        deframer: Deframer::new(alloc),
        session,
        alloc,
    };
    answer_input(&mut server, looking, input, output, steps)
}

/// Takes the input piece by piece with a server that has taken nothing yet.
fn answer_input<I: Source, O: Sink, L: Ledger>(
    server: &mut Server,
    looking: Looking,
    input: &mut I,
    output: &mut O,
    steps: &mut Steps<L>,
) -> SessionEnd
    requires start { After [] [] server.old.deframer }
    requires end { server.old.deframer.end ≡ Some (rest []) }
    requires state { server.old.session ≡ begin empty }
    ensures { ServesBy looking
        (streams (source_seen (I.left input.old) (I.faults input.old) (I.reads input.old))
        (sink_seen (O.taken output.old) (O.faults output.old) (O.writes output.old)))
        (streams (source_seen (I.left input.new) (I.faults input.new) (I.reads input.new))
        (sink_seen (O.taken output.new) (O.faults output.new) (O.writes output.new))) steps.old steps.new result }
{
    let mut buf = [0u8; BUFFER];
    let mut taken: u64 = 0;
    while taken < MAX_STREAM {
        let room = BUFFER.min((MAX_STREAM - taken) as usize);
        match input.read(&mut buf[..room]) {
            Got::Some(count) => {
                taken += count as u64;
                match server.take(&buf[..count], looking, output, steps) {
                    PieceEnd::Answered => {}
                    PieceEnd::Faulty(fault) => match say_farewell(
                        server.alloc,
                        fault.number,
                        fault.offset,
                        output,
                    ) {
                        Ok(()) => return SessionEnd::FrameFault,
                        Err(WriteStop::Failed) => return SessionEnd::WriteFailed,
                        Err(WriteStop::Memory) => return SessionEnd::NoMemory,
                    },
                    PieceEnd::Exited(exit) => return SessionEnd::Exited(exit),
                    PieceEnd::WriteFailed => return SessionEnd::WriteFailed,
                    PieceEnd::NoMemory => return SessionEnd::NoMemory,
                }
            }
            Got::End => return SessionEnd::InputEnded,
            Got::Failed => return SessionEnd::ReadFailed,
        }
    }
    SessionEnd::Endless
}
