//! A session, and the frames that it gets its bodies from.
ghost use Rattle.std.specs.Prelude.{◌≡◌, ◌+◌, ◌<◌, ◌^◌, length, IfOk};
ghost use Rattle.session_serving.specs.PieceOutcome.{Cuts, IsQuietPiece, PieceCountsAs, PieceEndsAs, serving};
ghost use Rattle.command_output.specs.Prints.{sink_seen};

use crate::answering::{BodiesEnd, Exit, answer_bodies};
use lookahead::{Bodies, Looking};
use ls_base::{Items, Mem, Memory, Steps};
use ls_outside::Sink;
use lsp_framing::{Deframer, FrameFault};
use session_core::Session;
use std::alloc::Global;
use std::sync::ledger::Ledger;

/// A fault of frames: its number, and its offset in the stream.
#[derive(Clone, Copy)]
pub struct FaultAt {
    pub number: u8,
    pub offset: u64,
}

/// The bodies that a piece completes, and the fault behind them, where there is one.
#[derive(Drop)]
pub struct Cut {
    bodies: Items<Vec<u8>>,
    fault: Option<FaultAt>,
}

/// How taking a piece ends.
#[derive(Clone, Copy)]
pub enum PieceEnd {
    /// All bodies are answered, and the session goes on.
    Answered,
    /// All bodies are answered, and behind them stands a fault of frames.
    Faulty(FaultAt),
    /// One of the bodies is an `exit`, and those before it are answered.
    Exited(Exit),
    /// A write failed.
    WriteFailed,
    /// Memory ran out.
    NoMemory,
}

/// Cuts bodies out of a piece of the stream.
fn cut_piece(deframer: &mut Deframer, piece: &[u8]) -> Mem<Cut>
    requires { deframer.old.taken + length piece.now < 2 ^ 64 }
    ensures { IfOk result (λ cut. Cuts deframer.old piece.now cut deframer.new) }
{
    match deframer.feed(piece) {
        Ok(bodies) => Ok(Cut {
            bodies,
            fault: None,
        }),
        Err(
            FrameFault::At {
                number,
                offset,
                done,
            },
        ) => Ok(Cut {
            bodies: done,
            fault: Some(FaultAt { number, offset }),
        }),
        Err(FrameFault::Memory) => Err(Memory),
    }
}

/// A session, and the frames that it gets its bodies from.
#[derive(Drop)]
pub struct Server {
    pub deframer: Deframer,
    pub session: Session,
    pub alloc: Global,
}

impl Server {
    /// Takes bytes of the input and writes what answers the bodies that they complete, which it looks at ahead or not.
    pub fn take<O: Sink, L: Ledger>(
        &mut self,
        piece: &[u8],
        looking: Looking,
        output: &mut O,
        steps: &mut Steps<L>,
    ) -> PieceEnd
        requires { self.old.deframer.taken + length piece.now < 2 ^ 64 }
        ensures takes { PieceEndsAs looking (serving self.old.deframer self.old.session) (serving self.new.deframer self.new.session)
            piece.now (sink_seen (O.taken output.old) (O.faults output.old) (O.writes output.old))
            (sink_seen (O.taken output.new) (O.faults output.new) (O.writes output.new)) result }
        ensures counted { PieceCountsAs looking (serving self.old.deframer self.old.session) (serving self.new.deframer self.new.session)
            piece.now (sink_seen (O.taken output.old) (O.faults output.old) (O.writes output.old))
            (sink_seen (O.taken output.new) (O.faults output.new) (O.writes output.new)) steps.old steps.new result }
        ensures steps { IsQuietPiece self.old.deframer piece.now → steps.new ≡ steps.old }
    {
        let Ok(Cut { bodies, fault }) = cut_piece(&mut self.deframer, piece) else {
            return PieceEnd::NoMemory;
        };
        let bodies = Bodies::new(self.alloc, bodies.into_vec(), looking);
        match answer_bodies(self.alloc, &mut self.session, bodies, output, steps) {
            BodiesEnd::Answered => match fault {
                None => PieceEnd::Answered,
                Some(fault) => PieceEnd::Faulty(fault),
            },
            BodiesEnd::Exited(exit) => PieceEnd::Exited(exit),
            BodiesEnd::WriteFailed => PieceEnd::WriteFailed,
            BodiesEnd::NoMemory => PieceEnd::NoMemory,
        }
    }
}
