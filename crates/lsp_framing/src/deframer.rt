//! The bodies of a byte stream.
ghost use Rattle.std.specs.Prelude.{◌≡◌, ◌++◌, ◌<◌, ◌+◌, ◌^◌, [], List, ℕ, Some, None, Err, length};
ghost use Rattle.ls_base.specs.Frames.{Fault, fault, fault_number, End, rest, IsFrames};
ghost use Rattle.lsp_framing.specs.Deframed.{Deframed, After, Keeps};
ghost use Rattle.lsp_framing.specs.Feeds.{fault_again, IfGiven, Feeds, EndsAs, Answers};

use crate::header::Wrong;
use crate::partial::{Partial, Stop};
use ls_base::Items;
use std::alloc::Global;
use std::marker::Model;

/// Why a piece of a stream was not taken whole (LSP 3.17, base protocol).
#[derive(Drop)]
pub enum FrameFault {
    /// Memory ran out. Bodies that the piece completed are lost.
    Memory,
    /// At this offset of the stream, in bytes, stands the first byte that no stream of frames has there. The number says
    /// what is wrong with it: 1 it can't stand there, 2 the empty line begins and no length was told, 3 it can't stand in
    /// the value of a length, 4 it would be one too many before a body, 5 with it the length passes the limit. `done` are
    /// the bodies that the piece completes before it.
    At {
        number: u8,
        offset: u64,
        done: Items<Vec<u8>>,
    },
}

/// Why no more bytes are taken.
#[derive(Clone, Copy)]
enum Halt {
    Memory,
    Fault { wrong: Wrong, offset: u64 },
}

impl Halt {
    /// What each later piece is answered.
    fn again(self, alloc: Global) -> FrameFault
        ensures { result ≡ fault_again self }
    {
        match self {
            Halt::Memory => FrameFault::Memory,
            Halt::Fault { wrong, offset } => FrameFault::At {
                number: wrong.number(),
                offset,
                done: Items::new(alloc),
            },
        }
    }
}

/// Reads a byte stream in pieces, and gives the bodies of its frames (LSP 3.17, base protocol). A body is copied once,
/// into a `Vec` of its length.
#[derive(Drop)]
pub struct Deframer {
    partial: Partial,
    /// How many bytes were taken.
    taken: u64,
    halt: Option<Halt>,
}

impl Model for Deframer {
    ghost use Rattle.lsp_framing.specs.Deframed.{Deframed, end_of};
    ghost use Rattle.lsp_framing.specs.Standing.{Stands, kept_bytes};

    ghost Value = { Deframed };

    ghost view = { λ d. record { end = end_of d.halt (kept_bytes d.partial); taken = d.taken } };

    ghost invariant = { λ d. Stands d.partial };
}

impl Deframer {
    /// At the start of a stream. It takes no memory.
    pub fn new(alloc: Global) -> Deframer
        ensures start { After [] [] result }
        ensures end { result.end ≡ Some (rest []) }
    {
        Deframer {
            partial: Partial::new(alloc),
            taken: 0,
            halt: None,
        }
    }

    /// How many bytes are kept of a frame that isn't whole: fewer than 8,392,704, and none after a fault or `Memory`. It
    /// takes no memory.
    pub fn kept(&self) -> u32
        ensures { Keeps self.now.end result }
    {
        match self.halt {
            Some(_) => 0,
            None => self.partial.kept(),
        }
    }

    /// Takes the next piece of the stream, and gives the bodies that it completes. After a fault each later call answers
    /// the same number and offset with no bodies, and after `Memory` each answers `Memory`.
    pub fn feed(&mut self, piece: &[u8]) -> Result<Items<Vec<u8>>, FrameFault>
        requires { self.old.taken + length piece.now < 2 ^ 64 }

        // The bodies that were given and how the bytes end are those of all bytes so far.
        ensures reading { IfGiven result (λ given. Feeds self.old piece.now given self.new) }
        ensures end { EndsAs result self.new.end }

        // Each answer but `Memory` comes exactly where the reading of all bytes so far is so.
        ensures exact { (past : List ℕ) (before all : List (List ℕ)) (end : End) →
            After past before self.old → IsFrames (past ++ piece.now) all end → Answers result before all end }

        // A fault comes again, and so does `Memory`.
        ensures again { (kind : Fault) (at : ℕ) → self.old.end ≡ Some (fault kind at) →
            (result ≡ Err (FrameFault.At (fault_number kind) at [])) × (self.new.end ≡ self.old.end) }
        ensures failed { self.old.end ≡ None → result ≡ Err FrameFault.Memory }

        ensures count { self.new.taken ≡ self.old.taken + length piece.now }
    {
        let start = self.taken;
        self.taken = start + piece.len() as u64;
        let alloc = self.partial.alloc;
        if let Some(halt) = self.halt {
            return Err(halt.again(alloc));
        }
        let mut done = Items::new(alloc);
        match self.partial.take_in(piece, &mut done) {
            Ok(()) => Ok(done),
            Err(Stop::Memory) => {
                self.partial = Partial::new(alloc);
                self.halt = Some(Halt::Memory);
                Err(FrameFault::Memory)
            }
            Err(Stop::Wrong { wrong, at }) => {
                let offset = start + at as u64;
                self.partial = Partial::new(alloc);
                self.halt = Some(Halt::Fault { wrong, offset });
                Err(FrameFault::At {
                    number: wrong.number(),
                    offset,
                    done,
                })
            }
        }
    }
}
