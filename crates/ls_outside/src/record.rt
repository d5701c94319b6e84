//! Pieces of bytes that only clauses read.
ghost use Rattle.std.specs.Prelude.{◌≡◌, ◌++◌, ◌∷◌, [], List, ℕ};
ghost use Rattle.std.specs.Borrow.{ftrue};
ghost use Rattle.ls_outside.specs.Calls.{AllTake, LastTakesNone};
ghost use Rattle.ls_outside.specs.Sources.{GotNotes, GotWithin};
ghost use Rattle.ls_outside.specs.Sinks.{PutNotes, PutWithin};

use crate::{Got, Put};
use std::marker::{Model, PhantomData};

/// Pieces of bytes in their order. Nothing of them is kept at run time, so to note one takes no memory.
#[derive(Drop)]
pub struct Record {
    marker: PhantomData<()>,
    pub ghost pieces: { List (List ℕ) },
}

impl Model for Record {
    ghost also_owns = { λ _. ftrue };
}

impl Record {
    /// No pieces.
    pub fn new() -> Record
        ensures { result.pieces ≡ [] }
    {
        Record {
            marker: PhantomData,
        }
    }

    /// Adds a piece at the end.
    pub fn note(&mut self, _piece: &[u8])
        ensures { self.new.pieces ≡ self.old.pieces ++ _piece.now ∷ [] }
    {}
}

/// Notes what a read took.
pub(crate) fn note_read(reads: &mut Record, got: Got, buf: &[u8])
    requires { GotWithin got buf.now }
    ensures { GotNotes reads.old.pieces reads.new.pieces got buf.now }
{
    match got {
        Got::Some(count) => reads.note(&buf[..count]),
        Got::End | Got::Failed => reads.note(&[]),
    }
}

/// Notes what a write took.
pub(crate) fn note_write(writes: &mut Record, put: Put, bytes: &[u8])
    requires { PutWithin put bytes.now }
    ensures { PutNotes writes.old.pieces writes.new.pieces put bytes.now }
{
    match put {
        Put::Some(count) => writes.note(&bytes[..count]),
        Put::Failed => writes.note(&[]),
    }
}

/// Notes that some bytes were taken, by one call if there are any.
pub(crate) fn note_some(reads: &mut Record, bytes: &[u8])
    ensures { AllTake reads.old.pieces reads.new.pieces bytes.now }
{
    if !bytes.is_empty() {
        reads.note(bytes);
    }
}

/// Notes that they were taken, and that the next call found the end.
pub(crate) fn note_whole(reads: &mut Record, bytes: &[u8])
    ensures { LastTakesNone reads.old.pieces reads.new.pieces bytes.now }
{
    note_some(reads, bytes);
    reads.note(&[]);
}
