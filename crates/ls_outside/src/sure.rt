//! The outside in memory that never fails: its counts of faults are always 0.
ghost use Rattle.std.specs.Prelude.{◌≡◌, Some};

use crate::held::copy_of;
use crate::record::note_read;
use crate::{Contents, Fetch, Files, Got, Pieces, Put, Record, Sink, Source};
use std::alloc::Global;

/// A source that gives pieces in their order.
#[derive(Drop)]
pub struct SureSource {
    pieces: Pieces,
    reads: Record,
}

impl SureSource {
    ghost use Rattle.ls_outside.specs.Left.{pieces_left};
    ghost use Rattle.ls_outside.specs.SureTold.{sure_left, sure_reads};
    ghost use Rattle.std.specs.Prelude.{[]};

    pub fn new(pieces: Pieces) -> SureSource
        ensures left { sure_left result ≡ Some (pieces_left pieces) }
        ensures unread { sure_reads result ≡ [] }
    {
        SureSource {
            pieces,
            reads: Record::new(),
        }
    }
}

impl Source for SureSource {
    ghost use Rattle.ls_outside.specs.SureTold.{sure_left, sure_reads};
    ghost use Rattle.ls_outside.specs.LeftLaws.{sized_left};

    ghost left = { sure_left };

    ghost faults = { λ _. 0 };

    ghost reads = { sure_reads };

    ghost sized = { λ s. sized_left s.pieces };

    fn read(&mut self, buf: &mut [u8]) -> Got {
        let got = self.pieces.read(buf);
        note_read(&mut self.reads, got, buf);
        got
    }
}

/// A sink that takes all bytes at once. It keeps none of them at run time: what it took is told to clauses alone.
#[derive(Drop)]
pub struct SureSink {
    taken: Record,
}

impl SureSink {
    ghost use Rattle.std.specs.Prelude.{[]};
    ghost use Rattle.ls_outside.specs.SureTold.{sure_taken, sure_writes};

    pub fn new() -> SureSink
        ensures taken { sure_taken result ≡ Some [] }
        ensures unwritten { sure_writes result ≡ [] }
    {
        SureSink {
            taken: Record::new(),
        }
    }
}

impl Sink for SureSink {
    ghost use Rattle.ls_outside.specs.SureTold.{sure_taken, sure_writes};

    ghost taken = { sure_taken };

    ghost faults = { λ _. 0 };

    ghost writes = { sure_writes };

    fn write(&mut self, bytes: &[u8]) -> Put {
        self.taken.note(bytes);
        Put::Some(bytes.len())
    }
}

/// Files that are held by name. A name that isn't held has an empty content.
#[derive(Drop)]
pub struct SureFiles {
    contents: Contents,
    asked: Record,
    reads: Record,
}

impl SureFiles {
    ghost use Rattle.std.specs.Prelude.{[]};
    ghost use Rattle.ls_outside.specs.FilesInMemory.{content_or_empty};
    ghost use Rattle.ls_outside.specs.SureTold.{sure_asked, sure_files_reads, sure_held};

    pub fn new(contents: Contents) -> SureFiles
        ensures held { sure_held result ≡ Some (content_or_empty contents) }
        ensures asked { sure_asked result ≡ [] }
        ensures unread { sure_files_reads result ≡ [] }
    {
        SureFiles {
            contents,
            asked: Record::new(),
            reads: Record::new(),
        }
    }
}

impl Files for SureFiles {
    ghost use Rattle.ls_outside.specs.SureTold.{sure_asked, sure_files_reads, sure_held};

    ghost held = { sure_held };

    ghost asked = { sure_asked };

    ghost reads = { sure_files_reads };

    ghost faults = { λ _. 0 };

    fn fetch(&mut self, alloc: Global, name: &str, max: u32) -> Fetch {
        self.asked.note(name.as_bytes());
        match copy_of(alloc, &self.contents, name, max, &mut self.reads) {
            Some(copy) => copy,
            None => {
                self.reads.note(&[]);
                Fetch::Bytes(Vec::new(alloc))
            }
        }
    }
}
