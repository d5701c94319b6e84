//! The outside in memory, as tests want it: it tells what is left, taken and held, and fails where it is to.
ghost use Rattle.std.specs.Prelude.{◌≡◌, ◌+◌, ◌<◌, ◌≤◌, ◌↔◌, Some, length, vec_capacity, vec_len};
ghost use Rattle.ls_outside.specs.Sources.{GotCounts, GotNotes, GotTakes, GotWithin};
ghost use Rattle.ls_outside.specs.Sinks.{PutCounts, PutNotes, PutTakes, PutWithin};
ghost use Rattle.ls_outside.specs.Files.{FetchCounts, FetchTells, FetchWithin, GivesRead};

use crate::faults::count_fault;
use crate::held::copy_of;
use crate::record::{note_read, note_write};
use crate::{Contents, Fetch, Files, Got, Pieces, Plan, Put, Record, Sink, Source};
use ls_base::{Mem, Memory};
use std::alloc::Global;

/// A source that gives pieces in their order, and fails at the calls of a plan.
#[derive(Drop)]
pub struct MemSource {
    pieces: Pieces,
    plan: Plan,
    failed: u64,
    reads: Record,
}

impl MemSource {
    ghost use Rattle.ls_outside.specs.Left.{pieces_left};
    ghost use Rattle.ls_outside.specs.Told.{source_faults, source_left, source_plan, source_reads};
    ghost use Rattle.std.specs.Prelude.{[]};

    pub fn new(pieces: Pieces, plan: Plan) -> MemSource
        ensures left { source_left result ≡ Some (pieces_left pieces) }
        ensures plan { source_plan result ≡ plan }
        ensures calm { source_faults result ≡ 0 }
        ensures unread { source_reads result ≡ [] }
    {
        MemSource {
            pieces,
            plan,
            failed: 0,
            reads: Record::new(),
        }
    }
}

impl Source for MemSource {
    ghost use Rattle.ls_outside.specs.Plans.{CountsCall, IsNextToFail};
    ghost use Rattle.ls_outside.specs.Told.{source_faults, source_left, source_plan, source_reads};
    ghost use Rattle.ls_outside.specs.LeftLaws.{sized_left};

    ghost left = { source_left };

    ghost faults = { source_faults };

    ghost reads = { source_reads };

    ghost sized = { λ s. sized_left s.pieces };

    fn read(&mut self, buf: &mut [u8]) -> Got
        requires { 0 < length buf.old }
        ensures within { GotWithin result buf.new }
        ensures takes { GotTakes (source_left self.old) (source_left self.new) result buf.new }
        ensures counts { GotCounts (source_faults self.old) (source_faults self.new) result }
        ensures notes { GotNotes (source_reads self.old) (source_reads self.new) result buf.new }
        ensures planned { (result ≡ Got.Failed) ↔ IsNextToFail (source_plan self.old) }
        ensures plan { CountsCall (source_plan self.old) (source_plan self.new) }
    {
        if self.plan.next_fails() {
            count_fault(&mut self.failed);
            note_read(&mut self.reads, Got::Failed, buf);
            return Got::Failed;
        }
        let got = self.pieces.read(buf);
        note_read(&mut self.reads, got, buf);
        got
    }
}

/// A sink that keeps what it takes, as far as it has room, and fails at the calls of a plan and where it is full.
#[derive(Drop)]
pub struct MemSink {
    taken: Vec<u8>,
    room: usize,
    most: usize,
    plan: Plan,
    failed: u64,
    writes: Record,
    ghost has_room: { vec_len taken + room ≤ vec_capacity taken },
}

impl MemSink {
    ghost use Rattle.std.specs.Prelude.{IfOk, []};
    ghost use Rattle.ls_outside.specs.Told.{sink_faults, sink_most, sink_plan, sink_room, sink_taken, sink_writes};

    /// A sink with room for so many bytes, which takes at most `most` of them in one write.
    pub fn new(alloc: Global, room: usize, most: usize, plan: Plan) -> Mem<MemSink>
        ensures taken { IfOk result (λ sink. sink_taken sink ≡ Some []) }
        ensures room { IfOk result (λ sink. sink_room sink ≡ room) }
        ensures most { IfOk result (λ sink. sink_most sink ≡ most) }
        ensures plan { IfOk result (λ sink. sink_plan sink ≡ plan) }
        ensures calm { IfOk result (λ sink. sink_faults sink ≡ 0) }
        ensures unwritten { IfOk result (λ sink. sink_writes sink ≡ []) }
    {
        Ok(MemSink {
            taken: Vec::with_capacity(alloc, room)?,
            room,
            most,
            plan,
            failed: 0,
            writes: Record::new(),
        })
    }

    /// What was taken.
    pub fn as_slice(&self) -> &[u8]
        ensures { sink_taken self.now ≡ Some result.now }
    {
        self.taken.as_slice()
    }
}

impl Sink for MemSink {
    ghost use Rattle.ls_outside.specs.Plans.{CountsCall};
    ghost use Rattle.ls_outside.specs.Told.{room_after, SinkAnswers, sink_faults, sink_most, sink_plan, sink_room, sink_taken, sink_writes};

    ghost taken = { sink_taken };

    ghost faults = { sink_faults };

    ghost writes = { sink_writes };

    fn write(&mut self, bytes: &[u8]) -> Put
        requires { 0 < length bytes.now }
        ensures within { PutWithin result bytes.now }
        ensures takes { PutTakes (sink_taken self.old) (sink_taken self.new) result bytes.now }
        ensures counts { PutCounts (sink_faults self.old) (sink_faults self.new) result }
        ensures notes { PutNotes (sink_writes self.old) (sink_writes self.new) result bytes.now }
        ensures planned { SinkAnswers self.old bytes.now result }
        ensures plan { CountsCall (sink_plan self.old) (sink_plan self.new) }
        ensures room { sink_room self.new ≡ room_after self.old result }
        ensures most { sink_most self.new ≡ sink_most self.old }
    {
        let count = bytes.len().min(self.most).min(self.room);
        if self.plan.next_fails() || count == 0 {
            count_fault(&mut self.failed);
            note_write(&mut self.writes, Put::Failed, bytes);
            return Put::Failed;
        }
        self.room -= count;
        self.taken.extend_from_slice(&bytes[..count]).unwrap();
        note_write(&mut self.writes, Put::Some(count), bytes);
        Put::Some(count)
    }
}

/// Files that are held by name, and fail at the calls of a plan. A name that isn't held is a fault.
#[derive(Drop)]
pub struct MemFiles {
    contents: Contents,
    asked: Record,
    reads: Record,
    plan: Plan,
    failed: u64,
}

impl MemFiles {
    ghost use Rattle.std.specs.Prelude.{[]};
    ghost use Rattle.ls_outside.specs.FilesInMemory.{content_of};
    ghost use Rattle.ls_outside.specs.Told.{files_asked, files_faults, files_held, files_plan, files_reads};

    pub fn new(contents: Contents, plan: Plan) -> MemFiles
        ensures held { files_held result ≡ Some (content_of contents) }
        ensures asked { files_asked result ≡ [] }
        ensures unread { files_reads result ≡ [] }
        ensures plan { files_plan result ≡ plan }
        ensures calm { files_faults result ≡ 0 }
    {
        MemFiles {
            contents,
            asked: Record::new(),
            reads: Record::new(),
            plan,
            failed: 0,
        }
    }
}

impl Files for MemFiles {
    ghost use Rattle.std.specs.Prelude.{◌++◌, ◌∷◌, []};
    ghost use Rattle.ls_outside.specs.Plans.{CountsCall};
    ghost use Rattle.ls_outside.specs.Told.{FilesAnswer, files_asked, files_faults, files_held, files_plan, files_reads};

    ghost held = { files_held };

    ghost asked = { files_asked };

    ghost reads = { files_reads };

    ghost faults = { files_faults };

    fn fetch(&mut self, alloc: Global, name: &str, max: u32) -> Fetch
        ensures within { FetchWithin result max }
        ensures tells { FetchTells (files_held self.old) name.now max result }
        ensures stays { files_held self.new ≡ files_held self.old }
        ensures asks { files_asked self.new ≡ files_asked self.old ++ name.now ∷ [] }
        ensures gives { GivesRead (files_reads self.old) (files_reads self.new) max result }
        ensures counts { FetchCounts (files_faults self.old) (files_faults self.new) result }
        ensures planned { FilesAnswer self.old name.now result }
        ensures plan { CountsCall (files_plan self.old) (files_plan self.new) }
    {
        self.asked.note(name.as_bytes());
        if self.plan.next_fails() {
            self.reads.note(&[]);
            count_fault(&mut self.failed);
            return Fetch::Failed;
        }
        match copy_of(alloc, &self.contents, name, max, &mut self.reads) {
            Some(copy) => copy,
            None => {
                self.reads.note(&[]);
                count_fault(&mut self.failed);
                Fetch::Failed
            }
        }
    }
}
