//! The outside itself, over the readers, writers and files of std. What it gives, takes and holds isn't told, and
//! its counts of faults stop at the last value of 64 bits.
ghost use Rattle.std.specs.Prelude.{◌≡◌, ◌<◌, None, length};
ghost use Rattle.ls_outside.specs.Sources.{GotCounts, GotNotes, GotWithin};
ghost use Rattle.ls_outside.specs.Sinks.{PutCounts, PutNotes, PutWithin};
ghost use Rattle.ls_outside.specs.Adapters.{reader_of, std_source_reads};
ghost use Rattle.ls_outside.specs.Files.{FetchWithin, GivesRead, GivesRest};

use crate::faults::count_fault;
use crate::record::{note_read, note_write};
use crate::room::keep;
use crate::{Fetch, Files, Got, Put, Record, Sink, Source};
use std::alloc::Global;
use std::io::{Read, Write};
use std::{fs, mem};

/// A reader as a source.
#[derive(Drop)]
pub struct StdSource<R: Read> {
    reader: R,
    failed: u64,
    reads: Record,
}

impl<R: Read> StdSource<R> {
    ghost use Rattle.std.specs.Prelude.{[]};
    ghost use Rattle.ls_outside.specs.Adapters.{GotPasses, reader_of, std_source_faults, std_source_reads};

    /// A source that goes on with notes of reads.
    fn with(reader: R, reads: Record) -> StdSource<R>
        ensures reader { reader_of result ≡ reader }
        ensures calm { std_source_faults result ≡ 0 }
        ensures reads { std_source_reads result ≡ reads.pieces }
    {
        StdSource {
            reader,
            failed: 0,
            reads,
        }
    }

    pub fn new(reader: R) -> StdSource<R>
        ensures reader { reader_of result ≡ reader }
        ensures calm { std_source_faults result ≡ 0 }
        ensures unread { std_source_reads result ≡ [] }
    {
        StdSource {
            reader,
            failed: 0,
            reads: Record::new(),
        }
    }

    /// Reads, and counts a fault.
    fn attempt(&mut self, buf: &mut [u8]) -> Got
        requires { 0 < length buf.old }
        ensures within { GotWithin result buf.new }
        ensures counts { GotCounts (std_source_faults self.old) (std_source_faults self.new) result }
        ensures passes { GotPasses (R.remaining (reader_of self.old)) (R.remaining (reader_of self.new)) result buf.new }
        ensures unnoted { std_source_reads self.new ≡ std_source_reads self.old }
    {
        match self.reader.read(buf) {
            Ok(0) => Got::End,
            Ok(count) => Got::Some(count),
            Err(_) => {
                count_fault(&mut self.failed);
                Got::Failed
            }
        }
    }
}

impl<R: Read> Source for StdSource<R> {
    ghost use Rattle.ls_outside.specs.Adapters.{GotPasses, reader_of, std_source_faults, std_source_reads};

    ghost left = { λ _. None };

    ghost faults = { std_source_faults };

    ghost reads = { std_source_reads };

    ghost sized = { λ _. tt };

    fn read(&mut self, buf: &mut [u8]) -> Got
        requires { 0 < length buf.old }
        ensures within { GotWithin result buf.new }
        ensures counts { GotCounts (std_source_faults self.old) (std_source_faults self.new) result }
        ensures notes { GotNotes (std_source_reads self.old) (std_source_reads self.new) result buf.new }
        ensures passes { GotPasses (R.remaining (reader_of self.old)) (R.remaining (reader_of self.new)) result buf.new }
    {
        let got = self.attempt(buf);
        note_read(&mut self.reads, got, buf);
        got
    }
}

/// A writer as a sink. It is flushed after each write.
#[derive(Drop)]
pub struct StdSink<W: Write> {
    writer: W,
    failed: u64,
    writes: Record,
}

impl<W: Write> StdSink<W> {
    ghost use Rattle.std.specs.Prelude.{[]};
    ghost use Rattle.ls_outside.specs.Adapters.{std_sink_faults, std_sink_writes, writer_of};

    pub fn new(writer: W) -> StdSink<W>
        ensures writer { writer_of result ≡ writer }
        ensures calm { std_sink_faults result ≡ 0 }
        ensures unwritten { std_sink_writes result ≡ [] }
    {
        StdSink {
            writer,
            failed: 0,
            writes: Record::new(),
        }
    }
}

impl<W: Write> Sink for StdSink<W> {
    ghost use Rattle.ls_outside.specs.Adapters.{PutPasses, std_sink_faults, std_sink_writes, writer_of};

    ghost taken = { λ _. None };

    ghost faults = { std_sink_faults };

    ghost writes = { std_sink_writes };

    fn write(&mut self, bytes: &[u8]) -> Put
        requires { 0 < length bytes.now }
        ensures within { PutWithin result bytes.now }
        ensures counts { PutCounts (std_sink_faults self.old) (std_sink_faults self.new) result }
        ensures notes { PutNotes (std_sink_writes self.old) (std_sink_writes self.new) result bytes.now }
        ensures passes { PutPasses (W.contents (writer_of self.old)) (W.contents (writer_of self.new)) result bytes.now }
    {
        if let Ok(count) = self.writer.write(bytes)
            && count > 0
            && self.writer.flush().is_ok()
        {
            note_write(&mut self.writes, Put::Some(count), bytes);
            return Put::Some(count);
        }
        count_fault(&mut self.failed);
        note_write(&mut self.writes, Put::Failed, bytes);
        Put::Failed
    }
}

/// The files of a runtime, by their paths.
#[derive(Drop)]
pub struct StdFiles<R: std::rt::Files> {
    runtime: R,
    failed: u64,
    asked: Record,
    reads: Record,
}

impl<R: std::rt::Files> StdFiles<R> {
    ghost use Rattle.std.specs.Prelude.{[]};
    ghost use Rattle.ls_outside.specs.Adapters.{std_files_asked, std_files_faults, std_files_reads};
    ghost use Rattle.ls_outside.specs.Files.{FetchCounts};

    pub fn new(runtime: R) -> StdFiles<R>
        ensures calm { std_files_faults result ≡ 0 }
        ensures unasked { std_files_asked result ≡ [] }
        ensures unread { std_files_reads result ≡ [] }
    {
        StdFiles {
            runtime,
            failed: 0,
            asked: Record::new(),
            reads: Record::new(),
        }
    }

    /// Fetches, and counts a fault.
    fn attempt(&mut self, alloc: Global, name: &str, max: u32) -> Fetch
        ensures within { FetchWithin result max }
        ensures asked { std_files_asked self.new ≡ std_files_asked self.old }
        ensures gives { GivesRead (std_files_reads self.old) (std_files_reads self.new) max result }
        ensures counts { FetchCounts (std_files_faults self.old) (std_files_faults self.new) result }
    {
        let Ok(file) = fs::open(&self.runtime, name) else {
            self.reads.note(&[]);
            count_fault(&mut self.failed);
            return Fetch::Failed;
        };
        let reads = mem::replace(&mut self.reads, Record::new());
        let mut source = StdSource::with(file, reads);
        let answer = read_whole(alloc, &mut source, max);
        let StdSource { reads, .. } = source;
        self.reads = reads;
        if matches!(&answer, Fetch::Failed) {
            count_fault(&mut self.failed);
        }
        answer
    }
}

impl<R: std::rt::Files> Files for StdFiles<R> {
    ghost use Rattle.ls_outside.specs.Adapters.{std_files_asked, std_files_faults, std_files_reads};

    ghost held = { λ _. None };

    ghost asked = { std_files_asked };

    ghost reads = { std_files_reads };

    ghost faults = { std_files_faults };

    fn fetch(&mut self, alloc: Global, name: &str, max: u32) -> Fetch {
        self.asked.note(name.as_bytes());
        self.attempt(alloc, name, max)
    }
}

/// Reads to the end, or past `max` bytes. It keeps at most `max` of them, in a room of at most `max`.
fn read_whole<R: Read>(alloc: Global, source: &mut StdSource<R>, max: u32) -> Fetch
    ensures within { FetchWithin result max }
    ensures whole { GivesRest (R.remaining (reader_of source.old)) max result }
    ensures read { GivesRead (std_source_reads source.old) (std_source_reads source.new) max result }
{
    let most = max as usize;
    let mut content = Vec::new(alloc);
    let mut buf = [0u8; 4096];
    loop {
        match source.read(&mut buf) {
            Got::End => return Fetch::Bytes(content),
            Got::Some(count) => {
                if most - content.len() < count {
                    return Fetch::Long;
                }
                let Ok(()) = keep(&mut content, &buf[..count], most) else {
                    return Fetch::Memory;
                };
            }
            Got::Failed => return Fetch::Failed,
        }
    }
}
