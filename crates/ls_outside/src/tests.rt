//! Each call of each object through its bound, and what the adapters pass on.
ghost use Rattle.std.specs.Prelude.{◌<◌, length};

use crate::{
    Contents, Fetch, Files, Got, MemFiles, MemSink, MemSource, Pieces, Plan, Put, Sink, Source,
    StdFiles, StdSink, StdSource, SureFiles, SureSink, SureSource,
};
use std::alloc::{AllocError, Global};
use std::collections::{BTreeMap, VecDeque};
use std::io::{ErrorKind, Read, Write};
use std::test::Fail;
use std::{fs, io};

fn next<S: Source>(source: &mut S, buf: &mut [u8]) -> Got
    requires { 0 < length buf.old }
{
    source.read(buf)
}

fn give<S: Sink>(sink: &mut S, bytes: &[u8]) -> Put
    requires { 0 < length bytes.now }
{
    sink.write(bytes)
}

fn ask<F: Files>(files: &mut F, alloc: Global, name: &str) -> Fetch {
    files.fetch(alloc, name, 4)
}

/// A writer that counts how often it is flushed.
#[derive(Drop)]
struct Flushed<'a>(&'a mut u64);

impl Write for Flushed<'_> {
    fn write(&mut self, buf: &[u8]) -> io::Result<usize> {
        Ok(buf.len())
    }

    fn flush(&mut self) -> io::Result<()> {
        *self.0 = self.0.saturating_add(1);
        Ok(())
    }
}

/// A reader and writer of which no call succeeds.
#[derive(Drop)]
struct Broken;

impl Read for Broken {
    fn read(&mut self, _: &mut [u8]) -> io::Result<usize> {
        Err(io::Error::from(ErrorKind::Other))
    }
}

impl Write for Broken {
    fn write(&mut self, _: &[u8]) -> io::Result<usize> {
        Ok(0)
    }

    fn flush(&mut self) -> io::Result<()> {
        Ok(())
    }
}

/// The pieces `abc` and `d`.
fn two_pieces(alloc: Global) -> Result<Pieces, AllocError> {
    Pieces::cut(alloc, b"abcd", 3).map_err(|_| AllocError)
}

/// The files `short`, of 3 bytes, and `long`, of 5.
fn two_files(alloc: Global) -> Result<Contents, AllocError> {
    let mut contents = BTreeMap::new(alloc);
    contents.insert(
        String::from_str(alloc, "short")?,
        Vec::from_slice(alloc, b"abc")?,
    )?;
    contents.insert(
        String::from_str(alloc, "long")?,
        Vec::from_slice(alloc, b"abcde")?,
    )?;
    Ok(contents)
}

#[test]
fn a_source_in_memory_gives_pieces_and_fails_as_planned(rt: HostRuntime) -> Result<(), Fail> {
    let plan = Plan::new(vec![in rt.alloc(); 2]?);
    let mut source = MemSource::new(two_pieces(rt.alloc())?, plan);
    let mut buf = [0u8; 2];
    for (got, front) in [
        (Got::Some(2), *b"ab"),
        (Got::Failed, *b"ab"),
        (Got::Some(1), *b"cb"),
        (Got::Some(1), *b"db"),
        (Got::End, *b"db"),
    ] {
        assert_eq!(rt; next(&mut source, &mut buf), got);
        assert_eq!(rt; buf, front);
    }
    Ok(())
}

#[test]
fn a_sink_in_memory_keeps_bytes_and_fails_as_planned_or_full(rt: HostRuntime) -> Result<(), Fail> {
    let plan = Plan::new(vec![in rt.alloc(); 2]?);
    let mut sink = MemSink::new(rt.alloc(), 4, 3, plan).map_err(|_| AllocError)?;
    for (bytes, put) in [
        (b"ab".as_slice(), Put::Some(2)),
        (b"cd".as_slice(), Put::Failed),
        (b"cdef".as_slice(), Put::Some(2)),
        (b"ef".as_slice(), Put::Failed),
    ] {
        assert!(rt; !bytes.is_empty());
        assert_eq!(rt; give(&mut sink, bytes), put);
    }
    assert_eq!(rt; sink.as_slice(), b"abcd".as_slice());
    Ok(())
}

#[test]
fn files_in_memory_give_what_they_hold_and_fail_as_planned(rt: HostRuntime) -> Result<(), Fail> {
    let plan = Plan::new(vec![in rt.alloc(); 3]?);
    let mut files = MemFiles::new(two_files(rt.alloc())?, plan);
    let abc = Fetch::Bytes(Vec::from_slice(rt.alloc(), b"abc")?);
    assert_eq!(rt; ask(&mut files, rt.alloc(), "short"), abc);
    assert_eq!(rt; ask(&mut files, rt.alloc(), "long"), Fetch::Long);
    assert_eq!(rt; ask(&mut files, rt.alloc(), "short"), Fetch::Failed);
    assert_eq!(rt; ask(&mut files, rt.alloc(), "none"), Fetch::Failed);
    Ok(())
}

#[test]
fn sure_objects_never_fail(rt: HostRuntime) -> Result<(), Fail> {
    let mut source = SureSource::new(two_pieces(rt.alloc())?);
    let mut buf = [0u8; 4];
    for got in [Got::Some(3), Got::Some(1), Got::End] {
        assert_eq!(rt; next(&mut source, &mut buf), got);
    }
    assert_eq!(rt; give(&mut SureSink::new(), b"ab"), Put::Some(2));
    let mut files = SureFiles::new(two_files(rt.alloc())?);
    let abc = Fetch::Bytes(Vec::from_slice(rt.alloc(), b"abc")?);
    assert_eq!(rt; ask(&mut files, rt.alloc(), "short"), abc);
    assert_eq!(rt; ask(&mut files, rt.alloc(), "long"), Fetch::Long);
    let nothing = Fetch::Bytes(Vec::new(rt.alloc()));
    assert_eq!(rt; ask(&mut files, rt.alloc(), "none"), nothing);
    Ok(())
}

#[test]
fn adapters_pass_bytes_on(rt: HostRuntime) -> Result<(), Fail> {
    let mut source = StdSource::new(VecDeque::from_array(rt.alloc(), *b"abc")?);
    let mut buf = [0u8; 2];
    assert_eq!(rt; next(&mut source, &mut buf), Got::Some(2));
    assert_eq!(rt; buf, *b"ab");
    assert_eq!(rt; next(&mut source, &mut buf), Got::Some(1));
    assert_eq!(rt; next(&mut source, &mut buf), Got::End);
    let mut written = Vec::new(rt.alloc());
    assert_eq!(rt; give(&mut StdSink::new(&mut written), b"ab"), Put::Some(2));
    assert_eq!(rt; written.as_slice(), b"ab".as_slice());
    let mut flushes = 0;
    assert_eq!(rt;
        give(&mut StdSink::new(Flushed(&mut flushes)), b"ab"),
        Put::Some(2)
    );
    assert_eq!(rt; flushes, 1);
    Ok(())
}

#[test]
fn adapters_answer_failed(rt: HostRuntime) {
    let mut buf = [0u8; 2];
    assert_eq!(rt; next(&mut StdSource::new(Broken), &mut buf), Got::Failed);
    assert_eq!(rt; give(&mut StdSink::new(Broken), b"ab"), Put::Failed);
}

#[test]
fn files_of_the_system_are_read_whole(rt: HostRuntime) -> Result<(), Fail> {
    let number = std::process::id(rt.process());
    let path = format!(in rt.alloc(); "/tmp/ls_outside-{number}")?;
    fs::write(&rt, path.as_str(), "abcd")?;
    let mut files = StdFiles::new(&rt);
    let abcd = Fetch::Bytes(Vec::from_slice(rt.alloc(), b"abcd")?);
    assert_eq!(rt; ask(&mut files, rt.alloc(), path.as_str()), abcd);
    fs::write(&rt, path.as_str(), "abcde")?;
    assert_eq!(rt; ask(&mut files, rt.alloc(), path.as_str()), Fetch::Long);
    fs::remove_file(&rt, path.as_str())?;
    assert_eq!(rt; ask(&mut files, rt.alloc(), path.as_str()), Fetch::Failed);
    Ok(())
}
