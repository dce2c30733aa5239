//! Each call once with ample memory, and the adapters over the host.
mod counting_host;

use super::*;
use counting_host::CountingHost;
use hw_base::OutOfMemory;
use std::alloc::Global;
use std::io::{ErrorKind, Read, Write};
use std::process::Abort;
use std::test::Fail;
use std::{fs, io};

fn calls(alloc: Global, numbers: &[u64]) -> Result<CallList, OutOfMemory> {
    let mut calls = CallList::new(alloc);
    for number in numbers {
        calls.push(*number)?;
    }
    Ok(calls)
}

/// A read, and the bytes that it gave if they are whole.
fn read_file<F: Files>(
    files: &mut F,
    alloc: Global,
    name: &str,
    limit: u64,
) -> (Result<FileText, FileError>, Vec<u8>) {
    let mut into = Vec::new(alloc);
    let answer = files.read(alloc, name, limit, &mut into);
    if answer != Ok(FileText::Whole) {
        into.clear();
    }
    (answer, into)
}

/// A name, a limit in bytes, the answer, and the bytes.
type FileRow<'a> = (&'a str, u64, Result<FileText, FileError>, &'a str);

fn expect_files<F: Files, R: AllocGlobal + Abort>(rt: &R, files: &mut F, rows: &[FileRow<'_>]) {
    for (name, limit, expected, text) in rows {
        let (answer, into) = read_file(files, rt.alloc(), *name, *limit);
        assert_eq!(rt; answer, *expected, "{name}, {limit}");
        assert_eq!(rt; into.as_slice(), text.as_bytes(), "{name}, {limit}");
    }
}

#[test]
fn files_in_memory_give_what_was_added(rt: HostRuntime) -> Result<(), Fail> {
    let alloc = rt.alloc();
    let fail = calls(alloc, &[3, 5])?;
    for (call, is_listed) in [(2, false), (3, true), (4, false), (5, true)] {
        assert_eq!(rt; fail.lists(call), is_listed, "{call}");
    }
    let mut files = MemFiles::new(alloc, fail);
    files.add("a", b"one")?;
    files.add("b", b"")?;
    files.add("a", b"other")?;
    let rows = [
        ("a", 3, Ok(FileText::Whole), "one"),
        ("a", 2, Ok(FileText::Longer), ""),
        ("a", 3, Err(FileError::Failed), ""),
        ("b", 0, Ok(FileText::Whole), ""),
        ("b", 0, Err(FileError::Failed), ""),
        ("c", 9, Err(FileError::Failed), ""),
        ("a", 4, Ok(FileText::Whole), "one"),
    ];
    expect_files(&rt, &mut files, &rows);
    Ok(())
}

#[test]
fn files_of_the_host_are_read(rt: HostRuntime) -> Result<(), Fail> {
    let name = "hw_ports_test.txt";
    fs::write(&rt, name, b"text".as_slice())?;
    let mut files = RealFiles::new(rt.alloc(), &rt);
    let rows = [
        (name, 4, Ok(FileText::Whole), "text"),
        (name, 3, Ok(FileText::Longer), ""),
        (name, u64::MAX, Ok(FileText::Whole), "text"),
        ("hw_ports_test/none", 4, Err(FileError::Failed), ""),
        ("", 4, Err(FileError::Failed), ""),
        (".", 4, Err(FileError::Failed), ""),
    ];
    expect_files(&rt, &mut files, &rows);
    fs::remove_file(&rt, name)?;
    Ok(())
}

#[test]
fn a_read_opens_the_file_of_the_host_once(rt: HostRuntime) -> Result<(), Fail> {
    let name = "hw_ports_opened.txt";
    fs::write(&rt, name, b"text".as_slice())?;
    let host = CountingHost::new(&rt);
    let mut files = RealFiles::new(rt.alloc(), &host);
    for (name, limit, opened) in [(name, 4, 1), (name, 3, 2), ("hw_ports_test/none", 4, 3)] {
        let _ = read_file(&mut files, rt.alloc(), name, limit);
        assert_eq!(rt; host.opened(), opened, "{name}, {limit}");
    }
    fs::remove_file(&rt, name)?;
    Ok(())
}

/// Reads into four bytes, and then into none.
fn expect_reads<S: Source, R: Abort>(rt: &R, source: &mut S, rows: &[Result<&str, Failed>]) {
    for row in rows {
        let mut into = [0u8; 4];
        let answer = source.read(&mut into);
        assert_eq!(rt; answer, row.map(|text| text.len()));
        let text = row.unwrap_or("");
        assert_eq!(rt; into.get(..text.len()), Some(text.as_bytes()));
        assert_eq!(rt; source.read(&mut []), Ok(0));
    }
}

/// A reader and writer that always fails.
#[derive(Drop)]
struct Broken;

impl Read for Broken {
    fn read(&mut self, _: &mut [u8]) -> io::Result<usize> {
        Err(ErrorKind::Other.into())
    }
}

impl Write for Broken {
    fn write(&mut self, _: &[u8]) -> io::Result<usize> {
        Err(ErrorKind::Other.into())
    }

    fn flush(&mut self) -> io::Result<()> {
        Ok(())
    }
}

#[test]
fn sources_give_their_bytes(rt: HostRuntime) -> Result<(), Fail> {
    let alloc = rt.alloc();
    let mut source = MemSource::new(alloc, b"abcdefgh", 3, calls(alloc, &[2])?)?;
    let rows = [Ok("abc"), Err(Failed), Ok("def"), Ok("gh"), Ok(""), Ok("")];
    expect_reads(&rt, &mut source, &rows);
    let mut source = NoFaultSource::new(alloc, b"abcdefgh", 5)?;
    expect_reads(&rt, &mut source, &[Ok("abcd"), Ok("efgh"), Ok(""), Ok("")]);
    let mut source = RealIn::new(b"abcdef".as_slice());
    expect_reads(&rt, &mut source, &[Ok("abcd"), Ok("ef"), Ok(""), Ok("")]);
    expect_reads(&rt, &mut RealIn::new(Broken), &[Err(Failed), Err(Failed)]);
    Ok(())
}

/// Writes four bytes, and then none.
fn expect_writes<S: Sink, R: Abort>(rt: &R, sink: &mut S, rows: &[Result<usize, Failed>]) {
    for row in rows {
        assert_eq!(rt; sink.write(b"abcd"), *row);
        assert_eq!(rt; sink.write(b""), Ok(0));
    }
}

#[test]
fn sinks_take_a_front_of_each_piece(rt: HostRuntime) -> Result<(), Fail> {
    let alloc = rt.alloc();
    let mut sink = MemSink::new(alloc, 5, 2, calls(alloc, &[2])?)?;
    let rows = [Ok(2), Err(Failed), Ok(2), Ok(1), Err(Failed)];
    expect_writes(&rt, &mut sink, &rows);
    assert_eq!(rt; sink.taken(), b"ababa".as_slice());
    let mut bytes = Vec::new(alloc);
    expect_writes(&rt, &mut RealOut::new(&mut bytes), &[Ok(4), Ok(4)]);
    assert_eq!(rt; bytes.as_slice(), b"abcdabcd".as_slice());
    let mut room = [0u8; 6];
    let rows = [Ok(4), Ok(2), Err(Failed), Err(Failed)];
    expect_writes(&rt, &mut RealOut::new(room.as_mut_slice()), &rows);
    assert_eq!(rt; room, *b"abcdab");
    expect_writes(&rt, &mut RealOut::new(Broken), &[Err(Failed), Err(Failed)]);
    Ok(())
}

#[test]
fn want_of_memory_is_told_as_such(rt: HostRuntime) {
    assert_eq!(rt; JobError::from(OutOfMemory), JobError::OutOfMemory);
    assert_eq!(rt; AuditError::from(OutOfMemory), AuditError::OutOfMemory);
}
