//! Reading and writing whole texts over std's readers and writers. Those in memory are tried by each case of
//! `jc_stories`, with faults at each call.

use jc_io::{ReadEnd, Source, StdSink, StdSource, WriteFault, read_all, write_all};
use std::alloc::Global;
use std::io;
use std::io::{ErrorKind, Read, Write};
use std::process::Abort;

// A reader and a writer of std that fails at each call but a write.
#[derive(Drop)]
struct Broken;

impl Read for Broken {
    fn read(&mut self, _buf: &mut [u8]) -> io::Result<usize> {
        Err(io::Error::from(ErrorKind::Other))
    }
}

impl Write for Broken {
    fn write(&mut self, buf: &[u8]) -> io::Result<usize> {
        Ok(buf.len())
    }

    fn flush(&mut self) -> io::Result<()> {
        Err(io::Error::from(ErrorKind::Other))
    }
}

// What the source gives, with the bound.
fn reads<S: Source + Drop>(
    rt: &impl Abort,
    alloc: Global,
    mut source: S,
    limit: u64,
    want: Result<&[u8], ReadEnd>,
) {
    match (read_all(alloc, &mut source, limit), want) {
        (Ok(bytes), Ok(text)) => assert_eq!(rt; bytes.as_slice(), text, "with {limit}"),
        (Err(end), Err(reason)) => assert_eq!(rt; end, reason, "with {limit}"),
        _ => assert!(rt; false, "with {limit}"),
    }
}

const TEXT: &[u8] = b"hello";

#[test]
fn texts_come_from_readers(rt: HostRuntime) {
    let alloc = rt.alloc();
    reads(&rt, alloc, StdSource::new(TEXT), 5, Ok(TEXT));
    let too_long = Err(ReadEnd::TooLong);
    reads(&rt, alloc, StdSource::new(TEXT), 4, too_long);
    let fault = Err(ReadEnd::ReadFault);
    reads(&rt, alloc, StdSource::new(Broken), 5, fault);
}

#[test]
fn texts_go_to_writers(rt: HostRuntime) {
    let mut written = Vec::new(rt.alloc());
    assert_eq!(rt; write_all(&mut StdSink::new(&mut written), TEXT), Ok(()));
    assert_eq!(rt; written.as_slice(), TEXT);
    let mut small = [0; 3];
    let end = write_all(&mut StdSink::new(small.as_mut_slice()), TEXT);
    assert_eq!(rt; end, Err(WriteFault));
    assert_eq!(rt; small.as_slice(), b"hel".as_slice());
    assert_eq!(rt; write_all(&mut StdSink::new(Broken), TEXT), Err(WriteFault));
}
