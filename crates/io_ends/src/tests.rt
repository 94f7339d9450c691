//! Ends in memory that fail, and a listener: a run of the program shows none of them.
use crate::{
    Accepted, ConnInMemory, Failed, LineFault, LineReader, Listener, ListenerInMemory,
    SinkInMemory, Source, SourceInMemory, write_all,
};
use std::alloc::{AllocError, Global};
use std::test::Fail;

fn source_of(alloc: Global, text: &[u8], fails: &[u64]) -> Result<SourceInMemory, AllocError> {
    let bytes = Vec::from_slice(alloc, text)?;
    Ok(SourceInMemory::new(bytes, 4, Vec::from_slice(alloc, fails)?))
}

#[test]
fn a_failed_read_is_a_fault_of_the_line(rt: HostRuntime) -> Result<(), Fail> {
    let alloc = rt.alloc();
    let mut source = source_of(alloc, b"one\ntwo\n", &[2])?;
    let mut reader = LineReader::new(alloc);
    reader.next(&mut source)?;
    assert!(rt; matches!(reader.next(&mut source), Err(LineFault::Failed)));
    Ok(())
}

#[test]
fn a_failed_write_leaves_a_front_written(rt: HostRuntime) -> Result<(), Fail> {
    let alloc = rt.alloc();
    let mut sink = SinkInMemory::new(alloc, 100, 2, vec![in alloc; 3]?)?;
    assert_eq!(rt; write_all(&mut sink, b"abcdefg"), Err(Failed));
    assert_eq!(rt; sink.bytes(), b"abcd".as_slice());
    Ok(())
}

/// A listener with one connection that holds the bytes.
fn listener_of(alloc: Global, text: &[u8]) -> Result<ListenerInMemory, AllocError> {
    let source = source_of(alloc, text, &[])?;
    let sink = SinkInMemory::new(alloc, 100, 2, Vec::new(alloc))?;
    let conns = vec![in alloc; ConnInMemory::new(source, sink)]?;
    ListenerInMemory::new(alloc, conns, 1, vec![in alloc; 1]?)
}

#[test]
fn a_connection_comes_once_and_is_given_back(rt: HostRuntime) -> Result<(), Fail> {
    let alloc = rt.alloc();
    let mut listener = listener_of(alloc, b"ask")?;
    assert!(rt; listener.accept().is_err());
    if let Accepted::Conn(mut conn) = listener.accept()? {
        assert_eq!(rt; conn.read(&mut [0; 9]), Ok(3));
        write_all(&mut conn, b"reply")?;
        listener.give_back(conn);
    }
    assert!(rt; matches!(listener.accept()?, Accepted::End));
    let written = listener.back().and_then(|back| back.first());
    assert!(rt; written.is_some_and(|conn| conn.bytes() == b"reply".as_slice()));
    Ok(())
}
