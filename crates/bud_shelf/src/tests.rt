//! What no clause says: that with ample memory each call succeeds.
use crate::{
    LONGEST_FILE, MemShelf, MemSink, SafeShelf, SafeSink, Shelf, ShelfFault, Sink, SinkFault,
};
use std::test::Fail;

fn write_and_read<S: Shelf>(shelf: &mut S, into: &mut Vec<u8>) -> Result<(), ShelfFault> {
    shelf.write("written", b"first")?;
    shelf.write("written", b"second")?;
    shelf.read("written", into)
}

fn put_twice<K: Sink>(sink: &mut K) -> Result<(), SinkFault> {
    sink.put(b"one ")?;
    sink.put(b"two")
}

#[test]
fn safe_calls_succeed(rt: HostRuntime) -> Result<(), Fail> {
    let mut shelf = SafeShelf::new(rt.alloc());
    let mut into = Vec::new(rt.alloc());
    shelf.add("added", b"bytes")?;
    assert_eq!(rt; write_and_read(&mut shelf, &mut into), Ok(()));
    assert_eq!(rt; into.as_slice(), b"second".as_slice());
    assert_eq!(rt; shelf.read("added", &mut into), Ok(()));
    assert_eq!(rt; into.as_slice(), b"bytes".as_slice());
    assert_eq!(rt; shelf.file("added"), Some(b"bytes".as_slice()));
    assert_eq!(rt; shelf.read("missing", &mut into), Err(ShelfFault::Missing));

    let mut sink = SafeSink::new(rt.alloc());
    assert_eq!(rt; put_twice(&mut sink), Ok(()));
    assert_eq!(rt; sink.bytes(), b"one two".as_slice());
    Ok(())
}

#[test]
fn shelf_fails_where_told(rt: HostRuntime) -> Result<(), Fail> {
    let mut shelf = MemShelf::new(rt.alloc());
    let mut into = Vec::new(rt.alloc());
    shelf.add("added", b"bytes")?;
    shelf.fail_at(1)?;
    shelf.fail_at(4)?;
    assert_eq!(rt; shelf.read("added", &mut into), Err(ShelfFault::Failed));
    assert_eq!(rt;
        write_and_read(&mut shelf, &mut into),
        Err(ShelfFault::Failed)
    );
    assert_eq!(rt; shelf.file("written"), Some(b"second".as_slice()));
    assert_eq!(rt; write_and_read(&mut shelf, &mut into), Ok(()));
    assert_eq!(rt; into.as_slice(), b"second".as_slice());
    assert_eq!(rt; shelf.read("missing", &mut into), Err(ShelfFault::Missing));
    Ok(())
}

#[test]
fn long_files_are_zeros(rt: HostRuntime) -> Result<(), Fail> {
    let mut shelf = MemShelf::new(rt.alloc());
    let mut into = Vec::new(rt.alloc());
    shelf.add_long("zeros", 3)?;
    shelf.add_long("too long", LONGEST_FILE + 1)?;
    assert_eq!(rt; shelf.read("zeros", &mut into), Ok(()));
    assert_eq!(rt; into.as_slice(), [0, 0, 0].as_slice());
    assert_eq!(rt; shelf.file("zeros"), None);
    assert_eq!(rt;
        shelf.read("too long", &mut into),
        Err(ShelfFault::TooLong(268_435_457))
    );
    assert_eq!(rt; into.len(), 0);
    Ok(())
}

#[test]
fn sink_fails_where_told(rt: HostRuntime) -> Result<(), Fail> {
    let mut sink = MemSink::new(rt.alloc());
    sink.fail_at(2)?;
    assert_eq!(rt; put_twice(&mut sink), Err(SinkFault::Failed));
    assert_eq!(rt; sink.bytes(), b"one t".as_slice());
    assert_eq!(rt; put_twice(&mut sink), Ok(()));
    assert_eq!(rt; sink.bytes(), b"one tone two".as_slice());
    Ok(())
}
