use crate::disk::DiskShelf;
use crate::printed::StdSink;
use bud_shelf::{LONGEST_FILE, Shelf, ShelfFault, Sink};
use std::fs::OpenFile;
use std::rt::{Env, Files};
use std::test::Fail;
use std::{env, fs, process};

/// The name of a file of this test's own.
fn own_file(rt: &HostRuntime, word: &str) -> Result<String, Fail> {
    let folder = env::temp_dir(rt)?;
    let number = process::id(rt.process());
    let folder = folder.as_path();
    let folder = folder.to_string_lossy();
    Ok(format!(in rt.alloc(); "{folder}/{word}_{number}")?)
}

#[test]
fn a_file_reads_as_it_was_written(rt: HostRuntime) -> Result<(), Fail> {
    let name = own_file(&rt, "disk_shelf")?;
    let mut shelf = DiskShelf::new(&rt);
    let mut read = Vec::new(rt.alloc());
    assert_eq!(rt;
        shelf.read(name.as_str(), &mut read),
        Err(ShelfFault::Missing)
    );
    shelf.write(name.as_str(), b"first and longer")?;
    shelf.write(name.as_str(), b"second")?;
    shelf.read(name.as_str(), &mut read)?;
    fs::remove_file(&rt, name.as_str())?;
    assert_eq!(rt; read.as_slice(), b"second".as_slice());
    Ok(())
}

#[test]
fn files_that_cannot_be_taken_are_told(rt: HostRuntime) -> Result<(), Fail> {
    let mut shelf = DiskShelf::new(&rt);
    let mut read = Vec::new(rt.alloc());
    assert_eq!(rt; shelf.read("", &mut read), Err(ShelfFault::Missing));
    assert_eq!(rt; shelf.read("/", &mut read), Err(ShelfFault::Failed));
    assert_eq!(rt; shelf.write("/", b"text"), Err(ShelfFault::Failed));
    Ok(())
}

#[test]
fn a_long_file_is_told_with_its_length(rt: HostRuntime) -> Result<(), Fail> {
    let name = own_file(&rt, "long_file")?;
    let file = fs::create(&rt, name.as_str())?;
    file.set_len(LONGEST_FILE + 1000)?;
    let mut read = Vec::new(rt.alloc());
    let answer = DiskShelf::new(&rt).read(name.as_str(), &mut read);
    fs::remove_file(&rt, name.as_str())?;
    assert_eq!(rt; answer, Err(ShelfFault::TooLong(LONGEST_FILE + 1000)));
    assert_eq!(rt; read.len(), 0);
    Ok(())
}

#[test]
fn standard_output_takes_a_piece(rt: HostRuntime) -> Result<(), Fail> {
    let mut sink = StdSink::new(&rt);
    sink.put(b"a piece\n")?;
    Ok(())
}
