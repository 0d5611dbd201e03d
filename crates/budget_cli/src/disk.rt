ghost use Rattle.std.specs.Prelude.{◌≡◌, ◌≤◌, [], None, IfOk, length};
ghost use Rattle.std.specs.IoError.{error_kind};
ghost use Rattle.bud_shelf.specs.Outside.{longest_file};
ghost use Rattle.budget_cli.specs.Disk.{IsLoaded, fault_of_kind};

use bud_shelf::{LONGEST_FILE, Shelf, ShelfFault};
use std::fs::OpenFile;
use std::io::{ErrorKind, Read};
use std::rt::Files;
use std::{fs, io};

/// The files of the system, by their paths. It tells no content.
#[derive(Drop)]
pub struct DiskShelf<'a, R> {
    rt: &'a R,
    faults: u64,
}

impl<'a, R: Files> DiskShelf<'a, R> {
    pub fn new(rt: &'a R) -> DiskShelf<'a, R> {
        DiskShelf { rt, faults: 0 }
    }
}

impl<R: Files> Shelf for DiskShelf<'_, R> {
    ghost files = { λ _. None };

    ghost faults = { λ shelf. shelf.faults };

    fn read(&mut self, name: &str, into: &mut Vec<u8>) -> Result<(), ShelfFault> {
        into.clear();
        let Err(fault) = load(self.rt, name, into) else {
            return Ok(());
        };
        into.clear();
        if matches!(fault, ShelfFault::Missing | ShelfFault::Failed) {
            self.faults = self.faults.saturating_add(1);
        }
        Err(fault)
    }

    fn write(&mut self, name: &str, bytes: &[u8]) -> Result<(), ShelfFault> {
        match fs::write(self.rt, name, bytes) {
            Ok(()) => Ok(()),
            Err(_) => {
                self.faults = self.faults.saturating_add(1);
                Err(ShelfFault::Failed)
            }
        }
    }
}

/// Adds the bytes of a file of at most `LONGEST_FILE`. A longer one is told with its own length.
fn load<R: Files>(rt: &R, name: &str, into: &mut Vec<u8>) -> Result<(), ShelfFault>
    requires { into.old.items ≡ [] }
    ensures { IsLoaded into.new.items result }
{
    match append(rt, name, into) {
        Ok(length) if length > LONGEST_FILE => Err(ShelfFault::TooLong(length)),
        Ok(_) => Ok(()),
        Err(error) => Err(fault_of(&error)),
    }
}

/// Adds the bytes of a file that isn't longer than `LONGEST_FILE` and answers its length, as its metadata tells it or, where
/// it grows as it is read, as many bytes as were added.
fn append<R: Files>(rt: &R, name: &str, into: &mut Vec<u8>) -> io::Result<u64>
    requires { into.old.items ≡ [] }
    ensures { IfOk result (λ count. count ≤ longest_file → length into.new.items ≡ count) }
{
    let file = fs::open(rt, name)?;
    let told = file.metadata()?.len();
    if told > LONGEST_FILE {
        return Ok(told);
    }
    into.reserve(told as usize + 1)?;
    file.take(LONGEST_FILE + 1).read_to_end(into)?;
    Ok(into.len() as u64)
}

/// The shelf's answer to an error of the system: only a lack of memory is told as such.
fn fault_of(error: &io::Error) -> ShelfFault
    ensures { result ≡ fault_of_kind (error_kind error.now) }
{
    match error.kind() {
        ErrorKind::NotFound => ShelfFault::Missing,
        ErrorKind::OutOfMemory => ShelfFault::NoMemory,
        _ => ShelfFault::Failed,
    }
}
