// The files of the system as a store.
ghost use Rattle.std.specs.Prelude.{◌≡◌, ℕ, ◌^◌, ◌<◌, ◌≤◌, List, length, Option, None, option_map, string_bytes, IfOk};
ghost use Rattle.outside.specs.Answers.{IsNamed, one_more};

use crate::moves::{raise, read_up_to, write_whole};
use outside::{Store, StoreErr};
use std::alloc::Global;
use std::io::ErrorKind;
use std::marker::Model;
use std::rt::Files;
use std::{fs, io};

/// The files of the system, by their paths. Contracts see it as its count of faults and the name of its
/// last failed call.
///
/// A read answers `Absent` only where the system finds no such file; a path that names a folder, or
/// that goes through a file, is `Failed`.
#[derive(Drop)]
pub struct FileStore<'a, R> {
    system: &'a R,
    faults: u64,
    failed: Option<String>,
}

impl<'a, R> Model for FileStore<'a, R> {
    ghost Value = { ℕ × Option (List ℕ) };

    ghost view = { λ s. (s.faults, option_map string_bytes s.failed) };

    ghost invariant = { λ s. s.faults < 2 ^ 64 };
}

impl<'a, R: Files> FileStore<'a, R> {
    /// The files of this system.
    pub fn new(system: &'a R) -> Self
        ensures { result ≡ (0, None) }
    {
        FileStore {
            system,
            faults: 0,
            failed: None,
        }
    }

    // Counts a call of that name that failed.
    fn fail(&mut self, alloc: Global, name: &str)
        ensures counted { self.new.0 ≡ one_more self.old.0 }
        ensures named { IsNamed self.new.1 name.now }
    {
        raise(&mut self.faults);
        self.failed = String::from_str(alloc, name).ok();
    }
}

fn read_file<R: Files>(
    alloc: Global,
    system: &R,
    name: &str,
    limit: u64,
) -> Result<Vec<u8>, StoreErr>
    ensures { IfOk result (λ v. length v.items ≤ limit) }
{
    match fs::open(system, name) {
        Ok(mut file) => read_up_to(alloc, &mut file, limit),
        Err(error) if error.kind() == ErrorKind::NotFound => Err(StoreErr::Absent),
        Err(_) => Err(StoreErr::Failed),
    }
}

fn write_file<R: Files>(system: &R, name: &str, bytes: &[u8]) -> io::Result<()> {
    write_whole(&mut fs::create(system, name)?, bytes)
}

impl<'a, R: Files> Store for FileStore<'a, R> {
    ghost told = { λ _. None };

    ghost faults = { λ s. s.0 };

    ghost failed = { λ s. s.1 };

    fn read(&mut self, alloc: Global, name: &str, limit: u64) -> Result<Vec<u8>, StoreErr> {
        match read_file(alloc, self.system, name, limit) {
            Ok(bytes) => Ok(bytes),
            Err(StoreErr::Memory) => Err(StoreErr::Memory),
            Err(error) => {
                self.fail(alloc, name);
                Err(error)
            }
        }
    }

    fn write(&mut self, alloc: Global, name: &str, bytes: &[u8]) -> Result<(), StoreErr> {
        if write_file(self.system, name, bytes).is_err() {
            self.fail(alloc, name);
            return Err(StoreErr::Failed);
        }
        Ok(())
    }
}
