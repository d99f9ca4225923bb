// A store and a sink in memory that never fail.
ghost use Rattle.std.specs.Prelude.{◌≡◌, ℕ, List, [], Some, None, option_copied, OnOk, OnErr, position};
ghost use Rattle.std.specs.FinMap as finite;
ghost use Rattle.outside.specs.Files.{Files, HasDistinctNames, files_code, files_of, is_named};

use crate::{Sink, SinkErr, Store, StoreErr};
use std::alloc::{AllocError, Global};
use std::marker::Model;

/// A store in memory that never fails. Contracts see it as the map from names to bytes.
#[derive(Debug, Drop)]
pub struct SureStore {
    files: Vec<(String, Vec<u8>)>,
}

impl Model for SureStore {
    ghost Value = { Files };

    ghost coded = { files_code };

    ghost view = { λ s. files_of s.files.items };
}

impl SureStore {
    /// A store of these files, whose names are distinct.
    pub fn new(files: Vec<(String, Vec<u8>)>) -> Self
        requires { HasDistinctNames files.items }
        ensures { result ≡ files_of files.items }
    {
        SureStore { files }
    }

    /// The bytes of the file of that name, or `None` where there is no such file.
    pub fn file(&self, name: &str) -> Option<&[u8]>
        ensures { option_copied result ≡ finite.get self.now name.now }
    {
        match place_of(&self.files, name) {
            Some(place) => Some(self.files[place].1.as_slice()),
            None => None,
        }
    }
}

// Where the file of that name stands: the first of that name.
fn place_of(files: &[(String, Vec<u8>)], name: &str) -> Option<usize>
    ensures { result ≡ position (is_named name.now) files.now }
{
    files.iter().position(|(known, _)| known.as_str() == name)
}

// Makes these bytes the file of that name, all or nothing.
fn put_file(
    alloc: Global,
    files: &mut Vec<(String, Vec<u8>)>,
    name: &str,
    bytes: &[u8],
) -> Result<(), AllocError>
    ensures ok { OnOk result
        (files_of files.new.items ≡ finite.insert (files_of files.old.items) name.now bytes.now) }
    ensures err { OnErr result (files.new.items ≡ files.old.items) }
{
    let bytes = bytes.to_vec(alloc)?;
    if let Some(place) = place_of(files, name) {
        files[place].1 = bytes;
    } else {
        let name = String::from_str(alloc, name)?;
        files.push((name, bytes))?;
    }
    Ok(())
}

impl Store for SureStore {
    ghost told = { λ files. Some files };

    ghost faults = { λ _. 0 };

    ghost failed = { λ _. None };

    fn read(&mut self, alloc: Global, name: &str, limit: u64) -> Result<Vec<u8>, StoreErr> {
        let Some(bytes) = self.file(name) else {
            return Err(StoreErr::Absent);
        };
        if bytes.len() as u64 > limit {
            return Err(StoreErr::TooLong);
        }
        bytes.to_vec(alloc).map_err(|_| StoreErr::Memory)
    }

    fn write(&mut self, alloc: Global, name: &str, bytes: &[u8]) -> Result<(), StoreErr> {
        put_file(alloc, &mut self.files, name, bytes).map_err(|_| StoreErr::Memory)
    }
}

/// A sink in memory that never fails. Contracts see it as the bytes put so far.
#[derive(Debug, Drop)]
pub struct SureSink {
    bytes: Vec<u8>,
}

impl Model for SureSink {
    ghost Value = { List ℕ };

    ghost view = { λ s. s.bytes.items };
}

impl SureSink {
    /// A sink to which nothing was put.
    pub fn new(alloc: Global) -> Self
        ensures { result ≡ [] }
    {
        SureSink {
            bytes: Vec::new(alloc),
        }
    }

    /// The bytes put so far.
    pub fn bytes(&self) -> &[u8]
        ensures { result.now ≡ self.now }
    {
        self.bytes.as_slice()
    }
}

impl Sink for SureSink {
    ghost told = { λ bytes. Some bytes };

    ghost faults = { λ _. 0 };

    fn put(&mut self, _alloc: Global, bytes: &[u8]) -> Result<(), SinkErr> {
        if bytes.is_empty() {
            return Ok(());
        }
        self.bytes
            .extend_from_slice(bytes)
            .map_err(|_| SinkErr::Memory)
    }
}
