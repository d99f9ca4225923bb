//! The outside as the product sees it: files that are read and written by name, and places to which
//! bytes are put one after the other.
//!
//! A [`Store`] and a [`Sink`] may tell what they hold, or not, and each has a count of faults that
//! never falls. A store has the name of its last failed call too, where it had memory for it. What a
//! call answers is tied to these alone, so that whoever works over a store or a sink can say when each
//! of its own answers comes, whatever lies behind the trait. A count is at most 2^64 - 1. Where it
//! stands there it can't rise, and every clause on a count that rose holds too.
//!
//! A call that answers want of memory leaves its store or sink as it was, count and name too.
//!
//! The forms in memory always tell: [`SureStore`] and [`SureSink`] never fail, and [`MemStore`] and
//! [`MemSink`] fail at the calls that a list names. A [`TornSink`] takes a part of the put that is too
//! long for it.
#![tactic(auto)]

mod memory;
mod schedule;
mod sure;
mod torn;

ghost use Rattle.std.specs.Prelude.{◌≡◌, ℕ, List, Option};
ghost use Rattle.outside.specs.Answers.{PutAnswers, ReadAnswers, WriteAnswers};
ghost use Rattle.outside.specs.Files.{Files};

pub use memory::{MemSink, MemStore};
use std::alloc::Global;
pub use sure::{SureSink, SureStore};
use thiserror::Error;
pub use torn::TornSink;

/// Why a store gave no file, or took none.
#[derive(Debug, Clone, Copy, PartialEq, Eq, Error)]
pub enum StoreErr {
    /// The store has no file of that name. Only a read answers this.
    #[error("no such file")]
    Absent,
    /// The file is longer than the reader's limit. Only a read answers this.
    #[error("the file is too long")]
    TooLong,
    /// The store failed.
    #[error("the store failed")]
    Failed,
    /// There was no memory for the call.
    #[error("out of memory")]
    Memory,
}

/// Why a sink took not all of the bytes.
#[derive(Debug, Clone, Copy, PartialEq, Eq, Error)]
pub enum SinkErr {
    /// The sink failed. It may have taken a prefix of the bytes.
    #[error("the sink failed")]
    Failed,
    /// There was no memory for the call.
    #[error("out of memory")]
    Memory,
}

/// Files by name.
pub trait Store {
    /// The files, where the store tells.
    ghost told: { Self → Option Files };

    /// How often the store has failed: at most 2^64 - 1, where the count stays.
    ghost faults: { Self → ℕ };

    /// The name of the call that failed last; none before the first one, nor where there was no memory
    /// for the name.
    ghost failed: { Self → Option (List ℕ) };

    /// Gives the bytes of a file of at most `limit` bytes. No file changes.
    fn read(&mut self, alloc: Global, name: &str, limit: u64) -> Result<Vec<u8>, StoreErr>
        ensures files { told self.new ≡ told self.old }
        ensures answer { ReadAnswers (told self.old) (faults self.old) (faults self.new)
            (failed self.old) (failed self.new) name.now limit result };

    /// Makes these bytes the file of that name, whether or not there was one.
    fn write(&mut self, alloc: Global, name: &str, bytes: &[u8]) -> Result<(), StoreErr>
        ensures answer { WriteAnswers (told self.old) (told self.new) (faults self.old) (faults self.new)
            (failed self.old) (failed self.new) name.now bytes.now result };
}

/// A place to which bytes are put, one after the other.
pub trait Sink {
    /// The bytes put so far, where the sink tells.
    ghost told: { Self → Option (List ℕ) };

    /// How often the sink has failed: at most 2^64 - 1, where the count stays.
    ghost faults: { Self → ℕ };

    /// Puts these bytes behind those that were put before.
    fn put(&mut self, alloc: Global, bytes: &[u8]) -> Result<(), SinkErr>
        ensures answer { PutAnswers (told self.old) (told self.new) (faults self.old) (faults self.new)
            bytes.now result };
}
