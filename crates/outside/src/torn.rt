// A sink in memory that takes so many bytes and no more.
ghost use Rattle.std.specs.Prelude.{◌≡◌, ◌≢◌, ◌^◌, ◌<◌, ◌≤◌, ◌-◌, ◌++◌, [], length, take, Some, IfOk, OnOk, Err};
ghost use Rattle.outside.specs.Answers.{PutAnswers, one_more};
ghost use Rattle.outside.specs.Seen.{SeenTorn, torn_code};

use crate::{Sink, SinkErr, SureSink};
use std::alloc::Global;
use std::marker::Model;

/// A sink in memory with room for so many bytes, as a disk that fills up.
///
/// A put that fits appends its bytes. One that doesn't appends as many as fit and fails, and there is
/// no room from then on.
#[derive(Debug, Drop)]
pub struct TornSink {
    sink: SureSink,
    room: u64,
    faults: u64,
}

impl Model for TornSink {
    ghost Value = { SeenTorn };

    ghost coded = { torn_code };

    ghost view = { λ s. record { bytes = s.sink; room = s.room; faults = s.faults } };

    ghost invariant = { λ s. s.faults < 2 ^ 64 };
}

impl TornSink {
    /// A sink to which nothing was put, with room for so many bytes.
    pub fn new(alloc: Global, room: u64) -> TornSink
        ensures { result ≡ record { bytes = []; room = room; faults = 0 } }
    {
        TornSink {
            sink: SureSink::new(alloc),
            room,
            faults: 0,
        }
    }

    /// The bytes put so far.
    pub fn bytes(&self) -> &[u8]
        ensures { result.now ≡ self.now.bytes }
    {
        self.sink.bytes()
    }
}

impl Sink for TornSink {
    ghost told = { λ s. Some s.bytes };

    ghost faults = { λ s. s.faults };

    fn put(&mut self, alloc: Global, bytes: &[u8]) -> Result<(), SinkErr>
        ensures answer { PutAnswers (Some self.old.bytes) (Some self.new.bytes)
            self.old.faults self.new.faults bytes.now result }
        ensures fits { OnOk result (length bytes.now ≤ self.old.room) }
        ensures room { OnOk result (self.new.room ≡ self.old.room - length bytes.now) }
        ensures full { result ≡ Err SinkErr.Failed → self.old.room < length bytes.now }
        ensures torn { result ≡ Err SinkErr.Failed → self.new ≡ record {
          bytes = self.old.bytes ++ take self.old.room bytes.now;
          room = 0;
          faults = one_more self.old.faults;
        } }
        ensures memory { result ≡ Err SinkErr.Memory → self.new ≡ self.old }
    {
        if bytes.len() as u64 <= self.room {
            self.sink.put(alloc, bytes)?;
            self.room -= bytes.len() as u64;
            return Ok(());
        }
        self.sink.put(alloc, &bytes[..self.room as usize])?;
        self.room = 0;
        self.faults = self.faults.saturating_add(1);
        Err(SinkErr::Failed)
    }
}
