// A store and a sink in memory that fail at the calls that a list names.
ghost use Rattle.std.specs.Prelude.{◌≡◌, ◌≢◌, ◌^◌, ◌<◌, [], Some, None, option_copied, option_map, string_bytes, IfOk};
ghost use Rattle.std.specs.FinMap as finite;
ghost use Rattle.outside.specs.Answers.{IsNamed, PutAnswers, ReadAnswers, WriteAnswers};
ghost use Rattle.outside.specs.Files.{HasDistinctNames, files_of};
ghost use Rattle.outside.specs.Schedule.{Follows, after_call, fresh};
ghost use Rattle.outside.specs.Seen.{SeenSink, SeenStore, sink_code, store_code};

use crate::schedule::Schedule;
use crate::{Sink, SinkErr, Store, StoreErr, SureSink, SureStore};
use std::alloc::{AllocError, Global};
use std::marker::Model;

/// A store in memory that fails at the calls that a list names, reads and writes alike.
///
/// A call that finds no memory leaves the store as it was, and has no number.
#[derive(Debug, Drop)]
pub struct MemStore {
    store: SureStore,
    schedule: Schedule,
    failed: Option<String>,
}

impl Model for MemStore {
    ghost Value = { SeenStore };

    ghost coded = { store_code };

    ghost view = { λ s. record {
      files = s.store;
      schedule = s.schedule;
      failed = option_map string_bytes s.failed;
    } };

    ghost invariant = { λ s. s.schedule.faults < 2 ^ 64 };
}

impl MemStore {
    /// A store of these files, whose names are distinct. `fail` has the numbers of the calls that
    /// fail, counted from 1.
    pub fn new(
        _alloc: Global,
        files: Vec<(String, Vec<u8>)>,
        fail: Vec<u64>,
    ) -> Result<MemStore, AllocError>
        requires { HasDistinctNames files.items }
        ensures { IfOk result (λ s. s ≡ record {
          files = files_of files.items;
          schedule = fresh fail.items;
          failed = None;
        }) }
    {
        Ok(MemStore {
            store: SureStore::new(files),
            schedule: Schedule::new(fail),
            failed: None,
        })
    }

    // Counts a call of that name that fails.
    fn fail(&mut self, alloc: Global, name: &str)
        ensures files { self.new.files ≡ self.old.files }
        ensures counted { self.new.schedule ≡ after_call self.old.schedule }
        ensures named { IsNamed self.new.failed name.now }
    {
        self.schedule.count();
        self.failed = String::from_str(alloc, name).ok();
    }

    /// The bytes of the file of that name, or `None` where there is no such file.
    pub fn file(&self, name: &str) -> Option<&[u8]>
        ensures { option_copied result ≡ finite.get self.now.files name.now }
    {
        self.store.file(name)
    }
}

impl Store for MemStore {
    ghost told = { λ s. Some s.files };

    ghost faults = { λ s. s.schedule.faults };

    ghost failed = { λ s. s.failed };

    fn read(&mut self, alloc: Global, name: &str, limit: u64) -> Result<Vec<u8>, StoreErr>
        ensures files { self.new.files ≡ self.old.files }
        ensures answer { ReadAnswers (Some self.old.files) self.old.schedule.faults self.new.schedule.faults
            self.old.failed self.new.failed name.now limit result }
        ensures schedule { Follows StoreErr.Failed StoreErr.Memory
            self.old.schedule self.new.schedule result }
    {
        if self.schedule.is_next_listed() {
            self.fail(alloc, name);
            return Err(StoreErr::Failed);
        }
        let answer = self.store.read(alloc, name, limit);
        if !matches!(&answer, Err(StoreErr::Memory)) {
            self.schedule.count();
        }
        answer
    }

    fn write(&mut self, alloc: Global, name: &str, bytes: &[u8]) -> Result<(), StoreErr>
        ensures answer { WriteAnswers (Some self.old.files) (Some self.new.files)
            self.old.schedule.faults self.new.schedule.faults self.old.failed self.new.failed
            name.now bytes.now result }
        ensures failed { result ≡ Err StoreErr.Failed → self.new.files ≡ self.old.files }
        ensures schedule { Follows StoreErr.Failed StoreErr.Memory
            self.old.schedule self.new.schedule result }
    {
        if self.schedule.is_next_listed() {
            self.fail(alloc, name);
            return Err(StoreErr::Failed);
        }
        self.store.write(alloc, name, bytes)?;
        self.schedule.count();
        Ok(())
    }
}

/// A sink in memory that fails at the puts that a list names.
///
/// A put that finds no memory leaves the sink as it was, and has no number.
#[derive(Debug, Drop)]
pub struct MemSink {
    sink: SureSink,
    schedule: Schedule,
}

impl Model for MemSink {
    ghost Value = { SeenSink };

    ghost coded = { sink_code };

    ghost view = { λ s. record { bytes = s.sink; schedule = s.schedule } };

    ghost invariant = { λ s. s.schedule.faults < 2 ^ 64 };
}

impl MemSink {
    /// A sink to which nothing was put. `fail` has the numbers of the puts that fail, counted from 1
    /// over the puts of at least one byte.
    pub fn new(alloc: Global, fail: Vec<u64>) -> MemSink
        ensures { result ≡ record { bytes = []; schedule = fresh fail.items } }
    {
        MemSink {
            sink: SureSink::new(alloc),
            schedule: Schedule::new(fail),
        }
    }

    /// The bytes put so far.
    pub fn bytes(&self) -> &[u8]
        ensures { result.now ≡ self.now.bytes }
    {
        self.sink.bytes()
    }
}

impl Sink for MemSink {
    ghost told = { λ s. Some s.bytes };

    ghost faults = { λ s. s.schedule.faults };

    fn put(&mut self, alloc: Global, bytes: &[u8]) -> Result<(), SinkErr>
        ensures answer { PutAnswers (Some self.old.bytes) (Some self.new.bytes)
            self.old.schedule.faults self.new.schedule.faults bytes.now result }
        ensures failed { result ≡ Err SinkErr.Failed → self.new.bytes ≡ self.old.bytes }
        ensures empty { bytes.now ≡ [] → self.new ≡ self.old }
        ensures schedule { bytes.now ≢ []
            → Follows SinkErr.Failed SinkErr.Memory self.old.schedule self.new.schedule result }
    {
        if bytes.is_empty() {
            return self.sink.put(alloc, bytes);
        }
        if self.schedule.is_next_listed() {
            self.schedule.count();
            return Err(SinkErr::Failed);
        }
        self.sink.put(alloc, bytes)?;
        self.schedule.count();
        Ok(())
    }
}
