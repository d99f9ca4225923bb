// Streams of the system as sinks.
ghost use Rattle.std.specs.Prelude.{◌≡◌, ℕ, ◌^◌, ◌<◌, List, take, Option, None, OnOk, OnErr};
ghost use Rattle.std.specs.Io.KnownBytes.{Appends};
ghost use Rattle.outside.specs.Answers.{PutAnswers};

use crate::moves::{raise, write_whole};
use outside::{Sink, SinkErr};
use std::alloc::Global;
use std::io::{Stderr, Stdout, Write};
use std::marker::Model;

/// A stream to which bytes are written. Contracts see it as the bytes that the stream holds, where they
/// are known, and its count of faults. Of the streams of the system no bytes are known.
///
/// Nothing is held back: what a put answers `Ok` to has been handed to the stream.
#[derive(Drop)]
pub struct StreamSink<W: Write + Drop> {
    stream: W,
    faults: u64,
}

/// Standard output.
pub type OutSink = StreamSink<Stdout>;

/// Standard error.
pub type ErrSink = StreamSink<Stderr>;

impl<W: Write + Drop> Model for StreamSink<W> {
    ghost Value = { Option (List ℕ) × ℕ };

    ghost view = { λ s. (W.contents s.stream, s.faults) };

    ghost invariant = { λ s. s.faults < 2 ^ 64 };
}

impl<W: Write + Drop> StreamSink<W> {
    /// A sink over this stream.
    pub fn new(stream: W) -> Self
        ensures { result ≡ (W.contents stream, 0) }
    {
        StreamSink { stream, faults: 0 }
    }
}

impl<W: Write + Drop> Sink for StreamSink<W> {
    ghost told = { λ _. None };

    ghost faults = { λ s. s.1 };

    fn put(&mut self, _alloc: Global, bytes: &[u8]) -> Result<(), SinkErr>
        ensures answer { PutAnswers None None self.old.1 self.new.1 bytes.now result }
        // A stream whose bytes are known got them all, or after a fault the first of them.
        ensures all { OnOk result (Appends self.old.0 self.new.0 bytes.now) }
        ensures part { OnErr result ((n : ℕ) × Appends self.old.0 self.new.0 (take n bytes.now)) }
    {
        if write_whole(&mut self.stream, bytes).is_err() {
            raise(&mut self.faults);
            return Err(SinkErr::Failed);
        }
        Ok(())
    }
}
