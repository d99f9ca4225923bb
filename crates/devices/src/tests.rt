// Files and streams of the system, and readers and writers that fail on the way.
ghost use Rattle.std.specs.Prelude.{◌≤◌, IfOk};

use crate::moves::read_up_to;
use crate::{ErrSink, FileStore, OutSink, StreamSink};
use outside::{Sink, SinkErr, Store, StoreErr};
use std::io::{ErrorKind, Read, Write};
use std::test::Fail;
use std::{env, fs, io};

#[test]
fn files_are_written_whole_and_read_up_to_the_limit(rt: HostRuntime) -> Result<(), Fail> {
    let alloc = rt.alloc();
    let folder = env::temp_dir(&rt)?;
    let name = format!(in alloc;
        "{}/devices-{}",
        folder.display(),
        std::process::id(rt.process())
    )?;
    let mut store = FileStore::new(&rt);

    let long = vec![in alloc; 7; 200000]?;
    let written = store.write(alloc, name.as_str(), long.as_slice()).err();
    let whole = store.read(alloc, name.as_str(), 200000)?;
    assert_eq!(rt; whole.as_slice(), long.as_slice());
    let too_long = store.read(alloc, name.as_str(), 199999).err();
    let rewritten = store.write(alloc, name.as_str(), b"short").err();
    let short = store.read(alloc, name.as_str(), 200000)?;
    assert_eq!(rt; short.as_slice(), b"short".as_slice());

    fs::remove_file(&rt, name.as_str())?;
    let absent = store.read(alloc, name.as_str(), 5).err();
    let read = store.read(alloc, "/", 5).err();
    let put = store.write(alloc, "/", b"short").err();
    assert_eq!(rt;
        [written, too_long, rewritten, absent, read, put],
        [
            None,
            Some(StoreErr::TooLong),
            None,
            Some(StoreErr::Absent),
            Some(StoreErr::Failed),
            Some(StoreErr::Failed),
        ]
    );
    Ok(())
}

#[test]
fn streams_take_all_bytes(rt: HostRuntime) -> Result<(), Fail> {
    let alloc = rt.alloc();
    let mut out: OutSink = StreamSink::new(rt.stdout());
    let mut err: ErrSink = StreamSink::new(rt.stderr());
    assert_eq!(rt; out.put(alloc, b"out\n"), Ok(()));
    assert_eq!(rt; out.put(alloc, b""), Ok(()));
    assert_eq!(rt; err.put(alloc, b"err\n"), Ok(()));
    Ok(())
}

// Gives or takes three bytes at a time while it has room. Then it is interrupted, or at its end.
#[derive(Drop)]
struct Pipe {
    room: usize,
    interrupted: bool,
}

impl Pipe {
    fn pass(&mut self, wanted: usize) -> io::Result<usize>
        ensures { IfOk result (λ n. n ≤ wanted) }
    {
        if self.room == 0 && self.interrupted {
            return Err(io::Error::from(ErrorKind::Interrupted));
        }
        let count = wanted.min(3).min(self.room);
        self.room -= count;
        Ok(count)
    }
}

impl Read for Pipe {
    fn read(&mut self, buf: &mut [u8]) -> io::Result<usize> {
        self.pass(buf.len())
    }
}

impl Write for Pipe {
    fn write(&mut self, buf: &[u8]) -> io::Result<usize> {
        self.pass(buf.len())
    }

    fn flush(&mut self) -> io::Result<()> {
        Ok(())
    }
}

#[test]
fn a_stream_that_takes_nothing_or_is_interrupted_fails(rt: HostRuntime) {
    let alloc = rt.alloc();
    for interrupted in [false, true] {
        let mut sink = StreamSink::new(Pipe {
            room: 7,
            interrupted,
        });
        assert_eq!(rt; sink.put(alloc, b"seven"), Ok(()));
        assert_eq!(rt; sink.put(alloc, b"seven"), Err(SinkErr::Failed));
        assert_eq!(rt; sink.put(alloc, b""), Ok(()));
    }
}

#[test]
fn a_read_ends_at_the_end_the_limit_or_an_error(rt: HostRuntime) {
    let alloc = rt.alloc();
    for (room, interrupted, wanted) in [
        (7, false, Ok(7)),
        (8, false, Err(StoreErr::TooLong)),
        (6, true, Err(StoreErr::Failed)),
        (9, true, Err(StoreErr::TooLong)),
    ] {
        let mut pipe = Pipe { room, interrupted };
        let got = read_up_to(alloc, &mut pipe, 7).map(|bytes| bytes.len());
        assert_eq!(rt; got, wanted, "at {room}");
    }
}
