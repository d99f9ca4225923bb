// Each call once with ample memory, stores and sinks through their traits, and what they answer at
// their limits and failures.
ghost use Rattle.std.specs.Prelude.{◌≡◌, Some, IfOk, string_bytes};
ghost use Rattle.outside.specs.Files.{HasDistinctNames};

use outside::{MemSink, MemStore, Sink, SinkErr, Store, StoreErr, SureSink, SureStore, TornSink};
use std::alloc::{AllocError, Global};
use std::test::Fail;

fn file(alloc: Global, name: &str, bytes: &[u8]) -> Result<(String, Vec<u8>), AllocError>
    ensures { IfOk result (λ f. string_bytes f.0 ≡ name.now) }
{
    Ok((String::from_str(alloc, name)?, bytes.to_vec(alloc)?))
}

fn two_files(alloc: Global) -> Result<Vec<(String, Vec<u8>)>, AllocError>
    ensures { IfOk result (λ files. HasDistinctNames files.items) }
{
    let files = vec![in alloc; file(alloc, "a", b"first")?, file(alloc, "b", b"second")?]?;
    Ok(files)
}

/// Whether a store reads a file of this name up to this limit, or answers this in its place.
fn reads<S: Store>(
    alloc: Global,
    store: &mut S,
    name: &str,
    limit: u64,
    want: Result<&[u8], StoreErr>,
) -> bool {
    match (store.read(alloc, name, limit), want) {
        (Ok(found), Ok(bytes)) => *found.as_slice() == *bytes,
        (Err(found), Err(err)) => found == err,
        _ => false,
    }
}

/// What a store answers to a file of this name that is written.
fn write<S: Store>(alloc: Global, store: &mut S, name: &str, bytes: &[u8]) -> Result<(), StoreErr> {
    store.write(alloc, name, bytes)
}

/// What a sink answers to these bytes.
fn put<S: Sink>(alloc: Global, sink: &mut S, bytes: &[u8]) -> Result<(), SinkErr> {
    sink.put(alloc, bytes)
}

/// Whether a sink answers so to each of these bytes in turn.
fn takes<S: Sink>(alloc: Global, sink: &mut S, puts: &[(&[u8], Result<(), SinkErr>)]) -> bool {
    for &(bytes, want) in puts {
        if put(alloc, sink, bytes) != want {
            return false;
        }
    }
    true
}

/// A store that always answers, with two files.
fn sure_store(alloc: Global) -> Result<SureStore, AllocError> {
    Ok(SureStore::new(two_files(alloc)?))
}

/// Whether such a store has this file, or none of its name.
fn has(store: &SureStore, name: &str, want: Option<&[u8]>) -> bool {
    store.file(name) == want
}

/// The names of files and the limits up to which they are read, with the answers.
static READS: [(&str, u64, Result<&[u8], StoreErr>); 3] = [
    ("a", 5, Ok(b"first")),
    ("b", 5, Err(StoreErr::TooLong)),
    ("c", 5, Err(StoreErr::Absent)),
];

#[test]
fn a_sure_store_reads_up_to_the_limit(rt: HostRuntime) -> Result<(), Fail> {
    let mut store = sure_store(rt.alloc())?;
    for &(name, limit, want) in &READS {
        assert!(rt; reads(rt.alloc(), &mut store, name, limit, want), "{name}");
    }
    let is_kept = has(&store, "b", Some(b"second")) && has(&store, "c", None);
    assert!(rt; is_kept);
    Ok(())
}

#[test]
fn a_sure_store_takes_new_files_and_old_names(rt: HostRuntime) -> Result<(), Fail> {
    let mut store = sure_store(rt.alloc())?;
    let is_written = write(rt.alloc(), &mut store, "b", b"2") == Ok(())
        && write(rt.alloc(), &mut store, "", b"") == Ok(());
    let is_kept = has(&store, "a", Some(b"first"))
        && has(&store, "b", Some(b"2"))
        && has(&store, "", Some(b""));
    let is_read = reads(rt.alloc(), &mut store, "b", 1, Ok(b"2"));
    assert_eq!(rt; [is_written, is_kept, is_read], [true; 3]);
    Ok(())
}

/// A store with two files that fails at its second and its fourth call.
fn failing_store(alloc: Global) -> Result<MemStore, AllocError> {
    MemStore::new(alloc, two_files(alloc)?, vec![in alloc; 2, 4]?)
}

#[test]
fn a_store_fails_at_the_listed_calls(rt: HostRuntime) -> Result<(), Fail> {
    let alloc = rt.alloc();
    let mut store = failing_store(alloc)?;
    let first = write(alloc, &mut store, "c", b"third") == Ok(());
    let second = reads(alloc, &mut store, "a", 5, Err(StoreErr::Failed));
    let past_its_limit = reads(alloc, &mut store, "c", 4, Err(StoreErr::TooLong));
    let fourth = write(alloc, &mut store, "a", b"lost") == Err(StoreErr::Failed);
    assert_eq!(rt; [first, second, past_its_limit, fourth], [true; 4]);
    let is_kept = store.file("a") == Some(b"first".as_slice());
    let nowhere = reads(alloc, &mut store, "d", 4, Err(StoreErr::Absent));
    let third = reads(alloc, &mut store, "c", 5, Ok(b"third"));
    assert_eq!(rt; [is_kept, nowhere, third], [true; 3]);
    Ok(())
}

/// Bytes that are put where all are taken.
static SURE_PUTS: [(&[u8], Result<(), SinkErr>); 3] = [
    (b"one ", Ok(())),
    (b"", Ok(())),
    (b"two", Ok(())),
];

#[test]
fn a_sure_sink_keeps_all_bytes(rt: HostRuntime) {
    let mut sink = SureSink::new(rt.alloc());
    assert!(rt; takes(rt.alloc(), &mut sink, &SURE_PUTS));
    assert_eq!(rt; sink.bytes(), b"one two".as_slice());
}

/// Bytes that are put where the second put fails. One of no bytes isn't counted.
static PUTS_AND_A_FAILURE: [(&[u8], Result<(), SinkErr>); 4] = [
    (b"one ", Ok(())),
    (b"", Ok(())),
    (b"lost", Err(SinkErr::Failed)),
    (b"two", Ok(())),
];

/// A sink that fails at its second put.
fn failing_sink(alloc: Global) -> Result<MemSink, AllocError> {
    Ok(MemSink::new(alloc, vec![in alloc; 2]?))
}

#[test]
fn a_sink_fails_at_the_listed_puts(rt: HostRuntime) -> Result<(), Fail> {
    let mut sink = failing_sink(rt.alloc())?;
    assert!(rt; takes(rt.alloc(), &mut sink, &PUTS_AND_A_FAILURE));
    assert_eq!(rt; sink.bytes(), b"one two".as_slice());
    Ok(())
}

/// Bytes that are put where there is room for five.
static PUTS_TO_FIVE: [(&[u8], Result<(), SinkErr>); 2] = [
    (b"one ", Ok(())),
    (b"two", Err(SinkErr::Failed)),
];

/// Bytes that are put once there is no room.
static PUTS_TO_NONE: [(&[u8], Result<(), SinkErr>); 2] = [
    (b"", Ok(())),
    (b"3", Err(SinkErr::Failed)),
];

#[test]
fn a_put_may_fail_in_the_middle(rt: HostRuntime) {
    let mut sink = TornSink::new(rt.alloc(), 5);
    for puts in [&PUTS_TO_FIVE, &PUTS_TO_NONE] {
        assert!(rt; takes(rt.alloc(), &mut sink, puts));
        assert_eq!(rt; sink.bytes(), b"one t".as_slice());
    }
}
