//! What a command is performed over, and what it leaves there.
ghost use Rattle.std.specs.Prelude.{◌≡◌, IfOk, string_bytes};
ghost use Rattle.outside.specs.Files.{HasDistinctNames};

use mssp_tool::mssp;
use outside::{MemSink, MemStore, Sink, TornSink};
use std::alloc::{AllocError, Global};

/// The numbers of the call of the store, of the output and of the line that fails, counted from 1;
/// 0 is no call's.
#[derive(Clone, Copy)]
pub struct Fails {
    pub store: u64,
    pub out: u64,
    pub err: u64,
}

/// Nothing fails.
pub const SURE: Fails = Fails {
    store: 0,
    out: 0,
    err: 0,
};

/// What a command left.
#[derive(Drop)]
pub struct Left {
    pub status: u8,
    pub out: Vec<u8>,
    pub err: Vec<u8>,
    /// The file `r`; empty where there is none.
    pub report: Vec<u8>,
}

fn file(alloc: Global, name: &str, bytes: Vec<u8>) -> Result<(String, Vec<u8>), AllocError>
    ensures { IfOk result (λ f. string_bytes f.0 ≡ name.now) }
{
    Ok((String::from_str(alloc, name)?, bytes))
}

/// The files that a command may read.
#[derive(Drop)]
pub struct Files {
    /// The file `p`.
    pub program: Vec<u8>,
    /// The file `m`.
    pub image: Vec<u8>,
    /// The file `e`.
    pub events: Vec<u8>,
    /// The file `i`.
    pub input: Vec<u8>,
}

fn named(alloc: Global, files: Files) -> Result<Vec<(String, Vec<u8>)>, AllocError>
    ensures { IfOk result (λ files. HasDistinctNames files.items) }
{
    let files = vec![in alloc;
        file(alloc, "p", files.program)?,
        file(alloc, "m", files.image)?,
        file(alloc, "e", files.events)?,
        file(alloc, "i", files.input)?,
    ]?;
    Ok(files)
}

fn words_of(alloc: Global, texts: &[&str]) -> Result<Vec<String>, AllocError> {
    let mut words = Vec::new(alloc);
    for text in texts {
        words.push(String::from_str(alloc, text)?)?;
    }
    Ok(words)
}

/// Performs a command over these files; what it puts goes to `out`, and `Left` has none of it.
fn perform_into<O: Sink>(
    alloc: Global,
    words: &[&str],
    files: Files,
    fails: Fails,
    out: &mut O,
) -> Result<Left, AllocError> {
    let words = words_of(alloc, words)?;
    let files = named(alloc, files)?;
    let mut store = MemStore::new(alloc, files, vec![in alloc; fails.store]?)?;
    let mut err = MemSink::new(alloc, vec![in alloc; fails.err]?);
    let status = mssp(alloc, &words, &mut store, out, &mut err);
    Ok(Left {
        status,
        out: Vec::new(alloc),
        err: err.bytes().to_vec(alloc)?,
        report: store.file("r").unwrap_or(&[]).to_vec(alloc)?,
    })
}

/// Performs a command over these files.
pub fn perform_over(
    alloc: Global,
    words: &[&str],
    files: Files,
    fails: Fails,
) -> Result<Left, AllocError> {
    let mut out = MemSink::new(alloc, vec![in alloc; fails.out]?);
    let mut left = perform_into(alloc, words, files, fails, &mut out)?;
    left.out = out.bytes().to_vec(alloc)?;
    Ok(left)
}

/// Performs a command over these files. What it puts goes to a sink with room for so many bytes.
pub fn perform_torn(
    alloc: Global,
    words: &[&str],
    files: Files,
    room: u64,
) -> Result<Left, AllocError> {
    let mut out = TornSink::new(alloc, room);
    let mut left = perform_into(alloc, words, files, SURE, &mut out)?;
    left.out = out.bytes().to_vec(alloc)?;
    Ok(left)
}

/// Performs a command where the file `p` is the program and `i` the input.
pub fn perform(
    alloc: Global,
    words: &[&str],
    program: Vec<u8>,
    input: Vec<u8>,
    fails: Fails,
) -> Result<Left, AllocError> {
    let files = Files {
        program,
        image: Vec::new(alloc),
        events: Vec::new(alloc),
        input,
    };
    perform_over(alloc, words, files, fails)
}
