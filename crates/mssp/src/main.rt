//! The program `mssp`: the top call over real files and the standard streams.
#![tactic(auto)]

use devices::{ErrSink, FileStore, OutSink};
use mssp_tool::mssp;
use std::alloc::AllocError;
use std::process::ExitCode;
use std::{env, io};

/// The status where there is no memory for the words.
const NO_MEMORY: u8 = 114;

// The words of the command line without the program's own name, or none where one of them is no text.
fn words(rt: &HostRuntime) -> Result<Vec<String>, AllocError> {
    let mut words = Vec::new(rt.alloc());
    match env::args(rt) {
        Ok(args) => {
            for word in args.skip(1) {
                words.push(word)?;
            }
            Ok(words)
        }
        Err(error) if error.kind() == io::ErrorKind::InvalidData => Ok(words),
        Err(_) => Err(AllocError),
    }
}

fn main(rt: HostRuntime) -> ExitCode {
    let Ok(words) = words(&rt) else {
        return ExitCode::from(NO_MEMORY);
    };
    let mut store = FileStore::new(&rt);
    let mut out = OutSink::new(rt.stdout());
    let mut err = ErrSink::new(rt.stderr());
    ExitCode::from(mssp(rt.alloc(), &words, &mut store, &mut out, &mut err))
}
