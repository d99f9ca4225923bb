//! `values`: the loads of a program's run that gave one value, and the file that these are written to.
ghost use Rattle.std.specs.Prelude.{Some};
ghost use Rattle.command_line.specs.Command.{shown_walk};
ghost use Rattle.load_values.specs.Bytes.{bytes_of};
ghost use Rattle.load_values.specs.Values.{AreValues};
ghost use Rattle.speculative_runs.specs.Told.{Reads, OnlyChanges};
ghost use Rattle.mssp_tool.specs.Files.{Saved};
ghost use Rattle.mssp_tool.specs.Values.{ValuesCause};

use crate::output::save;
use crate::profile::subject_in;
use answers::{Answer, Refusal};
use command_line::RunOptions;
use load_values::{FindErr, find, write_values};
use outside::Store;
use std::alloc::Global;

/// Writes the bytes of a list of values under that name.
fn save_values<S: Store>(alloc: Global, store: &mut S, name: &str, rows: &[(u32, u32)]) -> Answer
    requires { AreValues rows.now }
    ensures { Saved
        (record { told = S.told store.old; before = S.faults store.old; now = S.faults store.new; failed = S.failed store.new })
        (S.told store.new) name.now (bytes_of rows.now) result }
{
    match write_values(alloc, rows) {
        Ok(bytes) => save(alloc, store, name, &bytes),
        Err(_) => Answer::Memory,
    }
}

/// Runs a program through its steps, and writes the loads that gave one value each.
pub fn values<S: Store>(alloc: Global, store: &mut S, walk: &RunOptions<'_>) -> Answer
    ensures files { OnlyChanges (S.told store.old) (S.told store.new) (Some (shown_walk walk.now).other) }
    ensures cause { ValuesCause
        (record { told = S.told store.old; before = S.faults store.old; now = S.faults store.new; failed = S.failed store.new })
        (S.told store.new)
        (shown_walk walk.now)
        result }
{
    let subject = match subject_in(alloc, store, walk) {
        Ok(subject) => subject,
        Err(answer) => return answer,
    };
    let input = subject.input;
    match find(alloc, &subject.program, input, walk.budget) {
        Ok(rows) => save_values(alloc, store, walk.other, rows.as_slice()),
        Err(FindErr::Wide) => Answer::Refused(Refusal::WideLoads),
        Err(FindErr::Memory) => Answer::Memory,
    }
}
