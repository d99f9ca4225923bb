//! The top call: from the words of the command line to the status.
ghost use Rattle.std.specs.Prelude.{◌≡◌, Some, map, option_map, string_bytes};
ghost use Rattle.command_line.specs.Command.{shown, command_of};
ghost use Rattle.answers.specs.Answer.{line_of, status_of, name_of};
ghost use Rattle.speculative_runs.specs.Told.{Reads, Puts, OnlyChanges};
ghost use Rattle.mssp_tool.specs.Top.{Cause, Tells, Answered, output_of};

use crate::certifying::certify;
use crate::check::check;
use crate::distill::distill;
use crate::drawn::trial;
use crate::profile::profile;
use crate::replay::replay;
use crate::run::run;
use crate::show::show;
use crate::values::values;
use answers::{Answer, line, status};
use command_line::{Command, read_command};
use outside::{Sink, SinkErr, Store};
use std::alloc::Global;

// Performs a command.
fn perform<S: Store, O: Sink>(
    alloc: Global,
    store: &mut S,
    out: &mut O,
    command: Command<'_>,
) -> Answer
    ensures files { OnlyChanges (S.told store.old) (S.told store.new)
        (output_of (Some (shown command.entry))) }
    ensures cause { Cause
        (record { told = S.told store.old; before = S.faults store.old; now = S.faults store.new; failed = S.failed store.new })
        (S.told store.new)
        (Some (shown command.entry))
        (record { told = O.told out.old; left = O.told out.new; before = O.faults out.old; now = O.faults out.new })
        result }
{
    match command {
        Command::Run(asked) => run(alloc, store, out, &asked),
        Command::Show { image } => show(alloc, store, out, image),
        Command::Replay(asked) => replay(alloc, store, out, &asked),
        Command::Profile { walk, calls } => profile(alloc, store, &walk, calls),
        Command::Values(asked) => values(alloc, store, &asked),
        Command::Distill(asked) => distill(alloc, store, &asked),
        Command::Check(asked) => check(alloc, store, out, &asked),
        Command::Certify { program, image } => certify(alloc, store, out, program, image),
        Command::Trial(asked) => trial(alloc, out, &asked),
    }
}

// Performs what the words ask for, where they are a command.
fn perform_words<S: Store, O: Sink>(
    alloc: Global,
    store: &mut S,
    out: &mut O,
    command: Option<Command<'_>>,
) -> Answer
    ensures files { OnlyChanges (S.told store.old) (S.told store.new)
        (output_of (option_map shown command.entry)) }
    ensures cause { Cause
        (record { told = S.told store.old; before = S.faults store.old; now = S.faults store.new; failed = S.failed store.new })
        (S.told store.new)
        (option_map shown command.entry)
        (record { told = O.told out.old; left = O.told out.new; before = O.faults out.old; now = O.faults out.new })
        result }
{
    match command {
        Some(command) => perform(alloc, store, out, command),
        None => Answer::Usage,
    }
}

// Puts the answer's line, and gives its status.
fn tell<E: Sink>(alloc: Global, err: &mut E, answer: Answer, command: Option<Command<'_>>) -> u8
    ensures { Tells
        (record { told = E.told err.old; left = E.told err.new; before = E.faults err.old; now = E.faults err.new })
        (line_of (name_of (option_map shown command.entry)) answer) (status_of answer) result }
{
    let Ok(text) = line(alloc, answer, command) else {
        return 114;
    };
    match err.put(alloc, &text) {
        Ok(()) => status(answer),
        Err(SinkErr::Failed) => status(answer),
        Err(SinkErr::Memory) => 114,
    }
}

/// Does what the words ask for, and gives the status.
///
/// `words` doesn't hold the program's own name. Files are read from `store`, the guest's output as it comes
/// or the command's text is put to `out`, and a refusal or fault has its line on `err`. No file changes
/// but the one that the command writes. With an image that fits the program nothing is squashed, as far
/// as the run meets the image's list.
pub fn mssp<S: Store, O: Sink, E: Sink>(
    alloc: Global,
    words: &[String],
    store: &mut S,
    out: &mut O,
    err: &mut E,
) -> u8
    ensures answered { Answered
        (record { told = S.told store.old; before = S.faults store.old; now = S.faults store.new; failed = S.failed store.new })
        (S.told store.new)
        (record { told = O.told out.old; left = O.told out.new; before = O.faults out.old; now = O.faults out.new })
        (record { told = E.told err.old; left = E.told err.new; before = E.faults err.old; now = E.faults err.new })
        (map string_bytes words.now)
        result }
    ensures files { OnlyChanges (S.told store.old) (S.told store.new)
        (output_of (command_of (map string_bytes words.now))) }
{
    let command = read_command(words);
    let answer = perform_words(alloc, store, out, command);
    tell(alloc, err, answer, command)
}
