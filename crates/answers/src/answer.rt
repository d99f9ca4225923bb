//! What a command comes to, and its status.
ghost use Rattle.std.specs.Prelude.{◌≡◌};
ghost use Rattle.answers.specs.Answer.{status_of};

use cells::End;
use dist_image::ImageErr;
use elf_reader::ElfErr;
use event_list::EventErr;
use load_values::ValuesErr;
use profile_data::ProfileErr;

/// Which of the files that a command reads or writes.
#[derive(Clone, Copy, Debug, PartialEq, Eq)]
pub enum Source {
    Program,
    Image,
    Events,
    Profile,
    /// The values of loads.
    Values,
    Input,
    /// The summary that a run writes.
    Report,
    /// The profile, the values or the image that a command writes.
    Output,
}

/// Why a file is refused, or gives nothing to write.
#[derive(Clone, Copy, Debug, PartialEq, Eq)]
pub enum Refusal {
    Program(ElfErr),
    Image(ImageErr),
    Events(EventErr),
    Profile(ProfileErr),
    /// The program's run has more addresses or targets than a profile can hold.
    Wide,
    /// The profile has nothing that an image could be made of.
    Empty,
    Values(ValuesErr),
    /// The program's run executes loads at more addresses than a list of values can hold.
    WideLoads,
}

/// What a command came to.
#[derive(Clone, Copy, Debug, PartialEq, Eq)]
pub enum Answer {
    /// The words are no command.
    Usage,
    /// The store has no such file.
    Absent(Source),
    /// The store failed at this file.
    StoreFault(Source),
    /// The output sink failed.
    SinkFault,
    /// There was no memory.
    Memory,
    /// The file is longer than its limit.
    TooLong(Source),
    /// A file is refused.
    Refused(Refusal),
    /// The command is done, and its text is put.
    Done,
    /// The run went on to its end: where it stands, and how it ended.
    Ran { pc: u32, end: End },
    /// The run used up its steps.
    Budget,
    /// What is asked about doesn't hold, and the line that says where is put: the run breaks what an
    /// image assumes of it, or the image breaks a rule.
    Broken,
}

/// The status that the answer is told by.
pub fn status(answer: Answer) -> u8
    ensures { result ≡ status_of answer }
{
    match answer {
        Answer::Usage => 110,
        Answer::Absent(_) => 111,
        Answer::StoreFault(_) => 112,
        Answer::SinkFault => 113,
        Answer::Memory => 114,
        Answer::TooLong(_) => 115,
        Answer::Refused(Refusal::Program(_)) => 116,
        Answer::Refused(Refusal::Image(_)) => 117,
        Answer::Refused(Refusal::Events(_)) => 119,
        Answer::Refused(Refusal::Profile(_) | Refusal::Wide | Refusal::Empty) => 118,
        Answer::Refused(Refusal::Values(_) | Refusal::WideLoads) => 123,
        Answer::Done => 0,
        Answer::Ran {
            end: End::Exit(code),
            ..
        } => (code % 256) as u8,
        Answer::Ran { .. } => 121,
        Answer::Budget => 120,
        Answer::Broken => 1,
    }
}
