//! `check`: whether a program's run meets what an image assumes of it.
ghost use Rattle.std.specs.Prelude.{◌≡◌, MatchResult};
ghost use Rattle.command_line.specs.Command.{shown_walk};
ghost use Rattle.dist_image.specs.Image.{IsImage};
ghost use Rattle.elf_reader.specs.Executable.{IsProgram};
ghost use Rattle.report.specs.Verdict.{IsOfList};
ghost use Rattle.speculative_runs.specs.Told.{Reads, Puts};
ghost use Rattle.mssp_tool.specs.Check.{Unchecked, HasCheckFiles, verdict_answer, Judged, CheckCause};

use crate::reading::{image_in, input_in, program_in};
use answers::Answer;
use assume_list::{Verdict, check_run};
use command_line::RunOptions;
use dist_image::Image;
use elf_reader::Program;
use outside::{Sink, SinkErr, Store};
use report::put_verdict;
use std::alloc::Global;

/// What is checked: a program and its input, and what an image assumes of their run.
#[derive(Drop)]
struct Subject {
    program: Program,
    image: Image,
    input: Vec<u8>,
}

/// Reads the files of a check.
fn subject_in<S: Store>(
    alloc: Global,
    store: &mut S,
    walk: &RunOptions<'_>,
) -> Result<Subject, Answer>
    ensures files { S.told store.new ≡ S.told store.old }
    ensures answer { MatchResult result
        (λ subject. IsProgram subject.program × IsImage subject.image
        × HasCheckFiles (S.told store.old) (shown_walk walk.now) subject.program subject.image subject.input.items)
        (Unchecked (record { told = S.told store.old; before = S.faults store.old; now = S.faults store.new; failed = S.failed store.new }) (shown_walk walk.now)) }
{
    let program = program_in(alloc, store, walk.program)?;
    let image = match image_in(alloc, store, walk.other) {
        Ok(image) => image,
        Err(answer) => return Err(answer),
    };
    match input_in(alloc, store, walk.input) {
        Ok(input) => Ok(Subject {
            program,
            image,
            input,
        }),
        Err(answer) => Err(answer),
    }
}

// Which of the two verdicts there is.
fn verdict_answer(verdict: Verdict) -> Answer
    ensures { result ≡ verdict_answer verdict }
{
    match verdict {
        Verdict::Met(_) => Answer::Done,
        Verdict::Broken { .. } => Answer::Broken,
    }
}

// Puts the line of a verdict.
fn judge<O: Sink>(alloc: Global, out: &mut O, image: &Image, verdict: Verdict) -> Answer
    requires { IsOfList image.now.assumptions verdict }
    ensures { Judged image.now verdict
        (record { told = O.told out.old; left = O.told out.new; before = O.faults out.old; now = O.faults out.new })
        result }
{
    match put_verdict(alloc, out, image, &verdict) {
        Ok(()) => verdict_answer(verdict),
        Err(SinkErr::Failed) => Answer::SinkFault,
        Err(SinkErr::Memory) => Answer::Memory,
    }
}

/// Runs a program through its steps, and puts whether they meet what an image assumes of them, or
/// else where they break it first.
pub fn check<S: Store, O: Sink>(
    alloc: Global,
    store: &mut S,
    out: &mut O,
    walk: &RunOptions<'_>,
) -> Answer
    ensures files { S.told store.new ≡ S.told store.old }
    ensures cause { CheckCause
        (record { told = S.told store.old; before = S.faults store.old; now = S.faults store.new; failed = S.failed store.new })
        (shown_walk walk.now)
        (record { told = O.told out.old; left = O.told out.new; before = O.faults out.old; now = O.faults out.new })
        result }
{
    let subject = match subject_in(alloc, store, walk) {
        Ok(subject) => subject,
        Err(answer) => return answer,
    };
    let input = subject.input;
    match check_run(alloc, &subject.program, &subject.image, input, walk.budget) {
        Ok(verdict) => judge(alloc, out, &subject.image, verdict),
        Err(_) => Answer::Memory,
    }
}
