//! `certify`: whether an image fits a program.
ghost use Rattle.std.specs.Prelude.{◌≡◌, IfOk, MatchResult};
ghost use Rattle.dist_image.specs.Image.{IsImage};
ghost use Rattle.speculative_runs.specs.Told.{Reads, Puts};
ghost use Rattle.mssp_tool.specs.Files.{HasProgram, HasImage};
ghost use Rattle.mssp_tool.specs.Certify.{Uncertified, fit_line, fit_answer, Certified, CertifyCause};

use crate::reading::{image_in, program_in};
use answers::Answer;
use certify::Fit;
use dist_image::Image;
use elf_reader::Program;
use outside::{Sink, SinkErr, Store};
use report::{Word, push_line};
use std::alloc::{AllocError, Global};

/// What is certified: an image, for a program.
#[derive(Drop)]
struct Subject {
    program: Program,
    image: Image,
}

/// Reads the files of a program and of an image.
fn subject_in<S: Store>(
    alloc: Global,
    store: &mut S,
    program: &str,
    image: &str,
) -> Result<Subject, Answer>
    ensures files { S.told store.new ≡ S.told store.old }
    ensures answer { MatchResult result
        (λ subject. IsImage subject.image
        × HasProgram (S.told store.old) program.now subject.program
        × HasImage (S.told store.old) image.now subject.image)
        (Uncertified (record { told = S.told store.old; before = S.faults store.old; now = S.faults store.new; failed = S.failed store.new }) program.now image.now) }
{
    let program = program_in(alloc, store, program)?;
    match image_in(alloc, store, image) {
        Ok(image) => Ok(Subject { program, image }),
        Err(answer) => Err(answer),
    }
}

// Which of the two answers there is.
fn fit_answer(fit: Fit) -> Answer
    ensures { result ≡ fit_answer fit }
{
    match fit {
        Fit::Yes => Answer::Done,
        Fit::No { .. } => Answer::Broken,
    }
}

// The line that tells it.
fn fit_line(alloc: Global, fit: Fit) -> Result<Vec<u8>, AllocError>
    ensures { IfOk result (λ text. text.items ≡ fit_line fit) }
{
    let mut out = Vec::new(alloc);
    match fit {
        Fit::Yes => push_line(&mut out, "fits", &[])?,
        Fit::No { pc, rule } => {
            let rule = Word::Number(u64::from(rule));
            push_line(
                &mut out,
                "unfit",
                &[Word::Hex(pc), Word::Text("rule"), rule],
            )?;
        }
    }
    Ok(out)
}

// Puts the line.
fn tell<O: Sink>(alloc: Global, out: &mut O, fit: Fit) -> Answer
    ensures { Certified fit
        (record { told = O.told out.old; left = O.told out.new; before = O.faults out.old; now = O.faults out.new })
        result }
{
    let Ok(text) = fit_line(alloc, fit) else {
        return Answer::Memory;
    };
    match out.put(alloc, &text) {
        Ok(()) => fit_answer(fit),
        Err(SinkErr::Failed) => Answer::SinkFault,
        Err(SinkErr::Memory) => Answer::Memory,
    }
}

/// Puts whether an image fits a program, or else where it breaks which rule first.
pub fn certify<S: Store, O: Sink>(
    alloc: Global,
    store: &mut S,
    out: &mut O,
    program: &str,
    image: &str,
) -> Answer
    ensures files { S.told store.new ≡ S.told store.old }
    ensures cause { CertifyCause
        (record { told = S.told store.old; before = S.faults store.old; now = S.faults store.new; failed = S.failed store.new })
        program.now
        image.now
        (record { told = O.told out.old; left = O.told out.new; before = O.faults out.old; now = O.faults out.new })
        result }
{
    let subject = match subject_in(alloc, store, program, image) {
        Ok(subject) => subject,
        Err(answer) => return answer,
    };
    let fit = certify::certify(&subject.program, &subject.image);
    tell(alloc, out, fit)
}
