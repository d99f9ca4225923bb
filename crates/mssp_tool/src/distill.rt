//! `distill`: a program, a profile and values of loads, and the file that their image is written to.
ghost use Rattle.std.specs.Prelude.{◌≡◌, ◌≤◌, Some, MatchResult};
ghost use Rattle.command_line.specs.Command.{shown_distill};
ghost use Rattle.dist_image.specs.Bytes.{bytes_of};
ghost use Rattle.dist_image.specs.Image.{IsImage};
ghost use Rattle.distiller.specs.Asked.{IsInRange};
ghost use Rattle.speculative_runs.specs.Told.{Reads, OnlyChanges};
ghost use Rattle.mssp_tool.specs.Files.{HasProgram, HasProfile, Saved, AreNamedValues};
ghost use Rattle.mssp_tool.specs.Distill.{Undistilled, options_of, DistillCause};

use crate::output::save;
use crate::reading::{named_values_in, profile_in, program_in};
use answers::{Answer, Refusal};
use command_line::Distill;
use dist_image::{Image, write_image};
use distiller::{DistillErr, Options, distill_same};
use elf_reader::Program;
use outside::Store;
use profile_data::Profile;
use std::alloc::Global;

/// What is distilled: a program, a profile of it, and the values of its loads of one value.
#[derive(Drop)]
struct Subject {
    program: Program,
    profile: Profile,
    values: Vec<(u32, u32)>,
}

/// Reads the files of a distillation.
fn subject_in<S: Store>(
    alloc: Global,
    store: &mut S,
    distill: &Distill<'_>,
) -> Result<Subject, Answer>
    ensures files { S.told store.new ≡ S.told store.old }
    ensures answer { MatchResult result
        (λ subject. HasProgram (S.told store.old) (shown_distill distill.now).program subject.program
        × HasProfile (S.told store.old) (shown_distill distill.now).profile subject.profile
        × AreNamedValues (S.told store.old) (shown_distill distill.now).values subject.values.items)
        (Undistilled (record { told = S.told store.old; before = S.faults store.old; now = S.faults store.new; failed = S.failed store.new }) (shown_distill distill.now)) }
    ensures faults { S.faults store.old ≤ S.faults store.new }
{
    let program = program_in(alloc, store, distill.program)?;
    let profile = match profile_in(alloc, store, distill.profile) {
        Ok(profile) => profile,
        Err(answer) => return Err(answer),
    };
    match named_values_in(alloc, store, distill.values) {
        Ok(values) => Ok(Subject {
            program,
            profile,
            values,
        }),
        Err(answer) => Err(answer),
    }
}

// What the distiller is asked for.
fn options_of(distill: &Distill<'_>) -> Options
    ensures options { result ≡ options_of (shown_distill distill.now) }
    ensures in_range { IsInRange result }
{
    Options {
        rare: distill.rare,
        hot: distill.hot,
        goal: distill.goal,
        limit: distill.limit,
    }
}

/// Writes the bytes of an image under that name.
fn save_image<S: Store>(alloc: Global, store: &mut S, name: &str, image: &Image) -> Answer
    requires { IsImage image.now }
    ensures { Saved
        (record { told = S.told store.old; before = S.faults store.old; now = S.faults store.new; failed = S.failed store.new })
        (S.told store.new) name.now (bytes_of image.now) result }
{
    match write_image(alloc, image) {
        Ok(bytes) => save(alloc, store, name, &bytes),
        Err(_) => Answer::Memory,
    }
}

/// Writes the image of a program and a profile, with the values of loads that are named.
pub fn distill<S: Store>(alloc: Global, store: &mut S, distill: &Distill<'_>) -> Answer
    ensures files { OnlyChanges (S.told store.old) (S.told store.new)
        (Some (shown_distill distill.now).output) }
    ensures cause { DistillCause
        (record { told = S.told store.old; before = S.faults store.old; now = S.faults store.new; failed = S.failed store.new })
        (S.told store.new)
        (shown_distill distill.now)
        result }
{
    let subject = match subject_in(alloc, store, distill) {
        Ok(subject) => subject,
        Err(answer) => return answer,
    };
    let options = options_of(distill);
    let same = subject.values.as_slice();
    match distill_same(alloc, &subject.program, &subject.profile, same, &options) {
        Ok(image) => save_image(alloc, store, distill.output, &image),
        Err(DistillErr::Empty) => Answer::Refused(Refusal::Empty),
        Err(DistillErr::Memory) => Answer::Memory,
    }
}
