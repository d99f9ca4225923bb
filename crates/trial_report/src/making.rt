//! The program that a number makes, its profile and its image.

ghost use Rattle.std.specs.Prelude.{◌≡◌, ◌≢◌, ◌≤◌, false, [], length, IfOk, IfErr, IsErrOf};
ghost use Rattle.dist_image.specs.Image.{IsImage};
ghost use Rattle.elf_reader.specs.Executable.{IsProgram};
ghost use Rattle.profile_data.specs.Profile.{Profiled};
ghost use Rattle.profile_laws.specs.Profiles.{IsWide};
ghost use Rattle.distill_rules.specs.Analysed.{analysed};
ghost use Rattle.trial.specs.Made.{words};
ghost use Rattle.trial_report.specs.Trial.{image_of, program_made, IsRunProfile};

use crate::error::TrialErr;
use dist_image::Image;
use distiller::{DistillErr, Options, distill};
use elf_reader::{Program, read_elf};
use profile_data::Profile;
use profiler::{ProfilingErr, profile};
use std::alloc::Global;
use trial::make;

/// How many steps of the run are looked at.
pub(crate) const BUDGET: u64 = 1_000_000_000;

/// How many bytes of a program's file stand before its words.
const HEADERS: u64 = 84;

/// Nothing is cut but what never came, and tasks are short.
const OPTIONS: Options = Options {
    rare: 0,
    hot: 2,
    goal: 200,
    limit: 1_024,
};

/// A program that was made, and how many words it has.
#[derive(Drop)]
pub(crate) struct Made {
    pub program: Program,
    pub words: u64,
}

/// Makes a program from a number.
pub(crate) fn make_program(alloc: Global, seed: u64, size: u32) -> Result<Made, TrialErr>
    requires some { 1 ≤ size }
    requires few { size ≤ 10_000 }
    ensures program { IfOk result (λ made. made.program ≡ program_made seed size) }
    ensures valid { IfOk result (λ made. IsProgram made.program) }
    ensures words { IfOk result (λ made. made.words ≡ length (words seed size)) }
    ensures memory { IfErr result (λ e. e ≡ TrialErr.Memory) }
{
    let file = make(alloc, seed, size)?;
    let words = (file.len() as u64 - HEADERS) / 4;
    match read_elf(alloc, &file) {
        Ok(program) => Ok(Made { program, words }),
        Err(_) => Err(TrialErr::Memory),
    }
}

/// The profile of the program's run.
pub(crate) fn make_profile(alloc: Global, p: &Program) -> Result<Profile, TrialErr>
    requires { IsProgram p.now }
    ensures profile { IfOk result (λ f. IsRunProfile p.now f) }
    ensures narrow { IfOk result (λ f. IsWide f.rows → ⊥) }
    ensures wide { IfErr result (λ e. e ≡ TrialErr.Wide →
        (f : Profiled) → IsRunProfile p.now f → IsWide f.rows) }
    ensures never { IfErr result (λ e. e ≢ TrialErr.Empty) }
{
    match profile(alloc, p, Vec::new(alloc), BUDGET, false) {
        Ok(f) => Ok(f),
        Err(ProfilingErr::Wide) => Err(TrialErr::Wide),
        Err(ProfilingErr::Memory) => Err(TrialErr::Memory),
    }
}

/// The image of the program, by its profile.
pub(crate) fn make_image(alloc: Global, p: &Program, f: &Profile) -> Result<Image, TrialErr>
    ensures exact { IfOk result (λ image. image ≡ image_of p.now f.now) }
    ensures image { IfOk result IsImage }
    ensures some { IfOk result (λ image. analysed f.now.rows ≢ []) }
    ensures empty { IfErr result (λ e. e ≡ TrialErr.Empty → analysed f.now.rows ≡ []) }
    ensures never { IfErr result (λ e. e ≢ TrialErr.Wide) }
{
    match distill(alloc, p, f, &OPTIONS) {
        Ok(image) => Ok(image),
        Err(DistillErr::Empty) => Err(TrialErr::Empty),
        Err(DistillErr::Memory) => Err(TrialErr::Memory),
    }
}
