//! The files that commands read: each is read, and tested before the next is read.
ghost use Rattle.std.specs.Prelude.{◌≡◌, ◌≤◌, option_copied, MatchResult};
ghost use Rattle.dist_image.specs.Image.{IsImage};
ghost use Rattle.elf_reader.specs.Executable.{IsProgram};
ghost use Rattle.event_list.specs.Reading.{AreEvents};
ghost use Rattle.speculative_runs.specs.Told.{Reads};
ghost use Rattle.mssp_tool.specs.Files.{IsReadFrom, NotRead, HasProgram, NoProgram, HasImage, NoImage, IsNamedImage, NoNamedImage, HasEvents, NoEvents, HasProfile, NoProfile, IsInput, NoInput, HasValues, NoValues, AreNamedValues, NoNamedValues};

use answers::{Answer, Refusal, Source};
use dist_image::{Image, ImageErr, empty_image, read_image};
use elf_reader::{ElfErr, Program, read_elf};
use event_list::{Event, EventErr, read_events};
use load_values::{ValuesErr, read_values};
use outside::{Store, StoreErr};
use profile_data::{Profile, ProfileErr, read_profile};
use std::alloc::Global;

/// The longest program file that is read.
const PROGRAM_LIMIT: u64 = 16_777_216;

/// The longest image file that is read.
const IMAGE_LIMIT: u64 = 67_108_864;

/// The longest list of events that is read.
const EVENTS_LIMIT: u64 = 67_108_864;

/// The longest profile that is read.
const PROFILE_LIMIT: u64 = 33_554_432;

/// The longest list of values that is read.
const VALUES_LIMIT: u64 = 8_388_608;

/// The longest input file that is read.
const INPUT_LIMIT: u64 = 67_108_864;

fn read<S: Store>(
    alloc: Global,
    store: &mut S,
    name: &str,
    limit: u64,
    source: Source,
) -> Result<Vec<u8>, Answer>
    ensures files { S.told store.new ≡ S.told store.old }
    ensures answer { MatchResult result
        (λ v. IsReadFrom (S.told store.old) name.now limit v.items)
        (NotRead (record { told = S.told store.old; before = S.faults store.old; now = S.faults store.new; failed = S.failed store.new }) name.now limit source) }
    ensures faults { S.faults store.old ≤ S.faults store.new }
{
    match store.read(alloc, name, limit) {
        Ok(bytes) => Ok(bytes),
        Err(StoreErr::Absent) => Err(Answer::Absent(source)),
        Err(StoreErr::TooLong) => Err(Answer::TooLong(source)),
        Err(StoreErr::Failed) => Err(Answer::StoreFault(source)),
        Err(StoreErr::Memory) => Err(Answer::Memory),
    }
}

/// The program of that name.
pub fn program_in<S: Store>(alloc: Global, store: &mut S, name: &str) -> Result<Program, Answer>
    ensures files { S.told store.new ≡ S.told store.old }
    ensures answer { MatchResult result
        (λ p. IsProgram p × HasProgram (S.told store.old) name.now p)
        (NoProgram (record { told = S.told store.old; before = S.faults store.old; now = S.faults store.new; failed = S.failed store.new }) name.now) }
    ensures faults { S.faults store.old ≤ S.faults store.new }
{
    let file = read(alloc, store, name, PROGRAM_LIMIT, Source::Program)?;
    match read_elf(alloc, &file) {
        Ok(program) => Ok(program),
        Err(ElfErr::Memory) => Err(Answer::Memory),
        Err(refusal) => Err(Answer::Refused(Refusal::Program(refusal))),
    }
}

/// The image of that name.
pub fn image_in<S: Store>(alloc: Global, store: &mut S, name: &str) -> Result<Image, Answer>
    ensures files { S.told store.new ≡ S.told store.old }
    ensures answer { MatchResult result
        (λ i. IsImage i × HasImage (S.told store.old) name.now i)
        (NoImage (record { told = S.told store.old; before = S.faults store.old; now = S.faults store.new; failed = S.failed store.new }) name.now) }
    ensures faults { S.faults store.old ≤ S.faults store.new }
{
    let file = read(alloc, store, name, IMAGE_LIMIT, Source::Image)?;
    match read_image(alloc, &file) {
        Ok(image) => Ok(image),
        Err(ImageErr::Memory) => Err(Answer::Memory),
        Err(refusal) => Err(Answer::Refused(Refusal::Image(refusal))),
    }
}

/// The image of that name, or the empty one where none is named.
pub fn named_image_in<S: Store>(
    alloc: Global,
    store: &mut S,
    name: Option<&str>,
) -> Result<Image, Answer>
    ensures files { S.told store.new ≡ S.told store.old }
    ensures answer { MatchResult result
        (λ i. IsImage i × IsNamedImage (S.told store.old) (option_copied name.entry) i)
        (NoNamedImage (record { told = S.told store.old; before = S.faults store.old; now = S.faults store.new; failed = S.failed store.new }) (option_copied name.entry)) }
    ensures faults { S.faults store.old ≤ S.faults store.new }
{
    match name {
        Some(name) => image_in(alloc, store, name),
        None => Ok(empty_image(alloc)),
    }
}

/// The list of events of that name.
pub fn events_in<S: Store>(
    alloc: Global,
    store: &mut S,
    name: &str,
) -> Result<Vec<(u32, Event)>, Answer>
    ensures files { S.told store.new ≡ S.told store.old }
    ensures answer { MatchResult result
        (λ list. AreEvents list.items × HasEvents (S.told store.old) name.now list.items)
        (NoEvents (record { told = S.told store.old; before = S.faults store.old; now = S.faults store.new; failed = S.failed store.new }) name.now) }
    ensures faults { S.faults store.old ≤ S.faults store.new }
{
    let file = read(alloc, store, name, EVENTS_LIMIT, Source::Events)?;
    match read_events(alloc, &file) {
        Ok(list) => Ok(list),
        Err(EventErr::Memory) => Err(Answer::Memory),
        Err(refusal) => Err(Answer::Refused(Refusal::Events(refusal))),
    }
}

/// The profile of that name.
pub fn profile_in<S: Store>(alloc: Global, store: &mut S, name: &str) -> Result<Profile, Answer>
    ensures files { S.told store.new ≡ S.told store.old }
    ensures answer { MatchResult result
        (HasProfile (S.told store.old) name.now)
        (NoProfile (record { told = S.told store.old; before = S.faults store.old; now = S.faults store.new; failed = S.failed store.new }) name.now) }
    ensures faults { S.faults store.old ≤ S.faults store.new }
{
    let file = read(alloc, store, name, PROFILE_LIMIT, Source::Profile)?;
    match read_profile(alloc, &file) {
        Ok(profile) => Ok(profile),
        Err(ProfileErr::Memory) => Err(Answer::Memory),
        Err(refusal) => Err(Answer::Refused(Refusal::Profile(refusal))),
    }
}

/// The values of loads of that name.
fn values_in<S: Store>(alloc: Global, store: &mut S, name: &str) -> Result<Vec<(u32, u32)>, Answer>
    ensures files { S.told store.new ≡ S.told store.old }
    ensures answer { MatchResult result
        (λ rows. HasValues (S.told store.old) name.now rows.items)
        (NoValues (record { told = S.told store.old; before = S.faults store.old; now = S.faults store.new; failed = S.failed store.new }) name.now) }
    ensures faults { S.faults store.old ≤ S.faults store.new }
{
    let file = read(alloc, store, name, VALUES_LIMIT, Source::Values)?;
    match read_values(alloc, &file) {
        Ok(rows) => Ok(rows),
        Err(ValuesErr::Memory) => Err(Answer::Memory),
        Err(refusal) => Err(Answer::Refused(Refusal::Values(refusal))),
    }
}

/// The values of loads of that name, or none where none are named.
pub fn named_values_in<S: Store>(
    alloc: Global,
    store: &mut S,
    name: Option<&str>,
) -> Result<Vec<(u32, u32)>, Answer>
    ensures files { S.told store.new ≡ S.told store.old }
    ensures answer { MatchResult result
        (λ rows. AreNamedValues (S.told store.old) (option_copied name.entry) rows.items)
        (NoNamedValues (record { told = S.told store.old; before = S.faults store.old; now = S.faults store.new; failed = S.failed store.new }) (option_copied name.entry)) }
    ensures faults { S.faults store.old ≤ S.faults store.new }
{
    match name {
        Some(name) => values_in(alloc, store, name),
        None => Ok(Vec::new(alloc)),
    }
}

/// The input of that name, or an empty one where none is named.
pub fn input_in<S: Store>(
    alloc: Global,
    store: &mut S,
    name: Option<&str>,
) -> Result<Vec<u8>, Answer>
    ensures files { S.told store.new ≡ S.told store.old }
    ensures answer { MatchResult result
        (λ v. IsInput (S.told store.old) (option_copied name.entry) v.items)
        (NoInput (record { told = S.told store.old; before = S.faults store.old; now = S.faults store.new; failed = S.failed store.new }) (option_copied name.entry)) }
    ensures faults { S.faults store.old ≤ S.faults store.new }
{
    match name {
        Some(name) => read(alloc, store, name, INPUT_LIMIT, Source::Input),
        None => Ok(Vec::new(alloc)),
    }
}
