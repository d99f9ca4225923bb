//! A run of a speculative machine: it is given events until it has come far enough, and then told of
//! by a report. It is driven as a [`Pair`], which squashes nothing where its image fits and is met.
ghost use Rattle.std.specs.Prelude.{◌≡◌, ◌+◌, ◌%◌, ◌<◌, ◌≤◌, ◌^◌, ℕ, false, [], length, drop, slice_get, Some, IfOk, OnOk, IfErr};
ghost use Rattle.outside.specs.Answers.{Gains};
ghost use Rattle.command_line.specs.Command.{shown_run};
ghost use Rattle.cells.specs.Run.{is_over};
ghost use Rattle.dist_image.specs.Image.{IsImage};
ghost use Rattle.speculation.specs.Engine.{fresh};
ghost use Rattle.speculation.specs.Rounds.{round};
ghost use Rattle.speculation_schedules.specs.Schedule.{has_come};
ghost use Rattle.engine.specs.Whole.{start_of, model_of, world_of, image_of, slaves_of};
ghost use Rattle.report.specs.Events.{summary_text};
ghost use Rattle.speculative_runs.specs.Told.{Reads, Puts, Written};
ghost use Rattle.speculative_runs.specs.Driven.{Stops};
ghost use Rattle.speculative_runs.specs.Speculated.{schedule_of, events_of, models_of, Came, CutShort, Unwritten, Speculated};

use crate::driving::{put_from, stand};
use answers::{Answer, Source};
use command_line::Run;
use event_list::Event;
use memory::Memory;
use nosquash::{Effect, Pair};
use outside::{Sink, Store, StoreErr};
use report::summary_bytes;
use std::alloc::Global;

/// Which events a machine is given.
#[derive(Clone, Copy)]
pub enum Schedule {
    /// Rounds, in which each actor has its turn.
    Rounds,
    /// Serial steps alone.
    Alone,
}

// The events that a run is given.
fn schedule_of(run: &Run<'_>) -> Schedule
    ensures { result ≡ schedule_of (shown_run run.now).image }
{
    match run.image {
        Some(_) => Schedule::Rounds,
        None => Schedule::Alone,
    }
}

/// The event at a place of a round, which has as many as there are slaves and seven more, and the place behind it: rounds
/// follow one another.
#[inline(always)]
pub fn turn(slaves: u8, place: u8) -> (Event, u8)
    requires few { slaves ≤ 64 }
    requires place { place < slaves + 7 }
    ensures event { slice_get (round slaves) place ≡ Some result.0 }
    ensures within { result.1 < slaves + 7 }
    ensures next { (k : ℕ) → k % (slaves + 7) ≡ place → (k + 1) % (slaves + 7) ≡ result.1 }
{
    let slave = place.wrapping_sub(6);
    if slave < slaves {
        return (Event::Slave(slave), place + 1);
    }
    match place {
        0 => (Event::Restart, 1),
        1 => (Event::Serial, 2),
        2 | 3 | 4 | 5 => (Event::Master, place + 1),
        _ => (Event::Commit, 0),
    }
}

// The event of a schedule at a place of its rounds, and the place behind it.
#[inline(always)]
fn event_at(schedule: Schedule, slaves: u8, place: u8) -> (Event, u8)
    requires few { slaves ≤ 64 }
    requires place { place < slaves + 7 }
    ensures event { (k : ℕ) → k % (slaves + 7) ≡ place → result.0 ≡ events_of schedule slaves k }
    ensures within { result.1 < slaves + 7 }
    ensures next { (k : ℕ) → k % (slaves + 7) ≡ place → (k + 1) % (slaves + 7) ≡ result.1 }
{
    let (event, next) = turn(slaves, place);
    match schedule {
        Schedule::Rounds => (event, next),
        Schedule::Alone => (Event::Serial, next),
    }
}

/// Whether the machine has ended, or stands at this position or past it.
#[inline(always)]
pub fn has_come<M: Memory>(pair: &Pair<M>, far: u64) -> bool
    ensures { result ≡ has_come far (model_of M.at pair.now.engine) }
{
    let machine = pair.engine().committed();
    machine.end.is_some() || far <= machine.position
}

/// Puts the output from a place on, and gives its length.
///
/// # Errors
///
/// The answer that stops the run: the sink failed, or there was no memory.
#[inline(always)]
pub fn put_new<O: Sink, M: Memory>(
    alloc: Global,
    out: &mut O,
    pair: &Pair<M>,
    from: usize,
) -> Result<usize, Answer>
    requires { from ≤ length (model_of M.at pair.now.engine).committed.env.output }
    ensures length { IfOk result (λ n. n ≡ length (model_of M.at pair.now.engine).committed.env.output) }
    ensures ok { OnOk result (Gains (O.told out.old) (O.told out.new)
        (drop from (model_of M.at pair.now.engine).committed.env.output)) }
    ensures err { IfErr result (Stops (O.told out.old) (O.told out.new) (O.faults out.old) (O.faults out.new)
        (drop from (model_of M.at pair.now.engine).committed.env.output)) }
    ensures faults { O.faults out.old ≤ O.faults out.new }
{
    let machine = pair.engine().committed();
    match put_from(alloc, out, &machine.out, from) {
        Ok(()) => Ok(machine.out.len()),
        Err(answer) => Err(answer),
    }
}

/// Puts the output from a place on behind an event, and gives its length. Behind an idle event there is
/// none: nothing is put, and no sink is asked.
///
/// # Errors
///
/// The answer that stops the run: the sink failed, or there was no memory.
#[inline(always)]
pub fn put_after<O: Sink, M: Memory>(
    alloc: Global,
    out: &mut O,
    pair: &Pair<M>,
    effect: Effect,
    from: usize,
) -> Result<usize, Answer>
    requires from { from ≤ length (model_of M.at pair.now.engine).committed.env.output }
    requires idle { effect ≡ Effect.Idle
        → from ≡ length (model_of M.at pair.now.engine).committed.env.output }
    ensures length { IfOk result (λ n. n ≡ length (model_of M.at pair.now.engine).committed.env.output) }
    ensures ok { OnOk result (Gains (O.told out.old) (O.told out.new)
        (drop from (model_of M.at pair.now.engine).committed.env.output)) }
    ensures err { IfErr result (Stops (O.told out.old) (O.told out.new) (O.faults out.old) (O.faults out.new)
        (drop from (model_of M.at pair.now.engine).committed.env.output)) }
    ensures faults { O.faults out.old ≤ O.faults out.new }
{
    match effect {
        Effect::Idle => Ok(from),
        _ => put_new(alloc, out, pair, from),
    }
}

/// Gives the pair events until its run has ended or stands at the budget or past it, and puts its
/// output as it comes.
fn advance<O: Sink, M: Memory>(
    alloc: Global,
    pair: &mut Pair<M>,
    schedule: Schedule,
    slaves: u8,
    budget: u64,
    out: &mut O,
) -> Result<(), Answer>
    requires fresh { model_of M.at pair.old.engine ≡ fresh (world_of M.at pair.old.engine) }
    requires image { IsImage (image_of pair.old.engine) }
    requires running { is_over (start_of M.at pair.old.engine) ≡ false }
    requires silent { (start_of M.at pair.old.engine).env.output ≡ [] }
    requires slaves { slaves ≡ slaves_of pair.old.engine }
    requires some { 1 ≤ slaves }
    requires few { slaves ≤ 64 }
    requires least { 1 ≤ budget }
    requires most { budget ≤ 10 ^ 12 }
    ensures ok { OnOk result (Came (world_of M.at pair.old.engine) (models_of M.at schedule pair.old.engine)
        budget (model_of M.at pair.new.engine) (O.told out.old) (O.told out.new)) }
    ensures err { IfErr result (CutShort (world_of M.at pair.old.engine)
        (models_of M.at schedule pair.old.engine) budget
        (record {
          told = O.told out.old;
          left = O.told out.new;
          before = O.faults out.old;
          now = O.faults out.new;
        })) }
{
    match schedule {
        Schedule::Rounds => advance_by(alloc, pair, Schedule::Rounds, slaves, budget, out),
        Schedule::Alone => advance_by(alloc, pair, Schedule::Alone, slaves, budget, out),
    }
}

// The same, where the schedule is known as this is compiled: no event asks which it is.
#[inline(always)]
fn advance_by<O: Sink, M: Memory>(
    alloc: Global,
    pair: &mut Pair<M>,
    schedule: Schedule,
    slaves: u8,
    budget: u64,
    out: &mut O,
) -> Result<(), Answer>
    requires fresh { model_of M.at pair.old.engine ≡ fresh (world_of M.at pair.old.engine) }
    requires image { IsImage (image_of pair.old.engine) }
    requires running { is_over (start_of M.at pair.old.engine) ≡ false }
    requires silent { (start_of M.at pair.old.engine).env.output ≡ [] }
    requires slaves { slaves ≡ slaves_of pair.old.engine }
    requires some { 1 ≤ slaves }
    requires few { slaves ≤ 64 }
    requires least { 1 ≤ budget }
    requires most { budget ≤ 10 ^ 12 }
    ensures ok { OnOk result (Came (world_of M.at pair.old.engine) (models_of M.at schedule pair.old.engine)
        budget (model_of M.at pair.new.engine) (O.told out.old) (O.told out.new)) }
    ensures err { IfErr result (CutShort (world_of M.at pair.old.engine)
        (models_of M.at schedule pair.old.engine) budget
        (record {
          told = O.told out.old;
          left = O.told out.new;
          before = O.faults out.old;
          now = O.faults out.new;
        })) }
{
    let mut given: u64 = 0;
    let mut place = 0;
    let mut put = 0;
    while !has_come(pair, budget) {
        let (e, next) = event_at(schedule, slaves, place);
        let effect = match pair.event(alloc, e) {
            Ok(effect) => effect,
            Err(_) => return Err(Answer::Memory),
        };
        match put_after(alloc, out, pair, effect, put) {
            Ok(length) => put = length,
            Err(answer) => return Err(answer),
        }
        place = next;
        given += 1;
    }
    Ok(())
}

/// Writes the lines that sum up what the pair did.
///
/// # Errors
///
/// The answer that stops the command: the store failed, or there was no memory.
pub fn write_report<S: Store, M: Memory>(
    alloc: Global,
    store: &mut S,
    name: &str,
    pair: &Pair<M>,
) -> Result<(), Answer>
    ensures ok { OnOk result (Written (S.told store.old) (S.told store.new) name.now
        (summary_text (model_of M.at pair.now.engine))) }
    ensures err { IfErr result (Unwritten
        (record { told = S.told store.old; before = S.faults store.old; now = S.faults store.new; failed = S.failed store.new }) (S.told store.new) name.now) }
{
    let Ok(text) = summary_bytes(alloc, pair.engine()) else {
        return Err(Answer::Memory);
    };
    match store.write(alloc, name, &text) {
        Ok(()) => Ok(()),
        Err(StoreErr::Memory) => Err(Answer::Memory),
        Err(_) => Err(Answer::StoreFault(Source::Report)),
    }
}

/// Runs a pair that has had no event, in rounds beside an image and else by serial steps alone,
/// puts its output as it comes, and writes a report of that name.
pub fn speculate<S: Store, O: Sink, M: Memory>(
    alloc: Global,
    store: &mut S,
    out: &mut O,
    pair: &mut Pair<M>,
    run: &Run<'_>,
    name: &str,
) -> Answer
    requires fresh { model_of M.at pair.old.engine ≡ fresh (world_of M.at pair.old.engine) }
    requires image { IsImage (image_of pair.old.engine) }
    requires running { is_over (start_of M.at pair.old.engine) ≡ false }
    requires silent { (start_of M.at pair.old.engine).env.output ≡ [] }
    requires slaves { run.now.slaves ≡ slaves_of pair.old.engine }
    ensures { Speculated (world_of M.at pair.old.engine)
        (models_of M.at (schedule_of (shown_run run.now).image) pair.old.engine) run.now.budget name.now
        (record { told = S.told store.old; before = S.faults store.old; now = S.faults store.new; failed = S.failed store.new })
        (S.told store.new)
        (record { told = O.told out.old; left = O.told out.new; before = O.faults out.old; now = O.faults out.new })
        result }
{
    let schedule = schedule_of(run);
    match advance(alloc, pair, schedule, run.slaves, run.budget, out) {
        Ok(()) => {}
        Err(answer) => return answer,
    }
    match write_report(alloc, store, name, pair) {
        Ok(()) => stand(pair.engine().committed()),
        Err(answer) => answer,
    }
}
