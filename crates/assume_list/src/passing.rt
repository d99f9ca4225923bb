//! The pass over the positions of a run, and the wait for the anchors that stand before them.

ghost use Rattle.std.specs.Prelude.{◌≡◌, ◌+◌, ◌-◌, ◌<◌, ◌≤◌, ◌^◌, max, [], ◌&&◌, not, nat_lt, OnOk, IfOk, IsNone};
ghost use Rattle.std.specs.List.{list_any};
ghost use Rattle.cells.specs.Run.{State, is_end};
ghost use Rattle.assume_list.specs.Sights.{is_code, is_within, is_same, is_at_call, is_at_stop};
ghost use Rattle.rv_semantics.specs.Calls.{step as next_state};
ghost use Rattle.seq_machine.specs.States.{state_of};
ghost use Rattle.dist_image.specs.Image.{IsImage};
ghost use Rattle.assume_list.specs.Watched.{IsBegun};
ghost use Rattle.assume_list.specs.Places.{AreKnown};
ghost use Rattle.assume_list.specs.Shown.{IsEarly, shown};
ghost use Rattle.assume_list.specs.Passes.{asked_below, bound_after, is_awaited, IsTurned, IsPassed, HasCome, IsAwaited, IsAwake};

use crate::instruction::is_stopping_call;
use crate::pcs::Pcs;
use crate::waits::Waits;
use crate::watch::{Watch, stops};
use dist_image::Image;
use memory::Memory;
use rv_word::decode;
use seq_machine::Machine;
use std::alloc::{AllocError, Global};

/// What a pass came to.
#[derive(Clone, Copy, Drop)]
pub(crate) enum Passed {
    /// Span fails at this position.
    Late(u64),
    /// Another assumption fails at the position before, and this is its number.
    Failed(u32),
    /// None fails at the positions that were passed, but for Span.
    Through,
}

/// The number of Span, and the position below which it is asked about: 0 where it is not listed.
#[derive(Clone, Copy)]
pub(crate) struct Asked {
    pub span: u32,
    pub bound: u64,
}

/// Where a step began and led.
#[derive(Clone, Copy)]
struct Turn {
    position: u64,
    pc: u32,
    stops: bool,
    next: u32,
}

// Whether the run goes on, and is at a position before `last`.
fn goes_on<M: Memory>(machine: &Machine<M>, last: u64) -> bool
    ensures { result ≡ (not (is_end machine.now.end) && nat_lt machine.now.position last) }
{
    machine.end.is_none() && machine.position < last
}

/// Where the assumption of number `which` is the first other than Span to fail at a position: the position below which Span is
/// asked about. It is asked about at the position itself where it is listed before.
pub(crate) fn asked_below(which: u32, span: u32, position: u64) -> u64
    requires { position < 2 ^ 63 }
    ensures { result ≡ asked_below which span position }
{
    if span < which { position + 1 } else { position }
}

// Only the anchors are waited for at which Span is asked about.
fn bound_after(first: Option<u32>, asked: Asked, position: u64) -> u64
    requires { position < 2 ^ 63 }
    ensures { result ≡ bound_after first asked.span asked.bound position }
{
    match first {
        None => asked.bound,
        Some(which) => asked.bound.min(asked_below(which, asked.span, position)),
    }
}

// Lets the anchors wait on by a step. Answers the position of one that has waited for the whole limit as the step begins.
fn take_turn(
    waits: &mut Waits,
    image: &Image,
    pcs: &mut Pcs,
    bound: u64,
    turn: Turn,
) -> Result<Option<u64>, AllocError>
    requires image { IsImage image.now }
    requires known { AreKnown pcs.old image.now }
    requires near { turn.position < 2 ^ 63 }
    requires arrivals { waits.old.arrivals ≤ turn.position }
    requires early { IsEarly waits.old.due waits.old.limit (shown waits.old) }
    requires limit { waits.old.limit ≡ image.now.limit }
    ensures turned { IfOk result (IsTurned image.now bound turn waits.old waits.new) }
    ensures known { AreKnown pcs.new image.now }
    ensures arrivals { OnOk result (waits.new.arrivals ≤ turn.position + 1) }
    ensures early { OnOk result (IsEarly waits.new.due waits.new.limit (shown waits.new)) }
    ensures limit { waits.new.limit ≡ waits.old.limit }
{
    let here = pcs.count(image, turn.pc);
    let arrives = pcs.count(image, turn.next).is_some();
    if waits.step(bound, turn.position, here, turn.stops, arrives)? {
        return Ok(Some(turn.position - u64::from(waits.limit)));
    }
    Ok(None)
}

/// Looks at the positions below a budget, while none is found at which an assumption fails. Of Span it is told where it fails
/// below its bound.
pub(crate) fn pass<M: Memory>(
    alloc: Global,
    watch: &mut Watch<M>,
    waits: &mut Waits,
    image: &Image,
    pcs: &mut Pcs,
    budget: u64,
    asked: Asked,
) -> Result<Passed, AllocError>
    requires image { IsImage image.now }
    requires known { AreKnown pcs.old image.now }
    requires few { budget ≤ 10 ^ 12 }
    requires bound { asked.bound ≤ budget }
    requires position { watch.old.machine.position ≡ 0 }
    requires code { watch.old.listed.code ≡ list_any is_code image.now.assumptions }
    requires within { watch.old.listed.within ≡ list_any is_within image.now.assumptions }
    requires same { watch.old.listed.same ≡ list_any is_same image.now.assumptions }
    requires watched { IsBegun M.at image.now watch.old }
    requires none { shown waits.old ≡ [] }
    requires arrivals { waits.old.arrivals ≡ 0 }
    requires early { IsEarly waits.old.due waits.old.limit (shown waits.old) }
    requires limit { waits.old.limit ≡ image.now.limit }
    ensures passed { IfOk result (IsPassed M.at image.now budget asked watch.old watch.new waits.new) }
    ensures position { watch.new.machine.position ≤ budget }
    ensures known { AreKnown pcs.new image.now }
    ensures arrivals { OnOk result (waits.new.arrivals ≤ watch.new.machine.position) }
    ensures early { OnOk result (IsEarly waits.new.due waits.new.limit (shown waits.new)) }
    ensures limit { waits.new.limit ≡ waits.old.limit }
{
    while goes_on(&watch.machine, budget) {
        let position = watch.machine.position;
        let pc = watch.machine.arch.pc;
        let seen = watch.step(alloc, image, pcs)?;
        let turn = Turn {
            position,
            pc,
            stops: seen.stops,
            next: watch.machine.arch.pc,
        };
        let until = bound_after(seen.first, asked, position);
        match take_turn(waits, image, pcs, until, turn)? {
            Some(since) => return Ok(Passed::Late(since)),
            None => {}
        }
        match seen.first {
            Some(which) => return Ok(Passed::Failed(which)),
            None => {}
        }
    }
    Ok(Passed::Through)
}

// Whether the instruction at the machine's pc is a call that no task does.
fn is_at_call<M: Memory>(machine: &mut Machine<M>, image: &Image, pcs: &mut Pcs) -> bool
    requires image { IsImage image.now }
    requires known { AreKnown pcs.old image.now }
    ensures state { state_of M.at machine.new ≡ state_of M.at machine.old }
    ensures position { machine.new.position ≡ machine.old.position }
    ensures known { AreKnown pcs.new image.now }
    ensures calls { result ≡ is_at_call M.at image.now machine.old }
{
    let pc = machine.arch.pc;
    let inst = decode(machine.arch.mem.fetch(pc));
    let asks = pcs.asks(image, inst, pc);
    is_stopping_call(asks, inst, &machine.arch)
}

// A step, without a look. Answers whether it is a call that no task does, or ends the run.
fn step_on<M: Memory>(
    alloc: Global,
    machine: &mut Machine<M>,
    image: &Image,
    pcs: &mut Pcs,
) -> Result<bool, AllocError>
    requires image { IsImage image.now }
    requires known { AreKnown pcs.old image.now }
    requires running { IsNone machine.old.end }
    requires room { machine.old.position < 2 ^ 64 - 1 }
    ensures state { OnOk result (state_of M.at machine.new ≡ next_state (state_of M.at machine.old)) }
    ensures position { OnOk result (machine.new.position ≡ machine.old.position + 1) }
    ensures near { machine.new.position ≤ machine.old.position + 1 }
    ensures known { AreKnown pcs.new image.now }
    ensures stops { IfOk result (λ stops. stops ≡ is_at_stop M.at image.now machine.old) }
{
    let calls = is_at_call(machine, image, pcs);
    machine.one(alloc)?;
    Ok(stops(calls, machine.end))
}

// Whether Span may still turn out to fail below the bound: the run goes on, and an anchor waits or may still come.
fn is_awaited<M: Memory>(machine: &Machine<M>, waits: &Waits, bound: u64, last: u64) -> bool
    ensures { result ≡ is_awaited machine.now waits.now bound last }
{
    machine.end.is_none()
        && machine.position < last
        && (machine.position < bound || waits.is_waiting())
}

/// Goes on with the run until it is told whether Span fails below the bound, and answers the first position there.
///
/// It goes no further than a task limit past the bound, and past the bound only while an anchor waits.
pub(crate) fn wait<M: Memory>(
    alloc: Global,
    machine: &mut Machine<M>,
    waits: &mut Waits,
    image: &Image,
    pcs: &mut Pcs,
    bound: u64,
) -> Result<Option<u64>, AllocError>
    requires image { IsImage image.now }
    requires known { AreKnown pcs.old image.now }
    requires few { bound ≤ 10 ^ 12 }
    requires arrivals { waits.old.arrivals ≤ machine.old.position }
    requires early { IsEarly waits.old.due waits.old.limit (shown waits.old) }
    requires limit { waits.old.limit ≡ image.now.limit }
    ensures awaited { (start : State) → HasCome M.at start image.now bound machine.old waits.old
        → IfOk result (IsAwaited start image.now bound) }
    ensures near { machine.new.position ≤ max machine.old.position (bound + image.now.limit) }
    ensures idle { (start : State) → HasCome M.at start image.now bound machine.old waits.old
        → OnOk result (IsAwake start image.now bound machine.old.position machine.new.position) }
{
    let last = bound + u64::from(waits.limit);
    while is_awaited(machine, waits, bound, last) {
        let position = machine.position;
        let pc = machine.arch.pc;
        let stops = step_on(alloc, machine, image, pcs)?;
        let turn = Turn {
            position,
            pc,
            stops,
            next: machine.arch.pc,
        };
        match take_turn(waits, image, pcs, bound, turn)? {
            Some(since) => return Ok(Some(since)),
            None => {}
        }
    }
    Ok(None)
}
