//! The run, looked at position after position.

ghost use Rattle.std.specs.Prelude.{◌≡◌, ℕ, ◌+◌, ◌-◌, ◌%◌, ◌<◌, ◌≤◌, ◌^◌, ◌||◌, IfOk, OnOk, IsNone};
ghost use Rattle.rv_semantics.specs.Effect.{is_store};
ghost use Rattle.std.specs.List.{list_any};
ghost use Rattle.cells.specs.Run.{is_end};
ghost use Rattle.seq_machine.specs.States.{arch_at, state_of};
ghost use Rattle.profile_laws.specs.Tally.{stored, is_register_jump};
ghost use Rattle.dist_image.specs.Image.{IsImage};
ghost use Rattle.assumption_laws.specs.Looks.{side, load_of, fails_by, first_from};
ghost use Rattle.fitting.specs.Fits.{is_analysed};
ghost use Rattle.access_trace.specs.Spans.{span_of};
ghost use Rattle.assume_list.specs.Marks.{is_dead_store, IsMark, AreMarked};
ghost use Rattle.assume_list.specs.Places.{AreKnown};
ghost use Rattle.assume_list.specs.Watched.{look_of, IsBegun, HasStepped, AreMarksAfter};
ghost use Rattle.assume_list.specs.Sights.{is_code, is_within, is_same, inst_of, is_at_call, is_at_stop, is_changed, loaded_at};

use crate::instruction::{is_register_jump, is_stopping_call, load_of, side};
use crate::pcs::Pcs;
use crate::read::read_marks;
use crate::sight::{Listed, Sight, first_failing, is_analysed, look_up};
use access_trace::{ByteRange, Shadow, is_store, loaded, stored};
use cells::End;
use dist_image::Image;
use memory::Memory;
use rv_word::decode;
use seq_machine::Machine;
use std::alloc::{AllocError, Global};

/// What is known of a position before its step.
#[derive(Clone, Copy)]
struct Coming {
    /// It is a call that no task does.
    calls: bool,
    side: Option<bool>,
    jumps: bool,
    changed: bool,
    load: Option<u32>,
    loads: ByteRange,
    puts: ByteRange,
    stores: bool,
}

// What the instruction at the machine's pc is about to do.
fn look_ahead<M: Memory>(
    machine: &mut Machine<M>,
    program: &mut M,
    image: &Image,
    pcs: &mut Pcs,
) -> Coming
    requires image { IsImage image.now }
    requires known { AreKnown pcs.old image.now }
    ensures state { state_of M.at machine.new ≡ state_of M.at machine.old }
    ensures position { machine.new.position ≡ machine.old.position }
    ensures program { M.at program.new ≡ M.at program.old }
    ensures known { AreKnown pcs.new image.now }
    ensures calls { result.calls ≡ is_at_call M.at image.now machine.old }
    ensures side { result.side ≡ side (inst_of M.at machine.old) (arch_at M.at machine.old.arch) }
    ensures jumps { result.jumps ≡ is_register_jump (inst_of M.at machine.old) }
    ensures changed { result.changed ≡ is_changed M.at program.old machine.old }
    ensures load { result.load ≡ load_of (inst_of M.at machine.old) (arch_at M.at machine.old.arch) }
    ensures loads { span_of result.loads ≡ loaded_at M.at image.now machine.old }
    ensures puts { span_of result.puts ≡ stored (inst_of M.at machine.old) (state_of M.at machine.old) }
    ensures few { result.puts.count ≤ 65_536 }
    ensures stores { result.stores ≡ is_store (inst_of M.at machine.old) }
{
    let pc = machine.arch.pc;
    let word = machine.arch.mem.fetch(pc);
    let inst = decode(word);
    let asks = pcs.asks(image, inst, pc);
    Coming {
        calls: is_stopping_call(asks, inst, &machine.arch),
        side: side(inst, &machine.arch),
        jumps: is_register_jump(inst),
        changed: word != program.fetch(pc),
        load: load_of(inst, &machine.arch),
        loads: loaded(asks, inst, &machine.arch),
        puts: stored(inst, machine),
        stores: is_store(inst),
    }
}

/// Whether a step stops every task: it is a call that none does, or ended the run.
pub(crate) fn stops(calls: bool, end: Option<End>) -> bool
    ensures { result ≡ (calls || is_end end) }
{
    calls || end.is_some()
}

// What the bytes that a step puts are marked with: 1 more than the pc of a store that is claimed dead, and else 0.
#[inline(always)]
fn mark_of(dead: bool, pc: u32) -> u32
    requires { pc % 4 ≡ 0 }
    ensures mark { IsMark dead pc result }
    ensures small { result < 2 ^ 32 - 1 }
{
    if dead { pc + 1 } else { 0 }
}

// Marks the bytes that are put, unless it is seen at once that they have the mark already.
fn mark<M: Memory>(
    alloc: Global,
    marks: &mut Shadow<M>,
    dead: bool,
    pc: u32,
    coming: &Coming,
) -> Result<(), AllocError>
    requires { pc % 4 ≡ 0 }
    ensures { (claimed : ℕ → ℕ) → dead ≡ is_dead_store coming.now.stores claimed pc
        → OnOk result (AreMarked M.at coming.now claimed pc marks.old marks.new) }
{
    let puts = coming.puts;
    let mark = mark_of(dead, pc);
    if puts.count == 0 || marks.common(puts) == Some(mark) {
        return Ok(());
    }
    marks.put(alloc, puts, mark)
}

/// What is seen of a step.
#[derive(Clone, Copy)]
pub(crate) struct Seen {
    /// It is a call that no task does, or ends the run.
    pub stops: bool,
    /// The number of the first assumption other than Span that fails there.
    pub first: Option<u32>,
}

/// A run that is looked at.
#[derive(Drop)]
pub(crate) struct Watch<M: Memory> {
    pub machine: Machine<M>,
    /// The memory at the start of the run.
    pub program: M,
    pub marks: Shadow<M>,
    pub read: Vec<u32>,
    /// The machine's pc is analysed.
    pub analysed: bool,
    pub listed: Listed,
}

impl<M: Memory> Watch<M> {
    /// A run that begins.
    pub(crate) fn new(alloc: Global, machine: Machine<M>, image: &Image) -> Result<Self, AllocError>
        requires image { IsImage image.now }
        requires position { machine.position ≡ 0 }
        ensures state { IfOk result (λ w. state_of M.at w.machine ≡ state_of M.at machine) }
        ensures position { IfOk result (λ w. w.machine.position ≡ 0) }
        ensures code { IfOk result (λ w. w.listed.code ≡ list_any is_code image.now.assumptions) }
        ensures within { IfOk result (λ w. w.listed.within ≡ list_any is_within image.now.assumptions) }
        ensures same { IfOk result (λ w. w.listed.same ≡ list_any is_same image.now.assumptions) }
        ensures watched { IfOk result (λ w. IsBegun M.at image.now w) }
    {
        let program = machine.arch.mem.snapshot(alloc)?;
        let analysed = is_analysed(image, machine.arch.pc);
        Ok(Watch {
            machine,
            program,
            marks: Shadow::new(alloc)?,
            read: Vec::new(alloc),
            analysed,
            listed: look_up(image),
        })
    }

    /// Looks at the position of the machine, and does its step.
    pub(crate) fn step(
        &mut self,
        alloc: Global,
        image: &Image,
        pcs: &mut Pcs,
    ) -> Result<Seen, AllocError>
        requires image { IsImage image.now }
        requires known { AreKnown pcs.old image.now }
        requires running { IsNone self.old.machine.end }
        requires room { self.old.machine.position < 2 ^ 64 - 1 }
        requires code { self.old.listed.code ≡ list_any is_code image.now.assumptions }
        requires within { self.old.listed.within ≡ list_any is_within image.now.assumptions }
        requires same { self.old.listed.same ≡ list_any is_same image.now.assumptions }
        requires analysed { self.old.analysed ≡ is_analysed image.now self.old.machine.arch.pc }
        ensures state { OnOk result (HasStepped M.at self.old self.new) }
        ensures position { OnOk result (self.new.machine.position ≡ self.old.machine.position + 1) }
        ensures near { self.new.machine.position ≤ self.old.machine.position + 1 }
        ensures known { AreKnown pcs.new image.now }
        ensures listed { self.new.listed ≡ self.old.listed }
        ensures program { M.at self.new.program ≡ M.at self.old.program }
        ensures marks { OnOk result (AreMarksAfter M.at image.now self.old self.new) }
        ensures analysed { OnOk result (self.new.analysed ≡ is_analysed image.now self.new.machine.arch.pc) }
        ensures stops { IfOk result (λ seen. seen.stops ≡ is_at_stop M.at image.now self.old.machine) }
        ensures first { IfOk result (λ seen. seen.first
            ≡ first_from (fails_by (look_of M.at image.now self.old)) 0 image.now.assumptions) }
    {
        let pc = self.machine.arch.pc;
        let coming = look_ahead(&mut self.machine, &mut self.program, image, pcs);
        read_marks(&self.marks, pc, coming.loads, &mut self.read)?;
        self.machine.one(alloc)?;
        let dead = coming.stores && pcs.is_dead(image, pc);
        mark(alloc, &mut self.marks, dead, pc, &coming)?;
        let next = self.machine.arch.pc;
        let sight = Sight {
            pc,
            stops: stops(coming.calls, self.machine.end),
            side: coming.side,
            jumps: coming.jumps,
            changed: coming.changed,
            analysed: self.analysed,
            next,
            stays: pcs.is_noted(image, next),
            load: coming.load,
        };
        self.analysed = sight.stays;
        Ok(Seen {
            stops: sight.stops,
            first: first_failing(&sight, &self.read, image, self.listed),
        })
    }
}
