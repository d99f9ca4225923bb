//! What the rounds see of an instruction.

ghost use Rattle.std.specs.Prelude.{◌≡◌, IfOk, if◌then◌else◌};
ghost use Rattle.rv_word.specs.Spelling.{IsWellFormed};
ghost use Rattle.std.specs.List.Sorted.{IsStrictlyIncreasing};
ghost use Rattle.rv_semantics.specs.Prints.{is_call, task_reads, task_writes};
ghost use Rattle.distill_rules.specs.Points.{fate_of, points};
ghost use Rattle.distill_rules.specs.Solution.{IsFit, AreFit};
ghost use Rattle.cuts.specs.Listed.{IsListed};
ghost use Rattle.liveness.specs.Known.{point_known};

use cuts::{CutList, is_among};
use distill_rules::Fate;
use flow_graph::{Spot, SpotGraph};
use rv_word::{Inst, decode, reads, writes};
use std::alloc::{AllocError, Global};
use std::marker::Model;

/// What the rounds see of an instruction.
#[derive(Drop)]
pub(crate) struct FlowPoint {
    pub pc: u32,
    /// Where it leads.
    pub next: Vec<u32>,
    pub reads: u32,
    /// What it needs where it is kept.
    pub asks: u32,
    pub writes: u32,
    pub fate: Fate,
    pub is_anchor: bool,
}

impl Model for FlowPoint {
    ghost use Rattle.distill_rules.specs.Rounds.{Point};

    ghost Value = { Point };

    ghost view = { λ part. record {
      pc = part.pc;
      next = part.next.items;
      reads = part.reads;
      asks = part.asks;
      writes = part.writes;
      fate = part.fate;
      is_anchor = part.is_anchor;
    } };
}

/// The parts of all spots.
pub(crate) fn parts(
    alloc: Global,
    g: &SpotGraph,
    c: &CutList,
    anchors: &[u32],
) -> Result<Vec<FlowPoint>, AllocError>
    requires listed { IsListed c.now }
    requires anchors { IsStrictlyIncreasing anchors.now }
    ensures parts { IfOk result (λ parts. parts.items ≡ points c.now anchors.now g.now) }
    ensures fit { IfOk result (λ parts. AreFit parts.items) }
{
    let mut parts = Vec::new(alloc);
    for spot in &g.spots {
        let known = Known {
            cut: c.side(spot.pc),
            dead: c.is_dead(spot.pc),
            prints: c.is_write(spot.pc),
            is_set: c.value(spot.pc).is_some(),
            is_anchor: is_among(anchors, spot.pc),
        };
        parts.push(part_of(alloc, spot, known)?)?;
    }
    Ok(parts)
}

/// What is known of a spot.
#[derive(Clone, Copy)]
struct Known {
    /// The side of it that is cut.
    cut: Option<bool>,
    /// Whether it is a dead store.
    dead: bool,
    /// Whether it is a call that a task does.
    prints: bool,
    /// Whether it is a load of one known value.
    is_set: bool,
    is_anchor: bool,
}

/// The part of a spot, by what is known of it.
fn part_of(alloc: Global, spot: &Spot, known: Known) -> Result<FlowPoint, AllocError>
    ensures part { IfOk result (λ part. part ≡ point_known known spot.now) }
    ensures fit { IfOk result IsFit }
{
    let word = spot.word;
    let instruction = decode(word);
    let reads = task_reads(&instruction, known.prints);
    Ok(FlowPoint {
        pc: spot.pc,
        next: Vec::from_slice(alloc, &spot.next)?,
        reads,
        asks: asks(reads, known.is_set),
        writes: task_writes(&instruction, known.prints),
        fate: fate(&instruction, known.cut, known.dead),
        is_anchor: known.is_anchor,
    })
}

/// What an instruction needs that is kept and reads these registers: nothing where it is a load
/// that is set.
fn asks(reads: u32, is_set: bool) -> u32
    ensures { result ≡ if is_set then 0 else reads }
{
    if is_set { 0 } else { reads }
}

/// The registers that a call looks at: 10 to 12 and 17.
const ARGUMENTS: u32 = 0x2_1C00;

/// The register of its answer: 10.
const ANSWER: u32 = 0x400;

/// Whether an instruction is a call.
fn is_call(i: &Inst) -> bool
    ensures { result ≡ is_call i.now }
{
    matches!(i, Inst::Ecall)
}

/// The registers that an instruction reads, where a task may print at a call.
fn task_reads(i: &Inst, prints: bool) -> u32
    requires { IsWellFormed i.now }
    ensures { result ≡ task_reads (λ at. prints) i.now 0 }
{
    let asks = prints && is_call(i);
    if asks { ARGUMENTS } else { reads(i) }
}

/// The registers that an instruction writes, where a task may print at a call.
fn task_writes(i: &Inst, prints: bool) -> u32
    requires { IsWellFormed i.now }
    ensures { result ≡ task_writes (λ at. prints) i.now 0 }
{
    let asks = prints && is_call(i);
    if asks { ANSWER } else { writes(i) }
}

/// Whether an instruction is kept, by the side of it that is cut and whether it is dead.
fn fate(i: &Inst, cut: Option<bool>, dead: bool) -> Fate
    ensures { result ≡ fate_of cut dead i.now }
{
    match *i {
        Inst::Branch { .. } if cut.is_some() => Fate::Goes,
        Inst::Store { .. } if dead => Fate::Goes,
        Inst::Branch { .. } | Inst::Store { .. } | Inst::Jal { .. } | Inst::Jalr { .. } =>
            Fate::Stays,
        Inst::Ecall | Inst::Ebreak | Inst::Illegal(_) => Fate::Stays,
        _ => Fate::AsNeeded,
    }
}
