//! A run, step by step, whose output is put as it comes.
ghost use Rattle.std.specs.Prelude.{◌≡◌, ◌≤◌, ℕ, [], length, drop, OnOk, IfErr};
ghost use Rattle.outside.specs.Answers.{Gains};
ghost use Rattle.speculative_runs.specs.Told.{Puts};
ghost use Rattle.speculative_runs.specs.Driven.{Driven, Stops, stands};
ghost use Rattle.seq_machine.specs.States.{state_of};

use answers::Answer;
use memory::Memory;
use outside::{Sink, SinkErr};
use seq_machine::Machine;
use std::alloc::Global;

/// Puts the bytes from a place on, if there are any.
#[inline(always)]
pub fn put_from<O: Sink>(
    alloc: Global,
    out: &mut O,
    bytes: &[u8],
    from: usize,
) -> Result<(), Answer>
    requires { from ≤ length bytes.now }
    ensures ok { OnOk result (Gains (O.told out.old) (O.told out.new) (drop from bytes.now)) }
    ensures err { IfErr result (Stops (O.told out.old) (O.told out.new) (O.faults out.old) (O.faults out.new)
        (drop from bytes.now)) }
    ensures faults { O.faults out.old ≤ O.faults out.new }
{
    if from == bytes.len() {
        return Ok(());
    }
    match out.put(alloc, &bytes[from..]) {
        Ok(()) => Ok(()),
        Err(SinkErr::Failed) => Err(Answer::SinkFault),
        Err(SinkErr::Memory) => Err(Answer::Memory),
    }
}

/// The answer that tells where a machine stands that goes on no further.
pub fn stand<M: Memory>(machine: &Machine<M>) -> Answer
    ensures { result ≡ stands (state_of M.at machine.now) }
{
    match machine.end {
        Some(end) => Answer::Ran {
            pc: machine.arch.pc,
            end,
        },
        None => Answer::Budget,
    }
}

/// Takes the machine to the end of its run, or through `budget` steps, and puts each step's output at once.
pub fn drive<O: Sink, M: Memory>(
    alloc: Global,
    machine: &mut Machine<M>,
    budget: u64,
    out: &mut O,
) -> Answer
    requires start { machine.old.position ≡ 0 }
    requires silent { machine.old.out.items ≡ [] }
    ensures { Driven (state_of M.at machine.old) budget
        (record { told = O.told out.old; left = O.told out.new; before = O.faults out.old; now = O.faults out.new })
        result }
{
    let mut put = 0;
    while machine.end.is_none() && machine.position < budget {
        match machine.one(alloc) {
            Ok(_) => {}
            Err(_) => return Answer::Memory,
        }
        match put_from(alloc, out, &machine.out, put) {
            Ok(()) => {}
            Err(answer) => return answer,
        }
        put = machine.out.len();
    }
    stand(machine)
}
