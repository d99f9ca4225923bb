//! `trial`: a program that a number makes, and what comes of it.
ghost use Rattle.command_line.specs.Command.{shown_trial};
ghost use Rattle.speculative_runs.specs.Told.{Puts, Delivered};
ghost use Rattle.mssp_tool.specs.Trial.{TrialCause};

use answers::{Answer, Refusal};
use command_line::Trial;
use outside::{Sink, SinkErr};
use std::alloc::Global;
use trial_report::{TrialErr, trial_text};

/// Puts a text at once.
fn deliver<O: Sink>(alloc: Global, out: &mut O, text: &[u8]) -> Answer
    ensures { Delivered
        (record { told = O.told out.old; left = O.told out.new; before = O.faults out.old; now = O.faults out.new })
        text.now result }
{
    match out.put(alloc, text) {
        Ok(()) => Answer::Done,
        Err(SinkErr::Failed) => Answer::SinkFault,
        Err(SinkErr::Memory) => Answer::Memory,
    }
}

/// Puts the lines of the trial of a number.
pub fn trial<O: Sink>(alloc: Global, out: &mut O, trial: &Trial) -> Answer
    ensures { TrialCause (shown_trial trial.now)
        (record { told = O.told out.old; left = O.told out.new; before = O.faults out.old; now = O.faults out.new })
        result }
{
    match trial_text(alloc, trial.seed, trial.size) {
        Ok(text) => deliver(alloc, out, &text),
        Err(TrialErr::Wide) => Answer::Refused(Refusal::Wide),
        Err(TrialErr::Empty) => Answer::Refused(Refusal::Empty),
        Err(TrialErr::Memory) => Answer::Memory,
    }
}
