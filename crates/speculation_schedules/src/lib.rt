//! Schedules of events without end, and where a machine that is given one stops.
//!
//! A command that runs a program with an image gives the machine rounds of events until it has ended
//! or has come to the position that it was asked for. That it comes there, and that it has then come
//! to what the sequential run comes to, are laws of the definitions.
#![tactic(auto)]

ghost use Rattle.speculation_schedules.specs.Exchanges.{AllHoldExchanged, ExchangedRoundsCome};
ghost use Rattle.speculation_schedules.specs.Laws.{AllHold, RoundsCome, StepsCome, StopsAreTheRuns};

/// A machine that is given rounds, or serial steps alone, comes to each position or to the end of
/// the run, after no more events than a bound says.
pub fn stops_come()
    ensures kept { AllHold }
    ensures rounds { RoundsCome }
    ensures alone { StepsCome }
{}

/// Where it first has come far enough its state is that of the run: the one at the end, if the run
/// ends within so many steps, and else one past them.
pub fn stops_are_the_runs()
    ensures { StopsAreTheRuns }
{}

/// The same holds where each event may be in another world of the same run, with another image, so
/// long as one gives way to another only while nothing is speculated on: all that is kept stands
/// after each event, and in rounds a machine comes to each position within the bound of the longest
/// tasks of all images.
pub fn exchanges_come()
    ensures kept { AllHoldExchanged }
    ensures rounds { ExchangedRoundsCome }
{}
