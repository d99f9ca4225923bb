//! A small machine with a program and an image: all that the laws of speculation ask for is met
//! by something, and worked rows of events show what the definitions say.
#![tactic(auto)]

ghost use Rattle.speculation.specs.World.{IsWorld, Spends};
ghost use Rattle.squash_laws.specs.Fits.{IsSetting};
ghost use Rattle.speculation_example.specs.Small.{small_setting};
ghost use Rattle.speculation_example.specs.Laws.{small, SmallIsSequential, SmallIsSafe, SmallGains};
ghost use Rattle.speculation_schedules.specs.Exchanges.{AreInRounds};
ghost use Rattle.speculation_example.specs.Exchange.{exchanged, ExchangedIsSequential, ExchangedComes};
ghost use Rattle.speculation_example.specs.Rows.{FindsNothing, Forks, ReachesFirst, IsFull, MeetsCall, DoesKnown, GivesFuel, SpendsAll, Ends, ComparesLate, Squashes, CountsSquash, GivesUp, LooksAtCall};

/// The small machine, its image and its run meet every premise of the laws.
pub fn premises_are_met()
    ensures world { IsWorld small }
    ensures spends { Spends small }
    ensures setting { IsSetting small_setting }
{}

/// So for every list of events the small machine's committed state is that of its run, no event
/// squashes or gives up a task, and rounds gain.
pub fn laws_apply()
    ensures sequential { SmallIsSequential }
    ensures safe { SmallIsSafe }
    ensures gains { SmallGains }
{}

/// The laws of exchanges apply to the small machine with no image in its first round, and with its
/// own from the second on: its committed state is that of its run, and it comes to each position.
pub fn exchanges_apply()
    ensures met { AreInRounds exchanged 2 8 }
    ensures sequential { ExchangedIsSequential }
    ensures comes { ExchangedComes }
{}

/// Events of the small machine and what they answer.
pub fn rows_are_worked()
    ensures nothing { FindsNothing }
    ensures forks { Forks }
    ensures reached { ReachesFirst }
    ensures full { IsFull }
    ensures met { MeetsCall }
    ensures known { DoesKnown }
    ensures fuel { GivesFuel }
    ensures spent { SpendsAll }
    ensures ended { Ends }
    ensures late { ComparesLate }
    ensures squashed { Squashes }
    ensures counted { CountsSquash }
    ensures given_up { GivesUp }
    ensures looked { LooksAtCall }
{}
