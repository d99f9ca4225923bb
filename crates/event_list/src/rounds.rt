//! Rounds: each actor has its turn.

ghost use Rattle.std.specs.Prelude.{◌≡◌, ◌+◌, ◌%◌, ◌≤◌, length, slice_get, Some};
ghost use Rattle.speculation.specs.Rounds.{round};

use speculation::Event;

/// The event at a place of rounds that follow one another without end, place 0 being the first.
///
/// A round over so many slaves is Restart, Serial, Master four times, Slave 0 and on to the last
/// slave, and Commit. `slaves` is 1 to 64. Takes no memory.
#[tactic(auto, using(crate::proofs::Places::length_of_round))]
pub fn round(slaves: u8, k: u64) -> Event
    requires some { 1 ≤ slaves }
    requires few { slaves ≤ 64 }
    ensures event { slice_get (round slaves) (k % (slaves + 7)) ≡ Some result }
    ensures length { length (round slaves) ≡ slaves + 7 }
{
    let slaves = u64::from(slaves);
    match k % (slaves + 7) {
        0 => Event::Restart,
        1 => Event::Serial,
        2..=5 => Event::Master,
        place if place < slaves + 6 => Event::Slave((place - 6) as u8),
        _ => Event::Commit,
    }
}
