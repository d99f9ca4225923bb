//! The world in which the speculative machine runs a program with an image.
//!
//! The laws of speculation leave the machine, the anchors and the master open. Here stand those of
//! RV32IM and of an image, whether or not it fits; the contracts of tasks, of the master and of the
//! engine name this world.
#![tactic(auto)]

ghost use Rattle.image_semantics.specs.Laws.{WorldsAreKnown, AnchorsAreFound};
ghost use Rattle.image_semantics.specs.Rows.{TurnsReach, CallsAreMet, RunsEnd, CirclesFork, StraysAreLost, TasksPrint, HelloIsSaid, MasterRows, RecordRows};

/// The world of every image meets what the laws of speculation ask of a world, whatever program is
/// run and whether or not the image fits it.
pub fn worlds_are_known()
    ensures { WorldsAreKnown }
{}

/// The anchor of each number is found at its own pc.
pub fn anchors_are_found()
    ensures { AnchorsAreFound }
{}

/// Events over images of small programs, and what they answer; what tasks record and print.
pub fn rows_are_worked()
    ensures turns { TurnsReach }
    ensures met { CallsAreMet }
    ensures ended { RunsEnd }
    ensures circle { CirclesFork }
    ensures lost { StraysAreLost }
    ensures prints { TasksPrint }
    ensures said { HelloIsSaid }
    ensures master { MasterRows }
    ensures recorded { RecordRows }
{}
