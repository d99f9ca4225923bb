//! Reads a list of events.

ghost use Rattle.std.specs.Prelude.{◌≡◌, ◌≢◌, ℕ, List, ◌∷◌, ◌<◌, IfOk, IfErr, MatchResult, Ok, Err, length, map};
ghost use Rattle.speculation.specs.declared.Event.{Event};
ghost use Rattle.event_list.specs.Lines.{lines};
ghost use Rattle.event_list.specs.Reading.{list_in, AreEvents};
ghost use Rattle.event_list.specs.Spelling.{spelling, event_lines};

use crate::error::EventErr;
use crate::form::{Form, MOST, form_of};
use crate::split::split_at_byte;
use speculation::Event;
use std::alloc::Global;

/// The list of events that a file holds: each event with how often it is given.
///
/// Lines end with a line feed, which the last may lack. A line has a count, a space and an event:
/// `master`, `commit`, `serial`, `restart`, or `slave`, a space and the slave's number, 0 to 63.
/// Counts are 1 to 100,000,000, and sum to at most that. Numbers are ASCII digits, with no zero in
/// front of other digits. A line that is empty or begins with `#` gives no event; it may have any
/// bytes.
///
/// # Errors
///
/// The refusal of the first line that has one, as [`EventErr`] tells, or `Memory`.
pub fn read_events(alloc: Global, bytes: &[u8]) -> Result<Vec<(u32, Event)>, EventErr>
    // What is read is a list of events, and the file's lines spell it, but for those that are empty
    // or comments.
    ensures found { IfOk result (λ events. AreEvents events.items
        × (event_lines bytes.now ≡ map spelling events.items)) }

    // A file that spells a list of events is read as that list.
    ensures only { (list : List (ℕ × Event)) → AreEvents list →
        event_lines bytes.now ≡ map spelling list →
        MatchResult result (λ events. events.items ≡ list) (λ e. e ≡ EventErr.Memory) }

    // It is what the lines say, one after the other.
    ensures exact { IfOk result (λ events. list_in bytes.now ≡ Ok events.items) }
    ensures refused { IfErr result (λ e. e ≢ EventErr.Memory → list_in bytes.now ≡ Err e) }
{
    list_in(alloc, bytes)
}

/// Reads the lines, one after the other.
fn list_in(alloc: Global, bytes: &[u8]) -> Result<Vec<(u32, Event)>, EventErr>
    ensures exact { IfOk result (λ events. list_in bytes.now ≡ Ok events.items) }
    ensures refused { IfErr result (λ e. e ≢ EventErr.Memory → list_in bytes.now ≡ Err e) }
{
    let mut events = Vec::new(alloc);
    let mut rest = bytes;
    let mut number: u64 = 0;
    let mut sum: u64 = 0;
    while !rest.is_empty() {
        let (line, after) = first_line(rest);
        number += 1;
        match form_of(line) {
            Form::NoEvent => {}
            Form::Unknown => return Err(EventErr::Line(number)),
            Form::Repeated(count, event) => {
                sum += u64::from(count);
                if sum > MOST {
                    return Err(EventErr::TooMany(number));
                }
                events.push((count, event))?;
            }
        }
        rest = after;
    }
    Ok(events)
}

/// The first line of bytes that are not empty, and the bytes after its line feed.
#[tactic(auto, using(crate::proofs::FirstLine::first_of_lines, crate::proofs::FirstLine::one_line))]
fn first_line(bytes: &[u8]) -> (&[u8], &[u8])
    requires { 0 < length bytes.now }
    ensures line { lines bytes.now ≡ result.0.now ∷ lines result.1.now }
    ensures shorter { length result.1.now < length bytes.now }
{
    match split_at_byte(b'\n', bytes) {
        Some(parts) => parts,
        None => (bytes, &[]),
    }
}
