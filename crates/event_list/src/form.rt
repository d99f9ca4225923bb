//! What a line says.

ghost use Rattle.std.specs.Prelude.{◌≡◌};
ghost use Rattle.event_list.specs.Form as spec;

use crate::split::split_at_byte;
use decimal_words::number_within;
use speculation::Event;

/// How many events a list has at most, repeats counted.
pub(crate) const MOST: u64 = 100_000_000;

/// The greatest number of a slave.
const LAST_SLAVE: u64 = 63;

/// The forms of a line.
#[derive(Clone, Copy, Debug, PartialEq, Eq)]
pub(crate) enum Form {
    /// The line is empty or a comment.
    NoEvent,
    /// The line gives an event so many times.
    Repeated(u32, Event),
    /// The line is none of these.
    Unknown,
}

/// The form of a line, which stands without its line feed.
pub(crate) fn form_of(line: &[u8]) -> Form
    ensures { result ≡ spec.form_of line.now }
{
    match line {
        [] | [b'#', ..] => Form::NoEvent,
        _ => match repeated(line) {
            Some((count, event)) => Form::Repeated(count, event),
            None => Form::Unknown,
        },
    }
}

/// The count and the event of a line, with one space between them.
fn repeated(line: &[u8]) -> Option<(u32, Event)>
    ensures { result ≡ spec.repeated line.now }
{
    let (count, event) = split_at_byte(b' ', line)?;
    let count = number_within(1, MOST, count)?;
    Some((count as u32, event_of(event)?))
}

/// The event that a text names.
fn event_of(text: &[u8]) -> Option<Event>
    ensures { result ≡ spec.event_of text.now }
{
    if text == b"master".as_slice() {
        Some(Event::Master)
    } else if text == b"commit".as_slice() {
        Some(Event::Commit)
    } else if text == b"serial".as_slice() {
        Some(Event::Serial)
    } else if text == b"restart".as_slice() {
        Some(Event::Restart)
    } else {
        slave_of(text)
    }
}

/// The event of a slave, which is named by its number.
fn slave_of(text: &[u8]) -> Option<Event>
    ensures { result ≡ spec.slave_of text.now }
{
    let number = text.strip_prefix(b"slave ".as_slice())?;
    let slave = number_within(0, LAST_SLAVE, number)?;
    Some(Event::Slave(slave as u8))
}
