//! One row: the address of a load, and its value.

ghost use Rattle.std.specs.Prelude.{◌≡◌};
ghost use Rattle.load_values.specs.Reading.{Gives};
ghost use Rattle.load_values.specs.Reading as spec;

use crate::error::ValuesErr;
use crate::field::next_word;
use rv_word::constant;
use word_format::is_aligned;

/// Whether one word sets a register to the value.
pub(crate) fn has_word(value: u32) -> bool
    ensures { result ≡ spec.has_word value }
{
    constant(1, value).is_some()
}

/// Reads the row of this number, whose address is at least `due`, and gives the bytes after it.
#[tactic(auto, unfolding(crate::specs::Reading::next_row))]
pub(crate) fn next_row(
    number: u32,
    due: u64,
    bytes: &[u8],
) -> Result<((u32, u32), &[u8]), ValuesErr>
    ensures { Gives (λ x. (x.0, x.1.now)) result (spec.next_row number due bytes.now) }
{
    let (pc, rest) = next_word(bytes)?;
    let (value, rest) = next_word(rest)?;
    let row = admit_row(number, due, pc, value)?;
    Ok((row, rest))
}

/// Tests a row.
fn admit_row(number: u32, due: u64, pc: u32, value: u32) -> Result<(u32, u32), ValuesErr>
    ensures { Gives (λ x. x) result (spec.admit_row number due pc value) }
{
    if !(is_aligned(pc) && has_word(value)) {
        return Err(ValuesErr::Range(number));
    }
    if u64::from(pc) < due {
        return Err(ValuesErr::Order(number));
    }
    Ok((pc, value))
}
