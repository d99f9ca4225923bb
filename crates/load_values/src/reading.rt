//! Reads a list of values.

ghost use Rattle.std.specs.Prelude.{◌≡◌, ◌≢◌, ℕ, List, IfOk, IfErr, MatchResult, Ok, Err};
ghost use Rattle.load_values.specs.Values.{AreValues};
ghost use Rattle.load_values.specs.Bytes.{bytes_of};
ghost use Rattle.load_values.specs.Reading.{Gives, rows_in, values_from};

use crate::error::ValuesErr;
use crate::header::next_header;
use crate::row::next_row;
use std::alloc::Global;

/// The values that a file holds: addresses of loads, which rise, and the value of each.
///
/// Asks for memory only for rows whose bytes are there.
///
/// # Errors
///
/// The first test of the file that fails, as [`ValuesErr`] tells, or `Memory`.
pub fn read_values(alloc: Global, bytes: &[u8]) -> Result<Vec<(u32, u32)>, ValuesErr>
    // What is read is a list of values, and the file has its bytes and no others.
    ensures found { IfOk result (λ rows. AreValues rows.items × (bytes.now ≡ bytes_of rows.items)) }

    // The bytes of a list of values are read as that list.
    ensures only { (rows : List (ℕ × ℕ)) → AreValues rows → bytes.now ≡ bytes_of rows →
        MatchResult result (λ read. read.items ≡ rows) (λ e. e ≡ ValuesErr.Memory) }

    // It is what the tests of the format give, one after the other.
    ensures exact { IfOk result (λ rows. values_from bytes.now ≡ Ok rows.items) }
    ensures refused { IfErr result (λ e. e ≢ ValuesErr.Memory → values_from bytes.now ≡ Err e) }
{
    values_in(alloc, bytes)
}

/// Reads all of the bytes.
#[tactic(auto, unfolding(crate::specs::Reading::values_from))]
fn values_in(alloc: Global, bytes: &[u8]) -> Result<Vec<(u32, u32)>, ValuesErr>
    ensures { Gives (λ rows. rows.items) result (values_from bytes.now) }
{
    let (count, rest) = next_header(bytes)?;
    let (rows, rest) = read_rows(alloc, count, rest)?;
    if !rest.is_empty() {
        return Err(ValuesErr::Long);
    }
    Ok(rows)
}

fn read_rows(alloc: Global, count: u32, bytes: &[u8]) -> Result<(Vec<(u32, u32)>, &[u8]), ValuesErr>
    ensures { Gives (λ x. (x.0.items, x.1.now)) result (rows_in count bytes.now) }
{
    let mut rows = Vec::new(alloc);
    let mut rest = bytes;
    let mut due = 0;
    for number in 0..count {
        let (row, after) = next_row(number, due, rest)?;
        rows.push(row)?;
        due = u64::from(row.0) + 1;
        rest = after;
    }
    Ok((rows, rest))
}
