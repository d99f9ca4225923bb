//! Reads a profile.

ghost use Rattle.std.specs.Prelude.{◌≡◌, ◌≢◌, ◌==◌, IfOk, IfErr, MatchResult, Ok, Err};
ghost use Rattle.std.specs.List.{sum_by};
ghost use Rattle.indexmap.specs.IndexMap.{values};
ghost use Rattle.profile_data.specs.Profile.{Profiled, IsProfile, executed_of};
ghost use Rattle.profile_data.specs.Keyed.{IsKeyed, profiled};
ghost use Rattle.profile_data.specs.Bytes.{bytes_of};
ghost use Rattle.profile_data.specs.Reading.{Gives, rows_in, profile_from};

use crate::entry::next_row;
use crate::error::ProfileErr;
use crate::header::next_header;
use crate::profile::{Profile, Row};
use indexmap::IndexMap;
use std::alloc::Global;

/// The profile that a file holds.
///
/// Looks each row's address up in a hash map, and asks for memory only for rows and targets whose
/// bytes are there.
///
/// # Errors
///
/// The first test of the file that fails, as [`ProfileErr`] tells, or `Memory`.
pub fn read_profile(alloc: Global, bytes: &[u8]) -> Result<Profile, ProfileErr>
    // What is read is a profile, and the file has its bytes and no others.
    ensures found { IfOk result (λ profile. IsProfile profile × (bytes.now ≡ bytes_of profile)) }

    // The bytes of a profile are read as that profile.
    ensures only { (profile : Profiled) → IsProfile profile → bytes.now ≡ bytes_of profile →
        MatchResult result (λ read. read ≡ profile) (λ e. e ≡ ProfileErr.Memory) }

    // It is what the tests of the format give, one after the other.
    ensures exact { IfOk result (λ profile. profile_from bytes.now ≡ Ok profile) }
    ensures refused { IfErr result (λ e. e ≢ ProfileErr.Memory → profile_from bytes.now ≡ Err e) }
{
    let (steps, ended, rows) = parts_in(alloc, bytes)?;
    Ok(Profile::new(steps, ended, rows))
}

/// Reads all of the bytes.
#[tactic(auto, unfolding(crate::specs::Reading::profile_from))]
fn parts_in(alloc: Global, bytes: &[u8]) -> Result<(u64, bool, IndexMap<u32, Row>), ProfileErr>
    ensures gives { Gives (λ x. profiled x.0 x.1 x.2) result (profile_from bytes.now) }
    ensures keyed { IfOk result (λ x. IsKeyed x.2) }
{
    let (header, rest) = next_header(bytes)?;
    let (rows, rest) = read_rows(alloc, header.rows, rest)?;
    if !add_up(rows.values().as_slice(), header.steps) {
        return Err(ProfileErr::Sum);
    }
    if !rest.is_empty() {
        return Err(ProfileErr::Long);
    }
    Ok((header.steps, header.ended == 1, rows))
}

fn read_rows(
    alloc: Global,
    count: u32,
    bytes: &[u8],
) -> Result<(IndexMap<u32, Row>, &[u8]), ProfileErr>
    ensures gives { Gives (λ x. (values x.0, x.1.now)) result (rows_in count bytes.now) }
    ensures keyed { IfOk result (λ x. IsKeyed x.0) }
{
    let mut rows = IndexMap::new(alloc);
    let mut rest = bytes;
    let mut targets = 0;
    for number in 0..count {
        let (row, after) = next_row(alloc, number, &rows, targets, rest)?;
        targets += row.targets.len();
        rows.insert(row.pc, row)?;
        rest = after;
    }
    Ok((rows, rest))
}

/// Whether the rows were executed so often in all.
fn add_up(rows: &[Row], steps: u64) -> bool
    ensures { result ≡ (sum_by executed_of rows.now == steps) }
{
    let mut left = steps;
    for row in rows {
        match left.checked_sub(row.executed) {
            Some(less) => left = less,
            None => return false,
        }
    }
    left == 0
}
