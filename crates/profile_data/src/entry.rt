//! Reads one row, and tests it.
//!
//! `number` is the row's number, from 0 on. Each reader takes the bytes from its part of the row on,
//! and gives those after it.

ghost use Rattle.std.specs.Prelude.{◌≡◌, ◌≤◌, is_some};
ghost use Rattle.indexmap.specs.IndexMap.{values};
ghost use Rattle.profile_data.specs.Profile.{target_count, row_at};
ghost use Rattle.profile_data.specs.Keyed.{IsKeyed};
ghost use Rattle.profile_data.specs.Reading.{Gives};
ghost use Rattle.profile_data.specs.Reading as spec;

use crate::error::ProfileErr;
use crate::field::{next_long, next_word};
use crate::profile::Row;
use indexmap::IndexMap;
use std::alloc::Global;
use word_format::{AddressErr, is_aligned, read_addresses};

/// The greatest number of targets in all.
const MOST_TARGETS: usize = 1_048_576;

/// What stands before the targets of a row.
#[derive(Clone, Copy, Debug)]
pub(crate) struct Head {
    pub pc: u32,
    /// Bit 0 for `read`, bit 1 for `changed`.
    pub flags: u32,
    pub executed: u64,
    pub taken: u64,
    /// The number of its targets.
    pub targets: u32,
}

/// Reads a row. Those before it list so many targets in all.
#[tactic(auto, unfolding(crate::specs::Reading::next_row))]
pub(crate) fn next_row<'a>(
    alloc: Global,
    number: u32,
    before: &IndexMap<u32, Row>,
    targets: usize,
    bytes: &'a [u8],
) -> Result<(Row, &'a [u8]), ProfileErr>
    requires keyed { IsKeyed before.now }
    requires targets { targets ≡ target_count (values before.now) }
    requires few { targets ≤ 1_048_576 }
    ensures { Gives (λ x. (x.0, x.1.now)) result
        (spec.next_row number (values before.now) bytes.now) }
{
    let (head, rest) = next_head(number, before, targets, bytes)?;
    let (to, rest) = targets_in(alloc, number, head.targets, rest)?;
    Ok((row_from(head, to), rest))
}

/// Reads what stands before the targets of a row.
#[tactic(auto, unfolding(crate::specs::Reading::next_head))]
fn next_head<'a>(
    number: u32,
    before: &IndexMap<u32, Row>,
    targets: usize,
    bytes: &'a [u8],
) -> Result<(Head, &'a [u8]), ProfileErr>
    requires keyed { IsKeyed before.now }
    requires targets { targets ≡ target_count (values before.now) }
    requires few { targets ≤ 1_048_576 }
    ensures { Gives (λ x. (x.0, x.1.now)) result
        (spec.next_head number (values before.now) bytes.now) }
{
    let (pc, rest) = next_word(bytes)?;
    let (flags, rest) = next_word(rest)?;
    let (executed, rest) = next_long(rest)?;
    let (taken, rest) = next_long(rest)?;
    let (count, rest) = next_word(rest)?;
    let head = Head {
        pc,
        flags,
        executed,
        taken,
        targets: count,
    };
    let head = admit_head(number, has_row(before, pc), targets, rest.len(), head)?;
    Ok((head, rest))
}

/// Whether a row has the address.
fn has_row(rows: &IndexMap<u32, Row>, pc: u32) -> bool
    requires { IsKeyed rows.now }
    ensures { result ≡ is_some (row_at (values rows.now) pc) }
{
    rows.contains_key(&pc)
}

/// Tests what stands before the targets of a row. `is_there` tells whether an earlier row has its
/// address, `targets` how many targets the earlier rows list, and `left` how many bytes come after it.
fn admit_head(
    number: u32,
    is_there: bool,
    targets: usize,
    left: usize,
    head: Head,
) -> Result<Head, ProfileErr>
    requires { targets ≤ 1_048_576 }
    ensures { Gives (λ x. x) result (spec.admit_head number is_there targets left head) }
{
    if head.flags > 3 {
        return Err(ProfileErr::Kind(number));
    }
    if !(is_aligned(head.pc) && head.executed >= 1 && head.taken <= head.executed) {
        return Err(ProfileErr::Range(number));
    }
    if is_there {
        return Err(ProfileErr::Twice(number));
    }
    if targets + head.targets as usize > MOST_TARGETS {
        return Err(ProfileErr::TooMany);
    }
    if left < 4 * head.targets as usize {
        return Err(ProfileErr::Short);
    }
    Ok(head)
}

/// The row that these numbers and targets are.
fn row_from(head: Head, to: Vec<u32>) -> Row
    ensures { result ≡ spec.tally_from head to.items }
{
    Row {
        pc: head.pc,
        executed: head.executed,
        taken: head.taken,
        read: head.flags % 2 == 1,
        changed: head.flags >= 2,
        targets: to,
    }
}

/// Reads the targets of a row.
fn targets_in(
    alloc: Global,
    number: u32,
    count: u32,
    bytes: &[u8],
) -> Result<(Vec<u32>, &[u8]), ProfileErr>
    ensures { Gives (λ x. (x.0.items, x.1.now)) result (spec.targets_in number count bytes.now) }
{
    match read_addresses(alloc, count, bytes) {
        Ok(targets) => Ok(targets),
        Err(error) => Err(targets_err(number, error)),
    }
}

/// The error of the targets of the row of this number.
fn targets_err(number: u32, error: AddressErr) -> ProfileErr
    ensures { result ≡ spec.targets_err number error }
{
    match error {
        AddressErr::Short => ProfileErr::Short,
        AddressErr::Range(_) => ProfileErr::Range(number),
        AddressErr::Order(_) => ProfileErr::Order(number),
        AddressErr::Memory => ProfileErr::Memory,
    }
}
