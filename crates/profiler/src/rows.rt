//! Single rows of a profile while it is made.

ghost use Rattle.std.specs.Prelude.{◌≡◌, ◌<◌, ◌≤◌, ◌+◌, ◌++◌, ◌∷◌, [], false, length, take, IfOk, OnOk, OnErr, if◌then◌else◌, is_some};
ghost use Rattle.std.specs.List.Sorted.{IsStrictlyIncreasing};
ghost use Rattle.indexmap.specs.IndexMap.{values};
ghost use Rattle.profile_data.specs.Profile.{row_at};
ghost use Rattle.profile_data.specs.Keyed.{IsKeyed};
ghost use Rattle.profile_laws.specs.Tally.{as_read, counted, placed, with_target, fresh};
ghost use Rattle.profiler.specs.Visits.{visit_of};
ghost use Rattle.profiler.specs.Rows.{HasRoom, EachHasRoom, IsUpdated, IsCountedAt, HasMoreTargets, first_row};

use crate::visit::Visit;
use indexmap::IndexMap;
use profile_data::Row;
use std::alloc::{AllocError, Global};
use std::collections::BTreeSet;
use std::marker::Model;

/// A row while it is made. Its targets are a set, so that each new one costs a look-up.
#[derive(Drop)]
pub(crate) struct Counts {
    pc: u32,
    executed: u64,
    taken: u64,
    read: bool,
    changed: bool,
    targets: BTreeSet<u32>,
}

impl Model for Counts {
    ghost use Rattle.profile_data.specs.Profile.{Tally};

    ghost Value = { Tally };

    ghost view = { λ row. record {
      pc = row.pc;
      executed = row.executed;
      taken = row.taken;
      read = row.read;
      changed = row.changed;
      targets = row.targets.keys;
    } };
}

fn set_read(row: &mut Counts)
    ensures { row.new ≡ as_read row.old }
{
    row.read = true;
}

/// Notes that what the store of a row put was read.
pub(crate) fn mark_row(rows: &mut IndexMap<u32, Counts>, at: usize)
    requires { IsKeyed rows.old }
    ensures rows { IsUpdated as_read at (values rows.old) (values rows.new) }
    ensures keyed { IsKeyed rows.new }
{
    if let Some(row) = rows.get_index_mut(at) {
        set_read(row);
    }
}

/// Puts a number in its place, unless it is there, and answers how many numbers that added.
#[inline(never)]
fn place(targets: &mut BTreeSet<u32>, to: u32) -> Result<usize, AllocError>
    ensures placed { OnOk result (targets.new.keys ≡ placed to targets.old.keys) }
    ensures err { OnErr result (targets.new.keys ≡ targets.old.keys) }
    ensures few { IfOk result (λ n. n ≤ 1) }
    ensures added { IfOk result (λ n. length targets.new.keys ≡ length targets.old.keys + n) }
{
    let added = targets.insert(to)?;
    Ok(usize::from(added))
}

/// How many numbers a target is.
pub(crate) fn first_target(target: Option<u32>) -> usize
    ensures added { result ≡ (if is_some target then 1 else 0) }
    ensures few { result ≤ 1 }
{
    match target {
        Some(_) => 1,
        None => 0,
    }
}

/// How many numbers a target would add.
pub(crate) fn new_target(row: &Counts, target: Option<u32>) -> usize
    requires { IsStrictlyIncreasing row.now.targets }
    ensures added { length (with_target target row.now.targets) ≡ length row.now.targets + result }
    ensures few { result ≤ 1 }
{
    match target {
        Some(to) => usize::from(!row.targets.contains(&to)),
        None => 0,
    }
}

#[inline(always)]
fn place_target(targets: &mut BTreeSet<u32>, target: Option<u32>) -> Result<usize, AllocError>
    ensures placed { OnOk result (targets.new.keys ≡ with_target target targets.old.keys) }
    ensures err { OnErr result (targets.new.keys ≡ targets.old.keys) }
    ensures few { IfOk result (λ n. n ≤ 1) }
    ensures added { IfOk result (λ n. length targets.new.keys ≡ length targets.old.keys + n) }
{
    match target {
        Some(to) => place(targets, to),
        None => Ok(0),
    }
}

/// Counts a position in its row, and answers how many targets that added.
#[inline(always)]
fn count_in(row: &mut Counts, visit: &Visit) -> Result<usize, AllocError>
    requires { HasRoom row.old }
    ensures row { OnOk result (row.new ≡ counted (visit_of visit.now) row.old) }
    ensures err { OnErr result (row.new ≡ row.old) }
    ensures pc { row.new.pc ≡ row.old.pc }
    ensures few { IfOk result (λ n. n ≤ 1) }
    ensures added { IfOk result (λ n. length row.new.targets ≡ length row.old.targets + n) }
{
    let added = place_target(&mut row.targets, visit.target)?;
    row.executed += 1;
    row.taken += u64::from(visit.taken);
    row.changed = row.changed || visit.changed;
    Ok(added)
}

/// Counts a position in the row at an index, and answers how many targets that added.
#[inline(always)]
pub(crate) fn count_row(
    rows: &mut IndexMap<u32, Counts>,
    at: usize,
    visit: &Visit,
) -> Result<usize, AllocError>
    requires keyed { IsKeyed rows.old }
    requires room { EachHasRoom (values rows.old) }
    ensures rows { OnOk result (IsCountedAt visit.now at (values rows.old) (values rows.new)) }
    ensures err { OnErr result (values rows.new ≡ values rows.old) }
    ensures keyed { IsKeyed rows.new }
    ensures few { IfOk result (λ n. n ≤ 1) }
    ensures added { IfOk result (λ n. HasMoreTargets (values rows.old) (values rows.new) n) }
{
    match rows.get_index_mut(at) {
        Some(row) => count_in(row, visit),
        None => Ok(0),
    }
}

/// The row of an address that was not executed.
fn fresh(alloc: Global, pc: u32) -> Counts
    ensures { result ≡ fresh pc }
{
    Counts {
        pc,
        executed: 0,
        taken: 0,
        read: false,
        changed: false,
        targets: BTreeSet::new(alloc),
    }
}

/// The numbers of a set, ascending.
fn listed(alloc: Global, targets: &BTreeSet<u32>) -> Result<Vec<u32>, AllocError>
    ensures { IfOk result (λ v. v.items ≡ targets.now.keys) }
{
    let mut list = Vec::new(alloc);
    for to in targets {
        list.push(*to)?;
    }
    Ok(list)
}

/// The row that was counted.
fn row_of(alloc: Global, counts: &Counts) -> Result<Row, AllocError>
    ensures { IfOk result (λ row. row ≡ counts.now) }
{
    Ok(Row {
        pc: counts.pc,
        executed: counts.executed,
        taken: counts.taken,
        read: counts.read,
        changed: counts.changed,
        targets: listed(alloc, &counts.targets)?,
    })
}

/// Puts the row that was counted last, where there is no row of its address.
fn close_in(alloc: Global, rows: &mut IndexMap<u32, Row>, counts: &Counts) -> Result<(), AllocError>
    requires keyed { IsKeyed rows.old }
    requires new { is_some (row_at (values rows.old) counts.now.pc) ≡ false }
    ensures rows { OnOk result (values rows.new ≡ values rows.old ++ counts.now ∷ []) }
    ensures keyed { OnOk result (IsKeyed rows.new) }
{
    let row = row_of(alloc, counts)?;
    rows.insert(counts.pc, row)?;
    Ok(())
}

/// Puts the row that was counted at an index last, where those before it were put.
fn close_at(
    alloc: Global,
    rows: &mut IndexMap<u32, Row>,
    from: &IndexMap<u32, Counts>,
    i: usize,
) -> Result<(), AllocError>
    requires from { IsKeyed from.now }
    requires keyed { IsKeyed rows.old }
    requires closed { values rows.old ≡ take i (values from.now) }
    requires within { i < length (values from.now) }
    ensures rows { OnOk result (values rows.new ≡ take (i + 1) (values from.now)) }
    ensures keyed { OnOk result (IsKeyed rows.new) }
{
    let _count = from.len();
    match from.get_index(i) {
        Some((_, counts)) => close_in(alloc, rows, counts),
        None => Err(AllocError),
    }
}

/// The rows that were counted.
pub(crate) fn close(
    alloc: Global,
    from: &IndexMap<u32, Counts>,
) -> Result<IndexMap<u32, Row>, AllocError>
    requires { IsKeyed from.now }
    ensures rows { IfOk result (λ rows. values rows ≡ values from.now) }
    ensures keyed { IfOk result IsKeyed }
{
    let mut rows = IndexMap::new(alloc);
    for i in 0..from.len() {
        close_at(alloc, &mut rows, from, i)?;
    }
    Ok(rows)
}

/// A copy of a row.
fn copy_row(row: &Counts) -> Result<Counts, AllocError>
    ensures { IfOk result (λ r. r ≡ row.now) }
{
    Ok(Counts {
        pc: row.pc,
        executed: row.executed,
        taken: row.taken,
        read: row.read,
        changed: row.changed,
        targets: row.targets.clone()?,
    })
}

/// Puts a copy of a row last, where there is no row of its address.
fn copy_in(rows: &mut IndexMap<u32, Counts>, row: &Counts) -> Result<(), AllocError>
    requires keyed { IsKeyed rows.old }
    requires new { is_some (row_at (values rows.old) row.now.pc) ≡ false }
    ensures rows { OnOk result (values rows.new ≡ values rows.old ++ row.now ∷ []) }
    ensures keyed { OnOk result (IsKeyed rows.new) }
{
    let copy = copy_row(row)?;
    rows.insert(row.pc, copy)?;
    Ok(())
}

/// Puts a copy of the row at an index last, where the rows before it were copied.
pub(crate) fn copy_at(
    rows: &mut IndexMap<u32, Counts>,
    from: &IndexMap<u32, Counts>,
    i: usize,
) -> Result<(), AllocError>
    requires from { IsKeyed from.now }
    requires keyed { IsKeyed rows.old }
    requires copied { values rows.old ≡ take i (values from.now) }
    requires within { i < length (values from.now) }
    ensures rows { OnOk result (values rows.new ≡ take (i + 1) (values from.now)) }
    ensures keyed { OnOk result (IsKeyed rows.new) }
{
    let _count = from.len();
    match from.get_index(i) {
        Some((_, row)) => copy_in(rows, row),
        None => Err(AllocError),
    }
}

/// Counts the first position of an address, and answers how many targets that added.
#[inline(never)]
pub(crate) fn count_new(
    alloc: Global,
    rows: &mut IndexMap<u32, Counts>,
    visit: &Visit,
) -> Result<usize, AllocError>
    requires keyed { IsKeyed rows.old }
    requires new { is_some (row_at (values rows.old) visit.now.pc) ≡ false }
    ensures rows { OnOk result (values rows.new ≡ values rows.old ++ first_row visit.now ∷ []) }
    ensures err { OnErr result (values rows.new ≡ values rows.old) }
    ensures keyed { IsKeyed rows.new }
    ensures few { IfOk result (λ n. n ≤ 1) }
    ensures added { IfOk result (λ n. HasMoreTargets (values rows.old) (values rows.new) n) }
{
    let mut row = fresh(alloc, visit.pc);
    let added = count_in(&mut row, visit)?;
    rows.insert(visit.pc, row)?;
    Ok(added)
}
