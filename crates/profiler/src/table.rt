//! The rows of a profile while it is made.

ghost use Rattle.std.specs.Prelude.{◌≡◌, ◌≤◌, [], true, length, IfOk, IfSome, OnOk, OnErr, if◌then◌else◌, is_some};
ghost use Rattle.std.specs.Bool.{OnTrue};
ghost use Rattle.indexmap.specs.IndexMap.{values};
ghost use Rattle.profile_data.specs.Profile.{row_at};
ghost use Rattle.profile_data.specs.Keyed.{IsKeyed};
ghost use Rattle.profile_laws.specs.Tally.{marked};
ghost use Rattle.profiler.specs.Rows.{EachHasRoom, IsIndexOf, IsVisited, HasMoreTargets, AddsTargets};

use crate::rows::{Counts, copy_at, count_new, count_row, first_target, mark_row, new_target};
use crate::visit::Visit;
use indexmap::IndexMap;
use std::alloc::{AllocError, Global};

/// How many places `near` has.
const NEAR: usize = 1024;

/// The rows so far, under their addresses.
#[derive(Drop)]
pub(crate) struct Table {
    pub rows: IndexMap<u32, Counts>,
    /// By the low bits of an address, the index of the row that was found last for one with these bits.
    /// Most rows are found there again; the key tells whether it is the row.
    near: [usize; NEAR],
}

impl Table {
    /// No rows yet.
    pub fn new(alloc: Global) -> Self
        ensures { values result.rows ≡ [] }
    {
        Table {
            rows: IndexMap::new(alloc),
            near: [0; NEAR],
        }
    }

    // Whether the row at an index is that of an address.
    #[inline(always)]
    fn has(&self, at: usize, pc: u32) -> bool
        requires { IsKeyed self.now.rows }
        ensures row { OnTrue result (IsIndexOf (values self.now.rows) at pc) }
        ensures found { OnTrue result (is_some (row_at (values self.now.rows) pc) ≡ true) }
    {
        match self.rows.get_index(at) {
            Some((key, _)) => *key == pc,
            None => false,
        }
    }

    // The index of the row of an address.
    #[inline(always)]
    fn index(&mut self, pc: u32) -> Option<usize>
        requires { IsKeyed self.old.rows }
        ensures rows { self.new.rows ≡ self.old.rows }
        ensures row { IfSome result (λ at. IsIndexOf (values self.old.rows) at pc) }
        ensures found { is_some result ≡ is_some (row_at (values self.old.rows) pc) }
    {
        let low = pc as usize / 4 % NEAR;
        let near = self.near[low];
        if self.has(near, pc) {
            return Some(near);
        }
        let found = self.rows.get_index_of(&pc);
        if let Some(at) = found {
            self.near[low] = at;
        }
        found
    }

    /// Notes that a byte with this mark was read: 1 more than the address of a store, or 0.
    #[inline(always)]
    pub fn mark(&mut self, mark: u32)
        requires { IsKeyed self.old.rows }
        ensures rows { values self.new.rows ≡ marked mark (values self.old.rows) }
        ensures keyed { IsKeyed self.new.rows }
    {
        if mark == 0 {
            return;
        }
        if let Some(at) = self.index(mark - 1) {
            mark_row(&mut self.rows, at);
        }
    }

    /// Counts a position in the row of its address, and answers how many targets that added.
    #[inline(always)]
    pub fn count(&mut self, alloc: Global, visit: &Visit) -> Result<usize, AllocError>
        requires keyed { IsKeyed self.old.rows }
        requires room { EachHasRoom (values self.old.rows) }
        ensures rows { OnOk result (IsVisited visit.now self.old self.new) }
        ensures err { OnErr result (values self.new.rows ≡ values self.old.rows) }
        ensures keyed { IsKeyed self.new.rows }
        ensures few { IfOk result (λ n. n ≤ 1) }
        ensures added { IfOk result (λ n. HasMoreTargets (values self.old.rows) (values self.new.rows) n) }
    {
        match self.index(visit.pc) {
            Some(at) => count_row(&mut self.rows, at, visit),
            None => count_new(alloc, &mut self.rows, visit),
        }
    }

    /// A copy of the rows.
    pub fn copy(&self, alloc: Global) -> Result<Table, AllocError>
        requires { IsKeyed self.now.rows }
        ensures rows { IfOk result (λ t. values t.rows ≡ values self.now.rows) }
        ensures keyed { IfOk result (λ t. IsKeyed t.rows) }
    {
        let mut table = Table::new(alloc);
        for i in 0..self.rows.len() {
            copy_at(&mut table.rows, &self.rows, i)?;
        }
        Ok(table)
    }

    /// How many rows there are.
    #[inline(always)]
    pub fn len(&self) -> usize
        ensures { result ≡ length (values self.now.rows) }
    {
        self.rows.len()
    }

    /// How many rows a position at an address adds.
    pub fn new_rows(&self, pc: u32) -> usize
        requires { IsKeyed self.now.rows }
        ensures { result ≡ (if is_some (row_at (values self.now.rows) pc) then 0 else 1) }
    {
        match self.rows.get(&pc) {
            Some(_) => 0,
            None => 1,
        }
    }

    /// How many targets a position adds.
    pub fn new_targets(&self, visit: &Visit) -> usize
        requires keyed { IsKeyed self.now.rows }
        requires room { EachHasRoom (values self.now.rows) }
        ensures added { AddsTargets visit.now self.now result }
        ensures few { result ≤ 1 }
    {
        match self.rows.get(&visit.pc) {
            Some(row) => new_target(row, visit.target),
            None => first_target(visit.target),
        }
    }
}
