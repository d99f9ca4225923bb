//! What is kept of a run while it is profiled: its rows so far, and which store wrote each byte last.

ghost use Rattle.std.specs.Prelude.{◌≡◌, ◌-◌, ◌<◌, ◌^◌, OnOk, OnErr, IfOk};
ghost use Rattle.std.specs.Bool.{OnTrue, OnFalse};
ghost use Rattle.indexmap.specs.IndexMap.{values};
ghost use Rattle.profile_data.specs.Profile.{target_count};
ghost use Rattle.profile_data.specs.Keyed.{IsKeyed};
ghost use Rattle.profile_laws.specs.Profiles.{IsWide};
ghost use Rattle.profile_laws.specs.Tally.{nothing_kept, after_visit};
ghost use Rattle.access_trace.specs.Shadows.{mark_at};
ghost use Rattle.profiler.specs.declared.owed.Owed.TheVariants.{Nothing, Entry, Marks};
ghost use Rattle.profiler.specs.Visits.{visit_of};
ghost use Rattle.profiler.specs.Rows.{EachHasRoom, IsVisited};
ghost use Rattle.profiler.specs.Tally.{kept_of, rows_with, IsTally, IsWideWith};

use crate::owed::Owed;
use crate::reading::note_reads;
use crate::rows::close;
use crate::table::Table;
use crate::visit::Visit;
use access_trace::{ByteRange, Shadow};
use indexmap::IndexMap;
use profile_data::Row;
use rv_step::Memory;
use std::alloc::{AllocError, Global};

/// The most rows of a profile.
const MOST_ROWS: usize = 524_288;

/// The most targets of a profile in all.
const MOST_TARGETS: usize = 1_048_576;

#[derive(Drop)]
pub(crate) struct Tally<M: Memory> {
    pub table: Table,
    /// The number of targets in all rows.
    pub targets: usize,
    /// Of each byte 1 more than the address of the store that wrote it last, or 0.
    pub writers: Shadow<M>,
    /// What want of memory left to enter.
    pub owed: Owed,
}

impl<M: Memory> Tally<M> {
    /// Nothing is kept yet.
    pub fn new(alloc: Global) -> Result<Self, AllocError>
        ensures kept { IfOk result (λ t. kept_of M.at t ≡ nothing_kept) }
        ensures tally { IfOk result (IsTally M.at) }
    {
        Ok(Tally {
            table: Table::new(alloc),
            targets: 0,
            writers: Shadow::new(alloc)?,
            owed: Owed::Nothing,
        })
    }

    // Whether there would be too many rows or targets after a position, where there are as many as
    // there may be of one of them.
    #[inline(never)]
    fn passes(&self, visit: &Visit) -> bool
        requires tally { IsTally M.at self.now }
        requires none { self.now.owed ≡ Nothing }
        requires room { EachHasRoom (values self.now.table.rows) }
        ensures wide { OnTrue result (IsWideWith M.at self.now visit.now) }
        ensures narrow { OnFalse result (IsWideWith M.at self.now visit.now → ⊥) }
    {
        let rows = self.table.len() + self.table.new_rows(visit.pc);
        let targets = self.targets + self.table.new_targets(visit);
        rows > MOST_ROWS || targets > MOST_TARGETS
    }

    /// Whether there would be too many rows or targets after a position.
    #[inline(always)]
    pub fn is_wide_with(&self, visit: &Visit) -> bool
        requires tally { IsTally M.at self.now }
        requires none { self.now.owed ≡ Nothing }
        requires room { EachHasRoom (values self.now.table.rows) }
        ensures wide { OnTrue result (IsWideWith M.at self.now visit.now) }
        ensures narrow { OnFalse result (IsWideWith M.at self.now visit.now → ⊥) }
    {
        if self.table.len() < MOST_ROWS && self.targets < MOST_TARGETS {
            return false;
        }
        self.passes(visit)
    }

    /// Counts a position in its row.
    #[inline(always)]
    fn count(&mut self, alloc: Global, visit: &Visit) -> Result<(), AllocError>
        requires keyed { IsKeyed self.old.table.rows }
        requires count { self.old.targets ≡ target_count (values self.old.table.rows) }
        requires few { IsWide (values self.old.table.rows) → ⊥ }
        requires room { EachHasRoom (values self.old.table.rows) }
        ensures rows { OnOk result (IsVisited visit.now self.old.table self.new.table) }
        ensures err { OnErr result (values self.new.table.rows ≡ values self.old.table.rows) }
        ensures keyed { IsKeyed self.new.table.rows }
        ensures count { self.new.targets ≡ target_count (values self.new.table.rows) }
        ensures writers { mark_at M.at self.new.writers ≡ mark_at M.at self.old.writers }
        ensures owed { self.new.owed ≡ self.old.owed }
    {
        let added = self.table.count(alloc, visit)?;
        self.targets += added;
        Ok(())
    }

    /// Keeps what a position does. Where there is no memory left some of it is owed.
    #[inline(always)]
    pub fn add(&mut self, alloc: Global, visit: &Visit)
        requires tally { IsTally M.at self.old }
        requires none { self.old.owed ≡ Nothing }
        requires room { EachHasRoom (values self.old.table.rows) }
        requires claim { visit.now.claim < 2 ^ 32 - 1 }
        requires narrow { IsWideWith M.at self.old visit.now → ⊥ }
        ensures kept { kept_of M.at self.new ≡ after_visit (visit_of visit.now) (kept_of M.at self.old) }
        ensures tally { IsTally M.at self.new }
    {
        let Visit { puts, claim, .. } = *visit;
        note_reads(&mut self.table, &self.writers, visit);
        let Ok(()) = self.count(alloc, visit) else {
            self.owed = Owed::Entry(*visit);
            return;
        };
        let Ok(()) = self.writers.put(alloc, puts, claim) else {
            self.owed = Owed::Marks(puts, claim);
            return;
        };
    }

    // Tries once more to enter a position.
    fn retry(&mut self, alloc: Global, visit: &Visit) -> Result<(), AllocError>
        requires tally { IsTally M.at self.old }
        requires owed { self.old.owed ≡ Entry visit.now }
        ensures kept { kept_of M.at self.new ≡ kept_of M.at self.old }
        ensures tally { IsTally M.at self.new }
        ensures ok { OnOk result (self.new.owed ≡ Nothing) }
    {
        self.owed = Owed::Nothing;
        self.add(alloc, visit);
        match self.owed {
            Owed::Nothing => Ok(()),
            _ => Err(AllocError),
        }
    }

    // Tries once more to mark the bytes that a position puts.
    fn mark(&mut self, alloc: Global, span: ByteRange, claim: u32) -> Result<(), AllocError>
        requires tally { IsTally M.at self.old }
        requires owed { self.old.owed ≡ Marks span claim }
        ensures kept { kept_of M.at self.new ≡ kept_of M.at self.old }
        ensures tally { IsTally M.at self.new }
        ensures ok { OnOk result (self.new.owed ≡ Nothing) }
    {
        self.writers.put(alloc, span, claim)?;
        self.owed = Owed::Nothing;
        Ok(())
    }

    /// Enters what is owed. What is kept stays, since that counts as kept already.
    #[inline(always)]
    pub fn enter(&mut self, alloc: Global) -> Result<(), AllocError>
        requires tally { IsTally M.at self.old }
        ensures kept { kept_of M.at self.new ≡ kept_of M.at self.old }
        ensures tally { IsTally M.at self.new }
        ensures ok { OnOk result (self.new.owed ≡ Nothing) }
    {
        match self.owed {
            Owed::Nothing => Ok(()),
            Owed::Entry(visit) => self.retry(alloc, &visit),
            Owed::Marks(span, claim) => self.mark(alloc, span, claim),
        }
    }

    // A copy of the rows, in which a position is counted.
    fn counted(&self, alloc: Global, visit: &Visit) -> Result<Table, AllocError>
        requires keyed { IsKeyed self.now.table.rows }
        requires room { EachHasRoom (values self.now.table.rows) }
        ensures rows { IfOk result (λ t. values t.rows ≡ rows_with M.at self.now visit.now) }
        ensures keyed { IfOk result (λ t. IsKeyed t.rows) }
    {
        let mut table = self.table.copy(alloc)?;
        note_reads(&mut table, &self.writers, visit);
        table.count(alloc, visit)?;
        Ok(table)
    }

    // The rows with a position that is owed.
    fn close_with(&self, alloc: Global, visit: &Visit) -> Result<IndexMap<u32, Row>, AllocError>
        requires keyed { IsKeyed self.now.table.rows }
        requires room { EachHasRoom (values self.now.table.rows) }
        ensures rows { IfOk result (λ rows. values rows ≡ rows_with M.at self.now visit.now) }
        ensures keyed { IfOk result IsKeyed }
    {
        let table = self.counted(alloc, visit)?;
        close(alloc, &table.rows)
    }

    /// The rows, with what is owed.
    pub fn close(&self, alloc: Global) -> Result<IndexMap<u32, Row>, AllocError>
        requires { IsTally M.at self.now }
        ensures rows { IfOk result (λ rows. values rows ≡ (kept_of M.at self.now).rows) }
        ensures keyed { IfOk result IsKeyed }
    {
        match &self.owed {
            Owed::Nothing | Owed::Marks(..) => close(alloc, &self.table.rows),
            Owed::Entry(visit) => self.close_with(alloc, visit),
        }
    }
}
