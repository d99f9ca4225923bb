//! What a profile holds, and its readers.

ghost use Rattle.std.specs.Prelude.{◌≡◌, length, slice_get};
ghost use Rattle.std.specs.Option.{option_copied};
ghost use Rattle.indexmap.specs.IndexMap.{values};
ghost use Rattle.profile_data.specs.Profile.{IsProfile, row_at};
ghost use Rattle.profile_data.specs.Keyed.{IsKeyed, profiled};

use indexmap::IndexMap;
use std::marker::Model;

/// What a run did at one address.
#[derive(Debug, Drop)]
pub struct Row {
    /// The address, a multiple of 4.
    pub pc: u32,
    /// How many steps executed the instruction here, at least 1.
    pub executed: u64,
    /// At how many of them a branch's condition held.
    pub taken: u64,
    /// Whether a byte that a store wrote here was read before it was written again.
    pub read: bool,
    /// Whether one of them executed another word than the program's.
    pub changed: bool,
    /// The addresses that an indirect jump went to from here, rising.
    pub targets: Vec<u32>,
}

impl Model for Row {
    ghost use Rattle.profile_data.specs.Profile.{Tally};

    ghost Value = { Tally };

    ghost view = { λ row. record {
      pc = row.pc;
      executed = row.executed;
      taken = row.taken;
      read = row.read;
      changed = row.changed;
      targets = row.targets.items;
    } };
}

/// What a run did in a number of steps: a row for each address that it executed, in the order of
/// their first steps.
///
/// A profile is always one that a file can hold: at most 524,288 rows with different addresses,
/// whose steps add up to those of the run, and at most 1,048,576 targets in all.
#[derive(Debug, Drop)]
pub struct Profile {
    steps: u64,
    ended: bool,
    rows: IndexMap<u32, Row>,
}

impl Model for Profile {
    ghost use Rattle.profile_data.specs.Profile.{Profiled, IsProfile};
    ghost use Rattle.profile_data.specs.Keyed.{IsKeyed, profiled};

    ghost Value = { Profiled };

    ghost view = { λ p. profiled p.steps p.ended p.rows };

    ghost invariant = { λ p. IsKeyed p.rows × IsProfile (profiled p.steps p.ended p.rows) };
}

impl Profile {
    /// The profile with these rows, each under its own address. Takes no memory.
    pub fn new(steps: u64, ended: bool, rows: IndexMap<u32, Row>) -> Profile
        requires keyed { IsKeyed rows }
        requires valid { IsProfile (profiled steps ended rows) }
        ensures { result ≡ profiled steps ended rows }
    {
        Profile { steps, ended, rows }
    }

    /// The row of an address, or None where no row has it. Takes no memory.
    pub fn row(&self, pc: u32) -> Option<&Row>
        ensures { option_copied result ≡ row_at self.now.rows pc }
    {
        self.rows.get(&pc)
    }

    /// The row of this number, from 0 on, or None where there are no more rows. Takes no memory.
    pub fn at(&self, i: u32) -> Option<&Row>
        ensures { option_copied result ≡ slice_get self.now.rows i }
    {
        self.rows().get(i as usize)
    }

    /// The rows in their order.
    pub(crate) fn rows(&self) -> &[Row]
        ensures rows { result.now ≡ self.now.rows }
        ensures valid { IsProfile self.now }
    {
        self.rows.values().as_slice()
    }

    /// The number of rows, at most 524,288. Takes no memory.
    pub fn len(&self) -> u32
        ensures len { result ≡ length self.now.rows }
        ensures valid { IsProfile self.now }
    {
        self.rows.len() as u32
    }

    /// The number of steps. Takes no memory.
    pub fn steps(&self) -> u64
        ensures steps { result ≡ self.now.steps }
        ensures valid { IsProfile self.now }
    {
        self.steps
    }

    /// Whether the run has ended with the last step. Takes no memory.
    pub fn ended(&self) -> bool
        ensures { result ≡ self.now.ended }
    {
        self.ended
    }
}
