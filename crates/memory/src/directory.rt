//! Where each page lies: an ordered map from page numbers to places, with a number's two digits as its keys.
ghost use Rattle.std.specs.Prelude.{◌≡◌, ◌≤◌, ℕ, ◌<◌, ◌/◌, ◌^◌, ◌==◌, IfOk, OnOk, OnErr, MatchOption, slice_index, slice_get, Some};

use std::alloc::{AllocError, Global};

/// The places of the 1,024 pages whose numbers have one upper digit.
#[derive(Drop, Clone, Copy)]
pub struct Table {
    pub upper: u32,
    pub places: [usize; 1024],
}

/// A place for each page number below 2^20: the one that was set last, 0 where none was.
///
/// A number has two digits of ten bits. The upper one gives a table, the lower one the place in it. A table holds
/// its own digit, and a look-up that comes to the table of another digit finds nothing.
#[derive(Drop)]
pub struct Directory {
    pub top: [usize; 1024],
    pub tables: Vec<Table>,
}

impl Directory {
    ghost use Rattle.memory.specs.Pages.{place_in, entry, IsTableOf, IsSet};

    /// A directory in which each place is 0.
    pub fn new(alloc: Global) -> Self
        ensures { (n : ℕ) → place_in result n ≡ 0 }
    {
        Directory {
            top: [0; 1024],
            tables: Vec::new(alloc),
        }
    }

    // The index of the table of that digit, if there is one.
    #[inline(always)]
    fn table(&self, upper: u32) -> Option<usize>
        requires { upper < 1024 }
        ensures { MatchOption result
            ((lower : ℕ) → entry (slice_get self.now.tables.items (slice_index self.now.top upper)) upper lower ≡ 0)
            (λ at. IsTableOf self.now upper at) }
    {
        let at = self.top[upper as usize];
        match self.tables.get(at) {
            Some(table) if table.upper == upper => Some(at),
            _ => None,
        }
    }

    /// The place of that page.
    #[inline(always)]
    pub fn place(&self, number: u32) -> usize
        requires { number < 2 ^ 20 }
        ensures { result ≡ place_in self.now number }
    {
        match self.table(number / 1024) {
            Some(at) => self.tables[at].places[(number % 1024) as usize],
            None => 0,
        }
    }

    // The index of the table of that digit, which is made if there is none.
    fn make_table(&mut self, upper: u32) -> Result<usize, AllocError>
        requires { upper < 1024 }
        ensures same { (n : ℕ) → place_in self.new n ≡ place_in self.old n }
        ensures found { IfOk result (λ at. IsTableOf self.new upper at) }
    {
        if let Some(at) = self.table(upper) {
            return Ok(at);
        }
        let made = self.tables.len();
        self.tables.push(Table {
            upper,
            places: [0; 1024],
        })?;
        self.top[upper as usize] = made;
        Ok(made)
    }

    /// Sets the place of that page; the others stay.
    pub fn set(&mut self, number: u32, place: usize) -> Result<(), AllocError>
        requires { number < 2 ^ 20 }
        ensures ok { OnOk result (IsSet self.old self.new number place) }
        ensures err { OnErr result ((n : ℕ) → place_in self.new n ≡ place_in self.old n) }
    {
        let at = self.make_table(number / 1024)?;
        self.tables[at].places[(number % 1024) as usize] = place;
        Ok(())
    }

    /// A directory with the same places.
    pub fn snapshot(&self, alloc: Global) -> Result<Self, AllocError>
        ensures { IfOk result (λ d. (n : ℕ) → place_in d n ≡ place_in self.now n) }
    {
        Ok(Directory {
            top: self.top,
            tables: Vec::from_slice(alloc, &self.tables)?,
        })
    }
}
