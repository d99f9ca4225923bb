//! Pages: 4,096 bytes that lie together.
ghost use Rattle.std.specs.Prelude.{◌≡◌, ℕ, ◌+◌, ◌<◌, ◌≤◌, length, [], Some, true, slice_index, MatchOption};
ghost use Rattle.std.specs.Bool.{OnTrue, OnFalse};
ghost use Rattle.cells.specs.Bytes.{number};

/// The 4,096 bytes at the addresses whose upper 20 bits are `number`.
#[derive(Drop, Clone, Copy)]
pub struct Page {
    pub number: u32,
    pub bytes: [u8; 4096],
}

impl Page {
    ghost use Rattle.memory.specs.Pages.{bytes_at, number_at, overwritten, IsWritten, AreOthersSame};

    /// Page `number`, if it lies at that place.
    #[inline(always)]
    pub fn find(pages: &[Page], place: usize, number: u32) -> Option<&Page>
        ensures { MatchOption result
            ((bytes_at pages.now place number ≡ []) × (number_at pages.now place ≡ Some number → ⊥))
            (λ page. (bytes_at pages.now place number ≡ page.now.bytes) × (number_at pages.now place ≡ Some number)) }
    {
        match pages.get(place) {
            Some(page) if page.number == number => Some(page),
            _ => None,
        }
    }

    // Writes bytes from an index on.
    #[inline(always)]
    fn overwrite(&mut self, from: usize, bytes: &[u8])
        requires { from + length bytes.now ≤ 4096 }
        ensures number { self.new.number ≡ self.old.number }
        ensures whole { length self.old.bytes ≡ 4096 }
        ensures bytes { self.new.bytes ≡ overwritten self.old.bytes from bytes.now }
    {
        self.bytes[from..from + bytes.len()].copy_from_slice(bytes);
    }

    /// Writes bytes into page `number` from an index on, if it lies at that place, and answers whether it does.
    #[inline(always)]
    pub fn write(
        pages: &mut Vec<Page>,
        place: usize,
        number: u32,
        from: usize,
        bytes: &[u8],
    ) -> bool
        requires { from + length bytes.now ≤ 4096 }
        ensures here { OnTrue result (IsWritten pages.old.items pages.new.items place number from bytes.now) }
        ensures whole { OnTrue result (length (bytes_at pages.old.items place number) ≡ 4096) }
        ensures others { AreOthersSame pages.old.items pages.new.items place number }
        ensures refused { OnFalse result (pages.new.items ≡ pages.old.items) }
        ensures found { number_at pages.old.items place ≡ Some number → result ≡ true }
        ensures numbers { (p : ℕ) → number_at pages.new.items p ≡ number_at pages.old.items p }
    {
        if place >= pages.len() || pages[place].number != number {
            return false;
        }
        pages[place].overwrite(from, bytes);
        true
    }

    /// The number that the two bytes from an index on spell.
    #[inline(always)]
    pub fn half(&self, i: usize) -> u16
        requires { i + 2 ≤ 4096 }
        ensures { result ≡ number 2 i (λ k. slice_index self.now.bytes k) }
    {
        u16::from_le_bytes([self.bytes[i], self.bytes[i + 1]])
    }

    /// The number that the four bytes from an index on spell.
    #[inline(always)]
    pub fn word(&self, i: usize) -> u32
        requires { i + 4 ≤ 4096 }
        ensures { result ≡ number 4 i (λ k. slice_index self.now.bytes k) }
    {
        u32::from_le_bytes([
            self.bytes[i],
            self.bytes[i + 1],
            self.bytes[i + 2],
            self.bytes[i + 3],
        ])
    }
}
