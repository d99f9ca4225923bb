//! The memory: its leaves, and those of them from which code or data came.
ghost use Rattle.std.specs.Prelude.{◌≡◌, ◌+◌, ◌*◌, ◌/◌, ◌%◌, ◌<◌, ◌≤◌, ℕ, Some, IfOk, OnOk, OnErr, length, slice_index};
ghost use Rattle.std.specs.Bool.{OnTrue, OnFalse};
ghost use Rattle.cells.specs.Bytes.{number as spelt, after_puts};
ghost use Rattle.page_leaves.specs.Trees.{held};
ghost use Rattle.page_tree.specs.Kept.{IsKept, IsLoaded, IsPut};
ghost use Rattle.tree_node.specs.Nodes.{bytes_of};

use crate::recent::Recent;
use memory::Memory;
use page_leaves::{Front, Leaves};
use std::alloc::{AllocError, Global};
use std::marker::Brand;
use std::rc::Rc;
use std::sync::ledger::{Blank, Ledger};
use tree_node::{Node, Steps};

/// A memory whose snapshots share leaves of 256 bytes and the nodes above them.
///
/// A put makes at most five nodes for each leaf that holds one of its bytes, and a snapshot none.
///
/// The leaves from which words of code came last are kept by one more owner each, so that code is found at once, and so
/// are those of the tree from which words of data came last. A put to such a leaf lets these owners go first.
#[derive(Drop)]
pub struct PageTree {
    leaves: Leaves,
    code: Front,
    loaded: Recent,
    ghost kept: { IsKept code leaves },
    ghost known: { IsLoaded loaded leaves },
}

// The word of a leaf at an address that is a multiple of 4.
#[inline(always)]
fn word_of(leaf: &Rc<Node>, a: u32) -> u32
    requires { a % 4 ≡ 0 }
    ensures { result ≡ spelt 4 (a % 256) (λ i. slice_index (bytes_of leaf.now.value) i) }
{
    leaf.word((a % 256) as u8)
}

impl PageTree {
    ghost use Rattle.page_leaves.specs.Trees.{leaves_of, leaf_of};

    // Puts bytes where that may take memory. What is kept of leaves there is let go before.
    #[inline(never)]
    fn put_slowly<L: Ledger>(
        &mut self,
        alloc: Global,
        a: u32,
        bytes: &[u8],
        steps: &mut Steps<L>,
    ) -> Result<(), AllocError>
        requires { length bytes.now ≤ 65536 }
        ensures ok { OnOk result (held self.new.leaves ≡ after_puts (held self.old.leaves) a bytes.now) }
        ensures err { OnErr result (held self.new.leaves ≡ held self.old.leaves) }
        ensures count { steps.new ≤ steps.old + 5 * leaves_of a (length bytes.now) }
    {
        let room = 256 - (a % 256) as usize;
        if bytes.is_empty() {
            return Ok(());
        }
        if bytes.len() <= room {
            self.code.forget(a / 256);
            self.loaded.forget(a / 256);
            return self.leaves.put_leaf(alloc, a, bytes, steps);
        }
        if bytes.len() <= room + 256 {
            return self.put_two(alloc, a, bytes, steps);
        }
        self.code = Front::new();
        self.loaded = Recent::new();
        self.leaves.put_across(alloc, a, bytes, steps)
    }

    // Puts bytes that lie in two leaves.
    fn put_two<L: Ledger>(
        &mut self,
        alloc: Global,
        a: u32,
        bytes: &[u8],
        steps: &mut Steps<L>,
    ) -> Result<(), AllocError>
        requires over { 256 < a % 256 + length bytes.now }
        requires two { a % 256 + length bytes.now ≤ 512 }
        ensures ok { OnOk result (held self.new.leaves ≡ after_puts (held self.old.leaves) a bytes.now) }
        ensures err { OnErr result (held self.new.leaves ≡ held self.old.leaves) }
        ensures count { steps.new ≤ steps.old + 10 }
    {
        let room = 256 - a % 256;
        let (here, later) = bytes.split_at(room as usize);
        let next = a.wrapping_add(room);
        self.code.forget(a / 256);
        self.code.forget(next / 256);
        self.loaded.forget(a / 256);
        self.loaded.forget(next / 256);
        self.leaves.put_two(alloc, a, here, next, later, steps)
    }

    // Writes bytes that lie in one leaf, if it stands in front and nobody else has it, and answers whether it did.
    #[inline(always)]
    fn write(&mut self, a: u32, bytes: &[u8]) -> bool
        requires { a % 256 + length bytes.now ≤ 256 }
        ensures written { OnTrue result (IsPut self.old.leaves self.new.leaves a bytes.now) }
        ensures refused { OnFalse result (held self.new.leaves ≡ held self.old.leaves) }
    {
        !self.code.has(a / 256) && !self.loaded.has(a / 256) && self.leaves.write(a, bytes)
    }

    // Writes bytes that lie in one leaf, in front or aside, or in two, if nobody else has these leaves, and answers
    // whether it did.
    #[inline(never)]
    fn write_near(&mut self, a: u32, bytes: &[u8]) -> bool
        requires { length bytes.now ≤ 65536 }
        ensures written { OnTrue result (IsPut self.old.leaves self.new.leaves a bytes.now) }
        ensures refused { OnFalse result (held self.new.leaves ≡ held self.old.leaves) }
    {
        let end = (a % 256) as usize + bytes.len();
        if end > 256 {
            return end <= 512 && self.write_over(a, bytes);
        }
        !self.code.has(a / 256) && !self.loaded.has(a / 256) && self.leaves.write_near(a, bytes)
    }

    // Writes bytes that lie in two leaves, if nobody else has these leaves, and answers whether it did.
    #[inline(always)]
    fn write_over(&mut self, a: u32, bytes: &[u8]) -> bool
        requires over { 256 < a % 256 + length bytes.now }
        requires two { a % 256 + length bytes.now ≤ 512 }
        ensures written { OnTrue result (IsPut self.old.leaves self.new.leaves a bytes.now) }
        ensures refused { OnFalse result (held self.new.leaves ≡ held self.old.leaves) }
    {
        let room = 256 - a % 256;
        let (here, later) = bytes.split_at(room as usize);
        let next = a.wrapping_add(room);
        !self.code.has(a / 256)
            && !self.code.has(next / 256)
            && !self.loaded.has(a / 256)
            && !self.loaded.has(next / 256)
            && self.leaves.write_both(a, here, next, later)
    }

    /// Puts at most 65,536 bytes from an address on, all or none, and counts the nodes that it makes: at most five for
    /// each leaf that holds one of the bytes. Addresses wrap.
    ///
    /// # Errors
    ///
    /// Want of memory alone. All bytes are then as they were.
    #[inline(always)]
    pub fn put_counted<L: Ledger>(
        &mut self,
        alloc: Global,
        a: u32,
        bytes: &[u8],
        steps: &mut Steps<L>,
    ) -> Result<(), AllocError>
        requires { length bytes.now ≤ 65536 }
        ensures ok { OnOk result (held self.new.leaves ≡ after_puts (held self.old.leaves) a bytes.now) }
        ensures err { OnErr result (held self.new.leaves ≡ held self.old.leaves) }
        ensures count { steps.new ≤ steps.old + 5 * leaves_of a (length bytes.now) }
    {
        if (a % 256) as usize + bytes.len() <= 256 && self.write(a, bytes) {
            return Ok(());
        }
        if self.write_near(a, bytes) {
            return Ok(());
        }
        self.put_slowly(alloc, a, bytes, steps)
    }

    // The same leaves, which are shared from then on.
    fn again(&self) -> Result<PageTree, AllocError>
        ensures { IfOk result (λ copy. held copy.leaves ≡ held self.now.leaves) }
    {
        Ok(PageTree {
            leaves: self.leaves.again()?,
            code: Front::new(),
            loaded: Recent::new(),
        })
    }

    /// A memory with the same bytes, which stands apart: a put to either one leaves the other. It makes no node.
    ///
    /// # Errors
    ///
    /// Want of memory alone.
    pub fn snapshot_counted<L: Ledger>(
        &self,
        _alloc: Global,
        steps: &mut Steps<L>,
    ) -> Result<PageTree, AllocError>
        ensures same { IfOk result (λ copy. held copy.leaves ≡ held self.now.leaves) }
        ensures count { steps.new ≡ steps.old }
    {
        self.again()
    }

    // The same as `put_slowly`, where nobody counts.
    #[inline(never)]
    fn put_blank<L: Ledger>(
        &mut self,
        alloc: Global,
        a: u32,
        bytes: &[u8],
        blank: Blank,
    ) -> Result<(), AllocError>
        requires short { length bytes.now ≤ 65536 }
        requires name { blank.name ≡ L.name }
        requires parts { blank.parts ≡ L.parts }
        requires some { 0 < blank.parts }
        ensures ok { OnOk result (held self.new.leaves ≡ after_puts (held self.old.leaves) a bytes.now) }
        ensures err { OnErr result (held self.new.leaves ≡ held self.old.leaves) }
    {
        let mut steps = Steps::<L>::new(blank);
        self.put_slowly(alloc, a, bytes, &mut steps)
    }

    // A word of code whose leaf isn't kept. It is from now on.
    #[inline(never)]
    fn fetch_elsewhere(&mut self, a: u32) -> u32
        requires { a % 4 ≡ 0 }
        ensures value { result ≡ spelt 4 a (held self.old.leaves) }
        ensures stays { held self.new.leaves ≡ held self.old.leaves }
    {
        if let Some(leaf) = self.leaves.owner(a / 256) {
            self.code.set(a / 256, Some(leaf));
        }
        self.leaves.word(a)
    }

    // Keeps one more owner of a leaf, from which a word is loaded.
    fn keep(&mut self, a: u32, leaf: Rc<Node>) -> u32
        requires even { a % 4 ≡ 0 }
        requires leaf { leaf_of self.old.leaves (a / 256) ≡ Some leaf.value }
        ensures value { result ≡ spelt 4 a (held self.old.leaves) }
        ensures stays { held self.new.leaves ≡ held self.old.leaves }
    {
        let word = word_of(&leaf, a);
        self.loaded.set(a / 256, leaf);
        word
    }

    // A word of data whose leaf neither stands in front nor is kept. It is kept from now on, if the tree has it.
    #[inline(never)]
    fn load_elsewhere(&mut self, a: u32) -> u32
        requires { a % 4 ≡ 0 }
        ensures value { result ≡ spelt 4 a (held self.old.leaves) }
        ensures stays { held self.new.leaves ≡ held self.old.leaves }
    {
        match self.leaves.owner_in_tree(a / 256) {
            Some(leaf) => self.keep(a, leaf),
            None => self.leaves.word(a),
        }
    }

    // A word of data whose leaf doesn't stand in front.
    #[inline(always)]
    fn load_behind(&mut self, a: u32) -> u32
        requires { a % 4 ≡ 0 }
        ensures value { result ≡ spelt 4 a (held self.old.leaves) }
        ensures stays { held self.new.leaves ≡ held self.old.leaves }
    {
        match self.loaded.word(a) {
            Some(word) => word,
            None => self.load_elsewhere(a),
        }
    }
}

impl Memory for PageTree {
    ghost use Rattle.page_leaves.specs.Trees.{held};

    ghost at = { λ t. held t.leaves };

    fn empty(_alloc: Global) -> Result<Self, AllocError> {
        Ok(PageTree {
            leaves: Leaves::new(),
            code: Front::new(),
            loaded: Recent::new(),
        })
    }

    #[inline(always)]
    fn get(&self, a: u32) -> u8 {
        self.leaves.byte(a)
    }

    #[inline(always)]
    fn half(&self, a: u32) -> u16 {
        self.leaves.half(a)
    }

    #[inline(always)]
    fn word(&self, a: u32) -> u32 {
        self.leaves.word(a)
    }

    #[inline(always)]
    fn fetch(&mut self, a: u32) -> u32 {
        match self.code.word(a) {
            Some(word) => word,
            None => self.fetch_elsewhere(a),
        }
    }

    #[inline(always)]
    fn load_word(&mut self, a: u32) -> u32 {
        if a % 4 != 0 {
            return self.leaves.word(a);
        }
        match self.leaves.word_in_front(a) {
            Some(word) => word,
            None => self.load_behind(a),
        }
    }

    #[inline(always)]
    fn has_same_line(&self, other: &PageTree, number: u32) -> bool {
        self.leaves.has_same_line(&other.leaves, number)
    }

    #[inline(always)]
    fn put(&mut self, alloc: Global, a: u32, bytes: &[u8]) -> Result<(), AllocError> {
        if (a % 256) as usize + bytes.len() <= 256 && self.write(a, bytes) {
            return Ok(());
        }
        if self.write_near(a, bytes) {
            return Ok(());
        }
        self.put_blank::<Brand>(alloc, a, bytes, Blank::new(1))
    }

    fn snapshot(&self, _alloc: Global) -> Result<Self, AllocError> {
        self.again()
    }
}
