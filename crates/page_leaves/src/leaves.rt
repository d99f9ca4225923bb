//! The leaves of a memory, by number: in front of the tree, aside, or in it. A leaf is looked for in that order.
//!
//! Each change that may want memory leaves all bytes as they were until its last step, which can't be refused.
ghost use Rattle.std.specs.Prelude.{◌≡◌, ◌+◌, ◌*◌, ◌/◌, ◌%◌, ◌^◌, ◌<◌, ◌≤◌, ◌==◌, if◌then◌else◌, ℕ, None, Some, IfOk, IfSome, OnOk, OnErr, length, slice_index, option_map};
ghost use Rattle.std.specs.Bool.{OnTrue, OnFalse};
ghost use Rattle.cells.specs.Bytes.{number as spelt, after_puts};
ghost use Rattle.tree_node.specs.Nodes.{owned, byte, bytes_of, overwritten};
ghost use Rattle.page_leaves.specs.Paths.{leaf_below, leaf_bytes};

use crate::front::Front;
use crate::path::{find, place, take};
use std::alloc::{AllocError, Global};
use std::rc::Rc;
use std::sync::ledger::Ledger;
use tree_node::{Node, Steps};

/// Leaves of 256 bytes under four levels of nodes, which snapshots share.
///
/// The leaves that were put to last stand in front of the tree, and those whose places in front they
/// took stand aside. A leaf or a node that no snapshot has is changed where it lies; one that a
/// snapshot has is made anew.
#[derive(Drop)]
pub struct Leaves {
    root: Option<Rc<Node>>,
    front: Front,
    aside: Front,
}

impl Leaves {
    ghost use Rattle.page_leaves.specs.Shown.{in_front, IsAlone, IsFree, AreApart, IsSameAt, IsSameElsewhere, IsSameBut, IsSameButTwo};
    ghost use Rattle.page_leaves.specs.Trees.{behind, leaf_of, held, both_put, AreLeavesKept, leaves_of};

    /// No leaves.
    pub fn new() -> Leaves
        ensures { held result ≡ (λ _. 0) }
    {
        Leaves {
            root: None,
            front: Front::new(),
            aside: Front::new(),
        }
    }

    // The leaf of a number.
    #[inline(always)]
    fn leaf(&self, number: u32) -> Option<&Rc<Node>>
        requires { number < 2 ^ 24 }
        ensures { option_map (λ leaf. leaf.now.value) result ≡ leaf_of self.now number }
    {
        match self.front.leaf(number) {
            Some(leaf) => Some(leaf),
            None => self.leaf_behind(number),
        }
    }

    // The leaf of a number that doesn't stand in front.
    #[inline(never)]
    fn leaf_behind(&self, number: u32) -> Option<&Rc<Node>>
        requires { number < 2 ^ 24 }
        ensures { option_map (λ leaf. leaf.now.value) result ≡ behind self.now number }
    {
        match self.aside.leaf(number) {
            Some(leaf) => Some(leaf),
            None => find(&self.root, number),
        }
    }

    // Lets the tree have the leaf of a number, if it stands aside.
    fn settle<L: Ledger>(
        &mut self,
        alloc: Global,
        number: u32,
        steps: &mut Steps<L>,
    ) -> Result<(), AllocError>
        requires { number < 2 ^ 24 }
        ensures front { (n : ℕ) → in_front self.new.front n ≡ in_front self.old.front n }
        ensures aside { (n : ℕ) → in_front self.new.aside n ≡ in_front self.old.aside n }
        ensures same { (n : ℕ) → behind self.new n ≡ behind self.old n }
        ensures settled { OnOk result (leaf_below 4 (owned self.new.root) number ≡ behind self.new number) }
        ensures count { steps.new ≤ steps.old + 4 }
    {
        match self.aside.leaf(number) {
            Some(leaf) => place(alloc, &mut self.root, 4, number, leaf, steps),
            None => Ok(()),
        }
    }

    // Makes the place of a number aside free. The leaf that stood there goes into the tree.
    fn put_back<L: Ledger>(
        &mut self,
        alloc: Global,
        number: u32,
        steps: &mut Steps<L>,
    ) -> Result<(), AllocError>
        requires { number < 2 ^ 24 }
        ensures front { (n : ℕ) → in_front self.new.front n ≡ in_front self.old.front n }
        ensures same { (n : ℕ) → behind self.new n ≡ behind self.old n }
        ensures free { OnOk result (IsFree self.new.aside number) }
        ensures count { steps.new ≤ steps.old + 4 }
    {
        let other = self.aside.occupant(number);
        self.settle(alloc, other, steps)?;
        self.aside.set(number, None);
        Ok(())
    }

    // Lets what stands in front at the place of a number and what stands aside there change places.
    #[inline(always)]
    fn turn(&mut self, number: u32)
        requires { AreApart self.old.front self.old.aside number }
        ensures same { (n : ℕ) → leaf_of self.new n ≡ leaf_of self.old n }
        ensures front { IsSameAt self.old.aside self.new.front number }
        ensures aside { IsSameAt self.old.front self.new.aside number }
        ensures others { IsSameElsewhere self.old.front self.new.front number }
    {
        self.front.exchange(&mut self.aside, number);
    }

    // Brings the leaf of a number from the tree to the front. The one that stood at its place steps aside.
    #[inline(never)]
    fn fetch<L: Ledger>(
        &mut self,
        alloc: Global,
        number: u32,
        steps: &mut Steps<L>,
    ) -> Result<(), AllocError>
        requires number { number < 2 ^ 24 }
        requires away { in_front self.old.front number ≡ None }
        ensures same { (n : ℕ) → leaf_of self.new n ≡ leaf_of self.old n }
        ensures alone { OnOk result (IsAlone self.new.front number) }
        ensures others { IsSameElsewhere self.old.front self.new.front number }
        ensures count { steps.new ≤ steps.old + 4 }
    {
        self.put_back(alloc, number, steps)?;
        self.turn(number);
        let leaf = take(&mut self.root, 4, number)?;
        self.front.set(number, leaf);
        Ok(())
    }

    // Brings the leaf of a number that stands aside to the front, and answers whether it did.
    #[inline(always)]
    fn turn_to(&mut self, number: u32) -> bool
        requires { in_front self.old.front number ≡ None }
        ensures same { (n : ℕ) → leaf_of self.new n ≡ leaf_of self.old n }
        ensures alone { OnTrue result (IsAlone self.new.front number) }
        ensures others { IsSameElsewhere self.old.front self.new.front number }
        ensures refused { OnFalse result (in_front self.new.front number ≡ None) }
    {
        if !self.aside.stands(number) {
            return false;
        }
        self.turn(number);
        true
    }

    // Brings the leaf of a number to the front, unless it is there.
    #[inline(always)]
    fn bring<L: Ledger>(
        &mut self,
        alloc: Global,
        number: u32,
        steps: &mut Steps<L>,
    ) -> Result<(), AllocError>
        requires { number < 2 ^ 24 }
        ensures same { (n : ℕ) → leaf_of self.new n ≡ leaf_of self.old n }
        ensures alone { OnOk result (IsAlone self.new.front number) }
        ensures others { IsSameElsewhere self.old.front self.new.front number }
        ensures count { steps.new ≤ steps.old + 4 }
    {
        if self.front.stands(number) {
            return Ok(());
        }
        if self.turn_to(number) {
            return Ok(());
        }
        self.fetch(alloc, number, steps)
    }

    // The bytes of the leaf of a number.
    fn bytes(&self, number: u32) -> [u8; 256]
        requires { number < 2 ^ 24 }
        ensures { (i : ℕ) → slice_index result i ≡ slice_index (leaf_bytes (leaf_of self.now number)) i }
    {
        match self.leaf(number) {
            Some(leaf) => leaf.bytes(),
            None => no_bytes(),
        }
    }

    /// Writes bytes that lie in one leaf, if it stands in front and no snapshot has it, and answers whether it did.
    #[inline(always)]
    pub fn write(&mut self, a: u32, bytes: &[u8]) -> bool
        requires { a % 256 + length bytes.now ≤ 256 }
        ensures written { OnTrue result (held self.new ≡ after_puts (held self.old) a bytes.now) }
        ensures refused { OnFalse result (held self.new ≡ held self.old) }
        ensures others { IsSameBut self.old.front self.new.front (a / 256) }
        ensures leaves { (n : ℕ) → (n ≡ a / 256 → ⊥) → leaf_of self.new n ≡ leaf_of self.old n }
    {
        self.front.write(a / 256, (a % 256) as u8, bytes)
    }

    /// The same, also where the leaf stands aside: it comes to the front.
    #[inline(always)]
    pub fn write_near(&mut self, a: u32, bytes: &[u8]) -> bool
        requires { a % 256 + length bytes.now ≤ 256 }
        ensures written { OnTrue result (held self.new ≡ after_puts (held self.old) a bytes.now) }
        ensures refused { OnFalse result (held self.new ≡ held self.old) }
        ensures leaves { (n : ℕ) → (n ≡ a / 256 → ⊥) → leaf_of self.new n ≡ leaf_of self.old n }
    {
        self.draw(a / 256);
        self.write(a, bytes)
    }

    // Lets the leaf of a number come to the front, if it stands aside.
    #[inline(always)]
    fn draw(&mut self, number: u32)
        ensures { (n : ℕ) → leaf_of self.new n ≡ leaf_of self.old n }
    {
        if !self.front.stands(number) {
            self.turn_to(number);
        }
    }

    // The same, once each that stands aside has come to the front.
    #[inline(never)]
    fn write_two_near(&mut self, a: u32, here: &[u8], next: u32, later: &[u8]) -> bool
        requires border { a % 256 + length here.now ≡ 256 }
        requires next { next ≡ (a + length here.now) % 2 ^ 32 }
        requires later { length later.now ≤ 256 }
        ensures written { OnTrue result (held self.new ≡ both_put (held self.old) a here.now next later.now) }
        ensures refused { OnFalse result (held self.new ≡ held self.old) }
        ensures leaves { AreLeavesKept self.old self.new a next }
    {
        self.draw(a / 256);
        self.draw(next / 256);
        self.write_two(a, here, next, later)
    }

    /// Writes bytes to the end of a leaf and on into the next one, if both stand in front or aside and no snapshot has
    /// them, and answers whether it did.
    #[inline(always)]
    pub fn write_both(&mut self, a: u32, here: &[u8], next: u32, later: &[u8]) -> bool
        requires border { a % 256 + length here.now ≡ 256 }
        requires next { next ≡ (a + length here.now) % 2 ^ 32 }
        requires later { length later.now ≤ 256 }
        ensures written { OnTrue result (held self.new ≡ both_put (held self.old) a here.now next later.now) }
        ensures refused { OnFalse result (held self.new ≡ held self.old) }
        ensures leaves { AreLeavesKept self.old self.new a next }
    {
        self.write_two(a, here, next, later) || self.write_two_near(a, here, next, later)
    }

    // Writes bytes to the end of a leaf and on into the next one, if both stand in front and no snapshot has
    // them, and answers whether it did.
    #[inline(always)]
    fn write_two(&mut self, a: u32, here: &[u8], next: u32, later: &[u8]) -> bool
        requires border { a % 256 + length here.now ≡ 256 }
        requires next { next ≡ (a + length here.now) % 2 ^ 32 }
        requires later { length later.now ≤ 256 }
        ensures written { OnTrue result (held self.new ≡ both_put (held self.old) a here.now next later.now) }
        ensures refused { OnFalse result (held self.new ≡ held self.old) }
        ensures others { IsSameButTwo self.old.front self.new.front (a / 256) (next / 256) }
        ensures leaves { AreLeavesKept self.old self.new a next }
    {
        self.front
            .write_both(a / 256, (a % 256) as u8, here, next / 256, later)
    }

    // Puts bytes that lie in one leaf, which is made anew and then stands in front.
    fn renew<L: Ledger>(
        &mut self,
        alloc: Global,
        a: u32,
        bytes: &[u8],
        steps: &mut Steps<L>,
    ) -> Result<(), AllocError>
        requires fits { a % 256 + length bytes.now ≤ 256 }
        requires alone { IsAlone self.old.front (a / 256) }
        ensures ok { OnOk result (held self.new ≡ after_puts (held self.old) a bytes.now) }
        ensures err { OnErr result (held self.new ≡ held self.old) }
        ensures leaves { (n : ℕ) → (n ≡ a / 256 → ⊥) → leaf_of self.new n ≡ leaf_of self.old n }
        ensures others { IsSameElsewhere self.old.front self.new.front (a / 256) }
        ensures count { steps.new ≤ steps.old + 1 }
    {
        let mut image = self.bytes(a / 256);
        overwrite(&mut image, (a % 256) as usize, bytes);
        let leaf = Node::leaf(alloc, image, steps)?;
        self.front.set(a / 256, Some(leaf));
        Ok(())
    }

    // Puts bytes that lie in one leaf, which stands in front if it is there.
    fn put_here<L: Ledger>(
        &mut self,
        alloc: Global,
        a: u32,
        bytes: &[u8],
        steps: &mut Steps<L>,
    ) -> Result<(), AllocError>
        requires fits { a % 256 + length bytes.now ≤ 256 }
        requires alone { IsAlone self.old.front (a / 256) }
        ensures ok { OnOk result (held self.new ≡ after_puts (held self.old) a bytes.now) }
        ensures err { OnErr result (held self.new ≡ held self.old) }
        ensures leaves { (n : ℕ) → (n ≡ a / 256 → ⊥) → leaf_of self.new n ≡ leaf_of self.old n }
        ensures others { IsSameElsewhere self.old.front self.new.front (a / 256) }
        ensures count { steps.new ≤ steps.old + 1 }
    {
        if self.write(a, bytes) {
            return Ok(());
        }
        self.renew(alloc, a, bytes, steps)
    }

    /// Puts bytes that lie in one leaf.
    #[inline(always)]
    pub fn put_leaf<L: Ledger>(
        &mut self,
        alloc: Global,
        a: u32,
        bytes: &[u8],
        steps: &mut Steps<L>,
    ) -> Result<(), AllocError>
        requires { a % 256 + length bytes.now ≤ 256 }
        ensures ok { OnOk result (held self.new ≡ after_puts (held self.old) a bytes.now) }
        ensures err { OnErr result (held self.new ≡ held self.old) }
        ensures leaves { (n : ℕ) → (n ≡ a / 256 → ⊥) → leaf_of self.new n ≡ leaf_of self.old n }
        ensures count { steps.new ≤ steps.old + 5 }
    {
        self.bring(alloc, a / 256, steps)?;
        self.put_here(alloc, a, bytes, steps)
    }

    // Puts bytes to the end of a leaf and on into the next one, which is made anew before anything changes.
    #[inline(never)]
    fn renew_two<L: Ledger>(
        &mut self,
        alloc: Global,
        a: u32,
        here: &[u8],
        next: u32,
        later: &[u8],
        steps: &mut Steps<L>,
    ) -> Result<(), AllocError>
        requires border { a % 256 + length here.now ≡ 256 }
        requires next { next ≡ (a + length here.now) % 2 ^ 32 }
        requires later { length later.now ≤ 256 }
        requires first { IsAlone self.old.front (a / 256) }
        requires second { IsAlone self.old.front (next / 256) }
        ensures ok { OnOk result (held self.new ≡ both_put (held self.old) a here.now next later.now) }
        ensures err { OnErr result (held self.new ≡ held self.old) }
        ensures leaves { AreLeavesKept self.old self.new a next }
        ensures count { steps.new ≤ steps.old + 2 }
    {
        let mut image = self.bytes(next / 256);
        overwrite(&mut image, 0, later);
        let second = Node::leaf(alloc, image, steps)?;
        self.put_here(alloc, a, here, steps)?;
        self.front.set(next / 256, Some(second));
        Ok(())
    }

    /// Puts bytes to the end of a leaf and on into the next one.
    #[inline(always)]
    pub fn put_two<L: Ledger>(
        &mut self,
        alloc: Global,
        a: u32,
        here: &[u8],
        next: u32,
        later: &[u8],
        steps: &mut Steps<L>,
    ) -> Result<(), AllocError>
        requires border { a % 256 + length here.now ≡ 256 }
        requires next { next ≡ (a + length here.now) % 2 ^ 32 }
        requires later { length later.now ≤ 256 }
        ensures ok { OnOk result (held self.new ≡ both_put (held self.old) a here.now next later.now) }
        ensures err { OnErr result (held self.new ≡ held self.old) }
        ensures leaves { AreLeavesKept self.old self.new a next }
        ensures count { steps.new ≤ steps.old + 10 }
    {
        self.bring(alloc, next / 256, steps)?;
        self.bring(alloc, a / 256, steps)?;
        if self.write_two(a, here, next, later) {
            return Ok(());
        }
        self.renew_two(alloc, a, here, next, later, steps)
    }

    /// The same leaves, which have one more owner each.
    pub fn again(&self) -> Result<Leaves, AllocError>
        ensures { IfOk result (λ copy. held copy ≡ held self.now) }
    {
        Ok(Leaves {
            root: owner_of(&self.root)?,
            front: self.front.again()?,
            aside: self.aside.again()?,
        })
    }

    /// Puts bytes whatever leaves they lie in: into a snapshot first, which then takes the place of this memory.
    pub fn put_across<L: Ledger>(
        &mut self,
        alloc: Global,
        a: u32,
        bytes: &[u8],
        steps: &mut Steps<L>,
    ) -> Result<(), AllocError>
        requires { length bytes.now ≤ 65536 }
        ensures ok { OnOk result (held self.new ≡ after_puts (held self.old) a bytes.now) }
        ensures err { OnErr result (held self.new ≡ held self.old) }
        ensures count { steps.new ≤ steps.old + 5 * leaves_of a (length bytes.now) }
    {
        let mut next = self.again()?;
        let mut at = a;
        let mut rest = bytes;
        while !rest.is_empty() {
            let room = 256 - (at % 256) as usize;
            let (here, later) = rest.split_at(rest.len().min(room));
            next.put_leaf(alloc, at, here, steps)?;
            at = at.wrapping_add(here.len() as u32);
            rest = later;
        }
        *self = next;
        Ok(())
    }

    /// The byte at an address.
    #[inline(always)]
    pub fn byte(&self, a: u32) -> u8
        ensures { result ≡ held self.now a }
    {
        match self.leaf(a / 256) {
            Some(leaf) => leaf.byte((a % 256) as u8),
            None => 0,
        }
    }

    /// The number that two bytes spell.
    #[inline(always)]
    pub fn half(&self, a: u32) -> u16
        ensures { result ≡ spelt 2 a (held self.now) }
    {
        let i = a % 256;
        if i + 2 > 256 {
            return self.half_across(a);
        }
        match self.leaf(a / 256) {
            Some(leaf) => leaf.half(i as u8),
            None => 0,
        }
    }

    /// The number that four bytes spell.
    #[inline(always)]
    pub fn word(&self, a: u32) -> u32
        ensures { result ≡ spelt 4 a (held self.now) }
    {
        let i = a % 256;
        if i + 4 > 256 {
            return self.word_across(a);
        }
        match self.leaf(a / 256) {
            Some(leaf) => leaf.word(i as u8),
            None => 0,
        }
    }

    /// Whether the 64 bytes from 64 · `number` on are surely the same in two memories: each has a leaf that holds them.
    pub fn has_same_line(&self, other: &Leaves, number: u32) -> bool
        requires { number < 2 ^ 26 }
        ensures { OnTrue result ((q : ℕ) → q / 64 ≡ number → held self.now q ≡ held other.now q) }
    {
        let Some(leaf) = self.leaf(number / 4) else {
            return false;
        };
        match other.leaf(number / 4) {
            Some(other) => other.has_same_line(leaf, (number % 4 * 64) as u8),
            None => false,
        }
    }

    /// One more owner of the leaf of a number, if there is a leaf, and no want of memory.
    pub fn owner(&self, number: u32) -> Option<Rc<Node>>
        requires { number < 2 ^ 24 }
        ensures { IfSome result (λ leaf. leaf_of self.now number ≡ Some leaf.value) }
    {
        match self.leaf(number) {
            Some(leaf) => leaf.clone().ok(),
            None => None,
        }
    }

    /// One more owner of the leaf of a number, if the tree has it and none stands in front or aside, and there is no want
    /// of memory.
    pub fn owner_in_tree(&self, number: u32) -> Option<Rc<Node>>
        requires { number < 2 ^ 24 }
        ensures { IfSome result (λ leaf. leaf_of self.now number ≡ Some leaf.value) }
    {
        if self.front.has(number) || self.aside.has(number) {
            return None;
        }
        match find(&self.root, number) {
            Some(leaf) => leaf.clone().ok(),
            None => None,
        }
    }

    /// The word at an address that is a multiple of 4, if its leaf stands in front.
    #[inline(always)]
    pub fn word_in_front(&self, a: u32) -> Option<u32>
        requires { a % 4 ≡ 0 }
        ensures { IfSome result (λ word. word ≡ spelt 4 a (held self.now)) }
    {
        match self.front.word(a) {
            Some(word) => Some(word),
            None => None,
        }
    }

    // Two bytes, which may lie in two leaves.
    #[inline(never)]
    fn half_across(&self, a: u32) -> u16
        ensures { result ≡ spelt 2 a (held self.now) }
    {
        spell_two(self.byte(a), self.byte(a.wrapping_add(1)))
    }

    // Four bytes, which may lie in two leaves.
    #[inline(never)]
    fn word_across(&self, a: u32) -> u32
        ensures { result ≡ spelt 4 a (held self.now) }
    {
        spell_four(
            self.byte(a),
            self.byte(a.wrapping_add(1)),
            self.byte(a.wrapping_add(2)),
            self.byte(a.wrapping_add(3)),
        )
    }
}

// The number that two bytes spell, the low one first.
fn spell_two(low: u8, high: u8) -> u16
    ensures { result ≡ low + 2 ^ 8 * high }
{
    u16::from_le_bytes([low, high])
}

// The number that four bytes spell, the lowest first.
fn spell_four(first: u8, second: u8, third: u8, fourth: u8) -> u32
    ensures { result ≡ first + 2 ^ 8 * (second + 2 ^ 8 * (third + 2 ^ 8 * fourth)) }
{
    u32::from_le_bytes([first, second, third, fourth])
}

fn no_bytes() -> [u8; 256]
    ensures { (i : ℕ) → slice_index result i ≡ 0 }
{
    [0; 256]
}

// Writes bytes from an index on.
fn overwrite(image: &mut [u8; 256], from: usize, bytes: &[u8])
    requires { from + length bytes.now ≤ 256 }
    ensures bytes { image.new ≡ overwritten image.old from bytes.now }
    ensures whole { length image.old ≡ 256 }
{
    image[from..from + bytes.len()].copy_from_slice(bytes);
}

// One more owner of a node.
fn owner_of(slot: &Option<Rc<Node>>) -> Result<Option<Rc<Node>>, AllocError>
    ensures { IfOk result (λ copy. owned copy ≡ owned slot.now) }
{
    match slot {
        Some(node) => Ok(Some(node.clone()?)),
        None => Ok(None),
    }
}
