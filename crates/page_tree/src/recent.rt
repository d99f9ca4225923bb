//! Sixteen places for leaves that words were loaded from.
//!
//! A place is given by a leaf's number and by the region of 512 KiB that it lies in, so that leaves at the same place of
//! regions that follow one another have places of their own: programs go through two halves of a large array at once.
ghost use Rattle.std.specs.Prelude.{◌≡◌, ◌/◌, ◌%◌, ◌^◌, ◌<◌, ◌==◌, if◌then◌else◌, ℕ, None, Some, is_some, IfSome, option_map};
ghost use Rattle.tree_node.specs.Nodes.{owned, child_at};
ghost use Rattle.page_tree.specs.Spots.{spot};

use std::rc::Rc;
use tree_node::Node;

/// Leaves of which a word was loaded: further owners of what a memory has.
#[derive(Drop)]
pub(crate) struct Recent {
    pub(crate) numbers: [u32; 16],
    pub(crate) leaves: [Option<Rc<Node>>; 16],
}

fn no_leaves() -> [Option<Rc<Node>>; 16]
    ensures { (i : ℕ) → child_at result i ≡ None }
{
    [const { None }; 16]
}

// The place of a leaf.
#[inline(always)]
fn spot_of(number: u32) -> usize
    requires { number < 2 ^ 24 }
    ensures { result ≡ spot number }
{
    ((number + number / 0x800) % 16) as usize
}

impl Recent {
    ghost use Rattle.page_tree.specs.Shown.{in_recent, recent_word};

    /// No leaves.
    pub(crate) fn new() -> Recent
        ensures { (n : ℕ) → in_recent result n ≡ None }
    {
        Recent {
            numbers: [0; 16],
            leaves: no_leaves(),
        }
    }

    /// The leaf of a number, if it stands here.
    #[inline(always)]
    fn leaf(&self, number: u32) -> Option<&Rc<Node>>
        requires { number < 2 ^ 24 }
        ensures { option_map (λ leaf. leaf.now.value) result ≡ in_recent self.now number }
    {
        let k = spot_of(number);
        if self.numbers[k] == number {
            self.leaves[k].as_ref()
        } else {
            None
        }
    }

    /// Whether the leaf of a number stands here.
    #[inline(always)]
    pub(crate) fn has(&self, number: u32) -> bool
        requires { number < 2 ^ 24 }
        ensures { result ≡ is_some (in_recent self.now number) }
    {
        self.leaf(number).is_some()
    }

    /// Lets a leaf stand at its place. The one that stood there goes.
    pub(crate) fn set(&mut self, number: u32, leaf: Rc<Node>)
        requires { number < 2 ^ 24 }
        ensures here { in_recent self.new number ≡ Some leaf.value }
        ensures away { (n : ℕ) → spot n ≡ spot number → (n ≡ number → ⊥) → in_recent self.new n ≡ None }
        ensures others { (n : ℕ) → (spot n ≡ spot number → ⊥) → in_recent self.new n ≡ in_recent self.old n }
    {
        let k = spot_of(number);
        self.numbers[k] = number;
        self.leaves[k] = Some(leaf);
    }

    /// Lets the leaf of a number go.
    pub(crate) fn forget(&mut self, number: u32)
        requires { number < 2 ^ 24 }
        ensures { (n : ℕ) → in_recent self.new n ≡ (if n == number then None else in_recent self.old n) }
    {
        let k = spot_of(number);
        if self.numbers[k] == number {
            self.leaves[k] = None;
        }
    }

    /// The word at an address that is a multiple of 4, if its leaf stands here.
    #[inline(always)]
    pub(crate) fn word(&self, a: u32) -> Option<u32>
        requires { a % 4 ≡ 0 }
        ensures there { is_some result ≡ is_some (in_recent self.now (a / 256)) }
        ensures value { IfSome result (λ word. word ≡ recent_word self.now a) }
    {
        match self.leaf(a / 256) {
            Some(leaf) => Some(leaf.word((a % 256) as u8)),
            None => None,
        }
    }
}
