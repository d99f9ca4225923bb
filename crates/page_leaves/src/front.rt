//! Sixteen places for leaves that are found by their numbers alone, without a way through the tree.
ghost use Rattle.std.specs.Prelude.{◌≡◌, ◌+◌, ◌%◌, ◌^◌, ◌<◌, ◌≤◌, ◌==◌, if◌then◌else◌, ℕ, None, Some, true, false, is_some, ◌/◌, IfOk, IfSome, length, option_map};
ghost use Rattle.std.specs.Bool.{OnTrue, OnFalse};
ghost use Rattle.tree_node.specs.Nodes.{owned, child_at, bytes_of, is_inner};
ghost use Rattle.page_leaves.specs.Paths.{leaf_bytes, word_in, IsOverwritten, AreOverwritten, IsWritten, IsAlike};
ghost use Rattle.page_leaves.specs.Fronts.{AreNumbers};

use std::alloc::AllocError;
use std::mem;
use std::rc::Rc;
use tree_node::Node;

/// Leaves, each at the place that its number modulo 16 gives.
#[derive(Drop)]
pub struct Front {
    pub(crate) numbers: [u32; 16],
    pub(crate) leaves: [Option<Rc<Node>>; 16],
    pub ghost small: { AreNumbers numbers },
}

fn no_leaves() -> [Option<Rc<Node>>; 16]
    ensures { (i : ℕ) → child_at result i ≡ None }
{
    [const { None }; 16]
}

// One more owner of each of these leaves.
fn again(leaves: &[Option<Rc<Node>>; 16]) -> Result<[Option<Rc<Node>>; 16], AllocError>
    ensures { IfOk result (λ copy. (i : ℕ) → child_at copy i ≡ child_at leaves.now i) }
{
    let mut copy = no_leaves();
    for i in 0..16 {
        if let Some(leaf) = &leaves[i] {
            copy[i] = Some(leaf.clone()?);
        }
    }
    Ok(copy)
}

// Writes bytes into a leaf from a place on, if it has no other owner, and answers whether it did.
#[inline(always)]
fn write_owned(leaf: &mut Rc<Node>, from: u8, bytes: &[u8]) -> bool
    requires { from + length bytes.now ≤ 256 }
    ensures written { OnTrue result (IsOverwritten leaf.old.value leaf.new.value from bytes.now) }
    ensures whole { OnTrue result (length (bytes_of leaf.old.value) ≡ 256) }
    ensures refused { OnFalse result (bytes_of leaf.new.value ≡ bytes_of leaf.old.value) }
{
    match Rc::get_mut(leaf) {
        Some(node) => node.write(from, bytes),
        None => false,
    }
}

// The same for what may be a leaf.
#[inline(always)]
fn write_some(leaf: &mut Option<Rc<Node>>, from: u8, bytes: &[u8]) -> bool
    requires { from + length bytes.now ≤ 256 }
    ensures written { OnTrue result (AreOverwritten (owned leaf.old) (owned leaf.new) from bytes.now) }
    ensures whole { OnTrue result (length (leaf_bytes (owned leaf.old)) ≡ 256) }
    ensures there { OnTrue result (is_some (owned leaf.new) ≡ true) }
    ensures stays { is_some (owned leaf.new) ≡ is_some (owned leaf.old) }
    ensures refused { OnFalse result (leaf_bytes (owned leaf.new) ≡ leaf_bytes (owned leaf.old)) }
{
    match leaf {
        Some(leaf) => write_owned(leaf, from, bytes),
        None => false,
    }
}

// Writes bytes into a leaf from a place on, and answers whether it is one. Few bytes, such as a word's on one
// side of a border, are written at once.
#[inline(always)]
fn write_few(node: &mut Node, from: u8, bytes: &[u8]) -> bool
    requires { from + length bytes.now ≤ 256 }
    ensures written { OnTrue result (IsOverwritten node.old node.new from bytes.now) }
    ensures whole { OnTrue result (length (bytes_of node.old) ≡ 256) }
    ensures refused { OnFalse result (bytes_of node.new ≡ bytes_of node.old) }
    ensures leaf { is_inner node.old ≡ false → result ≡ true }
{
    match bytes.len() {
        1 => node.write(from, &[bytes[0]]),
        2 => node.write(from, &[bytes[0], bytes[1]]),
        3 => node.write(from, &[bytes[0], bytes[1], bytes[2]]),
        _ => node.write(from, bytes),
    }
}

// Writes bytes into one leaf from a place on, and others at the head of another one, and answers whether
// both are leaves.
#[inline(always)]
fn write_nodes(first: &mut Node, from: u8, here: &[u8], second: &mut Node, later: &[u8]) -> bool
    requires here { from + length here.now ≤ 256 }
    requires later { length later.now ≤ 256 }
    ensures first { OnTrue result (IsOverwritten first.old first.new from here.now) }
    ensures second { OnTrue result (IsOverwritten second.old second.new 0 later.now) }
    ensures first_whole { OnTrue result (length (bytes_of first.old) ≡ 256) }
    ensures second_whole { OnTrue result (length (bytes_of second.old) ≡ 256) }
    ensures first_refused { OnFalse result (bytes_of first.new ≡ bytes_of first.old) }
    ensures second_refused { OnFalse result (bytes_of second.new ≡ bytes_of second.old) }
{
    !first.is_inner() && write_few(second, 0, later) && write_few(first, from, here)
}

// The same for a second one that may have another owner.
#[inline(always)]
fn write_beside(
    first: &mut Node,
    from: u8,
    here: &[u8],
    second: &mut Rc<Node>,
    later: &[u8],
) -> bool
    requires here { from + length here.now ≤ 256 }
    requires later { length later.now ≤ 256 }
    ensures first { OnTrue result (IsOverwritten first.old first.new from here.now) }
    ensures second { OnTrue result (IsOverwritten second.old.value second.new.value 0 later.now) }
    ensures first_whole { OnTrue result (length (bytes_of first.old) ≡ 256) }
    ensures second_whole { OnTrue result (length (bytes_of second.old.value) ≡ 256) }
    ensures first_refused { OnFalse result (bytes_of first.new ≡ bytes_of first.old) }
    ensures second_refused { OnFalse result (bytes_of second.new.value ≡ bytes_of second.old.value) }
{
    match Rc::get_mut(second) {
        Some(second) => write_nodes(first, from, here, second, later),
        None => false,
    }
}

// The same for two that may have other owners.
#[inline(always)]
fn write_both(
    first: &mut Rc<Node>,
    from: u8,
    here: &[u8],
    second: &mut Rc<Node>,
    later: &[u8],
) -> bool
    requires here { from + length here.now ≤ 256 }
    requires later { length later.now ≤ 256 }
    ensures first { OnTrue result (IsOverwritten first.old.value first.new.value from here.now) }
    ensures second { OnTrue result (IsOverwritten second.old.value second.new.value 0 later.now) }
    ensures first_whole { OnTrue result (length (bytes_of first.old.value) ≡ 256) }
    ensures second_whole { OnTrue result (length (bytes_of second.old.value) ≡ 256) }
    ensures first_refused { OnFalse result (bytes_of first.new.value ≡ bytes_of first.old.value) }
    ensures second_refused { OnFalse result (bytes_of second.new.value ≡ bytes_of second.old.value) }
{
    match Rc::get_mut(first) {
        Some(first) => write_beside(first, from, here, second, later),
        None => false,
    }
}

// The same for a second one that may be none.
#[inline(always)]
fn write_with_some(
    first: &mut Rc<Node>,
    from: u8,
    here: &[u8],
    second: &mut Option<Rc<Node>>,
    later: &[u8],
) -> bool
    requires here { from + length here.now ≤ 256 }
    requires later { length later.now ≤ 256 }
    ensures first { OnTrue result (IsOverwritten first.old.value first.new.value from here.now) }
    ensures first_whole { OnTrue result (length (bytes_of first.old.value) ≡ 256) }
    ensures first_refused { OnFalse result (bytes_of first.new.value ≡ bytes_of first.old.value) }
    ensures second { OnTrue result (IsWritten (owned second.old) (owned second.new) 0 later.now) }
    ensures second_refused { OnFalse result (IsAlike (owned second.old) (owned second.new)) }
{
    match second {
        Some(second) => write_both(first, from, here, second, later),
        None => false,
    }
}

// The same for two that may be none.
#[inline(always)]
fn write_some_both(
    first: &mut Option<Rc<Node>>,
    from: u8,
    here: &[u8],
    second: &mut Option<Rc<Node>>,
    later: &[u8],
) -> bool
    requires here { from + length here.now ≤ 256 }
    requires later { length later.now ≤ 256 }
    ensures first { OnTrue result (IsWritten (owned first.old) (owned first.new) from here.now) }
    ensures first_refused { OnFalse result (IsAlike (owned first.old) (owned first.new)) }
    ensures second { OnTrue result (IsWritten (owned second.old) (owned second.new) 0 later.now) }
    ensures second_refused { OnFalse result (IsAlike (owned second.old) (owned second.new)) }
{
    match first {
        Some(first) => write_with_some(first, from, here, second, later),
        None => false,
    }
}

impl Front {
    ghost use Rattle.page_leaves.specs.Shown.{in_front, IsAlone, IsSameAt, IsSameElsewhere, IsSameBut, IsSameButTwo, AreOverwrittenAt, IsUnwrittenAt, IsWrittenAt, IsAlikeAt};

    /// No leaves.
    pub fn new() -> Front
        ensures { (n : ℕ) → in_front result n ≡ None }
    {
        Front {
            numbers: [0; 16],
            leaves: no_leaves(),
        }
    }

    /// The leaf of a number, if it stands here.
    #[inline(always)]
    pub(crate) fn leaf(&self, number: u32) -> Option<&Rc<Node>>
        ensures { option_map (λ leaf. leaf.now.value) result ≡ in_front self.now number }
    {
        let k = (number % 16) as usize;
        if self.numbers[k] == number {
            self.leaves[k].as_ref()
        } else {
            None
        }
    }

    /// The number whose leaf may stand at the place of a number.
    #[inline(always)]
    pub(crate) fn occupant(&self, number: u32) -> u32
        ensures small { result < 2 ^ 24 }
        ensures alone { (n : ℕ) → n % 16 ≡ number % 16 → (n ≡ result → ⊥) → in_front self.now n ≡ None }
    {
        self.numbers[(number % 16) as usize]
    }

    /// Lets a leaf, or none, stand at the place of its number.
    pub fn set(&mut self, number: u32, leaf: Option<Rc<Node>>)
        requires { number < 2 ^ 24 }
        ensures here { in_front self.new number ≡ owned leaf }
        ensures away { IsAlone self.new number }
        ensures others { IsSameElsewhere self.old self.new number }
    {
        let k = (number % 16) as usize;
        self.numbers[k] = number;
        self.leaves[k] = leaf;
    }

    /// Writes bytes into the leaf of a number from a place on, if it stands here and has no other owner.
    #[inline(always)]
    pub(crate) fn write(&mut self, number: u32, from: u8, bytes: &[u8]) -> bool
        requires { from + length bytes.now ≤ 256 }
        ensures written { OnTrue result (AreOverwrittenAt self.old self.new number from bytes.now) }
        ensures whole { OnTrue result (length (leaf_bytes (in_front self.old number)) ≡ 256) }
        ensures there { OnTrue result (is_some (in_front self.new number) ≡ true) }
        ensures stays { is_some (in_front self.new number) ≡ is_some (in_front self.old number) }
        ensures refused { OnFalse result (IsUnwrittenAt self.old self.new number) }
        ensures others { IsSameBut self.old self.new number }
    {
        let k = (number % 16) as usize;
        self.numbers[k] == number && write_some(&mut self.leaves[k], from, bytes)
    }

    /// Writes bytes into the leaf of a number from a place on, and others at the head of the leaf of another one,
    /// if both stand here and have no other owner.
    #[inline(always)]
    pub(crate) fn write_both(
        &mut self,
        first: u32,
        from: u8,
        here: &[u8],
        second: u32,
        later: &[u8],
    ) -> bool
        requires apart { first % 16 ≡ second % 16 → ⊥ }
        requires here { from + length here.now ≤ 256 }
        requires later { length later.now ≤ 256 }
        ensures first { OnTrue result (IsWrittenAt self.old self.new first from here.now) }
        ensures first_refused { OnFalse result (IsAlikeAt self.old self.new first) }
        ensures second { OnTrue result (IsWrittenAt self.old self.new second 0 later.now) }
        ensures second_refused { OnFalse result (IsAlikeAt self.old self.new second) }
        ensures others { IsSameButTwo self.old self.new first second }
    {
        let i = (first % 16) as usize;
        let k = (second % 16) as usize;
        if self.numbers[i] != first || self.numbers[k] != second {
            return false;
        }
        let mut other = None;
        mem::swap(&mut self.leaves[k], &mut other);
        let written = write_some_both(&mut self.leaves[i], from, here, &mut other, later);
        mem::swap(&mut self.leaves[k], &mut other);
        written
    }

    /// Exchanges what stands at the place of a number for what stands there in another front.
    #[inline(always)]
    pub(crate) fn exchange(&mut self, other: &mut Front, number: u32)
        ensures here { IsSameAt other.old self.new number }
        ensures there { IsSameAt self.old other.new number }
        ensures others { IsSameElsewhere self.old self.new number }
        ensures others_there { IsSameElsewhere other.old other.new number }
    {
        let k = (number % 16) as usize;
        mem::swap(&mut self.numbers[k], &mut other.numbers[k]);
        mem::swap(&mut self.leaves[k], &mut other.leaves[k]);
    }

    /// The same leaves once more.
    pub(crate) fn again(&self) -> Result<Front, AllocError>
        ensures { IfOk result (λ copy. (n : ℕ) → in_front copy n ≡ in_front self.now n) }
    {
        Ok(Front {
            numbers: self.numbers,
            leaves: again(&self.leaves)?,
        })
    }

    /// Whether the leaf of a number stands here, and so no other one at its place.
    #[inline(always)]
    pub(crate) fn stands(&self, number: u32) -> bool
        ensures there { result ≡ is_some (in_front self.now number) }
        ensures alone { OnTrue result (IsAlone self.now number) }
    {
        self.occupant(number) == number && self.has(number)
    }

    /// Whether the leaf of a number stands here.
    #[inline(always)]
    pub fn has(&self, number: u32) -> bool
        ensures { result ≡ is_some (in_front self.now number) }
    {
        self.leaf(number).is_some()
    }

    /// Lets the leaf of a number go.
    pub fn forget(&mut self, number: u32)
        ensures { (n : ℕ) → in_front self.new n ≡ (if n == number then None else in_front self.old n) }
    {
        let k = (number % 16) as usize;
        if self.numbers[k] == number {
            self.leaves[k] = None;
        }
    }

    /// The word at an address that is a multiple of 4, if its leaf stands here.
    #[inline(always)]
    pub fn word(&self, a: u32) -> Option<u32>
        requires { a % 4 ≡ 0 }
        ensures there { is_some result ≡ is_some (in_front self.now (a / 256)) }
        ensures value { IfSome result (λ word. word ≡ word_in (in_front self.now (a / 256)) (a % 256)) }
    {
        match self.leaf(a / 256) {
            Some(leaf) => Some(leaf.word((a % 256) as u8)),
            None => None,
        }
    }
}
