//! A node: 64 children, or 256 bytes. A node with one owner may be changed where it lies; one with several is
//! left alone, and another one is made in its place.
ghost use Rattle.std.specs.Prelude.{◌≡◌, ◌+◌, ◌<◌, ◌≤◌, ◌==◌, if◌then◌else◌, ℕ, None, true, false, IfOk, OnOk, length, slice_index, slice_index_or, slice_set, option_map};
ghost use Rattle.std.specs.Bool.{OnTrue, OnFalse};
ghost use Rattle.cells.specs.Bytes.{number};
ghost use Rattle.tree_node.specs.Nodes.{owned, child, child_at, byte, bytes_of, is_inner, overwritten, HasLine};

use crate::steps::Steps;
use std::alloc::{AllocError, Global};
use std::mem;
use std::rc::Rc;
use std::sync::ledger::Ledger;

/// The children of an inner node: 64 places, each with a child or none.
#[cycle(twig)]
#[derive(Drop)]
pub struct Children {
    at: [Option<Rc<Node>>; 64],
}

/// The 256 bytes of a leaf.
#[derive(Drop)]
pub struct Bytes {
    at: [u8; 256],
}

/// A node of a tree: an inner one with up to 64 children, or a leaf of 256 bytes.
///
/// Nodes are made by [`Node::inner`] and [`Node::leaf`] alone, which count them. The children lie in
/// a box of their own, so that a leaf takes no more room than its bytes.
#[cycle(twig)]
#[derive(Drop)]
pub enum Node {
    Inner(Box<Children>),
    Leaf(Bytes),
}

impl Children {
    // Exchanges the child at a place for another, or none.
    fn exchange(&mut self, i: usize, other: &mut Option<Rc<Node>>)
        requires { i < 64 }
        ensures given { other.new ≡ slice_index_or self.old.at i None }
        ensures taken { self.new.at ≡ slice_set self.old.at i other.old }
        ensures whole { length self.old.at ≡ 64 }
    {
        mem::swap(&mut self.at[i], other);
    }
}

// Puts one more owner of each of these children where none stand yet.
fn copy_children(
    children: &[Option<Rc<Node>>; 64],
    to: &mut [Option<Rc<Node>>; 64],
) -> Result<(), AllocError>
    requires { (i : ℕ) → child_at to.old i ≡ None }
    ensures { OnOk result ((i : ℕ) → child_at to.new i ≡ child_at children.now i) }
{
    for i in 0..64 {
        if let Some(child) = &children[i] {
            to[i] = Some(child.clone()?);
        }
    }
    Ok(())
}

// The same for children that lie in a box.
fn exchange_in(children: &mut Box<Children>, i: usize, other: &mut Option<Rc<Node>>)
    requires { i < 64 }
    ensures given { other.new ≡ slice_index_or children.old.value.at i None }
    ensures taken { children.new.value.at ≡ slice_set children.old.value.at i other.old }
    ensures whole { length children.old.value.at ≡ 64 }
{
    children.exchange(i, other);
}

fn no_bytes() -> [u8; 256]
    ensures { (i : ℕ) → slice_index result i ≡ 0 }
{
    [0; 256]
}

impl Node {
    /// An inner node with these children. It counts one step, also where it is refused.
    ///
    /// # Errors
    ///
    /// Want of memory alone. The children are then let go.
    pub fn inner<L: Ledger>(
        alloc: Global,
        children: [Option<Rc<Node>>; 64],
        steps: &mut Steps<L>,
    ) -> Result<Rc<Node>, AllocError>
        ensures children { IfOk result (λ node. (i : ℕ) → child node.value i ≡ child_at children i) }
        ensures bytes { IfOk result (λ node. (i : ℕ) → byte node.value i ≡ 0) }
        ensures count { steps.new ≡ steps.old + 1 }
    {
        steps.tick();
        let children = Box::new(alloc, Children { at: children })?;
        Ok(Rc::new(alloc, Node::Inner(children))?)
    }

    /// A leaf of these bytes. It counts one step, also where it is refused.
    ///
    /// # Errors
    ///
    /// Want of memory alone.
    pub fn leaf<L: Ledger>(
        alloc: Global,
        bytes: [u8; 256],
        steps: &mut Steps<L>,
    ) -> Result<Rc<Node>, AllocError>
        ensures children { IfOk result (λ node. (i : ℕ) → child node.value i ≡ None) }
        ensures bytes { IfOk result (λ node. (i : ℕ) → byte node.value i ≡ slice_index bytes i) }
        ensures count { steps.new ≡ steps.old + 1 }
    {
        steps.tick();
        Ok(Rc::new(alloc, Node::Leaf(Bytes { at: bytes }))?)
    }

    /// The child at a place below 64, if there is one. A leaf has none.
    #[inline(always)]
    pub fn child(&self, i: u8) -> Option<&Rc<Node>>
        requires { i < 64 }
        ensures { option_map (λ c. c.now.value) result ≡ child self.now i }
    {
        match self {
            Node::Inner(children) => children.at[i as usize].as_ref(),
            Node::Leaf(_) => None,
        }
    }

    /// The byte at a place. The bytes of an inner node are 0.
    #[inline(always)]
    pub fn byte(&self, i: u8) -> u8
        ensures { result ≡ byte self.now i }
    {
        match self {
            Node::Inner(_) => 0,
            Node::Leaf(bytes) => bytes.at[i as usize],
        }
    }

    /// The number that the four bytes from a place on spell, the lowest first. They lie in the leaf.
    #[inline(always)]
    pub fn word(&self, i: u8) -> u32
        requires { i + 4 ≤ 256 }
        ensures { result ≡ number 4 i (byte self.now) }
    {
        match self {
            Node::Inner(_) => 0,
            Node::Leaf(bytes) => {
                let i = i as usize;
                let at = &bytes.at;
                u32::from_le_bytes([at[i], at[i + 1], at[i + 2], at[i + 3]])
            }
        }
    }

    /// Whether both are leaves with the same 64 bytes from a place on.
    #[inline(always)]
    pub fn has_same_line(&self, other: &Node, i: u8) -> bool
        requires { i + 64 ≤ 256 }
        ensures { OnTrue result (HasLine other.now i (bytes_of self.now)) }
    {
        match self {
            Node::Inner(_) => false,
            Node::Leaf(bytes) => has_line(other, i as usize, bytes),
        }
    }

    /// The number that the two bytes from a place on spell, the low one first. They lie in the leaf.
    #[inline(always)]
    pub fn half(&self, i: u8) -> u16
        requires { i + 2 ≤ 256 }
        ensures { result ≡ number 2 i (byte self.now) }
    {
        match self {
            Node::Inner(_) => 0,
            Node::Leaf(bytes) => {
                let i = i as usize;
                u16::from_le_bytes([bytes.at[i], bytes.at[i + 1]])
            }
        }
    }

    /// Whether it is an inner node.
    #[inline(always)]
    pub fn is_inner(&self) -> bool
        ensures { result ≡ is_inner self.now }
    {
        match self {
            Node::Inner(_) => true,
            Node::Leaf(_) => false,
        }
    }

    /// Exchanges the child at a place below 64 of an inner node for another, or none. It makes no node.
    pub fn exchange(&mut self, i: u8, other: &mut Option<Rc<Node>>)
        requires place { i < 64 }
        requires inner { is_inner self.old ≡ true }
        ensures given { owned other.new ≡ child self.old i }
        ensures taken { (j : ℕ) → child self.new j ≡ (if j == i then owned other.old else child self.old j) }
        ensures inner { is_inner self.new ≡ true }
    {
        if let Node::Inner(children) = self {
            exchange_in(children, i as usize, other);
        }
    }

    /// Puts one more owner of each child of an inner node where none stand yet, for another such node. A leaf has none.
    ///
    /// # Errors
    ///
    /// Want of memory alone. Some children may stand there then.
    pub fn copy_children(&self, to: &mut [Option<Rc<Node>>; 64]) -> Result<(), AllocError>
        requires { (i : ℕ) → child_at to.old i ≡ None }
        ensures { OnOk result ((i : ℕ) → child_at to.new i ≡ child self.now i) }
    {
        match self {
            Node::Inner(children) => copy_children(&children.at, to),
            Node::Leaf(_) => Ok(()),
        }
    }

    /// A copy of the bytes of a leaf. Those of an inner node are 0.
    pub fn bytes(&self) -> [u8; 256]
        ensures { (i : ℕ) → slice_index result i ≡ byte self.now i }
    {
        match self {
            Node::Inner(_) => no_bytes(),
            Node::Leaf(bytes) => bytes.at,
        }
    }

    /// Writes bytes into a leaf from a place on, where they have to fit, and answers whether it is a leaf. An inner
    /// node stays as it is. It makes no node.
    #[inline(always)]
    pub fn write(&mut self, from: u8, bytes: &[u8]) -> bool
        requires { from + length bytes.now ≤ 256 }
        ensures written { OnTrue result (bytes_of self.new ≡ overwritten (bytes_of self.old) from bytes.now) }
        ensures whole { OnTrue result (length (bytes_of self.old) ≡ 256) }
        ensures refused { OnFalse result (bytes_of self.new ≡ bytes_of self.old) }
        ensures leaf { is_inner self.old ≡ false → result ≡ true }
    {
        match self {
            Node::Inner(_) => false,
            Node::Leaf(held) => {
                overwrite(held, from as usize, bytes);
                true
            }
        }
    }
}

// Whether a node is a leaf with the same 64 bytes from an index on.
#[inline(always)]
fn has_line(node: &Node, i: usize, bytes: &Bytes) -> bool
    requires { i + 64 ≤ 256 }
    ensures { OnTrue result (HasLine node.now i bytes.now.at) }
{
    match node {
        Node::Inner(_) => false,
        Node::Leaf(others) => others.at[i..i + 64] == bytes.at[i..i + 64],
    }
}

// Writes bytes from an index on.
#[inline(always)]
fn overwrite(held: &mut Bytes, from: usize, bytes: &[u8])
    requires { from + length bytes.now ≤ 256 }
    ensures bytes { held.new.at ≡ overwritten held.old.at from bytes.now }
    ensures whole { length held.old.at ≡ 256 }
{
    held.at[from..from + bytes.len()].copy_from_slice(bytes);
}
