//! The way from a root to a leaf, a level for each digit of the leaf's number: followed, laid anew, or left without
//! its leaf.
ghost use Rattle.std.specs.Prelude.{◌≡◌, ◌+◌, ◌-◌, ◌/◌, ◌%◌, ◌^◌, ◌<◌, ◌≤◌, ◌==◌, if◌then◌else◌, ℕ, None, Some, IfOk, OnOk, OnErr, option_map};
ghost use Rattle.tree_node.specs.Nodes.{owned, child_at};
ghost use Rattle.page_leaves.specs.Paths.{kid, leaf_below, IsRenewed, IsPlaced, IsSameBelow, IsGoneOrSame, AreSameBelow, AreOthersSame};

use std::alloc::{AllocError, Global};
use std::rc::Rc;
use std::sync::ledger::Ledger;
use tree_node::{Node, Steps};

/// The leaf of a number.
#[inline(never)]
pub(crate) fn find(root: &Option<Rc<Node>>, number: u32) -> Option<&Rc<Node>>
    requires { number < 2 ^ 24 }
    ensures { option_map (λ leaf. leaf.now.value) result ≡ leaf_below 4 (owned root.now) number }
{
    let top = root.as_ref()?;
    let upper = top.child((number / 0x4_0000) as u8)?;
    let middle = upper.child((number % 0x4_0000 / 0x1000) as u8)?;
    let lower = middle.child((number % 0x4_0000 % 0x1000 / 0x40) as u8)?;
    lower.child((number % 0x4_0000 % 0x1000 % 0x40) as u8)
}

// The place of a number's first digit, which has one for each level.
fn digit(depth: u32, number: u32) -> u8
    requires some { 0 < depth }
    requires few { depth ≤ 4 }
    requires number { number < 64 ^ depth }
    ensures value { result ≡ number / 64 ^ (depth - 1) }
    ensures small { result < 64 }
{
    match depth {
        1 => number as u8,
        2 => (number / 0x40) as u8,
        3 => (number / 0x1000) as u8,
        _ => (number / 0x4_0000) as u8,
    }
}

// A number without its first digit.
fn rest(depth: u32, number: u32) -> u32
    requires some { 0 < depth }
    requires few { depth ≤ 4 }
    ensures value { result ≡ number % 64 ^ (depth - 1) }
    ensures small { result < 64 ^ (depth - 1) }
{
    match depth {
        1 => 0,
        2 => number % 0x40,
        3 => number % 0x1000,
        _ => number % 0x4_0000,
    }
}

// The child at a place of the node in a slot, once more.
fn kid_of(slot: &Option<Rc<Node>>, i: u8) -> Result<Option<Rc<Node>>, AllocError>
    requires { i < 64 }
    ensures { IfOk result (λ child. owned child ≡ kid (owned slot.now) i) }
{
    match slot {
        None => Ok(None),
        Some(node) => match node.child(i) {
            None => Ok(None),
            Some(child) => Ok(Some(child.clone()?)),
        },
    }
}

fn no_children() -> [Option<Rc<Node>>; 64]
    ensures { (i : ℕ) → child_at result i ≡ None }
{
    [const { None }; 64]
}

// Puts the children of the node in a slot, once more, where none stand yet.
fn copy_children(slot: &Option<Rc<Node>>, to: &mut [Option<Rc<Node>>; 64]) -> Result<(), AllocError>
    requires { (i : ℕ) → child_at to.old i ≡ None }
    ensures { OnOk result ((i : ℕ) → child_at to.new i ≡ kid (owned slot.now) i) }
{
    match slot {
        Some(node) => node.copy_children(to),
        None => Ok(()),
    }
}

// Puts another child at a place.
fn put_child(children: &mut [Option<Rc<Node>>; 64], i: u8, child: Option<Rc<Node>>)
    requires { i < 64 }
    ensures { (j : ℕ) → child_at children.new j ≡ (if j == i then owned child else child_at children.old j) }
{
    children[i as usize] = child;
}

// A node like the one in a slot, but for the child at a place.
fn renewed<L: Ledger>(
    alloc: Global,
    slot: &Option<Rc<Node>>,
    i: u8,
    child: Option<Rc<Node>>,
    steps: &mut Steps<L>,
) -> Result<Rc<Node>, AllocError>
    requires { i < 64 }
    ensures ok { IfOk result (λ node. IsRenewed (owned slot.now) (Some node.value) i (owned child)) }
    ensures count { steps.new ≤ steps.old + 1 }
{
    let mut children = no_children();
    copy_children(slot, &mut children)?;
    put_child(&mut children, i, child);
    Node::inner(alloc, children, steps)
}

/// Puts a leaf at the place of a number, that many levels below a slot. Nodes that another tree has
/// too are made anew; the others are changed where they lie.
pub(crate) fn place<L: Ledger>(
    alloc: Global,
    slot: &mut Option<Rc<Node>>,
    depth: u32,
    number: u32,
    leaf: &Rc<Node>,
    steps: &mut Steps<L>,
) -> Result<(), AllocError>
    requires depth { depth ≤ 4 }
    requires number { number < 64 ^ depth }
    ensures ok { OnOk result (IsPlaced depth (owned slot.old) (owned slot.new) number (Some leaf.now.value)) }
    ensures err { OnErr result (AreSameBelow depth (owned slot.old) (owned slot.new)) }
    ensures count { steps.new ≤ steps.old + depth }
{
    if depth == 0 {
        *slot = Some(leaf.clone()?);
        return Ok(());
    }
    let i = digit(depth, number);
    let rest = rest(depth, number);
    if let Some(owner) = slot {
        if let Some(node) = Rc::get_mut(owner) {
            if node.is_inner() {
                let mut kid = None;
                node.exchange(i, &mut kid);
                let placed = place(alloc, &mut kid, depth - 1, rest, leaf, steps);
                node.exchange(i, &mut kid);
                return placed;
            }
        }
    }
    let mut kid = kid_of(slot, i)?;
    place(alloc, &mut kid, depth - 1, rest, leaf, steps)?;
    *slot = Some(renewed(alloc, slot, i, kid, steps)?);
    Ok(())
}

/// Takes the leaf of a number out, that many levels below a slot. Where another tree has a node on
/// the way, all stays there, and the leaf is shared.
pub(crate) fn take(
    slot: &mut Option<Rc<Node>>,
    depth: u32,
    number: u32,
) -> Result<Option<Rc<Node>>, AllocError>
    requires depth { depth ≤ 4 }
    requires number { number < 64 ^ depth }
    ensures leaf { IfOk result (λ leaf. owned leaf ≡ leaf_below depth (owned slot.old) number) }
    ensures others { AreOthersSame depth (owned slot.old) (owned slot.new) number }
    ensures here { IsGoneOrSame depth (owned slot.old) (owned slot.new) number }
    ensures err { OnErr result (IsSameBelow depth (owned slot.old) (owned slot.new) number) }
{
    if depth == 0 {
        return Ok(slot.take());
    }
    let i = digit(depth, number);
    let rest = rest(depth, number);
    if let Some(owner) = slot {
        if let Some(node) = Rc::get_mut(owner) {
            if node.is_inner() {
                let mut kid = None;
                node.exchange(i, &mut kid);
                let taken = take(&mut kid, depth - 1, rest);
                node.exchange(i, &mut kid);
                return taken;
            }
        }
    }
    let mut kid = kid_of(slot, i)?;
    take(&mut kid, depth - 1, rest)
}
