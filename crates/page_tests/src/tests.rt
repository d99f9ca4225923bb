//! What no clause says: that the calls succeed, that snapshots share their leaves, and what programs come to that
//! store to two leaves by turns, over borders, and to their own code.
ghost use Rattle.std.specs.Prelude.{◌≡◌, ◌+◌, ◌<◌, ◌≤◌, length, IfOk};
ghost use Rattle.elf_reader.specs.Executable.{IsProgram};

use elf_reader::{Program, read_elf};
use memory::{Memory, PlainMemory};
use page_tree::PageTree;
use seq_machine::{End, Machine, load};
use std::alloc::{AllocError, Global};
use std::marker::Brand;
use std::sync::ledger::{Blank, Ledger};
use std::test::Fail;
use tree_node::Steps;

/// The address from which three bytes go around the end of the addresses.
const LAST: u32 = 0xFFFF_FFFF;

// Puts three bytes around the end of the addresses: two leaves hold them.
fn put_around<L: Ledger>(alloc: Global, steps: &mut Steps<L>) -> Result<PageTree, AllocError>
    ensures { steps.new ≤ steps.old + 10 }
{
    let mut tree = PageTree::empty(alloc)?;
    tree.put_counted(alloc, LAST, &[1, 2, 3], steps)?;
    Ok(tree)
}

// Puts a byte, and another in its place beside a snapshot, which it gives with the tree.
fn put_beside<L: Ledger>(
    alloc: Global,
    tree: &mut PageTree,
    steps: &mut Steps<L>,
) -> Result<PageTree, AllocError>
    ensures { steps.new ≤ steps.old + 10 }
{
    tree.put_counted(alloc, 0x1_0000, &[7], steps)?;
    let snapshot = tree.snapshot_counted(alloc, steps)?;
    tree.put_counted(alloc, 0x1_0000, &[8], steps)?;
    Ok(snapshot)
}

fn around<L: Ledger>(alloc: Global, blank: Blank) -> Result<PageTree, AllocError>
    requires name { blank.name ≡ L.name }
    requires parts { blank.parts ≡ L.parts }
    requires some { 0 < blank.parts }
{
    let mut steps = Steps::<L>::new(blank);
    put_around(alloc, &mut steps)
}

fn beside<L: Ledger>(
    alloc: Global,
    tree: &mut PageTree,
    blank: Blank,
) -> Result<PageTree, AllocError>
    requires name { blank.name ≡ L.name }
    requires parts { blank.parts ≡ L.parts }
    requires some { 0 < blank.parts }
{
    let mut steps = Steps::<L>::new(blank);
    put_beside(alloc, tree, &mut steps)
}

/// Whether a tree has these three bytes around the end of the addresses, and 0 behind them.
fn has_three(tree: &PageTree) -> bool {
    tree.get(LAST) == 1 && tree.get(0) == 2 && tree.get(1) == 3 && tree.get(2) == 0
}

/// Whether they are loaded and fetched as parts of words.
fn loads_three(tree: &mut PageTree) -> bool {
    tree.half(LAST) == 0x0201
        && tree.word(0xFFFF_FFFE) == 0x0302_0100
        && tree.fetch(0) == 0x0000_0302
}

#[test]
fn a_put_wraps(rt: HostRuntime) -> Result<(), Fail> {
    let mut tree = around::<Brand>(rt.alloc(), Blank::new(1))?;
    assert!(rt; has_three(&tree) && loads_three(&mut tree));
    tree.put_word(rt.alloc(), 0, 7)?;
    assert!(rt; tree.fetch(0) == 7);
    Ok(())
}

/// Whether a tree and its snapshot have a byte each, and a half word that is put to the snapshot is in it
/// alone.
fn stand_apart(
    alloc: Global,
    tree: &PageTree,
    snapshot: &mut PageTree,
) -> Result<bool, AllocError> {
    let are_apart = snapshot.get(0x1_0000) == 7 && tree.get(0x1_0000) == 8;
    snapshot.put_half(alloc, 0x1_00FF, 0x0605)?;
    Ok(are_apart && snapshot.half(0x1_00FF) == 0x0605 && tree.half(0x1_00FF) == 0)
}

#[test]
fn a_snapshot_stands_apart(rt: HostRuntime) -> Result<(), Fail> {
    let mut tree = PageTree::empty(rt.alloc())?;
    let mut snapshot = beside::<Brand>(rt.alloc(), &mut tree, Blank::new(1))?;
    assert!(rt; stand_apart(rt.alloc(), &tree, &mut snapshot)?);
    Ok(())
}

/// Whether a line of 64 bytes that begins at 0x1_0000 is the same in both trees, and whether the next one is.
fn same_lines(tree: &PageTree, other: &PageTree) -> (bool, bool) {
    (
        tree.has_same_line(other, 0x400),
        tree.has_same_line(other, 0x401),
    )
}

#[test]
fn a_line_is_the_same_until_it_is_put(rt: HostRuntime) -> Result<(), Fail> {
    let mut tree = PageTree::empty(rt.alloc())?;
    tree.put(rt.alloc(), 0x1_0000, &[7])?;
    let snapshot = tree.snapshot(rt.alloc())?;
    assert!(rt; same_lines(&tree, &snapshot) == (true, true));
    tree.put(rt.alloc(), 0x1_003F, &[1])?;
    assert!(rt; same_lines(&tree, &snapshot) == (false, true));
    Ok(())
}

/// Puts bytes to 64 places that lie 65,536 apart, at most so many to each.
fn put_everywhere(alloc: Global, tree: &mut PageTree, bytes: &[u8]) -> Result<(), AllocError> {
    for k in 0..64 {
        tree.put(alloc, k * 0x1_0000, bytes.get(..65536).unwrap_or(&[]))?;
    }
    Ok(())
}

/// A tree of 4,194,304 bytes, each of them 1.
fn ones(alloc: Global) -> Result<PageTree, AllocError> {
    let mut tree = PageTree::empty(alloc)?;
    let mut bytes = Vec::new(alloc);
    bytes.resize(65536, 1)?;
    put_everywhere(alloc, &mut tree, &bytes)?;
    Ok(tree)
}

/// The byte that is put at 0 in this turn.
fn turn_byte(i: u32) -> u8 {
    1 + (i % 255) as u8
}

/// Snapshots of a tree, each after another byte was put at 0.
fn snapshots(alloc: Global, tree: &mut PageTree) -> Result<Vec<PageTree>, AllocError> {
    let mut kept = Vec::new(alloc);
    for i in 1..32769u32 {
        tree.put(alloc, 0, &[turn_byte(i)])?;
        kept.push(tree.snapshot(alloc)?)?;
    }
    Ok(kept)
}

/// The number of the first of these snapshots, from 1 on, that has another byte at 0 or at the end.
fn other_snapshot(kept: &[PageTree]) -> Option<u32> {
    let mut i = 0u32;
    for snapshot in kept {
        i = i.wrapping_add(1);
        if snapshot.get(0) != turn_byte(i) || snapshot.get(4_194_303) != 1 {
            return Some(i);
        }
    }
    None
}

#[test]
fn snapshots_share(rt: HostRuntime) -> Result<(), Fail> {
    let mut tree = ones(rt.alloc())?;
    let kept = snapshots(rt.alloc(), &mut tree)?;
    assert_eq!(rt; kept.len(), 32768);
    assert_eq!(rt; other_snapshot(&kept), None);
    Ok(())
}

/// Where words are put by turns: leaves whose numbers differ by 0, 16, 32 and 4,096, and borders of leaves.
static PLACES: [u32; 9] = [
    0x2_0010,
    0x2_1020,
    0x2_2030,
    0x12_0040,
    0x2_00FE,
    0x2_0FFD,
    0x2_10FF,
    0xFFFF_FFFD,
    0x2_0011,
];

/// Puts a word to a tree and to a memory of pages.
fn put_both(
    alloc: Global,
    tree: &mut PageTree,
    plain: &mut PlainMemory,
    a: u32,
    v: u32,
) -> Result<(), AllocError> {
    tree.put_word(alloc, a, v)?;
    plain.put_word(alloc, a, v)
}

/// Whether both have the same word at an address, and fetch the same one there.
fn are_same(tree: &mut PageTree, plain: &mut PlainMemory, a: u32) -> bool {
    tree.word(a) == plain.word(a)
        && tree.load_word(a) == plain.load_word(a)
        && tree.fetch(a / 4 * 4) == plain.fetch(a / 4 * 4)
}

/// Puts words at all places by turns, and answers the first turn after which the two differ.
fn put_by_turns(
    alloc: Global,
    tree: &mut PageTree,
    plain: &mut PlainMemory,
) -> Result<Option<u32>, AllocError> {
    for i in 0..9_000u32 {
        let a = PLACES[(i % 9) as usize];
        let v = i.wrapping_mul(0x9E37_79B9);
        put_both(alloc, tree, plain, a, v)?;
        let other = PLACES[(i / 9 % 9) as usize].wrapping_add(i % 7);
        if tree.word(a) != v || !are_same(tree, plain, other) {
            return Ok(Some(i));
        }
    }
    Ok(None)
}

/// Whether two snapshots have the same words at all places.
fn are_same_there(snapshot: &PageTree, before: &PlainMemory) -> bool {
    for &a in &PLACES {
        if snapshot.word(a) != before.word(a) {
            return false;
        }
    }
    true
}

/// Whether a tree is 0 at all places once 0 is put there, and its snapshot has the words from before.
fn clears(
    alloc: Global,
    tree: &mut PageTree,
    snapshot: &PageTree,
    before: &PlainMemory,
) -> Result<bool, AllocError> {
    for &a in &PLACES {
        let is_same = snapshot.word(a) == before.word(a);
        tree.put_word(alloc, a, 0)?;
        if !is_same || tree.word(a) != 0 {
            return Ok(false);
        }
    }
    Ok(are_same_there(snapshot, before))
}

/// Whether snapshots of both stay the same while the tree is cleared.
fn snapshots_stay(
    alloc: Global,
    tree: &mut PageTree,
    plain: &PlainMemory,
) -> Result<bool, AllocError> {
    let snapshot = tree.snapshot(alloc)?;
    let before = plain.snapshot(alloc)?;
    clears(alloc, tree, &snapshot, &before)
}

#[test]
fn leaves_by_turns(rt: HostRuntime) -> Result<(), Fail> {
    let mut tree = PageTree::empty(rt.alloc())?;
    let mut plain = PlainMemory::empty(rt.alloc())?;
    assert_eq!(rt; put_by_turns(rt.alloc(), &mut tree, &mut plain)?, None);
    assert!(rt; snapshots_stay(rt.alloc(), &mut tree, &plain)?);
    Ok(())
}

/// Whether both load the same words from two addresses.
fn load_the_same(tree: &mut PageTree, plain: &mut PlainMemory, a: u32, b: u32) -> bool {
    tree.load_word(a) == plain.load_word(a) && tree.load_word(b) == plain.load_word(b)
}

/// Loads words from pairs of leaves that lie 512 KiB apart, and puts to one of each pair, by turns. Answers
/// the first turn in which the two differ.
fn load_and_put(
    alloc: Global,
    tree: &mut PageTree,
    plain: &mut PlainMemory,
) -> Result<Option<u32>, AllocError> {
    for i in 0..1_000u32 {
        let a = 0x1_0000 + i % 64 * 0x100;
        let b = a + 0x8_0000;
        let are_same = load_the_same(tree, plain, a, b);
        let place = if i % 3 == 0 { a } else { b + i % 5 };
        put_both(alloc, tree, plain, place, i)?;
        if !are_same || !load_the_same(tree, plain, a, b) {
            return Ok(Some(i));
        }
    }
    Ok(None)
}

/// The first of the upper leaves of the pairs where snapshots load different words.
fn other_load(snapshot: &mut PageTree, before: &mut PlainMemory) -> Option<u32> {
    for k in 0..64u32 {
        let a = 0x9_0000 + k * 0x100;
        if snapshot.load_word(a) != before.load_word(a) {
            return Some(a);
        }
    }
    None
}

/// Where snapshots of both come to differ while both are put to, or in which turn those do.
fn put_beside_snapshots(
    alloc: Global,
    tree: &mut PageTree,
    plain: &mut PlainMemory,
) -> Result<Option<u32>, AllocError> {
    let mut snapshot = tree.snapshot(alloc)?;
    let mut before = plain.snapshot(alloc)?;
    let turn = load_and_put(alloc, tree, plain)?;
    Ok(turn.or(other_load(&mut snapshot, &mut before)))
}

#[test]
fn loads_follow_puts(rt: HostRuntime) -> Result<(), Fail> {
    let mut tree = PageTree::empty(rt.alloc())?;
    let mut plain = PlainMemory::empty(rt.alloc())?;
    assert_eq!(rt; load_and_put(rt.alloc(), &mut tree, &mut plain)?, None);
    assert_eq!(rt;
        put_beside_snapshots(rt.alloc(), &mut tree, &mut plain)?,
        None
    );
    Ok(())
}

/// The address from which long sequences of bytes are put: they go around the end of the addresses.
const FROM: u32 = 0xFFFF_FF80;

/// The first of many addresses where two memories have different words.
fn other_word(tree: &PageTree, plain: &PlainMemory) -> Option<u32> {
    for k in 0..16_500u32 {
        let a = FROM.wrapping_add(4 * k).wrapping_sub(200);
        if tree.word(a) != plain.word(a) {
            return Some(a);
        }
    }
    None
}

/// 65,536 bytes, each the remainder of its place by 251.
fn remainders(alloc: Global) -> Result<Vec<u8>, AllocError> {
    let mut bytes = Vec::new(alloc);
    for i in 0..65536u32 {
        bytes.push((i % 251) as u8)?;
    }
    Ok(bytes)
}

/// How many bytes are put.
static COUNTS: [usize; 8] = [1, 255, 256, 257, 400, 512, 513, 65536];

/// Puts these bytes to both, and answers the first address where they differ then.
fn put_long(
    alloc: Global,
    tree: &mut PageTree,
    plain: &mut PlainMemory,
    bytes: &[u8],
) -> Result<Option<u32>, AllocError>
    requires { length bytes.now ≤ 65536 }
{
    tree.put(alloc, FROM, bytes)?;
    plain.put(alloc, FROM, bytes)?;
    Ok(other_word(tree, plain))
}

#[test]
fn long_puts(rt: HostRuntime) -> Result<(), Fail> {
    let mut tree = PageTree::empty(rt.alloc())?;
    let mut plain = PlainMemory::empty(rt.alloc())?;
    let bytes = remainders(rt.alloc())?;
    for &count in &COUNTS {
        let piece = bytes.get(..count).unwrap_or(&[]);
        assert_eq!(rt; piece.len(), count);
        assert_eq!(rt; put_long(rt.alloc(), &mut tree, &mut plain, piece)?, None);
    }
    Ok(())
}

/// A tree with a word over the border of two leaves, and words over those of leaves that share places with
/// these two, and so take theirs.
fn three_borders(alloc: Global) -> Result<PageTree, AllocError> {
    let mut tree = PageTree::empty(alloc)?;
    tree.put_word(alloc, 0x1_00FE, 0x0403_0201)?;
    tree.put_word(alloc, 0x1_10FE, 0x1413_1211)?;
    tree.put_word(alloc, 0x1_20FE, 0x2423_2221)?;
    Ok(tree)
}

/// Whether the others are as they were, in the tree and in a snapshot from before.
fn are_left(tree: &PageTree, snapshot: &PageTree) -> bool {
    tree.word(0x1_10FE) == 0x1413_1211
        && tree.word(0x1_20FE) == 0x2423_2221
        && snapshot.word(0x1_00FE) == 0x0403_0201
}

/// Puts words over the border by turns. Answers the first turn after which not all of the word is there that
/// was put, or of the one from before where the put was refused, or after which others are changed.
fn other_turn(alloc: Global, tree: &mut PageTree, snapshot: &PageTree) -> Option<u32> {
    let mut held = 0x0403_0201u32;
    for i in 1..20u32 {
        let new = held.wrapping_add(i * 0x0101_0101);
        if tree.put_word(alloc, 0x1_00FE, new).is_ok() {
            held = new;
        }
        if tree.word(0x1_00FE) != held || !are_left(tree, snapshot) {
            return Some(i);
        }
    }
    None
}

#[test]
fn refused_puts_leave_all(rt: HostRuntime) -> Result<(), Fail> {
    let mut tree = three_borders(rt.alloc())?;
    let snapshot = tree.snapshot(rt.alloc())?;
    assert_eq!(rt; other_turn(rt.alloc(), &mut tree, &snapshot), None);
    Ok(())
}

/// The words of a file's header, and of that of its one part before its sizes.
static HEADER: [u32; 17] = [
    0x464C_457F,
    0x0001_0101,
    0,
    0,
    0x00F3_0002,
    1,
    0x1_0000,
    0x34,
    0,
    0,
    0x0020_0034,
    1,
    0,
    1,
    0x54,
    0x1_0000,
    0x1_0000,
];

/// Appends words to a file.
fn extend(file: &mut Vec<u8>, words: &[u32]) -> Result<(), AllocError> {
    for word in words {
        file.extend_from_slice(&word.to_le_bytes())?;
    }
    Ok(())
}

/// The program of these words at 0x00010000, in one part.
fn program(alloc: Global, words: &[u32]) -> Result<Program, Fail>
    ensures { IfOk result IsProgram }
{
    let size = (words.len() % 1_000) as u32 * 4;
    let mut file = Vec::new(alloc);
    extend(&mut file, &HEADER)?;
    extend(&mut file, &[size, size, 7, 4])?;
    extend(&mut file, words)?;
    Ok(read_elf(alloc, &file)?)
}

/// A program, its number of steps, and the code that it exits with.
#[derive(Clone, Copy)]
struct Case {
    words: &'static [u32],
    steps: u64,
    code: u32,
}

static CASES: [Case; 4] = [
    // 1,000 times stores its count to 00020000 and 00021000, whose leaves share a place; exits with the sum of both
    Case {
        words: &[
            0x000202B7, 0x000213B7, 0x3E800413, 0x00130313, 0x0062A023, 0x0063A023, 0xFE831AE3,
            0x0002A503, 0x0003A583, 0x00B50533, 0x05D00893, 0x00000073,
        ],
        steps: 4_008,
        code: 2_000,
    },
    // stores its count over each border of the 1,024 leaves from 00020000 on; exits with the sum of what was stored
    Case {
        words: &[
            0x000202B7, 0x000603B7, 0x00130313, 0x0E62AF23, 0x10028293, 0xFE729AE3, 0x000202B7,
            0x0FE2A583, 0x00B50533, 0x10028293, 0xFE729AE3, 0x05D00893, 0x00000073,
        ],
        steps: 8_197,
        code: 524_800,
    },
    // 1,000 times changes the instruction that comes next, by turns to x10 += 1 and x10 += 2, and exits with x10
    Case {
        words: &[
            0x000102B7, 0x00150337, 0x51330313, 0x003003B7, 0x3E800413, 0x0062AC23, 0x00000013,
            0x00734333, 0xFFF40413, 0xFE0418E3, 0x05D00893, 0x00000073,
        ],
        steps: 5_007,
        code: 1_500,
    },
    // goes twice around all addresses, and stores its count to every 4,096th leaf; exits with the last one
    Case {
        words: &[
            0x001002B7, 0x00000393, 0x00002437, 0x00130313, 0x1063A223, 0x005383B3, 0xFE831AE3,
            0x405383B3, 0x1043A503, 0x05D00893, 0x00000073,
        ],
        steps: 32_775,
        code: 8_192,
    },
];

// Runs a program to its end.
fn run<M: Memory>(alloc: Global, words: &[u32]) -> Result<(u64, Option<End>), Fail> {
    let program = program(alloc, words)?;
    let mut machine: Machine<M> = load(alloc, &program, Vec::new(alloc))?;
    for _ in 0..200_000 {
        if machine.end.is_some() || machine.position >= 200_000 {
            break;
        }
        machine.one(alloc)?;
    }
    Ok((machine.position, machine.end))
}

/// Whether a program makes so many steps over a memory, and exits with this code.
fn ends<M: Memory>(alloc: Global, case: &Case) -> Result<bool, Fail> {
    Ok(run::<M>(alloc, case.words)? == (case.steps, Some(End::Exit(case.code))))
}

#[test]
fn programs_end(rt: HostRuntime) -> Result<(), Fail> {
    for case in &CASES {
        assert!(rt; ends::<PageTree>(rt.alloc(), case)? && ends::<PlainMemory>(rt.alloc(), case)?);
    }
    Ok(())
}
