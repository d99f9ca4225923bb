//! What no clause says: that tasks begin and go on where memory is ample, and what they come to on small programs whose
//! steps were worked out by hand.
ghost use Rattle.dist_image.specs.Image.{IsImage, IsAnchor};

use cells::{Cell, Differ};
use dist_image::{Anchor, Image};
use memory::PlainMemory;
use rv_step::{Arch, Flow, Memory, View, step};
use slave::{Ending, SlaveDid, Task};
use std::alloc::{AllocError, Global};
use std::test::Fail;
use test_programs::images::{TEN_TURNS, image};
use test_programs::programs::TEN_TURNS_LOOP;

pub const START: u32 = 0x1_0000;

/// An image with the limit 16 and one anchor, of count 1, at the start.
static ONE_ANCHOR: [u32; 13] = [
    0x5053_534d,
    1,
    16,
    1,
    1,
    0,
    0, //
    2,
    0,
    0, //
    START,
    0,
    1,
];

const HEAD: Anchor = Anchor {
    pc: 0x1_0004,
    slot: 1,
    count: 2,
};

pub const FIRST: Anchor = Anchor {
    pc: START,
    slot: 0,
    count: 1,
};

fn put_word(alloc: Global, s: &mut Arch<PlainMemory>, a: u32, word: u32) -> Result<(), AllocError> {
    s.mem.put_word(alloc, a, word)
}

/// The state at the start of a program of these words, but that the stack pointer is 0 like all registers.
pub fn start(alloc: Global, words: &[u32]) -> Result<Arch<PlainMemory>, AllocError> {
    let mut s = Arch {
        pc: START,
        regs: [0; 32],
        mem: PlainMemory::empty(alloc)?,
    };
    let mut at = START;
    for word in words {
        put_word(alloc, &mut s, at, *word)?;
        at = at.wrapping_add(4);
    }
    Ok(s)
}

/// One step of a plain state that goes on.
fn go_on(alloc: Global, s: &mut Arch<PlainMemory>) -> Result<(), AllocError> {
    let pc = s.pc & !3;
    if let Flow::Next(to) = step(alloc, s, pc)? {
        s.pc = to;
    }
    Ok(())
}

/// The state of the ten turns after so many steps.
fn turns_after(alloc: Global, steps: u32) -> Result<Arch<PlainMemory>, AllocError> {
    let mut s = start(alloc, &TEN_TURNS_LOOP)?;
    for _ in 0..steps {
        go_on(alloc, &mut s)?;
    }
    Ok(s)
}

/// A task that begins at an anchor with a state's registers and memory.
pub fn begun(
    alloc: Global,
    anchor: &Anchor,
    s: &Arch<PlainMemory>,
) -> Result<Task<PlainMemory>, AllocError>
    requires { IsAnchor 1_048_576 anchor.now }
{
    let mem = s.mem.snapshot(alloc)?;
    Task::begin(alloc, 0, anchor, s.regs, mem)
}

/// What the next event of a task answers, or None where it is done.
fn next(
    alloc: Global,
    task: &mut Task<PlainMemory>,
    image: &Image,
) -> Result<Option<SlaveDid>, AllocError>
    requires { IsImage image.now }
{
    if task.ending().is_some() || task.steps() >= u64::from(image.limit) {
        return Ok(None);
    }
    Ok(Some(task.advance(alloc, image)?))
}

/// What the events of a task answer until it is done.
pub fn events(
    alloc: Global,
    task: &mut Task<PlainMemory>,
    image: &Image,
) -> Result<Vec<SlaveDid>, AllocError>
    requires { IsImage image.now }
{
    let mut answers = Vec::new(alloc);
    for _ in 0..image.limit {
        match next(alloc, task, image)? {
            Some(answer) => answers.push(answer)?,
            None => break,
        }
    }
    Ok(answers)
}

/// The task of the ten turns that begins after one step, once it is done.
fn turned(alloc: Global) -> Result<Task<PlainMemory>, Fail> {
    let image = image(alloc, &TEN_TURNS)?;
    let s = turns_after(alloc, 1)?;
    let mut task = begun(alloc, &HEAD, &s)?;
    events(alloc, &mut task, &image)?;
    Ok(task)
}

/// A task's number, steps, pc and ending.
pub type Stand = (u64, u64, u32, Option<Ending>);

/// Where a task stands.
pub fn stand(task: &Task<PlainMemory>) -> Stand {
    (task.number(), task.steps(), task.pc(), task.ending())
}

pub fn told(task: &Task<PlainMemory>, s: &Arch<PlainMemory>) -> Option<Differ> {
    task.view().compare(s)
}

/// Applies a task to a state and its output.
pub fn apply(
    alloc: Global,
    task: &Task<PlainMemory>,
    s: &mut Arch<PlainMemory>,
    out: &mut Vec<u8>,
) -> Result<(), AllocError> {
    task.view().apply(alloc, task.pc(), s, out)
}

pub fn differ(cell: Cell, predicted: u32, found: u32) -> Option<Differ> {
    Some(Differ {
        cell,
        predicted,
        found,
    })
}

/// Whether a task by the image of these numbers, that begins at an anchor with a state, answers this until it
/// is done, and stands so then.
fn comes_to(
    alloc: Global,
    numbers: &[u32],
    anchor: &Anchor,
    s: &Arch<PlainMemory>,
    wanted: &[SlaveDid],
    stood: Stand,
) -> Result<bool, Fail>
    requires { IsAnchor 1_048_576 anchor.now }
{
    let image = image(alloc, numbers)?;
    let mut task = begun(alloc, anchor, s)?;
    let answers = events(alloc, &mut task, &image)?;
    Ok(*answers.as_slice() == *wanted && stand(&task) == stood)
}

/// What the task of two turns answers.
static TWO_TURNS: [SlaveDid; 4] = [
    SlaveDid::Stepped,
    SlaveDid::Stepped,
    SlaveDid::Stepped,
    SlaveDid::Done(Ending::Reached),
];

/// Whether that task answers so, and ends where the next one begins.
fn is_reached(alloc: Global) -> Result<bool, Fail> {
    let s = turns_after(alloc, 1)?;
    let stood = (0, 4, 0x1_0004, Some(Ending::Reached));
    comes_to(alloc, &TEN_TURNS, &HEAD, &s, &TWO_TURNS, stood)
}

#[test]
fn two_turns_are_reached(rt: HostRuntime) -> Result<(), Fail> {
    assert!(rt; is_reached(rt.alloc())?);
    Ok(())
}

#[test]
fn nothing_differs_where_the_task_began(rt: HostRuntime) -> Result<(), Fail> {
    assert_eq!(rt; told_but(rt.alloc(), But::Nothing)?, None);
    Ok(())
}

/// A state that a task is told of: that of the ten turns after one step, but with these.
#[derive(Clone, Copy)]
enum But {
    Nothing,
    Pc(u32),
    Register(u8, u32),
    Byte(u32, u8),
}

/// What the task of two turns is told of it.
fn told_but(alloc: Global, but: But) -> Result<Option<Differ>, Fail> {
    let task = turned(alloc)?;
    let mut s = turns_after(alloc, 1)?;
    match but {
        But::Nothing => {}
        But::Pc(pc) => s.pc = pc,
        But::Register(r, value) => s.regs[(r % 32) as usize] = value,
        But::Byte(at, value) => s.mem.put(alloc, at, &[value])?,
    }
    Ok(told(&task, &s))
}

#[test]
fn the_pc_and_the_counter_are_recorded(rt: HostRuntime) -> Result<(), Fail> {
    assert_eq!(rt;
        told_but(rt.alloc(), But::Pc(0x1_0008))?,
        differ(Cell::Pc, 0x1_0004, 0x1_0008)
    );
    assert_eq!(rt;
        told_but(rt.alloc(), But::Register(5, 9))?,
        differ(Cell::Reg(5), 10, 9)
    );
    Ok(())
}

#[test]
fn no_other_register_is_recorded(rt: HostRuntime) -> Result<(), Fail> {
    for r in 0..32 {
        if r != 5 {
            let told = told_but(rt.alloc(), But::Register(r, 1))?;
            assert_eq!(rt; told, None, "x{r}");
        }
    }
    Ok(())
}

/// The bytes of the two words of the loop, from 0x00010004 on.
static FETCHED: [u8; 8] = [0x93, 0x82, 0xf2, 0xff, 0xe3, 0x9e, 0x02, 0xfe];

#[test]
fn the_fetched_bytes_are_recorded(rt: HostRuntime) -> Result<(), Fail> {
    let mut at = 0x1_0004;
    for &byte in &FETCHED {
        let told = told_but(rt.alloc(), But::Byte(at, 0x55))?;
        assert_eq!(rt;
            told,
            differ(Cell::Byte(at), u32::from(byte), 0x55),
            "at {at:08x}"
        );
        at = at.wrapping_add(1);
    }
    Ok(())
}

#[test]
fn no_other_byte_is_recorded(rt: HostRuntime) -> Result<(), Fail> {
    for at in [0x1_0000, 0x1_0003, 0x1_000c, 0x2_0000, 0] {
        let told = told_but(rt.alloc(), But::Byte(at, 0x55))?;
        assert_eq!(rt; told, None, "at {at:08x}");
    }
    Ok(())
}

/// The state of the ten turns after one step, to which the task of two turns was applied.
fn applied(alloc: Global) -> Result<Arch<PlainMemory>, Fail> {
    let task = turned(alloc)?;
    let mut s = turns_after(alloc, 1)?;
    let mut out = Vec::new(alloc);
    apply(alloc, &task, &mut s, &mut out)?;
    Ok(s)
}

/// Whether a state has the bytes of another one at the 32 addresses from the program's start on.
fn has_bytes_of(s: &Arch<PlainMemory>, wanted: &Arch<PlainMemory>) -> bool {
    for at in START..START + 0x20 {
        if s.mem.get(at) != wanted.mem.get(at) {
            return false;
        }
    }
    true
}

/// The pc and x5 of that state, and whether its pc, its registers and those bytes are those after five steps.
fn after_it_is_applied(alloc: Global) -> Result<(u32, u32, bool), Fail> {
    let s = applied(alloc)?;
    let wanted = turns_after(alloc, 5)?;
    let is_so = s.pc == wanted.pc && s.regs == wanted.regs && has_bytes_of(&s, &wanted);
    Ok((s.pc, s.regs[5], is_so))
}

#[test]
fn its_writes_are_applied(rt: HostRuntime) -> Result<(), Fail> {
    let found = after_it_is_applied(rt.alloc())?;
    assert_eq!(rt; found, (0x1_0004, 8, true));
    Ok(())
}

/// A task that begins at the start of a program of one word, and has x5 there.
fn alone(alloc: Global, word: u32, five: u32) -> Result<Task<PlainMemory>, Fail> {
    let image = image(alloc, &ONE_ANCHOR)?;
    let mut s = start(alloc, &[word])?;
    s.regs[5] = five;
    let mut task = begun(alloc, &FIRST, &s)?;
    events(alloc, &mut task, &image)?;
    Ok(task)
}

/// What that task is told of the state where it began, but with other values of x5 and x10.
fn told_alone(alloc: Global, word: u32, five: u32, ten: u32) -> Result<Option<Differ>, Fail> {
    let task = alone(alloc, word, 0x1_0006)?;
    let mut s = start(alloc, &[word])?;
    s.regs[5] = five;
    s.regs[10] = ten;
    Ok(told(&task, &s))
}

/// Whether that task ends where it began.
fn is_met(alloc: Global, word: u32, five: u32) -> Result<bool, Fail> {
    let task = alone(alloc, word, five)?;
    Ok(stand(&task) == (0, 0, START, Some(Ending::Met)))
}

#[test]
fn a_call_is_met(rt: HostRuntime) -> Result<(), Fail> {
    assert!(rt; is_met(rt.alloc(), 0x0000_0073, 0)?);
    assert_eq!(rt; told_alone(rt.alloc(), 0x0000_0073, 7, 7)?, None);
    Ok(())
}

/// JALR by x5, whose target is no multiple of 4.
#[test]
fn a_misaligned_jump_is_met(rt: HostRuntime) -> Result<(), Fail> {
    assert!(rt; is_met(rt.alloc(), 0x0002_80e7, 0x1_0006)?);
    let same = told_alone(rt.alloc(), 0x0002_80e7, 0x1_0006, 7)?;
    let other = told_alone(rt.alloc(), 0x0002_80e7, 0x1_0004, 7)?;
    assert_eq!(rt;
        (same, other),
        (None, differ(Cell::Reg(5), 0x1_0006, 0x1_0004))
    );
    Ok(())
}

/// What a task answers that is full.
static FULL: [SlaveDid; 16] = [
    SlaveDid::Stepped,
    SlaveDid::Stepped,
    SlaveDid::Stepped,
    SlaveDid::Stepped,
    SlaveDid::Stepped,
    SlaveDid::Stepped,
    SlaveDid::Stepped,
    SlaveDid::Stepped,
    SlaveDid::Stepped,
    SlaveDid::Stepped,
    SlaveDid::Stepped,
    SlaveDid::Stepped,
    SlaveDid::Stepped,
    SlaveDid::Stepped,
    SlaveDid::Stepped,
    SlaveDid::Done(Ending::Full),
];

/// Whether a word before a jump to itself, which is at no anchor, comes to that.
fn is_full(alloc: Global) -> Result<bool, Fail> {
    let s = start(alloc, &[0x00a0_0293, 0x0000_006f])?;
    let stood = (0, 16, 0x1_0004, Some(Ending::Full));
    comes_to(alloc, &ONE_ANCHOR, &FIRST, &s, &FULL, stood)
}

#[test]
fn a_loop_without_anchors_is_full(rt: HostRuntime) -> Result<(), Fail> {
    assert!(rt; is_full(rt.alloc())?);
    Ok(())
}
