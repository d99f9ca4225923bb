//! What no clause says: what tasks that print come to on programs of one or two words whose calls were worked out by hand.
use crate::slave_cases::{FIRST, START, Stand, apply, begun, differ, events, stand, start, told};
use cells::{Cell, Differ};
use memory::PlainMemory;
use rv_step::{Arch, Memory};
use slave::{Ending, Task};
use std::alloc::{AllocError, Global};
use std::test::Fail;
use test_programs::images::image;

const ECALL: u32 = 0x0000_0073;

/// A store of the low byte of x5 at x11.
const STORE: u32 = 0x0055_8023;

/// An image of version 2 with the limit 16, one anchor, of count 1, at the start, and the first two words listed.
static TWO_CALLS: [u32; 16] = [
    0x5053_534d,
    2,
    16,
    1,
    1,
    0,
    0,
    2, //
    2,
    0,
    0, //
    START,
    0,
    1, //
    START,
    START + 4,
];

/// The registers of a call: its number, its descriptor, and where so many bytes lie.
#[derive(Clone, Copy)]
struct Call {
    number: u32,
    descriptor: u32,
    from: u32,
    count: u32,
}

/// A write of so many bytes from an address on to the output.
fn write(from: u32, count: u32) -> Call {
    Call {
        number: 64,
        descriptor: 1,
        from,
        count,
    }
}

/// The start of a program of these words, with the registers of a call, 0x41 in x5, and `hi` and a line's end where its bytes lie.
fn calling(alloc: Global, words: &[u32], call: Call) -> Result<Arch<PlainMemory>, AllocError> {
    let mut s = start(alloc, words)?;
    s.regs[5] = 0x41;
    s.regs[10] = call.descriptor;
    s.regs[11] = call.from;
    s.regs[12] = call.count;
    s.regs[17] = call.number;
    s.mem.put(alloc, call.from, &[0x68, 0x69, 0x0a])?;
    Ok(s)
}

/// A task that begins there, once it is done.
fn done(alloc: Global, words: &[u32], call: Call) -> Result<Task<PlainMemory>, Fail> {
    let image = image(alloc, &TWO_CALLS)?;
    let s = calling(alloc, words, call)?;
    let mut task = begun(alloc, &FIRST, &s)?;
    events(alloc, &mut task, &image)?;
    Ok(task)
}

/// What that task is told of the state where it began, but with another value of a register.
fn told_register(
    alloc: Global,
    words: &[u32],
    call: Call,
    r: u8,
    value: u32,
) -> Result<Option<Differ>, Fail> {
    let task = done(alloc, words, call)?;
    let mut s = calling(alloc, words, call)?;
    s.regs[(r % 32) as usize] = value;
    Ok(told(&task, &s))
}

/// The same with another byte.
fn told_byte(alloc: Global, words: &[u32], call: Call, at: u32) -> Result<Option<Differ>, Fail> {
    let task = done(alloc, words, call)?;
    let mut s = calling(alloc, words, call)?;
    s.mem.put(alloc, at, &[0x55])?;
    Ok(told(&task, &s))
}

/// Whether that task has met what it can't do after so many steps, at this pc, and has printed this.
fn prints(
    alloc: Global,
    words: &[u32],
    call: Call,
    steps: u64,
    pc: u32,
    output: &[u8],
) -> Result<bool, Fail> {
    let task = done(alloc, words, call)?;
    let is_met = stand(&task) == (0, steps, pc, Some(Ending::Met));
    Ok(is_met && *task.view().output() == *output)
}

/// Whether a write of so many bytes is a step that prints this. Behind the call no instruction stands, which
/// the task meets.
fn writes(alloc: Global, from: u32, count: u32, output: &[u8]) -> Result<bool, Fail> {
    prints(alloc, &[ECALL], write(from, count), 1, START + 4, output)
}

#[test]
fn a_short_write_is_a_step(rt: HostRuntime) -> Result<(), Fail> {
    assert!(rt; writes(rt.alloc(), 0x2_0000, 3, b"hi\n")?);
    Ok(())
}

#[test]
fn the_shown_bytes_are_recorded(rt: HostRuntime) -> Result<(), Fail> {
    let call = write(0x2_0000, 3);
    assert_eq!(rt;
        told_byte(rt.alloc(), &[ECALL], call, 0x2_0001)?,
        differ(Cell::Byte(0x2_0001), 0x69, 0x55)
    );
    assert_eq!(rt; told_byte(rt.alloc(), &[ECALL], call, 0x2_0003)?, None);
    Ok(())
}

/// The pc and x10 of the state to which the task of a call was applied, and whether this is its output, of
/// which the first byte was there before.
fn applied(alloc: Global, call: Call, output: &[u8]) -> Result<(u32, u32, bool), Fail> {
    let task = done(alloc, &[ECALL], call)?;
    let mut s = calling(alloc, &[ECALL], call)?;
    let mut out = vec![in alloc; 0x3e]?;
    apply(alloc, &task, &mut s, &mut out)?;
    Ok((s.pc, s.regs[10], *out.as_slice() == *output))
}

#[test]
fn it_is_applied_with_its_output(rt: HostRuntime) -> Result<(), Fail> {
    let found = applied(rt.alloc(), write(0x2_0000, 2), b">hi")?;
    assert_eq!(rt; found, (START + 4, 2, true));
    Ok(())
}

/// What a task is to be told of another value of a register: the four registers of its call are recorded, and no other one.
fn wanted(call: Call, r: u8, value: u32) -> Option<Differ> {
    match r {
        10 => differ(Cell::Reg(10), call.descriptor, value),
        11 => differ(Cell::Reg(11), call.from, value),
        12 => differ(Cell::Reg(12), call.count, value),
        17 => differ(Cell::Reg(17), call.number, value),
        _ => None,
    }
}

/// The first register of which the task is told something else.
fn register_told_otherwise(alloc: Global, call: Call) -> Result<Option<u8>, Fail> {
    for r in 0..32 {
        if told_register(alloc, &[ECALL], call, r, 0x1234)? != wanted(call, r, 0x1234) {
            return Ok(Some(r));
        }
    }
    Ok(None)
}

#[test]
fn the_registers_of_a_short_write_are_recorded(rt: HostRuntime) -> Result<(), Fail> {
    let otherwise = register_told_otherwise(rt.alloc(), write(0x2_0000, 3))?;
    assert_eq!(rt; otherwise, None);
    Ok(())
}

/// Whether a call is met, prints nothing, and none of its registers and bytes is recorded.
fn is_met(alloc: Global, call: Call) -> Result<bool, Fail> {
    let told = told_byte(alloc, &[ECALL], call, 0x2_0000)?;
    let otherwise = register_told_otherwise(alloc, call)?;
    let is_recorded = told.is_some() || otherwise.is_some();
    Ok(!is_recorded && prints(alloc, &[ECALL], call, 0, START, b"")?)
}

/// A write of 257 bytes, one to another descriptor, and an exit.
static OTHER_CALLS: [Call; 3] = [
    Call {
        number: 64,
        descriptor: 1,
        from: 0x2_0000,
        count: 257,
    },
    Call {
        number: 64,
        descriptor: 0,
        from: 0x2_0000,
        count: 3,
    },
    Call {
        number: 93,
        descriptor: 1,
        from: 0x2_0000,
        count: 3,
    },
];

#[test]
fn other_calls_are_met(rt: HostRuntime) -> Result<(), Fail> {
    for &call in &OTHER_CALLS {
        assert!(rt; is_met(rt.alloc(), call)?);
    }
    Ok(())
}

/// The store is at the first pc, which is listed, too.
#[test]
fn a_byte_of_its_own_is_shown_and_not_recorded(rt: HostRuntime) -> Result<(), Fail> {
    let words = [STORE, ECALL];
    let call = write(0x2_0000, 2);
    assert!(rt; prints(rt.alloc(), &words, call, 2, START + 8, b"Ai")?);
    let own = told_byte(rt.alloc(), &words, call, 0x2_0000)?;
    let other = told_byte(rt.alloc(), &words, call, 0x2_0001)?;
    assert_eq!(rt;
        (own, other),
        (None, differ(Cell::Byte(0x2_0001), 0x69, 0x55))
    );
    Ok(())
}

/// After the last address comes 0.
#[test]
fn shown_bytes_wrap(rt: HostRuntime) -> Result<(), Fail> {
    assert!(rt; writes(rt.alloc(), 0xffff_ffff, 3, b"hi\n")?);
    let told = told_byte(rt.alloc(), &[ECALL], write(0xffff_ffff, 3), 0)?;
    assert_eq!(rt; told, differ(Cell::Byte(0), 0x69, 0x55));
    Ok(())
}

#[test]
fn a_write_of_no_bytes_is_a_step(rt: HostRuntime) -> Result<(), Fail> {
    assert!(rt; writes(rt.alloc(), 0x2_0000, 0, b"")?);
    Ok(())
}

/// Where the task of a write of 256 bytes stands once it is done, and how many it has printed.
fn longest(alloc: Global) -> Result<(Stand, usize), Fail> {
    let task = done(alloc, &[ECALL], write(0x2_0021, 256))?;
    Ok((stand(&task), task.view().output().len()))
}

/// 256 bytes in five lines of 64.
#[test]
fn the_longest_short_write(rt: HostRuntime) -> Result<(), Fail> {
    let (stood, length) = longest(rt.alloc())?;
    assert_eq!(rt; stood, (0, 1, START + 4, Some(Ending::Met)));
    assert_eq!(rt; length, 256);
    Ok(())
}
