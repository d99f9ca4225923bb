//! What no clause says: that loading and stepping succeed, and what small programs come to, with answers from outside.
ghost use Rattle.std.specs.Prelude.{IfOk};
ghost use Rattle.elf_reader.specs.Executable.{IsProgram};

use elf_reader::{Program, read_elf};
use memory::{Memory, PlainMemory};
use seq_machine::{Did, End, Machine, load};
use std::alloc::{AllocError, Global};
use std::test::Fail;

/// The header of a file whose program starts at 0x00010000, with two program headers from byte 116 on.
static HEADER: [u8; 52] = [
    0x7F, 0x45, 0x4C, 0x46, 0x01, 0x01, 0x01, 0x00, 0x00, 0x00, 0x00, 0x00, 0x00, 0x00, 0x00, 0x00,
    0x02, 0x00, 0xF3, 0x00, 0x01, 0x00, 0x00, 0x00, 0x00, 0x00, 0x01, 0x00, 0x74, 0x00, 0x00, 0x00,
    0x00, 0x00, 0x00, 0x00, 0x00, 0x00, 0x00, 0x00, 0x34, 0x00, 0x20, 0x00, 0x02, 0x00, 0x00, 0x00,
    0x00, 0x00, 0x00, 0x00,
];

/// A part: where it begins, how many bytes of the words it has, and how many bytes it has in all.
type PartSizes = (u32, u32, u32);

/// A file: its header, sixteen words, those past the given ones 0, and the headers of two parts.
fn file(alloc: Global, words: &[u32], parts: [PartSizes; 2]) -> Result<Vec<u8>, AllocError> {
    let mut file = Vec::from_slice(alloc, &HEADER)?;
    for word in words {
        file.extend_from_slice(&word.to_le_bytes())?;
    }
    file.resize(116, 0)?;
    for (at, bytes, all) in parts {
        for field in [1, 52, at, at, bytes, all, 7, 4] {
            file.extend_from_slice(&u32::to_le_bytes(field))?;
        }
    }
    Ok(file)
}

/// The program of sixteen words at 0x00010000, with an empty part beside them.
fn program(alloc: Global, words: &[u32]) -> Result<Program, Fail>
    ensures { IfOk result IsProgram }
{
    let file = file(alloc, words, [(0x1_0000, 64, 64), (0, 0, 0)])?;
    Ok(read_elf(alloc, &file)?)
}

/// A program's run and what it has to come to.
#[derive(Clone, Copy)]
struct Run {
    words: &'static [u32],
    end: End,
    position: u64,
    pc: u32,
    taken: u64,
    written: usize,
}

/// The answers of all steps until the run ends, at most twenty.
fn answers_of(alloc: Global, machine: &mut Machine<PlainMemory>) -> Result<Vec<Did>, AllocError> {
    let mut answers = Vec::new(alloc);
    for _ in 0..20 {
        if machine.end.is_some() || machine.position >= 20 {
            break;
        }
        answers.push(machine.one(alloc)?)?;
    }
    Ok(answers)
}

/// The machine at the start of a program, with three bytes of input.
fn begun(alloc: Global, words: &[u32]) -> Result<Machine<PlainMemory>, Fail> {
    let program = program(alloc, words)?;
    let input = Vec::from_slice(alloc, b"abc")?;
    Ok(load(alloc, &program, input)?)
}

/// So many answers of steps, the last one of which ends the run.
fn wanted_of(alloc: Global, count: usize, end: End) -> Result<Vec<Did>, AllocError> {
    let mut wanted = vec![in alloc; Did::Stepped; count.saturating_sub(1)]?;
    wanted.push(Did::Ended(end))?;
    Ok(wanted)
}

/// What a run that ended came to: its end, position and pc, and how many bytes it took and wrote.
fn outcome_of(machine: &Machine<PlainMemory>) -> Option<(End, u64, u32, u64, usize)> {
    let end = machine.end?;
    Some((
        end,
        machine.position,
        machine.arch.pc,
        machine.taken,
        machine.out.len(),
    ))
}

/// Programs, and what their runs come to.
static RUNS: [Run; 9] = [
    // exits with 7, by the two calls that exit
    Run {
        words: &[0x00700513, 0x05D00893, 0x00000073],
        end: End::Exit(7),
        position: 3,
        pc: 0x1_0008,
        taken: 0,
        written: 0,
    },
    Run {
        words: &[0x00700513, 0x05E00893, 0x00000073],
        end: End::Exit(7),
        position: 3,
        pc: 0x1_0008,
        taken: 0,
        written: 0,
    },
    // jumps to 00010002
    Run {
        words: &[0x00000297, 0x00228293, 0x000280E7],
        end: End::Misfetch(0x1_0002),
        position: 3,
        pc: 0x1_0008,
        taken: 0,
        written: 0,
    },
    // reads twice, ten bytes at most, and exits with 16 times the first answer, plus the second
    Run {
        words: &[
            0x00000513, 0x000205B7, 0x00A00613, 0x03F00893, 0x00000073, 0x00050293, 0x00000513,
            0x00000073, 0x00429293, 0x00550533, 0x05D00893, 0x00000073,
        ],
        end: End::Exit(48),
        position: 12,
        pc: 0x1_002C,
        taken: 3,
        written: 0,
    },
    // writes 70,000 bytes, and exits with the answer divided by 65,536
    Run {
        words: &[
            0x00100513, 0x000205B7, 0x00011637, 0x17060613, 0x04000893, 0x00000073, 0x01055513,
            0x05D00893, 0x00000073,
        ],
        end: End::Exit(1),
        position: 9,
        pc: 0x1_0020,
        taken: 0,
        written: 65_536,
    },
    // stores 01020304 at FFFFFFFE, and exits with the byte at 0
    Run {
        words: &[
            0xFFE00293, 0x01020337, 0x30430313, 0x0062A023, 0x00000503, 0x05D00893, 0x00000073,
        ],
        end: End::Exit(2),
        position: 7,
        pc: 0x1_0018,
        taken: 0,
        written: 0,
    },
    // EBREAK, and words that are no instruction
    Run {
        words: &[0x00100073],
        end: End::Break,
        position: 1,
        pc: 0x1_0000,
        taken: 0,
        written: 0,
    },
    Run {
        words: &[0x00000000],
        end: End::Illegal(0),
        position: 1,
        pc: 0x1_0000,
        taken: 0,
        written: 0,
    },
    Run {
        words: &[0x00000013, 0xFFFFFFFF],
        end: End::Illegal(0xFFFF_FFFF),
        position: 2,
        pc: 0x1_0004,
        taken: 0,
        written: 0,
    },
];

#[test]
fn runs_end(rt: HostRuntime) -> Result<(), Fail> {
    for want in &RUNS {
        let mut machine = begun(rt.alloc(), want.words)?;
        let stack = machine.arch.regs[2];
        let answers = answers_of(rt.alloc(), &mut machine)?;
        let wanted = wanted_of(rt.alloc(), answers.len(), want.end)?;
        assert_eq!(rt; answers, wanted);
        let outcome = (want.end, want.position, want.pc, want.taken, want.written);
        assert_eq!(rt; outcome_of(&machine), Some(outcome));
        let link = machine.arch.regs[1];
        let is_zero = machine.out.iter().all(|byte| *byte == 0);
        assert_eq!(rt; (stack, link, is_zero), (0x7FFF_FFC0, 0, true));
    }
    Ok(())
}

/// The number in x17, the argument in x10, the answer, and the break after it.
static CALLS: [(u32, u32, u32, u32); 13] = [
    (214, 0, 0x1_1000, 0x1_1000),
    (214, 0x1_0FFF, 0x1_1000, 0x1_1000),
    (214, 0x1_1001, 0x1_1001, 0x1_1001),
    (214, 0x7000_0000, 0x7000_0000, 0x7000_0000),
    (214, 0x7000_0001, 0x1_1000, 0x1_1000),
    (63, 0, 0, 0x1_1000),
    (63, 1, 0xFFFF_FFF7, 0x1_1000),
    (64, 2, 0, 0x1_1000),
    (64, 0, 0xFFFF_FFF7, 0x1_1000),
    (64, 3, 0xFFFF_FFF7, 0x1_1000),
    (0, 1, 0xFFFF_FFDA, 0x1_1000),
    (95, 1, 0xFFFF_FFDA, 0x1_1000),
    (0xFFFF_FFFF, 1, 0xFFFF_FFDA, 0x1_1000),
];

#[test]
fn answers_calls(rt: HostRuntime) -> Result<(), Fail> {
    let program = program(rt.alloc(), &[0x00000073])?;
    for &(number, argument, answer, brk) in &CALLS {
        let mut machine: Machine<PlainMemory> = load(rt.alloc(), &program, Vec::new(rt.alloc()))?;
        machine.arch.regs[17] = number;
        machine.arch.regs[10] = argument;
        let did = machine.one(rt.alloc())?;
        let answered = machine.arch.regs[10];
        let after = (did, answered, machine.brk, machine.arch.pc);
        let wanted = (Did::Stepped, answer, brk, 0x1_0004);
        assert_eq!(rt; after, wanted, "call {number} of {argument:08x}");
    }
    Ok(())
}

/// Nearly all addresses.
const VAST: u32 = 0xFFFF_F000;

/// Two parts, an address, and the word there.
static PARTS: [([PartSizes; 2], u32, u32); 8] = [
    ([(0, 16, 16), (4, 4, 8)], 0, 0x0403_0201),
    ([(0, 16, 16), (4, 4, 8)], 4, 0x0403_0201),
    ([(0, 16, 16), (4, 4, 8)], 8, 0),
    ([(0, 16, 16), (4, 4, 8)], 12, 0x100F_0E0D),
    ([(4, 4, 8), (0, 16, 16)], 8, 0x0C0B_0A09),
    ([(0x1_0000, 16, 16), (0, 4, VAST)], 0x1_0000, 0),
    ([(0, 4, VAST), (0x1_0000, 16, 16)], 0x1_0000, 0x0403_0201),
    ([(0, 4, VAST), (0x1_0000, 16, 16)], 0, 0x0403_0201),
];

#[test]
fn lays_later_parts_over_earlier_ones(rt: HostRuntime) -> Result<(), Fail> {
    for (parts, address, word) in PARTS {
        let words = [0x0403_0201, 0x0807_0605, 0x0C0B_0A09, 0x100F_0E0D];
        let program = read_elf(rt.alloc(), &file(rt.alloc(), &words, parts)?)?;
        let machine: Machine<PlainMemory> = load(rt.alloc(), &program, Vec::new(rt.alloc()))?;
        assert_eq!(rt;
            machine.arch.mem.word(address),
            word,
            "{parts:?} at {address:08x}"
        );
    }
    Ok(())
}
