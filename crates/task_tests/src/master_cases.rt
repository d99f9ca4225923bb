//! What no clause says: that the calls succeed, and what they answer on images worked out by hand.
ghost use Rattle.std.specs.Prelude.{◌<◌, length, IfOk};
ghost use Rattle.dist_image.specs.Image.{IsImage};

use dist_image::{Anchor, Image, ImageErr, read_image};
use master::{Master, MasterDid, Why};
use memory::PlainMemory;
use rv_step::{Arch, Flow, Memory, View, step};
use std::alloc::{AllocError, Global};
use std::test::Fail;
use test_programs::images::{TEN_TURNS, image as image_of};
use test_programs::programs::TEN_TURNS_LOOP;

/// A slot as the format has it: its kind and two numbers.
type SlotNumbers = (u32, u32, u32);

const FORK: SlotNumbers = (2, 0, 0);

const fn exec(origin: u32, word: u32) -> SlotNumbers {
    (0, origin, word)
}

const fn go(target: u32) -> SlotNumbers {
    (1, target, 0)
}

// An image with one anchor, and notes of these pcs with these slots.
fn image(
    alloc: Global,
    limit: u32,
    slots: &[SlotNumbers],
    anchor: Anchor,
    notes: &[(u32, u32)],
) -> Result<Image, ImageErr>
    requires slots { length slots.now < 100 }
    requires notes { length notes.now < 100 }
    ensures { IfOk result IsImage }
{
    let mut bytes = Vec::new(alloc);
    let counts = [slots.len() as u32, 1, notes.len() as u32, 0];
    put_all(&mut bytes, &[0x5053_534d, 1, limit])?;
    put_all(&mut bytes, &counts)?;
    for (kind, a, b) in slots {
        put_all(&mut bytes, &[*kind, *a, *b])?;
    }
    put_all(&mut bytes, &[anchor.pc, anchor.slot, anchor.count])?;
    for (pc, slot) in notes {
        put_all(&mut bytes, &[*pc, *slot, 0, 0])?;
    }
    read_image(alloc, &bytes)
}

fn put_all(bytes: &mut Vec<u8>, numbers: &[u32]) -> Result<(), AllocError> {
    for number in numbers {
        bytes.extend_from_slice(&number.to_le_bytes())?;
    }
    Ok(())
}

const TURN: u32 = 0x1_0004;

// The program's state after its first step.
fn turning(alloc: Global) -> Result<Arch<PlainMemory>, AllocError> {
    let mut mem = PlainMemory::empty(alloc)?;
    let mut at = 0x1_0000;
    for &word in &TEN_TURNS_LOOP {
        mem.put_word(alloc, at, word)?;
        at = at.wrapping_add(4);
    }
    let mut arch = Arch {
        pc: 0x1_0000,
        regs: [0; 32],
        mem,
    };
    arch.ready(alloc)?;
    if let Flow::Next(pc) = step(alloc, &mut arch, 0x1_0000)? {
        arch.pc = pc;
    }
    Ok(arch)
}

/// A master that begins at this anchor of that program.
fn begun(alloc: Global, anchor: &Anchor) -> Result<Master<PlainMemory>, AllocError>
    requires { anchor.now.slot < 1_048_576 }
{
    Master::begin(alloc, anchor, &turning(alloc)?)
}

/// The anchor at which a master is about to begin a task, if it is, and what it does then.
fn go_on(
    alloc: Global,
    master: &mut Master<PlainMemory>,
    image: &Image,
    room: bool,
) -> Result<(Option<u32>, MasterDid), AllocError>
    requires { IsImage image.now }
{
    let next = master.next_spawn(image);
    Ok((next, master.advance(alloc, image, room)?))
}

/// Whether that is the same so many times in turn.
fn goes_on(
    alloc: Global,
    master: &mut Master<PlainMemory>,
    image: &Image,
    room: bool,
    times: u32,
    want: (Option<u32>, MasterDid),
) -> Result<bool, AllocError>
    requires { IsImage image.now }
{
    for _ in 0..times {
        if go_on(alloc, master, image, room)? != want {
            return Ok(false);
        }
    }
    Ok(true)
}

/// For the program of ten turns: a task has two of its turns.
const TWO_TURNS: Anchor = Anchor {
    pc: TURN,
    slot: 1,
    count: 2,
};

/// What a master does, at which anchor it is about to begin a task after that, and its x5.
type Then = (MasterDid, Option<u32>, u32);

/// Whether a master of the ten turns moves five times where there is room, and stalls twice where there is
/// none; and what it does then where there is room again.
fn at_the_second_arrival(alloc: Global) -> Result<(bool, Then), Fail> {
    let image = image_of(alloc, &TEN_TURNS)?;
    let mut master = begun(alloc, &TWO_TURNS)?;
    let moved = (None, MasterDid::Moved);
    let moves = goes_on(alloc, &mut master, &image, true, 5, moved)?;
    let stalled = (Some(0), MasterDid::Stalled);
    let stalls = goes_on(alloc, &mut master, &image, false, 2, stalled)?;
    let (_, did) = go_on(alloc, &mut master, &image, true)?;
    let then = (did, master.next_spawn(&image), master.regs()[5]);
    Ok((moves && stalls, then))
}

#[test]
fn spawns_at_the_second_arrival(rt: HostRuntime) -> Result<(), Fail> {
    let (is_so, then) = at_the_second_arrival(rt.alloc())?;
    assert!(rt; is_so);
    assert_eq!(rt; then, (MasterDid::Spawned(0), None, 8));
    Ok(())
}

/// An anchor before the slot 1, where every arrival begins a task.
const FIRST: Anchor = Anchor {
    pc: TURN,
    slot: 0,
    count: 1,
};

/// What a word does at 0x00010004, where that is the one pc with a note.
static HALTS: [(u32, Why); 8] = [
    // ECALL
    (0x0000_0073, Why::Call),
    // EBREAK, two words without a meaning, and JAL to a pc that is no multiple of 4
    (0x0010_0073, Why::Trap),
    (0x0000_0000, Why::Trap),
    (0xffff_ffff, Why::Trap),
    (0x0020_00ef, Why::Trap),
    // ADDI, SW and JAL to a pc without a note
    (0xfff2_8293, Why::Lost),
    (0x0052_a023, Why::Lost),
    (0x0080_02ef, Why::Lost),
];

/// Whether a master that comes to this word halts twice for this reason, and is as it was: x5 is 10, which
/// is where the store would go.
fn halts(alloc: Global, word: u32, why: Why) -> Result<bool, Fail> {
    let image = image(alloc, 16, &[FORK, exec(TURN, word)], FIRST, &[(TURN, 0)])?;
    let mut master = begun(alloc, &FIRST)?;
    for _ in 0..2 {
        let (_, did) = go_on(alloc, &mut master, &image, true)?;
        if did != MasterDid::Halted(why) {
            return Ok(false);
        }
    }
    Ok(master.regs()[5] == 10 && master.mem().word(10) == 0)
}

#[test]
fn halts_and_is_as_it_was(rt: HostRuntime) -> Result<(), Fail> {
    for &(word, why) in &HALTS {
        assert!(rt; halts(rt.alloc(), word, why)?, "{word:08x}");
    }
    Ok(())
}

/// What a master does first that has these slots, and a note of the first of them.
fn first_did(alloc: Global, slots: &[SlotNumbers]) -> Result<MasterDid, Fail>
    requires { length slots.now < 100 }
{
    let image = image(alloc, 16, slots, FIRST, &[(TURN, 0)])?;
    let mut master = begun(alloc, &FIRST)?;
    let (_, did) = go_on(alloc, &mut master, &image, true)?;
    Ok(did)
}

// A Go to a pc without a note, and a Fork in the last slot.
#[test]
fn is_lost_without_a_slot(rt: HostRuntime) -> Result<(), Fail> {
    let to_nowhere = first_did(rt.alloc(), &[FORK, go(0x1_0008)])?;
    let past_the_last = first_did(rt.alloc(), &[FORK])?;
    let lost = MasterDid::Halted(Why::Lost);
    assert_eq!(rt; (to_nowhere, past_the_last), (lost, lost));
    Ok(())
}

/// Whether a master with these slots, whose task has so many arrivals, moves 68 times and has spent its slots
/// then.
fn is_spent(
    alloc: Global,
    count: u32,
    slots: &[SlotNumbers],
    notes: &[(u32, u32)],
) -> Result<bool, Fail>
    requires slots { length slots.now < 100 }
    requires notes { length notes.now < 100 }
{
    let anchor = Anchor { count, ..FIRST };
    let image = image(alloc, 16, slots, anchor, notes)?;
    let mut master = begun(alloc, &anchor)?;
    for _ in 0..68 {
        let (_, did) = go_on(alloc, &mut master, &image, false)?;
        if did != MasterDid::Moved {
            return Ok(false);
        }
    }
    let spent = go_on(alloc, &mut master, &image, false)?;
    Ok(spent == (None, MasterDid::Halted(Why::Spent)))
}

// With a limit of 16 steps a master has 68 slots: in a Go to itself, and in a ring of a Fork and two
// Gos, where the 69th slot would be a Fork that begins a task.
#[test]
fn spends_its_slots(rt: HostRuntime) -> Result<(), Fail> {
    let alone = [FORK, go(TURN), go(TURN)];
    assert!(rt; is_spent(rt.alloc(), 1, &alone, &[(TURN, 1), (0x1_0008, 2)])?);
    let ring = [FORK, go(0x1_0008), go(TURN)];
    assert!(rt; is_spent(rt.alloc(), 23, &ring, &[(TURN, 0), (0x1_0008, 2)])?);
    Ok(())
}

/// The image of AUIPC at another origin, a store of x5 to where it points, and a load from there.
fn far_image(alloc: Global) -> Result<Image, ImageErr>
    ensures { IfOk result IsImage }
{
    let slots = [
        FORK,
        exec(0x2_0000, 0x0000_0297),
        exec(0x2_0004, 0x0052_a023),
        exec(0x2_0008, 0x0002_a303),
    ];
    let notes = [(TURN, 0), (0x2_0004, 2), (0x2_0008, 3), (0x2_000c, 0)];
    image(alloc, 16, &slots, FIRST, &notes)
}

/// The word at 0x00020000 of a state's memory.
fn far_word(mem: &PlainMemory) -> u32 {
    mem.word(0x2_0000)
}

/// Whether a master moves three times by that image, and is about to begin its task then; and what x5 and x6
/// are then, and the word at 0x00020000 in its memory and in that of the state where it began.
fn far_off(alloc: Global) -> Result<(bool, [u32; 4]), Fail> {
    let image = far_image(alloc)?;
    let arch = turning(alloc)?;
    let mut master = Master::begin(alloc, &FIRST, &arch)?;
    let moves = goes_on(
        alloc,
        &mut master,
        &image,
        true,
        3,
        (None, MasterDid::Moved),
    )?;
    let is_so = moves && master.next_spawn(&image) == Some(0);
    let [five, six] = [master.regs()[5], master.regs()[6]];
    Ok((
        is_so,
        [five, six, far_word(master.mem()), far_word(&arch.mem)],
    ))
}

// The program has no words there, and its own state doesn't see the store.
#[test]
fn works_at_the_origin_on_its_own_memory(rt: HostRuntime) -> Result<(), Fail> {
    let found = far_off(rt.alloc())?;
    assert_eq!(rt; found, (true, [0x2_0000, 0x2_0000, 0x2_0000, 0]));
    Ok(())
}
