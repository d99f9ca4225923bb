//! The master and its events.
ghost use Rattle.std.specs.Prelude.{◌≡◌, ◌==◌, if◌then◌else◌, ℕ, ◌+◌, ◌*◌, ◌-◌, ◌^◌, ◌<◌, length, slice_get, true, false, IfOk, OnErr};
ghost use Rattle.rv_word.specs.Meaning.{meaning};
ghost use Rattle.dist_image.specs.Image.{IsImage};
ghost use Rattle.image_semantics.specs.World.{drive, begin_behind};
ghost use Rattle.rv_semantics.specs.Effect.{is_store as stores};
ghost use Rattle.master.specs.Shown.{arch_at, shown, next_spawn, forked, gone, executed, is_answered, called, moved_to, DoesAs, Keeps, SpawnsNext};
ghost use Rattle.master.specs.Shown as spec;

use crate::places::Places;
use crate::word::{is_store, perform, set_register, target};
use dist_image::{Anchor, Image, Slot, prints_at};
use rv_semantics::is_short_write;
use rv_step::{Arch, Flow, Memory};
use speculation::Why;
use std::alloc::{AllocError, Global};

/// What one event of the master did.
#[derive(Clone, Copy, Debug, PartialEq, Eq)]
pub enum MasterDid {
    /// A slot was done, and the master goes on.
    Moved,
    /// A Fork was done, and a task begins at the anchor of this number, with the master's registers
    /// and memory.
    Spawned(u32),
    /// A task would begin, and there is no room for one. Nothing changed.
    Stalled,
    /// The master can't go on, and is as it was.
    Halted(Why),
}

/// A run of the distilled program: a slot, and registers and a memory of its own.
#[derive(Drop)]
pub struct Master<M: Memory> {
    arch: Arch<M>,
    /// The number of the slot that is done next.
    slot: u32,
    /// How many anchors are to be passed until a task begins, the one where it begins counted too.
    left: u32,
    /// How many slots were done since the last task began.
    spent: u32,
    /// Where notes were found.
    places: Places,
}

/// The most slots from one spawn to the next.
fn fuel(image: &Image) -> u32
    requires { IsImage image.now }
    ensures { result ≡ 4 * image.now.limit + 4 }
{
    4 * image.limit + 4
}

/// The number of the anchor, if the slot is a Fork.
fn forking(slot: Option<Slot>) -> Option<u32>
    ensures { result ≡ spec.forking slot }
{
    match slot {
        Some(Slot::Fork { anchor }) => Some(anchor),
        None | Some(Slot::Exec { .. } | Slot::Go { .. }) => None,
    }
}

impl<M: Memory> Master<M> {
    /// A master that begins behind the Fork of an anchor, with the registers and a snapshot of the
    /// memory of `a`. Where the anchor is the one that an image has at the pc of `a`, so begins the
    /// master of that image.
    ///
    /// # Errors
    ///
    /// Want of memory alone.
    pub fn begin(alloc: Global, anchor: &Anchor, a: &Arch<M>) -> Result<Master<M>, AllocError>
        requires { anchor.now.slot < 1_048_576 }
        ensures { IfOk result (λ m. shown M.at m ≡ begin_behind (arch_at M.at a.now) (Some anchor.now)) }
    {
        let arch = Arch {
            pc: a.pc,
            regs: a.regs,
            mem: a.mem.snapshot(alloc)?,
        };
        Ok(Master {
            arch,
            slot: anchor.slot + 1,
            left: anchor.count,
            spent: 0,
            places: Places::new(),
        })
    }

    /// The number of the anchor where the next event begins a task, if there is room for it. None
    /// where the next event does something else. Takes no memory.
    pub fn next_spawn(&self, image: &Image) -> Option<u32>
        requires { IsImage image.now }
        ensures { result ≡ next_spawn image.now (shown M.at self.now) }
    {
        if self.spent >= fuel(image) || self.left != 1 {
            return None;
        }
        forking(self.due(image))
    }

    /// One event: the slot is done, unless the master has spent its slots or would begin a task
    /// without room. `room` tells whether there is room for one task more.
    ///
    /// The word of a slot is done at its origin, on the master's own registers and memory; what
    /// lies in that memory at its origin plays no part. A master that halted or stalled is as it
    /// was, and answers the same again where it is asked again.
    ///
    /// # Errors
    ///
    /// Want of memory alone, and then the master is as it was. Where [`Master::next_spawn`] gives
    /// an anchor, no memory is taken.
    pub fn advance(
        &mut self,
        alloc: Global,
        image: &Image,
        room: bool,
    ) -> Result<MasterDid, AllocError>
        requires { IsImage image.now }
        ensures ok { IfOk result (DoesAs M.at image.now (drive image.now room) self.old self.new) }
        ensures spawned { IfOk result (SpawnsNext (next_spawn image.now (shown M.at self.old))) }
        ensures stays { IfOk result (Keeps (shown M.at self.old) (shown M.at self.new)) }
        ensures sure { OnErr result (next_spawn image.now (shown M.at self.old) ≡ None) }
        ensures err { OnErr result (shown M.at self.new ≡ shown M.at self.old) }
    {
        if self.spent >= fuel(image) {
            return Ok(MasterDid::Halted(Why::Spent));
        }
        match self.due(image) {
            None => Ok(MasterDid::Halted(Why::Lost)),
            Some(Slot::Fork { anchor }) => Ok(self.fork(image, anchor, room)),
            Some(Slot::Go { target }) => Ok(self.go(image, target)),
            Some(Slot::Exec { origin, word }) => self.exec(alloc, image, origin, word),
        }
    }

    /// Its registers.
    pub fn regs(&self) -> &[u32; 32]
        ensures { result.now ≡ self.now.arch.regs }
    {
        &self.arch.regs
    }

    /// Its memory.
    pub fn mem(&self) -> &M
        ensures { result.now ≡ self.now.arch.mem }
    {
        &self.arch.mem
    }

    // The slot that is done next.
    fn due(&self, image: &Image) -> Option<Slot>
        ensures { result ≡ slice_get image.now.slots self.now.slot }
    {
        image.slots.get(self.slot as usize).copied()
    }

    // A Fork passes an anchor, and at the last one left begins a task, where there is room.
    fn fork(&mut self, image: &Image, anchor: u32, room: bool) -> MasterDid
        requires anchor { anchor < length image.now.anchors }
        requires slot { self.old.slot < 1_048_576 }
        requires spent { self.old.spent < 2 ^ 32 - 1 }
        ensures ok { DoesAs M.at image.now (forked image.now room anchor) self.old self.new result }
        ensures spawned { SpawnsNext (if self.old.left == 1 then Some anchor else None) result }
        ensures stays { Keeps (shown M.at self.old) (shown M.at self.new) result }
    {
        if self.left != 1 {
            self.left = self.left.saturating_sub(1);
            return self.move_to(self.slot + 1);
        }
        if !room {
            return MasterDid::Stalled;
        }
        self.slot += 1;
        self.left = image.anchors[anchor as usize].count;
        self.spent = 0;
        MasterDid::Spawned(anchor)
    }

    // The slot at a pc comes next, if there is one.
    fn go(&mut self, image: &Image, target: u32) -> MasterDid
        requires image { IsImage image.now }
        requires spent { self.old.spent < 2 ^ 32 - 1 }
        ensures ok { DoesAs M.at image.now (gone image.now target) self.old self.new result }
        ensures spawned { SpawnsNext None result }
        ensures stays { Keeps (shown M.at self.old) (shown M.at self.new) result }
    {
        match self.places.slot_at(image, target) {
            None => MasterDid::Halted(Why::Lost),
            Some(slot) => self.move_to(slot),
        }
    }

    // A word is done, and the slot at the pc behind it comes next.
    fn exec(
        &mut self,
        alloc: Global,
        image: &Image,
        origin: u32,
        word: u32,
    ) -> Result<MasterDid, AllocError>
        requires image { IsImage image.now }
        requires spent { self.old.spent < 2 ^ 32 - 1 }
        ensures ok { IfOk result (DoesAs M.at image.now (executed image.now origin word) self.old self.new) }
        ensures spawned { IfOk result (SpawnsNext None) }
        ensures stays { IfOk result (Keeps (shown M.at self.old) (shown M.at self.new)) }
        ensures err { OnErr result (shown M.at self.new ≡ shown M.at self.old) }
    {
        if is_store(word) {
            self.store(alloc, image, origin, word)
        } else {
            self.compute(alloc, image, origin, word)
        }
    }

    // A store always goes on behind itself. So the slot there is looked up first, and nothing is
    // stored where there is none.
    fn store(
        &mut self,
        alloc: Global,
        image: &Image,
        origin: u32,
        word: u32,
    ) -> Result<MasterDid, AllocError>
        requires image { IsImage image.now }
        requires store { stores (meaning word) ≡ true }
        requires spent { self.old.spent < 2 ^ 32 - 1 }
        ensures ok { IfOk result (DoesAs M.at image.now (executed image.now origin word) self.old self.new) }
        ensures spawned { IfOk result (SpawnsNext None) }
        ensures stays { IfOk result (Keeps (shown M.at self.old) (shown M.at self.new)) }
        ensures err { OnErr result (shown M.at self.new ≡ shown M.at self.old) }
    {
        let behind = origin.wrapping_add(4);
        match self.places.slot_at(image, behind) {
            None => Ok(MasterDid::Halted(Why::Lost)),
            Some(slot) => {
                perform(alloc, &mut self.arch, origin, word)?;
                self.arch.pc = behind;
                Ok(self.move_to(slot))
            }
        }
    }

    // Any other word leaves the memory as it is, and sets one register at most, which is put back where
    // no slot follows.
    fn compute(
        &mut self,
        alloc: Global,
        image: &Image,
        origin: u32,
        word: u32,
    ) -> Result<MasterDid, AllocError>
        requires image { IsImage image.now }
        requires no_store { stores (meaning word) ≡ false }
        requires spent { self.old.spent < 2 ^ 32 - 1 }
        ensures ok { IfOk result (DoesAs M.at image.now (executed image.now origin word) self.old self.new) }
        ensures spawned { IfOk result (SpawnsNext None) }
        ensures stays { IfOk result (Keeps (shown M.at self.old) (shown M.at self.new)) }
        ensures err { OnErr result (shown M.at self.new ≡ shown M.at self.old) }
    {
        let target = target(word);
        let before = self.arch.regs[target];
        match perform(alloc, &mut self.arch, origin, word)? {
            Flow::Next(to) => match self.places.slot_at(image, to) {
                None => {
                    set_register(&mut self.arch.regs, target, before);
                    Ok(MasterDid::Halted(Why::Lost))
                }
                Some(slot) => {
                    self.arch.pc = to;
                    Ok(self.move_to(slot))
                }
            },
            Flow::Call => Ok(self.call(image, origin)),
            Flow::Break | Flow::Illegal(_) | Flow::Misfetch(_) => Ok(MasterDid::Halted(Why::Trap)),
        }
    }

    // Whether a call at `origin` is one that a task does.
    fn answers(&self, image: &Image, origin: u32) -> bool
        requires { IsImage image.now }
        ensures { result ≡ is_answered image.now (shown M.at self.now) origin }
    {
        let regs = &self.arch.regs;
        prints_at(image, origin) && is_short_write(regs[17], regs[10], regs[12])
    }

    // Where tasks print, a short write goes on behind itself and answers the number of its bytes. The
    // master shows none of them: the task that does the same call does. Any other call halts it.
    fn call(&mut self, image: &Image, origin: u32) -> MasterDid
        requires image { IsImage image.now }
        requires spent { self.old.spent < 2 ^ 32 - 1 }
        ensures ok { DoesAs M.at image.now (λ a. called image.now a origin) self.old self.new result }
        ensures spawned { SpawnsNext None result }
        ensures stays { Keeps (shown M.at self.old) (shown M.at self.new) result }
    {
        if !self.answers(image, origin) {
            return MasterDid::Halted(Why::Call);
        }
        let behind = origin.wrapping_add(4);
        match self.places.slot_at(image, behind) {
            None => MasterDid::Halted(Why::Lost),
            Some(slot) => {
                let length = self.arch.regs[12];
                set_register(&mut self.arch.regs, 10, length);
                self.arch.pc = behind;
                self.move_to(slot)
            }
        }
    }

    // One slot more is done, and this one comes next.
    fn move_to(&mut self, slot: u32) -> MasterDid
        requires { self.old.spent < 2 ^ 32 - 1 }
        ensures did { result ≡ MasterDid.Moved }
        ensures shown { shown M.at self.new ≡ moved_to slot (shown M.at self.old) }
    {
        self.slot = slot;
        self.spent += 1;
        MasterDid::Moved
    }
}
