//! A task and its events.
ghost use Rattle.std.specs.Prelude.{◌≡◌, ℕ, ◌%◌, true, false, is_some};
ghost use Rattle.dist_image.specs.Image.{IsImage, anchor_at, prints_at};

use crate::did::{SlaveDid, did_of, ending_after, next_of};
use dist_image::{Anchor, Image, prints_at};
use layers::TaskView;
use rv_semantics::is_short_write;
use rv_step::{Memory, View};
use rv_word::{Inst, decode};
use speculation::Ending;
use std::alloc::{AllocError, Global};

/// The program's own code, run from a checkpoint.
#[derive(Drop)]
pub struct Task<M: Memory> {
    number: u64,
    view: TaskView<M>,
    pc: u32,
    count: u32,
    left: u32,
    steps: u64,
    ending: Option<Ending>,
    // How many anchors stood below the pc at the last look. Nothing rests on it: each look checks it.
    below: usize,
    ghost aligned: { pc % 4 ≡ 0 },
}

impl<M: Memory> Task<M> {
    ghost use Rattle.std.specs.Prelude.{◌<◌, ℕ, Bool, true, IsNone, IsOk, IfSome, IfOk, OnOk, OnErr};
    ghost use Rattle.layers.specs.Layered.{HasRoom};
    ghost use Rattle.dist_image.specs.Image.{IsImage, IsAnchor, prints_at};
    ghost use Rattle.slave.specs.Task.{shown, fresh_at, did_of, went, advanced, performed, performed_in};
    ghost use Rattle.slave.specs.Task.{goes_to, called_there, goes_on_behind};
    ghost use Rattle.slave.specs.Task.{IsModelAt, IsTaskOfAny, StaysTaskOf, HadEvent, GoesAlong};

    /// A task of this number at an anchor of an image, with the registers and the memory there. Its
    /// view records the anchor's pc.
    ///
    /// # Errors
    ///
    /// Want of memory.
    pub fn begin(
        alloc: Global,
        number: u64,
        anchor: &Anchor,
        regs: [u32; 32],
        mem: M,
    ) -> Result<Task<M>, AllocError>
        requires { IsAnchor 1_048_576 anchor.now }
        ensures shown { IfOk result (λ task. shown M.at task ≡ fresh_at number anchor.now regs (M.at mem)) }
        ensures model { IfOk result (λ task. IsModelAt number anchor.now regs (M.at mem) (shown M.at task)) }
        ensures task { IfOk result (λ task. IsTaskOfAny (shown M.at task)) }
    {
        Ok(Task {
            number,
            view: TaskView::begin(alloc, anchor.pc, regs, mem)?,
            pc: anchor.pc,
            count: anchor.count,
            left: anchor.count,
            steps: 0,
            ending: None,
            below: 0,
        })
    }

    /// The task's number.
    pub fn number(&self) -> u64
        ensures { result ≡ self.now.number }
    {
        self.number
    }

    /// The steps that the task has taken.
    pub fn steps(&self) -> u64
        ensures { result ≡ self.now.steps }
    {
        self.steps
    }

    /// Where the task stands.
    pub fn pc(&self) -> u32
        ensures { result ≡ self.now.pc }
    {
        self.pc
    }

    /// How the task is done, and None while it is running.
    pub fn ending(&self) -> Option<Ending>
        ensures { result ≡ self.now.ending }
    {
        self.ending
    }

    /// What the task has read and written.
    pub fn view(&self) -> &TaskView<M>
        ensures { result.now ≡ self.now.view }
    {
        &self.view
    }

    /// One event of a running task.
    ///
    /// Where a call stands at its pc, or an instruction that would end the run, the task is done
    /// with [`Ending::Met`] and takes no step; the cells that were read for this decision are
    /// recorded. At a pc in the image's writes these are x10, x11, x12 and x17, too, and a call that
    /// writes at most 256 bytes to the output is a step: the bytes are recorded and added to the
    /// task's own output, and x12 is put into x10. Otherwise the task takes a step. It is done with
    /// [`Ending::Reached`] where it has then come to its last anchor, and else with
    /// [`Ending::Full`] where it has taken as many steps as the image's limit.
    ///
    /// # Errors
    ///
    /// Want of memory. The task is then as it was.
    #[inline(always)]
    pub fn advance(&mut self, alloc: Global, image: &Image) -> Result<SlaveDid, AllocError>
        requires running { IsNone self.old.ending }
        requires room { self.old.steps < image.now.limit }
        requires image { IsImage image.now }
        ensures ok { OnOk result (shown M.at self.new ≡ advanced image.now (shown M.at self.old)) }
        ensures did { IfOk result (λ d. d ≡ did_of self.new.ending) }
        ensures err { OnErr result (shown M.at self.new ≡ shown M.at self.old) }
        ensures task { OnOk result (StaysTaskOf image.now (shown M.at self.old) (shown M.at self.new)) }
        ensures model { OnOk result (HadEvent image.now (shown M.at self.old) (shown M.at self.new)) }
        ensures law { OnOk result (GoesAlong image.now (shown M.at self.old) (shown M.at self.new)) }
    {
        let next = self.perform(alloc, image)?;
        self.go_on(image, next);
        Ok(did_of(self.ending))
    }

    // Does the instruction at the pc on the view, or the short write, and answers where the task goes on, if it does.
    #[inline(always)]
    fn perform(&mut self, alloc: Global, image: &Image) -> Result<Option<u32>, AllocError>
        requires { IsImage image.now }
        ensures next { IfOk result (λ next. next ≡ goes_to (prints_at image.now) (shown M.at self.old)) }
        ensures aligned { IfOk result (λ next. IfSome next (λ to. to % 4 ≡ 0)) }
        ensures ok { OnOk result (shown M.at self.new ≡ performed_in image.now (shown M.at self.old)) }
        ensures err { OnErr result (shown M.at self.new ≡ shown M.at self.old) }
    {
        if may_print(image, self.pc) {
            return self.perform_or_print(alloc);
        }
        self.view.ready(alloc)?;
        let flow = self.view.step(alloc, self.pc)?;
        Ok(next_of(flow))
    }

    // The same where the task may print: a short write doesn't stop it.
    #[inline(never)]
    fn perform_or_print(&mut self, alloc: Global) -> Result<Option<u32>, AllocError>
        ensures next { (prints : ℕ → Bool) → prints self.old.pc ≡ true
            → IfOk result (λ next. next ≡ goes_to prints (shown M.at self.old)) }
        ensures aligned { IfOk result (λ next. IfSome next (λ to. to % 4 ≡ 0)) }
        ensures ok { (prints : ℕ → Bool) → prints self.old.pc ≡ true
            → OnOk result (shown M.at self.new ≡ performed prints (shown M.at self.old)) }
        ensures err { OnErr result (shown M.at self.new ≡ shown M.at self.old) }
    {
        self.view.ready_call()?;
        let word = self.view.fetch(self.pc);
        match decode(word) {
            Inst::Ecall => self.call(),
            _ => {
                let flow = self.view.step(alloc, self.pc)?;
                Ok(next_of(flow))
            }
        }
    }

    // Does the call at the pc, whose word was fetched, if it is a short write.
    fn call(&mut self) -> Result<Option<u32>, AllocError>
        requires { HasRoom self.old.view 256 1 256 }
        ensures sure { IsOk result }
        ensures next { IfOk result (λ next. next ≡ goes_on_behind (shown M.at self.old)) }
        ensures aligned { IfOk result (λ next. IfSome next (λ to. to % 4 ≡ 0)) }
        ensures ok { OnOk result (shown M.at self.new ≡ called_there (shown M.at self.old)) }
    {
        let [descriptor, _, count, number] = self.view.call_args()?;
        if !is_short_write(number, descriptor, count) {
            return Ok(None);
        }
        self.view.print()?;
        Ok(Some(self.pc.wrapping_add(4)))
    }

    // Goes on at this pc, and is done there with the last anchor or the last step; without one, meets what stands at its own.
    #[inline(always)]
    fn go_on(&mut self, image: &Image, next: Option<u32>)
        requires running { IsNone self.old.ending }
        requires aligned { IfSome next (λ to. to % 4 ≡ 0) }
        requires room { self.old.steps < image.now.limit }
        requires image { IsImage image.now }
        ensures { shown M.at self.new ≡ went image.now (shown M.at self.old) next }
    {
        match next {
            Some(to) => {
                let (arrived, below) = look(image, self.below, to);
                self.pc = to;
                self.below = below;
                if arrived {
                    self.left = self.left.saturating_sub(1);
                }
                self.steps += 1;
                if let Some(how) = ending_after(self.left, self.steps, image.limit) {
                    self.ending = Some(how);
                }
            }
            None => self.ending = Some(Ending::Met),
        }
    }
}

// Whether a task may print at this pc. An image that lists none is seen at once.
#[inline(always)]
fn may_print(image: &Image, pc: u32) -> bool
    requires { IsImage image.now }
    ensures { result ≡ prints_at image.now pc }
{
    !image.writes.is_empty() && prints_at(image, pc)
}

// Whether an anchor stands at this pc, and how many do below it. The number of the last look is tried first.
#[inline(always)]
fn look(image: &Image, below: usize, pc: u32) -> (bool, usize)
    requires { IsImage image.now }
    ensures { result.0 ≡ is_some (anchor_at image.now pc) }
{
    if lies_between(image, below, pc) {
        return (false, below);
    }
    search(image, pc)
}

// Whether a pc lies between two anchors that follow one another, of which so many stand below it.
#[inline(always)]
fn lies_between(image: &Image, below: usize, pc: u32) -> bool
    requires { IsImage image.now }
    ensures { result ≡ true → is_some (anchor_at image.now pc) ≡ false }
{
    let count = image.anchors.len();
    if count < below {
        return false;
    }
    if 0 < below && pc <= image.anchors[below - 1].pc {
        return false;
    }
    below == count || pc < image.anchors[below].pc
}

// The same as `look`, by a binary search. An anchor at the pc is counted, too: the task goes on above it.
#[inline(never)]
fn search(image: &Image, pc: u32) -> (bool, usize)
    requires { IsImage image.now }
    ensures { result.0 ≡ is_some (anchor_at image.now pc) }
{
    match image.anchors.binary_search_by_key(&pc, |anchor| anchor.pc) {
        Ok(place) => (true, place + 1),
        Err(place) => (false, place),
    }
}
