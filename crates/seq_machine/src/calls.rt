//! The calls of a program to its environment.
ghost use Rattle.std.specs.Prelude.{◌≡◌, OnOk, OnErr, slice_index};
ghost use Rattle.rv_semantics.specs.Calls.{break_after};

use crate::advance::answer;
use crate::bytes::bytes_from;
use crate::machine::Machine;
use cells::End;
use memory::Memory;
use rv_semantics::is_output;
use std::alloc::{AllocError, Global};

/// The most bytes that one read or write takes.
const MOST: u32 = 65_536;

/// The highest break of the heap.
const HIGHEST_BREAK: u32 = 0x7000_0000;

/// -9 as the answer of a call: no such descriptor.
const NO_DESCRIPTOR: u32 = 0xffff_fff7;

/// -38 as the answer of a call: no such call.
const NO_CALL: u32 = 0xffff_ffda;

fn break_after(lowest: u32, wanted: u32, now: u32) -> u32
    ensures { result ≡ break_after lowest wanted now }
{
    if lowest <= wanted && wanted <= HIGHEST_BREAK {
        wanted
    } else {
        now
    }
}

impl<M: Memory> Machine<M> {
    ghost use Rattle.rv_semantics.specs.Calls.{answers, called, read, write, brk};
    ghost use Rattle.seq_machine.specs.States.{state_of};

    // Answers a call, after which the run goes on.
    fn answer(&mut self, value: u32)
        ensures state { state_of M.at self.new ≡ answers value (state_of M.at self.old) }
        ensures position { self.new.position ≡ self.old.position }
    {
        answer(&mut self.arch, value);
    }

    #[inline(never)]
    fn read(&mut self, alloc: Global) -> Result<(), AllocError>
        ensures ok { OnOk result (state_of M.at self.new ≡ read (state_of M.at self.old)) }
        ensures err { OnErr result (state_of M.at self.new ≡ state_of M.at self.old) }
        ensures position { self.new.position ≡ self.old.position }
    {
        if self.arch.regs[10] != 0 {
            self.answer(NO_DESCRIPTOR);
            return Ok(());
        }
        let taken = self.taken as usize;
        let left = self.input.len() - taken;
        let count = (self.arch.regs[12].min(MOST) as usize).min(left);
        let to = self.arch.regs[11];
        self.arch
            .mem
            .put(alloc, to, &self.input[taken..taken + count])?;
        self.taken += count as u64;
        self.answer(count as u32);
        Ok(())
    }

    #[inline(never)]
    fn write(&mut self, alloc: Global) -> Result<(), AllocError>
        ensures ok { OnOk result (state_of M.at self.new ≡ write (state_of M.at self.old)) }
        ensures err { OnErr result (state_of M.at self.new ≡ state_of M.at self.old) }
        ensures position { self.new.position ≡ self.old.position }
    {
        if !is_output(self.arch.regs[10]) {
            self.answer(NO_DESCRIPTOR);
            return Ok(());
        }
        let count = self.arch.regs[12].min(MOST);
        let bytes = bytes_from(alloc, &self.arch.mem, self.arch.regs[11], count)?;
        self.out.extend_from_slice(&bytes)?;
        self.answer(count);
        Ok(())
    }

    #[inline(never)]
    fn move_break(&mut self)
        ensures state { state_of M.at self.new ≡ brk (state_of M.at self.old) }
        ensures position { self.new.position ≡ self.old.position }
    {
        let moved = break_after(self.first_break, self.arch.regs[10], self.brk);
        self.brk = moved;
        self.answer(moved);
    }

    /// Performs the call whose number is in x17.
    #[inline(never)]
    pub(crate) fn call(&mut self, alloc: Global) -> Result<(), AllocError>
        ensures ok { OnOk result
            (state_of M.at self.new ≡ called (slice_index self.old.arch.regs 17) (state_of M.at self.old)) }
        ensures err { OnErr result (state_of M.at self.new ≡ state_of M.at self.old) }
        ensures position { self.new.position ≡ self.old.position }
    {
        match self.arch.regs[17] {
            63 => self.read(alloc),
            64 => self.write(alloc),
            93 | 94 => {
                self.finish(End::Exit(self.arch.regs[10]));
                Ok(())
            }
            214 => {
                self.move_break();
                Ok(())
            }
            _ => {
                self.answer(NO_CALL);
                Ok(())
            }
        }
    }
}
