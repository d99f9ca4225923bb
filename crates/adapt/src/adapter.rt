//! The adapter: a recorder of a program's run, and when the next image is due.

ghost use Rattle.std.specs.Prelude.{◌≡◌, ◌≤◌, ◌+◌, ◌^◌, false, IfOk, IfSome, OnOk, OnErr};
ghost use Rattle.cells.specs.Run.{is_over};
ghost use Rattle.elf_reader.specs.Executable.{IsProgram};
ghost use Rattle.seq_machine.specs.Parts.{start_of};
ghost use Rattle.fitting.specs.Fails.{state_at};
ghost use Rattle.adapt.specs.Made.{answer_at, after};
ghost use Rattle.adapt.specs.Laws.{IsMade};

use crate::making::make;
use dist_image::Image;
use elf_reader::Program;
use profiler::Recorder;
use std::alloc::{AllocError, Global};
use std::marker::Model;

/// Makes images of a program's run, of which one is due every so many steps.
#[derive(Drop)]
pub struct Adapter {
    recorder: Recorder,
    every: u64,
    /// From this position on an image is due.
    due: u64,
    /// The latest position at which an image was due and asked for. The recorder never stands past it.
    asked: u64,
    /// Whether the profile of one step more would be too wide. Then so is each longer one.
    wide: bool,
}

impl Model for Adapter {
    ghost use Rattle.std.specs.Prelude.{◌≤◌, ◌^◌};
    ghost use Rattle.adapt.specs.Made.{Adapting};
    ghost use Rattle.adapt.specs.Behind.{IsBehind};

    ghost Value = { Adapting };

    ghost view = { λ a. record {
      program = a.recorder.program;
      input = a.recorder.input;
      every = a.every;
      due = a.due;
      asked = a.asked;
    } };

    ghost invariant = { λ a. IsBehind a.recorder a.asked a.wide × (a.every ≤ 10 ^ 9) };
}

impl Adapter {
    /// An adapter of a program's run with an input: the first image is due after `every` steps, 1 to
    /// 10 ^ 9. It keeps a copy of the program.
    pub fn new(
        alloc: Global,
        p: &Program,
        input: Vec<u8>,
        every: u64,
    ) -> Result<Adapter, AllocError>
        requires program { IsProgram p.now }
        requires some { 1 ≤ every }
        requires most { every ≤ 10 ^ 9 }
        ensures { IfOk result (λ a. a ≡ record {
          program = p.now;
          input = input.items;
          every = every;
          due = every;
          asked = 0;
        }) }
    {
        let recorder = Recorder::new(alloc, p, input, true)?;
        Ok(Adapter {
            recorder,
            every,
            due: every,
            asked: 0,
            wide: false,
        })
    }

    /// The position from which on an image is due. Takes no memory.
    pub fn due(&self) -> u64
        ensures { result ≡ self.now.due }
    {
        self.due
    }

    /// The image of the first so many steps of the run, where one is due: None where their profile is
    /// too wide, or nothing in it is analysed. Then the next one is due `every` steps later. Short
    /// writes are counted in it, and the distiller's options are 10 for `rare`, 2 for `hot`, 200 for
    /// `goal` and 4,096 for `limit`.
    ///
    /// Before an image is due it answers None, takes no memory and changes nothing. The position must
    /// not be below one that was asked for, and the run must not have ended there.
    ///
    /// # Errors
    ///
    /// Want of memory alone. The image is due as before, and a second call goes on; no position below
    /// this one may be asked for then.
    pub fn next(&mut self, alloc: Global, position: u64) -> Result<Option<Image>, AllocError>
        requires position { position ≤ 10 ^ 12 + 16_383 }
        requires asked { self.old.asked ≤ position }
        requires running { is_over (state_at (start_of self.old.program self.old.input) position) ≡ false }
        ensures image { IfOk result (λ image. image ≡ answer_at self.old position) }
        ensures next { OnOk result (self.new ≡ after self.old position) }
        ensures stays { OnErr result (self.new ≡ record self.old { asked = position }) }
        // So it stays an adapter of the same run, and no position past this one was asked for.
        ensures program { self.new.program ≡ self.old.program }
        ensures input { self.new.input ≡ self.old.input }
        ensures every { self.new.every ≡ self.old.every }
        ensures within { self.new.asked ≤ position }
        // Before one is due it takes no memory.
        ensures sure { OnErr result (self.old.due ≤ position) }
        // A machine may take each image that comes.
        ensures made { IfOk result (λ image. IfSome image (IsMade self.old.program)) }
    {
        if position < self.due {
            return Ok(None);
        }
        self.asked = position;
        let image = make(alloc, &mut self.recorder, &mut self.wide, position)?;
        self.due = position + self.every;
        Ok(image)
    }
}
