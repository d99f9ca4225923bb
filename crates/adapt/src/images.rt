//! That each image that is made of a program's run is valid.

ghost use Rattle.elf_reader.specs.Executable.{IsProgram};
ghost use Rattle.adapt.specs.Laws.{AreMade};

use elf_reader::Program;

/// Each image that is made of a run of a program, at whatever position and with whatever input, is
/// valid and fits the program, and no task of it takes more than 4,096 steps. Does nothing.
pub fn made_is_image(p: &Program)
    requires { IsProgram p.now }
    ensures { AreMade p.now }
{
    let _entry = p.entry;
    p.has_words();
}
