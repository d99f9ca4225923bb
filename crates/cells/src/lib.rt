//! The cells of a machine, the ways a run ends, and the laws of steps that read and write cells.
#![tactic(auto)]

ghost use Rattle.std.specs.Prelude.{◌≡◌, ℕ, true, Option, Some, is_some};
ghost use Rattle.cells.specs.declared.Cell.{Cell};
ghost use Rattle.cells.specs.declared.Differ.{Differ};
ghost use Rattle.cells.specs.Cells.{Arch, IsCell};
ghost use Rattle.cells.specs.Machine.{Machine, IsLocal};
ghost use Rattle.cells.specs.Task.{moves, said, recorded_values, IsQuiet, Matches, apply};
ghost use Rattle.cells.specs.Differ.{differ, IsFirstDiffer};

/// A cell of the machine's state.
///
/// Differing values are looked for in this order: the pc, the registers by number, the bytes by
/// address.
#[derive(Clone, Copy, Debug, PartialEq, Eq)]
pub enum Cell {
    /// The program counter.
    Pc,
    /// A register, by its number from 1 to 31.
    Reg(u8),
    /// A byte of memory, by its address.
    Byte(u32),
}

/// A cell for which a task recorded another value than the committed state holds.
#[derive(Clone, Copy, Debug, PartialEq, Eq)]
pub struct Differ {
    /// The cell.
    pub cell: Cell,
    /// The value that the task recorded.
    pub predicted: u32,
    /// The value that the state holds.
    pub found: u32,
}

/// How a run ends.
#[derive(Clone, Copy, Debug, PartialEq, Eq)]
pub enum End {
    /// The guest asked to exit with this code, all 32 bits of it.
    Exit(u32),
    /// EBREAK was executed.
    Break,
    /// This word means no instruction.
    Illegal(u32),
    /// A jump or a taken branch to this target, which is no multiple of 4.
    Misfetch(u32),
}

/// Where a state holds what a task recorded, that state with the task's writes and pc is the
/// state after as many steps, which then print what the task's steps print.
pub fn jumps()
    ensures state { (m : Machine) → IsLocal m → (c s : Arch) (t : ℕ) → IsQuiet m c t → Matches m c t s
        → apply m c t s ≡ moves m s t }
    ensures quiet { (m : Machine) → IsLocal m → (c s : Arch) (t : ℕ) → IsQuiet m c t → Matches m c t s
        → IsQuiet m s t }
    ensures output { (m : Machine) → IsLocal m → (c s : Arch) (t : ℕ) → IsQuiet m c t → Matches m c t s
        → said m s t ≡ said m c t }
{}

/// `differ` tells the first differing cell in the order of cells, with its two values, and tells
/// none exactly where none differs. Where cells alone are recorded it tells a cell.
pub fn differ_is_first()
    ensures first { (recorded : Cell → Option ℕ) (found : Cell → ℕ)
        → IsFirstDiffer recorded found (differ recorded found) }
    ensures cell { (recorded : Cell → Option ℕ) (found : Cell → ℕ) (d : Differ)
        → ((x : Cell) → is_some (recorded x) ≡ true → IsCell x)
        → differ recorded found ≡ Some d → IsCell d.cell }
{}
