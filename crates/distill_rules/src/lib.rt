//! How a profile is distilled: which instructions are analysed, which sides of branches are cut, which
//! stores are dead and which calls a task does, where each instruction leads, and which registers are
//! live and needed.
//!
//! The rules look at a program's words and at a profile, and at no run. The crates `cuts`,
//! `flow_graph` and `liveness` compute what they say.
#![tactic(auto)]

ghost use Rattle.distill_rules.specs.Solution.{Settles, IsLeast, AreMasks};
ghost use Rattle.distill_rules.specs.Rows.{SideRows, RuleRows, NeverRows, StoreRows, JumpRows, StrangeRows, HelloRows, FenceRows};

/// Whether an instruction is kept.
#[derive(Clone, Copy, Debug, PartialEq, Eq)]
pub enum Fate {
    /// Whatever is needed behind it.
    Stays,
    /// Never.
    Goes,
    /// Where a register that it writes is needed behind it.
    AsNeeded,
}

/// The registers that are live and needed before an instruction, as masks: bit r stands for
/// register r, and bit 0 is never set.
#[derive(Clone, Copy, Debug, PartialEq, Eq)]
pub struct Mask {
    /// The address of the instruction.
    pub pc: u32,
    /// The registers whose values the program may still read.
    pub live: u32,
    /// The registers whose values the distilled program may still read, or a task that begins.
    pub need: u32,
    /// Whether the distilled program keeps the instruction.
    pub kept: bool,
}

/// The masks after enough rounds are the least that hold what the rules ask for, and none of them
/// has a bit for register 0.
pub fn masks_are_least()
    ensures settles { Settles }
    ensures least { IsLeast }
    ensures masks { AreMasks }
{}

/// What is cut of branches and stores that were executed so often, and which calls a task does; and what
/// comes of the profiles of small programs, those of no run among them.
pub fn rows_are_worked()
    ensures sides { SideRows }
    ensures rules { RuleRows }
    ensures never { NeverRows }
    ensures store { StoreRows }
    ensures jump { JumpRows }
    ensures strange { StrangeRows }
    ensures hello { HelloRows }
    ensures fence { FenceRows }
{}
