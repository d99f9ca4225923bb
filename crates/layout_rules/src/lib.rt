//! The image that a distiller makes of a profile: where tasks begin, which slots and notes the
//! analysed instructions lay, and which assumptions are listed.
//!
//! Definitions alone: they look at a program's words and at a profile, and at no run. The crates
//! `fork_layout` and `distiller` compute what they say.
#![tactic(auto)]

ghost use Rattle.layout_rules.specs.Rows.{CountRows, AimRows, HotRows, NeverRows, StoreRows, InputRows, BareRows, PrintRows, ValueRows};

/// What a distiller is asked for.
#[derive(Clone, Copy, Debug, PartialEq, Eq)]
pub struct Options {
    /// A side of a branch is cut where at most so many in a thousand of its executions went there:
    /// 0 to 100.
    pub rare: u32,
    /// How often the target of a jump must be executed for a task to begin there: 1 to 10^12.
    pub hot: u64,
    /// How many steps a task should take: 1 to 65,536.
    pub goal: u32,
    /// The most steps of a task: 16 to 16,384. An image of version 2 has 4,096 at most.
    pub limit: u32,
}

/// An analysed instruction, with all that its place in an image rests on.
#[derive(Clone, Copy, Debug, PartialEq, Eq)]
pub struct SlotPlan {
    /// Its address.
    pub pc: u32,
    /// The word that is laid there: the program's, or one that sets the register of a load.
    pub word: u32,
    /// The registers that are live before it, as a mask.
    pub live: u32,
    /// The registers that are needed before it, as a mask.
    pub need: u32,
    /// Whether the image keeps it.
    pub kept: bool,
    /// Whether tasks begin there.
    pub is_anchor: bool,
    /// The address where the image goes on if it is not kept.
    pub on: u32,
}

/// How many arrivals a task spans, where tasks may begin, and the images of small programs.
pub fn rows_are_worked()
    ensures counts { CountRows }
    ensures aims { AimRows }
    ensures hot { HotRows }
    ensures never { NeverRows }
    ensures store { StoreRows }
    ensures input { InputRows }
    ensures bare { BareRows }
    ensures print { PrintRows }
    ensures value { ValueRows }
{}
