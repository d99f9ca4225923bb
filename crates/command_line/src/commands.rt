//! The commands.
ghost use Rattle.std.specs.Prelude.{◌≤◌, ◌^◌, unwrap_or};

/// `run PROG`: runs a program.
#[derive(Clone, Copy, Debug, PartialEq, Eq)]
pub struct Run<'a> {
    /// The name of the program's file.
    pub program: &'a str,
    /// The name of the image's file. Without one nothing is known of the program. Where there is
    /// one, there is a report too.
    pub image: Option<&'a str>,
    /// The name of the file that the program reads; without one its input is empty.
    pub input: Option<&'a str>,
    /// The name of the file that a summary of the run is written to, if one is wanted.
    pub report: Option<&'a str>,
    /// How many slaves the machine has, from 1 to 64.
    pub slaves: u8,
    /// How many steps it may take, from 1 to 10^12.
    pub budget: u64,
    /// After how many steps the image is made anew of the run so far, from 1 to 10^9; without it the
    /// image stays. Where there is one, there is a report too.
    pub adapt: Option<u64>,
    pub ghost some: { 1 ≤ slaves },
    pub ghost few: { slaves ≤ 64 },
    pub ghost least: { 1 ≤ budget },
    pub ghost most: { budget ≤ 10 ^ 12 },
    pub ghost rarely: { 1 ≤ unwrap_or adapt 1 },
    pub ghost often: { unwrap_or adapt 1 ≤ 10 ^ 9 },
}

/// `replay PROG IMAGE EVENTS`: gives a list of events to a speculative machine.
#[derive(Clone, Copy, Debug, PartialEq, Eq)]
pub struct Replay<'a> {
    /// The name of the program's file.
    pub program: &'a str,
    /// The name of the image's file.
    pub image: &'a str,
    /// The name of the file that has the list of events.
    pub events: &'a str,
    /// The name of the file that the program reads; without one its input is empty.
    pub input: Option<&'a str>,
    /// How many slaves the machine has, from 1 to 64.
    pub slaves: u8,
    pub ghost some: { 1 ≤ slaves },
    pub ghost few: { slaves ≤ 64 },
}

/// `profile PROG OUT`, `values PROG OUT` and `check PROG IMAGE`: take a program through its run.
#[derive(Clone, Copy, Debug, PartialEq, Eq)]
pub struct RunOptions<'a> {
    /// The name of the program's file.
    pub program: &'a str,
    /// The name of the other file: the profile that `profile` writes, the values that `values` writes,
    /// or the image that `check` reads.
    pub other: &'a str,
    /// The name of the file that the program reads; without one its input is empty.
    pub input: Option<&'a str>,
    /// How many steps the run may take, from 1 to 10^12.
    pub budget: u64,
    pub ghost least: { 1 ≤ budget },
    pub ghost most: { budget ≤ 10 ^ 12 },
}

/// `distill PROG PROFILE OUT`: makes an image from a profile.
#[derive(Clone, Copy, Debug, PartialEq, Eq)]
pub struct Distill<'a> {
    /// The name of the program's file.
    pub program: &'a str,
    /// The name of the profile's file.
    pub profile: &'a str,
    /// The name of the file that the image is written to.
    pub output: &'a str,
    /// The name of the file that has the values of loads, if such are to be constants in the image.
    pub values: Option<&'a str>,
    /// Up to how many turns in a thousand a side of a branch may be taken to be cut, from 0 to 100.
    pub rare: u32,
    /// How often a jump's target has to be executed to be an anchor, from 1 to 10^12.
    pub hot: u64,
    /// How many steps a task is to take, from 1 to 65,536.
    pub goal: u32,
    /// How many steps a task takes at most, from 16 to 16,384.
    pub limit: u32,
    pub ghost most_rare: { rare ≤ 100 },
    pub ghost least_hot: { 1 ≤ hot },
    pub ghost most_hot: { hot ≤ 10 ^ 12 },
    pub ghost least_goal: { 1 ≤ goal },
    pub ghost most_goal: { goal ≤ 65536 },
    pub ghost least_limit: { 16 ≤ limit },
    pub ghost most_limit: { limit ≤ 16384 },
}

/// `trial SEED SIZE`: makes a program from a number, distils it, and runs it beside its image.
#[derive(Clone, Copy, Debug, PartialEq, Eq)]
pub struct Trial {
    /// The number that the program is drawn from, from 0 to 10^12.
    pub seed: u64,
    /// How many blocks the program has, from 1 to 10,000.
    pub size: u32,
    pub ghost most_seed: { seed ≤ 10 ^ 12 },
    pub ghost least_size: { 1 ≤ size },
    pub ghost most_size: { size ≤ 10_000 },
}

/// What the words ask for.
#[derive(Clone, Copy, Debug, PartialEq, Eq)]
pub enum Command<'a> {
    /// `run`.
    Run(Run<'a>),
    /// `show IMAGE`: puts the text of an image.
    Show {
        /// The name of the image's file.
        image: &'a str,
    },
    /// `replay`.
    Replay(Replay<'a>),
    /// `profile`: writes the profile of a run.
    Profile {
        /// The program, and the name of the profile's file.
        walk: RunOptions<'a>,
        /// Whether short writes are counted, so that tasks may do them.
        calls: bool,
    },
    /// `values`: writes the loads of a run that gave one value.
    Values(RunOptions<'a>),
    /// `distill`.
    Distill(Distill<'a>),
    /// `check`: tells whether a run meets the assumptions of an image.
    Check(RunOptions<'a>),
    /// `certify PROG IMAGE`: tells whether an image fits a program, or which rule it breaks first.
    Certify {
        /// The name of the program's file.
        program: &'a str,
        /// The name of the image's file.
        image: &'a str,
    },
    /// `trial`.
    Trial(Trial),
}
