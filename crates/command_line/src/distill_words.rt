//! The words of `distill`.
ghost use Rattle.std.specs.Prelude.{◌≡◌, true, map, option_map, string_bytes};
ghost use Rattle.command_line.specs.Command.{distill_options, distill_with, distill_of, shown_distill};
ghost use Rattle.command_line.specs.Options.{are_options};

use crate::commands::Distill;
use crate::options::{Kind, Rule, are_options, number_or, value_of};

/// A side of a branch may be taken in so many turns of a thousand, and cut.
const MOST_RARE: u64 = 100;

/// The same without `--rare`.
const DEFAULT_RARE: u64 = 10;

/// A jump's target may have to be executed so often to be an anchor.
const MOST_HOT: u64 = 1_000_000_000_000;

/// The same without `--hot`.
const DEFAULT_HOT: u64 = 2;

/// A task may be meant to take so many steps.
const MOST_GOAL: u64 = 65_536;

/// The same without `--goal`.
const DEFAULT_GOAL: u64 = 200;

/// The least number of steps that a task may be limited to.
const LEAST_LIMIT: u64 = 16;

/// The greatest.
const MOST_LIMIT: u64 = 16_384;

/// The same without `--limit`.
const DEFAULT_LIMIT: u64 = 4_096;

/// The options of `distill`.
const DISTILL_OPTIONS: [Rule; 5] = [
    Rule {
        option: "--values",
        value: Kind::File,
    },
    Rule {
        option: "--rare",
        value: Kind::Number {
            least: 0,
            most: MOST_RARE,
        },
    },
    Rule {
        option: "--hot",
        value: Kind::Number {
            least: 1,
            most: MOST_HOT,
        },
    },
    Rule {
        option: "--goal",
        value: Kind::Number {
            least: 1,
            most: MOST_GOAL,
        },
    },
    Rule {
        option: "--limit",
        value: Kind::Number {
            least: LEAST_LIMIT,
            most: MOST_LIMIT,
        },
    },
];

// What the options after the three names ask for.
fn read_options<'a>(
    program: &'a str,
    profile: &'a str,
    output: &'a str,
    options: &'a [String],
) -> Distill<'a>
    requires { are_options distill_options (map string_bytes options.now) ≡ true }
    ensures { shown_distill result
        ≡ distill_with program.now profile.now output.now (map string_bytes options.now) }
{
    Distill {
        program,
        profile,
        output,
        values: value_of(options, "--values"),
        rare: number_or(options, "--rare", DEFAULT_RARE) as u32,
        hot: number_or(options, "--hot", DEFAULT_HOT),
        goal: number_or(options, "--goal", DEFAULT_GOAL) as u32,
        limit: number_or(options, "--limit", DEFAULT_LIMIT) as u32,
    }
}

/// What the words after `distill` ask for.
pub(crate) fn read_distill(words: &[String]) -> Option<Distill<'_>>
    ensures { option_map shown_distill result ≡ distill_of (map string_bytes words.now) }
{
    match words {
        [program, profile, output, options @ ..]
            if !program.is_empty()
                && !profile.is_empty()
                && !output.is_empty()
                && are_options(&DISTILL_OPTIONS, options) => {
            Some(read_options(program.as_str(), profile.as_str(), output.as_str(), options))
        }
        _ => None,
    }
}
