//! The words of `profile`, `values` and `check`: two names, an input and a budget, and what `profile` counts.
ghost use Rattle.std.specs.Prelude.{◌≡◌, ◌≤◌, ◌^◌, codes, map, option_map, string_bytes};
ghost use Rattle.command_line.specs.Options.{number_or, IsNumberIfGiven};
ghost use Rattle.command_line.specs.Command.{check_of, profile_of, walk_with, shown, shown_walk};

use crate::commands::{Command, RunOptions};
use crate::options::{Kind, Rule, are_options, number_or, value_of};
use crate::run_words::{DEFAULT_BUDGET, MOST_BUDGET};

/// `--input`, of all.
const INPUT: Rule = Rule {
    option: "--input",
    value: Kind::File,
};

/// `--budget`, of all.
const BUDGET: Rule = Rule {
    option: "--budget",
    value: Kind::Number {
        least: 1,
        most: MOST_BUDGET,
    },
};

/// `--calls` of `profile`: 1 where short writes are counted.
const CALLS: Rule = Rule {
    option: "--calls",
    value: Kind::Number { least: 0, most: 1 },
};

/// The options of `check` and `values`.
const CHECK_OPTIONS: [Rule; 2] = [INPUT, BUDGET];

/// The options of `profile`.
const PROFILE_OPTIONS: [Rule; 3] = [INPUT, BUDGET, CALLS];

// What the options after the two names ask of all.
fn walk_with<'a>(program: &'a str, other: &'a str, options: &'a [String]) -> RunOptions<'a>
    requires given { IsNumberIfGiven (codes "--budget") (map string_bytes options.now) }
    requires least { 1 ≤ number_or (10 ^ 9) (codes "--budget") (map string_bytes options.now) }
    requires most { number_or (10 ^ 9) (codes "--budget") (map string_bytes options.now) ≤ 10 ^ 12 }
    ensures { shown_walk result ≡ walk_with program.now other.now (map string_bytes options.now) }
{
    RunOptions {
        program,
        other,
        input: value_of(options, "--input"),
        budget: number_or(options, "--budget", DEFAULT_BUDGET),
    }
}

/// What the words after `check` or `values` ask for.
pub(crate) fn read_check(words: &[String]) -> Option<RunOptions<'_>>
    ensures { option_map shown_walk result ≡ check_of (map string_bytes words.now) }
{
    match words {
        [program, other, options @ ..]
            if !program.is_empty() && !other.is_empty() && are_options(&CHECK_OPTIONS, options) => {
            Some(walk_with(program.as_str(), other.as_str(), options))
        }
        _ => None,
    }
}

/// What the words after `profile` ask for.
pub(crate) fn read_profile(words: &[String]) -> Option<Command<'_>>
    ensures { option_map shown result ≡ profile_of (map string_bytes words.now) }
{
    match words {
        [program, other, options @ ..]
            if !program.is_empty() && !other.is_empty() && are_options(&PROFILE_OPTIONS, options) =>
            {
                Some(Command::Profile {
                    walk: walk_with(program.as_str(), other.as_str(), options),
                    calls: number_or(options, "--calls", 0) == 1,
                })
            }
        _ => None,
    }
}
