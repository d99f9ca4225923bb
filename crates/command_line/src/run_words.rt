//! The words of `run`.
ghost use Rattle.std.specs.Prelude.{◌≡◌, true, map, option_map, string_bytes};
ghost use Rattle.command_line.specs.Command.{run_options, run_with, run_of, shown_run};
ghost use Rattle.command_line.specs.Options.{are_options};

use crate::commands::Run;
use crate::options::{Kind, Rule, are_options, number_if_given, number_or, value_of};
use crate::replay_words::{DEFAULT_SLAVES, MOST_SLAVES};

/// The most steps that a run may be given.
pub(crate) const MOST_BUDGET: u64 = 1_000_000_000_000;

/// How many steps a run is given without `--budget`.
pub(crate) const DEFAULT_BUDGET: u64 = 1_000_000_000;

/// The most steps after which an image may be made anew.
const MOST_EVERY: u64 = 1_000_000_000;

/// The options of `run`.
const RUN_OPTIONS: [Rule; 6] = [
    Rule {
        option: "--image",
        value: Kind::File,
    },
    Rule {
        option: "--input",
        value: Kind::File,
    },
    Rule {
        option: "--report",
        value: Kind::File,
    },
    Rule {
        option: "--slaves",
        value: Kind::Number {
            least: 1,
            most: MOST_SLAVES,
        },
    },
    Rule {
        option: "--budget",
        value: Kind::Number {
            least: 1,
            most: MOST_BUDGET,
        },
    },
    Rule {
        option: "--adapt",
        value: Kind::Number {
            least: 1,
            most: MOST_EVERY,
        },
    },
];

// What the options after the name of a program ask for: an image asks for a report, and so do images
// that are made anew.
fn read_options<'a>(program: &'a str, options: &'a [String]) -> Option<Run<'a>>
    requires { are_options run_options (map string_bytes options.now) ≡ true }
    ensures { option_map shown_run result ≡ run_with program.now (map string_bytes options.now) }
{
    let image = value_of(options, "--image");
    let report = value_of(options, "--report");
    let anew = value_of(options, "--adapt");
    if (image.is_some() || anew.is_some()) && report.is_none() {
        return None;
    }
    Some(Run {
        program,
        image,
        input: value_of(options, "--input"),
        report,
        slaves: number_or(options, "--slaves", DEFAULT_SLAVES) as u8,
        budget: number_or(options, "--budget", DEFAULT_BUDGET),
        adapt: number_if_given(options, "--adapt"),
    })
}

/// What the words after `run` ask for.
pub(crate) fn read_run(words: &[String]) -> Option<Run<'_>>
    ensures { option_map shown_run result ≡ run_of (map string_bytes words.now) }
{
    match words {
        [program, options @ ..] if !program.is_empty() && are_options(&RUN_OPTIONS, options) => {
            read_options(program.as_str(), options)
        }
        _ => None,
    }
}
