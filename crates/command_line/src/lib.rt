//! Reads the words of the command line into a command.
#![tactic(auto)]

ghost use Rattle.std.specs.Prelude.{◌≡◌, map, option_map, string_bytes};
ghost use Rattle.command_line.specs.Command.{command_of, show_of, certify_of, shown};

mod commands;
mod distill_words;
mod options;
mod replay_words;
mod run_words;
mod trial_words;
mod walk_words;

pub use crate::commands::{Command, Distill, Replay, Run, RunOptions, Trial};
use crate::distill_words::read_distill;
use crate::options::{Rule, are_options};
use crate::replay_words::read_replay;
use crate::run_words::read_run;
use crate::trial_words::read_trial;
use crate::walk_words::{read_check, read_profile};

/// The options of `show` and `certify`: none.
const NO_OPTIONS: [Rule; 0] = [];

/// What the words after `show` ask for.
fn read_show(words: &[String]) -> Option<Command<'_>>
    ensures { option_map shown result ≡ show_of (map string_bytes words.now) }
{
    match words {
        [image, options @ ..] if !image.is_empty() && are_options(&NO_OPTIONS, options) => {
            Some(Command::Show {
                image: image.as_str(),
            })
        }
        _ => None,
    }
}

/// What the words after `certify` ask for.
fn read_certify(words: &[String]) -> Option<Command<'_>>
    ensures { option_map shown result ≡ certify_of (map string_bytes words.now) }
{
    match words {
        [program, image, options @ ..]
            if !program.is_empty() && !image.is_empty() && are_options(&NO_OPTIONS, options) => {
            Some(Command::Certify {
                program: program.as_str(),
                image: image.as_str(),
            })
        }
        _ => None,
    }
}

/// Reads the words of the command line, without the program's own name.
///
/// The first word is the command. Next come its names, any words that aren't empty, also ones that
/// begin with `--`. The rest are pairs of an option of that command and its value, each option at
/// most once, in any order. A file is any word that isn't empty. A number has ASCII digits alone,
/// without a sign or a leading zero. In `run`, `--image` and `--adapt` ask for `--report`. Other
/// words are no command, and give `None`.
///
/// | Command | Options, with range and default |
/// |---|---|
/// | `run PROG` | `--image F`, `--input F`, `--report F`, `--slaves` 1 to 64 (4), `--budget` 1 to 10^12 (10^9), `--adapt` 1 to 10^9 |
/// | `show IMAGE` | |
/// | `replay PROG IMAGE EVENTS` | `--input F`, `--slaves` 1 to 64 (4) |
/// | `profile PROG OUT` | `--input F`, `--budget` 1 to 10^12 (10^9), `--calls` 0 to 1 (0) |
/// | `values PROG OUT` | `--input F`, `--budget` 1 to 10^12 (10^9) |
/// | `distill PROG PROFILE OUT` | `--values F`, `--rare` 0 to 100 (10), `--hot` 1 to 10^12 (2), `--goal` 1 to 65,536 (200), `--limit` 16 to 16,384 (4,096) |
/// | `check PROG IMAGE` | `--input F`, `--budget` 1 to 10^12 (10^9) |
/// | `certify PROG IMAGE` | |
/// | `trial SEED SIZE` | |
///
/// `trial` has two numbers in place of names, 0 to 10^12 and 1 to 10,000.
pub fn read_command(words: &[String]) -> Option<Command<'_>>
    ensures { option_map shown result ≡ command_of (map string_bytes words.now) }
{
    let (command, rest) = words.split_first()?;
    match command.as_str() {
        "run" => read_run(rest).map(Command::Run),
        "show" => read_show(rest),
        "replay" => read_replay(rest).map(Command::Replay),
        "profile" => read_profile(rest),
        "values" => read_check(rest).map(Command::Values),
        "distill" => read_distill(rest).map(Command::Distill),
        "check" => read_check(rest).map(Command::Check),
        "certify" => read_certify(rest),
        "trial" => read_trial(rest),
        _ => None,
    }
}
