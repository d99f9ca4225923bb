//! The words of `replay`.
ghost use Rattle.std.specs.Prelude.{◌≡◌, map, option_map, string_bytes};
ghost use Rattle.command_line.specs.Command.{replay_of, shown_replay};

use crate::commands::Replay;
use crate::options::{Kind, Rule, are_options, number_or, value_of};

/// The most slaves that a machine may have.
pub(crate) const MOST_SLAVES: u64 = 64;

/// How many slaves a machine has without `--slaves`.
pub(crate) const DEFAULT_SLAVES: u64 = 4;

/// The options of `replay`.
const REPLAY_OPTIONS: [Rule; 2] = [
    Rule {
        option: "--input",
        value: Kind::File,
    },
    Rule {
        option: "--slaves",
        value: Kind::Number {
            least: 1,
            most: MOST_SLAVES,
        },
    },
];

/// What the words after `replay` ask for.
pub(crate) fn read_replay(words: &[String]) -> Option<Replay<'_>>
    ensures { option_map shown_replay result ≡ replay_of (map string_bytes words.now) }
{
    match words {
        [program, image, events, options @ ..]
            if !program.is_empty()
                && !image.is_empty()
                && !events.is_empty()
                && are_options(&REPLAY_OPTIONS, options) => {
            Some(Replay {
                program: program.as_str(),
                image: image.as_str(),
                events: events.as_str(),
                input: value_of(options, "--input"),
                slaves: number_or(options, "--slaves", DEFAULT_SLAVES) as u8,
            })
        }
        _ => None,
    }
}
