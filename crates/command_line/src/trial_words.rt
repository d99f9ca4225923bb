//! The words of `trial`: two numbers.
ghost use Rattle.std.specs.Prelude.{◌≡◌, ◌≤◌, ◌^◌, map, option_map, string_bytes};
ghost use Rattle.decimal_words.specs.Number.{number_within};
ghost use Rattle.command_line.specs.Command.{Trial as ShownTrial, trial_of, shown};

use crate::commands::{Command, Trial};
use decimal_words::number_within;

/// The greatest number that a program is drawn from.
const MOST_SEED: u64 = 1_000_000_000_000;

/// The most blocks of a program.
const MOST_SIZE: u64 = 10_000;

/// The number that the word writes, if it is within a range.
fn read_within(word: &str, least: u64, most: u64) -> Option<u64>
    ensures { result ≡ number_within least most word.now }
{
    number_within(least, most, word.as_bytes())
}

/// What the words after `trial` ask for.
pub(crate) fn read_trial(words: &[String]) -> Option<Command<'_>>
    ensures { option_map shown result ≡ option_map ShownTrial (trial_of (map string_bytes words.now)) }
{
    match words {
        [seed, size] => {
            let seed = read_within(seed, 0, MOST_SEED)?;
            let size = read_within(size, 1, MOST_SIZE)?;
            Some(Command::Trial(Trial {
                seed,
                size: size as u32,
            }))
        }
        _ => None,
    }
}
