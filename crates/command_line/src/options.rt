//! Options of a command: pairs of words, an option and its value.
ghost use Rattle.std.specs.Prelude.{◌≡◌, ◌-◌, ◌^◌, map, string_bytes, option_copied};
ghost use Rattle.decimal_words.specs.Number.{number_within};
ghost use Rattle.command_line.specs.Options.{shown_rule, is_value, is_line_for, takes, value_of, number_or, number_if_given, IsNumberIfGiven, may_precede, are_options};

use decimal_words::number_within;

/// What the value of an option is.
#[derive(Clone, Copy)]
pub(crate) enum Kind {
    /// The name of a file.
    File,
    /// A number from `least` to `most`.
    Number { least: u64, most: u64 },
}

/// An option that a command has.
pub(crate) struct Rule {
    pub option: &'static str,
    pub value: Kind,
}

/// Whether the word is a value of this kind.
fn is_value(kind: Kind, word: &str) -> bool
    ensures { result ≡ is_value kind word.now }
{
    match kind {
        Kind::File => !word.is_empty(),
        Kind::Number { least, most } => { number_within(least, most, word.as_bytes()).is_some() }
    }
}

impl Rule {
    /// Whether it is the rule of this option and takes this value.
    fn is_for(&self, option: &str, value: &str) -> bool
        ensures { result ≡ is_line_for option.now value.now (shown_rule self.now) }
    {
        self.option == option && is_value(self.value, value)
    }
}

/// Whether the rules have this option and take this value for it.
fn takes(rules: &[Rule], option: &str, value: &str) -> bool
    ensures { result ≡ takes (map shown_rule rules.now) option.now value.now }
{
    rules.iter().any(|rule| rule.is_for(option, value))
}

/// The value of the option, if the words give it one.
pub(crate) fn value_of<'a>(words: &'a [String], option: &str) -> Option<&'a str>
    ensures { option_copied result ≡ value_of option.now (map string_bytes words.now) }
{
    let mut rest = words;
    while let [other, value, after @ ..] = rest {
        if other.as_str() == option {
            return Some(value.as_str());
        }
        rest = after;
    }
    None
}

/// The number that the word writes, if it has at most 64 bits.
fn read_number(word: &str) -> Option<u64>
    ensures { result ≡ number_within 0 (2 ^ 64 - 1) word.now }
{
    number_within(0, u64::MAX, word.as_bytes())
}

/// The number that the words give the option, or the default.
#[tactic(auto, unfolding(crate::specs::Options::number_or))]
pub(crate) fn number_or(words: &[String], option: &str, default: u64) -> u64
    requires { IsNumberIfGiven option.now (map string_bytes words.now) }
    ensures { result ≡ number_or default option.now (map string_bytes words.now) }
{
    value_of(words, option)
        .and_then(read_number)
        .unwrap_or(default)
}

/// The number that the words give the option, if they give it one.
#[tactic(auto, unfolding(crate::specs::Options::number_if_given))]
pub(crate) fn number_if_given(words: &[String], option: &str) -> Option<u64>
    requires { IsNumberIfGiven option.now (map string_bytes words.now) }
    ensures { result ≡ number_if_given option.now (map string_bytes words.now) }
{
    value_of(words, option).and_then(read_number)
}

/// Whether an option and its value may stand before these words: the rules take them, and the words
/// don't give the option again.
#[tactic(auto, unfolding(crate::specs::Options::may_precede))]
fn may_precede(rules: &[Rule], option: &str, value: &str, words: &[String]) -> bool
    ensures { let table = map shown_rule rules.now in
        result ≡ may_precede table option.now value.now (map string_bytes words.now) }
{
    takes(rules, option, value) && value_of(words, option).is_none()
}

/// Whether the words are pairs of an option and a value that the rules take, each option at most
/// once.
pub(crate) fn are_options(rules: &[Rule], words: &[String]) -> bool
    ensures { result ≡ are_options (map shown_rule rules.now) (map string_bytes words.now) }
{
    let mut rest = words;
    while let [option, value, after @ ..] = rest {
        if !may_precede(rules, option, value, after) {
            return false;
        }
        rest = after;
    }
    rest.is_empty()
}
