//! Numbers in ASCII digits.

ghost use Rattle.std.specs.Prelude.{◌≡◌, ◌≤◌, IfSome};
ghost use Rattle.decimal_words.specs.Number.{number_within, value_up_to, IsSpelled};

/// The number that a word writes in ASCII digits, if it is from `least` to `most`. None where the word
/// is anything else: it has a sign or another byte, a zero in front of other digits, or no byte.
///
/// Takes no memory.
pub fn number_within(least: u64, most: u64, word: &[u8]) -> Option<u64>
    ensures exact { result ≡ number_within least most word.now }

    ensures range { IfSome result (λ n. (least ≤ n) × (n ≤ most)) }

    // A number has one word: its decimal spelling.
    ensures spelled { IsSpelled least most word.now result }
{
    numeral_within(least, most, word)
}

/// The number of a numeral, if it is within a range.
fn numeral_within(least: u64, most: u64, word: &[u8]) -> Option<u64>
    ensures { result ≡ number_within least most word.now }
{
    match word {
        [] | [b'0', _, ..] => None,
        _ => value_up_to(most, word).filter(|value| least <= *value),
    }
}

/// The number that digits write, the highest first. None where a byte is no ASCII digit, or the
/// number is above `most`.
fn value_up_to(most: u64, digits: &[u8]) -> Option<u64>
    ensures { result ≡ value_up_to most digits.now }
{
    let mut value: u64 = 0;
    for digit in digits {
        if !digit.is_ascii_digit() {
            return None;
        }
        value = value
            .checked_mul(10)?
            .checked_add(u64::from(*digit - b'0'))?;
        if value > most {
            return None;
        }
    }
    Some(value)
}
