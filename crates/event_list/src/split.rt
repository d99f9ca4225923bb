//! Texts in two parts.

ghost use Rattle.std.specs.Prelude.{◌≡◌, ◌==◌, ◌<◌, ◌≤◌, MatchOption, length, position};
ghost use Rattle.std.specs.List.{position_or_len, before_first, after_first};

/// What stands before the first such byte, and what stands after it. None where there is none.
pub(crate) fn split_at_byte(byte: u8, text: &[u8]) -> Option<(&[u8], &[u8])>
    ensures { let place = position_or_len (λ b. b == byte) text.now in
        MatchOption result (length text.now ≤ place) (λ parts. (place < length text.now)
        × (parts.0.now ≡ before_first (λ b. b == byte) text.now)
        × (parts.1.now ≡ after_first (λ b. b == byte) text.now)) }
{
    let place = place_of(byte, text)?;
    Some((&text[..place], &text[place + 1..]))
}

/// Where the first such byte stands.
fn place_of(byte: u8, text: &[u8]) -> Option<usize>
    ensures { result ≡ position (λ b. b == byte) text.now }
{
    text.iter().position(|b| *b == byte)
}
