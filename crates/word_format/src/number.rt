//! Reads numbers, the lowest byte of each first.

ghost use Rattle.word_format.specs.Reading.{IsRead, word_or, long_or};

/// The number in the next four bytes, and the bytes after it.
///
/// # Errors
///
/// `short` where there are fewer bytes.
pub fn next_word<E: Drop>(short: E, bytes: &[u8]) -> Result<(u32, &[u8]), E>
    ensures { IsRead (λ x. (x.0, x.1.now)) result (word_or short bytes.now) }
{
    if bytes.len() < 4 {
        return Err(short);
    }
    let (front, rest) = bytes.split_at(4);
    let number = u32::from_le_bytes([front[0], front[1], front[2], front[3]]);
    Ok((number, rest))
}

/// The number in the next eight bytes, and the bytes after it.
///
/// # Errors
///
/// `short` where there are fewer bytes.
pub fn next_long<E: Drop>(short: E, bytes: &[u8]) -> Result<(u64, &[u8]), E>
    ensures { IsRead (λ x. (x.0, x.1.now)) result (long_or short bytes.now) }
{
    if bytes.len() < 8 {
        return Err(short);
    }
    let (front, rest) = bytes.split_at(8);
    let number = u64::from_le_bytes([
        front[0], front[1], front[2], front[3], front[4], front[5], front[6], front[7],
    ]);
    Ok((number, rest))
}
