//! Guest programs, as the words that lie at 0x00010000, and the files that hold them.
ghost use Rattle.std.specs.Prelude.{IfOk};
ghost use Rattle.elf_reader.specs.Executable.{IsProgram};

use elf_reader::{ElfErr, Program, read_elf};
use std::alloc::{AllocError, Global};

/// Exits with 7.
pub static EXIT_7: [u32; 3] = [0x00700513, 0x05D00893, 0x00000073];

/// Writes `hi` and a line feed in its sixth step, and exits with 0 in its ninth.
pub static HELLO: [u32; 10] = [
    0x00100513, 0x00000597, 0x02058593, 0x00300613, 0x04000893, 0x00000073, 0x00000513, 0x05D00893,
    0x00000073, 0x000A6968,
];

/// Writes `hi` and a line feed twice, by its sixth and its eighth step.
pub static HELLO_TWICE: [u32; 12] = [
    0x00100513, 0x00000597, 0x02858593, 0x00300613, 0x04000893, 0x00000073, 0x00100513, 0x00000073,
    0x00000513, 0x05D00893, 0x00000073, 0x000A6968,
];

/// Writes `hi` and a line feed, and then meets an EBREAK.
pub static HELLO_AND_BREAK: [u32; 10] = [
    0x00100513, 0x00000597, 0x02058593, 0x00300613, 0x04000893, 0x00000073, 0x00100073, 0x05D00893,
    0x00000073, 0x000A6968,
];

/// Stores a word at 0xFFFFFFFE, and exits with the byte at 0.
pub static WRAP: [u32; 7] = [
    0xFFE00293, 0x01020337, 0x30430313, 0x0062A023, 0x00000503, 0x05D00893, 0x00000073,
];

/// Jumps two bytes past its third instruction.
pub static MISFETCH: [u32; 3] = [0x00000297, 0x00228293, 0x000280E7];

/// Asks to write 70,000 bytes of zeros, and exits with the count's upper half.
pub static WRITE_70_000: [u32; 9] = [
    0x00100513, 0x000205B7, 0x00011637, 0x17060613, 0x04000893, 0x00000073, 0x01055513, 0x05D00893,
    0x00000073,
];

/// Asks twice for ten bytes of input, and exits with 16 times the first count and the second.
pub static READ_TWICE: [u32; 12] = [
    0x00000513, 0x000205B7, 0x00A00613, 0x03F00893, 0x00000073, 0x00050293, 0x00000513, 0x00000073,
    0x00429293, 0x00550533, 0x05D00893, 0x00000073,
];

/// Counts down from ten in a loop of two instructions, and exits with 0.
pub static TEN_TURNS_LOOP: [u32; 6] = [
    0x00A00293, 0xFFF28293, 0xFE029EE3, 0x00000513, 0x05D00893, 0x00000073,
];

/// Counts down from ten, past a compare that is never true, and exits with 0.
pub static COMPARE_LOOP: [u32; 10] = [
    0x00A00293, 0x0002A313, 0x00031863, 0xFFF28293, 0xFE029AE3, 0x0080006F, 0x00100073, 0x00000513,
    0x05D00893, 0x00000073,
];

/// Reads a byte of input; where it isn't 0 it exits with 5, and else it counts down from ten and exits
/// with 0.
pub static INPUT_DECIDES: [u32; 15] = [
    0x00000513, 0x000205B7, 0x00100613, 0x03F00893, 0x00000073, 0x00058303, 0x00A00293, 0x00031A63,
    0xFFF28293, 0xFE029CE3, 0x00000513, 0x0080006F, 0x00500513, 0x05D00893, 0x00000073,
];

/// Adds 1 to the word at 0x00020000, without end.
pub static COUNT_WITHOUT_END: [u32; 5] = [
    0x00020337, 0x00032383, 0x00138393, 0x00732023, 0xFF5FF06F,
];

/// Puts the instruction that loads 9 in place of the one that loads 7, and exits with 9.
pub static REWRITES_ITSELF: [u32; 8] = [
    0x00000297, 0x01C2A303, 0x0062A823, 0x05D00893, 0x00700513, 0x00000073, 0x00000000, 0x00900513,
];

/// Exits with 511, of which a status holds 255.
pub static EXIT_511: [u32; 3] = [0x1FF00513, 0x05D00893, 0x00000073];

/// Exits with 120, the status of a run that used up its steps.
pub static EXIT_120: [u32; 3] = [0x07800513, 0x05D00893, 0x00000073];

/// Exits with 5 by call 94.
pub static EXIT_GROUP: [u32; 3] = [0x00500513, 0x05E00893, 0x00000073];

/// Makes a call that isn't there, and exits with its answer, -38.
pub static UNKNOWN_CALL: [u32; 5] = [0x00100513, 0x3E700893, 0x00000073, 0x05D00893, 0x00000073];

/// Asks for a break below the first, and exits with the break's page.
pub static LOW_BREAK: [u32; 6] = [
    0x0D600893, 0x00010537, 0x00000073, 0x00C55513, 0x05D00893, 0x00000073,
];

/// Asks for the greatest break, and exits with its first byte.
pub static HIGH_BREAK: [u32; 6] = [
    0x0D600893, 0x70000537, 0x00000073, 0x01855513, 0x05D00893, 0x00000073,
];

/// Asks for a break above the greatest, and exits with the break's page.
pub static TOO_HIGH_BREAK: [u32; 7] = [
    0x0D600893, 0x70000537, 0x00150513, 0x00000073, 0x00C55513, 0x05D00893, 0x00000073,
];

/// Stores a byte that nothing loads, and that a `write` call puts.
pub static STORE_FOR_WRITE: [u32; 10] = [
    0x000205B7, 0x04100293, 0x00558023, 0x00100513, 0x00100613, 0x04000893, 0x00000073, 0x00000513,
    0x05D00893, 0x00000073,
];

/// A file of three headers, as words: one part, which exits with 7, between headers of two other
/// types, of which the first tells of bytes past the file's end.
pub static THREE_HEADERS: [u32; 40] = [
    0x464C457F, 0x00010101, 0x00000000, 0x00000000, 0x00F30002, 0x00000001, 0x00010094, 0x00000034,
    0x00000000, 0x00000000, 0x00200034, 0x00000003, 0x00000000, 0x70000003, 0x00001000, 0x00000000,
    0x00000000, 0x0000002B, 0x00000000, 0x00000004, 0x00000001, 0x00000001, 0x00000000, 0x00010000,
    0x00010000, 0x000000A0, 0x00002001, 0x00000007, 0x00001000, 0x6474E551, 0x00000000, 0x00000000,
    0x00000000, 0x00000000, 0x00000000, 0x00000006, 0x00000010, 0x00700513, 0x05D00893, 0x00000073,
];

/// A loop of ten turns that loads the same word, 0, in each.
pub static ONE_VALUE: [u32; 9] = [
    0x000203B7, 0x00A00293, 0x0003A303, 0x00640433, 0xFFF28293, 0xFE029AE3, 0x00000513, 0x05D00893,
    0x00000073,
];

/// A loop of two turns. In the first it puts another word in the place of its first load.
pub static REPLACES_A_LOAD: [u32; 11] = [
    0x00000397, 0x00200293, 0x0283A303, 0x0243A403, 0x0083A423, 0xFFF28293, 0xFE0298E3, 0x05D00893,
    0x00000073, 0x00500313, 0x00000007,
];

/// Prints the byte 0x93 ten times, in a loop, and exits with 0 in its 74th step.
pub static PRINTS_TEN: [u32; 11] = [
    0x00A00293, 0x00100513, 0x000105B7, 0x00100613, 0x04000893, 0x00000073, 0xFFF28293, 0xFE0294E3,
    0x00000513, 0x05D00893, 0x00000073,
];

/// The bytes of these words, the least first in each.
pub fn bytes_of(alloc: Global, words: &[u32]) -> Result<Vec<u8>, AllocError> {
    let mut bytes = Vec::new(alloc);
    for word in words {
        bytes.extend_from_slice(&word.to_le_bytes())?;
    }
    Ok(bytes)
}

/// The words of the ELF file that loads these words at 0x00010000 and starts there.
pub fn framed(alloc: Global, words: &[u32]) -> Result<Vec<u32>, AllocError> {
    let size = u32::try_from(words.len().saturating_mul(4)).unwrap_or(u32::MAX);
    let mut file = vec![in alloc;
        0x464C457F, 0x00010101, 0, 0, 0x00F30002, 1, 0x00010000, 52, 0, 0, 0x00200034, 1, 0, 1, 84,
        0x00010000, 0x00010000, size, size, 5, 4,
    ]?;
    file.extend_from_slice(words)?;
    Ok(file)
}

/// The bytes of that file.
pub fn frame(alloc: Global, words: &[u32]) -> Result<Vec<u8>, AllocError> {
    bytes_of(alloc, &framed(alloc, words)?)
}

/// The program of that file.
pub fn program(alloc: Global, words: &[u32]) -> Result<Program, ElfErr>
    ensures { IfOk result IsProgram }
{
    read_elf(alloc, &frame(alloc, words)?)
}
