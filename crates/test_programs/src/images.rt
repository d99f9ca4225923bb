//! Images, as the numbers of four bytes of their files.
ghost use Rattle.std.specs.Prelude.{IfOk};
ghost use Rattle.dist_image.specs.Image.{IsImage};

use crate::programs::bytes_of;
use dist_image::{Image, ImageErr, read_image, write_image};
use std::alloc::Global;

/// By hand, for a loop of ten turns.
pub static TEN_TURNS: [u32; 55] = [
    0x5053534D, 1, 64, 7, 1, 6, 0, 0, 0x10000, 0x00A00293, 2, 0, 0, 0, 0x10004, 0xFFF28293, 0,
    0x10008, 0xFE029EE3, 0, 0x1000C, 0x00000513, 0, 0x10010, 0x05D00893, 0, 0x10014, 0x00000073,
    0x10004, 1, 2, 0x10000, 0, 0, 0, 0x10004, 1, 0, 0, 0x10008, 3, 0, 0, 0x1000C, 4, 0, 0, 0x10010,
    5, 0, 0, 0x10014, 6, 0, 0,
];

/// By hand, for the program that exits with 7: a task begins at the call.
pub static EXIT_7_CALL: [u32; 20] = [
    0x5053534D, 1, 16, 2, 1, 1, 0, 2, 0, 0, 0, 0x10008, 0x00000073, 0x10008, 0, 1, 0x10008, 0, 0, 0,
];

/// By hand, for a loop of ten turns: the second anchor is where the loop ends, and the master comes
/// there after each turn.
pub static WRONG_ANCHOR: [u32; 33] = [
    0x5053534D, 1, 64, 4, 2, 2, 0, 2, 0, 0, 0, 0x10004, 0xFFF28293, 2, 1, 0, 0, 0x10008,
    0xFE029EE3, 0x10004, 0, 1, 0x1000C, 2, 1, 0x10004, 0, 0, 0, 0x10008, 2, 0, 0,
];

/// By hand, for a counter without end: the master leaves out the load, the sum and the store.
pub static COUNTER: [u32; 32] = [
    0x5053534D, 1, 16, 2, 1, 4, 0, 2, 0, 0, 0, 0x10010, 0xFF5FF06F, 0x10004, 0, 1, 0x10004, 0, 0,
    0, 0x10008, 1, 0, 0, 0x1000C, 1, 0, 0, 0x10010, 1, 0, 0,
];

/// By hand, for a program that rewrites an instruction: the second task begins before the first has
/// rewritten it.
pub static REWRITTEN: [u32; 33] = [
    0x5053534D, 1, 16, 4, 2, 2, 0, 2, 0, 0, 1, 0x1000C, 0, 2, 1, 0, 0, 0x1000C, 0x05D00893,
    0x10000, 0, 1, 0x1000C, 2, 1, 0x10000, 0, 0, 0, 0x1000C, 2, 0, 0,
];

/// For a loop with a compare that is never true, without that compare. The slots begin at place 7,
/// the anchors at 28, the notes at 34 and the assumptions at 70.
pub static COMPARE_NEVER_TRUE: [u32; 86] = [
    0x5053534D, 1, 64, 7, 2, 9, 4, 2, 0, 0, 0, 0x10000, 0x00A00293, 2, 1, 0, 0, 0x1000C,
    0xFFF28293, 0, 0x10010, 0xFE029AE3, 0, 0x10014, 0x0080006F, 0, 0x10024, 0x00000073, 0x10000, 0,
    2, 0x10004, 2, 2, 0x10000, 0, 0, 0, 0x10004, 2, 0x20, 0x20, 0x10008, 3, 0x60, 0x20, 0x1000C, 3,
    0x20, 0x20, 0x10010, 4, 0x20, 0x20, 0x10014, 5, 0, 0, 0x1001C, 6, 0, 0, 0x10020, 6, 0, 0,
    0x10024, 6, 0, 0, 0, 0x10008, 1, 0, 3, 0, 0, 0, 4, 0, 0, 0, 5, 0, 0, 0,
];

/// The text of that image.
pub const COMPARE_NEVER_TRUE_TEXT: &str = "limit 64
slot 0 fork 0
slot 1 exec 00010000 00a00293
slot 2 fork 1
slot 3 exec 0001000c fff28293
slot 4 exec 00010010 fe029ae3
slot 5 exec 00010014 0080006f
slot 6 exec 00010024 00000073
anchor 0 pc 00010000 slot 0 count 2
anchor 1 pc 00010004 slot 2 count 2
note 00010000 slot 0 live 00000000 need 00000000
note 00010004 slot 2 live 00000020 need 00000020
note 00010008 slot 3 live 00000060 need 00000020
note 0001000c slot 3 live 00000020 need 00000020
note 00010010 slot 4 live 00000020 need 00000020
note 00010014 slot 5 live 00000000 need 00000000
note 0001001c slot 6 live 00000000 need 00000000
note 00010020 slot 6 live 00000000 need 00000000
note 00010024 slot 6 live 00000000 need 00000000
cut 00010008 taken
code
within
span
";

/// The image of these numbers.
pub fn image(alloc: Global, numbers: &[u32]) -> Result<Image, ImageErr>
    ensures { IfOk result IsImage }
{
    read_image(alloc, &bytes_of(alloc, numbers)?)
}

/// The file that is written for it.
pub fn written(alloc: Global, numbers: &[u32]) -> Result<Vec<u8>, ImageErr> {
    let image = image(alloc, numbers)?;
    Ok(write_image(alloc, &image)?)
}
