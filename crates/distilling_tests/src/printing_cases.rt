//! Images of programs that print, by profiles in which short writes are counted and not.

use crate::programs::{
    CALL_AND_EXIT, HELLO_ROWS, anchor, assumes, has_anchors, has_slots, options, profile,
};
use dist_image::{Image, write_image};
use distiller::distill;
use std::alloc::Global;
use std::test::Fail;
use test_programs::programs::{HELLO, STORE_FOR_WRITE, bytes_of, program};

/// The image of the program that writes three bytes as a file, written out by hand: the call stays,
/// and the words in front of the exit go.
static HELLO_IMAGE: [u32; 90] = [
    0x5053_534D,
    2,
    4096,
    9,
    2,
    9,
    3,
    1, //
    2,
    0,
    0,
    0,
    0x1_0000,
    0x0010_0513,
    0,
    0x1_0004,
    0x0000_0597,
    0,
    0x1_0008,
    0x0205_8593,
    0,
    0x1_000C,
    0x0030_0613,
    0,
    0x1_0010,
    0x0400_0893,
    0,
    0x1_0014,
    0x0000_0073,
    2,
    1,
    0,
    0,
    0x1_0020,
    0x0000_0073, //
    0x1_0000,
    0,
    50,
    0x1_0018,
    7,
    50, //
    0x1_0000,
    0,
    0x0,
    0x0,
    0x1_0004,
    2,
    0x400,
    0x400,
    0x1_0008,
    3,
    0xC00,
    0xC00,
    0x1_000C,
    4,
    0xC00,
    0xC00,
    0x1_0010,
    5,
    0x1C00,
    0x1C00,
    0x1_0014,
    6,
    0x2_1C00,
    0x2_1C00,
    0x1_0018,
    7,
    0x0,
    0x0,
    0x1_001C,
    8,
    0x0,
    0x0,
    0x1_0020,
    8,
    0x0,
    0x0, //
    3,
    0,
    0,
    0,
    4,
    0,
    0,
    0,
    5,
    0,
    0,
    0, //
    0x1_0014,
];

#[test]
fn a_program_that_prints(rt: HostRuntime) -> Result<(), Fail> {
    let p = program(rt.alloc(), &HELLO)?;
    let f = profile(rt.alloc(), 9, &HELLO_ROWS, &[])?;
    let image = distill(rt.alloc(), &p, &f, &options(4096))?;
    let found = write_image(rt.alloc(), &image)?;
    let want = bytes_of(rt.alloc(), &HELLO_IMAGE)?;
    assert_eq!(rt; want.len(), 360);
    assert_eq!(rt; found.as_slice(), want.as_slice());
    Ok(())
}

/// The image of the program that stores a byte and writes it, where a profile says of the store
/// whether its byte was read, and of the call how often it was a short write.
fn image_of_store(alloc: Global, read: u32, printed: u64) -> Result<Image, Fail> {
    let rows = [
        (0x1_0004, 0, 1, 0),
        (0x1_0000, 0, 1, 0),
        (0x1_0008, read, 1, 0),
        (0x1_000C, 0, 1, 0),
        (0x1_0010, 0, 1, 0),
        (0x1_0014, 0, 1, 0),
        (0x1_0018, 0, 1, printed),
        (0x1_001C, 0, 1, 0),
        (0x1_0024, 0, 1, 0),
        (0x1_0020, 0, 1, 0),
    ];
    let p = program(alloc, &STORE_FOR_WRITE)?;
    let f = profile(alloc, 10, &rows, &[])?;
    Ok(distill(alloc, &p, &f, &options(4096))?)
}

#[test]
fn a_store_that_a_write_shows(rt: HostRuntime) -> Result<(), Fail> {
    let image = image_of_store(rt.alloc(), 1, 1)?;
    assert_eq!(rt; (image.version, image.limit), (2, 4096));
    assert_eq!(rt; image.writes.as_slice(), [0x1_0018].as_slice());
    assert_eq!(rt; image.slots.len(), 10);
    let anchors = [anchor(0x1_0000, 0, 40), anchor(0x1_001C, 8, 40)];
    assert!(rt; has_anchors(&image, &anchors));
    assert!(rt; assumes(rt.alloc(), &image, "[Code, Within, Span]")?);
    Ok(())
}

#[test]
fn a_write_that_is_not_counted(rt: HostRuntime) -> Result<(), Fail> {
    let image = image_of_store(rt.alloc(), 0, 0)?;
    assert_eq!(rt; (image.version, image.limit), (1, 4096));
    assert!(rt; image.writes.is_empty());
    assert!(rt; has_slots(&image, &CALL_AND_EXIT));
    assert!(rt;
        assumes(
            rt.alloc(),
            &image,
            "[Dead { at: 65544 }, Code, Within, Span]"
        )?
    );
    Ok(())
}
