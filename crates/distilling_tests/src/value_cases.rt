//! Images where loads load one value each.

ghost use Rattle.distiller.specs.Given.{AreGiven};

use crate::programs::{Counts, anchor, assumes, has_anchors, has_slots, options, profile};
use dist_image::{Image, Slot};
use distiller::distill_same;
use std::alloc::Global;
use std::test::Fail;
use test_programs::programs::{ONE_VALUE, program};

/// The rows of the run of `ONE_VALUE`.
static ONE_VALUE_ROWS: [Counts; 9] = [
    (0x1_0000, 0, 1, 0),
    (0x1_0004, 0, 1, 0),
    (0x1_0008, 0, 10, 0),
    (0x1_000C, 0, 10, 0),
    (0x1_0010, 0, 10, 0),
    (0x1_0014, 0, 10, 9),
    (0x1_0018, 0, 1, 0),
    (0x1_001C, 0, 1, 0),
    (0x1_0020, 0, 1, 0),
];

/// The image of `ONE_VALUE` where these loads load one value each, and a task takes at most 16,384 steps.
fn image_with(alloc: Global, same: &[(u32, u32)]) -> Result<Image, Fail>
    requires { AreGiven same.now }
{
    let p = program(alloc, &ONE_VALUE)?;
    let f = profile(alloc, 45, &ONE_VALUE_ROWS, &[])?;
    Ok(distill_same(alloc, &p, &f, same, &options(16_384))?)
}

/// The slots of `ONE_VALUE` where the load in its loop loads 0.
static SLOTS_OF_ZERO: [Slot; 9] = [
    Slot::Fork { anchor: 0 },
    Slot::Exec {
        origin: 0x1_0000,
        word: 0x0002_03B7,
    },
    Slot::Exec {
        origin: 0x1_0004,
        word: 0x00A0_0293,
    },
    Slot::Fork { anchor: 1 },
    Slot::Exec {
        origin: 0x1_0008,
        word: 0x0000_0313,
    },
    Slot::Exec {
        origin: 0x1_000C,
        word: 0x0064_0433,
    },
    Slot::Exec {
        origin: 0x1_0010,
        word: 0xFFF2_8293,
    },
    Slot::Exec {
        origin: 0x1_0014,
        word: 0xFE02_9AE3,
    },
    Slot::Exec {
        origin: 0x1_0020,
        word: 0x0000_0073,
    },
];

#[test]
fn a_load_sets_its_register(rt: HostRuntime) -> Result<(), Fail> {
    let image = image_with(rt.alloc(), &[(0x1_0008, 0)])?;
    assert_eq!(rt; (image.version, image.limit), (2, 4096));
    assert!(rt; image.writes.is_empty());
    assert!(rt; has_slots(&image, &SLOTS_OF_ZERO));
    let anchors = [anchor(0x1_0000, 0, 50), anchor(0x1_0008, 3, 50)];
    assert!(rt; has_anchors(&image, &anchors));
    let listed = "[Code, Within, Span, Same { at: 65544, value: 0 }]";
    assert!(rt; assumes(rt.alloc(), &image, listed)?);
    Ok(())
}

#[test]
fn no_analysed_load_is_given(rt: HostRuntime) -> Result<(), Fail> {
    let image = image_with(rt.alloc(), &[(0x1_0004, 10), (0x2_0000, 0)])?;
    assert_eq!(rt; (image.version, image.limit), (1, 16_384));
    assert!(rt; assumes(rt.alloc(), &image, "[Code, Within, Span]")?);
    Ok(())
}
