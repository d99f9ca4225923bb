//! What no clause says: that the calls of a shadow succeed, and what they answer at borders of words.

use access_trace::{ByteRange, Shadow};
use memory::PlainMemory;
use std::alloc::{AllocError, Global};
use std::test::Fail;

fn span(count: u32, from: u32) -> ByteRange {
    ByteRange { count, from }
}

fn marks(shadow: &Shadow<PlainMemory>, from: u32) -> [u32; 8] {
    let mark = |k: u32| shadow.get(from.wrapping_add(k));
    [
        mark(0),
        mark(1),
        mark(2),
        mark(3),
        mark(4),
        mark(5),
        mark(6),
        mark(7),
    ]
}

fn shadow(alloc: Global) -> Result<Shadow<PlainMemory>, AllocError> {
    Shadow::new(alloc)
}

#[test]
fn no_byte_is_marked(rt: HostRuntime) -> Result<(), Fail> {
    let shadow = shadow(rt.alloc())?;
    assert_eq!(rt; marks(&shadow, 0x1_0000), [0; 8]);
    assert_eq!(rt; shadow.common(span(4, 0x1_0000)), Some(0));
    assert_eq!(rt; shadow.common(span(4, 0x1_0001)), None);
    Ok(())
}

#[test]
fn words_and_bytes(rt: HostRuntime) -> Result<(), Fail> {
    let mut shadow = shadow(rt.alloc())?;
    shadow.put(rt.alloc(), span(4, 0x1_0000), 5)?;
    let word = marks(&shadow, 0x1_0000);
    shadow.put(rt.alloc(), span(2, 0x1_0003), 0x1_0009)?;
    let half = marks(&shadow, 0x1_0000);
    let within = shadow.common(span(3, 0x1_0000));
    let across = shadow.common(span(2, 0x1_0002));
    shadow.put(rt.alloc(), span(4, 0x1_0000), 9)?;
    let over = shadow.common(span(3, 0x1_0001));
    let whole = marks(&shadow, 0x1_0000);
    shadow.put(rt.alloc(), span(1, 0x1_0004), 0)?;
    let byte = marks(&shadow, 0x1_0000);
    assert_eq!(rt; (within, across, over), (Some(5), None, Some(9)));
    let want = [
        [5, 5, 5, 5, 0, 0, 0, 0],
        [5, 5, 5, 0x1_0009, 0x1_0009, 0, 0, 0],
        [9, 9, 9, 9, 0x1_0009, 0, 0, 0],
        [9, 9, 9, 9, 0, 0, 0, 0],
    ];
    assert_eq!(rt; [word, half, whole, byte], want);
    Ok(())
}

#[test]
fn a_long_span_wraps(rt: HostRuntime) -> Result<(), Fail> {
    let mut shadow = shadow(rt.alloc())?;
    shadow.put(rt.alloc(), span(11, 0xffff_fffa), 0xffff_fffe)?;
    let high = 0xffff_fffe;
    assert_eq!(rt;
        marks(&shadow, 0xffff_fff8),
        [0, 0, high, high, high, high, high, high]
    );
    assert_eq!(rt; marks(&shadow, 0), [high, high, high, high, high, 0, 0, 0]);
    Ok(())
}
