//! What calls ask for, by the numbers in their registers.
use rv_semantics::{is_output, is_short_write};

/// A descriptor, and whether what is written to it is output.
static OUTPUTS: [(u32, bool); 4] = [(0, false), (1, true), (2, true), (3, false)];

#[test]
fn outputs(rt: HostRuntime) {
    for &(descriptor, want) in &OUTPUTS {
        assert!(rt; is_output(descriptor) == want);
    }
}

/// A call's number, a descriptor and a length, and whether it is a write (64) of at most 256 bytes to
/// descriptor 1 or 2.
static WRITES: [(u32, u32, u32, bool); 7] = [
    (64, 1, 3, true),
    (64, 2, 256, true),
    (64, 1, 0, true),
    (64, 1, 257, false),
    (64, 0, 3, false),
    (63, 1, 3, false),
    (93, 1, 3, false),
];

#[test]
fn short_writes(rt: HostRuntime) {
    for &(number, descriptor, length, want) in &WRITES {
        assert!(rt; is_short_write(number, descriptor, length) == want);
    }
}
