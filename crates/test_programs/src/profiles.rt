//! Profiles, as the numbers of four bytes of their files.

/// The profile of [`COMPARE_LOOP`](crate::programs::COMPARE_LOOP): 45 steps, with which the run ends, and
/// nine rows of seven numbers. A row has its address, its flags, how often it was executed and taken,
/// in two numbers each, and no targets.
pub static COMPARE_LOOP_PROFILE: [u32; 69] = [
    0x4650534D, 1, 45, 0, 1, 9, //
    0x1_0000, 0, 1, 0, 0, 0, 0, //
    0x1_0004, 0, 10, 0, 0, 0, 0, //
    0x1_0008, 0, 10, 0, 0, 0, 0, //
    0x1_000C, 0, 10, 0, 0, 0, 0, //
    0x1_0010, 0, 10, 0, 9, 0, 0, //
    0x1_0014, 0, 1, 0, 0, 0, 0, //
    0x1_001C, 0, 1, 0, 0, 0, 0, //
    0x1_0020, 0, 1, 0, 0, 0, 0, //
    0x1_0024, 0, 1, 0, 0, 0, 0,
];
