//! Images that fit no program, as the numbers of four bytes of their files.

/// The master comes back to the same fork, and begins tasks at one pc until there is no room.
pub static FORKS_AT_ONE_PC: [u32; 20] = [
    0x5053534D, 1, 64, 2, 1, 1, 0, 2, 0, 0, 1, 0x10000, 0, 0x10000, 0, 1, 0x10000, 0, 0, 0,
];

/// The master goes where there is no slot.
pub static JUMPS_INTO_NOWHERE: [u32; 20] = [
    0x5053534D, 1, 16, 2, 1, 1, 0, 2, 0, 0, 1, 0x40, 0, 0x10000, 0, 1, 0x10000, 0, 0, 0,
];

/// Nothing but the longest task.
pub static NO_SLOTS: [u32; 7] = [0x5053534D, 1, 16_384, 0, 0, 0, 0];

/// The master goes round without a fork, until its slots are used up.
pub static NEVER_FORKS: [u32; 20] = [
    0x5053534D, 1, 64, 2, 1, 1, 0, 2, 0, 0, 1, 0x10004, 0, 0x10004, 0, 64, 0x10004, 1, 0, 0,
];

/// The notes of two anchors are exchanged.
pub static OTHER_NOTES: [u32; 33] = [
    0x5053534D, 1, 16, 4, 2, 2, 0, 2, 0, 0, 1, 0x10004, 0, 2, 1, 0, 1, 0x10000, 0, 0x10000, 0, 1,
    0x10004, 2, 1, 0x10000, 2, 0, 0, 0x10004, 0, 0, 0,
];

/// Other words stand where the program's first two are: they load 99 and -1.
pub static WRONG_WORDS: [u32; 37] = [
    0x5053534D, 1, 16, 4, 2, 3, 0, 2, 0, 0, 0, 0x10000, 0x06300293, 2, 1, 0, 0, 0x10004,
    0xFFF00513, 0x10000, 0, 1, 0x10004, 2, 1, 0x10000, 0, 0, 0, 0x10004, 2, 0, 0, 0x10008, 1, 0, 0,
];

/// Anchors and slots at pcs that no run comes to, but for the first.
pub static WRONG_PCS: [u32; 37] = [
    0x5053534D, 1, 16, 4, 2, 3, 0, 2, 0, 0, 0, 0x20000, 0x00A00293, 2, 1, 0, 0, 0x30000,
    0xFFF28293, 0x10000, 0, 1, 0x20004, 2, 1, 0x10000, 0, 0, 0, 0x20004, 2, 0, 0, 0x30004, 1, 0, 0,
];

/// Tasks may take 16 steps, and count as many as 64 turns of a loop.
pub static SHORT_TASKS: [u32; 30] = [
    0x5053534D, 1, 16, 4, 1, 2, 0, 2, 0, 0, 0, 0x10004, 0xFFF28293, 0, 0x10008, 0xFE029EE3, 1,
    0x10004, 0, 0x10004, 0, 64, 0x10004, 0, 0, 0, 0x10008, 2, 0, 0,
];

/// The master's first slot begins a task, and the second leads back to itself: it goes round until its slots are spent.
pub static SPENT_BEHIND_A_FORK: [u32; 24] = [
    0x5053534D, 1, 16, 2, 1, 2, 0, 2, 0, 0, 1, 0x10008, 0, 0x10004, 0, 1, 0x10004, 0, 0, 0,
    0x10008, 1, 0, 0,
];

/// Two forks of the one anchor stand one behind the other, and the slot behind them leads back to the first.
pub static TWO_FORKS_AT_ONE_PC: [u32; 23] = [
    0x5053534D, 1, 16, 3, 1, 1, 0, 2, 0, 0, 2, 0, 0, 1, 0x10004, 0, 0x10004, 0, 1, 0x10004, 0, 0, 0,
];
