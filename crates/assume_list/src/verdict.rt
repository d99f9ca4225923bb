//! The verdict on a run.

/// Whether a run meets what an image assumes of it.
#[derive(Clone, Copy, Debug, Drop, PartialEq, Eq)]
pub enum Verdict {
    /// So many steps meet the list.
    Met(u64),
    /// At the position `position` the assumption of the number `which` fails.
    Broken {
        /// The first position of the run at which an assumption of the list fails.
        position: u64,
        /// The number of the first assumption that fails there, counted from 0.
        which: u32,
    },
}
