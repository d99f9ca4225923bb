//! Bytes that lie one after another.

/// A number of bytes, from an address on. After the address 0xFFFFFFFF comes 0.
#[derive(Clone, Copy, Debug, PartialEq, Eq)]
pub struct ByteRange {
    /// How many bytes there are.
    pub count: u32,
    /// The address of the first.
    pub from: u32,
}

impl ByteRange {
    /// No bytes.
    pub const NOWHERE: ByteRange = ByteRange { count: 0, from: 0 };
}
