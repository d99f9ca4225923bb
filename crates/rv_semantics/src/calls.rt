//! What a call is asked for, by the numbers in its registers.
ghost use Rattle.std.specs.Prelude.{◌≡◌, ◌&&◌, nat_eq, nat_le};
ghost use Rattle.rv_semantics.specs.Effect.{is_output};

/// The number of the call that writes, as Linux for RISC-V has it.
const WRITE: u32 = 64;

/// The most bytes of a short write.
const SHORT: u32 = 256;

/// Whether a descriptor is one of output: 1, or 2.
pub fn is_output(descriptor: u32) -> bool
    ensures { result ≡ is_output descriptor }
{
    descriptor == 1 || descriptor == 2
}

/// Whether a call of this number (x17) with this descriptor (x10) and this many bytes (x12) is a
/// short write: a write of at most 256 bytes to descriptor 1 or 2. A task does such a call itself
/// where its image lists the pc.
pub fn is_short_write(number: u32, descriptor: u32, length: u32) -> bool
    ensures { result ≡ ((nat_eq number 64 && is_output descriptor) && nat_le length 256) }
{
    number == WRITE && is_output(descriptor) && length <= SHORT
}
