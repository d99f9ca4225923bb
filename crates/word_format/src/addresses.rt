//! Reads lists of addresses that rise.

ghost use Rattle.std.specs.Prelude.{◌≡◌};
ghost use Rattle.word_format.specs.declared.error.AddressErr.TheVariants.{Memory};
ghost use Rattle.word_format.specs.Reading.{IsRead, GivesOr, addresses_in};
ghost use Rattle.word_format.specs.Reading as spec;

use crate::error::AddressErr;
use crate::number::next_word;
use std::alloc::Global;

/// Whether a number is the address of an instruction, a multiple of 4.
pub fn is_aligned(address: u32) -> bool
    ensures { result ≡ spec.is_aligned address }
{
    address % 4 == 0
}

/// The next `count` addresses, which rise, and the bytes after them.
///
/// Asks for memory only for addresses whose bytes are there.
///
/// # Errors
///
/// The first test that fails, as [`AddressErr`] tells, or `Memory`.
pub fn read_addresses(
    alloc: Global,
    count: u32,
    bytes: &[u8],
) -> Result<(Vec<u32>, &[u8]), AddressErr>
    ensures { GivesOr Memory (λ x. (x.0.items, x.1.now)) result (addresses_in count bytes.now) }
{
    let mut addresses = Vec::new(alloc);
    let mut rest = bytes;
    let mut due = 0;
    for number in 0..count {
        let (address, after) = next_address(number, due, rest)?;
        addresses.push(address)?;
        due = u64::from(address) + 1;
        rest = after;
    }
    Ok((addresses, rest))
}

/// Reads the address of this number, which is at least `due`.
#[tactic(auto, unfolding(crate::specs::Reading::next_address))]
fn next_address(number: u32, due: u64, bytes: &[u8]) -> Result<(u32, &[u8]), AddressErr>
    ensures { IsRead (λ x. (x.0, x.1.now)) result (spec.next_address number due bytes.now) }
{
    let (address, rest) = next_word(AddressErr::Short, bytes)?;
    let address = admit_address(number, due, address)?;
    Ok((address, rest))
}

/// Tests an address.
fn admit_address(number: u32, due: u64, address: u32) -> Result<u32, AddressErr>
    ensures { IsRead (λ x. x) result (spec.admit_address number due address) }
{
    if !is_aligned(address) {
        return Err(AddressErr::Range(number));
    }
    if u64::from(address) < due {
        return Err(AddressErr::Order(number));
    }
    Ok(address)
}
