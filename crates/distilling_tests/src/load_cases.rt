//! Loads of one value: the runs of small programs, and files.

use load_values::{ValuesErr, find, read_values, write_values};
use std::test::Fail;
use test_programs::programs::{ONE_VALUE, REPLACES_A_LOAD, program};

/// Five loads, each executed once: of a byte with its sign, of the same byte without it, of a word to
/// which no one word sets a register, of a byte to register 0, and of a byte again.
static FIVE_LOADS: [u32; 9] = [
    0x0000_0397,
    0x0203_8303,
    0x0203_C303,
    0x0203_A303,
    0x0203_8003,
    0x0213_C303,
    0x05D0_0893,
    0x0000_0073,
    0x1234_56FF,
];

#[test]
fn a_load_in_a_loop(rt: HostRuntime) -> Result<(), Fail> {
    let p = program(rt.alloc(), &ONE_VALUE)?;
    let rows = find(rt.alloc(), &p, Vec::new(rt.alloc()), 1_000_000)?;
    assert_eq!(rt; rows.as_slice(), [(0x1_0008, 0)].as_slice());
    let bytes = write_values(rt.alloc(), &rows)?;
    let file = b"MSPV\x01\0\0\0\x01\0\0\0\x08\0\x01\0\0\0\0\0";
    assert_eq!(rt; bytes.as_slice(), file.as_slice());
    let again = read_values(rt.alloc(), &bytes)?;
    assert_eq!(rt; again.as_slice(), rows.as_slice());
    Ok(())
}

#[test]
fn signs_and_registers(rt: HostRuntime) -> Result<(), Fail> {
    let p = program(rt.alloc(), &FIVE_LOADS)?;
    let rows = find(rt.alloc(), &p, Vec::new(rt.alloc()), 1_000_000)?;
    let expected = [(0x1_0004, 0xFFFF_FFFF), (0x1_0008, 0xFF), (0x1_0014, 0x56)];
    assert_eq!(rt; rows.as_slice(), expected.as_slice());
    Ok(())
}

#[test]
fn another_word_in_the_place_of_a_load(rt: HostRuntime) -> Result<(), Fail> {
    let p = program(rt.alloc(), &REPLACES_A_LOAD)?;
    let before = find(rt.alloc(), &p, Vec::new(rt.alloc()), 7)?;
    assert_eq!(rt; before.as_slice(), [(0x1_0008, 7)].as_slice());
    let after = find(rt.alloc(), &p, Vec::new(rt.alloc()), 8)?;
    assert!(rt; after.is_empty());
    Ok(())
}

/// Files, and the first test of each that fails, in the order of the tests.
static REFUSED_FILES: [(&[u8], ValuesErr); 9] = [
    (b"MSPV\x01\0\0\0\0\0\0", ValuesErr::Short),
    (b"MSPF\x02\0\0\0\0\0\0\0", ValuesErr::Magic),
    (b"MSPV\x02\0\0\0\x01\0\x08\0", ValuesErr::Version),
    (b"MSPV\x01\0\0\0\x01\0\x08\0", ValuesErr::TooMany),
    (
        b"MSPV\x01\0\0\0\x01\0\0\0\x09\0\x01\0\0\0\0",
        ValuesErr::Short,
    ),
    (
        b"MSPV\x01\0\0\0\x01\0\0\0\x09\0\x01\0\0\0\0\0",
        ValuesErr::Range(0),
    ),
    (
        b"MSPV\x01\0\0\0\x01\0\0\0\x08\0\x01\0\x01\x08\0\0",
        ValuesErr::Range(0),
    ),
    (
        b"MSPV\x01\0\0\0\x02\0\0\0\x08\0\0\0\0\0\0\0\x08\0\0\0\0\0\0\0",
        ValuesErr::Order(1),
    ),
    (b"MSPV\x01\0\0\0\0\0\0\0\0", ValuesErr::Long),
];

#[test]
fn files_that_are_refused(rt: HostRuntime) -> Result<(), Fail> {
    for &(bytes, expected) in &REFUSED_FILES {
        assert_eq!(rt; read_values(rt.alloc(), bytes).err(), Some(expected));
    }
    Ok(())
}
