//! Small programs and their profiles, counted by hand from the definitions.

use profile_data::{Profile, Row};
use profiler::profile;
use std::alloc::Global;
use std::test::Fail;
use test_programs::programs::{COMPARE_LOOP, REWRITES_ITSELF, program};

/// What a row counts: its address, how often it was executed and taken, and whether it is read and changed.
type Counts = (u32, u64, u64, bool, bool);

fn counts(row: &Row) -> Counts {
    (row.pc, row.executed, row.taken, row.read, row.changed)
}

fn row_counts(profile: &Profile, i: u32) -> Option<Counts> {
    profile.at(i).map(counts)
}

#[test]
fn a_comparison_that_never_holds(rt: HostRuntime) -> Result<(), Fail> {
    let program = program(rt.alloc(), &COMPARE_LOOP)?;
    let profile = profile(
        rt.alloc(),
        &program,
        Vec::new(rt.alloc()),
        1_000_000_000_000,
        false,
    )?;
    assert_eq!(rt;
        (profile.steps(), profile.ended(), profile.len()),
        (45, true, 9)
    );
    let rows: [Counts; 9] = [
        (0x1_0000, 1, 0, false, false),
        (0x1_0004, 10, 0, false, false),
        (0x1_0008, 10, 0, false, false),
        (0x1_000C, 10, 0, false, false),
        (0x1_0010, 10, 9, false, false),
        (0x1_0014, 1, 0, false, false),
        (0x1_001C, 1, 0, false, false),
        (0x1_0020, 1, 0, false, false),
        (0x1_0024, 1, 0, false, false),
    ];
    for (i, row) in rows.iter().enumerate() {
        assert_eq!(rt; row_counts(&profile, i as u32), Some(*row));
    }
    Ok(())
}

#[test]
fn the_budget_cuts_a_run(rt: HostRuntime) -> Result<(), Fail> {
    let program = program(rt.alloc(), &COMPARE_LOOP)?;
    let profile = profile(rt.alloc(), &program, Vec::new(rt.alloc()), 3, false)?;
    assert_eq!(rt;
        (profile.steps(), profile.ended(), profile.len()),
        (3, false, 3)
    );
    Ok(())
}

#[test]
fn a_program_rewrites_itself(rt: HostRuntime) -> Result<(), Fail> {
    let program = program(rt.alloc(), &REWRITES_ITSELF)?;
    let profile = profile(rt.alloc(), &program, Vec::new(rt.alloc()), 1000, false)?;
    assert_eq!(rt;
        (profile.steps(), profile.ended(), profile.len()),
        (6, true, 6)
    );
    let rows: [Counts; 6] = [
        (0x1_0000, 1, 0, false, false),
        (0x1_0004, 1, 0, false, false),
        (0x1_0008, 1, 0, true, false),
        (0x1_000C, 1, 0, false, false),
        (0x1_0010, 1, 0, false, true),
        (0x1_0014, 1, 0, false, false),
    ];
    for (i, row) in rows.iter().enumerate() {
        assert_eq!(rt; row_counts(&profile, i as u32), Some(*row));
    }
    Ok(())
}

/// A store of a byte, a call that reads a byte of input to the same place, and a load of it.
#[test]
fn a_read_ends_a_stores_claim(rt: HostRuntime) -> Result<(), Fail> {
    let words = [
        0x0000_0597,
        0x0405_8593,
        0x0005_8023,
        0x0010_0613,
        0x03F0_0893,
        0x0000_0073,
        0x0005_C303,
    ];
    let program = program(rt.alloc(), &words)?;
    let input = Vec::from_slice(rt.alloc(), &[97])?;
    let profile = profile(rt.alloc(), &program, input, 7, true)?;
    assert_eq!(rt;
        row_counts(&profile, 2),
        Some((0x1_0008, 1, 0, false, false))
    );
    // without input nothing is put, and the load reads what the store put
    let profile = profiler::profile(rt.alloc(), &program, Vec::new(rt.alloc()), 7, true)?;
    assert_eq!(rt;
        row_counts(&profile, 2),
        Some((0x1_0008, 1, 0, true, false))
    );
    Ok(())
}

/// A store of a word, and a load of one of its bytes to register 0.
#[test]
fn a_load_to_register_0_loads(rt: HostRuntime) -> Result<(), Fail> {
    let words = [0x0000_0297, 0x0452_A023, 0x0402_C003];
    let program = program(rt.alloc(), &words)?;
    let profile = profile(rt.alloc(), &program, Vec::new(rt.alloc()), 100, false)?;
    assert_eq!(rt;
        (profile.steps(), profile.ended(), profile.len()),
        (4, true, 4)
    );
    assert_eq!(rt;
        row_counts(&profile, 1),
        Some((0x1_0004, 1, 0, true, false))
    );
    Ok(())
}

/// A program that stores a byte, and writes so many bytes from there on: the store's row, and that of the call.
fn written(alloc: Global, count: u32, calls: bool) -> Result<[Option<Counts>; 2], Fail> {
    let words = [
        0x0002_05B7,
        0x0410_0293,
        0x0055_8023,
        0x0010_0513,
        0x0000_0613 + (count % 2_048) * 0x10_0000,
        0x0400_0893,
        0x0000_0073,
        0x0000_0513,
        0x05D0_0893,
        0x0000_0073,
    ];
    let program = program(alloc, &words)?;
    let profile = profile(alloc, &program, Vec::new(alloc), 1_000, calls)?;
    Ok([row_counts(&profile, 2), row_counts(&profile, 6)])
}

#[test]
fn short_writes_read_with_the_mark(rt: HostRuntime) -> Result<(), Fail> {
    let quiet = [
        Some((0x1_0008, 1, 0, false, false)),
        Some((0x1_0018, 1, 0, false, false)),
    ];
    let shown = [
        Some((0x1_0008, 1, 0, true, false)),
        Some((0x1_0018, 1, 1, false, false)),
    ];
    assert_eq!(rt; written(rt.alloc(), 1, false)?, quiet);
    assert_eq!(rt; written(rt.alloc(), 1, true)?, shown);
    assert_eq!(rt; written(rt.alloc(), 256, true)?, shown);
    assert_eq!(rt; written(rt.alloc(), 257, true)?, quiet);
    // a write of no bytes is short, and shows none
    let none = [quiet[0], shown[1]];
    assert_eq!(rt; written(rt.alloc(), 0, true)?, none);
    Ok(())
}
