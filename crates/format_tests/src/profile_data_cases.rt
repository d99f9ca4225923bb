//! Profiles as bytes, both ways, and each refusal. Numbers that follow a magic number stand for a file
//! of them, the lowest byte of each first.

use indexmap::IndexMap;
use profile_data::{Profile, ProfileErr, read_profile, write_profile};
use std::alloc::{AllocError, Global};
use std::test::Fail;
use test_programs::profiles::COMPARE_LOOP_PROFILE;
use test_programs::programs::bytes_of;

const MAGIC: u32 = 0x4650_534D;

/// The greatest number of four bytes.
const ALL: u32 = u32::MAX;

/// A run of three steps that goes on: a store whose bytes are read, and an indirect jump to two
/// addresses that was changed.
static TWO_TARGETS: [u32; 22] = [
    MAGIC,
    1,
    3,
    0,
    0,
    2, //
    8,
    1,
    1,
    0,
    0,
    0,
    0, //
    4,
    2,
    2,
    0,
    0,
    0,
    2,
    0,
    0xFFFF_FFFC,
];

/// The profile of a file of these numbers.
fn profile(alloc: Global, numbers: &[u32]) -> Result<Profile, ProfileErr> {
    read_profile(alloc, &bytes_of(alloc, numbers)?)
}

/// How a file of these numbers is refused.
fn refusal(alloc: Global, numbers: &[u32]) -> Option<ProfileErr> {
    profile(alloc, numbers).err()
}

/// Whether a file of these numbers is what is written for a profile.
fn is_file_of(alloc: Global, profile: &Profile, numbers: &[u32]) -> Result<bool, AllocError> {
    let written = write_profile(alloc, profile)?;
    let bytes = bytes_of(alloc, numbers)?;
    Ok(written.as_slice() == bytes.as_slice())
}

/// Whether a file of these numbers is written again as it was.
fn is_written_again(alloc: Global, numbers: &[u32]) -> Result<bool, ProfileErr> {
    let profile = profile(alloc, numbers)?;
    Ok(is_file_of(alloc, &profile, numbers)?)
}

/// A profile's steps, whether its run has ended, and how many rows it has.
type About = (u64, bool, u32);

/// What there is about a profile.
fn about(profile: &Profile) -> About {
    (profile.steps(), profile.ended(), profile.len())
}

/// How often the instruction of an address was executed and taken.
fn counts(profile: &Profile, pc: u32) -> Option<(u64, u64)> {
    let row = profile.row(pc)?;
    Some((row.executed, row.taken))
}

/// The address of the row of this number.
fn address(profile: &Profile, number: u32) -> Option<u32> {
    Some(profile.at(number)?.pc)
}

/// Whether bytes that the instruction of the row of this number stored were read, and whether it was changed.
fn flags(profile: &Profile, number: u32) -> Option<(bool, bool)> {
    let row = profile.at(number)?;
    Some((row.read, row.changed))
}

/// The last target of the row of an address.
fn last_target(profile: &Profile, pc: u32) -> Option<u32> {
    profile.row(pc)?.targets.last().copied()
}

/// What there is about the profile of nine rows, and the counts of one of them.
fn about_nine_rows(alloc: Global) -> Result<(About, Option<(u64, u64)>), ProfileErr> {
    let profile = profile(alloc, &COMPARE_LOOP_PROFILE)?;
    Ok((about(&profile), counts(&profile, 0x1_0010)))
}

#[test]
fn reads_nine_rows(rt: HostRuntime) -> Result<(), Fail> {
    let (about, counts) = about_nine_rows(rt.alloc())?;
    assert_eq!(rt; about, (45, true, 9));
    assert_eq!(rt; counts, Some((10, 9)));
    Ok(())
}

/// The addresses of the rows that are found: by an address that has no row, by the number of the seventh row,
/// and by the number after that of the ninth.
fn found_of_nine_rows(alloc: Global) -> Result<[Option<u32>; 3], ProfileErr> {
    let profile = profile(alloc, &COMPARE_LOOP_PROFILE)?;
    let absent = profile.row(0x1_0018).map(|row| row.pc);
    Ok([absent, address(&profile, 6), address(&profile, 9)])
}

#[test]
fn finds_and_writes_nine_rows(rt: HostRuntime) -> Result<(), Fail> {
    let found = found_of_nine_rows(rt.alloc())?;
    assert_eq!(rt; found, [None, Some(0x1_001C), None]);
    assert!(rt; is_written_again(rt.alloc(), &COMPARE_LOOP_PROFILE)?);
    Ok(())
}

/// The flags of the two rows, and the last target of the second.
fn found_of_two_targets(
    alloc: Global,
) -> Result<([Option<(bool, bool)>; 2], Option<u32>), ProfileErr> {
    let profile = profile(alloc, &TWO_TARGETS)?;
    let both = [flags(&profile, 0), flags(&profile, 1)];
    Ok((both, last_target(&profile, 4)))
}

#[test]
fn reads_and_writes_targets(rt: HostRuntime) -> Result<(), Fail> {
    let (both, last) = found_of_two_targets(rt.alloc())?;
    assert_eq!(rt; both, [Some((true, false)), Some((false, true))]);
    assert_eq!(rt; last, Some(0xFFFF_FFFC));
    assert!(rt; is_written_again(rt.alloc(), &TWO_TARGETS)?);
    Ok(())
}

/// The file of a profile without rows, of a run without steps that goes on.
static NO_ROWS: [u32; 6] = [MAGIC, 1, 0, 0, 0, 0];

/// That profile.
fn no_rows(alloc: Global) -> Profile {
    Profile::new(0, false, IndexMap::new(alloc))
}

/// How many rows it has, and whether it is written as that file.
fn made_without_rows(alloc: Global) -> Result<(u32, bool), AllocError> {
    let profile = no_rows(alloc);
    Ok((profile.len(), is_file_of(alloc, &profile, &NO_ROWS)?))
}

/// What there is about the profile that is read from that file.
fn read_without_rows(alloc: Global) -> Result<About, ProfileErr> {
    let profile = profile(alloc, &NO_ROWS)?;
    Ok(about(&profile))
}

#[test]
fn makes_a_profile_without_rows(rt: HostRuntime) -> Result<(), Fail> {
    assert_eq!(rt; made_without_rows(rt.alloc())?, (0, true));
    assert_eq!(rt; read_without_rows(rt.alloc())?, (0, false, 0));
    Ok(())
}

/// The length of the first front of a file that isn't refused as too short.
fn long_front(alloc: Global, file: &[u8]) -> Option<usize> {
    for length in 0..file.len() {
        if read_profile(alloc, &file[..length]).err() != Some(ProfileErr::Short) {
            return Some(length);
        }
    }
    None
}

/// That length of a file of these numbers.
fn long_front_of(alloc: Global, numbers: &[u32]) -> Result<Option<usize>, AllocError> {
    Ok(long_front(alloc, &bytes_of(alloc, numbers)?))
}

#[test]
fn a_prefix_ends_early(rt: HostRuntime) -> Result<(), Fail> {
    assert_eq!(rt; long_front_of(rt.alloc(), &TWO_TARGETS)?, None);
    assert_eq!(rt; long_front_of(rt.alloc(), &COMPARE_LOOP_PROFILE)?, None);
    Ok(())
}

static REFUSES_HEADERS_CASES: [(&[u32], ProfileErr); 10] = [
    (&[MAGIC + 1, 2, 0, 0, 2], ProfileErr::Short),
    (&[MAGIC + 1, 2, 0, 0, 2, ALL], ProfileErr::Magic),
    (&[MAGIC, 2, 0, 0, 2, ALL], ProfileErr::Version),
    (&[MAGIC, 0, 0, 0, 0, 0], ProfileErr::Version),
    (&[MAGIC, 1, 0, 0, 2, ALL], ProfileErr::Mark),
    (&[MAGIC, 1, 0, 0, 0, 524_289], ProfileErr::TooMany),
    (&[MAGIC, 1, 0, 0, 0, ALL], ProfileErr::TooMany),
    (&[MAGIC, 1, 0, 0, 0, 524_288], ProfileErr::Short),
    (&[MAGIC, 1, 1, 0, 0, 0], ProfileErr::Sum),
    (&[MAGIC, 1, 0, 0, 1, 0, 0], ProfileErr::Long),
];

#[test]
fn refuses_headers(rt: HostRuntime) {
    for &(numbers, want) in &REFUSES_HEADERS_CASES {
        assert_eq!(rt; refusal(rt.alloc(), numbers), Some(want), "{numbers:?}");
    }
}

/// How a file of one row of 9 steps is refused, with its numbers from its address on.
fn row_refusal(alloc: Global, row: &[u32]) -> Result<Option<ProfileErr>, AllocError> {
    let mut numbers = Vec::from_slice(alloc, &[MAGIC, 1, 9, 0, 0, 1])?;
    numbers.extend_from_slice(row)?;
    Ok(refusal(alloc, &numbers))
}

static REFUSES_ROWS_CASES: [(&[u32], ProfileErr); 14] = [
    (&[3, 4, 0, 0, 1, 0], ProfileErr::Short),
    (&[3, 4, 0, 0, 1, 0, ALL], ProfileErr::Kind(0)),
    (&[4, ALL, 9, 0, 0, 0, 0], ProfileErr::Kind(0)),
    (&[3, 3, 9, 0, 0, 0, ALL], ProfileErr::Range(0)),
    (&[4, 0, 0, 0, 0, 0, ALL], ProfileErr::Range(0)),
    (&[4, 0, 9, 0, 10, 0, 0], ProfileErr::Range(0)),
    (&[4, 0, 9, 0, 0, 1, 0], ProfileErr::Range(0)),
    (&[4, 0, 9, 0, 9, 0, 1_048_577], ProfileErr::TooMany),
    (&[4, 0, 9, 0, 9, 0, ALL], ProfileErr::TooMany),
    (&[4, 0, 9, 0, 9, 0, 1_048_576], ProfileErr::Short),
    (&[4, 0, 9, 0, 9, 0, 2, 3], ProfileErr::Short),
    (&[4, 0, 9, 0, 9, 0, 2, 8, 6], ProfileErr::Range(0)),
    (&[4, 0, 9, 0, 9, 0, 2, 8, 4], ProfileErr::Order(0)),
    (&[4, 0, 9, 0, 9, 0, 2, 8, 8], ProfileErr::Order(0)),
];

#[test]
fn refuses_rows(rt: HostRuntime) -> Result<(), Fail> {
    for &(row, want) in &REFUSES_ROWS_CASES {
        assert_eq!(rt; row_refusal(rt.alloc(), row)?, Some(want), "{row:?}");
    }
    Ok(())
}

static REFUSES_WHAT_COMES_AFTER_A_ROW_CASES: [(&[u32], Option<ProfileErr>); 5] = [
    (&[4, 3, 9, 0, 9, 0, 0], None),
    (&[4, 0, 9, 0, 9, 0, 0, 0], Some(ProfileErr::Long)),
    (&[4, 0, 8, 0, 8, 0, 0], Some(ProfileErr::Sum)),
    (&[4, 0, 8, 0, 8, 0, 0, 0], Some(ProfileErr::Sum)),
    (&[4, 0, 9, 1, 8, 0, 0], Some(ProfileErr::Sum)),
];

#[test]
fn refuses_what_comes_after_a_row(rt: HostRuntime) -> Result<(), Fail> {
    for &(row, want) in &REFUSES_WHAT_COMES_AFTER_A_ROW_CASES {
        assert_eq!(rt; row_refusal(rt.alloc(), row)?, want, "{row:?}");
    }
    Ok(())
}

/// How a file of two rows of 2 ^ 64 - 1 steps is refused, with the numbers of the second from its
/// address on. The first row has the address 4, no target, and so many steps.
fn second_refusal(
    alloc: Global,
    executed: [u32; 2],
    row: &[u32],
) -> Result<Option<ProfileErr>, AllocError> {
    let [low, high] = executed;
    let first = [MAGIC, 1, ALL, ALL, 0, 2, 4, 0, low, high, 0, 0, 0];
    let mut numbers = Vec::from_slice(alloc, &first)?;
    numbers.extend_from_slice(row)?;
    Ok(refusal(alloc, &numbers))
}

/// The most that eight bytes count to.
const MOST: [u32; 2] = [ALL, ALL];

/// The steps of the first row, the numbers of the second, and the refusal.
static SECOND_ROWS: [([u32; 2], &[u32], Option<ProfileErr>); 7] = [
    ([ALL - 1, ALL], &[0, 0, 1, 0, 0, 0, 0], None),
    (MOST, &[0, 0, 1, 0, 0, 0, 0], Some(ProfileErr::Sum)),
    (MOST, &[0, 0, ALL, ALL, 0, 0, 0], Some(ProfileErr::Sum)),
    (MOST, &[0, 0, ALL, ALL, 0, 0, 0, 0], Some(ProfileErr::Sum)),
    (MOST, &[4, 4, 1, 0, 0, 0, 0], Some(ProfileErr::Kind(1))),
    (MOST, &[4, 0, 0, 0, 0, 0, 0], Some(ProfileErr::Range(1))),
    (MOST, &[4, 0, 1, 0, 0, 0, ALL], Some(ProfileErr::Twice(1))),
];

#[test]
fn refuses_second_rows(rt: HostRuntime) -> Result<(), Fail> {
    for &(executed, row, want) in &SECOND_ROWS {
        let answer = second_refusal(rt.alloc(), executed, row)?;
        assert_eq!(rt; answer, want, "{row:?}");
    }
    Ok(())
}

/// A row with one target, and one with 1,048,576 of them.
static TOO_MANY_TARGETS: [u32; 21] = [
    MAGIC, 1, 2, 0, 0, 2, //
    4, 0, 1, 0, 0, 0, 1, 8, //
    8, 0, 1, 0, 0, 0, 1_048_576,
];

#[test]
fn targets_are_counted_over_all_rows(rt: HostRuntime) {
    let answer = refusal(rt.alloc(), &TOO_MANY_TARGETS);
    assert_eq!(rt; answer, Some(ProfileErr::TooMany));
}

/// Whether an error has this text.
fn is_text(alloc: Global, err: ProfileErr, text: &str) -> Result<bool, AllocError> {
    let found = format!(in alloc; "{}", err)?;
    Ok(found.as_str() == text)
}

#[test]
fn errors_have_texts(rt: HostRuntime) -> Result<(), Fail> {
    let text = "row 3 has the address of an earlier row";
    assert!(rt; is_text(rt.alloc(), ProfileErr::Twice(3), text)?);
    Ok(())
}
