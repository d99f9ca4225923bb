//! Events and programs that numbers give.

use event_list::{Event, seeded};
use std::test::Fail;
use trial::make;

/// The first events of number 2 over four slaves.
static EVENTS: [Event; 14] = [
    Event::Slave(2),
    Event::Commit,
    Event::Master,
    Event::Master,
    Event::Master,
    Event::Restart,
    Event::Master,
    Event::Slave(3),
    Event::Slave(0),
    Event::Restart,
    Event::Master,
    Event::Slave(3),
    Event::Slave(3),
    Event::Restart,
];

/// The block that number 0 makes first.
static BLOCK_OF_0: [u32; 11] = [
    0x0080_02B7,
    0x0280_0313,
    0x02A2_A623,
    0x00C7_4533,
    0x02F5_05B3,
    0x02B6_8633,
    0x02D7_06B3,
    0x02C6_86B3,
    0x0003_4463,
    0xFFF3_0313,
    0xFE03_10E3,
];

/// The block that number 3 makes first.
static BLOCK_OF_3: [u32; 9] = [
    0x0080_02B7,
    0x01C0_0313,
    0x00D7_C633,
    0x02E6_05B3,
    0x02C2_A583,
    0x0142_A583,
    0x0003_4463,
    0xFFF3_0313,
    0xFE03_14E3,
];

/// The end of each program.
static ENDING: [u32; 14] = [
    0x00A2_A023,
    0x00B2_A223,
    0x00C2_A423,
    0x00D2_A623,
    0x00E2_A823,
    0x00F2_AA23,
    0x0010_0513,
    0x0002_8593,
    0x0180_0613,
    0x0400_0893,
    0x0000_0073,
    0x0000_0513,
    0x05D0_0893,
    0x0000_0073,
];

#[test]
fn a_number_gives_its_events(rt: HostRuntime) {
    let mut draws = seeded(2, 4);
    for &event in &EVENTS {
        assert_eq!(rt; draws.next_event(), event);
    }
}

#[test]
fn a_number_makes_its_program(rt: HostRuntime) -> Result<(), Fail> {
    let cases: [(u64, &[u32]); 2] = [(0, &BLOCK_OF_0), (3, &BLOCK_OF_3)];
    for (seed, block) in cases {
        let mut words = Vec::new(rt.alloc());
        for word in block {
            words.extend_from_slice(&word.to_le_bytes())?;
        }
        for word in &ENDING {
            words.extend_from_slice(&word.to_le_bytes())?;
        }
        let file = make(rt.alloc(), seed, 1)?;
        assert_eq!(rt; file.len(), 84 + words.len());
        let (start, rest) = (&file[..4], &file[84..]);
        assert_eq!(rt; (start, rest), (b"\x7fELF".as_slice(), words.as_slice()));
    }
    Ok(())
}
