//! Texts that are written out by hand, and a sink that fails amid a long one.

ghost use Rattle.std.specs.Prelude.{◌≡◌, ◌<◌, length, IfOk};

use assume_list::Verdict;
use cells::{Cell, Differ, End};
use dist_image::{Anchor, Assumption, Image, Note, Slot, empty_image};
use outside::{MemSink, SinkErr, SureSink};
use report::{Word, push_end, push_line, push_words, put_effect, put_image, put_verdict};
use speculation::{Effect, Ending, Why};
use std::alloc::{AllocError, Global};
use std::test::Fail;

/// A slot of every form.
static SLOTS: [Slot; 4] = [
    Slot::Fork { anchor: 0 },
    Slot::Exec {
        origin: 0x1_0010,
        word: 0xFF5F_F06F,
    },
    Slot::Go {
        target: 0xFFFF_FFFC,
    },
    Slot::Fork { anchor: 524_287 },
];

/// An assumption of every form that version 1 knows.
fn assumptions(alloc: Global) -> Result<Vec<Assumption>, AllocError>
    ensures { IfOk result (λ list. length list.items ≡ 8) }
{
    let to = vec![in alloc; 0x1_0000, 0xABCD_EF08]?;
    Ok(vec![in alloc;
        Assumption::Cut {
            at: 0x1_0008,
            taken: true
        },
        Assumption::Cut {
            at: 0x1_000C,
            taken: false
        },
        Assumption::Targets {
            at: 0x1_0010,
            to: Vec::new(alloc)
        },
        Assumption::Targets { at: 0x1_0014, to },
        Assumption::Dead { at: 0 },
        Assumption::Code,
        Assumption::Within,
        Assumption::Span,
    ]?)
}

/// An image of version 1 with a line of every form.
fn every_form(alloc: Global) -> Result<Image, AllocError>
    ensures { IfOk result (λ image. length image.assumptions ≡ 8) }
{
    let anchor = Anchor {
        pc: 0x1_0004,
        slot: 0,
        count: 64,
    };
    let note = Note {
        pc: 0x1_0008,
        slot: 12,
        live: 0xFFFF_FFFE,
        need: 0x60,
    };
    let mut image = empty_image(alloc);
    image.version = 1;
    image.limit = 16_384;
    image.slots = Vec::from_slice(alloc, &SLOTS)?;
    image.anchors = vec![in alloc; anchor]?;
    image.notes = vec![in alloc; note]?;
    image.assumptions = assumptions(alloc)?;
    Ok(image)
}

/// A sink to which an image was put.
fn put(alloc: Global, image: &Image) -> Result<SureSink, SinkErr> {
    let mut sink = SureSink::new(alloc);
    put_image(alloc, &mut sink, image)?;
    Ok(sink)
}

const TEXT: &str = "limit 16384
slot 0 fork 0
slot 1 exec 00010010 ff5ff06f
slot 2 go fffffffc
slot 3 fork 524287
anchor 0 pc 00010004 slot 0 count 64
note 00010008 slot 12 live fffffffe need 00000060
cut 00010008 taken
cut 0001000c fallen
targets 00010010
targets 00010014 00010000 abcdef08
dead 00000000
code
within
span
";

#[test]
fn each_form_has_its_line(rt: HostRuntime) -> Result<(), Fail> {
    let sink = put(rt.alloc(), &every_form(rt.alloc())?)?;
    assert!(rt; sink.bytes() == TEXT.as_bytes());
    Ok(())
}

/// An image with what only version 2 knows.
fn second_version(alloc: Global) -> Result<Image, AllocError>
    ensures { IfOk result (λ image. length image.assumptions ≡ 2) }
{
    let same = Assumption::Same {
        at: 0x1_0008,
        value: 0xFFFF_FF80,
    };
    let mut image = empty_image(alloc);
    image.version = 2;
    image.limit = 4_096;
    image.assumptions = vec![in alloc; Assumption::Span, same]?;
    image.writes = vec![in alloc; 0x1_0014, 0xFFFF_FFFC]?;
    Ok(image)
}

/// What is put of it, with a verdict.
const SECOND_TEXT: &str = "version 2
limit 4096
span
same 00010008 ffffff80
writes 00010014
writes fffffffc
broken 2 same 00010008
";

/// A sink to which it was put, and the verdict that the second of its assumptions is broken.
fn put_with_verdict(alloc: Global) -> Result<SureSink, Fail> {
    let image = second_version(alloc)?;
    let mut sink = put(alloc, &image)?;
    put_broken(alloc, &mut sink, &image, 2, 1)?;
    Ok(sink)
}

#[test]
fn version_2_has_lines_of_its_own(rt: HostRuntime) -> Result<(), Fail> {
    let sink = put_with_verdict(rt.alloc())?;
    assert!(rt; sink.bytes() == SECOND_TEXT.as_bytes());
    Ok(())
}

#[test]
fn an_empty_image_has_its_limit(rt: HostRuntime) -> Result<(), Fail> {
    let sink = put(rt.alloc(), &empty_image(rt.alloc()))?;
    assert!(rt; sink.bytes() == b"limit 16\n".as_slice());
    Ok(())
}

/// An image of many slots, whose lines are put in pieces.
fn many_slots(alloc: Global) -> Result<Image, AllocError> {
    let mut image = empty_image(alloc);
    for number in 0..3_000 {
        image.slots.push(Slot::Go { target: 4 * number })?;
    }
    Ok(image)
}

/// Whether the bytes that are put of many slots are so many, and end in the lines of the last two.
fn has_last_lines(bytes: &[u8]) -> bool {
    bytes.len() == 64_899 && bytes.ends_with(b"slot 2998 go 00002ed8\nslot 2999 go 00002edc\n")
}

/// Whether a sink whose third put fails answers so, and has some of these bytes, from the first on.
fn has_front(alloc: Global, image: &Image, bytes: &[u8]) -> Result<bool, AllocError> {
    let mut sink = MemSink::new(alloc, vec![in alloc; 3]?);
    let answer = put_image(alloc, &mut sink, image);
    Ok(
        answer == Err(SinkErr::Failed)
            && sink.bytes().len() > 32_768
            && bytes.starts_with(sink.bytes()),
    )
}

#[test]
fn a_failing_sink_has_a_front_of_the_text(rt: HostRuntime) -> Result<(), Fail> {
    let image = many_slots(rt.alloc())?;
    let sure = put(rt.alloc(), &image)?;
    assert!(rt; has_last_lines(sure.bytes()));
    assert!(rt; has_front(rt.alloc(), &image, sure.bytes())?);
    Ok(())
}

/// A line, and words behind it.
fn push_line_and_words(out: &mut Vec<u8>) -> Result<(), AllocError> {
    push_line(
        out,
        "a",
        &[
            Word::Label("b"),
            Word::Number(u64::MAX),
            Word::Hex(0x9ABC_DEF0),
        ],
    )?;
    push_words(out, &[Word::Text("c"), Word::Number(0)])
}

/// An end of every kind.
static ENDS: [End; 4] = [
    End::Exit(u32::MAX),
    End::Break,
    End::Illegal(0x12),
    End::Misfetch(0x1_0002),
];

/// Words of every kind.
fn every_word(alloc: Global) -> Result<Vec<u8>, AllocError> {
    let mut out = Vec::new(alloc);
    push_line_and_words(&mut out)?;
    for end in &ENDS {
        push_end(&mut out, *end)?;
    }
    push_words(&mut out, &[Word::Register(31)])?;
    Ok(out)
}

#[test]
fn words_stand_behind_spaces(rt: HostRuntime) -> Result<(), Fail> {
    let out = every_word(rt.alloc())?;
    let text =
        "a b: 18446744073709551615 9abcdef0\n c 0 exit 4294967295 break illegal 00000012 misfetch 00010002 x31";
    assert!(rt; out.as_slice() == text.as_bytes());
    Ok(())
}

/// Squashes at a cell of every kind, ends of tasks, and a commit.
static EFFECTS: [Effect; 7] = [
    Effect::Squashed(Differ {
        cell: Cell::Pc,
        predicted: 0x70,
        found: 0xFFFF_FF90,
    }),
    Effect::Squashed(Differ {
        cell: Cell::Reg(5),
        predicted: 0x70,
        found: 0xFFFF_FF90,
    }),
    Effect::Squashed(Differ {
        cell: Cell::Byte(0x1_0012),
        predicted: 0x70,
        found: 0xFFFF_FF90,
    }),
    Effect::Ended(End::Misfetch(0x1_0002)),
    Effect::Halted(Why::Spent),
    Effect::Done(Ending::Full),
    Effect::Committed {
        steps: 16_384,
        dropped: 63,
    },
];

/// The line of each of them.
const EFFECT_LINES: &str = "squashed pc predicted 00000070 found ffffff90
squashed x5 predicted 00000070 found ffffff90
squashed byte 00010012 predicted 00000070 found ffffff90
ended misfetch 00010002
halted spent
done full
committed 16384 dropped 63
";

#[test]
fn effects_have_lines(rt: HostRuntime) -> Result<(), Fail> {
    let mut sink = SureSink::new(rt.alloc());
    for effect in &EFFECTS {
        put_effect(rt.alloc(), &mut sink, effect)?;
    }
    assert!(rt; sink.bytes() == EFFECT_LINES.as_bytes());
    Ok(())
}

/// Puts the verdict that an assumption of an image is broken at a position.
fn put_broken(
    alloc: Global,
    sink: &mut SureSink,
    image: &Image,
    position: u64,
    which: u32,
) -> Result<(), SinkErr>
    requires { which < length image.now.assumptions }
{
    put_verdict(alloc, sink, image, &Verdict::Broken { position, which })
}

/// A sink to which a verdict of every kind was put.
fn put_verdicts(alloc: Global) -> Result<SureSink, Fail> {
    let image = every_form(alloc)?;
    let mut sink = SureSink::new(alloc);
    put_verdict(alloc, &mut sink, &image, &Verdict::Met(1_000_000_000_000))?;
    put_broken(alloc, &mut sink, &image, 7, 1)?;
    put_broken(alloc, &mut sink, &image, 0, 3)?;
    put_broken(alloc, &mut sink, &image, 41, 7)?;
    Ok(sink)
}

#[test]
fn verdicts_have_lines(rt: HostRuntime) -> Result<(), Fail> {
    let sink = put_verdicts(rt.alloc())?;
    let text = "met 1000000000000
broken 7 cut 0001000c
broken 0 targets 00010014
broken 41 span
";
    assert!(rt; sink.bytes() == text.as_bytes());
    Ok(())
}

#[test]
fn an_effect_at_a_failing_sink(rt: HostRuntime) -> Result<(), Fail> {
    let alloc = rt.alloc();
    let mut sink = MemSink::new(alloc, vec![in alloc; 2]?);
    put_effect(alloc, &mut sink, &Effect::Forked(1))?;
    let answer = put_effect(alloc, &mut sink, &Effect::Idle);
    assert_eq!(rt; answer, Err(SinkErr::Failed));
    put_effect(alloc, &mut sink, &Effect::Started(4))?;
    assert_eq!(rt; sink.bytes(), b"forked 1\nstarted 00000004\n".as_slice());
    Ok(())
}
