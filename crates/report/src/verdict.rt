//! The line of a verdict on a run.
ghost use Rattle.std.specs.Prelude.{◌≡◌, ◌++◌, Some, OnOk};
ghost use Rattle.dist_image.specs.Image.{premise};
ghost use Rattle.report.specs.Puts.{PutsText};
ghost use Rattle.report.specs.Verdict.{broken_line, verdict_line, IsOfList};

use crate::show::{kind, push_place};
use crate::text::{Word, push_line, push_words};
use assume_list::Verdict;
use dist_image::{Assumption, Image};
use outside::{Sink, SinkErr};
use std::alloc::{AllocError, Global};

// Puts the line of a position at which an assumption fails.
fn push_broken(out: &mut Vec<u8>, position: u64, assumption: &Assumption) -> Result<(), AllocError>
    ensures { OnOk result (out.new.items
        ≡ out.old.items ++ broken_line position (Some (premise assumption.now))) }
{
    out.extend_from_slice(b"broken")?;
    push_words(out, &[Word::Number(position), Word::Text(kind(assumption))])?;
    push_place(out, assumption)?;
    out.extend_from_slice(b"\n")
}

/// Puts the line of a verdict on a run and an image at the end. The image has to list the assumption that it
/// tells of.
pub fn push_verdict(out: &mut Vec<u8>, i: &Image, v: Verdict) -> Result<(), AllocError>
    requires { IsOfList i.now.assumptions v }
    ensures { OnOk result (out.new.items ≡ out.old.items ++ verdict_line i.now v) }
{
    match v {
        Verdict::Met(steps) => push_line(out, "met", &[Word::Number(steps)]),
        Verdict::Broken { position, which } => {
            push_broken(out, position, &i.assumptions[which as usize])
        }
    }
}

/// Puts the line of a verdict on a run and an image: how many steps meet what the image lists, or the
/// first position at which an assumption fails, and that assumption without what it says of its
/// address. The image has to list it.
///
/// # Errors
///
/// `Failed` only where the sink failed, and `Memory`. A part of the line may have been put then.
pub fn put_verdict<O: Sink>(alloc: Global, o: &mut O, i: &Image, v: &Verdict) -> Result<(), SinkErr>
    requires { IsOfList i.now.assumptions v.now }
    ensures { PutsText (O.told o.old) (O.told o.new) (O.faults o.old) (O.faults o.new)
        (verdict_line i.now v.now) result }
{
    let mut out = Vec::new(alloc);
    match push_verdict(&mut out, i, *v) {
        Ok(()) => o.put(alloc, &out),
        Err(_) => Err(SinkErr::Memory),
    }
}
