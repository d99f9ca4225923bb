//! The marks of the bytes that an instruction reads.

ghost use Rattle.std.specs.Prelude.{[], ◌∷◌, ◌++◌, OnOk};
ghost use Rattle.assume_list.specs.Marks.{HaveSame, marks_in, marks_read};

use access_trace::{ByteRange, Shadow};
use memory::Memory;
use std::alloc::AllocError;

// Appends a mark, unless it is 0.
#[inline(always)]
fn append_one(mark: u32, to: &mut Vec<u32>) -> Result<(), AllocError>
    ensures { OnOk result (HaveSame to.new.items (to.old.items ++ mark ∷ [])) }
{
    if mark == 0 {
        return Ok(());
    }
    to.push(mark)?;
    Ok(())
}

// Appends the mark of each byte of a span, but for 0.
#[inline(never)]
fn append_each<M: Memory>(
    shadow: &Shadow<M>,
    span: ByteRange,
    to: &mut Vec<u32>,
) -> Result<(), AllocError>
    ensures { OnOk result (HaveSame to.new.items (to.old.items ++ marks_in M.at shadow.now span)) }
{
    for i in 0..span.count {
        append_one(shadow.get(span.from.wrapping_add(i)), to)?;
    }
    Ok(())
}

// Appends the marks of a span, but for 0. A mark that is seen at once to be that of each byte is appended once.
#[inline(always)]
fn append<M: Memory>(
    shadow: &Shadow<M>,
    span: ByteRange,
    to: &mut Vec<u32>,
) -> Result<(), AllocError>
    ensures { OnOk result (HaveSame to.new.items (to.old.items ++ marks_in M.at shadow.now span)) }
{
    if span.count == 0 {
        return Ok(());
    }
    match shadow.common(span) {
        Some(mark) => append_one(mark, to),
        None => append_each(shadow, span, to),
    }
}

/// The marks of the bytes that are fetched and loaded, without those that are 0.
pub(crate) fn read_marks<M: Memory>(
    marks: &Shadow<M>,
    pc: u32,
    loads: ByteRange,
    read: &mut Vec<u32>,
) -> Result<(), AllocError>
    ensures { OnOk result (HaveSame read.new.items (marks_read M.at marks.now pc loads)) }
{
    read.clear();
    append(marks, ByteRange { count: 4, from: pc }, read)?;
    append(marks, loads, read)
}
