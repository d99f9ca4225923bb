//! Notes the stores whose bytes a position reads.

ghost use Rattle.std.specs.Prelude.{◌≡◌, ◌+◌, ◌%◌, ◌<◌, ◌≤◌};
ghost use Rattle.indexmap.specs.IndexMap.{values};
ghost use Rattle.profile_data.specs.Keyed.{IsKeyed};
ghost use Rattle.profile_laws.specs.Tally.{marked};
ghost use Rattle.profiler.specs.Noted.{AreNoted, AreMarkedApart, noted_in, noted_by};

use crate::table::Table;
use crate::visit::Visit;
use access_trace::{ByteRange, Shadow};
use rv_step::Memory;

/// How many marks that were noted are remembered.
const PLACES: usize = 64;

/// Marks that were noted, each at the place of its low bits. Loops store by few instructions, which lie
/// together.
type Noted = [u32; PLACES];

// Notes a mark, unless it is remembered.
#[inline(always)]
fn note(table: &mut Table, noted: &mut Noted, mark: u32)
    requires keyed { IsKeyed table.old.rows }
    requires noted { AreNoted noted.old (values table.old.rows) }
    ensures rows { values table.new.rows ≡ marked mark (values table.old.rows) }
    ensures keyed { IsKeyed table.new.rows }
    ensures noted { AreNoted noted.new (values table.new.rows) }
{
    let place = (mark / 4) as usize % PLACES;
    if noted[place] != mark {
        table.mark(mark);
        noted[place] = mark;
    }
}

// Notes each store whose bytes are in a span, where each byte has a mark of its own.
#[inline(always)]
fn read_own<M: Memory>(table: &mut Table, writers: &Shadow<M>, noted: &mut Noted, span: ByteRange)
    requires keyed { IsKeyed table.old.rows }
    requires noted { AreNoted noted.old (values table.old.rows) }
    requires own { AreMarkedApart M.at writers.now span }
    ensures rows { values table.new.rows ≡ noted_in M.at writers.now span (values table.old.rows) }
    ensures keyed { IsKeyed table.new.rows }
    ensures noted { AreNoted noted.new (values table.new.rows) }
{
    for i in 0..span.count {
        let mark = writers.own(span.from.wrapping_add(i));
        note(table, noted, mark);
    }
}

// Notes each store whose bytes are in a span within one word.
#[inline(always)]
fn read_word<M: Memory>(table: &mut Table, writers: &Shadow<M>, noted: &mut Noted, span: ByteRange)
    requires some { 0 < span.count }
    requires within { span.from % 4 + span.count ≤ 4 }
    requires keyed { IsKeyed table.old.rows }
    requires noted { AreNoted noted.old (values table.old.rows) }
    ensures rows { values table.new.rows ≡ noted_in M.at writers.now span (values table.old.rows) }
    ensures keyed { IsKeyed table.new.rows }
    ensures noted { AreNoted noted.new (values table.new.rows) }
{
    match writers.of_word(span) {
        Some(mark) => note(table, noted, mark),
        None => read_own(table, writers, noted, span),
    }
}

// Notes each store whose bytes are in a span, word by word.
#[inline(never)]
fn read_words<M: Memory>(table: &mut Table, writers: &Shadow<M>, span: ByteRange)
    requires { IsKeyed table.old.rows }
    ensures rows { values table.new.rows ≡ noted_in M.at writers.now span (values table.old.rows) }
    ensures keyed { IsKeyed table.new.rows }
{
    let mut noted = [0; PLACES];
    let mut left = span;
    while left.count > 0 {
        let ByteRange { count, from } = left;
        let here = count.min(4 - from % 4);
        read_word(table, writers, &mut noted, ByteRange { count: here, from });
        left = ByteRange {
            count: count - here,
            from: from.wrapping_add(here),
        };
    }
}

/// Notes each store whose bytes are in a span. Most of them lie in one word that one store wrote, and
/// are noted at once.
#[inline(always)]
fn read_back<M: Memory>(table: &mut Table, writers: &Shadow<M>, span: ByteRange)
    requires { IsKeyed table.old.rows }
    ensures rows { values table.new.rows ≡ noted_in M.at writers.now span (values table.old.rows) }
    ensures keyed { IsKeyed table.new.rows }
{
    if span.count == 0 {
        return;
    }
    match writers.common(span) {
        Some(mark) => table.mark(mark),
        None => read_words(table, writers, span),
    }
}

/// Notes each store whose bytes a position fetches or loads.
#[inline(always)]
pub(crate) fn note_reads<M: Memory>(table: &mut Table, writers: &Shadow<M>, visit: &Visit)
    requires { IsKeyed table.old.rows }
    ensures rows { values table.new.rows ≡ noted_by M.at writers.now visit.now (values table.old.rows) }
    ensures keyed { IsKeyed table.new.rows }
{
    let word = ByteRange {
        count: 4,
        from: visit.pc,
    };
    read_back(table, writers, word);
    read_back(table, writers, visit.loads);
}
