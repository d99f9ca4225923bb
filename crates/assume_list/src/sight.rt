//! What is looked at of a position of the run, and which assumption fails there.

ghost use Rattle.std.specs.Prelude.{◌≡◌, ℕ, ◌+◌, ◌*◌, ◌<◌, ◌≤◌, ◌^◌, not, nat_eq, false, Some, All, map, length};
ghost use Rattle.std.specs.List.{list_any};
ghost use Rattle.std.specs.List.Sorted.{IsStrictlyIncreasing};
ghost use Rattle.dist_image.specs.Image.{premise, IsPremise, IsImage};
ghost use Rattle.fitting.specs.Claims.{among};
ghost use Rattle.fitting.specs.Fits.{is_analysed};
ghost use Rattle.image_semantics.specs.World.{count_of};
ghost use Rattle.assumption_laws.specs.Looks.{is_other, fails_by, first_from};
ghost use Rattle.assume_list.specs.Marks.{dead_in};
ghost use Rattle.assume_list.specs.Sights.{seen, is_code, is_within, is_same, Tells, NoCutFails, NoTargetsFail, NoValueFails, whole_fails};

use dist_image::{Assumption, Image, KIND, anchor_at, keyed, lists, slot_of};

/// Whether an image lists the assumptions that speak of no single pc, but for Span, and whether it lists one of a value that a
/// load has.
#[derive(Clone, Copy)]
pub(crate) struct Listed {
    pub code: bool,
    pub within: bool,
    pub same: bool,
}

/// What is looked at of a position, beside the marks of the bytes that are read there.
#[derive(Clone, Copy)]
pub(crate) struct Sight {
    pub pc: u32,
    /// The instruction is a call that no task does, or ends the run.
    pub stops: bool,
    /// Whether the condition of a branch holds, where the instruction is a branch.
    pub side: Option<bool>,
    /// The instruction is a jump by a register.
    pub jumps: bool,
    /// The word isn't the program's.
    pub changed: bool,
    pub analysed: bool,
    /// The pc afterwards.
    pub next: u32,
    /// The pc afterwards is analysed.
    pub stays: bool,
    /// What a load loads, extended to 32 bits.
    pub load: Option<u32>,
}

// Whether a number is in a list whose numbers rise.
fn is_among(ns: &[u32], n: u32) -> bool
    requires { IsStrictlyIncreasing ns.now }
    ensures { result ≡ among ns.now n }
{
    ns.binary_search(&n).is_ok()
}

/// Whether an address is analysed: it has a note.
pub(crate) fn is_analysed(image: &Image, pc: u32) -> bool
    requires { IsImage image.now }
    ensures { result ≡ is_analysed image.now pc }
{
    slot_of(image, pc).is_some()
}

/// The count of the anchor at an address, if one is there.
pub(crate) fn count_of(image: &Image, pc: u32) -> Option<u32>
    requires { IsImage image.now }
    ensures count { result ≡ count_of image.now pc }
    ensures some { (n : ℕ) → result ≡ Some n → 1 ≤ n }
{
    let place = anchor_at(image, pc)?;
    Some(image.anchors.get(place as usize)?.count)
}

/// Whether a byte among these was written last by a store at that address. A store's mark is 1 more than its address.
fn is_marked(marks: &[u32], at: u32) -> bool
    ensures { result ≡ among marks.now (at + 1) }
{
    for m in marks {
        if *m != 0 && *m - 1 == at {
            return true;
        }
    }
    false
}

// Whether another value than this one is loaded.
fn is_other(value: u32, load: Option<u32>) -> bool
    ensures { result ≡ is_other value load }
{
    match load {
        None => false,
        Some(loaded) => loaded != value,
    }
}

// Whether an assumption other than Span fails.
fn fails(sight: &Sight, marks: &[u32], x: &Assumption) -> bool
    requires { IsPremise (premise x.now) }
    ensures { result ≡ fails_by (seen sight.now marks.now) (premise x.now) }
{
    match x {
        Assumption::Cut { at, taken } => {
            sight.pc == *at && !sight.stops && sight.side == Some(*taken)
        }
        Assumption::Targets { at, to } => {
            sight.pc == *at && !sight.stops && sight.jumps && !is_among(to, sight.next)
        }
        Assumption::Dead { at } => is_marked(marks, *at),
        Assumption::Code => sight.analysed && sight.changed,
        Assumption::Within => sight.analysed && !sight.stops && !sight.stays,
        Assumption::Span => false,
        Assumption::Same { at, value } => sight.pc == *at && is_other(*value, sight.load),
    }
}

// The number of the first of a list that fails.
#[inline(never)]
fn first_of(sight: &Sight, marks: &[u32], xs: &[Assumption]) -> Option<u32>
    requires few { length xs.now ≤ 1_048_576 }
    requires each { All IsPremise (map premise xs.now) }
    ensures { result ≡ first_from (fails_by (seen sight.now marks.now)) 0 (map premise xs.now) }
{
    for k in 0..xs.len() {
        if fails(sight, marks, &xs[k]) {
            return Some(k as u32);
        }
    }
    None
}

/// Whether a store at an address is claimed dead.
pub(crate) fn claims_dead(image: &Image, pc: u32) -> bool
    requires { IsImage image.now }
    ensures { result ≡ not (nat_eq (dead_in image.now.assumptions pc) 0) }
{
    lists(image, 2 * KIND + u64::from(pc))
}

// Whether the assumption with a key fails, where one is listed.
#[inline(never)]
fn keyed_fails(sight: &Sight, marks: &[u32], image: &Image, key: u64) -> bool
    requires { IsImage image.now }
    ensures { Tells image.now (seen sight.now marks.now) key result }
{
    match keyed(image, key) {
        Some(x) => fails(sight, marks, x),
        None => false,
    }
}

// Whether a cut fails.
fn cut_fails(sight: &Sight, marks: &[u32], image: &Image) -> bool
    requires { IsImage image.now }
    ensures { result ≡ false → NoCutFails image.now (seen sight.now marks.now) }
{
    if sight.stops || sight.side.is_none() {
        return false;
    }
    keyed_fails(sight, marks, image, u64::from(sight.pc))
}

// Whether the targets of a jump fail.
fn targets_fail(sight: &Sight, marks: &[u32], image: &Image) -> bool
    requires { IsImage image.now }
    ensures { result ≡ false → NoTargetsFail image.now (seen sight.now marks.now) }
{
    if sight.stops || !sight.jumps {
        return false;
    }
    keyed_fails(sight, marks, image, KIND + u64::from(sight.pc))
}

// Whether the value of a load fails, where one is listed at all.
fn value_fails(sight: &Sight, marks: &[u32], image: &Image, listed: bool) -> bool
    requires image { IsImage image.now }
    requires listed { listed ≡ list_any is_same image.now.assumptions }
    ensures { result ≡ false → NoValueFails image.now (seen sight.now marks.now) }
{
    let Sight { pc, load, .. } = *sight;
    if !listed || load.is_none() {
        return false;
    }
    keyed_fails(sight, marks, image, 6 * KIND + u64::from(pc))
}

// Whether one that speaks of no single pc fails.
fn whole_fails(sight: &Sight, listed: Listed) -> bool
    ensures { result ≡ whole_fails sight.now listed }
{
    sight.analysed
        && (sight.changed && listed.code || !sight.stops && !sight.stays && listed.within)
}

/// The number of the first assumption other than Span that fails. The list is gone through only where one does.
pub(crate) fn first_failing(
    sight: &Sight,
    marks: &[u32],
    image: &Image,
    listed: Listed,
) -> Option<u32>
    requires image { IsImage image.now }
    requires code { listed.code ≡ list_any is_code image.now.assumptions }
    requires within { listed.within ≡ list_any is_within image.now.assumptions }
    requires same { listed.same ≡ list_any is_same image.now.assumptions }
    ensures { result ≡ first_from (fails_by (seen sight.now marks.now)) 0 image.now.assumptions }
{
    if marks.is_empty()
        && !whole_fails(sight, listed)
        && !cut_fails(sight, marks, image)
        && !targets_fail(sight, marks, image)
        && !value_fails(sight, marks, image, listed.same)
    {
        return None;
    }
    first_of(sight, marks, &image.assumptions)
}

/// Whether an image lists that no analysed instruction is changed.
fn lists_code(image: &Image) -> bool
    requires { IsImage image.now }
    ensures { result ≡ list_any is_code image.now.assumptions }
{
    lists(image, 3 * KIND)
}

/// Whether an image lists that the run does not leave the analysed addresses.
fn lists_within(image: &Image) -> bool
    requires { IsImage image.now }
    ensures { result ≡ list_any is_within image.now.assumptions }
{
    lists(image, 4 * KIND)
}

// Whether an entry of a list is Same.
fn lists_same(xs: &[Assumption]) -> bool
    ensures { result ≡ list_any is_same (map premise xs.now) }
{
    for x in xs {
        if matches!(x, Assumption::Same { .. }) {
            return true;
        }
    }
    false
}

/// Which assumptions of no single pc are listed, and whether one of a load's value is.
pub(crate) fn look_up(image: &Image) -> Listed
    requires { IsImage image.now }
    ensures code { result.code ≡ list_any is_code image.now.assumptions }
    ensures within { result.within ≡ list_any is_within image.now.assumptions }
    ensures same { result.same ≡ list_any is_same image.now.assumptions }
{
    Listed {
        code: lists_code(image),
        within: lists_within(image),
        same: lists_same(&image.assumptions),
    }
}
