//! What an image assumes of an address, and whether it lists what speaks of no single one.

ghost use Rattle.std.specs.Prelude.{◌≡◌, ◌↔◌, IsTrue};
ghost use Rattle.std.specs.Option.{option_map, option_copied};
ghost use Rattle.dist_image.specs.Image.{Code, Within, Span, premise, IsImage};
ghost use Rattle.fitting.specs.Claims.{claims, same_at, as_cut, as_targets, as_same};
ghost use Rattle.fitting.specs.Fits.{IsListed};
ghost use Rattle.certify.specs.Answers.{AreListed};
ghost use Rattle.certify.specs.Found.{claim};

use dist_image::{Assumption, Image, KIND, keyed, lists};

/// The side that an assumption cuts, if it cuts one.
fn cut_of(x: &Assumption) -> Option<bool>
    ensures { result ≡ option_map claim (as_cut (premise x.now)) }
{
    match x {
        Assumption::Cut { taken, .. } => Some(*taken),
        _ => None,
    }
}

/// The targets that an assumption lists, if it lists them.
fn targets_of(x: &Assumption) -> Option<&[u32]>
    ensures { option_copied result ≡ option_map claim (as_targets (premise x.now)) }
{
    match x {
        Assumption::Targets { to, .. } => Some(to.as_slice()),
        _ => None,
    }
}

/// The value that an assumption says a load has, if it is about a load.
fn value_of(x: &Assumption) -> Option<u32>
    ensures { result ≡ option_map claim (as_same (premise x.now)) }
{
    match x {
        Assumption::Same { value, .. } => Some(*value),
        _ => None,
    }
}

/// The side that is cut of the branch at an address, if one is: true for the taken side.
pub(crate) fn cut_at(image: &Image, pc: u32) -> Option<bool>
    requires { IsImage image.now }
    ensures { result ≡ (claims image.now).cut pc }
{
    cut_of(keyed(image, u64::from(pc))?)
}

/// The targets of the jump by a register at an address, if they are listed.
pub(crate) fn targets_at(image: &Image, pc: u32) -> Option<&[u32]>
    requires { IsImage image.now }
    ensures { option_copied result ≡ (claims image.now).targets pc }
{
    targets_of(keyed(image, KIND + u64::from(pc))?)
}

/// Whether the store at an address is listed as dead.
pub(crate) fn is_dead(image: &Image, pc: u32) -> bool
    requires { IsImage image.now }
    ensures { result ≡ (claims image.now).dead pc }
{
    lists(image, 2 * KIND + u64::from(pc))
}

/// The one value that the load at an address is taken to load, if there is one.
pub(crate) fn value_at(image: &Image, pc: u32) -> Option<u32>
    requires { IsImage image.now }
    ensures { result ≡ same_at image.now pc }
{
    value_of(keyed(image, 6 * KIND + u64::from(pc))?)
}

/// Whether an image lists that no analysed instruction is changed.
fn lists_code(image: &Image) -> bool
    requires { IsImage image.now }
    ensures { IsTrue result ↔ IsListed image.now.assumptions Code }
{
    lists(image, 3 * KIND)
}

/// Whether an image lists that the run does not leave the analysed addresses.
fn lists_within(image: &Image) -> bool
    requires { IsImage image.now }
    ensures { IsTrue result ↔ IsListed image.now.assumptions Within }
{
    lists(image, 4 * KIND)
}

/// Whether an image lists that the run comes from anchor to anchor within the task limit.
fn lists_span(image: &Image) -> bool
    requires { IsImage image.now }
    ensures { IsTrue result ↔ IsListed image.now.assumptions Span }
{
    lists(image, 5 * KIND)
}

/// Whether those assumptions are listed that speak of no single address.
pub(crate) fn lists_whole(image: &Image) -> bool
    requires { IsImage image.now }
    ensures { IsTrue result ↔ AreListed image.now }
{
    lists_code(image) && lists_within(image) && lists_span(image)
}
