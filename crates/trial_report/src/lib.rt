//! Trials: a number makes a program, and all parts are tried on it.
//!
//! The program is profiled, distilled and checked. Then a machine that speculates runs it beside its
//! image, by events that are drawn too.
#![tactic(auto)]

ghost use Rattle.std.specs.Prelude.{◌≡◌, ◌≤◌, ◌^◌, [], IfOk, IsErrOf};
ghost use Rattle.profile_data.specs.Profile.{Profiled};
ghost use Rattle.profile_laws.specs.Profiles.{IsWide};
ghost use Rattle.distill_rules.specs.Analysed.{analysed};
ghost use Rattle.trial_report.specs.Trial.{IsTrial, IsProfileMade};

mod error;
mod making;
mod running;

use crate::making::{make_image, make_profile, make_program};
use crate::running::tell;
pub use error::TrialErr;
use std::alloc::Global;

/// The lines that a trial comes to.
///
/// `seed` is at most 10^12, and `size` is 1 to 10,000. The events are drawn from the number after
/// `seed`, and there are 50,000,000 at most. The run is profiled and checked for 1,000,000,000 steps.
/// Whether the check is met changes nothing but its line.
///
/// # Errors
///
/// `Wide` where the run's profile is too wide, `Empty` where nothing of it is analysed, or `Memory`.
pub fn trial_text(alloc: Global, seed: u64, size: u32) -> Result<Vec<u8>, TrialErr>
    requires seed { seed ≤ 10 ^ 12 }
    requires some { 1 ≤ size }
    requires few { size ≤ 10_000 }
    ensures done { IfOk result (λ text. (f : Profiled) × IsTrial seed size f text.items) }
    ensures wide { IsErrOf result TrialErr.Wide → (f : Profiled) → IsProfileMade seed size f → IsWide f.rows }
    ensures empty { IsErrOf result TrialErr.Empty →
        (f : Profiled) × IsProfileMade seed size f × (IsWide f.rows → ⊥) × (analysed f.rows ≡ []) }
{
    let made = make_program(alloc, seed, size)?;
    let profile = make_profile(alloc, &made.program)?;
    let image = make_image(alloc, &made.program, &profile)?;
    let steps = profile.steps();
    Ok(tell(alloc, seed + 1, &made.program, made.words, steps, image)?)
}
