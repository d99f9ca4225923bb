//! Distilled images fit their programs, and list what the rules of distilling say of each row of the
//! profile, whatever program the profile was made of.
//!
//! No law here looks at a run. That what is listed does not fail in the run of the profile, and that
//! the image is a valid one, is said in crates of their own.
#![tactic(auto)]

ghost use Rattle.distill_fits.specs.Laws.{DistilledFits, ClaimsAreListed};
ghost use Rattle.distill_fits.specs.Rows.{TwiceRows};

/// The distilled image of any profile fits the program.
pub fn distilled_fits()
    ensures { DistilledFits }
{}

/// What a distilled image lists is what the rules say of each row of the profile.
pub fn claims_are_listed()
    ensures { ClaimsAreListed }
{}

/// Rows that are no valid profile, and whose image does not fit.
pub fn rows_are_worked()
    ensures { TwiceRows }
{}
