//! What the profile of a run is, and a tally, kept position by position, that comes to it.
//!
//! A profile is said by positions of a run and by pairs of them. The tally has the rows so far and
//! the latest writer of each byte, so that it needs no position before the present one. Both are said
//! for any pcs at which short writes are counted and read the bytes that they show.
#![tactic(auto)]

ghost use Rattle.profile_laws.specs.Laws.{TallyIsProfile, ProfileIsOne, TallyIsValid, WideStays, StepsAreTaken};
ghost use Rattle.profile_laws.specs.Rows.{RewritingRow, NeverTrueRow, ShowingRows, AsideRow};

/// The tally is the profile of the run, and no other profile is.
pub fn tally_is_profile()
    ensures profile { TallyIsProfile }
    ensures one { ProfileIsOne }
{}

/// A file can hold the profile, unless it has too many rows or targets; a run that has too many after
/// some steps has too many after more.
pub fn tally_is_valid()
    ensures valid { TallyIsValid }
    ensures wide { WideStays }
{}

/// A run takes the steps of a budget, or those to its end.
pub fn steps_are_taken()
    ensures { StepsAreTaken }
{}

/// Small programs have the profiles that stand in the rows.
pub fn rows_are_worked()
    ensures rewriting { RewritingRow }
    ensures showing { ShowingRows }
    ensures never_true { NeverTrueRow }
    ensures aside { AsideRow }
{}
