//! Distilling is exact: what the rules assume of a profile does not fail in the run that the profile
//! is of, where `rare` is 0, and so what is listed by the image that is distilled of it holds there.
//!
//! A side of a branch is cut where no position had it, the targets of a jump by a register are all to
//! which it went, and a dead store is one of which nothing was read. So the laws hold position by
//! position, for every start of a run and every number of steps. `Span` has no part in them: it looks
//! past the steps that were counted.
#![tactic(auto)]

ghost use Rattle.distill_exact.specs.Images.{DistilledExactly};
ghost use Rattle.distill_exact.specs.Laws.{DistillsExactly, ListsFollowRules};
ghost use Rattle.distill_exact.specs.Rows.{AssumedRows, RareRows, WithinRows};

/// With `rare` 0, no Cut, Targets or Dead that the rules make of the profile of a run's first n steps
/// fails at a position before n, nor does Code, nor Within where no row is changed. Of the last of these
/// positions Within says so only where the run has ended after n steps. The profile may have the mark
/// for short writes or not; a task may print where the rules say so.
pub fn distilling_is_exact()
    ensures { DistillsExactly }
{}

/// What stands in a distiller's lists of cut branches and dead stores stands there by the rules, and each
/// analysed instruction has the program's word.
pub fn lists_follow_rules()
    ensures { ListsFollowRules }
{}

/// What the rules assume of small programs, and assumptions that fail where a premise is wanting.
pub fn rows_are_worked()
    ensures assumed { AssumedRows }
    ensures rare { RareRows }
    ensures within { WithinRows }
{}

/// Of the image that is distilled of the profile of a run's first n steps, with either mark and `rare` 0,
/// no Cut, Targets, Dead or Code fails at a position before n, nor does Within where no row is changed.
/// Of the last of these positions Within says so only where the run has ended after n steps. No Same
/// fails before n, where each value that was given is what was loaded.
pub fn images_are_exact()
    ensures { DistilledExactly }
{}
