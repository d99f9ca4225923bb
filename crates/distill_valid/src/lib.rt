//! Distilled images are valid: their entries are in their ranges, their tables in their orders, and
//! no table has more entries than an image may.
//!
//! The law holds for any program and any valid profile. That an analysed instruction lays at most two
//! slots, and lists at most one assumption with the targets of its own row, keeps the tables in their
//! bounds.
#![tactic(auto)]

ghost use Rattle.distill_valid.specs.Laws.{DistilledIsImage};

/// The distilled image of any profile is a valid image, where the task limit is in its range.
pub fn distilled_is_image()
    ensures { DistilledIsImage }
{}
