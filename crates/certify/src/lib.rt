//! Whether an image fits a program, or which rule it breaks first.
//!
//! Nothing about an image is trusted: whoever made it, a run's result is the same. Of an image that
//! fits, tasks are squashed only where a run breaks what the image assumes of it. So makers of images
//! can test here, once for all runs, what they owe; what is left is the list of assumptions.
#![tactic(auto)]

ghost use Rattle.std.specs.Prelude.{ℕ};
ghost use Rattle.dist_image.specs.Image.{IsImage};
ghost use Rattle.cuts.specs.Words.{word_in};
ghost use Rattle.certify.specs.Answers.{IsAnswer, RulesAreFitting, AnswersAreOne};
ghost use Rattle.certify.specs.Parts.{IsAnswerOf, on_list, on_anchors, on_notes};

mod assumed;
mod fit;
mod masks;
mod passing;
mod registers;
mod rules;
mod way;

use crate::assumed::lists_whole;
use crate::fit::earlier;
use crate::rules::{broken_rule, is_forked};
use dist_image::Image;
use elf_reader::{Program, word_at};
pub use fit::Fit;

/// Whether an image fits a program: `Yes` exactly where it keeps all rules, else the least address at
/// which a rule is broken, with the least rule that is broken there.
///
/// Takes no memory. The time is that of going once through the anchors, the notes and the targets of
/// the image, with a few binary searches at each.
pub fn certify(p: &Program, image: &Image) -> Fit
    requires { IsImage image.now }
    ensures { IsAnswer (word_in p.now) image.now result }
{
    let whole = list_fits(image);
    let anchors = anchors_fit(image);
    let notes = notes_fit(p, image);
    earlier(earlier(whole, anchors), notes)
}

/// The answer to the rule on what is listed.
fn list_fits(image: &Image) -> Fit
    requires { IsImage image.now }
    ensures { (word : ℕ → ℕ) → IsAnswerOf word image.now on_list result }
{
    if lists_whole(image) {
        Fit::Yes
    } else {
        Fit::No { pc: 0, rule: 1 }
    }
}

/// The answer to the rule on anchors.
fn anchors_fit(image: &Image) -> Fit
    requires { IsImage image.now }
    ensures { (word : ℕ → ℕ) → IsAnswerOf word image.now on_anchors result }
{
    for number in 0..image.anchors.len() {
        let anchor = image.anchors[number];
        if !is_forked(image, number as u32, &anchor) {
            return Fit::No {
                pc: anchor.pc,
                rule: 2,
            };
        }
    }
    Fit::Yes
}

/// The answer to the rules on notes.
fn notes_fit(p: &Program, image: &Image) -> Fit
    requires { IsImage image.now }
    ensures { IsAnswerOf (word_in p.now) image.now on_notes result }
{
    for number in 0..image.notes.len() {
        let note = image.notes[number];
        if let Some(rule) = broken_rule(image, &note, word_at(p, note.pc)) {
            return Fit::No { pc: note.pc, rule };
        }
    }
    Fit::Yes
}

/// An image fits exactly where no rule is broken at any address.
pub fn rules_are_fitting()
    ensures { RulesAreFitting }
{}

/// For a program and an image there is one answer.
pub fn answers_are_one()
    ensures { AnswersAreOne }
{}
