//! Answers, and which of two comes first.

ghost use Rattle.certify.specs.Parts.{IsAnswerOfBoth};

/// Whether an image fits a program.
///
/// The word of a note is the program's word at its address, and its body is its slot, or the one after
/// it where the address is an anchor's. The rules, by their numbers:
///
/// 1. `Code`, `Within` and `Span` are listed.
/// 2. An anchor's address has a note, both have the same slot, and that is the anchor's `Fork`.
/// 3. A note's word is done or passed over. It is done where the body does it, or sets the register of
///    a load to the load's one value; it is passed over where the body goes on to the next address, or
///    to the side of a branch that isn't cut, or the note there has the body as its slot.
/// 4. Only these words are passed over: a fence, a dead store, a branch of which a side is cut, and a
///    word that computes what isn't needed behind it.
/// 5. A jump by a register has its targets listed.
/// 6. Live at a note is what its word reads, and what is live behind it and isn't written.
/// 7. Needed at a note is what its word reads, if the word itself is done; what is needed behind it,
///    but for what a word that is done writes; and at an anchor's address what is live.
///
/// Rules 4 and 7 are asked only of notes that keep rule 3.
#[derive(Clone, Copy, Debug, PartialEq, Eq)]
pub enum Fit {
    /// It keeps all seven rules.
    Yes,
    /// It breaks this rule at this address, no lesser rule there, and none at a lesser address.
    No {
        /// The address. Rule 1, which speaks of none, is asked at 0, rule 2 at those of anchors, and
        /// the others at those of notes.
        pc: u32,
        /// The number of the rule, from 1 to 7.
        rule: u32,
    },
}

/// Of two answers, each of which looks at some of the rules, the one that comes first.
pub(crate) fn earlier(a: Fit, b: Fit) -> Fit
    ensures { IsAnswerOfBoth a b result }
{
    match (a, b) {
        (Fit::Yes, _) => b,
        (_, Fit::Yes) => a,
        (Fit::No { pc: p, rule: r }, Fit::No { pc: q, rule: s }) => {
            if p < q {
                a
            } else if q < p {
                b
            } else if r <= s {
                a
            } else {
                b
            }
        }
    }
}
