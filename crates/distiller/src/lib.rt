//! Distils a program: makes the image that a profile of it asks for.
//!
//! Nothing about a profile is trusted: it need not be that of the program. What an image says can
//! change no result, only how often a task is squashed.
#![tactic(auto)]

ghost use Rattle.std.specs.Prelude.{◌≡◌, ◌≢◌, ℕ, Bool, List, [], All, IfOk, IsErrOf};
ghost use Rattle.distill_rules.specs.Analysed.{analysed};
ghost use Rattle.dist_image.specs.Image.{IsImage};
ghost use Rattle.seq_machine.specs.Parts.{start_of};
ghost use Rattle.fitting.specs.Fits.{Fits};
ghost use Rattle.profile_laws.specs.Profiles.{with_mark, IsProfileOf};
ghost use Rattle.layout_rules.specs.Images.{distilled};
ghost use Rattle.fitting.specs.Fails.{IsLoaded};
ghost use Rattle.distill_exact.specs.Images.{ListHolds};
ghost use Rattle.cuts.specs.Words.{word_in};
ghost use Rattle.distiller.specs.Asked.{IsInRange};
ghost use Rattle.distiller.specs.Given.{loads, AreGiven};

mod error;
mod given;

use crate::given::given_cuts;
use dist_image::Image;
use elf_reader::Program;
pub use error::DistillErr;
use flow_graph::graph;
use fork_layout::{lay_out, place};
pub use layout_rules::Options;
use liveness::solve;
use profile_data::Profile;
use std::alloc::Global;

/// The image of a program, by a profile of it.
///
/// The instructions that were executed, and never as another word than the program's, are laid in
/// the order of their addresses, without what was cut, what nobody reads, and what computes only
/// values that nobody needs. The image lists what it assumes of a run, and the calls that a task
/// does: those of which each execution was a short write. With such a call it has version 2, and a
/// task takes at most 4,096 steps.
///
/// # Errors
///
/// `Empty` exactly where no instruction was executed as the program's own word, or `Memory`.
pub fn distill(alloc: Global, p: &Program, f: &Profile, o: &Options) -> Result<Image, DistillErr>
    requires { IsInRange o.now }
    ensures exact { IfOk result (λ image. image ≡ distilled (word_in p.now) p.now.entry f.now [] o.now) }

    // It is a valid image, and fits the program, whichever program's profile it is.
    ensures image { IfOk result IsImage }
    ensures fits { IfOk result (Fits (word_in p.now)) }

    // What it lists of single addresses holds in the run that the profile is of, with either mark, where
    // nothing that came is cut.
    ensures holds { IfOk result (λ image. (calls : Bool) (input : List ℕ) (n : ℕ)
        → IsProfileOf (with_mark calls) (start_of p.now input) n f.now
        → o.now.rare ≡ 0 → ListHolds (start_of p.now input) image f.now.rows n) }

    // There is an image only of a profile in which something is analysed.
    ensures some { IfOk result (λ image. analysed f.now.rows ≢ []) }
    ensures empty { IsErrOf result DistillErr.Empty → analysed f.now.rows ≡ [] }
{
    distill_same(alloc, p, f, &[], o)
}

/// The image of a program, by a profile of it, where these loads load one value each. Their addresses
/// rise, and one word sets a register to each value.
///
/// A pair counts where an analysed load of another register than register 0 is at its address. Such
/// a load, if it is kept, is laid as the word that sets its register, and its value is listed. With
/// one of them too the image has version 2, and a task takes at most 4,096 steps.
///
/// # Errors
///
/// As those of [`distill`].
pub fn distill_same(
    alloc: Global,
    p: &Program,
    f: &Profile,
    same: &[(u32, u32)],
    o: &Options,
) -> Result<Image, DistillErr>
    requires range { IsInRange o.now }
    requires given { AreGiven same.now }
    ensures exact { IfOk result (λ image. image
        ≡ distilled (word_in p.now) p.now.entry f.now (loads (word_in p.now) f.now.rows same.now) o.now) }

    // It is a valid image, and fits the program, whichever program's profile it is.
    ensures image { IfOk result IsImage }
    ensures fits { IfOk result (Fits (word_in p.now)) }

    // What it lists of single addresses holds in the run that the profile is of, with either mark, where
    // nothing that came is cut and the values are those that the run loads.
    ensures holds { IfOk result (λ image. (calls : Bool) (input : List ℕ) (n : ℕ)
        → IsProfileOf (with_mark calls) (start_of p.now input) n f.now
        → All (IsLoaded (start_of p.now input) n) same.now → o.now.rare ≡ 0 → ListHolds (start_of p.now input) image f.now.rows n) }

    // There is an image only of a profile in which something is analysed.
    ensures some { IfOk result (λ image. analysed f.now.rows ≢ []) }
    ensures empty { IsErrOf result DistillErr.Empty → analysed f.now.rows ≡ [] }
{
    p.has_words();
    let c = given_cuts(alloc, p, f, o.rare, same)?;
    let g = graph(alloc, p, f, &c)?;
    if g.spots.is_empty() {
        return Err(DistillErr::Empty);
    }
    // Each analysed instruction has a row of its own.
    let rows = f.len() as usize;
    prove!(g.spots.len() <= rows);
    let a = place(alloc, p, f, &g, &c, o.hot, o.goal)?;
    let m = solve(alloc, &g, &c, &a.pcs)?;
    Ok(lay_out(alloc, &g, &m, &c, f, &a, o.limit)?)
}
