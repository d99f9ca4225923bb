//! The whole image.

ghost use Rattle.std.specs.Prelude.{◌≡◌, ◌≤◌, List, map, length, IfOk};
ghost use Rattle.std.specs.List.Sorted.{IsStrictlyIncreasing};
ghost use Rattle.distill_rules.specs.Flow.{pc_of};
ghost use Rattle.layout_rules.specs.Images.{laid_out, version_of, limit_of};
ghost use Rattle.dist_image.specs.Image.{Premise};
ghost use Rattle.cuts.specs.Listed.{IsListed};

use crate::assuming::{assume_values, assumptions};
use crate::laying::{Tables, lay};
use crate::placing::Placed;
use crate::plotting::plots;
use crate::rising::pcs_of;
use cuts::CutList;
use dist_image::Image;
use flow_graph::{Mask, SpotGraph};
use profile_data::Profile;
use std::alloc::{AllocError, Global};

/// The image of a graph with its masks, one for each spot, its cuts and the places where tasks
/// begin. `limit` is the most steps of a task.
///
/// Each spot lays a Fork where tasks begin, and then its word, if it is kept. A spot that is not
/// kept lays a Go to where it goes on, unless that is the next spot. A load of one known value lays
/// the word that sets its register, and the value is listed. With such a value, or with a call that a
/// task does, the image has version 2, and at most 4,096 steps to a task.
///
/// # Errors
///
/// Only where no memory was left.
pub fn lay_out(
    alloc: Global,
    g: &SpotGraph,
    m: &[Mask],
    c: &CutList,
    f: &Profile,
    a: &Placed,
    limit: u32,
) -> Result<Image, AllocError>
    requires listed { IsListed c.now }
    requires rises { IsStrictlyIncreasing (map pc_of g.now.spots) }
    requires few { length g.now.spots ≤ 524_288 }
    requires masks { length m.now ≡ length g.now.spots }
    requires begun { IsStrictlyIncreasing a.now.pcs }
    ensures { IfOk result (λ image. image ≡ laid_out g.now m.now c.now f.now.rows a.now limit) }
{
    let plots = plots(alloc, g, m, c, &a.pcs)?;
    let pcs = pcs_of(alloc, g)?;
    let Tables {
        slots,
        anchors,
        notes,
    } = lay(alloc, &plots, &pcs, a.count)?;
    let mut assumptions = assumptions(alloc, g, c, f)?;
    let before = assumptions.len();
    assume_values(&mut assumptions, c, &plots)?;
    let values = assumptions.len().saturating_sub(before);
    let version = version(&c.writes, values);
    let writes = Vec::from_slice(alloc, &c.writes)?;
    Ok(Image {
        version,
        limit: limit_in(version, limit),
        slots,
        anchors,
        notes,
        assumptions,
        writes,
    })
}

/// The version of an image with these calls that a task does, and with so many values.
fn version(writes: &[u32], values: usize) -> u32
    ensures { (vs : List Premise) → length vs ≡ values → result ≡ version_of writes.now vs }
{
    if writes.is_empty() && values == 0 {
        1
    } else {
        2
    }
}

/// The most steps of a task in an image of this version, where so many are asked for.
fn limit_in(version: u32, limit: u32) -> u32
    ensures { result ≡ limit_of version limit }
{
    if version == 1 { limit } else { limit.min(4096) }
}
