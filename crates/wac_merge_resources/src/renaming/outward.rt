//! The way out of a part, without the enclosing parts that bind nothing.
ghost use Rattle.std.specs.Prelude.{◌<◌, ◌≤◌, length, slice_get, IfOk, ◌≡◌, Some};
ghost use Rattle.wac_merge_resources.specs.private.renaming.Ways.{AreOutward, HaveWays, LeadsOut};
ghost use Rattle.wac_merge_classes.specs.terms.Unions.{AreAround};
ghost use Rattle.wac_merge_classes.specs.declared.terms.parts.Part.{Part as APart};

use std::alloc::{AllocError, Global};
use wac_merge_classes::entries::bound::Bound;
use wac_merge_classes::terms::parts::Part;

/// Returns the next part on the way out of a part: the nearest enclosing one that binds something, or the outermost.
///
/// `outward` has the result for each earlier part.
fn way_out(
    parts: &[Part],
    bound: &[Bound],
    outward: &[Option<usize>],
    position: usize,
) -> Option<usize>
    requires around { AreAround parts.now }
    requires counted { length bound.now ≡ length parts.now }
    requires within { position < length parts.now }
    requires known { position ≤ length outward.now }
    requires ways { HaveWays parts.now bound.now outward.now }
    ensures { (x : APart) → slice_get parts.now position ≡ Some x → LeadsOut parts.now bound.now x.outer result }
{
    let Some(outer) = parts[position].outer else {
        return None;
    };
    match outward[outer] {
        Some(next) if bound[outer].len() == 0 => Some(next),
        _ => Some(outer),
    }
}

/// Returns the next part on the way out of each part; `None` for an outermost part.
///
/// # Errors
/// - [`AllocError`] if out of memory.
pub fn outward_in(
    alloc: Global,
    parts: &[Part],
    bound: &[Bound],
) -> Result<Vec<Option<usize>>, AllocError>
    requires around { AreAround parts.now }
    requires counted { length bound.now ≡ length parts.now }
    ensures { IfOk result (λ outward. AreOutward parts.now bound.now outward.items) }
{
    let mut outward = Vec::with_capacity(alloc, parts.len())?;
    for position in 0..parts.len() {
        let way = way_out(parts, bound, outward.as_slice(), position);
        outward.push(way)?;
    }
    Ok(outward)
}
