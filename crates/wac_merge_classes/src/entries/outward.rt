//! The way out of a scope, without the enclosing scopes that bind nothing.
ghost use Rattle.std.specs.Prelude.{ℕ, ◌≡◌, ◌<◌, ◌≤◌, length, Some, IfOk, slice_get};
ghost use Rattle.wac_merge_classes.specs.declared.entries.scopes.Scope.{Scope as AScope};
ghost use Rattle.wac_merge_classes.specs.entries.Scopes.{IsBelow};
ghost use Rattle.wac_merge_classes.specs.private.entries.Ways.{AreOutward, HaveWays, LeadsOut};

use crate::entries::bound::Bound;
use crate::entries::scopes::Scopes;
use std::alloc::{AllocError, Global};

/// The next scope on the way out: the nearest enclosing scope that binds something, else the outermost.
#[derive(Clone, Copy)]
pub struct Outward {
    /// The position of that scope.
    pub position: usize,
    /// How many scopes out it is.
    pub out: usize,
}

/// Returns the next scope on the way out of the scope at `position`. `outward` holds that of each scope before it.
fn way_out(
    scopes: &Scopes,
    bound: &[Bound],
    outward: &[Option<Outward>],
    position: usize,
) -> Option<Outward>
    requires around { (i : ℕ) (s : AScope) → slice_get scopes.now i ≡ Some s → IsBelow i s.parent }
    requires counted { length bound.now ≡ length scopes.now }
    requires within { position < length scopes.now }
    requires known { position ≤ length outward.now }
    requires ways { HaveWays scopes.now bound.now outward.now }
    ensures { (s : AScope) → slice_get scopes.now position ≡ Some s → LeadsOut scopes.now bound.now s.parent result }
{
    let parent = scopes.scope(position).parent?;
    match outward[parent] {
        Some(next) if bound[parent].len() == 0 => Some(Outward {
            position: next.position,
            out: next.out + 1,
        }),
        _ => Some(Outward {
            position: parent,
            out: 1,
        }),
    }
}

/// Returns, for each scope of an item, the next scope on the way out.
///
/// # Errors
/// - [`AllocError`] if out of memory.
pub fn outward_in(
    alloc: Global,
    scopes: &Scopes,
    bound: &[Bound],
) -> Result<Vec<Option<Outward>>, AllocError>
    requires around { (i : ℕ) (s : AScope) → slice_get scopes.now i ≡ Some s → IsBelow i s.parent }
    requires counted { length bound.now ≡ length scopes.now }
    ensures { IfOk result (λ outward. AreOutward scopes.now bound.now outward.items) }
{
    let mut outward = Vec::with_capacity(alloc, scopes.len())?;
    for position in 0..scopes.len() {
        let way = way_out(scopes, bound, outward.as_slice(), position);
        outward.push(way)?;
    }
    Ok(outward)
}
