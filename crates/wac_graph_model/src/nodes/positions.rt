//! Sets of positions.
ghost use Rattle.std.specs.Prelude.{◌≡◌, ◌<◌, ◌≤◌, ℕ, true, IfSome, IfNone};
ghost use Rattle.wac_graph_model.specs.nodes.Nodes.{has_position};
ghost use Rattle.wac_graph_model.specs.private.nodes.Positions.{IsGap};

use std::collections::HashSet;

/// Returns the first position in `from..end` that is not in the set.
pub fn first_gap(positions: &HashSet<usize>, from: usize, end: usize) -> Option<usize>
    ensures some { IfSome result (IsGap positions.now from end) }
    ensures none { IfNone result ((i : ℕ) → from ≤ i → i < end → has_position positions.now i ≡ true) }
{
    for i in from..end {
        if !positions.contains(&i) {
            return Some(i);
        }
    }
    None
}
