//! Swaps that sort names.
//!
//! Versions of an interface mostly have the same export names. So the swaps that sort the items of one scope are also
//! made on those of the next. Sorting these then only compares neighbours. The swaps affect speed only.
ghost use Rattle.std.specs.List.Sorted.{IsPermutation};

use std::alloc::{AllocError, Global};
use wac_merge_tables::tables::nodes::Item;
use wac_types_collection::{ItemKind, Named};

/// The number of names up to which sorting is too fast to look for swaps.
const FEW: usize = 16;

/// Swaps the entries at two positions, if both exist.
#[tactic(auto, using(crate::proofs::lemmas::coding::SortedEntries::none_moved))]
fn exchange(entries: &mut [(&str, Item)], one: usize, other: usize)
    ensures { IsPermutation entries.old entries.new }
{
    if one < entries.len() && other < entries.len() {
        entries.swap(one, other);
    }
}

/// Makes these swaps in order, if they were found for as many entries.
#[tactic(auto, using(crate::proofs::lemmas::coding::SortedEntries::none_moved))]
pub(crate) fn exchange_all(entries: &mut [(&str, Item)], exchanges: &[(usize, usize)])
    ensures { IsPermutation entries.old entries.new }
{
    if exchanges.len() != entries.len() {
        return;
    }
    for i in 0..exchanges.len() {
        let (one, other) = exchanges[i];
        exchange(entries, one, other);
    }
}

/// Returns the swaps that sort these names.
fn exchanges_of(alloc: Global, kinds: &Named<ItemKind>) -> Result<Vec<(usize, usize)>, AllocError> {
    let mut wanted = Vec::with_capacity(alloc, kinds.len())?;
    for number in 0..kinds.len() {
        wanted.push((kinds.name_at(number), number))?;
    }
    wanted.sort_unstable_by(|a, b| a.0.cmp(b.0));
    let mut there: Vec<usize> = (0..kinds.len()).collect(alloc)?;
    let mut places: Vec<usize> = (0..kinds.len()).collect(alloc)?;
    let mut exchanges = Vec::with_capacity(alloc, kinds.len())?;
    for (place, pair) in wanted.iter().enumerate() {
        let from = places.get(pair.1).copied().unwrap_or(place);
        let moved = there.get(place).copied().unwrap_or(from);
        if let Some(number) = there.get_mut(from) {
            *number = moved;
        }
        if let Some(other) = places.get_mut(moved) {
            *other = from;
        }
        exchanges.push((place, from))?;
    }
    Ok(exchanges)
}

/// Replaces the swaps if they left the entries out of order and there are more than [`FEW`] entries.
pub(crate) fn renew(
    alloc: Global,
    exchanges: &mut Vec<(usize, usize)>,
    kinds: &Named<ItemKind>,
    entries: &[(&str, Item)],
) -> Result<(), AllocError> {
    if entries.len() > FEW && !entries.is_sorted_by(|a, b| a.0.cmp(b.0).is_le()) {
        *exchanges = exchanges_of(alloc, kinds)?;
    }
    Ok(())
}
