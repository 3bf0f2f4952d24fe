//! The comparison of the entries of each class.
//!
//! The entries of a class are compared at once, each with the first, and so are the exports of their instances under
//! each name. Instances at one spot form a group. Two spots with the same entries and instances have one group, and its
//! exports are compared once.
ghost use Rattle.std.specs.Prelude.{◌≡◌, ◌<◌, ◌++◌, ◌∷◌, ℕ, List, Option, [], length, map, Some, IfOk, OnOk};
ghost use Rattle.std.specs.List.{AllByRecursion};
ghost use Rattle.std.specs.Option.{MatchOption};
ghost use Rattle.wac_merge_tables.specs.private.tables.Nodes.{type_of};
ghost use Rattle.wac_merge_tables.specs.private.tables.NodeViews.{item_view};
ghost use Rattle.wac_merge_agreement.specs.private.agreeing.Apart.{AllAgree, IsFirstApart};
ghost use Rattle.wac_merge_agreement.specs.private.agreeing.Groups.{AreFull, Compares, ComparesAll, IsFull, IsLeast, Splits};
ghost use Rattle.wac_merge_agreement.specs.private.agreeing.Rows.{Row, row_view, table_view};

use crate::agreeing::fitting::fits;
use crate::agreeing::rows::{Rows, exported, members};
use indexmap::IndexSet;
use std::alloc::{AllocError, Global};
use wac_merge_tables::tables::nodes::{Item, Nodes};

/// Returns the lesser pair of entries, by the second entry and then by the first. `pair` may be none.
fn lesser(pair: Option<(usize, usize)>, first: usize, second: usize) -> (usize, usize)
    ensures { IsLeast pair (first, second) (Some result) }
{
    match pair {
        Some((earlier, later)) if later < second || (later == second && earlier < first) => {
            (earlier, later)
        }
        _ => (first, second),
    }
}

/// The state of the comparison.
#[derive(Drop)]
struct Walk {
    /// The groups of instances found so far, each once. A group has entries and their instances at one spot.
    groups: IndexSet<Vec<(usize, Item)>>,
    /// The first two entries that disagree, among those compared so far.
    first: Option<(usize, usize)>,
}

impl Walk {
    /// Compares an entry's item with the item of the first entry at the spot. An instance is added to the group.
    fn set_beside(
        &mut self,
        nodes: &Nodes,
        group: &mut Vec<(usize, Item)>,
        holder: usize,
        held: Item,
        entry: usize,
        item: Item,
    ) -> Result<(), AllocError>
        requires held { type_of (item_view held) < length nodes.now }
        requires item { type_of (item_view item) < length nodes.now }
        ensures splits { OnOk result ((old : Option (ℕ × ℕ)) (rows : List Row) → Splits nodes.now holder (item_view held) old rows (map row_view group.old.items) self.old.first
            → Splits nodes.now holder (item_view held) old (rows ++ (entry, item_view item) ∷ []) (map row_view group.new.items) self.new.first) }
        ensures groups { self.new.groups ≡ self.old.groups }
    {
        if item == held {
            return Ok(());
        }
        if fits(nodes, held, item) {
            group.push((entry, item))?;
            return Ok(());
        }
        self.first = Some(lesser(self.first, holder, entry));
        Ok(())
    }

    /// Compares the items of entries at one spot with that of the first entry.
    fn compare(
        &mut self,
        alloc: Global,
        nodes: &Nodes,
        rows: &[(usize, Item)],
    ) -> Result<(), AllocError>
        requires { IsFull nodes.now (map row_view rows.now) }
        ensures { OnOk result (Compares nodes.now self.old (map row_view rows.now) self.new) }
    {
        let (holder, held) = rows[0];
        let mut group = Vec::new(alloc);
        group.push((holder, held))?;
        for i in 1..rows.len() {
            let (entry, item) = rows[i];
            self.set_beside(nodes, &mut group, holder, held, entry, item)?;
        }
        if group.len() > 1 {
            self.groups.insert(group)?;
        }
        Ok(())
    }

    /// Compares the items of entries at each spot.
    fn compare_all(&mut self, alloc: Global, nodes: &Nodes, rows: &Rows) -> Result<(), AllocError>
        requires { AreFull nodes.now (table_view rows.now.entries) }
        ensures { OnOk result (ComparesAll nodes.now self.old (table_view rows.now.entries) self.new) }
    {
        for i in 0..rows.len() {
            let (_, there) = rows.get_index(i).unwrap();
            self.compare(alloc, nodes, there.as_slice())?;
        }
        Ok(())
    }
}

/// Returns the first disagreement as a pair of entries.
///
/// The second is the earliest entry that disagrees with an earlier one of its class. The first is the earliest entry
/// that it disagrees with.
///
/// # Errors
/// - [`AllocError`] if out of memory.
pub fn first_disagreement(
    alloc: Global,
    nodes: &Nodes,
    items: &[Item],
    classes: &[usize],
) -> Result<Option<(usize, usize)>, AllocError>
    requires counted { length classes.now ≡ length items.now }
    requires low { AllByRecursion (λ x. type_of x < length nodes.now) (map item_view items.now) }
    ensures { IfOk result (λ o. MatchOption o (AllAgree nodes.now (map item_view items.now) classes.now) (λ p. IsFirstApart nodes.now (map item_view items.now) classes.now p.0 p.1)) }
{
    nodes.table_law(); // proof only
    let mut walk = Walk {
        groups: IndexSet::new(alloc),
        first: None,
    };
    let rows = members(alloc, items, classes)?;
    walk.compare_all(alloc, nodes, &rows)?;
    let mut next = 0;
    while next < walk.groups.len() {
        let group = walk.groups.get_index(next).unwrap();
        let rows = exported(alloc, nodes, group.as_slice())?;
        walk.compare_all(alloc, nodes, &rows)?;
        next += 1;
    }
    Ok(walk.first)
}
