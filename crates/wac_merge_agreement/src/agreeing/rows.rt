//! The items to compare: those of each class, or the exports of instances under each name.
ghost use Rattle.std.specs.Prelude.{◌≡◌, ◌<◌, [], length, map, IfOk, OnOk};
ghost use Rattle.std.specs.List.{AllByRecursion};
ghost use Rattle.wac_merge_tables.specs.private.tables.Nodes.{type_of};
ghost use Rattle.wac_merge_tables.specs.private.tables.NodeViews.{item_view, listed};
ghost use Rattle.wac_merge_agreement.specs.private.agreeing.Rows.{ArePut, IsPut, all_put, exports_put, members_put, row_view, spot_view, table_view};

use crate::agreeing::fitting::exports;
use indexmap::IndexMap;
use std::alloc::{AllocError, Global};
use wac_merge_tables::tables::nodes::{Item, Nodes};

/// A spot at which items are compared.
#[derive(PartialEq, Eq, Hash, Drop)]
pub enum Spot<'a> {
    /// The entries of the class with this number.
    Class(usize),
    /// The exports of a group of instances under this name.
    Export(&'a str),
}

/// For each spot, the entries that have an item there, and the item.
pub type Rows<'a> = IndexMap<Spot<'a>, Vec<(usize, Item)>>;

/// Appends an entry's item at a spot.
fn put<'a>(
    alloc: Global,
    rows: &mut Rows<'a>,
    spot: Spot<'a>,
    entry: usize,
    item: Item,
) -> Result<(), AllocError>
    ensures { OnOk result (IsPut (table_view rows.old.entries) (spot_view spot.entry) (entry, item_view item) (table_view rows.new.entries)) }
{
    if let Some((position, _, _)) = rows.get_full(&spot) {
        let there = rows.get_index_mut(position).unwrap();
        there.push((entry, item))?;
        return Ok(());
    }
    let mut there = Vec::new(alloc);
    there.push((entry, item))?;
    match rows.insert(spot, there) {
        Ok(_) => Ok(()),
        Err(_) => Err(AllocError),
    }
}

/// Returns the entries of each class.
///
/// # Errors
/// - [`AllocError`] if out of memory.
pub fn members(
    alloc: Global,
    items: &[Item],
    classes: &[usize],
) -> Result<Rows<'static>, AllocError>
    requires counted { length classes.now ≡ length items.now }
    ensures { IfOk result (λ rows. ArePut [] (members_put 0 (map item_view items.now) classes.now) (table_view rows.entries)) }
{
    let mut rows = IndexMap::new(alloc);
    for i in 0..items.len() {
        put(alloc, &mut rows, Spot::Class(classes[i]), i, items[i])?;
    }
    Ok(rows)
}

/// Appends the exports of an entry's instance.
fn put_exports<'a>(
    alloc: Global,
    rows: &mut Rows<'a>,
    entry: usize,
    exports: &[(&'a str, Item)],
) -> Result<(), AllocError>
    ensures { OnOk result (ArePut (table_view rows.old.entries) (exports_put entry (listed exports.now)) (table_view rows.new.entries)) }
{
    for i in 0..exports.len() {
        let (name, item) = &exports[i];
        put(alloc, rows, Spot::Export(*name), entry, *item)?;
    }
    Ok(())
}

/// Returns the exports of a group of instances by name.
///
/// # Errors
/// - [`AllocError`] if out of memory.
pub fn exported<'a>(
    alloc: Global,
    nodes: &Nodes<'a>,
    group: &[(usize, Item)],
) -> Result<Rows<'a>, AllocError>
    requires { AllByRecursion (λ r. type_of r.1 < length nodes.now) (map row_view group.now) }
    ensures { IfOk result (λ rows. ArePut [] (all_put nodes.now (map row_view group.now)) (table_view rows.entries)) }
{
    let mut rows = IndexMap::new(alloc);
    for i in 0..group.len() {
        let (entry, item) = group[i];
        if let Some(exports) = exports(nodes, item) {
            put_exports(alloc, &mut rows, entry, exports)?;
        }
    }
    Ok(rows)
}
