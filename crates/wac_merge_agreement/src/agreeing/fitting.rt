//! The exports of instances in a table.
ghost use Rattle.std.specs.Prelude.{◌≡◌, ◌<◌, length, ◌↔◌, IsTrue};
ghost use Rattle.std.specs.Option.{option_map};
ghost use Rattle.wac_merge_tables.specs.private.tables.Nodes.{type_of};
ghost use Rattle.wac_merge_tables.specs.private.tables.NodeViews.{item_view, listed};
ghost use Rattle.wac_merge_agreement.specs.private.agreeing.Fitting.{Fits, exports_of};

use wac_merge_tables::tables::nodes::{Item, Node, Nodes};

/// Returns the exports of an item, if it is an instance.
pub fn exports<'a, 'b>(nodes: &'a Nodes<'b>, item: Item) -> Option<&'a [(&'b str, Item)]>
    requires { type_of (item_view item) < length nodes.now }
    ensures { option_map (λ es. listed es.now) result ≡ exports_of nodes.now (item_view item) }
{
    let Item::Instance(number) = item else {
        return None;
    };
    match nodes.node(number) {
        Node::Instance(exports) => Some(exports.as_slice()),
        _ => None,
    }
}

/// Returns whether two items are equal or both are instances. Exports of instances are compared separately.
pub fn fits(nodes: &Nodes, first: Item, second: Item) -> bool
    requires first { type_of (item_view first) < length nodes.now }
    requires second { type_of (item_view second) < length nodes.now }
    ensures { IsTrue result ↔ Fits nodes.now (item_view first) (item_view second) }
{
    first == second || (exports(nodes, first).is_some() && exports(nodes, second).is_some())
}
