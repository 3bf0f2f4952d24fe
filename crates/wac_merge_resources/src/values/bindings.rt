//! Which class binds each value type, and under which name.
ghost use Rattle.std.specs.Prelude.{◌≡◌, true, IfOk, OnOk};
ghost use Rattle.std.specs.Option.{option_map};
ghost use Rattle.wac_types_collection.specs.collection.Collection.{holds_type};
ghost use Rattle.wac_types_shapes.specs.shapes.Kinds.{kind_type};
ghost use Rattle.wac_types_shapes.specs.declared.shapes.component.ItemKind.TheVariants as kind_of;
ghost use Rattle.wac_merge_classes.specs.entries.Bindings.{AreHeld};
ghost use Rattle.wac_merge_classes.specs.entries.Classes.{by_names, AreClasses};
ghost use Rattle.wac_merge_classes.specs.private.terms.ValueBindings.{AreValueBindings, find_value};
ghost use Rattle.wac_merge_resources.specs.private.values.Listings.{Takes, exported, has_value, listed_by};
ghost use Rattle.wac_merge_resources.specs.private.values.Bound.{binding_view};

use crate::values::listed::{listed_value, used_values};
use crate::values::table::Table;
use indexmap::IndexSet;
use std::alloc::{AllocError, Global};
use std::marker::Model;
use wac_merge_classes::entries::classes::Classes;
use wac_merge_classes::entries::entry::Entry;
use wac_types_collection::{DefinedTypeId, InterfaceId, ItemKind, Named, Types};

/// The binding of a value type.
#[derive(Clone, Copy)]
pub struct ValueBinding<'a> {
    /// The number of the class.
    pub class: usize,
    /// The name under which the class exports the type; `None` if the class itself is the type.
    pub name: Option<&'a str>,
}

/// Adds the value types that an interface exports. Those in `used` count as used from another interface.
fn put_exports(
    table: &mut Table,
    alloc: Global,
    types: &Types,
    class: usize,
    exports: &Named<ItemKind>,
    used: &IndexSet<DefinedTypeId>,
) -> Result<(), AllocError>
    ensures { OnOk result (Takes table.old (exported types.now (has_value used.now.keys) class exports.now) table.new) }
{
    for i in 0..exports.len() {
        let (name, kind) = exports.entry_at(i);
        if let Some(value) = listed_value(types, *kind) {
            let is_used = used.contains(&value);
            table.put(alloc, value, is_used, class, Some(name))?;
        }
    }
    Ok(())
}

/// Adds the value types that an instance of a class exports.
fn put_instance(
    table: &mut Table,
    alloc: Global,
    types: &Types,
    class: usize,
    id: InterfaceId,
) -> Result<(), AllocError>
    requires { holds_type types.now (kind_type (kind_of.Instance id)) ≡ true }
    ensures { OnOk result (Takes table.old (listed_by types.now class (kind_of.Instance id)) table.new) }
{
    types.law(); // proof only
    let it = &types[id];
    let used = used_values(alloc, types, &it.uses)?;
    put_exports(table, alloc, types, class, &it.exports, &used)
}

/// Adds the value types that an entry of a class exports, or the one that it is.
fn put_member(
    table: &mut Table,
    alloc: Global,
    types: &Types,
    class: usize,
    kind: ItemKind,
) -> Result<(), AllocError>
    requires { holds_type types.now (kind_type kind) ≡ true }
    ensures { OnOk result (Takes table.old (listed_by types.now class kind) table.new) }
{
    if let ItemKind::Instance(id) = kind {
        return put_instance(table, alloc, types, class, id);
    }
    match listed_value(types, kind) {
        Some(value) => table.put(alloc, value, false, class, None),
        None => Ok(()),
    }
}

/// The binding of each value type.
pub struct ValueBindings {
    table: Table,
}

// By hand: a derived `Drop` is proved again wherever one goes out of scope (docs/PROOFS.md, 'Drop').
impl Drop for ValueBindings {
    fn drop(self) {
        let ValueBindings { table: _ } = self;
    }
}

impl Model for ValueBindings {
    ghost use Rattle.std.specs.Prelude.{List, ℕ};
    ghost use Rattle.wac_types_shapes.specs.primitives.Tree.{Place};
    ghost use Rattle.wac_types_shapes.specs.declared.shapes.component.DefinedTypeId.{DefinedTypeId};
    ghost use Rattle.wac_merge_resources.specs.private.values.Listings.{places};

    ghost Value = { List (DefinedTypeId × (ℕ × List Place)) };

    ghost view = { λ b. places b.table };
}

impl ValueBindings {
    /// Returns the binding of a value type, or `None` if no class exports it. It does not allocate.
    ///
    /// `value` must not be an alias: resolve it with `resolve_value_type` first.
    pub fn of(&self, value: DefinedTypeId) -> Option<ValueBinding<'_>>
        ensures { option_map binding_view result ≡ find_value self.now value }
    {
        let listing = self.table.get(value)?;
        let name = match &listing.name {
            Some(text) => Some(text.as_str()),
            None => None,
        };
        Some(ValueBinding {
            class: listing.class,
            name,
        })
    }
}

/// Returns the binding of each value type: the first class that exports it without using it from another interface.
/// If each class that exports it uses it, the first of them binds it.
///
/// # Errors
/// - [`AllocError`] if out of memory.
pub fn value_bindings(
    alloc: Global,
    types: &Types,
    entries: &[Entry],
    classes: &Classes,
) -> Result<ValueBindings, AllocError>
    requires held { AreHeld types.now entries.now }
    requires classes { AreClasses by_names entries.now classes.now.numbers.items classes.now.positions.items classes.now.names }
    ensures { IfOk result (λ b. AreValueBindings types.now entries.now b) }
{
    let numbers = classes.numbers();
    let mut table = Table::new(alloc);
    for i in 0..entries.len() {
        put_member(&mut table, alloc, types, numbers[i], entries[i].kind())?;
    }
    Ok(ValueBindings { table })
}
