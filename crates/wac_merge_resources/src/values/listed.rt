//! The value types that items export, and those that an interface uses from others.
ghost use Rattle.std.specs.Prelude.{◌≡◌, true, IfOk};
ghost use Rattle.wac_types_collection.specs.collection.Collection.{holds_all, holds_type, used_types};
ghost use Rattle.wac_types_shapes.specs.declared.shapes.component.DefinedTypeId.{DefinedTypeId as AnId};
ghost use Rattle.wac_types_shapes.specs.declared.shapes.component.«Type».TheVariants as ty;
ghost use Rattle.wac_merge_classes.specs.terms.Values.{listed_value, used_value, uses_value};
ghost use Rattle.wac_merge_resources.specs.private.values.Listings.{has_value};

use indexmap::IndexSet;
use std::alloc::{AllocError, Global};
use wac_types_collection::{DefinedTypeId, ItemKind, Named, Type, Types, UsedType, ValueType};

/// Returns the definition of a type item's value type, with aliases resolved.
/// It is `None` for any other item, and for a primitive type or handle.
pub(crate) fn listed_value(types: &Types, kind: ItemKind) -> Option<DefinedTypeId>
    ensures { result ≡ listed_value types.now kind }
{
    let ItemKind::TypeItem(Type::Value(value)) = kind else {
        return None;
    };
    match types.resolve_value_type(value) {
        ValueType::Defined(id) => Some(id),
        _ => None,
    }
}

/// Returns the value type that an entry of `uses` refers to: the export of that name in the used interface.
fn used_value(types: &Types, name: &str, used: &UsedType) -> Option<DefinedTypeId>
    requires { holds_type types.now (ty.Interface used.now.interface) ≡ true }
    ensures { result ≡ used_value types.now (name.now, used.now) }
{
    let exports = &types[used.interface].exports;
    let kind = match &used.name {
        Some(text) => exports.get(text.as_str())?,
        None => exports.get(name)?,
    };
    listed_value(types, *kind)
}

/// Returns the set of value types that `uses` refers to.
pub(crate) fn used_values(
    alloc: Global,
    types: &Types,
    uses: &Named<UsedType>,
) -> Result<IndexSet<DefinedTypeId>, AllocError>
    requires { holds_all types.now (used_types uses.now) ≡ true }
    ensures { IfOk result (λ values. (d : AnId) → has_value values.keys d ≡ uses_value types.now uses.now d) }
{
    let mut values = IndexSet::new(alloc);
    for i in 0..uses.len() {
        let (name, used) = uses.entry_at(i);
        if let Some(value) = used_value(types, name, used) {
            values.insert(value)?;
        }
    }
    Ok(values)
}
