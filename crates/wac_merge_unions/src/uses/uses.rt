//! The uses of one interface, redirected to merged imports.
ghost use Rattle.std.specs.Prelude.{◌≡◌, [], is_some, true, IfOk, OnOk};
ghost use Rattle.wac_types_collection.specs.collection.Aliases.{handle_resolved, type_resolved, value_resolved};
ghost use Rattle.wac_types_collection.specs.collection.Collection.{HasInterface, holds_all, used_types};
ghost use Rattle.wac_types_collection.specs.collection.Uses.{same_type_item};
ghost use Rattle.wac_types_shapes.specs.declared.shapes.component.ItemKind.TheVariants as kind_of;
ghost use Rattle.wac_merge_classes.specs.entries.Classes.{AreClasses, by_names, imported_as};
ghost use Rattle.wac_merge_classes.specs.terms.Merge.{import_entries, listed_resource};
ghost use Rattle.wac_merge_unions.specs.uses.KeptUses.{imported_interface, lists_resource, uses_of};
ghost use Rattle.wac_merge_unions.specs.uses.Using.{AreInterfaces, HasClasses, keep_from, may_use, use_in, with_use};

use std::alloc::{AllocError, Global};
use wac_merge_classes::entries::classes::Classes;
use wac_merge_classes::entries::entry::Entry;
use wac_types_collection::{
    InterfaceId, ItemKind, Named, ShapeError, Text, Type, Types, UsedType, ValueType,
};

/// The entries of a merge, with their collection and their classes.
#[derive(Clone, Copy)]
pub struct Asked<'a> {
    /// The allocator.
    pub alloc: Global,
    /// The collection.
    pub types: &'a Types,
    /// The entries.
    pub entries: &'a [Entry],
    /// Their classes.
    pub classes: &'a Classes,
}

/// An interface of the merged collection that is to get uses, and what it may use.
#[derive(Clone, Copy)]
pub struct Place<'a> {
    /// The merged collection.
    pub merged: &'a Types,
    /// The imports before the one that contains the interface.
    pub imports: &'a Named<ItemKind>,
    /// The exports of the interface.
    pub listed: &'a Named<ItemKind>,
}

/// Returns the canonical name of the class of a name, or the name itself if no entry has it.
fn imported_name<'a>(entries: &'a [Entry], classes: &Classes, name: &'a str) -> &'a str
    requires { AreClasses by_names entries.now classes.now.numbers.items classes.now.positions.items classes.now.names }
    ensures { result.now ≡ imported_as by_names entries.now name.now }
{
    match classes.position(name) {
        Some(position) => entries[position].name(),
        None => name,
    }
}

/// Returns the interface of the import to which an interface was merged, or `None` if it is not among `imports`.
fn imported_interface(
    asked: &Asked<'_>,
    imports: &Named<ItemKind>,
    id: InterfaceId,
) -> Option<InterfaceId>
    requires held { HasInterface asked.now.types.now id }
    requires classes { HasClasses asked.now }
    ensures { result ≡ imported_interface by_names asked.now.types.now asked.now.entries.now (import_entries imports.now) id }
{
    let Some(text) = &asked.types[id].id else {
        return None;
    };
    let name = imported_name(asked.entries, asked.classes, text.as_str());
    let Some(kind) = imports.get(name) else {
        return None;
    };
    let ItemKind::Instance(id) = *kind else {
        return None;
    };
    Some(id)
}

/// Returns whether an item is a resource that is no alias.
fn is_own(merged: &Types, kind: ItemKind) -> bool
    ensures { result ≡ is_some (listed_resource merged.now kind) }
{
    let ItemKind::TypeItem(Type::Resource(resource)) = kind else {
        return false;
    };
    !merged.contains(Type::Resource(resource)) || merged[resource].alias.is_none()
}

/// Returns whether an own resource is exported under a name.
fn lists_resource(merged: &Types, listed: &Named<ItemKind>, name: &str) -> bool
    ensures { result ≡ lists_resource merged.now listed.now name.now }
{
    match listed.get(name) {
        Some(kind) => is_own(merged, *kind),
        None => false,
    }
}

/// Returns a value type with aliases resolved.
fn value_end(merged: &Types, value: ValueType) -> ValueType
    ensures { result ≡ handle_resolved merged.now (value_resolved merged.now value) }
{
    match merged.resolve_value_type(value) {
        ValueType::Own(id) => ValueType::Own(merged.resolve_resource(id)),
        ValueType::Borrow(id) => ValueType::Borrow(merged.resolve_resource(id)),
        end => end,
    }
}

/// Returns a type with aliases resolved.
fn type_end(merged: &Types, ty: Type) -> Type
    ensures { result ≡ type_resolved merged.now ty }
{
    match ty {
        Type::Resource(id) => Type::Resource(merged.resolve_resource(id)),
        Type::Value(value) => Type::Value(value_end(merged, value)),
        _ => ty,
    }
}

/// Returns whether an item is a type item of the given type, with aliases resolved.
fn is_type(merged: &Types, kind: ItemKind, ty: Type) -> bool
    ensures { result ≡ same_type_item merged.now kind (kind_of.TypeItem ty) }
{
    match kind {
        ItemKind::TypeItem(item) => type_end(merged, item) == type_end(merged, ty),
        _ => false,
    }
}

/// Returns whether an interface may use a type of interface `id` under a name. `there` is the name of the type in `id`,
/// if it differs.
///
/// No own resource may have the name, and an export of the name must be that very type.
fn may_use(place: &Place<'_>, name: &str, id: InterfaceId, there: &Option<Text>) -> bool
    ensures { result ≡ may_use place.now.merged.now place.now.listed.now (name.now, record { interface = id; name = there.now }) }
{
    if lists_resource(place.merged, place.listed, name) {
        return false;
    }
    if !place.merged.contains(Type::Interface(id)) {
        return false;
    }
    let interface = &place.merged[id];
    if interface.id.is_none() {
        return false;
    }
    let there = match there {
        Some(text) => text.as_str(),
        None => name,
    };
    let Some(ItemKind::TypeItem(ty)) = interface.exports.get(there) else {
        return false;
    };
    match place.listed.get(name) {
        Some(kind) => is_type(place.merged, *kind, *ty),
        None => true,
    }
}

/// Copies an optional text.
///
/// # Errors
/// - [`AllocError`] if out of memory.
pub fn copied(alloc: Global, text: &Option<Text>) -> Result<Option<Text>, AllocError>
    ensures { IfOk result (λ t. t ≡ text.now) }
{
    match text {
        Some(text) => Ok(Some(Text::new(alloc, text.as_str())?)),
        None => Ok(None),
    }
}

/// Returns a use redirected to a merged import, or `None` if it is left out.
fn kept_use(
    asked: &Asked<'_>,
    place: &Place<'_>,
    name: &str,
    used: &UsedType,
) -> Result<Option<UsedType>, AllocError>
    requires held { HasInterface asked.now.types.now used.now.interface }
    requires classes { HasClasses asked.now }
    ensures { IfOk result (λ o. o ≡ use_in asked.now place.now (name.now, used.now)) }
{
    let Some(interface) = imported_interface(asked, place.imports, used.interface) else {
        return Ok(None);
    };
    if !may_use(place, name, interface, &used.name) {
        return Ok(None);
    }
    let name = copied(asked.alloc, &used.name)?;
    Ok(Some(UsedType { interface, name }))
}

/// Appends a use, if there is one and its name is not used yet.
fn put_use(
    alloc: Global,
    uses: &mut Named<UsedType>,
    name: &str,
    used: Option<UsedType>,
) -> Result<(), AllocError>
    ensures { OnOk result (uses.new ≡ with_use uses.old name.now used) }
{
    let Some(used) = used else {
        return Ok(());
    };
    match uses.insert(alloc, name, used) {
        Ok(()) | Err(ShapeError::NameTwice) => Ok(()),
        Err(ShapeError::OutOfMemory) => Err(AllocError),
    }
}

/// Appends the uses of one interface, redirected to merged imports.
fn put_uses(
    asked: &Asked<'_>,
    place: &Place<'_>,
    uses: &mut Named<UsedType>,
    used: &Named<UsedType>,
) -> Result<(), AllocError>
    requires held { holds_all asked.now.types.now (used_types used.now) ≡ true }
    requires classes { HasClasses asked.now }
    ensures { OnOk result (uses.new ≡ keep_from asked.now place.now uses.old used.now) }
{
    for i in 0..used.len() {
        let (name, item) = used.entry_at(i);
        let kept = kept_use(asked, place, name, item)?;
        put_use(asked.alloc, uses, name, kept)?;
    }
    Ok(())
}

/// Returns the uses of these interfaces, redirected to merged imports. Of several uses of one name the first is kept.
///
/// # Errors
/// - [`AllocError`] if out of memory.
pub fn kept_uses(
    asked: &Asked<'_>,
    place: &Place<'_>,
    interfaces: &[InterfaceId],
) -> Result<Named<UsedType>, AllocError>
    requires held { AreInterfaces asked.now.types.now interfaces.now }
    requires classes { HasClasses asked.now }
    ensures { IfOk result (λ us. us ≡ keep_from asked.now place.now [] (uses_of asked.now.types.now interfaces.now)) }
{
    asked.types.law(); // proof only
    let mut uses = Named::new(asked.alloc);
    for i in 0..interfaces.len() {
        let id = interfaces[i];
        let interface = &asked.types[id];
        put_uses(asked, place, &mut uses, &interface.uses)?;
    }
    Ok(uses)
}
