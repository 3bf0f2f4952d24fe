//! Unions, written as interfaces of the merged collection.
ghost use Rattle.std.specs.Prelude.{◌<◌, ◌≡◌, ◌++◌, ◌∷◌, [], List, length, map, string_bytes, true, None, Some, IfOk, IfSome, OnOk, slice_get};
ghost use Rattle.std.specs.Option.{option_map};
ghost use Rattle.wac_types_collection.specs.collection.Collection.{Collection, HasInterface, HasResource, holds_type};
ghost use Rattle.wac_types_shapes.specs.shapes.Kinds.{kind_type};
ghost use Rattle.wac_types_shapes.specs.primitives.Name.{find_name};
ghost use Rattle.wac_types_shapes.specs.declared.shapes.component.InterfaceId.{InterfaceId as AnId};
ghost use Rattle.wac_types_shapes.specs.declared.shapes.component.ItemKind.TheVariants as kind_of;
ghost use Rattle.wac_merge_classes.specs.terms.Became.{AreFresh};
ghost use Rattle.wac_merge_resources.specs.renaming.MadeOf.{AreMade, IsKindMadeOf};
ghost use Rattle.wac_merge_tables.specs.made.Made.{StayMade};
ghost use Rattle.wac_merge_resources.specs.private.renaming.RenamedTypes.{AreRenamed, CanRename, CanRenameAll, becomes};
ghost use Rattle.wac_types_collection.specs.private.subtyping.Extended.{IsExtended};
ghost use Rattle.wac_merge_classes.specs.terms.Unions.{AreUnions};
ghost use Rattle.wac_merge_classes.specs.terms.Writing.{AreWritten, IsAliasOf, IsGiven, IsWrittenAs};
ghost use Rattle.wac_merge_imports.specs.unions.SharedUnions.{AreSharedUnions, IsAloneIn, Shares, first_in};
ghost use Rattle.wac_merge_imports.specs.unions.WritingSteps.{AreItemsMadeOf, AreRenamedIn, AreUnionsMadeOf, IsUnionMadeOf, AreWrittenItems, CanWrite, HasExport, IsBehind, IsFoundIn, IsWrittenItem, IsWrittenUnion, in_parts};
ghost use Rattle.wac_merge_resources.specs.declared.renaming.became.Became.{Became as ABecame};
ghost use Rattle.wac_merge_classes.specs.declared.terms.parts.Union.{Union as AUnion};

use crate::unions::shared::Shared;
use std::alloc::{AllocError, Global};
use wac_merge_classes::terms::parts::Export;
use wac_merge_resources::renaming::renamer::{Renamed, Renaming};
use wac_merge_unions::uniting::unions::Unions;
use wac_types_collection::subtyping::laws::growth_keeps_trees;
use wac_types_collection::{
    AddTypeError, Interface, InterfaceId, ItemKind, Named, Resource, ResourceId, ShapeError, Text,
    Type, Types,
};

/// A union to write, with the interfaces of all later unions.
#[derive(Clone, Copy)]
struct NextUnion<'a> {
    /// All unions.
    unions: &'a Unions,
    /// The interfaces of the later unions, from the last union on.
    written: &'a [InterfaceId],
    /// The position of the union.
    union: usize,
}

/// Adds an alias of a resource.
fn add_alias(
    alloc: Global,
    merged: &mut Types,
    name: &str,
    source: ResourceId,
) -> Result<ResourceId, AllocError>
    requires { HasResource merged.old source }
    ensures extended { IsExtended merged.old merged.new }
    ensures alias { IfOk result (λ a. IsAliasOf merged.new name.now source a) }
{
    growth_keeps_trees(merged); // proof only
    let resource = Resource::alias(alloc, name, None, source)?;
    match merged.add_resource(resource) {
        Ok(id) => Ok(id),
        Err(AddTypeError::OutOfMemory) => Err(AllocError),
        Err(_) => unreachable!(),
    }
}

/// Returns the type of a type item, rewritten. `inner` is the merged interface that replaces an interface.
fn write_type(
    merged: &mut Types,
    renamed: &mut Renamed,
    renaming: &Renaming<'_>,
    inner: Option<InterfaceId>,
    name: &str,
    ty: Type,
) -> Result<Type, AllocError>
    requires held { holds_type renaming.now.types.now ty ≡ true }
    requires given { IsGiven merged.old (kind_of.TypeItem ty) inner }
    requires known { CanRename merged.old renaming.now }
    requires right { AreRenamed merged.old renaming.now renamed.old }
    ensures extended { IsExtended merged.old merged.new }
    ensures right { OnOk result (AreRenamed merged.new renaming.now renamed.new) }
    ensures held { IfOk result (λ t. holds_type merged.new t ≡ true) }
    ensures written { IfOk result (λ t. IsWrittenAs renaming.now.types.now merged.new (becomes renaming.now) inner name.now (kind_of.TypeItem ty) (kind_of.TypeItem t)) }
    ensures once { IfOk result (λ t. IsKindMadeOf renaming.now.types.now merged.new (becomes renaming.now) renaming.now.became.now.named.now renamed.new.made (kind_of.TypeItem ty) (kind_of.TypeItem t)) }
    ensures stay { OnOk result (StayMade renamed.old.made renamed.new.made) }
{
    match ty {
        Type::Resource(id) => {
            let end = renaming.became.resource(renaming.types, renaming.part, id);
            let alias = add_alias(renaming.alloc, merged, name, end)?;
            Ok(Type::Resource(alias))
        }
        Type::Func(id) => {
            let func = renamed.func(merged, renaming, id)?;
            Ok(Type::Func(func))
        }
        Type::Value(value) => {
            let value = renamed.value(merged, renaming, value)?;
            Ok(Type::Value(value))
        }
        Type::Interface(_) => Ok(Type::Interface(inner.unwrap())),
        Type::World(id) => Ok(Type::World(id)),
        Type::Module(id) => Ok(Type::Module(id)),
    }
}

/// Returns an item, rewritten. `inner` is the merged interface that replaces an interface or that of an instance.
///
/// # Errors
/// - [`AllocError`] if out of memory. The merged collection may then hold more types.
pub fn write_kind(
    merged: &mut Types,
    renamed: &mut Renamed,
    renaming: &Renaming<'_>,
    inner: Option<InterfaceId>,
    name: &str,
    kind: ItemKind,
) -> Result<ItemKind, AllocError>
    requires held { holds_type renaming.now.types.now (kind_type kind) ≡ true }
    requires given { IsGiven merged.old kind inner }
    requires known { CanRename merged.old renaming.now }
    requires right { AreRenamed merged.old renaming.now renamed.old }
    ensures extended { IsExtended merged.old merged.new }
    ensures right { OnOk result (AreRenamed merged.new renaming.now renamed.new) }
    ensures held { IfOk result (λ k. holds_type merged.new (kind_type k) ≡ true) }
    ensures written { IfOk result (λ k. IsWrittenAs renaming.now.types.now merged.new (becomes renaming.now) inner name.now kind k) }
    ensures once { IfOk result (λ k. IsKindMadeOf renaming.now.types.now merged.new (becomes renaming.now) renaming.now.became.now.named.now renamed.new.made kind k) }
    ensures stay { OnOk result (StayMade renamed.old.made renamed.new.made) }
{
    match kind {
        ItemKind::TypeItem(ty) => {
            let ty = write_type(merged, renamed, renaming, inner, name, ty)?;
            Ok(ItemKind::TypeItem(ty))
        }
        ItemKind::Func(id) => {
            let func = renamed.func(merged, renaming, id)?;
            Ok(ItemKind::Func(func))
        }
        ItemKind::Value(value) => {
            let value = renamed.value(merged, renaming, value)?;
            Ok(ItemKind::Value(value))
        }
        ItemKind::Instance(_) => Ok(ItemKind::Instance(inner.unwrap())),
        ItemKind::Component(id) => Ok(ItemKind::Component(id)),
        ItemKind::Module(id) => Ok(ItemKind::Module(id)),
    }
}

/// Returns the interface of the union at a position, if there is one. There are `count` unions.
fn written_inner(
    written: &[InterfaceId],
    count: usize,
    position: Option<usize>,
) -> Option<InterfaceId>
    requires { IsBehind count (length written.now) position }
    ensures { IsFoundIn count written.now position result }
{
    let position = position?;
    Some(written[count - 1 - position])
}

/// Returns the merged export of a union under a name: its own new resource, or the rewritten item of its first part.
fn write_export(
    merged: &mut Types,
    renamed: &mut Renamed,
    renaming: &Renaming<'_>,
    next: &NextUnion<'_>,
    name: &str,
    export: &Export,
) -> Result<ItemKind, AllocError>
    requires writing { CanWrite renaming.now.types.now merged.old next.now.unions.now.unions.items renaming.now.became.now next.now.written.now next.now.union }
    requires export { HasExport next.now.unions.now.unions.items next.now.union name.now export.now }
    requires part { renaming.now.part ≡ Some export.now.part }
    requires right { AreRenamed merged.old renaming.now renamed.old }
    ensures extended { IsExtended merged.old merged.new }
    ensures right { OnOk result (AreRenamed merged.new renaming.now renamed.new) }
    ensures written { IfOk result (IsWrittenItem renaming.now.types.now merged.new renaming.now.became.now (length next.now.unions.now.unions.items) next.now.written.now next.now.union name.now export.now) }
    ensures once { IfOk result (λ k. IsKindMadeOf renaming.now.types.now merged.new (becomes renaming.now) renaming.now.became.now.named.now renamed.new.made export.now.kind k) }
    ensures stay { OnOk result (StayMade renamed.old.made renamed.new.made) }
{
    if export.is_own {
        let own = renaming.became.fresh.own_in(next.union, name).unwrap();
        return Ok(ItemKind::TypeItem(Type::Resource(own)));
    }
    renaming.types.law(); // proof only
    let inner = written_inner(next.written, next.unions.unions.len(), export.inner);
    write_kind(merged, renamed, renaming, inner, name, export.kind)
}

/// Starts the part `next`: types that were rewritten in another part are forgotten.
fn begin(renamed: &mut Renamed, part: &mut Option<usize>, next: usize)
    ensures part { part.new ≡ Some next }
    ensures made { renamed.new.made ≡ renamed.old.made }
    ensures right { (c m : Collection) (b : ABecame) → AreMade c b.named.now m renamed.old.made → AreRenamedIn c m b part.old renamed.old → AreRenamedIn c m b part.new renamed.new }
{
    if *part != Some(next) {
        renamed.forget();
        *part = Some(next);
    }
}

/// Appends an item under a name that is not there yet.
pub(crate) fn put_item(
    alloc: Global,
    items: &mut Named<ItemKind>,
    name: &str,
    item: ItemKind,
) -> Result<(), AllocError>
    requires { find_name items.old name.now ≡ None }
    ensures { OnOk result (items.new ≡ items.old ++ (name.now, item) ∷ []) }
{
    match items.insert(alloc, name, item) {
        Ok(()) => Ok(()),
        Err(ShapeError::OutOfMemory) => Err(AllocError),
        Err(ShapeError::NameTwice) => unreachable!(),
    }
}

/// Returns the merged exports of a union.
fn write_exports(
    merged: &mut Types,
    renamed: &mut Renamed,
    renaming: &Renaming<'_>,
    next: &NextUnion<'_>,
) -> Result<Named<ItemKind>, AllocError>
    requires writing { CanWrite renaming.now.types.now merged.old next.now.unions.now.unions.items renaming.now.became.now next.now.written.now next.now.union }
    requires made { AreMade renaming.now.types.now renaming.now.became.now.named.now merged.old renamed.old.made }
    ensures extended { IsExtended merged.old merged.new }
    ensures made { OnOk result (AreMade renaming.now.types.now renaming.now.became.now.named.now merged.new renamed.new.made) }
    ensures written { IfOk result (λ ks. (x : AUnion) → slice_get next.now.unions.now.unions.items next.now.union ≡ Some x → AreWrittenItems renaming.now.types.now merged.new renaming.now.became.now (length next.now.unions.now.unions.items) next.now.written.now next.now.union x.exports ks) }
    ensures once { IfOk result (λ ks. (x : AUnion) → slice_get next.now.unions.now.unions.items next.now.union ≡ Some x → AreItemsMadeOf renaming.now.types.now merged.new (in_parts renaming.now.types.now renaming.now.became.now) renaming.now.became.now.named.now renamed.new.made x.exports ks) }
    ensures stay { OnOk result (StayMade renamed.old.made renamed.new.made) }
{
    merged.law(); // proof only
    let exports = &next.unions.unions[next.union].exports;
    exports.law(); // proof only
    let mut items = Named::with_capacity(renaming.alloc, exports.len())?;
    renamed.forget();
    let mut part = None;
    for i in 0..exports.len() {
        let (name, export) = exports.entry_at(i);
        begin(renamed, &mut part, export.part);
        let here = Renaming { part, ..*renaming };
        let item = write_export(merged, renamed, &here, next, name, export)?;
        put_item(renaming.alloc, &mut items, name, item)?;
    }
    Ok(items)
}

/// Copies an optional text.
fn copied(alloc: Global, text: &Option<String>) -> Result<Option<Text>, AllocError>
    ensures { IfOk result (λ t. t ≡ option_map string_bytes text.now) }
{
    match text {
        Some(text) => Ok(Some(Text::new(alloc, text.as_str())?)),
        None => Ok(None),
    }
}

/// Returns the single interface of a union, if it has one and the union keeps its id.
fn alone(types: &Types, unions: &Unions, union: usize, id: &Option<Text>) -> Option<InterfaceId>
    requires unions { (roots : List (List AnId)) × AreUnions types.now roots unions.now.unions.items unions.now.parts.items }
    requires within { union < length unions.now.unions.items }
    ensures is { IfSome result (λ i. (x : AUnion) → slice_get unions.now.unions.items union ≡ Some x → IsAloneIn types.now unions.now.parts.items id.now x.parts.items i) }
    ensures all { (x : AUnion) (i : AnId) → slice_get unions.now.unions.items union ≡ Some x → IsAloneIn types.now unions.now.parts.items id.now x.parts.items i → result ≡ Some i }
{
    let [part] = unions.unions[union].parts.as_slice() else {
        return None;
    };
    let interface = unions.parts[*part].interface;
    if types[interface].id != *id {
        return None;
    }
    Some(interface)
}

/// Adds the interface of a union. The interfaces of all later unions exist already.
fn write_union(
    merged: &mut Types,
    renamed: &mut Renamed,
    shared: &mut Shared,
    renaming: &Renaming<'_>,
    next: &NextUnion<'_>,
    id: &Option<String>,
) -> Result<InterfaceId, AllocError>
    requires writing { CanWrite renaming.now.types.now merged.old next.now.unions.now.unions.items renaming.now.became.now next.now.written.now next.now.union }
    requires parts { renaming.now.became.now.parts.now ≡ next.now.unions.now.parts.items }
    requires made { AreMade renaming.now.types.now renaming.now.became.now.named.now merged.old renamed.old.made }
    requires there { (i v : AnId) → first_in shared.old i ≡ Some v → HasInterface merged.old v }
    ensures extended { IsExtended merged.old merged.new }
    ensures made { OnOk result (AreMade renaming.now.types.now renaming.now.became.now.named.now merged.new renamed.new.made) }
    ensures shared { IfOk result (λ w. (x : AUnion) → slice_get next.now.unions.now.unions.items next.now.union ≡ Some x → Shares (IsAloneIn renaming.now.types.now next.now.unions.now.parts.items (option_map string_bytes id.now) x.parts.items) merged.old merged.new (first_in shared.old) (first_in shared.new) w) }
    ensures written { IfOk result (λ w. (x : AUnion) → slice_get next.now.unions.now.unions.items next.now.union ≡ Some x → IsWrittenUnion renaming.now.types.now merged.new renaming.now.became.now (length next.now.unions.now.unions.items) next.now.written.now next.now.union x (option_map string_bytes id.now) w) }
    ensures once { IfOk result (λ w. (x : AUnion) → slice_get next.now.unions.now.unions.items next.now.union ≡ Some x → IsUnionMadeOf renaming.now.types.now merged.new (in_parts renaming.now.types.now renaming.now.became.now) renaming.now.became.now.named.now renamed.new.made x w) }
    ensures stay { OnOk result (StayMade renamed.old.made renamed.new.made) }
{
    let exports = write_exports(merged, renamed, renaming, next)?;
    let id = copied(renaming.alloc, id)?;
    let source = alone(renaming.types, next.unions, next.union, &id);
    let uses = Named::new(renaming.alloc);
    shared.write(merged, source, Interface { id, uses, exports })
}

/// Adds the interface of each union, with the given id, and returns them in the order of the unions.
///
/// Nested unions come later in the list, so it is written from the last to the first.
///
/// # Errors
/// - [`AllocError`] if out of memory. The merged collection may then hold more types.
pub fn write_unions(
    merged: &mut Types,
    renamed: &mut Renamed,
    renaming: &Renaming<'_>,
    unions: &Unions,
    ids: &[Option<String>],
) -> Result<Vec<InterfaceId>, AllocError>
    requires unions { (roots : List (List AnId)) × AreUnions renaming.now.types.now roots unions.now.unions.items unions.now.parts.items }
    requires parts { renaming.now.became.now.parts.now ≡ unions.now.parts.items }
    requires counted { length ids.now ≡ length unions.now.unions.items }
    requires fresh { AreFresh renaming.now.types.now unions.now.unions.items renaming.now.became.now.bindings.now renaming.now.became.now.fresh.now merged.old }
    requires known { CanRenameAll merged.old renaming.now.types.now renaming.now.became.now }
    requires made { AreMade renaming.now.types.now renaming.now.became.now.named.now merged.old renamed.old.made }
    ensures extended { IsExtended merged.old merged.new }
    ensures made { OnOk result (AreMade renaming.now.types.now renaming.now.became.now.named.now merged.new renamed.new.made) }
    ensures written { IfOk result (λ ws. AreWritten renaming.now.types.now merged.new unions.now.unions.items unions.now.parts.items renaming.now.became.now.bindings.now renaming.now.became.now.fresh.now (map (option_map string_bytes) ids.now) ws.items) }
    ensures shared { IfOk result (λ ws. AreSharedUnions renaming.now.types.now merged.new unions.now.unions.items unions.now.parts.items (map (option_map string_bytes) ids.now) ws.items) }
    ensures once { IfOk result (λ ws. AreUnionsMadeOf renaming.now.types.now merged.new (in_parts renaming.now.types.now renaming.now.became.now) renaming.now.became.now.named.now renamed.new.made unions.now.unions.items ws.items) }
    ensures stay { OnOk result (StayMade renamed.old.made renamed.new.made) }
{
    merged.law(); // proof only
    let count = unions.unions.len();
    let mut seen = Shared::new(renaming.alloc);
    let mut written = Vec::new(renaming.alloc);
    for done in 0..count {
        let union = count - 1 - done;
        let next = NextUnion {
            unions,
            written: written.as_slice(),
            union,
        };
        let id = &ids[union];
        let interface = write_union(merged, renamed, &mut seen, renaming, &next, id)?;
        written.push(interface)?;
    }
    written.reverse();
    Ok(written)
}
