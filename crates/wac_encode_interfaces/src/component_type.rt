//! Component types.
ghost use Rattle.std.specs.Prelude.{◌≡◌, ◌≤◌, ◌<◌, ◌+◌, ◌^◌, ◌∷◌, ◌++◌, [], ℕ, List, true, false, Some, None, IfOk, OnOk, OnErr, Contains, length, slice_get};
ghost use Rattle.std.specs.List.{IsDistinct, flat_map};
ghost use Rattle.wac_types_shapes.specs.primitives.Name.{Name as AnyName};
ghost use Rattle.wac_types_shapes.specs.primitives.Tree.{imported, exported};
ghost use Rattle.wac_types_shapes.specs.shapes.Kinds.{kind_type};
ghost use Rattle.wac_types_shapes.specs.contracts.shapes.component.InterfaceIdPartialEq.TheImpl as IdEq;
ghost use Rattle.wac_types_shapes.specs.declared.shapes.component.ItemKind.{ItemKind as AKind};
ghost use Rattle.wac_types_shapes.specs.declared.shapes.component.ItemKind.TheVariants as kind_of;
ghost use Rattle.wac_types_shapes.specs.declared.shapes.component.InterfaceId.{InterfaceId as AnInterfaceId};
ghost use Rattle.wac_types_shapes.specs.declared.shapes.component.ResourceId.{ResourceId as AResource};
ghost use Rattle.wac_types_shapes.specs.declared.shapes.component.«Type».{«Type» as AnyType};
ghost use Rattle.wac_types_shapes.specs.declared.shapes.component.«Type».TheVariants as ty_of;
ghost use Rattle.wac_types_collection.specs.collection.Collection.{HasInterface};
ghost use Rattle.wac_types_collection.specs.collection.Held.{resolved};
ghost use Rattle.wac_edges.specs.cycles.Cycles.{HasNoCycle};
ghost use Rattle.wac_types_weight.specs.private.Laws.{Covers};
ghost use Rattle.wac_encode_scopes.specs.private.Components.{ComponentHasMeaning, component_tree, IsComponentType};
ghost use Rattle.wac_encode_scopes.specs.private.Paid.{PaidBy};
ghost use Rattle.wac_encode_scopes.specs.Contents.{side_of};
ghost use Rattle.wac_encode_scopes.specs.States.{Goes};
ghost use Rattle.wac_encode_faults.specs.Cycle.{numbered_items, owner_of};
ghost use Rattle.wac_encode_faults.specs.Sides.{export_bindings, under_id};
ghost use Rattle.wac_encode_interfaces.specs.private.Items.{HasInterfaceOf};
ghost use Rattle.wac_encode_faults.specs.Trees.{sides_tree};
ghost use Rattle.wac_encode_interfaces.specs.private.Given.{sides_of, AreHeldItems, AreHeldSides, HaveSidesWorlds};
ghost use Rattle.wac_encode_interfaces.specs.private.Paid.{CoversSides, MayHold, SizedWithin, inside_cost, part_cost, side_cost, side_total, sides_cost};
ghost use Rattle.wac_encode_interfaces.specs.private.Ready.{AreSidesClean, IsInterfaceReady};
ghost use Rattle.wac_encode_interfaces.specs.private.Refused.{KeepsScopes};
ghost use Rattle.wac_encode_interfaces.specs.private.Worlds.{HaveInterfaceWorlds, written_in};
ghost use Rattle.wac_encode_interfaces.specs.private.Writers.{IsWriter};
ghost use Rattle.wac_encode_interfaces.specs.private.Written.{side_item, is_bound_at, IsItemOf, IsWritten};
ghost use Rattle.wac_encode_interfaces.specs.private.Parts.{sides_in, ArePlanned, MayFollow, WritesItem, is_number, interface_of, resource_of, type_interface};
ghost use Rattle.wac_encode_interfaces.specs.private.Ordered.{side_list, first_number, IsOrdered, AreDependencies, AreSidesWritten, MayBegin, WritesSide};

use crate::ordered_sides::side_positions;
use crate::sides::{Parts, Sides};
use crate::writer::TypeWriter;
use std::alloc::AllocError;
use std::collections::BTreeSet;
use wac_binary::{BinaryFault, ComponentType};
use wac_encode_faults::{item_dependencies, item_owners, join_imports};
use wac_encode_scopes::{Side, State};
use wac_encode_stacks::still_law;
use wac_types_collection::{InterfaceId, ItemKind, Named, ResourceId, ShapeError, Type, Types};
use wac_types_weight::weight_law;

/// Returns the interface of an instance.
fn instance_in(item: ItemKind) -> Option<InterfaceId>
    ensures { result ≡ interface_of item }
{
    match item {
        ItemKind::Instance(id) => Some(id),
        _ => None,
    }
}

/// Returns the interface, if the type is one.
fn interface_in(ty: Type) -> Option<InterfaceId>
    ensures { result ≡ type_interface ty }
{
    match ty {
        Type::Interface(id) => Some(id),
        _ => None,
    }
}

/// Returns the resource of a type item.
fn resource_in(item: ItemKind) -> Option<ResourceId>
    ensures { result ≡ resource_of item }
{
    match item {
        ItemKind::TypeItem(Type::Resource(id)) => Some(id),
        _ => None,
    }
}

/// Whether a resource has this number.
fn has_number(parts: &Parts<'_>, resource: ResourceId, number: usize) -> bool
    ensures { result ≡ is_number number (owner_of parts.now.owners.now.entries resource) }
{
    match parts.owners.get(&resource) {
        Some(owner) => *owner == number,
        None => false,
    }
}

/// Returns all imports of a component type. No interface may be additional twice.
fn all_imports(types: &Types, sides: &Sides<'_>) -> Result<Named<ItemKind>, AllocError>
    requires held { AreHeldSides types.now sides.now }
    requires once { IsDistinct (IdEq.ghosts).eq sides.now.additional.now }
    requires clean { AreSidesClean types.now (sides_of types.now sides.now) }
    ensures { IfOk result (λ n. n ≡ sides.now.imports.now ++ flat_map (under_id types.now) sides.now.additional.now) }
{
    sides.imports.law(); // proof only
    match join_imports(types, sides.imports, sides.additional) {
        Ok(imports) => Ok(imports),
        Err(ShapeError::NameTwice) => unreachable!(),
        Err(ShapeError::OutOfMemory) => Err(AllocError),
    }
}

impl<'a> TypeWriter<'a> {
    /// Adds a fresh resource to one side of a component type.
    fn write_fresh(
        &self,
        state: &mut State,
        parts: &Parts<'_>,
        side: Side,
        name: &str,
        resource: ResourceId,
    ) -> Result<(), BinaryFault>
        requires planned { ArePlanned self.now.types.now (written_in self.now.worlds.now) parts.now }
        requires item { IsItemOf (sides_in parts.now) (side_of side) name.now (kind_of.TypeItem (ty_of.Resource resource)) false }
        requires made { is_bound_at (export_bindings self.now.types.now (sides_in parts.now) (resolved self.now.types.now resource)) (side_item (side_of side) name.now) ≡ true }
        requires next { MayFollow self.now.types.now self.now.merged parts.now (side_of side) name.now state.old }
        ensures writes { OnOk result (WritesItem self.now.types.now self.now.merged parts.now (side_of side) name.now state.old state.new) }
        ensures paid { (ts : List AnyType) → Covers self.now.types.now ts (kind_type (kind_of.TypeItem (ty_of.Resource resource))) → PaidBy self.now.types.now self.now.merged ts (side_cost self.now.types.now name.now (kind_of.TypeItem (ty_of.Resource resource)) false) state.old state.new result }
    {
        let _ = parts.uses;
        self.types.law(); // proof only
        state.list_fresh(self.merged, side, name, resource)?;
        Ok(())
    }

    /// Writes the interface of an item into the innermost scope, unless it is recorded there.
    pub(crate) fn write_interface_of(
        &self,
        state: &mut State,
        item: ItemKind,
    ) -> Result<(), BinaryFault>
        requires writer { IsWriter self.now }
        requires held { (i : AnInterfaceId) → kind_type item ≡ ty_of.Interface i → HasInterface self.now.types.now i }
        requires ready { (i : AnInterfaceId) → kind_type item ≡ ty_of.Interface i → IsInterfaceReady self.now.types.now self.now.merged state.old false i }
        requires worlds { (i : AnInterfaceId) → kind_type item ≡ ty_of.Interface i → HaveInterfaceWorlds self.now.types.now (written_in self.now.worlds.now) false i }
        ensures goes { OnOk result (Goes self.now.types.now self.now.merged state.old state.new) }
        ensures has { OnOk result (HasInterfaceOf self.now.merged state.new item) }
        ensures refused { OnErr result (KeepsScopes state.old state.new) }
        ensures paid { MayHold self.now.merged state.old.here.content (kind_type item) → PaidBy self.now.types.now self.now.merged [] (inside_cost self.now.types.now (kind_type item)) state.old state.new result }
    {
        still_law();
        match interface_in(item.ty()) {
            None => Ok(()),
            Some(interface) => {
                self.interface_index(state, interface, false)?;
                Ok(())
            }
        }
    }

    /// Adds an item that binds no resource to one side of a component type.
    fn write_other(
        &self,
        state: &mut State,
        parts: &Parts<'_>,
        side: Side,
        name: &str,
        item: ItemKind,
    ) -> Result<(), BinaryFault>
        requires writer { IsWriter self.now }
        requires planned { ArePlanned self.now.types.now (written_in self.now.worlds.now) parts.now }
        requires item { IsItemOf (sides_in parts.now) (side_of side) name.now item false }
        requires other { (r : AResource) → is_bound_at (export_bindings self.now.types.now (sides_in parts.now) r) (side_item (side_of side) name.now) ≡ false }
        requires next { MayFollow self.now.types.now self.now.merged parts.now (side_of side) name.now state.old }
        ensures writes { OnOk result (WritesItem self.now.types.now self.now.merged parts.now (side_of side) name.now state.old state.new) }
        ensures paid { (ts : List AnyType) → Covers self.now.types.now ts (kind_type item) → PaidBy self.now.types.now self.now.merged ts (side_cost self.now.types.now name.now item false) state.old state.new result }
    {
        let _ = parts.uses;
        self.types.law(); // proof only
        weight_law();
        self.write_interface_of(state, item)?;
        self.add_item(state, side, name, item)?;
        Ok(())
    }

    /// Adds a resource to one side of a component type. It is fresh if it has the item's number, and else equal to what it
    /// is bound to.
    fn write_resource(
        &self,
        state: &mut State,
        parts: &Parts<'_>,
        side: Side,
        number: usize,
        name: &str,
        resource: ResourceId,
    ) -> Result<(), BinaryFault>
        requires writer { IsWriter self.now }
        requires planned { ArePlanned self.now.types.now (written_in self.now.worlds.now) parts.now }
        requires item { IsItemOf (sides_in parts.now) (side_of side) name.now (kind_of.TypeItem (ty_of.Resource resource)) false }
        requires number { slice_get (numbered_items (sides_in parts.now)) number ≡ Some (side_item (side_of side) name.now) }
        requires next { MayFollow self.now.types.now self.now.merged parts.now (side_of side) name.now state.old }
        ensures writes { OnOk result (WritesItem self.now.types.now self.now.merged parts.now (side_of side) name.now state.old state.new) }
        ensures paid { (ts : List AnyType) → Covers self.now.types.now ts (kind_type (kind_of.TypeItem (ty_of.Resource resource))) → PaidBy self.now.types.now self.now.merged ts (side_cost self.now.types.now name.now (kind_of.TypeItem (ty_of.Resource resource)) false) state.old state.new result }
    {
        self.types.law(); // proof only
        let end = self.types.resolve_resource(resource);
        if has_number(parts, end, number) {
            self.write_fresh(state, parts, side, name, resource)
        } else {
            let item = ItemKind::TypeItem(Type::Resource(resource));
            self.write_other(state, parts, side, name, item)
        }
    }

    /// Adds an item, which is no instance, to one side of a component type.
    fn write_plain(
        &self,
        state: &mut State,
        parts: &Parts<'_>,
        side: Side,
        number: usize,
        name: &str,
        item: ItemKind,
    ) -> Result<(), BinaryFault>
        requires writer { IsWriter self.now }
        requires planned { ArePlanned self.now.types.now (written_in self.now.worlds.now) parts.now }
        requires item { IsItemOf (sides_in parts.now) (side_of side) name.now item false }
        requires plain { interface_of item ≡ None }
        requires number { slice_get (numbered_items (sides_in parts.now)) number ≡ Some (side_item (side_of side) name.now) }
        requires next { MayFollow self.now.types.now self.now.merged parts.now (side_of side) name.now state.old }
        ensures writes { OnOk result (WritesItem self.now.types.now self.now.merged parts.now (side_of side) name.now state.old state.new) }
        ensures paid { (ts : List AnyType) → Covers self.now.types.now ts (kind_type item) → PaidBy self.now.types.now self.now.merged ts (side_cost self.now.types.now name.now item false) state.old state.new result }
    {
        self.types.law(); // proof only
        match resource_in(item) {
            Some(id) => self.write_resource(state, parts, side, number, name, id),
            None => self.write_other(state, parts, side, name, item),
        }
    }

    /// Adds an item to one side of a component type.
    fn write_item(
        &self,
        state: &mut State,
        parts: &Parts<'_>,
        side: Side,
        number: usize,
        name: &str,
        item: ItemKind,
        additional: bool,
    ) -> Result<(), BinaryFault>
        requires writer { IsWriter self.now }
        requires planned { ArePlanned self.now.types.now (written_in self.now.worlds.now) parts.now }
        requires item { IsItemOf (sides_in parts.now) (side_of side) name.now item additional }
        requires number { slice_get (numbered_items (sides_in parts.now)) number ≡ Some (side_item (side_of side) name.now) }
        requires next { MayFollow self.now.types.now self.now.merged parts.now (side_of side) name.now state.old }
        ensures writes { OnOk result (WritesItem self.now.types.now self.now.merged parts.now (side_of side) name.now state.old state.new) }
        ensures paid { (ts : List AnyType) → Covers self.now.types.now ts (kind_type item) → PaidBy self.now.types.now self.now.merged ts (side_cost self.now.types.now name.now item additional) state.old state.new result }
    {
        match instance_in(item) {
            Some(id) => self.write_instance(state, parts, side, number, name, id, additional),
            None => self.write_plain(state, parts, side, number, name, item),
        }
    }

    /// Adds the import at this position to a component type.
    fn write_import(
        &self,
        state: &mut State,
        parts: &Parts<'_>,
        position: usize,
    ) -> Result<(), BinaryFault>
        requires writer { IsWriter self.now }
        requires planned { ArePlanned self.now.types.now (written_in self.now.worlds.now) parts.now }
        requires position { position < length parts.now.imports.now }
        requires next { (n : AnyName) (k : AKind) → slice_get parts.now.imports.now position ≡ Some (n, k) → MayFollow self.now.types.now self.now.merged parts.now imported n state.old }
        ensures writes { OnOk result ((n : AnyName) (k : AKind) → slice_get parts.now.imports.now position ≡ Some (n, k) → WritesItem self.now.types.now self.now.merged parts.now imported n state.old state.new) }
        ensures paid { (n : AnyName) (k : AKind) (ts : List AnyType) → slice_get parts.now.imports.now position ≡ Some (n, k) → Covers self.now.types.now ts (kind_type k) → PaidBy self.now.types.now self.now.merged ts (part_cost self.now.types.now parts.now imported position n k) state.old state.new result }
    {
        let (name, item) = parts.imports.entry_at(position);
        let additional = parts.listed.len() <= position;
        self.write_item(
            state,
            parts,
            Side::Import,
            position,
            name,
            *item,
            additional,
        )
    }

    /// Adds the export at this position to a component type.
    fn write_export(
        &self,
        state: &mut State,
        parts: &Parts<'_>,
        position: usize,
    ) -> Result<(), BinaryFault>
        requires writer { IsWriter self.now }
        requires planned { ArePlanned self.now.types.now (written_in self.now.worlds.now) parts.now }
        requires room { length parts.now.imports.now + length parts.now.exports.now < 2 ^ 64 }
        requires position { position < length parts.now.exports.now }
        requires next { (n : AnyName) (k : AKind) → slice_get parts.now.exports.now position ≡ Some (n, k) → MayFollow self.now.types.now self.now.merged parts.now exported n state.old }
        ensures writes { OnOk result ((n : AnyName) (k : AKind) → slice_get parts.now.exports.now position ≡ Some (n, k) → WritesItem self.now.types.now self.now.merged parts.now exported n state.old state.new) }
        ensures paid { (n : AnyName) (k : AKind) (ts : List AnyType) → slice_get parts.now.exports.now position ≡ Some (n, k) → Covers self.now.types.now ts (kind_type k) → PaidBy self.now.types.now self.now.merged ts (part_cost self.now.types.now parts.now exported position n k) state.old state.new result }
    {
        let (name, item) = parts.exports.entry_at(position);
        let number = parts.imports.len() + position;
        self.write_item(state, parts, Side::Export, number, name, *item, false)
    }

    /// Adds the item at this position to one side of a component type.
    fn write_at(
        &self,
        state: &mut State,
        parts: &Parts<'_>,
        side: Side,
        position: usize,
    ) -> Result<(), BinaryFault>
        requires writer { IsWriter self.now }
        requires planned { ArePlanned self.now.types.now (written_in self.now.worlds.now) parts.now }
        requires room { length parts.now.imports.now + length parts.now.exports.now < 2 ^ 64 }
        requires position { position < length (side_list parts.now (side_of side)) }
        requires next { (n : AnyName) (k : AKind) → slice_get (side_list parts.now (side_of side)) position ≡ Some (n, k) → MayFollow self.now.types.now self.now.merged parts.now (side_of side) n state.old }
        ensures writes { OnOk result ((n : AnyName) (k : AKind) → slice_get (side_list parts.now (side_of side)) position ≡ Some (n, k) → WritesItem self.now.types.now self.now.merged parts.now (side_of side) n state.old state.new) }
        ensures paid { (n : AnyName) (k : AKind) (ts : List AnyType) → slice_get (side_list parts.now (side_of side)) position ≡ Some (n, k) → Covers self.now.types.now ts (kind_type k) → PaidBy self.now.types.now self.now.merged ts (part_cost self.now.types.now parts.now (side_of side) position n k) state.old state.new result }
    {
        match side {
            Side::Import => self.write_import(state, parts, position),
            Side::Export => self.write_export(state, parts, position),
        }
    }

    /// Adds all items of one side to a component type, in order. `steps` leads from each item to those that it depends on.
    fn write_side(
        &self,
        state: &mut State,
        parts: &Parts<'_>,
        side: Side,
        order: &[usize],
        steps: &[BTreeSet<usize>],
    ) -> Result<(), BinaryFault>
        requires writer { IsWriter self.now }
        requires planned { ArePlanned self.now.types.now (written_in self.now.worlds.now) parts.now }
        requires room { length parts.now.imports.now + length parts.now.exports.now < 2 ^ 64 }
        requires steps { AreDependencies self.now.types.now parts.now steps.now }
        requires order { IsOrdered steps.now (first_number parts.now (side_of side)) (length (side_list parts.now (side_of side))) order.now }
        requires begins { MayBegin self.now.types.now self.now.merged parts.now (side_of side) state.old }
        ensures writes { OnOk result (WritesSide self.now.types.now self.now.merged parts.now (side_of side) state.old state.new) }
        ensures paid { (ts : List AnyType) → CoversSides self.now.types.now ts (sides_in parts.now) → PaidBy self.now.types.now self.now.merged ts (side_total self.now.types.now parts.now (side_of side)) state.old state.new result }
    {
        for i in 0..order.len() {
            self.write_at(state, parts, side, order[i])?;
        }
        Ok(())
    }

    /// Adds the imports of a component type, in order.
    fn write_imports(
        &self,
        state: &mut State,
        parts: &Parts<'_>,
        steps: &[BTreeSet<usize>],
    ) -> Result<(), BinaryFault>
        requires writer { IsWriter self.now }
        requires planned { ArePlanned self.now.types.now (written_in self.now.worlds.now) parts.now }
        requires counted { length steps.now ≡ length parts.now.imports.now + length parts.now.exports.now }
        requires steps { AreDependencies self.now.types.now parts.now steps.now }
        requires begins { MayBegin self.now.types.now self.now.merged parts.now imported state.old }
        ensures writes { OnOk result (WritesSide self.now.types.now self.now.merged parts.now imported state.old state.new) }
        ensures paid { (ts : List AnyType) → CoversSides self.now.types.now ts (sides_in parts.now) → PaidBy self.now.types.now self.now.merged ts (side_total self.now.types.now parts.now imported) state.old state.new result }
    {
        let _ = steps.len(); // proof only
        let additional = parts.imports.len() - parts.listed.len();
        let order = side_positions(self.types, parts.listed, additional, steps, 0)?;
        self.write_side(state, parts, Side::Import, order.as_slice(), steps)
    }

    /// Adds the exports of a component type, in order.
    fn write_exports(
        &self,
        state: &mut State,
        parts: &Parts<'_>,
        steps: &[BTreeSet<usize>],
    ) -> Result<(), BinaryFault>
        requires writer { IsWriter self.now }
        requires planned { ArePlanned self.now.types.now (written_in self.now.worlds.now) parts.now }
        requires counted { length steps.now ≡ length parts.now.imports.now + length parts.now.exports.now }
        requires steps { AreDependencies self.now.types.now parts.now steps.now }
        requires begins { MayBegin self.now.types.now self.now.merged parts.now exported state.old }
        ensures writes { OnOk result (WritesSide self.now.types.now self.now.merged parts.now exported state.old state.new) }
        ensures paid { (ts : List AnyType) → CoversSides self.now.types.now ts (sides_in parts.now) → PaidBy self.now.types.now self.now.merged ts (side_total self.now.types.now parts.now exported) state.old state.new result }
    {
        let _ = steps.len(); // proof only
        let first = parts.imports.len();
        let order = side_positions(self.types, parts.exports, 0, steps, first)?;
        self.write_side(state, parts, Side::Export, order.as_slice(), steps)
    }

    /// Adds the imports of a component type, and then its exports.
    fn write_sides(
        &self,
        state: &mut State,
        parts: &Parts<'_>,
        steps: &[BTreeSet<usize>],
    ) -> Result<(), BinaryFault>
        requires writer { IsWriter self.now }
        requires planned { ArePlanned self.now.types.now (written_in self.now.worlds.now) parts.now }
        requires counted { length steps.now ≡ length parts.now.imports.now + length parts.now.exports.now }
        requires steps { AreDependencies self.now.types.now parts.now steps.now }
        requires begins { IsWritten self.now.types.now self.now.merged (sides_in parts.now) [] state.old }
        ensures writes { OnOk result (AreSidesWritten self.now.types.now self.now.merged parts.now state.new) }
        ensures paid { (ts : List AnyType) → CoversSides self.now.types.now ts (sides_in parts.now) → PaidBy self.now.types.now self.now.merged ts (side_total self.now.types.now parts.now imported + side_total self.now.types.now parts.now exported) state.old state.new result }
    {
        self.write_imports(state, parts, steps)?;
        self.write_exports(state, parts, steps)
    }

    /// Returns the component type with these parts.
    fn component_of(&self, parts: &Parts<'_>) -> Result<ComponentType, BinaryFault>
        requires writer { IsWriter self.now }
        requires planned { ArePlanned self.now.types.now (written_in self.now.worlds.now) parts.now }
        ensures meaning { IfOk result (λ ds. ComponentHasMeaning ds × (component_tree ds ≡ sides_tree self.now.types.now (sides_in parts.now))) }
        ensures small { SizedWithin 0 (sides_cost self.now.types.now (sides_in parts.now)) result }
    {
        self.types.law(); // proof only
        weight_law();
        let own = parts.listed.len();
        let steps = item_dependencies(self.types, parts.uses, parts.imports, own, parts.exports)?;
        let mut state = State::component(self.types.allocator());
        self.write_sides(&mut state, parts, steps.as_slice())?;
        Ok(state.finish_component())
    }

    /// Returns a component type with these imports and exports.
    ///
    /// Imports come first. On each side instances come first, then type items, then the rest, each directly after the items
    /// that it depends on. A resource is fresh where it is bound first: by an instance before a type item, by an import
    /// before an export. A component type sees nothing outside it. No interface may be additional twice.
    ///
    /// # Errors
    /// - `TooLarge` if the content of a scope would not fit 32-bit sizes.
    /// - `OutOfMemory`.
    pub fn component_type(&self, sides: &Sides<'_>) -> Result<ComponentType, BinaryFault>
        requires writer { IsWriter self.now }
        requires held { AreHeldSides self.now.types.now sides.now }
        requires once { IsDistinct (IdEq.ghosts).eq sides.now.additional.now }
        requires clean { AreSidesClean self.now.types.now (sides_of self.now.types.now sides.now) }
        requires worlds { HaveSidesWorlds self.now.types.now (written_in self.now.worlds.now) sides.now }
        ensures meaning { IfOk result (λ ds. ComponentHasMeaning ds × (component_tree ds ≡ sides_tree self.now.types.now (sides_of self.now.types.now sides.now))) }
        ensures small { SizedWithin 0 (sides_cost self.now.types.now (sides_of self.now.types.now sides.now)) result }
    {
        let imports = all_imports(self.types, sides)?;
        let owners = item_owners(self.types, sides.uses, &imports, sides.exports)?;
        imports.law(); // proof only
        sides.exports.law(); // proof only
        self.component_of(&Parts {
            uses: sides.uses,
            listed: sides.imports,
            imports: &imports,
            exports: sides.exports,
            owners: &owners,
        })
    }
}
