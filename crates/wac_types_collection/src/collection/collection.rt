//! The collection of types: lists of items, each of which mentions only items added before it.
ghost use Rattle.std.specs.Prelude.{ℕ, ◌≡◌, ◌<◌, ◌==◌, length, vec_len, Some, None, IfOk, IfErr, OnErr, OnOk, IfSome};
ghost use Rattle.std.specs.Option.{option_copied};
ghost use Rattle.wac_types_collection.specs.collection.Collection.{Collection, IsWellFormed, HasResource, HasFunc, HasDefined, HasInterface, HasWorld, HasModule, empty, size, func_mentions, resource_mentions, defined_mentions, holds_value, holds_type, with_resource, with_func, with_defined, with_interface, with_world, with_module, item_at};
ghost use Rattle.wac_types_collection.specs.collection.Held.{resolved};
ghost use Rattle.wac_types_collection.specs.collection.Aliases.{value_resolved};
ghost use Rattle.wac_types_collection.specs.private.collection.Ends.{HasEnds, end_at};
ghost use Rattle.wac_types_shapes.specs.declared.shapes.component.ValueType.TheVariants as val;
ghost use Rattle.wac_types_collection.specs.declared.collection.collection.AddTypeError.TheVariants.{OutOfMemory};
ghost use Rattle.wac_types_collection.specs.collection.Names.{HasDistinctNames};
ghost use Rattle.wac_types_collection.specs.collection.Uses.{AnswersBy, mention_fault, interface_fault, world_fault, IsSound};

use crate::collection::shared::{Items, hold};
use std::alloc::{AllocError, Global};
use std::fmt;
use std::marker::Model;
use std::ops::Index;
use thiserror::Error;
use wac_types_shapes::{
    DefinedType, DefinedTypeId, FuncType, FuncTypeId, Interface, InterfaceId, ModuleType,
    ModuleTypeId, Resource, ResourceId, Type, TypeCollection, ValueType, World, WorldId,
};

/// Why an item is not added. Errors are tested in this order.
#[derive(Clone, Copy, Debug, PartialEq, Eq, Error)]
pub enum AddTypeError {
    /// The item mentions an id that is not of the collection.
    #[error("NotHeld")]
    NotHeld,
    /// A type is used from an interface without an id.
    #[error("UsedInterfaceUnnamed")]
    UsedInterfaceUnnamed,
    /// A type is used from an interface that does not export a type of that name.
    #[error("UsedTypeMissing")]
    UsedTypeMissing,
    /// The import or export under the name of a used type is not that type.
    #[error("UsedTypeDiffers")]
    UsedTypeDiffers,
    /// A resource has a name here other than its own, and is neither an alias nor a used type.
    #[error("ResourceMisnamed")]
    ResourceMisnamed,
    /// Out of memory.
    #[error("OutOfMemory")]
    OutOfMemory,
}

/// An item, with the number of items that were added before it.
#[derive(Drop)]
pub struct Held<T> {
    /// The item.
    pub item: T,
    /// The number of items, of any sort, that were added before it.
    pub before: usize,
}

/// A collection of types. Each item mentions only items added before it.
///
/// A method that adds an item returns its id. If it fails, the collection is unchanged.
pub struct Types {
    alloc: Global,
    resources: Items<Resource>,
    /// For each resource, the resource at the end of its aliases.
    resource_ends: Vec<ResourceId>,
    funcs: Items<FuncType>,
    defined: Items<DefinedType>,
    /// For each definition up to the last alias, the value type at the end of its aliases. A later one is its own end.
    value_ends: Vec<ValueType>,
    interfaces: Items<Interface>,
    worlds: Items<World>,
    modules: Items<ModuleType>,
}

impl TypeCollection for Types {}

// By hand: a derived `Drop` is proved again in each program that drops a collection (docs/PROOFS.md, 'Drop').
impl Drop for Types {
    fn drop(self) {
        let Types {
            alloc: _,
            resources: _,
            resource_ends: _,
            funcs: _,
            defined: _,
            value_ends: _,
            interfaces: _,
            worlds: _,
            modules: _,
        } = self;
    }
}

impl Model for Types {
    ghost Value = { Collection };

    ghost view = { λ t. record {
      resources = t.resources;
      funcs = t.funcs;
      defined = t.defined;
      interfaces = t.interfaces;
      worlds = t.worlds;
      modules = t.modules;
    } };

    ghost invariant = { λ t. HasEnds (record {
      resources = t.resources;
      funcs = t.funcs;
      defined = t.defined;
      interfaces = t.interfaces;
      worlds = t.worlds;
      modules = t.modules;
    }) t.resource_ends.items t.value_ends.items };
}

/// A clone has the same items with the same ids, in shared memory. Each of the two can grow.
///
/// `clone` is `Err(AllocError)` if out of memory.
impl Clone for Types {
    ghost is_clone = { λ a b. b ≡ a };

    fn clone(&self) -> Result<Types, AllocError> {
        Ok(Types {
            alloc: self.alloc,
            resources: self.resources.clone()?,
            resource_ends: self.resource_ends.clone()?,
            funcs: self.funcs.clone()?,
            defined: self.defined.clone()?,
            value_ends: self.value_ends.clone()?,
            interfaces: self.interfaces.clone()?,
            worlds: self.worlds.clone()?,
            modules: self.modules.clone()?,
        })
    }
}

/// Writes the lists of items.
impl fmt::Debug for Types {
    fn fmt<W: fmt::Write>(&self, f: &mut fmt::Formatter<W>) -> fmt::Result {
        f.debug_struct("Types")
            .field("resources", &self.resources)
            .field("funcs", &self.funcs)
            .field("defined", &self.defined)
            .field("interfaces", &self.interfaces)
            .field("worlds", &self.worlds)
            .field("modules", &self.modules)
            .finish()
    }
}

/// Extends the ends through definition `last`. An added end is the definition itself, so no end changes.
///
/// If out of memory, no end changes either.
#[tactic(auto, using(crate::proofs::lemmas::collection::Ends::own_end))]
fn fill_ends(ends: &mut Vec<ValueType>, last: usize) -> Result<(), AllocError>
    ensures same { (i : ℕ) → end_at ends.new.items i ≡ end_at ends.old.items i }
    ensures through { OnOk result (last < vec_len ends.new) }
{
    while ends.len() <= last {
        let next = DefinedTypeId(ends.len());
        ends.push(ValueType::Defined(next))?;
    }
    Ok(())
}

impl Types {
    /// Returns an empty collection.
    pub fn new(alloc: Global) -> Types
        ensures { result ≡ empty }
    {
        Types {
            alloc,
            resources: Items::new(),
            resource_ends: Vec::new(alloc),
            funcs: Items::new(),
            defined: Items::new(),
            value_ends: Vec::new(alloc),
            interfaces: Items::new(),
            worlds: Items::new(),
            modules: Items::new(),
        }
    }

    /// Proof only: each item mentions only items added before it (docs/PROOFS.md, 'Laws').
    pub fn law(&self)
        ensures { IsWellFormed self.now }
    {
        let _ = &self.funcs;
    }

    /// Proof only: no interface and no world of the collection has a fault (docs/PROOFS.md, 'Laws').
    pub fn uses_law(&self)
        ensures { IsSound self.now }
    {
        let _ = &self.interfaces;
    }

    /// Proof only: no interface of the collection exports a name twice, and no world imports or exports one twice
    /// (docs/PROOFS.md, 'Laws').
    pub fn names_law(&self)
        ensures { HasDistinctNames self.now }
    {
        let _ = &self.worlds;
    }

    /// The allocator of the collection.
    pub fn allocator(&self) -> Global {
        self.alloc
    }

    /// Whether the type is of the collection: each id in it is in range.
    pub fn contains(&self, ty: Type) -> bool
        ensures { result ≡ holds_type self.now ty }
    {
        match ty {
            Type::Resource(id) => id.0 < self.resources.len(),
            Type::Func(id) => id.0 < self.funcs.len(),
            Type::Value(value) => self.contains_value(value),
            Type::Interface(id) => id.0 < self.interfaces.len(),
            Type::World(id) => id.0 < self.worlds.len(),
            Type::Module(id) => id.0 < self.modules.len(),
        }
    }

    /// Whether the collection has no resource. Then no item of it mentions or binds one.
    pub fn holds_no_resource(&self) -> bool
        ensures { result ≡ (length self.now.resources == 0) }
    {
        self.resources.len() == 0
    }

    // Whether the value type is of the collection: each id in it is in range.
    pub(crate) fn contains_value(&self, value: ValueType) -> bool
        ensures { result ≡ holds_value self.now value }
    {
        match value {
            ValueType::Primitive(_) => true,
            ValueType::Borrow(id) | ValueType::Own(id) => id.0 < self.resources.len(),
            ValueType::Defined(id) => id.0 < self.defined.len(),
        }
    }

    // The number of items, if a `usize` can hold it.
    fn checked_count(&self) -> Option<usize>
        ensures { IfSome result (λ n. n ≡ size self.now) }
    {
        let count = self.resources.len().checked_add(self.funcs.len())?;
        let count = count.checked_add(self.defined.len())?;
        let count = count.checked_add(self.interfaces.len())?;
        let count = count.checked_add(self.worlds.len())?;
        count.checked_add(self.modules.len())
    }

    // The number of items. `Err(OutOfMemory)` if a `usize` cannot hold it, since no memory has room for that many.
    fn count(&self) -> Result<usize, AddTypeError>
        ensures count { IfOk result (λ n. n ≡ size self.now) }
        ensures fault { IfErr result (λ e. e ≡ OutOfMemory) }
    {
        self.checked_count().ok_or(AddTypeError::OutOfMemory)
    }

    /// Adds a resource.
    ///
    /// # Errors
    /// - [`NotHeld`](AddTypeError::NotHeld) if its source or the source's owner is not of the collection.
    /// - [`OutOfMemory`](AddTypeError::OutOfMemory).
    pub fn add_resource(&mut self, resource: Resource) -> Result<ResourceId, AddTypeError>
        ensures added { IfOk result (λ id. (id.0 ≡ length self.old.resources) × (self.new ≡ with_resource self.old resource)) }
        ensures refused { OnErr result (self.new ≡ self.old) }
        ensures fault { AnswersBy (mention_fault self.old (resource_mentions resource)) result }
    {
        if !self.contains_alias(&resource) {
            return Err(AddTypeError::NotHeld);
        }
        let id = ResourceId(self.resources.len());
        let before = self.count()?;
        let end = resource
            .alias
            .map_or(id, |alias| self.resource_end(alias.source));
        if self.resource_ends.reserve(1).is_err() {
            return Err(AddTypeError::OutOfMemory);
        }
        hold(self.alloc, &mut self.resources, resource, before)?;
        self.resource_ends.push(end).unwrap();
        Ok(id)
    }

    /// Adds a function type.
    ///
    /// # Errors
    /// - [`NotHeld`](AddTypeError::NotHeld) if it mentions a type that is not of the collection.
    /// - [`OutOfMemory`](AddTypeError::OutOfMemory).
    pub fn add_func_type(&mut self, func: FuncType) -> Result<FuncTypeId, AddTypeError>
        ensures added { IfOk result (λ id. (id.0 ≡ length self.old.funcs) × (self.new ≡ with_func self.old func)) }
        ensures refused { OnErr result (self.new ≡ self.old) }
        ensures fault { AnswersBy (mention_fault self.old (func_mentions func)) result }
    {
        if !self.contains_func(&func) {
            return Err(AddTypeError::NotHeld);
        }
        let id = self.funcs.len();
        let before = self.count()?;
        hold(self.alloc, &mut self.funcs, func, before)?;
        Ok(FuncTypeId(id))
    }

    /// Adds a defined type.
    ///
    /// # Errors
    /// - [`NotHeld`](AddTypeError::NotHeld) if it mentions a type that is not of the collection.
    /// - [`OutOfMemory`](AddTypeError::OutOfMemory).
    pub fn add_defined_type(&mut self, defined: DefinedType) -> Result<DefinedTypeId, AddTypeError>
        ensures added { IfOk result (λ id. (id.0 ≡ length self.old.defined) × (self.new ≡ with_defined self.old defined)) }
        ensures refused { OnErr result (self.new ≡ self.old) }
        ensures fault { AnswersBy (mention_fault self.old (defined_mentions defined)) result }
    {
        if !self.contains_defined(&defined) {
            return Err(AddTypeError::NotHeld);
        }
        let id = DefinedTypeId(self.defined.len());
        let before = self.count()?;
        let DefinedType::Alias(target) = &defined else {
            hold(self.alloc, &mut self.defined, defined, before)?;
            return Ok(id);
        };
        let end = self.value_end(*target);
        let Ok(()) = fill_ends(&mut self.value_ends, id.0) else {
            return Err(AddTypeError::OutOfMemory);
        };
        hold(self.alloc, &mut self.defined, defined, before)?;
        self.value_ends[id.0] = end;
        Ok(id)
    }

    /// Adds an interface.
    ///
    /// # Errors
    /// - The first [`AddTypeError`] that applies. A used type is compared with the export of its name, if there is one.
    pub fn add_interface(&mut self, interface: Interface) -> Result<InterfaceId, AddTypeError>
        ensures added { IfOk result (λ id. (id.0 ≡ length self.old.interfaces) × (self.new ≡ with_interface self.old interface)) }
        ensures refused { OnErr result (self.new ≡ self.old) }
        ensures fault { AnswersBy (interface_fault self.old interface) result }
    {
        if let Some(fault) = self.interface_fault(&interface) {
            return Err(fault);
        }
        interface.exports.law(); // proof only
        let id = self.interfaces.len();
        let before = self.count()?;
        hold(self.alloc, &mut self.interfaces, interface, before)?;
        Ok(InterfaceId(id))
    }

    /// Adds a world.
    ///
    /// # Errors
    /// - The first [`AddTypeError`] that applies. A used type is compared with the import of its name, if there is one.
    pub fn add_world(&mut self, world: World) -> Result<WorldId, AddTypeError>
        ensures added { IfOk result (λ id. (id.0 ≡ length self.old.worlds) × (self.new ≡ with_world self.old world)) }
        ensures refused { OnErr result (self.new ≡ self.old) }
        ensures fault { AnswersBy (world_fault self.old world) result }
    {
        if let Some(fault) = self.world_fault(&world) {
            return Err(fault);
        }
        world.imports.law(); // proof only
        world.exports.law(); // proof only
        let id = self.worlds.len();
        let before = self.count()?;
        hold(self.alloc, &mut self.worlds, world, before)?;
        Ok(WorldId(id))
    }

    /// Adds the type of a core module.
    ///
    /// # Errors
    /// - [`OutOfMemory`](AddTypeError::OutOfMemory).
    pub fn add_module_type(&mut self, module_type: ModuleType) -> Result<ModuleTypeId, AddTypeError>
        ensures added { IfOk result (λ id. (id.0 ≡ length self.old.modules) × (self.new ≡ with_module self.old module_type)) }
        ensures refused { OnErr result (self.new ≡ self.old) }
        ensures fault { AnswersBy None result }
    {
        let id = self.modules.len();
        let before = self.count()?;
        hold(self.alloc, &mut self.modules, module_type, before)?;
        Ok(ModuleTypeId(id))
    }

    // Returns the resource at the end of the aliases. A resource that is not of the collection is its own end.
    pub(crate) fn resource_end(&self, id: ResourceId) -> ResourceId
        ensures { result ≡ resolved self.now id }
    {
        self.resource_ends.get(id.0).copied().unwrap_or(id)
    }

    // Returns the value type at the end of the aliases. A value type that is not of the collection is its own end.
    #[tactic(auto, using(crate::proofs::lemmas::collection::Ends::plain_value))]
    pub(crate) fn value_end(&self, value: ValueType) -> ValueType
        ensures { result ≡ value_resolved self.now value }
    {
        match value {
            ValueType::Defined(id) => self.definition_end(id),
            _ => value,
        }
    }

    // Returns the value type at the end of the aliases of a definition.
    fn definition_end(&self, id: DefinedTypeId) -> ValueType
        ensures { result ≡ value_resolved self.now (val.Defined id) }
    {
        match self.value_ends.get(id.0) {
            Some(end) => *end,
            None => ValueType::Defined(id),
        }
    }

    // The interfaces, as items.
    pub(crate) fn all_interfaces(&self) -> &Items<Interface>
        ensures { result.now ≡ self.now.interfaces }
    {
        &self.interfaces
    }

    // Returns the resource with this id, if it is of the collection.
    pub(crate) fn find_resource(&self, id: ResourceId) -> Option<&Resource>
        ensures { option_copied result ≡ item_at self.now.resources id.0 }
    {
        self.resources.get(id.0)
    }

    // Returns the interface with this id, if it is of the collection.
    pub(crate) fn find_interface(&self, id: InterfaceId) -> Option<&Interface>
        ensures { option_copied result ≡ item_at self.now.interfaces id.0 }
    {
        self.interfaces.get(id.0)
    }
}

impl Index<FuncTypeId> for Types {
    type Output = FuncType;

    ghost can_index = { HasFunc };

    ghost index_gives = { λ c id func. item_at c.funcs id.0 ≡ Some func };

    fn index(&self, id: FuncTypeId) -> &FuncType {
        self.funcs.item(id.0)
    }
}

impl Index<InterfaceId> for Types {
    type Output = Interface;

    ghost can_index = { HasInterface };

    ghost index_gives = { λ c id interface. item_at c.interfaces id.0 ≡ Some interface };

    fn index(&self, id: InterfaceId) -> &Interface {
        self.interfaces.item(id.0)
    }
}

impl Index<WorldId> for Types {
    type Output = World;

    ghost can_index = { HasWorld };

    ghost index_gives = { λ c id world. item_at c.worlds id.0 ≡ Some world };

    fn index(&self, id: WorldId) -> &World {
        self.worlds.item(id.0)
    }
}

impl Index<ResourceId> for Types {
    type Output = Resource;

    ghost can_index = { HasResource };

    ghost index_gives = { λ c id item. item_at c.resources id.0 ≡ Some item };

    fn index(&self, id: ResourceId) -> &Resource {
        self.resources.item(id.0)
    }
}

impl Index<DefinedTypeId> for Types {
    type Output = DefinedType;

    ghost can_index = { HasDefined };

    ghost index_gives = { λ c id item. item_at c.defined id.0 ≡ Some item };

    fn index(&self, id: DefinedTypeId) -> &DefinedType {
        self.defined.item(id.0)
    }
}

impl Index<ModuleTypeId> for Types {
    type Output = ModuleType;

    ghost can_index = { HasModule };

    ghost index_gives = { λ c id item. item_at c.modules id.0 ≡ Some item };

    fn index(&self, id: ModuleTypeId) -> &ModuleType {
        self.modules.item(id.0)
    }
}
