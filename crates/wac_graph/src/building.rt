//! Types and packages that are built and added by one call.
ghost use Rattle.std.specs.Prelude.{◌≡◌, true, false, IfOk, IsSome, Some, [], None};
ghost use Rattle.std.specs.Option.{option_map};
ghost use Rattle.semver.specs.Identifiers.{parts_of};
ghost use Rattle.wac_types_collection.specs.collection.Collection.{holds_type};
ghost use Rattle.wac_types_shapes.specs.shapes.Kinds.{kind_type};
ghost use Rattle.wac_types_shapes.specs.shapes.Named.{given_names, named_pairs};
ghost use Rattle.wac_types_shapes.specs.declared.shapes.component.DefinedType.TheVariants as def;
ghost use Rattle.wac_types_shapes.specs.declared.shapes.component.«Type».TheVariants.{Value as value_type};
ghost use Rattle.wac_graph_model.specs.nodes.Graph.{package_at};
ghost use Rattle.wac_graph_model.specs.nodes.Valid.{KeepsValid};
ghost use Rattle.wac_graph.specs.Building.{AddsFunc, AddsInstance, AddsNamedValue, AddsPackage, AddsValue};

use crate::errors::Error;
use crate::graph::CompositionGraph;
use crate::twice::{names_error, pairs_error, sides_error};
use semver::Version;
use wac_graph_model::PackageId;
use wac_types::{
    DefinedType, Enum, Flags, FuncType, Interface, ItemKind, Record, ValueType, Variant, World,
};

impl CompositionGraph {
    /// Adds a value type with this definition.
    fn add_value(&mut self, definition: DefinedType) -> Result<ValueType, Error>
        ensures step { AddsNamedValue self.old [] definition result self.new }
        ensures there { IfOk result (λ value. holds_type self.new.types (value_type value) ≡ true) }
        ensures valid { KeepsValid self.old self.new }
    {
        let id = self.add_defined_type(definition)?;
        Ok(ValueType::Defined(id))
    }

    /// Adds a record type with these fields, in order.
    ///
    /// # Errors
    /// - [`NameTwice`](Error::NameTwice) if a name occurs twice.
    /// - [`AddType`](Error::AddType) with [`NotHeld`](wac_types::AddTypeError::NotHeld) if a type is not of the graph's
    ///   collection.
    pub fn record(&mut self, fields: &[(&str, ValueType)]) -> Result<ValueType, Error>
        ensures step { AddsValue self.old (def.Record (record { fields = named_pairs fields.now })) result self.new }
        ensures there { IfOk result (λ value. holds_type self.new.types (value_type value) ≡ true) }
        ensures valid { KeepsValid self.old self.new }
    {
        let Ok(shape) = Record::new(self.allocator(), fields) else {
            return Err(pairs_error(self.allocator(), fields));
        };
        self.add_value(DefinedType::Record(shape))
    }

    /// Adds a variant type with these cases, in order, each with the type of its payload if it has one.
    ///
    /// # Errors
    /// As [`Self::record`].
    pub fn variant(&mut self, cases: &[(&str, Option<ValueType>)]) -> Result<ValueType, Error>
        ensures step { AddsValue self.old (def.Variant (record { cases = named_pairs cases.now })) result self.new }
        ensures there { IfOk result (λ value. holds_type self.new.types (value_type value) ≡ true) }
        ensures valid { KeepsValid self.old self.new }
    {
        let Ok(shape) = Variant::new(self.allocator(), cases) else {
            return Err(pairs_error(self.allocator(), cases));
        };
        self.add_value(DefinedType::Variant(shape))
    }

    /// Adds an enum type with these cases, in order.
    ///
    /// # Errors
    /// - [`NameTwice`](Error::NameTwice) if a name occurs twice.
    /// - [`AddType`](Error::AddType) if out of memory.
    pub fn enumeration(&mut self, cases: &[&str]) -> Result<ValueType, Error>
        ensures step { AddsValue self.old (def.Enum (record { 0 = given_names cases.now })) result self.new }
        ensures there { IfOk result (λ value. holds_type self.new.types (value_type value) ≡ true) }
        ensures valid { KeepsValid self.old self.new }
    {
        let Ok(shape) = Enum::new(self.allocator(), cases) else {
            return Err(names_error(self.allocator(), cases));
        };
        self.add_value(DefinedType::Enum(shape))
    }

    /// Adds a flags type with these flags, in order.
    ///
    /// # Errors
    /// As [`Self::enumeration`].
    pub fn flags(&mut self, names: &[&str]) -> Result<ValueType, Error>
        ensures step { AddsValue self.old (def.Flags (record { 0 = given_names names.now })) result self.new }
        ensures there { IfOk result (λ value. holds_type self.new.types (value_type value) ≡ true) }
        ensures valid { KeepsValid self.old self.new }
    {
        let Ok(shape) = Flags::new(self.allocator(), names) else {
            return Err(names_error(self.allocator(), names));
        };
        self.add_value(DefinedType::Flags(shape))
    }

    /// Adds a tuple type of these types.
    ///
    /// # Errors
    /// - [`AddType`](Error::AddType) with [`NotHeld`](wac_types::AddTypeError::NotHeld) if a type is not of the graph's
    ///   collection.
    /// - [`OutOfMemory`](Error::OutOfMemory).
    pub fn tuple(&mut self, types: &[ValueType]) -> Result<ValueType, Error>
        ensures step { AddsValue self.old (def.Tuple types.now) result self.new }
        ensures there { IfOk result (λ value. holds_type self.new.types (value_type value) ≡ true) }
        ensures valid { KeepsValid self.old self.new }
    {
        let definition = DefinedType::tuple(self.allocator(), types)?;
        self.add_value(definition)
    }

    /// Adds a list type of this type.
    ///
    /// # Errors
    /// - [`AddType`](Error::AddType) if the type is not of the graph's collection.
    pub fn list(&mut self, element: ValueType) -> Result<ValueType, Error>
        ensures step { AddsValue self.old (def.List element) result self.new }
        ensures there { IfOk result (λ value. holds_type self.new.types (value_type value) ≡ true) }
        ensures valid { KeepsValid self.old self.new }
    {
        self.add_value(DefinedType::List(element))
    }

    /// Adds an option type of this type.
    ///
    /// # Errors
    /// As [`Self::list`].
    pub fn option(&mut self, some: ValueType) -> Result<ValueType, Error>
        ensures step { AddsValue self.old (def.Option some) result self.new }
        ensures there { IfOk result (λ value. holds_type self.new.types (value_type value) ≡ true) }
        ensures valid { KeepsValid self.old self.new }
    {
        self.add_value(DefinedType::Option(some))
    }

    /// Adds a result type with these payloads, where it has them.
    ///
    /// # Errors
    /// - [`AddType`](Error::AddType) with [`NotHeld`](wac_types::AddTypeError::NotHeld) if a type is not of the graph's
    ///   collection.
    pub fn result(
        &mut self,
        ok: Option<ValueType>,
        err: Option<ValueType>,
    ) -> Result<ValueType, Error>
        ensures step { AddsValue self.old (def.Result ok err) result self.new }
        ensures there { IfOk result (λ value. holds_type self.new.types (value_type value) ≡ true) }
        ensures valid { KeepsValid self.old self.new }
    {
        self.add_value(DefinedType::Result { ok, err })
    }

    /// Adds the type of a function with these parameters and this result, which is not async. Returns the function.
    ///
    /// # Errors
    /// - [`NameTwice`](Error::NameTwice) if a name occurs twice.
    /// - [`AddType`](Error::AddType) with [`NotHeld`](wac_types::AddTypeError::NotHeld) if a type is not of the graph's
    ///   collection.
    pub fn func(
        &mut self,
        params: &[(&str, ValueType)],
        returned: Option<ValueType>,
    ) -> Result<ItemKind, Error>
        ensures step { AddsFunc self.old (record { params = named_pairs params.now; result = returned; is_async = false }) result self.new }
        ensures there { IfOk result (λ item. holds_type self.new.types (kind_type item) ≡ true) }
        ensures valid { KeepsValid self.old self.new }
    {
        let Ok(shape) = FuncType::new(self.allocator(), params, returned, false) else {
            return Err(pairs_error(self.allocator(), params));
        };
        let id = self.add_func_type(shape)?;
        Ok(ItemKind::Func(id))
    }

    /// Adds an interface with this id that uses no type and exports these items, in order. Returns an instance of it.
    ///
    /// # Errors
    /// - [`NameTwice`](Error::NameTwice) if a name occurs twice.
    /// - [`AddType`](Error::AddType) as [`Types::add_interface`](wac_types::Types::add_interface) fails.
    pub fn instance(&mut self, id: &str, items: &[(&str, ItemKind)]) -> Result<ItemKind, Error>
        ensures step { AddsInstance self.old (record { id = Some id.now; uses = []; exports = named_pairs items.now }) result self.new }
        ensures there { IfOk result (λ item. holds_type self.new.types (kind_type item) ≡ true) }
        ensures valid { KeepsValid self.old self.new }
    {
        let Ok(shape) = Interface::new(self.allocator(), Some(id), items) else {
            return Err(pairs_error(self.allocator(), items));
        };
        let interface = self.add_interface(shape)?;
        Ok(ItemKind::Instance(interface))
    }

    /// Adds a world without an id that imports and exports these items, and registers a package of it.
    ///
    /// The bytes are not read: the caller vouches that they are a component of that world.
    ///
    /// # Errors
    /// - [`NameTwice`](Error::NameTwice) if a name occurs twice in the imports, or else in the exports.
    /// - [`AddType`](Error::AddType) as [`Types::add_world`](wac_types::Types::add_world) fails.
    /// - [`RegisterPackage`](Error::RegisterPackage) as [`Self::register_package`] fails.
    ///
    /// On an error the types that were added before it remain, and nothing else changes.
    pub fn add_package(
        &mut self,
        name: &str,
        version: Option<&Version>,
        bytes: Vec<u8>,
        imports: &[(&str, ItemKind)],
        exports: &[(&str, ItemKind)],
    ) -> Result<PackageId, Error>
        ensures step { AddsPackage self.old name.now (option_map (λ v. parts_of v.now) version.entry) bytes.items (named_pairs imports.now) (named_pairs exports.now) result self.new }
        ensures there { IfOk result (λ id. IsSome (package_at self.new id)) }
        ensures valid { KeepsValid self.old self.new }
    {
        let Ok(shape) = World::new(self.allocator(), None, imports, exports) else {
            return Err(sides_error(self.allocator(), imports, exports));
        };
        let world = self.add_world(shape)?;
        let package = self.new_package(name, version, bytes, world)?;
        let id = self.register_package(package)?;
        Ok(id)
    }
}
