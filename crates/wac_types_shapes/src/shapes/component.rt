//! Shapes of component types.
//!
//! Constructors copy the names and values that they are given, in order.
ghost use Rattle.std.specs.Prelude.{◌≡◌, [], None, Some, Err, IfOk, OnOk};
ghost use Rattle.std.specs.Option.{option_copied};
ghost use Rattle.wac_types_shapes.specs.shapes.Named.{NoNameTwice, named_pairs, labelled, given_names, used_pairs};
ghost use Rattle.wac_types_shapes.specs.shapes.Kinds.{kind_type, promoted};
ghost use Rattle.wac_types_shapes.specs.declared.shapes.component.DefinedType.TheVariants.{Tuple};
ghost use Rattle.wac_types_shapes.specs.shapes.Words.{kind_text, type_text};

use crate::primitives::PrimitiveType;
use crate::shapes::named::{Labels, Named, Sequence, ShapeError, Text};
use std::alloc::{AllocError, Global};

/// The id of a resource of a collection.
#[derive(Clone, Copy, Debug, PartialEq, Eq, PartialOrd, Ord, Hash)]
pub struct ResourceId(
    /// The index in the collection's list of resources.
    pub usize,
);

/// The id of a function type of a collection.
#[derive(Clone, Copy, Debug, PartialEq, Eq, PartialOrd, Ord, Hash)]
pub struct FuncTypeId(
    /// The index in the collection's list of function types.
    pub usize,
);

/// The id of a defined type of a collection.
#[derive(Clone, Copy, Debug, PartialEq, Eq, PartialOrd, Ord, Hash)]
pub struct DefinedTypeId(
    /// The index in the collection's list of defined types.
    pub usize,
);

/// The id of an interface of a collection.
#[derive(Clone, Copy, Debug, PartialEq, Eq, PartialOrd, Ord, Hash)]
pub struct InterfaceId(
    /// The index in the collection's list of interfaces.
    pub usize,
);

/// The id of a world of a collection.
#[derive(Clone, Copy, Debug, PartialEq, Eq, PartialOrd, Ord, Hash)]
pub struct WorldId(
    /// The index in the collection's list of worlds.
    pub usize,
);

/// The id of the type of a core module of a collection.
#[derive(Clone, Copy, Debug, PartialEq, Eq, PartialOrd, Ord, Hash)]
pub struct ModuleTypeId(
    /// The index in the collection's list of module types.
    pub usize,
);

/// A value type.
#[derive(Clone, Copy, Debug, PartialEq, Eq, Hash)]
pub enum ValueType {
    /// A primitive type.
    Primitive(PrimitiveType),
    /// A borrowed handle to a resource.
    Borrow(ResourceId),
    /// An owned handle to a resource.
    Own(ResourceId),
    /// A defined type.
    Defined(DefinedTypeId),
}

/// A type of a collection.
#[derive(Clone, Copy, Debug, PartialEq, Eq, Hash)]
pub enum Type {
    /// A resource.
    Resource(ResourceId),
    /// A function type.
    Func(FuncTypeId),
    /// A value type.
    Value(ValueType),
    /// An interface.
    Interface(InterfaceId),
    /// A world.
    World(WorldId),
    /// The type of a core module.
    Module(ModuleTypeId),
}

/// The kind of an import or export.
#[derive(Clone, Copy, Debug, PartialEq, Eq, Hash)]
pub enum ItemKind {
    /// A type.
    TypeItem(Type),
    /// A function.
    Func(FuncTypeId),
    /// An instance of an interface.
    Instance(InterfaceId),
    /// A component of a world.
    Component(WorldId),
    /// A core module.
    Module(ModuleTypeId),
    /// A value.
    Value(ValueType),
}

/// A collection of types. The one that there is, `Types`, stands in a crate above.
pub trait TypeCollection {}

impl Type {
    /// Returns the sort of the type, in words.
    pub fn desc(&self) -> &'static str
        ensures { result.now ≡ type_text self.now }
    {
        match self {
            Type::Resource(_) => "resource",
            Type::Func(_) => "function type",
            Type::Value(_) => "value type",
            Type::Interface(_) => "interface",
            Type::World(_) => "world",
            Type::Module(_) => "module type",
        }
    }
}

impl ItemKind {
    /// Returns the type of the item; of a type item, the type itself.
    pub fn ty(&self) -> Type
        ensures { result ≡ kind_type self.now }
    {
        match self {
            ItemKind::TypeItem(ty) => *ty,
            ItemKind::Func(id) => Type::Func(*id),
            ItemKind::Instance(id) => Type::Interface(*id),
            ItemKind::Component(id) => Type::World(*id),
            ItemKind::Module(id) => Type::Module(*id),
            ItemKind::Value(value) => Type::Value(*value),
        }
    }

    /// Returns the item whose type a type item is: a function, an instance, a component or a core module.
    ///
    /// Any other item is returned unchanged.
    pub fn promote(&self) -> ItemKind
        ensures { result ≡ promoted self.now }
    {
        match self {
            ItemKind::TypeItem(Type::Func(id)) => ItemKind::Func(*id),
            ItemKind::TypeItem(Type::Interface(id)) => ItemKind::Instance(*id),
            ItemKind::TypeItem(Type::World(id)) => ItemKind::Component(*id),
            ItemKind::TypeItem(Type::Module(id)) => ItemKind::Module(*id),
            _ => *self,
        }
    }

    /// Returns the kind of the item, in words. The types are not read; upstream's method takes them too.
    pub fn desc<T: TypeCollection>(&self, _types: &T) -> &'static str
        ensures { result.now ≡ kind_text self.now }
    {
        match self {
            ItemKind::TypeItem(ty) => ty.desc(),
            ItemKind::Func(_) => "function",
            ItemKind::Instance(_) => "instance",
            ItemKind::Component(_) => "component",
            ItemKind::Module(_) => "module",
            ItemKind::Value(_) => "value",
        }
    }
}

/// The source of a resource that is an alias.
#[derive(Clone, Copy, Debug, PartialEq, Eq, Hash)]
pub struct ResourceAlias {
    /// The interface that owns the source, if one does.
    pub owner: Option<InterfaceId>,
    /// The resource that is aliased.
    pub source: ResourceId,
}

/// A resource type.
#[derive(Clone, Debug, PartialEq, Eq)]
pub struct Resource {
    /// The name of the resource.
    pub name: Text,
    /// The source, if the resource is an alias.
    pub alias: Option<ResourceAlias>,
}

// `Drop` is by hand here and below: a derived one is proved again at each use (docs/PROOFS.md, 'Drop').
impl Drop for Resource {
    fn drop(self) {
        let Resource { name: _, alias: _ } = self;
    }
}

impl Resource {
    /// Returns a resource that is not an alias.
    ///
    /// # Errors
    /// - `AllocError` if out of memory.
    pub fn new(alloc: Global, name: &str) -> Result<Resource, AllocError>
        ensures { IfOk result (λ r. r ≡ record { name = name.now; alias = None }) }
    {
        let name = Text::new(alloc, name)?;
        Ok(Resource { name, alias: None })
    }

    /// Returns an alias of a resource. `owner` is the interface that owns the source, if one does.
    ///
    /// # Errors
    /// - `AllocError` if out of memory.
    pub fn alias(
        alloc: Global,
        name: &str,
        owner: Option<InterfaceId>,
        source: ResourceId,
    ) -> Result<Resource, AllocError>
        ensures { IfOk result (λ r. r ≡ record { name = name.now; alias = Some (record { owner = owner; source = source }) }) }
    {
        let name = Text::new(alloc, name)?;
        let alias = Some(ResourceAlias { owner, source });
        Ok(Resource { name, alias })
    }
}

/// A variant type.
#[derive(Clone, Debug, PartialEq, Eq)]
pub struct Variant {
    /// The cases, in order. A case has the type of its payload, if it has a payload.
    pub cases: Named<Option<ValueType>>,
}

impl Drop for Variant {
    fn drop(self) {
        let Variant { cases: _ } = self;
    }
}

impl Variant {
    /// Returns a variant with these cases.
    ///
    /// # Errors
    /// - [`NameTwice`](ShapeError::NameTwice) if a name occurs twice.
    /// - [`OutOfMemory`](ShapeError::OutOfMemory).
    pub fn new(alloc: Global, cases: &[(&str, Option<ValueType>)]) -> Result<Variant, ShapeError>
        ensures built { IfOk result (λ r. r ≡ record { cases = named_pairs cases.now }) }
        ensures names { OnOk result (NoNameTwice (named_pairs cases.now)) }
        ensures name_twice { result ≡ Err ShapeError.NameTwice → NoNameTwice (named_pairs cases.now) → ⊥ }
    {
        let cases = Named::from_pairs(alloc, cases)?;
        Ok(Variant { cases })
    }
}

/// A record type.
#[derive(Clone, Debug, PartialEq, Eq)]
pub struct Record {
    /// The fields, in order.
    pub fields: Named<ValueType>,
}

impl Drop for Record {
    fn drop(self) {
        let Record { fields: _ } = self;
    }
}

impl Record {
    /// Returns a record with these fields.
    ///
    /// # Errors
    /// - [`NameTwice`](ShapeError::NameTwice) if a name occurs twice.
    /// - [`OutOfMemory`](ShapeError::OutOfMemory).
    pub fn new(alloc: Global, fields: &[(&str, ValueType)]) -> Result<Record, ShapeError>
        ensures built { IfOk result (λ r. r ≡ record { fields = named_pairs fields.now }) }
        ensures names { OnOk result (NoNameTwice (named_pairs fields.now)) }
        ensures name_twice { result ≡ Err ShapeError.NameTwice → NoNameTwice (named_pairs fields.now) → ⊥ }
    {
        let fields = Named::from_pairs(alloc, fields)?;
        Ok(Record { fields })
    }
}

/// A flags type.
#[derive(Clone, Debug, PartialEq, Eq)]
pub struct Flags(pub Labels);

impl Drop for Flags {
    fn drop(self) {
        let Flags(_) = self;
    }
}

impl Flags {
    /// Returns flags with these names.
    ///
    /// # Errors
    /// - [`NameTwice`](ShapeError::NameTwice) if a name occurs twice.
    /// - [`OutOfMemory`](ShapeError::OutOfMemory).
    pub fn new(alloc: Global, names: &[&str]) -> Result<Flags, ShapeError>
        ensures built { IfOk result (λ r. r.0 ≡ given_names names.now) }
        ensures names { OnOk result (NoNameTwice (labelled (given_names names.now))) }
        ensures name_twice { result ≡ Err ShapeError.NameTwice → NoNameTwice (labelled (given_names names.now)) → ⊥ }
    {
        let labels = Labels::new(alloc, names)?;
        Ok(Flags(labels))
    }
}

/// An enum type.
#[derive(Clone, Debug, PartialEq, Eq)]
pub struct Enum(pub Labels);

impl Drop for Enum {
    fn drop(self) {
        let Enum(_) = self;
    }
}

impl Enum {
    /// Returns an enum with these cases.
    ///
    /// # Errors
    /// - [`NameTwice`](ShapeError::NameTwice) if a name occurs twice.
    /// - [`OutOfMemory`](ShapeError::OutOfMemory).
    pub fn new(alloc: Global, names: &[&str]) -> Result<Enum, ShapeError>
        ensures built { IfOk result (λ r. r.0 ≡ given_names names.now) }
        ensures names { OnOk result (NoNameTwice (labelled (given_names names.now))) }
        ensures name_twice { result ≡ Err ShapeError.NameTwice → NoNameTwice (labelled (given_names names.now)) → ⊥ }
    {
        let labels = Labels::new(alloc, names)?;
        Ok(Enum(labels))
    }
}

/// A defined value type.
#[derive(Clone, Debug, PartialEq, Eq)]
pub enum DefinedType {
    /// A tuple of values of these types.
    Tuple(Sequence<ValueType>),
    /// A list of values of a type.
    List(ValueType),
    /// A list of values of a type, with this length.
    FixedSizeList(ValueType, u32),
    /// An optional value of a type.
    Option(ValueType),
    /// A result.
    Result {
        /// The type of the `ok` payload, if there is one.
        ok: Option<ValueType>,
        /// The type of the `error` payload, if there is one.
        err: Option<ValueType>,
    },
    /// A variant type.
    Variant(Variant),
    /// A record type.
    Record(Record),
    /// A flags type.
    Flags(Flags),
    /// An enum type.
    Enum(Enum),
    /// Another name for a value type.
    Alias(ValueType),
    /// A stream, with the type of its elements if there is one.
    Stream(Option<ValueType>),
    /// A future, with the type of its value if there is one.
    Future(Option<ValueType>),
}

impl Drop for DefinedType {
    fn drop(self) {
        match self {
            DefinedType::Tuple(_)
            | DefinedType::List(_)
            | DefinedType::FixedSizeList(_, _)
            | DefinedType::Option(_)
            | DefinedType::Result { ok: _, err: _ }
            | DefinedType::Variant(_)
            | DefinedType::Record(_)
            | DefinedType::Flags(_)
            | DefinedType::Enum(_)
            | DefinedType::Alias(_)
            | DefinedType::Stream(_)
            | DefinedType::Future(_) => {}
        }
    }
}

impl DefinedType {
    /// Returns the tuple of these types.
    ///
    /// # Errors
    /// - `AllocError` if out of memory.
    pub fn tuple(alloc: Global, types: &[ValueType]) -> Result<DefinedType, AllocError>
        ensures { IfOk result (λ d. d ≡ Tuple types.now) }
    {
        let types = Sequence::new(alloc, types)?;
        Ok(DefinedType::Tuple(types))
    }
}

/// A function type.
#[derive(Clone, Debug, PartialEq, Eq)]
pub struct FuncType {
    /// The parameters, in order.
    pub params: Named<ValueType>,
    /// The type of the result, if there is one.
    pub result: Option<ValueType>,
    /// Whether the function is async.
    pub is_async: bool,
}

impl Drop for FuncType {
    fn drop(self) {
        let FuncType {
            params: _,
            result: _,
            is_async: _,
        } = self;
    }
}

impl FuncType {
    /// Returns a function type with these parameters, this result and this asynchrony.
    ///
    /// # Errors
    /// - [`NameTwice`](ShapeError::NameTwice) if a parameter's name occurs twice.
    /// - [`OutOfMemory`](ShapeError::OutOfMemory).
    pub fn new(
        alloc: Global,
        params: &[(&str, ValueType)],
        returned: Option<ValueType>,
        is_async: bool,
    ) -> Result<FuncType, ShapeError>
        ensures built { IfOk result (λ f. f ≡ record { params = named_pairs params.now; result = returned; is_async = is_async }) }
        ensures names { OnOk result (NoNameTwice (named_pairs params.now)) }
        ensures name_twice { result ≡ Err ShapeError.NameTwice → NoNameTwice (named_pairs params.now) → ⊥ }
    {
        let params = Named::from_pairs(alloc, params)?;
        Ok(FuncType {
            params,
            result: returned,
            is_async,
        })
    }
}

/// A type that an interface or a world uses from an interface.
#[derive(Clone, Debug, PartialEq, Eq)]
pub struct UsedType {
    /// The interface that exports the type.
    pub interface: InterfaceId,
    /// The type's name in that interface, if it differs from the name in the user.
    pub name: Option<Text>,
}

impl Drop for UsedType {
    fn drop(self) {
        let UsedType {
            interface: _,
            name: _,
        } = self;
    }
}

// Builds used types from triples: the name in the user, the interface, and the name there if it differs.
fn used_types(
    alloc: Global,
    uses: &[(&str, InterfaceId, Option<&str>)],
) -> Result<Named<UsedType>, ShapeError>
    ensures built { IfOk result (λ n. n ≡ used_pairs uses.now) }
    ensures names { OnOk result (NoNameTwice (used_pairs uses.now)) }
    ensures name_twice { result ≡ Err ShapeError.NameTwice → NoNameTwice (used_pairs uses.now) → ⊥ }
{
    let mut named = Named::new(alloc);
    for used in uses {
        let Ok(name) = optional_text(alloc, used.2) else {
            return Err(ShapeError::OutOfMemory);
        };
        let item = UsedType {
            interface: used.1,
            name,
        };
        match named.insert(alloc, used.0, item) {
            Ok(()) => {}
            Err(fault) => return Err(fault),
        }
    }
    named.law();
    Ok(named)
}

/// An interface.
#[derive(Clone, Debug, PartialEq, Eq)]
pub struct Interface {
    /// The interface's name, as `namespace:package/interface`.
    pub id: Option<Text>,
    /// The types that it uses from other interfaces, by their names here.
    pub uses: Named<UsedType>,
    /// The exports, in order.
    pub exports: Named<ItemKind>,
}

impl Drop for Interface {
    fn drop(self) {
        let Interface {
            id: _,
            uses: _,
            exports: _,
        } = self;
    }
}

impl Interface {
    /// Returns an interface with these exports that uses no type from another.
    ///
    /// # Errors
    /// - [`NameTwice`](ShapeError::NameTwice) if an export's name occurs twice.
    /// - [`OutOfMemory`](ShapeError::OutOfMemory).
    pub fn new(
        alloc: Global,
        id: Option<&str>,
        exports: &[(&str, ItemKind)],
    ) -> Result<Interface, ShapeError>
        ensures built { IfOk result (λ i. (i.id ≡ option_copied id.entry) × (i.uses ≡ []) × (i.exports ≡ named_pairs exports.now)) }
        ensures names { OnOk result (NoNameTwice (named_pairs exports.now)) }
        ensures name_twice { result ≡ Err ShapeError.NameTwice → NoNameTwice (named_pairs exports.now) → ⊥ }
    {
        Interface::with_uses(alloc, id, &[], exports)
    }

    /// Returns an interface with these used types and exports.
    ///
    /// A use is the type's name here, the interface that exports it, and its name there if it differs.
    ///
    /// # Errors
    /// - [`NameTwice`](ShapeError::NameTwice) if a name occurs twice in the uses, or twice in the exports.
    /// - [`OutOfMemory`](ShapeError::OutOfMemory).
    pub fn with_uses(
        alloc: Global,
        id: Option<&str>,
        uses: &[(&str, InterfaceId, Option<&str>)],
        exports: &[(&str, ItemKind)],
    ) -> Result<Interface, ShapeError>
        ensures built { IfOk result (λ i. (i.id ≡ option_copied id.entry) × (i.uses ≡ used_pairs uses.now) × (i.exports ≡ named_pairs exports.now)) }
        ensures names { OnOk result (NoNameTwice (used_pairs uses.now) × NoNameTwice (named_pairs exports.now)) }
        ensures name_twice { result ≡ Err ShapeError.NameTwice → NoNameTwice (used_pairs uses.now) → NoNameTwice (named_pairs exports.now) → ⊥ }
    {
        let Ok(id) = optional_text(alloc, id) else {
            return Err(ShapeError::OutOfMemory);
        };
        let uses = used_types(alloc, uses)?;
        let exports = Named::from_pairs(alloc, exports)?;
        Ok(Interface { id, uses, exports })
    }
}

/// A world.
#[derive(Clone, Debug, PartialEq, Eq)]
pub struct World {
    /// The world's name, as `namespace:package/world`.
    pub id: Option<Text>,
    /// The types that it uses from interfaces, by their names here.
    pub uses: Named<UsedType>,
    /// The imports, in order.
    pub imports: Named<ItemKind>,
    /// The exports, in order.
    pub exports: Named<ItemKind>,
}

impl Drop for World {
    fn drop(self) {
        let World {
            id: _,
            uses: _,
            imports: _,
            exports: _,
        } = self;
    }
}

impl World {
    /// Returns a world with these imports and exports that uses no type from an interface.
    ///
    /// # Errors
    /// - [`NameTwice`](ShapeError::NameTwice) if a name occurs twice in the imports, or twice in the exports.
    /// - [`OutOfMemory`](ShapeError::OutOfMemory).
    pub fn new(
        alloc: Global,
        id: Option<&str>,
        imports: &[(&str, ItemKind)],
        exports: &[(&str, ItemKind)],
    ) -> Result<World, ShapeError>
        ensures built { IfOk result (λ w. (w.id ≡ option_copied id.entry) × (w.uses ≡ []) × (w.imports ≡ named_pairs imports.now) × (w.exports ≡ named_pairs exports.now)) }
        ensures names { OnOk result (NoNameTwice (named_pairs imports.now) × NoNameTwice (named_pairs exports.now)) }
        ensures name_twice { result ≡ Err ShapeError.NameTwice → NoNameTwice (named_pairs imports.now) → NoNameTwice (named_pairs exports.now) → ⊥ }
    {
        World::with_uses(alloc, id, &[], imports, exports)
    }

    /// Returns a world with these used types, imports and exports.
    ///
    /// A use is the type's name here, the interface that exports it, and its name there if it differs.
    ///
    /// # Errors
    /// - [`NameTwice`](ShapeError::NameTwice) if a name occurs twice in the uses, the imports or the exports.
    /// - [`OutOfMemory`](ShapeError::OutOfMemory).
    pub fn with_uses(
        alloc: Global,
        id: Option<&str>,
        uses: &[(&str, InterfaceId, Option<&str>)],
        imports: &[(&str, ItemKind)],
        exports: &[(&str, ItemKind)],
    ) -> Result<World, ShapeError>
        ensures built { IfOk result (λ w. (w.id ≡ option_copied id.entry) × (w.uses ≡ used_pairs uses.now) × (w.imports ≡ named_pairs imports.now) × (w.exports ≡ named_pairs exports.now)) }
        ensures names { OnOk result (NoNameTwice (used_pairs uses.now) × NoNameTwice (named_pairs imports.now) × NoNameTwice (named_pairs exports.now)) }
        ensures name_twice { result ≡ Err ShapeError.NameTwice → NoNameTwice (used_pairs uses.now) → NoNameTwice (named_pairs imports.now) → NoNameTwice (named_pairs exports.now) → ⊥ }
    {
        let Ok(id) = optional_text(alloc, id) else {
            return Err(ShapeError::OutOfMemory);
        };
        let uses = used_types(alloc, uses)?;
        let imports = Named::from_pairs(alloc, imports)?;
        let exports = Named::from_pairs(alloc, exports)?;
        Ok(World {
            id,
            uses,
            imports,
            exports,
        })
    }
}

// Copies an optional string into a `Text`.
fn optional_text(alloc: Global, text: Option<&str>) -> Result<Option<Text>, AllocError>
    ensures { IfOk result (λ t. t ≡ option_copied text.entry) }
{
    match text {
        Some(text) => Ok(Some(Text::new(alloc, text)?)),
        None => Ok(None),
    }
}
