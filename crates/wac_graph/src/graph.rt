//! The composition graph and its calls.
ghost use Rattle.std.specs.Prelude.{◌≡◌, ◌==◌, ◌↔◌, ℕ, true, IsSome, IsTrue, IfOk, OnOk, OnErr, IfSome, IfNone, Some, None, Ok, length, slice_get};
ghost use Rattle.std.specs.Option.{option_map};
ghost use Rattle.slab.specs.Slab.{ContainsKey};
ghost use Rattle.semver.specs.Identifiers.{parts_of};
ghost use Rattle.wac_types_collection.specs.collection.Collection.{IsWellFormed, holds_type, resource_mentions, func_mentions, defined_mentions, with_resource, with_func, with_defined, with_interface, with_world, with_module};
ghost use Rattle.wac_types_shapes.specs.shapes.Kinds.{kind_type};
ghost use Rattle.wac_types_shapes.specs.primitives.Name.{Name as AName};
ghost use Rattle.wac_types_collection.specs.collection.Package.{HoldsPackage, with_instance_of, package_fault};
ghost use Rattle.wac_types_collection.specs.collection.Uses.{AnswersBy, mention_fault, interface_fault, world_fault};
ghost use Rattle.wac_types_collection.specs.subtyping.TreeLaws.{GrowthKeepsTrees};
ghost use Rattle.wac_types_shapes.specs.declared.shapes.component.«Type».TheVariants.{Resource as resource_type, Func as func_type, Value as value_type, Interface as interface_type, World as world_type, Module as core_module_type};
ghost use Rattle.wac_types_shapes.specs.declared.shapes.component.ValueType.TheVariants.{Defined as defined_type};
ghost use Rattle.wac_graph_model.specs.nodes.Graph.{node_at, package_at, export_at, import_name, IsRegistered, IsAliasOf, IsSourceOf};
ghost use Rattle.wac_edges.specs.declared.node.NodeId.{NodeId as AnId};
ghost use Rattle.wac_graph_model.specs.nodes.Sound.{IsSound};
ghost use Rattle.wac_graph_model.specs.nodes.Steps.{IsEmpty, Adds, Registers, Imports, Instantiates, Aliases, SetsArgument, UnsetsArgument, SetsName, Exports, Unexports};
ghost use Rattle.wac_graph_model.specs.nodes.Valid.{KeepsValid};
ghost use Rattle.wac_graph_model.specs.nodes.TakenOut.{without, taken_at};
ghost use Rattle.wac_graph_model.specs.nodes.Nodes.{names_of};
ghost use Rattle.wac_graph_fields.specs.private.Renamed.{Renames, with_name, with_export_name};
ghost use Rattle.wac_graph.specs.private.plugs.Positions.{HasExport};

use indexmap::IndexMap;
use semver::Version;
use slab::Slab;
use std::alloc::{AllocError, Global};
use std::collections::HashSet;
use std::marker::Model;
use std::ops::Index;
use wac_edges::edges::{Edge, Edges, Label};
use wac_graph_encode::package_in_slots;
use wac_graph_fields::{Lost, next_id, put_package};
use wac_graph_model::inner::{generation_of, new_node, slot_of};
use wac_graph_model::{
    AliasError, BorrowedPackageKey, ExportError, ImportError, InstantiationArgumentError, Node,
    NodeId, NodeKind, PackageId, RegisterPackageError, Slot, UnexportError, inner,
};
use wac_types::laws::growth_keeps_trees;
use wac_types::{
    AddTypeError, DefinedType, DefinedTypeId, FuncType, FuncTypeId, Interface, InterfaceId,
    ItemKind, ModuleType, ModuleTypeId, Package, PackageKey, Resource, ResourceId, Types, World,
    WorldId,
};

/// A composition of WebAssembly components, as a directed graph.
///
/// A node is of one of four kinds:
///
/// - A *definition* of a type, which is always exported.
/// - An *import* of an item.
/// - An *instantiation* of a registered package.
/// - An *alias* of an export of an instance.
///
/// An edge is of one of three kinds:
///
/// - An *alias* edge leads from an instance to an alias of one of its exports.
/// - An *argument* edge leads from a node to the instantiation that takes it as an argument.
/// - A *dependency* edge leads from a definition to a definition that depends on it.
///
/// An import of an instantiation is *unsatisfied* until an argument is set for it.
/// The unsatisfied imports become imports of the encoded component, together with the import nodes.
///
/// # Ids
///
/// Calls require that the ids passed to them are valid in this graph, unless they say otherwise.
/// [`has_node`](Self::has_node), [`has_package`](Self::has_package) and [`Types::contains`] test this.
/// The number of a removed node may be given to another node. The id of an unregistered package is never valid again.
///
/// # Errors
///
/// A call that returns an error leaves the graph unchanged. [`plug`](Self::plug) and [`add_package`](Self::add_package)
/// are exceptions, and say what they leave.
/// A call that allocates may run out of memory, which is `AllocError` or the `OutOfMemory` of its error type.
/// A call without such an error allocates nothing.
pub struct CompositionGraph {
    pub(crate) alloc: Global,
    pub(crate) types: Types,
    pub(crate) nodes: Slab<Node>,
    pub(crate) edges: Edges,
    pub(crate) imports: IndexMap<String, NodeId>,
    pub(crate) exports: IndexMap<String, NodeId>,
    pub(crate) package_map: IndexMap<PackageKey, PackageId>,
    pub(crate) slots: Vec<Slot>,
    // The free slots that may be used again, the one freed last at the end.
    pub(crate) vacant: Vec<usize>,
    // Leads `remove_node` to the exports that it removes.
    pub(crate) lost: Lost,
}

// By hand: a derived `Drop` is proved again wherever one goes out of scope (docs/PROOFS.md, 'Drop').
impl Drop for CompositionGraph {
    fn drop(self) {
        let CompositionGraph {
            alloc: _,
            types: _,
            nodes: _,
            edges: _,
            imports: _,
            exports: _,
            package_map: _,
            slots: _,
            vacant: _,
            lost: _,
        } = self;
    }
}

impl Model for CompositionGraph {
    ghost use Rattle.wac_graph_model.specs.nodes.Graph.{Graph};
    ghost use Rattle.std.specs.Coded.{codes};
    ghost use Rattle.std.specs.FinMap as map;

    ghost Value = { Graph };

    ghost coded = { Prim.hlevel (codes, map.code) };

    ghost use Rattle.wac_graph_fields.specs.private.Fields.{graph_of, Invariant};
    ghost use Rattle.wac_graph.specs.private.Inside.{fields_of};

    ghost view = { λ s. graph_of (fields_of s) };

    ghost invariant = { λ s. Invariant (fields_of s) };
}

impl CompositionGraph {
    /// Creates an empty graph.
    pub fn new(alloc: Global) -> CompositionGraph
        ensures { IsEmpty result }
    {
        CompositionGraph {
            alloc,
            types: Types::new(alloc),
            nodes: Slab::new(alloc),
            edges: Edges::new(alloc),
            imports: IndexMap::new(alloc),
            exports: IndexMap::new(alloc),
            package_map: IndexMap::new(alloc),
            slots: Vec::new(alloc),
            vacant: Vec::new(alloc),
            lost: Lost::new(alloc),
        }
    }

    /// Proves the invariant of graphs, which holds after every call (docs/PROOFS.md, 'Laws').
    ///
    /// - Edges join existing nodes that fit their labels.
    /// - An import of an instantiation has at most one argument, and an export of an instance at most one alias.
    /// - An import name, an export name and a defined type belong to at most one node each.
    /// - A key belongs to at most one registered package.
    /// - The source of each alias exists, and the package of each instance is registered.
    pub fn law(&self)
        ensures { IsSound self.now }
    {
        let _ = &self.edges;
    }

    /// The allocator of the graph.
    pub fn allocator(&self) -> Global {
        self.alloc
    }

    /// The collection of types.
    pub fn types(&self) -> &Types
        ensures { result.now ≡ self.now.types }
    {
        &self.types
    }

    /// Whether the id is that of a node. Any id is accepted.
    pub fn has_node(&self, id: NodeId) -> bool
        ensures { IsTrue result ↔ IsSome (node_at self.now id) }
    {
        self.nodes.contains(id.0)
    }

    /// Whether the id is that of a registered package. Any id is accepted.
    pub fn has_package(&self, id: PackageId) -> bool
        ensures { IsTrue result ↔ IsSome (package_at self.now id) }
    {
        match self.slots.get(slot_of(id)) {
            Some(slot) => slot.generation == generation_of(id) && slot.package.is_some(),
            None => false,
        }
    }

    /// Adds a resource to the collection. Fails as [`Types::add_resource`] does.
    pub fn add_resource(&mut self, resource: Resource) -> Result<ResourceId, AddTypeError>
        ensures added { Adds self.old result self.new (λ id types. (id.0 ≡ length self.old.types.resources) × (types ≡ with_resource self.old.types resource)) }
        ensures there { IfOk result (λ id. holds_type self.new.types (resource_type id) ≡ true) }
        ensures valid { KeepsValid self.old self.new }
        ensures fault { AnswersBy (mention_fault self.old.types (resource_mentions resource)) result }
    {
        growth_law(&self.types); // proof only
        self.types.add_resource(resource)
    }

    /// Adds a function type to the collection. Fails as [`Types::add_func_type`] does.
    pub fn add_func_type(&mut self, func: FuncType) -> Result<FuncTypeId, AddTypeError>
        ensures added { Adds self.old result self.new (λ id types. (id.0 ≡ length self.old.types.funcs) × (types ≡ with_func self.old.types func)) }
        ensures there { IfOk result (λ id. holds_type self.new.types (func_type id) ≡ true) }
        ensures valid { KeepsValid self.old self.new }
        ensures fault { AnswersBy (mention_fault self.old.types (func_mentions func)) result }
    {
        growth_law(&self.types); // proof only
        self.types.add_func_type(func)
    }

    /// Adds a defined type to the collection. Fails as [`Types::add_defined_type`] does.
    pub fn add_defined_type(&mut self, defined: DefinedType) -> Result<DefinedTypeId, AddTypeError>
        ensures added { Adds self.old result self.new (λ id types. (id.0 ≡ length self.old.types.defined) × (types ≡ with_defined self.old.types defined)) }
        ensures there { IfOk result (λ id. holds_type self.new.types (value_type (defined_type id)) ≡ true) }
        ensures valid { KeepsValid self.old self.new }
        ensures fault { AnswersBy (mention_fault self.old.types (defined_mentions defined)) result }
    {
        growth_law(&self.types); // proof only
        self.types.add_defined_type(defined)
    }

    /// Adds an interface to the collection. Fails as [`Types::add_interface`] does.
    pub fn add_interface(&mut self, interface: Interface) -> Result<InterfaceId, AddTypeError>
        ensures added { Adds self.old result self.new (λ id types. (id.0 ≡ length self.old.types.interfaces) × (types ≡ with_interface self.old.types interface)) }
        ensures there { IfOk result (λ id. holds_type self.new.types (interface_type id) ≡ true) }
        ensures valid { KeepsValid self.old self.new }
        ensures fault { AnswersBy (interface_fault self.old.types interface) result }
    {
        growth_law(&self.types); // proof only
        self.types.add_interface(interface)
    }

    /// Adds a world to the collection. Fails as [`Types::add_world`] does.
    pub fn add_world(&mut self, world: World) -> Result<WorldId, AddTypeError>
        ensures added { Adds self.old result self.new (λ id types. (id.0 ≡ length self.old.types.worlds) × (types ≡ with_world self.old.types world)) }
        ensures there { IfOk result (λ id. holds_type self.new.types (world_type id) ≡ true) }
        ensures valid { KeepsValid self.old self.new }
        ensures fault { AnswersBy (world_fault self.old.types world) result }
    {
        growth_law(&self.types); // proof only
        self.types.add_world(world)
    }

    /// Adds a core module type to the collection. Fails as [`Types::add_module_type`] does.
    pub fn add_module_type(&mut self, module_type: ModuleType) -> Result<ModuleTypeId, AddTypeError>
        ensures added { Adds self.old result self.new (λ id types. (id.0 ≡ length self.old.types.modules) × (types ≡ with_module self.old.types module_type)) }
        ensures there { IfOk result (λ id. holds_type self.new.types (core_module_type id) ≡ true) }
        ensures valid { KeepsValid self.old self.new }
        ensures fault { AnswersBy (None) result }
    {
        growth_law(&self.types); // proof only
        self.types.add_module_type(module_type)
    }

    /// Creates a package whose bytes are a component of this world. Fails as [`Package::new`] does.
    ///
    /// The bytes are not read: the caller vouches that they are such a component.
    pub fn new_package(
        &mut self,
        name: &str,
        version: Option<&Version>,
        bytes: Vec<u8>,
        world: WorldId,
    ) -> Result<Package, AddTypeError>
        requires { holds_type self.old.types (world_type world) ≡ true }
        ensures built { IfOk result (λ p. p ≡ record {
          name = name.now;
          version = option_map (λ v. parts_of v.now) version.entry;
          bytes = bytes.items;
          world = world;
          instance_type = record { 0 = length self.old.types.interfaces };
        }) }
        ensures added { Adds self.old result self.new (λ p types. types ≡ with_instance_of self.old.types world) }
        ensures held { IfOk result (λ p. HoldsPackage self.new.types p) }
        ensures valid { KeepsValid self.old self.new }
        ensures fault { AnswersBy (package_fault self.old.types world) result }
    {
        growth_law(&self.types); // proof only
        Package::new(name, version, bytes, world, &mut self.types)
    }

    /// Registers a package of this graph's collection and returns its id.
    ///
    /// # Errors
    /// - [`PackageAlreadyRegistered`](RegisterPackageError::PackageAlreadyRegistered) if its key is registered.
    pub fn register_package(&mut self, package: Package) -> Result<PackageId, RegisterPackageError>
        requires { HoldsPackage self.old.types «package» }
        ensures step { Registers self.old «package» result self.new }
        ensures there { IfOk result (λ id. IsSome (package_at self.new id)) }
        ensures valid { KeepsValid self.old self.new }
    {
        let key = package.key()?;
        if let Some(_) = self.package_map.get(&key) {
            return Err(RegisterPackageError::PackageAlreadyRegistered { key });
        }
        let id = next_id(&mut self.slots, &mut self.vacant)?;
        self.package_map.insert(key, id)?;
        put_package(&mut self.slots, &mut self.vacant, id, package);
        Ok(id)
    }

    /// The registered package with this name and version, if any, and its id.
    pub fn get_package_by_name(
        &self,
        name: &str,
        version: Option<&Version>,
    ) -> Option<(PackageId, &Package)>
        ensures registered { (id : PackageId) → (option_map (λ found. found.0) result ≡ Some id) ↔ IsRegistered self.now (name.now, option_map (λ v. parts_of v.now) version.entry) id }
        ensures there { IfSome result (λ found. package_at self.now found.0 ≡ Some found.1.now) }
    {
        let key = BorrowedPackageKey::from_name_and_version(name, version);
        let id = *self.package_map.get(key)?;
        Some((id, &self[id]))
    }

    /// Adds an import node for an item of this type.
    ///
    /// # Errors
    /// - [`ImportAlreadyExists`](ImportError::ImportAlreadyExists) if an import node has the name.
    /// - [`InvalidImportName`](ImportError::InvalidImportName) if the name is not a component name.
    pub fn import(&mut self, name: &str, kind: ItemKind) -> Result<NodeId, ImportError>
        requires { holds_type self.old.types (kind_type kind) ≡ true }
        ensures step { Imports self.old name.now kind result self.new }
        ensures there { IfOk result (λ id. IsSome (node_at self.new id)) }
        ensures valid { KeepsValid self.old self.new }
    {
        self.check_import(name)?;
        let key = String::from_str(self.alloc, name)?;
        let own = String::from_str(self.alloc, name)?;
        self.nodes.reserve(1)?;
        let number = self.nodes.vacant_key();
        self.imports.insert(key, NodeId(number))?;
        self.nodes
            .insert_reserved(new_node(NodeKind::Import(own), None, kind));
        Ok(NodeId(number))
    }

    /// The name of an import node. `None` for other nodes.
    pub fn get_import_name(&self, id: NodeId) -> Option<&str>
        requires { IsSome (node_at self.now id) }
        ensures { IfSome (node_at self.now id) (λ node. option_map (λ s. s.now) result ≡ import_name node.kind) }
    {
        self.nodes[id.0].import_name()
    }

    /// Adds an instance of a package, without arguments.
    ///
    /// # Errors
    /// `AllocError` if memory runs out.
    pub fn instantiate(&mut self, id: PackageId) -> Result<NodeId, AllocError>
        requires { IsSome (package_at self.old id) }
        ensures step { Instantiates self.old id result self.new }
        ensures there { IfOk result (λ node. IsSome (node_at self.new node)) }
        ensures valid { KeepsValid self.old self.new }
    {
        let Some(package) = package_in_slots(&self.slots, id) else {
            unreachable!()
        };
        let item_kind = ItemKind::Instance(package.instance_type());
        self.nodes.reserve(1)?;
        let number = self.nodes.vacant_key();
        let kind = NodeKind::Instantiation(HashSet::new(self.alloc));
        self.nodes
            .insert_reserved(new_node(kind, Some(id), item_kind));
        Ok(NodeId(number))
    }

    /// Returns the alias of an instance's export, and adds it if there is none.
    ///
    /// # Errors
    /// - [`NodeIsNotAnInstance`](AliasError::NodeIsNotAnInstance) if the node is not an instance.
    /// - [`InstanceMissingExport`](AliasError::InstanceMissingExport) if it has no export with this name.
    pub fn alias_instance_export(
        &mut self,
        instance: NodeId,
        export: &str,
    ) -> Result<NodeId, AliasError>
        requires { IsSome (node_at self.old instance) }
        ensures step { Aliases self.old instance export.now result self.new }
        ensures there { IfOk result (λ alias. IsSome (node_at self.new alias)) }
        ensures valid { KeepsValid self.old self.new }
    {
        let (position, item_kind) = self.export_of(instance, export)?;
        let alias = self.alias_at(instance, position, item_kind)?;
        Ok(alias)
    }

    /// Returns the alias of the export at a position, and adds it if there is none.
    /// On `AllocError` the graph is unchanged.
    pub(crate) fn alias_at(
        &mut self,
        instance: NodeId,
        position: usize,
        item_kind: ItemKind,
    ) -> Result<NodeId, AllocError>
        requires instance { IsSome (node_at self.old instance) }
        requires export { (name : AName) × HasExport self.old instance name position item_kind }
        ensures step { IfOk result (λ alias. (name : AName) → HasExport self.old instance name position item_kind → Aliases self.old instance name (Ok alias) self.new) }
        ensures kept { OnErr result (self.new ≡ self.old) }
        ensures there { IfOk result (λ alias. IsSome (node_at self.new alias)) }
    {
        self.types.law(); // proof only
        let owner = self.nodes[instance.0].package();
        if let Some(alias) = self.edges.alias(instance, position) {
            return Ok(alias);
        }
        self.nodes.reserve(1)?;
        let number = self.nodes.vacant_key();
        self.edges.add(Edge {
            source: instance,
            target: NodeId(number),
            label: Label::Alias(position),
        })?;
        self.nodes
            .insert_reserved(new_node(NodeKind::Alias, owner, item_kind));
        Ok(NodeId(number))
    }

    /// The instance and the name of the export that an alias is of. `None` for other nodes. Any id is accepted.
    pub fn get_alias_source(&self, id: NodeId) -> Option<(NodeId, &str)>
        ensures source { IfSome result (λ s. IsSourceOf self.now id s.0 s.1.now) }
        ensures none { IfNone result ((instance : AnId) (position : ℕ) → IsAliasOf self.now instance position id → ⊥) }
    {
        let (source, position) = self.edges.alias_source(id)?;
        let ItemKind::Instance(interface) = self.nodes[source.0].item_kind() else {
            unreachable!()
        };
        let name = self.types[interface].exports.name_at(position);
        Some((source, name))
    }

    /// Sets the argument of an instantiation for the import with this name.
    ///
    /// Does nothing, and succeeds, if the argument is already set to this node.
    ///
    /// # Errors
    /// - [`NodeIsNotAnInstantiation`](InstantiationArgumentError::NodeIsNotAnInstantiation) if the node is not one.
    /// - [`InvalidArgumentName`](InstantiationArgumentError::InvalidArgumentName) if it has no import with this name.
    /// - [`ArgumentAlreadyPassed`](InstantiationArgumentError::ArgumentAlreadyPassed) if another node is the argument.
    /// - [`ArgumentTypeMismatch`](InstantiationArgumentError::ArgumentTypeMismatch) if the argument's type is not a
    ///   subtype of the import's.
    pub fn set_instantiation_argument(
        &mut self,
        instantiation: NodeId,
        argument_name: &str,
        argument: NodeId,
    ) -> Result<(), InstantiationArgumentError>
        requires instantiation { IsSome (node_at self.old instantiation) }
        requires argument { IsSome (node_at self.old argument) }
        ensures step { SetsArgument self.old instantiation argument_name.now argument result self.new }
        ensures valid { KeepsValid self.old self.new }
    {
        let (position, kind) = self.import_of(instantiation, argument_name)?;
        if self.is_given(instantiation, position, argument) {
            return Ok(());
        }
        self.check_argument(instantiation, argument_name, position, kind, argument)?;
        self.give_argument(instantiation, position, argument)?;
        Ok(())
    }

    /// Removes the argument of an instantiation for the import with this name.
    ///
    /// Does nothing if the argument is not set to this node. Only the strings of an error are allocated.
    ///
    /// # Errors
    /// - [`NodeIsNotAnInstantiation`](InstantiationArgumentError::NodeIsNotAnInstantiation) if the node is not one.
    /// - [`InvalidArgumentName`](InstantiationArgumentError::InvalidArgumentName) if it has no import with this name.
    pub fn unset_instantiation_argument(
        &mut self,
        instantiation: NodeId,
        argument_name: &str,
        argument: NodeId,
    ) -> Result<(), InstantiationArgumentError>
        requires { IsSome (node_at self.old instantiation) }
        ensures step { UnsetsArgument self.old instantiation argument_name.now argument result self.new }
        ensures valid { KeepsValid self.old self.new }
    {
        let (position, _) = self.import_of(instantiation, argument_name)?;
        self.take_argument(instantiation, position, argument);
        Ok(())
    }

    /// Sets the name of a node, which `encode` writes in the `component-name` section. Replaces an earlier name.
    ///
    /// # Errors
    /// `AllocError` if memory runs out.
    pub fn set_node_name(&mut self, node: NodeId, name: &str) -> Result<(), AllocError>
        requires { IsSome (node_at self.old node) }
        ensures step { SetsName self.old node name.now result self.new }
        ensures valid { KeepsValid self.old self.new }
    {
        set_name(self.alloc, &mut self.nodes, node.0, name)?;
        Ok(())
    }

    /// Exports a node under a name, after all other exports. A node may have several export names.
    ///
    /// # Errors
    /// - [`ExportAlreadyExists`](ExportError::ExportAlreadyExists) if the graph already exports the name.
    /// - [`InvalidExportName`](ExportError::InvalidExportName) if the name is not a component name, or is a hash, url
    ///   or dependency name.
    pub fn export(&mut self, node: NodeId, name: &str) -> Result<(), ExportError>
        requires { IsSome (node_at self.old node) }
        ensures step { Exports self.old node name.now result self.new }
        ensures valid { KeepsValid self.old self.new }
    {
        self.check_export(name)?;
        let key = String::from_str(self.alloc, name)?;
        let is_named = self.nodes[node.0].export_name().is_some();
        self.lost.prepare(self.exports.len() + 1, node.0, is_named)?;
        self.exports.reserve(1)?;
        set_export_name(self.alloc, &mut self.nodes, node.0, name)?;
        self.exports.insert(key, node).unwrap();
        Ok(())
    }

    /// Removes all export names of a node.
    ///
    /// The names are removed from the last to the first. Each time, the last export of the graph takes the freed place.
    ///
    /// # Errors
    /// - [`MustExportDefinition`](UnexportError::MustExportDefinition) if the node is a definition.
    pub fn unexport(&mut self, node: NodeId) -> Result<(), UnexportError>
        requires { IsSome (node_at self.old node) }
        ensures step { Unexports self.old node result self.new }
        ensures valid { KeepsValid self.old self.new }
    {
        if let NodeKind::Definition = self.nodes[node.0].kind() {
            return Err(UnexportError::MustExportDefinition);
        }
        take_exports(&mut self.exports, node);
        clear_export_name(&mut self.nodes, node.0);
        self.lost.unmark(node.0);
        Ok(())
    }

    /// The node that is exported under the name, if any.
    pub fn get_export(&self, name: &str) -> Option<NodeId>
        ensures { result ≡ export_at self.now name.now }
    {
        self.exports.get(name).copied()
    }
}

/// Returns the node with the id, which must be valid.
impl Index<NodeId> for CompositionGraph {
    type Output = Node;

    ghost use Rattle.wac_graph_model.specs.nodes.Gives.{HasNode, GivesNode};

    ghost can_index = { HasNode };

    ghost index_gives = { GivesNode };

    fn index(&self, id: NodeId) -> &Node {
        &self.nodes[id.0]
    }
}

/// Returns the package with the id, which must be valid.
impl Index<PackageId> for CompositionGraph {
    type Output = Package;

    ghost use Rattle.wac_graph_model.specs.nodes.Gives.{HasPackage, GivesPackage};

    ghost can_index = { HasPackage };

    ghost index_gives = { GivesPackage };

    fn index(&self, id: PackageId) -> &Package {
        match package_in_slots(&self.slots, id) {
            Some(package) => package,
            None => unreachable!(),
        }
    }
}

/// Proves that adding to a well-formed collection keeps the trees of its types.
fn growth_law(types: &Types)
    ensures trees { GrowthKeepsTrees types.now }
    ensures formed { IsWellFormed types.now }
{
    growth_keeps_trees(types); // proof only
    types.law(); // proof only
}

fn set_export_name(
    alloc: Global,
    nodes: &mut Slab<Node>,
    number: usize,
    name: &str,
) -> Result<(), AllocError>
    requires { ContainsKey nodes.old number }
    ensures named { OnOk result (Renames (with_export_name (Some name.now)) nodes.old nodes.new number) }
    ensures kept { OnErr result (nodes.new ≡ nodes.old) }
{
    inner::set_export_name(&mut nodes[number], alloc, name)
}

fn set_name(
    alloc: Global,
    nodes: &mut Slab<Node>,
    number: usize,
    name: &str,
) -> Result<(), AllocError>
    requires { ContainsKey nodes.old number }
    ensures named { OnOk result (Renames (with_name name.now) nodes.old nodes.new number) }
    ensures kept { OnErr result (nodes.new ≡ nodes.old) }
{
    inner::set_name(&mut nodes[number], alloc, name)
}

fn clear_export_name(nodes: &mut Slab<Node>, number: usize)
    requires { ContainsKey nodes.old number }
    ensures { Renames (with_export_name None) nodes.old nodes.new number }
{
    inner::clear_export_name(&mut nodes[number]);
}

/// Removes the exports of a node, from the last to the first. Each time, the last export takes the freed place.
fn take_exports(exports: &mut IndexMap<String, NodeId>, node: NodeId)
    ensures { names_of exports.new.entries ≡ without (λ m. m.0 == node.0) (names_of exports.old.entries) }
{
    let mut i = exports.len();
    while i > 0 {
        i -= 1;
        take_export(exports, node, i);
    }
}

/// Removes the export at a position if it is the node's. The last export takes its place.
fn take_export(exports: &mut IndexMap<String, NodeId>, node: NodeId, position: usize)
    ensures { names_of exports.new.entries ≡ taken_at (λ m. m.0 == node.0) position (slice_get (names_of exports.old.entries) position) (names_of exports.old.entries) }
{
    let Some((_, other)) = exports.get_index(position) else {
        return;
    };
    if other.0 == node.0 {
        exports.swap_remove_index(position);
    }
}
