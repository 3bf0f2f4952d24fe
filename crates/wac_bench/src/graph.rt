//! The graph that is measured.

use anyhow::{Result, bail};
use std::alloc::Global;
use wac_graph::types::{
    DefinedType, FuncType, Interface, InterfaceId, ItemKind, Resource, ResourceId, Type, Types,
    ValueType, World,
};
use wac_graph::{CompositionGraph, EncodeOptions, NodeId, Nodes, PackageId, plug};

/// A component with nothing in it.
const EMPTY_COMPONENT: [u8; 8] = [0x00, 0x61, 0x73, 0x6d, 0x0d, 0x00, 0x01, 0x00];

/// Items by name.
pub type Items<'a> = &'a [(&'a str, ItemKind)];

/// A composition graph. Its methods have no contract, so that a workload is proved without those of the graph.
#[derive(Drop)]
pub struct Graph {
    pub alloc: Global,
    graph: CompositionGraph,
}

/// Returns what a call made, or an error if it was refused.
pub fn refused<T>(made: Option<T>) -> Result<T> {
    match made {
        Some(made) => Ok(made),
        None => bail!("a call is refused"),
    }
}

impl Graph {
    /// Creates an empty graph.
    pub fn new(alloc: Global) -> Graph {
        let graph = CompositionGraph::new(alloc);
        Graph { alloc, graph }
    }

    /// The graph's collection of types.
    pub fn types(&self) -> &Types {
        self.graph.types()
    }

    /// The nodes of the graph.
    pub fn nodes(&self) -> Nodes<'_> {
        self.graph.nodes()
    }

    /// Adds a defined type.
    pub fn defined(&mut self, defined: DefinedType) -> Result<ValueType> {
        Ok(ValueType::Defined(self.graph.add_defined_type(defined)?))
    }

    /// Adds a resource.
    pub fn resource(&mut self, resource: Resource) -> Result<ResourceId> {
        Ok(self.graph.add_resource(resource)?)
    }

    /// Adds a function type.
    pub fn function(
        &mut self,
        params: &[(&str, ValueType)],
        returned: Option<ValueType>,
    ) -> Result<ItemKind> {
        let function = FuncType::new(self.alloc, params, returned, false)?;
        Ok(ItemKind::Func(self.graph.add_func_type(function)?))
    }

    /// Adds an interface.
    pub fn interface(&mut self, interface: Interface) -> Result<InterfaceId> {
        Ok(self.graph.add_interface(interface)?)
    }

    /// Adds an interface that uses no other, as an instance of it.
    pub fn instance(&mut self, id: Option<&str>, exports: Items<'_>) -> Result<ItemKind> {
        let interface = Interface::new(self.alloc, id, exports)?;
        Ok(ItemKind::Instance(self.interface(interface)?))
    }

    /// Adds a world, as a component of it.
    pub fn component(&mut self, imports: Items<'_>, exports: Items<'_>) -> Result<ItemKind> {
        let world = World::new(self.alloc, None, imports, exports)?;
        Ok(ItemKind::Component(self.graph.add_world(world)?))
    }

    /// Registers an empty component of a new world.
    pub fn register(&mut self, id: &str, takes: Items<'_>, gives: Items<'_>) -> Result<PackageId> {
        let world = World::new(self.alloc, None, takes, gives)?;
        let world = self.graph.add_world(world)?;
        let bytes = Vec::from_array(self.alloc, EMPTY_COMPONENT)?;
        let package = self.graph.new_package(id, None, bytes, world)?;
        Ok(self.graph.register_package(package)?)
    }

    /// Imports an item.
    pub fn import(&mut self, name: &str, kind: ItemKind) -> Result<()> {
        if !self.graph.types().contains(kind.ty()) {
            bail!("an item is not in the collection");
        }
        let _node = self.graph.import(name, kind)?;
        Ok(())
    }

    /// Defines a type.
    pub fn define(&mut self, name: &str, ty: Type) -> Result<()> {
        if !self.graph.types().contains(ty) {
            bail!("a type is not in the collection");
        }
        let _node = self.graph.define_type(name, ty)?;
        Ok(())
    }

    /// Makes an instance of a package.
    pub fn instantiate(&mut self, package: PackageId) -> Option<NodeId> {
        if !self.graph.has_package(package) {
            return None;
        }
        self.graph.instantiate(package).ok()
    }

    /// Makes an alias of an export.
    pub fn alias(&mut self, instance: NodeId, name: &str) -> Option<NodeId> {
        if !self.graph.has_node(instance) {
            return None;
        }
        self.graph.alias_instance_export(instance, name).ok()
    }

    /// Sets an argument of an instance, or unsets it.
    pub fn argument(&mut self, of: NodeId, name: &str, node: NodeId, is_set: bool) -> Option<()> {
        let graph = &mut self.graph;
        if !graph.has_node(of) || !graph.has_node(node) {
            return None;
        }
        if is_set {
            graph.set_instantiation_argument(of, name, node).ok()
        } else {
            graph.unset_instantiation_argument(of, name, node).ok()
        }
    }

    /// Exports a node.
    pub fn export(&mut self, node: NodeId, name: &str) -> Option<()> {
        if !self.graph.has_node(node) {
            return None;
        }
        self.graph.export(node, name).ok()
    }

    /// Removes a node.
    pub fn remove(&mut self, node: NodeId) -> Option<()> {
        if !self.graph.has_node(node) {
            return None;
        }
        self.graph.remove_node(node);
        Some(())
    }

    /// Plugs a package into another.
    pub fn plug(&mut self, giver: PackageId, taker: PackageId) -> Result<()> {
        if !self.graph.has_package(giver) || !self.graph.has_package(taker) {
            bail!("a package is not registered");
        }
        let plugs = vec![in self.alloc; giver]?;
        let _passed = plug(&mut self.graph, plugs, taker)?;
        Ok(())
    }

    /// Encodes the graph, its outer names unvalidated. Returns the number of bytes.
    pub fn encode(&self, define_components: bool) -> Result<usize> {
        Ok(self.encoded(define_components)?.len())
    }

    /// Encodes the graph, its outer names unvalidated.
    pub fn encoded(&self, define_components: bool) -> Result<Vec<u8>> {
        let options = EncodeOptions {
            define_components,
            validate: false,
            processor: None,
        };
        Ok(self.graph.encode(options)?)
    }
}
