//! Definitions of types.
ghost use Rattle.std.specs.Prelude.{◌≡◌, true, IfOk, IsSome, MatchResult, OnErr, Ok, Err, string_bytes};
ghost use Rattle.wac_types_collection.specs.collection.Collection.{holds_type};
ghost use Rattle.wac_graph_fields.specs.private.Definable.{IsDefinable};
ghost use Rattle.wac_graph_model.specs.nodes.Definitions.{definition_node};
ghost use Rattle.wac_graph_model.specs.nodes.Graph.{node_at};
ghost use Rattle.wac_graph_model.specs.nodes.Nodes.{node_of};
ghost use Rattle.wac_graph_model.specs.nodes.Steps.{Defines};
ghost use Rattle.wac_graph_model.specs.nodes.Valid.{KeepsValid};

use crate::graph::CompositionGraph;
use std::alloc::AllocError;
use wac_graph_fields::{add_dependencies, is_defined};
use wac_graph_model::inner::new_definition;
use wac_graph_model::{DefineTypeError, Node, NodeId, import_fault};
use wac_types::Type;

impl CompositionGraph {
    /// Adds a definition of a type, exported under the name.
    ///
    /// Dependency edges are added from each defined value type that the type reaches.
    /// If the type is a defined value type itself, they are also added to each definition that reaches it.
    ///
    /// # Errors
    /// - [`TypeAlreadyDefined`](DefineTypeError::TypeAlreadyDefined) if a node defines the type.
    /// - [`CannotDefineResource`](DefineTypeError::CannotDefineResource) if the type is a resource.
    /// - [`ExportConflict`](DefineTypeError::ExportConflict) if the graph already exports the name.
    /// - [`InvalidExternName`](DefineTypeError::InvalidExternName) if the name is not a component name.
    pub fn define_type(&mut self, name: &str, ty: Type) -> Result<NodeId, DefineTypeError>
        requires { holds_type self.old.types ty ≡ true }
        ensures step { Defines self.old name.now ty result self.new }
        ensures there { IfOk result (λ node. IsSome (node_at self.new node)) }
        ensures valid { KeepsValid self.old self.new }
    {
        self.check_definition(name, ty)?;
        let node = new_definition(self.alloc, name, ty)?;
        let key = String::from_str(self.alloc, name)?;
        Ok(self.add_definition(key, ty, node)?)
    }

    /// Adds a definition that passed all checks. On `AllocError` the graph is unchanged.
    fn add_definition(&mut self, name: String, ty: Type, node: Node) -> Result<NodeId, AllocError>
        requires held { holds_type self.old.types ty ≡ true }
        requires definable { IsDefinable self.old (string_bytes name) ty }
        requires node { node_of node ≡ definition_node (string_bytes name) ty }
        ensures defined { IfOk result (λ id. Defines self.old (string_bytes name) ty (Ok id) self.new) }
        ensures kept { OnErr result (self.new ≡ self.old) }
    {
        self.nodes.reserve(1)?;
        self.exports.reserve(1)?;
        let id = NodeId(self.nodes.vacant_key());
        self.lost.prepare(self.exports.len() + 1, id.0, false)?;
        add_dependencies(&self.nodes, &self.types, &mut self.edges, ty, id)?;
        self.exports.insert(name, id).unwrap();
        self.nodes.insert_reserved(node);
        Ok(id)
    }

    /// Checks that a type can be defined under a name.
    fn check_definition(&self, name: &str, ty: Type) -> Result<(), DefineTypeError>
        ensures { MatchResult result (λ _. IsDefinable self.now name.now ty) (λ e. Defines self.now name.now ty (Err e) self.now) }
    {
        if is_defined(&self.nodes, ty) {
            return Err(DefineTypeError::TypeAlreadyDefined);
        }
        if let Type::Resource(_) = ty {
            return Err(DefineTypeError::CannotDefineResource);
        }
        if let Some(_) = self.exports.get(name) {
            let name = String::from_str(self.alloc, name)?;
            return Err(DefineTypeError::ExportConflict { name });
        }
        if let Some(source) = import_fault(self.alloc, name)? {
            let name = String::from_str(self.alloc, name)?;
            return Err(DefineTypeError::InvalidExternName { name, source });
        }
        Ok(())
    }
}
