//! The nodes of a graph.
ghost use Rattle.std.specs.Prelude.{◌≡◌, IfOk, OnErr, OnOk, Some, None, string_bytes};
ghost use Rattle.std.specs.Option.{option_map};
ghost use Rattle.wac_graph_model.specs.nodes.Graph.{import_name};
ghost use Rattle.wac_graph_model.specs.nodes.Clones.{IsKindClone, IsNodeClone};
ghost use Rattle.wac_graph_model.specs.private.nodes.Clones.{AreNamesClone};
ghost use Rattle.wac_graph_model.specs.nodes.Definitions.{definition_node};
ghost use Rattle.wac_graph_model.specs.nodes.Nodes.{kind_of, node_of, unnamed};

use crate::nodes::packages::PackageId;
use std::alloc::{AllocError, Global};
use std::collections::HashSet;
use wac_types::{ItemKind, Type};

/// The kind of a node.
#[derive(Debug, Drop)]
pub enum NodeKind {
    /// A type definition.
    Definition,
    /// An import with this name.
    Import(String),
    /// An instantiation of a package, with the positions of its imports that have an argument.
    Instantiation(HashSet<usize>),
    /// An alias of an instance's export.
    Alias,
}

impl NodeKind {
    /// Clones the kind.
    ///
    /// # Errors
    /// `AllocError` if memory runs out.
    pub fn clone(&self) -> Result<NodeKind, AllocError>
        ensures { IfOk result (λ copy. IsKindClone self.now copy) }
    {
        match self {
            NodeKind::Definition => Ok(NodeKind::Definition),
            NodeKind::Import(name) => Ok(NodeKind::Import(name.clone()?)),
            NodeKind::Instantiation(positions) => Ok(NodeKind::Instantiation(positions.clone()?)),
            NodeKind::Alias => Ok(NodeKind::Alias),
        }
    }
}

/// A node of a graph.
#[derive(Debug)]
pub struct Node {
    pub(crate) kind: NodeKind,
    // The instantiated package. An alias has the package of its source.
    package: Option<PackageId>,
    item_kind: ItemKind,
    // Boxed, because most nodes have no name.
    names: Option<Box<NodeNames>>,
}

// By hand: a derived `Drop` is proved again wherever one goes out of scope (docs/PROOFS.md, 'Drop').
impl Drop for Node {
    fn drop(self) {
        let Node {
            kind: _,
            package: _,
            item_kind: _,
            names: _,
        } = self;
    }
}

// A `Slab` clones its nodes by the trait.
impl Clone for Node {
    ghost is_clone = { IsNodeClone };

    fn clone(&self) -> Result<Node, AllocError> {
        Node::clone(self)
    }
}

/// The names of a node.
#[derive(Debug, Drop)]
struct NodeNames {
    // The name given by `set_node_name`.
    name: Option<String>,
    // The latest export name.
    export_name: Option<String>,
    // The first export name of a definition. `None` for other nodes.
    first_name: Option<String>,
}

/// Fails with `AllocError` if memory runs out.
impl Clone for NodeNames {
    ghost is_clone = { AreNamesClone };

    fn clone(&self) -> Result<NodeNames, AllocError> {
        let name = cloned(&self.name)?;
        let export_name = cloned(&self.export_name)?;
        let first_name = cloned(&self.first_name)?;
        Ok(NodeNames {
            name,
            export_name,
            first_name,
        })
    }
}

/// Clones the text, if any.
fn cloned(text: &Option<String>) -> Result<Option<String>, AllocError>
    ensures { IfOk result (λ t. option_map string_bytes t ≡ option_map string_bytes text.now) }
{
    match text {
        Some(text) => Ok(Some(text.clone()?)),
        None => Ok(None),
    }
}

/// Borrows the text, if any.
fn as_text(text: &Option<String>) -> Option<&str>
    ensures { option_map (λ s. s.now) result ≡ option_map string_bytes text.now }
{
    match text {
        Some(text) => Some(text.as_str()),
        None => None,
    }
}

impl Node {
    /// Clones the node.
    ///
    /// # Errors
    /// `AllocError` if memory runs out.
    pub fn clone(&self) -> Result<Node, AllocError>
        ensures { IfOk result (λ copy. IsNodeClone self.now copy) }
    {
        let kind = self.kind.clone()?;
        let names = match &self.names {
            Some(names) => Some(names.clone()?),
            None => None,
        };
        Ok(Node {
            kind,
            package: self.package,
            item_kind: self.item_kind,
            names,
        })
    }

    /// The kind of the node.
    pub fn kind(&self) -> &NodeKind
        ensures { result.now ≡ self.now.kind }
    {
        &self.kind
    }

    /// The instantiated package, if any. An alias has the package of its source.
    pub fn package(&self) -> Option<PackageId>
        ensures { result ≡ self.now.«package» }
    {
        self.package
    }

    /// The item that the node provides, with its type.
    pub fn item_kind(&self) -> ItemKind
        ensures { result ≡ self.now.item_kind }
    {
        self.item_kind
    }

    /// The name of an import node. `None` for other nodes.
    pub fn import_name(&self) -> Option<&str>
        ensures { option_map (λ s. s.now) result ≡ import_name (kind_of self.now.kind) }
    {
        match &self.kind {
            NodeKind::Import(name) => Some(name.as_str()),
            NodeKind::Definition | NodeKind::Instantiation(_) | NodeKind::Alias => None,
        }
    }

    /// The name given by `set_node_name`, if any.
    pub fn name(&self) -> Option<&str>
        ensures { option_map (λ s. s.now) result ≡ (node_of self.now).name }
    {
        match &self.names {
            Some(names) => as_text(&names.name),
            None => None,
        }
    }

    /// The latest export name, if the node is exported.
    pub fn export_name(&self) -> Option<&str>
        ensures { option_map (λ s. s.now) result ≡ (node_of self.now).export_name }
    {
        match &self.names {
            Some(names) => as_text(&names.export_name),
            None => None,
        }
    }
}

/// Creates a node without names.
pub fn new_node(kind: NodeKind, package: Option<PackageId>, item_kind: ItemKind) -> Node
    ensures kind { result.kind ≡ kind }
    ensures node { node_of result ≡ unnamed (kind_of kind) «package» item_kind }
{
    Node {
        kind,
        package,
        item_kind,
        names: None,
    }
}

/// Creates a definition of the type that is exported under the name. Fails with `AllocError` if memory runs out.
pub fn new_definition(alloc: Global, name: &str, ty: Type) -> Result<Node, AllocError>
    ensures { IfOk result (λ n. node_of n ≡ definition_node name.now ty) }
{
    let export_name = String::from_str(alloc, name)?;
    let first_name = String::from_str(alloc, name)?;
    let names = NodeNames {
        name: None,
        export_name: Some(export_name),
        first_name: Some(first_name),
    };
    Ok(Node {
        kind: NodeKind::Definition,
        package: None,
        item_kind: ItemKind::TypeItem(ty),
        names: Some(Box::new(alloc, names)?),
    })
}

/// The first export name of a definition. `None` for other nodes.
pub fn first_name(node: &Node) -> Option<&str>
    ensures { option_map (λ s. s.now) result ≡ (node_of node.now).first_name }
{
    match &node.names {
        Some(names) => as_text(&names.first_name),
        None => None,
    }
}

/// Sets the node's name. On `AllocError` the node is unchanged.
pub fn set_name(node: &mut Node, alloc: Global, name: &str) -> Result<(), AllocError>
    ensures kind { node.new.kind ≡ node.old.kind }
    ensures named { OnOk result (node_of node.new ≡ record (node_of node.old) { name = Some name.now }) }
    ensures kept { OnErr result (node.new ≡ node.old) }
{
    let text = String::from_str(alloc, name)?;
    match &mut node.names {
        Some(names) => names.name = Some(text),
        None => {
            let names = NodeNames {
                name: Some(text),
                export_name: None,
                first_name: None,
            };
            node.names = Some(Box::new(alloc, names)?);
        }
    }
    Ok(())
}

/// Sets the latest export name. On `AllocError` the node is unchanged.
pub fn set_export_name(node: &mut Node, alloc: Global, name: &str) -> Result<(), AllocError>
    ensures kind { node.new.kind ≡ node.old.kind }
    ensures named { OnOk result (node_of node.new ≡ record (node_of node.old) { export_name = Some name.now }) }
    ensures kept { OnErr result (node.new ≡ node.old) }
{
    let text = String::from_str(alloc, name)?;
    match &mut node.names {
        Some(names) => names.export_name = Some(text),
        None => {
            let names = NodeNames {
                name: None,
                export_name: Some(text),
                first_name: None,
            };
            node.names = Some(Box::new(alloc, names)?);
        }
    }
    Ok(())
}

/// Clears the latest export name.
pub fn clear_export_name(node: &mut Node)
    ensures kind { node.new.kind ≡ node.old.kind }
    ensures cleared { node_of node.new ≡ record (node_of node.old) { export_name = None } }
{
    if let Some(names) = &mut node.names {
        names.export_name = None;
    }
}
