//! Look-ups, checks and changes of instantiation arguments.
ghost use Rattle.std.specs.Prelude.{◌≡◌, true, IsSome, IsTrue, OnOk, OnErr, IfOk, IfErr, Err};
ghost use Rattle.std.specs.FinSet as set;
ghost use Rattle.wac_types_collection.specs.collection.Collection.{holds_type};
ghost use Rattle.wac_types_shapes.specs.shapes.Kinds.{kind_type};
ghost use Rattle.wac_types_shapes.specs.declared.shapes.component.ItemKind.{ItemKind as AnItem};
ghost use Rattle.wac_graph_fields.specs.private.Arguments.{HasImport, Fits, CanBeGiven, IsInstantiation};
ghost use Rattle.wac_edges.specs.Edge.{argument_edge as labelled};
ghost use Rattle.wac_graph_model.specs.nodes.Graph.{node_at, IsArgumentOf, IsUnsatisfied};
ghost use Rattle.wac_graph_model.specs.nodes.Steps.{SetsArgument, UnsetsArgument};
ghost use Rattle.wac_edges.specs.declared.node.NodeId.{NodeId as AnId};

use crate::graph::CompositionGraph;
use std::alloc::AllocError;
use wac_edges::edges::{Edge, Label};
use wac_graph_model::inner::{reserve_mark, satisfy, unsatisfy};
use wac_graph_model::{InstantiationArgumentError, NodeId, NodeKind};
use wac_types::laws::subtyping_is_reflexive;
use wac_types::{ItemKind, SubtypeChecker, TypeFault};

/// The edge of an argument at this position.
pub fn argument_edge(instantiation: NodeId, position: usize, argument: NodeId) -> Edge
    ensures { result ≡ labelled argument instantiation position }
{
    Edge {
        source: argument,
        target: instantiation,
        label: Label::Argument(position),
    }
}

impl CompositionGraph {
    /// The position and type of the instantiation's import with this name.
    ///
    /// # Errors
    /// - [`NodeIsNotAnInstantiation`](InstantiationArgumentError::NodeIsNotAnInstantiation) if the node is not one.
    /// - [`InvalidArgumentName`](InstantiationArgumentError::InvalidArgumentName) if it has no import with this name.
    pub(crate) fn import_of(
        &self,
        instantiation: NodeId,
        name: &str,
    ) -> Result<(usize, ItemKind), InstantiationArgumentError>
        requires { IsSome (node_at self.now instantiation) }
        ensures found { IfOk result (λ i. HasImport self.now instantiation name.now i.0 i.1) }
        ensures held { IfOk result (λ i. holds_type self.now.types (kind_type i.1) ≡ true) }
        ensures refused { IfErr result (λ e. (argument : AnId) → SetsArgument self.now instantiation name.now argument (Err e) self.now) }
        ensures lacks { IfErr result (λ e. (argument : AnId) → UnsetsArgument self.now instantiation name.now argument (Err e) self.now) }
    {
        self.types.law(); // proof only
        let node = &self.nodes[instantiation.0];
        let NodeKind::Instantiation(_) = node.kind() else {
            return Err(InstantiationArgumentError::NodeIsNotAnInstantiation {
                node: instantiation,
            });
        };
        let (_, package) = self.package_of(instantiation.0);
        let world = &self.types[package.ty()];
        let Some((position, kind)) = world.imports.get_full(name) else {
            let name = String::from_str(self.alloc, name)?;
            let package = String::from_str(self.alloc, package.name())?;
            return Err(InstantiationArgumentError::InvalidArgumentName {
                node: instantiation,
                name,
                package,
            });
        };
        Ok((position, *kind))
    }

    /// Checks that the import has no argument. Fails with `ArgumentAlreadyPassed` if it has one.
    pub(crate) fn check_unset(
        &self,
        instantiation: NodeId,
        name: &str,
        position: usize,
    ) -> Result<(), InstantiationArgumentError>
        requires { (kind : AnItem) × HasImport self.now instantiation name.now position kind }
        ensures unset { OnOk result (IsUnsatisfied self.now instantiation position) }
        ensures refused { IfErr result (λ e. (argument : AnId) → (IsArgumentOf self.now instantiation position argument → ⊥) → SetsArgument self.now instantiation name.now argument (Err e) self.now) }
    {
        let NodeKind::Instantiation(satisfied) = self.nodes[instantiation.0].kind() else {
            unreachable!()
        };
        if satisfied.contains(&position) {
            let name = String::from_str(self.alloc, name)?;
            return Err(InstantiationArgumentError::ArgumentAlreadyPassed {
                node: instantiation,
                name,
            });
        }
        Ok(())
    }

    /// Checks that the node, which is not the import's argument, can become it.
    ///
    /// # Errors
    /// - [`ArgumentAlreadyPassed`](InstantiationArgumentError::ArgumentAlreadyPassed) if the import has an argument.
    /// - [`ArgumentTypeMismatch`](InstantiationArgumentError::ArgumentTypeMismatch) if its type is not a subtype.
    pub(crate) fn check_argument(
        &self,
        instantiation: NodeId,
        name: &str,
        position: usize,
        kind: ItemKind,
        argument: NodeId,
    ) -> Result<(), InstantiationArgumentError>
        requires import { HasImport self.now instantiation name.now position kind }
        requires held { holds_type self.now.types (kind_type kind) ≡ true }
        requires argument { IsSome (node_at self.now argument) }
        requires other { IsArgumentOf self.now instantiation position argument → ⊥ }
        ensures fits { OnOk result (Fits self.now instantiation position kind argument) }
        ensures refused { IfErr result (λ e. SetsArgument self.now instantiation name.now argument (Err e) self.now) }
    {
        self.check_unset(instantiation, name, position)?;
        let given = self.nodes[argument.0].item_kind();
        if is_same(given, kind) {
            subtyping_is_reflexive(&self.types, kind); // proof only
            return Ok(());
        }
        match SubtypeChecker::new().is_subtype(given, &self.types, kind, &self.types) {
            Ok(()) => Ok(()),
            Err(TypeFault::OutOfMemory) => Err(InstantiationArgumentError::OutOfMemory),
            Err(TypeFault::Mismatch) => {
                let name = String::from_str(self.alloc, name)?;
                let source = TypeFault::Mismatch;
                Err(InstantiationArgumentError::ArgumentTypeMismatch { name, source })
            }
        }
    }

    /// Whether the node is the argument at this position. Reads no edge if the import is unsatisfied.
    pub(crate) fn is_given(&self, instantiation: NodeId, position: usize, argument: NodeId) -> bool
        requires { IsInstantiation self.now instantiation }
        ensures { result ≡ set.contains self.now.edges (labelled argument instantiation position) }
    {
        let NodeKind::Instantiation(satisfied) = self.nodes[instantiation.0].kind() else {
            unreachable!()
        };
        if !satisfied.contains(&position) {
            return false;
        }
        self.edges
            .contains(argument_edge(instantiation, position, argument))
    }

    /// Sets the argument of an import that it fits. On `AllocError` the graph is unchanged.
    pub(crate) fn give_argument(
        &mut self,
        instantiation: NodeId,
        position: usize,
        argument: NodeId,
    ) -> Result<(), AllocError>
        requires { CanBeGiven self.old instantiation position argument }
        ensures given { OnOk result (self.new ≡ record self.old { edges = set.insert self.old.edges (labelled argument instantiation position) }) }
        ensures kept { OnErr result (self.new ≡ self.old) }
    {
        reserve_mark(&mut self.nodes, instantiation.0)?;
        let edge = argument_edge(instantiation, position, argument);
        self.edges.add_new(edge)?;
        satisfy(&mut self.nodes, instantiation.0, position);
        Ok(())
    }

    /// Removes the argument at this position, if the node is it.
    pub(crate) fn take_argument(&mut self, instantiation: NodeId, position: usize, argument: NodeId)
        requires { IsInstantiation self.old instantiation }
        ensures { self.new ≡ record self.old { edges = set.remove self.old.edges (labelled argument instantiation position) } }
    {
        let edge = argument_edge(instantiation, position, argument);
        if self.edges.take(edge) {
            unsatisfy(&mut self.nodes, instantiation.0, position);
        }
    }
}

/// Whether both have the same id, for functions and instances. Then no types need to be compared.
fn is_same(a: ItemKind, b: ItemKind) -> bool
    ensures { IsTrue result → a ≡ b }
{
    match (a, b) {
        (ItemKind::Func(a), ItemKind::Func(b)) => a == b,
        (ItemKind::Instance(a), ItemKind::Instance(b)) => a == b,
        _ => false,
    }
}
