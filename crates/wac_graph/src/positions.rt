//! Aliases and arguments by position, without looking up names.
ghost use Rattle.std.specs.Prelude.{◌≡◌, IsSome, IfOk, IfErr, OnErr, Ok, Err};
ghost use Rattle.wac_types_shapes.specs.primitives.Name.{Name as AName};
ghost use Rattle.wac_types_shapes.specs.declared.shapes.component.ItemKind.{ItemKind as AnItem};
ghost use Rattle.wac_graph_fields.specs.private.Arguments.{HasImport};
ghost use Rattle.wac_graph.specs.private.plugs.Positions.{FitsImport, HasExport, HasNamed};
ghost use Rattle.wac_edges.specs.declared.node.NodeId.{NodeId as AnId};
ghost use Rattle.wac_graph_model.specs.nodes.Graph.{node_at};
ghost use Rattle.wac_graph_model.specs.nodes.Steps.{Aliases, SetsArgument};

use crate::graph::CompositionGraph;
use std::alloc::AllocError;
use wac_graph_model::{InstantiationArgumentError, NodeId, NodeKind};
use wac_types::ItemKind;

impl CompositionGraph {
    /// The type of an instance's export at a position.
    pub(crate) fn export_kind(&self, instance: NodeId, position: usize) -> ItemKind
        requires instance { IsSome (node_at self.now instance) }
        requires export { (name : AName) × (kind : AnItem) × HasExport self.now instance name position kind }
        ensures { (name : AName) (kind : AnItem) → HasExport self.now instance name position kind → result ≡ kind }
    {
        let ItemKind::Instance(interface) = self.nodes[instance.0].item_kind() else {
            unreachable!()
        };
        *self.types[interface].exports.value_at(position)
    }

    /// The name of an instantiation's import at a position. Fails with `NodeIsNotAnInstantiation`.
    fn import_name(
        &self,
        instantiation: NodeId,
        position: usize,
    ) -> Result<&str, InstantiationArgumentError>
        requires instantiation { IsSome (node_at self.now instantiation) }
        requires import { (name : AName) × (kind : AnItem) × HasNamed self.now instantiation name position kind }
        ensures found { IfOk result (λ n. (name : AName) (kind : AnItem) → HasNamed self.now instantiation name position kind → (n.now ≡ name) × HasImport self.now instantiation name position kind) }
        ensures refused { IfErr result (λ e. (name : AName) (argument : AnId) → SetsArgument self.now instantiation name argument (Err e) self.now) }
    {
        let NodeKind::Instantiation(_) = self.nodes[instantiation.0].kind() else {
            return Err(InstantiationArgumentError::NodeIsNotAnInstantiation {
                node: instantiation,
            });
        };
        Ok(self.imports_at(instantiation.0).name_at(position))
    }
}

/// Returns the alias of the export at a position, as `alias_instance_export` does for its name.
pub(crate) fn alias_export_at(
    graph: &mut CompositionGraph,
    instance: NodeId,
    position: usize,
) -> Result<NodeId, AllocError>
    requires instance { IsSome (node_at graph.old instance) }
    requires export { (name : AName) × (kind : AnItem) × HasExport graph.old instance name position kind }
    ensures step { IfOk result (λ alias. (name : AName) (kind : AnItem) → HasExport graph.old instance name position kind → Aliases graph.old instance name (Ok alias) graph.new) }
    ensures kept { OnErr result (graph.new ≡ graph.old) }
    ensures there { IfOk result (λ alias. IsSome (node_at graph.new alias)) }
{
    let kind = graph.export_kind(instance, position);
    graph.alias_at(instance, position, kind)
}

/// Sets the argument for the import at a position, as `set_instantiation_argument` does for its name.
///
/// The argument is known to fit, so no types are compared.
pub(crate) fn set_argument_at(
    graph: &mut CompositionGraph,
    instantiation: NodeId,
    position: usize,
    argument: NodeId,
) -> Result<(), InstantiationArgumentError>
    requires instantiation { IsSome (node_at graph.old instantiation) }
    requires argument { IsSome (node_at graph.old argument) }
    requires import { (name : AName) × (kind : AnItem) × HasNamed graph.old instantiation name position kind × FitsImport graph.old instantiation name argument }
    ensures { (name : AName) (kind : AnItem) → HasNamed graph.old instantiation name position kind → SetsArgument graph.old instantiation name argument result graph.new }
{
    let name = graph.import_name(instantiation, position)?;
    match graph.check_unset(instantiation, name, position) {
        Ok(()) => {
            graph.give_argument(instantiation, position, argument)?;
            Ok(())
        }
        Err(e) => {
            if graph.is_given(instantiation, position, argument) {
                return Ok(());
            }
            Err(e)
        }
    }
}
