//! The parts of a graph that are written without a type encoder: aliases, exports and custom sections.
ghost use Rattle.std.specs.Prelude.{◌≡◌, ◌++◌, ◌+◌, ◌*◌, ℕ, IsSomeAnd, false, OnOk, IfOk, IfErr, IfSome, None, List, map};
ghost use Rattle.wac_binary.specs.declared.sorts.Sort.{Sort as ASort};
ghost use Rattle.wac_graph_model.specs.causes.Cause.{cause_of};
ghost use Rattle.wac_edges.specs.declared.node.NodeId.{NodeId as AnId};
ghost use Rattle.wac_graph_model.specs.private.meaning.Beginning.{Places};
ghost use Rattle.wac_graph_model.specs.private.meaning.Encoding.{HasRoom, index_in};
ghost use Rattle.wac_graph_model.specs.meaning.Means.{custom_item, name_customs, AreNames, processor_customs, export_item_of, further_exports};
ghost use Rattle.wac_graph_model.specs.private.meaning.Writing.{WritesNode};
ghost use Rattle.wac_graph_model.specs.nodes.Graph.{node_at, alias};
ghost use Rattle.wac_encode_scopes.specs.Roots.{IsRoot, items_of};
ghost use Rattle.wac_types_collection.specs.collection.Bound.{Bindings};
ghost use Rattle.wac_graph_model.specs.declared.nodes.options.EncodeOptions.{EncodeOptions as Asked};
ghost use Rattle.wac_graph_reader.specs.private.reading.Appended.{AppendsItems};
ghost use Rattle.wac_types_shapes.specs.primitives.Name.{Name as AName};
ghost use Rattle.wac_graph_reader.specs.private.writing.Naming.{IsNamed};
ghost use Rattle.std.specs.List.{flat_map};
ghost use Rattle.wac_graph_reader.specs.private.writing.Further.{further_at};
ghost use Rattle.wac_graph_reader.specs.private.writing.Sizes.{AddsWithin};
ghost use Rattle.wac_types_shapes.specs.primitives.Name.{option_case};
ghost use Rattle.std.specs.List.{sum_by};
ghost use Rattle.wac_graph_model.specs.weight.GraphWeight.{kind_weight};
ghost use Rattle.wac_graph_model.specs.private.weight.Costs.{export_cost, processor_cost};
ghost use Rattle.wac_graph_model.specs.private.weight.Written.{names_cost};

use crate::reading::encoder::{Encoder, sort_of};
use crate::reading::reader::GraphReader;
use std::alloc::Global;
use wac_binary::{ComponentBuilder, component_names, producers};
use wac_encode_stacks::{index_law, size_law};
use wac_graph_model::weight::order_law;
use wac_graph_model::{EncodeError, NodeId, Processor};
use wac_types::ItemKind;

impl<'a> GraphReader<'a> {
    /// Writes an alias and returns its index.
    pub fn write_alias(&self, encoder: &mut Encoder, n: NodeId) -> Result<u32, EncodeError>
        requires alias { IsSomeAnd (node_at self.now n) (λ node. node.kind ≡ alias) }
        requires root { IsRoot encoder.old.state.here.content }
        requires room { HasRoom self.now encoder.old.indexes.items }
        ensures written { IfOk result (λ i. (o : Asked) (m : Bindings) (places : Places) → IfSome (node_at self.now n) (λ node. WritesNode self.now o m places n node (index_in encoder.old.indexes.items) encoder.old.components encoder.new.components (items_of encoder.old.state.here.content) (items_of encoder.new.state.here.content) i)) }
        ensures appended { OnOk result (AppendsItems encoder.old.state encoder.new.state) }
        ensures kept { encoder.new.indexes ≡ encoder.old.indexes }
        ensures fault { IfErr result (λ e. cause_of e ≡ None) }
        ensures cost { IfSome (node_at self.now n) (λ node. AddsWithin (20 + 2 * kind_weight self.now n.0 node alias) (items_of encoder.old.state.here.content) (items_of encoder.new.state.here.content) result) }
    {
        size_law(); // proof only
        let Some((source, position)) = self.edges.alias_source(n) else {
            unreachable!()
        };
        let ItemKind::Instance(interface) = self.nodes[source.0].item_kind() else {
            unreachable!()
        };
        let name = self.types[interface].exports.name_at(position);
        let sort = sort_of(self.nodes[n.0].item_kind());
        let instance = encoder.indexes[source.0];
        index_law(instance); // proof only
        let index = encoder.state.builder().alias_export(sort, instance, name)?;
        Ok(index)
    }

    /// Writes the exports in the graph's order, without definitions' first names.
    pub fn write_exports(
        &self,
        component: &mut ComponentBuilder,
        indexes: &[u32],
    ) -> Result<(), EncodeError>
        requires { HasRoom self.now indexes.now }
        ensures written { OnOk result (component.new ≡ component.old ++ flat_map (export_item_of self.now (index_in indexes.now)) (further_exports self.now)) }
        ensures fault { IfErr result (λ e. cause_of e ≡ None) }
        ensures cost { AddsWithin (sum_by export_cost (further_exports self.now)) component.old component.new result }
    {
        for i in 0..self.exports.len() {
            self.write_export(component, indexes, i)?;
        }
        Ok(())
    }

    /// Writes the export at a position, unless its name is a definition's first one.
    fn write_export(
        &self,
        component: &mut ComponentBuilder,
        indexes: &[u32],
        i: usize,
    ) -> Result<(), EncodeError>
        requires { HasRoom self.now indexes.now }
        ensures written { OnOk result (component.new ≡ component.old ++ flat_map (export_item_of self.now (index_in indexes.now)) (further_at self.now i)) }
        ensures fault { IfErr result (λ e. cause_of e ≡ None) }
        ensures cost { AddsWithin (sum_by export_cost (further_at self.now i)) component.old component.new result }
    {
        size_law(); // proof only
        let Some((name, id)) = self.further_export(i) else {
            return Ok(());
        };
        let sort = sort_of(self.nodes[id.0].item_kind());
        let index = indexes[id.0];
        index_law(index); // proof only
        component.export(name, sort, index)?;
        Ok(())
    }

    /// Writes the `component-name` section, if any node has a name. `named` says whether one may have.
    pub fn write_names(
        &self,
        component: &mut ComponentBuilder,
        indexes: &[u32],
        named: bool,
    ) -> Result<(), EncodeError>
        requires room { HasRoom self.now indexes.now }
        requires named { named ≡ false → (sort : ASort) (n : AnId) → IsNamed self.now sort n → ⊥ }
        ensures written { OnOk result ((names : List (ASort × ℕ × AName)) × AreNames self.now (index_in indexes.now) names × (component.new ≡ component.old ++ map custom_item (name_customs names))) }
        ensures fault { IfErr result (λ e. cause_of e ≡ None) }
        ensures cost { AddsWithin (names_cost self.now) component.old component.new result }
    {
        size_law(); // proof only
        order_law(); // proof only
        let names = self.index_names(indexes, named)?;
        if names.is_empty() {
            return Ok(());
        }
        let content = component_names(self.alloc, &names)?;
        component.custom("component-name", &content)?;
        Ok(())
    }
}

/// Writes the `producers` section, if a processor is given.
pub fn write_processor(
    alloc: Global,
    component: &mut ComponentBuilder,
    processor: Option<Processor<'_>>,
) -> Result<(), EncodeError>
    ensures written { OnOk result (component.new ≡ component.old ++ map custom_item (processor_customs processor.entry)) }
    ensures fault { IfErr result (λ e. cause_of e ≡ None) }
    ensures cost { AddsWithin (option_case processor.entry 0 processor_cost) component.old component.new result }
{
    size_law(); // proof only
    let Some(processor) = processor else {
        return Ok(());
    };
    let content = producers(alloc, processor.name, processor.version)?;
    component.custom("producers", &content)?;
    Ok(())
}
