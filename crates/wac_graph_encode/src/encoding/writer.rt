//! From a graph and its written imports to the bytes of a component.
ghost use Rattle.std.specs.Prelude.{◌≡◌, ℕ, ◌<◌, ◌≤◌, ◌+◌, ◌*◌, ◌^◌, ◌⊎◌, [], Contains, IsSomeAnd, true, false, OnOk, IfOk, IfErr, IfSome, IfNone, Some, None, List, length, slice_get};
ghost use Rattle.wac_binary.specs.Bytes.{bytes_of};
ghost use Rattle.wac_binary.specs.Fits.{Fits};
ghost use Rattle.wac_binary.specs.Format.{AreInFormat};
ghost use Rattle.wac_binary.specs.Items.{Item as AnItem};
ghost use Rattle.wac_binary.specs.Views.{arguments_of};
ghost use Rattle.wac_binary.specs.declared.sorts.Sort.{Sort as ASort};
ghost use Rattle.wac_types_collection.specs.collection.Bound.{Bindings};
ghost use Rattle.wac_graph_model.specs.causes.Cause.{cause_of};
ghost use Rattle.wac_merge_classes.specs.entries.Classes.{by_names};
ghost use Rattle.wac_merge_classes.specs.entries.Agreement.{AllMembersAgree};
ghost use Rattle.wac_merge_classes.specs.terms.Faults.{HasNoCircle};
ghost use Rattle.wac_merge_imports.specs.unions.MergedScope.{BindsAsClasses};
ghost use Rattle.wac_graph_model.specs.declared.nodes.options.EncodeOptions.{EncodeOptions as Asked};
ghost use Rattle.wac_graph_model.specs.declared.nodes.packages.PackageId.{PackageId as AnPackageId};
ghost use Rattle.wac_graph_model.specs.nodes.OuterImports.{IsOuterOrder, outer_bindings, outer_entries};
ghost use Rattle.wac_edges.specs.Order.{Writes};
ghost use Rattle.wac_edges.specs.declared.node.NodeId.{NodeId as AnId};
ghost use Rattle.wac_graph_model.specs.private.meaning.Encoding.{AddsPackage, HasComponent, HasRoom, index_in};
ghost use Rattle.wac_graph_model.specs.meaning.Means.{Means, is_written, is_import};
ghost use Rattle.wac_graph_model.specs.private.meaning.MergedImports.{merged_imports};
ghost use Rattle.wac_graph_model.specs.private.meaning.Writing.{IsArgumentItem, AreArgumentItems};
ghost use Rattle.wac_graph_model.specs.private.meaning.WrittenSoFar.{IsWrittenSoFar};
ghost use Rattle.wac_graph_model.specs.nodes.Graph.{node_at, package_at, imports_of, instantiation, definition, IsArgumentOf, IsUnsatisfied};
ghost use Rattle.wac_encode_scopes.specs.private.Closed.{AreClosedTypes};
ghost use Rattle.wac_encode_scopes.specs.Roots.{IsRoot, items_of};
ghost use Rattle.wac_encode_interfaces.specs.private.Worlds.{AreWorldTypes, written_in};
ghost use Rattle.wac_encode_interfaces.specs.private.Writers.{IsWriter};
ghost use Rattle.wac_encode_imports.specs.private.Imports.{AreImported};
ghost use Rattle.wac_encode_imports.specs.private.ToldGraph.{HasNoUnbound};
ghost use Rattle.wac_graph_reader.specs.private.reading.EncoderView.{progress};
ghost use Rattle.wac_graph_reader.specs.private.writing.Naming.{IsNamed};
ghost use Rattle.wac_graph_encode.specs.private.encoding.Root.{AddsRoots, BeginsNodes, BeginsRoot, EndsNodes, HasNodeWorlds, IsFaultlessNode, IsGraphWriter, IsNodeReady, IsOpenRoot, IsPackageReady, KeepsRoot, RecordsName, WritesOne, WroteOne};
ghost use Rattle.wac_graph_encode.specs.private.places.Places.{ArePlaced};
ghost use Rattle.wac_graph_encode.specs.private.encoding.Costs.{AreShortArguments, CostsWithin, CostsWithPackages, world_part};
ghost use Rattle.std.specs.List.{sum_by};
ghost use Rattle.wac_types_collection.specs.collection.Collection.{Collection as ACollection};
ghost use Rattle.wac_encode_scopes.specs.private.Paid.{total, IsAnswerPaid};
ghost use Rattle.wac_encode_interfaces.specs.private.Paid.{AreSmallWorlds};
ghost use Rattle.wac_encode_imports.specs.private.Told.{entries_items};
ghost use Rattle.wac_binary.specs.declared.fault.BinaryFault.TheVariants.{OutOfMemory as NoMemory};
ghost use Rattle.wac_graph_model.specs.declared.causes.errors.EncodeError.TheVariants.{TooLarge};
ghost use Rattle.wac_graph_model.specs.weight.GraphWeight.{bound as bound_of};
ghost use Rattle.wac_graph_model.specs.private.weight.Costs.{package_cost};
ghost use Rattle.wac_graph_model.specs.private.weight.Written.{item_cost, order_cost, slots_cost};

use crate::encoding::laws::growth_law;
use crate::places::{ImportPlaces, import_indexes};
use std::alloc::AllocError;
use wac_binary::{BinaryFault, Sort};
use wac_encode_imports::tell_graph;
use wac_encode_interfaces::{TypeWriter, WorldTypes, definition_roots, world_types};
use wac_encode_scopes::{ClosedTypes, How, State, lending_law};
use wac_encode_stacks::{index_law, size_law, still_law};
use wac_graph_model::{EncodeError, EncodeOptions, NodeId, NodeKind, PackageId, weight};
use wac_graph_reader::{Encoder, GraphReader, dependency_name, sort_of, write_processor};
use wac_merge::laws::{class_laws, order_law};
use wac_types::{ItemKind, Package, Type};

/// Writes the nodes of a graph after its imports.
#[derive(Clone, Copy)]
pub(crate) struct GraphWriter<'a> {
    /// The graph.
    reader: &'a GraphReader<'a>,
    /// The merged imports, and the place of each.
    imports: &'a ImportPlaces,
    /// The writer of the graph's types.
    types: &'a TypeWriter<'a>,
    /// Whether packages are defined, or else imported.
    define_components: bool,
}

/// Appends the types inside which worlds are written before a node.
fn push_roots(
    found: &mut Vec<Type>,
    reader: &GraphReader<'_>,
    n: NodeId,
    define_components: bool,
) -> Result<(), AllocError>
    requires there { IsSomeAnd (node_at reader.now n) (λ node. is_import node.kind ≡ false) }
    requires faultless { (m : Bindings) × IsFaultlessNode reader.now define_components m n }
    ensures { OnOk result (AddsRoots reader.now define_components n found.old.items found.new.items) }
{
    reader.law(); // proof only
    reader.types().law(); // proof only
    weight::order_law(); // proof only
    match reader.kind(n) {
        NodeKind::Definition => {
            let (_, ty) = reader.definition(n);
            let mut roots = definition_roots(reader.types(), ty)?;
            found.append(&mut roots)
        }
        NodeKind::Instantiation(_) => {
            if define_components {
                return Ok(());
            }
            let (_, package) = reader.package_of(n.0);
            found.push(Type::World(package.ty()))?;
            Ok(())
        }
        _ => Ok(()),
    }
}

/// Writes the component types of the worlds inside what these nodes define, and of the packages that are imported.
fn node_worlds(
    reader: &GraphReader<'_>,
    closed: &ClosedTypes,
    order: &[NodeId],
    define_components: bool,
) -> Result<WorldTypes, EncodeError>
    requires closed { AreClosedTypes reader.now.types closed.now }
    requires nodes { (n : AnId) → Contains order.now n → IsSomeAnd (node_at reader.now n) (λ node. is_import node.kind ≡ false) }
    requires faultless { (n : AnId) → Contains order.now n → (m : Bindings) × IsFaultlessNode reader.now define_components m n }
    ensures written { IfOk result (λ ws. AreWorldTypes reader.now.types (written_in ws)) }
    ensures there { IfOk result (λ ws. (n : AnId) → Contains order.now n → HasNodeWorlds reader.now define_components (written_in ws) n) }
    ensures fault { IfErr result (λ e. cause_of e ≡ None) }
    ensures sizes { IfOk result (λ ws. AreSmallWorlds reader.now.types (written_in ws)) }
    ensures heavy { IfErr result (λ e. e ≡ TooLarge → (o : Asked) → 2 ^ 32 ≤ bound_of reader.now o) }
{
    let mut roots = Vec::new(reader.allocator());
    for n in order {
        push_roots(&mut roots, reader, *n, define_components)?;
    }
    let worlds = world_types(reader.types(), closed, roots.as_slice())?;
    Ok(worlds)
}

/// Returns the bytes of the component that the graph composes. The root has the graph's imports already.
///
/// The nodes of `order`, the exports, the names and the processor follow. `named` says whether any node has a name.
///
/// # Errors
/// - [`TooLarge`](EncodeError::TooLarge) if an index, a count or a size does not fit 32 bits.
/// - [`OutOfMemory`](EncodeError::OutOfMemory).
pub fn write(
    reader: &GraphReader<'_>,
    mut state: State,
    imports: &ImportPlaces,
    order: &[NodeId],
    named: bool,
    options: EncodeOptions<'_>,
) -> Result<Vec<u8>, EncodeError>
    requires placed { ArePlaced reader.now imports.now }
    requires imported { AreImported imports.now.merge.merge imports.now.places.items state }
    requires whole { Writes reader.now.edges (is_written reader.now) order.now }
    requires named { named ≡ false → (sort : ASort) (n : AnId) → IsNamed reader.now sort n → ⊥ }
    requires ordered { HasNoCircle by_names reader.now.types (outer_entries reader.now) }
    requires agreed { AllMembersAgree by_names reader.now.types (outer_entries reader.now) }
    requires binds { BindsAsClasses by_names reader.now.types (outer_entries reader.now) imports.now.merge.merge }
    requires bound { (outer : List ℕ) → IsOuterOrder reader.now outer → HasNoUnbound reader.now.types (outer_entries reader.now) outer }
    requires faultless { (outer : List ℕ) → IsOuterOrder reader.now outer → (n : AnId) → Contains order.now n → IsFaultlessNode reader.now options.define_components (outer_bindings reader.now outer) n }
    ensures means { IfOk result (λ bytes. (items : List AnItem) × (bytes.items ≡ bytes_of items) × Fits items × AreInFormat items × Means items reader.now options.entry) }
    ensures fault { IfErr result (λ e. cause_of e ≡ None) }
    ensures short { IfOk result (λ bytes. (c : ACollection) (b : _) → length bytes.items ≤ 8 + total c b state + 4 * entries_items reader.now.types (outer_entries reader.now) + order_cost reader.now options.entry order.now) }
    ensures too_large { IfErr result (λ e. e ≡ TooLarge → (c : ACollection) (b : _) → (2 ^ 32 ≤ 8 + total c b state + 4 * entries_items reader.now.types (outer_entries reader.now) + order_cost reader.now options.entry order.now) ⊎ (2 ^ 32 ≤ bound_of reader.now options.entry)) }
{
    wac_binary::laws::law(); // proof only
    reader.law(); // proof only
    size_law(); // proof only
    tell_imports(reader, &mut state, imports)?;
    let encoder = write_nodes(reader, state, imports, order, options.define_components)?;
    let (mut component, indexes) = encoder.finish();
    reader.write_exports(&mut component, &indexes)?;
    reader.write_names(&mut component, &indexes, named)?;
    write_processor(reader.allocator(), &mut component, options.processor)?;
    Ok(component.into_bytes()?)
}

/// Records in the root what the imports are for the graph's own types.
fn tell_imports(
    reader: &GraphReader<'_>,
    state: &mut State,
    imports: &ImportPlaces,
) -> Result<(), BinaryFault>
    requires placed { ArePlaced reader.now imports.now }
    requires imported { AreImported imports.now.merge.merge imports.now.places.items state.old }
    requires ordered { HasNoCircle by_names reader.now.types (outer_entries reader.now) }
    requires agreed { AllMembersAgree by_names reader.now.types (outer_entries reader.now) }
    requires binds { BindsAsClasses by_names reader.now.types (outer_entries reader.now) imports.now.merge.merge }
    requires bound { (outer : List ℕ) → IsOuterOrder reader.now outer → HasNoUnbound reader.now.types (outer_entries reader.now) outer }
    ensures begins { OnOk result (BeginsRoot reader.now imports.now state.new) }
    ensures cost { OnOk result ((c : ACollection) (b : _) → total reader.now.types false state.new ≤ total c b state.old + 4 * entries_items reader.now.types (outer_entries reader.now)) }
    ensures memory { IfErr result (λ e. e ≡ NoMemory) }
{
    wac_binary::laws::law(); // proof only
    reader.law(); // proof only
    tell_graph(
        state,
        reader.types(),
        &imports.merge,
        imports.places.as_slice(),
    )?;
    Ok(())
}

/// Writes the nodes of `order` into the root.
fn write_nodes(
    reader: &GraphReader<'_>,
    state: State,
    imports: &ImportPlaces,
    order: &[NodeId],
    define_components: bool,
) -> Result<Encoder, EncodeError>
    requires placed { ArePlaced reader.now imports.now }
    requires begins { BeginsRoot reader.now imports.now state }
    requires whole { Writes reader.now.edges (is_written reader.now) order.now }
    requires faultless { (outer : List ℕ) → IsOuterOrder reader.now outer → (n : AnId) → Contains order.now n → IsFaultlessNode reader.now define_components (outer_bindings reader.now outer) n }
    ensures written { IfOk result (λ e. (o : Asked) → o.define_components ≡ define_components → (outer : List ℕ) → IsOuterOrder reader.now outer
        → IsWrittenSoFar reader.now o (merged_imports imports.now.merge.merge) (outer_bindings reader.now outer) imports.now.places.items order.now order.now (progress e)) }
    ensures root { IfOk result (λ e. IsRoot e.state.here.content) }
    ensures room { IfOk result (λ e. HasRoom reader.now e.indexes.items) }
    ensures fault { IfErr result (λ e. cause_of e ≡ None) }
    ensures cost { IfOk result (λ e. (o : Asked) → o.define_components ≡ define_components → total reader.now.types false e.state ≤ total reader.now.types false state + (sum_by (item_cost reader.now o) order.now + slots_cost reader.now o)) }
    ensures too_large { IfErr result (λ e. e ≡ TooLarge → (o : Asked) → o.define_components ≡ define_components → (2 ^ 32 ≤ total reader.now.types false state + (sum_by (item_cost reader.now o) order.now + slots_cost reader.now o)) ⊎ (2 ^ 32 ≤ bound_of reader.now o)) }
{
    class_laws(); // proof only
    order_law(); // proof only
    weight::order_law(); // proof only
    reader.law(); // proof only
    let indexes = import_indexes(reader, imports)?;
    let closed = ClosedTypes::new(reader.types())?;
    let worlds = node_worlds(reader, &closed, order, define_components)?;
    let types = TypeWriter::new(reader.types(), &closed, false, &worlds);
    let writer = GraphWriter {
        reader,
        imports,
        types: &types,
        define_components,
    };
    let mut encoder = Encoder::new(reader.allocator(), state, indexes);
    writer.write_nodes(&mut encoder, order)?;
    Ok(encoder)
}

impl<'a> GraphWriter<'a> {
    /// Writes the nodes in this order.
    fn write_nodes(&self, encoder: &mut Encoder, order: &[NodeId]) -> Result<(), EncodeError>
        requires writer { IsGraphWriter self.now }
        requires nodes { (n : AnId) → Contains order.now n → IsSomeAnd (node_at self.now.reader.now n) (λ node. is_import node.kind ≡ false) }
        requires worlds { (n : AnId) → Contains order.now n → HasNodeWorlds self.now.reader.now self.now.define_components (written_in self.now.types.now.worlds.now) n }
        requires begins { BeginsNodes self.now encoder.old order.now }
        ensures written { OnOk result (EndsNodes self.now encoder.new order.now) }
        ensures kept { length encoder.new.indexes.items ≡ length encoder.old.indexes.items }
        ensures fault { IfErr result (λ e. cause_of e ≡ None) }
        ensures cost { (o : Asked) → o.define_components ≡ self.now.define_components → CostsWithPackages self.now.reader.now o (sum_by (item_cost self.now.reader.now o) order.now) encoder.old encoder.new result }
    {
        wac_binary::laws::law(); // proof only
        self.reader.law(); // proof only
        for n in order {
            self.write_node(encoder, *n)?;
        }
        Ok(())
    }

    /// Writes a node and records its index.
    fn write_node(&self, encoder: &mut Encoder, n: NodeId) -> Result<(), EncodeError>
        requires writer { IsGraphWriter self.now }
        requires node { IsSomeAnd (node_at self.now.reader.now n) (λ node. is_import node.kind ≡ false) }
        requires ready { IsNodeReady self.now.reader.now self.now.define_components (written_in self.now.types.now.worlds.now) n encoder.old.state }
        requires room { HasRoom self.now.reader.now encoder.old.indexes.items }
        requires noted { n.0 < length encoder.old.indexes.items }
        ensures written { OnOk result (WroteOne self.now.reader.now self.now.define_components self.now.imports.now.places.items n encoder.old encoder.new) }
        ensures root { OnOk result (KeepsRoot self.now.reader.now encoder.old.state encoder.new.state) }
        ensures kept { length encoder.new.indexes.items ≡ length encoder.old.indexes.items }
        ensures fault { IfErr result (λ e. cause_of e ≡ None) }
        ensures cost { (o : Asked) → o.define_components ≡ self.now.define_components → CostsWithPackages self.now.reader.now o (item_cost self.now.reader.now o n) encoder.old encoder.new result }
    {
        weight::order_law(); // proof only
        lending_law(); // proof only
        let index = match self.reader.kind(n) {
            NodeKind::Instantiation(_) => self.write_instantiation(encoder, n)?,
            NodeKind::Alias => self.reader.write_alias(encoder, n)?,
            NodeKind::Definition => self.write_definition(encoder, n)?,
            NodeKind::Import(_) => unreachable!(),
        };
        encoder.indexes[n.0] = index;
        Ok(())
    }

    /// Writes the types of a definition and the export under its first name. Returns the index of the export.
    fn write_definition(&self, encoder: &mut Encoder, n: NodeId) -> Result<u32, EncodeError>
        requires writer { IsGraphWriter self.now }
        requires definition { IsSomeAnd (node_at self.now.reader.now n) (λ node. node.kind ≡ definition) }
        requires ready { IsNodeReady self.now.reader.now self.now.define_components (written_in self.now.types.now.worlds.now) n encoder.old.state }
        ensures written { IfOk result (WritesOne self.now.reader.now self.now.define_components self.now.imports.now.places.items n encoder.old encoder.new) }
        ensures root { OnOk result (KeepsRoot self.now.reader.now encoder.old.state encoder.new.state) }
        ensures kept { encoder.new.indexes ≡ encoder.old.indexes }
        ensures fault { IfErr result (λ e. cause_of e ≡ None) }
        ensures cost { (o : Asked) → CostsWithin self.now.reader.now.types (item_cost self.now.reader.now o n) encoder.old.state encoder.new.state result }
    {
        size_law(); // proof only
        growth_law(); // proof only
        self.reader.law(); // proof only
        self.reader.types().law(); // proof only
        let (name, ty) = self.reader.definition(n);
        let index = self.types.definition(&mut encoder.state, ty)?;
        index_law(index); // proof only
        let export = encoder.state.builder().export(name, Sort::Type, index)?;
        self.name_definition(&mut encoder.state, ty, export)?;
        Ok(export)
    }

    /// Records the export of a definition as a name of its value type, unless that has one.
    fn name_definition(&self, state: &mut State, ty: Type, index: u32) -> Result<(), BinaryFault>
        requires writer { IsGraphWriter self.now }
        ensures records { OnOk result (RecordsName self.now.reader.now ty index state.old state.new) }
        ensures paid { state.old.around.items ≡ [] → IsAnswerPaid self.now.reader.now.types false [] 0 state.old state.new result }
    {
        self.reader.types().law(); // proof only
        still_law(); // proof only
        let Type::Value(value) = ty else {
            return Ok(());
        };
        let end = Type::Value(self.reader.types().resolve_value_type(value));
        if state.is_listed(false, end) {
            return Ok(());
        }
        state.record(false, end, How::Listed, index)
    }

    /// Writes an instantiation, after its package's component, and returns its index.
    fn write_instantiation(&self, encoder: &mut Encoder, n: NodeId) -> Result<u32, EncodeError>
        requires writer { IsGraphWriter self.now }
        requires instantiation { IsSomeAnd (node_at self.now.reader.now n) (λ node. node.kind ≡ instantiation) }
        requires ready { IsNodeReady self.now.reader.now self.now.define_components (written_in self.now.types.now.worlds.now) n encoder.old.state }
        requires room { HasRoom self.now.reader.now encoder.old.indexes.items }
        ensures written { IfOk result (WritesOne self.now.reader.now self.now.define_components self.now.imports.now.places.items n encoder.old encoder.new) }
        ensures root { OnOk result (KeepsRoot self.now.reader.now encoder.old.state encoder.new.state) }
        ensures kept { encoder.new.indexes ≡ encoder.old.indexes }
        ensures fault { IfErr result (λ e. cause_of e ≡ None) }
        ensures cost { (o : Asked) → o.define_components ≡ self.now.define_components → CostsWithPackages self.now.reader.now o (item_cost self.now.reader.now o n) encoder.old encoder.new result }
    {
        size_law(); // proof only
        weight::order_law(); // proof only
        growth_law(); // proof only
        self.reader.law(); // proof only
        let (id, package) = self.reader.package_of(n.0);
        let arguments = arguments(self.reader, self.imports, &encoder.indexes, n)?;
        let component = self.component(encoder, id, package)?;
        index_law(component); // proof only
        let index = encoder.state.builder().instantiate(component, &arguments)?;
        Ok(index)
    }

    /// Returns the component index of a package, whose component is written first if it is not written yet.
    fn component(
        &self,
        encoder: &mut Encoder,
        id: PackageId,
        package: &Package,
    ) -> Result<u32, EncodeError>
        requires writer { IsGraphWriter self.now }
        requires package { package_at self.now.reader.now id ≡ Some «package».now }
        requires ready { IsPackageReady self.now «package».now encoder.old.state }
        ensures there { IfOk result (λ c. (o : Asked) → o.define_components ≡ self.now.define_components → (m : Bindings) → IsOpenRoot self.now.reader.now m encoder.old.state
            → HasComponent self.now.reader.now o id c encoder.old.components encoder.new.components (items_of encoder.old.state.here.content) (items_of encoder.new.state.here.content)) }
        ensures root { OnOk result (KeepsRoot self.now.reader.now encoder.old.state encoder.new.state) }
        ensures bottom { OnOk result (IsRoot encoder.new.state.here.content) }
        ensures kept { encoder.new.indexes ≡ encoder.old.indexes }
        ensures fault { IfErr result (λ e. cause_of e ≡ None) }
        ensures cost { (o : Asked) → o.define_components ≡ self.now.define_components → CostsWithPackages self.now.reader.now o (world_part self.now.reader.now o «package».now) encoder.old encoder.new result }
    {
        weight::order_law(); // proof only
        if let Some(index) = encoder.components.get(id) {
            return Ok(index);
        }
        let index = self.add_component(&mut encoder.state, package)?;
        encoder.components.insert(id, index)?;
        Ok(index)
    }

    /// Adds the component of a package to the root: its bytes, or an import of the type of its world.
    fn add_component(&self, state: &mut State, package: &Package) -> Result<u32, EncodeError>
        requires writer { IsGraphWriter self.now }
        requires ready { IsPackageReady self.now «package».now state.old }
        ensures adds { IfOk result (λ c. (o : Asked) (id : AnPackageId) → o.define_components ≡ self.now.define_components → package_at self.now.reader.now id ≡ Some «package».now → (m : Bindings) → IsOpenRoot self.now.reader.now m state.old
            → AddsPackage self.now.reader.now o id c (items_of state.old.here.content) (items_of state.new.here.content)) }
        ensures root { OnOk result (KeepsRoot self.now.reader.now state.old state.new) }
        ensures bottom { OnOk result (IsRoot state.new.here.content) }
        ensures fault { IfErr result (λ e. cause_of e ≡ None) }
        ensures cost { (o : Asked) → o.define_components ≡ self.now.define_components → CostsWithin self.now.reader.now.types (package_cost o.define_components «package».now + world_part self.now.reader.now o «package».now) state.old state.new result }
    {
        size_law(); // proof only
        growth_law(); // proof only
        self.reader.types().law(); // proof only
        if self.define_components {
            let nested = state.builder().component(package.bytes())?;
            return Ok(nested);
        }
        let name = dependency_name(self.reader.allocator(), package)?;
        let world = ItemKind::Component(package.ty());
        let index = self.types.import_item(state, name.as_str(), world)?;
        Ok(index)
    }
}

/// Returns an instantiation's arguments in world order, each with its import's name, sort and index.
fn arguments<'a>(
    reader: &GraphReader<'a>,
    imports: &ImportPlaces,
    indexes: &[u32],
    n: NodeId,
) -> Result<Vec<(&'a str, Sort, u32)>, AllocError>
    requires placed { ArePlaced reader.now imports.now }
    requires instantiation { IsSomeAnd (node_at reader.now n) (λ node. node.kind ≡ instantiation) }
    requires room { HasRoom reader.now indexes.now }
    ensures items { IfOk result (λ v. IfSome (node_at reader.now n) (λ node. AreArgumentItems reader.now imports.now.places.items (index_in indexes.now) n 0 (imports_of reader.now node) (arguments_of v.items))) }
    ensures short { IfOk result (λ v. AreShortArguments (arguments_of v.items)) }
{
    let names = reader.imports_at(n.0);
    let count = names.len();
    let sources = reader.sources(n.0, count)?;
    let mut arguments = Vec::new(reader.allocator());
    for i in 0..count {
        let name = names.name_at(i);
        let (sort, index) = argument(reader, imports, indexes, n, i, name, sources[i]);
        index_law(index); // proof only
        arguments.push((name, sort, index))?;
    }
    Ok(arguments)
}

/// The sort and index of an argument: of the node that was set, or of the import of the name's class.
fn argument(
    reader: &GraphReader<'_>,
    imports: &ImportPlaces,
    indexes: &[u32],
    n: NodeId,
    position: usize,
    name: &str,
    source: Option<NodeId>,
) -> (Sort, u32)
    requires placed { ArePlaced reader.now imports.now }
    requires room { HasRoom reader.now indexes.now }
    requires asked { IsSomeAnd (node_at reader.now n) (λ node. (node.kind ≡ instantiation) × IsSomeAnd (slice_get (imports_of reader.now node) position) (λ e. e.0 ≡ name.now)) }
    requires set { IfSome source (IsArgumentOf reader.now n position) }
    requires unset { IfNone source (IsUnsatisfied reader.now n position) }
    ensures { IfSome (node_at reader.now n) (λ node. IfSome (slice_get (imports_of reader.now node) position) (λ e. IsArgumentItem reader.now imports.now.places.items (index_in indexes.now) n position e (name.now, result.0, result.1))) }
{
    class_laws(); // proof only
    order_law(); // proof only
    reader.law(); // proof only
    match source {
        Some(source) => (sort_of(reader.item_kind(source)), indexes[source.0]),
        None => imports.place_of(name),
    }
}
