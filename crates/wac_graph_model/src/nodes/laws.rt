//! Laws of sequences of calls on a graph, for callers that make several.
ghost use Rattle.std.specs.Prelude.{◌≡◌, Some, Ok, Result as AResult, length};
ghost use Rattle.wac_types_shapes.specs.primitives.Name.{Name as AName};
ghost use Rattle.wac_types_collection.specs.collection.Collection.{with_resource, with_func, with_defined, with_interface, with_world, with_module};
ghost use Rattle.wac_types_collection.specs.collection.Package.{PackageParts, with_instance_of};
ghost use Rattle.wac_types_collection.specs.declared.collection.collection.AddTypeError.{AddTypeError};
ghost use Rattle.wac_types_shapes.specs.declared.shapes.component.Resource.{Resource};
ghost use Rattle.wac_types_shapes.specs.declared.shapes.component.FuncType.{FuncType};
ghost use Rattle.wac_types_shapes.specs.declared.shapes.component.DefinedType.{DefinedType};
ghost use Rattle.wac_types_shapes.specs.declared.shapes.component.Interface.{Interface};
ghost use Rattle.wac_types_shapes.specs.declared.shapes.component.World.{World};
ghost use Rattle.wac_types_shapes.specs.declared.shapes.core_types.ModuleType.{ModuleType};
ghost use Rattle.wac_types_shapes.specs.declared.shapes.component.ResourceId.{ResourceId};
ghost use Rattle.wac_types_shapes.specs.declared.shapes.component.FuncTypeId.{FuncTypeId};
ghost use Rattle.wac_types_shapes.specs.declared.shapes.component.DefinedTypeId.{DefinedTypeId};
ghost use Rattle.wac_types_shapes.specs.declared.shapes.component.InterfaceId.{InterfaceId};
ghost use Rattle.wac_types_shapes.specs.declared.shapes.component.WorldId.{WorldId};
ghost use Rattle.wac_types_shapes.specs.declared.shapes.component.ModuleTypeId.{ModuleTypeId};
ghost use Rattle.wac_types_shapes.specs.declared.shapes.component.ItemKind.{ItemKind};
ghost use Rattle.wac_types_shapes.specs.declared.shapes.component.«Type».{«Type» as AnyType};
ghost use Rattle.wac_graph_model.specs.declared.nodes.errors.RegisterPackageError.{RegisterPackageError};
ghost use Rattle.wac_graph_model.specs.declared.nodes.errors.AliasError.{AliasError};
ghost use Rattle.wac_graph_model.specs.declared.nodes.errors.AliasError.TheVariants as alias_error;
ghost use Rattle.wac_graph_model.specs.declared.nodes.errors.InstantiationArgumentError.{InstantiationArgumentError};
ghost use Rattle.wac_edges.specs.declared.node.NodeId.{NodeId};
ghost use Rattle.wac_graph_model.specs.declared.nodes.packages.PackageId.{PackageId};
ghost use Rattle.wac_graph_model.specs.nodes.Graph.{Graph, GraphNode, node_at, package_at};
ghost use Rattle.wac_graph_model.specs.nodes.Definitions.{definition_node};
ghost use Rattle.wac_graph_model.specs.nodes.Sound.{IsSound};
ghost use Rattle.wac_graph_model.specs.nodes.Steps.{Adds, Registers, Defines, Imports, import_node, Instantiates, instance_node, Aliases, SetsArgument, UnsetsArgument};
ghost use Rattle.wac_graph_model.specs.nodes.Stays.{Stays, IsAliasBy, IsArgumentBy, GivesAgain};

/// Proves that calls which only add leave everything that the graph contains.
///
/// After such a call, the node, alias or argument that it added is in the graph.
pub fn stays_law()
    ensures itself { (g : Graph) → Stays g g }
    ensures through { (a b c : Graph) → Stays a b → Stays b c → Stays a c }
    // Adding types.
    ensures resource { (old new : Graph) (x : Resource) (r : AResult ResourceId AddTypeError) → Adds old r new (λ id types. (id.0 ≡ length old.types.resources) × (types ≡ with_resource old.types x)) → Stays old new }
    ensures func { (old new : Graph) (x : FuncType) (r : AResult FuncTypeId AddTypeError) → Adds old r new (λ id types. (id.0 ≡ length old.types.funcs) × (types ≡ with_func old.types x)) → Stays old new }
    ensures defined { (old new : Graph) (x : DefinedType) (r : AResult DefinedTypeId AddTypeError) → Adds old r new (λ id types. (id.0 ≡ length old.types.defined) × (types ≡ with_defined old.types x)) → Stays old new }
    ensures interface { (old new : Graph) (x : Interface) (r : AResult InterfaceId AddTypeError) → Adds old r new (λ id types. (id.0 ≡ length old.types.interfaces) × (types ≡ with_interface old.types x)) → Stays old new }
    ensures world { (old new : Graph) (x : World) (r : AResult WorldId AddTypeError) → Adds old r new (λ id types. (id.0 ≡ length old.types.worlds) × (types ≡ with_world old.types x)) → Stays old new }
    ensures module_type { (old new : Graph) (x : ModuleType) (r : AResult ModuleTypeId AddTypeError) → Adds old r new (λ id types. (id.0 ≡ length old.types.modules) × (types ≡ with_module old.types x)) → Stays old new }
    ensures made { (old new : Graph) (world : WorldId) (r : AResult PackageParts AddTypeError) → Adds old r new (λ p types. types ≡ with_instance_of old.types world) → Stays old new }
    // Adding packages, nodes and arguments.
    ensures registered { (old new : Graph) (p : PackageParts) (r : AResult PackageId RegisterPackageError) → Registers old p r new → Stays old new }
    ensures registered_there { (old new : Graph) (p : PackageParts) (id : PackageId) → Registers old p (Ok id) new → package_at new id ≡ Some p }
    ensures definition { (old new : Graph) (name : AName) (ty : AnyType) (n : NodeId) → Defines old name ty (Ok n) new → (node_at new n ≡ Some (definition_node name ty)) × Stays old new }
    ensures imported { (old new : Graph) (name : AName) (kind : ItemKind) (n : NodeId) → Imports old name kind (Ok n) new → (node_at new n ≡ Some (import_node name kind)) × Stays old new }
    ensures instantiated { (old new : Graph) (id : PackageId) (p : PackageParts) (n : NodeId) → package_at old id ≡ Some p → Instantiates old id (Ok n) new → (node_at new n ≡ Some (instance_node id p)) × Stays old new }
    ensures aliased { (old new : Graph) (instance : NodeId) (source : GraphNode) (name : AName) (alias : NodeId) → node_at old instance ≡ Some source → Aliases old instance name (Ok alias) new → IsAliasBy new instance name alias × Stays old new }
    ensures given { (old new : Graph) (consumer : NodeId) (node : GraphNode) (name : AName) (argument : NodeId) (given : GraphNode) → node_at old consumer ≡ Some node → node_at old argument ≡ Some given → SetsArgument old consumer name argument (Ok tt) new → IsArgumentBy new consumer name argument × Stays old new }
{}

/// Proves what a repeated call does.
///
/// - The second alias of an export is the first one.
/// - An argument that is set again changes nothing, and the call succeeds.
/// - An argument that is newly set and then unset leaves the graph as it was.
pub fn again_law()
    ensures alias { (old mid new : Graph) (instance : NodeId) (source : GraphNode) (name : AName) (first : NodeId) (r : AResult NodeId AliasError) → IsSound mid → node_at old instance ≡ Some source → Aliases old instance name (Ok first) mid → Aliases mid instance name r new → GivesAgain mid first alias_error.OutOfMemory r new }
    ensures argument { (old mid new : Graph) (consumer : NodeId) (node : GraphNode) (name : AName) (argument : NodeId) (given : GraphNode) (r : AResult (Unit {0}) InstantiationArgumentError) → node_at old consumer ≡ Some node → node_at old argument ≡ Some given → SetsArgument old consumer name argument (Ok tt) mid → SetsArgument mid consumer name argument r new → (new ≡ mid) × (r ≡ Ok tt) }
    ensures unset { (old mid new : Graph) (consumer : NodeId) (node : GraphNode) (name : AName) (argument : NodeId) (given : GraphNode) → node_at old consumer ≡ Some node → node_at old argument ≡ Some given → SetsArgument old consumer name argument (Ok tt) mid → (mid ≡ old → ⊥) → UnsetsArgument mid consumer name argument (Ok tt) new → new ≡ old }
{}
