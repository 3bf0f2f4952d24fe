//! Calls that add a type to the collection.
ghost use Rattle.wac_script.specs.declared.lines.calls.Call.TheVariants as said;
ghost use Rattle.wac_script.specs.labels.Things.{things_of, cores_of};
ghost use Rattle.wac_script.specs.Refusals.{AnswersPlain};
ghost use Rattle.wac_script.specs.private.Resources.{PutsResource};

use crate::labels::{Thing, Things};
use crate::lines::Shape;
use crate::refusal::Refusal;
use wac_graph::CompositionGraph;
use wac_graph::types::{Resource, ValueType};

/// Adds a value type.
pub(crate) fn add_shape(
    labels: &Things,
    graph: &mut CompositionGraph,
    shape: Shape<'_, '_>,
) -> Result<Thing, Refusal>
    ensures { AnswersPlain (things_of labels.now) (cores_of labels.now) graph.old (said.Shape shape.entry) result graph.new }
{
    let defined = labels.shape(shape)?;
    match graph.add_defined_type(defined) {
        Ok(id) => Ok(Thing::Value(ValueType::Defined(id))),
        Err(source) => Err(Refusal::Type(source)),
    }
}

/// Adds a resource.
fn put_resource(graph: &mut CompositionGraph, resource: Resource) -> Result<Thing, Refusal>
    ensures { PutsResource resource graph.old result graph.new }
{
    match graph.add_resource(resource) {
        Ok(id) => Ok(Thing::Resource(id)),
        Err(source) => Err(Refusal::Type(source)),
    }
}

/// Adds a new resource.
pub(crate) fn add_resource(
    labels: &Things,
    graph: &mut CompositionGraph,
    name: &str,
) -> Result<Thing, Refusal>
    ensures { AnswersPlain (things_of labels.now) (cores_of labels.now) graph.old (said.Resource name.entry) result graph.new }
{
    let resource = labels.resource(name)?;
    put_resource(graph, resource)
}

/// Adds an alias of a resource.
pub(crate) fn add_alias(
    labels: &Things,
    graph: &mut CompositionGraph,
    name: &str,
    source: &str,
) -> Result<Thing, Refusal>
    ensures { AnswersPlain (things_of labels.now) (cores_of labels.now) graph.old (said.ResourceAlias name.entry source.entry) result graph.new }
{
    let resource = labels.resource_alias(name, source)?;
    put_resource(graph, resource)
}

/// Adds an alias of a resource that an interface owns.
pub(crate) fn add_owned_alias(
    labels: &Things,
    graph: &mut CompositionGraph,
    name: &str,
    source: &str,
    owner: &str,
) -> Result<Thing, Refusal>
    ensures { AnswersPlain (things_of labels.now) (cores_of labels.now) graph.old (said.OwnedAlias name.entry source.entry owner.entry) result graph.new }
{
    let resource = labels.owned_alias(name, source, owner)?;
    put_resource(graph, resource)
}

/// Adds a function type.
pub(crate) fn add_func(
    labels: &Things,
    graph: &mut CompositionGraph,
    params: &[&str],
    results: &[&str],
) -> Result<Thing, Refusal>
    ensures { AnswersPlain (things_of labels.now) (cores_of labels.now) graph.old (said.Func params.entry results.entry) result graph.new }
{
    let func = labels.func(params, results, false)?;
    match graph.add_func_type(func) {
        Ok(id) => Ok(Thing::Func(id)),
        Err(source) => Err(Refusal::Type(source)),
    }
}

/// Adds the type of an async function.
pub(crate) fn add_async_func(
    labels: &Things,
    graph: &mut CompositionGraph,
    params: &[&str],
    results: &[&str],
) -> Result<Thing, Refusal>
    ensures { AnswersPlain (things_of labels.now) (cores_of labels.now) graph.old (said.AsyncFunc params.entry results.entry) result graph.new }
{
    let func = labels.func(params, results, true)?;
    match graph.add_func_type(func) {
        Ok(id) => Ok(Thing::Func(id)),
        Err(source) => Err(Refusal::Type(source)),
    }
}

/// Adds an interface.
pub(crate) fn add_interface(
    labels: &Things,
    graph: &mut CompositionGraph,
    id: &str,
    items: &[&str],
) -> Result<Thing, Refusal>
    ensures { AnswersPlain (things_of labels.now) (cores_of labels.now) graph.old (said.Interface id.entry items.entry) result graph.new }
{
    let interface = labels.interface(id, items)?;
    match graph.add_interface(interface) {
        Ok(id) => Ok(Thing::Interface(id)),
        Err(source) => Err(Refusal::Type(source)),
    }
}

/// Adds a world.
pub(crate) fn add_world(
    labels: &Things,
    graph: &mut CompositionGraph,
    imports: &[&str],
    exports: &[&str],
) -> Result<Thing, Refusal>
    ensures { AnswersPlain (things_of labels.now) (cores_of labels.now) graph.old (said.World imports.entry exports.entry) result graph.new }
{
    let world = labels.world(imports, exports)?;
    match graph.add_world(world) {
        Ok(id) => Ok(Thing::World(id)),
        Err(source) => Err(Refusal::Type(source)),
    }
}

/// Adds the type of a core module.
pub(crate) fn add_module(
    labels: &Things,
    graph: &mut CompositionGraph,
    imports: &[&str],
    exports: &[&str],
) -> Result<Thing, Refusal>
    ensures { AnswersPlain (things_of labels.now) (cores_of labels.now) graph.old (said.Module imports.entry exports.entry) result graph.new }
{
    let module = labels.module(imports, exports)?;
    match graph.add_module_type(module) {
        Ok(id) => Ok(Thing::Module(id)),
        Err(source) => Err(Refusal::Type(source)),
    }
}
