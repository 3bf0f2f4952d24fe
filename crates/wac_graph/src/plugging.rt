//! Plugging components into a socket component.
ghost use Rattle.std.specs.Prelude.{◌≡◌, ◌⊎◌, ℕ, List, [], Some, IsSome, IfOk, OnOk, map, slice_get, Err};
ghost use Rattle.wac_graph_model.specs.nodes.Graph.{package_at};
ghost use Rattle.wac_graph_model.specs.declared.nodes.errors.ExportError.{ExportError as AnExportFault};
ghost use Rattle.wac_graph_model.specs.declared.nodes.packages.PackageId.{PackageId as AnId};
ghost use Rattle.wac_types_shapes.specs.shapes.Named.{NoNameTwice, names_of};
ghost use Rattle.wac_graph.specs.declared.plugs.errors.PlugFault.{PlugFault as AFault};
ghost use Rattle.wac_graph.specs.plugs.Matching.{PlugMatches, AreAllMatches, NothingMatches, imports_of_package, exports_of_package};
ghost use Rattle.wac_graph.specs.plugs.Precedence.{passed_over, named_by};
ghost use Rattle.wac_graph.specs.plugs.Outcome.{IsFirstRefused, IsFirstFault, IsExportRefused};
ghost use Rattle.wac_graph.specs.plugs.Plugging.{InOrder, PlugsAndExports, PlugsIn, PlugsAll, Keeps, answer_of};
ghost use Rattle.wac_graph.specs.private.plugs.Fitting.{IsNodeOf};
ghost use Rattle.wac_graph.specs.private.plugs.Ready.{plugs_at, AreReady};

use crate::graph::CompositionGraph;
use crate::matches::{Matches, find_all_matches};
use crate::plugs::{PassedOver, PlugError, PlugPairs};
use crate::wiring::{pass_on_all, plug_in};
use wac_graph_model::{NodeId, PackageId, one_export_answer};

/// Plugs in each plug, in order.
fn plug_each(
    graph: &mut CompositionGraph,
    wired: &[PlugPairs],
    socket: PackageId,
    node: NodeId,
) -> Result<(), PlugError>
    requires ready { AreReady graph.old socket wired.now }
    requires socket { IsSome (package_at graph.old socket) }
    requires node { IsNodeOf graph.old node socket }
    requires asked { NoNameTwice (imports_of_package graph.old socket) }
    ensures step { InOrder (PlugsIn node) graph.old (plugs_at graph.old socket wired.now) result graph.new }
    ensures kept { OnOk result (Keeps graph.old graph.new) }
{
    for i in 0..wired.len() {
        let plugged = &wired[i];
        plug_in(graph, plugged.plug, node, &plugged.pairs)?;
    }
    Ok(())
}

/// Proves that a package's world imports no name twice.
fn imports_law(graph: &CompositionGraph, id: PackageId)
    requires { IsSome (package_at graph.now id) }
    ensures { NoNameTwice (imports_of_package graph.now id) }
{
    graph.law(); // proof only
    let world = graph[id].ty();
    graph.types()[world].imports.law(); // proof only
}

/// Proves that a package's world exports no name twice.
fn exports_law(graph: &CompositionGraph, id: PackageId)
    requires { IsSome (package_at graph.now id) }
    ensures { NoNameTwice (exports_of_package graph.now id) }
{
    graph.law(); // proof only
    let world = graph[id].ty();
    graph.types()[world].exports.law(); // proof only
}

/// Plugs the matches that win into the node of the socket, and exports the node's exports.
fn plug_all(
    graph: &mut CompositionGraph,
    wired: &[PlugPairs],
    socket: PackageId,
    node: NodeId,
) -> Result<(), PlugError>
    requires ready { AreReady graph.old socket wired.now }
    requires socket { IsSome (package_at graph.old socket) }
    requires node { IsNodeOf graph.old node socket }
    ensures { PlugsAndExports node (names_of (exports_of_package graph.old socket)) graph.old (plugs_at graph.old socket wired.now) result graph.new }
{
    graph.law(); // proof only
    imports_law(graph, socket); // proof only
    let world = graph[socket].ty();
    plug_each(graph, wired, socket, node)?;
    if wired.is_empty() {
        return Err(PlugError::NoPlugHappened);
    }
    pass_on_all(graph, world, node)
}

/// Instantiates a socket package and sets its arguments to the exports of plug packages.
///
/// 1. The socket is instantiated.
/// 2. Each export of each plug is matched, in order, with the socket's import of the same name. If there is none, it is
///    matched with the first import on the same track. It matches only if its type is a subtype of the import's.
/// 3. The first match of each import wins. The others are passed over, and are returned in order.
/// 4. A plug with a match that wins is instantiated once. Each export whose match wins is aliased and set as the argument.
/// 5. If any export matched, each export of the socket is aliased and exported under its name, in order.
///
/// # Errors
/// - [`NoPlugHappened`](PlugError::NoPlugHappened) if no export matches.
/// - [`GraphError`](PlugError::GraphError) if a name of the socket cannot be exported (the error of
///   [`CompositionGraph::export`]).
/// - [`OutOfMemory`](PlugError::OutOfMemory).
///
/// On an error, everything that the earlier steps added remains in the graph.
pub fn plug(
    graph: &mut CompositionGraph,
    plugs: Vec<PackageId>,
    socket: PackageId,
) -> Result<Vec<PassedOver>, PlugError>
    requires plugs { (i : ℕ) (id : AnId) → slice_get plugs.items i ≡ Some id → IsSome (package_at graph.old id) }
    requires socket { IsSome (package_at graph.old socket) }
    // The graph changes by the steps above, and the result is theirs.
    ensures step { PlugsAll graph.old plugs.items socket (answer_of result) graph.new }
    // The result is the matches that do not win, in order.
    ensures passed_over { IfOk result (λ passed. (all : List PlugMatches) → AreAllMatches graph.old socket plugs.items all → map named_by passed.items ≡ passed_over [] all) }
    // If something matches and a name of the socket cannot be exported, the first one is the error.
    ensures refused { (e : AnExportFault) → IsFirstRefused graph.old (names_of (exports_of_package graph.old socket)) e → (NothingMatches graph.old socket plugs.items → ⊥) → IsExportRefused result ⊎ (result ≡ Err PlugError.OutOfMemory) }
    // That is the only `GraphError`: no alias and no argument fails, except for lack of memory.
    ensures only_refused { (fault : AFault) → result ≡ Err (PlugError.GraphError fault) → IsFirstFault graph.old (names_of (exports_of_package graph.old socket)) fault × (NothingMatches graph.old socket plugs.items → ⊥) }
    // Without any match, and only then, the result is `NoPlugHappened`.
    ensures nothing { NothingMatches graph.old socket plugs.items → (result ≡ Err PlugError.NoPlugHappened) ⊎ (result ≡ Err PlugError.OutOfMemory) }
    ensures only_nothing { result ≡ Err PlugError.NoPlugHappened → NothingMatches graph.old socket plugs.items }
{
    graph.law(); // proof only
    one_export_answer(); // proof only
    imports_law(graph, socket); // proof only
    exports_law(graph, socket); // proof only
    let node = graph.instantiate(socket)?;
    let Matches { wired, passed } = find_all_matches(graph, &plugs, socket)?;
    plug_all(graph, &wired, socket, node)?;
    Ok(passed)
}

impl CompositionGraph {
    /// Instantiates a socket package and sets its arguments to the exports of plug packages, as [`plug`] does.
    ///
    /// # Errors
    /// As [`plug`].
    pub fn plug(
        &mut self,
        socket: PackageId,
        plugs: &[PackageId],
    ) -> Result<Vec<PassedOver>, PlugError>
        requires plugs { (i : ℕ) (id : AnId) → slice_get plugs.now i ≡ Some id → IsSome (package_at self.old id) }
        requires socket { IsSome (package_at self.old socket) }
        ensures step { PlugsAll self.old plugs.now socket (answer_of result) self.new }
        ensures passed_over { IfOk result (λ passed. (all : List PlugMatches) → AreAllMatches self.old socket plugs.now all → map named_by passed.items ≡ passed_over [] all) }
        ensures refused { (e : AnExportFault) → IsFirstRefused self.old (names_of (exports_of_package self.old socket)) e → (NothingMatches self.old socket plugs.now → ⊥) → IsExportRefused result ⊎ (result ≡ Err PlugError.OutOfMemory) }
        ensures only_refused { (fault : AFault) → result ≡ Err (PlugError.GraphError fault) → IsFirstFault self.old (names_of (exports_of_package self.old socket)) fault × (NothingMatches self.old socket plugs.now → ⊥) }
        ensures nothing { NothingMatches self.old socket plugs.now → (result ≡ Err PlugError.NoPlugHappened) ⊎ (result ≡ Err PlugError.OutOfMemory) }
        ensures only_nothing { result ≡ Err PlugError.NoPlugHappened → NothingMatches self.old socket plugs.now }
    {
        let all = Vec::from_slice(self.allocator(), plugs)?;
        plug(self, all, socket)
    }
}
