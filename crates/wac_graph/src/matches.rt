//! The matches of a list of plugs with a socket.
ghost use Rattle.std.specs.Prelude.{◌≡◌, ℕ, List, [], Some, IsSome, IfOk, OnOk, length, map, slice_get};
ghost use Rattle.wac_graph_model.specs.declared.nodes.packages.PackageId.{PackageId as AnId};
ghost use Rattle.wac_graph_model.specs.nodes.Graph.{package_at};
ghost use Rattle.wac_graph.specs.plugs.Matching.{PlugMatches, AreAllMatches};
ghost use Rattle.wac_graph.specs.plugs.Precedence.{wired, passed_over, named_by};
ghost use Rattle.wac_graph.specs.private.plugs.Ready.{plugs_at, AreReady, AreNamed};

use crate::graph::CompositionGraph;
use crate::plugs::{Division, PassedOver, PlugPairs, divide, find_matches, keep, pass_over};
use std::alloc::AllocError;
use wac_graph_model::PackageId;

/// The matches of a list of plugs with a socket.
#[derive(Debug, Drop)]
pub struct Matches {
    /// Each plug that has a match which wins, with these matches.
    pub wired: Vec<PlugPairs>,
    /// The matches that do not win.
    pub passed: Vec<PassedOver>,
}

/// Finds the matches of all plugs.
pub fn find_all_matches(
    graph: &CompositionGraph,
    plugs: &[PackageId],
    socket: PackageId,
) -> Result<Matches, AllocError>
    requires plugs { (i : ℕ) (id : AnId) → slice_get plugs.now i ≡ Some id → IsSome (package_at graph.now id) }
    requires socket { IsSome (package_at graph.now socket) }
    ensures matched { IfOk result (λ m. (all : List PlugMatches) × AreAllMatches graph.now socket plugs.now all × (plugs_at graph.now socket m.wired.items ≡ wired [] all) × (map named_by m.passed.items ≡ passed_over [] all)) }
    ensures ready { IfOk result (λ m. AreReady graph.now socket m.wired.items) }
    ensures named { OnOk result (AreNamed graph.now plugs.now (length plugs.now)) }
{
    graph.law(); // proof only
    let types = graph.types();
    types.law(); // proof only
    let importing = graph[socket].ty();
    let imports = &types[importing].imports;
    imports.law(); // proof only
    let alloc = types.allocator();
    let mut taken = vec![in alloc; false; imports.len()]?;
    let mut firsts = None;
    let mut wired = Vec::new(alloc);
    let mut passed = Vec::new(alloc);
    for i in 0..plugs.len() {
        let plug = plugs[i];
        let exporting = graph[plug].ty();
        let pairs = find_matches(types, exporting, importing, &mut firsts)?;
        let Division { won, lost } = divide(alloc, &pairs, &mut taken)?;
        let exports = &types[exporting].exports;
        pass_over(alloc, plug, exports, imports, &lost, &mut passed)?;
        keep(&mut wired, plug, won)?;
    }
    Ok(Matches { wired, passed })
}
