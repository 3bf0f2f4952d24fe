// Names of imports and exports, each with the fault that it is refused by.
use crate::parts::{assert_row, export, function, import};
use std::process::Abort;
use wac_graph::types::ItemKind;
use wac_graph::{CompositionGraph, ExportError, ImportError, NameFault, NodeId};

const IMPORTS: &[(&str, NameFault)] = &[
    ("", NameFault::Empty),
    ("1a", NameFault::BadLabel),
    ("a:B/c", NameFault::BadPackage),
    ("a:b/c@1.0", NameFault::BadVersion),
    ("url=<u>x", NameFault::Trailing),
];

const EXPORTS: &[(&str, NameFault)] = &[
    ("aB", NameFault::BadLabel),
    ("url=<u>", NameFault::NotExportable),
    ("integrity=<sha256-aa==>", NameFault::NotExportable),
    ("unlocked-dep=<a:b>", NameFault::NotExportable),
];

// The fault of its name that an import is refused by; imported once more where memory was refused.
fn import_fault(
    rt: &impl Abort,
    graph: &mut CompositionGraph,
    name: &str,
    kind: ItemKind,
) -> Option<NameFault> {
    let mut answer = import(rt, graph, name, kind);
    if let Err(ImportError::OutOfMemory) = answer {
        answer = import(rt, graph, name, kind);
    }
    match answer {
        Err(ImportError::InvalidImportName { source, .. }) => Some(source),
        _ => None,
    }
}

// The fault of its name that an export is refused by; exported once more where memory was refused.
fn export_fault(
    rt: &impl Abort,
    graph: &mut CompositionGraph,
    node: NodeId,
    name: &str,
) -> Option<NameFault> {
    let mut answer = export(rt, graph, node, name);
    if let Err(ExportError::OutOfMemory) = answer {
        answer = export(rt, graph, node, name);
    }
    match answer {
        Err(ExportError::InvalidExportName { source, .. }) => Some(source),
        _ => None,
    }
}

#[test]
fn names_are_refused_by_their_fault(rt: HostRuntime) {
    let mut graph = CompositionGraph::new(rt.alloc());
    let kind = function(&rt, &mut graph, &[], None);
    let node = import(&rt, &mut graph, "x", kind).expect(&rt, "a node");
    for (name, want) in IMPORTS {
        let fault = import_fault(&rt, &mut graph, name, kind);
        assert_row(&rt, fault == Some(*want), name);
    }
    for (name, want) in EXPORTS {
        let fault = export_fault(&rt, &mut graph, node, name);
        assert_row(&rt, fault == Some(*want), name);
    }
}
