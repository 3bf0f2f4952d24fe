// Packages are found by name and version.
use crate::parts::register;
use semver::Version;
use std::process::Abort;
use wac_graph::{CompositionGraph, PackageId};

// The package that is found, which has the name that is asked for.
fn found(
    rt: &impl Abort,
    graph: &CompositionGraph,
    name: &str,
    version: Option<&Version>,
) -> Option<PackageId> {
    let (id, package) = graph.get_package_by_name(name, version)?;
    assert!(rt; package.name() == name);
    Some(id)
}

#[test]
fn packages_are_found_by_name_and_version(rt: HostRuntime) {
    let mut graph = CompositionGraph::new(rt.alloc());
    let (version, other) = (Version::new(1, 0, 0), Version::new(1, 0, 1));
    let (name, version, other) = ("my:package", Some(&version), Some(&other));
    let plain = register(&rt, &mut graph, (name, None), &[], &[]);
    let plain = plain.expect(&rt, "a package");
    let versioned = register(&rt, &mut graph, (name, version), &[], &[]);
    let versioned = versioned.expect(&rt, "a package");
    assert!(rt; found(&rt, &graph, name, None) == Some(plain));
    assert!(rt; found(&rt, &graph, name, version) == Some(versioned));
    assert!(rt; found(&rt, &graph, name, other).is_none());
    assert!(rt; found(&rt, &graph, "my:other", None).is_none());
}
