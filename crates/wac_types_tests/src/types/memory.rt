//! Types and packages are looked at without memory.

use crate::types::adding::BOOL;
use std::process::Abort;
use wac_types::*;

fn assert_row(rt: &impl Abort, holds: bool, what: &str) {
    assert!(rt; holds, "{what}");
}

// A resource `r`, and an alias of it.
fn resources(rt: &(impl Abort + AllocGlobal), types: &mut Types) -> (ResourceId, ResourceId) {
    let resource = Resource::new(rt.alloc(), "r").expect(rt, "a resource");
    let source = types.add_resource(resource).expect(rt, "its id");
    let alias = Resource::alias(rt.alloc(), "s", None, source).expect(rt, "a resource");
    (source, types.add_resource(alias).expect(rt, "its id"))
}

// A package of a world that exports a resource.
fn packed(rt: &(impl Abort + AllocGlobal), types: &mut Types, resource: ResourceId) -> Package {
    let exports = [("r", ItemKind::TypeItem(Type::Resource(resource)))];
    let world = World::new(rt.alloc(), None, &[], &exports).expect(rt, "a world");
    let world = types.add_world(world).expect(rt, "its id");
    assert!(rt; types.contains(Type::World(world)));
    let bytes = Vec::from_array(rt.alloc(), [0]).expect(rt, "bytes");
    Package::new("n:p", None, bytes, world, types).expect(rt, "a package")
}

fn assert_package(rt: &impl Abort, types: &Types, package: &Package) {
    let id = package.instance_type();
    assert!(rt; types.contains(Type::Interface(id)));
    let exports = &types[id].exports;
    assert_row(rt, exports.get("r").is_some(), "an export");
    assert_row(rt, exports.iter().next().is_some(), "exports");
    assert_row(rt, types.holds_package(package), "a package");
    assert_row(rt, package.name() == "n:p", "a name");
    assert_row(rt, package.version().is_none(), "a version");
    assert_row(rt, package.bytes().len() == 1, "bytes");
}

// `tools/refused` refuses this test all growths from one on, so that what follows the last has no memory.
#[test]
fn types_are_looked_at_without_memory(rt: HostRuntime) {
    let mut types = Types::new(rt.alloc());
    let (source, alias) = resources(&rt, &mut types);
    let package = packed(&rt, &mut types, source);
    let _ = String::from_str(rt.alloc(), "the last growth");
    assert_row(&rt, Types::new(rt.alloc()).holds_no_resource(), "no types");
    assert_row(
        &rt,
        ModuleType::new(rt.alloc()).imports.is_empty(),
        "a module",
    );
    assert_row(&rt, types.resolve_resource(alias) == source, "an alias");
    assert_row(&rt, types.resolve_value_type(BOOL) == BOOL, "a value type");
    assert_row(&rt, types.interfaces().next().is_some(), "interfaces");
    assert_row(&rt, !types.holds_no_resource(), "resources");
    assert_package(&rt, &types, &package);
}
