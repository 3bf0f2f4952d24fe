// Packages of the first world of a collection, and the keys under which they are known.
use crate::types::adding::{Adding, BOOL, adds};
use crate::types::asserts::{assert_displayed, assert_shown};
use crate::types::rows::Row::Adds;
use crate::types::rows::{Table, made};
use semver::Version;
use std::process::Abort;
use wac_types_collection::collection::*;

const F: Type = Type::Func(FuncTypeId(0));

const W: Type = Type::World(WorldId(0));

const IMPORTS_F: &[(&str, ItemKind)] = &[("f", ItemKind::Func(FuncTypeId(0)))];

const EXPORTS_G: &[(&str, ItemKind)] = &[("g", ItemKind::Func(FuncTypeId(0)))];

const VALUE: &[(&str, ItemKind)] = &[("v", ItemKind::Value(BOOL))];

const FUNCTIONS: Table = (
    "a world that imports `f` and exports `g`",
    &[
        Adds(Adding::Func(&[("x", BOOL)], None, false), F),
        Adds(Adding::World(None, IMPORTS_F, EXPORTS_G), W),
    ],
);

const VALUES: Table = (
    "a world that exports what it imports",
    &[Adds(Adding::World(Some("n:p/w"), VALUE, VALUE), W)],
);

const PACKED: &[Table] = &[FUNCTIONS, VALUES];

// A package of the first world.
fn package(types: &mut Types, version: Option<&Version>) -> Result<Package, AddTypeError> {
    let world = WorldId(0);
    let held = types.contains(Type::World(world));
    if !held {
        return Err(AddTypeError::NotHeld);
    }
    let Ok(bytes) = Vec::from_array(types.allocator(), [0, 97]) else {
        return Err(AddTypeError::OutOfMemory);
    };
    Package::new("n:p", version, bytes, world, types)
}

// A package has what it was given, and the interface of its instances; another collection does not hold it.
fn is_whole(types: &Types, package: &Package) -> bool {
    let given = package.name() == "n:p" && package.bytes() == [0, 97].as_slice();
    let held = types.holds_package(package) && package.instance_type() == InterfaceId(0);
    given && held && !Types::new(types.allocator()).holds_package(package)
}

// A package is asked for once more where memory was refused; the interface of its instances is not held then.
fn is_packaged(types: &mut Types) -> bool {
    let mut answer = package(types, None);
    if let Err(AddTypeError::OutOfMemory) = answer {
        if types.contains(Type::Interface(InterfaceId(0))) {
            return false;
        }
        answer = package(types, None);
    }
    match answer {
        Ok(package) => is_whole(types, &package),
        Err(_) => false,
    }
}

#[test]
fn a_package_has_the_interface_of_its_instances(rt: HostRuntime) {
    for table in PACKED {
        let mut types = made(&rt, *table);
        assert!(rt; is_packaged(&mut types), "{}", table.0);
    }
}

#[test]
fn a_package_shows_all_but_its_bytes(rt: HostRuntime) {
    let mut types = made(&rt, FUNCTIONS);
    let package = package(&mut types, None).expect(&rt, "a package");
    let want =
        "Package { name: \"n:p\", version: None, bytes: \"...\", ty: WorldId(0), instance_type: InterfaceId(0) }";
    assert_shown(&rt, &package, want);
}

const F1: Type = Type::Func(FuncTypeId(1));

const F_AND_G: &[(&str, ItemKind)] = &[
    ("f", ItemKind::Func(FuncTypeId(0))),
    ("g", ItemKind::Func(FuncTypeId(1))),
];

const G_AND_F: &[(&str, ItemKind)] = &[
    ("g", ItemKind::Func(FuncTypeId(1))),
    ("f", ItemKind::Func(FuncTypeId(0))),
];

const SWAPPED: &[(&str, ItemKind)] = &[
    ("f", ItemKind::Func(FuncTypeId(1))),
    ("g", ItemKind::Func(FuncTypeId(0))),
];

const F_ALONE: &[(&str, ItemKind)] = &[("f", ItemKind::Func(FuncTypeId(0)))];

const F_G_AND_H: &[(&str, ItemKind)] = &[
    ("f", ItemKind::Func(FuncTypeId(0))),
    ("g", ItemKind::Func(FuncTypeId(1))),
    ("h", ItemKind::Func(FuncTypeId(1))),
];

const PAIR: Table = (
    "a world that exports `f` and `g`",
    &[
        Adds(Adding::Func(&[("x", BOOL)], None, false), F),
        Adds(Adding::Func(&[], None, false), F1),
        Adds(Adding::World(None, &[], F_AND_G), W),
    ],
);

// The first interface and the first world of another collection, and whether they export the same under each name.
const OTHERS: &[(&str, &[(&str, ItemKind)], &[(&str, ItemKind)], bool)] = &[
    ("the same order", F_AND_G, F_AND_G, true),
    ("another order", G_AND_F, F_AND_G, true),
    ("the items swapped", SWAPPED, F_AND_G, false),
    ("one export less", F_ALONE, F_AND_G, false),
    ("one export more", F_G_AND_H, F_AND_G, false),
];

// The functions of `PAIR`, an interface and a world.
fn other(
    types: &mut Types,
    exports: &'static [(&'static str, ItemKind)],
    world: &'static [(&'static str, ItemKind)],
) -> bool {
    adds(types, Adding::Func(&[("x", BOOL)], None, false), F)
        && adds(types, Adding::Func(&[], None, false), F1)
        && adds(
            types,
            Adding::Interface(None, exports),
            Type::Interface(InterfaceId(0)),
        )
        && adds(types, Adding::World(None, &[], world), W)
}

#[test]
fn a_package_is_held_where_the_exports_are_the_same_in_whatever_order(rt: HostRuntime) {
    let mut types = made(&rt, PAIR);
    let package = package(&mut types, None).expect(&rt, "a package");
    for (what, exports, world, held) in OTHERS {
        let mut others = Types::new(rt.alloc());
        assert!(rt; other(&mut others, *exports, *world), "{what}");
        assert!(rt; others.holds_package(&package) == *held, "{what}");
    }
}

fn key(rt: &(impl Abort + AllocGlobal), version: Option<&Version>) -> PackageKey {
    let mut types = made(rt, FUNCTIONS);
    let package = package(&mut types, version).expect(rt, "a package");
    match package.key() {
        Err(_) => package.key().expect(rt, "a key"),
        Ok(key) => key,
    }
}

// A new key of the same name, made once more where memory was refused.
fn new_key(rt: &(impl Abort + AllocGlobal), version: Option<&Version>) -> PackageKey {
    match PackageKey::new(rt.alloc(), "n:p", version) {
        Err(_) => PackageKey::new(rt.alloc(), "n:p", version).expect(rt, "a key"),
        Ok(key) => key,
    }
}

#[test]
fn a_key_is_displayed_with_its_version(rt: HostRuntime) {
    let plain = key(&rt, None);
    let versioned = key(&rt, Some(&Version::new(1, 2, 3)));
    assert!(rt; plain < versioned && plain != versioned);
    assert!(rt; new_key(&rt, None) == plain);
    assert!(rt; new_key(&rt, Some(&Version::new(1, 2, 3))) == versioned);
    assert_displayed(&rt, &plain, "n:p");
    assert_displayed(&rt, &versioned, "n:p@1.2.3");
}

const R: Type = Type::Resource(ResourceId(0));

const LISTS_R: &[(&str, ItemKind)] = &[("r", ItemKind::TypeItem(R))];

const EXPORTS_S: &[(&str, ItemKind)] = &[("s", ItemKind::TypeItem(R))];

const MISNAMED: Table = (
    "a world that exports the resource `r` as `s`",
    &[
        Adds(Adding::Resource("r"), R),
        Adds(
            Adding::Interface(Some("n:p/i"), LISTS_R),
            Type::Interface(InterfaceId(0)),
        ),
        Adds(
            Adding::WorldUser(&[("s", InterfaceId(0), Some("r"))], &[], EXPORTS_S),
            W,
        ),
    ],
);

#[test]
fn a_package_lists_its_resources_by_name(rt: HostRuntime) {
    let mut types = made(&rt, MISNAMED);
    let mut answer = package(&mut types, None);
    if let Err(AddTypeError::OutOfMemory) = answer {
        answer = package(&mut types, None);
    }
    assert!(rt; matches!(answer, Err(AddTypeError::ResourceMisnamed)));
}
