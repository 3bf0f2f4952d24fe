//! What is asked for as a table, and what is true of its merge.
ghost use Rattle.std.specs.Prelude.{◌≡◌, true};

use crate::merging::finished;
use crate::rows::{Item, Items, Row, assert_row};
use std::process::Abort;
use wac_merge::TypeAggregator;
use wac_types::{InterfaceId, ItemKind, ResourceId, Type, Types, ValueType};

/// An import, and the names that lead from it to an item inside.
pub type Path = &'static [&'static str];

/// What is true of a merge.
#[derive(Clone, Copy)]
pub enum Check {
    /// The imports have these names, in order.
    Imports(&'static [&'static str]),
    /// What is at a path lists these, in order.
    Lists(Path, &'static [&'static str]),
    /// What is at a path uses these: a name, of which import, and the name there where that is another.
    Uses(Path, &'static [(&'static str, &'static str, Option<&'static str>)]),
    /// What is at two paths is of one type.
    Same(Path, Path),
    /// What is at two paths is of two types.
    Differ(Path, Path),
    /// An import that is asked for by the first name has the second.
    Canonical(&'static str, &'static str),
    /// The resource that an import binds under a name is the one that is listed at a path, or there is none.
    Resource(&'static str, &'static str, Option<Path>),
    /// The resource at a place is bound by the import of this position, under these names.
    Bound(usize, usize, &'static [&'static str]),
    /// No import binds the resource at a place.
    Unbound(usize),
}

/// Types, what is asked for of them, and what is true of the merge.
pub struct Case {
    pub name: &'static str,
    pub rows: &'static [Row],
    pub asked: &'static [Item],
    pub checks: &'static [Check],
}

/// The interface of an instance, or of a type item.
pub fn interface_of(rt: &impl Abort, item: ItemKind) -> InterfaceId {
    match item.ty() {
        Type::Interface(id) => id,
        _ => panic!(rt; "no interface"),
    }
}

// What an item lists under a name.
fn listed(rt: &impl Abort, types: &Types, item: ItemKind, name: &str) -> ItemKind {
    let id = interface_of(rt, item);
    assert!(rt; types.contains(Type::Interface(id)));
    *types[id].exports.get(name).expect(rt, "what is listed")
}

// What is at a path.
fn item_at(rt: &impl Abort, merged: &TypeAggregator, path: &[&str]) -> ItemKind
    requires { merged.now.is_finished ≡ true }
{
    let (import, names) = path.split_first().expect(rt, "an import's name");
    let mut item = *merged.imports().get(import).expect(rt, "an import");
    for name in names {
        item = listed(rt, merged.types(), item, name);
    }
    item
}

// The type that an item is of: a type item's own, or that of a function's first parameter, the resource of a handle.
fn type_of(rt: &impl Abort, types: &Types, item: ItemKind) -> Type {
    match item {
        ItemKind::TypeItem(ty) => ty,
        ItemKind::Func(id) => {
            assert!(rt; types.contains(Type::Func(id)));
            let params = &types[id].params;
            assert!(rt; params.len() > 0);
            match *params.value_at(0) {
                ValueType::Own(resource) => Type::Resource(resource),
                value => Type::Value(value),
            }
        }
        _ => panic!(rt; "neither a type nor a function"),
    }
}

// Whether what is at two paths is of one type.
fn are_same(rt: &impl Abort, merged: &TypeAggregator, first: Path, second: Path) -> bool
    requires { merged.now.is_finished ≡ true }
{
    let first = item_at(rt, merged, first);
    let second = item_at(rt, merged, second);
    type_of(rt, merged.types(), first) == type_of(rt, merged.types(), second)
}

// The resource that is listed at a path, where there is one.
fn resource_at(rt: &impl Abort, merged: &TypeAggregator, path: Option<Path>) -> Option<ResourceId>
    requires { merged.now.is_finished ≡ true }
{
    match item_at(rt, merged, path?) {
        ItemKind::TypeItem(Type::Resource(resource)) => Some(resource),
        _ => panic!(rt; "no resource"),
    }
}

fn has_imports(merged: &TypeAggregator, want: &[&str]) -> bool
    requires { merged.now.is_finished ≡ true }
{
    let imports = merged.imports();
    if imports.len() != want.len() {
        return false;
    }
    for i in 0..want.len() {
        if imports.name_at(i) != want[i] {
            return false;
        }
    }
    true
}

fn lists(rt: &impl Abort, types: &Types, item: ItemKind, want: &[&str]) -> bool {
    let id = interface_of(rt, item);
    assert!(rt; types.contains(Type::Interface(id)));
    let exports = &types[id].exports;
    if exports.len() != want.len() {
        return false;
    }
    for i in 0..want.len() {
        if exports.name_at(i) != want[i] {
            return false;
        }
    }
    true
}

fn uses(
    rt: &impl Abort,
    merged: &TypeAggregator,
    path: Path,
    want: &[(&str, &str, Option<&str>)],
) -> bool
    requires { merged.now.is_finished ≡ true }
{
    let id = interface_of(rt, item_at(rt, merged, path));
    assert!(rt; merged.types().contains(Type::Interface(id)));
    let uses = &merged.types()[id].uses;
    if uses.len() != want.len() {
        return false;
    }
    for i in 0..want.len() {
        let (name, of, there) = want[i];
        let used = uses.value_at(i);
        let interface = interface_of(rt, item_at(rt, merged, &[of]));
        let named = used.name.as_ref().map(|text| text.as_str());
        if uses.name_at(i) != name || used.interface != interface || named != there {
            return false;
        }
    }
    true
}

// Whether the import at a position binds a resource, under these names.
fn binds_at(merged: &TypeAggregator, resource: ResourceId, position: usize, want: &[&str]) -> bool
    requires { merged.now.is_finished ≡ true }
{
    let Some((at, path)) = merged.root_binding(resource) else {
        return false;
    };
    if at != position || path.len() != want.len() {
        return false;
    }
    for i in 0..want.len() {
        if path[i].as_str() != want[i] {
            return false;
        }
    }
    true
}

fn holds(rt: &impl Abort, items: &Items, merged: &TypeAggregator, check: Check) -> bool
    requires { merged.now.is_finished ≡ true }
{
    match check {
        Check::Imports(names) => has_imports(merged, names),
        Check::Lists(path, names) => lists(rt, merged.types(), item_at(rt, merged, path), names),
        Check::Uses(path, want) => uses(rt, merged, path, want),
        Check::Same(first, second) => are_same(rt, merged, first, second),
        Check::Differ(first, second) => !are_same(rt, merged, first, second),
        Check::Canonical(name, want) => merged.canonical_import_name(name) == want,
        Check::Resource(import, name, path) => {
            merged.resource(import, name) == resource_at(rt, merged, path)
        }
        Check::Bound(place, position, path) => {
            binds_at(merged, items.resource(rt, place), position, path)
        }
        Check::Unbound(place) => merged.root_binding(items.resource(rt, place)).is_none(),
    }
}

/// Each case is true.
pub fn assert_merged(rt: &(impl Abort + AllocGlobal), cases: &[Case]) {
    for case in cases {
        let items = Items::new(rt, rt.alloc(), case.rows);
        let asked = items.asked(rt, case.asked);
        let merged = finished(rt.alloc(), rt, &items.types, &asked).expect(rt, case.name);
        for check in case.checks {
            assert_row(rt, holds(rt, &items, &merged, *check), case.name);
        }
    }
}
