//! Subtyping of core module types.
ghost use Rattle.std.specs.Prelude.{◌≡◌, ◌≤◌, ◌↔◌, All, IsSomeAnd, IsTrue};
ghost use Rattle.wac_types_shapes.specs.primitives.Name.{find_name};
ghost use Rattle.wac_types_shapes.specs.shapes.Imports.{find_import};
ghost use Rattle.wac_types_collection.specs.collection.Held.{core_item};
ghost use Rattle.wac_types_collection.specs.subtyping.Subtype.{IsCoreSubtype, IsMaximumWithin};
ghost use Rattle.wac_types.specs.private.comparison.Compare.{IsTableSubtype, IsMemorySubtype, OffersCore, OffersModules};

use wac_types_collection::{CoreExtern, CoreFuncType, CoreImports, ModuleType, Named};

// Whether the maximum `a` is within the maximum `b`, if there is one.
fn is_maximum_within(a: Option<u64>, b: Option<u64>) -> bool
    ensures { IsTrue result ↔ IsMaximumWithin a b }
{
    match (a, b) {
        (_, None) => true,
        (None, Some(_)) => false,
        (Some(a), Some(b)) => a <= b,
    }
}

// Whether the limits `initial` and `maximum` are within the limits `least` and `most`.
fn is_within(initial: u64, maximum: Option<u64>, least: u64, most: Option<u64>) -> bool
    ensures { IsTrue result ↔ ((least ≤ initial) × IsMaximumWithin maximum most) }
{
    least <= initial && is_maximum_within(maximum, most)
}

// Whether two core functions have the same parameters and results.
#[tactic(auto, using(crate::proofs::lemmas::comparison::Equal::core_types_told))]
fn same_core_func(f: &CoreFuncType, g: &CoreFuncType) -> bool
    ensures { IsTrue result ↔ ((f.now.params ≡ g.now.params) × (f.now.results ≡ g.now.results)) }
{
    f.params == g.params && f.results == g.results
}

// Whether both are tables, and `x` is a subtype of `y`.
fn is_table_subtype(x: &CoreExtern, y: &CoreExtern) -> bool
    ensures { IsTrue result ↔ IsTableSubtype (core_item x.now) (core_item y.now) }
{
    match (x, y) {
        (
            CoreExtern::Table {
                element_type,
                initial,
                maximum,
                table64,
                shared,
            },
            CoreExtern::Table {
                element_type: asked_type,
                initial: least,
                maximum: most,
                table64: wide,
                shared: together,
            },
        ) => {
            *element_type == *asked_type
                && *table64 == *wide
                && *shared == *together
                && is_within(*initial, *maximum, *least, *most)
        }
        _ => false,
    }
}

// Whether both are memories, and `x` is a subtype of `y`.
fn is_memory_subtype(x: &CoreExtern, y: &CoreExtern) -> bool
    ensures { IsTrue result ↔ IsMemorySubtype (core_item x.now) (core_item y.now) }
{
    match (x, y) {
        (
            CoreExtern::Memory {
                memory64,
                shared,
                initial,
                maximum,
                page_size_log2,
            },
            CoreExtern::Memory {
                memory64: wide,
                shared: together,
                initial: least,
                maximum: most,
                page_size_log2: page,
            },
        ) => {
            *memory64 == *wide
                && *shared == *together
                && *page_size_log2 == *page
                && is_within(*initial, *maximum, *least, *most)
        }
        _ => false,
    }
}

// Whether the core item `x` is a subtype of `y`.
fn is_core_subtype(x: &CoreExtern, y: &CoreExtern) -> bool
    ensures { IsTrue result ↔ IsCoreSubtype (core_item x.now) (core_item y.now) }
{
    match (x, y) {
        (CoreExtern::Func(f), CoreExtern::Func(g)) => same_core_func(f, g),
        (CoreExtern::Tag(f), CoreExtern::Tag(g)) => same_core_func(f, g),
        (CoreExtern::Table { .. }, CoreExtern::Table { .. }) => is_table_subtype(x, y),
        (CoreExtern::Memory { .. }, CoreExtern::Memory { .. }) => is_memory_subtype(x, y),
        (
            CoreExtern::Global {
                val_type,
                mutable,
                shared,
            },
            CoreExtern::Global {
                val_type: asked_type,
                mutable: settable,
                shared: together,
            },
        ) => *val_type == *asked_type && *mutable == *settable && *shared == *together,
        _ => false,
    }
}

// Whether `xs` has a subtype of each item of `ys`, under the same name.
fn offers_core(xs: &Named<CoreExtern>, ys: &Named<CoreExtern>) -> bool
    ensures { IsTrue result ↔ All (λ e. IsSomeAnd (find_name xs.now e.0) (λ x. IsCoreSubtype (core_item x) (core_item e.1))) ys.now }
{
    ys.iter().all(|(name, y)| xs.get(name).is_some_and(|x| is_core_subtype(x, y)))
}

// Whether `xs` has a subtype of each item of `ys`, under the same module and name.
fn offers_modules(xs: &CoreImports<CoreExtern>, ys: &CoreImports<CoreExtern>) -> bool
    ensures { IsTrue result ↔ All (λ e. IsSomeAnd (find_import xs.now e.0.0 e.0.1) (λ x. IsCoreSubtype (core_item x) (core_item e.1))) ys.now }
{
    ys.iter().all(|((source, name), y)| xs.get(source, name).is_some_and(|x| is_core_subtype(x, y)))
}

/// Whether the core module type `m` is a subtype of `n`.
pub fn is_module_subtype(m: &ModuleType, n: &ModuleType) -> bool
    ensures { IsTrue result ↔ (OffersModules n.now.imports m.now.imports × OffersCore m.now.exports n.now.exports) }
{
    m.imports.law();
    n.exports.law();
    offers_modules(&n.imports, &m.imports) && offers_core(&m.exports, &n.exports)
}
