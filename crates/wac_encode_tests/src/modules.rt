//! Core module types that are written.

use crate::rows::assert_row;
use std::alloc::Global;
use std::process::Abort;
use wac_binary::ComponentBuilder;
use wac_modules::module_type;
use wac_types_collection::{CoreExtern, CoreFuncType, CoreRefType, CoreType, ModuleType};

/// What a core module imports or exports.
#[derive(Clone, Copy)]
pub enum Extern {
    /// A function without parameters.
    Plain,
    /// A function of one parameter.
    Func,
    /// A tag of that function's type.
    Tag,
    /// A global that can be changed.
    Global,
    /// A table of one function or two.
    Table,
    /// A memory of one page at least, and of so many at most.
    Memory(Option<u64>),
}

fn function(rt: &impl Abort, alloc: Global, params: &[CoreType]) -> CoreFuncType {
    CoreFuncType::new(alloc, params, &[]).expect(rt, "a function type")
}

fn item(rt: &impl Abort, alloc: Global, what: Extern) -> CoreExtern {
    match what {
        Extern::Plain => CoreExtern::Func(function(rt, alloc, &[])),
        Extern::Func => CoreExtern::Func(function(rt, alloc, &[CoreType::I32])),
        Extern::Tag => CoreExtern::Tag(function(rt, alloc, &[CoreType::I32])),
        Extern::Global => CoreExtern::Global {
            val_type: CoreType::I64,
            mutable: true,
            shared: false,
        },
        Extern::Table => CoreExtern::Table {
            element_type: CoreRefType::FuncRef,
            initial: 1,
            maximum: Some(2),
            table64: false,
            shared: false,
        },
        Extern::Memory(maximum) => CoreExtern::Memory {
            memory64: false,
            shared: false,
            initial: 1,
            maximum,
            page_size_log2: None,
        },
    }
}

/// A core module that imports these of the module `m`, and exports these.
pub fn core_module(
    rt: &impl Abort,
    alloc: Global,
    imports: &[(&str, Extern)],
    exports: &[(&str, Extern)],
) -> ModuleType {
    let mut held = ModuleType::new(alloc);
    for (name, what) in imports {
        let imported = held.import(alloc, "m", name, item(rt, alloc, *what));
        imported.expect(rt, "an import");
    }
    for (name, what) in exports {
        let exported = held.export(alloc, name, item(rt, alloc, *what));
        exported.expect(rt, "an export");
    }
    held
}

// A core module's imports and exports, and the bytes that are written of its type behind the preamble.
struct Module {
    name: &'static str,
    imports: &'static [(&'static str, Extern)],
    exports: &'static [(&'static str, Extern)],
    want: &'static [u8],
}

const MODULES: &[Module] = &[
    Module {
        name: "a function is behind its type",
        imports: &[("f", Extern::Plain)],
        exports: &[("e", Extern::Memory(None))],
        want: &[
            0x03, 0x14, 0x01, 0x50, 0x03, // one core module type of three declarations
            0x01, 0x60, 0x00, 0x00, // a function type
            0x00, 0x01, 0x6d, 0x01, 0x66, 0x00, 0x00, // `f` of `m`, of that type
            0x03, 0x01, 0x65, 0x02, 0x00, 0x01, // the memory `e`
        ],
    },
    Module {
        name: "each function and tag has a type of its own",
        imports: &[("f", Extern::Func)],
        exports: &[
            ("g", Extern::Func),
            ("t", Extern::Tag),
            ("x", Extern::Global),
            ("y", Extern::Table),
            ("z", Extern::Memory(Some(2))),
        ],
        want: &[
            0x03, 0x39, 0x01, 0x50, 0x09, // one core module type of nine declarations
            0x01, 0x60, 0x01, 0x7f, 0x00, // a function type
            0x00, 0x01, 0x6d, 0x01, 0x66, 0x00, 0x00, // `f` of `m`, of that type
            0x01, 0x60, 0x01, 0x7f, 0x00, // the same again
            0x03, 0x01, 0x67, 0x00, 0x01, // the function `g`
            0x01, 0x60, 0x01, 0x7f, 0x00, // and again
            0x03, 0x01, 0x74, 0x04, 0x00, 0x02, // the tag `t`
            0x03, 0x01, 0x78, 0x03, 0x7e, 0x01, // the global `x`
            0x03, 0x01, 0x79, 0x01, 0x70, 0x01, 0x01, 0x02, // the table `y`
            0x03, 0x01, 0x7a, 0x02, 0x01, 0x01, 0x02, // the memory `z`
        ],
    },
];

// The bytes of a component that has this type alone, which has the first index.
fn written(rt: &impl Abort, alloc: Global, held: &ModuleType) -> Vec<u8> {
    let mut builder = ComponentBuilder::new(alloc);
    let written = module_type(alloc, held).expect(rt, "a module type");
    let index = builder.core_module_type(&written).expect(rt, "an index");
    assert!(rt; index == 0);
    builder.finish().expect(rt, "bytes")
}

#[test]
fn core_module_types_are_written(rt: HostRuntime) {
    for row in MODULES {
        let held = core_module(&rt, rt.alloc(), row.imports, row.exports);
        let bytes = written(&rt, rt.alloc(), &held);
        assert_row(&rt, bytes.as_slice().get(8..) == Some(row.want), row.name);
    }
}
