// Types of core modules.
use crate::binary::writers::Call::{
    CoreExport, CoreFunc, CoreImport, InnerType, InstanceType, ModuleType,
};
use crate::binary::writers::Writer::{Core, Inner, Instance, Root};
use crate::binary::writers::{Table, assert_tables, assert_written};
use std::alloc::Global;
use std::process::Abort;
use wac_binary::{BinaryFault, ComponentBuilder, EntityType, GlobalType, MemoryType, TableType};
use wac_types_collection::{CoreExtern, CoreFuncType, CoreRefType, CoreType};

const MEMORY: MemoryType = MemoryType {
    minimum: 1,
    maximum: None,
    memory64: false,
    shared: false,
    page_size_log2: None,
};

const BOUNDED: MemoryType = MemoryType {
    minimum: 1,
    maximum: Some(2),
    memory64: false,
    shared: false,
    page_size_log2: None,
};

const SHARED: MemoryType = MemoryType {
    minimum: 1,
    maximum: Some(2),
    memory64: false,
    shared: true,
    page_size_log2: None,
};

const LONG: MemoryType = MemoryType {
    minimum: 1,
    maximum: None,
    memory64: true,
    shared: false,
    page_size_log2: None,
};

const PAGED: MemoryType = MemoryType {
    minimum: 1,
    maximum: None,
    memory64: false,
    shared: false,
    page_size_log2: Some(16),
};

const ALL: MemoryType = MemoryType {
    minimum: 1,
    maximum: Some(0x1_0000_0000),
    memory64: true,
    shared: true,
    page_size_log2: Some(0),
};

const TABLE: TableType = TableType {
    element_type: CoreRefType::FuncRef,
    table64: false,
    minimum: 1,
    maximum: None,
    shared: false,
};

const FULL_TABLE: TableType = TableType {
    element_type: CoreRefType::ExternRef,
    table64: true,
    minimum: 1,
    maximum: Some(2),
    shared: true,
};

const I32: GlobalType = GlobalType {
    val_type: CoreType::I32,
    mutable: false,
    shared: false,
};

const I64: GlobalType = GlobalType {
    val_type: CoreType::I64,
    mutable: true,
    shared: false,
};

const F32: GlobalType = GlobalType {
    val_type: CoreType::F32,
    mutable: false,
    shared: true,
};

const EXTERN: GlobalType = GlobalType {
    val_type: CoreType::Ref(CoreRefType::ExternRef),
    mutable: true,
    shared: true,
};

const VALUES: &[CoreType] = &[
    CoreType::F64,
    CoreType::V128,
    CoreType::Ref(CoreRefType::FuncRef),
];

const TABLES: &[Table] = &[
    (
        "an import of the function `f` of `m`, and an export of the memory `e` with minimum 1",
        &[
            (Core, CoreFunc(&[], &[]), 0),
            (Core, CoreImport("m", "f", EntityType::Function(0)), 0),
            (Core, CoreExport("e", EntityType::Memory(MEMORY)), 0),
            (Root, ModuleType, 0),
        ],
        &[
            "0061736d0d000100", // the preamble
            "03140150030160000000016d0166",
            "0000030165020001",
        ],
    ),
    // The core types have indexes of their own.
    (
        "the same module type in a component type and in an instance type",
        &[
            (Inner, ModuleType, 0),
            (Inner, ModuleType, 1),
            (Instance, ModuleType, 0),
            (Root, InnerType, 0),
            (Root, InstanceType, 1),
        ],
        &[
            "0061736d0d000100", // the preamble
            "070e0241020050000050004201005000", // two types
        ],
    ),
    (
        "memories",
        &[
            (Core, CoreExport("", EntityType::Memory(BOUNDED)), 0),
            (Core, CoreExport("", EntityType::Memory(SHARED)), 0),
            (Core, CoreExport("", EntityType::Memory(LONG)), 0),
            (Core, CoreExport("", EntityType::Memory(PAGED)), 0),
            (Core, CoreExport("", EntityType::Memory(ALL)), 0),
            (Root, ModuleType, 0),
        ],
        &[
            "0061736d0d000100", // the preamble
            "0325015005", // a module type of five declarations
            "030002010102", // a maximum
            "030002030102", // shared
            "0300020401", // with 64 bits
            "030002080110", // a page size
            "0300020f01808080801000", // all of them
        ],
    ),
    (
        "tables, globals and tags",
        &[
            (Core, CoreExport("", EntityType::Table(TABLE)), 0),
            (Core, CoreExport("", EntityType::Table(FULL_TABLE)), 0),
            (Core, CoreImport("", "", EntityType::Global(I32)), 0),
            (Core, CoreImport("", "", EntityType::Global(I64)), 0),
            (Core, CoreImport("", "", EntityType::Global(F32)), 0),
            (Core, CoreImport("", "", EntityType::Global(EXTERN)), 0),
            (Core, CoreFunc(VALUES, &[CoreType::I32]), 0),
            (Core, CoreExport("", EntityType::Tag(0)), 0),
            (Core, CoreFunc(&[], &[]), 1),
            (Root, ModuleType, 0),
        ],
        &[
            "0061736d0d000100", // the preamble
            "0339015009", // a module type of nine declarations
            "0300017000010300016f070102", // tables
            "000000037f00000000037e01", // globals
            "000000037d02000000036f03", // shared globals
            "0160037c7b70017f", // a function type
            "0300040000", // a tag
            "01600000", // a function type
        ],
    ),
];

#[test]
fn module_types_are_written(rt: HostRuntime) {
    assert_tables(&rt, TABLES);
}

// A held module type that imports functions under these names.
fn held(
    rt: &impl Abort,
    alloc: Global,
    names: &[(&str, &str)],
) -> wac_types_collection::ModuleType {
    let mut held = wac_types_collection::ModuleType::new(alloc);
    for (source, name) in names {
        let func = CoreFuncType::new(alloc, &[], &[]).expect(rt, "a function type");
        held.import(alloc, source, name, CoreExtern::Func(func))
            .expect(rt, "a declaration");
    }
    held
}

// The component that defines a module type with the imports of a held one, each with a type of its own before it.
fn importing(
    alloc: Global,
    held: &wac_types_collection::ModuleType,
) -> Result<ComponentBuilder, BinaryFault> {
    let mut module_type = wac_binary::ModuleType::new(alloc);
    for ((source, name), _) in &held.imports {
        let f = module_type.func(&[], &[])?;
        module_type.import(source, name, EntityType::Function(f))?;
    }
    let mut b = ComponentBuilder::new(alloc);
    let _i = b.core_module_type(&module_type)?;
    Ok(b)
}

const IMPORTS: &[&str] = &[
    "0061736d0d000100", // the preamble
    "0324015006", // a module type of six declarations
    "0160000000016d01660000",
    "0160000000016e01670001",
    "0160000000016d01680002",
];

#[test]
fn writes_imports_in_the_order_given(rt: HostRuntime) {
    let held = held(&rt, rt.alloc(), &[("m", "f"), ("n", "g"), ("m", "h")]);
    let b = importing(rt.alloc(), &held).expect(&rt, "a component");
    assert_written(&rt, rt.alloc(), b.finish(), IMPORTS, "imports");
}
