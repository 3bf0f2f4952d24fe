// Components: packages, instances, aliases, imports and exports.
use crate::binary::writers::Call::{
    AliasExport, AliasOuter, Component, Custom, Export, Exports, Func, Import, InstanceType,
    Instantiate,
};
use crate::binary::writers::Writer::{Instance, Root};
use crate::binary::writers::{Table, assert_tables};
use wac_binary::{ComponentValType, Description, FuncType, Sort};
use wac_types_collection::PrimitiveType;

const PREAMBLE: &[u8] = &[0x00, 0x61, 0x73, 0x6d, 0x0d, 0x00, 0x01, 0x00];

const EMPTY: FuncType<'static> = FuncType {
    is_async: false,
    params: &[],
    result: None,
};

const FULL: FuncType<'static> = FuncType {
    is_async: true,
    params: &[("p", ComponentValType::Index(64))],
    result: Some(ComponentValType::Primitive(PrimitiveType::String)),
};

const OVER_NAMED: FuncType<'static> = FuncType {
    is_async: false,
    params: &[("x", ComponentValType::Index(1))],
    result: None,
};

const TABLES: &[Table] = &[
    (
        "two packages, the `a` of an instance of the first given to the second as `b`",
        &[
            (Root, Component(PREAMBLE), 0),
            (Root, Instantiate(0, &[]), 0),
            (Root, AliasExport(Sort::Func, 0, "a"), 0),
            (Root, Component(PREAMBLE), 1),
            (Root, Instantiate(1, &[("b", Sort::Func, 0)]), 1),
        ],
        &[
            "0061736d0d000100", // the preamble
            "04080061736d0d000100", // the first package
            "0504010000000606010100000161", // its instance, and the function `a` of it
            "04080061736d0d000100", // the second package
            "050801000101016201", // its instance, with `b`
            "00", // which is function 0
        ],
    ),
    (
        "two imports, a type, an import: three sections; then an export of the alias of the first import",
        &[
            (Root, Func(EMPTY), 0),
            (Root, Import("x", Description::Func(0)), 0),
            (Root, Import("y", Description::Func(0)), 1),
            (Root, Func(FULL), 1),
            (Root, Import("z", Description::Func(1)), 2),
            (Root, AliasOuter(Sort::Func, 0, 0), 3),
            (Root, Export("e", Sort::Func, 3), 4),
        ],
        &[
            "0061736d0d000100", // the preamble
            "07050140000100", // a type
            "0a0b0200017801000001790100", // two imports
            "07090143010170c0000073", // a type
            "0a060100017a0101", // an import
            "06050101020000", // an alias
            "0b0701000165010300", // an export
        ],
    ),
    (
        "an interface with the enum `t` of another, reached by an outer alias, and a function over it",
        &[
            (Instance, AliasOuter(Sort::Type, 1, 1), 0),
            (Instance, Exports("t", Description::Equal(0)), 1),
            (Instance, Func(OVER_NAMED), 2),
            (Instance, Exports("f", Description::Func(2)), 0),
            (Instance, AliasExport(Sort::Func, 0, "g"), 1),
            (Root, InstanceType, 0),
        ],
        &[
            "0061736d0d000100", // the preamble
            "0723014205", // an instance type of five declarations
            "0203020101", // an outer alias
            "04000174030000", // an export of a type
            "0140010178010100", // a function type
            "040001660102", // an export of a function
            "020100000167", // an alias of an export
        ],
    ),
    (
        "each sort and description",
        &[
            (Root, Import("", Description::CoreModule(1)), 0),
            (Root, Import("", Description::Func(2)), 0),
            (Root, Import("", Description::Equal(3)), 0),
            (Root, Import("", Description::Fresh), 1),
            (Root, Import("", Description::Component(4)), 0),
            (Root, Import("", Description::Instance(5)), 0),
            (Root, Export("", Sort::CoreModule, 0), 1),
            (Root, Export("", Sort::Func, 0), 1),
            (Root, Export("", Sort::Value, 0), 0),
            (Root, Export("", Sort::Type, 0), 2),
            (Root, Export("", Sort::Component, 0), 1),
            (Root, Export("", Sort::Instance, 0), 1),
        ],
        &[
            "0061736d0d000100", // the preamble
            "0a1b06000000110100000102000003000300000301000004040000",
            "0505", // the imports
            "0b2006000000110000000001000000000200000000030000000004",
            "00000000050000", // the exports
        ],
    ),
    (
        "custom sections, each its own; the section that was open before one is closed",
        &[
            (Root, Custom("a", &[]), 0),
            (Root, Export("x", Sort::Func, 0), 0),
            (Root, Custom("b", &[1, 2]), 0),
            (Root, Export("y", Sort::Func, 0), 1),
        ],
        &[
            "0061736d0d000100", // the preamble
            "00020161", // a custom section
            "0b0701000178010000", // an export
            "000401620102", // a custom section
            "0b0701000179010000", // an export
        ],
    ),
    (
        "both forms of an alias, of each sort; an index is answered in the space of its sort",
        &[
            (Root, AliasExport(Sort::CoreModule, 200, "a"), 0),
            (Root, AliasOuter(Sort::CoreModule, 1, 2), 1),
            (Root, AliasExport(Sort::Func, 200, "a"), 0),
            (Root, AliasOuter(Sort::Func, 1, 2), 1),
            (Root, AliasExport(Sort::Value, 200, "a"), 0),
            (Root, AliasOuter(Sort::Value, 1, 2), 1),
            (Root, AliasExport(Sort::Type, 200, "a"), 0),
            (Root, AliasOuter(Sort::Type, 1, 2), 1),
            (Root, AliasExport(Sort::Component, 200, "a"), 0),
            (Root, AliasOuter(Sort::Component, 1, 2), 1),
            (Root, AliasExport(Sort::Instance, 200, "a"), 0),
            (Root, AliasOuter(Sort::Instance, 1, 2), 1),
        ],
        &[
            "0061736d0d000100", // the preamble
            "063f0c", // twelve aliases
            "001100c80101610011020102", // of core modules
            "0100c801016101020102", // of functions
            "0200c801016102020102", // of values
            "0300c801016103020102", // of types
            "0400c801016104020102", // of components
            "0500c801016105020102", // of instances
        ],
    ),
];

#[test]
fn components_are_written(rt: HostRuntime) {
    assert_tables(&rt, TABLES);
}
