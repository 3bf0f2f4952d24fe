// Types: value types, function types, interfaces and components.
use crate::binary::writers::Call::{
    AliasExport, AliasOuter, Begin, Defined, EmptyInstanceType, Exports, Func, Import, InnerType,
    InstanceType, OuterType,
};
use crate::binary::writers::Writer::{Inner, Instance, Outer, Root};
use crate::binary::writers::{Row, Table, assert_tables};
use wac_binary::{ComponentValType, DefinedType, Description, FuncType, Sort};
use wac_types_collection::PrimitiveType;

const U8: ComponentValType = ComponentValType::Primitive(PrimitiveType::U8);

const TAKES_1: FuncType<'static> = FuncType {
    is_async: false,
    params: &[("x", ComponentValType::Index(1))],
    result: None,
};

const GIVES_0: FuncType<'static> = FuncType {
    is_async: true,
    params: &[],
    result: Some(ComponentValType::Index(0)),
};

const PRIMITIVES: &[Row] = &[
    (
        Root,
        Defined(DefinedType::Primitive(PrimitiveType::Bool)),
        0,
    ),
    (Root, Defined(DefinedType::Primitive(PrimitiveType::S8)), 1),
    (Root, Defined(DefinedType::Primitive(PrimitiveType::U8)), 2),
    (Root, Defined(DefinedType::Primitive(PrimitiveType::S16)), 3),
    (Root, Defined(DefinedType::Primitive(PrimitiveType::U16)), 4),
    (Root, Defined(DefinedType::Primitive(PrimitiveType::S32)), 5),
    (Root, Defined(DefinedType::Primitive(PrimitiveType::U32)), 6),
    (Root, Defined(DefinedType::Primitive(PrimitiveType::S64)), 7),
    (Root, Defined(DefinedType::Primitive(PrimitiveType::U64)), 8),
    (Root, Defined(DefinedType::Primitive(PrimitiveType::F32)), 9),
    (
        Root,
        Defined(DefinedType::Primitive(PrimitiveType::F64)),
        10,
    ),
    (
        Root,
        Defined(DefinedType::Primitive(PrimitiveType::Char)),
        11,
    ),
    (
        Root,
        Defined(DefinedType::Primitive(PrimitiveType::String)),
        12,
    ),
    (
        Root,
        Defined(DefinedType::Primitive(PrimitiveType::ErrorContext)),
        13,
    ),
];

const WITHOUT_NAMES: &[Row] = &[
    (Root, Defined(DefinedType::List(U8)), 0),
    (Root, Defined(DefinedType::FixedSizeList(U8, 200)), 1),
    (Root, Defined(DefinedType::Option(U8)), 2),
    (
        Root,
        Defined(DefinedType::Result {
            ok: None,
            err: None,
        }),
        3,
    ),
    (
        Root,
        Defined(DefinedType::Result {
            ok: Some(U8),
            err: None,
        }),
        4,
    ),
    (
        Root,
        Defined(DefinedType::Result {
            ok: None,
            err: Some(U8),
        }),
        5,
    ),
    (Root, Defined(DefinedType::Own(1)), 6),
    (Root, Defined(DefinedType::Borrow(2)), 7),
    (Root, Defined(DefinedType::Stream(None)), 8),
    (Root, Defined(DefinedType::Stream(Some(U8))), 9),
    (Root, Defined(DefinedType::Future(None)), 10),
    (Root, Defined(DefinedType::Future(Some(U8))), 11),
    (Root, Defined(DefinedType::Tuple(&[U8, U8])), 12),
];

const TABLES: &[Table] = &[
    (
        "each primitive type",
        PRIMITIVES,
        &[
            "0061736d0d000100", // the preamble
            "070f0e7f7e7d7c7b7a797877767574",
            "7364",
        ],
    ),
    // A type index in a value's place is a signed number, in a handle it is an unsigned one.
    (
        "indexes as signed and unsigned numbers",
        &[
            (
                Root,
                Defined(DefinedType::List(ComponentValType::Index(63))),
                0,
            ),
            (
                Root,
                Defined(DefinedType::List(ComponentValType::Index(64))),
                1,
            ),
            (Root, Defined(DefinedType::Own(64)), 2),
            (Root, Defined(DefinedType::Borrow(128)), 3),
            (
                Root,
                Defined(DefinedType::List(ComponentValType::Index(u32::MAX))),
                4,
            ),
            (Root, Defined(DefinedType::Own(u32::MAX)), 5),
        ],
        &[
            "0061736d0d000100", // the preamble
            "071706703f70c0006940688001", // six types
            "70ffffffff0f69ffffffff0f",
        ],
    ),
    (
        "types with names",
        &[
            (
                Root,
                Defined(DefinedType::Record(&[("a", U8), ("b", U8)])),
                0,
            ),
            (
                Root,
                Defined(DefinedType::Variant(&[("a", None), ("b", Some(U8))])),
                1,
            ),
            (Root, Defined(DefinedType::Flags(&["a", "b"])), 2),
            (Root, Defined(DefinedType::Enum(&["a", "é"])), 3),
        ],
        &[
            "0061736d0d000100", // the preamble
            "072104", // four types
            "720201617d01627d", // a record
            "7102016100000162017d00", // a variant
            "6e0201610162", // flags
            "6d02016102c3a9", // an enum, the second name two bytes long
        ],
    ),
    (
        "types without names",
        WITHOUT_NAMES,
        &[
            "0061736d0d000100", // the preamble
            "07260d707d677dc8016b7d", // lists and an option
            "6a00006a017d006a00017d", // results
            "69016802", // handles
            "660066017d650065017d", // streams and futures
            "6f027d7d", // a tuple
        ],
    ),
    (
        "the interface with the resource `r` and `f(x: own r)`",
        &[
            (Instance, Exports("r", Description::Fresh), 0),
            (Instance, Defined(DefinedType::Own(0)), 1),
            (Instance, Func(TAKES_1), 2),
            (Instance, Exports("f", Description::Func(2)), 0),
            (Root, InstanceType, 0),
        ],
        &[
            "0061736d0d000100", // the preamble
            "071a014204040001720301016900",
            "0140010178010100040001660102",
        ],
    ),
    (
        "the declarations of an interface `n:p/i` that uses the enum `t` of `n:p/j`, which is imported",
        &[
            (Instance, Defined(DefinedType::Enum(&["a"])), 0),
            (Instance, Exports("t", Description::Equal(0)), 1),
            (Inner, InstanceType, 0),
            (Inner, Import("n:p/j", Description::Instance(0)), 0),
            (Inner, AliasExport(Sort::Type, 0, "t"), 1),
            (Instance, Begin, 0),
            (Instance, AliasOuter(Sort::Type, 1, 1), 0),
            (Instance, Exports("t", Description::Equal(0)), 1),
            (Inner, InstanceType, 2),
            (Inner, Exports("n:p/i", Description::Instance(2)), 1),
            (Root, InnerType, 0),
        ],
        &[
            "0061736d0d000100", // the preamble
            "073b014105014202016d01016104",
            "0001740300000300056e3a702f6a",
            "0500020300000174014202020302",
            "0101040001740300000400056e3a",
            "702f690502",
        ],
    ),
    (
        "a component type with each declaration that it can have, inside an instance type and beside one",
        &[
            (Inner, Defined(DefinedType::List(U8)), 0),
            (Inner, Func(GIVES_0), 1),
            (Inner, Import("f", Description::Func(1)), 0),
            (Inner, AliasOuter(Sort::Component, 1, 0), 0),
            (Instance, InnerType, 0),
            (Instance, EmptyInstanceType, 1),
            (Outer, InnerType, 0),
            (Root, InstanceType, 0),
            (Root, OuterType, 1),
        ],
        &[
            "0061736d0d000100", // the preamble
            "0734024202", // two types, the first an instance type of two declarations
            "01410401707d01430000000300016601010204020100",
            "014200", // an instance type without declarations
            "4101", // a component type of one declaration
            "01410401707d01430000000300016601010204020100",
        ],
    ),
];

#[test]
fn types_are_written(rt: HostRuntime) {
    assert_tables(&rt, TABLES);
}
