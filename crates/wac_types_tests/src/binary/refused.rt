// A call of each sort in one component. Each call is made once more where memory was refused: it had added nothing. So these are
// the bytes without a refusal, and with `--fail-alloc N` they stay the same.
use crate::binary::writers::Call::{
    Component, CoreExport, CoreFunc, Custom, Export, Exports, Import, InstanceType, ModuleType,
};
use crate::binary::writers::Writer::{Core, Instance, Root};
use crate::binary::writers::{Table, assert_tables};
use wac_binary::{Description, EntityType, Sort};

const TABLES: &[Table] = &[(
    "a refused call adds nothing",
    &[
        (Core, CoreFunc(&[], &[]), 0),
        (Core, CoreExport("e", EntityType::Function(0)), 0),
        (Instance, Exports("r", Description::Fresh), 0),
        (Root, Component(&[1, 2]), 0),
        (Root, InstanceType, 0),
        (Root, ModuleType, 0),
        (Root, Import("x", Description::Func(0)), 0),
        (Root, Import("y", Description::Func(0)), 1),
        (Root, Export("z", Sort::Func, 0), 2),
        (Root, Custom("c", &[7]), 0),
    ],
    &[
        "0061736d0d000100", // the preamble
        "04020102", // a component
        "0709014201040001720301", // an instance type
        "030c015002016000000301650000", // a core module type
        "0a0b0200017801000001790100", // two imports
        "0b070100017a010000", // an export
        "0003016307", // a custom section
    ],
)];

#[test]
fn a_refused_call_adds_nothing(rt: HostRuntime) {
    assert_tables(&rt, TABLES);
}
