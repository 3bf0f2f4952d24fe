// Components of today's tools, and components by hand.
use crate::asserts::{assert_listed, bytes_of};
use crate::samples::asynchronous::ASYNC;
use crate::samples::command::COMMAND;
use crate::samples::export_resource::EXPORT_RESOURCE;
use crate::samples::export_uses_import::EXPORT_USES_IMPORT;
use crate::samples::import_export_one::IMPORT_EXPORT_ONE;
use crate::samples::world_use::WORLD_USE;
use crate::samples::{
    EMPTY, FUNC, HIDDEN_RESOURCE, LABELS, LABELS_RESOURCES, OUTER_DEP, PADDED, REEXPORT, RUN_ONLY,
    Sample,
};
use std::process::Abort;

// Components, and the lines of their parts.
const BY_HAND: &[(&str, &str)] = &[
    (
        "0061736d0d000100",
        "
",
    ),
    // A padded size, and a padded count and index.
    (
        "0061736d0d00010007880082007f6980808000",
        "
0000000d type 0: bool
0000000e type 1: own<type 0>
",
    ),
    // A section in two.
    (
        "0061736d0d0001000702017f0702017e",
        "
0000000b type 0: bool
0000000f type 1: s8
",
    ),
    // A custom section at the end, and names in both forms.
    (
        "0061736d0d0001000a0b020001610301010162030100020163",
        r#"
0000000b type 0: import "a": a resource
00000010 type 1: import "b": a resource
00000017 custom "c": 0 bytes
"#,
    ),
    // A component in a component has indexes of its own.
    (
        "0061736d0d000100040c0061736d0d0001000702017f0702017e",
        "
0000000a component 0
00000015   type 0: bool
00000019 type 0: s8
",
    ),
];

// A component has the parts that its lines say.
fn assert_sample(rt: &(impl Abort + AllocGlobal), sample: &Sample) {
    let bytes = bytes_of(rt, sample.bytes);
    assert_listed(rt, &bytes, sample.lines);
}

#[test]
fn small_components_are_listed(rt: HostRuntime) {
    assert_sample(&rt, &EMPTY);
    assert_sample(&rt, &FUNC);
    assert_sample(&rt, &RUN_ONLY);
    assert_sample(&rt, &PADDED);
    assert_sample(&rt, &LABELS_RESOURCES);
    assert_sample(&rt, &OUTER_DEP);
    assert_sample(&rt, &REEXPORT);
    assert_sample(&rt, &HIDDEN_RESOURCE);
}

// A test for each of the others: the prover counts the bytes of the texts in a function.

#[test]
fn a_component_with_labels_is_listed(rt: HostRuntime) {
    assert_sample(&rt, &LABELS);
}

#[test]
fn an_asynchronous_component_is_listed(rt: HostRuntime) {
    assert_sample(&rt, &ASYNC);
}

#[test]
fn a_command_is_listed(rt: HostRuntime) {
    assert_sample(&rt, &COMMAND);
}

#[test]
fn a_component_that_exports_a_resource_is_listed(rt: HostRuntime) {
    assert_sample(&rt, &EXPORT_RESOURCE);
}

#[test]
fn a_component_whose_export_uses_an_import_is_listed(rt: HostRuntime) {
    assert_sample(&rt, &EXPORT_USES_IMPORT);
}

#[test]
fn a_component_that_imports_and_exports_an_interface_is_listed(rt: HostRuntime) {
    assert_sample(&rt, &IMPORT_EXPORT_ONE);
}

#[test]
fn a_component_whose_world_uses_types_is_listed(rt: HostRuntime) {
    assert_sample(&rt, &WORLD_USE);
}

#[test]
fn components_by_hand_are_listed(rt: HostRuntime) {
    for (text, lines) in BY_HAND {
        let bytes = bytes_of(&rt, *text);
        assert_listed(&rt, &bytes, *lines);
    }
}
