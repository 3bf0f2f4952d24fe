// Damaged components: each is answered by parts or by an error.
use crate::asserts::{assert_answered, bytes_of};
use crate::samples::asynchronous::ASYNC;
use crate::samples::command::COMMAND;
use crate::samples::export_resource::EXPORT_RESOURCE;
use crate::samples::export_uses_import::EXPORT_USES_IMPORT;
use crate::samples::import_export_one::IMPORT_EXPORT_ONE;
use crate::samples::world_use::WORLD_USE;
use crate::samples::{
    EMPTY, FUNC, HIDDEN_RESOURCE, LABELS, LABELS_RESOURCES, OUTER_DEP, PADDED, REEXPORT, RUN_ONLY,
};
use std::process::Abort;

// What a byte is changed to.
const CHANGES: &[u8] = &[0, 1, 0x7f, 0x80, 0xff];

// Files that are refused as they are.
const REFUSED: &[&str] = &[
    // A core module.
    "0061736d010000000503010001070a01066d656d6f72790200",
    // A name with an attribute.
    "0061736d0d000100070e01420201400001000400016601000a140102077072696d617279010005613a622f630500",
    // A start section.
    "0061736d0d0001000903000000",
    // A component that is cut.
    "0061736d0d00010007840001400001",
];

// The bytes, with one of them changed.
fn changed(rt: &(impl Abort + AllocGlobal), bytes: &[u8], at: usize, new: u8) -> Vec<u8> {
    let mut copy = Vec::new(rt.alloc());
    copy.extend_from_slice(bytes).expect(rt, "bytes");
    if let Some(byte) = copy.get_mut(at) {
        *byte = new;
    }
    copy
}

// The bytes are cut at each length, and each byte of them is changed. Returns whether they have parts as they are.
fn assert_damaged(rt: &(impl Abort + AllocGlobal), text: &str) -> bool {
    let bytes = bytes_of(rt, text);
    for at in 0..bytes.len() {
        let _ = assert_answered(rt, &bytes[..at]);
        for new in CHANGES {
            let copy = changed(rt, &bytes, at, *new);
            let _ = assert_answered(rt, &copy);
        }
    }
    assert_answered(rt, &bytes)
}

#[test]
fn damaged_components_are_answered(rt: HostRuntime) {
    assert!(rt; assert_damaged(&rt, EMPTY.bytes));
    assert!(rt; assert_damaged(&rt, FUNC.bytes));
    assert!(rt; assert_damaged(&rt, HIDDEN_RESOURCE.bytes));
    assert!(rt; assert_damaged(&rt, LABELS.bytes));
    assert!(rt; assert_damaged(&rt, LABELS_RESOURCES.bytes));
    assert!(rt; assert_damaged(&rt, OUTER_DEP.bytes));
    assert!(rt; assert_damaged(&rt, PADDED.bytes));
    assert!(rt; assert_damaged(&rt, REEXPORT.bytes));
    assert!(rt; assert_damaged(&rt, RUN_ONLY.bytes));
}

#[test]
fn damaged_files_that_are_refused_are_answered(rt: HostRuntime) {
    for text in REFUSED {
        assert!(rt; !assert_damaged(&rt, *text));
    }
}

#[test]
fn a_damaged_asynchronous_component_is_answered(rt: HostRuntime) {
    assert!(rt; assert_damaged(&rt, ASYNC.bytes));
}

#[test]
fn a_damaged_command_is_answered(rt: HostRuntime) {
    assert!(rt; assert_damaged(&rt, COMMAND.bytes));
}

#[test]
fn a_damaged_export_of_a_resource_is_answered(rt: HostRuntime) {
    assert!(rt; assert_damaged(&rt, EXPORT_RESOURCE.bytes));
}

#[test]
fn a_damaged_export_that_uses_an_import_is_answered(rt: HostRuntime) {
    assert!(rt; assert_damaged(&rt, EXPORT_USES_IMPORT.bytes));
}

#[test]
fn a_damaged_import_that_is_exported_too_is_answered(rt: HostRuntime) {
    assert!(rt; assert_damaged(&rt, IMPORT_EXPORT_ONE.bytes));
}

#[test]
fn a_damaged_world_that_uses_an_interface_is_answered(rt: HostRuntime) {
    assert!(rt; assert_damaged(&rt, WORLD_USE.bytes));
}
