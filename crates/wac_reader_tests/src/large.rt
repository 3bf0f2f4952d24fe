// Components that are nested deep, and sizes and counts that lie.
use crate::asserts::{assert_answered, assert_refused, bytes_of};
use std::process::Abort;
use wac_component::{Feature, ReadError, ReadReason, TextFault};

const PREAMBLE: [u8; 8] = [0x00, 0x61, 0x73, 0x6d, 0x0d, 0x00, 0x01, 0x00];

// A section of types, with one instance type that declares an instance type, and so on, this many deep.
fn nested_types(rt: &(impl Abort + AllocGlobal), depth: u32) -> Vec<u8> {
    let alloc = rt.alloc();
    let mut bytes = Vec::from_array(alloc, PREAMBLE).expect(rt, "bytes");
    let size = depth.saturating_mul(3);
    bytes.push(7).expect(rt, "bytes");
    put_number(rt, &mut bytes, size);
    bytes.push(1).expect(rt, "bytes");
    for _ in 1..depth {
        bytes
            .extend_from_slice(&[0x42, 0x01, 0x01])
            .expect(rt, "bytes");
    }
    bytes.extend_from_slice(&[0x42, 0x00]).expect(rt, "bytes");
    bytes
}

// A number in five bytes.
fn put_number(rt: &impl Abort, bytes: &mut Vec<u8>, number: u32) {
    for k in 0..5u32 {
        let group = ((number >> (7 * k)) & 0x7f) as u8;
        let more = if k < 4 { 0x80 } else { 0 };
        bytes.push(group | more).expect(rt, "bytes");
    }
}

// Components in components, this many in all. Each has one section more than the one in it.
fn nested_components(rt: &(impl Abort + AllocGlobal), depth: u32) -> Vec<u8> {
    let alloc = rt.alloc();
    let mut bytes = Vec::new(alloc);
    for level in 0..depth {
        bytes.extend_from_slice(&PREAMBLE).expect(rt, "bytes");
        let inner = depth.saturating_sub(level).saturating_sub(1);
        if inner > 0 {
            let size = inner.saturating_mul(14).saturating_sub(6);
            bytes.push(4).expect(rt, "bytes");
            put_number(rt, &mut bytes, size);
        }
    }
    bytes
}

// What is nested too deep at this place is refused.
fn too_deep(at: usize) -> ReadError {
    ReadError {
        at,
        reason: ReadReason::Text(TextFault::Unsupported(Feature::TooDeep)),
    }
}

#[test]
fn types_are_read_a_hundred_deep(rt: HostRuntime) {
    for depth in [1, 2, 99, 100] {
        let bytes = nested_types(&rt, depth);
        assert!(rt; assert_answered(&rt, &bytes), "{depth}");
    }
    for depth in [101, 102, 100_000] {
        let bytes = nested_types(&rt, depth);
        assert_refused(&rt, &bytes, too_deep(315));
    }
}

#[test]
fn components_are_read_a_hundred_deep(rt: HostRuntime) {
    for depth in [1, 2, 99, 100] {
        let bytes = nested_components(&rt, depth);
        assert!(rt; assert_answered(&rt, &bytes), "{depth}");
    }
    for depth in [101, 102, 100_000] {
        let bytes = nested_components(&rt, depth);
        assert_refused(&rt, &bytes, too_deep(1400));
    }
}

// Vectors whose count is the largest, each before a byte or none.
const COUNTS: &[&str] = &[
    "0061736d0d0001000705ffffffff0f",
    "0061736d0d0001000706ffffffff0f7f",
    "0061736d0d0001000a05ffffffff0f",
    "0061736d0d0001000806ffffffff0f05",
    "0061736d0d000100050700ffffffff0f00",
    "0061736d0d00010002080100ffffffff0f",
    "0061736d0d00010003060150ffffffff0f",
    "0061736d0d0001000707016dffffffff0f",
];

#[test]
fn counts_that_lie_are_refused(rt: HostRuntime) {
    for text in COUNTS {
        let bytes = bytes_of(&rt, *text);
        assert!(rt; !assert_answered(&rt, &bytes), "{text}");
    }
}
