// Custom sections: the processor, and names.
use crate::binary::writers::assert_written;
use std::alloc::Global;
use wac_binary::{BinaryFault, ComponentBuilder, Sort, component_names, producers};

// The component with one custom section.
fn with_section(alloc: Global, name: &str, bytes: &[u8]) -> Result<Vec<u8>, BinaryFault> {
    let mut b = ComponentBuilder::new(alloc);
    b.custom(name, bytes)?;
    b.finish()
}

const PROCESSOR: &[&str] = &[
    "0061736d0d000100", // the preamble
    "001d0970726f647563657273010c",
    "70726f6365737365642d62790101",
    "780131",
];

#[test]
fn writes_the_processor_x_with_the_version_1(rt: HostRuntime) {
    let bytes = producers(rt.alloc(), "x", "1").expect(&rt, "bytes");
    let written = with_section(rt.alloc(), "producers", bytes.as_slice());
    assert_written(&rt, rt.alloc(), written, PROCESSOR, "a processor");
}

const NAME: &[&str] = &[
    "0061736d0d000100", // the preamble
    "00160e636f6d706f6e656e742d6e",
    "616d650105010100016e",
];

#[test]
fn writes_the_name_n_of_function_0(rt: HostRuntime) {
    let bytes = component_names(rt.alloc(), &[(Sort::Func, 0, "n")]).expect(&rt, "bytes");
    let written = with_section(rt.alloc(), "component-name", bytes.as_slice());
    assert_written(&rt, rt.alloc(), written, NAME, "a name");
}

const NAMES: &[(Sort, u32, &str)] = &[
    (Sort::Value, 0, "v"),
    (Sort::CoreModule, 1, "m"),
    (Sort::Component, 2, "c"),
    (Sort::Instance, 3, "i"),
    (Sort::Func, 4, "f"),
    (Sort::Type, 5, "t"),
    (Sort::Func, 200, "g"),
];

const SUBSECTIONS: &[&str] = &[
    "01050301050174", // a type
    "01090102040166c8010167", // two functions
    "01050501030169", // an instance
    "01050401020163", // a component
    "010600110101016d", // a core module
    "01050201000176", // a value
];

// A subsection for each sort with a name, in the order of the format; no names, no bytes.
#[test]
fn writes_names_of_each_sort(rt: HostRuntime) {
    let none = component_names(rt.alloc(), &[]);
    assert_written(&rt, rt.alloc(), none, &[], "no names");
    let bytes = component_names(rt.alloc(), NAMES);
    assert_written(&rt, rt.alloc(), bytes, SUBSECTIONS, "names of each sort");
}
