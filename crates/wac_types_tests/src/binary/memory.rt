//! Writers where memory is refused.

use std::alloc::Global;
use std::process::Abort;
use wac_binary::{
    BinaryFault, ComponentBuilder, ComponentType, Description, InstanceType, Sort, component_names,
    producers,
};

// A component type that imports a resource.
fn importing(alloc: Global) -> Result<ComponentType, BinaryFault> {
    let mut ty = ComponentType::new(alloc);
    ty.import("x", Description::Fresh)?;
    Ok(ty)
}

// The bytes of a component with this type alone.
fn written(alloc: Global, ty: &ComponentType) -> Result<Vec<u8>, BinaryFault> {
    let mut builder = ComponentBuilder::new(alloc);
    builder.component_type(ty)?;
    builder.into_bytes()
}

// Whether a type is as it was when these bytes were written of it.
fn is_as_before(alloc: Global, ty: &ComponentType, before: &[u8]) -> Result<bool, BinaryFault> {
    let bytes = written(alloc, ty)?;
    Ok(bytes.as_slice() == before)
}

// An instance type is declared in a component type. If memory is refused, the component type is as before.
fn instance_type_is_taken(alloc: Global) -> Result<bool, BinaryFault> {
    let mut ty = importing(alloc)?;
    let before = written(alloc, &ty)?;
    if ty.take_instance_type(InstanceType::new(alloc)).is_err() {
        return is_as_before(alloc, &ty, &before);
    }
    Ok(!is_as_before(alloc, &ty, &before)?)
}

// A component type is declared in a component type. If memory is refused, the other one is as before.
fn component_type_is_taken(alloc: Global) -> Result<bool, BinaryFault> {
    let mut ty = importing(alloc)?;
    let before = written(alloc, &ty)?;
    if ty.take_component_type(ComponentType::new(alloc)).is_err() {
        return is_as_before(alloc, &ty, &before);
    }
    Ok(!is_as_before(alloc, &ty, &before)?)
}

fn processor_is_named(alloc: Global) -> Result<bool, BinaryFault> {
    let bytes = producers(alloc, "x", "1")?;
    Ok(bytes.len() == 19)
}

fn functions_are_named(alloc: Global) -> Result<bool, BinaryFault> {
    let bytes = component_names(alloc, &[(Sort::Func, 0, "n")])?;
    Ok(bytes.as_slice() == [0x01, 0x05, 0x01, 0x01, 0x00, 0x01, 0x6e].as_slice())
}

// What is told is true. It is told twice, since the first time memory may be refused.
fn assert_told(
    rt: &impl Abort,
    first: Result<bool, BinaryFault>,
    second: Result<bool, BinaryFault>,
    what: &str,
) {
    let told = match first {
        Err(BinaryFault::OutOfMemory) => second,
        _ => first,
    };
    assert!(rt; told == Ok(true), "{what}");
}

#[test]
fn a_refused_call_leaves_what_was_written(rt: HostRuntime) {
    let alloc = rt.alloc();
    let (first, second) = (instance_type_is_taken(alloc), instance_type_is_taken(alloc));
    assert_told(&rt, first, second, "an instance type");
    let (first, second) = (
        component_type_is_taken(alloc),
        component_type_is_taken(alloc),
    );
    assert_told(&rt, first, second, "a component type");
    let (first, second) = (processor_is_named(alloc), processor_is_named(alloc));
    assert_told(&rt, first, second, "a processor");
    let (first, second) = (functions_are_named(alloc), functions_are_named(alloc));
    assert_told(&rt, first, second, "a name of a function");
}

// `tools/refused` refuses this test all growths from one on, so that what follows the last has no memory.
#[test]
fn writers_are_begun_without_memory(rt: HostRuntime) {
    let _ = String::from_str(rt.alloc(), "the last growth");
    let _builder = ComponentBuilder::new(rt.alloc());
    let _ty = ComponentType::new(rt.alloc());
    let ty = InstanceType::new(rt.alloc());
    assert!(rt; ty.has_room_for_export("x", Description::Fresh));
}
