// Core modules, what they import, and under which names.
use crate::types::adding::Refusal;
use crate::types::asserts::assert_told;
use std::alloc::Global;
use wac_types::*;

fn global(mutable: bool) -> CoreExtern {
    CoreExtern::Global {
        val_type: CoreType::I32,
        mutable,
        shared: false,
    }
}

/// A core module that exports a memory with these limits.
pub fn memory(
    alloc: Global,
    initial: u64,
    maximum: u64,
    shared: bool,
) -> Result<ModuleType, ShapeError> {
    let mut module = ModuleType::new(alloc);
    let memory = CoreExtern::Memory {
        memory64: false,
        shared,
        initial,
        maximum: Some(maximum),
        page_size_log2: None,
    };
    module.export(alloc, "m", memory)?;
    Ok(module)
}

/// A core module that imports functions under these names.
pub fn importing(alloc: Global, names: &[(&str, &str)]) -> Result<ModuleType, Refusal> {
    let mut module_type = ModuleType::new(alloc);
    for (source, name) in names {
        let func = CoreFuncType::new(alloc, &[CoreType::I32], &[])?;
        module_type.import(alloc, source, name, CoreExtern::Func(func))?;
    }
    Ok(module_type)
}

// Imports a global, once more where memory was refused.
fn import(
    module_type: &mut ModuleType,
    alloc: Global,
    source: &str,
    name: &str,
) -> Result<(), ShapeError> {
    match module_type.import(alloc, source, name, global(false)) {
        Err(ShapeError::OutOfMemory) => module_type.import(alloc, source, name, global(false)),
        answer => answer,
    }
}

// A core module that imports globals under these names, each of which is refused when it is asked for again.
fn globals(alloc: Global, names: &[(&str, &str)]) -> Result<ModuleType, ShapeError> {
    let mut module_type = ModuleType::new(alloc);
    for (source, name) in names {
        import(&mut module_type, alloc, source, name)?;
        if import(&mut module_type, alloc, source, name) != Err(ShapeError::NameTwice) {
            return Ok(ModuleType::new(alloc));
        }
    }
    Ok(module_type)
}

// Whether a core module has these imports, in order, each under its module's name and its own.
fn has_imports(module_type: &ModuleType, wanted: &[(&str, &str)]) -> bool {
    for ((name, _), want) in module_type.imports.iter().zip(wanted) {
        if name != *want {
            return false;
        }
    }
    module_type.imports.len() == wanted.len()
}

fn is_held(alloc: Global, module_type: ModuleType) -> Result<bool, Refusal> {
    let mut types = Types::new(alloc);
    let id = types.add_module_type(module_type)?;
    Ok(types.contains(Type::Module(id)))
}

// Whether a global is exported, once more where memory was refused; there is no such export then.
fn is_exported(module_type: &mut ModuleType, alloc: Global, name: &str) -> bool {
    if module_type.export(alloc, name, global(true)).is_ok() {
        return true;
    }
    let is_absent = module_type.exports.get(name).is_none();
    is_absent && module_type.export(alloc, name, global(true)).is_ok()
}

// It imports one name of two modules, each once, and exports it.
fn imports_each_name_of_a_module_once(alloc: Global) -> Result<bool, Refusal> {
    let mut module_type = globals(alloc, &[("m", "a"), ("n", "a")])?;
    let twice = module_type.import(alloc, "m", "a", global(true));
    let exported = is_exported(&mut module_type, alloc, "a");
    let both = module_type.imports.len() == 2;
    Ok(is_held(alloc, module_type)? && both && exported && twice == Err(ShapeError::NameTwice))
}

// An import is found by both its names.
fn finds_by_both_names(alloc: Global) -> Result<bool, Refusal> {
    let given = globals(alloc, &[("m", "f"), ("n", "g"), ("m", "h")])?;
    Ok(given.imports.get("m", "h").is_some() && given.imports.get("n", "f").is_none())
}

// As the standard's binary format lists them: no module's imports are brought together.
fn keeps_the_order(alloc: Global) -> Result<bool, Refusal> {
    let given = globals(alloc, &[("m", "f"), ("n", "g"), ("m", "h")])?;
    let kept = has_imports(&given, &[("m", "f"), ("n", "g"), ("m", "h")]);
    let copy = given.clone()?;
    let grouped = globals(alloc, &[("m", "f"), ("m", "h"), ("n", "g")])?;
    Ok(kept && copy == given && grouped != given)
}

const NAMES: &[(&str, &str)] = &[("m", "f"), ("n", "g"), ("m", "h"), ("o", "f"), ("n", "f")];

// A refused import changes nothing.
fn keeps_what_was_imported(alloc: Global) -> Result<bool, Refusal> {
    Ok(has_imports(&globals(alloc, NAMES)?, NAMES))
}

#[test]
fn core_modules_keep_their_imports(rt: HostRuntime) {
    let alloc = rt.alloc();
    let first = imports_each_name_of_a_module_once(alloc);
    let second = imports_each_name_of_a_module_once(alloc);
    assert_told(&rt, first, second, "each once");
    let (first, second) = (finds_by_both_names(alloc), finds_by_both_names(alloc));
    assert_told(&rt, first, second, "by both names");
    let (first, second) = (keeps_the_order(alloc), keeps_the_order(alloc));
    assert_told(&rt, first, second, "in order");
    let (first, second) = (
        keeps_what_was_imported(alloc),
        keeps_what_was_imported(alloc),
    );
    assert_told(&rt, first, second, "refused");
}
