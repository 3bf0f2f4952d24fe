//! A listing of a component's parts, a line each.

mod spaces;
mod types;

use crate::aliases::AnyAlias;
use crate::canons::{Canon, CanonOption, Operand};
use crate::cores::{CoreArgument, CoreDecl, CoreExport, CoreInstance, CoreSort, CoreTypeDef};
use crate::listing::spaces::{Space, Spaces, core_space, described_space, space_of};
use crate::listing::types::{alias_sort, put_core_types, put_module, put_type, put_value};
use crate::parts::{Argument, Entry, InlineExport, Part, Parts};
use crate::resources::ResourceDef;
use std::fmt;
use wac_binary::{Description, Sort};

/// How deep the declarations of types are listed: as deep as they are read.
const DEPTH: u32 = 100;

/// Writes a line for each part: its offset, the index that it adds, and what it is. The parts of a nested component
/// follow its line, indented.
impl fmt::Display for Parts<'_> {
    fn fmt<W: fmt::Write>(&self, f: &mut fmt::Formatter<W>) -> fmt::Result {
        put_parts(f, &self.entries, 0)
    }
}

/// Writes the lines of parts.
#[cycle(lists)]
fn put_parts<W: fmt::Write>(
    f: &mut fmt::Formatter<W>,
    entries: &[Entry<Part<'_>>],
    indent: usize,
) -> fmt::Result {
    let mut spaces = Spaces::new();
    for entry in entries {
        write!(f, "{:08x} ", entry.at)?;
        put_indent(f, indent)?;
        put_part(f, &entry.part, &mut spaces, indent)?;
    }
    Ok(())
}

/// Writes two spaces for each level.
pub fn put_indent<W: fmt::Write>(f: &mut fmt::Formatter<W>, indent: usize) -> fmt::Result {
    for _ in 0..indent {
        f.write_str("  ")?;
    }
    Ok(())
}

/// Writes the line of a part, and those of a nested component.
#[cycle(lists)]
fn put_part<W: fmt::Write>(
    f: &mut fmt::Formatter<W>,
    part: &Part<'_>,
    spaces: &mut Spaces,
    indent: usize,
) -> fmt::Result {
    match part {
        Part::Component(entries) => {
            put_index(f, spaces, Space::Component)?;
            f.write_str("\n")?;
            put_parts(f, entries, indent.saturating_add(1))
        }
        Part::Type(definition) => {
            put_index(f, spaces, Space::Type)?;
            f.write_str(": ")?;
            put_type(f, definition, indent.saturating_add(1), DEPTH)
        }
        Part::CoreType(definition) => {
            put_index(f, spaces, Space::CoreType)?;
            f.write_str(": ")?;
            put_core_type(f, definition, indent.saturating_add(1))
        }
        _ => {
            put_simple(f, part, spaces)?;
            f.write_str("\n")
        }
    }
}

/// Writes a part that is one line, without the end of the line.
fn put_simple<W: fmt::Write>(
    f: &mut fmt::Formatter<W>,
    part: &Part<'_>,
    spaces: &mut Spaces,
) -> fmt::Result {
    match part {
        Part::Custom(name, bytes) => write!(f, "custom {name:?}: {} bytes", bytes.len()),
        Part::CoreModule(bytes) => {
            put_index(f, spaces, Space::CoreModule)?;
            write!(f, ": {} bytes", bytes.len())
        }
        Part::CoreInstance(instance) => {
            put_index(f, spaces, Space::CoreInstance)?;
            put_core_instance(f, instance)
        }
        Part::Alias(alias) => put_alias(f, *alias, spaces),
        Part::Resource(resource) => {
            put_index(f, spaces, Space::Type)?;
            put_resource(f, *resource)
        }
        Part::Canon(canon) => put_canon(f, canon, spaces),
        _ => put_item(f, part, spaces),
    }
}

/// Writes an instance, an import or an export.
fn put_item<W: fmt::Write>(
    f: &mut fmt::Formatter<W>,
    part: &Part<'_>,
    spaces: &mut Spaces,
) -> fmt::Result {
    match part {
        Part::Instantiate {
            component,
            arguments,
        } => {
            put_index(f, spaces, Space::Instance)?;
            put_instantiation(f, *component, arguments)
        }
        Part::Exports(exports) => {
            put_index(f, spaces, Space::Instance)?;
            put_exports(f, exports)
        }
        Part::Import(name, description) => {
            put_index(f, spaces, described_space(*description))?;
            write!(f, ": import {name:?}")?;
            put_description(f, *description)
        }
        Part::Export {
            name,
            sort,
            index,
            ascription,
        } => {
            put_index(f, spaces, space_of(*sort))?;
            put_export(f, name, *sort, *index, *ascription)
        }
        _ => Ok(()),
    }
}

/// Writes an instance of a component, with its arguments.
fn put_instantiation<W: fmt::Write>(
    f: &mut fmt::Formatter<W>,
    component: u32,
    arguments: &[Argument<'_>],
) -> fmt::Result {
    write!(f, ": instantiate component {component}")?;
    for Argument { name, sort, index } in arguments {
        put_named(f, name, *sort, *index)?;
    }
    Ok(())
}

/// Writes an instance that is made of exports.
fn put_exports<W: fmt::Write>(
    f: &mut fmt::Formatter<W>,
    exports: &[InlineExport<'_>],
) -> fmt::Result {
    f.write_str(": exports")?;
    for InlineExport { name, sort, index } in exports {
        put_named(f, name, *sort, *index)?;
    }
    Ok(())
}

/// Writes an export, with the description that it is given.
fn put_export<W: fmt::Write>(
    f: &mut fmt::Formatter<W>,
    name: &str,
    sort: Sort,
    index: u32,
    ascription: Option<Description>,
) -> fmt::Result {
    write!(f, ": export {name:?} {} {index}", space_of(sort).name())?;
    match ascription {
        Some(description) => put_description(f, description),
        None => Ok(()),
    }
}

/// Writes the next index of a space.
pub fn put_index<W: fmt::Write>(
    f: &mut fmt::Formatter<W>,
    spaces: &mut Spaces,
    space: Space,
) -> fmt::Result {
    let index = spaces.next(space);
    write!(f, "{} {index}", space.name())
}

/// Writes what a core instance is.
fn put_core_instance<W: fmt::Write>(
    f: &mut fmt::Formatter<W>,
    instance: &CoreInstance<'_>,
) -> fmt::Result {
    match instance {
        CoreInstance::Instantiate {
            core_module,
            arguments,
        } => {
            write!(f, ": instantiate core module {core_module}")?;
            for CoreArgument { name, instance } in arguments {
                write!(f, ", {name:?} core instance {instance}")?;
            }
            Ok(())
        }
        CoreInstance::Exports(exports) => {
            f.write_str(": exports")?;
            for CoreExport { name, sort, index } in exports {
                write!(f, ", {name:?} {} {index}", core_space(*sort).name())?;
            }
            Ok(())
        }
    }
}

/// Writes a name with its sort and index.
fn put_named<W: fmt::Write>(
    f: &mut fmt::Formatter<W>,
    name: &str,
    sort: Sort,
    index: u32,
) -> fmt::Result {
    write!(f, ", {name:?} {} {index}", sort_name(sort))
}

/// Writes an alias.
fn put_alias<W: fmt::Write>(
    f: &mut fmt::Formatter<W>,
    alias: AnyAlias<'_>,
    spaces: &mut Spaces,
) -> fmt::Result {
    match alias {
        AnyAlias::Component(alias) => {
            put_index(f, spaces, space_of(alias_sort(&alias)))?;
            write!(f, ": {alias}")
        }
        AnyAlias::CoreExport {
            sort,
            instance,
            name,
        } => {
            put_index(f, spaces, core_space(sort))?;
            write!(f, ": core instance {instance} {name:?}")
        }
        AnyAlias::OuterCoreType { count, index } => {
            put_index(f, spaces, Space::CoreType)?;
            write!(f, ": outer {count} core type {index}")
        }
    }
}

/// Writes a resource type.
fn put_resource<W: fmt::Write>(f: &mut fmt::Formatter<W>, resource: ResourceDef) -> fmt::Result {
    f.write_str(": resource")?;
    match resource {
        ResourceDef::Plain { destructor, .. } => match destructor {
            Some(function) => write!(f, ", destructor core func {function}"),
            None => Ok(()),
        },
        ResourceDef::Async {
            destructor,
            callback,
            ..
        } => {
            write!(f, ", async destructor core func {destructor}")?;
            match callback {
                Some(function) => write!(f, ", callback core func {function}"),
                None => Ok(()),
            }
        }
    }
}

/// Writes a canonical function.
fn put_canon<W: fmt::Write>(
    f: &mut fmt::Formatter<W>,
    canon: &Canon,
    spaces: &mut Spaces,
) -> fmt::Result {
    match canon {
        Canon::Lift {
            function,
            options,
            type_index,
        } => {
            put_index(f, spaces, Space::Func)?;
            write!(f, ": lift core func {function} type {type_index}")?;
            put_options(f, options)
        }
        Canon::Lower { function, options } => {
            put_index(f, spaces, Space::CoreFunc)?;
            write!(f, ": lower func {function}")?;
            put_options(f, options)
        }
        Canon::Builtin { opcode, operands } => {
            put_index(f, spaces, Space::CoreFunc)?;
            write!(f, ": {}", builtin_name(*opcode))?;
            for operand in operands {
                put_operand(f, operand)?;
            }
            Ok(())
        }
    }
}

/// Writes the options of a canonical function.
fn put_options<W: fmt::Write>(f: &mut fmt::Formatter<W>, options: &[CanonOption]) -> fmt::Result {
    for option in options {
        match option {
            CanonOption::Utf8 => f.write_str(", utf8")?,
            CanonOption::Utf16 => f.write_str(", utf16")?,
            CanonOption::Latin1Utf16 => f.write_str(", latin1+utf16")?,
            CanonOption::Memory(index) => write!(f, ", memory {index}")?,
            CanonOption::Realloc(index) => write!(f, ", realloc {index}")?,
            CanonOption::PostReturn(index) => write!(f, ", post-return {index}")?,
            CanonOption::Async => f.write_str(", async")?,
            CanonOption::Callback(index) => write!(f, ", callback {index}")?,
            CanonOption::CoreType(index) => write!(f, ", core type {index}")?,
            CanonOption::Gc => f.write_str(", gc")?,
        }
    }
    Ok(())
}

/// Writes an operand of a built-in.
fn put_operand<W: fmt::Write>(f: &mut fmt::Formatter<W>, operand: &Operand) -> fmt::Result {
    match operand {
        Operand::Type(index) => write!(f, " type {index}"),
        Operand::CoreType(index) => write!(f, " core type {index}"),
        Operand::Table(index) => write!(f, " core table {index}"),
        Operand::Memory(index) => write!(f, " core memory {index}"),
        Operand::Flag(true) => f.write_str(" 1"),
        Operand::Flag(false) => f.write_str(" 0"),
        Operand::Result(Some(value)) => {
            f.write_str(" -> ")?;
            put_value(f, *value)
        }
        Operand::Result(None) => Ok(()),
        Operand::Slot(slot_type, slot) => {
            f.write_str(" ")?;
            put_core_types(f, &[*slot_type])?;
            write!(f, " {slot}")
        }
        Operand::Options(options) => put_options(f, options),
    }
}

/// Returns the name of a built-in (Explainer.md, "Canonical Built-ins").
fn builtin_name(opcode: u8) -> &'static str {
    match opcode {
        0x02 => "resource.new",
        0x03 => "resource.drop",
        0x04 => "resource.rep",
        0x05 => "task.cancel",
        0x06 => "subtask.cancel",
        0x07 => "resource.drop async",
        0x08 => "backpressure.set",
        0x09 => "task.return",
        0x0a => "context.get",
        0x0b => "context.set",
        0x0c => "thread.yield",
        0x0d => "subtask.drop",
        0x0e => "stream.new",
        0x0f => "stream.read",
        0x10 => "stream.write",
        0x11 => "stream.cancel-read",
        0x12 => "stream.cancel-write",
        0x13 => "stream.drop-readable",
        0x14 => "stream.drop-writable",
        0x15 => "future.new",
        0x16 => "future.read",
        0x17 => "future.write",
        0x18 => "future.cancel-read",
        0x19 => "future.cancel-write",
        0x1a => "future.drop-readable",
        0x1b => "future.drop-writable",
        _ => later_name(opcode),
    }
}

/// Returns the name of a built-in from 0x1c on.
fn later_name(opcode: u8) -> &'static str {
    match opcode {
        0x1c => "error-context.new",
        0x1d => "error-context.debug-message",
        0x1e => "error-context.drop",
        0x1f => "waitable-set.new",
        0x20 => "waitable-set.wait",
        0x21 => "waitable-set.poll",
        0x22 => "waitable-set.drop",
        0x23 => "waitable.join",
        0x24 => "backpressure.inc",
        0x25 => "backpressure.dec",
        0x26 => "thread.index",
        0x27 => "thread.new-indirect",
        0x28 => "thread.switch-to",
        0x29 => "thread.suspend",
        0x2a => "thread.resume-later",
        0x2b => "thread.yield-to",
        0x40 => "thread.spawn-ref",
        0x41 => "thread.spawn-indirect",
        0x42 => "thread.available-parallelism",
        _ => "a built-in",
    }
}

/// Writes the definition of a core type.
fn put_core_type<W: fmt::Write>(
    f: &mut fmt::Formatter<W>,
    definition: &CoreTypeDef<'_>,
    indent: usize,
) -> fmt::Result {
    match definition {
        CoreTypeDef::Func { params, results } => {
            f.write_str("func (")?;
            put_core_types(f, params)?;
            f.write_str(") -> (")?;
            put_core_types(f, results)?;
            f.write_str(")\n")
        }
        CoreTypeDef::Module(declarations) => {
            f.write_str("module\n")?;
            for declaration in declarations {
                f.write_str("         ")?;
                put_indent(f, indent)?;
                match declaration {
                    CoreDecl::Module(declaration) => put_module(f, declaration)?,
                    CoreDecl::Outer { count, index } => {
                        write!(f, "outer {count} core type {index}\n")?;
                    }
                }
            }
            Ok(())
        }
    }
}

/// Writes the description of an import or export.
pub fn put_description<W: fmt::Write>(
    f: &mut fmt::Formatter<W>,
    description: Description,
) -> fmt::Result {
    match description {
        Description::CoreModule(index) => write!(f, ": core type {index}"),
        Description::Func(index) | Description::Component(index) | Description::Instance(index) =>
            write!(f, ": type {index}"),
        Description::Equal(index) => write!(f, " = type {index}"),
        Description::Fresh => f.write_str(": a resource"),
    }
}

/// Returns the word of a sort.
pub fn sort_name(sort: Sort) -> &'static str {
    space_of(sort).name()
}
