//! Core sorts, core instances and core types.

use crate::types::ModuleDecl;
use wac_types_shapes::CoreType;

/// A core sort (`core:sort`).
#[derive(Clone, Copy, Debug, PartialEq, Eq)]
pub enum CoreSort {
    /// Functions.
    Func,
    /// Tables.
    Table,
    /// Memories.
    Memory,
    /// Globals.
    Global,
    /// Tags.
    Tag,
    /// Types.
    Type,
    /// Modules.
    Module,
    /// Instances.
    Instance,
}

/// An argument of a core instantiation: a core instance, by name (`core:instantiatearg`).
#[derive(Clone, Copy, Debug)]
pub struct CoreArgument<'a> {
    /// The name of the argument.
    pub name: &'a str,
    /// The index of the core instance.
    pub instance: u32,
}

/// An export of a core instance that is made of exports (`core:inlineexport`).
#[derive(Clone, Copy, Debug)]
pub struct CoreExport<'a> {
    /// The name of the export.
    pub name: &'a str,
    /// The sort of the export.
    pub sort: CoreSort,
    /// The index of what is exported.
    pub index: u32,
}

/// A core instance (`core:instanceexpr`).
#[derive(Debug, Drop)]
pub enum CoreInstance<'a> {
    /// An instance of a core module.
    Instantiate {
        /// The index of the core module.
        core_module: u32,
        /// The arguments.
        arguments: Vec<CoreArgument<'a>>,
    },
    /// An instance that is made of exports.
    Exports(Vec<CoreExport<'a>>),
}

/// A declaration of a core module type of a component (`core:moduledecl`).
#[derive(Debug, Drop)]
pub enum CoreDecl<'a> {
    /// An import, a function type or an export.
    Module(ModuleDecl<'a>),
    /// An alias of a core type of an enclosing component.
    Outer {
        /// The number of scopes to leave.
        count: u32,
        /// The index there.
        index: u32,
    },
}

/// The definition of a core type (`core:type`).
#[derive(Debug, Drop)]
pub enum CoreTypeDef<'a> {
    /// A module type, with its declarations.
    Module(Vec<CoreDecl<'a>>),
    /// A function type.
    Func {
        /// The types of the parameters.
        params: Vec<CoreType>,
        /// The types of the results.
        results: Vec<CoreType>,
    },
}
