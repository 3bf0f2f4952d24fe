//! The parts of a component. Names, core modules and custom sections are borrowed from the bytes.

use crate::aliases::AnyAlias;
use crate::canons::Canon;
use crate::cores::{CoreInstance, CoreTypeDef};
use crate::resources::ResourceDef;
use crate::types::TypeDef;
use wac_binary::{Description, Sort};

/// An argument of an instantiation (`instantiatearg`).
#[derive(Clone, Copy, Debug)]
pub struct Argument<'a> {
    /// The name of the argument.
    pub name: &'a str,
    /// The sort of what is passed.
    pub sort: Sort,
    /// The index of what is passed.
    pub index: u32,
}

/// An export of an instance that is made of exports (`inlineexport`).
#[derive(Clone, Copy, Debug)]
pub struct InlineExport<'a> {
    /// The name of the export.
    pub name: &'a str,
    /// The sort of what is exported.
    pub sort: Sort,
    /// The index of what is exported.
    pub index: u32,
}

/// A part of a component: one element of a section, or a whole section of the ids 0, 1 and 4.
#[derive(Debug, Drop)]
pub enum Part<'a> {
    /// A custom section, with its name and its contents.
    Custom(&'a str, &'a [u8]),
    /// A core module, with its bytes.
    CoreModule(&'a [u8]),
    /// A core instance.
    CoreInstance(CoreInstance<'a>),
    /// A core type.
    // In a box: it is rare, and would make each part larger.
    CoreType(Box<CoreTypeDef<'a>>),
    /// A nested component, with its parts.
    Component(Vec<Entry<Part<'a>>>),
    /// An instance of a component.
    Instantiate {
        /// The index of the component.
        component: u32,
        /// The arguments.
        arguments: Vec<Argument<'a>>,
    },
    /// An instance that is made of exports.
    Exports(Vec<InlineExport<'a>>),
    /// An alias.
    Alias(AnyAlias<'a>),
    /// A type.
    Type(TypeDef<'a>),
    /// A resource type.
    Resource(ResourceDef),
    /// A canonical function.
    Canon(Canon),
    /// An import, with its name and description.
    Import(&'a str, Description),
    /// An export.
    Export {
        /// The name of the export.
        name: &'a str,
        /// The sort of what is exported.
        sort: Sort,
        /// The index of what is exported.
        index: u32,
        /// The description that the export is given, if there is one.
        ascription: Option<Description>,
    },
}

/// A part and its place in the file. `P` is [`Part`].
// A parameter: a part has a fold in specs/ only if it contains itself without a second type of its own.
#[derive(Debug, Drop)]
pub struct Entry<P> {
    /// The offset of the first byte of the part.
    pub at: usize,
    /// The part.
    pub part: P,
}

/// The parts of a component, in the order of its file.
#[derive(Debug, Drop)]
pub struct Parts<'a> {
    /// The parts, each with its place.
    pub entries: Vec<Entry<Part<'a>>>,
}
