//! The parts of a component as a file has them, and the grammar of their text.
//!
//! [`Parts`] borrows from the bytes of the file: names, core modules and custom sections are not copied. `specs/` says
//! which parts bytes are the text of.
#![tactic(auto)]

mod aliases;
mod canons;
mod cores;
mod error;
mod fault;
mod listing;
mod parts;
mod resources;
mod types;

pub use aliases::AnyAlias;
pub use canons::{Canon, CanonOption, Operand};
pub use cores::{CoreArgument, CoreDecl, CoreExport, CoreInstance, CoreSort, CoreTypeDef};
pub use error::{ReadError, ReadReason};
pub use fault::{Feature, TextFault};
pub use parts::{Argument, Entry, InlineExport, Part, Parts};
pub use resources::ResourceDef;
pub use types::{Alias, Decl, ModuleDecl, TypeDef, ValueDef};
