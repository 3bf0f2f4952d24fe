//! Types and their declarations: sizes, bytes, and the writers of component, instance and core module types.
//!
//! The size of a declaration is checked before it is written. So `TooLarge` is found before a buffer grows.

mod buffer;
pub mod component_type;
mod core_decl;
mod core_size;
pub mod decl;
pub mod declarations;
pub mod instance_type;
pub mod module_type;
mod put_types;
mod shared;
pub mod size;
pub mod type_size;
pub mod type_writer;

pub use component_type::ComponentType;
pub use instance_type::InstanceType;
pub use module_type::ModuleType;
