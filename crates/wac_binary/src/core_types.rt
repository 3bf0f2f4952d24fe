//! Types of what a core module imports and exports.

use wac_types_shapes::{CoreRefType, CoreType};

/// The type of a table.
#[derive(Clone, Copy, Debug)]
pub struct TableType {
    /// The type of its elements.
    pub element_type: CoreRefType,
    /// Whether its indexes have 64 bits.
    pub table64: bool,
    /// The minimum number of elements.
    pub minimum: u64,
    /// The maximum number of elements, if there is one.
    pub maximum: Option<u64>,
    /// Whether it is shared between threads.
    pub shared: bool,
}

/// The type of a memory.
#[derive(Clone, Copy, Debug)]
pub struct MemoryType {
    /// The minimum number of pages.
    pub minimum: u64,
    /// The maximum number of pages, if there is one.
    pub maximum: Option<u64>,
    /// Whether its addresses have 64 bits.
    pub memory64: bool,
    /// Whether it is shared between threads.
    pub shared: bool,
    /// The binary logarithm of the page size, if it is not the default of 64 KiB.
    pub page_size_log2: Option<u32>,
}

/// The type of a global.
#[derive(Clone, Copy, Debug)]
pub struct GlobalType {
    /// The type of its value.
    pub val_type: CoreType,
    /// Whether it can be set.
    pub mutable: bool,
    /// Whether it is shared between threads.
    pub shared: bool,
}

/// The type of an import or export of a core module.
#[derive(Clone, Copy, Debug)]
pub enum EntityType {
    /// A function of the function type with this index in the module type.
    Function(u32),
    /// A table.
    Table(TableType),
    /// A memory.
    Memory(MemoryType),
    /// A global.
    Global(GlobalType),
    /// A tag of the function type with this index in the module type.
    Tag(u32),
}
