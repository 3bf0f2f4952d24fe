//! Canonical functions.

use wac_binary::ComponentValType;
use wac_types_shapes::CoreType;

/// An option of a canonical function (`canonopt`).
#[derive(Clone, Copy, Debug, PartialEq, Eq)]
pub enum CanonOption {
    /// Strings are UTF-8.
    Utf8,
    /// Strings are UTF-16.
    Utf16,
    /// Strings are Latin-1 or UTF-16.
    Latin1Utf16,
    /// The memory with this core memory index.
    Memory(u32),
    /// The core function with this index allocates memory.
    Realloc(u32),
    /// The core function with this index is called after the function returns.
    PostReturn(u32),
    /// The function is async.
    Async,
    /// The core function with this index is the callback of an async function.
    Callback(u32),
    /// The core function type with this core type index.
    CoreType(u32),
    /// Values are of garbage collection.
    Gc,
}

/// An operand of a canonical built-in.
#[derive(Debug, Drop)]
pub enum Operand {
    /// A type index.
    Type(u32),
    /// A core type index.
    CoreType(u32),
    /// A core table index.
    Table(u32),
    /// A core memory index.
    Memory(u32),
    /// Whether the built-in is async, can be cancelled, or is shared between threads.
    Flag(bool),
    /// The type of the result, if there is one.
    Result(Option<ComponentValType>),
    /// The type and the number of a slot of `context.get` and `context.set`.
    Slot(CoreType, u32),
    /// Options.
    Options(Vec<CanonOption>),
}

/// A canonical function (`canon`).
#[derive(Debug, Drop)]
pub enum Canon {
    /// A function that is lifted from a core function.
    Lift {
        /// The index of the core function.
        function: u32,
        /// The options.
        options: Vec<CanonOption>,
        /// The type index of the function.
        type_index: u32,
    },
    /// A core function that is lowered from a function.
    Lower {
        /// The index of the function.
        function: u32,
        /// The options.
        options: Vec<CanonOption>,
    },
    /// A built-in: a core function.
    Builtin {
        /// The opcode of the built-in.
        opcode: u8,
        /// The operands.
        operands: Vec<Operand>,
    },
}
