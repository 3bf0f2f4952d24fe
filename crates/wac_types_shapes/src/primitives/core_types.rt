//! Value types of core modules.

/// A reference type of a core module.
#[derive(Clone, Copy, Debug, PartialEq, Eq, Hash)]
pub enum CoreRefType {
    /// A reference to a function.
    FuncRef,
    /// A reference to a value of the host.
    ExternRef,
}

/// A value type of a core module.
#[derive(Clone, Copy, Debug, PartialEq, Eq, Hash)]
pub enum CoreType {
    /// An integer of 32 bits.
    I32,
    /// An integer of 64 bits.
    I64,
    /// A float of 32 bits.
    F32,
    /// A float of 64 bits.
    F64,
    /// A vector of 128 bits.
    V128,
    /// A reference.
    Ref(CoreRefType),
}
