//! The sides of a type.

/// The side of a type to which an item belongs.
#[derive(Clone, Copy)]
pub enum Side {
    /// The imports of the type.
    Import,
    /// The exports of the type.
    Export,
}
