//! Unions: interfaces united name by name.
//!
//! The interfaces of one class form a union, and so do the interfaces that a union exports under one name.
use wac_types_collection::{InterfaceId, ItemKind, Named};

/// An interface in a union.
#[derive(Clone, Copy)]
pub struct Part {
    /// The interface.
    pub interface: InterfaceId,
    /// The position of the part whose interface exports this one; `None` in the union of a class.
    pub outer: Option<usize>,
    /// The position of the union.
    pub union: usize,
}

/// An export of a union.
#[derive(Clone, Copy)]
pub struct Export {
    /// The kind that the first part with this name exports.
    pub kind: ItemKind,
    /// The position of that part.
    pub part: usize,
    /// Whether a part has an own resource under the name.
    pub is_own: bool,
    /// The position of the union of the exported interfaces, if the export is an instance or an interface.
    pub inner: Option<usize>,
}

/// Interfaces united name by name.
pub struct Union {
    /// The positions of its parts.
    pub parts: Vec<usize>,
    /// The exports by name, in order of first appearance.
    pub exports: Named<Export>,
}

// By hand: a derived `Drop` is proved again wherever one goes out of scope (docs/PROOFS.md, 'Drop').
impl Drop for Union {
    fn drop(self) {
        let Union {
            parts: _,
            exports: _,
        } = self;
    }
}
