//! Definitions that wait for their parts.

ghost use Rattle.std.specs.Prelude.{◌≡◌, []};

use std::alloc::Global;
use wac_binary::ComponentValType;
use wac_types_collection::DefinedTypeId;

/// A value type as it is written, or the definition that must be written first.
#[derive(Clone, Copy)]
pub(crate) enum Part {
    /// The value type as it is written.
    Written(ComponentValType),
    /// The definition that must be written first.
    Missing(DefinedTypeId),
}

/// A definition that waits for its parts.
pub(crate) struct Task {
    /// The definition.
    pub(crate) id: DefinedTypeId,
    /// The first parts as they are written. An optional part that is missing is `None`.
    pub(crate) parts: Vec<Option<ComponentValType>>,
}

// By hand: a derived `Drop` is proved again wherever one goes out of scope (docs/PROOFS.md, 'Drop').
impl Drop for Task {
    fn drop(self) {
        let Task { id: _, parts: _ } = self;
    }
}

impl Task {
    /// Returns a definition that waits for all its parts.
    pub(crate) fn new(alloc: Global, id: DefinedTypeId) -> Task
        ensures id { result.id ≡ id }
        ensures parts { result.parts.items ≡ [] }
    {
        Task {
            id,
            parts: Vec::new(alloc),
        }
    }
}
