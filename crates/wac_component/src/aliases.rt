//! Aliases in a component.

use crate::cores::CoreSort;
use crate::types::Alias;

/// An alias in a component, which may be of a core sort (`alias`).
#[derive(Clone, Copy, Debug)]
pub enum AnyAlias<'a> {
    /// An alias of a sort of the component.
    Component(Alias<'a>),
    /// An export of a core instance.
    CoreExport {
        /// The sort of the export.
        sort: CoreSort,
        /// The index of the core instance.
        instance: u32,
        /// The name of the export.
        name: &'a str,
    },
    /// A core type of an enclosing component.
    OuterCoreType {
        /// The number of scopes to leave.
        count: u32,
        /// The index there.
        index: u32,
    },
}
