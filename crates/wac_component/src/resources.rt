//! Resource types.

use wac_types_shapes::CoreType;

/// The definition of a resource type (`resourcetype`).
#[derive(Clone, Copy, Debug)]
pub enum ResourceDef {
    /// A resource type whose destructor, if it has one, is not async.
    Plain {
        /// The core type that represents the resource.
        representation: CoreType,
        /// The index of the core function that is its destructor.
        destructor: Option<u32>,
    },
    /// A resource type whose destructor is async.
    Async {
        /// The core type that represents the resource.
        representation: CoreType,
        /// The index of the core function that is its destructor.
        destructor: u32,
        /// The index of the core function that is the callback of its destructor.
        callback: Option<u32>,
    },
}
