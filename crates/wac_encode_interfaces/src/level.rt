//! A level of interfaces inside interfaces.

use wac_types_collection::InterfaceId;

/// An interface whose instance type is open: the order of its items, and how many of them are exported.
#[derive(Drop)]
pub(crate) struct Level {
    /// The interface.
    pub(crate) interface: InterfaceId,
    /// Whether its types only are exported.
    pub(crate) types_only: bool,
    /// The positions of its items, after the own resources, in order.
    pub(crate) order: Vec<usize>,
    /// The number of these items that are exported.
    pub(crate) next: usize,
}
