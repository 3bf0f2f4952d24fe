//! Tables of roots: what a component imports and defines, and its bytes.

pub mod definitions;
pub mod inside;
pub mod merges;
pub mod names;
pub mod resources;
pub mod sorts;
pub mod told;

use crate::rows::{Item, Row};

/// A component of types that the rows add.
pub struct RootRow {
    /// What the row shows.
    pub name: &'static str,
    /// The types.
    pub rows: &'static [Row],
    /// The imports, in order.
    pub imports: &'static [Item],
    /// The places of the types that are defined after the imports, in order.
    pub definitions: &'static [usize],
    /// The bytes after the preamble.
    pub want: &'static [u8],
}
