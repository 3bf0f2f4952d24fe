//! The sides of component types.

use indexmap::IndexMap;
use wac_types_collection::{InterfaceId, ItemKind, Named, ResourceId, UsedType};

/// The imports and exports of a component type.
#[derive(Clone, Copy)]
pub struct Sides<'a> {
    /// The imports.
    pub imports: &'a Named<ItemKind>,
    /// The interfaces that are imported in addition, under their ids and with their types only.
    pub additional: &'a [InterfaceId],
    /// The exports.
    pub exports: &'a Named<ItemKind>,
    /// What the world of the imports and exports uses.
    pub uses: &'a Named<UsedType>,
}

/// The imports and exports of a component type, and which of them bind resources.
#[derive(Clone, Copy)]
pub(crate) struct Parts<'a> {
    /// What the world of the imports and exports uses.
    pub(crate) uses: &'a Named<UsedType>,
    /// The imports that are not additional.
    pub(crate) listed: &'a Named<ItemKind>,
    /// All imports. The additional ones come last.
    pub(crate) imports: &'a Named<ItemKind>,
    /// The exports.
    pub(crate) exports: &'a Named<ItemKind>,
    /// The number of the import or export that binds each resource. Imports come first.
    pub(crate) owners: &'a IndexMap<ResourceId, usize>,
}
