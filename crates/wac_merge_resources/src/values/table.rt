//! A table of the exports of value types. Each value type has the export that binds it.
ghost use Rattle.std.specs.Prelude.{◌≡◌, [], IfOk, OnOk, string_bytes};
ghost use Rattle.std.specs.Option.{option_copied, option_map};
ghost use Rattle.wac_merge_classes.specs.private.terms.ValueBindings.{find_value};
ghost use Rattle.wac_merge_resources.specs.private.values.Listings.{Takes, comes_before, found, listing_view, only, path_of, stays};

use indexmap::IndexMap;
use std::alloc::{AllocError, Global};
use std::marker::Model;
use wac_types_collection::DefinedTypeId;

/// An export of a value type.
#[derive(Drop)]
pub(crate) struct Listing {
    /// Whether the interface uses the type from another one.
    pub(crate) is_used: bool,
    /// The number of the class.
    pub(crate) class: usize,
    /// The name; `None` if the class itself is the type.
    pub(crate) name: Option<String>,
}

/// Returns whether an export precedes a listing: exports that are not used come first, then lower classes.
fn comes_before(is_used: bool, class: usize, listing: &Listing) -> bool
    ensures { result ≡ comes_before (found is_used class []) (listing_view listing.now) }
{
    if is_used {
        listing.is_used && class < listing.class
    } else {
        listing.is_used || class < listing.class
    }
}

/// Copies a name, if there is one.
fn owned_name(alloc: Global, name: Option<&str>) -> Result<Option<String>, AllocError>
    ensures { IfOk result (λ owned. option_map string_bytes owned ≡ option_copied name.entry) }
{
    match name {
        Some(text) => Ok(Some(String::from_str(alloc, text)?)),
        None => Ok(None),
    }
}

/// The export of each value type that precedes all its others.
#[derive(Drop)]
pub(crate) struct Table {
    listings: IndexMap<DefinedTypeId, Listing>,
}

impl Model for Table {
    ghost use Rattle.std.specs.Prelude.{List};
    ghost use Rattle.wac_types_shapes.specs.declared.shapes.component.DefinedTypeId.{DefinedTypeId};
    ghost use Rattle.wac_merge_resources.specs.private.values.Listings.{Found, listings_view};

    ghost Value = { List (DefinedTypeId × Found) };

    ghost view = { λ t. listings_view t.listings.entries };
}

impl Table {
    /// Returns a table without value types.
    pub(crate) fn new(alloc: Global) -> Table
        ensures { result ≡ [] }
    {
        Table {
            listings: IndexMap::new(alloc),
        }
    }

    /// Returns the export of a value type.
    pub(crate) fn get(&self, value: DefinedTypeId) -> Option<&Listing>
        ensures { option_map (λ l. listing_view l.now) result ≡ find_value self.now value }
    {
        self.listings.get(&value)
    }

    /// Returns whether the table already has an export of the value type which the given one does not precede.
    fn stays(&self, value: DefinedTypeId, is_used: bool, class: usize) -> bool
        ensures { result ≡ stays (find_value self.now value) (found is_used class []) }
    {
        match self.get(value) {
            Some(listing) => !comes_before(is_used, class, listing),
            None => false,
        }
    }

    /// Adds an export of a value type, if it precedes the one in the table.
    pub(crate) fn put(
        &mut self,
        alloc: Global,
        value: DefinedTypeId,
        is_used: bool,
        class: usize,
        name: Option<&str>,
    ) -> Result<(), AllocError>
        ensures { OnOk result (Takes self.old (only value (found is_used class (path_of (option_copied name.entry)))) self.new) }
    {
        if self.stays(value, is_used, class) {
            return Ok(());
        }
        let name = owned_name(alloc, name)?;
        let listing = Listing {
            is_used,
            class,
            name,
        };
        match self.listings.insert(value, listing) {
            Ok(_) => Ok(()),
            Err(_) => Err(AllocError),
        }
    }
}
