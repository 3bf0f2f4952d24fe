//! Entries: imports that the graph needs.
ghost use Rattle.std.specs.Prelude.{◌≡◌, IfOk};
ghost use Rattle.wac_merge_classes.specs.entries.Classes.{is_instance};

use std::alloc::{AllocError, Global};
use std::marker::Model;
use wac_types_collection::ItemKind;

/// An import that the graph needs: an item under a name.
#[derive(Drop)]
pub struct Entry {
    name: String,
    kind: ItemKind,
}

impl Model for Entry {
    ghost use Rattle.std.specs.Prelude.{string_bytes};
    ghost use Rattle.wac_merge_classes.specs.entries.Classes as classes;

    ghost Value = { classes.Entry };

    ghost view = { λ e. record { name = string_bytes e.name; kind = e.kind } };
}

impl Entry {
    /// Creates an entry.
    ///
    /// # Errors
    /// - [`AllocError`] if out of memory.
    pub fn new(alloc: Global, name: &str, kind: ItemKind) -> Result<Entry, AllocError>
        ensures { IfOk result (λ e. e ≡ record { name = name.now; kind = kind }) }
    {
        let name = String::from_str(alloc, name)?;
        Ok(Entry { name, kind })
    }

    /// The name of the import.
    pub fn name(&self) -> &str
        ensures { result.now ≡ self.now.name }
    {
        self.name.as_str()
    }

    /// The kind of the import.
    pub fn kind(&self) -> ItemKind
        ensures { result ≡ self.now.kind }
    {
        self.kind
    }

    /// Returns whether the import is an instance.
    pub fn is_instance(&self) -> bool
        ensures { result ≡ is_instance self.now.kind }
    {
        matches!(self.kind, ItemKind::Instance(_))
    }
}
