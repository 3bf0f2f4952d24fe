//! The component indexes of the packages that are written.
ghost use Rattle.std.specs.Prelude.{◌≡◌, ◌≢◌, ◌<◌, ◌++◌, ◌∷◌, [], ℕ, Some, IfSome, IfNone, OnOk, OnErr, false, length, slice_get, slice_index_or};
ghost use Rattle.std.specs.List.{list_any};
ghost use Rattle.std.specs.Map.{lookup};
ghost use Rattle.wac_graph_model.specs.meaning.Means.{same_package};

use std::alloc::{AllocError, Global};
use std::marker::Model;
use wac_graph_model::PackageId;
use wac_graph_model::inner::slot_of;

/// The component indexes of the packages that are written, in order of writing. A package is found by its slot.
#[derive(Drop)]
pub struct Components {
    /// The packages and their component indexes.
    entries: Vec<(PackageId, u32)>,
    /// For each slot, the position of its first entry plus one, or 0 without an entry.
    places: Vec<usize>,
}

impl Model for Components {
    ghost use Rattle.std.specs.Prelude.{List, ℕ};
    ghost use Rattle.wac_graph_model.specs.declared.nodes.packages.PackageId.{PackageId as AnId};

    ghost Value = { List (AnId × ℕ) };

    ghost use Rattle.wac_graph_reader.specs.private.reading.Slots.{AreSlotted};

    ghost view = { λ c. c.entries.items };

    ghost invariant = { λ c. AreSlotted c.entries.items c.places.items };
}

impl Components {
    /// Creates an empty table.
    pub fn new(alloc: Global) -> Components
        ensures { result ≡ [] }
    {
        Components {
            entries: Vec::new(alloc),
            places: Vec::new(alloc),
        }
    }

    /// The component index of a package, if it is written.
    pub fn get(&self, id: PackageId) -> Option<u32>
        ensures there { IfSome result (λ c. (k : ℕ) × (slice_get self.now k ≡ Some (id, c))) }
        ensures absent { IfNone result (list_any (λ e. same_package id e.0) self.now ≡ false) }
    {
        let next = next_of(&self.places, slot_of(id));
        if next == 0 {
            return None;
        }
        let (found, index) = self.entries[next - 1];
        if id == found {
            return Some(index);
        }
        find(&self.entries, id)
    }

    /// Adds a package. On `AllocError` the table is unchanged.
    pub fn insert(&mut self, id: PackageId, index: u32) -> Result<(), AllocError>
        ensures pushed { OnOk result (self.new ≡ self.old ++ (id, index) ∷ []) }
        ensures refused { OnErr result (self.new ≡ self.old) }
    {
        let slot = slot_of(id);
        make_room(&mut self.places, slot)?;
        self.entries.push((id, index))?;
        note_place(&mut self.places, slot, self.entries.len());
        Ok(())
    }
}

/// The position of a slot's first entry plus one, or 0 without an entry.
fn next_of(places: &[usize], slot: usize) -> usize
    ensures { result ≡ slice_index_or places.now slot 0 }
{
    match places.get(slot) {
        Some(next) => *next,
        None => 0,
    }
}

/// Extends the positions to this slot. On `AllocError` they are unchanged.
fn make_room(places: &mut Vec<usize>, slot: usize) -> Result<(), AllocError>
    ensures there { OnOk result (slot < length places.new.items) }
    ensures same { (s : ℕ) → slice_index_or places.new.items s 0 ≡ slice_index_or places.old.items s 0 }
{
    let Some(count) = slot.checked_add(1) else {
        return Err(AllocError);
    };
    if places.len() < count {
        places.resize(count, 0)?;
    }
    Ok(())
}

/// Records the position plus one of a slot's entry, unless the slot has one.
fn note_place(places: &mut Vec<usize>, slot: usize, next: usize)
    requires { slot < length places.old.items }
    ensures noted { slice_index_or places.old.items slot 0 ≡ 0 → slice_index_or places.new.items slot 0 ≡ next }
    ensures kept { 0 < slice_index_or places.old.items slot 0 → slice_index_or places.new.items slot 0 ≡ slice_index_or places.old.items slot 0 }
    ensures others { (s : ℕ) → s ≢ slot → slice_index_or places.new.items s 0 ≡ slice_index_or places.old.items s 0 }
{
    if places[slot] == 0 {
        places[slot] = next;
    }
}

/// The component index of a package, searched among all entries.
fn find(entries: &[(PackageId, u32)], id: PackageId) -> Option<u32>
    ensures { result ≡ lookup (same_package id) entries.now }
{
    for (found, index) in entries {
        if id == *found {
            return Some(*index);
        }
    }
    None
}
