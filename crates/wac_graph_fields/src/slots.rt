//! The slots of packages: which is used next, and how they are filled and freed.
ghost use Rattle.std.specs.Prelude.{◌≡◌, ◌<◌, ◌≤◌, if◌then◌else◌, [], None, OnOk, IfOk, IfSome, IsSome, length, slice_get, vec_len, vec_capacity};
ghost use Rattle.std.specs.Map.{lookup};
ghost use Rattle.wac_types_shapes.specs.keys.Key.{Key, same_key};
ghost use Rattle.wac_graph_model.specs.nodes.Graph.{Graph, package_in};
ghost use Rattle.wac_graph_model.specs.nodes.Steps.{TakesSlot};
ghost use Rattle.wac_graph_fields.specs.private.Slots.{vacant_of, key_of, AreKeyed, AreVacant, IsNext};
ghost use Rattle.wac_graph_fields.specs.Unregistering.{FreesSlot};

use indexmap::IndexMap;
use std::alloc::AllocError;
use wac_graph_model::inner::{generation_of, new_package_id, slot_of};
use wac_graph_model::{BorrowedPackageKey, PackageId, Slot};
use wac_types::{Package, PackageKey};

/// Returns the id of the next package and reserves memory for it: the slot freed last, or a new slot.
///
/// Memory for freeing a new slot is reserved too, so that `unregister_package` needs none. Fails with `AllocError`.
pub fn next_id(slots: &mut Vec<Slot>, vacant: &mut Vec<usize>) -> Result<PackageId, AllocError>
    requires { AreVacant slots.old.items (vacant_of vacant.old) }
    ensures id { IfOk result (IsNext slots.old.items (vacant_of vacant.old)) }
    ensures slots { slots.new.items ≡ slots.old.items }
    ensures vacant { vacant.new.items ≡ vacant.old.items }
    ensures capacity { vec_capacity vacant.old ≤ vec_capacity vacant.new }
    ensures room { OnOk result (vacant.new.items ≡ [] → vec_len slots.new < vec_capacity slots.new) }
    ensures link { OnOk result (vacant.new.items ≡ [] → length slots.new.items < vec_capacity vacant.new) }
{
    if let Some(number) = vacant.last() {
        let slot = *number;
        return Ok(new_package_id(slot, slots[slot].generation));
    }
    slots.reserve(1)?;
    vacant.reserve(slots.len() + 1)?;
    Ok(new_package_id(slots.len(), 0))
}

/// Puts a package into the slot of `next_id`, for which memory is reserved.
pub fn put_package(slots: &mut Vec<Slot>, vacant: &mut Vec<usize>, id: PackageId, package: Package)
    requires next { IsNext slots.old.items (vacant_of vacant.old) id }
    requires room { vacant.old.items ≡ [] → vec_len slots.old < vec_capacity slots.old }
    ensures taken { (g : Graph) → g.slots ≡ slots.old.items → g.vacant ≡ vacant_of vacant.old → TakesSlot g «package» id (record g { slots = slots.new.items; vacant = vacant_of vacant.new }) }
    ensures capacity { vec_capacity vacant.new ≡ vec_capacity vacant.old }
{
    if let Some(slot) = vacant.pop() {
        slots[slot].package = Some(package);
        return;
    }
    slots
        .push(Slot {
            generation: generation_of(id),
            package: Some(package),
        })
        .unwrap();
}

/// Removes a package, frees its slot and raises the slot's generation.
///
/// The slot is used next. A slot at the greatest generation is never used again.
pub fn take_package(
    names: &mut IndexMap<PackageKey, PackageId>,
    slots: &mut Vec<Slot>,
    vacant: &mut Vec<usize>,
    id: PackageId,
)
    requires there { IsSome (package_in (slice_get slots.old.items id.slot) id) }
    requires keyed { AreKeyed slots.old.items names.old.entries }
    requires room { vec_len vacant.old < vec_capacity vacant.old }
    ensures freed { FreesSlot slots.old.items (vacant_of vacant.old) id slots.new.items (vacant_of vacant.new) }
    ensures keyed { AreKeyed slots.new.items names.new.entries }
    ensures capacity { vec_capacity vacant.old ≤ vec_capacity vacant.new }
{
    take_key(names, slots, id);
    free(slots, vacant, id);
}

/// Removes the key of a package.
fn take_key(names: &mut IndexMap<PackageKey, PackageId>, slots: &[Slot], id: PackageId)
    requires there { IsSome (package_in (slice_get slots.now id.slot) id) }
    ensures taken { IfSome (package_in (slice_get slots.now id.slot) id) (λ p. (k : Key) → lookup (same_key k) names.new.entries ≡ (if same_key (key_of p) k then None else lookup (same_key k) names.old.entries)) }
{
    let Some(package) = &slots[slot_of(id)].package else {
        unreachable!()
    };
    names.swap_remove(BorrowedPackageKey::from_name_and_version(package.name(), package.version()));
}

/// Removes the package in a slot and frees the slot, unless its generation is the greatest one.
fn free(slots: &mut Vec<Slot>, vacant: &mut Vec<usize>, id: PackageId)
    requires there { IsSome (package_in (slice_get slots.old.items id.slot) id) }
    requires room { vec_len vacant.old < vec_capacity vacant.old }
    ensures freed { FreesSlot slots.old.items (vacant_of vacant.old) id slots.new.items (vacant_of vacant.new) }
    ensures capacity { vec_capacity vacant.old ≤ vec_capacity vacant.new }
{
    let number = slot_of(id);
    let slot = &mut slots[number];
    slot.package = None;
    if let Some(generation) = slot.generation.checked_add(1) {
        slot.generation = generation;
        vacant.push(number).unwrap();
    }
}
