//! The order of the merged imports: instances, then type items, then the rest, each after the classes that it depends
//! on.
ghost use Rattle.std.specs.Prelude.{◌≡◌, ◌<◌, ◌↔◌, ℕ, length, slice_get, Contains, IfOk, Some};
ghost use Rattle.wac_edges.specs.cycles.Cycles.{IsStep};
ghost use Rattle.wac_merge_classes.specs.entries.Classes.{AreClasses, by_names, class_names};
ghost use Rattle.wac_merge_classes.specs.terms.ClassOrder.{IsWrittenOrder, RestsOn, grouped};
ghost use Rattle.wac_merge_classes.specs.terms.Faults as faults;

use std::alloc::{AllocError, Global};
use std::collections::BTreeSet;
use wac_edges::arranged::arranged;
use wac_merge_classes::entries::classes::Classes;
use wac_merge_classes::entries::entry::Entry;
use wac_types_collection::{ItemKind, Types};

/// Returns the numbers of the classes by group: instances, type items, the rest, each in order of first appearance.
fn grouped(alloc: Global, entries: &[Entry], classes: &Classes) -> Result<Vec<usize>, AllocError>
    requires classes { AreClasses by_names entries.now classes.now.numbers.items classes.now.positions.items classes.now.names }
    ensures { IfOk result (λ v. v.items ≡ grouped by_names entries.now) }
{
    let numbers = classes.numbers();
    let mut begun = 0;
    let mut instances = Vec::new(alloc);
    let mut type_items = Vec::new(alloc);
    let mut others = Vec::new(alloc);
    for i in 0..entries.len() {
        // Classes are numbered by first appearance, so the entry with the next number is the first of its class.
        if numbers[i] != begun {
            continue;
        }
        match entries[i].kind() {
            ItemKind::Instance(_) => instances.push(begun)?,
            ItemKind::TypeItem(_) => type_items.push(begun)?,
            _ => others.push(begun)?,
        }
        begun += 1;
    }
    instances.extend_from_slice(type_items.as_slice())?;
    instances.extend_from_slice(others.as_slice())?;
    Ok(instances)
}

/// Returns the numbers of the classes in the order of their imports.
///
/// # Errors
/// - [`AllocError`] if out of memory.
pub fn written_order(
    alloc: Global,
    types: &Types,
    entries: &[Entry],
    classes: &Classes,
    rests: &[BTreeSet<usize>],
) -> Result<Vec<usize>, AllocError>
    requires classes { AreClasses by_names entries.now classes.now.numbers.items classes.now.positions.items classes.now.names }
    requires counted { length rests.now ≡ length (class_names by_names entries.now) }
    requires rests { (a b : ℕ) → (IsStep rests.now a b ↔ RestsOn by_names types.now entries.now a b) }
    requires ordered { faults.HasNoCircle by_names types.now entries.now }
    ensures written { IfOk result (λ o. IsWrittenOrder by_names types.now entries.now o.items) }
    ensures each { IfOk result (λ o. (k : ℕ) → (Contains o.items k ↔ k < length (class_names by_names entries.now))) }
    ensures once { IfOk result (λ o. (i j k : ℕ) → slice_get o.items i ≡ Some k → slice_get o.items j ≡ Some k → i ≡ j) }
{
    let all = grouped(alloc, entries, classes)?;
    arranged(alloc, all.as_slice(), rests)
}
