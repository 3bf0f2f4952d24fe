//! The order of the items on a side of a component type.
ghost use Rattle.std.specs.Prelude.{◌≡◌, ◌+◌, ◌<◌, ◌^◌, ◌++◌, ◌∷◌, ◌↔◌, ℕ, List, Some, drop, if◌then◌else◌, map, length, slice_get, IfOk, OnOk, Contains};
ghost use Rattle.wac_edges.specs.cycles.Cycles.{AreWithin, HasNoCycle, IsStep};
ghost use Rattle.wac_encode_order.specs.private.TypeItems.{Takes};
ghost use Rattle.wac_encode_order.specs.private.SideOrder.{AreGroups, IsSideOrder, ReachesType, counted_from, is_type_at, lists_instance as instance_listed, lists_resource as resource_listed, lists_rest as rest_listed, positions_of};
ghost use Rattle.wac_encode_order.specs.private.Merging.{lists_plain_type, merged, rest_from, taken_below};
ghost use Rattle.wac_encode_order.specs.private.Graph.{AreHeld};

use crate::interface::is_type_item;
use crate::type_items::order_chosen;
use std::alloc::{AllocError, Global};
use std::collections::BTreeSet;
use wac_edges::arranged::arranged;
use wac_types_collection::{ItemKind, Named, Type, Types};

/// Whether an item is an instance.
fn is_instance(name: &str, item: ItemKind) -> bool
    ensures { result ≡ instance_listed (name.now, item) }
{
    matches!(item, ItemKind::Instance(_))
}

/// Whether an item is neither an instance nor a type item.
fn is_rest(name: &str, item: ItemKind) -> bool
    ensures { result ≡ rest_listed (name.now, item) }
{
    match item {
        ItemKind::Instance(_) | ItemKind::TypeItem(_) => false,
        _ => true,
    }
}

/// Appends the positions of instances.
fn add_instances(numbers: &mut Vec<usize>, items: &Named<ItemKind>) -> Result<(), AllocError>
    ensures { OnOk result (numbers.new.items ≡ numbers.old.items ++ positions_of instance_listed 0 items.now) }
{
    for i in 0..items.len() {
        let (name, item) = items.entry_at(i);
        if is_instance(name, *item) {
            numbers.push(i)?;
        }
    }
    Ok(())
}

/// Appends the positions of items that are neither instances nor type items.
fn add_rest(numbers: &mut Vec<usize>, items: &Named<ItemKind>) -> Result<(), AllocError>
    ensures { OnOk result (numbers.new.items ≡ numbers.old.items ++ positions_of rest_listed 0 items.now) }
{
    for i in 0..items.len() {
        let (name, item) = items.entry_at(i);
        if is_rest(name, *item) {
            numbers.push(i)?;
        }
    }
    Ok(())
}

/// Appends `count` numbers from `start` on.
fn add_counted(numbers: &mut Vec<usize>, start: usize, count: usize) -> Result<(), AllocError>
    requires { start + count < 2 ^ 64 }
    ensures { OnOk result (numbers.new.items ≡ numbers.old.items ++ counted_from start count) }
{
    for i in 0..count {
        numbers.push(start + i)?;
    }
    Ok(())
}

/// Whether an item is a type item of a resource.
fn is_resource(name: &str, item: ItemKind) -> bool
    ensures { result ≡ resource_listed (name.now, item) }
{
    matches!(item, ItemKind::TypeItem(Type::Resource(_)))
}

/// Whether an item is a type item of another type than a resource.
fn is_plain_type(name: &str, item: ItemKind) -> bool
    ensures { result ≡ lists_plain_type (name.now, item) }
{
    is_type_item(name, item) && !is_resource(name, item)
}

/// Returns for each item whether it is a type item of another type than a resource.
fn type_flags(types: &Types, items: &Named<ItemKind>) -> Result<Vec<bool>, AllocError>
    ensures { IfOk result (λ chosen. chosen.items ≡ map lists_plain_type items.now) }
{
    let mut chosen = Vec::with_capacity(types.allocator(), items.len())?;
    for i in 0..items.len() {
        let (name, item) = items.entry_at(i);
        chosen.push(is_plain_type(name, *item))?;
    }
    Ok(chosen)
}

/// Appends the numbers from the index `next` on, up to the first that is not below `end`. Returns the index of that one.
fn add_below(
    order: &mut Vec<usize>,
    numbers: &[usize],
    next: usize,
    end: usize,
) -> Result<usize, AllocError>
    ensures added { OnOk result (order.new.items ≡ order.old.items ++ taken_below end (drop next numbers.now)) }
    ensures rest { IfOk result (λ at. drop at numbers.now ≡ rest_from end (drop next numbers.now)) }
{
    let mut at = next;
    'numbers: while at < numbers.len() {
        let number = numbers[at];
        if number >= end {
            return Ok(at);
        }
        order.push(number)?;
        at += 1;
    }
    Ok(at)
}

/// Appends the numbers from the index `next` on.
fn add_from(order: &mut Vec<usize>, numbers: &[usize], next: usize) -> Result<(), AllocError>
    ensures { OnOk result (order.new.items ≡ order.old.items ++ drop next numbers.now) }
{
    let mut at = next;
    'numbers: while at < numbers.len() {
        order.push(numbers[at])?;
        at += 1;
    }
    Ok(())
}

/// Appends the position of an item, if it is a type item of a resource, after the numbers from the index `next` on that
/// come before it. Returns the index of the next number.
fn add_resource(
    order: &mut Vec<usize>,
    numbers: &[usize],
    next: usize,
    position: usize,
    is_resource: bool,
) -> Result<usize, AllocError>
    ensures { IfOk result (λ at. (rs : List ℕ) → order.new.items ++ merged (drop at numbers.now) rs ≡ order.old.items ++ merged (drop next numbers.now) (if is_resource then position ∷ rs else rs)) }
{
    if !is_resource {
        return Ok(next);
    }
    let at = add_below(order, numbers, next, position)?;
    order.push(position)?;
    Ok(at)
}

/// Returns the positions of type items in order: these, with those of resources among them.
fn with_resources(
    alloc: Global,
    items: &Named<ItemKind>,
    numbers: &[usize],
) -> Result<Vec<usize>, AllocError>
    ensures { IfOk result (λ order. order.items ≡ merged numbers.now (positions_of resource_listed 0 items.now)) }
{
    let mut order = Vec::new(alloc);
    let mut next = 0;
    for i in 0..items.len() {
        let (name, item) = items.entry_at(i);
        let is_resource = is_resource(name, *item);
        next = add_resource(&mut order, numbers, next, i, is_resource)?;
    }
    add_from(&mut order, numbers, next)?;
    Ok(order)
}

/// Returns the positions of the type items in order.
fn type_order(types: &Types, items: &Named<ItemKind>) -> Result<Vec<usize>, AllocError>
    requires { AreHeld types.now items.now }
    ensures { IfOk result (λ order. Takes (ReachesType types.now items.now) (is_type_at items.now) order.items) }
{
    let chosen = type_flags(types, items)?;
    let plain = order_chosen(types, items, chosen.as_slice())?;
    with_resources(types.allocator(), items, plain.as_slice())
}

/// Returns the numbers of the items in groups: instances, type items, the rest.
fn groups(
    types: &Types,
    items: &Named<ItemKind>,
    additional: usize,
) -> Result<Vec<usize>, AllocError>
    requires held { AreHeld types.now items.now }
    requires room { length items.now + additional < 2 ^ 64 }
    ensures { IfOk result (λ all. AreGroups types.now items.now additional all.items) }
{
    let order = type_order(types, items)?;
    let mut all = Vec::new(types.allocator());
    add_instances(&mut all, items)?;
    add_counted(&mut all, items.len(), additional)?;
    all.extend_from_slice(order.as_slice())?;
    add_rest(&mut all, items)?;
    Ok(all)
}

/// Returns the items of a side of a component type in the order in which they are written.
///
/// An item has its position as its number. After the items come as many more instances as `additional` says. `depends`
/// has for each item the items of the side that it depends on; no item may depend on itself through others.
///
/// First come the instances, then the type items, then the rest, each directly after the items that it depends on. The
/// type items come in the order of [`interface_order`](crate::interface_order), but that none waits for a resource which
/// it does not depend on. The others come as they are listed. Takes linear time, up to a logarithm, without recursion.
///
/// # Errors
/// - `AllocError` if out of memory.
pub fn side_order(
    types: &Types,
    items: &Named<ItemKind>,
    additional: usize,
    depends: &[BTreeSet<usize>],
) -> Result<Vec<usize>, AllocError>
    requires held { AreHeld types.now items.now }
    requires counted { length depends.now ≡ length items.now + additional }
    requires within { AreWithin depends.now }
    requires ordered { HasNoCycle depends.now }
    ensures order { IfOk result (λ o. IsSideOrder types.now items.now additional (IsStep depends.now) o.items) }
    ensures each { IfOk result (λ o. (k : ℕ) → (Contains o.items k ↔ k < length items.now + additional)) }
    ensures once { IfOk result (λ o. (i j k : ℕ) → slice_get o.items i ≡ Some k → slice_get o.items j ≡ Some k → i ≡ j) }
{
    let all = groups(types, items, additional)?;
    arranged(types.allocator(), all.as_slice(), depends)
}
