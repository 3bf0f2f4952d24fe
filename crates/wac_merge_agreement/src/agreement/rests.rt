//! The classes that a class depends on.
//!
//! A class depends on the classes whose interfaces its entries use widely, and on those that bind resources which its entries
//! mention.
ghost use Rattle.std.specs.Prelude.{ℕ, ◌≡◌, ◌<◌, ◌↔◌, ◌⊎◌, true, length, map, slice_get, Some, IfOk, OnOk};
ghost use Rattle.wac_types_collection.specs.collection.Collection.{holds_type};
ghost use Rattle.wac_types_collection.specs.wide.Wide.{AreThere};
ghost use Rattle.wac_types_shapes.specs.shapes.Kinds.{kind_type};
ghost use Rattle.wac_types_shapes.specs.declared.shapes.component.ItemKind.TheVariants as kind_of;
ghost use Rattle.wac_merge_classes.specs.entries.Bindings.{AreBindings, AreHeld};
ghost use Rattle.wac_edges.specs.cycles.Cycles.{IsStep};
ghost use Rattle.wac_merge_classes.specs.entries.Classes.{AreClasses, by_names, class_names};
ghost use Rattle.wac_merge_classes.specs.terms.ClassOrder.{RestsOn};
ghost use Rattle.wac_merge_agreement.specs.private.agreement.Compared.{AreCompared};
ghost use Rattle.wac_merge_classes.specs.terms.NoDisagreement.{HasNoDisagreement};
ghost use Rattle.wac_merge_tables.specs.private.tables.Nodes.{tree_at, type_of as type_in};
ghost use Rattle.wac_merge_tables.specs.private.tables.NodeViews.{item_view};
ghost use Rattle.wac_merge_agreement.specs.private.agreement.Reach.{IsOfClass, Reaches};
ghost use Rattle.wac_edges.specs.private.cycles.Numbers.{Has};
ghost use Rattle.wac_merge_agreement.specs.private.agreement.ReachSteps.{AreFlags};
ghost use Rattle.wac_edges.specs.private.Arranging.{with_all};
ghost use Rattle.wac_merge_agreement.specs.private.agreement.Resting.{Gains, ItemLeads, KindUses, classes_used, first_class, interface_class, used_classes};

use crate::agreement::flags::flag_through;
use crate::agreement::reach::{classes_reached, put, put_optional, type_of};
use indexmap::IndexSet;
use std::alloc::{AllocError, Global};
use std::collections::BTreeSet;
use wac_edges::cycles::cycles::empty_sets;
use wac_merge_classes::entries::bindings::Bindings;
use wac_merge_classes::entries::classes::Classes;
use wac_merge_classes::entries::entry::Entry;
use wac_merge_tables::tables::nodes::{Item, Nodes};
use wac_types_collection::wide::wide_uses;
use wac_types_collection::{InterfaceId, ItemKind, ResourceId, Type, Types};

/// Returns the class of an interface's id.
fn interface_class(types: &Types, classes: &Classes, id: InterfaceId) -> Option<usize>
    requires { holds_type types.now (kind_type (kind_of.Instance id)) ≡ true }
    ensures { result ≡ interface_class types.now classes.now.names id }
{
    match &types[id].id {
        Some(text) => classes.number(text.as_str()),
        None => None,
    }
}

/// Returns the interface at an index of a set.
fn interface_at(used: &IndexSet<InterfaceId>, index: usize) -> InterfaceId
    requires { index < length used.now.keys }
    ensures { slice_get used.now.keys index ≡ Some result }
{
    used.as_slice()[index]
}

/// Adds the classes of used interfaces.
fn put_used(
    numbers: &mut BTreeSet<usize>,
    types: &Types,
    classes: &Classes,
    used: &IndexSet<InterfaceId>,
) -> Result<(), AllocError>
    requires { AreThere types.now used.now.keys }
    ensures { OnOk result (numbers.new.keys ≡ with_all numbers.old.keys (used_classes types.now classes.now.names used.now.keys)) }
{
    for i in 0..used.len() {
        let id = interface_at(used, i);
        put_optional(numbers, interface_class(types, classes, id))?;
    }
    Ok(())
}

/// Returns the classes that an instance mentions or uses: those that bind its resources, and those of the interfaces
/// that it uses widely.
fn instance_leads(
    nodes: &Nodes,
    flags: &[bool],
    types: &Types,
    classes: &Classes,
    id: InterfaceId,
    item: Item,
) -> Result<BTreeSet<usize>, AllocError>
    requires held { holds_type types.now (kind_type (kind_of.Instance id)) ≡ true }
    requires there { type_in (item_view item) < length nodes.now }
    requires flags { AreFlags nodes.now flags.now }
    requires flagged { type_in (item_view item) < length flags.now }
    ensures { IfOk result (λ s. (b : ℕ) → (Has s.keys b ↔ (Reaches (IsOfClass b) (tree_at nodes.now (type_in (item_view item))) ⊎ Has (classes_used types.now classes.now.names id) b))) }
{
    types.law(); // proof only
    let mut numbers = classes_reached(types.allocator(), nodes, flags, type_of(item))?;
    let used = wide_uses(types, id)?;
    put_used(&mut numbers, types, classes, &used)?;
    Ok(numbers)
}

/// Returns the classes of the interfaces that an item uses widely. Only an instance uses any.
fn used_by(types: &Types, classes: &Classes, kind: ItemKind) -> Result<BTreeSet<usize>, AllocError>
    requires { holds_type types.now (kind_type kind) ≡ true }
    ensures { IfOk result (λ s. (b : ℕ) → (Has s.keys b ↔ KindUses types.now classes.now.names kind b)) }
{
    types.law(); // proof only
    let mut numbers = BTreeSet::new(types.allocator());
    let ItemKind::Instance(id) = kind else {
        return Ok(numbers);
    };
    let used = wide_uses(types, id)?;
    put_used(&mut numbers, types, classes, &used)?;
    Ok(numbers)
}

/// Returns the first class that binds a resource, after aliases are resolved.
fn first_class(types: &Types, bindings: &Bindings, id: ResourceId) -> Option<usize>
    ensures { result ≡ first_class types.now bindings.now id }
{
    let (class, _) = bindings.first(types.resolve_resource(id))?;
    Some(class)
}

/// Returns the class that a resource import depends on, as a set: the first class that binds the resource.
fn resource_leads(
    alloc: Global,
    types: &Types,
    bindings: &Bindings,
    id: ResourceId,
) -> Result<BTreeSet<usize>, AllocError>
    ensures { IfOk result (λ s. (b : ℕ) → (Has s.keys b ↔ (first_class types.now bindings.now id ≡ Some b))) }
{
    let mut numbers = BTreeSet::new(alloc);
    put_optional(&mut numbers, first_class(types, bindings, id))?;
    Ok(numbers)
}

/// Returns the classes that an item mentions or uses.
fn item_leads(
    nodes: &Nodes,
    flags: &[bool],
    types: &Types,
    classes: &Classes,
    bindings: &Bindings,
    kind: ItemKind,
    item: Item,
) -> Result<BTreeSet<usize>, AllocError>
    requires held { holds_type types.now (kind_type kind) ≡ true }
    requires there { type_in (item_view item) < length nodes.now }
    requires flags { AreFlags nodes.now flags.now }
    requires flagged { type_in (item_view item) < length flags.now }
    ensures { IfOk result (λ s. (b : ℕ) → (Has s.keys b ↔ ItemLeads nodes.now types.now classes.now.names bindings.now kind (item_view item) b)) }
{
    let alloc = types.allocator();
    match kind {
        ItemKind::Instance(id) => instance_leads(nodes, flags, types, classes, id, item),
        ItemKind::TypeItem(Type::Resource(id)) => resource_leads(alloc, types, bindings, id),
        _ => classes_reached(alloc, nodes, flags, type_of(item)),
    }
}

/// Adds numbers other than `own`.
fn put_others(
    others: &mut BTreeSet<usize>,
    own: usize,
    more: &BTreeSet<usize>,
) -> Result<(), AllocError>
    ensures { OnOk result (Gains own more.now.keys others.old.keys others.new.keys) }
{
    for b in more.iter() {
        if *b != own {
            put(others, *b)?;
        }
    }
    Ok(())
}

/// Returns, for each class, the classes that it depends on.
///
/// # Errors
/// - [`AllocError`] if out of memory.
pub fn rests(
    alloc: Global,
    nodes: &Nodes,
    types: &Types,
    entries: &[Entry],
    classes: &Classes,
    bindings: &Bindings,
    items: &[Item],
) -> Result<Vec<BTreeSet<usize>>, AllocError>
    requires held { AreHeld types.now entries.now }
    requires classes { AreClasses by_names entries.now classes.now.numbers.items classes.now.positions.items classes.now.names }
    requires bindings { AreBindings types.now entries.now bindings.now }
    requires counted { length items.now ≡ length entries.now }
    requires items { AreCompared nodes.now types.now entries.now (map item_view items.now) }
    requires agree { HasNoDisagreement by_names types.now entries.now }
    ensures counted { IfOk result (λ v. length v.items ≡ length (class_names by_names entries.now)) }
    ensures rests { IfOk result (λ v. (a b : ℕ) → (IsStep v.items a b ↔ RestsOn by_names types.now entries.now a b)) }
{
    types.law(); // proof only
    let numbers = classes.numbers();
    let mut rests = empty_sets(alloc, classes.positions().len())?;
    let mut flags = Vec::new(alloc);
    for i in 0..entries.len() {
        let kind = entries[i].kind();
        flag_through(nodes, &mut flags, type_of(items[i]))?;
        let flags = flags.as_slice();
        let leads = item_leads(nodes, flags, types, classes, bindings, kind, items[i])?;
        put_others(&mut rests[numbers[i]], numbers[i], &leads)?;
    }
    Ok(rests)
}

/// Returns, for each class, the classes that it depends on. The collection has no resource, so these are the classes
/// whose interfaces its entries use widely.
///
/// # Errors
/// - [`AllocError`] if out of memory.
pub fn rests_by_uses(
    alloc: Global,
    types: &Types,
    entries: &[Entry],
    classes: &Classes,
) -> Result<Vec<BTreeSet<usize>>, AllocError>
    requires held { AreHeld types.now entries.now }
    requires classes { AreClasses by_names entries.now classes.now.numbers.items classes.now.positions.items classes.now.names }
    requires none { length types.now.resources ≡ 0 }
    ensures counted { IfOk result (λ v. length v.items ≡ length (class_names by_names entries.now)) }
    ensures rests { IfOk result (λ v. (a b : ℕ) → (IsStep v.items a b ↔ RestsOn by_names types.now entries.now a b)) }
{
    types.law(); // proof only
    let numbers = classes.numbers();
    let mut rests = empty_sets(alloc, classes.positions().len())?;
    for i in 0..entries.len() {
        let kind = entries[i].kind();
        let used = used_by(types, classes, kind)?;
        put_others(&mut rests[numbers[i]], numbers[i], &used)?;
    }
    Ok(rests)
}
