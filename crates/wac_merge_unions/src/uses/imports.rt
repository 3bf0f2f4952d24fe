//! The merged imports with their uses.
ghost use Rattle.std.specs.Prelude.{ℕ, ◌≡◌, List, [], Some, false, length, map, slice_get, true, IfOk};
ghost use Rattle.std.specs.List.{list_any};
ghost use Rattle.wac_types_shapes.specs.declared.shapes.component.InterfaceId.{InterfaceId as AnId};
ghost use Rattle.wac_merge_classes.specs.entries.Bindings.{AreHeld};
ghost use Rattle.wac_merge_classes.specs.entries.Classes.{AreClasses, Entry as AnEntry, by_names, is_asked, is_instance};
ghost use Rattle.wac_merge_classes.specs.terms.Merge.{import_entries};
ghost use Rattle.wac_types_collection.specs.private.subtyping.Extended.{IsExtended};
ghost use Rattle.wac_merge_unions.specs.uses.KeptUses.{uses_of};
ghost use Rattle.wac_merge_unions.specs.uses.Using.{AreBare, AreBareImports, AreInterfaces, AreUsers, AreUsing, HasClasses, IsBareIn, IsKindUsing, StaysBare, uses_among};

use crate::uses::nested::{put_user, with_inner_uses};
use crate::uses::uses::Asked;
use std::alloc::{AllocError, Global};
use wac_merge_classes::entries::classes::Classes;
use wac_merge_classes::entries::entry::Entry;
use wac_types_collection::{InterfaceId, ItemKind, Named, ShapeError, Types};

/// Returns an empty list of interfaces for each of `count` classes.
///
/// # Errors
/// - [`AllocError`] if out of memory.
pub fn no_interfaces(alloc: Global, count: usize) -> Result<Vec<Vec<InterfaceId>>, AllocError>
    ensures counted { IfOk result (λ v. length v.items ≡ count) }
    ensures empty { IfOk result (λ v. (k : ℕ) (is : List AnId) → slice_get (map (λ is. is.items) v.items) k ≡ Some is → is ≡ []) }
{
    let mut lists = Vec::with_capacity(alloc, count)?;
    for _ in 0..count {
        lists.push(Vec::new(alloc))?;
    }
    Ok(lists)
}

/// Returns for each class the interfaces of its entries that are instances.
fn class_users(
    alloc: Global,
    entries: &[Entry],
    classes: &Classes,
) -> Result<Vec<Vec<InterfaceId>>, AllocError>
    requires classes { AreClasses by_names entries.now classes.now.numbers.items classes.now.positions.items classes.now.names }
    ensures { IfOk result (λ v. AreUsers entries.now (map (λ is. is.items) v.items)) }
{
    let numbers = classes.numbers();
    let mut users = no_interfaces(alloc, classes.positions().len())?;
    for i in 0..entries.len() {
        put_user(&mut users[numbers[i]], entries[i].kind())?;
    }
    Ok(users)
}

/// Returns whether one of these interfaces uses another one.
fn use_others(types: &Types, users: &[InterfaceId]) -> bool
    requires users { AreInterfaces types.now users.now }
    ensures none { result ≡ false → uses_of types.now users.now ≡ [] }
    ensures some { uses_of types.now users.now ≡ [] → result ≡ false }
{
    for i in 0..users.len() {
        if types[users[i]].uses.len() > 0 {
            return true;
        }
    }
    false
}

/// Returns whether one of these items is an instance.
fn lists_instance(listed: &Named<ItemKind>) -> bool
    ensures { result ≡ list_any (λ e. is_instance e.1) listed.now }
{
    for i in 0..listed.len() {
        let (_, kind) = listed.entry_at(i);
        if let ItemKind::Instance(_) = kind {
            return true;
        }
    }
    false
}

/// Returns an import with uses of earlier imports, in its interface and in those of instances inside it.
fn with_uses(
    asked: &Asked<'_>,
    merged: &mut Types,
    imports: &Named<ItemKind>,
    users: &[InterfaceId],
    kind: ItemKind,
) -> Result<ItemKind, AllocError>
    requires classes { HasClasses asked.now }
    requires users { AreInterfaces asked.now.types.now users.now }
    requires imports { AreHeld merged.old (import_entries imports.now) }
    requires bare { (ws : List AnId) × AreBare merged.old ws × IsBareIn ws kind }
    ensures extended { IsExtended merged.old merged.new }
    ensures kind { IfOk result (IsKindUsing asked.now.types.now merged.new (uses_among by_names asked.now.types.now asked.now.entries.now merged.new (import_entries imports.now)) users.now kind) }
    ensures stay { IfOk result (StaysBare asked.now.types.now merged.new users.now kind) }
{
    let ItemKind::Instance(id) = kind else {
        return Ok(kind);
    };
    if !use_others(asked.types, users) && !lists_instance(&merged[id].exports) {
        return Ok(kind);
    }
    let id = with_inner_uses(asked, merged, imports, users, id)?;
    Ok(ItemKind::Instance(id))
}

/// Returns the imports `bare`, which have no uses, with the uses that their entries have of each other.
///
/// The uses are those of the interface of an instance and of the interfaces of instances inside it.
///
/// # Errors
/// - [`AllocError`] if out of memory. The merged collection may then hold more interfaces.
pub fn imports_with_uses(
    asked: &Asked<'_>,
    merged: &mut Types,
    bare: &Named<ItemKind>,
) -> Result<Named<ItemKind>, AllocError>
    requires classes { HasClasses asked.now }
    requires asked { AreHeld asked.now.types.now asked.now.entries.now }
    requires held { AreHeld merged.old (import_entries bare.now) }
    requires named { (p : ℕ) (e : AnEntry) → slice_get (import_entries bare.now) p ≡ Some e → is_asked asked.now.entries.now e.name ≡ true }
    requires bare { AreBareImports merged.old (import_entries bare.now) }
    ensures extended { IsExtended merged.old merged.new }
    ensures using { IfOk result (λ is. AreUsing by_names asked.now.types.now asked.now.entries.now merged.new (import_entries bare.now) (import_entries is)) }
{
    let users = class_users(asked.alloc, asked.entries, asked.classes)?;
    bare.law(); // proof only
    merged.law(); // proof only
    let mut imports = Named::with_capacity(asked.alloc, bare.len())?;
    for i in 0..bare.len() {
        let (name, kind) = bare.entry_at(i);
        let Some(number) = asked.classes.number(name) else {
            unreachable!()
        };
        merged.law(); // proof only
        let kind = with_uses(asked, merged, &imports, users[number].as_slice(), *kind)?;
        merged.law(); // proof only
        match imports.insert(asked.alloc, name, kind) {
            Ok(()) => {}
            Err(ShapeError::OutOfMemory) => return Err(AllocError),
            Err(ShapeError::NameTwice) => unreachable!(),
        }
    }
    Ok(imports)
}
