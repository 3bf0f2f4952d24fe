//! Which definitions are one named type.
ghost use Rattle.std.specs.Prelude.{◌≡◌, ◌⊎◌, ◌↔◌, ℕ, Some, None, IfOk, OnOk, slice_get};
ghost use Rattle.wac_types_collection.specs.collection.Collection.{HasInterface, interface_exports};
ghost use Rattle.wac_types_shapes.specs.primitives.Name.{find_name};
ghost use Rattle.wac_types_shapes.specs.declared.shapes.component.DefinedTypeId.{DefinedTypeId as Defined};
ghost use Rattle.wac_merge_classes.specs.terms.Values.{listed_value};
ghost use Rattle.wac_merge_classes.specs.declared.terms.parts.Export.{Export as AnExport};
ghost use Rattle.wac_merge_classes.specs.declared.terms.parts.Part.{Part as APart};
ghost use Rattle.wac_merge_resources.specs.values.NamedTypes.{AreAllOne, AreClassed, AreJoined, AreNamedAlike, AreUnited, IsAskedWith, IsClassed, IsListedBy, IsListedIn, IsListedWith, IsOneType, IsUnited, JoinsAlong, PutsBefore, StayOne, TouchesOnly, class_value, earlier_of, first_of, lower, named_type};

use crate::values::listed::listed_value;
use std::alloc::{AllocError, Global};
use std::collections::HashMap;
use wac_merge_classes::entries::classes::Classes;
use wac_merge_classes::entries::entry::Entry;
use wac_merge_classes::terms::parts::{Part, Union};
use wac_types_collection::{DefinedTypeId, ItemKind, Types};

/// The named types of a merge, as a union-find over definitions.
///
/// A definition has a name if a part exports it or an entry is it. Definitions under one name are one named type.
#[derive(Drop)]
pub struct NamedTypes {
    // The parent of each definition that has a name: an earlier definition of its named type, or itself.
    earlier: HashMap<DefinedTypeId, DefinedTypeId>,
}

/// Returns the lower of two ids.
fn lower(one: DefinedTypeId, other: DefinedTypeId) -> DefinedTypeId
    ensures { result ≡ lower one other }
{
    if other.0 < one.0 { other } else { one }
}

impl NamedTypes {
    /// Returns named types that have no definition.
    pub fn new(alloc: Global) -> NamedTypes
        ensures { (d : Defined) → named_type result d ≡ None }
    {
        NamedTypes {
            earlier: HashMap::new(alloc),
        }
    }

    /// Returns the parent of a definition, if it has a name.
    fn link(&self, id: DefinedTypeId) -> Option<DefinedTypeId>
        ensures { result ≡ earlier_of self.now id }
    {
        self.earlier.get(&id).copied()
    }

    /// Returns the first definition of a definition's named type, or the definition itself if it has no name.
    fn first(&self, id: DefinedTypeId) -> DefinedTypeId
        ensures { result ≡ first_of self.now id }
    {
        let mut first = id;
        'back: loop {
            let Some(earlier) = self.link(first) else {
                return first;
            };
            if earlier.0 >= first.0 {
                return first;
            }
            first = earlier;
        }
    }

    /// Returns the first definition of a definition's named type, or `None` if the definition has no name.
    pub fn of(&self, id: DefinedTypeId) -> Option<DefinedTypeId>
        ensures { result ≡ named_type self.now id }
    {
        match self.link(id) {
            Some(_) => Some(self.first(id)),
            None => None,
        }
    }

    /// Sets the parent of a definition.
    fn put(&mut self, id: DefinedTypeId, earlier: DefinedTypeId) -> Result<(), AllocError>
        ensures { OnOk result (PutsBefore self.old id earlier self.new) }
    {
        match self.earlier.insert(id, earlier) {
            Ok(_) => Ok(()),
            Err(_) => Err(AllocError),
        }
    }

    /// Makes two definitions one named type. After an error the named types must not be used.
    fn join(&mut self, one: DefinedTypeId, other: DefinedTypeId) -> Result<(), AllocError>
        ensures joined { OnOk result (AreJoined self.old one other self.new) }
        ensures one { OnOk result (IsOneType self.new one other) }
        ensures stay { OnOk result (StayOne self.old self.new) }
        ensures only { OnOk result (TouchesOnly self.old one other self.new) }
    {
        let first_of_one = self.first(one);
        let first_of_other = self.first(other);
        let first = lower(first_of_one, first_of_other);
        self.put(first_of_one, first)?;
        self.put(first_of_other, first)?;
        self.put(one, first)?;
        self.put(other, first)?;
        Ok(())
    }
}

/// Returns the value type under a name of a union, or `value` if there is none.
fn standing(types: &Types, union: &Union, name: &str, value: DefinedTypeId) -> DefinedTypeId
    ensures first { (e : AnExport) (d : Defined) → find_name union.now.exports name.now ≡ Some e → listed_value types.now e.kind ≡ Some d → result ≡ d }
    ensures found { (result ≡ value) ⊎ ((e : AnExport) × (find_name union.now.exports name.now ≡ Some e) × (listed_value types.now e.kind ≡ Some result)) }
{
    match union.exports.get(name) {
        Some(export) => match listed_value(types, export.kind) {
            Some(first) => first,
            None => value,
        },
        None => value,
    }
}

/// Joins an export of a part with the value type under its name in the union.
fn join_listed(
    named: &mut NamedTypes,
    types: &Types,
    union: &Union,
    name: &str,
    kind: ItemKind,
) -> Result<(), AllocError>
    ensures one { OnOk result (AreAllOne (IsListedWith types.now union.now.exports name.now kind) named.new) }
    ensures along { OnOk result (JoinsAlong (IsListedWith types.now union.now.exports name.now kind) named.old named.new) }
    ensures stay { OnOk result (StayOne named.old named.new) }
{
    let Some(value) = listed_value(types, kind) else {
        return Ok(());
    };
    let first = standing(types, union, name, value);
    named.join(first, value)?;
    Ok(())
}

/// Joins each export of a part with the value type under its name in the union.
fn join_part(
    named: &mut NamedTypes,
    types: &Types,
    union: &Union,
    part: &Part,
) -> Result<(), AllocError>
    requires { HasInterface types.now part.now.interface }
    ensures one { OnOk result (AreAllOne (IsListedIn types.now union.now.exports (interface_exports types.now part.now.interface)) named.new) }
    ensures along { OnOk result (JoinsAlong (IsListedIn types.now union.now.exports (interface_exports types.now part.now.interface)) named.old named.new) }
    ensures stay { OnOk result (StayOne named.old named.new) }
{
    let exports = &types[part.interface].exports;
    for i in 0..exports.len() {
        let (name, kind) = exports.entry_at(i);
        join_listed(named, types, union, name, *kind)?;
    }
    Ok(())
}

/// Joins the exports of a part with those of its union.
fn join_in_union(
    named: &mut NamedTypes,
    types: &Types,
    unions: &[Union],
    part: &Part,
) -> Result<(), AllocError>
    requires { HasInterface types.now part.now.interface }
    ensures one { OnOk result (AreAllOne (IsListedBy types.now unions.now part.now) named.new) }
    ensures along { OnOk result (JoinsAlong (IsListedBy types.now unions.now part.now) named.old named.new) }
    ensures stay { OnOk result (StayOne named.old named.new) }
{
    match unions.get(part.union) {
        Some(union) => join_part(named, types, union, part),
        None => Ok(()),
    }
}

/// Joins the definitions that parts export under one name of one union.
fn join_parts(
    named: &mut NamedTypes,
    types: &Types,
    unions: &[Union],
    parts: &[Part],
) -> Result<(), AllocError>
    requires held { (p : ℕ) (x : APart) → slice_get parts.now p ≡ Some x → HasInterface types.now x.interface }
    ensures one { OnOk result (AreAllOne (IsUnited types.now unions.now parts.now) named.new) }
    ensures along { OnOk result (JoinsAlong (IsUnited types.now unions.now parts.now) named.old named.new) }
    ensures stay { OnOk result (StayOne named.old named.new) }
{
    for p in 0..parts.len() {
        join_in_union(named, types, unions, &parts[p])?;
    }
    Ok(())
}

/// Returns the value type of an entry's class, read from the entry with the canonical name.
fn class_value(
    types: &Types,
    entries: &[Entry],
    numbers: &[usize],
    positions: &[usize],
    index: usize,
) -> Option<DefinedTypeId>
    ensures { result ≡ class_value types.now entries.now numbers.now positions.now index }
{
    let number = *numbers.get(index)?;
    let position = *positions.get(number)?;
    let entry = entries.get(position)?;
    listed_value(types, entry.kind())
}

/// Joins the value type of an entry with that of its class.
fn join_entry(
    named: &mut NamedTypes,
    types: &Types,
    kind: ItemKind,
    class: Option<DefinedTypeId>,
) -> Result<(), AllocError>
    ensures one { OnOk result (AreAllOne (IsAskedWith types.now kind class) named.new) }
    ensures along { OnOk result (JoinsAlong (IsAskedWith types.now kind class) named.old named.new) }
    ensures stay { OnOk result (StayOne named.old named.new) }
{
    let Some(value) = listed_value(types, kind) else {
        return Ok(());
    };
    let first = class.unwrap_or(value);
    named.join(first, value)?;
    Ok(())
}

/// Joins the value types of the entries of each class.
fn join_entries(
    named: &mut NamedTypes,
    types: &Types,
    entries: &[Entry],
    numbers: &[usize],
    positions: &[usize],
) -> Result<(), AllocError>
    ensures one { OnOk result (AreAllOne (IsClassed types.now entries.now numbers.now positions.now) named.new) }
    ensures along { OnOk result (JoinsAlong (IsClassed types.now entries.now numbers.now positions.now) named.old named.new) }
    ensures stay { OnOk result (StayOne named.old named.new) }
{
    for i in 0..entries.len() {
        let class = class_value(types, entries, numbers, positions, i);
        join_entry(named, types, entries[i].kind(), class)?;
    }
    Ok(())
}

/// Returns which definitions are one named type.
///
/// These are the definitions that parts of one union export under one name, and those that are entries of one class.
///
/// # Errors
/// - [`AllocError`] if out of memory.
pub fn named_types(
    alloc: Global,
    types: &Types,
    entries: &[Entry],
    classes: &Classes,
    unions: &[Union],
    parts: &[Part],
) -> Result<NamedTypes, AllocError>
    requires held { (p : ℕ) (x : APart) → slice_get parts.now p ≡ Some x → HasInterface types.now x.interface }
    ensures united { IfOk result (λ t. AreUnited types.now unions.now parts.now t) }
    ensures classed { IfOk result (λ t. AreClassed types.now entries.now classes.now.numbers.items classes.now.positions.items t) }
    ensures named { IfOk result (λ t. (a b : Defined) → IsOneType t a b ↔ AreNamedAlike types.now unions.now parts.now entries.now classes.now.numbers.items classes.now.positions.items a b) }
{
    let mut named = NamedTypes::new(alloc);
    join_parts(&mut named, types, unions, parts)?;
    join_entries(
        &mut named,
        types,
        entries,
        classes.numbers(),
        classes.positions(),
    )?;
    Ok(named)
}
