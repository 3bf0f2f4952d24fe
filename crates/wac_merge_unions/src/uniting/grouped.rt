//! The exports of the parts of a union, grouped by name.
ghost use Rattle.std.specs.Prelude.{◌≡◌, ◌<◌, [], ◌∷◌, ◌++◌, length, Some, IfOk, OnOk, slice_get};
ghost use Rattle.std.specs.List.{AllByRecursion};
ghost use Rattle.wac_types_shapes.specs.shapes.Named.{NoNameTwice};
ghost use Rattle.wac_merge_unions.specs.private.uniting.UnionSteps.{grouped, IsHeldPart, with_all_listed, with_listed};
ghost use Rattle.wac_merge_classes.specs.terms.Unions.{part_lists};
ghost use Rattle.wac_merge_unions.specs.private.uniting.GroupViews.{listed_items};

use indexmap::IndexMap;
use std::alloc::{AllocError, Global};
use std::marker::Model;
use std::mem::replace;
use std::slice;
use wac_merge_classes::terms::parts::Part;
use wac_types_collection::{ItemKind, Named, Types};

/// The exports under one name, each with the position of its part. Most names have one export, which is stored inline.
#[derive(Drop)]
pub(crate) enum Listed {
    /// One part exports this.
    One((usize, ItemKind)),
    /// Several parts export these.
    Several(Vec<(usize, ItemKind)>),
}

impl Listed {
    /// Returns the exports in order.
    fn as_slice(&self) -> &[(usize, ItemKind)]
        ensures { result.now ≡ listed_items self.now }
    {
        match self {
            Listed::One(first) => slice::from_ref(first),
            Listed::Several(listed) => listed.as_slice(),
        }
    }

    /// Appends an export. The first list that is needed reuses a spare buffer.
    fn push(
        &mut self,
        alloc: Global,
        spare: &mut Vec<Vec<(usize, ItemKind)>>,
        more: (usize, ItemKind),
    ) -> Result<(), AllocError>
        ensures { OnOk result (listed_items self.new ≡ listed_items self.old ++ more ∷ []) }
    {
        match self {
            Listed::Several(listed) => listed.push(more)?,
            Listed::One(first) => {
                let mut listed = empty(alloc, spare)?;
                listed.push(*first)?;
                listed.push(more)?;
                *self = Listed::Several(listed);
            }
        }
        Ok(())
    }
}

/// Returns an empty list, in a spare buffer if there is one.
fn empty(
    alloc: Global,
    spare: &mut Vec<Vec<(usize, ItemKind)>>,
) -> Result<Vec<(usize, ItemKind)>, AllocError>
    ensures { IfOk result (λ l. l.items ≡ []) }
{
    let Some(mut list) = spare.pop() else {
        return Vec::with_capacity(alloc, 4);
    };
    list.clear();
    Ok(list)
}

/// Removes all entries and keeps the buffers of their lists. A buffer is dropped if it cannot be kept.
fn take_back(
    alloc: Global,
    entries: &mut IndexMap<&str, Listed>,
    spare: &mut Vec<Vec<(usize, ItemKind)>>,
)
    ensures { entries.new.entries ≡ [] }
{
    for listed in entries.values_mut() {
        if let Listed::Several(listed) = listed {
            let _ = spare.push(replace(listed, Vec::new(alloc)));
        }
    }
    // Unlike `clear`, this takes time by the entries that are removed, not by the capacity.
    entries.truncate(0);
}

/// The exports of the parts of a union by name, in order of first appearance. Names are borrowed from the collection.
#[derive(Drop)]
pub(crate) struct Grouped<'a> {
    entries: IndexMap<&'a str, Listed>,
    /// Spare buffers for lists.
    spare: Vec<Vec<(usize, ItemKind)>>,
}

impl<'a> Model for Grouped<'a> {
    ghost use Rattle.std.specs.Prelude.{List, ℕ};
    ghost use Rattle.wac_types_shapes.specs.primitives.Name.{Name};
    ghost use Rattle.wac_types_shapes.specs.shapes.Named.{NoNameTwice};
    ghost use Rattle.wac_types_shapes.specs.declared.shapes.component.ItemKind.{ItemKind};
    ghost use Rattle.wac_merge_unions.specs.private.uniting.GroupViews.{groups_of};

    ghost Value = { List (Name × List (ℕ × ItemKind)) };

    ghost view = { λ g. groups_of g.entries.entries };

    ghost invariant = { λ g. NoNameTwice (groups_of g.entries.entries) };
}

impl<'a> Grouped<'a> {
    /// Returns a grouping without names.
    pub(crate) fn new(alloc: Global) -> Grouped<'a> {
        Grouped {
            entries: IndexMap::new(alloc),
            spare: Vec::new(alloc),
        }
    }

    /// Removes all names and keeps the buffers.
    fn clear(&mut self, alloc: Global)
        ensures { self.new ≡ [] }
    {
        take_back(alloc, &mut self.entries, &mut self.spare);
    }

    /// Groups the exports of the parts of a union, in place of those of the union before. It reuses their buffers.
    pub(crate) fn group(
        &mut self,
        alloc: Global,
        types: &'a Types,
        parts: &[Part],
        members: &[usize],
    ) -> Result<(), AllocError>
        requires { AllByRecursion (IsHeldPart types.now parts.now) members.now }
        ensures grouped { OnOk result (self.new ≡ grouped types.now parts.now [] members.now) }
        ensures names { OnOk result (AllByRecursion (λ p. NoNameTwice (part_lists types.now parts.now p)) members.now) }
    {
        self.clear(alloc);
        for index in 0..members.len() {
            let part = members[index];
            let exports = &types[parts[part].interface].exports;
            exports.law(); // proof only
            self.put_all(alloc, part, exports)?;
        }
        Ok(())
    }

    /// Brings the fact that no name appears twice. For proofs only.
    pub(crate) fn law(&self)
        ensures { NoNameTwice self.now }
    {
        let _ = &self.entries;
    }

    /// Returns the number of names.
    pub(crate) fn len(&self) -> usize
        ensures { result ≡ length self.now }
    {
        self.entries.len()
    }

    /// Returns the name at a position and the exports under it.
    pub(crate) fn entry_at(&self, index: usize) -> (&str, &[(usize, ItemKind)])
        requires { index < length self.now }
        ensures { slice_get self.now index ≡ Some (result.0.now, result.1.now) }
    {
        let (name, listed) = self.entries.get_index(index).unwrap();
        (*name, listed.as_slice())
    }

    /// Appends an export of a part under its name.
    fn put(
        &mut self,
        alloc: Global,
        name: &'a str,
        part: usize,
        kind: ItemKind,
    ) -> Result<(), AllocError>
        ensures { OnOk result (self.new ≡ with_listed self.old name.now (part, kind)) }
    {
        // `insert_full` has replaced the earlier exports of the name. They are put back, with the new one after them.
        let (index, others) = self.entries.insert_full(name, Listed::One((part, kind)))?;
        if let Some(others) = others {
            let listed = self.entries.get_index_mut(index).unwrap();
            *listed = others;
            listed.push(alloc, &mut self.spare, (part, kind))?;
        }
        Ok(())
    }

    /// Appends all exports of a part under their names.
    fn put_all(
        &mut self,
        alloc: Global,
        part: usize,
        exports: &'a Named<ItemKind>,
    ) -> Result<(), AllocError>
        ensures { OnOk result (self.new ≡ with_all_listed self.old part exports.now) }
    {
        for index in 0..exports.len() {
            let (name, kind) = exports.entry_at(index);
            self.put(alloc, name, part, *kind)?;
        }
        Ok(())
    }
}
