//! The uses of the interfaces inside an import.
ghost use Rattle.std.specs.Prelude.{List, ◌≡◌, ◌<◌, ◌++◌, ◌∷◌, [], Some, false, true, length, map, slice_get, IfOk, OnOk};
ghost use Rattle.wac_types_collection.specs.collection.Collection.{HasInterface, holds_all, interface_exports, item_at, kind_types};
ghost use Rattle.wac_types_shapes.specs.declared.shapes.component.Interface.{Interface as AnInterface};
ghost use Rattle.wac_types_shapes.specs.declared.shapes.component.InterfaceId.{InterfaceId as AnId};
ghost use Rattle.wac_types_shapes.specs.declared.shapes.component.ItemKind.TheVariants as kind_of;
ghost use Rattle.wac_merge_classes.specs.entries.Bindings.{AreHeld};
ghost use Rattle.wac_merge_classes.specs.entries.Classes.{by_names};
ghost use Rattle.wac_merge_classes.specs.terms.Merge.{import_entries};
ghost use Rattle.wac_types_collection.specs.private.subtyping.Extended.{IsExtended};
ghost use Rattle.wac_merge_unions.specs.uses.KeptUses.{with_instance};
ghost use Rattle.wac_merge_unions.specs.uses.Using.{AreAlike, AreBare, AreInside, AreInterfaces, AreKnown, HasClasses, HaveListed, HaveMore, HaveUses, IsAmong, IsItemPlaced, IsOpened, IsUsing, IsWithUses, MayHave, placed, placed_from, uses_among};

use crate::uses::imports::no_interfaces;
use crate::uses::uses::{Asked, Place, copied, kept_uses};
use indexmap::IndexMap;
use std::alloc::{AllocError, Global};
use wac_types_collection::subtyping::laws::growth_keeps_trees;
use wac_types_collection::{
    AddTypeError, Interface, InterfaceId, ItemKind, Named, ShapeError, Types, UsedType,
};

/// Appends the interface of an item that is an instance.
///
/// # Errors
/// - [`AllocError`] if out of memory.
pub fn put_user(users: &mut Vec<InterfaceId>, kind: ItemKind) -> Result<(), AllocError>
    ensures { OnOk result (users.new.items ≡ users.old.items ++ with_instance kind []) }
{
    if let ItemKind::Instance(id) = kind {
        users.push(id)?;
    }
    Ok(())
}

/// Appends the interface of an instance to the list of its name, if `listed` has that name.
fn put_named(
    lists: &mut Vec<Vec<InterfaceId>>,
    listed: &Named<ItemKind>,
    name: &str,
    kind: ItemKind,
) -> Result<(), AllocError>
    requires { length lists.old.items ≡ length listed.now }
    ensures { OnOk result (HaveMore listed.now ((name.now, kind) ∷ []) lists.old.items lists.new.items) }
{
    let ItemKind::Instance(id) = kind else {
        return Ok(());
    };
    listed.law(); // proof only
    let Some((index, _)) = listed.get_full(name) else {
        return Ok(());
    };
    lists[index].push(id)?;
    Ok(())
}

/// Appends the interface of each instance of `others` to the list of its name, if `listed` has that name.
fn put_listed(
    lists: &mut Vec<Vec<InterfaceId>>,
    listed: &Named<ItemKind>,
    others: &Named<ItemKind>,
) -> Result<(), AllocError>
    requires { length lists.old.items ≡ length listed.now }
    ensures { OnOk result (HaveMore listed.now others.now lists.old.items lists.new.items) }
{
    others.law(); // proof only
    for i in 0..others.len() {
        let (name, kind) = others.entry_at(i);
        put_named(lists, listed, name, *kind)?;
    }
    Ok(())
}

/// Returns for each of these items the interfaces of the instances that `users` export under its name.
fn listed_users(
    asked: &Asked<'_>,
    users: &[InterfaceId],
    listed: &Named<ItemKind>,
) -> Result<Vec<Vec<InterfaceId>>, AllocError>
    requires users { AreInterfaces asked.now.types.now users.now }
    ensures { IfOk result (λ v. HaveListed asked.now.types.now users.now listed.now v.items) }
{
    let mut lists = no_interfaces(asked.alloc, listed.len())?;
    for i in 0..users.len() {
        put_listed(&mut lists, listed, &asked.types[users[i]].exports)?;
    }
    Ok(lists)
}

/// Copies ids.
fn copied_ids(alloc: Global, ids: &[InterfaceId]) -> Result<Vec<InterfaceId>, AllocError>
    ensures { IfOk result (λ v. v.items ≡ ids.now) }
{
    let mut copied = Vec::new(alloc);
    copied.extend_from_slice(ids)?;
    Ok(copied)
}

/// The positions of interfaces, each by its id and by the interfaces that it unites.
type Known = IndexMap<(InterfaceId, Vec<InterfaceId>), usize>;

/// The interfaces inside an import, that of the import first. Each precedes those of the instances that it exports.
#[derive(Drop)]
pub struct Inside {
    /// The interfaces.
    interfaces: Vec<InterfaceId>,
    /// The interfaces that each of them unites.
    users: Vec<Vec<InterfaceId>>,
    /// For each of them, the position of the interface of each instance that it exports.
    inner: Vec<Vec<usize>>,
}

impl Inside {
    /// Returns the interfaces inside interface `id`, which unites `users`. It does not recurse.
    fn new(
        asked: &Asked<'_>,
        merged: &Types,
        users: &[InterfaceId],
        id: InterfaceId,
    ) -> Result<Inside, AllocError>
        requires users { AreInterfaces asked.now.types.now users.now }
        requires bare { (ws : List AnId) × AreBare merged.now ws × IsAmong ws id }
        ensures inside { IfOk result (λ x. AreInside asked.now.types.now merged.now id users.now x.interfaces.items (map (λ v. v.items) x.users.items) (map (λ v. v.items) x.inner.items)) }
        ensures all { IfOk result (λ x. length x.inner.items ≡ length x.interfaces.items) }
    {
        merged.law(); // proof only
        asked.types.law(); // proof only
        let mut inside = Inside {
            interfaces: Vec::new(asked.alloc),
            users: Vec::new(asked.alloc),
            inner: Vec::new(asked.alloc),
        };
        let mut of = Vec::new(asked.alloc);
        of.extend_from_slice(users)?;
        inside.interfaces.push(id)?;
        inside.users.push(of)?;
        let mut position = 0;
        while position < inside.interfaces.len() {
            inside.open(asked, merged, position)?;
            position += 1;
        }
        Ok(inside)
    }

    /// Appends the interfaces of the instances that the interface at `position` exports.
    fn open(&mut self, asked: &Asked<'_>, merged: &Types, position: usize) -> Result<(), AllocError>
        requires within { position < length self.old.interfaces.items }
        requires counted { length self.old.users.items ≡ length self.old.interfaces.items }
        requires there { (i : AnId) → slice_get self.old.interfaces.items position ≡ Some i → HasInterface merged.now i }
        requires users { (is : List AnId) → slice_get (map (λ v. v.items) self.old.users.items) position ≡ Some is → AreInterfaces asked.now.types.now is }
        ensures { OnOk result (IsOpened asked.now.types.now merged.now position self.old.interfaces.items (map (λ v. v.items) self.old.users.items) (map (λ v. v.items) self.old.inner.items) self.new.interfaces.items (map (λ v. v.items) self.new.users.items) (map (λ v. v.items) self.new.inner.items)) }
    {
        let listed = &merged[self.interfaces[position]].exports;
        listed.law(); // proof only
        let lists = listed_users(asked, self.users[position].as_slice(), listed)?;
        let mut places = Vec::new(asked.alloc);
        let mut known = IndexMap::new(asked.alloc);
        for j in 0..listed.len() {
            let (_, kind) = listed.entry_at(j);
            let users = lists[j].as_slice();
            let place = self.place(asked.alloc, position, users, *kind, &mut known)?;
            places.push(place)?;
        }
        self.inner.push(places)?;
        Ok(())
    }

    /// Returns a position after `position` of an instance's interface that unites `users`.
    /// It is appended if it is not known yet. For any other item the position has no meaning.
    fn place(
        &mut self,
        alloc: Global,
        position: usize,
        users: &[InterfaceId],
        kind: ItemKind,
        known: &mut Known,
    ) -> Result<usize, AllocError>
        requires within { position < length self.old.interfaces.items }
        requires counted { length self.old.users.items ≡ length self.old.interfaces.items }
        requires known { AreKnown position self.old.interfaces.items (map (λ v. v.items) self.old.users.items) known.old.entries }
        ensures placed { IfOk result (λ p. IsItemPlaced position self.old.interfaces.items (map (λ v. v.items) self.old.users.items) kind users.now self.new.interfaces.items (map (λ v. v.items) self.new.users.items) p) }
        ensures known { OnOk result (AreKnown position self.new.interfaces.items (map (λ v. v.items) self.new.users.items) known.new.entries) }
        ensures inner { self.new.inner ≡ self.old.inner }
    {
        let place = self.interfaces.len();
        let ItemKind::Instance(id) = kind else {
            return Ok(place);
        };
        let key = (id, copied_ids(alloc, users)?);
        if let Some((_, _, there)) = known.get_full(&key) {
            return Ok(*there);
        }
        known.insert(key, place)?;
        self.users.push(copied_ids(alloc, users)?)?;
        self.interfaces.push(id)?;
        Ok(place)
    }

    /// Returns the first interface with its uses of `imports`. Inner interfaces get theirs before outer ones.
    fn using(
        &self,
        asked: &Asked<'_>,
        merged: &mut Types,
        imports: &Named<ItemKind>,
    ) -> Result<InterfaceId, AllocError>
        requires classes { HasClasses asked.now }
        requires imports { AreHeld merged.old (import_entries imports.now) }
        requires inside { (root : AnId) × (of : List AnId) × AreInside asked.now.types.now merged.old root of self.now.interfaces.items (map (λ v. v.items) self.now.users.items) (map (λ v. v.items) self.now.inner.items) }
        requires all { length self.now.inner.items ≡ length self.now.interfaces.items }
        ensures extended { IsExtended merged.old merged.new }
        ensures using { IfOk result (λ w. (root : AnId) (of : List AnId) → slice_get self.now.interfaces.items 0 ≡ Some root → slice_get (map (λ v. v.items) self.now.users.items) 0 ≡ Some of → IsUsing asked.now.types.now merged.new (uses_among by_names asked.now.types.now asked.now.entries.now merged.new (import_entries imports.now)) root w of) }
    {
        merged.law(); // proof only
        let count = self.interfaces.len();
        let mut done = Vec::new(asked.alloc);
        done.extend_from_slice(self.interfaces.as_slice())?;
        for back in 0..count {
            let position = count - 1 - back;
            merged.law(); // proof only
            let users = self.users[position].as_slice();
            let places = self.inner[position].as_slice();
            let id = self.interfaces[position];
            let id = using_at(asked, merged, imports, users, id, places, done.as_slice())?;
            merged.law(); // proof only
            done[position] = id;
        }
        Ok(done[0])
    }
}

/// Returns the interface that replaces that of an instance at `index`, or the same one if none does.
fn placed_id(places: &[usize], done: &[InterfaceId], index: usize, id: InterfaceId) -> InterfaceId
    ensures { kind_of.Instance result ≡ placed places.now done.now index (kind_of.Instance id) }
{
    let Some(place) = places.get(index) else {
        return id;
    };
    let Some(using) = done.get(*place) else {
        return id;
    };
    *using
}

/// Returns an item with the interface of an instance replaced.
fn placed_item(places: &[usize], done: &[InterfaceId], index: usize, kind: ItemKind) -> ItemKind
    ensures { result ≡ placed places.now done.now index kind }
{
    let ItemKind::Instance(id) = kind else {
        return kind;
    };
    ItemKind::Instance(placed_id(places, done, index, id))
}

/// Returns whether an item is unchanged if the interface of an instance is replaced.
fn is_same(places: &[usize], done: &[InterfaceId], index: usize, kind: ItemKind) -> bool
    ensures { result ≡ true → placed places.now done.now index kind ≡ kind }
{
    let ItemKind::Instance(id) = kind else {
        return true;
    };
    placed_id(places, done, index, id).0 == id.0
}

/// Returns whether one of the items changes if the interfaces of instances are replaced.
fn is_changed(listed: &Named<ItemKind>, places: &[usize], done: &[InterfaceId]) -> bool
    ensures { result ≡ false → placed_from places.now done.now 0 listed.now ≡ listed.now }
{
    for j in 0..listed.len() {
        let (_, kind) = listed.entry_at(j);
        if !is_same(places, done, j, *kind) {
            return true;
        }
    }
    false
}

/// Returns items with the interfaces of instances replaced.
fn placed_items(
    alloc: Global,
    listed: &Named<ItemKind>,
    places: &[usize],
    done: &[InterfaceId],
) -> Result<Named<ItemKind>, AllocError>
    ensures { IfOk result (λ items. items ≡ placed_from places.now done.now 0 listed.now) }
{
    listed.law(); // proof only
    let mut items = Named::with_capacity(alloc, listed.len())?;
    for j in 0..listed.len() {
        let (name, kind) = listed.entry_at(j);
        let item = placed_item(places, done, j, *kind);
        match items.insert(alloc, name, item) {
            Ok(()) => {}
            Err(ShapeError::OutOfMemory) => return Err(AllocError),
            Err(ShapeError::NameTwice) => unreachable!(),
        }
    }
    Ok(items)
}

/// Returns the uses of `users`, redirected to `imports`, for an interface with the exports `listed`.
fn uses_at(
    asked: &Asked<'_>,
    merged: &Types,
    imports: &Named<ItemKind>,
    users: &[InterfaceId],
    listed: &Named<ItemKind>,
) -> Result<Named<UsedType>, AllocError>
    requires classes { HasClasses asked.now }
    requires users { AreInterfaces asked.now.types.now users.now }
    ensures { IfOk result (λ us. us ≡ uses_among by_names asked.now.types.now asked.now.entries.now merged.now (import_entries imports.now) users.now listed.now) }
{
    let place = Place {
        merged,
        imports,
        listed,
    };
    kept_uses(asked, &place, users)
}

/// Adds a copy of an interface with these uses and exports.
fn add_using(
    alloc: Global,
    merged: &mut Types,
    id: InterfaceId,
    uses: Named<UsedType>,
    exports: Named<ItemKind>,
) -> Result<InterfaceId, AllocError>
    requires there { HasInterface merged.old id }
    requires right { MayHave merged.old id exports uses }
    requires exports { holds_all merged.old (kind_types exports) ≡ true }
    ensures extended { IsExtended merged.old merged.new }
    ensures added { IfOk result (λ w. IsWithUses merged.new id w exports uses) }
{
    merged.law(); // proof only
    growth_keeps_trees(merged); // proof only
    let text = copied(alloc, &merged[id].id)?;
    match merged.add_interface(Interface {
        id: text,
        uses,
        exports,
    }) {
        Ok(id) => Ok(id),
        Err(AddTypeError::OutOfMemory) => Err(AllocError),
        Err(_) => unreachable!(),
    }
}

/// Returns an interface with its uses of `imports`, if none of its instances has changed.
fn using_here(
    asked: &Asked<'_>,
    merged: &mut Types,
    imports: &Named<ItemKind>,
    users: &[InterfaceId],
    id: InterfaceId,
) -> Result<InterfaceId, AllocError>
    requires classes { HasClasses asked.now }
    requires users { AreInterfaces asked.now.types.now users.now }
    requires there { HasInterface merged.old id }
    requires imports { AreHeld merged.old (import_entries imports.now) }
    requires none { (it : AnInterface) → item_at merged.old.interfaces id.0 ≡ Some it → it.uses ≡ [] }
    ensures extended { IsExtended merged.old merged.new }
    ensures added { IfOk result (λ w. IsWithUses merged.new id w (interface_exports merged.old id) (uses_among by_names asked.now.types.now asked.now.entries.now merged.new (import_entries imports.now) users.now (interface_exports merged.old id))) }
{
    merged.law(); // proof only
    merged.uses_law(); // proof only
    let listed = &merged[id].exports;
    listed.law(); // proof only
    let uses = uses_at(asked, merged, imports, users, listed)?;
    if uses.len() == 0 {
        return Ok(id);
    }
    let exports = listed.copied(asked.alloc)?;
    let id = add_using(asked.alloc, merged, id, uses, exports)?;
    merged.law(); // proof only
    Ok(id)
}

/// Returns an interface with its uses of `imports` and with these exports.
fn using_with(
    asked: &Asked<'_>,
    merged: &mut Types,
    imports: &Named<ItemKind>,
    users: &[InterfaceId],
    id: InterfaceId,
    exports: Named<ItemKind>,
) -> Result<InterfaceId, AllocError>
    requires classes { HasClasses asked.now }
    requires users { AreInterfaces asked.now.types.now users.now }
    requires there { HasInterface merged.old id }
    requires imports { AreHeld merged.old (import_entries imports.now) }
    requires none { (it : AnInterface) → item_at merged.old.interfaces id.0 ≡ Some it → it.uses ≡ [] }
    requires alike { AreAlike merged.old (interface_exports merged.old id) exports }
    ensures extended { IsExtended merged.old merged.new }
    ensures added { IfOk result (λ w. IsWithUses merged.new id w exports (uses_among by_names asked.now.types.now asked.now.entries.now merged.new (import_entries imports.now) users.now exports)) }
{
    merged.law(); // proof only
    merged.uses_law(); // proof only
    exports.law(); // proof only
    let uses = uses_at(asked, merged, imports, users, &exports)?;
    let id = add_using(asked.alloc, merged, id, uses, exports)?;
    merged.law(); // proof only
    Ok(id)
}

/// Returns an interface with its uses of `imports`. The instances that it exports have theirs already, in `done`.
fn using_at(
    asked: &Asked<'_>,
    merged: &mut Types,
    imports: &Named<ItemKind>,
    users: &[InterfaceId],
    id: InterfaceId,
    places: &[usize],
    done: &[InterfaceId],
) -> Result<InterfaceId, AllocError>
    requires classes { HasClasses asked.now }
    requires users { AreInterfaces asked.now.types.now users.now }
    requires there { HasInterface merged.old id }
    requires imports { AreHeld merged.old (import_entries imports.now) }
    requires none { (it : AnInterface) → item_at merged.old.interfaces id.0 ≡ Some it → it.uses ≡ [] }
    requires inner { HaveUses asked.now.types.now merged.old (uses_among by_names asked.now.types.now asked.now.entries.now merged.old (import_entries imports.now)) users.now (interface_exports merged.old id) places.now done.now }
    ensures extended { IsExtended merged.old merged.new }
    ensures using { IfOk result (λ w. IsUsing asked.now.types.now merged.new (uses_among by_names asked.now.types.now asked.now.entries.now merged.new (import_entries imports.now)) id w users.now) }
{
    merged.law(); // proof only
    let listed = &merged[id].exports;
    if is_changed(listed, places, done) {
        let exports = placed_items(asked.alloc, listed, places, done)?;
        let id = using_with(asked, merged, imports, users, id, exports)?;
        merged.law(); // proof only
        return Ok(id);
    }
    let id = using_here(asked, merged, imports, users, id)?;
    merged.law(); // proof only
    Ok(id)
}

/// Returns interface `id`, which unites `users`, with its uses of `imports`. The interfaces inside it get theirs too.
///
/// # Errors
/// - [`AllocError`] if out of memory. The merged collection may then hold more interfaces.
pub fn with_inner_uses(
    asked: &Asked<'_>,
    merged: &mut Types,
    imports: &Named<ItemKind>,
    users: &[InterfaceId],
    id: InterfaceId,
) -> Result<InterfaceId, AllocError>
    requires classes { HasClasses asked.now }
    requires users { AreInterfaces asked.now.types.now users.now }
    requires imports { AreHeld merged.old (import_entries imports.now) }
    requires bare { (ws : List AnId) × AreBare merged.old ws × IsAmong ws id }
    ensures extended { IsExtended merged.old merged.new }
    ensures using { IfOk result (λ w. IsUsing asked.now.types.now merged.new (uses_among by_names asked.now.types.now asked.now.entries.now merged.new (import_entries imports.now)) id w users.now) }
{
    let inside = Inside::new(asked, merged, users, id)?;
    inside.using(asked, merged, imports)
}
