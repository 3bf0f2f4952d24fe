//! The merged imports of entries that agree, and the collection of their types.
ghost use Rattle.std.specs.Prelude.{Contains, List, Some, length, map, slice_get, string_bytes, true, ℕ, ◌<◌, ◌≡◌, ◌↔◌, IfOk, OnOk};
ghost use Rattle.std.specs.Option.{option_map};
ghost use Rattle.wac_types_collection.specs.collection.Bound.{by_place};
ghost use Rattle.wac_types_collection.specs.collection.Collection.{HasInterface, IsWellFormed, holds_type};
ghost use Rattle.wac_types_collection.specs.collection.Uses.{IsSound};
ghost use Rattle.wac_types_collection.specs.subtyping.Called.{by_binding};
ghost use Rattle.wac_types_collection.specs.subtyping.Subtype.{by_name};
ghost use Rattle.wac_types_collection.specs.subtyping.TreeLaws.{IsDeepEnough};
ghost use Rattle.wac_types_shapes.specs.shapes.Kinds.{kind_type};
ghost use Rattle.wac_types_shapes.specs.primitives.Name.{Name as AName};
ghost use Rattle.wac_types_shapes.specs.declared.shapes.component.DefinedTypeId.{DefinedTypeId as Defined};
ghost use Rattle.wac_types_shapes.specs.declared.shapes.component.InterfaceId.{InterfaceId as AnId};
ghost use Rattle.wac_merge_classes.specs.entries.Agreement.{AllMembersAgree};
ghost use Rattle.wac_merge_classes.specs.entries.Bindings.{AreBindings, AreHeld};
ghost use Rattle.wac_merge_classes.specs.terms.ClassOrder.{IsWrittenOrder};
ghost use Rattle.wac_merge_classes.specs.entries.Classes.{AreClasses, Entry as AnEntry, by_names, class_names, is_asked, same_class};
ghost use Rattle.wac_merge_classes.specs.terms.Merge.{IsMerge, import_entries, is_on_track};
ghost use Rattle.wac_merge_imports.specs.private.unions.Basis.{IsBasis, IsBecame};
ghost use Rattle.wac_merge_imports.specs.unions.EntryFaults.{HasFaultsOfEntries};
ghost use Rattle.wac_merge_imports.specs.unions.Lighter.{IsLighter};
ghost use Rattle.wac_merge_imports.specs.unions.MergedScope.{BindsAsClasses};
ghost use Rattle.wac_merge_imports.specs.unions.OneId.{AreMadeOnce, HasOneIdEach};
ghost use Rattle.wac_merge_imports.specs.unions.WritingSteps.{AreImportsMadeOf, outside};
ghost use Rattle.wac_merge_imports.specs.unions.MergedClasses.{AreClassUnions, AreIds, AreImports, AreOnTrack, AreRoots, AreWrittenImports, IsClassKind, IsUnionId, first_id, with_root};
ghost use Rattle.wac_merge_classes.specs.private.terms.MergedKinds.{AreListedOnce};
ghost use Rattle.wac_merge_resources.specs.renaming.MadeOf.{AreMade, IsKindMadeOf};
ghost use Rattle.wac_merge_tables.specs.made.Made.{StayMade};
ghost use Rattle.wac_merge_resources.specs.private.renaming.RenamedTypes.{CanRenameAll, becomes};
ghost use Rattle.wac_types_collection.specs.private.subtyping.Extended.{IsExtended};
ghost use Rattle.wac_merge_classes.specs.terms.Unions.{AreUnions};
ghost use Rattle.wac_merge_classes.specs.terms.Writing.{IsGiven};
ghost use Rattle.wac_merge_classes.specs.declared.terms.parts.Part.{Part as APart};
ghost use Rattle.wac_merge_classes.specs.declared.terms.parts.Union.{Union as AUnion};
ghost use Rattle.wac_merge_resources.specs.values.NamedTypes.{AreClassed, AreNamedAlike, AreUnited, IsOneType};
ghost use Rattle.wac_merge_unions.specs.uses.KeptUses.{KeepsUses};
ghost use Rattle.wac_merge_unions.specs.uses.Using.{AreBareImports, AreUsing};
ghost use Rattle.wac_names.specs.Reading.{read_track};
ghost use Rattle.wac_names.specs.Views.{track_view};

use crate::unions::writing::{put_item, write_kind, write_unions};
use std::alloc::{AllocError, Global};
use std::marker::Model;
use wac_merge_classes::entries::bindings::{Bindings, class_tracks};
use wac_merge_classes::entries::bound::Bound;
use wac_merge_classes::entries::classes::Classes;
use wac_merge_classes::entries::entry::Entry;
use wac_merge_classes::terms::fresh::Fresh;
use wac_merge_resources::renaming::adding::add_fresh;
use wac_merge_resources::renaming::became::{Became, part_bounds};
use wac_merge_resources::renaming::outward::outward_in;
use wac_merge_resources::renaming::renamer::{Renamed, Renaming};
use wac_merge_resources::values::named::{NamedTypes, named_types};
use wac_merge_unions::Asked;
use wac_merge_unions::uniting::unions::Unions;
use wac_merge_unions::uses::imports::{imports_with_uses, no_interfaces};
use wac_names::tracks::Track;
use wac_types_collection::subtyping::laws::trees_are_whole;
use wac_types_collection::{InterfaceId, ItemKind, Named, Type, Types};

/// Adds the interface of an entry to those that its class unites.
///
/// These are the interfaces of all instances. Of interfaces as type items the first is enough.
fn put_root(roots: &mut Vec<InterfaceId>, kind: ItemKind) -> Result<(), AllocError>
    ensures { OnOk result (roots.new.items ≡ with_root roots.old.items kind) }
{
    match kind {
        ItemKind::Instance(id) => roots.push(id)?,
        ItemKind::TypeItem(Type::Interface(id)) if roots.is_empty() => roots.push(id)?,
        _ => {}
    }
    Ok(())
}

/// Returns the interfaces that each class unites.
fn class_roots(
    alloc: Global,
    entries: &[Entry],
    classes: &Classes,
) -> Result<Vec<Vec<InterfaceId>>, AllocError>
    requires classes { AreClasses by_names entries.now classes.now.numbers.items classes.now.positions.items classes.now.names }
    ensures { IfOk result (λ v. AreRoots entries.now (map (λ is. is.items) v.items)) }
{
    let numbers = classes.numbers();
    let mut roots = no_interfaces(alloc, classes.positions().len())?;
    for i in 0..entries.len() {
        put_root(&mut roots[numbers[i]], entries[i].kind())?;
    }
    Ok(roots)
}

/// Returns whether an item is an instance whose interface id has this track.
fn is_on_track(
    alloc: Global,
    types: &Types,
    track: &Track<'_>,
    kind: ItemKind,
) -> Result<bool, AllocError>
    requires { holds_type types.now (kind_type kind) ≡ true }
    ensures { IfOk result (λ is. (class : AName) → track_view track.now ≡ read_track class → is ≡ is_on_track by_names types.now class kind) }
{
    let ItemKind::Instance(id) = kind else {
        return Ok(false);
    };
    let Some(text) = &types[id].id else {
        return Ok(false);
    };
    Ok(Track::new(alloc, text.as_str())? == *track)
}

/// Returns for each class whether an entry is an instance whose interface id has the track of the class.
fn on_track(
    alloc: Global,
    types: &Types,
    entries: &[Entry],
    classes: &Classes,
) -> Result<Vec<bool>, AllocError>
    requires held { AreHeld types.now entries.now }
    requires classes { AreClasses by_names entries.now classes.now.numbers.items classes.now.positions.items classes.now.names }
    ensures { IfOk result (λ v. AreOnTrack types.now entries.now v.items) }
{
    let numbers = classes.numbers();
    let tracks = class_tracks(alloc, entries, classes)?;
    let mut on = vec![in alloc; false; tracks.len()]?;
    for i in 0..entries.len() {
        let number = numbers[i];
        let is = is_on_track(alloc, types, &tracks[number], entries[i].kind())?;
        on[number] = on[number] | is;
    }
    Ok(on)
}

/// Returns the id of the interface of a union's first part.
fn first_id(
    alloc: Global,
    types: &Types,
    unions: &Unions,
    position: usize,
) -> Result<Option<String>, AllocError>
    requires unions { (roots : List (List AnId)) × AreUnions types.now roots unions.now.unions.items unions.now.parts.items }
    requires within { position < length unions.now.unions.items }
    ensures { IfOk result (λ o. (x : AUnion) → slice_get unions.now.unions.items position ≡ Some x → option_map string_bytes o ≡ first_id types.now unions.now.parts.items x.parts.items) }
{
    let Some(part) = unions.unions[position].parts.first() else {
        return Ok(None);
    };
    match &types[unions.parts[*part].interface].id {
        Some(text) => Ok(Some(String::from_str(alloc, text.as_str())?)),
        None => Ok(None),
    }
}

/// Returns the id of a union's interface. `on` tells which classes have an entry with an id of their track.
///
/// The union of such a class has the canonical name as its id. Any other union has the id of its first part.
fn union_id(
    alloc: Global,
    types: &Types,
    entries: &[Entry],
    classes: &Classes,
    unions: &Unions,
    on: &[bool],
    position: usize,
) -> Result<Option<String>, AllocError>
    requires classes { AreClasses by_names entries.now classes.now.numbers.items classes.now.positions.items classes.now.names }
    requires unions { (roots : List (List AnId)) × AreUnions types.now roots unions.now.unions.items unions.now.parts.items }
    requires on { AreOnTrack types.now entries.now on.now }
    requires within { position < length unions.now.unions.items }
    ensures { IfOk result (λ o. (x : AUnion) → slice_get unions.now.unions.items position ≡ Some x → IsUnionId types.now entries.now unions.now.parts.items position x (option_map string_bytes o)) }
{
    if !on.get(position).copied().unwrap_or(false) {
        return first_id(alloc, types, unions, position);
    }
    let name = entries[classes.positions()[position]].name();
    Ok(Some(String::from_str(alloc, name)?))
}

/// Returns the id of each union's interface.
fn union_ids(
    alloc: Global,
    types: &Types,
    entries: &[Entry],
    classes: &Classes,
    unions: &Unions,
) -> Result<Vec<Option<String>>, AllocError>
    requires held { AreHeld types.now entries.now }
    requires classes { AreClasses by_names entries.now classes.now.numbers.items classes.now.positions.items classes.now.names }
    requires unions { (roots : List (List AnId)) × AreUnions types.now roots unions.now.unions.items unions.now.parts.items }
    ensures { IfOk result (λ ids. AreIds types.now entries.now unions.now.unions.items unions.now.parts.items (map (option_map string_bytes) ids.items)) }
{
    let on = on_track(alloc, types, entries, classes)?;
    let on = on.as_slice();
    let mut ids = Vec::new(alloc);
    for position in 0..unions.unions.len() {
        ids.push(union_id(alloc, types, entries, classes, unions, on, position)?)?;
    }
    Ok(ids)
}

/// Returns the interface of the union at a position.
fn interface_at(written: &[InterfaceId], position: usize) -> Option<InterfaceId>
    ensures { result ≡ slice_get written.now position }
{
    written.get(position).copied()
}

/// Returns the merged item of a class. `entry` has its canonical name.
fn class_kind(
    merged: &mut Types,
    renamed: &mut Renamed,
    renaming: &Renaming<'_>,
    written: &[InterfaceId],
    number: usize,
    entry: &Entry,
) -> Result<ItemKind, AllocError>
    requires outside { renaming.now.part ≡ None }
    requires held { holds_type renaming.now.types.now (kind_type entry.now.kind) ≡ true }
    requires known { CanRenameAll merged.old renaming.now.types.now renaming.now.became.now }
    requires given { IsGiven merged.old entry.now.kind (slice_get written.now number) }
    requires made { AreMade renaming.now.types.now renaming.now.became.now.named.now merged.old renamed.old.made }
    ensures extended { IsExtended merged.old merged.new }
    ensures made { OnOk result (AreMade renaming.now.types.now renaming.now.became.now.named.now merged.new renamed.new.made) }
    ensures kind { IfOk result (λ k. IsClassKind renaming.now.types.now merged.new renaming.now.became.now.parts.now renaming.now.became.now.bindings.now renaming.now.became.now.fresh.now written.now number entry.now k) }
    ensures once { IfOk result (λ k. IsKindMadeOf renaming.now.types.now merged.new (becomes renaming.now) renaming.now.became.now.named.now renamed.new.made entry.now.kind k) }
    ensures stay { OnOk result (StayMade renamed.old.made renamed.new.made) }
{
    if let Some(resource) = renaming.became.fresh.whole(number) {
        return Ok(ItemKind::TypeItem(Type::Resource(resource)));
    }
    renamed.forget();
    let inner = interface_at(written, number);
    write_kind(merged, renamed, renaming, inner, entry.name(), entry.kind())
}

/// Returns the merged import of each class, in this order.
fn class_imports(
    asked: &Asked<'_>,
    merged: &mut Types,
    renamed: &mut Renamed,
    became: &Became<'_>,
    written: &[InterfaceId],
    order: &[usize],
) -> Result<Named<ItemKind>, AllocError>
    requires held { AreHeld asked.now.types.now asked.now.entries.now }
    requires classes { AreClasses by_names asked.now.entries.now asked.now.classes.now.numbers.items asked.now.classes.now.positions.items asked.now.classes.now.names }
    requires known { CanRenameAll merged.old asked.now.types.now became.now }
    requires given { (i k : ℕ) (class : AName) (e : AnEntry) → slice_get asked.now.entries.now i ≡ Some e → slice_get (class_names by_names asked.now.entries.now) k ≡ Some class → same_class by_names asked.now.entries.now class e.name ≡ true → IsGiven merged.old e.kind (slice_get written.now k) }
    requires each { (k : ℕ) → Contains order.now k → k < length (class_names by_names asked.now.entries.now) }
    requires once { (i j k : ℕ) → slice_get order.now i ≡ Some k → slice_get order.now j ≡ Some k → i ≡ j }
    requires made { AreMade asked.now.types.now became.now.named.now merged.old renamed.old.made }
    ensures extended { IsExtended merged.old merged.new }
    ensures made { OnOk result (AreMade asked.now.types.now became.now.named.now merged.new renamed.new.made) }
    ensures imports { IfOk result (λ is. AreImports asked.now.types.now merged.new asked.now.entries.now became.now.parts.now became.now.bindings.now became.now.fresh.now written.now order.now (import_entries is)) }
    ensures once { IfOk result (λ is. AreImportsMadeOf asked.now.types.now merged.new (outside asked.now.types.now became.now) became.now.named.now renamed.new.made asked.now.entries.now asked.now.classes.now.positions.items order.now (import_entries is)) }
    ensures stay { OnOk result (StayMade renamed.old.made renamed.new.made) }
{
    merged.law(); // proof only
    let entries = asked.entries;
    let positions = asked.classes.positions();
    let renaming = Renaming {
        alloc: asked.alloc,
        types: asked.types,
        became,
        part: None,
    };
    let mut imports = Named::new(asked.alloc);
    for i in 0..order.len() {
        let number = order[i];
        let entry = &entries[positions[number]];
        let kind = class_kind(merged, renamed, &renaming, written, number, entry)?;
        put_item(asked.alloc, &mut imports, entry.name(), kind)?;
    }
    Ok(imports)
}

/// Brings the laws of a collection. For proofs only.
fn laws(types: &Types)
    ensures well_formed { IsWellFormed types.now }
    ensures sound { IsSound types.now }
    ensures named { IsDeepEnough by_name types.now }
    ensures placed { IsDeepEnough (by_place types.now) types.now }
    ensures bound { IsDeepEnough (by_binding types.now) types.now }
{
    types.law(); // proof only
    types.uses_law(); // proof only
    trees_are_whole(types); // proof only
}

/// Returns the unions of the interfaces of each class.
fn class_unions(
    alloc: Global,
    types: &Types,
    entries: &[Entry],
    classes: &Classes,
) -> Result<Unions, AllocError>
    requires held { AreHeld types.now entries.now }
    requires classes { AreClasses by_names entries.now classes.now.numbers.items classes.now.positions.items classes.now.names }
    ensures unions { IfOk result (λ u. AreClassUnions types.now entries.now u.unions.items u.parts.items) }
    ensures listed { IfOk result (λ u. AreListedOnce types.now u.parts.items) }
{
    let roots = class_roots(alloc, entries, classes)?;
    let unions = Unions::new(alloc, types, roots.as_slice())?;
    types.names_law(); // proof only
    Ok(unions)
}

/// Returns which definitions are one named type, by the unions and by the classes.
fn named_in(
    alloc: Global,
    types: &Types,
    entries: &[Entry],
    classes: &Classes,
    unions: &Unions,
) -> Result<NamedTypes, AllocError>
    requires held { (p : ℕ) (x : APart) → slice_get unions.now.parts.items p ≡ Some x → HasInterface types.now x.interface }
    ensures united { IfOk result (λ t. AreUnited types.now unions.now.unions.items unions.now.parts.items t) }
    ensures classed { IfOk result (λ t. AreClassed types.now entries.now classes.now.numbers.items classes.now.positions.items t) }
    ensures named { IfOk result (λ t. (a b : Defined) → IsOneType t a b ↔ AreNamedAlike types.now unions.now.unions.items unions.now.parts.items entries.now classes.now.numbers.items classes.now.positions.items a b) }
{
    let parts = unions.parts.as_slice();
    named_types(
        alloc,
        types,
        entries,
        classes,
        unions.unions.as_slice(),
        parts,
    )
}

/// What a merge starts from: the unions, what their parts bind, the new resources and the named types.
#[derive(Drop)]
struct Basis {
    unions: Unions,
    bound: Vec<Bound>,
    outward: Vec<Option<usize>>,
    fresh: Fresh,
    named: NamedTypes,
}

impl Basis {
    /// Returns the basis of a merge of these entries. Adds the new resources to the merged collection.
    fn of(
        alloc: Global,
        merged: &mut Types,
        types: &Types,
        entries: &[Entry],
        classes: &Classes,
        bindings: &Bindings,
    ) -> Result<Basis, AllocError>
        requires extended { IsExtended types.now merged.old }
        requires held { AreHeld types.now entries.now }
        requires classes { AreClasses by_names entries.now classes.now.numbers.items classes.now.positions.items classes.now.names }
        requires bindings { AreBindings types.now entries.now bindings.now }
        ensures extended { IsExtended merged.old merged.new }
        ensures basis { IfOk result (λ b. IsBasis types.now merged.new entries.now classes.now.numbers.items classes.now.positions.items bindings.now b) }
    {
        let unions = class_unions(alloc, types, entries, classes)?;
        let bound = part_bounds(alloc, types, unions.parts.as_slice())?;
        let outward = outward_in(alloc, unions.parts.as_slice(), bound.as_slice())?;
        let all = unions.unions.as_slice();
        let fresh = add_fresh(alloc, merged, types, entries, classes, bindings, all)?;
        let named = named_in(alloc, types, entries, classes, &unions)?;
        Ok(Basis {
            unions,
            bound,
            outward,
            fresh,
            named,
        })
    }

    /// Returns what types are rewritten by.
    fn became<'a>(&'a self, bindings: &'a Bindings) -> Became<'a>
        ensures { IsBecame self.now bindings.now result }
    {
        Became {
            parts: self.unions.parts.as_slice(),
            bound: self.bound.as_slice(),
            outward: self.outward.as_slice(),
            bindings,
            fresh: &self.fresh,
            named: &self.named,
        }
    }
}

/// Writes the unions and returns the merged imports in this order of the classes. They have no uses yet.
fn write_imports(
    asked: &Asked<'_>,
    merged: &mut Types,
    bindings: &Bindings,
    basis: &Basis,
    order: &[usize],
) -> Result<Named<ItemKind>, AllocError>
    requires held { AreHeld asked.now.types.now asked.now.entries.now }
    requires classes { AreClasses by_names asked.now.entries.now asked.now.classes.now.numbers.items asked.now.classes.now.positions.items asked.now.classes.now.names }
    requires bindings { AreBindings asked.now.types.now asked.now.entries.now bindings.now }
    requires agreed { AllMembersAgree by_names asked.now.types.now asked.now.entries.now }
    requires basis { IsBasis asked.now.types.now merged.old asked.now.entries.now asked.now.classes.now.numbers.items asked.now.classes.now.positions.items bindings.now basis.now }
    requires each { (k : ℕ) → Contains order.now k → k < length (class_names by_names asked.now.entries.now) }
    requires once { (i j k : ℕ) → slice_get order.now i ≡ Some k → slice_get order.now j ≡ Some k → i ≡ j }
    ensures extended { IsExtended merged.old merged.new }
    ensures imports { IfOk result (λ is. AreWrittenImports asked.now.types.now merged.new asked.now.entries.now basis.now.unions.unions.items basis.now.unions.parts.items bindings.now basis.now.fresh order.now (import_entries is)) }
    ensures once { IfOk result (λ is. AreMadeOnce asked.now.types.now merged.new asked.now.entries.now basis.now.unions.unions.items basis.now.unions.parts.items bindings.now basis.now.fresh basis.now.named asked.now.classes.now.positions.items order.now (import_entries is)) }
{
    let (alloc, types) = (asked.alloc, asked.types);
    types.law(); // proof only
    types.uses_law(); // proof only
    merged.law(); // proof only
    let unions = &basis.unions;
    let became = basis.became(bindings);
    let ids = union_ids(alloc, types, asked.entries, asked.classes, unions)?;
    let ids = ids.as_slice();
    let mut memo = Renamed::new(alloc);
    let renaming = Renaming {
        alloc,
        types,
        became: &became,
        part: None,
    };
    let written = write_unions(merged, &mut memo, &renaming, unions, ids)?;
    let written = written.as_slice();
    class_imports(asked, merged, &mut memo, &became, written, order)
}

/// The merged imports, in the order in which they are written, and the collection of their types.
#[derive(Drop)]
pub struct Merged {
    /// The collection. It begins with that of the entries.
    pub types: Types,
    /// The imports.
    pub imports: Named<ItemKind>,
}

impl Model for Merged {
    ghost use Rattle.wac_merge_classes.specs.terms.Merge as merge;

    ghost Value = { merge.Merged };

    ghost view = { λ m. record { types = m.types; imports = merge.import_entries m.imports } };
}

impl Merged {
    /// Merges entries that agree. `order` has the numbers of their classes in the order in which they are written.
    ///
    /// # Errors
    /// - [`AllocError`] if out of memory.
    pub fn new(
        alloc: Global,
        types: &Types,
        entries: &[Entry],
        classes: &Classes,
        bindings: &Bindings,
        order: &[usize],
    ) -> Result<Merged, AllocError>
        requires held { AreHeld types.now entries.now }
        requires classes { AreClasses by_names entries.now classes.now.numbers.items classes.now.positions.items classes.now.names }
        requires bindings { AreBindings types.now entries.now bindings.now }
        requires agreed { AllMembersAgree by_names types.now entries.now }
        requires written { IsWrittenOrder by_names types.now entries.now order.now }
        requires each { (k : ℕ) → (Contains order.now k ↔ k < length (class_names by_names entries.now)) }
        requires once { (i j k : ℕ) → slice_get order.now i ≡ Some k → slice_get order.now j ≡ Some k → i ≡ j }
        ensures merged { IfOk result (λ m. IsMerge by_names types.now entries.now m) }
        ensures bound { IfOk result (λ m. BindsAsClasses by_names types.now entries.now m) }
        ensures once { IfOk result (λ m. HasOneIdEach types.now entries.now m) }
        ensures uses { IfOk result (λ m. KeepsUses by_names types.now entries.now m) }
        ensures faults { IfOk result (λ m. HasFaultsOfEntries by_names types.now entries.now m) }
        ensures lighter { IfOk result (λ m. IsLighter types.now entries.now m) }
        ensures begins { IfOk result (λ m. IsExtended types.now m.types) }
        ensures holds { IfOk result (λ m. AreHeld m.types m.imports) }
        ensures asked { IfOk result (λ m. AreHeld m.types entries.now) }
    {
        let asked = Asked {
            alloc,
            types,
            entries,
            classes,
        };
        laws(types); // proof only
        let mut made = types.clone()?;
        let basis = Basis::of(alloc, &mut made, types, entries, classes, bindings)?;
        made.law(); // proof only
        let bare = write_imports(&asked, &mut made, bindings, &basis, order)?;
        made.law(); // proof only
        let merge = Merged::using(&asked, made, &bare)?;
        laws(&merge.types); // proof only
        Ok(merge)
    }

    /// Returns the merge of these imports, with the uses that they have of each other.
    fn using(
        asked: &Asked<'_>,
        mut merged: Types,
        bare: &Named<ItemKind>,
    ) -> Result<Merged, AllocError>
        requires classes { AreClasses by_names asked.now.entries.now asked.now.classes.now.numbers.items asked.now.classes.now.positions.items asked.now.classes.now.names }
        requires asked { AreHeld asked.now.types.now asked.now.entries.now }
        requires held { AreHeld merged (import_entries bare.now) }
        requires named { (p : ℕ) (e : AnEntry) → slice_get (import_entries bare.now) p ≡ Some e → is_asked asked.now.entries.now e.name ≡ true }
        requires bare { AreBareImports merged (import_entries bare.now) }
        ensures extended { IfOk result (λ m. IsExtended merged m.types) }
        ensures using { IfOk result (λ m. AreUsing by_names asked.now.types.now asked.now.entries.now m.types (import_entries bare.now) m.imports) }
    {
        let imports = imports_with_uses(asked, &mut merged, bare)?;
        Ok(Merged {
            types: merged,
            imports,
        })
    }
}
