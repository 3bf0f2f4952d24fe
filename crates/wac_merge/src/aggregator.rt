//! The aggregator of imports.
ghost use Rattle.std.specs.Prelude.{Contains, ℕ, ◌≡◌, ◌<◌, ◌∷◌, ◌++◌, ◌⊎◌, ◌↔◌, ◌&&◌, ◌==◌, [], length, slice_get, IfOk, IfErr, IfSome, OnOk, None, Some, true};
ghost use Rattle.std.specs.Option.{MatchOption};
ghost use Rattle.std.specs.Result.{IsErrAnd};
ghost use Rattle.wac_edges.specs.cycles.Cycles.{IsStep};
ghost use Rattle.wac_types_collection.specs.collection.Collection.{holds_type, IsKeptBy};
ghost use Rattle.wac_types_shapes.specs.shapes.Kinds.{kind_type};
ghost use Rattle.wac_types_shapes.specs.primitives.Name.{Name as AName};
ghost use Rattle.wac_merge.specs.Aggregate.{IsFault, unmerged};
ghost use Rattle.wac_merge.specs.MergedPlaces.{IsRootPlace, MentionsBefore};
ghost use Rattle.wac_merge_classes.specs.entries.Binding.{binding_class};
ghost use Rattle.wac_types_collection.specs.subtyping.CalledViews.{path_view};
ghost use Rattle.wac_merge_classes.specs.entries.Agreement.{AllMembersAgree};
ghost use Rattle.wac_merge_classes.specs.entries.Bindings.{AreBindings, AreHeld};
ghost use Rattle.wac_merge_classes.specs.terms.ClassOrder.{IsWrittenOrder, RestsOn};
ghost use Rattle.wac_merge_classes.specs.entries.Classes.{AreClasses, by_names, canonical, class_names, imported_as};
ghost use Rattle.wac_merge_classes.specs.terms.Faults.{Fault as AFault, HasFault, HasNoCircle, fault_of, use_each_other};
ghost use Rattle.wac_merge_classes.specs.terms.NoDisagreement.{HasNoDisagreement};
ghost use Rattle.wac_merge_classes.specs.terms.Merge.{IsMerge, bound_resource, import_entries, listed_resource, own_resource};
ghost use Rattle.wac_merge_imports.specs.unions.EntryFaults.{HasFaultsOfEntries};
ghost use Rattle.wac_merge_imports.specs.unions.Lighter.{IsLighter};
ghost use Rattle.wac_merge_imports.specs.unions.MergedScope.{BindsAsClasses, BindsUnder, IsBoundAs};
ghost use Rattle.wac_merge_imports.specs.unions.OneId.{HasOneIdEach};
ghost use Rattle.wac_merge_unions.specs.uses.KeptUses.{KeepsUses};
ghost use Rattle.wac_types_collection.specs.subtyping.TreeLaws.{KeepsTrees};
ghost use Rattle.wac_types_shapes.specs.declared.shapes.component.ResourceId.{ResourceId as AResource};

use std::alloc::{AllocError, Global};
use std::collections::BTreeSet;
use std::marker::Model;
use wac_edges::cycles::cycles::lowest_on_cycle;
use wac_merge_agreement::agreement::compared::{entry_items, first_pair};
use wac_merge_agreement::agreement::order::written_order;
use wac_merge_agreement::agreement::rests::{rests, rests_by_uses};
use wac_merge_classes::entries::bindings::Bindings;
use wac_merge_classes::entries::classes::Classes;
use wac_merge_classes::entries::entry::Entry;
use wac_merge_classes::terms::fault::MergeFault;
use wac_merge_imports::unions::bound::BoundNames;
use wac_merge_imports::unions::merged::Merged;
use wac_merge_tables::tables::nodes::Nodes;
use wac_types_collection::{ItemKind, Named, ResourceId, Type, Types};

/// The classes of entries, what the classes bind, the merge, and the names under which the classes bind resources.
#[derive(Drop)]
struct Finished {
    classes: Classes,
    bindings: Bindings,
    merged: Merged,
    names: BoundNames,
}

/// The entries of a merge, in order, and the result of the merge once it is finished.
///
/// A call that fails consumes the aggregator. Only a finished one has merged imports, types, names and resources.
pub struct TypeAggregator {
    alloc: Global,
    entries: Vec<Entry>,
    finished: Option<Finished>,
}

// By hand: a derived `Drop` is proved again wherever one goes out of scope (docs/PROOFS.md, 'Drop').
impl Drop for TypeAggregator {
    fn drop(self) {
        let TypeAggregator {
            alloc: _,
            entries: _,
            finished: _,
        } = self;
    }
}

impl Model for TypeAggregator {
    ghost use Rattle.std.specs.Prelude.{is_some, IfSome};
    ghost use Rattle.wac_types_shapes.specs.primitives.Name.{option_case};
    ghost use Rattle.wac_merge.specs.Aggregate.{Aggregate, AreKnown, nothing};
    ghost use Rattle.wac_merge_imports.specs.private.unions.BoundNames.{AreBoundNames};

    ghost Value = { Aggregate };

    ghost view = { λ a. record { entries = a.entries.items; is_finished = is_some a.finished; merge = option_case a.finished nothing (λ f. f.merged) } };

    ghost invariant = { λ a. IfSome a.finished (λ f. AreKnown f.merged a.entries.items f.classes.numbers.items f.classes.positions.items f.classes.names f.bindings × AreBoundNames f.merged.types a.entries.items f.names) };
}

impl TypeAggregator {
    /// Returns an aggregator without entries.
    pub fn new(alloc: Global) -> Self
        ensures { result ≡ unmerged [] }
    {
        TypeAggregator {
            alloc,
            entries: Vec::new(alloc),
            finished: None,
        }
    }

    /// Appends an entry: an item of the collection, under a name. The collection must be the same in each call.
    ///
    /// # Errors
    /// - [`AllocError`] if out of memory.
    pub fn aggregate(self, name: &str, types: &Types, kind: ItemKind) -> Result<Self, AllocError>
        requires { holds_type types.now (kind_type kind) ≡ true }
        ensures { IfOk result (λ a. a ≡ unmerged (self.entries ++ record { name = name.now; kind = kind } ∷ [])) }
    {
        // `types` serves the contract alone.
        let _ = types;
        let TypeAggregator {
            alloc,
            mut entries,
            finished: _,
        } = self;
        entries.push(Entry::new(alloc, name, kind)?)?;
        Ok(TypeAggregator {
            alloc,
            entries,
            finished: None,
        })
    }

    /// Merges the entries, which must be items of `types`.
    ///
    /// Each class gives one import under its canonical name. Instances come first, then type items, then all others.
    /// An import that others depend on comes before them.
    /// The new collection begins with the items of `types`, so ids keep their meaning. Merged types come after.
    ///
    /// - Each import is a subtype of each entry of its class, and mentions no resource that a later import binds.
    /// - Each named type has one id.
    /// - An instance has the uses that the entries of its class have of earlier imports.
    /// - An import cannot be written only if an entry of its class cannot, by the same fault.
    ///
    /// # Errors
    /// - [`Disagree`](MergeFault::Disagree) if two entries of one class disagree: the earliest that disagrees with an
    ///   earlier one, and the earliest that it disagrees with.
    /// - [`UseEachOther`](MergeFault::UseEachOther) if classes depend on each other in a cycle: the first class of the
    ///   entries that is on one.
    /// - [`OutOfMemory`](MergeFault::OutOfMemory).
    pub fn finish(self, types: &Types) -> Result<Self, MergeFault>
        requires { AreHeld types.now self.entries }
        ensures finished { IfOk result (λ a. (a.entries ≡ self.entries) × (a.is_finished ≡ true)) }
        ensures merged { IfOk result (λ a. IsMerge by_names types.now self.entries a.merge) }
        ensures bound { IfOk result (λ a. BindsAsClasses by_names types.now self.entries a.merge) }
        ensures once { IfOk result (λ a. HasOneIdEach types.now self.entries a.merge) }
        ensures uses { IfOk result (λ a. KeepsUses by_names types.now self.entries a.merge) }
        ensures before { IfOk result (λ a. MentionsBefore by_names a.merge) }
        ensures faults { IfOk result (λ a. HasFaultsOfEntries by_names types.now self.entries a.merge) }
        ensures lighter { IfOk result (λ a. IsLighter types.now self.entries a.merge) }
        ensures kept { IfOk result (λ a. IsKeptBy types.now a.merge.types) }
        ensures meant { IfOk result (λ a. KeepsTrees types.now a.merge.types) }
        ensures held { IfOk result (λ a. AreHeld a.merge.types a.merge.imports) }
        ensures agree { OnOk result (HasNoDisagreement by_names types.now self.entries) }
        ensures agreed { OnOk result (AllMembersAgree by_names types.now self.entries) }
        ensures ordered { OnOk result (HasNoCircle by_names types.now self.entries) }
        ensures fault { IfErr result (λ e. IfSome (fault_of e) (HasFault by_names types.now self.entries)) }
        ensures refused { (fault : AFault) → HasFault by_names types.now self.entries fault → IsErrAnd result (λ e. (fault_of e ≡ Some fault) ⊎ (e ≡ MergeFault.OutOfMemory)) }
    {
        let TypeAggregator {
            alloc,
            entries,
            finished: _,
        } = self;
        let asked = entries.as_slice();
        let classes = Classes::new(alloc, asked)?;
        let bindings = Bindings::new(alloc, types, asked, &classes)?;
        let order = check(alloc, types, asked, &classes, &bindings)?;
        let merged = Merged::new(alloc, types, asked, &classes, &bindings, order.as_slice())?;
        let names = BoundNames::new(alloc, types, asked, &classes, &bindings)?;
        Ok(TypeAggregator {
            alloc,
            entries,
            finished: Some(Finished {
                classes,
                bindings,
                merged,
                names,
            }),
        })
    }

    /// Returns the entries, in order.
    pub fn entries(&self) -> &[Entry]
        ensures { result.now ≡ self.now.entries }
    {
        self.entries.as_slice()
    }

    /// Returns the merged imports in the order in which they are written: each class's canonical name and merged item.
    pub fn imports(&self) -> &Named<ItemKind>
        requires { self.now.is_finished ≡ true }
        ensures { import_entries result.now ≡ self.now.merge.imports }
    {
        let Some(finished) = &self.finished else {
            unreachable!()
        };
        &finished.merged.imports
    }

    /// Returns the collection of the merged types. It begins with that of the entries.
    pub fn types(&self) -> &Types
        requires { self.now.is_finished ≡ true }
        ensures { result.now ≡ self.now.merge.types }
    {
        let Some(finished) = &self.finished else {
            unreachable!()
        };
        &finished.merged.types
    }

    /// Returns the resource that the import with this id binds under a name.
    ///
    /// It is the own resource of the merged interface, or `None` if the class binds no resource under the name.
    pub fn resource(&self, id: &str, name: &str) -> Option<ResourceId>
        requires { self.now.is_finished ≡ true }
        ensures { (q : AResource) → (result ≡ Some q) ↔ IsBoundAs by_names self.now.entries self.now.merge id.now name.now q }
    {
        if !self.binds(id, name) {
            return None;
        }
        self.own_resource(id, name)
    }

    /// Returns where a resource of the entries is bound: the position of an import, and the path of names inside it.
    ///
    /// The import is that of the first class that binds it, or `None` if no class does.
    /// The path is empty if the import itself is the resource.
    pub fn root_binding(&self, resource: ResourceId) -> Option<(usize, &[String])>
        requires { self.now.is_finished ≡ true }
        ensures { MatchOption result (binding_class by_names self.now.merge.types self.now.entries resource ≡ None) (λ b. IsRootPlace by_names self.now.entries self.now.merge resource b.0 (path_view b.1.now)) }
    {
        let Some(finished) = &self.finished else {
            unreachable!()
        };
        let (class, path) = finished.bindings.first(resource)?;
        let name = self.entries[finished.classes.positions()[class]].name();
        match finished.merged.imports.get_full(name) {
            Some((position, _)) => Some((position, path)),
            None => unreachable!(),
        }
    }

    /// Returns whether the class of the name `id` binds a resource under a name.
    fn binds(&self, id: &str, name: &str) -> bool
        requires { self.now.is_finished ≡ true }
        ensures { (result ≡ true) ↔ BindsUnder by_names self.now.merge.types self.now.entries id.now name.now }
    {
        let Some(finished) = &self.finished else {
            unreachable!()
        };
        match finished.classes.number(id) {
            Some(number) => finished.names.contains(number, name),
            None => false,
        }
    }

    /// Returns the own resource that the interface of the import with this id exports under a name.
    fn own_resource(&self, id: &str, name: &str) -> Option<ResourceId>
        requires { self.now.is_finished ≡ true }
        ensures { result ≡ bound_resource self.now.merge id.now name.now }
    {
        let kind = self.imports().get(id)?;
        own_resource(self.types(), *kind, id, name)
    }

    /// Returns the canonical name of the class of a name, or the name itself if no entry has it.
    pub fn canonical_import_name<'a>(&'a self, name: &'a str) -> &'a str
        requires { self.now.is_finished ≡ true }
        ensures { result.now ≡ imported_as by_names self.now.entries name.now }
    {
        let Some(finished) = &self.finished else {
            unreachable!()
        };
        match finished.classes.position(name) {
            Some(position) => self.entries[position].name(),
            None => name,
        }
    }
}

/// Whether each class has one entry and the collection has no resource.
fn are_single(types: &Types, entries: &[Entry], classes: &Classes) -> bool
    ensures { result ≡ ((length classes.now.positions.items == length entries.now) && (length types.now.resources == 0)) }
{
    classes.positions().len() == entries.len() && types.holds_no_resource()
}

/// Returns, for each class, the classes that it depends on, or why two entries disagree.
fn agreed_rests(
    alloc: Global,
    types: &Types,
    entries: &[Entry],
    classes: &Classes,
    bindings: &Bindings,
) -> Result<Vec<BTreeSet<usize>>, MergeFault>
    requires held { AreHeld types.now entries.now }
    requires classes { AreClasses by_names entries.now classes.now.numbers.items classes.now.positions.items classes.now.names }
    requires bindings { AreBindings types.now entries.now bindings.now }
    ensures agree { OnOk result (HasNoDisagreement by_names types.now entries.now) }
    ensures agreed { OnOk result (AllMembersAgree by_names types.now entries.now) }
    ensures fault { IfErr result (λ e. IsFault types.now entries.now e) }
    ensures counted { IfOk result (λ v. length v.items ≡ length (class_names by_names entries.now)) }
    ensures rests { IfOk result (λ v. (a b : ℕ) → (IsStep v.items a b ↔ RestsOn by_names types.now entries.now a b)) }
{
    // Then nothing is compared, and classes depend on each other by uses alone.
    if are_single(types, entries, classes) {
        return Ok(rests_by_uses(alloc, types, entries, classes)?);
    }
    let mut nodes = Nodes::new(alloc);
    let items = entry_items(alloc, &mut nodes, types, entries, classes, bindings)?;
    let items = items.as_slice();
    if let Some(pair) = first_pair(alloc, &nodes, types, entries, classes, items)? {
        return Err(MergeFault::Disagree {
            first: pair.first,
            second: pair.second,
            export: pair.export,
        });
    }
    Ok(rests(alloc, &nodes, types, entries, classes, bindings, items)?)
}

/// Returns the order in which the classes are written, or why the entries cannot be merged.
fn check(
    alloc: Global,
    types: &Types,
    entries: &[Entry],
    classes: &Classes,
    bindings: &Bindings,
) -> Result<Vec<usize>, MergeFault>
    requires held { AreHeld types.now entries.now }
    requires classes { AreClasses by_names entries.now classes.now.numbers.items classes.now.positions.items classes.now.names }
    requires bindings { AreBindings types.now entries.now bindings.now }
    ensures agree { OnOk result (HasNoDisagreement by_names types.now entries.now) }
    ensures agreed { OnOk result (AllMembersAgree by_names types.now entries.now) }
    ensures ordered { OnOk result (HasNoCircle by_names types.now entries.now) }
    ensures fault { IfErr result (λ e. IsFault types.now entries.now e) }
    ensures written { IfOk result (λ o. IsWrittenOrder by_names types.now entries.now o.items) }
    ensures each { IfOk result (λ o. (k : ℕ) → (Contains o.items k ↔ k < length (class_names by_names entries.now))) }
    ensures once { IfOk result (λ o. (i j k : ℕ) → slice_get o.items i ≡ Some k → slice_get o.items j ≡ Some k → i ≡ j) }
{
    let rests = agreed_rests(alloc, types, entries, classes, bindings)?;
    let rests = rests.as_slice();
    if let Some(number) = lowest_on_cycle(alloc, rests)? {
        return Err(circle(alloc, entries, classes, number)?);
    }
    Ok(written_order(alloc, types, entries, classes, rests)?)
}

/// Returns the fault that names this class.
fn circle(
    alloc: Global,
    entries: &[Entry],
    classes: &Classes,
    number: usize,
) -> Result<MergeFault, AllocError>
    requires classes { AreClasses by_names entries.now classes.now.numbers.items classes.now.positions.items classes.now.names }
    requires number { number < length (class_names by_names entries.now) }
    ensures { IfOk result (λ e. (class : AName) → slice_get (class_names by_names entries.now) number ≡ Some class → fault_of e ≡ Some (use_each_other (canonical by_names entries.now class))) }
{
    let position = classes.positions()[number];
    let import = String::from_str(alloc, entries[position].name())?;
    Ok(MergeFault::UseEachOther { import })
}

/// Returns the own resource under a name of an instance, if its interface has this id.
fn own_resource(types: &Types, kind: ItemKind, id: &str, name: &str) -> Option<ResourceId>
    ensures { result ≡ own_resource types.now id.now name.now kind }
{
    let ItemKind::Instance(interface) = kind else {
        return None;
    };
    if !types.contains(Type::Interface(interface)) {
        return None;
    }
    let interface = &types[interface];
    let Some(text) = &interface.id else {
        return None;
    };
    if text.as_str() != id {
        return None;
    }
    listed_resource(types, *interface.exports.get(name)?)
}

/// Returns the resource of a type item, if it is no alias.
fn listed_resource(types: &Types, kind: ItemKind) -> Option<ResourceId>
    ensures { result ≡ listed_resource types.now kind }
{
    let ItemKind::TypeItem(Type::Resource(resource)) = kind else {
        return None;
    };
    if types.contains(Type::Resource(resource)) && types[resource].alias.is_some() {
        return None;
    }
    Some(resource)
}
