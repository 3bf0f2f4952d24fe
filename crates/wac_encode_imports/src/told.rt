//! What the imports of a merge are for the types of the entries' own collection.

ghost use Rattle.std.specs.Prelude.{◌≡◌, ◌<◌, ◌≤◌, ◌*◌, IfErr, [], ◌∷◌, Contains, IfOk, OnOk, Some, false, length, slice_get, true};
ghost use Rattle.wac_types_shapes.specs.primitives.Name.{Name as AName};
ghost use Rattle.wac_types_shapes.specs.shapes.Kinds.{kind_type};
ghost use Rattle.wac_types_shapes.specs.declared.shapes.component.DefinedTypeId.{DefinedTypeId as ADefinition};
ghost use Rattle.wac_types_collection.specs.collection.Bound.{same_path};
ghost use Rattle.wac_types_collection.specs.collection.Collection.{holds_type};
ghost use Rattle.wac_types_collection.specs.subtyping.CalledViews.{path_view};
ghost use Rattle.wac_types_shapes.specs.primitives.Tree.{named};
ghost use Rattle.wac_merge_classes.specs.entries.Agreement.{AllMembersAgree};
ghost use Rattle.wac_merge_classes.specs.entries.Bindings.{AreHeld};
ghost use Rattle.wac_merge_classes.specs.entries.Classes.{by_names};
ghost use Rattle.wac_merge_classes.specs.terms.Faults.{HasNoCircle};
ghost use Rattle.wac_merge_classes.specs.terms.Merge.{IsMerge};
ghost use Rattle.wac_merge_imports.specs.unions.MergedScope.{BindsAsClasses};
ghost use Rattle.wac_encode_scopes.specs.private.Closed.{is_closed_in};
ghost use Rattle.wac_encode_scopes.specs.private.Telling.{definition_in};
ghost use Rattle.wac_encode_stacks.specs.Scopes.{at_export};
ghost use Rattle.wac_encode_imports.specs.private.Imports.{AreImported};
ghost use Rattle.wac_encode_imports.specs.private.ToldGraph.{HasNoUnbound, IsTold};
ghost use Rattle.wac_types_weight.specs.Text.{entry_weight};
ghost use Rattle.wac_types_weight.specs.Weight.{named_parts};
ghost use Rattle.wac_encode_scopes.specs.private.Paid.{pending};
ghost use Rattle.wac_encode_scopes.specs.Books.{opened};
ghost use Rattle.wac_encode_scopes.specs.Roots.{IsRoot};
ghost use Rattle.wac_binary.specs.declared.fault.BinaryFault.TheVariants.{OutOfMemory};
ghost use Rattle.wac_encode_imports.specs.private.Others.{AddsOther};
ghost use Rattle.wac_encode_imports.specs.private.Told.{BindsNames, IsBlank, TellsWithin, entries_items, AreHeldExports, AreOthers, BindsAll, BindsOne, HasImports, HaveExports, IsDefinitionAt, IsExport, IsImportOf, IsTeller, IsTypeImport, KeepsGood, Notes, NotesItem, NotesItems, told_in};

use indexmap::IndexSet;
use std::alloc::{AllocError, Global};
use wac_binary::{BinaryFault, Sort};
use wac_encode_scopes::{ClosedTypes, How, State, apart_items};
use wac_merge::TypeAggregator;
use wac_merge_classes::entries::bound::own_resource;
use wac_merge_classes::entries::entry::Entry;
use wac_types_collection::{
    DefinedTypeId, Interface, ItemKind, Named, ResourceId, Text, Type, Types, UsedType, ValueType,
};

/// Tells a root what its imports are for the types of the entries.
#[derive(Clone, Copy)]
struct Teller<'a> {
    /// The types of the entries.
    types: &'a Types,
    /// Their definitions that mention no resource.
    closed: &'a ClosedTypes,
    /// The merge.
    merge: &'a TypeAggregator,
    /// The sort and index of each import, by position.
    places: &'a [(Sort, u32)],
}

/// Returns the sort and index of the import at a position.
fn place_at(places: &[(Sort, u32)], position: usize) -> (Sort, u32)
    requires { position < length places.now }
    ensures { slice_get places.now position ≡ Some result }
{
    places[position]
}

/// The own resources of an import's entries that are not bound to what it exports under their names.
#[derive(Drop)]
struct Others {
    /// Each of them once.
    resources: IndexSet<ResourceId>,
}

/// Adds a resource to those of the import at a position.
fn add_other(
    others: &mut Vec<Others>,
    position: usize,
    resource: ResourceId,
) -> Result<(), AllocError>
    requires { position < length others.old.items }
    ensures { OnOk result (AddsOther position resource others.old.items others.new.items) }
{
    others[position].resources.insert(resource)?;
    Ok(())
}

/// Returns no resources for each of some imports.
fn no_others(alloc: Global, count: usize) -> Result<Vec<Others>, AllocError>
    ensures { IfOk result (λ v. length v.items ≡ count) }
{
    let mut others = Vec::new(alloc);
    for _i in 0..count {
        others.push(Others {
            resources: IndexSet::new(alloc),
        })?;
    }
    Ok(others)
}

/// Whether a path is a single name, and this one.
fn is_alone(path: &[String], name: &str) -> bool
    ensures { result ≡ same_path (path_view path.now) (named name.now ∷ []) }
{
    match path {
        [only] => only.as_str() == name,
        _ => false,
    }
}

/// Returns the definition at the end of a type item's value type.
fn definition_in(types: &Types, item: ItemKind) -> Option<DefinedTypeId>
    ensures { (n : AName) → result ≡ definition_in types.now (n, item) }
{
    let ItemKind::TypeItem(Type::Value(value)) = item else {
        return None;
    };
    match types.resolve_value_type(value) {
        ValueType::Defined(id) => Some(id),
        _ => None,
    }
}

impl<'a> Teller<'a> {
    /// Binds a resource to what the first class that binds it imports, if a class binds it.
    fn bind(&self, state: &mut State, resource: ResourceId) -> Result<(), BinaryFault>
        requires teller { IsTeller self.now }
        requires imports { HasImports self.now state.old }
        ensures binds { OnOk result (BindsOne self.now resource state.old state.new) }
        ensures names { OnOk result (BindsNames self.now state.old state.new) }
        ensures memory { IfErr result (λ e. e ≡ OutOfMemory) }
    {
        let Some((position, path)) = self.merge.root_binding(resource) else {
            return Ok(());
        };
        let (_, index) = place_at(self.places, position);
        // A path has at most one name.
        let Some(name) = path.first() else {
            return state.bind_type(false, resource, index);
        };
        let name = Text::new(self.types.allocator(), name.as_str())?;
        state.bind(false, resource, index, name)
    }

    /// Binds all resources that imports bind.
    fn bind_resources(&self, state: &mut State) -> Result<(), BinaryFault>
        requires teller { IsTeller self.now }
        requires imports { HasImports self.now state.old }
        ensures binds { OnOk result (BindsAll self.now state.old state.new) }
        ensures names { OnOk result (BindsNames self.now state.old state.new) }
        ensures memory { IfErr result (λ e. e ≡ OutOfMemory) }
    {
        for i in 0..usize::MAX {
            let resource = ResourceId(i);
            if !self.types.contains(Type::Resource(resource)) {
                return Ok(());
            }
            self.bind(state, resource)?;
        }
        // No memory has room for that many resources.
        Err(BinaryFault::OutOfMemory)
    }

    /// Returns the position of the import of an entry's class.
    fn position_of(&self, entry: &Entry) -> usize
        requires teller { IsTeller self.now }
        requires entry { Contains (self.now.merge.now).entries entry.now }
        ensures { IsImportOf self.now entry.now result }
    {
        let canonical = self.merge.canonical_import_name(entry.name());
        let Some((position, _)) = self.merge.imports().get_full(canonical) else {
            unreachable!()
        };
        position
    }

    /// Whether a resource is bound to what an import exports under a name.
    fn is_export(&self, position: usize, name: &str, resource: ResourceId) -> bool
        requires { IsTeller self.now }
        ensures { result ≡ true → IsExport self.now position name.now resource }
    {
        let Some((first, path)) = self.merge.root_binding(resource) else {
            return false;
        };
        if first != position {
            return false;
        }
        is_alone(path, name)
    }

    /// Notes the own resource of an item, if it has one that the import at a position does not bind.
    fn note_item(
        &self,
        others: &mut Vec<Others>,
        position: usize,
        uses: &Named<UsedType>,
        name: &str,
        item: ItemKind,
    ) -> Result<(), AllocError>
        requires teller { IsTeller self.now }
        requires held { holds_type self.now.types.now (kind_type item) ≡ true }
        requires position { position < length others.old.items }
        ensures { OnOk result (NotesItem self.now position uses.now (name.now, item) others.old.items others.new.items) }
    {
        let Some(resource) = own_resource(self.types, uses, name, item) else {
            return Ok(());
        };
        if self.is_export(position, name, resource) {
            return Ok(());
        }
        add_other(others, position, resource)
    }

    /// Notes the own resources of an interface that the import at a position does not bind.
    fn note_own(
        &self,
        others: &mut Vec<Others>,
        position: usize,
        interface: &Interface,
    ) -> Result<(), AllocError>
        requires teller { IsTeller self.now }
        requires held { AreHeldExports self.now interface.now }
        requires position { position < length others.old.items }
        ensures { OnOk result (NotesItems self.now position interface.now (length interface.now.exports) others.old.items others.new.items) }
    {
        for i in 0..interface.exports.len() {
            let (name, item) = interface.exports.entry_at(i);
            self.note_item(others, position, &interface.uses, name, *item)?;
        }
        Ok(())
    }

    /// Notes the own resources of an entry that the import of its class does not bind.
    fn note(&self, others: &mut Vec<Others>, entry: &Entry) -> Result<(), AllocError>
        requires teller { IsTeller self.now }
        requires entry { Contains (self.now.merge.now).entries entry.now }
        requires counted { length others.old.items ≡ length self.now.places.now }
        ensures { OnOk result (Notes self.now entry.now others.old.items others.new.items) }
    {
        let position = self.position_of(entry);
        let item = entry.kind();
        let ItemKind::Instance(id) = item else {
            return Ok(());
        };
        let interface = &self.types[id];
        self.note_own(others, position, interface)
    }

    /// Finds the own resources of each import's entries that the import does not bind.
    fn others(&self) -> Result<Vec<Others>, AllocError>
        requires { IsTeller self.now }
        ensures { IfOk result (λ others. AreOthers self.now others.items) }
    {
        let mut others = no_others(self.types.allocator(), self.places.len())?;
        let entries = self.merge.entries();
        for i in 0..entries.len() {
            self.note(&mut others, &entries[i])?;
        }
        Ok(others)
    }

    /// Returns the definition of an item of an instance, if it is among these.
    fn told_in(&self, told: &ClosedTypes, item: ItemKind) -> Option<DefinedTypeId>
        ensures { (n : AName) → result ≡ told_in self.now.types.now (is_closed_in told.now) (n, item) }
    {
        let definition = definition_in(self.types, item)?;
        if told.contains(definition) {
            Some(definition)
        } else {
            None
        }
    }

    /// Records that an instance exports a definition, if there is one and no earlier one exports it.
    fn tell_value(
        &self,
        state: &mut State,
        told: &mut IndexSet<DefinedTypeId>,
        definition: Option<DefinedTypeId>,
        index: u32,
        name: &str,
    ) -> Result<(), BinaryFault>
        requires { (d : ADefinition) → definition ≡ Some d → IsDefinitionAt self.now d (at_export index name.now) state.old }
        ensures keeps { OnOk result (KeepsGood self.now state.old state.new) }
        ensures cost { OnOk result (TellsWithin self.now.types.now (2 * length name.now) state.old state.new) }
        ensures memory { IfErr result (λ e. e ≡ OutOfMemory) }
    {
        let Some(definition) = definition else {
            return Ok(());
        };
        if !told.insert(definition)? {
            return Ok(());
        }
        let name = Text::new(self.types.allocator(), name)?;
        state.tell(false, definition, index, name)
    }

    /// Records which value types an instance exports, if they are among `apart`.
    fn tell_values(
        &self,
        state: &mut State,
        told: &mut IndexSet<DefinedTypeId>,
        interface: &Interface,
        index: u32,
        apart: &ClosedTypes,
    ) -> Result<(), BinaryFault>
        requires { HaveExports self.now (is_closed_in apart.now) interface.now index state.old }
        ensures keeps { OnOk result (KeepsGood self.now state.old state.new) }
        ensures cost { OnOk result (TellsWithin self.now.types.now (2 * named_parts interface.now.exports) state.old state.new) }
        ensures memory { IfErr result (λ e. e ≡ OutOfMemory) }
    {
        interface.exports.law(); // proof only
        for i in 0..interface.exports.len() {
            let (name, item) = interface.exports.entry_at(i);
            let definition = self.told_in(apart, *item);
            self.tell_value(state, told, definition, index, name)?;
        }
        Ok(())
    }

    /// Records that an import names a value type, if no earlier one does.
    fn tell_type(&self, state: &mut State, item: ItemKind, index: u32) -> Result<(), BinaryFault>
        requires { IsTypeImport self.now item index state.old }
        ensures keeps { OnOk result (KeepsGood self.now state.old state.new) }
        ensures cost { OnOk result (TellsWithin self.now.types.now 0 state.old state.new) }
        ensures memory { IfErr result (λ e. e ≡ OutOfMemory) }
    {
        let Some(definition) = definition_in(self.types, item) else {
            return Ok(());
        };
        let end = Type::Value(ValueType::Defined(definition));
        if state.is_listed(false, end) {
            return Ok(());
        }
        state.record(false, end, How::Listed, index)
    }

    /// Records what the import of an entry's class is for the value types of the entry.
    fn tell_entry(
        &self,
        state: &mut State,
        told: &mut IndexSet<DefinedTypeId>,
        others: &[Others],
        entry: &Entry,
    ) -> Result<(), BinaryFault>
        requires teller { IsTeller self.now }
        requires imports { HasImports self.now state.old }
        requires others { AreOthers self.now others.now }
        requires entry { Contains (self.now.merge.now).entries entry.now }
        ensures keeps { OnOk result (KeepsGood self.now state.old state.new) }
        ensures cost { OnOk result (TellsWithin self.now.types.now (2 * entry_weight self.now.types.now (kind_type entry.now.kind)) state.old state.new) }
        ensures memory { IfErr result (λ e. e ≡ OutOfMemory) }
    {
        self.types.uses_law(); // proof only
        let position = self.position_of(entry);
        let (_, index) = place_at(self.places, position);
        let item = entry.kind();
        let ItemKind::Instance(id) = item else {
            return self.tell_type(state, item, index);
        };
        let interface = &self.types[id];
        let these = &others[position].resources;
        let apart = apart_items(self.types, self.closed, interface, these)?;
        self.tell_values(state, told, interface, index, &apart)
    }

    /// Records what the imports are for the value types of the entries.
    fn tell_entries(&self, state: &mut State) -> Result<(), BinaryFault>
        requires teller { IsTeller self.now }
        requires imports { HasImports self.now state.old }
        ensures keeps { OnOk result (KeepsGood self.now state.old state.new) }
        ensures cost { OnOk result (TellsWithin self.now.types.now (2 * entries_items self.now.types.now (self.now.merge.now).entries) state.old state.new) }
        ensures memory { IfErr result (λ e. e ≡ OutOfMemory) }
    {
        let found = self.others()?;
        let others = found.as_slice();
        let mut told = IndexSet::new(self.types.allocator());
        let entries = self.merge.entries();
        for i in 0..entries.len() {
            self.tell_entry(state, &mut told, others, &entries[i])?;
        }
        Ok(())
    }

    /// Records what the imports are for the types of the entries.
    fn tell_all(&self, state: &mut State) -> Result<(), BinaryFault>
        requires teller { IsTeller self.now }
        requires imports { HasImports self.now state.old }
        ensures binds { OnOk result (BindsAll self.now state.old state.new) }
        ensures cost { OnOk result (IsBlank state.old → IsRoot state.old.here.content → pending self.now.types.now false (opened false state.new.here) ≤ 4 * entries_items self.now.types.now (self.now.merge.now).entries) }
        ensures memory { IfErr result (λ e. e ≡ OutOfMemory) }
    {
        self.bind_resources(state)?;
        self.tell_entries(state)
    }
}

/// Records in a root that has the imports of a merge at these places what they are for the types of the entries.
///
/// - A resource is bound to what the first class that binds it imports.
/// - A value type that an import names is written by that import's index.
/// - A value type is an alias of the first instance's export that an entry lists it under and under which it means the same
///   at the root: each own resource of the class that is free in it is bound to that instance, under its name there. What is
///   not recorded is written when it is first needed.
///
/// No entry may have a resource that no class binds.
///
/// # Errors
/// - `OutOfMemory`.
pub fn tell_graph(
    state: &mut State,
    types: &Types,
    merge: &TypeAggregator,
    places: &[(Sort, u32)],
) -> Result<(), BinaryFault>
    requires finished { merge.now.is_finished ≡ true }
    requires held { AreHeld types.now merge.now.entries }
    requires merged { IsMerge by_names types.now merge.now.entries merge.now.merge }
    requires ordered { HasNoCircle by_names types.now merge.now.entries }
    requires bound { BindsAsClasses by_names types.now merge.now.entries merge.now.merge }
    requires agreed { AllMembersAgree by_names types.now merge.now.entries }
    requires clean { (merged : IsMerge by_names types.now merge.now.entries merge.now.merge) → HasNoUnbound types.now merge.now.entries merged.order }
    requires imported { AreImported merge.now.merge places.now state.old }
    ensures told { OnOk result ((merged : IsMerge by_names types.now merge.now.entries merge.now.merge) → IsTold types.now merge.now.entries merged.order state.old state.new) }
    ensures cost { OnOk result (pending types.now false (opened false state.new.here) ≤ 4 * entries_items types.now merge.now.entries) }
    ensures memory { IfErr result (λ e. e ≡ OutOfMemory) }
{
    types.law(); // proof only
    types.names_law(); // proof only
    let closed = ClosedTypes::new(types)?;
    let teller = Teller {
        types,
        closed: &closed,
        merge,
        places,
    };
    teller.tell_all(state)
}
