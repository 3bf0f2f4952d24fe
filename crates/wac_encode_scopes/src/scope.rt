//! An open scope.

ghost use Rattle.std.specs.Prelude.{◌≡◌, ◌⊎◌, ◌<◌, Bool, true, false, not, [], IfOk, IfErr, OnOk, OnErr, None};
ghost use Rattle.wac_binary.specs.Fits.{TooLargeUnless};
ghost use Rattle.wac_binary.specs.declared.fault.BinaryFault.TheVariants.{OutOfMemory};
ghost use Rattle.wac_encode_stacks.specs.private.Sizes.{ContentFits};
ghost use Rattle.wac_encode_scopes.specs.private.Limits.{IsShortPlace, IsTooLarge};
ghost use Rattle.std.specs.Borrow.{sem};
ghost use Rattle.wac_binary.specs.declared.sorts.Sort.TheVariants as s;
ghost use Rattle.wac_binary.specs.Items.{value_def, primitive_def, instance_def, component_def, decls, outer_alias};
ghost use Rattle.wac_binary.specs.Indexes.{space, described_sort};
ghost use Rattle.wac_binary.specs.Views.{defined_of, func_of};
ghost use Rattle.wac_types_shapes.specs.declared.shapes.component.«Type».TheVariants as ty;
ghost use Rattle.wac_encode_stacks.specs.Scopes.{at_type, opening, defined, brought, bind_at, export_at, index_at, with_alias_of, with_def, next_type, type_count};
ghost use Rattle.wac_encode_scopes.specs.Contents.{content_of, and_type, and_alias_of, and_item, count_of, declarations_of, AddsTypes, HasSide, IsInstanceType, side_of};
ghost use Rattle.wac_encode_scopes.specs.declared.encodable.Encodable.TheVariants.{Instance};
ghost use Rattle.std.specs.HashMap.{spare};
ghost use Rattle.wac_binary.specs.declared.sorts.Description.TheVariants as e;
ghost use Rattle.wac_encode_scopes.specs.States.{named_in};
ghost use Rattle.wac_encode_scopes.specs.Books.{where_of, how_of, maybe_indexed, opened, binds_in, book_of};
ghost use Rattle.wac_encode_scopes.specs.private.Steps.{ScopeChanges, IsExported, aliased_from, settled, settled_value, with_fresh, with_fresh_import, and_core_type, export_of, empty_scope, either};
ghost use Rattle.wac_encode_scopes.specs.Roots.{IsRoot, items_of, and_import};
ghost use Rattle.wac_encode_scopes.specs.Lending.{LendsScope};
ghost use Rattle.wac_encode_stacks.specs.private.Modules.{module_count};

use crate::book::{Book, Entry, How, Place};
use crate::encodable::Encodable;
use crate::side::Side;
use std::alloc::Global;
use wac_binary::{
    BinaryFault, ComponentBuilder, ComponentType, DefinedType, Description, FuncType, InstanceType,
    ModuleType,
};
use wac_types_collection::{
    DefinedTypeId, FuncTypeId, PrimitiveType, ResourceId, Type, ValueType, WorldId,
};

/// An open scope: its content, and records for the types of the merged collection and of the graph's own.
///
/// In each method, `merged` says which collection the ids are of: the merged one, or else the graph's own.
pub struct Scope {
    /// The content.
    content: Encodable,
    /// The records for types of the merged collection.
    merged: Book,
    /// The records for types of the graph's own collection.
    graph: Book,
}

// By hand: a derived `Drop` is proved again wherever one goes out of scope (docs/PROOFS.md, 'Drop').
impl Drop for Scope {
    fn drop(self) {
        let Scope {
            content: _,
            merged: _,
            graph: _,
        } = self;
    }
}

impl Scope {
    /// Records the place of a resource.
    pub(crate) fn record_resource(
        &mut self,
        merged: bool,
        resource: ResourceId,
        place: Place,
    ) -> Result<(), BinaryFault>
        ensures recorded { OnOk result (ScopeChanges merged (bind_at resource (where_of place)) self.old self.new) }
        ensures content { self.new.content ≡ self.old.content }
        ensures memory { IfErr result (λ e. e ≡ OutOfMemory) }
    {
        if merged {
            self.merged.record_resource(resource, place)
        } else {
            self.graph.record_resource(resource, place)
        }
    }

    /// Records the type index of a type and what gave it.
    pub(crate) fn record_type(
        &mut self,
        merged: bool,
        ty: Type,
        how: How,
        index: u32,
    ) -> Result<(), BinaryFault>
        ensures recorded { OnOk result (ScopeChanges merged (index_at ty (how_of how) index) self.old self.new) }
        ensures content { self.new.content ≡ self.old.content }
        ensures memory { IfErr result (λ e. e ≡ OutOfMemory) }
    {
        if merged {
            self.merged.record_type(ty, how, index)
        } else {
            self.graph.record_type(ty, how, index)
        }
    }

    /// The place of a resource, if it is recorded.
    ///
    /// It is a type index and `true`, or the index of the instance that exports it and `false`.
    pub(crate) fn resource(&self, merged: bool, resource: ResourceId) -> Option<(u32, bool)>
        ensures { result ≡ export_of (binds_in (book_of merged self.now) resource) }
    {
        if merged {
            self.merged.resource(resource)
        } else {
            self.graph.resource(resource)
        }
    }

    /// Adds an alias of a resource that is recorded as an instance's export, and returns the alias's type index.
    fn alias_own(&mut self, merged: bool, resource: ResourceId) -> Result<u32, BinaryFault>
        requires { IsExported ((opened merged self.old).binds resource) }
        ensures index { IfOk result (λ i. i ≡ next_type (opened merged self.old)) }
        ensures appended { OnOk result (self.new ≡ record self.old { content = aliased_from ((opened merged self.old).binds resource) self.old.content }) }
        ensures refused { OnErr result (self.new ≡ self.old) }
        ensures small { IsShortPlace ((opened merged self.old).binds resource) }
        ensures too_large { TooLargeUnless result (ContentFits (content_of (aliased_from ((opened merged self.old).binds resource) self.old.content))) }
    {
        if merged {
            self.merged.alias_resource(&mut self.content, resource)
        } else {
            self.graph.alias_resource(&mut self.content, resource)
        }
    }

    /// Whether any resource of this collection is recorded.
    pub(crate) fn has_resources(&self, merged: bool) -> bool
        ensures { result ≡ false → (r : _) → binds_in (book_of merged self.now) r ≡ None }
    {
        if merged {
            self.merged.has_resources()
        } else {
            self.graph.has_resources()
        }
    }

    /// Aliases a resource that is recorded as an instance's export, records it at the alias, and returns its index.
    ///
    /// # Errors
    /// - `TooLarge` if the content would not fit 32-bit sizes.
    /// - `OutOfMemory`.
    ///
    /// After an error the type or alias may have been added.
    pub(crate) fn settle_resource(
        &mut self,
        merged: bool,
        resource: ResourceId,
    ) -> Result<u32, BinaryFault>
        requires { IsExported ((opened merged self.old).binds resource) }
        ensures index { IfOk result (λ i. i ≡ next_type (opened merged self.old)) }
        ensures step { OnOk result (ScopeChanges merged (settled resource) self.old self.new) }
        ensures types { AddsTypes self.old.content self.new.content }
        ensures small { IsShortPlace ((opened merged self.old).binds resource) }
        ensures too_large { TooLargeUnless result (ContentFits (content_of (aliased_from ((opened merged self.old).binds resource) self.old.content))) }
    {
        let own = self.alias_own(merged, resource)?;
        self.record_resource(merged, resource, Place::Index(own))?;
        Ok(own)
    }

    /// Adds an outer alias of a resource and records the resource there.
    ///
    /// The resource has the type index `index` in the scope `count` scopes out. Returns the alias's type index.
    ///
    /// # Errors
    /// - `TooLarge` if the content would not fit 32-bit sizes.
    /// - `OutOfMemory`.
    ///
    /// After an error the type or alias may have been added.
    pub(crate) fn alias_resource(
        &mut self,
        merged: bool,
        resource: ResourceId,
        count: u32,
        index: u32,
    ) -> Result<u32, BinaryFault>
        ensures index { IfOk result (λ i. i ≡ next_type (opened merged self.old)) }
        ensures step { OnOk result (ScopeChanges merged (λ o. bind_at resource (at_type (next_type o)) (with_alias_of (outer_alias s.Type count index) o)) self.old self.new) }
        ensures types { AddsTypes self.old.content self.new.content }
        ensures too_large { TooLargeUnless result (ContentFits (content_of (and_alias_of (outer_alias s.Type count index) self.old.content))) }
    {
        let own = self.content.alias_outer(count, index)?;
        self.record_resource(merged, resource, Place::Index(own))?;
        Ok(own)
    }

    /// Adds a value type definition, records its type index and returns it.
    ///
    /// # Errors
    /// As [`Self::alias_resource`].
    pub(crate) fn define(
        &mut self,
        merged: bool,
        value: ValueType,
        definition: &DefinedType<'_>,
    ) -> Result<u32, BinaryFault>
        ensures index { IfOk result (λ i. i ≡ next_type (opened merged self.old)) }
        ensures step { OnOk result (ScopeChanges merged (λ o. index_at (ty.Value value) defined (next_type o) (with_def (value_def (defined_of definition.now)) o)) self.old self.new) }
        ensures types { AddsTypes self.old.content self.new.content }
        ensures too_large { TooLargeUnless result (ContentFits (content_of (and_type (value_def (defined_of definition.now)) self.old.content))) }
    {
        let own = self.content.defined_type(definition)?;
        self.record_type(merged, Type::Value(value), How::Defined, own)?;
        Ok(own)
    }

    /// Adds a function type, records its type index and returns it.
    ///
    /// # Errors
    /// As [`Self::alias_resource`].
    pub(crate) fn define_func(
        &mut self,
        merged: bool,
        id: FuncTypeId,
        f: &FuncType<'_>,
    ) -> Result<u32, BinaryFault>
        ensures index { IfOk result (λ i. i ≡ next_type (opened merged self.old)) }
        ensures step { OnOk result (ScopeChanges merged (λ o. index_at (ty.Func id) defined (next_type o) (with_def (func_of f.now) o)) self.old self.new) }
        ensures types { AddsTypes self.old.content self.new.content }
        ensures too_large { TooLargeUnless result (ContentFits (content_of (and_type (func_of f.now) self.old.content))) }
    {
        let own = self.content.func_type(f)?;
        self.record_type(merged, Type::Func(id), How::Defined, own)?;
        Ok(own)
    }

    /// Returns a scope with this content and no records.
    ///
    /// `merged` and `graph` say for each collection whether what is bound outside is bound inside to the same resource.
    pub(crate) fn new(alloc: Global, content: Encodable, merged: bool, graph: bool) -> Scope
        ensures content { result.content ≡ content }
        ensures opened { (b : _) → opened b result ≡ empty_scope (content_of content) (either b merged graph) }
    {
        Scope {
            content,
            merged: Book::new(alloc, merged),
            graph: Book::new(alloc, graph),
        }
    }

    /// Returns an instance type without declarations or records.
    ///
    /// `passes` says whether a resource of this collection that is bound outside is bound inside to the same resource.
    /// For the other collection the scope always passes.
    pub(crate) fn instance(alloc: Global, merged: bool, passes: bool) -> Scope
        ensures content { result.content ≡ Instance [] }
        ensures opened { opened merged result ≡ opening passes }
        ensures beside { opened (not merged) result ≡ opening true }
    {
        let content = Encodable::Instance(InstanceType::new(alloc));
        if merged {
            Scope::new(alloc, content, passes, true)
        } else {
            Scope::new(alloc, content, true, passes)
        }
    }

    /// The type index of a type and what gave it, if the type is recorded.
    pub(crate) fn entry(&self, merged: bool, ty: Type) -> Option<Entry>
        ensures { maybe_indexed result ≡ (opened merged self.now).types ty }
    {
        if merged {
            self.merged.entry(ty)
        } else {
            self.graph.entry(ty)
        }
    }

    /// Adds an import or export to an open type, and returns its index in the index space of its sort.
    ///
    /// # Errors
    /// As [`Encodable::defined_type`].
    pub(crate) fn list(
        &mut self,
        side: Side,
        name: &str,
        d: Description,
    ) -> Result<u32, BinaryFault>
        requires { HasSide (side_of side) self.old.content }
        ensures index { IfOk result (λ i. i ≡ count_of (space (described_sort d)) self.old.content) }
        ensures appended { OnOk result (self.new ≡ record self.old { content = and_item (side_of side) name.now d self.old.content }) }
        ensures refused { OnErr result (self.new ≡ self.old) }
        ensures too_large { TooLargeUnless result (ContentFits (content_of (and_item (side_of side) name.now d self.old.content))) }
    {
        self.content.list(side, name, d)
    }

    /// Adds the instance type that is the content of a scope, and returns its type index.
    ///
    /// # Errors
    /// As [`Encodable::defined_type`].
    pub(crate) fn add_instance_type(&mut self, inner: Scope) -> Result<u32, BinaryFault>
        requires { IsInstanceType inner.content }
        ensures index { IfOk result (λ i. i ≡ type_count (content_of self.old.content)) }
        ensures appended { OnOk result (self.new ≡ record self.old { content = and_type (instance_def (decls (declarations_of inner.content))) self.old.content }) }
        ensures refused { OnErr result (self.new ≡ self.old) }
        ensures too_large { TooLargeUnless result (ContentFits (content_of (and_type (instance_def (decls (declarations_of inner.content))) self.old.content))) }
    {
        let Scope {
            content,
            merged: _,
            graph: _,
        } = inner;
        let Encodable::Instance(declarations) = content else {
            unreachable!()
        };
        self.content.instance_type(declarations)
    }

    /// Records the place of a value type that an instance exports.
    pub(crate) fn record_export(
        &mut self,
        merged: bool,
        definition: DefinedTypeId,
        place: Place,
    ) -> Result<(), BinaryFault>
        ensures recorded { OnOk result (ScopeChanges merged (export_at definition (where_of place)) self.old self.new) }
        ensures content { self.new.content ≡ self.old.content }
        ensures memory { IfErr result (λ e. e ≡ OutOfMemory) }
    {
        if merged {
            self.merged.record_export(definition, place)
        } else {
            self.graph.record_export(definition, place)
        }
    }

    /// The place of a value type that an instance exports, if it is recorded.
    ///
    /// It is a type index and `true`, or the index of the instance and `false`.
    fn export(&self, merged: bool, definition: DefinedTypeId) -> Option<(u32, bool)>
        ensures { result ≡ export_of ((opened merged self.now).exports definition) }
    {
        if merged {
            self.merged.export(definition)
        } else {
            self.graph.export(definition)
        }
    }

    /// The place of a value type that has a name in this scope, in the form of [`Self::resource`].
    ///
    /// A type has a name if its index is that of an alias, type import or type export, or if an instance exports it.
    /// The index of its definition is not a name.
    pub(crate) fn named(&self, merged: bool, definition: DefinedTypeId) -> Option<(u32, bool)>
        ensures { result ≡ export_of (named_in definition (opened merged self.now)) }
    {
        let ty = Type::Value(ValueType::Defined(definition));
        match self.entry(merged, ty) {
            Some(
                Entry {
                    index,
                    how: How::Brought | How::Listed,
                },
            ) => Some((index, true)),
            _ => self.export(merged, definition),
        }
    }

    /// Whether a type that an enclosing scope records is known to mean the same in this scope.
    ///
    /// `is_closed` says that the type mentions no resource that is bound outside it. It is then the same in each scope.
    pub(crate) fn may_cross(&self, merged: bool, is_closed: bool) -> bool
        ensures crosses { result ≡ true → (is_closed ≡ true) ⊎ ((opened merged self.now).passes ≡ true) }
        ensures stays { result ≡ false → (is_closed ≡ false) × ((opened merged self.now).passes ≡ false) }
    {
        if is_closed {
            return true;
        }
        if merged {
            self.merged.passes()
        } else {
            self.graph.passes()
        }
    }

    /// Adds an alias of a value type that is recorded as an instance's export, and returns the alias's type index.
    fn alias_own_export(
        &mut self,
        merged: bool,
        definition: DefinedTypeId,
    ) -> Result<u32, BinaryFault>
        requires { IsExported ((opened merged self.old).exports definition) }
        ensures index { IfOk result (λ i. i ≡ next_type (opened merged self.old)) }
        ensures appended { OnOk result (self.new ≡ record self.old { content = aliased_from ((opened merged self.old).exports definition) self.old.content }) }
        ensures refused { OnErr result (self.new ≡ self.old) }
        ensures small { IsShortPlace ((opened merged self.old).exports definition) }
        ensures too_large { TooLargeUnless result (ContentFits (content_of (aliased_from ((opened merged self.old).exports definition) self.old.content))) }
    {
        if merged {
            self.merged.alias_export(&mut self.content, definition)
        } else {
            self.graph.alias_export(&mut self.content, definition)
        }
    }

    /// Aliases a value type that is recorded as an instance's export, records it at the alias, and returns its index.
    ///
    /// # Errors
    /// As [`Self::settle_resource`].
    pub(crate) fn settle_export(
        &mut self,
        merged: bool,
        definition: DefinedTypeId,
    ) -> Result<u32, BinaryFault>
        requires { IsExported ((opened merged self.old).exports definition) }
        ensures index { IfOk result (λ i. i ≡ next_type (opened merged self.old)) }
        ensures step { OnOk result (ScopeChanges merged (settled_value definition) self.old self.new) }
        ensures types { AddsTypes self.old.content self.new.content }
        ensures small { IsShortPlace ((opened merged self.old).exports definition) }
        ensures too_large { TooLargeUnless result (ContentFits (content_of (aliased_from ((opened merged self.old).exports definition) self.old.content))) }
    {
        let own = self.alias_own_export(merged, definition)?;
        self.record_export(merged, definition, Place::Index(own))?;
        Ok(own)
    }

    /// Adds an outer alias of a type and records the type there.
    ///
    /// The type has the index `index` in the scope `count` scopes out. Returns the alias's type index.
    ///
    /// # Errors
    /// As [`Self::alias_resource`].
    pub(crate) fn alias_type(
        &mut self,
        merged: bool,
        ty: Type,
        count: u32,
        index: u32,
    ) -> Result<u32, BinaryFault>
        ensures index { IfOk result (λ i. i ≡ next_type (opened merged self.old)) }
        ensures step { OnOk result (ScopeChanges merged (λ o. index_at ty brought (next_type o) (with_alias_of (outer_alias s.Type count index) o)) self.old self.new) }
        ensures types { AddsTypes self.old.content self.new.content }
        ensures too_large { TooLargeUnless result (ContentFits (content_of (and_alias_of (outer_alias s.Type count index) self.old.content))) }
    {
        let own = self.content.alias_outer(count, index)?;
        self.record_type(merged, ty, How::Brought, own)?;
        Ok(own)
    }

    /// Reserves room to record one more resource.
    fn reserve_resource(&mut self, merged: bool) -> Result<(), BinaryFault>
        ensures same { (b : Bool) → opened b self.new ≡ opened b self.old }
        ensures content { self.new.content ≡ self.old.content }
        ensures room { OnOk result (0 < spare (book_of merged self.new).resources) }
        ensures memory { IfErr result (λ e. e ≡ OutOfMemory) }
    {
        if merged {
            self.merged.reserve_resource()
        } else {
            self.graph.reserve_resource()
        }
    }

    /// Records the place of a resource, for which room was reserved.
    fn put_resource(&mut self, merged: bool, resource: ResourceId, place: Place)
        requires { 0 < spare (book_of merged self.old).resources }
        ensures recorded { ScopeChanges merged (bind_at resource (where_of place)) self.old self.new }
        ensures content { self.new.content ≡ self.old.content }
    {
        if merged {
            self.merged.put_resource(resource, place);
        } else {
            self.graph.put_resource(resource, place);
        }
    }

    /// Adds an import or export of a fresh resource to an open type, records the resource and returns its type index.
    ///
    /// # Errors
    /// As [`Encodable::defined_type`].
    pub(crate) fn list_fresh(
        &mut self,
        merged: bool,
        side: Side,
        name: &str,
        resource: ResourceId,
    ) -> Result<u32, BinaryFault>
        requires { HasSide (side_of side) self.old.content }
        ensures index { IfOk result (λ i. i ≡ next_type (opened merged self.old)) }
        ensures step { OnOk result (ScopeChanges merged (with_fresh (side_of side) name.now resource) self.old self.new) }
        ensures content { OnOk result (self.new.content ≡ and_item (side_of side) name.now e.Fresh self.old.content) }
        ensures refused { OnErr result (self.new.content ≡ self.old.content) }
        ensures too_large { IsTooLarge result → ¬ ContentFits (content_of (and_item (side_of side) name.now e.Fresh self.old.content)) }
    {
        self.reserve_resource(merged)?;
        let index = self.content.list(side, name, Description::Fresh)?;
        self.put_resource(merged, resource, Place::Index(index));
        Ok(index)
    }

    /// Adds a component type and returns its type index.
    ///
    /// # Errors
    /// As [`Encodable::defined_type`].
    pub(crate) fn define_component(&mut self, component: &ComponentType) -> Result<u32, BinaryFault>
        ensures index { IfOk result (λ i. i ≡ type_count (content_of self.old.content)) }
        ensures appended { OnOk result (self.new ≡ record self.old { content = and_type (component_def (decls component.now)) self.old.content }) }
        ensures refused { OnErr result (self.new ≡ self.old) }
        ensures too_large { TooLargeUnless result (ContentFits (content_of (and_type (component_def (decls component.now)) self.old.content))) }
    {
        self.content.component_type(component)
    }

    /// Adds the component type of a world, records its type index and returns it.
    ///
    /// # Errors
    /// As [`Self::alias_resource`].
    pub(crate) fn define_world(
        &mut self,
        merged: bool,
        world: WorldId,
        component: &ComponentType,
    ) -> Result<u32, BinaryFault>
        ensures index { IfOk result (λ i. i ≡ next_type (opened merged self.old)) }
        ensures step { OnOk result (ScopeChanges merged (λ o. index_at (ty.World world) defined (next_type o) (with_def (component_def (decls component.now)) o)) self.old self.new) }
        ensures types { AddsTypes self.old.content self.new.content }
        ensures too_large { TooLargeUnless result (ContentFits (content_of (and_type (component_def (decls component.now)) self.old.content))) }
    {
        let own = self.content.component_type(component)?;
        self.record_type(merged, Type::World(world), How::Defined, own)?;
        Ok(own)
    }

    /// Adds a primitive type under a type index of its own, and returns the index.
    ///
    /// # Errors
    /// As [`Encodable::defined_type`].
    pub(crate) fn define_primitive(&mut self, primitive: PrimitiveType) -> Result<u32, BinaryFault>
        ensures index { IfOk result (λ i. i ≡ type_count (content_of self.old.content)) }
        ensures appended { OnOk result (self.new ≡ record self.old { content = and_type (value_def (primitive_def primitive)) self.old.content }) }
        ensures refused { OnErr result (self.new ≡ self.old) }
        ensures too_large { TooLargeUnless result (ContentFits (content_of (and_type (value_def (primitive_def primitive)) self.old.content))) }
    {
        self.content
            .defined_type(&DefinedType::Primitive(primitive))
    }

    /// Adds a core module type and returns its core type index.
    ///
    /// # Errors
    /// As [`Encodable::defined_type`].
    pub(crate) fn define_module(&mut self, declarations: &ModuleType) -> Result<u32, BinaryFault>
        ensures index { IfOk result (λ i. i ≡ module_count (content_of self.old.content)) }
        ensures appended { OnOk result (self.new ≡ record self.old { content = and_core_type declarations.now self.old.content }) }
        ensures refused { OnErr result (self.new ≡ self.old) }
        ensures too_large { TooLargeUnless result (ContentFits (content_of (and_core_type declarations.now self.old.content))) }
    {
        self.content.core_module_type(declarations)
    }

    /// Adds an import to the root, and returns its index in the index space of its sort.
    ///
    /// # Errors
    /// As [`Encodable::defined_type`].
    pub(crate) fn import(&mut self, name: &str, d: Description) -> Result<u32, BinaryFault>
        requires { IsRoot self.old.content }
        ensures index { IfOk result (λ i. i ≡ count_of (space (described_sort d)) self.old.content) }
        ensures appended { OnOk result (self.new ≡ record self.old { content = and_import name.now d self.old.content }) }
        ensures refused { OnErr result (self.new ≡ self.old) }
        ensures too_large { TooLargeUnless result (ContentFits (content_of (and_import name.now d self.old.content))) }
    {
        self.content.import(name, d)
    }

    /// Adds an import of a fresh resource to the root, records the resource and returns its type index.
    ///
    /// # Errors
    /// As [`Encodable::defined_type`].
    pub(crate) fn import_fresh(
        &mut self,
        merged: bool,
        name: &str,
        resource: ResourceId,
    ) -> Result<u32, BinaryFault>
        requires { IsRoot self.old.content }
        ensures index { IfOk result (λ i. i ≡ next_type (opened merged self.old)) }
        ensures step { OnOk result (ScopeChanges merged (with_fresh_import name.now resource) self.old self.new) }
        ensures content { OnOk result (self.new.content ≡ and_import name.now e.Fresh self.old.content) }
        ensures refused { OnErr result (self.new.content ≡ self.old.content) }
        ensures too_large { IsTooLarge result → ¬ ContentFits (content_of (and_import name.now e.Fresh self.old.content)) }
    {
        self.reserve_resource(merged)?;
        let own = self.content.import(name, Description::Fresh)?;
        self.put_resource(merged, resource, Place::Index(own));
        Ok(own)
    }

    /// The component that is written in the root.
    pub(crate) fn builder(&mut self) -> &mut ComponentBuilder
        requires { IsRoot self.old.content }
        ensures* writes_back { sem 𝓛 (LendsScope self.entry result) }
        ensures value { result.now ≡ items_of self.old.content }
    {
        self.content.builder()
    }

    /// Returns the content.
    pub(crate) fn into_content(self) -> Encodable
        ensures { result ≡ self.content }
    {
        let Scope {
            content,
            merged: _,
            graph: _,
        } = self;
        content
    }
}
