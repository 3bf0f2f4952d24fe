//! The content of an open scope.

ghost use Rattle.wac_binary.specs.Fits.{TooLargeUnless};
ghost use Rattle.wac_encode_stacks.specs.private.Sizes.{ContentFits};
ghost use Rattle.std.specs.Prelude.{◌≡◌, IfOk, OnOk, OnErr};
ghost use Rattle.std.specs.Borrow.{sem};
ghost use Rattle.wac_binary.specs.declared.sorts.Sort.TheVariants as s;
ghost use Rattle.wac_binary.specs.Items.{value_def, instance_def, component_def, decls, export_alias, outer_alias};
ghost use Rattle.wac_binary.specs.Indexes.{space, described_sort};
ghost use Rattle.wac_binary.specs.Views.{defined_of, func_of};
ghost use Rattle.wac_encode_stacks.specs.Scopes.{type_count};
ghost use Rattle.wac_encode_stacks.specs.private.Modules.{module_count};
ghost use Rattle.wac_encode_scopes.specs.Roots.{IsRoot, items_of, and_import};
ghost use Rattle.wac_encode_scopes.specs.Lending.{LendsContent};
ghost use Rattle.wac_encode_scopes.specs.private.Steps.{and_core_type};
ghost use Rattle.wac_encode_scopes.specs.Contents.{content_of, and_type, and_alias_of, and_item, HasSide, side_of, count_of};

use crate::side::Side;
use wac_binary::{
    BinaryFault, ComponentBuilder, ComponentType, DefinedType, Description, FuncType, InstanceType,
    ModuleType, Sort,
};

/// The content of an open scope: the root component, an instance type or a component type.
#[derive(Drop)]
pub enum Encodable {
    /// The root component.
    Builder(ComponentBuilder),
    /// An instance type.
    Instance(InstanceType),
    /// A component type.
    Component(ComponentType),
}

impl Encodable {
    /// Adds a value type definition and returns its type index.
    ///
    /// # Errors
    /// - `TooLarge` if the content would not fit 32-bit sizes.
    /// - `OutOfMemory`.
    ///
    /// On an error the content is unchanged.
    pub(crate) fn defined_type(&mut self, t: &DefinedType<'_>) -> Result<u32, BinaryFault>
        ensures index { IfOk result (λ i. i ≡ type_count (content_of self.old)) }
        ensures appended { OnOk result (self.new ≡ and_type (value_def (defined_of t.now)) self.old) }
        ensures refused { OnErr result (self.new ≡ self.old) }
        ensures too_large { TooLargeUnless result (ContentFits (content_of (and_type (value_def (defined_of t.now)) self.old))) }
    {
        match self {
            Encodable::Builder(content) => content.defined_type(t),
            Encodable::Instance(content) => content.defined_type(t),
            Encodable::Component(content) => content.defined_type(t),
        }
    }

    /// Adds a function type and returns its type index.
    ///
    /// # Errors
    /// As [`Self::defined_type`].
    pub(crate) fn func_type(&mut self, f: &FuncType<'_>) -> Result<u32, BinaryFault>
        ensures index { IfOk result (λ i. i ≡ type_count (content_of self.old)) }
        ensures appended { OnOk result (self.new ≡ and_type (func_of f.now) self.old) }
        ensures refused { OnErr result (self.new ≡ self.old) }
        ensures too_large { TooLargeUnless result (ContentFits (content_of (and_type (func_of f.now) self.old))) }
    {
        match self {
            Encodable::Builder(content) => content.func_type(f),
            Encodable::Instance(content) => content.func_type(f),
            Encodable::Component(content) => content.func_type(f),
        }
    }

    /// Adds an outer alias of the type at `index` in the scope `count` scopes out, and returns the alias's type index.
    ///
    /// # Errors
    /// As [`Self::defined_type`].
    pub(crate) fn alias_outer(&mut self, count: u32, index: u32) -> Result<u32, BinaryFault>
        ensures index { IfOk result (λ i. i ≡ type_count (content_of self.old)) }
        ensures appended { OnOk result (self.new ≡ and_alias_of (outer_alias s.Type count index) self.old) }
        ensures refused { OnErr result (self.new ≡ self.old) }
        ensures too_large { TooLargeUnless result (ContentFits (content_of (and_alias_of (outer_alias s.Type count index) self.old))) }
    {
        match self {
            Encodable::Builder(content) => content.alias_outer(Sort::Type, count, index),
            Encodable::Instance(content) => content.alias_outer(Sort::Type, count, index),
            Encodable::Component(content) => content.alias_outer(Sort::Type, count, index),
        }
    }

    /// Adds an alias of a type that an instance exports, and returns the alias's type index.
    ///
    /// # Errors
    /// As [`Self::defined_type`].
    pub(crate) fn alias_export(&mut self, instance: u32, name: &str) -> Result<u32, BinaryFault>
        ensures index { IfOk result (λ i. i ≡ type_count (content_of self.old)) }
        ensures appended { OnOk result (self.new ≡ and_alias_of (export_alias s.Type instance name.now) self.old) }
        ensures refused { OnErr result (self.new ≡ self.old) }
        ensures too_large { TooLargeUnless result (ContentFits (content_of (and_alias_of (export_alias s.Type instance name.now) self.old))) }
    {
        match self {
            Encodable::Builder(content) => content.alias_export(Sort::Type, instance, name),
            Encodable::Instance(content) => content.alias_export(Sort::Type, instance, name),
            Encodable::Component(content) => content.alias_export(Sort::Type, instance, name),
        }
    }

    /// Adds an instance type and returns its type index.
    ///
    /// In an open type, the longer of the two buffers stays in place. So nested types are not copied at each level.
    ///
    /// # Errors
    /// As [`Self::defined_type`].
    pub(crate) fn instance_type(&mut self, t: InstanceType) -> Result<u32, BinaryFault>
        ensures index { IfOk result (λ i. i ≡ type_count (content_of self.old)) }
        ensures appended { OnOk result (self.new ≡ and_type (instance_def (decls t)) self.old) }
        ensures refused { OnErr result (self.new ≡ self.old) }
        ensures too_large { TooLargeUnless result (ContentFits (content_of (and_type (instance_def (decls t)) self.old))) }
    {
        match self {
            Encodable::Builder(content) => content.instance_type(&t),
            Encodable::Instance(content) => content.take_instance_type(t),
            Encodable::Component(content) => content.take_instance_type(t),
        }
    }

    /// Adds an import or export to an open type, and returns its index in the index space of its sort.
    ///
    /// # Errors
    /// As [`Self::defined_type`].
    pub(crate) fn list(
        &mut self,
        side: Side,
        name: &str,
        d: Description,
    ) -> Result<u32, BinaryFault>
        requires { HasSide (side_of side) self.old }
        ensures index { IfOk result (λ i. i ≡ count_of (space (described_sort d)) self.old) }
        ensures appended { OnOk result (self.new ≡ and_item (side_of side) name.now d self.old) }
        ensures refused { OnErr result (self.new ≡ self.old) }
        ensures too_large { TooLargeUnless result (ContentFits (content_of (and_item (side_of side) name.now d self.old))) }
    {
        match self {
            Encodable::Builder(_) => unreachable!(),
            Encodable::Instance(content) => content.export(name, d),
            Encodable::Component(content) => match side {
                Side::Import => content.import(name, d),
                Side::Export => content.export(name, d),
            },
        }
    }

    /// Adds a component type and returns its type index.
    ///
    /// # Errors
    /// As [`Self::defined_type`].
    pub(crate) fn component_type(&mut self, t: &ComponentType) -> Result<u32, BinaryFault>
        ensures index { IfOk result (λ i. i ≡ type_count (content_of self.old)) }
        ensures appended { OnOk result (self.new ≡ and_type (component_def (decls t.now)) self.old) }
        ensures refused { OnErr result (self.new ≡ self.old) }
        ensures too_large { TooLargeUnless result (ContentFits (content_of (and_type (component_def (decls t.now)) self.old))) }
    {
        match self {
            Encodable::Builder(content) => content.component_type(t),
            Encodable::Instance(content) => content.component_type(t),
            Encodable::Component(content) => content.component_type(t),
        }
    }

    /// Adds a core module type and returns its core type index.
    ///
    /// # Errors
    /// As [`Self::defined_type`].
    pub(crate) fn core_module_type(&mut self, t: &ModuleType) -> Result<u32, BinaryFault>
        ensures index { IfOk result (λ i. i ≡ module_count (content_of self.old)) }
        ensures appended { OnOk result (self.new ≡ and_core_type t.now self.old) }
        ensures refused { OnErr result (self.new ≡ self.old) }
        ensures too_large { TooLargeUnless result (ContentFits (content_of (and_core_type t.now self.old))) }
    {
        match self {
            Encodable::Builder(content) => content.core_module_type(t),
            Encodable::Instance(content) => content.core_module_type(t),
            Encodable::Component(content) => content.core_module_type(t),
        }
    }

    /// Adds an import to the root, and returns its index in the index space of its sort.
    ///
    /// # Errors
    /// As [`Self::defined_type`].
    pub(crate) fn import(&mut self, name: &str, d: Description) -> Result<u32, BinaryFault>
        requires { IsRoot self.old }
        ensures index { IfOk result (λ i. i ≡ count_of (space (described_sort d)) self.old) }
        ensures appended { OnOk result (self.new ≡ and_import name.now d self.old) }
        ensures refused { OnErr result (self.new ≡ self.old) }
        ensures too_large { TooLargeUnless result (ContentFits (content_of (and_import name.now d self.old))) }
    {
        match self {
            Encodable::Builder(content) => content.import(name, d),
            Encodable::Instance(_) | Encodable::Component(_) => unreachable!(),
        }
    }

    /// The root component.
    pub(crate) fn builder(&mut self) -> &mut ComponentBuilder
        requires { IsRoot self.old }
        ensures* writes_back { sem 𝓛 (LendsContent self.entry result) }
        ensures value { result.now ≡ items_of self.old }
    {
        match self {
            Encodable::Builder(content) => content,
            Encodable::Instance(_) | Encodable::Component(_) => unreachable!(),
        }
    }
}
