//! The writer of components.

ghost use Rattle.std.specs.Prelude.{◌≡◌, List, ◌++◌, ◌∷◌, [], OnOk, OnErr, IfOk, IfErr, Some};
ghost use Rattle.wac_binary.specs.Items.{Item as OfItem, decls, value_def, component_def, instance_def, core_type, custom, nested, instantiate, alias_item, export_alias, outer_alias, type_item, import_item, export_item};
ghost use Rattle.wac_binary.specs.Bytes.{bytes_of};
ghost use Rattle.wac_binary.specs.Indexes.{space, core_types, described_sort, adds, indexes};
ghost use Rattle.wac_binary.specs.private.Spaces.{number as number_of};
ghost use Rattle.wac_binary.specs.Fits.{Fits, TooLargeUnless};
ghost use Rattle.wac_binary.specs.Format.{AreInFormat};
ghost use Rattle.wac_binary.specs.Views.{arguments_of, func_of, defined_of};
ghost use Rattle.wac_binary.specs.private.sections.ItemView.{item_of};
ghost use Rattle.wac_binary.specs.private.builder.Written.{Written, Written_prop};
ghost use Rattle.wac_binary.specs.declared.fault.BinaryFault.TheVariants.{OutOfMemory};
ghost use Rattle.wac_binary.specs.declared.sorts.Sort.TheVariants as s;

use crate::declarations::component_type::ComponentType;
use crate::declarations::decl::{AliasRef, Scope, TypeRef};
use crate::declarations::instance_type::InstanceType;
use crate::declarations::module_type::ModuleType;
use crate::fault::BinaryFault;
use crate::sections::item::{AloneRef, ItemRef, alone_size, section_id};
use crate::sections::section::{Open, begin, has_room, put_alone, put_open, put_shared};
use crate::sorts::{Description, IndexSpace, Sort, described_sort, number, space};
use crate::types::{DefinedType, FuncType};
use std::alloc::Global;
use std::marker::Model;

/// A component that is being written. Contracts see it as the list of its items.
///
/// Each adding call appends an item, and returns the index that this adds to the index space of its sort.
/// Whether the indexes in an item exist is not checked.
///
/// # Errors
/// - [`TooLarge`](BinaryFault::TooLarge) if the component would not fit 32-bit sizes.
/// - [`OutOfMemory`](BinaryFault::OutOfMemory).
///
/// On an error the component is unchanged.
#[derive(Debug)]
pub struct ComponentBuilder {
    alloc: Global,
    /// The preamble and the finished sections.
    bytes: Vec<u8>,
    /// The items of the open section.
    things: Vec<u8>,
    /// A spare buffer for the first item of the next section.
    next: Vec<u8>,
    open_section: Option<Open>,
    /// The number of indexes in each index space.
    counts: [u64; 7],
    // The only list of items with these bytes (docs/PROOFS.md, 'Lists of values').
    ghost written: { Written bytes.items open_section things.items } by { Written_prop bytes.items open_section things.items },
}

// By hand: a derived `Drop` is proved again wherever one goes out of scope (docs/PROOFS.md, 'Drop').
impl Drop for ComponentBuilder {
    fn drop(self) {
        let ComponentBuilder {
            alloc: _,
            bytes: _,
            things: _,
            next: _,
            open_section: _,
            counts: _,
        } = self;
    }
}

impl Model for ComponentBuilder {
    ghost use Rattle.std.specs.Prelude.{List};
    ghost use Rattle.std.specs.Coded.{coded_list};
    ghost use Rattle.wac_binary.specs.Items.{Item as OfItem};
    ghost use Rattle.wac_binary.specs.private.Code.{coded_item};

    ghost Value = { List OfItem };

    ghost coded = { coded_list coded_item };

    ghost use Rattle.wac_binary.specs.private.builder.WrittenView.{view as the_items, IsWritten};

    ghost view = { the_items };

    ghost invariant = { IsWritten };
}

impl ComponentBuilder {
    /// Creates a component without items.
    pub fn new(alloc: Global) -> ComponentBuilder
        ensures { result ≡ [] }
    {
        ComponentBuilder {
            alloc,
            bytes: Vec::new(alloc),
            things: Vec::new(alloc),
            next: Vec::new(alloc),
            open_section: None,
            counts: [0; 7],
        }
    }

    /// States that the component fits 32-bit sizes. Proof only (docs/PROOFS.md, 'Laws').
    pub fn fit_law(&self)
        ensures { Fits self.now }
    {
        let _ = &self.bytes;
    }

    /// Appends an item, which adds an index to `space`, and returns that index.
    #[inline(always)]
    fn append(&mut self, item: &ItemRef<'_>, space: IndexSpace) -> Result<u32, BinaryFault>
        requires { adds (item_of item.now) ≡ Some (number_of space) }
        ensures index { IfOk result (λ i. i ≡ indexes (number_of space) self.old) }
        ensures appended { OnOk result (self.new ≡ self.old ++ item_of item.now ∷ []) }
        ensures fits { OnOk result (Fits self.new) }
        ensures refused { OnErr result (self.new ≡ self.old) }
        ensures too_large { TooLargeUnless result (Fits (self.old ++ item_of item.now ∷ [])) }
    {
        let at = number(space);
        let index = self.counts[at];
        if !has_room(index, &self.open_section, &self.things, item) {
            return Err(BinaryFault::TooLarge);
        }
        let id = section_id(item);
        begin(&mut self.bytes)?;
        let count = put_shared(
            &mut self.bytes,
            &mut self.things,
            &mut self.next,
            &self.open_section,
            item,
        )?;
        self.counts[at] = index + 1;
        self.open_section = Some(Open { id, count });
        Ok(index as u32)
    }

    /// Adds a nested component and returns its component index. Its bytes are not checked.
    pub fn component(&mut self, bytes: &[u8]) -> Result<u32, BinaryFault>
        ensures index { IfOk result (λ i. i ≡ indexes (space s.Component) self.old) }
        ensures appended { OnOk result (self.new ≡ self.old ++ nested bytes.now ∷ []) }
        ensures fits { OnOk result (Fits self.new) }
        ensures refused { OnErr result (self.new ≡ self.old) }
        ensures too_large { TooLargeUnless result (Fits (self.old ++ nested bytes.now ∷ [])) }
    {
        let item = AloneRef::Component(bytes);
        let at = number(IndexSpace::Components);
        let index = self.counts[at];
        let size = alone_size(index, &item)?;
        begin(&mut self.bytes)?;
        put_alone(
            &mut self.bytes,
            self.open_section,
            &self.things,
            &item,
            size,
        )?;
        self.counts[at] = index + 1;
        self.open_section = None;
        Ok(index as u32)
    }

    /// Adds a custom section.
    pub fn custom(&mut self, name: &str, bytes: &[u8]) -> Result<(), BinaryFault>
        ensures appended { OnOk result (self.new ≡ self.old ++ custom name.now bytes.now ∷ []) }
        ensures fits { OnOk result (Fits self.new) }
        ensures refused { OnErr result (self.new ≡ self.old) }
        ensures too_large { TooLargeUnless result (Fits (self.old ++ custom name.now bytes.now ∷ [])) }
    {
        let item = AloneRef::Custom { name, bytes };
        let last = self.open_section;
        let size = alone_size(0, &item)?;
        begin(&mut self.bytes)?;
        put_alone(&mut self.bytes, last, &self.things, &item, size)?;
        self.open_section = None;
        Ok(())
    }

    /// Instantiates the component with this index and returns the instance index.
    ///
    /// An argument is a name, a sort, and an index of that sort.
    pub fn instantiate(
        &mut self,
        component: u32,
        arguments: &[(&str, Sort, u32)],
    ) -> Result<u32, BinaryFault>
        ensures index { IfOk result (λ i. i ≡ indexes (space s.Instance) self.old) }
        ensures appended { OnOk result (self.new ≡ self.old ++ instantiate component (arguments_of arguments.now) ∷ []) }
        ensures fits { OnOk result (Fits self.new) }
        ensures refused { OnErr result (self.new ≡ self.old) }
        ensures too_large { TooLargeUnless result (Fits (self.old ++ instantiate component (arguments_of arguments.now) ∷ [])) }
    {
        self.append(
            &ItemRef::Instance {
                component,
                arguments,
            },
            IndexSpace::Instances,
        )
    }

    /// Adds an alias of an export of the instance with this index, and returns its index of this sort.
    pub fn alias_export(
        &mut self,
        sort: Sort,
        instance: u32,
        name: &str,
    ) -> Result<u32, BinaryFault>
        ensures index { IfOk result (λ i. i ≡ indexes (space sort) self.old) }
        ensures appended { OnOk result (self.new ≡ self.old ++ alias_item (export_alias sort instance name.now) ∷ []) }
        ensures fits { OnOk result (Fits self.new) }
        ensures refused { OnErr result (self.new ≡ self.old) }
        ensures too_large { TooLargeUnless result (Fits (self.old ++ alias_item (export_alias sort instance name.now) ∷ [])) }
    {
        let alias = AliasRef::Export(sort, instance, name);
        self.append(&ItemRef::Alias(alias), space(sort))
    }

    /// Adds an alias of an index of the scope that is `count` scopes out, and returns its index of this sort.
    ///
    /// The component itself is 0 scopes out.
    pub fn alias_outer(&mut self, sort: Sort, count: u32, index: u32) -> Result<u32, BinaryFault>
        ensures index { IfOk result (λ i. i ≡ indexes (space sort) self.old) }
        ensures appended { OnOk result (self.new ≡ self.old ++ alias_item (outer_alias sort count index) ∷ []) }
        ensures fits { OnOk result (Fits self.new) }
        ensures refused { OnErr result (self.new ≡ self.old) }
        ensures too_large { TooLargeUnless result (Fits (self.old ++ alias_item (outer_alias sort count index) ∷ [])) }
    {
        let alias = AliasRef::Outer(sort, count, index);
        self.append(&ItemRef::Alias(alias), space(sort))
    }

    /// Adds a value type and returns its type index.
    pub fn defined_type(&mut self, t: &DefinedType<'_>) -> Result<u32, BinaryFault>
        ensures index { IfOk result (λ i. i ≡ indexes (space s.Type) self.old) }
        ensures appended { OnOk result (self.new ≡ self.old ++ type_item (value_def (defined_of t.now)) ∷ []) }
        ensures fits { OnOk result (Fits self.new) }
        ensures refused { OnErr result (self.new ≡ self.old) }
        ensures too_large { TooLargeUnless result (Fits (self.old ++ type_item (value_def (defined_of t.now)) ∷ [])) }
    {
        self.append(&ItemRef::Type(TypeRef::Defined(t)), IndexSpace::Types)
    }

    /// Adds a function type and returns its type index.
    pub fn func_type(&mut self, f: &FuncType<'_>) -> Result<u32, BinaryFault>
        ensures index { IfOk result (λ i. i ≡ indexes (space s.Type) self.old) }
        ensures appended { OnOk result (self.new ≡ self.old ++ type_item (func_of f.now) ∷ []) }
        ensures fits { OnOk result (Fits self.new) }
        ensures refused { OnErr result (self.new ≡ self.old) }
        ensures too_large { TooLargeUnless result (Fits (self.old ++ type_item (func_of f.now) ∷ [])) }
    {
        self.append(&ItemRef::Type(TypeRef::Func(f)), IndexSpace::Types)
    }

    /// Adds a component type and returns its type index.
    pub fn component_type(&mut self, t: &ComponentType) -> Result<u32, BinaryFault>
        ensures index { IfOk result (λ i. i ≡ indexes (space s.Type) self.old) }
        ensures appended { OnOk result (self.new ≡ self.old ++ type_item (component_def (decls t.now)) ∷ []) }
        ensures fits { OnOk result (Fits self.new) }
        ensures refused { OnErr result (self.new ≡ self.old) }
        ensures too_large { TooLargeUnless result (Fits (self.old ++ type_item (component_def (decls t.now)) ∷ [])) }
    {
        let t = TypeRef::Scope(Scope::Component, t.declarations());
        self.append(&ItemRef::Type(t), IndexSpace::Types)
    }

    /// Adds an instance type and returns its type index.
    pub fn instance_type(&mut self, t: &InstanceType) -> Result<u32, BinaryFault>
        ensures index { IfOk result (λ i. i ≡ indexes (space s.Type) self.old) }
        ensures appended { OnOk result (self.new ≡ self.old ++ type_item (instance_def (decls t.now)) ∷ []) }
        ensures fits { OnOk result (Fits self.new) }
        ensures refused { OnErr result (self.new ≡ self.old) }
        ensures too_large { TooLargeUnless result (Fits (self.old ++ type_item (instance_def (decls t.now)) ∷ [])) }
    {
        let t = TypeRef::Scope(Scope::Instance, t.declarations());
        self.append(&ItemRef::Type(t), IndexSpace::Types)
    }

    /// Adds a core module type and returns its core type index.
    pub fn core_module_type(&mut self, t: &ModuleType) -> Result<u32, BinaryFault>
        ensures index { IfOk result (λ i. i ≡ indexes core_types self.old) }
        ensures appended { OnOk result (self.new ≡ self.old ++ core_type t.now ∷ []) }
        ensures fits { OnOk result (Fits self.new) }
        ensures refused { OnErr result (self.new ≡ self.old) }
        ensures too_large { TooLargeUnless result (Fits (self.old ++ core_type t.now ∷ [])) }
    {
        self.append(&ItemRef::CoreModule(t), IndexSpace::CoreTypes)
    }

    /// Adds an import and returns its index of the described sort.
    pub fn import(&mut self, name: &str, d: Description) -> Result<u32, BinaryFault>
        ensures index { IfOk result (λ i. i ≡ indexes (space (described_sort d)) self.old) }
        ensures appended { OnOk result (self.new ≡ self.old ++ import_item name.now d ∷ []) }
        ensures fits { OnOk result (Fits self.new) }
        ensures refused { OnErr result (self.new ≡ self.old) }
        ensures too_large { TooLargeUnless result (Fits (self.old ++ import_item name.now d ∷ [])) }
    {
        self.append(&ItemRef::Import(name, d), space(described_sort(d)))
    }

    /// Exports this index of this sort and returns the new index of that sort.
    pub fn export(&mut self, name: &str, sort: Sort, index: u32) -> Result<u32, BinaryFault>
        ensures index { IfOk result (λ i. i ≡ indexes (space sort) self.old) }
        ensures appended { OnOk result (self.new ≡ self.old ++ export_item name.now sort index ∷ []) }
        ensures fits { OnOk result (Fits self.new) }
        ensures refused { OnErr result (self.new ≡ self.old) }
        ensures too_large { TooLargeUnless result (Fits (self.old ++ export_item name.now sort index ∷ [])) }
    {
        self.append(&ItemRef::Export { name, sort, index }, space(sort))
    }

    /// Returns the bytes of the component.
    ///
    /// # Errors
    /// [`OutOfMemory`](BinaryFault::OutOfMemory).
    pub fn finish(&self) -> Result<Vec<u8>, BinaryFault>
        ensures bytes { IfOk result (λ v. v.items ≡ bytes_of self.now) }
        ensures fits { Fits self.now }
        ensures in_format { AreInFormat self.now }
        ensures memory { IfErr result (λ e. e ≡ OutOfMemory) }
    {
        let mut out = Vec::new(self.alloc);
        out.extend_from_slice(&self.bytes)?;
        begin(&mut out)?;
        put_open(&mut out, self.open_section, &self.things)?;
        Ok(out)
    }

    /// Returns the bytes of the component and consumes it.
    ///
    /// # Errors
    /// [`OutOfMemory`](BinaryFault::OutOfMemory).
    pub fn into_bytes(self) -> Result<Vec<u8>, BinaryFault>
        ensures bytes { IfOk result (λ v. v.items ≡ bytes_of self) }
        ensures fits { Fits self }
        ensures in_format { AreInFormat self }
        ensures memory { IfErr result (λ e. e ≡ OutOfMemory) }
    {
        let ComponentBuilder {
            alloc: _,
            mut bytes,
            things,
            next: _,
            open_section,
            counts: _,
        } = self;
        begin(&mut bytes)?;
        put_open(&mut bytes, open_section, &things)?;
        Ok(bytes)
    }
}
