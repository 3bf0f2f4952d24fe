//! The records of an open scope for the types of one collection.

ghost use Rattle.std.specs.Prelude.{◌≡◌, ◌<◌, false, IfOk, IfErr, OnOk, OnErr, None};
ghost use Rattle.wac_binary.specs.Fits.{TooLargeUnless};
ghost use Rattle.wac_binary.specs.declared.fault.BinaryFault.TheVariants.{OutOfMemory};
ghost use Rattle.wac_encode_stacks.specs.private.Sizes.{ContentFits};
ghost use Rattle.wac_encode_scopes.specs.private.Limits.{IsShortPlace};
ghost use Rattle.wac_encode_stacks.specs.Scopes.{bind_at, index_at, export_at, type_count};
ghost use Rattle.wac_encode_scopes.specs.Contents.{content_of};
ghost use Rattle.std.specs.HashMap.{spare};
ghost use Rattle.wac_encode_stacks.specs.Scopes.{Content};
ghost use Rattle.wac_encode_scopes.specs.Books.{recorded, where_of, how_of, binds_in, types_in, exports_in, maybe_where, maybe_indexed};
ghost use Rattle.wac_encode_scopes.specs.private.Steps.{Records, IsExported, is_listed, aliased_from, export_of};

use crate::encodable::Encodable;
use std::alloc::Global;
use std::collections::HashMap;
use std::hash::BuildHasherDefault;
use wac_binary::BinaryFault;
use wac_types_collection::{DefinedTypeId, ResourceId, Text, Type, TypeHasher};

/// The hash of a type, which is computed from its position in the collection.
type TypeHash = BuildHasherDefault<TypeHasher>;

/// What gave a type its type index in a scope.
#[derive(Clone, Copy)]
pub enum How {
    /// Its definition, which is written in the scope.
    Defined,
    /// An outer alias.
    Brought,
    /// A type import or type export.
    Listed,
}

/// The type index of a type, and what gave it.
#[derive(Clone, Copy)]
pub(crate) struct Entry {
    /// The type index.
    pub(crate) index: u32,
    /// What gave the type its index.
    pub(crate) how: How,
}

impl Entry {
    /// Whether a type import or type export gave the type its index.
    pub(crate) fn is_listed(&self) -> bool
        ensures { result ≡ is_listed (how_of self.now.how) }
    {
        match self.how {
            How::Listed => true,
            How::Defined | How::Brought => false,
        }
    }
}

/// The place of a resource, or of a value type that an instance exports.
#[derive(Drop)]
pub(crate) enum Place {
    /// A type index.
    Index(u32),
    /// An export that is not aliased yet: the index of the instance, and the name.
    Export(u32, Text),
}

/// The records of an open scope for the types of one collection.
pub(crate) struct Book {
    /// Whether each resource that is bound outside is bound in the scope to the same resource.
    passes: bool,
    /// The type indexes of types, and what gave them.
    types: HashMap<Type, Entry, TypeHash>,
    /// The places of value types that instances of the scope export.
    exports: HashMap<DefinedTypeId, Place, TypeHash>,
    /// The places of resources.
    resources: HashMap<ResourceId, Place, TypeHash>,
}

// By hand: a derived `Drop` is proved again wherever one goes out of scope (docs/PROOFS.md, 'Drop').
impl Drop for Book {
    fn drop(self) {
        let Book {
            passes: _,
            types: _,
            exports: _,
            resources: _,
        } = self;
    }
}

impl Book {
    /// Returns a book without records.
    pub(crate) fn new(alloc: Global, passes: bool) -> Book
        ensures passes { result.passes ≡ passes }
        ensures types { (a : _) → types_in result a ≡ None }
        ensures exports { (d : _) → exports_in result d ≡ None }
        ensures resources { (r : _) → binds_in result r ≡ None }
    {
        Book {
            passes,
            types: HashMap::with_hasher(alloc, BuildHasherDefault::new()),
            exports: HashMap::with_hasher(alloc, BuildHasherDefault::new()),
            resources: HashMap::with_hasher(alloc, BuildHasherDefault::new()),
        }
    }

    /// The type index of a type and what gave it, if the type is recorded.
    pub(crate) fn entry(&self, ty: Type) -> Option<Entry>
        ensures { maybe_indexed result ≡ types_in self.now ty }
    {
        match self.types.get(&ty) {
            Some(entry) => Some(*entry),
            None => None,
        }
    }

    /// Whether any resource is recorded.
    pub(crate) fn has_resources(&self) -> bool
        ensures { result ≡ false → (r : _) → binds_in self.now r ≡ None }
    {
        !self.resources.is_empty()
    }

    /// Adds an alias of a resource that is recorded as an instance's export, and returns the alias's type index.
    ///
    /// # Errors
    /// - `TooLarge` if the content would not fit 32-bit sizes.
    /// - `OutOfMemory`.
    ///
    /// On an error the content is unchanged.
    pub(crate) fn alias_resource(
        &self,
        content: &mut Encodable,
        resource: ResourceId,
    ) -> Result<u32, BinaryFault>
        requires { IsExported (binds_in self.now resource) }
        ensures index { IfOk result (λ i. i ≡ type_count (content_of content.old)) }
        ensures appended { OnOk result (content.new ≡ aliased_from (binds_in self.now resource) content.old) }
        ensures refused { OnErr result (content.new ≡ content.old) }
        ensures small { IsShortPlace (binds_in self.now resource) }
        ensures too_large { TooLargeUnless result (ContentFits (content_of (aliased_from (binds_in self.now resource) content.old))) }
    {
        match self.resources.get(&resource) {
            Some(Place::Export(instance, name)) => content.alias_export(*instance, name.as_str()),
            Some(Place::Index(_)) | None => unreachable!(),
        }
    }

    /// The place of a value type that an instance exports, if it is recorded.
    ///
    /// It is a type index and `true`, or the index of the instance and `false`.
    pub(crate) fn export(&self, definition: DefinedTypeId) -> Option<(u32, bool)>
        ensures { result ≡ export_of (exports_in self.now definition) }
    {
        match self.exports.get(&definition) {
            Some(Place::Index(index)) => Some((*index, true)),
            Some(Place::Export(instance, _)) => Some((*instance, false)),
            None => None,
        }
    }

    /// Adds an alias of a value type that is recorded as an instance's export, and returns the alias's type index.
    ///
    /// # Errors
    /// As [`Self::alias_resource`].
    pub(crate) fn alias_export(
        &self,
        content: &mut Encodable,
        definition: DefinedTypeId,
    ) -> Result<u32, BinaryFault>
        requires { IsExported (exports_in self.now definition) }
        ensures index { IfOk result (λ i. i ≡ type_count (content_of content.old)) }
        ensures appended { OnOk result (content.new ≡ aliased_from (exports_in self.now definition) content.old) }
        ensures refused { OnErr result (content.new ≡ content.old) }
        ensures small { IsShortPlace (exports_in self.now definition) }
        ensures too_large { TooLargeUnless result (ContentFits (content_of (aliased_from (exports_in self.now definition) content.old))) }
    {
        match self.exports.get(&definition) {
            Some(Place::Export(instance, name)) => content.alias_export(*instance, name.as_str()),
            Some(Place::Index(_)) | None => unreachable!(),
        }
    }

    /// Whether each resource that is bound outside is bound in the scope to the same resource.
    pub(crate) fn passes(&self) -> bool
        ensures { result ≡ self.now.passes }
    {
        self.passes
    }

    /// The place of a resource, if it is recorded.
    ///
    /// It is a type index and `true`, or the index of the instance that exports it and `false`.
    pub(crate) fn resource(&self, resource: ResourceId) -> Option<(u32, bool)>
        ensures { result ≡ export_of (binds_in self.now resource) }
    {
        match self.resources.get(&resource) {
            Some(Place::Index(index)) => Some((*index, true)),
            Some(Place::Export(instance, _)) => Some((*instance, false)),
            None => None,
        }
    }

    /// Records the place of a resource.
    pub(crate) fn record_resource(
        &mut self,
        resource: ResourceId,
        place: Place,
    ) -> Result<(), BinaryFault>
        ensures recorded { OnOk result (Records (bind_at resource (where_of place)) self.old self.new) }
        ensures memory { IfErr result (λ e. e ≡ OutOfMemory) }
    {
        self.resources.insert(resource, place)?;
        Ok(())
    }

    /// Reserves room to record one more resource.
    pub(crate) fn reserve_resource(&mut self) -> Result<(), BinaryFault>
        ensures same { (x : Content) → recorded self.new x ≡ recorded self.old x }
        ensures room { OnOk result (0 < spare self.new.resources) }
        ensures memory { IfErr result (λ e. e ≡ OutOfMemory) }
    {
        self.resources.reserve(1)?;
        Ok(())
    }

    /// Records the place of a resource, for which room was reserved.
    pub(crate) fn put_resource(&mut self, resource: ResourceId, place: Place)
        requires { 0 < spare self.old.resources }
        ensures { Records (bind_at resource (where_of place)) self.old self.new }
    {
        match self.resources.insert(resource, place) {
            Ok(_) => {}
            Err(_) => unreachable!(),
        }
    }

    /// Records the type index of a type and what gave it.
    pub(crate) fn record_type(&mut self, ty: Type, how: How, index: u32) -> Result<(), BinaryFault>
        ensures recorded { OnOk result (Records (index_at ty (how_of how) index) self.old self.new) }
        ensures memory { IfErr result (λ e. e ≡ OutOfMemory) }
    {
        self.types.insert(ty, Entry { index, how })?;
        Ok(())
    }

    /// Records the place of a value type that an instance exports.
    pub(crate) fn record_export(
        &mut self,
        definition: DefinedTypeId,
        place: Place,
    ) -> Result<(), BinaryFault>
        ensures recorded { OnOk result (Records (export_at definition (where_of place)) self.old self.new) }
        ensures memory { IfErr result (λ e. e ≡ OutOfMemory) }
    {
        self.exports.insert(definition, place)?;
        Ok(())
    }
}
