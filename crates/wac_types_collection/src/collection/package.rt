//! Packages: the bytes of a component, with its world.
ghost use Rattle.std.specs.Prelude.{◌≡◌, ◌↔◌, true, length, IfOk, OnErr, IsTrue};
ghost use Rattle.std.specs.Option.{option_map};
ghost use Rattle.semver.specs.Identifiers.{parts_of};
ghost use Rattle.wac_types_collection.specs.collection.Collection.{holds_type, world_exports};
ghost use Rattle.wac_types_collection.specs.collection.Uses.{AnswersBy, same_item};
ghost use Rattle.wac_types_collection.specs.collection.Package.{PackageParts, instance_with, with_instance_of, package_fault, HoldsPackage};
ghost use Rattle.wac_types_collection.specs.private.collection.Exports.{has_entry, are_among, have_same_items};
ghost use Rattle.wac_types_shapes.specs.declared.shapes.component.«Type».TheVariants.{World as world_type};

use crate::collection::collection::{AddTypeError, Types};
use semver::Version;
use std::alloc::AllocError;
use std::fmt;
use std::marker::Model;
use wac_types_shapes::{Interface, InterfaceId, ItemKind, Named, PackageKey, Type, WorldId};

/// A package: the bytes of a component, with its name, its version and its world.
///
/// The bytes are not read. That they are a component of the world is for the caller to know.
pub struct Package {
    key: PackageKey,
    bytes: Vec<u8>,
    world: WorldId,
    instance_type: InterfaceId,
}

// By hand: a derived `Drop` is proved again wherever one goes out of scope (docs/PROOFS.md, 'Drop').
impl Drop for Package {
    fn drop(self) {
        let Package {
            key: _,
            bytes: _,
            world: _,
            instance_type: _,
        } = self;
    }
}

impl Model for Package {
    ghost Value = { PackageParts };

    ghost view = { λ p. record {
      name = p.key.0;
      version = p.key.1;
      bytes = p.bytes.items;
      world = p.world;
      instance_type = p.instance_type;
    } };
}

/// Writes all but the bytes.
impl fmt::Debug for Package {
    fn fmt<W: fmt::Write>(&self, f: &mut fmt::Formatter<W>) -> fmt::Result {
        f.debug_struct("Package")
            .field("name", &self.key.name())
            .field("version", &self.key.version())
            .field("bytes", &"...")
            .field("ty", &self.world)
            .field("instance_type", &self.instance_type)
            .finish()
    }
}

impl Package {
    /// Returns a package with a world of the collection, and adds the interface of its instances to the collection.
    ///
    /// That interface has no id and the exports of the world.
    ///
    /// # Errors
    /// - [`ResourceMisnamed`](AddTypeError::ResourceMisnamed) if the world exports a resource that is not an alias,
    ///   under a name other than its own.
    /// - [`OutOfMemory`](AddTypeError::OutOfMemory).
    ///
    /// On an error the collection is unchanged.
    #[tactic(auto, using(crate::proofs::lemmas::collection::Packages::handed_on, crate::proofs::lemmas::collection::Packages::package_refused))]
    pub fn new(
        name: &str,
        version: Option<&Version>,
        bytes: Vec<u8>,
        world: WorldId,
        types: &mut Types,
    ) -> Result<Package, AddTypeError>
        requires { holds_type types.old (world_type world) ≡ true }
        ensures built { IfOk result (λ p. p ≡ record {
          name = name.now;
          version = option_map (λ v. parts_of v.now) version.entry;
          bytes = bytes.items;
          world = world;
          instance_type = record { 0 = length types.old.interfaces };
        }) }
        ensures added { IfOk result (λ p. types.new ≡ with_instance_of types.old world) }
        ensures refused { OnErr result (types.new ≡ types.old) }
        ensures fault { AnswersBy (package_fault types.old world) result }
        ensures held { IfOk result (λ p. HoldsPackage types.new p) }
    {
        types.law();
        let interface = instance_of(types, world)?;
        let Ok(key) = PackageKey::new(types.allocator(), name, version) else {
            return Err(AddTypeError::OutOfMemory);
        };
        let instance_type = types.add_interface(interface)?;
        Ok(Package {
            key,
            bytes,
            world,
            instance_type,
        })
    }

    /// The name of the package.
    pub fn name(&self) -> &str
        ensures { result.now ≡ self.now.name }
    {
        self.key.name()
    }

    /// The version of the package, if it has one.
    pub fn version(&self) -> Option<&Version>
        ensures { option_map (λ v. parts_of v.now) result ≡ self.now.version }
    {
        self.key.version()
    }

    /// The bytes of the component.
    pub fn bytes(&self) -> &[u8]
        ensures { result.now ≡ self.now.bytes }
    {
        self.bytes.as_slice()
    }

    /// The world of the component.
    pub fn ty(&self) -> WorldId
        ensures { result ≡ self.now.world }
    {
        self.world
    }

    /// The interface of the component's instances.
    pub fn instance_type(&self) -> InterfaceId
        ensures { result ≡ self.now.instance_type }
    {
        self.instance_type
    }

    /// Returns the key of the package: its name and version.
    ///
    /// # Errors
    /// - `AllocError` if out of memory.
    pub fn key(&self) -> Result<PackageKey, AllocError>
        ensures { IfOk result (λ k. k ≡ (self.now.name, self.now.version)) }
    {
        self.key.clone()
    }
}

/// `clone` copies the bytes too, and is `Err(AllocError)` if out of memory.
impl Clone for Package {
    ghost is_clone = { λ a b. b ≡ a };

    fn clone(&self) -> Result<Package, AllocError> {
        Ok(Package {
            key: self.key.clone()?,
            bytes: self.bytes.clone()?,
            world: self.world,
            instance_type: self.instance_type,
        })
    }
}

// Returns the interface of an instance of a component of this world.
fn instance_of(types: &Types, world: WorldId) -> Result<Interface, AddTypeError>
    requires { holds_type types.now (world_type world) ≡ true }
    ensures built { IfOk result (λ i. i ≡ instance_with (world_exports types.now world)) }
    ensures fault { AnswersBy (package_fault types.now world) result }
{
    let alloc = types.allocator();
    let uses = Named::new(alloc);
    let items = &types[world].exports;
    if !types.named_right(&uses, items) {
        return Err(AddTypeError::ResourceMisnamed);
    }
    let Ok(exports) = items.copied(alloc) else {
        return Err(AddTypeError::OutOfMemory);
    };
    Ok(Interface {
        id: None,
        uses,
        exports,
    })
}

// Whether two items have the same sort and the same id.
#[tactic(auto, using(crate::proofs::lemmas::collection::Ids::kind_eq))]
fn same_item(a: ItemKind, b: ItemKind) -> bool
    ensures { result ≡ same_item a b }
{
    a == b
}

// Whether the items have this one under this name.
fn has_entry(items: &Named<ItemKind>, name: &str, kind: ItemKind) -> bool
    ensures { result ≡ has_entry items.now (name.now, kind) }
{
    items.get(name).is_some_and(|item| same_item(*item, kind))
}

// Whether each of the items is under its name among the others.
fn are_among(items: &Named<ItemKind>, others: &Named<ItemKind>) -> bool
    ensures { result ≡ are_among items.now others.now }
{
    items
        .iter()
        .all(|(name, kind)| has_entry(others, name, *kind))
}

// Whether both have the same items under the same names, in whatever order.
fn have_same_items(items: &Named<ItemKind>, others: &Named<ItemKind>) -> bool
    ensures { result ≡ have_same_items items.now others.now }
{
    are_among(items, others) && are_among(others, items)
}

impl Types {
    /// Whether the package's world and instance interface are of the collection and export the same items by name.
    #[tactic(auto, using(crate::proofs::lemmas::collection::Exports::same_exports))]
    pub fn holds_package(&self, package: &Package) -> bool
        ensures { IsTrue result ↔ HoldsPackage self.now «package».now }
    {
        let world = package.ty();
        let interface = package.instance_type();
        if !self.contains(Type::World(world)) || !self.contains(Type::Interface(interface)) {
            return false;
        }
        let exports = &self[interface].exports;
        let others = &self[world].exports;
        exports.law(); // proof only
        others.law(); // proof only
        have_same_items(exports, others)
    }
}
