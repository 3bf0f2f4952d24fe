//! The packages of a graph: slots with generations, and borrowed keys to look a package up.
//!
//! The id of an unregistered package is never valid again.
ghost use Rattle.std.specs.Prelude.{◌≡◌};
ghost use Rattle.std.specs.Cmp.{on_equiv, on_per, partial_equiv_from_equiv};
ghost use Rattle.std.specs.Option.{option_map};
ghost use Rattle.semver.specs.Identifiers.{parts_of};
ghost use Rattle.wac_types_shapes.specs.private.keys.KeyLaws.{same_key_equiv, same_key_writes};
ghost use Rattle.wac_types_shapes.specs.keys.Key.{same_key, key_writes};
ghost use Rattle.wac_graph_model.specs.private.nodes.PackageKeys.{borrowed_key};

use indexmap::Equivalent;
use semver::Version;
use std::alloc::AllocError;
use std::hash::{Hash, Hasher};
use wac_types::{Package, PackageKey};

/// The id of a registered package: a slot and the slot's generation, compared in this order.
#[derive(Clone, Copy, Debug, PartialEq, Eq, PartialOrd, Ord, Hash)]
pub struct PackageId {
    slot: usize,
    generation: usize,
}

/// The id of the package that is in the slot at this generation.
pub fn new_package_id(slot: usize, generation: usize) -> PackageId
    ensures { result ≡ record { slot = slot; generation = generation } }
{
    PackageId { slot, generation }
}

/// The number of the id's slot.
pub fn slot_of(id: PackageId) -> usize
    ensures { result ≡ id.slot }
{
    id.slot
}

/// The generation of the id's slot.
pub fn generation_of(id: PackageId) -> usize
    ensures { result ≡ id.generation }
{
    id.generation
}

/// A slot for a package. Its generation is the number of packages that it held before.
pub struct Slot {
    /// The package in the slot, if any.
    pub package: Option<Package>,
    /// The number of packages that the slot held before.
    /// Placed after the package, because both are read together.
    pub generation: usize,
}

// By hand: a derived `Drop` is proved again wherever one goes out of scope (docs/PROOFS.md, 'Drop').
impl Drop for Slot {
    fn drop(self) {
        let Slot {
            generation: _,
            package: _,
        } = self;
    }
}

/// Fails with `AllocError` if memory runs out.
impl Clone for Slot {
    ghost is_clone = { λ a b. b ≡ a };

    fn clone(&self) -> Result<Slot, AllocError> {
        let package = match &self.package {
            Some(package) => Some(package.clone()?),
            None => None,
        };
        Ok(Slot {
            generation: self.generation,
            package,
        })
    }
}

/// A borrowed name and version, to look a package up without allocating its key.
#[derive(Clone, Copy)]
pub struct BorrowedPackageKey<'a> {
    name: &'a str,
    version: Option<&'a Version>,
}

impl<'a> BorrowedPackageKey<'a> {
    /// The key of the package with this name and version.
    pub fn from_name_and_version(
        name: &'a str,
        version: Option<&'a Version>,
    ) -> BorrowedPackageKey<'a>
        ensures { borrowed_key result ≡ (name.now, option_map (λ v. parts_of v.now) version.entry) }
    {
        BorrowedPackageKey { name, version }
    }
}

impl<'a> PartialEq for BorrowedPackageKey<'a> {
    ghost eq = { λ a b. same_key (borrowed_key a) (borrowed_key b) };

    ghost laws = { on_per borrowed_key (partial_equiv_from_equiv same_key_equiv) };

    fn eq(&self, other: &BorrowedPackageKey<'a>) -> bool {
        self.name == other.name && self.version == other.version
    }
}

impl<'a> Eq for BorrowedPackageKey<'a> {
    ghost laws = { on_equiv borrowed_key same_key_equiv };
}

/// Hashes as [`PackageKey`] does.
impl<'a> Hash for BorrowedPackageKey<'a> {
    ghost hash_input = { λ k. key_writes (borrowed_key k) };

    ghost respects_eq = { λ a b e. same_key_writes (borrowed_key a) (borrowed_key b) e };

    fn hash<H: Hasher>(&self, state: &mut H) {
        self.name.hash(state);
        self.version.hash(state);
    }
}

impl<'a> Equivalent<PackageKey> for BorrowedPackageKey<'a> {
    ghost equivalent = { λ q k. same_key (borrowed_key q) k };

    ghost respects_hash = { λ q k e. same_key_writes (borrowed_key q) k e };

    ghost respects_eq = { λ q x y. same_key_equiv.congr (borrowed_key q) x y };

    fn equivalent(&self, key: &PackageKey) -> bool {
        self.name == key.name() && self.version == key.version()
    }
}
