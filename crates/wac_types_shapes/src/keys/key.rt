//! The key of a package.
ghost use Rattle.std.specs.Prelude.{◌≡◌, Some, IfOk};
ghost use Rattle.std.proofs.Common.{refl};
ghost use Rattle.std.specs.Cmp.{partial_equiv_from_equiv};
ghost use Rattle.std.specs.Option.{option_map};
ghost use Rattle.semver.specs.Identifiers.{parts_of};
ghost use Rattle.wac_types_shapes.specs.keys.Key.{same_key, key_cmp, key_writes, key_text};
ghost use Rattle.wac_types_shapes.specs.private.keys.KeyLaws.{same_key_equiv, key_total, key_ties, key_po, same_key_writes};

use semver::Version;
use std::alloc::{AllocError, Global};
use std::cmp::Ordering;
use std::fmt;
use std::hash::{Hash, Hasher};
use std::marker::Model;

// Clones an optional version.
fn cloned(version: Option<&Version>) -> Result<Option<Version>, AllocError>
    ensures { IfOk result (λ v. option_map parts_of v ≡ option_map (λ x. parts_of x.now) version.entry) }
{
    match version {
        Some(version) => Ok(Some(version.clone()?)),
        None => Ok(None),
    }
}

/// The key of a package: its name, with or without a version.
#[derive(Debug)]
pub struct PackageKey {
    name: String,
    version: Option<Version>,
}

// By hand: a derived `Drop` is proved again wherever one goes out of scope (docs/PROOFS.md, 'Drop').
impl Drop for PackageKey {
    fn drop(self) {
        let PackageKey {
            name: _,
            version: _,
        } = self;
    }
}

impl Model for PackageKey {
    ghost use Rattle.std.specs.Prelude.{string_bytes};
    ghost use Rattle.std.specs.Option.{option_map};
    ghost use Rattle.semver.specs.Identifiers.{parts_of};
    ghost use Rattle.wac_types_shapes.specs.keys.Key.{Key};

    ghost Value = { Key };

    ghost view = { λ k. (string_bytes k.name, option_map parts_of k.version) };
}

impl PackageKey {
    /// Returns the key with this name and version.
    ///
    /// # Errors
    /// - `AllocError` if out of memory.
    pub fn new(
        alloc: Global,
        name: &str,
        version: Option<&Version>,
    ) -> Result<PackageKey, AllocError>
        ensures { IfOk result (λ k. k ≡ (name.now, option_map (λ v. parts_of v.now) version.entry)) }
    {
        let name = String::from_str(alloc, name)?;
        let version = cloned(version)?;
        Ok(PackageKey { name, version })
    }

    /// The name.
    pub fn name(&self) -> &str
        ensures { result.now ≡ self.now.0 }
    {
        self.name.as_str()
    }

    /// The version.
    pub fn version(&self) -> Option<&Version>
        ensures { option_map (λ v. parts_of v.now) result ≡ self.now.1 }
    {
        self.version.as_ref()
    }
}

/// `clone` is `Err(AllocError)` if out of memory.
impl Clone for PackageKey {
    ghost is_clone = { λ a b. b ≡ a };

    fn clone(&self) -> Result<PackageKey, AllocError> {
        let name = self.name.clone()?;
        let version = cloned(self.version.as_ref())?;
        Ok(PackageKey { name, version })
    }
}

/// Writes `name` or `name@version`.
impl fmt::Display for PackageKey {
    ghost output = { λ k. Some (key_text k) };

    fn fmt<W: fmt::Write>(&self, f: &mut fmt::Formatter<W>) -> fmt::Result {
        let name = self.name.as_str();
        match &self.version {
            None => write!(f, "{name}"),
            Some(version) => write!(f, "{name}@{version}"),
        }
    }
}

impl PartialEq for PackageKey {
    ghost eq = { same_key };

    ghost laws = { partial_equiv_from_equiv same_key_equiv };

    fn eq(&self, other: &PackageKey) -> bool {
        self.name.as_str() == other.name.as_str() && self.version == other.version
    }
}

impl Eq for PackageKey {
    ghost laws = { same_key_equiv };
}

impl PartialOrd for PackageKey {
    ghost partial_cmp = { λ a b. Some (key_cmp a b) };

    ghost laws = { key_po };

    fn partial_cmp(&self, other: &PackageKey) -> Option<Ordering> {
        Some(self.cmp(other))
    }
}

impl Ord for PackageKey {
    ghost cmp = { key_cmp };

    ghost total = { key_total };

    ghost matches_partial_cmp = { λ a b. refl };

    ghost matches_eq = { key_ties };

    fn cmp(&self, other: &PackageKey) -> Ordering {
        self.name
            .as_str()
            .cmp(other.name.as_str())
            .then(self.version.cmp(&other.version))
    }
}

impl Hash for PackageKey {
    ghost hash_input = { key_writes };

    ghost respects_eq = { λ a b e. same_key_writes a b e };

    fn hash<H: Hasher>(&self, state: &mut H) {
        self.name.as_str().hash(state);
        self.version.hash(state);
    }
}
