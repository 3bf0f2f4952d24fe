//! Values by module and name, in the order given.
ghost use Rattle.std.specs.Prelude.{◌≡◌, ◌<◌, ◌++◌, ◌∷◌, ◌↔◌, IsTrue, List, [], length, slice_get, Some, Err, OnOk, OnErr, IsSome};
ghost use Rattle.std.specs.Cmp.Lexicographic.{pointwise, lists_per, lists_equiv};
ghost use Rattle.std.specs.Iterator.{YieldsFirstBy, item_count};
ghost use Rattle.std.specs.List.{AllZip};
ghost use Rattle.std.specs.Option.{option_copied};
ghost use Rattle.wac_types_shapes.specs.shapes.Imports.{Pair, find_import, NoImportTwice, IsImportClone, same_import, import_per, import_equiv, by_pairs, pair_of, borrowed_pair, same_key, key_equiv, same_key_writes};

use crate::shapes::named::ShapeError;
use indexmap::{Equivalent, IndexMap, map};
use std::alloc::{AllocError, Global};
use std::fmt;
use std::marker::Model;

// A borrowed module and name, to look up a value without a copy of them.
#[derive(Clone, Copy, PartialEq, Eq, Hash)]
struct ImportKey<'a> {
    source: &'a str,
    name: &'a str,
}

impl<'a> Equivalent<(String, String)> for ImportKey<'a> {
    ghost equivalent = { λ q k. same_key (borrowed_pair q) (pair_of k) };

    ghost respects_hash = { λ q k e. same_key_writes (borrowed_pair q) (pair_of k) e };

    ghost respects_eq = { λ q x y. key_equiv.congr (borrowed_pair q) (pair_of x) (pair_of y) };

    fn equivalent(&self, key: &(String, String)) -> bool {
        self.source == key.0.as_str() && self.name == key.1.as_str()
    }
}

/// Values by module and name, in insertion order. No name of a module occurs twice. `Debug` writes a map.
pub struct CoreImports<V> {
    entries: IndexMap<(String, String), V>,
}

// By hand: a derived `Drop` is proved again at each use (docs/PROOFS.md, 'Drop').
impl<V: Drop> Drop for CoreImports<V> {
    fn drop(self) {
        let CoreImports { entries: _ } = self;
    }
}

impl<V> Model for CoreImports<V> {
    ghost Value = { List (Pair × V) };

    ghost view = { λ i. by_pairs i.entries.entries };
}

/// `clone` clones each value, and is `Err(AllocError)` if out of memory.
impl<V: Clone> Clone for CoreImports<V> {
    ghost is_clone = { λ a b. AllZip (IsImportClone V.is_clone) a b };

    fn clone(&self) -> Result<CoreImports<V>, AllocError> {
        let entries = self.entries.clone()?;
        Ok(CoreImports { entries })
    }
}

/// Equality compares modules, names and values in order.
impl<V: PartialEq> PartialEq for CoreImports<V> {
    ghost eq = { pointwise (same_import V.eq) };

    ghost laws = { lists_per (import_per V.laws) };

    fn eq(&self, other: &CoreImports<V>) -> bool {
        self.entries.as_slice() == other.entries.as_slice()
    }
}

impl<V: Eq> Eq for CoreImports<V> {
    ghost laws = { lists_equiv (import_equiv V.Eq.laws) };
}

impl<V: fmt::Debug> fmt::Debug for CoreImports<V> {
    fn fmt<W: fmt::Write>(&self, f: &mut fmt::Formatter<W>) -> fmt::Result {
        f.debug_map().entries(self).finish()
    }
}

/// An iterator over the modules, names and values of [`CoreImports`], in order.
#[derive(Debug, Drop)]
pub struct CoreImportEntries<'a, V> {
    entries: map::Iter<'a, (String, String), V>,
}

impl<'a, V> Model for CoreImportEntries<'a, V> {
    ghost Value = { List (Pair × V) };

    ghost view = { λ e. by_pairs e.entries };
}

impl<'a, V> Iterator for CoreImportEntries<'a, V> {
    type Item = ((&'a str, &'a str), &'a V);

    ghost next_gives = { YieldsFirstBy (λ x. ((x.0.0.now, x.0.1.now), x.1.now)) (λ s. s) };

    ghost remaining = { item_count (λ s. s) };

    fn next(&mut self) -> Option<((&'a str, &'a str), &'a V)> {
        let (names, value) = self.entries.next()?;
        Some(((names.0.as_str(), names.1.as_str()), value))
    }
}

impl<'a, V> IntoIterator for &'a CoreImports<V> {
    type Item = ((&'a str, &'a str), &'a V);

    type IntoIter = CoreImportEntries<'a, V>;

    ghost into_iter_gives = { λ i r. r ≡ i.now };

    fn into_iter(self) -> CoreImportEntries<'a, V> {
        self.iter()
    }
}

impl<V> CoreImports<V> {
    /// Returns no values.
    pub fn new(alloc: Global) -> CoreImports<V>
        ensures { result ≡ [] }
    {
        CoreImports {
            entries: IndexMap::new(alloc),
        }
    }

    /// Proof only: no name of a module occurs twice (docs/PROOFS.md, 'Laws').
    #[tactic(auto, using(crate::proofs::lemmas::shapes::Pairs::once_by_pairs))]
    pub fn law(&self)
        ensures { NoImportTwice self.now }
    {
        // Proof only: the keys of a map are distinct (docs/PROOFS.md, 'Laws').
        let _ = self.entries.len();
    }

    /// Returns an iterator over the modules, names and values, in order.
    pub fn iter(&self) -> CoreImportEntries<'_, V>
        ensures { result ≡ self.now }
    {
        CoreImportEntries {
            entries: self.entries.iter(),
        }
    }

    /// The number of values.
    pub fn len(&self) -> usize
        ensures { result ≡ length self.now }
    {
        self.entries.len()
    }

    /// Whether there are no values.
    pub fn is_empty(&self) -> bool
        ensures { IsTrue result ↔ (self.now ≡ []) }
    {
        self.entries.is_empty()
    }

    /// Returns the value of a module and a name, if they are there.
    pub fn get(&self, source: &str, name: &str) -> Option<&V>
        ensures { option_copied result ≡ find_import self.now source.now name.now }
    {
        self.entries.get(ImportKey { source, name })
    }

    /// Returns the module, the name and the value at `index`, which must be less than [`len`](Self::len).
    pub fn entry_at(&self, index: usize) -> ((&str, &str), &V)
        requires { index < length self.now }
        ensures { slice_get self.now index ≡ Some ((result.0.0.now, result.0.1.now), result.1.now) }
    {
        let (names, value) = self.entries.get_index(index).unwrap();
        ((names.0.as_str(), names.1.as_str()), value)
    }
}

impl<V: Drop> CoreImports<V> {
    /// Appends a value under a module and a name.
    ///
    /// # Errors
    /// - [`NameTwice`](ShapeError::NameTwice) if the module already has this name.
    /// - [`OutOfMemory`](ShapeError::OutOfMemory).
    ///
    /// On an error nothing changes.
    pub fn insert(
        &mut self,
        alloc: Global,
        source: &str,
        name: &str,
        value: V,
    ) -> Result<(), ShapeError>
        ensures inserted { OnOk result (self.new ≡ self.old ++ ((source.now, name.now), value) ∷ []) }
        ensures refused { OnErr result (self.new ≡ self.old) }
        ensures name_twice { (result ≡ Err ShapeError.NameTwice) ↔ IsSome (find_import self.old source.now name.now) }
    {
        if let Some(_) = self.get(source, name) {
            return Err(ShapeError::NameTwice);
        }
        let Ok(source) = String::from_str(alloc, source) else {
            return Err(ShapeError::OutOfMemory);
        };
        let Ok(name) = String::from_str(alloc, name) else {
            return Err(ShapeError::OutOfMemory);
        };
        match self.entries.insert((source, name), value) {
            Ok(_) => Ok(()),
            Err(_) => Err(ShapeError::OutOfMemory),
        }
    }
}
