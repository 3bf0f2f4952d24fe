//! Strings, lists, and values by name, in the order given.
ghost use Rattle.std.specs.Prelude.{◌≡◌, ◌<◌, ◌++◌, ◌∷◌, ◌↔◌, ℕ, List, [], length, slice_get, Some, Err, IfOk, OnOk, OnErr, IsOk, IsSome, string_bytes};
ghost use Rattle.std.specs.Cmp.{partial_equiv_from_equiv};
ghost use Rattle.std.specs.Cmp.Lexicographic.{pointwise, lists_per, lists_equiv};
ghost use Rattle.std.specs.Iterator.{YieldsFirstBy, item_count};
ghost use Rattle.std.specs.List.{AllZip};
ghost use Rattle.std.specs.Option.{option_map, option_copied};
ghost use Rattle.std.specs.Slice.Iter.{iter_rest};
ghost use Rattle.std.specs.Str.{bytes_eq};
ghost use Rattle.wac_types_shapes.specs.primitives.Name.{Name, find_name};
ghost use Rattle.wac_types_shapes.specs.private.shapes.Equal.{same_text, text_equiv, same_labels, labels_equiv, same_named, named_per, named_equiv};
ghost use Rattle.wac_types_shapes.specs.shapes.Named.{named_at, by_bytes, named_pairs, names_of, labelled, given_names, AreNamedClones, NoNameTwice};

use crate::shapes::mapped::Rest;
use indexmap::map;
use std::alloc::{AllocError, Global};
use std::marker::Model;
use std::{fmt, slice};
use thiserror::Error;

/// Why a shape is not built. Names are added in order, and the first that fails decides.
#[derive(Clone, Copy, Debug, PartialEq, Eq, Error)]
pub enum ShapeError {
    /// A name occurs twice.
    #[error("NameTwice")]
    NameTwice,
    /// Out of memory.
    #[error("OutOfMemory")]
    OutOfMemory,
}

/// A string. `Debug` writes it in quotes.
pub struct Text {
    text: String,
}

// `Drop` is by hand here and below: a derived one is proved again at each use (docs/PROOFS.md, 'Drop').
impl Drop for Text {
    fn drop(self) {
        let Text { text: _ } = self;
    }
}

impl Model for Text {
    ghost use Rattle.std.specs.Prelude.{List, ℕ, string_bytes};

    ghost Value = { List ℕ };

    ghost view = { λ t. string_bytes t.text };
}

/// `clone` is `Err(AllocError)` if out of memory.
impl Clone for Text {
    ghost is_clone = { λ a b. b ≡ a };

    fn clone(&self) -> Result<Text, AllocError> {
        Ok(Text {
            text: self.text.clone()?,
        })
    }
}

/// Equality compares bytes.
impl PartialEq for Text {
    ghost eq = { same_text };

    ghost laws = { partial_equiv_from_equiv text_equiv };

    fn eq(&self, other: &Text) -> bool {
        self.as_str() == other.as_str()
    }
}

impl Eq for Text {
    ghost laws = { text_equiv };
}

impl fmt::Debug for Text {
    fn fmt<W: fmt::Write>(&self, f: &mut fmt::Formatter<W>) -> fmt::Result {
        fmt::Debug::fmt(self.as_str(), f)
    }
}

impl Text {
    /// Copies a string.
    ///
    /// # Errors
    /// - `AllocError` if out of memory.
    pub fn new(alloc: Global, text: &str) -> Result<Text, AllocError>
        ensures { IfOk result (λ t. t ≡ text.now) }
    {
        let text = String::from_str(alloc, text)?;
        Ok(Text { text })
    }

    /// The string.
    pub fn as_str(&self) -> &str
        ensures { result.now ≡ self.now }
    {
        self.text.as_str()
    }
}

/// A list of values. `Debug` writes a list.
pub struct Sequence<T> {
    items: Vec<T>,
}

impl<T: Drop> Drop for Sequence<T> {
    fn drop(self) {
        let Sequence { items: _ } = self;
    }
}

impl<T> Model for Sequence<T> {
    ghost Value = { List T };

    ghost view = { λ s. s.items.items };
}

/// `clone` clones each value, and is `Err(AllocError)` if out of memory.
impl<T: Clone> Clone for Sequence<T> {
    ghost is_clone = { λ a b. AllZip T.is_clone a b };

    fn clone(&self) -> Result<Sequence<T>, AllocError> {
        Ok(Sequence {
            items: self.items.clone()?,
        })
    }
}

/// Equality compares the values in order.
impl<T: PartialEq> PartialEq for Sequence<T> {
    ghost eq = { pointwise T.eq };

    ghost laws = { lists_per T.laws };

    fn eq(&self, other: &Sequence<T>) -> bool {
        self.as_slice() == other.as_slice()
    }
}

impl<T: Eq> Eq for Sequence<T> {
    ghost laws = { lists_equiv T.Eq.laws };
}

impl<T: fmt::Debug> fmt::Debug for Sequence<T> {
    fn fmt<W: fmt::Write>(&self, f: &mut fmt::Formatter<W>) -> fmt::Result {
        fmt::Debug::fmt(self.as_slice(), f)
    }
}

impl<'a, T> IntoIterator for &'a Sequence<T> {
    type Item = &'a T;

    type IntoIter = slice::Iter<'a, T>;

    ghost into_iter_gives = { λ s r. iter_rest r ≡ s.now };

    fn into_iter(self) -> slice::Iter<'a, T> {
        self.iter()
    }
}

impl<T> Sequence<T> {
    /// Returns an iterator over the values, in order.
    pub fn iter(&self) -> slice::Iter<'_, T>
        ensures { iter_rest result ≡ self.now }
    {
        self.items.iter()
    }

    /// The values, in order.
    pub fn as_slice(&self) -> &[T]
        ensures { result.now ≡ self.now }
    {
        self.items.as_slice()
    }
}

impl<T: Copy> Sequence<T> {
    /// Copies a slice of values.
    ///
    /// # Errors
    /// - `AllocError` if out of memory.
    pub fn new(alloc: Global, values: &[T]) -> Result<Sequence<T>, AllocError>
        ensures { IfOk result (λ s. s ≡ values.now) }
    {
        let mut items = Vec::new(alloc);
        items.extend_from_slice(values)?;
        Ok(Sequence { items })
    }
}

/// Names in order. No name occurs twice. `Debug` writes a list.
pub struct Labels {
    names: Named<()>,
}

impl Drop for Labels {
    fn drop(self) {
        let Labels { names: _ } = self;
    }
}

impl Model for Labels {
    ghost Value = { List Name };

    ghost view = { λ l. names_of l.names };
}

/// `clone` is `Err(AllocError)` if out of memory.
impl Clone for Labels {
    ghost is_clone = { λ a b. b ≡ a };

    fn clone(&self) -> Result<Labels, AllocError> {
        Ok(Labels {
            names: self.names.clone()?,
        })
    }
}

/// Equality compares the names in order.
impl PartialEq for Labels {
    ghost eq = { same_labels };

    ghost laws = { partial_equiv_from_equiv labels_equiv };

    fn eq(&self, other: &Labels) -> bool {
        self.names == other.names
    }
}

impl Eq for Labels {
    ghost laws = { labels_equiv };
}

impl fmt::Debug for Labels {
    fn fmt<W: fmt::Write>(&self, f: &mut fmt::Formatter<W>) -> fmt::Result {
        f.debug_list().entries(self).finish()
    }
}

impl<'a> IntoIterator for &'a Labels {
    type Item = &'a str;

    type IntoIter = LabelNames<'a>;

    ghost into_iter_gives = { λ l r. r ≡ l.now };

    fn into_iter(self) -> LabelNames<'a> {
        self.iter()
    }
}

impl Labels {
    /// Copies these names, in order.
    ///
    /// # Errors
    /// - [`NameTwice`](ShapeError::NameTwice) if a name occurs twice.
    /// - [`OutOfMemory`](ShapeError::OutOfMemory).
    pub fn new(alloc: Global, names: &[&str]) -> Result<Labels, ShapeError>
        ensures built { IfOk result (λ l. l ≡ given_names names.now) }
        ensures names { OnOk result (NoNameTwice (labelled (given_names names.now))) }
        ensures name_twice { result ≡ Err ShapeError.NameTwice → NoNameTwice (labelled (given_names names.now)) → ⊥ }
    {
        let Ok(mut labels) = Named::with_capacity(alloc, names.len()) else {
            return Err(ShapeError::OutOfMemory);
        };
        for name in names {
            match labels.insert(alloc, *name, ()) {
                Ok(()) => {}
                Err(fault) => return Err(fault),
            }
        }
        labels.law();
        Ok(Labels { names: labels })
    }

    /// Proof only: no name occurs twice (docs/PROOFS.md, 'Laws').
    #[tactic(auto, using(crate::proofs::lemmas::shapes::AsGiven::labelled_names_of))]
    pub fn law(&self)
        ensures { NoNameTwice (labelled self.now) }
    {
        self.names.law();
    }

    /// The number of names.
    pub fn len(&self) -> usize
        ensures { result ≡ length self.now }
    {
        self.names.len()
    }

    /// Returns the name at `index`, which must be less than [`len`](Self::len).
    pub fn name_at(&self, index: usize) -> &str
        requires { index < length self.now }
        ensures { slice_get self.now index ≡ Some result.now }
    {
        self.names.name_at(index)
    }

    /// Returns an iterator over the names, in order.
    pub fn iter(&self) -> LabelNames<'_>
        ensures { result ≡ self.now }
    {
        LabelNames {
            entries: self.names.iter(),
        }
    }
}

/// An iterator over the names of [`Labels`], in order.
#[derive(Debug, Drop)]
pub struct LabelNames<'a> {
    entries: Entries<'a, ()>,
}

impl<'a> Model for LabelNames<'a> {
    ghost Value = { List Name };

    ghost view = { λ n. names_of n.entries };
}

impl<'a> Iterator for LabelNames<'a> {
    type Item = &'a str;

    ghost next_gives = { YieldsFirstBy (λ x. x.now) (λ s. s) };

    ghost remaining = { item_count (λ s. s) };

    fn next(&mut self) -> Option<&'a str> {
        let (name, _) = self.entries.next()?;
        Some(name)
    }
}

/// The greatest number of entries that are searched one by one. Further entries go into a map.
const FEW: usize = 32;

/// The greatest number of announced entries with which a list is begun. If more are announced, all go into a map.
const FEW_KNOWN: usize = 8;

// Whether two names are equal. Most unequal names already differ in length or last byte, which is cheap to compare.
fn is_same(a: &str, b: &str) -> bool
    ensures { result ≡ bytes_eq a.now b.now }
{
    let length = a.len();
    if length != b.len() {
        return false;
    }
    if length > 0 && a.as_bytes()[length - 1] != b.as_bytes()[length - 1] {
        return false;
    }
    a == b
}

// Returns the index and the value of a name in a list, if it is there.
fn found_among<'a, V>(entries: &'a [(String, V)], name: &str) -> Option<(usize, &'a V)>
    ensures { option_map (λ p. (p.0, p.1.now)) result ≡ named_at 0 name.now (by_bytes entries.now) }
{
    for i in 0..entries.len() {
        let entry = &entries[i];
        if is_same(name, entry.0.as_str()) {
            return Some((i, &entry.1));
        }
    }
    None
}

/// Values by name, in insertion order. No name occurs twice. `Debug` writes a map.
pub struct Named<V> {
    // The first entries, searched one by one.
    few: Vec<(String, V)>,
    // The entries after them, in a map.
    rest: Rest<V>,
}

impl<V: Drop> Drop for Named<V> {
    fn drop(self) {
        let Named { few: _, rest: _ } = self;
    }
}

impl<V> Model for Named<V> {
    ghost Value = { List (List ℕ × V) };

    ghost view = { λ n. by_bytes n.few.items ++ n.rest };

    ghost invariant = { λ n. NoNameTwice (by_bytes n.few.items ++ n.rest) };
}

/// `clone` clones each value, and is `Err(AllocError)` if out of memory.
impl<V: Clone> Clone for Named<V> {
    ghost is_clone = { λ a b. AreNamedClones V.is_clone a b };

    fn clone(&self) -> Result<Named<V>, AllocError> {
        let few = self.few.clone()?;
        let rest = self.rest.clone()?;
        Ok(Named { few, rest })
    }
}

/// Equality compares names and values in order.
impl<V: PartialEq> PartialEq for Named<V> {
    ghost eq = { same_named V.eq };

    ghost laws = { named_per V.laws };

    fn eq(&self, other: &Named<V>) -> bool {
        if self.len() != other.len() {
            return false;
        }
        for i in 0..self.len() {
            if self.entry_at(i) != other.entry_at(i) {
                return false;
            }
        }
        true
    }
}

impl<V: Eq> Eq for Named<V> {
    ghost laws = { named_equiv V.Eq.laws };
}

impl<V: fmt::Debug> fmt::Debug for Named<V> {
    fn fmt<W: fmt::Write>(&self, f: &mut fmt::Formatter<W>) -> fmt::Result {
        f.debug_map().entries(self).finish()
    }
}

/// An iterator over the names and values of [`Named`], in order.
#[derive(Debug, Drop)]
pub struct Entries<'a, V> {
    few: slice::Iter<'a, (String, V)>,
    rest: map::Iter<'a, String, V>,
}

impl<'a, V> Model for Entries<'a, V> {
    ghost Value = { List (Name × V) };

    ghost view = { λ e. by_bytes (iter_rest e.few) ++ by_bytes e.rest };
}

impl<'a, V> Iterator for Entries<'a, V> {
    type Item = (&'a str, &'a V);

    ghost next_gives = { YieldsFirstBy (λ x. (x.0.now, x.1.now)) (λ s. s) };

    ghost remaining = { item_count (λ s. s) };

    fn next(&mut self) -> Option<(&'a str, &'a V)> {
        match self.few.next() {
            Some(entry) => Some((entry.0.as_str(), &entry.1)),
            None => {
                let (name, value) = self.rest.next()?;
                Some((name.as_str(), value))
            }
        }
    }
}

impl<'a, V> IntoIterator for &'a Named<V> {
    type Item = (&'a str, &'a V);

    type IntoIter = Entries<'a, V>;

    ghost into_iter_gives = { λ n r. r ≡ n.now };

    fn into_iter(self) -> Entries<'a, V> {
        self.iter()
    }
}

impl<V> Named<V> {
    /// Returns no values.
    pub fn new(alloc: Global) -> Named<V>
        ensures { result ≡ [] }
    {
        Named {
            few: Vec::new(alloc),
            rest: Rest::new(),
        }
    }

    /// Returns no values, with room for `count`.
    ///
    /// # Errors
    /// - `AllocError` if out of memory; never if `count` is 0.
    pub fn with_capacity(alloc: Global, count: usize) -> Result<Named<V>, AllocError>
        ensures empty { IfOk result (λ n. n ≡ []) }
        ensures none { count ≡ 0 → IsOk result }
    {
        if count <= FEW_KNOWN {
            let few = Vec::with_capacity(alloc, count)?;
            return Ok(Named {
                few,
                rest: Rest::new(),
            });
        }
        let rest = Rest::with_capacity(alloc, count)?;
        Ok(Named {
            few: Vec::new(alloc),
            rest,
        })
    }

    /// Proof only: no name occurs twice (docs/PROOFS.md, 'Laws').
    pub fn law(&self)
        ensures { NoNameTwice self.now }
    {
        let _ = &self.few;
    }

    /// Returns an iterator over the names and values, in order.
    pub fn iter(&self) -> Entries<'_, V>
        ensures { result ≡ self.now }
    {
        Entries {
            few: self.few.iter(),
            rest: self.rest.iter(),
        }
    }

    /// Returns the value of a name, if it is there.
    #[tactic(auto, using(crate::proofs::lemmas::shapes::Parts::found_named))]
    pub fn get(&self, name: &str) -> Option<&V>
        ensures { option_copied result ≡ find_name self.now name.now }
    {
        let (_, value) = self.get_full(name)?;
        Some(value)
    }

    /// Returns the index and the value of a name, if it is there.
    #[tactic(auto, using(crate::proofs::lemmas::shapes::Parts::named_in_both))]
    pub fn get_full(&self, name: &str) -> Option<(usize, &V)>
        ensures { option_map (λ p. (p.0, p.1.now)) result ≡ named_at 0 name.now self.now }
    {
        match found_among(self.few.as_slice(), name) {
            Some(found) => Some(found),
            None => {
                let (index, value) = self.rest.get_full(name)?;
                Some((self.few.len() + index, value))
            }
        }
    }

    /// The number of values.
    pub fn len(&self) -> usize
        ensures { result ≡ length self.now }
    {
        self.few.len() + self.rest.len()
    }

    /// Returns the name at `index`, which must be less than [`len`](Self::len).
    pub fn name_at(&self, index: usize) -> &str
        requires { index < length self.now }
        ensures { option_map (λ e. e.0) (slice_get self.now index) ≡ Some result.now }
    {
        let (name, _) = self.entry_at(index);
        name
    }

    /// Returns the name and the value at `index`, which must be less than [`len`](Self::len).
    pub fn entry_at(&self, index: usize) -> (&str, &V)
        requires { index < length self.now }
        ensures { slice_get self.now index ≡ Some (result.0.now, result.1.now) }
    {
        if index < self.few.len() {
            let entry = &self.few[index];
            (entry.0.as_str(), &entry.1)
        } else {
            self.rest.entry_at(index - self.few.len())
        }
    }

    /// Returns the value at `index`, which must be less than [`len`](Self::len).
    pub fn value_at(&self, index: usize) -> &V
        requires { index < length self.now }
        ensures { option_map (λ e. e.1) (slice_get self.now index) ≡ Some result.now }
    {
        let (_, value) = self.entry_at(index);
        value
    }
}

impl<V: Drop> Named<V> {
    /// Appends a value under a new name.
    ///
    /// # Errors
    /// - [`NameTwice`](ShapeError::NameTwice) if the name is already there.
    /// - [`OutOfMemory`](ShapeError::OutOfMemory).
    ///
    /// On an error nothing changes.
    #[tactic(auto, using(crate::proofs::lemmas::shapes::Parts::found_in_both))]
    pub fn insert(&mut self, alloc: Global, name: &str, value: V) -> Result<(), ShapeError>
        ensures inserted { OnOk result (self.new ≡ self.old ++ (name.now, value) ∷ []) }
        ensures refused { OnErr result (self.new ≡ self.old) }
        ensures name_twice { (result ≡ Err ShapeError.NameTwice) ↔ IsSome (find_name self.old name.now) }
    {
        if let Some(_) = self.get(name) {
            return Err(ShapeError::NameTwice);
        }
        let Ok(name) = String::from_str(alloc, name) else {
            return Err(ShapeError::OutOfMemory);
        };
        if self.rest.is_unmapped() && self.few.len() < FEW {
            if let Err(_) = self.few.push((name, value)) {
                return Err(ShapeError::OutOfMemory);
            }
            return Ok(());
        }
        if let Err(_) = self.rest.put(alloc, name, value) {
            return Err(ShapeError::OutOfMemory);
        }
        Ok(())
    }
}

impl<V: Copy> Named<V> {
    /// Copies these names and values, in order.
    ///
    /// # Errors
    /// - [`NameTwice`](ShapeError::NameTwice) if a name occurs twice.
    /// - [`OutOfMemory`](ShapeError::OutOfMemory).
    pub fn from_pairs(alloc: Global, pairs: &[(&str, V)]) -> Result<Named<V>, ShapeError>
        ensures built { IfOk result (λ n. n ≡ named_pairs pairs.now) }
        ensures names { OnOk result (NoNameTwice (named_pairs pairs.now)) }
        ensures name_twice { result ≡ Err ShapeError.NameTwice → NoNameTwice (named_pairs pairs.now) → ⊥ }
    {
        let Ok(mut named) = Named::with_capacity(alloc, pairs.len()) else {
            return Err(ShapeError::OutOfMemory);
        };
        for pair in pairs {
            match named.insert(alloc, pair.0, pair.1) {
                Ok(()) => {}
                Err(fault) => return Err(fault),
            }
        }
        named.law();
        Ok(named)
    }

    /// Copies all names and values.
    ///
    /// # Errors
    /// - `AllocError` if out of memory.
    #[tactic(auto, using(crate::proofs::lemmas::shapes::Names::taken))]
    pub fn copied(&self, alloc: Global) -> Result<Named<V>, AllocError>
        ensures { IfOk result (λ n. n ≡ self.now) }
    {
        let mut copy = Named::with_capacity(alloc, self.len())?;
        for i in 0..self.len() {
            let (name, value) = self.entry_at(i);
            match copy.insert(alloc, name, *value) {
                Ok(()) => {}
                Err(_) => return Err(AllocError),
            }
        }
        Ok(copy)
    }
}
