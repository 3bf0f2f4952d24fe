//! The part of a list of named values that is in a hash map.
ghost use Rattle.std.specs.Prelude.{◌≡◌, ◌<◌, ◌^◌, ◌++◌, ◌∷◌, ℕ, List, IsTrue, IfSome, [], length, slice_get, Some, None, IfOk, OnOk, OnErr, string_bytes};
ghost use Rattle.std.specs.Option.{option_map};
ghost use Rattle.wac_types_shapes.specs.primitives.Name.{Name, find_name};
ghost use Rattle.wac_types_shapes.specs.shapes.Named.{named_at, by_bytes, mapped, AreNamedClones};

use indexmap::{IndexMap, map};
use std::alloc::{AllocError, Global};
use std::marker::Model;

// Named values in order, in a map. There is no map until the first value, unless room was asked for.
#[derive(Drop)]
pub(crate) struct Rest<V> {
    map: Option<Box<IndexMap<String, V>>>,
}

impl<V> Model for Rest<V> {
    ghost Value = { List (Name × V) };

    ghost view = { λ r. mapped r.map };
}

impl<V: Clone> Clone for Rest<V> {
    ghost is_clone = { λ a b. AreNamedClones V.is_clone a b };

    fn clone(&self) -> Result<Rest<V>, AllocError> {
        match &self.map {
            Some(map) => Ok(Rest {
                map: Some(map.clone()?),
            }),
            None => Ok(Rest::new()),
        }
    }
}

impl<V> Rest<V> {
    // Returns no values, without a map.
    pub(crate) fn new() -> Rest<V>
        ensures { result ≡ [] }
    {
        Rest { map: None }
    }

    // Returns no values, with a map that has room for `count`.
    pub(crate) fn with_capacity(alloc: Global, count: usize) -> Result<Rest<V>, AllocError>
        ensures { IfOk result (λ r. r ≡ []) }
    {
        let map = IndexMap::with_capacity(alloc, count)?;
        match Box::new(alloc, map) {
            Ok(map) => Ok(Rest { map: Some(map) }),
            Err(refused) => {
                refused.value.destroy_empty();
                Err(AllocError)
            }
        }
    }

    // Whether there is no map; then there are no values.
    pub(crate) fn is_unmapped(&self) -> bool
        ensures { IsTrue result → self.now ≡ [] }
    {
        match &self.map {
            Some(_) => false,
            None => true,
        }
    }

    // Returns an iterator over the names and values, in order.
    pub(crate) fn iter(&self) -> map::Iter<'_, String, V>
        ensures { by_bytes result ≡ self.now }
    {
        match &self.map {
            Some(map) => map.iter(),
            None => map::Slice::new().iter(),
        }
    }

    // Returns the index and the value of a name, if it is there.
    pub(crate) fn get_full(&self, name: &str) -> Option<(usize, &V)>
        ensures found { option_map (λ p. (p.0, p.1.now)) result ≡ named_at 0 name.now self.now }
        ensures small { IfSome result (λ p. p.0 < 2 ^ 63) }
    {
        let map = self.map.as_ref()?;
        // Proof only: the keys are distinct, and there are fewer than 2^63 (docs/PROOFS.md, 'Laws').
        let _ = map.len();
        let (index, _, value) = map.get_full(name)?;
        Some((index, value))
    }

    // The number of values.
    pub(crate) fn len(&self) -> usize
        ensures len { result ≡ length self.now }
        ensures small { result < 2 ^ 63 }
    {
        match &self.map {
            Some(map) => map.len(),
            None => 0,
        }
    }

    // Returns the name and the value at an index in range.
    pub(crate) fn entry_at(&self, index: usize) -> (&str, &V)
        requires { index < length self.now }
        ensures { slice_get self.now index ≡ Some (result.0.now, result.1.now) }
    {
        let map = self.map.as_ref().unwrap();
        let (name, value) = map.get_index(index).unwrap();
        (name.as_str(), value)
    }
}

// Appends a value to a map under a name that is not there. If out of memory, the map is unchanged.
fn put<V: Drop>(map: &mut IndexMap<String, V>, name: String, value: V) -> Result<(), AllocError>
    requires { find_name (by_bytes map.old.entries) (string_bytes name) ≡ None }
    ensures put { OnOk result (by_bytes map.new.entries ≡ by_bytes map.old.entries ++ (string_bytes name, value) ∷ []) }
    ensures refused { OnErr result (by_bytes map.new.entries ≡ by_bytes map.old.entries) }
{
    match map.insert(name, value) {
        Ok(_) => Ok(()),
        Err(_) => Err(AllocError),
    }
}

impl<V: Drop> Rest<V> {
    // Appends a value under a name that is not there. If out of memory, nothing changes.
    pub(crate) fn put(&mut self, alloc: Global, name: String, value: V) -> Result<(), AllocError>
        requires { find_name self.old (string_bytes name) ≡ None }
        ensures put { OnOk result (self.new ≡ self.old ++ (string_bytes name, value) ∷ []) }
        ensures refused { OnErr result (self.new ≡ self.old) }
    {
        match &mut self.map {
            Some(map) => put(map, name, value),
            None => {
                let mut map = IndexMap::new(alloc);
                put(&mut map, name, value)?;
                self.map = Some(Box::new(alloc, map)?);
                Ok(())
            }
        }
    }
}
