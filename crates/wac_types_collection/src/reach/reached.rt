//! The types that a type reaches.
ghost use Rattle.std.specs.Prelude.{◌≡◌, ◌↔◌, ◌⊎◌, ℕ, [], Some, IsTrue, IfOk, OnOk, OnErr, IfSome, IfNone, true, length, take, slice_get};
ghost use Rattle.wac_types_collection.specs.collection.Collection.{holds_type};
ghost use Rattle.wac_types_shapes.specs.declared.shapes.component.«Type».{«Type» as AnyType};
ghost use Rattle.wac_types_collection.specs.reach.Reach.{IsIn, Reaches, AreClosed};
ghost use Rattle.wac_types_collection.specs.private.reach.Found.{NoneTwice};

use crate::collection::{Type, Types};
use crate::reach::hasher::TypeSet;
use indexmap::IndexSet;
use std::alloc::{AllocError, Global};
use std::hash::BuildHasherDefault;
use std::marker::Model;

/// Types without repetition, in the order in which they were found.
pub struct Reached {
    pub(crate) types: TypeSet,
}

// By hand: a derived `Drop` is proved again wherever one goes out of scope (docs/PROOFS.md, 'Drop').
impl Drop for Reached {
    fn drop(self) {
        let Reached { types: _ } = self;
    }
}

impl Model for Reached {
    ghost use Rattle.std.specs.Prelude.{List};
    ghost use Rattle.wac_types_shapes.specs.declared.shapes.component.«Type».{«Type» as AnyType};

    ghost Value = { List AnyType };

    ghost view = { λ r. r.types.keys };
}

impl Reached {
    /// Returns no types.
    pub fn new(alloc: Global) -> Reached
        ensures { result ≡ [] }
    {
        Reached {
            types: IndexSet::with_hasher(alloc, BuildHasherDefault::new()),
        }
    }

    /// Returns these types.
    pub fn of(types: TypeSet) -> Reached
        ensures { result ≡ types.keys }
    {
        Reached { types }
    }

    /// Whether the type is one of these.
    pub fn contains(&self, ty: Type) -> bool
        ensures { IsTrue result ↔ IsIn ty self.now }
    {
        self.types.contains(&ty)
    }

    /// Returns the index of the type, if it is one of these.
    pub fn position(&self, ty: Type) -> Option<usize>
        ensures there { IfSome result (λ k. slice_get self.now k ≡ Some ty) }
        ensures alone { IfSome result (λ k. (j : ℕ) → slice_get self.now j ≡ Some ty → j ≡ k) }
        ensures none { IfNone result (IsIn ty self.now → ⊥) }
    {
        // Proof only: no type occurs twice (docs/PROOFS.md, 'Laws').
        let _types = self.types.as_slice();
        self.types.get_index_of(&ty)
    }

    /// The types, in the order in which they were found.
    pub fn as_slice(&self) -> &[Type]
        ensures types { result.now ≡ self.now }
        ensures once { NoneTwice self.now }
    {
        self.types.as_slice()
    }

    /// Adds the types that `ty` reaches and that are not there yet.
    ///
    /// `ty` must be of the collection, and the types here must mention only one another. Takes time linear in what `ty`
    /// and the added types mention, without recursion.
    ///
    /// # Errors
    /// - `AllocError` if out of memory. Then no type is left, since some would mention others.
    pub fn reach_from(&mut self, types: &Types, ty: Type) -> Result<(), AllocError>
        requires held { holds_type types.now ty ≡ true }
        requires closed { AreClosed types.now self.old }
        ensures reached { OnOk result ((t : AnyType) → IsIn t self.new ↔ (IsIn t self.old ⊎ Reaches types.now ty t)) }
        ensures closed { OnOk result (AreClosed types.now self.new) }
        ensures behind { OnOk result (take (length self.old) self.new ≡ self.old) }
        ensures none_left { OnErr result (self.new ≡ []) }
    {
        match self.find_from(types, ty) {
            Ok(()) => Ok(()),
            Err(error) => {
                self.types.clear();
                Err(error)
            }
        }
    }

    // Adds the types that `ty` reaches. If out of memory, only some are added.
    fn find_from(&mut self, types: &Types, ty: Type) -> Result<(), AllocError>
        requires held { holds_type types.now ty ≡ true }
        requires closed { AreClosed types.now self.old }
        ensures reached { OnOk result ((t : AnyType) → IsIn t self.new ↔ (IsIn t self.old ⊎ Reaches types.now ty t)) }
        ensures closed { OnOk result (AreClosed types.now self.new) }
        ensures behind { OnOk result (take (length self.old) self.new ≡ self.old) }
    {
        types.law();
        let mut next = self.types.len();
        self.put_mentions(types, ty)?;
        while next < self.types.len() {
            let found = self.types.as_slice()[next];
            self.put_mentions(types, found)?;
            next += 1;
        }
        Ok(())
    }
}

/// Returns the types that a type of the collection reaches. Takes linear time, without recursion.
///
/// # Errors
/// - `AllocError` if out of memory.
pub fn reach(types: &Types, ty: Type) -> Result<Reached, AllocError>
    requires { holds_type types.now ty ≡ true }
    ensures { IfOk result (λ r. (t : AnyType) → IsIn t r ↔ Reaches types.now ty t) }
{
    let mut reached = Reached::new(types.allocator());
    reached.reach_from(types, ty)?;
    Ok(reached)
}
