//! A hasher of types, and sets of types.
ghost use Rattle.std.specs.Prelude.{◌≡◌};
ghost use Rattle.wac_types_collection.specs.private.reach.Hashing.{step, fed};

use crate::collection::Type;
use indexmap::IndexSet;
use std::hash::{BuildHasherDefault, Hasher};

const MULTIPLIER: u64 = 0x9e37_79b9_7f4a_7c15;

/// A hasher for few small numbers that nobody chooses to collide: sorts of types, and indexes in a collection.
///
/// If the last numbers differ only in their lowest two bits, the hashes differ only in their highest two. So types with
/// neighbouring indexes are near each other in a hash table.
#[derive(Clone, Copy, Default)]
pub struct TypeHasher(u64);

impl TypeHasher {
    #[inline(always)]
    fn put(&mut self, number: u64)
        ensures { self.new ≡ step self.old number }
    {
        self.0 = (self.0.rotate_left(32) ^ number.rotate_right(2)).wrapping_mul(MULTIPLIER);
    }
}

impl Hasher for TypeHasher {
    ghost write = { fed };

    ghost finish = { λ h. h.0 };

    #[inline(always)]
    fn finish(&self) -> u64 {
        self.0
    }

    fn write(&mut self, bytes: &[u8]) {
        if bytes.len() == 8 {
            self.put(u64::from_le_bytes([
                bytes[0], bytes[1], bytes[2], bytes[3], bytes[4], bytes[5], bytes[6], bytes[7],
            ]));
            return;
        }
        for byte in bytes {
            self.put(u64::from(*byte));
        }
    }

    #[inline(always)]
    fn write_u8(&mut self, i: u8) {
        self.put(u64::from(i));
    }

    #[inline(always)]
    fn write_usize(&mut self, i: usize) {
        self.put(i as u64);
    }
}

/// A set of types, in insertion order.
pub type TypeSet = IndexSet<Type, BuildHasherDefault<TypeHasher>>;
