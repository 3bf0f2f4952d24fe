//! The positions of earlier names by key, none of which clash.
ghost use Rattle.std.specs.Prelude.{◌≡◌, ℕ, List, None, Some, IfOk, OnOk, string_bytes};
ghost use Rattle.std.specs.Map.{update};
ghost use Rattle.std.specs.Str.{bytes_eq};
ghost use Rattle.wac_names.specs.private.validation.Earlier.{alike_at, with_position};

use std::alloc::{AllocError, Global};
use std::collections::HashMap;

/// The positions of the names of one key. At most two do not clash: a label and its constructor.
#[derive(Clone, Copy)]
pub struct Alike {
    pub first: usize,
    pub second: Option<usize>,
}

/// The positions of the names so far, by key.
pub struct Earlier {
    alike: HashMap<String, Alike>,
}

// By hand: a derived `Drop` is proved again wherever one goes out of scope (docs/PROOFS.md, 'Drop').
impl Drop for Earlier {
    fn drop(self) {
        let Earlier { alike: _ } = self;
    }
}

impl Earlier {
    /// Returns no positions, with room for `count` keys.
    ///
    /// # Errors
    /// - `AllocError` if out of memory.
    pub fn with_capacity(alloc: Global, count: usize) -> Result<Earlier, AllocError>
        ensures { IfOk result (λ e. (key : List ℕ) → alike_at e key ≡ None) }
    {
        let alike = HashMap::with_capacity(alloc, count)?;
        Ok(Earlier { alike })
    }

    /// Returns the positions of the names with this key, if there are any.
    pub fn at(&self, key: &str) -> Option<Alike>
        ensures { result ≡ alike_at self.now key.now }
    {
        self.alike.get(key).copied()
    }

    /// Sets the positions of a key.
    ///
    /// # Errors
    /// - `AllocError` if out of memory.
    pub fn put(&mut self, key: String, alike: Alike) -> Result<(), AllocError>
        ensures { OnOk result ((bytes : List ℕ)
            → alike_at self.new bytes ≡ update bytes_eq (alike_at self.old) (string_bytes key) (Some alike) bytes) }
    {
        self.alike.insert(key, alike)?;
        Ok(())
    }
}

/// Returns the positions with one more.
pub fn with_position(alike: Option<Alike>, position: usize) -> Alike
    ensures { result ≡ with_position alike position }
{
    match alike {
        Some(Alike { first, .. }) => Alike {
            first,
            second: Some(position),
        },
        None => Alike {
            first: position,
            second: None,
        },
    }
}
