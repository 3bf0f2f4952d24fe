//! Bytes that grow at both ends, around bytes that buffers share.

ghost use Rattle.std.specs.Prelude.{◌≡◌, List, ℕ, ◌<◌, ◌^◌, ◌++◌, ◌∷◌, [], length, OnOk, OnErr, IfOk};
ghost use Rattle.wac_binary.specs.Leb.{unsigned};
ghost use Rattle.wac_binary.specs.Bytes.{decl_bytes};
ghost use Rattle.wac_binary.specs.private.declarations.DeclView.{decl_of, scope_byte};

use crate::declarations::decl::{DeclRef, Scope, put_decl, put_scope};
use crate::declarations::shared::SharedBytes;
use std::alloc::{AllocError, Global};
use std::marker::Model;

/// Bytes that grow at both ends. Contracts see them as a list.
///
/// A call fails only if out of memory, and then leaves them unchanged.
#[derive(Debug, Drop)]
pub struct Buffer {
    alloc: Global,
    /// The bytes before those of `core`, in reverse order: they grow at the end of a vector.
    front: Vec<u8>,
    /// The bytes that clones share.
    core: SharedBytes,
    back: Vec<u8>,
}

impl Model for Buffer {
    ghost use Rattle.std.specs.Prelude.{List, ℕ};
    ghost use Rattle.std.specs.Coded.{coded_list, coded_ℕ};

    ghost Value = { List ℕ };

    ghost coded = { coded_list coded_ℕ };

    ghost use Rattle.wac_binary.specs.private.declarations.BufferView.{view as the_bytes};

    ghost view = { the_bytes };
}

/// A clone has the same bytes. Shared bytes are not copied.
impl Clone for Buffer {
    ghost is_clone = { λ a b. b ≡ a };

    fn clone(&self) -> Result<Buffer, AllocError> {
        Ok(Buffer {
            alloc: self.alloc,
            front: Vec::from_slice(self.alloc, &self.front)?,
            core: self.core.clone()?,
            back: Vec::from_slice(self.alloc, &self.back)?,
        })
    }
}

impl Buffer {
    /// Creates an empty buffer.
    pub fn new(alloc: Global) -> Buffer
        ensures { result ≡ [] }
    {
        Buffer {
            alloc,
            front: Vec::new(alloc),
            core: SharedBytes::new(),
            back: Vec::new(alloc),
        }
    }

    /// Returns the number of bytes.
    pub fn len(&self) -> u128
        ensures is { result ≡ length self.now }
        ensures small { result < 2 ^ 66 }
    {
        self.front.len() as u128 + u128::from(self.core.len()) + self.back.len() as u128
    }

    /// Returns the same bytes. Clones share them from then on.
    pub fn share(self) -> Result<Buffer, AllocError>
        requires { length self < 2 ^ 64 }
        ensures { IfOk result (λ b. b ≡ self) }
    {
        let Buffer {
            alloc,
            front: mut before,
            core,
            back,
        } = self;
        before.reverse();
        let core = core.surround(alloc, before, back)?;
        Ok(Buffer {
            alloc,
            front: Vec::new(alloc),
            core,
            back: Vec::new(alloc),
        })
    }

    /// Appends a declaration.
    pub fn append(&mut self, d: &DeclRef<'_>) -> Result<(), AllocError>
        ensures written { OnOk result (self.new ≡ self.old ++ decl_bytes (decl_of d.now)) }
        ensures refused { OnErr result (self.new ≡ self.old) }
    {
        append_decl(&mut self.back, d)
    }

    /// Prepends the declarations in `around` and the head of a type declaration.
    /// The bytes so far become the `count` declarations of that type.
    pub fn wrap(&mut self, around: &Buffer, scope: Scope, count: u64) -> Result<(), AllocError>
        ensures written { OnOk result (self.new ≡ (around.now ++ 1 ∷ scope_byte scope ∷ unsigned count) ++ self.old) }
        ensures refused { OnErr result (self.new ≡ self.old) }
    {
        let mut before = Vec::new(self.alloc);
        around.put(&mut before)?;
        put_scope(&mut before, scope, count)?;
        self.prepend(before)
    }

    /// Prepends bytes.
    fn prepend(&mut self, mut before: Vec<u8>) -> Result<(), AllocError>
        ensures written { OnOk result (self.new ≡ before.items ++ self.old) }
        ensures refused { OnErr result (self.new ≡ self.old) }
    {
        before.reverse();
        self.front.extend_from_slice(&before)
    }

    /// Appends the bytes to a vector, which may have grown after an error.
    pub fn put(&self, out: &mut Vec<u8>) -> Result<(), AllocError>
        ensures written { OnOk result (out.new.items ≡ out.old.items ++ self.now) }
        ensures grows { (more : List ℕ) × (out.new.items ≡ out.old.items ++ more) }
    {
        let mut front = Vec::new(self.alloc);
        front.extend_from_slice(&self.front)?;
        front.reverse();
        out.extend_from_slice(&front)?;
        self.core.put(self.alloc, out)?;
        out.extend_from_slice(&self.back)
    }
}

/// Appends a declaration, or leaves the bytes unchanged.
fn append_decl(out: &mut Vec<u8>, d: &DeclRef<'_>) -> Result<(), AllocError>
    ensures written { OnOk result (out.new.items ≡ out.old.items ++ decl_bytes (decl_of d.now)) }
    ensures refused { OnErr result (out.new.items ≡ out.old.items) }
{
    let from = out.len();
    match put_decl(out, d) {
        Ok(()) => Ok(()),
        Err(e) => {
            out.truncate(from);
            Err(e)
        }
    }
}
