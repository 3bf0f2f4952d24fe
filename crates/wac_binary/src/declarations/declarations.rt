//! The declarations of a component type or an instance type.

ghost use Rattle.std.specs.Prelude.{◌≡◌, List, ℕ, ◌+◌, ◌<◌, ◌≤◌, ◌^◌, ◌++◌, ◌∷◌, [], length, OnOk, OnErr, IfOk, IsTrue, ◌↔◌};
ghost use Rattle.wac_binary.specs.Leb.{unsigned};
ghost use Rattle.wac_binary.specs.Items.{decls, type_decl};
ghost use Rattle.wac_binary.specs.Bytes.{count as count_of, decl_bytes, decls_bytes};
ghost use Rattle.wac_binary.specs.Indexes.{decl_adds, declared, space};
ghost use Rattle.wac_binary.specs.private.Spaces.{number as number_of};
ghost use Rattle.wac_binary.specs.Fits.{DeclarationsFit, TooLargeUnless};
ghost use Rattle.wac_binary.specs.Format.{DeclIsInFormat, DeclsAreInFormat};
ghost use Rattle.wac_binary.specs.private.declarations.DeclView.{decl_of, scope_def};
ghost use Rattle.wac_binary.specs.declared.sorts.Sort.TheVariants as s;
ghost use Rattle.wac_binary.specs.private.declarations.WrittenDecls.{WrittenDecls, WrittenDecls_prop};

use crate::bytes::put::put_unsigned;
use crate::declarations::buffer::Buffer;
use crate::declarations::decl::{DeclRef, Scope, TypeRef};
use crate::declarations::size::unsigned_size;
use crate::declarations::type_size::decl_size;
use crate::fault::BinaryFault;
use crate::sorts::{IndexSpace, number};
use std::alloc::{AllocError, Global};
use std::marker::Model;

/// The declarations of a component type or an instance type. Contracts see them as a list.
///
/// A call that declares something appends a declaration and returns its index.
///
/// # Errors
/// - [`TooLarge`](BinaryFault::TooLarge) if the declarations would not fit 32-bit sizes.
/// - [`OutOfMemory`](BinaryFault::OutOfMemory).
///
/// On an error the declarations are unchanged.
#[derive(Debug, Drop)]
pub struct Declarations {
    bytes: Buffer,
    count: u64,
    /// The number of indexes in each index space.
    counts: [u64; 7],
    // The only list of declarations with these bytes (docs/PROOFS.md, 'Lists of values').
    ghost written: { WrittenDecls bytes count } by { WrittenDecls_prop bytes count },
}

impl Model for Declarations {
    ghost use Rattle.std.specs.Prelude.{List};
    ghost use Rattle.std.specs.Coded.{coded_list};
    ghost use Rattle.wac_binary.specs.Items.{Decl};
    ghost use Rattle.wac_binary.specs.private.Code.{coded_decl};

    ghost Value = { List Decl };

    ghost coded = { coded_list coded_decl };

    ghost use Rattle.wac_binary.specs.private.declarations.DeclarationsView.{view as the_declarations, IsWritten};

    ghost view = { the_declarations };

    ghost invariant = { IsWritten };
}

/// A clone has the same declarations. Shared bytes are not copied.
impl Clone for Declarations {
    ghost is_clone = { λ a b. b ≡ a };

    fn clone(&self) -> Result<Declarations, AllocError> {
        Ok(Declarations {
            bytes: self.bytes.clone()?,
            count: self.count,
            counts: self.counts,
        })
    }
}

impl Declarations {
    /// Creates an empty list of declarations.
    pub fn new(alloc: Global) -> Declarations
        ensures { result ≡ [] }
    {
        Declarations {
            bytes: Buffer::new(alloc),
            count: 0,
            counts: [0; 7],
        }
    }

    /// States that the declarations fit 32-bit sizes. Proof only (docs/PROOFS.md, 'Laws').
    pub fn fit_law(&self)
        ensures { DeclarationsFit self.now }
    {
        let _ = &self.bytes;
    }

    /// Returns whether one more declaration fits 32-bit sizes. It adds an index to `space`.
    pub fn has_room(&self, d: &DeclRef<'_>, space: IndexSpace) -> bool
        requires { decl_adds (decl_of d.now) ≡ number_of space }
        ensures room { IsTrue result ↔ DeclarationsFit (self.now ++ decl_of d.now ∷ []) }
        ensures in_format { DeclIsInFormat (decl_of d.now) }
    {
        let index = self.counts[number(space)];
        fits(index, self.count, self.bytes.len(), decl_size(d))
    }

    /// Appends a declaration, which adds an index to `space`, and returns that index.
    pub fn append(&mut self, d: &DeclRef<'_>, space: IndexSpace) -> Result<u32, BinaryFault>
        requires { decl_adds (decl_of d.now) ≡ number_of space }
        ensures index { IfOk result (λ i. i ≡ declared (number_of space) self.old) }
        ensures appended { OnOk result (self.new ≡ self.old ++ decl_of d.now ∷ []) }
        ensures fits { OnOk result (DeclarationsFit self.new) }
        ensures refused { OnErr result (self.new ≡ self.old) }
        ensures too_large { TooLargeUnless result (DeclarationsFit (self.old ++ decl_of d.now ∷ [])) }
    {
        if !self.has_room(d, space) {
            return Err(BinaryFault::TooLarge);
        }
        let at = number(space);
        let index = self.counts[at];
        self.bytes.append(d)?;
        self.count += 1;
        self.counts[at] = index + 1;
        Ok(index as u32)
    }

    /// Returns the size in bytes of the declarations, with their number.
    pub fn size(&self) -> u128
        ensures is { result ≡ length (unsigned (count_of (decls self.now)) ++ decls_bytes (decls self.now)) }
        ensures small { result ≤ 2 ^ 34 }
        ensures in_format { DeclsAreInFormat (decls self.now) }
    {
        u128::from(unsigned_size(self.count)) + self.bytes.len()
    }

    /// Appends the number of declarations and their bytes to a buffer, which may have grown after an error.
    pub fn put(&self, out: &mut Vec<u8>) -> Result<(), AllocError>
        ensures written { OnOk result (out.new.items ≡ out.old.items ++ (unsigned (count_of (decls self.now)) ++ decls_bytes (decls self.now))) }
        ensures grows { (more : List ℕ) × (out.new.items ≡ out.old.items ++ more) }
    {
        put_unsigned(out, self.count)?;
        self.bytes.put(out)
    }

    /// Returns the same declarations. Clones share their bytes from then on.
    pub fn share(self) -> Result<Declarations, AllocError>
        ensures { IfOk result (λ t. t ≡ self) }
    {
        let Declarations {
            bytes,
            count,
            counts,
        } = self;
        Ok(Declarations {
            bytes: bytes.share()?,
            count,
            counts,
        })
    }

    /// Declares a type with the declarations `inner` and returns its type index.
    ///
    /// If `inner` is the longer, a clone of its buffer grows, so shared bytes are not copied.
    pub fn list(&mut self, inner: &Declarations, scope: Scope) -> Result<u32, BinaryFault>
        ensures index { IfOk result (λ i. i ≡ declared (space s.Type) self.old) }
        ensures appended { OnOk result (self.new ≡ self.old ++ type_decl (scope_def scope (decls inner.now)) ∷ []) }
        ensures fits { OnOk result (DeclarationsFit self.new) }
        ensures refused { OnErr result (self.new ≡ self.old) }
        ensures too_large { TooLargeUnless result (DeclarationsFit (self.old ++ type_decl (scope_def scope (decls inner.now)) ∷ [])) }
    {
        if inner.bytes.len() > self.bytes.len() {
            return self.surround_clone(inner, scope);
        }
        let t = TypeRef::Scope(scope, inner);
        self.append(&DeclRef::Type(t), IndexSpace::Types)
    }

    /// Declares a type with the declarations `inner` by prepending the other declarations to a clone of its buffer.
    fn surround_clone(&mut self, inner: &Declarations, scope: Scope) -> Result<u32, BinaryFault>
        ensures index { IfOk result (λ i. i ≡ declared (space s.Type) self.old) }
        ensures appended { OnOk result (self.new ≡ self.old ++ type_decl (scope_def scope (decls inner.now)) ∷ []) }
        ensures fits { OnOk result (DeclarationsFit self.new) }
        ensures refused { OnErr result (self.new ≡ self.old) }
        ensures too_large { TooLargeUnless result (DeclarationsFit (self.old ++ type_decl (scope_def scope (decls inner.now)) ∷ [])) }
    {
        let t = TypeRef::Scope(scope, inner);
        if !self.has_room(&DeclRef::Type(t), IndexSpace::Types) {
            return Err(BinaryFault::TooLarge);
        }
        let inner = inner.clone()?;
        self.surround(inner, scope)
    }

    /// Declares a type with the declarations `inner` and returns its type index.
    ///
    /// The longer of the two buffers stays in place. On an error `inner` is dropped.
    pub fn take(&mut self, inner: Declarations, scope: Scope) -> Result<u32, BinaryFault>
        ensures index { IfOk result (λ i. i ≡ declared (space s.Type) self.old) }
        ensures appended { OnOk result (self.new ≡ self.old ++ type_decl (scope_def scope (decls inner)) ∷ []) }
        ensures fits { OnOk result (DeclarationsFit self.new) }
        ensures refused { OnErr result (self.new ≡ self.old) }
        ensures too_large { TooLargeUnless result (DeclarationsFit (self.old ++ type_decl (scope_def scope (decls inner)) ∷ [])) }
    {
        if inner.bytes.len() > self.bytes.len() {
            return self.surround(inner, scope);
        }
        let t = TypeRef::Scope(scope, &inner);
        self.append(&DeclRef::Type(t), IndexSpace::Types)
    }

    /// Declares a type with the declarations `inner` by prepending the other declarations to its buffer.
    fn surround(&mut self, inner: Declarations, scope: Scope) -> Result<u32, BinaryFault>
        ensures index { IfOk result (λ i. i ≡ declared (space s.Type) self.old) }
        ensures appended { OnOk result (self.new ≡ self.old ++ type_decl (scope_def scope (decls inner)) ∷ []) }
        ensures fits { OnOk result (DeclarationsFit self.new) }
        ensures refused { OnErr result (self.new ≡ self.old) }
        ensures too_large { TooLargeUnless result (DeclarationsFit (self.old ++ type_decl (scope_def scope (decls inner)) ∷ [])) }
    {
        let t = TypeRef::Scope(scope, &inner);
        if !self.has_room(&DeclRef::Type(t), IndexSpace::Types) {
            return Err(BinaryFault::TooLarge);
        }
        let types = number(IndexSpace::Types);
        let index = self.counts[types];
        let bytes = inner.behind(&self.bytes, scope)?;
        self.bytes = bytes;
        self.count += 1;
        self.counts[types] = index + 1;
        Ok(index as u32)
    }

    /// Returns the bytes in `before`, then those of a declaration of a type with these declarations.
    fn behind(self, before: &Buffer, scope: Scope) -> Result<Buffer, AllocError>
        ensures { IfOk result (λ b. b ≡ before.now ++ decl_bytes (type_decl (scope_def scope (decls self)))) }
    {
        let Declarations {
            mut bytes,
            count,
            counts: _,
        } = self;
        bytes.wrap(before, scope, count)?;
        Ok(bytes)
    }
}

/// Returns whether one more declaration of `size` bytes fits after `count` declarations with `bytes` bytes.
/// Its index space has `index` indexes.
fn fits(index: u64, count: u64, bytes: u128, size: u128) -> bool
    requires bytes { bytes < 2 ^ 66 }
    requires size { size < 2 ^ 127 + 2 ^ 104 }
    ensures { IsTrue result ↔ ((index < 2 ^ 32) × (count + 1 < 2 ^ 32) × (bytes + size < 2 ^ 32)) }
{
    index < 1 << 32 && count < (1 << 32) - 1 && bytes + size < 1 << 32
}
