//! The writer of core module types.

ghost use Rattle.std.specs.Prelude.{◌≡◌, List, ℕ, ◌+◌, ◌<◌, ◌≤◌, ◌^◌, ◌++◌, ◌∷◌, [], length, OnOk, OnErr, IfOk, IsTrue, ◌↔◌};
ghost use Rattle.wac_binary.specs.Items.{module_import, module_func, module_export};
ghost use Rattle.wac_binary.specs.Bytes.{module_decl_bytes, module_bytes};
ghost use Rattle.wac_binary.specs.Indexes.{function_types};
ghost use Rattle.wac_binary.specs.Fits.{ModuleFits, TooLargeUnless};
ghost use Rattle.wac_binary.specs.Format.{ModuleIsInFormat};
ghost use Rattle.wac_binary.specs.private.declarations.ModuleView.{module_decl_of};
ghost use Rattle.wac_binary.specs.private.declarations.WrittenModule.{WrittenModule, WrittenModule_prop};

use crate::bytes::put::put_unsigned;
use crate::core_types::EntityType;
use crate::declarations::core_decl::{ModuleDeclRef, put_module_decl};
use crate::declarations::core_size::module_decl_size;
use crate::declarations::size::unsigned_size;
use crate::fault::BinaryFault;
use std::alloc::{AllocError, Global};
use std::marker::Model;
use wac_types_shapes::CoreType;

/// A core module type that is being written. Contracts see it as the list of its declarations.
///
/// Each declaring call appends a declaration. Whether the indexes in it exist is not checked.
///
/// # Errors
/// - [`TooLarge`](BinaryFault::TooLarge) if the declarations would not fit 32-bit sizes.
/// - [`OutOfMemory`](BinaryFault::OutOfMemory).
///
/// On an error the declarations are unchanged.
#[derive(Debug)]
pub struct ModuleType {
    bytes: Vec<u8>,
    count: u64,
    /// The number of function types.
    types: u64,
    // The only list of declarations with these bytes (docs/PROOFS.md, 'Lists of values').
    ghost written: { WrittenModule bytes.items count } by { WrittenModule_prop bytes.items count },
}

// By hand: a derived `Drop` is proved again wherever one goes out of scope (docs/PROOFS.md, 'Drop').
impl Drop for ModuleType {
    fn drop(self) {
        let ModuleType {
            bytes: _,
            count: _,
            types: _,
        } = self;
    }
}

impl Model for ModuleType {
    ghost use Rattle.std.specs.Prelude.{List};
    ghost use Rattle.std.specs.Coded.{coded_list};
    ghost use Rattle.wac_binary.specs.Items.{ModuleDecl};
    ghost use Rattle.wac_binary.specs.private.Code.{coded_module_decl};

    ghost Value = { List ModuleDecl };

    ghost coded = { coded_list coded_module_decl };

    ghost use Rattle.wac_binary.specs.private.declarations.ModuleTypeView.{view as the_declarations, IsWritten};

    ghost view = { the_declarations };

    ghost invariant = { IsWritten };
}

impl ModuleType {
    /// Creates a core module type without declarations.
    pub fn new(alloc: Global) -> ModuleType
        ensures { result ≡ [] }
    {
        ModuleType {
            bytes: Vec::new(alloc),
            count: 0,
            types: 0,
        }
    }

    /// States that the declarations fit 32-bit sizes. Proof only (docs/PROOFS.md, 'Laws').
    pub fn fit_law(&self)
        ensures { ModuleFits self.now }
    {
        let _ = &self.bytes;
    }

    /// Appends a declaration and returns the number of function types before it.
    fn append(&mut self, d: &ModuleDeclRef<'_>) -> Result<u32, BinaryFault>
        ensures index { IfOk result (λ i. i ≡ function_types self.old) }
        ensures appended { OnOk result (self.new ≡ self.old ++ module_decl_of d.now ∷ []) }
        ensures fits { OnOk result (ModuleFits self.new) }
        ensures refused { OnErr result (self.new ≡ self.old) }
        ensures too_large { TooLargeUnless result (ModuleFits (self.old ++ module_decl_of d.now ∷ [])) }
    {
        let index = self.types;
        if !fits(self.count, self.bytes.len(), module_decl_size(d)) {
            return Err(BinaryFault::TooLarge);
        }
        append_module_decl(&mut self.bytes, d)?;
        self.count += 1;
        self.types = index + types_in(d);
        Ok(index as u32)
    }

    /// Declares a function type and returns its index in the module type.
    pub fn func(&mut self, params: &[CoreType], results: &[CoreType]) -> Result<u32, BinaryFault>
        ensures index { IfOk result (λ i. i ≡ function_types self.old) }
        ensures appended { OnOk result (self.new ≡ self.old ++ module_func params.now results.now ∷ []) }
        ensures fits { OnOk result (ModuleFits self.new) }
        ensures refused { OnErr result (self.new ≡ self.old) }
        ensures too_large { TooLargeUnless result (ModuleFits (self.old ++ module_func params.now results.now ∷ [])) }
    {
        self.append(&ModuleDeclRef::Func { params, results })
    }

    /// Declares an import of `name` from the module named `module`.
    pub fn import(&mut self, module: &str, name: &str, item: EntityType) -> Result<(), BinaryFault>
        ensures appended { OnOk result (self.new ≡ self.old ++ module_import «module».now name.now item ∷ []) }
        ensures fits { OnOk result (ModuleFits self.new) }
        ensures refused { OnErr result (self.new ≡ self.old) }
        ensures too_large { TooLargeUnless result (ModuleFits (self.old ++ module_import «module».now name.now item ∷ [])) }
    {
        let _types = self.append(&ModuleDeclRef::Import { module, name, item })?;
        Ok(())
    }

    /// Declares an export.
    pub fn export(&mut self, name: &str, item: EntityType) -> Result<(), BinaryFault>
        ensures appended { OnOk result (self.new ≡ self.old ++ module_export name.now item ∷ []) }
        ensures fits { OnOk result (ModuleFits self.new) }
        ensures refused { OnErr result (self.new ≡ self.old) }
        ensures too_large { TooLargeUnless result (ModuleFits (self.old ++ module_export name.now item ∷ [])) }
    {
        let _types = self.append(&ModuleDeclRef::Export { name, item })?;
        Ok(())
    }

    /// Returns the size of the type in bytes.
    pub fn size(&self) -> u128
        ensures is { result ≡ length (module_bytes self.now) }
        ensures small { result ≤ 2 ^ 34 }
        ensures in_format { ModuleIsInFormat self.now }
    {
        1 + u128::from(unsigned_size(self.count)) + u128::from(self.bytes.len() as u64)
    }

    /// Appends the type to a buffer, which may have grown after an error.
    pub fn put(&self, out: &mut Vec<u8>) -> Result<(), AllocError>
        ensures written { OnOk result (out.new.items ≡ out.old.items ++ module_bytes self.now) }
        ensures grows { (more : List ℕ) × (out.new.items ≡ out.old.items ++ more) }
    {
        out.push(0x50)?;
        put_unsigned(out, self.count)?;
        out.extend_from_slice(&self.bytes)
    }
}

/// Returns the number of function types that a declaration adds.
fn types_in(d: &ModuleDeclRef<'_>) -> u64
    ensures { result ≡ function_types (module_decl_of d.now ∷ []) }
{
    match d {
        ModuleDeclRef::Func { .. } => 1,
        ModuleDeclRef::Import { .. } => 0,
        ModuleDeclRef::Export { .. } => 0,
    }
}

/// Returns whether one more declaration of `size` bytes fits after `count` declarations with `bytes` bytes.
fn fits(count: u64, bytes: usize, size: u128) -> bool
    requires { size ≤ 2 ^ 69 }
    ensures { IsTrue result ↔ ((count + 1 < 2 ^ 32) × (bytes + size < 2 ^ 32)) }
{
    count < (1 << 32) - 1 && bytes as u128 + size < 1 << 32
}

/// Appends a declaration, or leaves the buffer unchanged.
fn append_module_decl(out: &mut Vec<u8>, d: &ModuleDeclRef<'_>) -> Result<(), AllocError>
    ensures written { OnOk result (out.new.items ≡ out.old.items ++ module_decl_bytes (module_decl_of d.now)) }
    ensures refused { OnErr result (out.new.items ≡ out.old.items) }
{
    let from = out.len();
    match put_module_decl(out, d) {
        Ok(()) => Ok(()),
        Err(e) => {
            out.truncate(from);
            Err(e)
        }
    }
}
