//! Shapes of core types.

ghost use Rattle.std.specs.Prelude.{◌≡◌, ◌++◌, ◌∷◌, ◌↔◌, [], Err, IfOk, OnOk, OnErr, IsSome};
ghost use Rattle.wac_types_shapes.specs.primitives.Name.{find_name};
ghost use Rattle.wac_types_shapes.specs.shapes.Imports.{find_import};

use crate::primitives::{CoreRefType, CoreType};
use crate::shapes::imports::CoreImports;
use crate::shapes::named::{Named, Sequence, ShapeError};
use std::alloc::{AllocError, Global};

/// The type of a core function.
#[derive(Clone, Debug, PartialEq, Eq)]
pub struct CoreFuncType {
    /// The types of the parameters.
    pub params: Sequence<CoreType>,
    /// The types of the results.
    pub results: Sequence<CoreType>,
}

// `Drop` is by hand here and below: a derived one is proved again at each use (docs/PROOFS.md, 'Drop').
impl Drop for CoreFuncType {
    fn drop(self) {
        let CoreFuncType {
            params: _,
            results: _,
        } = self;
    }
}

impl CoreFuncType {
    /// Returns the type of a core function with these parameters and results.
    ///
    /// # Errors
    /// - `AllocError` if out of memory.
    pub fn new(
        alloc: Global,
        params: &[CoreType],
        results: &[CoreType],
    ) -> Result<CoreFuncType, AllocError>
        ensures { IfOk result (λ f. f ≡ record { params = params.now; results = results.now }) }
    {
        let params = Sequence::new(alloc, params)?;
        let results = Sequence::new(alloc, results)?;
        Ok(CoreFuncType { params, results })
    }
}

/// The type of an import or export of a core module.
#[derive(Clone, Debug, Drop, PartialEq, Eq)]
pub enum CoreExtern {
    /// A function.
    Func(CoreFuncType),
    /// A table.
    Table {
        /// The type of its elements.
        element_type: CoreRefType,
        /// The minimum number of elements.
        initial: u64,
        /// The maximum number of elements, if there is one.
        maximum: Option<u64>,
        /// Whether indexes are 64-bit.
        table64: bool,
        /// Whether the table is shared between threads.
        shared: bool,
    },
    /// A memory.
    Memory {
        /// Whether addresses are 64-bit.
        memory64: bool,
        /// Whether the memory is shared between threads.
        shared: bool,
        /// The minimum number of pages.
        initial: u64,
        /// The maximum number of pages, if there is one.
        maximum: Option<u64>,
        /// The base-2 logarithm of the page size, if it is not the default.
        page_size_log2: Option<u32>,
    },
    /// A global.
    Global {
        /// The type of its value.
        val_type: CoreType,
        /// Whether the global is mutable.
        mutable: bool,
        /// Whether the global is shared between threads.
        shared: bool,
    },
    /// A tag.
    Tag(CoreFuncType),
}

/// The type of a core module.
#[derive(Clone, Debug, PartialEq, Eq)]
pub struct ModuleType {
    /// The imports, by module and name, in order.
    pub imports: CoreImports<CoreExtern>,
    /// The exports, in order.
    pub exports: Named<CoreExtern>,
}

impl Drop for ModuleType {
    fn drop(self) {
        let ModuleType {
            imports: _,
            exports: _,
        } = self;
    }
}

impl ModuleType {
    /// Returns the type of a core module without imports and exports.
    pub fn new(alloc: Global) -> ModuleType
        ensures { result ≡ record { imports = []; exports = [] } }
    {
        ModuleType {
            imports: CoreImports::new(alloc),
            exports: Named::new(alloc),
        }
    }

    /// Appends an import.
    ///
    /// # Errors
    /// - [`NameTwice`](ShapeError::NameTwice) if the module already has an import of this name.
    /// - [`OutOfMemory`](ShapeError::OutOfMemory).
    ///
    /// On an error nothing changes.
    pub fn import(
        &mut self,
        alloc: Global,
        source: &str,
        name: &str,
        item: CoreExtern,
    ) -> Result<(), ShapeError>
        ensures imported { OnOk result (self.new ≡ record self.old { imports = self.old.imports ++ ((source.now, name.now), item) ∷ [] }) }
        ensures refused { OnErr result (self.new ≡ self.old) }
        ensures name_twice { (result ≡ Err ShapeError.NameTwice) ↔ IsSome (find_import self.old.imports source.now name.now) }
    {
        self.imports.insert(alloc, source, name, item)
    }

    /// Appends an export.
    ///
    /// # Errors
    /// - [`NameTwice`](ShapeError::NameTwice) if there already is an export of this name.
    /// - [`OutOfMemory`](ShapeError::OutOfMemory).
    ///
    /// On an error nothing changes.
    pub fn export(&mut self, alloc: Global, name: &str, item: CoreExtern) -> Result<(), ShapeError>
        ensures exported { OnOk result (self.new ≡ record self.old { exports = self.old.exports ++ (name.now, item) ∷ [] }) }
        ensures refused { OnErr result (self.new ≡ self.old) }
        ensures name_twice { (result ≡ Err ShapeError.NameTwice) ↔ IsSome (find_name self.old.exports name.now) }
    {
        self.exports.insert(alloc, name, item)
    }
}
