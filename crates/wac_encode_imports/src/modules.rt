//! The core module types that are written in the root.
ghost use Rattle.std.specs.Prelude.{◌≡◌, cond, None, Some, IfErr, OnOk};
ghost use Rattle.wac_binary.specs.declared.fault.BinaryFault.TheVariants.{OutOfMemory};
ghost use Rattle.wac_types_shapes.specs.contracts.shapes.component.ModuleTypeIdPartialEq.TheImpl as IdEq;
ghost use Rattle.wac_types_shapes.specs.declared.shapes.component.ModuleTypeId.{ModuleTypeId as AnId};
ghost use Rattle.wac_encode_imports.specs.private.Modules.{module_index};

use indexmap::IndexMap;
use std::alloc::Global;
use wac_binary::BinaryFault;
use wac_types_collection::ModuleTypeId;

/// The core type indexes of the module types that are written in the root. Each is written once.
#[derive(Drop)]
pub(crate) struct ModuleIndexes {
    pub(crate) written: IndexMap<ModuleTypeId, u32>,
}

impl ModuleIndexes {
    /// Returns no indexes.
    pub(crate) fn new(alloc: Global) -> ModuleIndexes
        ensures { (k : AnId) → module_index result k ≡ None }
    {
        ModuleIndexes {
            written: IndexMap::new(alloc),
        }
    }

    /// Returns the core type index of a module type, if it is written.
    pub(crate) fn get(&self, id: ModuleTypeId) -> Option<u32>
        ensures { result ≡ module_index self.now id }
    {
        self.written.get(&id).copied()
    }

    /// Sets the core type index of a module type.
    pub(crate) fn insert(&mut self, id: ModuleTypeId, index: u32) -> Result<(), BinaryFault>
        ensures inserted { OnOk result ((k : AnId) → module_index self.new k ≡ cond ((IdEq.ghosts).eq id k) (Some index) (module_index self.old k)) }
        ensures memory { IfErr result (λ e. e ≡ OutOfMemory) }
    {
        self.written.insert(id, index)?;
        Ok(())
    }
}
