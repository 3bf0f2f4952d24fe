//! Which texts are valid names of imports and exports.
ghost use Rattle.std.specs.Prelude.{◌≡◌, ◌≢◌, OnErr, IfOk, MatchOption};
ghost use Rattle.wac_names.specs.Faults.{HasFault};
ghost use Rattle.wac_graph_model.specs.nodes.ExternName.{IsImportName, IsExportName, HasExportFault, IsExportDecided};
ghost use Rattle.wac_types_shapes.specs.primitives.Name.{Name};

use std::alloc::{AllocError, Global};
use wac_names::{ComponentName, NameFault};

/// Proves that a text is a valid export name or has exactly one fault, never both.
pub fn one_export_answer()
    ensures { (text : Name) → IsExportDecided text }
{
    wac_names::laws::one_answer(); // proof only
}

/// Returns why a text is not a valid import name, or `None` if it is valid.
pub fn import_fault(alloc: Global, name: &str) -> Result<Option<NameFault>, AllocError>
    ensures { IfOk result (λ fault. MatchOption fault (IsImportName name.now) (HasFault name.now)) }
{
    match ComponentName::new(alloc, name) {
        Ok(_) => Ok(None),
        Err(fault) => Ok(Some(but_memory(fault)?)),
    }
}

/// Returns why a text is not a valid export name, or `None` if it is valid.
pub fn export_fault(alloc: Global, name: &str) -> Result<Option<NameFault>, AllocError>
    ensures { IfOk result (λ fault. MatchOption fault (IsExportName name.now) (HasExportFault name.now)) }
{
    match ComponentName::new(alloc, name) {
        Ok(name) => {
            if name.kind().is_exportable() {
                Ok(None)
            } else {
                Ok(Some(NameFault::NotExportable))
            }
        }
        Err(fault) => Ok(Some(but_memory(fault)?)),
    }
}

/// Returns the fault, or `AllocError` if the fault is that memory ran out.
fn but_memory(fault: NameFault) -> Result<NameFault, AllocError>
    ensures same { IfOk result (λ f. f ≡ fault) }
    ensures real { IfOk result (λ f. f ≢ NameFault.OutOfMemory) }
    ensures memory { OnErr result (fault ≡ NameFault.OutOfMemory) }
{
    match fault {
        NameFault::OutOfMemory => Err(AllocError),
        fault => Ok(fault),
    }
}
