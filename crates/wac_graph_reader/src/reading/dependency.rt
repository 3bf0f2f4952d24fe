//! The names under which packages are imported.
ghost use Rattle.std.specs.Prelude.{◌≡◌, IfOk, string_bytes};
ghost use Rattle.wac_graph_model.specs.meaning.Means.{dependency_name as dependency_name_of};

use std::alloc::{AllocError, Global};
use wac_types::Package;

/// Returns the import name of a package: `unlocked-dep=<name>` or `unlocked-dep=<name@{>=version}>`.
///
/// # Errors
/// - `AllocError` if out of memory.
pub fn dependency_name(alloc: Global, package: &Package) -> Result<String, AllocError>
    ensures { IfOk result (λ text. string_bytes text ≡ dependency_name_of («package».now.name, «package».now.version)) }
{
    let name = package.name();
    match package.version() {
        None => format!(in alloc; "unlocked-dep=<{name}>"),
        Some(version) => format!(in alloc; "unlocked-dep=<{name}@{{>={version}}}>"),
    }
}
