//! Reading of names, and names that cannot be exported.
ghost use Rattle.std.specs.Prelude.{◌≡◌, ◌≢◌, IfOk, IfErr, MatchResult};
ghost use Rattle.wac_names.specs.validation.FirstFault.{bad_name, IsExportFault, IsNameFault, IsRefusal};
ghost use Rattle.wac_names.specs.validation.Valid.{Each, IsExportName, IsName};
ghost use Rattle.wac_names.specs.private.validation.Views.{name_texts, texts};

use crate::validation::fault::{ValidationError, ValidationFault};
use crate::{ComponentName, NameFault};
use std::alloc::Global;

/// Returns the error for a text that is not a name, for this reason.
fn unnamed(alloc: Global, text: &str, fault: NameFault) -> ValidationError
    ensures { IsRefusal (λ f. (f ≡ bad_name text.now) × (fault ≢ NameFault.OutOfMemory)) result }
{
    if let NameFault::OutOfMemory = fault {
        return ValidationError::OutOfMemory;
    }
    match String::from_str(alloc, text) {
        Ok(name) => ValidationError::Fault {
            source: ValidationFault::BadName { name },
        },
        Err(_) => ValidationError::OutOfMemory,
    }
}

/// Reads texts as names.
///
/// # Errors
/// - [`BadName`](ValidationFault::BadName) of the first text that is not a name.
/// - [`OutOfMemory`](ValidationError::OutOfMemory).
pub fn names_of<'a>(
    alloc: Global,
    written: &[&'a str],
) -> Result<Vec<ComponentName<'a>>, ValidationError>
    ensures same { IfOk result (λ names. name_texts names.items ≡ texts written.now) }
    ensures named { IfOk result (λ _. Each IsName (texts written.now)) }
    ensures fault { IfErr result (IsRefusal (IsNameFault (texts written.now))) }
{
    crate::laws::one_answer();
    let mut names = Vec::with_capacity(alloc, written.len())?;
    for text in written {
        match ComponentName::new(alloc, text) {
            Ok(name) => names.push(name)?,
            Err(fault) => return Err(unnamed(alloc, text, fault)),
        }
    }
    Ok(names)
}

/// Checks that all names can be exported.
///
/// # Errors
/// - [`NotExportable`](ValidationFault::NotExportable) of the first name that cannot.
/// - [`OutOfMemory`](ValidationError::OutOfMemory).
pub fn exportable(alloc: Global, names: &[ComponentName<'_>]) -> Result<(), ValidationError>
    ensures { MatchResult result
        (λ _. Each IsExportName (name_texts names.now))
        (IsRefusal (IsExportFault (name_texts names.now))) }
{
    crate::laws::one_answer();
    for name in names {
        if !name.kind().is_exportable() {
            let name = String::from_str(alloc, name.as_str())?;
            return Err(ValidationError::Fault {
                source: ValidationFault::NotExportable { name },
            });
        }
    }
    Ok(())
}
