//! Validation of the outer names of a component.
ghost use Rattle.std.specs.Prelude.{◌≡◌, ◌<◌, List, length, IfOk, IfErr, MatchResult};
ghost use Rattle.wac_names.specs.validation.FirstFault.{clash, fault_view, HasOneAnswer, IsFirstFault, IsNameFault, IsRefusal};
ghost use Rattle.wac_names.specs.validation.Valid.{Text, at, AreNames, AreValid};
ghost use Rattle.wac_names.specs.private.validation.Views.{name_texts, texts};

use crate::ComponentName;
use crate::validation::clashes::first_clash;
use crate::validation::fault::{ValidationError, ValidationFault};
use crate::validation::naming::{exportable, names_of};
use std::alloc::{AllocError, Global};

/// Returns the clash of the names at two positions.
fn clash_of(
    alloc: Global,
    names: &[ComponentName<'_>],
    one: usize,
    other: usize,
) -> Result<ValidationFault, AllocError>
    requires one { one < length names.now }
    requires other { other < length names.now }
    ensures { IfOk result (λ f. fault_view f ≡ clash (at (name_texts names.now) one) (at (name_texts names.now) other)) }
{
    let first = String::from_str(alloc, names[one].as_str())?;
    let second = String::from_str(alloc, names[other].as_str())?;
    Ok(ValidationFault::Clash { first, second })
}

/// Reads texts as names, of which no two may clash.
fn names_apart<'a>(
    alloc: Global,
    written: &[&'a str],
) -> Result<Vec<ComponentName<'a>>, ValidationError>
    ensures same { IfOk result (λ names. name_texts names.items ≡ texts written.now) }
    ensures apart { IfOk result (λ _. AreNames (texts written.now)) }
    ensures fault { IfErr result (IsRefusal (IsNameFault (texts written.now))) }
{
    let names = names_of(alloc, written)?;
    let Some(pair) = first_clash(alloc, &names)? else {
        return Ok(names);
    };
    let source = clash_of(alloc, &names, pair.0, pair.1)?;
    Err(ValidationError::Fault { source })
}

/// Checks that a component can have these imports and exports. Names are in written order.
///
/// An import and an export may have the same name.
///
/// # Errors
/// For the imports, and then for the exports:
/// - [`BadName`](ValidationFault::BadName) of the first name outside the grammar.
/// - [`Clash`](ValidationFault::Clash) of the first two names that clash: the earliest name that clashes with one
///   before it, and the earliest such name.
///
/// Then [`NotExportable`](ValidationFault::NotExportable) of the first export that is a hash, a URL or a dependency.
/// [`OutOfMemory`](ValidationError::OutOfMemory) if memory runs out before a fault is returned.
pub fn validate(alloc: Global, imports: &[&str], exports: &[&str]) -> Result<(), ValidationError>
    ensures { MatchResult result
        (λ _. AreValid (texts imports.now) (texts exports.now))
        (IsRefusal (IsFirstFault (texts imports.now) (texts exports.now))) }
{
    names_apart(alloc, imports)?;
    let exports = names_apart(alloc, exports)?;
    exportable(alloc, &exports)
}

/// Proof only: outer names have no fault, or exactly one that is first (docs/PROOFS.md, 'Laws').
pub fn one_answer()
    ensures { (imports exports : List Text) → HasOneAnswer imports exports }
{}
