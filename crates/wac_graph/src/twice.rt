//! The first name that occurs twice, for the error of a call that was refused for a name.
ghost use Rattle.std.specs.Prelude.{◌≡◌, ◌++◌, ◌∷◌, [], MatchResult};
ghost use Rattle.wac_types_shapes.specs.shapes.Named.{NoNameTwice, given_names, labelled, named_pairs, names_of};
ghost use Rattle.wac_graph.specs.private.Twice.{IsNameError, IsRefusedAfter, IsSideError, IsThatName};

use crate::errors::Error;
use std::alloc::Global;
use wac_types::{Named, ShapeError};

/// The error of a type that was refused with these pairs: the first name that occurs twice, or else out of memory.
pub(crate) fn pairs_error<V>(alloc: Global, pairs: &[(&str, V)]) -> Error
    ensures { IsNameError (names_of (named_pairs pairs.now)) result }
{
    match check_pairs(alloc, pairs) {
        Ok(()) => Error::OutOfMemory,
        Err(error) => error,
    }
}

/// The error of a type that was refused with these names: the first name that occurs twice, or else out of memory.
pub(crate) fn names_error(alloc: Global, names: &[&str]) -> Error
    ensures { IsNameError (given_names names.now) result }
{
    match check_names(alloc, names) {
        Ok(()) => Error::OutOfMemory,
        Err(error) => error,
    }
}

/// The error of a world that was refused with these items: that of the imports, or else that of the exports.
pub(crate) fn sides_error<V>(alloc: Global, imports: &[(&str, V)], exports: &[(&str, V)]) -> Error
    ensures { IsSideError (names_of (named_pairs imports.now)) (names_of (named_pairs exports.now)) result }
{
    match check_pairs(alloc, imports) {
        Ok(()) => pairs_error(alloc, exports),
        Err(error) => error,
    }
}

/// Checks that no name of the pairs occurs twice.
fn check_pairs<V>(alloc: Global, pairs: &[(&str, V)]) -> Result<(), Error>
    ensures { MatchResult result (λ _. NoNameTwice (labelled (names_of (named_pairs pairs.now)))) (λ e. IsNameError (names_of (named_pairs pairs.now)) e) }
{
    let mut found = Named::new(alloc);
    for pair in pairs {
        match note(alloc, &mut found, pair.0) {
            Ok(()) => {}
            Err(error) => return Err(error),
        }
    }
    found.law(); // proof only
    Ok(())
}

/// Checks that no name occurs twice.
fn check_names(alloc: Global, names: &[&str]) -> Result<(), Error>
    ensures { MatchResult result (λ _. NoNameTwice (labelled (given_names names.now))) (λ e. IsNameError (given_names names.now) e) }
{
    let mut found = Named::new(alloc);
    for name in names {
        match note(alloc, &mut found, *name) {
            Ok(()) => {}
            Err(error) => return Err(error),
        }
    }
    found.law(); // proof only
    Ok(())
}

/// Adds a name to those found. If it is among them, the error names it.
fn note(alloc: Global, found: &mut Named<()>, name: &str) -> Result<(), Error>
    ensures { MatchResult result (λ _. found.new ≡ found.old ++ (name.now, tt) ∷ []) (λ e. IsRefusedAfter found.old name.now e) }
{
    found.law(); // proof only
    match found.insert(alloc, name, ()) {
        Ok(()) => Ok(()),
        Err(ShapeError::OutOfMemory) => Err(Error::OutOfMemory),
        Err(ShapeError::NameTwice) => Err(name_twice(alloc, name)),
    }
}

/// The error that this name occurs twice, or out of memory.
fn name_twice(alloc: Global, name: &str) -> Error
    ensures { IsThatName name.now result }
{
    match String::from_str(alloc, name) {
        Ok(name) => Error::NameTwice { name },
        Err(_) => Error::OutOfMemory,
    }
}
