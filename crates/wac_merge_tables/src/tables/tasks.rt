//! Tasks that number the definitions that a type reaches, without recursion.
ghost use Rattle.std.specs.Prelude.{◌≡◌, ◌++◌, [], ◌∷◌, OnOk};
ghost use Rattle.wac_types_collection.specs.collection.Collection.{and_maybe, case_values, defined_values, seconds};
ghost use Rattle.wac_merge_tables.specs.private.tables.Tasks.{openings};

use std::alloc::AllocError;
use wac_types_collection::{DefinedType, DefinedTypeId, Named, ValueType};

/// What is left to do with a definition.
#[derive(Clone, Copy)]
pub enum Task {
    /// Number its parts first, then the definition.
    Open(DefinedTypeId),
    /// Number the definition; its parts have their numbers.
    Close(DefinedTypeId),
}

/// Adds the task to open a value type's definition, if it has one.
///
/// # Errors
/// - [`AllocError`] if out of memory.
pub fn open_value(tasks: &mut Vec<Task>, value: ValueType) -> Result<(), AllocError>
    ensures { OnOk result (tasks.new.items ≡ tasks.old.items ++ openings (value ∷ [])) }
{
    if let ValueType::Defined(id) = value {
        tasks.push(Task::Open(id))?;
    }
    Ok(())
}

/// Adds the task to open the definition of an optional value type.
///
/// # Errors
/// - [`AllocError`] if out of memory.
pub fn open_optional(tasks: &mut Vec<Task>, value: Option<ValueType>) -> Result<(), AllocError>
    ensures { OnOk result (tasks.new.items ≡ tasks.old.items ++ openings (and_maybe value [])) }
{
    match value {
        Some(value) => open_value(tasks, value),
        None => Ok(()),
    }
}

/// Adds the tasks to open the definitions of these value types.
fn open_values(tasks: &mut Vec<Task>, values: &[ValueType]) -> Result<(), AllocError>
    ensures { OnOk result (tasks.new.items ≡ tasks.old.items ++ openings values.now) }
{
    for i in 0..values.len() {
        open_value(tasks, values[i])?;
    }
    Ok(())
}

/// Adds the tasks to open the definitions of the types of fields or parameters.
///
/// # Errors
/// - [`AllocError`] if out of memory.
pub fn open_fields(tasks: &mut Vec<Task>, fields: &Named<ValueType>) -> Result<(), AllocError>
    ensures { OnOk result (tasks.new.items ≡ tasks.old.items ++ openings (seconds fields.now)) }
{
    for i in 0..fields.len() {
        open_value(tasks, *fields.value_at(i))?;
    }
    Ok(())
}

/// Adds the tasks to open the definitions of the payloads of cases.
fn open_cases(tasks: &mut Vec<Task>, cases: &Named<Option<ValueType>>) -> Result<(), AllocError>
    ensures { OnOk result (tasks.new.items ≡ tasks.old.items ++ openings (case_values cases.now)) }
{
    for i in 0..cases.len() {
        open_optional(tasks, *cases.value_at(i))?;
    }
    Ok(())
}

/// Adds the tasks to open the definitions of a definition's parts.
///
/// # Errors
/// - [`AllocError`] if out of memory.
pub fn open_parts(tasks: &mut Vec<Task>, definition: &DefinedType) -> Result<(), AllocError>
    ensures { OnOk result (tasks.new.items ≡ tasks.old.items ++ openings (defined_values definition.now)) }
{
    match definition {
        DefinedType::Tuple(values) => open_values(tasks, values.as_slice()),
        DefinedType::List(value) => open_value(tasks, *value),
        DefinedType::FixedSizeList(value, _) => open_value(tasks, *value),
        DefinedType::Option(value) => open_value(tasks, *value),
        DefinedType::Result { ok, err } => {
            open_optional(tasks, *ok)?;
            open_optional(tasks, *err)
        }
        DefinedType::Variant(variant) => open_cases(tasks, &variant.cases),
        DefinedType::Record(record) => open_fields(tasks, &record.fields),
        DefinedType::Flags(_) => Ok(()),
        DefinedType::Enum(_) => Ok(()),
        DefinedType::Alias(value) => open_value(tasks, *value),
        DefinedType::Stream(value) => open_optional(tasks, *value),
        DefinedType::Future(value) => open_optional(tasks, *value),
    }
}
