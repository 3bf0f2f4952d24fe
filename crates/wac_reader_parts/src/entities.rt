//! Core value types, and the types of what a core module imports and exports.

ghost use Rattle.std.specs.Prelude.{◌≡◌, ◌≤◌, Ok};
ghost use Rattle.wac_component.specs.Numbers.{number_at, number64_at};
ghost use Rattle.wac_component.specs.CoreTypes.{reference_at, core_value_at, has as has_flag, given_if, limits_at, table_at, memory_at, global_at, entity_at};
ghost use Rattle.wac_reader_parts.specs.private.Gives.{Gives};
ghost use Rattle.wac_reader_parts.specs.private.CoreTypes.{limits_of};
ghost use Rattle.wac_reader_parts.specs.private.Resources.{integer_at};

use crate::bytes::{number, number64, text_fault};
use crate::fault::ReadFault;
use wac_binary::{EntityType, GlobalType, MemoryType, TableType};
use wac_component::{Feature, TextFault};
use wac_types_shapes::{CoreRefType, CoreType};

/// What limits say.
#[derive(Clone, Copy)]
pub struct Limits {
    /// Whether the table or memory is shared between threads.
    shared: bool,
    /// Whether its indexes or addresses have 64 bits.
    is64: bool,
    /// The minimum.
    minimum: u64,
    /// The maximum, if there is one.
    maximum: Option<u64>,
    /// The binary logarithm of the page size, if it is given.
    page: Option<u32>,
}

/// Returns the fault of a core type that is not supported.
fn unsupported(left: usize) -> ReadFault
    ensures { result ≡ ReadFault.Text (TextFault.Unsupported Feature.CoreType) left }
{
    text_fault(TextFault::Unsupported(Feature::CoreType), left)
}

/// Reads a reference type.
#[tactic(auto, unfolding(wac_component::specs::CoreTypes::reference_at))]
fn reference(bytes: &[u8]) -> Result<(CoreRefType, &[u8]), ReadFault>
    ensures { Gives (λ x. (x.0, x.1.now)) result (reference_at bytes.now) }
{
    match bytes {
        [0x70, rest @ ..] => Ok((CoreRefType::FuncRef, rest)),
        [0x6f, rest @ ..] => Ok((CoreRefType::ExternRef, rest)),
        [
            0x63 | 0x64 | 0x69 | 0x6a | 0x6b | 0x6c | 0x6d | 0x6e | 0x71 | 0x72 | 0x73 | 0x74,
            ..
        ] => { Err(unsupported(bytes.len())) }
        [] => Err(text_fault(TextFault::Short, 0)),
        [_, ..] => Err(text_fault(TextFault::UnknownByte, bytes.len())),
    }
}

/// Reads a core value type.
#[tactic(auto, unfolding(wac_component::specs::CoreTypes::core_value_at))]
pub fn core_value(bytes: &[u8]) -> Result<(CoreType, &[u8]), ReadFault>
    ensures { Gives (λ x. (x.0, x.1.now)) result (core_value_at bytes.now) }
{
    match bytes {
        [0x7f, rest @ ..] => Ok((CoreType::I32, rest)),
        [0x7e, rest @ ..] => Ok((CoreType::I64, rest)),
        [0x7d, rest @ ..] => Ok((CoreType::F32, rest)),
        [0x7c, rest @ ..] => Ok((CoreType::F64, rest)),
        [0x7b, rest @ ..] => Ok((CoreType::V128, rest)),
        [0x70, rest @ ..] => Ok((CoreType::Ref(CoreRefType::FuncRef), rest)),
        [0x6f, rest @ ..] => Ok((CoreType::Ref(CoreRefType::ExternRef), rest)),
        [
            0x63 | 0x64 | 0x69 | 0x6a | 0x6b | 0x6c | 0x6d | 0x6e | 0x71 | 0x72 | 0x73 | 0x74,
            ..
        ] => { Err(unsupported(bytes.len())) }
        [] => Err(text_fault(TextFault::Short, 0)),
        [_, ..] => Err(text_fault(TextFault::UnknownByte, bytes.len())),
    }
}

/// Reads a core value type that is an integer type.
pub fn integer(bytes: &[u8]) -> Result<(CoreType, &[u8]), ReadFault>
    ensures { Gives (λ x. (x.0, x.1.now)) result (integer_at bytes.now) }
{
    match bytes {
        [0x7f, rest @ ..] => Ok((CoreType::I32, rest)),
        [0x7e, rest @ ..] => Ok((CoreType::I64, rest)),
        [] => Err(text_fault(TextFault::Short, 0)),
        [_, ..] => Err(text_fault(TextFault::UnknownByte, bytes.len())),
    }
}

/// Returns whether a flag is set.
fn has(flags: u8, weight: u8) -> bool
    requires { 1 ≤ weight }
    ensures { result ≡ has_flag flags weight }
{
    flags / weight % 2 == 1
}

/// Reads a number of 64 bits, if there is one.
fn number64_if(given: bool, bytes: &[u8]) -> Result<(Option<u64>, &[u8]), ReadFault>
    ensures { Gives (λ x. (x.0, x.1.now)) result (given_if given number64_at bytes.now) }
{
    if !given {
        return Ok((None, bytes));
    }
    let (n, rest) = number64(bytes)?;
    Ok((Some(n), rest))
}

/// Reads a number of 32 bits, if there is one.
fn number_if(given: bool, bytes: &[u8]) -> Result<(Option<u32>, &[u8]), ReadFault>
    ensures { Gives (λ x. (x.0, x.1.now)) result (given_if given number_at bytes.now) }
{
    if !given {
        return Ok((None, bytes));
    }
    let (n, rest) = number(bytes)?;
    Ok((Some(n), rest))
}

/// Reads limits whose flags are below `bound`.
#[tactic(auto, unfolding(wac_component::specs::CoreTypes::limits_at))]
fn limits_below(bound: u8, bytes: &[u8]) -> Result<(Limits, &[u8]), ReadFault>
    ensures { Gives (λ x. (limits_of x.0, x.1.now)) result (limits_at bound bytes.now) }
{
    match bytes {
        [] => Err(text_fault(TextFault::Short, 0)),
        [flags, rest @ ..] => {
            let flags = *flags;
            if flags < bound {
                let (minimum, rest) = number64(rest)?;
                let (maximum, rest) = number64_if(has(flags, 1), rest)?;
                let (page, rest) = number_if(has(flags, 8), rest)?;
                let shared = has(flags, 2);
                let is64 = has(flags, 4);
                return Ok((
                    Limits {
                        shared,
                        is64,
                        minimum,
                        maximum,
                        page,
                    },
                    rest,
                ));
            }
            Err(text_fault(TextFault::UnknownByte, bytes.len()))
        }
    }
}

/// Reads the type of a table.
#[tactic(auto, unfolding(wac_component::specs::CoreTypes::table_at))]
fn table(bytes: &[u8]) -> Result<(TableType, &[u8]), ReadFault>
    ensures { Gives (λ x. (x.0, x.1.now)) result (table_at bytes.now) }
{
    let (element_type, rest) = reference(bytes)?;
    let (limits, rest) = limits_below(8, rest)?;
    let table = TableType {
        element_type,
        table64: limits.is64,
        minimum: limits.minimum,
        maximum: limits.maximum,
        shared: limits.shared,
    };
    Ok((table, rest))
}

/// Reads the type of a memory.
#[tactic(auto, unfolding(wac_component::specs::CoreTypes::memory_at))]
fn memory(bytes: &[u8]) -> Result<(MemoryType, &[u8]), ReadFault>
    ensures { Gives (λ x. (x.0, x.1.now)) result (memory_at bytes.now) }
{
    let (limits, rest) = limits_below(16, bytes)?;
    let memory = MemoryType {
        minimum: limits.minimum,
        maximum: limits.maximum,
        memory64: limits.is64,
        shared: limits.shared,
        page_size_log2: limits.page,
    };
    Ok((memory, rest))
}

/// Reads the type of a global.
#[tactic(auto, unfolding(wac_component::specs::CoreTypes::global_at))]
fn global(bytes: &[u8]) -> Result<(GlobalType, &[u8]), ReadFault>
    ensures { Gives (λ x. (x.0, x.1.now)) result (global_at bytes.now) }
{
    let (val_type, rest) = core_value(bytes)?;
    match rest {
        [0, rest @ ..] => Ok((
            GlobalType {
                val_type,
                mutable: false,
                shared: false,
            },
            rest,
        )),
        [1, rest @ ..] => Ok((
            GlobalType {
                val_type,
                mutable: true,
                shared: false,
            },
            rest,
        )),
        [2, rest @ ..] => Ok((
            GlobalType {
                val_type,
                mutable: false,
                shared: true,
            },
            rest,
        )),
        [3, rest @ ..] => Ok((
            GlobalType {
                val_type,
                mutable: true,
                shared: true,
            },
            rest,
        )),
        [] => Err(text_fault(TextFault::Short, 0)),
        [_, ..] => Err(text_fault(TextFault::UnknownByte, rest.len())),
    }
}

/// Reads the type of an import or export of a core module.
#[tactic(auto, unfolding(wac_component::specs::CoreTypes::entity_at))]
pub fn entity(bytes: &[u8]) -> Result<(EntityType, &[u8]), ReadFault>
    ensures { Gives (λ x. (x.0, x.1.now)) result (entity_at bytes.now) }
{
    match bytes {
        [0, rest @ ..] => {
            let (index, rest) = number(rest)?;
            Ok((EntityType::Function(index), rest))
        }
        [1, rest @ ..] => {
            let (table, rest) = table(rest)?;
            Ok((EntityType::Table(table), rest))
        }
        [2, rest @ ..] => {
            let (memory, rest) = memory(rest)?;
            Ok((EntityType::Memory(memory), rest))
        }
        [3, rest @ ..] => {
            let (global, rest) = global(rest)?;
            Ok((EntityType::Global(global), rest))
        }
        [4, 0, rest @ ..] => {
            let (index, rest) = number(rest)?;
            Ok((EntityType::Tag(index), rest))
        }
        [0x20, ..] => Err(unsupported(bytes.len())),
        [] => Err(text_fault(TextFault::Short, 0)),
        [4] => Err(text_fault(TextFault::Short, 0)),
        [4, rest @ ..] => Err(text_fault(TextFault::UnknownByte, rest.len())),
        [_, ..] => Err(text_fault(TextFault::UnknownByte, bytes.len())),
    }
}
