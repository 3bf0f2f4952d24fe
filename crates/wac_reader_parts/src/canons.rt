//! Canonical functions.

ghost use Rattle.std.specs.Prelude.{◌≡◌, ◌∷◌, [], Ok, map, option_map};
ghost use Rattle.wac_component.specs.Parts.{CanonOption as CanonOptionValue, lift, lower};
ghost use Rattle.wac_component.specs.Reader.{made2, made3, one_of, each_at};
ghost use Rattle.wac_component.specs.Numbers.{number_at};
ghost use Rattle.wac_component.specs.Canons.{option_at, options_at, canon_at};
ghost use Rattle.wac_component.specs.CoreViews.{option_of, operand_of, canon_of};
ghost use Rattle.wac_reader_parts.specs.private.Gives.{Gives};
ghost use Rattle.wac_reader_parts.specs.private.Canons.{reader_of, kinds_in, listed, builtin_at};

use crate::bytes::{Read, byte, flag, number, text_fault, vector};
use crate::entities::integer;
use crate::fault::ReadFault;
use crate::types::outcome;
use std::alloc::Global;
use wac_component::{Canon, CanonOption, Feature, Operand, TextFault};

/// What an operand of a built-in is.
#[derive(Clone, Copy)]
pub enum OperandKind {
    /// A type index.
    Type,
    /// A core type index.
    CoreType,
    /// A core table index.
    Table,
    /// A core memory index.
    Memory,
    /// A flag.
    Flag,
    /// The result of a function.
    Result,
    /// A slot of `context.get` and `context.set`.
    Slot,
    /// Options.
    Options,
}

/// Reads an option of a canonical function.
#[tactic(auto, unfolding(wac_component::specs::Canons::option_at))]
fn canon_option(bytes: &[u8]) -> Result<(CanonOption, &[u8]), ReadFault>
    ensures { Gives (λ x. (option_of x.0, x.1.now)) result (option_at bytes.now) }
{
    match bytes {
        [0, rest @ ..] => Ok((CanonOption::Utf8, rest)),
        [1, rest @ ..] => Ok((CanonOption::Utf16, rest)),
        [2, rest @ ..] => Ok((CanonOption::Latin1Utf16, rest)),
        [3, rest @ ..] => {
            let (index, rest) = number(rest)?;
            Ok((CanonOption::Memory(index), rest))
        }
        [4, rest @ ..] => {
            let (index, rest) = number(rest)?;
            Ok((CanonOption::Realloc(index), rest))
        }
        [5, rest @ ..] => {
            let (index, rest) = number(rest)?;
            Ok((CanonOption::PostReturn(index), rest))
        }
        [6, rest @ ..] => Ok((CanonOption::Async, rest)),
        [7, rest @ ..] => {
            let (index, rest) = number(rest)?;
            Ok((CanonOption::Callback(index), rest))
        }
        [8, rest @ ..] => {
            let (index, rest) = number(rest)?;
            Ok((CanonOption::CoreType(index), rest))
        }
        [9, rest @ ..] => Ok((CanonOption::Gc, rest)),
        [] => Err(text_fault(TextFault::Short, 0)),
        [_, ..] => Err(text_fault(TextFault::UnknownByte, bytes.len())),
    }
}

impl<'a> Read<'a> for CanonOption {
    ghost Value = { CanonOptionValue };

    ghost value = { option_of };

    ghost reader = { option_at };

    fn read(_alloc: Global, bytes: &'a [u8]) -> Result<(CanonOption, &'a [u8]), ReadFault> {
        canon_option(bytes)
    }
}

/// Reads options.
#[tactic(auto, unfolding(wac_component::specs::Canons::options_at))]
fn canon_options(alloc: Global, bytes: &[u8]) -> Result<(Vec<CanonOption>, &[u8]), ReadFault>
    ensures { Gives (λ x. (map option_of x.0.items, x.1.now)) result (options_at bytes.now) }
{
    vector::<CanonOption>(alloc, bytes)
}

/// The operands of each built-in, by its opcode.
static BUILTINS: [(u8, &[OperandKind]); 45] = [
    // resource.new, resource.drop, resource.rep, resource.drop async
    (0x02, &[OperandKind::Type]),
    (0x03, &[OperandKind::Type]),
    (0x04, &[OperandKind::Type]),
    (0x07, &[OperandKind::Type]),
    // task.cancel, task.return
    (0x05, &[]),
    (0x09, &[OperandKind::Result, OperandKind::Options]),
    // subtask.cancel, subtask.drop
    (0x06, &[OperandKind::Flag]),
    (0x0d, &[]),
    // backpressure.set, backpressure.inc, backpressure.dec
    (0x08, &[]),
    (0x24, &[]),
    (0x25, &[]),
    // context.get, context.set
    (0x0a, &[OperandKind::Slot]),
    (0x0b, &[OperandKind::Slot]),
    // stream.new, stream.read, stream.write, stream.cancel-read, stream.cancel-write, stream.drop-readable,
    // stream.drop-writable
    (0x0e, &[OperandKind::Type]),
    (0x0f, &[OperandKind::Type, OperandKind::Options]),
    (0x10, &[OperandKind::Type, OperandKind::Options]),
    (0x11, &[OperandKind::Type, OperandKind::Flag]),
    (0x12, &[OperandKind::Type, OperandKind::Flag]),
    (0x13, &[OperandKind::Type]),
    (0x14, &[OperandKind::Type]),
    // future.new, future.read, future.write, future.cancel-read, future.cancel-write, future.drop-readable,
    // future.drop-writable
    (0x15, &[OperandKind::Type]),
    (0x16, &[OperandKind::Type, OperandKind::Options]),
    (0x17, &[OperandKind::Type, OperandKind::Options]),
    (0x18, &[OperandKind::Type, OperandKind::Flag]),
    (0x19, &[OperandKind::Type, OperandKind::Flag]),
    (0x1a, &[OperandKind::Type]),
    (0x1b, &[OperandKind::Type]),
    // error-context.new, error-context.debug-message, error-context.drop
    (0x1c, &[OperandKind::Options]),
    (0x1d, &[OperandKind::Options]),
    (0x1e, &[]),
    // waitable-set.new, waitable-set.wait, waitable-set.poll, waitable-set.drop, waitable.join
    (0x1f, &[]),
    (0x20, &[OperandKind::Flag, OperandKind::Memory]),
    (0x21, &[OperandKind::Flag, OperandKind::Memory]),
    (0x22, &[]),
    (0x23, &[]),
    // thread.yield, thread.index, thread.new-indirect, thread.switch-to, thread.suspend, thread.resume-later,
    // thread.yield-to
    (0x0c, &[OperandKind::Flag]),
    (0x26, &[]),
    (0x27, &[OperandKind::CoreType, OperandKind::Table]),
    (0x28, &[OperandKind::Flag]),
    (0x29, &[OperandKind::Flag]),
    (0x2a, &[]),
    (0x2b, &[OperandKind::Flag]),
    // thread.spawn-ref, thread.spawn-indirect, thread.available-parallelism
    (0x40, &[OperandKind::Flag, OperandKind::CoreType]),
    (
        0x41,
        &[OperandKind::Flag, OperandKind::CoreType, OperandKind::Table],
    ),
    (0x42, &[OperandKind::Flag]),
];

/// Returns the operands of an opcode in a table.
fn find<'a>(table: &[(u8, &'a [OperandKind])], opcode: u8) -> Option<&'a [OperandKind]>
    ensures { option_map (λ kinds. kinds.now) result ≡ kinds_in table.now opcode }
{
    for (listed, kinds) in table {
        if *listed == opcode {
            return Some(kinds);
        }
    }
    None
}

/// Returns the operands of a built-in, or `None` if there is none of this opcode.
#[tactic(auto, unfolding(crate::specs::private::Canons::listed))]
fn operands_of(opcode: u8) -> Option<&'static [OperandKind]>
    ensures { option_map (λ kinds. map reader_of kinds.now) result ≡ listed opcode }
{
    find(&BUILTINS, opcode)
}

/// Reads an operand.
fn operand(alloc: Global, kind: OperandKind, bytes: &[u8]) -> Result<(Operand, &[u8]), ReadFault>
    ensures { Gives (λ x. (operand_of x.0, x.1.now)) result (reader_of kind bytes.now) }
{
    match kind {
        OperandKind::Type => {
            let (index, rest) = number(bytes)?;
            Ok((Operand::Type(index), rest))
        }
        OperandKind::CoreType => {
            let (index, rest) = number(bytes)?;
            Ok((Operand::CoreType(index), rest))
        }
        OperandKind::Table => {
            let (index, rest) = number(bytes)?;
            Ok((Operand::Table(index), rest))
        }
        OperandKind::Memory => {
            let (index, rest) = number(bytes)?;
            Ok((Operand::Memory(index), rest))
        }
        OperandKind::Flag => {
            let (flag, rest) = flag(bytes)?;
            Ok((Operand::Flag(flag), rest))
        }
        OperandKind::Result => {
            let (outcome, rest) = outcome(bytes)?;
            Ok((Operand::Result(outcome), rest))
        }
        OperandKind::Slot => {
            let (slot_type, rest) = integer(bytes)?;
            let (index, rest) = number(rest)?;
            Ok((Operand::Slot(slot_type, index), rest))
        }
        OperandKind::Options => {
            let (options, rest) = canon_options(alloc, bytes)?;
            Ok((Operand::Options(options), rest))
        }
    }
}

/// Reads operands of these kinds.
fn operands<'a>(
    alloc: Global,
    kinds: &[OperandKind],
    bytes: &'a [u8],
) -> Result<(Vec<Operand>, &'a [u8]), ReadFault>
    ensures { Gives (λ x. (map operand_of x.0.items, x.1.now)) result (each_at (map reader_of kinds.now) bytes.now) }
{
    let mut operands = Vec::new(alloc);
    let mut rest = bytes;
    for kind in kinds {
        let (operand, next) = operand(alloc, *kind, rest)?;
        operands.push(operand)?;
        rest = next;
    }
    Ok((operands, rest))
}

/// Reads a built-in after its opcode. A fault of the opcode has `left` bytes.
fn builtin(
    alloc: Global,
    opcode: u8,
    left: usize,
    bytes: &[u8],
) -> Result<(Canon, &[u8]), ReadFault>
    ensures { Gives (λ x. (canon_of x.0, x.1.now)) result (builtin_at opcode bytes.now) }
{
    match operands_of(opcode) {
        None => Err(text_fault(TextFault::Unsupported(Feature::CanonicalFunction), left)),
        Some(kinds) => {
            let (operands, rest) = operands(alloc, kinds, bytes)?;
            Ok((Canon::Builtin { opcode, operands }, rest))
        }
    }
}

/// Reads a lifted function after its first byte.
fn lifted(alloc: Global, bytes: &[u8]) -> Result<(Canon, &[u8]), ReadFault>
    ensures { Gives (λ x. (canon_of x.0, x.1.now)) result (one_of ((0, made3 lift number_at options_at number_at) ∷ []) bytes.now) }
{
    match bytes {
        [0, rest @ ..] => {
            let (function, rest) = number(rest)?;
            let (options, rest) = canon_options(alloc, rest)?;
            let (type_index, rest) = number(rest)?;
            Ok((
                Canon::Lift {
                    function,
                    options,
                    type_index,
                },
                rest,
            ))
        }
        [] => Err(text_fault(TextFault::Short, 0)),
        [_, ..] => Err(text_fault(TextFault::UnknownByte, bytes.len())),
    }
}

/// Reads a lowered function after its first byte.
fn lowered(alloc: Global, bytes: &[u8]) -> Result<(Canon, &[u8]), ReadFault>
    ensures { Gives (λ x. (canon_of x.0, x.1.now)) result (one_of ((0, made2 lower number_at options_at) ∷ []) bytes.now) }
{
    match bytes {
        [0, rest @ ..] => {
            let (function, rest) = number(rest)?;
            let (options, rest) = canon_options(alloc, rest)?;
            Ok((Canon::Lower { function, options }, rest))
        }
        [] => Err(text_fault(TextFault::Short, 0)),
        [_, ..] => Err(text_fault(TextFault::UnknownByte, bytes.len())),
    }
}

/// Reads a canonical function.
#[tactic(auto, unfolding(wac_component::specs::Canons::canon_at))]
pub fn canon(alloc: Global, bytes: &[u8]) -> Result<(Canon, &[u8]), ReadFault>
    ensures { Gives (λ x. (canon_of x.0, x.1.now)) result (canon_at bytes.now) }
{
    let (opcode, rest) = byte(bytes)?;
    match opcode {
        0 => lifted(alloc, rest),
        1 => lowered(alloc, rest),
        _ => builtin(alloc, opcode, bytes.len(), rest),
    }
}
