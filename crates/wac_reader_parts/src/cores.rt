//! Core instances.

ghost use Rattle.std.specs.Prelude.{◌≡◌, ℕ, Ok};
ghost use Rattle.wac_types_shapes.specs.primitives.Name.{Name};
ghost use Rattle.wac_component.specs.Parts.{CoreSort as CoreSortValue, core_instantiate};
ghost use Rattle.wac_component.specs.Reader.{made2};
ghost use Rattle.wac_component.specs.Numbers.{number_at, vector_at};
ghost use Rattle.wac_component.specs.Reading.{core_argument_at, core_instance_at};
ghost use Rattle.wac_component.specs.CoreViews.{core_argument_of, core_export_of, core_instance_of};
ghost use Rattle.wac_reader_parts.specs.private.Gives.{Gives};
ghost use Rattle.wac_reader_parts.specs.private.Cores.{core_export_at, core_exports_at};

use crate::bytes::{Read, byte, name, number, text_fault, vector};
use crate::fault::ReadFault;
use crate::sorts::core_sort;
use std::alloc::Global;
use wac_component::{CoreArgument, CoreExport, CoreInstance, TextFault};

/// Reads an argument of a core instantiation.
#[tactic(auto, unfolding(wac_component::specs::Reading::core_argument_at))]
fn core_argument(bytes: &[u8]) -> Result<(CoreArgument<'_>, &[u8]), ReadFault>
    ensures { Gives (λ x. (core_argument_of x.0, x.1.now)) result (core_argument_at bytes.now) }
{
    let (name, rest) = name(bytes)?;
    match rest {
        [0x12, rest @ ..] => {
            let (instance, rest) = number(rest)?;
            Ok((CoreArgument { name, instance }, rest))
        }
        [] => Err(text_fault(TextFault::Short, 0)),
        [_, ..] => Err(text_fault(TextFault::UnknownByte, rest.len())),
    }
}

impl<'a> Read<'a> for CoreArgument<'a> {
    ghost Value = { Name × ℕ };

    ghost value = { core_argument_of };

    ghost reader = { core_argument_at };

    fn read(_alloc: Global, bytes: &'a [u8]) -> Result<(CoreArgument<'a>, &'a [u8]), ReadFault> {
        core_argument(bytes)
    }
}

/// Reads an export of a core instance.
#[tactic(auto, unfolding(crate::specs::private::Cores::core_export_at))]
fn core_export(bytes: &[u8]) -> Result<(CoreExport<'_>, &[u8]), ReadFault>
    ensures { Gives (λ x. (core_export_of x.0, x.1.now)) result (core_export_at bytes.now) }
{
    let (name, rest) = name(bytes)?;
    let (sort, rest) = core_sort(rest)?;
    let (index, rest) = number(rest)?;
    Ok((CoreExport { name, sort, index }, rest))
}

impl<'a> Read<'a> for CoreExport<'a> {
    ghost Value = { Name × CoreSortValue × ℕ };

    ghost value = { core_export_of };

    ghost reader = { core_export_at };

    fn read(_alloc: Global, bytes: &'a [u8]) -> Result<(CoreExport<'a>, &'a [u8]), ReadFault> {
        core_export(bytes)
    }
}

/// Reads an instance of a core module after its first byte.
fn core_instantiation(alloc: Global, bytes: &[u8]) -> Result<(CoreInstance<'_>, &[u8]), ReadFault>
    ensures { Gives (λ x. (core_instance_of x.0, x.1.now)) result (made2 core_instantiate number_at (vector_at core_argument_at) bytes.now) }
{
    let (core_module, rest) = number(bytes)?;
    let (arguments, rest) = vector::<CoreArgument>(alloc, rest)?;
    let instance = CoreInstance::Instantiate {
        core_module,
        arguments,
    };
    Ok((instance, rest))
}

/// Reads a core instance that is made of exports, after its first byte.
#[tactic(auto, unfolding(crate::specs::private::Cores::core_exports_at))]
fn core_exports(alloc: Global, bytes: &[u8]) -> Result<(CoreInstance<'_>, &[u8]), ReadFault>
    ensures { Gives (λ x. (core_instance_of x.0, x.1.now)) result (core_exports_at bytes.now) }
{
    let (exports, rest) = vector::<CoreExport>(alloc, bytes)?;
    Ok((CoreInstance::Exports(exports), rest))
}

/// Reads a core instance.
#[tactic(auto, unfolding(wac_component::specs::Reading::core_instance_at))]
pub fn core_instance(alloc: Global, bytes: &[u8]) -> Result<(CoreInstance<'_>, &[u8]), ReadFault>
    ensures { Gives (λ x. (core_instance_of x.0, x.1.now)) result (core_instance_at bytes.now) }
{
    let (first, rest) = byte(bytes)?;
    match first {
        0 => core_instantiation(alloc, rest),
        1 => core_exports(alloc, rest),
        _ => Err(text_fault(TextFault::UnknownByte, bytes.len())),
    }
}
