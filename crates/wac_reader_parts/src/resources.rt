//! Resource types.

ghost use Rattle.std.specs.Prelude.{◌≡◌, Ok};
ghost use Rattle.wac_component.specs.declared.fault.TextFault.TheVariants.{UnknownByte};
ghost use Rattle.wac_component.specs.Reader.{fails, chosen};
ghost use Rattle.wac_component.specs.Reading.{resource_defs};
ghost use Rattle.wac_component.specs.CoreViews.{resource_of};
ghost use Rattle.wac_reader_parts.specs.private.Gives.{Gives};
ghost use Rattle.wac_reader_parts.specs.private.Resources.{plain_resource_at, async_resource_at};

use crate::bytes::{number, optional_number, text_fault};
use crate::entities::integer;
use crate::fault::ReadFault;
use std::alloc::Global;
use wac_component::{ResourceDef, TextFault};

/// Reads a resource type after its first byte.
fn plain_resource(alloc: Global, bytes: &[u8]) -> Result<(ResourceDef, &[u8]), ReadFault>
    ensures { Gives (λ x. (resource_of x.0, x.1.now)) result (plain_resource_at bytes.now) }
{
    let (representation, rest) = integer(bytes)?;
    let (destructor, rest) = optional_number(alloc, rest)?;
    let resource = ResourceDef::Plain {
        representation,
        destructor,
    };
    Ok((resource, rest))
}

/// Reads a resource type with an async destructor after its first byte.
fn async_resource(alloc: Global, bytes: &[u8]) -> Result<(ResourceDef, &[u8]), ReadFault>
    ensures { Gives (λ x. (resource_of x.0, x.1.now)) result (async_resource_at bytes.now) }
{
    let (representation, rest) = integer(bytes)?;
    let (destructor, rest) = number(rest)?;
    let (callback, rest) = optional_number(alloc, rest)?;
    let resource = ResourceDef::Async {
        representation,
        destructor,
        callback,
    };
    Ok((resource, rest))
}

/// Reads a resource type after its first byte. A fault of that byte has `left` bytes.
pub fn resource(
    alloc: Global,
    first: u8,
    left: usize,
    bytes: &[u8],
) -> Result<(ResourceDef, &[u8]), ReadFault>
    ensures { Gives (λ x. (resource_of x.0, x.1.now)) result (chosen (fails UnknownByte) resource_defs first bytes.now) }
{
    match first {
        0x3f => plain_resource(alloc, bytes),
        0x3e => async_resource(alloc, bytes),
        _ => Err(text_fault(TextFault::UnknownByte, left)),
    }
}
