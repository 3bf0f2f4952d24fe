//! Sorts, aliases and descriptions.

ghost use Rattle.std.specs.Prelude.{◌≡◌, Ok};
ghost use Rattle.wac_component.specs.Types.{core_sort_at, any_sort_at, of_component, sort_at, export_alias_at, core_export_alias_at, outer_alias_at, alias_at, in_type, alias_in_type_at, description_at};
ghost use Rattle.wac_component.specs.Views.{alias_of};
ghost use Rattle.wac_component.specs.CoreViews.{core_sort_of, any_alias_of};
ghost use Rattle.wac_reader_parts.specs.private.Gives.{Gives};
ghost use Rattle.wac_reader_parts.specs.private.Sorts.{any_sort_of};

use crate::bytes::{name, number, text_fault};
use crate::fault::ReadFault;
use wac_binary::{Description, Sort};
use wac_component::{Alias, AnyAlias, CoreSort, Feature, TextFault};

/// A sort of a component, or a core sort.
#[derive(Clone, Copy)]
pub enum AnySort {
    /// A sort of a component.
    Component(Sort),
    /// A core sort.
    Core(CoreSort),
}

/// Reads a core sort.
#[tactic(auto, unfolding(wac_component::specs::Types::core_sort_at))]
pub fn core_sort(bytes: &[u8]) -> Result<(CoreSort, &[u8]), ReadFault>
    ensures { Gives (λ x. (core_sort_of x.0, x.1.now)) result (core_sort_at bytes.now) }
{
    match bytes {
        [0, rest @ ..] => Ok((CoreSort::Func, rest)),
        [1, rest @ ..] => Ok((CoreSort::Table, rest)),
        [2, rest @ ..] => Ok((CoreSort::Memory, rest)),
        [3, rest @ ..] => Ok((CoreSort::Global, rest)),
        [4, rest @ ..] => Ok((CoreSort::Tag, rest)),
        [0x10, rest @ ..] => Ok((CoreSort::Type, rest)),
        [0x11, rest @ ..] => Ok((CoreSort::Module, rest)),
        [0x12, rest @ ..] => Ok((CoreSort::Instance, rest)),
        [] => Err(text_fault(TextFault::Short, 0)),
        [_, ..] => Err(text_fault(TextFault::UnknownByte, bytes.len())),
    }
}

/// Reads a sort, which may be a core sort.
#[tactic(auto, unfolding(wac_component::specs::Types::any_sort_at))]
fn any_sort(bytes: &[u8]) -> Result<(AnySort, &[u8]), ReadFault>
    ensures { Gives (λ x. (any_sort_of x.0, x.1.now)) result (any_sort_at bytes.now) }
{
    match bytes {
        [0, rest @ ..] => {
            let (sort, rest) = core_sort(rest)?;
            Ok((AnySort::Core(sort), rest))
        }
        [1, rest @ ..] => Ok((AnySort::Component(Sort::Func), rest)),
        [2, rest @ ..] => Ok((AnySort::Component(Sort::Value), rest)),
        [3, rest @ ..] => Ok((AnySort::Component(Sort::Type), rest)),
        [4, rest @ ..] => Ok((AnySort::Component(Sort::Component), rest)),
        [5, rest @ ..] => Ok((AnySort::Component(Sort::Instance), rest)),
        [] => Err(text_fault(TextFault::Short, 0)),
        [_, ..] => Err(text_fault(TextFault::UnknownByte, bytes.len())),
    }
}

/// Returns the sort in a component of what has this sort. A fault has `left` bytes.
fn in_component(sort: AnySort, left: usize, bytes: &[u8]) -> Result<(Sort, &[u8]), ReadFault>
    ensures { Gives (λ x. (x.0, x.1.now)) result (of_component (any_sort_of sort) bytes.now) }
{
    match sort {
        AnySort::Component(sort) => Ok((sort, bytes)),
        AnySort::Core(CoreSort::Module) => Ok((Sort::CoreModule, bytes)),
        AnySort::Core(_) => Err(text_fault(TextFault::Misplaced, left)),
    }
}

/// Reads a sort of an argument or an export.
#[tactic(auto, unfolding(wac_component::specs::Types::sort_at))]
pub fn sort(bytes: &[u8]) -> Result<(Sort, &[u8]), ReadFault>
    ensures { Gives (λ x. (x.0, x.1.now)) result (sort_at bytes.now) }
{
    let (sort, rest) = any_sort(bytes)?;
    in_component(sort, bytes.len(), rest)
}

/// Reads an alias of an instance's export. A fault of its sort has `left` bytes.
fn export_alias(
    sort: AnySort,
    left: usize,
    bytes: &[u8],
) -> Result<(AnyAlias<'_>, &[u8]), ReadFault>
    ensures { Gives (λ x. (any_alias_of x.0, x.1.now)) result (export_alias_at (any_sort_of sort) bytes.now) }
{
    let (sort, rest) = in_component(sort, left, bytes)?;
    let (instance, rest) = number(rest)?;
    let (name, rest) = name(rest)?;
    let alias = Alias::Export {
        sort,
        instance,
        name,
    };
    Ok((AnyAlias::Component(alias), rest))
}

/// Reads an alias of a core instance's export. A fault of its sort has `left` bytes.
fn core_export_alias(
    sort: AnySort,
    left: usize,
    bytes: &[u8],
) -> Result<(AnyAlias<'_>, &[u8]), ReadFault>
    ensures { Gives (λ x. (any_alias_of x.0, x.1.now)) result (core_export_alias_at (any_sort_of sort) bytes.now) }
{
    match sort {
        AnySort::Core(sort) => {
            let (instance, rest) = number(bytes)?;
            let (name, rest) = name(rest)?;
            Ok((
                AnyAlias::CoreExport {
                    sort,
                    instance,
                    name,
                },
                rest,
            ))
        }
        AnySort::Component(_) => Err(text_fault(TextFault::Misplaced, left)),
    }
}

/// Reads an outer alias. A fault of its sort has `left` bytes.
fn outer_alias(sort: AnySort, left: usize, bytes: &[u8]) -> Result<(AnyAlias<'_>, &[u8]), ReadFault>
    ensures { Gives (λ x. (any_alias_of x.0, x.1.now)) result (outer_alias_at (any_sort_of sort) bytes.now) }
{
    if let AnySort::Core(CoreSort::Type) = sort {
        let (count, rest) = number(bytes)?;
        let (index, rest) = number(rest)?;
        return Ok((AnyAlias::OuterCoreType { count, index }, rest));
    }
    let (sort, rest) = in_component(sort, left, bytes)?;
    let (count, rest) = number(rest)?;
    let (index, rest) = number(rest)?;
    let alias = Alias::Outer { sort, count, index };
    Ok((AnyAlias::Component(alias), rest))
}

/// Reads an alias in a component.
#[inline(always)]
#[tactic(auto, unfolding(wac_component::specs::Types::alias_at))]
pub fn alias(bytes: &[u8]) -> Result<(AnyAlias<'_>, &[u8]), ReadFault>
    ensures { Gives (λ x. (any_alias_of x.0, x.1.now)) result (alias_at bytes.now) }
{
    let (sort, rest) = any_sort(bytes)?;
    match rest {
        [0, rest @ ..] => export_alias(sort, bytes.len(), rest),
        [1, rest @ ..] => core_export_alias(sort, bytes.len(), rest),
        [2, rest @ ..] => outer_alias(sort, bytes.len(), rest),
        [] => Err(text_fault(TextFault::Short, 0)),
        [_, ..] => Err(text_fault(TextFault::UnknownByte, rest.len())),
    }
}

/// Reads an alias in a type.
#[inline(always)]
#[tactic(auto, unfolding(wac_component::specs::Types::alias_in_type_at))]
pub fn alias_in_type(bytes: &[u8]) -> Result<(Alias<'_>, &[u8]), ReadFault>
    ensures { Gives (λ x. (alias_of x.0, x.1.now)) result (alias_in_type_at bytes.now) }
{
    let (alias, rest) = alias(bytes)?;
    match alias {
        AnyAlias::Component(alias) => Ok((alias, rest)),
        AnyAlias::OuterCoreType { .. } => {
            Err(text_fault(TextFault::Unsupported(Feature::CoreType), bytes.len()))
        }
        AnyAlias::CoreExport { .. } => Err(text_fault(TextFault::Misplaced, bytes.len())),
    }
}

/// Reads the description of an import or export.
#[inline(always)]
#[tactic(auto, unfolding(wac_component::specs::Types::description_at))]
pub fn description(bytes: &[u8]) -> Result<(Description, &[u8]), ReadFault>
    ensures { Gives (λ x. (x.0, x.1.now)) result (description_at bytes.now) }
{
    match bytes {
        [0, 0x11, rest @ ..] => {
            let (index, rest) = number(rest)?;
            Ok((Description::CoreModule(index), rest))
        }
        [1, rest @ ..] => {
            let (index, rest) = number(rest)?;
            Ok((Description::Func(index), rest))
        }
        [2, ..] => Err(text_fault(TextFault::Unsupported(Feature::Values), bytes.len())),
        [3, 0, rest @ ..] => {
            let (index, rest) = number(rest)?;
            Ok((Description::Equal(index), rest))
        }
        [3, 1, rest @ ..] => Ok((Description::Fresh, rest)),
        [4, rest @ ..] => {
            let (index, rest) = number(rest)?;
            Ok((Description::Component(index), rest))
        }
        [5, rest @ ..] => {
            let (index, rest) = number(rest)?;
            Ok((Description::Instance(index), rest))
        }
        [] => Err(text_fault(TextFault::Short, 0)),
        [0] => Err(text_fault(TextFault::Short, 0)),
        [3] => Err(text_fault(TextFault::Short, 0)),
        [0 | 3, rest @ ..] => Err(text_fault(TextFault::UnknownByte, rest.len())),
        [_, ..] => Err(text_fault(TextFault::UnknownByte, bytes.len())),
    }
}
