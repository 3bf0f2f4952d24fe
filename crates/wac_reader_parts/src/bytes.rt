//! Numbers, names, vectors and optional parts.

ghost use Rattle.std.specs.Prelude.{◌≡◌, ℕ, ◌≤◌, ◌<◌, ◌^◌, [], IfOk, Ok, map, option_map};
ghost use Rattle.wac_types_shapes.specs.primitives.Name.{Name};
ghost use Rattle.wac_component.specs.Reader.{Reader, byte as byte_at, all_at};
ghost use Rattle.wac_component.specs.Numbers.{leb_at, number_at, number64_at, signed_at, sized_at, name_at, extern_name_at, vector_at, optional_at, flag_at};
ghost use Rattle.wac_reader_parts.specs.private.Gives.{Gives, bound};

use crate::fault::ReadFault;
use std::alloc::{AllocError, Global};
use wac_component::{Feature, TextFault};

/// Returns the fault of an item or field that has this many bytes from its first byte to the end.
pub fn text_fault(fault: TextFault, left: usize) -> ReadFault
    ensures { result ≡ ReadFault.Text fault left }
{
    ReadFault::Text { fault, left }
}

/// Reads a byte.
pub fn byte(bytes: &[u8]) -> Result<(u8, &[u8]), ReadFault>
    ensures { Gives (λ x. (x.0, x.1.now)) result (byte_at bytes.now) }
{
    match bytes {
        [] => Err(text_fault(TextFault::Short, 0)),
        [b, rest @ ..] => Ok((*b, rest)),
    }
}

/// Reads a number in LEB128 with at most `k` bytes before its last. A fault has `left` bytes.
#[tactic(auto, unfolding(wac_component::specs::Numbers::leb_at), using(crate::proofs::Bounds::bound_high, crate::proofs::Bounds::bound_down, crate::proofs::Passed::fails_after))]
fn leb_of(limit: u8, last: u8, k: u32, left: usize, bytes: &[u8]) -> Result<(u64, &[u8]), ReadFault>
    requires some { 1 ≤ last }
    requires fits { bound last k ≤ 2 ^ 64 }
    ensures read { Gives (λ x. (x.0, x.1.now)) result (leb_at limit last k bytes.now) }
    ensures small { IfOk result (λ x. x.0 < bound last k) }
{
    match bytes {
        [] => Err(text_fault(TextFault::Short, left)),
        [b, rest @ ..] => {
            if k == 0 {
                if *b < last {
                    return Ok((u64::from(*b), rest));
                }
                return Err(text_fault(TextFault::LongNumber, left));
            }
            if *b < 128 {
                if *b < limit {
                    return Ok((u64::from(*b), rest));
                }
                return Err(text_fault(TextFault::UnknownByte, left));
            }
            let (high, rest) = leb_of(limit, last, k - 1, left, rest)?;
            Ok((u64::from(*b % 128) + 128 * high, rest))
        }
    }
}

/// Reads a number of 32 bits that may have several bytes.
#[tactic(auto, unfolding(wac_component::specs::Numbers::number_at))]
fn long_number(bytes: &[u8]) -> Result<(u32, &[u8]), ReadFault>
    ensures { Gives (λ x. (x.0, x.1.now)) result (number_at bytes.now) }
{
    let (n, rest) = leb_of(128, 16, 4, bytes.len(), bytes)?;
    Ok((n as u32, rest))
}

/// Reads a number of 32 bits.
// Most numbers have one byte, which is read without a call.
#[inline(always)]
pub fn number(bytes: &[u8]) -> Result<(u32, &[u8]), ReadFault>
    ensures { Gives (λ x. (x.0, x.1.now)) result (number_at bytes.now) }
{
    let (b, rest) = byte(bytes)?;
    if b < 128 {
        return Ok((u32::from(b), rest));
    }
    long_number(bytes)
}

/// Reads a number of 64 bits.
#[tactic(auto, unfolding(wac_component::specs::Numbers::number64_at))]
pub fn number64(bytes: &[u8]) -> Result<(u64, &[u8]), ReadFault>
    ensures { Gives (λ x. (x.0, x.1.now)) result (number64_at bytes.now) }
{
    leb_of(128, 2, 9, bytes.len(), bytes)
}

/// Reads a signed number that may have several bytes.
#[tactic(auto, unfolding(wac_component::specs::Numbers::signed_at))]
fn long_signed(bytes: &[u8]) -> Result<(u32, &[u8]), ReadFault>
    ensures { Gives (λ x. (x.0, x.1.now)) result (signed_at bytes.now) }
{
    let (n, rest) = leb_of(64, 16, 4, bytes.len(), bytes)?;
    Ok((n as u32, rest))
}

/// Reads a type index, which is a signed number.
#[inline(always)]
pub fn signed(bytes: &[u8]) -> Result<(u32, &[u8]), ReadFault>
    ensures { Gives (λ x. (x.0, x.1.now)) result (signed_at bytes.now) }
{
    let (b, rest) = byte(bytes)?;
    if b < 64 {
        return Ok((u32::from(b), rest));
    }
    long_signed(bytes)
}

/// Reads a size, and the bytes of that size.
#[tactic(auto, unfolding(wac_component::specs::Numbers::sized_at, wac_component::specs::Numbers::bytes_at), using(crate::proofs::Passed::bytes_there, crate::proofs::Passed::bytes_short))]
pub fn sized(bytes: &[u8]) -> Result<(&[u8], &[u8]), ReadFault>
    ensures { Gives (λ x. (x.0.now, x.1.now)) result (sized_at bytes.now) }
{
    let (size, rest) = number(bytes)?;
    let size = size as usize;
    if rest.len() < size {
        return Err(text_fault(TextFault::Short, bytes.len()));
    }
    Ok(rest.split_at(size))
}

/// Reads a name.
#[tactic(auto, unfolding(wac_component::specs::Numbers::name_at))]
pub fn name(bytes: &[u8]) -> Result<(&str, &[u8]), ReadFault>
    ensures { Gives (λ x. (x.0.now, x.1.now)) result (name_at bytes.now) }
{
    let (text, rest) = sized(bytes)?;
    match str::from_utf8(text) {
        Ok(name) => Ok((name, rest)),
        Err(_) => Err(text_fault(TextFault::NotUtf8, bytes.len())),
    }
}

/// Reads the name of an import or export.
#[tactic(auto, unfolding(wac_component::specs::Numbers::extern_name_at))]
pub fn extern_name(bytes: &[u8]) -> Result<(&str, &[u8]), ReadFault>
    ensures { Gives (λ x. (x.0.now, x.1.now)) result (extern_name_at bytes.now) }
{
    match bytes {
        [0, rest @ ..] => name(rest),
        [1, rest @ ..] => name(rest),
        [] => Err(text_fault(TextFault::Short, 0)),
        [_, ..] => Err(text_fault(TextFault::Unsupported(Feature::NameForm), bytes.len())),
    }
}

/// Reads a flag.
#[tactic(auto, unfolding(wac_component::specs::Numbers::flag_at))]
pub fn flag(bytes: &[u8]) -> Result<(bool, &[u8]), ReadFault>
    ensures { Gives (λ x. (x.0, x.1.now)) result (flag_at bytes.now) }
{
    match bytes {
        [0, rest @ ..] => Ok((false, rest)),
        [1, rest @ ..] => Ok((true, rest)),
        [] => Err(text_fault(TextFault::Short, 0)),
        [_, ..] => Err(text_fault(TextFault::UnknownByte, bytes.len())),
    }
}

/// What is read from the front of bytes.
pub trait Read<'a>: Sized + Drop {
    ghost Value: { Type 0 };

    ghost value: { Self → Value };

    ghost reader: { Reader Value };

    /// Reads a value, and returns the bytes after it.
    fn read(alloc: Global, bytes: &'a [u8]) -> Result<(Self, &'a [u8]), ReadFault>
        ensures { Gives (λ x. (value x.0, x.1.now)) result (reader bytes.now) };
}

impl<'a> Read<'a> for u32 {
    ghost Value = { ℕ };

    ghost value = { λ n. n };

    ghost reader = { number_at };

    fn read(_alloc: Global, bytes: &'a [u8]) -> Result<(u32, &'a [u8]), ReadFault> {
        number(bytes)
    }
}

impl<'a> Read<'a> for &'a str {
    ghost Value = { Name };

    ghost value = { λ n. n.now };

    ghost reader = { name_at };

    fn read(_alloc: Global, bytes: &'a [u8]) -> Result<(&'a str, &'a [u8]), ReadFault> {
        name(bytes)
    }
}

/// The most elements for which a list has room before they are read. A count may be wrong.
const ROOM: usize = 64;

/// Makes a list for this many elements, which are to be read from the bytes. Each has a byte at least.
pub fn list_for<T: Drop>(alloc: Global, count: u32, bytes: &[u8]) -> Result<Vec<T>, AllocError>
    ensures { IfOk result (λ list. list.items ≡ []) }
{
    Vec::with_capacity(alloc, (count as usize).min(bytes.len()).min(ROOM))
}

/// Reads this many elements.
#[inline(always)]
fn elements<'a, T: Read<'a>>(
    alloc: Global,
    count: u32,
    bytes: &'a [u8],
) -> Result<(Vec<T>, &'a [u8]), ReadFault>
    ensures { Gives (λ x. (map T.value x.0.items, x.1.now)) result (all_at T.reader count bytes.now) }
{
    let mut elements = list_for(alloc, count, bytes)?;
    let mut rest = bytes;
    for _ in 0..count {
        let (element, next) = T::read(alloc, rest)?;
        elements.push(element)?;
        rest = next;
    }
    Ok((elements, rest))
}

/// Reads a vector.
#[inline(always)]
#[tactic(auto, unfolding(wac_component::specs::Numbers::vector_at))]
pub fn vector<'a, T: Read<'a>>(
    alloc: Global,
    bytes: &'a [u8],
) -> Result<(Vec<T>, &'a [u8]), ReadFault>
    ensures { Gives (λ x. (map T.value x.0.items, x.1.now)) result (vector_at T.reader bytes.now) }
{
    let (count, rest) = number(bytes)?;
    elements::<T>(alloc, count, rest)
}

/// Reads an optional part.
#[tactic(auto, unfolding(wac_component::specs::Numbers::optional_at))]
pub fn optional<'a, T: Read<'a>>(
    alloc: Global,
    bytes: &'a [u8],
) -> Result<(Option<T>, &'a [u8]), ReadFault>
    ensures { Gives (λ x. (option_map T.value x.0, x.1.now)) result (optional_at T.reader bytes.now) }
{
    match bytes {
        [0, rest @ ..] => Ok((None, rest)),
        [1, rest @ ..] => {
            let (part, rest) = T::read(alloc, rest)?;
            Ok((Some(part), rest))
        }
        [] => Err(text_fault(TextFault::Short, 0)),
        [_, ..] => Err(text_fault(TextFault::UnknownByte, bytes.len())),
    }
}

/// Reads an optional number.
#[tactic(auto, using(crate::proofs::Same::option_map_same))]
pub fn optional_number(alloc: Global, bytes: &[u8]) -> Result<(Option<u32>, &[u8]), ReadFault>
    ensures { Gives (λ x. (x.0, x.1.now)) result (optional_at number_at bytes.now) }
{
    optional::<u32>(alloc, bytes)
}
