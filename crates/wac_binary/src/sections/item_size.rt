//! Sizes in bytes of items, known before anything is written.
ghost use Rattle.std.specs.Prelude.{◌≡◌, ◌+◌, ◌<◌, ◌^◌, length};
ghost use Rattle.wac_binary.specs.Bytes.{item_bytes};
ghost use Rattle.wac_binary.specs.Format.{ItemIsInFormat};
ghost use Rattle.wac_binary.specs.private.sections.ItemView.{item_of, alone_of};

use crate::declarations::size::{
    argument_size, arguments_size, bytes_size, index_size, named_size, text_size,
};
use crate::declarations::type_size::{alias_size, type_size};
use crate::sections::item::{AloneRef, ItemRef};

/// Returns the size of an item without the head of its section.
#[inline(always)]
pub fn item_size(item: &ItemRef<'_>) -> u128
    ensures is { result ≡ length (item_bytes (item_of item.now)) }
    ensures small { result < 2 ^ 127 + 2 ^ 103 }
    ensures in_format { ItemIsInFormat (item_of item.now) }
{
    match *item {
        ItemRef::CoreModule(t) => t.size(),
        ItemRef::Instance {
            component,
            arguments,
        } => 1 + index_size(component) + arguments_size(arguments),
        ItemRef::Alias(a) => alias_size(a),
        ItemRef::Type(t) => type_size(t),
        ItemRef::Import(name, d) => u128::from(named_size(name, d)),
        ItemRef::Export { name, sort, index } => 2 + argument_size(name, sort, index),
    }
}

/// Returns the size of an item that has a section of its own.
pub fn alone_item_size(item: &AloneRef<'_>) -> u128
    ensures is { result ≡ length (item_bytes (alone_of item.now)) }
    ensures in_format { ItemIsInFormat (alone_of item.now) }
{
    match *item {
        AloneRef::Component(bytes) => bytes_size(bytes),
        AloneRef::Custom { name, bytes } => text_size(name) + bytes_size(bytes),
    }
}
