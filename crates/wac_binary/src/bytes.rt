//! Appends the parts of items to a buffer: numbers, texts, value types, sorts, descriptions, aliases, arguments.

pub mod put;
