//! Shapes of definitions, as parts of keys.
ghost use Rattle.std.specs.Prelude.{◌≡◌, IfOk, fold, map, flat_map, string_bytes};
ghost use Rattle.wac_merge_tables.specs.private.made.ShapeHash.{optional_writes, shape_alike, shape_writes, value_writes};
ghost use Rattle.wac_merge_tables.specs.made.Shapes.{pairs, shape_view};

use std::alloc::{AllocError, Global};
use std::hash::{Hash, Hasher};
use wac_types_collection::{DefinedType, Labels, Named, ValueType};

/// A definition that owns its names and can be hashed.
#[derive(PartialEq, Eq, Drop)]
pub enum Shape {
    /// A tuple.
    Tuple(Vec<ValueType>),
    /// A list.
    List(ValueType),
    /// A list of fixed length.
    FixedSizeList(ValueType, u32),
    /// An option.
    Option(ValueType),
    /// A result with its `ok` and `err` types.
    Result(Option<ValueType>, Option<ValueType>),
    /// A variant with its cases.
    Variant(Vec<(String, Option<ValueType>)>),
    /// A record with its fields.
    Record(Vec<(String, ValueType)>),
    /// Flags.
    Flags(Vec<String>),
    /// An enum.
    Enum(Vec<String>),
    /// An alias of a value type.
    Alias(ValueType),
    /// A stream.
    Stream(Option<ValueType>),
    /// A future.
    Future(Option<ValueType>),
}

// Only the parts are hashed, without the variant: a list or an option is a single write.
impl Hash for Shape {
    ghost hash_input = { shape_writes };

    ghost respects_eq = { λ a b e. shape_alike a b e };

    fn hash<H: Hasher>(&self, state: &mut H) {
        match self {
            Shape::Tuple(parts) => hash_values(parts, state),
            Shape::List(value) => hash_value(*value, state),
            Shape::FixedSizeList(value, _) => hash_value(*value, state),
            Shape::Option(value) => hash_value(*value, state),
            Shape::Result(ok, err) => {
                hash_optional(*ok, state);
                hash_optional(*err, state);
            }
            Shape::Variant(cases) => cases.hash(state),
            Shape::Record(fields) => fields.hash(state),
            Shape::Flags(names) => names.hash(state),
            Shape::Enum(names) => names.hash(state),
            Shape::Alias(value) => hash_value(*value, state),
            Shape::Stream(value) => hash_optional(*value, state),
            Shape::Future(value) => hash_optional(*value, state),
        }
    }
}

/// Hashes a primitive type, or only the id of a handle or definition, in one write.
fn hash_value<H: Hasher>(value: ValueType, state: &mut H)
    ensures { state.new ≡ fold H.write state.old (value_writes value) }
{
    match value {
        ValueType::Primitive(primitive) => primitive.hash(state),
        ValueType::Borrow(id) => id.0.hash(state),
        ValueType::Own(id) => id.0.hash(state),
        ValueType::Defined(id) => id.0.hash(state),
    }
}

/// Hashes a value type if there is one.
pub(crate) fn hash_optional<H: Hasher>(value: Option<ValueType>, state: &mut H)
    ensures { state.new ≡ fold H.write state.old (optional_writes value) }
{
    if let Some(value) = value {
        hash_value(value, state);
    }
}

/// Hashes value types in order.
pub(crate) fn hash_values<H: Hasher>(values: &[ValueType], state: &mut H)
    ensures { state.new ≡ fold H.write state.old (flat_map value_writes values.now) }
{
    for value in values {
        hash_value(*value, state);
    }
}

/// Copies names.
fn names(alloc: Global, labels: &Labels) -> Result<Vec<String>, AllocError>
    ensures { IfOk result (λ names. map string_bytes names.items ≡ labels.now) }
{
    let mut names = Vec::new(alloc);
    for i in 0..labels.len() {
        names.push(String::from_str(alloc, labels.name_at(i))?)?;
    }
    Ok(names)
}

/// Copies value types.
fn copied(alloc: Global, values: &[ValueType]) -> Result<Vec<ValueType>, AllocError>
    ensures { IfOk result (λ copy. copy.items ≡ values.now) }
{
    let mut copy = Vec::new(alloc);
    copy.extend_from_slice(values)?;
    Ok(copy)
}

/// Copies names and their values.
fn entries<V: Copy>(alloc: Global, named: &Named<V>) -> Result<Vec<(String, V)>, AllocError>
    ensures { IfOk result (λ entries. pairs entries.items ≡ named.now) }
{
    let mut entries = Vec::new(alloc);
    for i in 0..named.len() {
        let (name, value) = named.entry_at(i);
        entries.push((String::from_str(alloc, name)?, *value))?;
    }
    Ok(entries)
}

impl Shape {
    /// Returns the shape of a definition.
    ///
    /// # Errors
    /// - [`AllocError`] if out of memory.
    pub fn of(alloc: Global, definition: &DefinedType) -> Result<Shape, AllocError>
        ensures { IfOk result (λ s. shape_view s ≡ definition.now) }
    {
        let shape = match definition {
            DefinedType::Tuple(parts) => Shape::Tuple(copied(alloc, parts.as_slice())?),
            DefinedType::List(value) => Shape::List(*value),
            DefinedType::FixedSizeList(value, length) => Shape::FixedSizeList(*value, *length),
            DefinedType::Option(value) => Shape::Option(*value),
            DefinedType::Result { ok, err } => Shape::Result(*ok, *err),
            DefinedType::Variant(variant) => Shape::Variant(entries(alloc, &variant.cases)?),
            DefinedType::Record(record) => Shape::Record(entries(alloc, &record.fields)?),
            DefinedType::Flags(flags) => Shape::Flags(names(alloc, &flags.0)?),
            DefinedType::Enum(cases) => Shape::Enum(names(alloc, &cases.0)?),
            DefinedType::Alias(value) => Shape::Alias(*value),
            DefinedType::Stream(value) => Shape::Stream(*value),
            DefinedType::Future(value) => Shape::Future(*value),
        };
        Ok(shape)
    }
}
