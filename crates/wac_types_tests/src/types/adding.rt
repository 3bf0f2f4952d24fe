// Items that are added to a collection of types, as the rows of tables name them.
use crate::types::modules::{importing, memory};
use std::alloc::{AllocError, Global};
use wac_types::*;

/// The type bool.
pub const BOOL: ValueType = ValueType::Primitive(PrimitiveType::Bool);

/// The type of 32 bits.
pub const U32: ValueType = ValueType::Primitive(PrimitiveType::U32);

/// A used type: its name, the interface that has it, and its name there, where that is another.
pub type Use = (&'static str, InterfaceId, Option<&'static str>);

/// An item under its name.
pub type Named = (&'static str, ItemKind);

/// An item that is added. It mentions those before it by their ids, which count the items of each list.
#[derive(Clone, Copy)]
pub enum Adding {
    Resource(&'static str),
    ResourceAlias(&'static str, Option<InterfaceId>, ResourceId),
    Enum(&'static str),
    Alias(ValueType),
    List(ValueType),
    Tuple(&'static [ValueType]),
    Record(&'static [(&'static str, ValueType)]),
    Func(&'static [(&'static str, ValueType)], Option<ValueType>, bool),
    Interface(Option<&'static str>, &'static [Named]),
    User(&'static str, &'static [Use], &'static [Named]),
    World(Option<&'static str>, &'static [Named], &'static [Named]),
    WorldUser(&'static [Use], &'static [Named], &'static [Named]),
    // A core module that imports functions of these modules.
    Module(&'static [(&'static str, &'static str)]),
    // A core module that exports a memory of so many pages at least and at most, shared or not.
    Memory(u64, u64, bool),
}

/// Why an item is not added: memory was refused, a name is given twice, or the item is refused.
#[derive(Clone, Copy, PartialEq, Eq)]
pub enum Refusal {
    Memory,
    NameTwice,
    Item(AddTypeError),
}

impl From<AllocError> for Refusal {
    fn from(_error: AllocError) -> Refusal {
        Refusal::Memory
    }
}

impl From<ShapeError> for Refusal {
    fn from(error: ShapeError) -> Refusal {
        match error {
            ShapeError::OutOfMemory => Refusal::Memory,
            ShapeError::NameTwice => Refusal::NameTwice,
        }
    }
}

impl From<AddTypeError> for Refusal {
    fn from(error: AddTypeError) -> Refusal {
        match error {
            AddTypeError::OutOfMemory => Refusal::Memory,
            error => Refusal::Item(error),
        }
    }
}

fn add_listing(types: &mut Types, adding: Adding) -> Result<Type, Refusal> {
    let alloc = types.allocator();
    Ok(match adding {
        Adding::Interface(id, exports) => {
            Type::Interface(types.add_interface(Interface::new(alloc, id, exports)?)?)
        }
        Adding::User(id, uses, exports) => {
            let interface = Interface::with_uses(alloc, Some(id), uses, exports)?;
            Type::Interface(types.add_interface(interface)?)
        }
        Adding::World(id, imports, exports) => {
            Type::World(types.add_world(World::new(alloc, id, imports, exports)?)?)
        }
        Adding::WorldUser(uses, imports, exports) => {
            let world = World::with_uses(alloc, None, uses, imports, exports)?;
            Type::World(types.add_world(world)?)
        }
        Adding::Module(imports) => Type::Module(types.add_module_type(importing(alloc, imports)?)?),
        Adding::Memory(initial, maximum, shared) => {
            let module = memory(alloc, initial, maximum, shared)?;
            Type::Module(types.add_module_type(module)?)
        }
        _ => return Err(Refusal::Memory),
    })
}

fn definition(alloc: Global, adding: Adding) -> Result<DefinedType, Refusal> {
    Ok(match adding {
        Adding::Enum(case) => DefinedType::Enum(Enum::new(alloc, &[case])?),
        Adding::Alias(of) => DefinedType::Alias(of),
        Adding::List(of) => DefinedType::List(of),
        Adding::Tuple(of) => DefinedType::tuple(alloc, of)?,
        Adding::Record(fields) => DefinedType::Record(Record::new(alloc, fields)?),
        _ => return Err(Refusal::Memory),
    })
}

/// Adds an item, and answers its id.
pub fn add(types: &mut Types, adding: Adding) -> Result<Type, Refusal> {
    let alloc = types.allocator();
    match adding {
        Adding::Resource(name) => {
            Ok(Type::Resource(types.add_resource(Resource::new(alloc, name)?)?))
        }
        Adding::ResourceAlias(name, owner, source) => {
            let resource = Resource::alias(alloc, name, owner, source)?;
            Ok(Type::Resource(types.add_resource(resource)?))
        }
        Adding::Func(params, returned, is_async) => {
            let func = FuncType::new(alloc, params, returned, is_async)?;
            Ok(Type::Func(types.add_func_type(func)?))
        }
        Adding::Enum(_)
        | Adding::Alias(_)
        | Adding::List(_)
        | Adding::Tuple(_)
        | Adding::Record(_) => {
            let id = types.add_defined_type(definition(alloc, adding)?)?;
            Ok(Type::Value(ValueType::Defined(id)))
        }
        listing => add_listing(types, listing),
    }
}

/// Whether an item is added under this id. Where memory is refused, none of this id is held, and it is asked for once more.
pub fn adds(types: &mut Types, adding: Adding, ty: Type) -> bool {
    let mut answer = add(types, adding);
    if answer == Err(Refusal::Memory) {
        if types.contains(ty) {
            return false;
        }
        answer = add(types, adding);
    }
    answer == Ok(ty)
}
