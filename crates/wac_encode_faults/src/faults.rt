//! Faults and their order.
ghost use Rattle.std.specs.Prelude.{◌≡◌, true, if◌then◌else◌, Some, None};
ghost use Rattle.wac_types_collection.specs.collection.Collection.{holds_type};
ghost use Rattle.wac_encode_faults.specs.Faults.{fault_rank, import_fault as import_fault_of, definition_fault as definition_fault_of, unnamed as unnamed_of};
ghost use Rattle.wac_encode_faults.specs.private.Search.{lower_of};

use crate::fault::WriteFault;
use wac_types_collection::{ItemKind, Text, Type, Types};

/// What is to be done with an item.
#[derive(Clone, Copy, Debug, PartialEq, Eq)]
pub enum Role {
    /// The root imports it.
    Imported,
    /// Its type is defined.
    Defined,
}

/// The number of a fault.
fn rank(fault: WriteFault) -> usize
    ensures { result ≡ fault_rank fault }
{
    match fault {
        WriteFault::UnboundResource => 1,
        WriteFault::ModuleAsType => 2,
        WriteFault::UnnamedDefinition => 3,
        WriteFault::NestedItem => 4,
        WriteFault::ValueItem => 5,
        WriteFault::UnlistedDependency => 7,
        WriteFault::InterfaceTwice => 8,
        WriteFault::TypesUseEachOther => 9,
    }
}

/// The lower of two optional faults.
pub(crate) fn lower(first: Option<WriteFault>, second: Option<WriteFault>) -> Option<WriteFault>
    ensures { result ≡ lower_of first second }
{
    let Some(one) = first else {
        return second;
    };
    let Some(other) = second else {
        return first;
    };
    if rank(other) < rank(one) {
        second
    } else {
        first
    }
}

/// Returns the fault, if it is there.
pub(crate) fn fault_if(is_there: bool, fault: WriteFault) -> Option<WriteFault>
    ensures { result ≡ (if is_there then Some fault else None) }
{
    if is_there {
        return Some(fault);
    }
    None
}

/// Returns the fault that an item has as an import of the root.
pub(crate) fn import_fault(item: ItemKind) -> Option<WriteFault>
    ensures { result ≡ import_fault_of item }
{
    match item {
        ItemKind::TypeItem(Type::Module(_)) => Some(WriteFault::ModuleAsType),
        ItemKind::Value(_) => Some(WriteFault::ValueItem),
        _ => None,
    }
}

/// Returns the fault of a defined interface or world with this id.
fn unnamed(id: &Option<Text>) -> Option<WriteFault>
    ensures { result ≡ unnamed_of id.now }
{
    match id {
        Some(_) => None,
        None => Some(WriteFault::UnnamedDefinition),
    }
}

/// Returns the fault that a type of the collection has as a definition.
pub(crate) fn definition_fault(types: &Types, ty: Type) -> Option<WriteFault>
    requires { holds_type types.now ty ≡ true }
    ensures { result ≡ definition_fault_of types.now ty }
{
    match ty {
        Type::Interface(id) => unnamed(&types[id].id),
        Type::World(id) => unnamed(&types[id].id),
        Type::Module(_) => Some(WriteFault::ModuleAsType),
        _ => None,
    }
}
