//! The faults of what is to be written, and errors of the writers below.

ghost use Rattle.std.specs.Prelude.{◌≡◌, true, IfOk};
ghost use Rattle.wac_types_shapes.specs.shapes.Kinds.{kind_type};
ghost use Rattle.wac_types_collection.specs.collection.Bound.{Bindings};
ghost use Rattle.wac_types_collection.specs.collection.Collection.{holds_type};
ghost use Rattle.wac_encode_faults.specs.Faults.{HasFault, IsDefinitionFault, IsLowest};
ghost use Rattle.wac_encode.specs.Errors.{HasTypeFault};
ghost use Rattle.wac_encode.specs.Root.{IsStateFor};
ghost use Rattle.wac_encode.specs.private.Ready.{encode_fault, encode_result, item_of_type};

use crate::encoder::TypeEncoder;
use crate::state::State;
use std::alloc::AllocError;
use wac_binary::BinaryFault;
use wac_encode_faults::{EncodeFault, Role, WriteFault, lowest_fault};
use wac_types_collection::{ItemKind, Type};

/// Returns the error of a writer as one of a type encoder.
pub(crate) fn encode_fault(fault: BinaryFault) -> EncodeFault
    ensures { result ≡ encode_fault fault }
{
    match fault {
        BinaryFault::TooLarge => EncodeFault::TooLarge,
        BinaryFault::OutOfMemory => EncodeFault::OutOfMemory,
    }
}

/// Returns the result of a writer as one of a type encoder.
pub(crate) fn encode_result<T: Drop>(written: Result<T, BinaryFault>) -> Result<T, EncodeFault>
    ensures { result ≡ encode_result written }
{
    match written {
        Ok(value) => Ok(value),
        Err(fault) => Err(encode_fault(fault)),
    }
}

/// Returns the item that has the faults of a type that is written as it is, as an import.
fn item_of_type(ty: Type) -> ItemKind
    ensures { result ≡ item_of_type ty }
{
    match ty {
        Type::Module(id) => ItemKind::Module(id),
        _ => ItemKind::TypeItem(ty),
    }
}

impl<'a> TypeEncoder<'a> {
    /// Returns the lowest fault that an item has in its role, if it has one.
    fn find_fault(
        &self,
        state: &State,
        role: Role,
        item: ItemKind,
    ) -> Result<Option<WriteFault>, AllocError>
        requires { holds_type self.now.types.now (kind_type item) ≡ true }
        ensures { IfOk result (λ o. (m : Bindings) → IsStateFor self.now.types.now self.now.merged m state.now → IsLowest (HasFault self.now.types.now m role item) o) }
    {
        let bound = state.resources(self.types, self.merged, true)?;
        lowest_fault(self.types, &bound, role, item)
    }

    /// Returns the lowest fault of a type that is written as it is, if it has one.
    pub(crate) fn type_fault(
        &self,
        state: &State,
        ty: Type,
    ) -> Result<Option<WriteFault>, AllocError>
        requires { holds_type self.now.types.now ty ≡ true }
        ensures { IfOk result (λ o. (m : Bindings) → IsStateFor self.now.types.now self.now.merged m state.now → IsLowest (HasTypeFault self.now.types.now m ty) o) }
    {
        let item = item_of_type(ty);
        self.find_fault(state, Role::Imported, item)
    }

    /// Returns the lowest fault of the definition of a type, if it has one.
    pub(crate) fn definition_fault(
        &self,
        state: &State,
        ty: Type,
    ) -> Result<Option<WriteFault>, AllocError>
        requires { holds_type self.now.types.now ty ≡ true }
        ensures { IfOk result (λ o. (m : Bindings) → IsStateFor self.now.types.now self.now.merged m state.now → IsLowest (IsDefinitionFault self.now.types.now m ty) o) }
    {
        self.find_fault(state, Role::Defined, ItemKind::TypeItem(ty))
    }
}
