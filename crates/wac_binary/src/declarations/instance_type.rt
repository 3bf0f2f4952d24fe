//! The writer of instance types.

ghost use Rattle.std.specs.Prelude.{◌++◌, ◌∷◌, [], IsTrue, ◌↔◌};
ghost use Rattle.wac_binary.specs.Items.{value_def, type_decl, export_decl};
ghost use Rattle.wac_binary.specs.Fits.{DeclarationsFit};
ghost use Rattle.wac_binary.specs.Views.{defined_of};

use crate::declarations::decl::{DeclRef, TypeRef};
use crate::declarations::type_writer::{Instance, TypeWriter};
use crate::sorts::{Description, IndexSpace, described_sort, space};
use crate::types::DefinedType;

/// An instance type that is being written. Contracts see it as the list of its declarations.
///
/// [`TypeWriter`] says what all its calls return on success and on an error.
pub type InstanceType = TypeWriter<Instance>;

impl TypeWriter<Instance> {
    /// Returns whether one more value type fits 32-bit sizes.
    pub fn has_room_for_type(&self, t: &DefinedType<'_>) -> bool
        ensures { IsTrue result ↔ DeclarationsFit (self.now ++ type_decl (value_def (defined_of t.now)) ∷ []) }
    {
        self.declarations
            .has_room(&DeclRef::Type(TypeRef::Defined(t)), IndexSpace::Types)
    }

    /// Returns whether one more export fits 32-bit sizes.
    pub fn has_room_for_export(&self, name: &str, d: Description) -> bool
        ensures { IsTrue result ↔ DeclarationsFit (self.now ++ export_decl name.now d ∷ []) }
    {
        self.declarations
            .has_room(&DeclRef::Export(name, d), space(described_sort(d)))
    }
}
