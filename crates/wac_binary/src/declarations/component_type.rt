//! The writer of component types.

ghost use Rattle.std.specs.Prelude.{◌≡◌, ◌++◌, ◌∷◌, [], OnOk, OnErr, IfOk};
ghost use Rattle.wac_binary.specs.Items.{import_decl};
ghost use Rattle.wac_binary.specs.Indexes.{space, described_sort, declared};
ghost use Rattle.wac_binary.specs.Fits.{DeclarationsFit, TooLargeUnless};

use crate::declarations::decl::DeclRef;
use crate::declarations::type_writer::{Component, TypeWriter};
use crate::fault::BinaryFault;
use crate::sorts::{Description, described_sort, space};

/// A component type that is being written. Contracts see it as the list of its declarations.
///
/// [`TypeWriter`] says what all its calls return on success and on an error.
pub type ComponentType = TypeWriter<Component>;

impl TypeWriter<Component> {
    /// Declares an import and returns its index of the described sort.
    pub fn import(&mut self, name: &str, d: Description) -> Result<u32, BinaryFault>
        ensures index { IfOk result (λ i. i ≡ declared (space (described_sort d)) self.old) }
        ensures appended { OnOk result (self.new ≡ self.old ++ import_decl name.now d ∷ []) }
        ensures fits { OnOk result (DeclarationsFit self.new) }
        ensures refused { OnErr result (self.new ≡ self.old) }
        ensures too_large { TooLargeUnless result (DeclarationsFit (self.old ++ import_decl name.now d ∷ [])) }
    {
        self.declarations
            .append(&DeclRef::Import(name, d), space(described_sort(d)))
    }
}
