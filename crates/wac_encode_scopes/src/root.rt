//! The root: its imports, and the component that is written.

ghost use Rattle.wac_encode_scopes.specs.private.Paid.{PaidBy};
ghost use Rattle.std.specs.Prelude.{◌≡◌, ◌+◌, ◌*◌, [], Bool, length, IfOk, OnOk, OnErr};
ghost use Rattle.wac_types_collection.specs.collection.Collection.{Collection};
ghost use Rattle.std.specs.Borrow.{sem};
ghost use Rattle.wac_binary.specs.declared.sorts.Description.TheVariants as e;
ghost use Rattle.wac_binary.specs.Indexes.{space, described_sort};
ghost use Rattle.wac_encode_scopes.specs.Contents.{count_of};
ghost use Rattle.wac_encode_scopes.specs.States.{AllAddTypes, KeepsRecords};
ghost use Rattle.wac_encode_scopes.specs.Roots.{IsRoot, items_of, and_import, ImportsItem, ImportsResource};
ghost use Rattle.wac_encode_scopes.specs.Lending.{LendsRoot, GoesOnLent};

use crate::encodable::Encodable;
use crate::state::State;
use wac_binary::{BinaryFault, ComponentBuilder, Description};
use wac_encode_stacks::{described_law, root_law, size_law};
use wac_types_collection::ResourceId;

impl State {
    /// Adds an import to the innermost scope, the root. Returns its index in the index space of its sort.
    ///
    /// # Errors
    /// - `TooLarge` if the component would not fit 32-bit sizes.
    /// - `OutOfMemory`.
    ///
    /// On an error the scopes are unchanged.
    pub fn import(&mut self, name: &str, d: Description) -> Result<u32, BinaryFault>
        requires { IsRoot self.old.here.content }
        ensures imports { IfOk result (ImportsItem d self.old self.new) }
        ensures index { IfOk result (λ i. i ≡ count_of (space (described_sort d)) self.old.here.content) }
        ensures content { OnOk result (self.new.here.content ≡ and_import name.now d self.old.here.content) }
        ensures records { OnOk result (KeepsRecords self.old self.new) }
        ensures refused { OnErr result (self.new ≡ self.old) }
        ensures paid { (c : Collection) (b : Bool) → PaidBy c b [] (20 + 2 * length name.now) self.old self.new result }
    {
        root_law();
        size_law();
        described_law(d); // proof only
        self.here.import(name, d)
    }

    /// Adds an import of a fresh resource to the innermost scope, the root. Records the resource and returns its type index.
    ///
    /// # Errors
    /// As [`Self::import`]. On an error no import is added.
    pub fn import_fresh(
        &mut self,
        merged: bool,
        name: &str,
        resource: ResourceId,
    ) -> Result<u32, BinaryFault>
        requires { IsRoot self.old.here.content }
        ensures imports { IfOk result (ImportsResource merged resource self.old self.new) }
        ensures index { IfOk result (λ i. i ≡ count_of (space (described_sort e.Fresh)) self.old.here.content) }
        ensures content { OnOk result (self.new.here.content ≡ and_import name.now e.Fresh self.old.here.content) }
        ensures refused { OnErr result (AllAddTypes self.old self.new) }
        ensures paid { (c : Collection) → PaidBy c merged [] (20 + 2 * length name.now) self.old self.new result }
    {
        root_law();
        size_law();
        self.here.import_fresh(merged, name, resource)
    }

    /// The component that is written in the innermost scope, the root. Items may be appended to it. All records are kept.
    pub fn builder(&mut self) -> &mut ComponentBuilder
        requires { IsRoot self.old.here.content }
        ensures* writes_back { sem 𝓛 (LendsRoot self.entry result) }
        ensures value { result.now ≡ items_of self.old.here.content }
    {
        self.here.builder()
    }

    /// Returns the component that is written in the innermost scope, the root.
    pub fn into_builder(self) -> ComponentBuilder
        requires { IsRoot self.here.content }
        ensures { result ≡ items_of self.here.content }
    {
        match self.into_content() {
            Encodable::Builder(component) => component,
            Encodable::Instance(_) | Encodable::Component(_) => unreachable!(),
        }
    }
}

/// Brings in the law of items that a caller appends to the root (docs/PROOFS.md, 'Laws').
pub fn lending_law()
    ensures { GoesOnLent }
{
    root_law();
}
