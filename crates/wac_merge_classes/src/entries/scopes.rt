//! The scopes of an item: its instance types, and the import and export sides of its component types.
ghost use Rattle.std.specs.Prelude.{◌≡◌, ◌∷◌, [], ◌<◌, length, true, Some, Contains, IfOk, OnOk, slice_get};
ghost use Rattle.wac_types_collection.specs.collection.Collection.{holds_type};
ghost use Rattle.wac_types_shapes.specs.shapes.Kinds.{kind_type};
ghost use Rattle.wac_merge_classes.specs.entries.Scopes.{AreNested, AreScopes, number_of, opened, opened_by, unknown};
ghost use Rattle.wac_merge_classes.specs.entries.Opening.{IsHeldAt, Opens, with_opened};

use indexmap::IndexSet;
use std::alloc::{AllocError, Global};
use std::marker::Model;
use wac_types_collection::{InterfaceId, ItemKind, Named, Type, Types, WorldId};

/// The type, or the side of a component type, that opens a scope.
#[derive(Clone, Copy, PartialEq, Eq, Hash)]
pub enum Opener {
    /// The instance type of an interface.
    Interface(InterfaceId),
    /// The import side of a world's component type.
    Imports(WorldId),
    /// The export side of a world's component type.
    Exports(WorldId),
}

/// A scope of an item.
#[derive(Clone, Copy, PartialEq, Eq, Hash)]
pub struct Scope {
    /// What opens the scope.
    pub opener: Opener,
    /// The position of the enclosing scope; `None` for an outermost scope.
    pub parent: Option<usize>,
}

/// Appends a scope unless it is already there.
fn push(
    scopes: &mut IndexSet<Scope>,
    opener: Opener,
    parent: Option<usize>,
) -> Result<(), AllocError>
    ensures { OnOk result (scopes.new.keys ≡ with_opened scopes.old.keys parent (opener ∷ [])) }
{
    scopes.insert(Scope { opener, parent })?;
    Ok(())
}

/// Appends the scopes that an item opens, except those that are already there.
fn push_item(
    scopes: &mut IndexSet<Scope>,
    kind: ItemKind,
    parent: Option<usize>,
) -> Result<(), AllocError>
    ensures { OnOk result (scopes.new.keys ≡ with_opened scopes.old.keys parent (opened_by kind)) }
{
    match kind.ty() {
        Type::Interface(id) => push(scopes, Opener::Interface(id), parent),
        Type::World(id) => {
            push(scopes, Opener::Imports(id), parent)?;
            push(scopes, Opener::Exports(id), parent)
        }
        _ => Ok(()),
    }
}

/// Returns the number of a world's component in `known`, if it has one there.
pub fn known_number(known: &[Option<usize>], ty: Type) -> Option<usize>
    ensures { result ≡ number_of known.now ty }
{
    match ty {
        Type::World(id) => known.get(id.0).copied()?,
        _ => None,
    }
}

/// Appends the scopes that an item of a scope opens, unless its number is known.
fn push_unknown(
    scopes: &mut IndexSet<Scope>,
    known: &[Option<usize>],
    kind: ItemKind,
    parent: usize,
) -> Result<(), AllocError>
    ensures { OnOk result (scopes.new.keys ≡ with_opened scopes.old.keys (Some parent) (unknown known.now (opened_by kind))) }
{
    match known_number(known, kind.ty()) {
        Some(_) => Ok(()),
        None => push_item(scopes, kind, Some(parent)),
    }
}

/// Appends the scopes that items of a scope open, except those that are already there and those of known worlds.
fn push_listed(
    scopes: &mut IndexSet<Scope>,
    known: &[Option<usize>],
    listed: &Named<ItemKind>,
    parent: usize,
) -> Result<(), AllocError>
    ensures { OnOk result (scopes.new.keys ≡ with_opened scopes.old.keys (Some parent) (unknown known.now (opened listed.now))) }
{
    for index in 0..listed.len() {
        push_unknown(scopes, known, *listed.value_at(index), parent)?;
    }
    Ok(())
}

/// Appends the scopes directly inside the scope at `position`.
fn open(
    scopes: &mut IndexSet<Scope>,
    types: &Types,
    known: &[Option<usize>],
    position: usize,
) -> Result<(), AllocError>
    requires within { position < length scopes.old.keys }
    requires held { IsHeldAt types.now scopes.old.keys position }
    ensures { OnOk result (Opens types.now known.now scopes.old.keys position scopes.new.keys) }
{
    match scopes[position].opener {
        Opener::Interface(id) => push_listed(scopes, known, &types[id].exports, position),
        Opener::Imports(id) => push_listed(scopes, known, &types[id].imports, position),
        Opener::Exports(id) => push_listed(scopes, known, &types[id].exports, position),
    }
}

/// The scopes of an item in breadth-first order.
///
/// Two items of one scope that have the same type share a scope.
pub struct Scopes {
    scopes: IndexSet<Scope>,
}

// By hand: a derived `Drop` is proved again wherever one goes out of scope (docs/PROOFS.md, 'Drop').
impl Drop for Scopes {
    fn drop(self) {
        let Scopes { scopes: _ } = self;
    }
}

impl Model for Scopes {
    ghost use Rattle.std.specs.Prelude.{List};
    ghost use Rattle.wac_merge_classes.specs.declared.entries.scopes.Scope as declared;

    ghost Value = { List declared.Scope };

    ghost view = { λ s. s.scopes.keys };
}

impl Scopes {
    /// Finds the scopes of an item, without recursion. `known` has the numbers of worlds that are not opened when an
    /// item of a scope has their type.
    ///
    /// # Errors
    /// - [`AllocError`] if out of memory.
    pub fn new(
        alloc: Global,
        types: &Types,
        known: &[Option<usize>],
        kind: ItemKind,
    ) -> Result<Scopes, AllocError>
        requires { holds_type types.now (kind_type kind) ≡ true }
        ensures scopes { IfOk result (λ ss. AreScopes types.now (opened_by kind) ss) }
        ensures nested { IfOk result (λ ss. AreNested types.now known.now ss) }
    {
        types.law(); // proof only
        let mut scopes = IndexSet::new(alloc);
        push_item(&mut scopes, kind, None)?;
        let mut position = 0;
        while position < scopes.len() {
            open(&mut scopes, types, known, position)?;
            position += 1;
        }
        Ok(Scopes { scopes })
    }

    /// The number of scopes.
    pub fn len(&self) -> usize
        ensures { result ≡ length self.now }
    {
        self.scopes.len()
    }

    /// Returns the scope at a position.
    pub fn scope(&self, position: usize) -> Scope
        requires { position < length self.now }
        ensures { slice_get self.now position ≡ Some result }
    {
        self.scopes[position]
    }

    /// Returns the position of a scope.
    pub fn position(&self, scope: Scope) -> usize
        requires { Contains self.now scope }
        ensures { slice_get self.now result ≡ Some scope }
    {
        self.scopes.get_index_of(&scope).unwrap()
    }
}
