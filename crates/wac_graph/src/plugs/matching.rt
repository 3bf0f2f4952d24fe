//! The matches between a plug's exports and a socket's imports.
ghost use Rattle.std.specs.Prelude.{◌≡◌, ◌<◌, true, length, slice_get, string_bytes, IfOk, OnOk, IfSome, IsSomeAnd, MatchOption};
ghost use Rattle.wac_types_collection.specs.collection.Collection.{holds_type, holds_all, kind_types, world_imports, world_exports};
ghost use Rattle.wac_types_shapes.specs.shapes.Kinds.{kind_type};
ghost use Rattle.wac_types_shapes.specs.primitives.Name.{Name};
ghost use Rattle.wac_types_shapes.specs.shapes.Named.{NoNameTwice};
ghost use Rattle.wac_types_shapes.specs.declared.shapes.component.ItemKind.{ItemKind as AnItem};
ghost use Rattle.wac_types_shapes.specs.declared.shapes.component.«Type».TheVariants.{World as world_type};
ghost use Rattle.wac_graph.specs.plugs.Matching.{IsTarget, IsMatch, HasNoMatch, AreMatches};
ghost use Rattle.wac_graph.specs.private.plugs.Pairs.{name_at, matches_at, AreWithin};
ghost use Rattle.wac_graph.specs.private.plugs.Tracks.{track_key, first_at, PutsFirst, AreFirsts};

use std::alloc::{AllocError, Global};
use wac_names::tracks::Track;
use wac_types::{ItemKind, Named, ShapeError, SubtypeChecker, TypeFault, Types, WorldId};

/// The positions of a plug's export and of the socket's import that it matches, in their worlds.
#[derive(Clone, Copy, Debug)]
pub struct Pair {
    /// The position of the export.
    pub export: usize,
    /// The position of the import.
    pub import: usize,
}

/// A text that two names share if and only if they have one track.
fn track_key(alloc: Global, name: &str) -> Result<String, AllocError>
    ensures { IfOk result (λ key. string_bytes key ≡ track_key name.now) }
{
    Track::new(alloc, name)?.to_key(alloc)
}

/// Inserts a position under a key, unless the key has one.
fn put_first(
    alloc: Global,
    firsts: &mut Named<usize>,
    key: &str,
    position: usize,
) -> Result<(), AllocError>
    ensures { OnOk result (PutsFirst firsts.old key.now position firsts.new) }
{
    match firsts.insert(alloc, key, position) {
        Ok(()) => Ok(()),
        Err(ShapeError::NameTwice) => Ok(()),
        Err(ShapeError::OutOfMemory) => Err(AllocError),
    }
}

/// Returns the position of each track's first import, by the track's key.
fn first_on_tracks(alloc: Global, imports: &Named<ItemKind>) -> Result<Named<usize>, AllocError>
    ensures { IfOk result (λ firsts. AreFirsts imports.now firsts) }
{
    let mut firsts = Named::new(alloc);
    for i in 0..imports.len() {
        let key = track_key(alloc, imports.name_at(i))?;
        put_first(alloc, &mut firsts, key.as_str(), i)?;
    }
    Ok(firsts)
}

/// Returns the position of the first import on the name's track. Fills `firsts` if it is empty.
fn first_on_track(
    alloc: Global,
    imports: &Named<ItemKind>,
    firsts: &mut Option<Named<usize>>,
    name: &str,
) -> Result<Option<usize>, AllocError>
    requires { IfSome firsts.old (AreFirsts imports.now) }
    ensures firsts { IfSome firsts.new (AreFirsts imports.now) }
    ensures first { IfOk result (λ o. o ≡ first_at 0 (track_key name.now) imports.now) }
{
    let key = track_key(alloc, name)?;
    if let Some(firsts) = firsts {
        return Ok(firsts.get(key.as_str()).copied());
    }
    let found = first_on_tracks(alloc, imports)?;
    let position = found.get(key.as_str()).copied();
    *firsts = Some(found);
    Ok(position)
}

/// Returns the position of the import that an export goes to: that of the same name, or else the first on its track.
fn target(
    alloc: Global,
    imports: &Named<ItemKind>,
    firsts: &mut Option<Named<usize>>,
    name: &str,
) -> Result<Option<usize>, AllocError>
    requires { IfSome firsts.old (AreFirsts imports.now) }
    ensures firsts { IfSome firsts.new (AreFirsts imports.now) }
    ensures target { IfOk result (λ o. MatchOption o ((t : Name × AnItem) → IsTarget imports.now name.now t → ⊥) (λ i. IsSomeAnd (slice_get imports.now i) (IsTarget imports.now name.now))) }
{
    if let Some((position, _)) = imports.get_full(name) {
        return Ok(Some(position));
    }
    first_on_track(alloc, imports, firsts, name)
}

/// Returns the position of the import that an export matches, if there is a match.
fn find_match(
    types: &Types,
    imports: &Named<ItemKind>,
    firsts: &mut Option<Named<usize>>,
    name: &str,
    kind: ItemKind,
) -> Result<Option<usize>, AllocError>
    requires firsts { IfSome firsts.old (AreFirsts imports.now) }
    requires imports { holds_all types.now (kind_types imports.now) ≡ true }
    requires kind { holds_type types.now (kind_type kind) ≡ true }
    ensures firsts { IfSome firsts.new (AreFirsts imports.now) }
    ensures found { IfOk result (λ o. MatchOption o (HasNoMatch types.now imports.now (name.now, kind)) (λ i. IsMatch types.now imports.now (name.now, kind) (record { export = name.now; import = name_at imports.now i }))) }
    ensures within { IfOk result (λ o. IfSome o (λ i. i < length imports.now)) }
{
    let Some(position) = target(types.allocator(), imports, firsts, name)? else {
        return Ok(None);
    };
    let (_, wanted) = imports.entry_at(position);
    match SubtypeChecker::new().is_subtype(kind, types, *wanted, types) {
        Ok(()) => Ok(Some(position)),
        Err(TypeFault::Mismatch) => Ok(None),
        Err(TypeFault::OutOfMemory) => Err(AllocError),
    }
}

/// Returns the matches of a plug with a socket, in order of the plug's exports.
///
/// `firsts` is filled once and can be passed again for other plugs of the same socket.
pub fn find_matches(
    types: &Types,
    plug: WorldId,
    socket: WorldId,
    firsts: &mut Option<Named<usize>>,
) -> Result<Vec<Pair>, AllocError>
    requires plug { holds_type types.now (world_type plug) ≡ true }
    requires socket { holds_type types.now (world_type socket) ≡ true }
    requires firsts { IfSome firsts.old (AreFirsts (world_imports types.now socket)) }
    ensures firsts { IfSome firsts.new (AreFirsts (world_imports types.now socket)) }
    ensures matches { IfOk result (λ pairs. AreMatches types.now (world_imports types.now socket) (world_exports types.now plug) (matches_at (world_exports types.now plug) (world_imports types.now socket) pairs.items)) }
    ensures within { IfOk result (λ pairs. AreWithin (world_exports types.now plug) (world_imports types.now socket) pairs.items) }
    ensures named { OnOk result (NoNameTwice (world_exports types.now plug)) }
    ensures asked { OnOk result (NoNameTwice (world_imports types.now socket)) }
{
    types.law(); // proof only
    let exports = &types[plug].exports;
    exports.law(); // proof only
    let imports = &types[socket].imports;
    imports.law(); // proof only
    let mut pairs = Vec::with_capacity(types.allocator(), exports.len())?;
    for i in 0..exports.len() {
        let (name, kind) = exports.entry_at(i);
        if let Some(import) = find_match(types, imports, firsts, name, *kind)? {
            pairs.push(Pair { export: i, import })?;
        }
    }
    Ok(pairs)
}
