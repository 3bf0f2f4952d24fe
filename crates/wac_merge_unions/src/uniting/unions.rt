//! Unions of interfaces. The interfaces in a union are its parts.
ghost use Rattle.std.specs.Prelude.{◌≡◌, ◌≢◌, ◌<◌, [], length, map, IfOk, OnOk};
ghost use Rattle.std.specs.List.{AllByRecursion, list_any};
ghost use Rattle.wac_types_collection.specs.collection.Collection.{HasInterface, IsWellFormed};
ghost use Rattle.wac_merge_unions.specs.private.uniting.UnionSteps.{AreKnown, AreOpen, AreSeated, inside_part, IsHeldGroup, IsHeldListing, IsJoined, IsPushed, IsUnited, root_part};
ghost use Rattle.wac_merge_classes.specs.terms.Unions.{AreUnions, instances_in, is_own_of, IsExport, IsInner, united};

use crate::uniting::grouped::Grouped;
use indexmap::IndexMap;
use std::alloc::{AllocError, Global};
use wac_merge_classes::entries::bound::own_resource;
use wac_merge_classes::terms::parts::{Export, Part, Union};
use wac_types_collection::{InterfaceId, ItemKind, Named, ShapeError, Type, Types};

/// Unions and the parts of all of them.
#[derive(Drop)]
pub struct Unions {
    /// The unions: first those of the classes, then those nested in others.
    pub unions: Vec<Union>,
    /// The parts.
    pub parts: Vec<Part>,
}

/// The nested unions of one union, by their interfaces. Each interface comes with the part that exports it.
type Known = IndexMap<Vec<(usize, InterfaceId)>, usize>;

/// Returns the interfaces of the instances among these exports, each with its part.
fn instances(
    alloc: Global,
    listed: &[(usize, ItemKind)],
) -> Result<Vec<(usize, InterfaceId)>, AllocError>
    ensures { IfOk result (λ is. is.items ≡ instances_in listed.now) }
{
    let mut instances = Vec::new(alloc);
    for index in 0..listed.len() {
        let (part, kind) = listed[index];
        if let ItemKind::Instance(interface) = kind {
            instances.push((part, interface))?;
        }
    }
    Ok(instances)
}

/// Returns the interfaces to unite under a name with these exports, each with its part.
///
/// If the first export is an instance, these are the interfaces of all instances. If it is an interface as a type item,
/// it is that one alone.
fn united(
    alloc: Global,
    listed: &[(usize, ItemKind)],
) -> Result<Vec<(usize, InterfaceId)>, AllocError>
    requires { listed.now ≢ [] }
    ensures { IfOk result (λ is. is.items ≡ united listed.now) }
{
    let (part, kind) = listed[0];
    match kind {
        ItemKind::Instance(_) => instances(alloc, listed),
        ItemKind::TypeItem(Type::Interface(interface)) => {
            let mut interfaces = Vec::new(alloc);
            interfaces.push((part, interface))?;
            Ok(interfaces)
        }
        _ => Ok(Vec::new(alloc)),
    }
}

/// Returns whether a part exports an own resource under a name.
fn is_own(types: &Types, parts: &[Part], name: &str, listed: &[(usize, ItemKind)]) -> bool
    requires { AllByRecursion (IsHeldListing types.now parts.now) listed.now }
    ensures { result ≡ list_any (is_own_of types.now parts.now name.now) listed.now }
{
    for index in 0..listed.len() {
        let (part, kind) = listed[index];
        let uses = &types[parts[part].interface].uses;
        if own_resource(types, uses, name, kind).is_some() {
            return true;
        }
    }
    false
}

impl Unions {
    /// Returns the union of each class, and all unions nested in these, without recursion. `roots` has the interfaces
    /// of each class.
    ///
    /// # Errors
    /// - [`AllocError`] if out of memory.
    pub fn new(
        alloc: Global,
        types: &Types,
        roots: &[Vec<InterfaceId>],
    ) -> Result<Unions, AllocError>
        requires { AllByRecursion (λ is. AllByRecursion (HasInterface types.now) is.items) roots.now }
        ensures { IfOk result (λ u. AreUnions types.now (map (λ is. is.items) roots.now) u.unions.items u.parts.items) }
    {
        types.law(); // proof only
        let mut unions = Unions {
            unions: Vec::new(alloc),
            parts: Vec::new(alloc),
        };
        for index in 0..roots.len() {
            unions.push_root(alloc, roots[index].as_slice())?;
        }
        let mut grouped = Grouped::new(alloc);
        let mut position = 0;
        while position < unions.unions.len() {
            unions.join(alloc, types, position, &mut grouped)?;
            position += 1;
        }
        Ok(unions)
    }

    /// Appends a union of these parts.
    fn push(&mut self, alloc: Global, parts: &[Part]) -> Result<(), AllocError>
        ensures { OnOk result (IsPushed self.old.unions.items self.old.parts.items parts.now self.new.unions.items self.new.parts.items) }
    {
        let mut positions = Vec::new(alloc);
        for index in 0..parts.len() {
            positions.push(self.parts.len())?;
            self.parts.push(parts[index])?;
        }
        self.unions.push(Union {
            parts: positions,
            exports: Named::new(alloc),
        })?;
        Ok(())
    }

    /// Appends the union of a class, of these interfaces.
    fn push_root(&mut self, alloc: Global, interfaces: &[InterfaceId]) -> Result<(), AllocError>
        ensures { OnOk result (IsPushed self.old.unions.items self.old.parts.items (map (root_part (length self.old.unions.items)) interfaces.now) self.new.unions.items self.new.parts.items) }
    {
        let union = self.unions.len();
        let mut parts = Vec::new(alloc);
        for index in 0..interfaces.len() {
            parts.push(Part {
                interface: interfaces[index],
                outer: None,
                union,
            })?;
        }
        self.push(alloc, parts.as_slice())
    }

    /// Appends the union of these interfaces. Each comes with the part that exports it.
    fn push_inner(
        &mut self,
        alloc: Global,
        interfaces: &[(usize, InterfaceId)],
    ) -> Result<(), AllocError>
        ensures { OnOk result (IsPushed self.old.unions.items self.old.parts.items (map (inside_part (length self.old.unions.items)) interfaces.now) self.new.unions.items self.new.parts.items) }
    {
        let union = self.unions.len();
        let mut parts = Vec::new(alloc);
        for index in 0..interfaces.len() {
            let (part, interface) = interfaces[index];
            parts.push(Part {
                interface,
                outer: Some(part),
                union,
            })?;
        }
        self.push(alloc, parts.as_slice())
    }

    /// Returns the position of the union of these interfaces, nested in the union at `position`.
    /// It is appended if it is not known yet, and `None` if there are no interfaces.
    fn inner(
        &mut self,
        alloc: Global,
        position: usize,
        interfaces: Vec<(usize, InterfaceId)>,
        known: &mut Known,
    ) -> Result<Option<usize>, AllocError>
        requires within { position < length self.old.unions.items }
        requires known { AreKnown self.old.unions.items self.old.parts.items position known.old.entries }
        ensures united { OnOk result (IsUnited self.old.unions.items self.old.parts.items interfaces.items self.new.unions.items self.new.parts.items) }
        ensures inner { IfOk result (λ o. IsInner self.new.unions.items self.new.parts.items position interfaces.items o) }
        ensures known { OnOk result (AreKnown self.new.unions.items self.new.parts.items position known.new.entries) }
    {
        if interfaces.is_empty() {
            return Ok(None);
        }
        if let Some((_, _, union)) = known.get_full(interfaces.as_slice()) {
            return Ok(Some(*union));
        }
        let union = self.unions.len();
        self.push_inner(alloc, interfaces.as_slice())?;
        known.insert(interfaces, union)?;
        Ok(Some(union))
    }

    /// Returns what the union at `position` exports under a name. Appends the nested union if it is not known yet.
    fn export(
        &mut self,
        alloc: Global,
        types: &Types,
        position: usize,
        name: &str,
        listed: &[(usize, ItemKind)],
        known: &mut Known,
    ) -> Result<Export, AllocError>
        requires some { listed.now ≢ [] }
        requires within { position < length self.old.unions.items }
        requires held { AllByRecursion (IsHeldListing types.now self.old.parts.items) listed.now }
        requires known { AreKnown self.old.unions.items self.old.parts.items position known.old.entries }
        ensures united { OnOk result (IsUnited self.old.unions.items self.old.parts.items (united listed.now) self.new.unions.items self.new.parts.items) }
        ensures export { IfOk result (λ e. IsExport types.now self.new.unions.items self.new.parts.items position name.now listed.now e) }
        ensures known { OnOk result (AreKnown self.new.unions.items self.new.parts.items position known.new.entries) }
    {
        let (part, kind) = listed[0];
        let is_own = is_own(types, self.parts.as_slice(), name, listed);
        let interfaces = united(alloc, listed)?;
        let inner = self.inner(alloc, position, interfaces, known)?;
        Ok(Export {
            kind,
            part,
            is_own,
            inner,
        })
    }

    /// Returns the exports of the union at `position`. Appends its nested unions.
    fn exports(
        &mut self,
        alloc: Global,
        types: &Types,
        position: usize,
        grouped: &Grouped<'_>,
    ) -> Result<Named<Export>, AllocError>
        requires formed { IsWellFormed types.now }
        requires within { position < length self.old.unions.items }
        requires seated { AreSeated types.now self.old.unions.items self.old.parts.items }
        requires held { AllByRecursion (IsHeldGroup types.now self.old.parts.items) grouped.now }
        ensures { IfOk result (λ es. AreOpen types.now self.old.unions.items self.old.parts.items position grouped.now self.new.unions.items self.new.parts.items es) }
    {
        grouped.law(); // proof only
        let mut exports = Named::with_capacity(alloc, grouped.len())?;
        let mut known = IndexMap::new(alloc);
        for index in 0..grouped.len() {
            let (name, listed) = grouped.entry_at(index);
            let export = self.export(alloc, types, position, name, listed, &mut known)?;
            match exports.insert(alloc, name, export) {
                Ok(()) => {}
                Err(ShapeError::OutOfMemory) => return Err(AllocError),
                Err(ShapeError::NameTwice) => unreachable!(),
            }
        }
        Ok(exports)
    }

    /// Sets the exports of the union at `position` and appends its nested unions. `grouped` provides the buffers.
    fn join<'a>(
        &mut self,
        alloc: Global,
        types: &'a Types,
        position: usize,
        grouped: &mut Grouped<'a>,
    ) -> Result<(), AllocError>
        requires formed { IsWellFormed types.now }
        requires within { position < length self.old.unions.items }
        requires seated { AreSeated types.now self.old.unions.items self.old.parts.items }
        ensures { OnOk result (IsJoined types.now self.old.unions.items self.old.parts.items position self.new.unions.items self.new.parts.items) }
    {
        let members = self.unions[position].parts.as_slice();
        grouped.group(alloc, types, self.parts.as_slice(), members)?;
        let exports = self.exports(alloc, types, position, grouped)?;
        self.unions[position].exports = exports;
        Ok(())
    }
}
