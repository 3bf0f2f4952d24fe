//! Interfaces inside interfaces, level by level.

ghost use Rattle.std.specs.Prelude.{◌≡◌, ◌<◌, ◌≤◌, ◌+◌, ◌^◌, [], Bool, false, true, length, List, None, Some, IfOk, IfSome, OnOk, OnErr};
ghost use Rattle.wac_types_shapes.specs.declared.shapes.component.Interface.{Interface as AnInterface};
ghost use Rattle.wac_types_shapes.specs.declared.shapes.component.InterfaceId.{InterfaceId as AnId};
ghost use Rattle.wac_types_shapes.specs.declared.shapes.component.«Type».{«Type» as AnyType};
ghost use Rattle.wac_types_shapes.specs.declared.shapes.component.«Type».TheVariants as ty_of;
ghost use Rattle.wac_types_shapes.specs.shapes.Kinds.{kind_type};
ghost use Rattle.wac_types_collection.specs.collection.Collection.{HasInterface, holds_type, item_at};
ghost use Rattle.wac_encode_stacks.specs.Scopes.{How as AnyHow};
ghost use Rattle.wac_encode_scopes.specs.declared.state.State.{State as AState};
ghost use Rattle.wac_encode_scopes.specs.Books.{opened};
ghost use Rattle.wac_encode_scopes.specs.private.Interfaces.{BeginsInterface};
ghost use Rattle.wac_encode_scopes.specs.private.Limits.{IsTooLarge};
ghost use Rattle.wac_encode_scopes.specs.private.Paid.{IsOpenType, IsPriced, MayEnclose, PaidBy, charge, interface_cost};
ghost use Rattle.wac_encode_scopes.specs.States.{AllAddTypes, Goes, IsRecordedAt};
ghost use Rattle.wac_encode_interfaces.specs.declared.level.Level.{Level as ALevel};
ghost use Rattle.wac_encode_interfaces.specs.private.Paid.{CoversItems, HasNoRoomLeft, HasNoRoomToClose, PaysClosed, PaysItems, next_cost, own_cost, told_cost};
ghost use Rattle.wac_encode_interfaces.specs.private.Ready.{IsInterfaceAt, IsInterfaceReady};
ghost use Rattle.wac_encode_interfaces.specs.private.Refused.{AreStillOpen, KeepsScopes};
ghost use Rattle.wac_encode_interfaces.specs.private.Worlds.{HaveInterfaceWorlds, written_in};
ghost use Rattle.wac_encode_interfaces.specs.private.Writers.{IsWriter};
ghost use Rattle.wac_encode_interfaces.specs.private.Names.{HasInstance};
ghost use Rattle.wac_encode_interfaces.specs.private.Nests.{HasNext, IsClosedInto, IsEnded, IsFilled, IsLevel, IsNewLevel, IsNextItem, IsUnderWay, KeepsLevels, Nest, WaitsFor, following, interface_of as interface_in};

use crate::level::Level;
use crate::writer::TypeWriter;
use indexmap::IndexSet;
use std::mem::replace;
use wac_binary::BinaryFault;
use wac_encode_order::interface_order;
use wac_encode_scopes::{How, Side, State};
use wac_encode_stacks::{
    bringing_law, closing_law, instance_law, listing_law, part_law, step_law, still_law,
};
use wac_types_collection::{InterfaceId, ItemKind, Type, Types};
use wac_types_weight::weight_law;

/// Returns the interface of an instance, or of a type item of an interface.
fn interface_of(item: ItemKind) -> Option<InterfaceId>
    ensures { result ≡ interface_in item }
{
    match item {
        ItemKind::Instance(id) | ItemKind::TypeItem(Type::Interface(id)) => Some(id),
        _ => None,
    }
}

/// Returns the name and the kind of a level's next item.
fn next_item<'b>(types: &'b Types, level: &Level) -> (&'b str, ItemKind)
    requires level { IsLevel types.now level.now }
    requires left { level.now.next < length level.now.order.items }
    ensures { IsNextItem types.now level.now result.0.now result.1 }
{
    let exports = &types[level.interface].exports;
    let position = level.order.as_slice()[level.next];
    let (name, item) = exports.entry_at(position);
    (name, *item)
}

impl<'a> TypeWriter<'a> {
    /// Opens an instance type for an interface inside the innermost scope.
    fn open_level(
        &self,
        state: &mut State,
        interface: InterfaceId,
        types_only: bool,
    ) -> Result<Level, BinaryFault>
        requires held { HasInterface self.now.types.now interface }
        ensures begins { OnOk result ((it : AnInterface) → item_at self.now.types.now.interfaces interface.0 ≡ Some it → BeginsInterface self.now.types.now self.now.merged it state.old state.new) }
        ensures fresh { IfOk result (IsNewLevel interface types_only) }
        ensures level { IfOk result (IsLevel self.now.types.now) }
        ensures kept { KeepsScopes state.old state.new }
        ensures charged { OnOk result (charge self.now.types.now self.now.merged (opened self.now.merged state.new.here) ≤ own_cost self.now.types.now interface) }
        ensures room { IsTooLarge result → 2 ^ 32 ≤ interface_cost self.now.types.now interface }
    {
        state.open_interface(self.types, self.merged, interface)?;
        let order = interface_order(self.types, interface, types_only)?;
        self.types[interface].exports.law(); // proof only
        Ok(Level {
            interface,
            types_only,
            order,
            next: 0,
        })
    }

    /// Returns the interface of a level's next item, if the innermost scope does not record it.
    fn missing(&self, state: &State, level: &Level) -> Option<InterfaceId>
        requires level { IsLevel self.now.types.now level.now }
        requires left { level.now.next < length level.now.order.items }
        requires small { level.now.next + 1 < 2 ^ 64 }
        ensures waits { IfSome result (WaitsFor self.now.types.now level.now) }
        ensures known { result ≡ None → HasNext self.now.types.now self.now.merged state.now level.now }
    {
        let (_, item) = next_item(self.types, level);
        let Some(inside) = interface_of(item) else {
            return None;
        };
        match state.index(self.merged, Type::Interface(inside)) {
            Some(_) => None,
            None => Some(inside),
        }
    }

    /// Records the value types that an exported instance exports, but for those in which an own resource of its interface
    /// is free.
    fn tell_exports(&self, state: &mut State, item: ItemKind, index: u32) -> Result<(), BinaryFault>
        requires writer { IsWriter self.now }
        requires held { holds_type self.now.types.now (kind_type item) ≡ true }
        requires there { HasInstance self.now.types.now self.now.merged state.old item index }
        ensures goes { OnOk result (Goes self.now.types.now self.now.merged state.old state.new) }
        ensures types { AllAddTypes state.old state.new }
        ensures paid { IsOpenType state.old.here.content → PaidBy self.now.types.now self.now.merged [] (told_cost self.now.types.now item) state.old state.new result }
    {
        self.types.law(); // proof only
        instance_law();
        still_law();
        let ItemKind::Instance(id) = item else {
            return Ok(());
        };
        let own = IndexSet::new(self.types.allocator());
        state.tell_instance(self.types, self.closed, self.merged, id, index, &own)
    }

    /// Exports the next item of a level, whose interface is recorded if it has one.
    fn export_next(&self, state: &mut State, level: &mut Level) -> Result<(), BinaryFault>
        requires writer { IsWriter self.now }
        requires under_way { (ks : List ALevel) × IsUnderWay self.now.types.now self.now.merged (written_in self.now.worlds.now) state.old level.old ks }
        requires known { HasNext self.now.types.now self.now.merged state.old level.old }
        requires left { level.old.next < length level.old.order.items }
        requires small { level.old.next + 1 < 2 ^ 64 }
        ensures keeps { OnOk result (KeepsLevels self.now.types.now self.now.merged state.old level.old state.new level.new) }
        ensures level { OnOk result (level.new ≡ following level.old) }
        ensures kept { KeepsScopes state.old state.new }
        ensures paid { (ts : List AnyType) → CoversItems self.now.types.now ts level.old.interface → PaidBy self.now.types.now self.now.merged ts (next_cost self.now.types.now level.old) state.old state.new result }
        ensures priced { OnOk result (IsPriced self.now.merged state.old → IsPriced self.now.merged state.new) }
    {
        self.types.law(); // proof only
        part_law();
        bringing_law();
        closing_law();
        listing_law();
        weight_law();
        let (name, item) = next_item(self.types, level);
        let index = self.add_item(state, Side::Export, name, item)?;
        self.tell_exports(state, item, index)?;
        level.next += 1;
        Ok(())
    }

    /// Exports the next items of a level, up to one whose interface must be written first. Returns that interface.
    fn fill(&self, state: &mut State, level: &mut Level) -> Result<Option<InterfaceId>, BinaryFault>
        requires writer { IsWriter self.now }
        requires under_way { (ks : List ALevel) × IsUnderWay self.now.types.now self.now.merged (written_in self.now.worlds.now) state.old level.old ks }
        ensures keeps { OnOk result (KeepsLevels self.now.types.now self.now.merged state.old level.old state.new level.new) }
        ensures filled { IfOk result (IsFilled self.now.types.now level.new) }
        ensures same { OnOk result (level.new.interface ≡ level.old.interface) }
        ensures further { OnOk result (level.old.next ≤ level.new.next) }
        ensures kept { KeepsScopes state.old state.new }
        ensures paid { OnOk result (PaysItems self.now.types.now self.now.merged state.old level.old state.new level.new) }
        ensures room { IsTooLarge result → HasNoRoomLeft self.now.types.now self.now.merged state.old level.old }
    {
        self.types.law(); // proof only
        weight_law();
        'items: while level.next < level.order.len() {
            if let Some(inside) = self.missing(state, level) {
                return Ok(Some(inside));
            }
            self.export_next(state, level)?;
        }
        Ok(None)
    }

    /// Closes the innermost scope, in which all items of a level are exported. Returns the type index of the instance
    /// type in the enclosing scope. A whole interface is recorded there.
    fn close_level(&self, state: &mut State, level: &Level) -> Result<u32, BinaryFault>
        requires under_way { (ks : List ALevel) × IsUnderWay self.now.types.now self.now.merged (written_in self.now.worlds.now) state.old level.now ks }
        requires ended { IsEnded level.now }
        ensures closed { IfOk result (λ k. (i : AnId) (types_only : Bool) (old : AState) (ks : List ALevel) → Nest self.now.types.now self.now.merged i types_only old level.now ks state.old → IsInterfaceReady self.now.types.now self.now.merged old types_only i
            → IsClosedInto self.now.types.now self.now.merged i types_only old ks state.new k) }
        ensures recorded { IfOk result (λ k. level.now.types_only ≡ false → (how : AnyHow) × IsRecordedAt self.now.merged state.new (ty_of.Interface level.now.interface) how k) }
        ensures refused { OnErr result (AreStillOpen state.old.around.items state.new) }
        ensures paid { OnOk result (IsPriced self.now.merged state.old → PaysClosed self.now.types.now self.now.merged state.old state.new) }
        ensures room { IsTooLarge result → IsPriced self.now.merged state.old → HasNoRoomToClose self.now.types.now self.now.merged state.old }
    {
        self.types.law(); // proof only
        step_law();
        bringing_law();
        closing_law();
        listing_law();
        still_law();
        let index = state.close()?;
        if level.types_only {
            return Ok(index);
        }
        let ty = Type::Interface(level.interface);
        state.record(self.merged, ty, How::Defined, index)?;
        Ok(index)
    }

    /// Writes the instance type of an interface into the innermost scope, whole or with its types only. Returns its
    /// type index there.
    ///
    /// Own resources come first, then type items, then the rest ([`interface_order`]). Interfaces inside are written
    /// where they are mentioned, unless the scope there records them. They are written level by level, without
    /// recursion. A whole interface is recorded. What an exported instance exports is named from then on.
    ///
    /// # Errors
    /// - `TooLarge` if the content of a scope would not fit 32-bit sizes.
    /// - `OutOfMemory`.
    ///
    /// After an error the scopes have what they had, and perhaps types after it. Instance types may still be open inside
    /// them. They must be dropped.
    pub fn interface(
        &self,
        state: &mut State,
        interface: InterfaceId,
        types_only: bool,
    ) -> Result<u32, BinaryFault>
        requires writer { IsWriter self.now }
        requires held { HasInterface self.now.types.now interface }
        requires ready { IsInterfaceReady self.now.types.now self.now.merged state.old types_only interface }
        requires worlds { HaveInterfaceWorlds self.now.types.now (written_in self.now.worlds.now) types_only interface }
        ensures goes { OnOk result (Goes self.now.types.now self.now.merged state.old state.new) }
        ensures is { IfOk result (IsInterfaceAt self.now.types.now self.now.merged state.new types_only interface) }
        ensures recorded { IfOk result (λ k. types_only ≡ false → (how : AnyHow) × IsRecordedAt self.now.merged state.new (ty_of.Interface interface) how k) }
        ensures refused { OnErr result (KeepsScopes state.old state.new) }
        ensures paid { MayEnclose self.now.merged state.old.here.content → PaidBy self.now.types.now self.now.merged [] (interface_cost self.now.types.now interface) state.old state.new result }
    {
        self.types.law(); // proof only
        weight_law();
        let mut waiting = Vec::new(self.types.allocator());
        let mut level = self.open_level(state, interface, types_only)?;
        'levels: loop {
            match self.fill(state, &mut level)? {
                Some(inside) => {
                    let inner = self.open_level(state, inside, false)?;
                    let outer = replace(&mut level, inner);
                    waiting.push(outer)?;
                }
                None => {
                    let index = self.close_level(state, &level)?;
                    let Some(outer) = waiting.pop() else {
                        return Ok(index);
                    };
                    level = outer;
                    self.export_next(state, &mut level)?;
                }
            }
        }
    }
}
