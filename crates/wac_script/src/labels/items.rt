//! Items, interfaces and worlds.
ghost use Rattle.std.specs.Prelude.{◌≡◌, ◌<◌, [], length, MatchResult};
ghost use Rattle.std.specs.Option.{option_copied};
ghost use Rattle.wac_types_shapes.specs.primitives.Name.{Name};
ghost use Rattle.wac_types_shapes.specs.shapes.Named.{named_pairs, used_pairs};
ghost use Rattle.wac_script.specs.lines.Words.{spelled};
ghost use Rattle.wac_script.specs.labels.Things.{things_of, SayNone};
ghost use Rattle.wac_script.specs.private.Unread.{IsUnread, Reads, ReadsSuch};
ghost use Rattle.wac_script.specs.labels.Items.{item_of as item_for, IsLabelledItem, IsItem, IsUse, AddsListed, AreListed, IsWorldId, IsInterface, HasExportsOnce, IsWorld, HasItemsOnce, Found};
ghost use Rattle.wac_script.specs.private.Listed.{found_by, ListNothing};

use crate::labels::faults::{WordError, WordFault, refused};
use crate::labels::things::{Thing, Things};
use crate::labels::values::{primitive, split_pair};
use crate::lines::{after_prefix, dotted, optional};
use std::alloc::Global;
use wac_graph::types::{Interface, InterfaceId, ItemKind, Type, ValueType, World};

/// The used types and the items that words say.
pub(crate) struct Listed<'a> {
    /// The used types: the name here, the interface, and the name there if it differs.
    pub(crate) uses: Vec<(&'a str, InterfaceId, Option<&'a str>)>,
    /// The items.
    pub(crate) items: Vec<(&'a str, ItemKind)>,
}

impl<'a> Listed<'a> {
    /// Returns no used types and no items.
    fn new(alloc: Global) -> Listed<'a>
        ensures uses { result.uses.items ≡ [] }
        ensures items { result.items.items ≡ [] }
    {
        Listed {
            uses: Vec::new(alloc),
            items: Vec::new(alloc),
        }
    }
}

// By hand: a derived `Drop` is proved again wherever one goes out of scope (docs/PROOFS.md, 'Drop').
impl<'a> Drop for Listed<'a> {
    fn drop(self) {
        let Listed { uses: _, items: _ } = self;
    }
}

/// Returns the item that a thing is: of a value type or a resource the type, of any other type what has it.
fn item_of(thing: Thing) -> Option<ItemKind>
    ensures { result ≡ item_for thing }
{
    match thing {
        Thing::Resource(id) => Some(ItemKind::TypeItem(Type::Resource(id))),
        Thing::Value(value) => Some(ItemKind::TypeItem(Type::Value(value))),
        Thing::Func(id) => Some(ItemKind::Func(id)),
        Thing::Interface(id) => Some(ItemKind::Instance(id)),
        Thing::World(id) => Some(ItemKind::Component(id)),
        Thing::Module(id) => Some(ItemKind::Module(id)),
        Thing::Core(_) | Thing::Package(_) | Thing::Node(_) => None,
    }
}

impl Things {
    /// Returns the item that a label stands for.
    fn labelled_item(&self, label: &str) -> Result<ItemKind, WordError>
        ensures { Reads (IsLabelledItem (things_of self.now) label.now) result }
    {
        let thing = self.thing(label)?;
        match item_of(thing) {
            Some(item) => Ok(item),
            None => Err(refused(self.alloc, WordFault::NotItem, label)),
        }
    }

    /// Returns the item of a word: a primitive type, the item of a label, the type of `type:LABEL`, or the value of
    /// `value:TYPE`.
    ///
    /// # Errors
    /// A [`WordError`].
    pub(crate) fn item(&self, word: &str) -> Result<ItemKind, WordError>
        ensures { Reads (IsItem (things_of self.now) word.now) result }
    {
        if let Some(primitive) = primitive(word) {
            return Ok(ItemKind::TypeItem(Type::Value(ValueType::Primitive(primitive))));
        }
        if let Some(ty) = after_prefix(word, "value:") {
            let value = self.value(ty)?;
            return Ok(ItemKind::Value(value));
        }
        if let Some(label) = after_prefix(word, "type:") {
            let item = self.labelled_item(label)?;
            return Ok(ItemKind::TypeItem(item.ty()));
        }
        self.labelled_item(word)
    }

    /// Returns the used type of `LOCAL=INTERFACE` or `LOCAL=INTERFACE.NAME`.
    fn used<'a>(&self, word: &'a str) -> Result<(&'a str, InterfaceId, Option<&'a str>), WordError>
        ensures { MatchResult result (λ used. IsUse (things_of self.now) word.now used.0.now (record { interface = used.1; name = option_copied used.2 })) (IsUnread ((local : Name) → SayNone (IsUse (things_of self.now) word.now local))) }
    {
        let (local, source) = split_pair(self.alloc, word)?;
        match dotted(source) {
            Some((label, name)) => {
                let interface = self.interface_of(label)?;
                Ok((local, interface, Some(name)))
            }
            None => {
                let interface = self.interface_of(source)?;
                Ok((local, interface, None))
            }
        }
    }

    /// Adds the used type or the item of a word.
    fn push_listed<'a>(&self, listed: &mut Listed<'a>, word: &'a str) -> Result<(), WordError>
        ensures { MatchResult result (λ _. AddsListed (things_of self.now) word.now (found_by listed.old) (found_by listed.new)) (IsUnread ((old : Found) → SayNone (AddsListed (things_of self.now) word.now old))) }
    {
        match after_prefix(word, "use:") {
            Some(word) => {
                let used = self.used(word)?;
                listed.uses.push(used)?;
                Ok(())
            }
            None => {
                let (name, item) = split_pair(self.alloc, word)?;
                let item = self.item(item)?;
                listed.items.push((name, item))?;
                Ok(())
            }
        }
    }

    /// Returns what words `use:LOCAL=INTERFACE`, `use:LOCAL=INTERFACE.NAME` and `NAME=ITEM` say.
    fn listed<'a>(&self, words: &[&'a str]) -> Result<Listed<'a>, WordError>
        ensures { MatchResult result (λ l. AreListed (things_of self.now) (spelled words.now) (used_pairs l.uses.items) (named_pairs l.items.items)) (IsUnread (ListNothing (things_of self.now) (spelled words.now))) }
    {
        let mut listed = Listed::new(self.alloc);
        for word in words {
            self.push_listed(&mut listed, word)?;
        }
        Ok(listed)
    }

    /// Returns the interface that words say. `_` is no id.
    ///
    /// # Errors
    /// A [`WordError`].
    pub(crate) fn interface(&self, id: &str, words: &[&str]) -> Result<Interface, WordError>
        ensures { ReadsSuch (IsInterface (things_of self.now) id.now (spelled words.now)) HasExportsOnce result }
    {
        let listed = self.listed(words)?;
        let id = optional(id);
        let interface = Interface::with_uses(
            self.alloc,
            id,
            listed.uses.as_slice(),
            listed.items.as_slice(),
        )?;
        Ok(interface)
    }

    /// Fails if types are used.
    fn check_unused(&self, listed: &Listed<'_>) -> Result<(), WordError>
        ensures { MatchResult result (λ _. listed.now.uses.items ≡ []) (IsUnread (0 < length listed.now.uses.items)) }
    {
        if !listed.uses.is_empty() {
            return Err(refused(self.alloc, WordFault::OtherWords, "use:"));
        }
        Ok(())
    }

    /// Returns the world of the words of its imports, which may begin with `id:` and its id, and those of its exports.
    ///
    /// # Errors
    /// A [`WordError`].
    pub(crate) fn world(&self, imports: &[&str], exports: &[&str]) -> Result<World, WordError>
        ensures { ReadsSuch (IsWorld (things_of self.now) (spelled imports.now) (spelled exports.now)) HasItemsOnce result }
    {
        let (id, imports) = world_id(imports);
        let imports = self.listed(imports)?;
        let exports = self.listed(exports)?;
        self.check_unused(&exports)?;
        let world = World::with_uses(
            self.alloc,
            id,
            imports.uses.as_slice(),
            imports.items.as_slice(),
            exports.items.as_slice(),
        )?;
        Ok(world)
    }
}

/// Returns the id of a world, if the first word has it, and the words of its imports.
fn world_id<'a, 'b>(words: &'b [&'a str]) -> (Option<&'a str>, &'b [&'a str])
    ensures { IsWorldId (spelled words.now) (option_copied result.0) (spelled result.1.now) }
{
    let [first, rest @ ..] = words else {
        return (None, words);
    };
    match after_prefix(first, "id:") {
        Some(id) => (Some(id), rest),
        None => (None, words),
    }
}
