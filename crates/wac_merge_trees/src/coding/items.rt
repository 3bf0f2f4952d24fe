//! Types and items that open no scope, put into a table.
ghost use Rattle.std.specs.Prelude.{◌≡◌, [], true, IfOk, OnOk};
ghost use Rattle.wac_types_collection.specs.collection.Collection.{holds_type};
ghost use Rattle.wac_types_shapes.specs.shapes.Kinds.{kind_type};
ghost use Rattle.wac_merge_classes.specs.entries.Scopes.{opened_by, opened_by_type};
ghost use Rattle.wac_merge_tables.specs.private.tables.NodeViews.{item_view};
ghost use Rattle.wac_merge_trees.specs.private.coding.CallsView.{AreNamed};
ghost use Rattle.wac_merge_trees.specs.private.coding.Coding.{source_tree, IsGrown, HasTree, IsRight};
ghost use Rattle.wac_merge_trees.specs.private.coding.ItemCoding.{HasItem};

use crate::coding::coder::{Source, add};
use crate::coding::memo::Memo;
use crate::coding::modules::module_type;
use std::alloc::AllocError;
use wac_merge_tables::tables::nodes::{Item, Node, Nodes};
use wac_types_collection::{ItemKind, Type};

impl Memo {
    /// Returns the number of a type that opens no scope.
    ///
    /// # Errors
    /// - [`AllocError`] if out of memory.
    pub fn plain_type<'a>(
        &mut self,
        nodes: &mut Nodes<'a>,
        source: &Source<'a, '_>,
        ty: Type,
    ) -> Result<usize, AllocError>
        requires held { holds_type source.now.types.now ty ≡ true }
        requires plain { opened_by_type ty ≡ [] }
        requires named { AreNamed source.now.types.now source.now.calls.now }
        requires right { IsRight (source_tree source.now) self.old nodes.old }
        ensures grown { IsGrown nodes.old nodes.new }
        ensures right { OnOk result (IsRight (source_tree source.now) self.new nodes.new) }
        ensures number { IfOk result (λ n. HasTree nodes.new (source_tree source.now ty) n) }
    {
        match ty {
            Type::Resource(id) => {
                let called = source.calls.called(source.alloc, source.types, id)?;
                add(nodes, Node::Resource(called))
            }
            Type::Func(id) => self.func_type(nodes, source, id),
            Type::Value(value) => self.value(nodes, source, value),
            Type::Module(id) => module_type(nodes, source, id),
            Type::Interface(_) | Type::World(_) => unreachable!(),
        }
    }

    /// Returns the item of a kind that opens no scope.
    ///
    /// # Errors
    /// - [`AllocError`] if out of memory.
    pub fn plain_item<'a>(
        &mut self,
        nodes: &mut Nodes<'a>,
        source: &Source<'a, '_>,
        kind: ItemKind,
    ) -> Result<Item, AllocError>
        requires held { holds_type source.now.types.now (kind_type kind) ≡ true }
        requires plain { opened_by kind ≡ [] }
        requires named { AreNamed source.now.types.now source.now.calls.now }
        requires right { IsRight (source_tree source.now) self.old nodes.old }
        ensures grown { IsGrown nodes.old nodes.new }
        ensures right { OnOk result (IsRight (source_tree source.now) self.new nodes.new) }
        ensures item { IfOk result (λ x. HasItem nodes.new (source_tree source.now) kind (item_view x)) }
    {
        match kind {
            ItemKind::TypeItem(ty) => {
                let number = self.plain_type(nodes, source, ty)?;
                Ok(Item::Type(number))
            }
            ItemKind::Func(id) => {
                let number = self.func_type(nodes, source, id)?;
                Ok(Item::Func(number))
            }
            ItemKind::Module(id) => {
                let number = module_type(nodes, source, id)?;
                Ok(Item::Module(number))
            }
            ItemKind::Value(value) => {
                let number = self.value(nodes, source, value)?;
                Ok(Item::Value(number))
            }
            ItemKind::Instance(_) | ItemKind::Component(_) => unreachable!(),
        }
    }
}
