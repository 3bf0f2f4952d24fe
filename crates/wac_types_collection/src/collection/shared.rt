//! Lists of items that clones of a collection share.
ghost use Rattle.std.specs.Prelude.{List, ◌≡◌, ◌<◌, ◌++◌, ◌∷◌, [], Some, IfErr, IfOk, OnErr, OnOk, length};
ghost use Rattle.std.specs.Option.{option_copied};
ghost use Rattle.wac_types_collection.specs.collection.Collection.{item_at};
ghost use Rattle.wac_types_collection.specs.private.collection.Items.{entries};
ghost use Rattle.wac_types_collection.specs.declared.collection.collection.Held.{Held};
ghost use Rattle.wac_types_collection.specs.declared.collection.collection.AddTypeError.TheVariants.{OutOfMemory};

use crate::collection::collection::AddTypeError;
use std::alloc::{AllocError, Global};
use std::fmt;
use std::marker::Model;
use std::sync::Arc;

/// An item, with the number of items that were added before it. A clone shares the item's memory.
#[derive(Drop)]
struct Shared<T> {
    item: Arc<T>,
    before: usize,
}

impl<T> Model for Shared<T> {
    ghost Value = { Held T };

    ghost view = { λ s. record { item = s.item.value; before = s.before } };
}

impl<T: Drop> Clone for Shared<T> {
    ghost is_clone = { λ a b. b ≡ a };

    fn clone(&self) -> Result<Shared<T>, AllocError> {
        Ok(Shared {
            item: self.item.clone()?,
            before: self.before,
        })
    }
}

impl<T> Shared<T> {
    /// The item.
    fn item(&self) -> &T
        ensures { result.now ≡ self.now.item }
    {
        &self.item
    }
}

/// Items in two lists. Clones share both lists, so that `clone` looks at no item.
///
/// A shared `rest` is not appended to. It becomes `first`; if there is a `first`, it is copied.
#[derive(Drop)]
struct Lists<T> {
    // The items that were shared when `rest` was begun.
    first: Option<Arc<Vec<Shared<T>>>>,
    rest: Option<Arc<Vec<Shared<T>>>>,
}

impl<T> Model for Lists<T> {
    ghost Value = { List (Held T) };

    ghost view = { λ s. entries s.first ++ entries s.rest };
}

/// Items in order, which clones share.
#[derive(Drop)]
pub(crate) struct Items<T> {
    lists: Lists<T>,
    len: usize,
}

impl<T> Model for Items<T> {
    ghost Value = { List (Held T) };

    ghost view = { λ s. s.lists };

    ghost invariant = { λ s. s.len ≡ length s.lists };
}

impl<T: Drop> Clone for Items<T> {
    ghost is_clone = { λ a b. b ≡ a };

    fn clone(&self) -> Result<Items<T>, AllocError> {
        Ok(Items {
            lists: Lists {
                first: self.lists.first.clone()?,
                rest: self.lists.rest.clone()?,
            },
            len: self.len,
        })
    }
}

impl<T: Drop + fmt::Debug> fmt::Debug for Items<T> {
    fn fmt<W: fmt::Write>(&self, f: &mut fmt::Formatter<W>) -> fmt::Result {
        let mut list = f.debug_list();
        for i in 0..self.len {
            list.entry(self.item(i));
        }
        list.finish()
    }
}

impl<T: Drop> Lists<T> {
    /// Returns the item at an index, if there is one.
    fn get(&self, index: usize) -> Option<&T>
        ensures { option_copied result ≡ item_at self.now index }
    {
        let mut index = index;
        if let Some(first) = &self.first {
            if index < first.len() {
                return Some(first[index].item());
            }
            index -= first.len();
        }
        Some(self.rest.as_ref()?.get(index)?.item())
    }

    /// Appends an item. If out of memory, nothing changes.
    fn put(&mut self, alloc: Global, item: Shared<T>) -> Result<(), AllocError>
        ensures put { OnOk result (self.new ≡ self.old ++ item ∷ []) }
        ensures kept { OnErr result (self.new ≡ self.old) }
    {
        if let Some(rest) = &mut self.rest {
            if let Some(own) = Arc::get_mut(rest) {
                own.push(item)?;
                return Ok(());
            }
        }
        self.put_apart(alloc, item)
    }

    /// Appends an item if `rest` is shared or missing. If out of memory, nothing changes.
    fn put_apart(&mut self, alloc: Global, item: Shared<T>) -> Result<(), AllocError>
        ensures put { OnOk result (self.new ≡ self.old ++ item ∷ []) }
        ensures kept { OnErr result (self.new ≡ self.old) }
    {
        if self.first.is_none() {
            self.first = self.rest.take();
        }
        let mut own = copied(alloc, &self.rest)?;
        own.push(item)?;
        self.rest = Some(Arc::new(alloc, own)?);
        Ok(())
    }
}

/// Copies a list; no list is copied to an empty one.
fn copied<T: Drop>(
    alloc: Global,
    list: &Option<Arc<Vec<Shared<T>>>>,
) -> Result<Vec<Shared<T>>, AllocError>
    ensures { IfOk result (λ own. own.items ≡ entries list.now) }
{
    match list {
        Some(list) => Ok(Vec::clone(list)?),
        None => Ok(Vec::new(alloc)),
    }
}

impl<T: Drop> Items<T> {
    /// Returns no items.
    pub(crate) fn new() -> Items<T>
        ensures { result ≡ [] }
    {
        Items {
            lists: Lists {
                first: None,
                rest: None,
            },
            len: 0,
        }
    }

    /// The number of items.
    pub(crate) fn len(&self) -> usize
        ensures { result ≡ length self.now }
    {
        self.len
    }

    /// Returns the item at an index, if there is one.
    pub(crate) fn get(&self, index: usize) -> Option<&T>
        ensures { option_copied result ≡ item_at self.now index }
    {
        self.lists.get(index)
    }

    /// Returns the item at an index in range.
    pub(crate) fn item(&self, index: usize) -> &T
        requires { index < length self.now }
        ensures { item_at self.now index ≡ Some result.now }
    {
        self.get(index).unwrap()
    }
}

/// Appends an item. If out of memory, nothing changes.
pub(crate) fn hold<T: Drop>(
    alloc: Global,
    items: &mut Items<T>,
    item: T,
    before: usize,
) -> Result<(), AddTypeError>
    ensures held { OnOk result (items.new ≡ items.old ++ record { item = item; before = before } ∷ []) }
    ensures refused { OnErr result (items.new ≡ items.old) }
    ensures fault { IfErr result (λ e. e ≡ OutOfMemory) }
{
    let len = items.len.checked_add(1).ok_or(AddTypeError::OutOfMemory)?;
    let Ok(item) = Arc::new(alloc, item) else {
        return Err(AddTypeError::OutOfMemory);
    };
    let Ok(()) = items.lists.put(alloc, Shared { item, before }) else {
        return Err(AddTypeError::OutOfMemory);
    };
    items.len = len;
    Ok(())
}
