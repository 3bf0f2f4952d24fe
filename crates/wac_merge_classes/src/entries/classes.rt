//! The classes of entries.
//!
//! Each class has a key. The key of an instance's name is that of its track. The key of another name is `-` and the
//! name. Two names have equal keys if and only if they are of one class, so a class is found by a look-up. A name that
//! occurs again is not parsed again.
ghost use Rattle.std.specs.Prelude.{◌≡◌, ◌+◌, ◌<◌, ℕ, [], length, Some, IfOk, OnOk, slice_get, take, string_bytes, is_some};
ghost use Rattle.std.specs.Option.{option_and_then};
ghost use Rattle.wac_types_shapes.specs.primitives.Name.{find_name};
ghost use Rattle.wac_merge_classes.specs.entries.Classes.{by_names, class_names, AreClasses};
ghost use Rattle.wac_merge_classes.specs.entries.Classes as classes;
ghost use Rattle.wac_merge_classes.specs.private.entries.Numbering.{AreFound, AreInstances, AreKeyed, AreNewest, HasMore, HaveNumbers, IsNumbered, Places, class_names_to, key_for};

use crate::entries::entry::Entry;
use std::alloc::{AllocError, Global};
use wac_names::tracks::{Track, compare_versions};
use wac_types_collection::{Named, ShapeError};

/// Adds a name unless it is already there.
fn put(alloc: Global, names: &mut Named<()>, name: &str) -> Result<(), AllocError>
    ensures { OnOk result (HasMore names.old name.now names.new) }
{
    match names.insert(alloc, name, ()) {
        Ok(()) => Ok(()),
        Err(ShapeError::NameTwice) => Ok(()),
        Err(ShapeError::OutOfMemory) => Err(AllocError),
    }
}

/// Returns the names of the entries that are instances.
fn instance_names(alloc: Global, entries: &[Entry]) -> Result<Named<()>, AllocError>
    ensures { IfOk result (λ names. AreInstances entries.now names) }
{
    let mut names = Named::with_capacity(alloc, entries.len())?;
    for entry in entries {
        if entry.is_instance() {
            put(alloc, &mut names, entry.name())?;
        }
    }
    Ok(names)
}

/// Returns the key of a name's class.
fn class_key(alloc: Global, instances: &Named<()>, name: &str) -> Result<String, AllocError>
    ensures { IfOk result (λ key. string_bytes key ≡ key_for (is_some (find_name instances.now name.now)) name.now) }
{
    match instances.get(name) {
        Some(_) => Track::new(alloc, name)?.to_key(alloc),
        None => format!(in alloc; "-{name}"),
    }
}

/// Returns whether the version in `a` is greater than the version in `b`.
fn is_newer(alloc: Global, a: &str, b: &str) -> Result<bool, AllocError>
    ensures { IfOk result (λ r. r ≡ by_names.is_newer a.now b.now) }
{
    Ok(compare_versions(alloc, a, b)?.is_gt())
}

/// The classes of the entries seen so far.
#[derive(Drop)]
struct Numbering {
    /// For each class, its key.
    keys: Named<()>,
    /// For each class, the position of its first entry.
    firsts: Vec<usize>,
    /// For each name, the number of its class.
    names: Named<usize>,
}

impl Numbering {
    /// Returns the number of the class with a key. A new key begins a class whose first entry is at `index`.
    fn place(&mut self, alloc: Global, key: &str, index: usize) -> Result<usize, AllocError>
        ensures placed { IfOk result (λ k. Places self.old.keys self.old.firsts.items key.now index self.new.keys self.new.firsts.items k) }
        ensures kept { self.new.names ≡ self.old.names }
    {
        if let Some((number, _)) = self.keys.get_full(key) {
            return Ok(number);
        }
        let number = self.keys.len();
        match self.keys.insert(alloc, key, ()) {
            Ok(()) => {}
            Err(_) => return Err(AllocError),
        }
        self.firsts.push(index)?;
        Ok(number)
    }

    /// Returns the number of the class of the entry at `index`, after the entries before it were numbered.
    fn number(
        &mut self,
        alloc: Global,
        instances: &Named<()>,
        entries: &[Entry],
        index: usize,
    ) -> Result<usize, AllocError>
        requires within { index < length entries.now }
        requires instances { AreInstances entries.now instances.now }
        requires keyed { AreKeyed entries.now (class_names_to entries.now index) self.old.keys self.old.firsts.items }
        requires found { AreFound entries.now (class_names_to entries.now index) (take index entries.now) self.old.names }
        ensures keyed { OnOk result (AreKeyed entries.now (class_names_to entries.now (index + 1)) self.new.keys self.new.firsts.items) }
        ensures found { OnOk result (AreFound entries.now (class_names_to entries.now (index + 1)) (take (index + 1) entries.now) self.new.names) }
        ensures number { IfOk result (λ k. (e : classes.Entry) → slice_get entries.now index ≡ Some e → IsNumbered entries.now (class_names_to entries.now (index + 1)) e.name k) }
    {
        let name = entries[index].name();
        if let Some(number) = self.names.get(name) {
            return Ok(*number);
        }
        let key = class_key(alloc, instances, name)?;
        let number = self.place(alloc, key.as_str(), index)?;
        match self.names.insert(alloc, name, number) {
            Ok(()) => Ok(number),
            Err(_) => Err(AllocError),
        }
    }
}

/// Returns, for each class, the position of the first entry with its greatest version. `firsts` begins the search.
fn newest_positions(
    alloc: Global,
    entries: &[Entry],
    numbers: &[usize],
    firsts: Vec<usize>,
) -> Result<Vec<usize>, AllocError>
    requires counted { length numbers.now ≡ length entries.now }
    requires numbered { HaveNumbers entries.now (class_names by_names entries.now) numbers.now }
    requires positioned { length firsts.items ≡ length (class_names by_names entries.now) }
    requires begins { AreNewest entries.now [] firsts.items }
    ensures positioned { IfOk result (λ p. length p.items ≡ length (class_names by_names entries.now)) }
    ensures newest { IfOk result (λ p. AreNewest entries.now entries.now p.items) }
{
    let mut positions = firsts;
    for i in 0..entries.len() {
        let number = numbers[i];
        let name = entries[i].name();
        if is_newer(alloc, name, entries[positions[number]].name())? {
            positions[number] = i;
        }
    }
    Ok(positions)
}

/// The classes of entries, numbered in order of first appearance.
pub struct Classes {
    /// For each entry, the number of its class.
    numbers: Vec<usize>,
    /// For each class, the position of the entry with its canonical name.
    positions: Vec<usize>,
    /// For each name, the number of its class.
    names: Named<usize>,
}

// By hand: a derived `Drop` is proved again wherever one goes out of scope (docs/PROOFS.md, 'Drop').
impl Drop for Classes {
    fn drop(self) {
        let Classes {
            numbers: _,
            positions: _,
            names: _,
        } = self;
    }
}

impl Classes {
    /// Finds the classes of entries.
    ///
    /// # Errors
    /// - [`AllocError`] if out of memory.
    pub fn new(alloc: Global, entries: &[Entry]) -> Result<Classes, AllocError>
        ensures { IfOk result (λ c. AreClasses by_names entries.now c.numbers.items c.positions.items c.names) }
    {
        let instances = instance_names(alloc, entries)?;
        let mut numbering = Numbering {
            keys: Named::with_capacity(alloc, entries.len())?,
            firsts: Vec::new(alloc),
            names: Named::with_capacity(alloc, entries.len())?,
        };
        let mut numbers = Vec::new(alloc);
        for i in 0..entries.len() {
            let number = numbering.number(alloc, &instances, entries, i)?;
            numbers.push(number)?;
        }
        let Numbering { firsts, names, .. } = numbering;
        let positions = newest_positions(alloc, entries, numbers.as_slice(), firsts)?;
        Ok(Classes {
            numbers,
            positions,
            names,
        })
    }

    /// Returns the number of each entry's class.
    pub fn numbers(&self) -> &[usize]
        ensures { result.now ≡ self.now.numbers.items }
    {
        self.numbers.as_slice()
    }

    /// Returns, for each class, the position of the first entry with its canonical name.
    pub fn positions(&self) -> &[usize]
        ensures { result.now ≡ self.now.positions.items }
    {
        self.positions.as_slice()
    }

    /// Returns the number of a name's class.
    pub fn number(&self, name: &str) -> Option<usize>
        ensures { result ≡ find_name self.now.names name.now }
    {
        self.names.get(name).copied()
    }

    /// Returns the position of the first entry with the canonical name of a name's class.
    pub fn position(&self, name: &str) -> Option<usize>
        requires { (k : ℕ) → find_name self.now.names name.now ≡ Some k → k < length self.now.positions.items }
        ensures { result ≡ option_and_then (λ k. slice_get self.now.positions.items k) (find_name self.now.names name.now) }
    {
        let number = self.number(name)?;
        Some(self.positions[number])
    }
}
