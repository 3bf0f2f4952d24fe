//! The numbers that the types of a scope have in a table.
ghost use Rattle.std.specs.Prelude.{◌≡◌, [], None, OnOk};
ghost use Rattle.wac_merge_trees.specs.private.coding.Coding.{defined_number, func_number, HasDefinedToo, HasFuncToo, HasSame};

use std::alloc::{AllocError, Global};
use std::mem::replace;
use wac_merge_tables::tables::rounds::Numbers;
use wac_merge_tables::tables::tasks::Task;
use wac_types_collection::{DefinedTypeId, FuncTypeId};

/// The numbers of a scope's types that are already in the table.
pub struct Memo {
    /// The numbers of definitions, by position.
    defined: Numbers,
    /// The numbers of function types, by position.
    funcs: Numbers,
    /// A buffer for tasks, empty between calls.
    tasks: Vec<Task>,
    /// The swaps that sorted the last items for which new ones were needed.
    pub(crate) exchanges: Vec<(usize, usize)>,
}

// By hand: a derived `Drop` is proved again wherever one goes out of scope (docs/PROOFS.md, 'Drop').
impl Drop for Memo {
    fn drop(self) {
        let Memo {
            defined: _,
            funcs: _,
            tasks: _,
            exchanges: _,
        } = self;
    }
}

impl Memo {
    /// Creates an empty memo.
    pub fn new(alloc: Global) -> Memo
        ensures defined { (id : DefinedTypeId) → defined_number result id ≡ None }
        ensures funcs { (id : FuncTypeId) → func_number result id ≡ None }
    {
        Memo {
            defined: Numbers::new(alloc),
            funcs: Numbers::new(alloc),
            tasks: Vec::new(alloc),
            exchanges: Vec::new(alloc),
        }
    }

    /// Removes all numbers, before the next scope.
    pub fn clear(&mut self)
        ensures defined { (id : DefinedTypeId) → defined_number self.new id ≡ None }
        ensures funcs { (id : FuncTypeId) → func_number self.new id ≡ None }
    {
        self.defined.clear();
        self.funcs.clear();
    }

    /// Returns the number of a definition.
    pub fn defined(&self, id: DefinedTypeId) -> Option<usize>
        ensures { result ≡ defined_number self.now id }
    {
        self.defined.get(id.0)
    }

    /// Returns the number of a function type.
    pub fn func(&self, id: FuncTypeId) -> Option<usize>
        ensures { result ≡ func_number self.now id }
    {
        self.funcs.get(id.0)
    }

    /// Records the number of a definition.
    ///
    /// # Errors
    /// - [`AllocError`] if out of memory.
    pub fn put_defined(&mut self, id: DefinedTypeId, number: usize) -> Result<(), AllocError>
        ensures { OnOk result (HasDefinedToo self.old id number self.new) }
    {
        self.defined.put(id.0, number)
    }

    /// Records the number of a function type.
    ///
    /// # Errors
    /// - [`AllocError`] if out of memory.
    pub fn put_func(&mut self, id: FuncTypeId, number: usize) -> Result<(), AllocError>
        ensures { OnOk result (HasFuncToo self.old id number self.new) }
    {
        self.funcs.put(id.0, number)
    }

    /// Takes the buffer for tasks, emptied.
    pub(crate) fn take_tasks(&mut self, alloc: Global) -> Vec<Task>
        ensures none { result.items ≡ [] }
        ensures same { HasSame self.old self.new }
    {
        let mut tasks = replace(&mut self.tasks, Vec::new(alloc));
        tasks.clear();
        tasks
    }

    /// Puts the buffer for tasks back.
    pub(crate) fn keep_tasks(&mut self, tasks: Vec<Task>)
        ensures { HasSame self.old self.new }
    {
        self.tasks = tasks;
    }
}
