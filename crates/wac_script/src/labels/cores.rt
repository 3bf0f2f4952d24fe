//! Core modules.
ghost use Rattle.std.specs.Prelude.{◌≡◌, [], IfOk, MatchOption, MatchResult};
ghost use Rattle.wac_script.specs.lines.Words.{spelled};
ghost use Rattle.wac_script.specs.lines.Numbers.{IsNumber};
ghost use Rattle.wac_script.specs.declared.lines.shapes.CoreItem.TheVariants as said;
ghost use Rattle.wac_script.specs.labels.Things.{things_of, cores_of, SayNone};
ghost use Rattle.wac_script.specs.private.Unread.{IsUnread, Reads};
ghost use Rattle.wac_script.specs.declared.labels.cores.Marks.{Marks as AllMarks};
ghost use Rattle.wac_script.specs.labels.Cores.{reference_word, core_word, AreCoreTypes, IsCoreFunc, IsMark, IsPage, AreMarks, IsMaximum, IsCoreItem, IsCore, AddsImport, TakesImport, AddImports, AddsExport, IsModule};
ghost use Rattle.wac_script.specs.private.Listed.{importing};

use crate::labels::faults::{WordError, WordFault, refused};
use crate::labels::things::{Thing, Things};
use crate::labels::values::split_pair;
use crate::lines::{CoreItem, after_prefix, number, optional, small_number};
use std::alloc::{AllocError, Global};
use wac_graph::types::{CoreExtern, CoreFuncType, CoreRefType, CoreType, ModuleType};

/// Returns the reference type of a word.
fn reference(word: &str) -> Option<CoreRefType>
    ensures { MatchOption result (SayNone (λ r. word.now ≡ reference_word r)) (λ r. word.now ≡ reference_word r) }
{
    match word {
        "funcref" => Some(CoreRefType::FuncRef),
        "externref" => Some(CoreRefType::ExternRef),
        _ => None,
    }
}

/// Returns the core type of a word.
fn core_type(word: &str) -> Option<CoreType>
    ensures { MatchOption result (SayNone (λ t. word.now ≡ core_word t)) (λ t. word.now ≡ core_word t) }
{
    match word {
        "i32" => Some(CoreType::I32),
        "i64" => Some(CoreType::I64),
        "f32" => Some(CoreType::F32),
        "f64" => Some(CoreType::F64),
        "v128" => Some(CoreType::V128),
        "funcref" => Some(CoreType::Ref(CoreRefType::FuncRef)),
        "externref" => Some(CoreType::Ref(CoreRefType::ExternRef)),
        _ => None,
    }
}

/// The words after the sizes of a table or memory, or the type of a global.
#[derive(Clone, Copy)]
struct Marks {
    /// Whether `64` is among them.
    is_64: bool,
    /// Whether `shared` is among them.
    is_shared: bool,
    /// Whether `mut` is among them.
    is_mutable: bool,
    /// The number of the last `page=NUMBER`, if one is among them.
    page: Option<u32>,
}

/// The module from which the next imports of a core module are.
#[derive(Clone, Copy)]
struct Source<'a> {
    /// Its name, which is empty at first.
    name: &'a str,
    /// Whether the next word is its name.
    is_next: bool,
}

/// Returns a copy.
fn copy_func(alloc: Global, func: &CoreFuncType) -> Result<CoreFuncType, AllocError>
    ensures { IfOk result (λ f. f ≡ func.now) }
{
    CoreFuncType::new(alloc, func.params.as_slice(), func.results.as_slice())
}

/// Returns a copy.
fn copy_item(alloc: Global, item: &CoreExtern) -> Result<CoreExtern, AllocError>
    ensures { IfOk result (λ i. i ≡ item.now) }
{
    match item {
        CoreExtern::Func(func) => Ok(CoreExtern::Func(copy_func(alloc, func)?)),
        CoreExtern::Tag(func) => Ok(CoreExtern::Tag(copy_func(alloc, func)?)),
        CoreExtern::Table {
            element_type,
            initial,
            maximum,
            table64,
            shared,
        } => Ok(CoreExtern::Table {
            element_type: *element_type,
            initial: *initial,
            maximum: *maximum,
            table64: *table64,
            shared: *shared,
        }),
        CoreExtern::Memory {
            memory64,
            shared,
            initial,
            maximum,
            page_size_log2,
        } => Ok(CoreExtern::Memory {
            memory64: *memory64,
            shared: *shared,
            initial: *initial,
            maximum: *maximum,
            page_size_log2: *page_size_log2,
        }),
        CoreExtern::Global {
            val_type,
            mutable,
            shared,
        } => Ok(CoreExtern::Global {
            val_type: *val_type,
            mutable: *mutable,
            shared: *shared,
        }),
    }
}

impl Things {
    /// Returns the core types of words.
    fn core_types(&self, words: &[&str]) -> Result<Vec<CoreType>, WordError>
        ensures { MatchResult result (λ types. AreCoreTypes (spelled words.now) types.items) (IsUnread (SayNone (AreCoreTypes (spelled words.now)))) }
    {
        let mut types = Vec::new(self.alloc);
        for word in words {
            match core_type(word) {
                Some(ty) => types.push(ty)?,
                None => return Err(refused(self.alloc, WordFault::NotCoreType, word)),
            }
        }
        Ok(types)
    }

    /// Returns a function type of words.
    fn core_func(&self, params: &[&str], results: &[&str]) -> Result<CoreFuncType, WordError>
        ensures { Reads (IsCoreFunc (spelled params.now) (spelled results.now)) result }
    {
        let params = self.core_types(params)?;
        let results = self.core_types(results)?;
        let func = CoreFuncType::new(self.alloc, &params, &results)?;
        Ok(func)
    }

    /// Adds what a word says to marks.
    fn mark(&self, marks: Marks, word: &str) -> Result<Marks, WordError>
        ensures { MatchResult result (λ m. IsMark word.now marks m) (IsUnread ((old : AllMarks) → SayNone (IsMark word.now old))) }
    {
        match word {
            "64" => Ok(Marks {
                is_64: true,
                ..marks
            }),
            "shared" => Ok(Marks {
                is_shared: true,
                ..marks
            }),
            "mut" => Ok(Marks {
                is_mutable: true,
                ..marks
            }),
            word => self.page(marks, word),
        }
    }

    /// Adds the size of pages to marks.
    fn page(&self, marks: Marks, word: &str) -> Result<Marks, WordError>
        ensures { MatchResult result (λ m. IsPage word.now marks m) (IsUnread ((old : AllMarks) → SayNone (IsPage word.now old))) }
    {
        let Some(digits) = after_prefix(word, "page=") else {
            return Err(refused(self.alloc, WordFault::OtherWords, word));
        };
        match small_number(digits) {
            Some(page) => Ok(Marks {
                page: Some(page),
                ..marks
            }),
            None => Err(refused(self.alloc, WordFault::NotNumber, digits)),
        }
    }

    /// Returns what words say of a table, memory or global.
    fn marks(&self, words: &[&str]) -> Result<Marks, WordError>
        ensures { Reads (AreMarks (spelled words.now)) result }
    {
        let mut marks = Marks {
            is_64: false,
            is_shared: false,
            is_mutable: false,
            page: None,
        };
        for word in words {
            marks = self.mark(marks, word)?;
        }
        Ok(marks)
    }

    /// Returns a size.
    fn size(&self, word: &str) -> Result<u64, WordError>
        ensures { Reads (IsNumber 64 word.now) result }
    {
        match number(word) {
            Some(size) => Ok(size),
            None => Err(refused(self.alloc, WordFault::NotNumber, word)),
        }
    }

    /// Returns a greatest size, or none for `_`.
    fn maximum(&self, word: &str) -> Result<Option<u64>, WordError>
        ensures { Reads (IsMaximum word.now) result }
    {
        match optional(word) {
            Some(word) => {
                let size = self.size(word)?;
                Ok(Some(size))
            }
            None => Ok(None),
        }
    }

    /// Returns a table.
    fn table(
        &self,
        element: &str,
        initial: &str,
        maximum: &str,
        marks: &[&str],
    ) -> Result<CoreExtern, WordError>
        ensures { Reads (IsCoreItem (said.Table element.entry initial.entry maximum.entry marks.entry)) result }
    {
        let Some(element_type) = reference(element) else {
            return Err(refused(self.alloc, WordFault::NotCoreType, element));
        };
        let initial = self.size(initial)?;
        let maximum = self.maximum(maximum)?;
        let marks = self.marks(marks)?;
        Ok(CoreExtern::Table {
            element_type,
            initial,
            maximum,
            table64: marks.is_64,
            shared: marks.is_shared,
        })
    }

    /// Returns a memory.
    fn memory(&self, initial: &str, maximum: &str, marks: &[&str]) -> Result<CoreExtern, WordError>
        ensures { Reads (IsCoreItem (said.Memory initial.entry maximum.entry marks.entry)) result }
    {
        let initial = self.size(initial)?;
        let maximum = self.maximum(maximum)?;
        let marks = self.marks(marks)?;
        Ok(CoreExtern::Memory {
            memory64: marks.is_64,
            shared: marks.is_shared,
            initial,
            maximum,
            page_size_log2: marks.page,
        })
    }

    /// Returns a global.
    fn global(&self, ty: &str, marks: &[&str]) -> Result<CoreExtern, WordError>
        ensures { Reads (IsCoreItem (said.Global ty.entry marks.entry)) result }
    {
        let Some(val_type) = core_type(ty) else {
            return Err(refused(self.alloc, WordFault::NotCoreType, ty));
        };
        let marks = self.marks(marks)?;
        Ok(CoreExtern::Global {
            val_type,
            mutable: marks.is_mutable,
            shared: marks.is_shared,
        })
    }

    /// Returns the import or export of a core module that words say.
    ///
    /// # Errors
    /// A [`WordError`].
    pub(crate) fn core_item(&self, item: CoreItem<'_, '_>) -> Result<CoreExtern, WordError>
        ensures { Reads (IsCoreItem item.entry) result }
    {
        match item {
            CoreItem::Func { params, results } => {
                Ok(CoreExtern::Func(self.core_func(params, results)?))
            }
            CoreItem::Tag { params, results } => {
                Ok(CoreExtern::Tag(self.core_func(params, results)?))
            }
            CoreItem::Table {
                element,
                initial,
                maximum,
                marks,
            } => self.table(element, initial, maximum, marks),
            CoreItem::Memory {
                initial,
                maximum,
                marks,
            } => self.memory(initial, maximum, marks),
            CoreItem::Global { ty, marks } => self.global(ty, marks),
        }
    }

    /// Returns a copy of the import or export of core modules that a label stands for.
    fn core_of(&self, label: &str) -> Result<CoreExtern, WordError>
        ensures { Reads (IsCore (things_of self.now) (cores_of self.now) label.now) result }
    {
        let Thing::Core(number) = self.thing(label)? else {
            return Err(refused(self.alloc, WordFault::NotCore, label));
        };
        match self.core_at(number) {
            Some(item) => {
                let copy = copy_item(self.alloc, item)?;
                Ok(copy)
            }
            None => Err(refused(self.alloc, WordFault::NotCore, label)),
        }
    }

    /// Adds the import `NAME=LABEL` from a module.
    fn add_import(&self, ty: &mut ModuleType, source: &str, word: &str) -> Result<(), WordError>
        ensures { MatchResult result (λ _. AddsImport (things_of self.now) (cores_of self.now) source.now word.now ty.old ty.new) (IsUnread (SayNone (AddsImport (things_of self.now) (cores_of self.now) source.now word.now ty.old))) }
    {
        let (name, label) = split_pair(self.alloc, word)?;
        let item = self.core_of(label)?;
        ty.import(self.alloc, source, name, item)?;
        Ok(())
    }

    /// Takes a word of the imports: `from`, the module after it, or `NAME=LABEL`.
    fn take_import<'a>(
        &self,
        ty: &mut ModuleType,
        source: Source<'a>,
        word: &'a str,
    ) -> Result<Source<'a>, WordError>
        ensures { MatchResult result (λ s. TakesImport (things_of self.now) (cores_of self.now) word.now (importing source.entry ty.old) (importing s ty.new)) (IsUnread (SayNone (TakesImport (things_of self.now) (cores_of self.now) word.now (importing source.entry ty.old)))) }
    {
        if source.is_next {
            return Ok(Source {
                name: word,
                is_next: false,
            });
        }
        match word {
            "from" => Ok(Source {
                name: source.name,
                is_next: true,
            }),
            _ => {
                self.add_import(ty, source.name, word)?;
                Ok(source)
            }
        }
    }

    /// Adds the export `NAME=LABEL`.
    fn add_export(&self, ty: &mut ModuleType, word: &str) -> Result<(), WordError>
        ensures { MatchResult result (λ _. AddsExport (things_of self.now) (cores_of self.now) word.now ty.old ty.new) (IsUnread (SayNone (AddsExport (things_of self.now) (cores_of self.now) word.now ty.old))) }
    {
        let (name, label) = split_pair(self.alloc, word)?;
        let item = self.core_of(label)?;
        ty.export(self.alloc, name, item)?;
        Ok(())
    }

    /// Adds the imports: `from` and a module before the `NAME=LABEL` that are imported from it.
    fn add_imports(&self, ty: &mut ModuleType, words: &[&str]) -> Result<(), WordError>
        ensures { MatchResult result (λ _. AddImports (things_of self.now) (cores_of self.now) (spelled words.now) ty.old ty.new) (IsUnread (SayNone (AddImports (things_of self.now) (cores_of self.now) (spelled words.now) ty.old))) }
    {
        let mut source = Source {
            name: "",
            is_next: false,
        };
        for word in words {
            source = self.take_import(ty, source, word)?;
        }
        if source.is_next {
            return Err(refused(self.alloc, WordFault::OtherWords, "from"));
        }
        Ok(())
    }

    /// Returns the type of a core module: its imports, and its exports `NAME=LABEL`.
    ///
    /// # Errors
    /// A [`WordError`].
    pub(crate) fn module(&self, imports: &[&str], exports: &[&str]) -> Result<ModuleType, WordError>
        ensures { Reads (IsModule (things_of self.now) (cores_of self.now) (spelled imports.now) (spelled exports.now)) result }
    {
        let mut ty = ModuleType::new(self.alloc);
        self.add_imports(&mut ty, imports)?;
        for word in exports {
            self.add_export(&mut ty, word)?;
        }
        Ok(ty)
    }
}
