//! Types rewritten over the resources of a merged collection.
//!
//! Definitions are rewritten without recursion, so the depth of a type is not limited by the stack.
//! A definition waits in a list of tasks until its parts are rewritten. Each definition is rewritten once.
ghost use Rattle.std.specs.Prelude.{◌≡◌, ◌↔◌, ◌++◌, ◌∷◌, [], true, None, IfOk, IfSome, IsTrue, OnOk};
ghost use Rattle.std.specs.List.{AllByRecursion, AllZip};
ghost use Rattle.wac_merge_resources.specs.renaming.MadeOf.{AreMade, IsFuncMadeOf, IsMadeOf, other_name};
ghost use Rattle.wac_merge_tables.specs.made.Made.{StayMade};
ghost use Rattle.wac_types_collection.specs.collection.Collection.{Collection, HasDefined, HasFunc, and_maybe, case_values, defined_values, func_values, holds_value, seconds};
ghost use Rattle.wac_types_collection.specs.collection.Held.{resolved};
ghost use Rattle.wac_types_shapes.specs.primitives.Name.{find_name};
ghost use Rattle.wac_types_shapes.specs.declared.shapes.component.DefinedType.TheVariants as def;
ghost use Rattle.wac_types_shapes.specs.declared.shapes.component.ValueType.TheVariants as val;
ghost use Rattle.wac_types_shapes.specs.declared.shapes.component.«Type».TheVariants as ty;
ghost use Rattle.wac_merge_classes.specs.terms.Became.{AreBoundParts};
ghost use Rattle.wac_merge_resources.specs.private.renaming.RenamedTypes.{AreRenamed, CanRename, becomes, defined_in, func_in};
ghost use Rattle.wac_types_collection.specs.private.subtyping.Extended.{IsExtended, AreHeldValues};
ghost use Rattle.wac_merge_classes.specs.terms.Renaming.{IsRenamed};
ghost use Rattle.wac_merge_resources.specs.private.renaming.Ways.{AreOutward};
ghost use Rattle.wac_merge_resources.specs.private.renaming.RenamingSteps.{AllStay, AreReady, CasesGoTogether, Did, FieldsGoTogether, GoTogether, HasDefinedToo, HasFuncToo, HasSame, HaveOneFuncShape, HaveOneShape, IsBecome, IsDone, IsMore, IsReady, MayBeDone, Stays};
ghost use Rattle.wac_merge_tables.specs.private.tables.Tasks.{IsHeldTask, IsOpening, parts_of};
ghost use Rattle.wac_merge_classes.specs.terms.Unions.{AreAround, IsPart};
ghost use Rattle.wac_merge_resources.specs.declared.renaming.renamer.Renaming.{Renaming as ARenaming};
ghost use Rattle.wac_merge_resources.specs.declared.values.named.NamedTypes.{NamedTypes as ANamedTypes};

use crate::renaming::became::Became;
use std::alloc::{AllocError, Global};
use std::mem::replace;
use wac_merge_tables::made::made::Made;
use wac_merge_tables::tables::rounds::Numbers;
use wac_merge_tables::tables::tasks::{Task, open_fields, open_optional, open_parts, open_value};
use wac_types_collection::subtyping::laws::trees_are_whole;
use wac_types_collection::{
    DefinedType, DefinedTypeId, Enum, Flags, FuncType, FuncTypeId, Labels, Named, Record,
    ResourceId, ShapeError, Types, ValueType, Variant,
};

/// Where types are rewritten: their collection, what its resources become, and the part.
#[derive(Clone, Copy)]
pub struct Renaming<'a> {
    /// The allocator.
    pub alloc: Global,
    /// The collection of the types.
    pub types: &'a Types,
    /// What its resources become.
    pub became: &'a Became<'a>,
    /// The part; `None` outside all parts.
    pub part: Option<usize>,
}

impl<'a> Renaming<'a> {
    /// Returns what a resource becomes.
    pub fn resource(&self, id: ResourceId) -> ResourceId
        requires bound { AreBoundParts self.now.types.now self.now.became.now.parts.now self.now.became.now.bound.now }
        requires outward { AreOutward self.now.became.now.parts.now self.now.became.now.bound.now self.now.became.now.outward.now }
        requires around { AreAround self.now.became.now.parts.now }
        requires within { IsPart self.now.became.now.parts.now self.now.part }
        ensures { result ≡ becomes self.now (resolved self.now.types.now id) }
    {
        self.became.resource(self.types, self.part, id)
    }
}

/// The types that were rewritten in one part, and the definitions and function types that were made in all parts.
pub struct Renamed {
    /// The index of each rewritten definition, by the index of the original.
    defined: Numbers,
    /// The index of each rewritten function type, by the index of the original.
    funcs: Numbers,
    made: Made,
    /// A buffer for tasks, empty between calls.
    tasks: Vec<Task>,
}

// By hand: a derived `Drop` is proved again wherever one goes out of scope (docs/PROOFS.md, 'Drop').
impl Drop for Renamed {
    fn drop(self) {
        let Renamed {
            defined: _,
            funcs: _,
            made: _,
            tasks: _,
        } = self;
    }
}

/// Appends a value under a name that is not there yet.
fn put<V: Drop>(alloc: Global, named: &mut Named<V>, name: &str, value: V) -> Result<(), AllocError>
    requires { find_name named.old name.now ≡ None }
    ensures { OnOk result (named.new ≡ named.old ++ (name.now, value) ∷ []) }
{
    match named.insert(alloc, name, value) {
        Ok(()) => Ok(()),
        Err(ShapeError::NameTwice) => unreachable!(),
        Err(ShapeError::OutOfMemory) => Err(AllocError),
    }
}

/// Copies labels.
fn copied(alloc: Global, labels: &Labels) -> Result<Labels, AllocError>
    ensures { IfOk result (λ l. l ≡ labels.now) }
{
    let mut names = Vec::new(alloc);
    for i in 0..labels.len() {
        names.push(labels.name_at(i))?;
    }
    labels.law(); // proof only
    match Labels::new(alloc, names.as_slice()) {
        Ok(copy) => Ok(copy),
        Err(ShapeError::NameTwice) => unreachable!(),
        Err(ShapeError::OutOfMemory) => Err(AllocError),
    }
}

/// Returns the definition that an alias refers to, if the given one is an alias of a definition.
fn alias_end(definition: &DefinedType) -> Option<DefinedTypeId>
    ensures alias { IfSome result (λ end. definition.now ≡ def.Alias (val.Defined end)) }
    ensures named { result ≡ other_name definition.now }
{
    let DefinedType::Alias(value) = definition else {
        return None;
    };
    match value {
        ValueType::Defined(end) => Some(*end),
        _ => None,
    }
}

impl Renamed {
    /// Returns a memo without rewritten types.
    pub fn new(alloc: Global) -> Renamed
        ensures right { (m : Collection) (s : ARenaming) → AreRenamed m s result }
        ensures made { (c m : Collection) (t : ANamedTypes) → AreMade c t m result.made }
    {
        Renamed {
            defined: Numbers::new(alloc),
            funcs: Numbers::new(alloc),
            made: Made::new(alloc),
            tasks: Vec::new(alloc),
        }
    }

    /// Forgets the rewritten types, before the next part. Definitions and function types that were made are kept.
    pub fn forget(&mut self)
        ensures right { (m : Collection) (s : ARenaming) → AreMade s.types.now s.became.now.named.now m self.old.made → AreRenamed m s self.new }
        ensures made { self.new.made ≡ self.old.made }
    {
        self.defined.clear();
        self.funcs.clear();
    }

    /// Returns the rewritten definition of `id`.
    fn defined(&self, id: DefinedTypeId) -> Option<DefinedTypeId>
        ensures { result ≡ defined_in self.now id }
    {
        let position = self.defined.get(id.0)?;
        Some(DefinedTypeId(position))
    }

    /// Returns the rewritten function type of `id`.
    fn func_type(&self, id: FuncTypeId) -> Option<FuncTypeId>
        ensures { result ≡ func_in self.now id }
    {
        let position = self.funcs.get(id.0)?;
        Some(FuncTypeId(position))
    }

    /// Records the rewritten definition of `id`.
    fn put_defined(&mut self, id: DefinedTypeId, became: DefinedTypeId) -> Result<(), AllocError>
        ensures { OnOk result (HasDefinedToo self.old id became self.new) }
    {
        self.defined.put(id.0, became.0)
    }

    /// Records the rewritten function type of `id`.
    fn put_func(&mut self, id: FuncTypeId, became: FuncTypeId) -> Result<(), AllocError>
        ensures { OnOk result (HasFuncToo self.old id became self.new) }
    {
        self.funcs.put(id.0, became.0)
    }

    /// Takes the buffer for tasks, emptied.
    fn take_tasks(&mut self, alloc: Global) -> Vec<Task>
        ensures none { result.items ≡ [] }
        ensures same { HasSame self.old self.new }
    {
        let mut tasks = replace(&mut self.tasks, Vec::new(alloc));
        tasks.clear();
        tasks
    }

    /// Puts the buffer for tasks back.
    fn keep_tasks(&mut self, tasks: Vec<Task>)
        ensures { HasSame self.old self.new }
    {
        self.tasks = tasks;
    }

    /// Returns a value type, rewritten. A definition must have been rewritten already.
    fn part(&self, merged: &Types, renaming: &Renaming<'_>, value: ValueType) -> ValueType
        requires held { holds_value renaming.now.types.now value ≡ true }
        requires ready { IsReady self.now value }
        requires known { CanRename merged.now renaming.now }
        ensures { IsBecome renaming.now self.now value result }
    {
        // `merged` serves the contract alone.
        let _ = merged;
        match value {
            ValueType::Primitive(_) => value,
            ValueType::Own(id) => ValueType::Own(renaming.resource(id)),
            ValueType::Borrow(id) => ValueType::Borrow(renaming.resource(id)),
            ValueType::Defined(id) => ValueType::Defined(self.defined(id).unwrap()),
        }
    }

    /// Returns an optional value type, rewritten.
    fn optional(
        &self,
        merged: &Types,
        renaming: &Renaming<'_>,
        value: Option<ValueType>,
    ) -> Option<ValueType>
        requires held { AreHeldValues renaming.now.types.now (and_maybe value []) }
        requires ready { AreReady self.now (and_maybe value []) }
        requires known { CanRename merged.now renaming.now }
        ensures { GoTogether (IsBecome renaming.now self.now) value result }
    {
        match value {
            Some(value) => Some(self.part(merged, renaming, value)),
            None => None,
        }
    }

    /// Returns value types, rewritten, in order.
    fn parts(
        &self,
        merged: &Types,
        renaming: &Renaming<'_>,
        values: &[ValueType],
    ) -> Result<Vec<ValueType>, AllocError>
        requires held { AreHeldValues renaming.now.types.now values.now }
        requires ready { AreReady self.now values.now }
        requires known { CanRename merged.now renaming.now }
        ensures { IfOk result (λ ws. AllZip (IsBecome renaming.now self.now) values.now ws.items) }
    {
        let mut renamed = Vec::new(renaming.alloc);
        for i in 0..values.len() {
            renamed.push(self.part(merged, renaming, values[i]))?;
        }
        Ok(renamed)
    }

    /// Returns fields or parameters with their types rewritten.
    fn fields(
        &self,
        merged: &Types,
        renaming: &Renaming<'_>,
        fields: &Named<ValueType>,
    ) -> Result<Named<ValueType>, AllocError>
        requires held { AreHeldValues renaming.now.types.now (seconds fields.now) }
        requires ready { AreReady self.now (seconds fields.now) }
        requires known { CanRename merged.now renaming.now }
        ensures { IfOk result (λ es. FieldsGoTogether (IsBecome renaming.now self.now) fields.now es) }
    {
        fields.law(); // proof only
        let mut renamed = Named::with_capacity(renaming.alloc, fields.len())?;
        for i in 0..fields.len() {
            let (name, value) = fields.entry_at(i);
            let value = self.part(merged, renaming, *value);
            put(renaming.alloc, &mut renamed, name, value)?;
        }
        Ok(renamed)
    }

    /// Returns cases with their types rewritten.
    fn cases(
        &self,
        merged: &Types,
        renaming: &Renaming<'_>,
        cases: &Named<Option<ValueType>>,
    ) -> Result<Named<Option<ValueType>>, AllocError>
        requires held { AreHeldValues renaming.now.types.now (case_values cases.now) }
        requires ready { AreReady self.now (case_values cases.now) }
        requires known { CanRename merged.now renaming.now }
        ensures { IfOk result (λ es. CasesGoTogether (IsBecome renaming.now self.now) cases.now es) }
    {
        cases.law(); // proof only
        let mut renamed = Named::with_capacity(renaming.alloc, cases.len())?;
        for i in 0..cases.len() {
            let (name, value) = cases.entry_at(i);
            let value = self.optional(merged, renaming, *value);
            put(renaming.alloc, &mut renamed, name, value)?;
        }
        Ok(renamed)
    }

    /// Returns the tuple of these value types, rewritten.
    fn tuple(
        &self,
        merged: &Types,
        renaming: &Renaming<'_>,
        values: &[ValueType],
    ) -> Result<DefinedType, AllocError>
        requires held { AreHeldValues renaming.now.types.now values.now }
        requires ready { AreReady self.now values.now }
        requires known { CanRename merged.now renaming.now }
        ensures { IfOk result (λ d. HaveOneShape (IsBecome renaming.now self.now) (def.Tuple values.now) d) }
    {
        let parts = self.parts(merged, renaming, values)?;
        DefinedType::tuple(renaming.alloc, parts.as_slice())
    }

    /// Returns a definition, rewritten. Its parts must have been rewritten already.
    fn definition(
        &self,
        merged: &Types,
        renaming: &Renaming<'_>,
        definition: &DefinedType,
    ) -> Result<DefinedType, AllocError>
        requires held { AreHeldValues renaming.now.types.now (defined_values definition.now) }
        requires ready { AreReady self.now (defined_values definition.now) }
        requires known { CanRename merged.now renaming.now }
        ensures { IfOk result (λ d. HaveOneShape (IsBecome renaming.now self.now) definition.now d) }
    {
        let alloc = renaming.alloc;
        let renamed = match definition {
            DefinedType::Tuple(parts) => self.tuple(merged, renaming, parts.as_slice())?,
            DefinedType::List(value) => DefinedType::List(self.part(merged, renaming, *value)),
            DefinedType::FixedSizeList(value, length) => {
                DefinedType::FixedSizeList(self.part(merged, renaming, *value), *length)
            }
            DefinedType::Option(value) => DefinedType::Option(self.part(merged, renaming, *value)),
            DefinedType::Result { ok, err } => {
                let ok = self.optional(merged, renaming, *ok);
                let err = self.optional(merged, renaming, *err);
                DefinedType::Result { ok, err }
            }
            DefinedType::Variant(variant) => DefinedType::Variant(Variant {
                cases: self.cases(merged, renaming, &variant.cases)?,
            }),
            DefinedType::Record(record) => DefinedType::Record(Record {
                fields: self.fields(merged, renaming, &record.fields)?,
            }),
            DefinedType::Flags(flags) => DefinedType::Flags(Flags(copied(alloc, &flags.0)?)),
            DefinedType::Enum(cases) => DefinedType::Enum(Enum(copied(alloc, &cases.0)?)),
            DefinedType::Alias(value) => DefinedType::Alias(self.part(merged, renaming, *value)),
            DefinedType::Stream(of) => DefinedType::Stream(self.optional(merged, renaming, *of)),
            DefinedType::Future(of) => DefinedType::Future(self.optional(merged, renaming, *of)),
        };
        Ok(renamed)
    }

    /// Returns a function type, rewritten. Its parts must have been rewritten already.
    fn function(
        &self,
        merged: &Types,
        renaming: &Renaming<'_>,
        func: &FuncType,
    ) -> Result<FuncType, AllocError>
        requires held { AreHeldValues renaming.now.types.now (func_values func.now) }
        requires ready { AreReady self.now (func_values func.now) }
        requires known { CanRename merged.now renaming.now }
        ensures { IfOk result (HaveOneFuncShape (IsBecome renaming.now self.now) func.now) }
    {
        Ok(FuncType {
            params: self.fields(merged, renaming, &func.params)?,
            result: self.optional(merged, renaming, func.result),
            is_async: func.is_async,
        })
    }

    /// Returns whether rewriting leaves a value type unchanged.
    fn stays(&self, merged: &Types, renaming: &Renaming<'_>, value: ValueType) -> bool
        requires held { holds_value renaming.now.types.now value ≡ true }
        requires ready { IsReady self.now value }
        requires known { CanRename merged.now renaming.now }
        ensures { IsTrue result ↔ Stays renaming.now self.now value }
    {
        self.part(merged, renaming, value) == value
    }

    /// Returns whether rewriting leaves an optional value type unchanged.
    fn optional_stays(
        &self,
        merged: &Types,
        renaming: &Renaming<'_>,
        value: Option<ValueType>,
    ) -> bool
        requires held { AreHeldValues renaming.now.types.now (and_maybe value []) }
        requires ready { AreReady self.now (and_maybe value []) }
        requires known { CanRename merged.now renaming.now }
        ensures { IsTrue result ↔ AllStay renaming.now self.now (and_maybe value []) }
    {
        match value {
            Some(value) => self.stays(merged, renaming, value),
            None => true,
        }
    }

    /// Returns whether rewriting leaves each value type unchanged.
    fn parts_stay(&self, merged: &Types, renaming: &Renaming<'_>, values: &[ValueType]) -> bool
        requires held { AreHeldValues renaming.now.types.now values.now }
        requires ready { AreReady self.now values.now }
        requires known { CanRename merged.now renaming.now }
        ensures { IsTrue result ↔ AllStay renaming.now self.now values.now }
    {
        for i in 0..values.len() {
            if !self.stays(merged, renaming, values[i]) {
                return false;
            }
        }
        true
    }

    /// Returns whether rewriting leaves the types of fields or parameters unchanged.
    fn fields_stay(
        &self,
        merged: &Types,
        renaming: &Renaming<'_>,
        fields: &Named<ValueType>,
    ) -> bool
        requires held { AreHeldValues renaming.now.types.now (seconds fields.now) }
        requires ready { AreReady self.now (seconds fields.now) }
        requires known { CanRename merged.now renaming.now }
        ensures { IsTrue result ↔ AllStay renaming.now self.now (seconds fields.now) }
    {
        for i in 0..fields.len() {
            if !self.stays(merged, renaming, *fields.value_at(i)) {
                return false;
            }
        }
        true
    }

    /// Returns whether rewriting leaves the types of cases unchanged.
    fn cases_stay(
        &self,
        merged: &Types,
        renaming: &Renaming<'_>,
        cases: &Named<Option<ValueType>>,
    ) -> bool
        requires held { AreHeldValues renaming.now.types.now (case_values cases.now) }
        requires ready { AreReady self.now (case_values cases.now) }
        requires known { CanRename merged.now renaming.now }
        ensures { IsTrue result ↔ AllStay renaming.now self.now (case_values cases.now) }
    {
        for i in 0..cases.len() {
            if !self.optional_stays(merged, renaming, *cases.value_at(i)) {
                return false;
            }
        }
        true
    }

    /// Returns whether rewriting leaves each part of a definition unchanged.
    fn definition_stays(
        &self,
        merged: &Types,
        renaming: &Renaming<'_>,
        definition: &DefinedType,
    ) -> bool
        requires held { AreHeldValues renaming.now.types.now (defined_values definition.now) }
        requires ready { AreReady self.now (defined_values definition.now) }
        requires known { CanRename merged.now renaming.now }
        ensures { IsTrue result ↔ AllStay renaming.now self.now (defined_values definition.now) }
    {
        match definition {
            DefinedType::Tuple(parts) => self.parts_stay(merged, renaming, parts.as_slice()),
            DefinedType::List(value) => self.stays(merged, renaming, *value),
            DefinedType::FixedSizeList(value, _) => self.stays(merged, renaming, *value),
            DefinedType::Option(value) => self.stays(merged, renaming, *value),
            DefinedType::Result { ok, err } => {
                self.optional_stays(merged, renaming, *ok)
                    && self.optional_stays(merged, renaming, *err)
            }
            DefinedType::Variant(variant) => self.cases_stay(merged, renaming, &variant.cases),
            DefinedType::Record(record) => self.fields_stay(merged, renaming, &record.fields),
            DefinedType::Flags(_) => true,
            DefinedType::Enum(_) => true,
            DefinedType::Alias(value) => self.stays(merged, renaming, *value),
            DefinedType::Stream(of) => self.optional_stays(merged, renaming, *of),
            DefinedType::Future(of) => self.optional_stays(merged, renaming, *of),
        }
    }

    /// Returns whether rewriting leaves the parameters and the result of a function type unchanged.
    fn func_stays(&self, merged: &Types, renaming: &Renaming<'_>, func: &FuncType) -> bool
        requires held { AreHeldValues renaming.now.types.now (func_values func.now) }
        requires ready { AreReady self.now (func_values func.now) }
        requires known { CanRename merged.now renaming.now }
        ensures { IsTrue result ↔ AllStay renaming.now self.now (func_values func.now) }
    {
        self.optional_stays(merged, renaming, func.result)
            && self.fields_stay(merged, renaming, &func.params)
    }

    /// Rewrites a definition whose parts were rewritten.
    ///
    /// An alias of a definition gets the rewritten form of that definition.
    fn close(
        &mut self,
        merged: &mut Types,
        renaming: &Renaming<'_>,
        id: DefinedTypeId,
    ) -> Result<(), AllocError>
        requires held { HasDefined renaming.now.types.now id }
        requires ready { AreReady self.old (parts_of renaming.now.types.now id) }
        requires known { CanRename merged.old renaming.now }
        requires right { AreRenamed merged.old renaming.now self.old }
        ensures extended { IsExtended merged.old merged.new }
        ensures right { OnOk result (AreRenamed merged.new renaming.now self.new) }
        ensures more { OnOk result (IsMore self.old self.new) }
        ensures done { OnOk result (IsReady self.new (val.Defined id)) }
    {
        renaming.types.law(); // proof only
        trees_are_whole(renaming.types); // proof only
        let definition = &renaming.types[id];
        if let Some(end) = alias_end(definition) {
            let became = self.defined(end).unwrap();
            return self.put_defined(id, became);
        }
        let named = renaming.became.named.of(id);
        if self.definition_stays(merged, renaming, definition) {
            let kept = self
                .made
                .keep(renaming.alloc, merged, named, definition, id)?;
            trees_are_whole(merged); // proof only
            return self.put_defined(id, kept);
        }
        let definition = self.definition(merged, renaming, definition)?;
        let became = self.made.make(renaming.alloc, merged, named, definition)?;
        trees_are_whole(merged); // proof only
        self.put_defined(id, became)
    }

    /// Performs a task: rewrites its definition, or pushes the definition again and its parts after it.
    fn perform(
        &mut self,
        merged: &mut Types,
        renaming: &Renaming<'_>,
        task: Task,
        tasks: &mut Vec<Task>,
    ) -> Result<(), AllocError>
        requires held { IsHeldTask renaming.now.types.now task }
        requires ready { MayBeDone renaming.now.types.now self.old task }
        requires known { CanRename merged.old renaming.now }
        requires right { AreRenamed merged.old renaming.now self.old }
        ensures extended { IsExtended merged.old merged.new }
        ensures right { OnOk result (AreRenamed merged.new renaming.now self.new) }
        ensures did { OnOk result (Did renaming.now.types.now task self.old self.new tasks.old.items tasks.new.items) }
    {
        match task {
            Task::Open(id) => {
                if let Some(_) = self.defined(id) {
                    return Ok(());
                }
                tasks.push(Task::Close(id))?;
                open_parts(tasks, &renaming.types[id])
            }
            Task::Close(id) => self.close(merged, renaming, id),
        }
    }

    /// Rewrites the definitions of the tasks and all that these depend on.
    fn finish(
        &mut self,
        merged: &mut Types,
        renaming: &Renaming<'_>,
        mut tasks: Vec<Task>,
    ) -> Result<(), AllocError>
        requires held { AllByRecursion (IsHeldTask renaming.now.types.now) tasks.items }
        requires opened { AllByRecursion IsOpening tasks.items }
        requires known { CanRename merged.old renaming.now }
        requires right { AreRenamed merged.old renaming.now self.old }
        ensures extended { IsExtended merged.old merged.new }
        ensures right { OnOk result (AreRenamed merged.new renaming.now self.new) }
        ensures done { OnOk result (AllByRecursion (IsDone self.new) tasks.items) }
        ensures stay { OnOk result (StayMade self.old.made self.new.made) }
    {
        renaming.types.law(); // proof only
        merged.law(); // proof only
        while let Some(task) = tasks.pop() {
            self.perform(merged, renaming, task, &mut tasks)?;
        }
        self.keep_tasks(tasks);
        Ok(())
    }

    /// Rewrites the definitions that a function type depends on.
    fn reach(
        &mut self,
        merged: &mut Types,
        renaming: &Renaming<'_>,
        func: &FuncType,
    ) -> Result<(), AllocError>
        requires held { AreHeldValues renaming.now.types.now (func_values func.now) }
        requires known { CanRename merged.old renaming.now }
        requires right { AreRenamed merged.old renaming.now self.old }
        ensures extended { IsExtended merged.old merged.new }
        ensures right { OnOk result (AreRenamed merged.new renaming.now self.new) }
        ensures ready { OnOk result (AreReady self.new (func_values func.now)) }
        ensures stay { OnOk result (StayMade self.old.made self.new.made) }
    {
        let mut tasks = self.take_tasks(renaming.alloc);
        open_optional(&mut tasks, func.result)?;
        open_fields(&mut tasks, &func.params)?;
        self.finish(merged, renaming, tasks)
    }

    /// Returns a value type, rewritten, and adds the definitions that it needs to the merged collection.
    ///
    /// # Errors
    /// - [`AllocError`] if out of memory. The merged collection may then hold more types.
    pub fn value(
        &mut self,
        merged: &mut Types,
        renaming: &Renaming<'_>,
        value: ValueType,
    ) -> Result<ValueType, AllocError>
        requires held { holds_value renaming.now.types.now value ≡ true }
        requires known { CanRename merged.old renaming.now }
        requires right { AreRenamed merged.old renaming.now self.old }
        ensures extended { IsExtended merged.old merged.new }
        ensures right { OnOk result (AreRenamed merged.new renaming.now self.new) }
        ensures value { IfOk result (λ w. IsRenamed renaming.now.types.now merged.new (becomes renaming.now) (ty.Value value) (ty.Value w)) }
        ensures once { IfOk result (λ w. IsMadeOf renaming.now.types.now (becomes renaming.now) renaming.now.became.now.named.now self.new.made value w) }
        ensures stay { OnOk result (StayMade self.old.made self.new.made) }
    {
        if let ValueType::Defined(id) = value {
            if let Some(became) = self.defined(id) {
                return Ok(ValueType::Defined(became));
            }
        }
        merged.law(); // proof only
        let mut tasks = self.take_tasks(renaming.alloc);
        open_value(&mut tasks, value)?;
        self.finish(merged, renaming, tasks)?;
        Ok(self.part(merged, renaming, value))
    }

    /// Returns a function type, rewritten, and adds what it needs to the merged collection.
    ///
    /// # Errors
    /// - [`AllocError`] if out of memory. The merged collection may then hold more types.
    pub fn func(
        &mut self,
        merged: &mut Types,
        renaming: &Renaming<'_>,
        id: FuncTypeId,
    ) -> Result<FuncTypeId, AllocError>
        requires held { HasFunc renaming.now.types.now id }
        requires known { CanRename merged.old renaming.now }
        requires right { AreRenamed merged.old renaming.now self.old }
        ensures extended { IsExtended merged.old merged.new }
        ensures right { OnOk result (AreRenamed merged.new renaming.now self.new) }
        ensures func { IfOk result (λ g. IsRenamed renaming.now.types.now merged.new (becomes renaming.now) (ty.Func id) (ty.Func g)) }
        ensures once { IfOk result (λ g. IsFuncMadeOf renaming.now.types.now merged.new (becomes renaming.now) renaming.now.became.now.named.now self.new.made id g) }
        ensures stay { OnOk result (StayMade self.old.made self.new.made) }
    {
        if let Some(became) = self.func_type(id) {
            return Ok(became);
        }
        renaming.types.law(); // proof only
        trees_are_whole(renaming.types); // proof only
        merged.law(); // proof only
        let func = &renaming.types[id];
        self.reach(merged, renaming, func)?;
        if self.func_stays(merged, renaming, func) {
            trees_are_whole(merged); // proof only
            self.put_func(id, id)?;
            return Ok(id);
        }
        let renamed = self.function(merged, renaming, func)?;
        let became = self.made.make_func(renaming.alloc, merged, id, renamed)?;
        trees_are_whole(merged); // proof only
        self.put_func(id, became)?;
        Ok(became)
    }
}
