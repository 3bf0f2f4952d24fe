//! The memo of definitions and function types of a merged collection.
//!
//! A definition is added once for each named type, a function type once for each function type that it is rewritten
//! from.
ghost use Rattle.std.specs.Prelude.{◌≡◌, None, Some, IfOk, OnOk};
ghost use Rattle.std.specs.Option.{unwrap_or};
ghost use Rattle.wac_types_collection.specs.collection.Collection.{Collection, HasDefined, defined_values, func_values, item_at, seconds};
ghost use Rattle.wac_types_collection.specs.declared.collection.collection.AddTypeError.TheVariants.{OutOfMemory};
ghost use Rattle.wac_types_collection.specs.private.subtyping.Extended.{AreHeldValues, IsExtended};
ghost use Rattle.wac_merge_tables.specs.made.Made.{AreApart, AreThere, HasMadeFuncToo, HasMadeToo, IsCalledAlike, IsFuncMadeFor, IsMadeFor, NamedTypeOf, StayMade, func_made_in, made_in, IsDefinedBehind, IsFuncBehind};
ghost use Rattle.wac_merge_tables.specs.made.Shapes.{shape_view};
ghost use Rattle.wac_merge_tables.specs.private.made.FormHash.{form_alike, form_writes, func_form_alike, func_form_writes};
ghost use Rattle.wac_merge_tables.specs.declared.made.made.Form.{Form as AForm};

use crate::made::shapes::{Shape, hash_optional, hash_values};
use std::alloc::{AllocError, Global};
use std::collections::HashMap;
use std::hash::{Hash, Hasher};
use wac_types_collection::subtyping::laws::growth_keeps_trees;
use wac_types_collection::{
    AddTypeError, DefinedType, DefinedTypeId, FuncType, FuncTypeId, Named, Types, ValueType,
};

/// The key of a definition: its shape, and the named type that it is, if any.
///
/// Definitions with one name in a merged interface are one named type, which the first of them represents.
#[derive(PartialEq, Eq, Drop)]
pub struct Form {
    /// The named type, as the first definition of it.
    pub named: Option<DefinedTypeId>,
    /// The shape of the definition.
    pub shape: Shape,
}

/// The key of a function type: the one that it is rewritten from, and its parameter and result types.
#[derive(PartialEq, Eq, Drop)]
pub struct FuncForm {
    /// The original function type.
    pub func: FuncTypeId,
    /// The parameter types, in order.
    pub params: Vec<ValueType>,
    /// The result type.
    pub result: Option<ValueType>,
}

// The named type is hashed only if there is one, which saves a write.
impl Hash for Form {
    ghost hash_input = { form_writes };

    ghost respects_eq = { λ a b e. form_alike a b e };

    fn hash<H: Hasher>(&self, state: &mut H) {
        if let Some(named) = self.named {
            named.0.hash(state);
        }
        self.shape.hash(state);
    }
}

// The parameter and result types are hashed without their variants, each in one write.
impl Hash for FuncForm {
    ghost hash_input = { func_form_writes };

    ghost respects_eq = { λ a b e. func_form_alike a b e };

    fn hash<H: Hasher>(&self, state: &mut H) {
        self.func.0.hash(state);
        hash_values(self.params.as_slice(), state);
        hash_optional(self.result, state);
    }
}

/// The ids of the definitions and function types that were added, by their keys.
#[derive(Drop)]
pub struct Made {
    ids: HashMap<Form, DefinedTypeId>,
    funcs: HashMap<FuncForm, FuncTypeId>,
}

/// Returns the error of an adder for which only memory can have run out.
pub(crate) fn out_of_memory(fault: AddTypeError) -> AllocError
    requires { fault ≡ OutOfMemory }
{
    let AddTypeError::OutOfMemory = fault else {
        unreachable!()
    };
    AllocError
}

/// Returns the types of parameters, in order.
fn param_types(alloc: Global, params: &Named<ValueType>) -> Result<Vec<ValueType>, AllocError>
    ensures { IfOk result (λ types. types.items ≡ seconds params.now) }
{
    let mut types = Vec::with_capacity(alloc, params.len())?;
    for i in 0..params.len() {
        types.push(*params.value_at(i))?;
    }
    Ok(types)
}

/// Adds a function type whose parts the collection holds.
fn add_func(merged: &mut Types, func: FuncType) -> Result<FuncTypeId, AllocError>
    requires held { AreHeldValues merged.old (func_values func) }
    ensures extended { IsExtended merged.old merged.new }
    ensures added { IfOk result (λ id. IsFuncBehind merged.old merged.new func id) }
{
    growth_keeps_trees(merged); // proof only
    match merged.add_func_type(func) {
        Ok(id) => Ok(id),
        Err(fault) => Err(out_of_memory(fault)),
    }
}

impl Form {
    /// Returns the key of a definition.
    fn of(
        alloc: Global,
        named: Option<DefinedTypeId>,
        definition: &DefinedType,
    ) -> Result<Form, AllocError>
        ensures named { IfOk result (λ f. f.named ≡ named) }
        ensures shape { IfOk result (λ f. shape_view f.shape ≡ definition.now) }
    {
        let shape = Shape::of(alloc, definition)?;
        Ok(Form { named, shape })
    }
}

impl Made {
    /// Creates an empty memo.
    pub fn new(alloc: Global) -> Made
        ensures there { (m : Collection) → AreThere m result }
        ensures apart { (c : Collection) (t : NamedTypeOf) → AreApart c t result }
    {
        Made {
            ids: HashMap::new(alloc),
            funcs: HashMap::new(alloc),
        }
    }

    /// Returns the id of a definition.
    fn get(&self, form: &Form) -> Option<DefinedTypeId>
        ensures { result ≡ made_in self.now form.now }
    {
        self.ids.get(form).copied()
    }

    /// Records the id of a definition.
    fn put(&mut self, form: Form, id: DefinedTypeId) -> Result<(), AllocError>
        ensures { OnOk result (HasMadeToo self.old form id self.new) }
    {
        match self.ids.insert(form, id) {
            Ok(_) => Ok(()),
            Err(_) => Err(AllocError),
        }
    }

    /// Returns the recorded id of a definition, or records this one and returns it.
    fn get_or_put(&mut self, form: Form, id: DefinedTypeId) -> Result<DefinedTypeId, AllocError>
        ensures put { IfOk result (λ e. HasMadeToo self.old form e self.new) }
        ensures is { IfOk result (λ e. e ≡ unwrap_or (made_in self.old form) id) }
    {
        Ok(*self.ids.entry(form)?.or_insert(id))
    }

    /// Returns the id of a function type.
    fn func(&self, form: &FuncForm) -> Option<FuncTypeId>
        ensures { result ≡ func_made_in self.now form.now }
    {
        self.funcs.get(form).copied()
    }

    /// Records the id of a function type.
    fn put_func(&mut self, form: FuncForm, id: FuncTypeId) -> Result<(), AllocError>
        ensures { OnOk result (HasMadeFuncToo self.old form id self.new) }
    {
        match self.funcs.insert(form, id) {
            Ok(_) => Ok(()),
            Err(_) => Err(AllocError),
        }
    }

    /// Returns the id of a definition for a named type, and adds the definition if it is not recorded.
    ///
    /// The collection must hold the parts of the definition.
    ///
    /// # Errors
    /// - [`AllocError`] if out of memory. The collection may then hold the definition.
    pub fn make(
        &mut self,
        alloc: Global,
        merged: &mut Types,
        named: Option<DefinedTypeId>,
        definition: DefinedType,
    ) -> Result<DefinedTypeId, AllocError>
        requires held { AreHeldValues merged.old (defined_values definition) }
        requires made { AreThere merged.old self.old }
        ensures extended { IsExtended merged.old merged.new }
        ensures made { OnOk result (AreThere merged.new self.new) }
        ensures apart { OnOk result ((c : Collection) (t : NamedTypeOf) → IsExtended c merged.old → AreApart c t self.old → AreApart c t self.new) }
        ensures added { IfOk result (λ id. IsDefinedBehind merged.old merged.new definition id) }
        ensures once { IfOk result (λ id. (f : AForm) → f.named ≡ named → shape_view f.shape ≡ definition → made_in self.new f ≡ Some id) }
        ensures named { IfOk result (λ id. IsMadeFor self.new named definition id) }
        ensures stay { OnOk result (StayMade self.old self.new) }
    {
        let form = Form::of(alloc, named, &definition)?;
        if let Some(id) = self.get(&form) {
            return Ok(id);
        }
        growth_keeps_trees(merged); // proof only
        match merged.add_defined_type(definition) {
            Ok(id) => {
                self.put(form, id)?;
                Ok(id)
            }
            Err(fault) => Err(out_of_memory(fault)),
        }
    }

    /// Returns the id of a definition whose parts are unchanged: the one recorded for the named type, else its own.
    ///
    /// # Errors
    /// - [`AllocError`] if out of memory.
    pub fn keep(
        &mut self,
        alloc: Global,
        merged: &Types,
        named: Option<DefinedTypeId>,
        definition: &DefinedType,
        id: DefinedTypeId,
    ) -> Result<DefinedTypeId, AllocError>
        requires there { item_at merged.now.defined id.0 ≡ Some definition.now }
        requires made { AreThere merged.now self.old }
        ensures made { OnOk result (AreThere merged.now self.new) }
        ensures apart { OnOk result ((c : Collection) (t : NamedTypeOf) → HasDefined c id → named ≡ t id → AreApart c t self.old → AreApart c t self.new) }
        ensures there { IfOk result (λ e. item_at merged.now.defined e.0 ≡ Some definition.now) }
        ensures itself { IfOk result (λ e. ((f : AForm) → f.named ≡ named → shape_view f.shape ≡ definition.now → made_in self.old f ≡ None) → e ≡ id) }
        ensures named { IfOk result (λ e. IsMadeFor self.new named definition.now e) }
        ensures stay { OnOk result (StayMade self.old self.new) }
    {
        // `merged` serves the contract alone.
        let _ = merged;
        let form = Form::of(alloc, named, definition)?;
        let kept = self.get_or_put(form, id)?;
        Ok(kept)
    }

    /// Returns the id of a function type that is rewritten from `of`, and adds the function type if it is not recorded.
    ///
    /// It must have the parameter names of the original and differ from it. The collection must hold its parts.
    ///
    /// # Errors
    /// - [`AllocError`] if out of memory. The collection may then hold the function type.
    pub fn make_func(
        &mut self,
        alloc: Global,
        merged: &mut Types,
        of: FuncTypeId,
        func: FuncType,
    ) -> Result<FuncTypeId, AllocError>
        requires held { AreHeldValues merged.old (func_values func) }
        requires alike { IsCalledAlike merged.old of func }
        requires changed { item_at merged.old.funcs of.0 ≡ Some func → ⊥ }
        requires made { AreThere merged.old self.old }
        ensures extended { IsExtended merged.old merged.new }
        ensures made { OnOk result (AreThere merged.new self.new) }
        ensures apart { OnOk result ((c : Collection) (t : NamedTypeOf) → AreApart c t self.old → AreApart c t self.new) }
        ensures added { IfOk result (λ id. IsFuncBehind merged.old merged.new func id) }
        ensures once { IfOk result (λ id. IsFuncMadeFor self.new of func id) }
        ensures stay { OnOk result (StayMade self.old self.new) }
    {
        let params = param_types(alloc, &func.params)?;
        let result = func.result;
        let form = FuncForm {
            func: of,
            params,
            result,
        };
        if let Some(id) = self.func(&form) {
            return Ok(id);
        }
        let id = add_func(merged, func)?;
        self.put_func(form, id)?;
        Ok(id)
    }
}
