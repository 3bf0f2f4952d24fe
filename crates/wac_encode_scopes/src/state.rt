//! The stack of open scopes.

ghost use Rattle.wac_encode_scopes.specs.private.Paid.{PaidBy, PaidFor, KeepsTypes, IsSizedAs, IsFuncSizedAs, ClosesPaid, IsOwnResource, IsUncharged};
ghost use Rattle.wac_types_collection.specs.collection.Collection.{HasDefined};
ghost use Rattle.wac_types_weight.specs.Weight.{is_scope};
ghost use Rattle.std.specs.Prelude.{◌≡◌, ◌≤◌, ◌∷◌, ◌++◌, [], length, ℕ, IfOk, IfErr, OnOk, OnErr, IfSome, None, Some, true, false, List, Bool, ◌+◌, ◌*◌};
ghost use Rattle.wac_types_shapes.specs.primitives.Name.{Name};
ghost use Rattle.wac_types_shapes.specs.declared.shapes.component.DefinedType.{DefinedType as Definition};
ghost use Rattle.wac_types_shapes.specs.declared.shapes.component.FuncType.{FuncType as Function};
ghost use Rattle.wac_types_shapes.specs.declared.shapes.component.ValueType.TheVariants as val;
ghost use Rattle.wac_types_shapes.specs.declared.shapes.component.«Type».TheVariants as ty;
ghost use Rattle.wac_types_collection.specs.collection.Collection.{Collection, IsWellFormed, item_at};
ghost use Rattle.wac_types_collection.specs.collection.Held.{resolved};
ghost use Rattle.wac_binary.specs.Views.{defined_of, func_of};
ghost use Rattle.wac_binary.specs.declared.fault.BinaryFault.TheVariants.{OutOfMemory};
ghost use Rattle.wac_encode_stacks.specs.Scopes.{Where, at_type, at_export, How as AnyHow, defined, listed, bind_at, index_at, export_at};
ghost use Rattle.wac_encode_stacks.specs.Good.{Good, IsClosed, nothing_bound, top};
ghost use Rattle.wac_types_collection.specs.collection.Bound.{Bindings};
ghost use Rattle.wac_types_shapes.specs.primitives.Tree.{Leaf};
ghost use Rattle.wac_binary.specs.declared.sorts.Description.TheVariants as e;
ghost use Rattle.wac_binary.specs.Items.{decls};
ghost use Rattle.wac_binary.specs.Indexes.{space, described_sort};
ghost use Rattle.wac_binary.specs.HasMeaning.{ImportNothing};
ghost use Rattle.wac_encode_scopes.specs.declared.encodable.Encodable.TheVariants.{Builder, Component};
ghost use Rattle.wac_encode_scopes.specs.Contents.{HasSide, IsInstanceType, side_of, declarations_of, count_of, and_item};
ghost use Rattle.wac_encode_scopes.specs.Books.{opened, how_of};
ghost use Rattle.wac_encode_scopes.specs.private.Listing.{ListsItem, ListsResource, BindsExport, BindsType, MayTell, Opens, Closes, ClosesInto, IsSame, IsNonempty};
ghost use Rattle.wac_encode_stacks.specs.private.Parts.{IsReached};
ghost use Rattle.wac_encode_stacks.specs.private.Inside.{next_type_at};
ghost use Rattle.wac_encode_scopes.specs.States.{stack, RecordsHere, KeepsRecords, named_in, IsNamedAt, Crosses, AllAddTypes, Goes, GoesForAll, SaysWritten, SaysWrittenFunc, IsRecordedAt, IsTypeAt, IsBound, IsResourceAt, IsPlace};
ghost use Rattle.wac_encode_scopes.specs.private.Steps.{StateChanges, settled, settled_value};

use crate::book::{How, Place};
use crate::encodable::Encodable;
use crate::scope::Scope;
use crate::side::Side;
use std::alloc::Global;
use std::mem::replace;
use wac_binary::{
    BinaryFault, ComponentBuilder, ComponentType, DefinedType, Description, FuncType,
};
use wac_encode_stacks::{
    bringing_law, closing_law, described_law, index_law, inside_law, listing_law, root_law,
    size_law, step_law, still_law,
};
use wac_types_collection::{DefinedTypeId, FuncTypeId, ResourceId, Text, Type, ValueType};

/// The stack of open scopes. The bottom scope is the outermost one.
///
/// In each method, `merged` says which collection the ids are of: the merged one, or else the graph's own.
///
/// A call that fails may have appended types and aliases of types to the content of the scopes. After that the records
/// must not be used. Methods whose errors change less say so.
pub struct State {
    pub(crate) around: Vec<Scope>,
    pub(crate) here: Scope,
}

// By hand: a derived `Drop` is proved again wherever one goes out of scope (docs/PROOFS.md, 'Drop').
impl Drop for State {
    fn drop(self) {
        let State { around: _, here: _ } = self;
    }
}

impl State {
    /// Finds the innermost scope that records a resource.
    ///
    /// Returns how many scopes out it is and the place of the resource there. The place is a type index and `true`, or
    /// the index of the instance that exports it and `false`. The last number counts the scopes that were searched.
    pub fn find(&self, merged: bool, resource: ResourceId) -> (Option<(usize, u32, bool)>, usize)
        ensures found { IfSome result.0 (λ f. (w : Where) × IsReached (stack merged self.now) resource f.0 w × IsPlace w f.1 f.2) }
        ensures none { result.0 ≡ None → (k : ℕ) (w : Where) → IsReached (stack merged self.now) resource k w → ⊥ }
        ensures probes { result.1 ≤ length (stack merged self.now) }
    {
        if let Some((index, is_type)) = self.here.resource(merged, resource) {
            return (Some((0, index, is_type)), 1);
        }
        let mut left = self.around.len();
        let mut out = 0;
        let mut probes = 1;
        while left > 0 {
            left -= 1;
            out += 1;
            if self.around[left].has_resources(merged) {
                probes += 1;
                if let Some((index, is_type)) = self.around[left].resource(merged, resource) {
                    return (Some((out, index, is_type)), probes);
                }
            }
        }
        (None, probes)
    }

    /// Whether a resource is bound in the innermost scope.
    pub fn is_bound(&self, merged: bool, resource: ResourceId) -> bool
        ensures bound { result ≡ true → (c : Collection) (ms : List Bindings) → Good c ms (stack merged self.now) → (l : Leaf) × (top ms resource ≡ Some l) }
        ensures unbound { result ≡ false → (c : Collection) (ms : List Bindings) → Good c ms (stack merged self.now) → top ms resource ≡ None }
    {
        bringing_law();
        step_law();
        match self.find(merged, resource).0 {
            Some(_) => true,
            None => false,
        }
    }

    /// Aliases a resource in the scope `out` scopes out, which records it as an instance's export.
    ///
    /// Returns its type index there.
    fn alias_there(
        &mut self,
        merged: bool,
        out: usize,
        resource: ResourceId,
    ) -> Result<u32, BinaryFault>
        requires { (j : ℕ) × (n : Name) × IsReached (stack merged self.old) resource out (at_export j n) }
        ensures index { IfOk result (λ i. i ≡ next_type_at out (stack merged self.old)) }
        ensures step { OnOk result (StateChanges merged out (settled resource) self.old self.new) }
        ensures types { AllAddTypes self.old self.new }
        ensures paid { (c : Collection) → IsOwnResource c resource → PaidFor c merged (ty.Resource resource) 0 self.old self.new result }
    {
        size_law();
        if out == 0 {
            return self.here.settle_resource(merged, resource);
        }
        let at = self.around.len() - out;
        self.around[at].settle_resource(merged, resource)
    }

    /// Returns how many scopes out a resource is recorded, and its type index there.
    ///
    /// The resource is aliased there if it has no type index.
    fn reach_resource(
        &mut self,
        merged: bool,
        resource: ResourceId,
    ) -> Result<(usize, u32), BinaryFault>
        requires { IsBound merged self.old resource }
        ensures goes { OnOk result (GoesForAll merged self.old self.new) }
        ensures reached { IfOk result (λ x. IsReached (stack merged self.new) resource x.0 (at_type x.1)) }
        ensures types { AllAddTypes self.old self.new }
        ensures paid { (c : Collection) → IsOwnResource c resource → PaidFor c merged (ty.Resource resource) 0 self.old self.new result }
        ensures kept { OnOk result (KeepsTypes merged self.old self.new) }
    {
        bringing_law();
        inside_law();
        still_law();
        let Some((out, index, is_type)) = self.find(merged, resource).0 else {
            unreachable!()
        };
        if is_type {
            return Ok((out, index));
        }
        let own = self.alias_there(merged, out, resource)?;
        Ok((out, own))
    }

    /// Returns the type index in the innermost scope of a resource that has `index` in the scope `out` scopes out.
    ///
    /// Adds an outer alias and records it, unless `out` is 0.
    fn bring_index(
        &mut self,
        merged: bool,
        resource: ResourceId,
        out: usize,
        index: u32,
    ) -> Result<u32, BinaryFault>
        requires { IsReached (stack merged self.old) resource out (at_type index) }
        ensures goes { OnOk result (GoesForAll merged self.old self.new) }
        ensures is { IfOk result (IsResourceAt merged self.new resource) }
        ensures types { AllAddTypes self.old self.new }
        ensures paid { (c : Collection) → IsOwnResource c resource → PaidFor c merged (ty.Resource resource) 0 self.old self.new result }
        ensures kept { OnOk result (KeepsTypes merged self.old self.new) }
    {
        size_law();
        inside_law();
        still_law();
        if out == 0 {
            return Ok(index);
        }
        let Ok(count) = u32::try_from(out) else {
            return Err(BinaryFault::TooLarge);
        };
        self.here.alias_resource(merged, resource, count, index)
    }

    /// Returns the type index of a resource in the innermost scope.
    ///
    /// If it has none there, an outer alias of the innermost scope that records it is added. If the resource is only an
    /// instance's export in that scope, it is first aliased from the instance.
    ///
    /// # Errors
    /// - `TooLarge` if the content of a scope, or the count of an outer alias, would not fit 32-bit sizes.
    /// - `OutOfMemory`.
    pub fn bring_resource(&mut self, merged: bool, resource: ResourceId) -> Result<u32, BinaryFault>
        requires { IsBound merged self.old resource }
        ensures goes { OnOk result (GoesForAll merged self.old self.new) }
        ensures is { IfOk result (IsResourceAt merged self.new resource) }
        ensures types { AllAddTypes self.old self.new }
        ensures paid { (c : Collection) → IsOwnResource c resource → PaidFor c merged (ty.Resource resource) 0 self.old self.new result }
        ensures kept { OnOk result (KeepsTypes merged self.old self.new) }
    {
        step_law();
        let (out, index) = self.reach_resource(merged, resource)?;
        self.bring_index(merged, resource, out, index)
    }

    /// Adds a value type definition to the innermost scope, records its type index and returns it.
    ///
    /// If the type is recorded there already, returns the index that it has.
    ///
    /// # Errors
    /// - `TooLarge` if the content of the scope would not fit 32-bit sizes.
    /// - `OutOfMemory`.
    pub fn define(
        &mut self,
        merged: bool,
        id: DefinedTypeId,
        definition: &DefinedType<'_>,
    ) -> Result<u32, BinaryFault>
        ensures goes { OnOk result ((c : Collection) (x : Definition) → IsWellFormed c → item_at c.defined id.0 ≡ Some x → SaysWritten c merged self.old x (defined_of definition.now) → Goes c merged self.old self.new) }
        ensures recorded { IfOk result (λ i. (how : AnyHow) × IsRecordedAt merged self.new (ty.Value (val.Defined id)) how i) }
        ensures types { AllAddTypes self.old self.new }
        ensures paid { (c : Collection) (x : Definition) → item_at c.defined id.0 ≡ Some x → IsSizedAs x (defined_of definition.now) → PaidFor c merged (ty.Value (val.Defined id)) 0 self.old self.new result }
    {
        step_law();
        still_law();
        size_law();
        let value = ValueType::Defined(id);
        match self.index(merged, Type::Value(value)) {
            Some(index) => Ok(index),
            None => self.here.define(merged, value, definition),
        }
    }

    /// Adds a function type to the innermost scope, records its type index and returns it.
    ///
    /// If the type is recorded there already, returns the index that it has.
    ///
    /// # Errors
    /// As [`Self::define`].
    pub fn define_func(
        &mut self,
        merged: bool,
        id: FuncTypeId,
        f: &FuncType<'_>,
    ) -> Result<u32, BinaryFault>
        ensures goes { OnOk result ((c : Collection) (x : Function) → IsWellFormed c → item_at c.funcs id.0 ≡ Some x → SaysWrittenFunc c merged self.old x (func_of f.now) → Goes c merged self.old self.new) }
        ensures recorded { IfOk result (λ i. (how : AnyHow) × IsRecordedAt merged self.new (ty.Func id) how i) }
        ensures types { AllAddTypes self.old self.new }
        ensures paid { (c : Collection) (x : Function) → item_at c.funcs id.0 ≡ Some x → IsFuncSizedAs x (func_of f.now) → PaidFor c merged (ty.Func id) 0 self.old self.new result }
    {
        step_law();
        still_law();
        size_law();
        match self.index(merged, Type::Func(id)) {
            Some(index) => Ok(index),
            None => self.here.define_func(merged, id, f),
        }
    }

    /// Adds an `own` type to the innermost scope, records its type index and returns it.
    ///
    /// The resource must not be an alias.
    ///
    /// # Errors
    /// As [`Self::bring_resource`].
    pub fn own(&mut self, merged: bool, resource: ResourceId) -> Result<u32, BinaryFault>
        requires { IsBound merged self.old resource }
        ensures goes { OnOk result ((c : Collection) → resolved c resource ≡ resource → Goes c merged self.old self.new) }
        ensures recorded { IfOk result (IsRecordedAt merged self.new (ty.Value (val.Own resource)) defined) }
        ensures types { AllAddTypes self.old self.new }
        ensures paid { (c : Collection) → IsOwnResource c resource → (opened merged self.old.here).types (ty.Value (val.Own resource)) ≡ None → PaidFor c merged (ty.Resource resource) 0 self.old self.new result }
    {
        size_law();
        step_law();
        let index = self.bring_resource(merged, resource)?;
        index_law(index); // proof only
        let handle = ValueType::Own(resource);
        self.here.define(merged, handle, &DefinedType::Own(index))
    }

    /// Adds a `borrow` type to the innermost scope, records its type index and returns it.
    ///
    /// The resource must not be an alias.
    ///
    /// # Errors
    /// As [`Self::bring_resource`].
    pub fn borrow(&mut self, merged: bool, resource: ResourceId) -> Result<u32, BinaryFault>
        requires { IsBound merged self.old resource }
        ensures goes { OnOk result ((c : Collection) → resolved c resource ≡ resource → Goes c merged self.old self.new) }
        ensures recorded { IfOk result (IsRecordedAt merged self.new (ty.Value (val.Borrow resource)) defined) }
        ensures types { AllAddTypes self.old self.new }
        ensures paid { (c : Collection) → IsOwnResource c resource → (opened merged self.old.here).types (ty.Value (val.Borrow resource)) ≡ None → PaidFor c merged (ty.Resource resource) 0 self.old self.new result }
    {
        size_law();
        step_law();
        let index = self.bring_resource(merged, resource)?;
        index_law(index); // proof only
        let handle = ValueType::Borrow(resource);
        self.here
            .define(merged, handle, &DefinedType::Borrow(index))
    }

    /// Returns a stack with one scope: a root without items.
    pub fn root(alloc: Global) -> State
        ensures good { (c : Collection) (b : _) → Good c (nothing_bound ∷ []) (stack b result) }
        ensures content { result.here.content ≡ Builder [] }
        ensures uncharged { (c : Collection) (b : Bool) → IsUncharged c b result }
    {
        root_law();
        let content = Encodable::Builder(ComponentBuilder::new(alloc));
        State {
            around: Vec::new(alloc),
            here: Scope::new(alloc, content, true, true),
        }
    }

    /// Returns a stack with one scope: a component type without declarations. It has no enclosing scope.
    pub fn component(alloc: Global) -> State
        ensures good { (c : Collection) (b : _) → Good c (nothing_bound ∷ []) (stack b result) }
        ensures content { result.here.content ≡ Component [] }
        ensures uncharged { (c : Collection) (b : Bool) → IsUncharged c b result }
    {
        closing_law();
        let content = Encodable::Component(ComponentType::new(alloc));
        State {
            around: Vec::new(alloc),
            here: Scope::new(alloc, content, true, true),
        }
    }

    /// The type index of a type in the innermost scope, if it is recorded there.
    pub fn index(&self, merged: bool, ty: Type) -> Option<u32>
        ensures some { IfSome result (λ i. (how : AnyHow) × IsRecordedAt merged self.now ty how i) }
        ensures none { result ≡ None → (opened merged self.now.here).types ty ≡ None }
    {
        match self.here.entry(merged, ty) {
            Some(entry) => Some(entry.index),
            None => None,
        }
    }

    /// Whether a type has the type index of a type import or type export of the innermost scope.
    pub fn is_listed(&self, merged: bool, ty: Type) -> bool
        ensures yes { result ≡ true → (i : ℕ) × IsRecordedAt merged self.now ty listed i }
        ensures no { result ≡ false → (i : ℕ) → IsRecordedAt merged self.now ty listed i → ⊥ }
    {
        match self.here.entry(merged, ty) {
            Some(entry) => entry.is_listed(),
            None => false,
        }
    }

    /// Opens an instance type without declarations inside the innermost scope.
    ///
    /// `passes` says whether a resource of this collection that is bound outside is bound inside to the same resource.
    /// If it is false, a value type that mentions a resource is not aliased into the new scope.
    ///
    /// # Errors
    /// - `OutOfMemory`.
    pub fn open(&mut self, alloc: Global, merged: bool, passes: bool) -> Result<(), BinaryFault>
        ensures opened { OnOk result (Opens merged passes self.old self.new) }
        ensures refused { OnErr result (IsSame self.old self.new) }
    {
        let scope = Scope::instance(alloc, merged, passes);
        self.push(scope)
    }

    /// Makes a scope the innermost one, inside the scope that was it.
    pub(crate) fn push(&mut self, scope: Scope) -> Result<(), BinaryFault>
        ensures here { OnOk result (self.new.here ≡ scope) }
        ensures around { OnOk result (self.new.around.items ≡ self.old.around.items ++ self.old.here ∷ []) }
        ensures refused { OnErr result (IsSame self.old self.new) }
        ensures memory { IfErr result (λ e. e ≡ OutOfMemory) }
    {
        self.around.reserve(1)?;
        let outer = replace(&mut self.here, scope);
        match self.around.push(outer) {
            Ok(()) => Ok(()),
            Err(_) => unreachable!(),
        }
    }

    /// Adds an import or export to the innermost scope, an open type. Returns its index in the index space of its sort.
    ///
    /// # Errors
    /// - `TooLarge` if the content of the scope would not fit 32-bit sizes.
    /// - `OutOfMemory`.
    ///
    /// On an error the scopes are unchanged.
    pub fn list(&mut self, side: Side, name: &str, d: Description) -> Result<u32, BinaryFault>
        requires { HasSide (side_of side) self.old.here.content }
        ensures lists { IfOk result (ListsItem (side_of side) name.now d self.old self.new) }
        ensures records { OnOk result (KeepsRecords self.old self.new) }
        ensures index { IfOk result (λ i. i ≡ count_of (space (described_sort d)) self.old.here.content) }
        ensures content { OnOk result (self.new.here.content ≡ and_item (side_of side) name.now d self.old.here.content) }
        ensures refused { OnErr result (self.new ≡ self.old) }
        ensures paid { (c : Collection) (b : Bool) → PaidBy c b [] (10 + 2 * length name.now) self.old self.new result }
    {
        size_law();
        described_law(d); // proof only
        listing_law();
        self.here.list(side, name, d)
    }

    /// Closes the innermost scope, an instance type, and adds it to the enclosing scope. Returns its type index there.
    ///
    /// # Errors
    /// - `TooLarge` if the content of the scope would not fit 32-bit sizes.
    /// - `OutOfMemory`.
    ///
    /// On an error the innermost scope is dropped and the enclosing scopes are unchanged.
    pub fn close(&mut self) -> Result<u32, BinaryFault>
        requires around { IsNonempty self.old.around.items }
        requires instance { IsInstanceType self.old.here.content }
        requires imports { ImportNothing (decls (declarations_of self.old.here.content)) }
        ensures closes { IfOk result (Closes self.old self.new) }
        ensures written { OnOk result (ClosesInto self.old self.new) }
        ensures refused { OnErr result (self.old.around.items ≡ self.new.around.items ++ self.new.here ∷ []) }
        ensures paid { (c : Collection) (b : Bool) → ClosesPaid c b self.old self.new result }
    {
        size_law();
        closing_law();
        let Some(outer) = self.around.pop() else {
            unreachable!()
        };
        let inner = replace(&mut self.here, outer);
        self.here.add_instance_type(inner)
    }

    /// Records the type index of a type in the innermost scope, and what gave it.
    ///
    /// # Errors
    /// - `OutOfMemory`.
    pub fn record(
        &mut self,
        merged: bool,
        ty: Type,
        how: How,
        index: u32,
    ) -> Result<(), BinaryFault>
        ensures goes { OnOk result ((c : Collection) → IsTypeAt c merged self.old ty index → Goes c merged self.old self.new) }
        ensures recorded { OnOk result (IsRecordedAt merged self.new ty (how_of how) index) }
        ensures records { OnOk result (RecordsHere merged (index_at ty (how_of how) index) self.old self.new) }
        ensures types { AllAddTypes self.old self.new }
        ensures memory { IfErr result (λ e. e ≡ OutOfMemory) }
        ensures paid { (c : Collection) → (how_of how ≡ defined → is_scope ty ≡ true) → PaidBy c merged [] 0 self.old self.new result }
    {
        step_law();
        self.here.record_type(merged, ty, how, index)
    }

    /// Finds the innermost scope in which a value type has a name, and returns it and the place as [`Self::find`] does.
    ///
    /// The search ends with the first scope that does not pass (see [`Self::open`]). It goes on if `is_closed` says
    /// that the type mentions no resource that is bound outside it.
    fn find_named(
        &self,
        merged: bool,
        definition: DefinedTypeId,
        is_closed: bool,
    ) -> Option<(usize, u32, bool)>
        ensures found { IfSome result (λ f. (w : Where) × IsNamedAt (stack merged self.now) definition f.0 w × IsPlace w f.1 f.2 × Crosses is_closed f.0 (stack merged self.now)) }
        ensures none { result ≡ None → (k : ℕ) (w : Where) → IsNamedAt (stack merged self.now) definition k w → Crosses is_closed k (stack merged self.now) → ⊥ }
    {
        if let Some((index, is_type)) = self.here.named(merged, definition) {
            return Some((0, index, is_type));
        }
        let mut crosses = self.here.may_cross(merged, is_closed);
        let mut left = self.around.len();
        let mut out = 0;
        while left > 0 {
            if !crosses {
                return None;
            }
            left -= 1;
            out += 1;
            if let Some((index, is_type)) = self.around[left].named(merged, definition) {
                return Some((out, index, is_type));
            }
            crosses = self.around[left].may_cross(merged, is_closed);
        }
        None
    }

    /// Aliases a value type in the scope `out` scopes out, which records it as an instance's export.
    ///
    /// Returns its type index there.
    fn alias_value_there(
        &mut self,
        merged: bool,
        out: usize,
        definition: DefinedTypeId,
    ) -> Result<u32, BinaryFault>
        requires { (j : ℕ) × (n : Name) × IsNamedAt (stack merged self.old) definition out (at_export j n) }
        ensures index { IfOk result (λ i. i ≡ next_type_at out (stack merged self.old)) }
        ensures step { OnOk result (StateChanges merged out (settled_value definition) self.old self.new) }
        ensures types { AllAddTypes self.old self.new }
        ensures paid { (c : Collection) → HasDefined c definition → PaidFor c merged (ty.Value (val.Defined definition)) 0 self.old self.new result }
    {
        size_law();
        if out == 0 {
            return self.here.settle_export(merged, definition);
        }
        let at = self.around.len() - out;
        self.around[at].settle_export(merged, definition)
    }

    /// Returns how many scopes out a value type has a name, and its type index there.
    ///
    /// The type is aliased there if it is only an instance's export.
    fn reach_named(
        &mut self,
        merged: bool,
        definition: DefinedTypeId,
        is_closed: bool,
    ) -> Result<Option<(usize, u32)>, BinaryFault>
        ensures goes { OnOk result (GoesForAll merged self.old self.new) }
        ensures reached { IfOk result (λ x. IfSome x (λ f. IsNamedAt (stack merged self.new) definition f.0 (at_type f.1) × Crosses is_closed f.0 (stack merged self.new))) }
        ensures none { IfOk result (λ x. x ≡ None → (self.new ≡ self.old) × ((k : ℕ) (w : Where) → IsNamedAt (stack merged self.old) definition k w → Crosses is_closed k (stack merged self.old) → ⊥)) }
        ensures types { AllAddTypes self.old self.new }
        ensures paid { (c : Collection) → HasDefined c definition → PaidFor c merged (ty.Value (val.Defined definition)) 0 self.old self.new result }
    {
        bringing_law();
        still_law();
        let Some((out, index, is_type)) = self.find_named(merged, definition, is_closed) else {
            return Ok(None);
        };
        if is_type {
            return Ok(Some((out, index)));
        }
        let own = self.alias_value_there(merged, out, definition)?;
        Ok(Some((out, own)))
    }

    /// Returns the type index in the innermost scope of a value type that has `index` in the scope `out` scopes out.
    ///
    /// Adds an outer alias and records it, unless `out` is 0.
    fn bring_named(
        &mut self,
        merged: bool,
        definition: DefinedTypeId,
        is_closed: bool,
        out: usize,
        index: u32,
    ) -> Result<u32, BinaryFault>
        requires named { IsNamedAt (stack merged self.old) definition out (at_type index) }
        requires crosses { Crosses is_closed out (stack merged self.old) }
        ensures goes { OnOk result ((c : Collection) → (is_closed ≡ true → IsClosed c (ty.Value (val.Defined definition))) → Goes c merged self.old self.new) }
        ensures named { IfOk result (λ i. named_in definition (opened merged self.new.here) ≡ Some (at_type i)) }
        ensures types { AllAddTypes self.old self.new }
        ensures paid { (c : Collection) → HasDefined c definition → PaidFor c merged (ty.Value (val.Defined definition)) 0 self.old self.new result }
    {
        size_law();
        bringing_law();
        still_law();
        if out == 0 {
            return Ok(index);
        }
        let Ok(count) = u32::try_from(out) else {
            return Err(BinaryFault::TooLarge);
        };
        let ty = Type::Value(ValueType::Defined(definition));
        self.here.alias_type(merged, ty, count, index)
    }

    /// Returns the type index under which a value type has a name in the innermost scope.
    ///
    /// A type has a name if its index is that of an alias, type import or type export, or if an instance exports it.
    /// If it has none there, an outer alias of the innermost scope in which it has one is added. If the type is only an
    /// instance's export in that scope, it is first aliased from the instance.
    ///
    /// Returns `None` and changes nothing if no such scope is found. The search ends with the first scope that does not
    /// pass (see [`Self::open`]). It goes on if `is_closed` says that the type mentions no resource bound outside it.
    ///
    /// # Errors
    /// - `TooLarge` if the content of a scope, or the count of an outer alias, would not fit 32-bit sizes.
    /// - `OutOfMemory`.
    pub fn bring(
        &mut self,
        merged: bool,
        definition: DefinedTypeId,
        is_closed: bool,
    ) -> Result<Option<u32>, BinaryFault>
        ensures goes { OnOk result ((c : Collection) → (is_closed ≡ true → IsClosed c (ty.Value (val.Defined definition))) → Goes c merged self.old self.new) }
        ensures named { IfOk result (λ x. IfSome x (λ i. named_in definition (opened merged self.new.here) ≡ Some (at_type i))) }
        ensures none { IfOk result (λ x. x ≡ None → (self.new ≡ self.old) × ((k : ℕ) (w : Where) → IsNamedAt (stack merged self.old) definition k w → Crosses is_closed k (stack merged self.old) → ⊥)) }
        ensures types { AllAddTypes self.old self.new }
        ensures paid { (c : Collection) → HasDefined c definition → PaidFor c merged (ty.Value (val.Defined definition)) 0 self.old self.new result }
    {
        step_law();
        let Some((out, index)) = self.reach_named(merged, definition, is_closed)? else {
            return Ok(None);
        };
        let own = self.bring_named(merged, definition, is_closed, out, index)?;
        Ok(Some(own))
    }

    /// Adds an import or export of a fresh resource to the innermost scope, an open type.
    ///
    /// Records the resource and returns its type index.
    ///
    /// # Errors
    /// - `TooLarge` if the content of the scope would not fit 32-bit sizes.
    /// - `OutOfMemory`.
    ///
    /// On an error no item is added.
    pub fn list_fresh(
        &mut self,
        merged: bool,
        side: Side,
        name: &str,
        resource: ResourceId,
    ) -> Result<u32, BinaryFault>
        requires { HasSide (side_of side) self.old.here.content }
        ensures lists { IfOk result (ListsResource merged (side_of side) name.now resource self.old self.new) }
        ensures content { OnOk result (self.new.here.content ≡ and_item (side_of side) name.now e.Fresh self.old.here.content) }
        ensures refused { OnErr result (AllAddTypes self.old self.new) }
        ensures paid { (c : Collection) → PaidBy c merged [] (10 + 2 * length name.now) self.old self.new result }
    {
        size_law();
        listing_law();
        self.here.list_fresh(merged, side, name, resource)
    }

    /// Records that an instance exports a resource, and so binds the resource in the bottom scope.
    ///
    /// The bottom scope must be the innermost.
    ///
    /// # Errors
    /// - `OutOfMemory`.
    pub fn bind(
        &mut self,
        merged: bool,
        resource: ResourceId,
        instance: u32,
        name: Text,
    ) -> Result<(), BinaryFault>
        ensures binds { OnOk result (BindsExport merged resource instance name self.old self.new) }
        ensures recorded { OnOk result (RecordsHere merged (bind_at resource (at_export instance name)) self.old self.new) }
        ensures types { AllAddTypes self.old self.new }
        ensures memory { IfErr result (λ e. e ≡ OutOfMemory) }
    {
        closing_law();
        self.here
            .record_resource(merged, resource, Place::Export(instance, name))
    }

    /// Records that a type index refers to a resource, and so binds the resource in the bottom scope.
    ///
    /// The bottom scope must be the innermost.
    ///
    /// # Errors
    /// - `OutOfMemory`.
    pub fn bind_type(
        &mut self,
        merged: bool,
        resource: ResourceId,
        index: u32,
    ) -> Result<(), BinaryFault>
        ensures binds { OnOk result (BindsType merged resource index self.old self.new) }
        ensures recorded { OnOk result (RecordsHere merged (bind_at resource (at_type index)) self.old self.new) }
        ensures types { AllAddTypes self.old self.new }
        ensures memory { IfErr result (λ e. e ≡ OutOfMemory) }
    {
        closing_law();
        self.here
            .record_resource(merged, resource, Place::Index(index))
    }

    /// Records that an instance in the innermost scope exports a value type.
    ///
    /// # Errors
    /// - `OutOfMemory`.
    pub fn tell(
        &mut self,
        merged: bool,
        definition: DefinedTypeId,
        instance: u32,
        name: Text,
    ) -> Result<(), BinaryFault>
        ensures goes { OnOk result ((c : Collection) → MayTell c merged definition instance name self.old → Goes c merged self.old self.new) }
        ensures recorded { OnOk result (RecordsHere merged (export_at definition (at_export instance name)) self.old self.new) }
        ensures types { AllAddTypes self.old self.new }
        ensures memory { IfErr result (λ e. e ≡ OutOfMemory) }
    {
        self.here
            .record_export(merged, definition, Place::Export(instance, name))
    }

    /// Returns the content of the innermost scope.
    pub(crate) fn into_content(self) -> Encodable
        ensures { result ≡ self.here.content }
    {
        let State { around: _, here } = self;
        here.into_content()
    }
}
