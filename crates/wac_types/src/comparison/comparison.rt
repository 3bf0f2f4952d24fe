//! Comparison of two types part by part, and of imports and exports name by name.
ghost use Rattle.std.specs.Prelude.{◌≡◌, ◌≢◌, [], ◌∷◌, map, not, true, None, Err, IfOk, IsTrue};
ghost use Rattle.std.specs.Option.{option_copied};
ghost use Rattle.wac_types_shapes.specs.primitives.Name.{find_name};
ghost use Rattle.wac_types_collection.specs.collection.Collection.{kind_types, value_types, and_maybe, seconds, case_values, func_mentions, defined_mentions, holds_type};
ghost use Rattle.wac_types_shapes.specs.shapes.Kinds.{kind_type};
ghost use Rattle.wac_types_collection.specs.collection.Held.{resolved};
ghost use Rattle.wac_types_collection.specs.subtyping.Subtype.{Sub, type_tree, kind_tree, resource_names};
ghost use Rattle.wac_types_collection.specs.collection.Aliases.{aliased};
ghost use Rattle.wac_types.specs.private.comparison.Compare.{value_in, optional_in, func_in, defined_in, entry_in, case_in, Offers};
ghost use Rattle.wac_types.specs.private.comparison.Questions.{IsEnd, IsPlainType, AreHeld};
ghost use Rattle.wac_types.specs.private.comparison.Settling.{Asks, RestsOn, HasEnd};
ghost use Rattle.wac_types_shapes.specs.declared.shapes.component.«Type».TheVariants as ty;

use crate::comparison::fault::{Answer, TypeFault, told};
use crate::comparison::questions::{Asked, Question};
use crate::comparison::small::has_small_parts;
use wac_types_collection::{
    DefinedType, FuncType, FuncTypeId, ItemKind, Named, ResourceId, Type, Types, ValueType,
};

/// Two collections, types of which are compared.
///
/// A method that asks for a fact adds the questions that decide it. It is `Err(Mismatch)` if the fact is already known
/// to be false, and `Err(OutOfMemory)` if memory ran out. Then some questions may have been added.
#[derive(Clone, Copy)]
pub struct Comparison<'a> {
    /// Whether the collections are swapped: `first` is the second collection of the check.
    pub turned: bool,
    /// The collection of the first type.
    pub first: &'a Types,
    /// The collection of the second type.
    pub second: &'a Types,
}

impl<'a> Comparison<'a> {
    /// Returns the comparison with its collections swapped.
    pub fn turned(self) -> Comparison<'a>
        ensures turned { result.turned ≡ not self.entry.turned }
        ensures first { result.first.now ≡ self.entry.second.now }
        ensures second { result.second.now ≡ self.entry.first.now }
    {
        Comparison {
            turned: !self.turned,
            first: self.second,
            second: self.first,
        }
    }

    /// Asks whether `a` is a subtype of `b`.
    #[tactic(auto, using(crate::proofs::lemmas::comparison::Asking::asks_put, crate::proofs::lemmas::comparison::Joining::asks_plain, crate::proofs::lemmas::comparison::Joining::asks_ends))]
    pub(crate) fn ask_type(self, asked: &mut Asked, a: Type, b: Type) -> Answer
        requires first { holds_type self.first.now a ≡ true }
        requires second { holds_type self.second.now b ≡ true }
        ensures asked { IfOk result (λ _. Asks self.entry.turned self.entry.first.now self.entry.second.now (a ∷ []) (b ∷ []) asked.old asked.new (Sub (type_tree self.entry.first.now a) (type_tree self.entry.second.now b))) }
        ensures no_mismatch { result ≢ Err TypeFault.Mismatch }
    {
        let first = end(self.first, a);
        let second = end(self.second, b);
        let question = Question {
            turned: self.turned,
            first,
            second,
        };
        if is_plain(first) && is_plain(second) {
            return asked.put_plain(question);
        }
        asked.put(question)
    }

    // Asks whether two optional value types are equal: both missing, or both there and equal.
    #[tactic(auto, using(crate::proofs::lemmas::comparison::Values::asks_now, crate::proofs::lemmas::comparison::Opened::some_none, crate::proofs::lemmas::comparison::Opened::none_some))]
    fn ask_optional(self, asked: &mut Asked, v: Option<ValueType>, w: Option<ValueType>) -> Answer
        requires first { AreHeld self.first.now (value_types (and_maybe v [])) }
        requires second { AreHeld self.second.now (value_types (and_maybe w [])) }
        ensures asked { IfOk result (λ _. Asks self.entry.turned self.entry.first.now self.entry.second.now (value_types (and_maybe v [])) (value_types (and_maybe w [])) asked.old asked.new (optional_in self.entry.first.now v ≡ optional_in self.entry.second.now w)) }
        ensures mismatch { result ≡ Err TypeFault.Mismatch → optional_in self.entry.first.now v ≡ optional_in self.entry.second.now w → ⊥ }
    {
        self.first.law();
        self.second.law();
        match (v, w) {
            (None, None) => Ok(()),
            (Some(v), Some(w)) => self.ask_value(asked, v, w),
            _ => Err(TypeFault::Mismatch),
        }
    }

    // Asks whether two lists of value types are equal.
    #[tactic(auto, using(crate::proofs::lemmas::comparison::Agreeing::agree_none, crate::proofs::lemmas::comparison::Agreeing::agree_maps))]
    fn ask_values(self, asked: &mut Asked, vs: &[ValueType], ws: &[ValueType]) -> Answer
        requires first { AreHeld self.first.now (value_types vs.now) }
        requires second { AreHeld self.second.now (value_types ws.now) }
        ensures asked { IfOk result (λ _. Asks self.entry.turned self.entry.first.now self.entry.second.now (value_types vs.now) (value_types ws.now) asked.old asked.new (map (value_in self.entry.first.now) vs.now ≡ map (value_in self.entry.second.now) ws.now)) }
        ensures mismatch { result ≡ Err TypeFault.Mismatch → map (value_in self.entry.first.now) vs.now ≡ map (value_in self.entry.second.now) ws.now → ⊥ }
    {
        if vs.len() != ws.len() {
            return Err(TypeFault::Mismatch);
        }
        for i in 0..vs.len() {
            self.ask_value(asked, vs[i], ws[i])?;
        }
        Ok(())
    }

    // Asks whether two lists have the same names in the same order, with equal value types.
    #[tactic(auto, using(crate::proofs::lemmas::comparison::Agreeing::agree_none, crate::proofs::lemmas::comparison::Agreeing::agree_maps))]
    fn ask_named(self, asked: &mut Asked, vs: &Named<ValueType>, ws: &Named<ValueType>) -> Answer
        requires first { AreHeld self.first.now (value_types (seconds vs.now)) }
        requires second { AreHeld self.second.now (value_types (seconds ws.now)) }
        ensures asked { IfOk result (λ _. Asks self.entry.turned self.entry.first.now self.entry.second.now (value_types (seconds vs.now)) (value_types (seconds ws.now)) asked.old asked.new (map (entry_in self.entry.first.now) vs.now ≡ map (entry_in self.entry.second.now) ws.now)) }
        ensures mismatch { result ≡ Err TypeFault.Mismatch → map (entry_in self.entry.first.now) vs.now ≡ map (entry_in self.entry.second.now) ws.now → ⊥ }
    {
        if vs.len() != ws.len() {
            return Err(TypeFault::Mismatch);
        }
        for i in 0..vs.len() {
            let (name, v) = vs.entry_at(i);
            let (other, w) = ws.entry_at(i);
            if name != other {
                return Err(TypeFault::Mismatch);
            }
            self.ask_value(asked, *v, *w)?;
        }
        Ok(())
    }

    // Asks whether two lists have the same cases in the same order, with equal payloads.
    #[tactic(auto, using(crate::proofs::lemmas::comparison::Agreeing::agree_none, crate::proofs::lemmas::comparison::Agreeing::agree_maps))]
    fn ask_cases(
        self,
        asked: &mut Asked,
        cs: &Named<Option<ValueType>>,
        ds: &Named<Option<ValueType>>,
    ) -> Answer
        requires first { AreHeld self.first.now (value_types (case_values cs.now)) }
        requires second { AreHeld self.second.now (value_types (case_values ds.now)) }
        ensures asked { IfOk result (λ _. Asks self.entry.turned self.entry.first.now self.entry.second.now (value_types (case_values cs.now)) (value_types (case_values ds.now)) asked.old asked.new (map (case_in self.entry.first.now) cs.now ≡ map (case_in self.entry.second.now) ds.now)) }
        ensures mismatch { result ≡ Err TypeFault.Mismatch → map (case_in self.entry.first.now) cs.now ≡ map (case_in self.entry.second.now) ds.now → ⊥ }
    {
        if cs.len() != ds.len() {
            return Err(TypeFault::Mismatch);
        }
        for i in 0..cs.len() {
            let (case, v) = cs.entry_at(i);
            let (other, w) = ds.entry_at(i);
            if case != other {
                return Err(TypeFault::Mismatch);
            }
            self.ask_optional(asked, *v, *w)?;
        }
        Ok(())
    }

    /// Asks whether two function types are equal.
    #[tactic(auto, using(crate::proofs::lemmas::comparison::Definitions::params_back, crate::proofs::lemmas::comparison::Agreeing::maybe_first, crate::proofs::lemmas::comparison::Agreeing::maybe_rest))]
    pub fn ask_func(self, asked: &mut Asked, f: &FuncType, g: &FuncType) -> Result<(), TypeFault>
        requires first { AreHeld self.first.now (func_mentions f.now) }
        requires second { AreHeld self.second.now (func_mentions g.now) }
        ensures asked { IfOk result (λ _. Asks self.entry.turned self.entry.first.now self.entry.second.now (func_mentions f.now) (func_mentions g.now) asked.old asked.new (func_in self.entry.first.now f.now ≡ func_in self.entry.second.now g.now)) }
        ensures mismatch { result ≡ Err TypeFault.Mismatch → func_in self.entry.first.now f.now ≡ func_in self.entry.second.now g.now → ⊥ }
    {
        if f.is_async != g.is_async {
            return Err(TypeFault::Mismatch);
        }
        self.ask_optional(asked, f.result, g.result)?;
        self.ask_named(asked, &f.params, &g.params)
    }

    // Asks whether two function types are equal. Those of few parameters with short names are opened at once.
    #[tactic(auto, using(crate::proofs::lemmas::comparison::Asking::asks_rested, crate::proofs::lemmas::comparison::Opens::func_held, crate::proofs::lemmas::comparison::Typing::answer_funcs, crate::proofs::lemmas::comparison::Typing::funcs_refuse))]
    fn ask_func_type(self, asked: &mut Asked, i: FuncTypeId, j: FuncTypeId) -> Answer
        requires first { holds_type self.first.now (ty.Func i) ≡ true }
        requires second { holds_type self.second.now (ty.Func j) ≡ true }
        ensures asked { IfOk result (λ _. Asks self.entry.turned self.entry.first.now self.entry.second.now (ty.Func i ∷ []) (ty.Func j ∷ []) asked.old asked.new (Sub (type_tree self.entry.first.now (ty.Func i)) (type_tree self.entry.second.now (ty.Func j)))) }
        ensures mismatch { result ≡ Err TypeFault.Mismatch → Sub (type_tree self.entry.first.now (ty.Func i)) (type_tree self.entry.second.now (ty.Func j)) → ⊥ }
    {
        self.first.law();
        self.second.law();
        let f = &self.first[i];
        if has_small_parts(&f.params) {
            return self.ask_func(asked, f, &self.second[j]);
        }
        self.ask_type(asked, Type::Func(i), Type::Func(j))
    }

    // Asks whether two definitions are equal, neither of which is an alias.
    fn ask_defined(self, asked: &mut Asked, d: &DefinedType, e: &DefinedType) -> Answer
        requires first { AreHeld self.first.now (defined_mentions d.now) }
        requires second { AreHeld self.second.now (defined_mentions e.now) }
        requires first_end { aliased d.now ≡ None }
        requires second_end { aliased e.now ≡ None }
        ensures asked { IfOk result (λ _. Asks self.entry.turned self.entry.first.now self.entry.second.now (defined_mentions d.now) (defined_mentions e.now) asked.old asked.new (defined_in self.entry.first.now d.now ≡ defined_in self.entry.second.now e.now)) }
        ensures mismatch { result ≡ Err TypeFault.Mismatch → defined_in self.entry.first.now d.now ≡ defined_in self.entry.second.now e.now → ⊥ }
    {
        match (d, e) {
            (DefinedType::Tuple(vs), DefinedType::Tuple(ws)) => {
                self.ask_values(asked, vs.as_slice(), ws.as_slice())
            }
            (DefinedType::List(v), DefinedType::List(w)) => self.ask_value(asked, *v, *w),
            (DefinedType::FixedSizeList(v, m), DefinedType::FixedSizeList(w, n)) if *m == *n => {
                self.ask_value(asked, *v, *w)
            }
            (DefinedType::Option(v), DefinedType::Option(w)) => self.ask_value(asked, *v, *w),
            (DefinedType::Result { ok: v, err: f }, DefinedType::Result { ok: w, err: g }) => {
                self.ask_optional(asked, *v, *w)?;
                self.ask_optional(asked, *f, *g)
            }
            (DefinedType::Variant(v), DefinedType::Variant(w)) => {
                self.ask_cases(asked, &v.cases, &w.cases)
            }
            (DefinedType::Record(v), DefinedType::Record(w)) => {
                self.ask_named(asked, &v.fields, &w.fields)
            }
            (DefinedType::Flags(v), DefinedType::Flags(w)) => told(v.0 == w.0),
            (DefinedType::Enum(v), DefinedType::Enum(w)) => told(v.0 == w.0),
            (DefinedType::Stream(v), DefinedType::Stream(w)) => self.ask_optional(asked, *v, *w),
            (DefinedType::Future(v), DefinedType::Future(w)) => self.ask_optional(asked, *v, *w),
            _ => Err(TypeFault::Mismatch),
        }
    }

    /// Checks that two resources have the same name at the ends of their aliases.
    pub fn ask_resource(self, r: ResourceId, s: ResourceId) -> Result<(), TypeFault>
        requires first { holds_type self.first.now (ty.Resource r) ≡ true }
        requires second { holds_type self.second.now (ty.Resource s) ≡ true }
        ensures same { IfOk result (λ _. resource_names self.entry.first.now (resolved self.entry.first.now r) ≡ resource_names self.entry.second.now (resolved self.entry.second.now s)) }
        ensures mismatch { result ≡ Err TypeFault.Mismatch → resource_names self.entry.first.now (resolved self.entry.first.now r) ≡ resource_names self.entry.second.now (resolved self.entry.second.now s) → ⊥ }
    {
        self.first.law();
        self.second.law();
        let first = &self.first[self.first.resolve_resource(r)];
        let second = &self.second[self.second.resolve_resource(s)];
        told(first.name.as_str() == second.name.as_str())
    }

    /// Asks whether the item `x` is a subtype of `y`. Types of type items are compared in both directions.
    pub fn ask_kinds(self, asked: &mut Asked, x: ItemKind, y: ItemKind) -> Result<(), TypeFault>
        requires first { holds_type self.first.now (kind_type x) ≡ true }
        requires second { holds_type self.second.now (kind_type y) ≡ true }
        ensures asked { IfOk result (λ _. Asks self.entry.turned self.entry.first.now self.entry.second.now (kind_type x ∷ []) (kind_type y ∷ []) asked.old asked.new (Sub (kind_tree self.entry.first.now x) (kind_tree self.entry.second.now y))) }
        ensures mismatch { result ≡ Err TypeFault.Mismatch → Sub (kind_tree self.entry.first.now x) (kind_tree self.entry.second.now y) → ⊥ }
    {
        match (x, y) {
            (ItemKind::TypeItem(a), ItemKind::TypeItem(b)) => {
                self.ask_type(asked, a, b)?;
                self.turned().ask_type(asked, b, a)
            }
            (ItemKind::Func(i), ItemKind::Func(j)) => self.ask_func_type(asked, i, j),
            (ItemKind::Instance(i), ItemKind::Instance(j)) => {
                self.ask_type(asked, Type::Interface(i), Type::Interface(j))
            }
            (ItemKind::Component(i), ItemKind::Component(j)) => {
                self.ask_type(asked, Type::World(i), Type::World(j))
            }
            (ItemKind::Module(i), ItemKind::Module(j)) => {
                self.ask_type(asked, Type::Module(i), Type::Module(j))
            }
            (ItemKind::Value(v), ItemKind::Value(w)) => self.ask_value(asked, v, w),
            _ => Err(TypeFault::Mismatch),
        }
    }

    /// Asks whether `xs` has a subtype of each item of `ys`, under the same name.
    #[tactic(auto, using(crate::proofs::lemmas::comparison::Subtyping::asks_no_offer, crate::proofs::lemmas::comparison::Subtyping::asks_offer, crate::proofs::lemmas::comparison::Subtyping::item_stops, crate::proofs::lemmas::comparison::Subtyping::item_held, crate::proofs::lemmas::comparison::Subtyping::found_held))]
    pub fn ask_items(
        self,
        asked: &mut Asked,
        xs: &Named<ItemKind>,
        ys: &Named<ItemKind>,
    ) -> Result<(), TypeFault>
        requires first { AreHeld self.first.now (kind_types xs.now) }
        requires second { AreHeld self.second.now (kind_types ys.now) }
        ensures asked { IfOk result (λ _. Asks self.entry.turned self.entry.first.now self.entry.second.now (kind_types xs.now) (kind_types ys.now) asked.old asked.new (Offers self.entry.first.now xs.now self.entry.second.now ys.now)) }
        ensures mismatch { result ≡ Err TypeFault.Mismatch → Offers self.entry.first.now xs.now self.entry.second.now ys.now → ⊥ }
    {
        ys.law();
        for i in 0..ys.len() {
            let (name, y) = ys.entry_at(i);
            match item_near(xs, i, name) {
                Some(x) => self.ask_kinds(asked, *x, *y)?,
                None => return Err(TypeFault::Mismatch),
            }
        }
        Ok(())
    }

    /// Compares two value types and asks about the types that they mention. Neither may be an alias.
    #[tactic(auto, using(crate::proofs::lemmas::comparison::Asking::rests_now, crate::proofs::lemmas::comparison::Values::primitives_same, crate::proofs::lemmas::comparison::Values::primitives_inj, crate::proofs::lemmas::comparison::Equal::primitives_told, crate::proofs::lemmas::comparison::Answering::owns_same, crate::proofs::lemmas::comparison::Answering::owns_back, crate::proofs::lemmas::comparison::Answering::borrows_same, crate::proofs::lemmas::comparison::Answering::borrows_back, crate::proofs::lemmas::comparison::Opens::defined_held, crate::proofs::lemmas::comparison::Answering::definitions_rest, crate::proofs::lemmas::comparison::Answering::other_value, crate::proofs::lemmas::comparison::Answering::no_primitive, crate::proofs::lemmas::comparison::Answering::no_own, crate::proofs::lemmas::comparison::Answering::no_borrow, crate::proofs::lemmas::comparison::Answering::no_defined))]
    pub fn answer_value(
        self,
        asked: &mut Asked,
        v: ValueType,
        w: ValueType,
    ) -> Result<(), TypeFault>
        requires first { holds_type self.first.now (ty.Value v) ≡ true }
        requires second { holds_type self.second.now (ty.Value w) ≡ true }
        requires first_end { IsEnd self.first.now (ty.Value v) }
        requires second_end { IsEnd self.second.now (ty.Value w) }
        ensures settled { IfOk result (λ _. RestsOn self.entry.turned self.entry.first.now self.entry.second.now (ty.Value v) (ty.Value w) asked.old asked.new (value_in self.entry.first.now v ≡ value_in self.entry.second.now w)) }
        ensures mismatch { result ≡ Err TypeFault.Mismatch → value_in self.entry.first.now v ≡ value_in self.entry.second.now w → ⊥ }
    {
        self.first.law();
        self.second.law();
        match (v, w) {
            (ValueType::Primitive(p), ValueType::Primitive(q)) => told(p == q),
            (ValueType::Own(r), ValueType::Own(s)) => self.ask_resource(r, s),
            (ValueType::Borrow(r), ValueType::Borrow(s)) => self.ask_resource(r, s),
            (ValueType::Defined(d), ValueType::Defined(e)) => {
                self.ask_defined(asked, &self.first[d], &self.second[e])
            }
            _ => Err(TypeFault::Mismatch),
        }
    }
}

// Returns the type at the end of the aliases.
#[tactic(auto, using(crate::proofs::lemmas::comparison::Answering::value_end))]
fn end(types: &Types, ty: Type) -> Type
    requires { holds_type types.now ty ≡ true }
    ensures { HasEnd types.now ty result }
{
    types.law();
    match ty {
        Type::Value(value) => Type::Value(types.resolve_value_type(value)),
        _ => ty,
    }
}

// Whether the type is a subtype only of equal types.
fn is_plain(ty: Type) -> bool
    ensures { IsTrue result → IsPlainType ty }
{
    match ty {
        Type::Resource(_) | Type::Func(_) | Type::Value(_) => true,
        _ => false,
    }
}

// Returns the item of a name. Looks at `index` first: lists that are compared often have the same order.
fn item_near<'a>(items: &'a Named<ItemKind>, index: usize, name: &str) -> Option<&'a ItemKind>
    ensures { option_copied result ≡ find_name items.now name.now }
{
    items.law();
    if index < items.len() && items.name_at(index) == name {
        return Some(items.value_at(index));
    }
    items.get(name)
}
