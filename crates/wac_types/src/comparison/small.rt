//! Small types, which are compared at once wherever they are mentioned.
ghost use Rattle.std.specs.Prelude.{◌≡◌, ◌≤◌, [], ◌∷◌, length, map, true, All, Err, IfOk, IsTrue};
ghost use Rattle.wac_types_collection.specs.collection.Collection.{holds_type, value_types, seconds};
ghost use Rattle.wac_types.specs.private.comparison.Compare.{value_in, entry_in};
ghost use Rattle.wac_types.specs.private.comparison.Questions.{AreHeld};
ghost use Rattle.wac_types.specs.private.comparison.Settling.{Asks, Tells};
ghost use Rattle.wac_types_shapes.specs.declared.shapes.component.«Type».TheVariants as ty;

use crate::comparison::comparison::Comparison;
use crate::comparison::fault::{Answer, TypeFault, told};
use crate::comparison::questions::Asked;
use wac_types_collection::{DefinedType, Named, Type, ValueType};

/// The greatest number of parameters or fields of a small type.
const FEW_PARTS: usize = 8;

/// The greatest length of their names, in bytes.
const SHORT_NAME: usize = 32;

impl<'a> Comparison<'a> {
    // Returns two value types that are equal if and only if `v` and `w` are: the elements of two lists or options, else
    // `v` and `w`.
    #[tactic(auto, using(crate::proofs::lemmas::comparison::Opened::opened_itself))]
    fn opened(self, v: ValueType, w: ValueType) -> (ValueType, ValueType)
        requires first { holds_type self.first.now (ty.Value v) ≡ true }
        requires second { holds_type self.second.now (ty.Value w) ≡ true }
        ensures { Tells self.entry.first.now self.entry.second.now v w result.0 result.1 }
    {
        self.first.law();
        self.second.law();
        let (ValueType::Defined(i), ValueType::Defined(j)) = (v, w) else {
            return (v, w);
        };
        match (&self.first[i], &self.second[j]) {
            (DefinedType::List(a), DefinedType::List(b)) => (*a, *b),
            (DefinedType::Option(a), DefinedType::Option(b)) => (*a, *b),
            _ => (v, w),
        }
    }

    // Whether both are seen at once to be equal: primitives, or lists or options of primitives.
    #[tactic(auto, using(crate::proofs::lemmas::comparison::Opened::told_primitives, crate::proofs::lemmas::comparison::Equal::primitives_told))]
    fn is_same_flat(self, v: ValueType, w: ValueType) -> bool
        requires first { holds_type self.first.now (ty.Value v) ≡ true }
        requires second { holds_type self.second.now (ty.Value w) ≡ true }
        ensures { IsTrue result → value_in self.entry.first.now v ≡ value_in self.entry.second.now w }
    {
        match self.opened(v, w) {
            (ValueType::Primitive(p), ValueType::Primitive(q)) => p == q,
            _ => false,
        }
    }

    // Whether both have the same few fields with short names, whose types are seen at once to be equal.
    #[tactic(auto, using(crate::proofs::lemmas::comparison::Agreeing::maps_agree, crate::proofs::lemmas::comparison::Agreeing::field_held))]
    fn have_same_fields(self, vs: &Named<ValueType>, ws: &Named<ValueType>) -> bool
        requires first { AreHeld self.first.now (value_types (seconds vs.now)) }
        requires second { AreHeld self.second.now (value_types (seconds ws.now)) }
        ensures { IsTrue result → map (entry_in self.entry.first.now) vs.now ≡ map (entry_in self.entry.second.now) ws.now }
    {
        if vs.len() != ws.len() || !has_small_parts(vs) {
            return false;
        }
        for i in 0..vs.len() {
            let (first_name, v) = vs.entry_at(i);
            let (second_name, w) = ws.entry_at(i);
            if first_name != second_name {
                return false;
            }
            if !self.is_same_flat(*v, *w) {
                return false;
            }
        }
        true
    }

    // Whether both are small records that are seen at once to be equal.
    #[tactic(auto, using(crate::proofs::lemmas::comparison::Opened::same_records, crate::proofs::lemmas::comparison::Opens::defined_held))]
    fn is_same_record(self, v: ValueType, w: ValueType) -> bool
        requires first { holds_type self.first.now (ty.Value v) ≡ true }
        requires second { holds_type self.second.now (ty.Value w) ≡ true }
        ensures { IsTrue result → value_in self.entry.first.now v ≡ value_in self.entry.second.now w }
    {
        self.first.law();
        self.second.law();
        let (ValueType::Defined(i), ValueType::Defined(j)) = (v, w) else {
            return false;
        };
        match (&self.first[i], &self.second[j]) {
            (DefinedType::Record(r), DefinedType::Record(s)) => {
                self.have_same_fields(&r.fields, &s.fields)
            }
            _ => false,
        }
    }

    /// Asks whether two value types are equal.
    ///
    /// Lists, options and small records are opened at once, which takes no longer than a question.
    pub(crate) fn ask_value(self, asked: &mut Asked, v: ValueType, w: ValueType) -> Answer
        requires first { holds_type self.first.now (ty.Value v) ≡ true }
        requires second { holds_type self.second.now (ty.Value w) ≡ true }
        ensures asked { IfOk result (λ _. Asks self.entry.turned self.entry.first.now self.entry.second.now (ty.Value v ∷ []) (ty.Value w ∷ []) asked.old asked.new (value_in self.entry.first.now v ≡ value_in self.entry.second.now w)) }
        ensures mismatch { result ≡ Err TypeFault.Mismatch → value_in self.entry.first.now v ≡ value_in self.entry.second.now w → ⊥ }
    {
        if self.is_same_record(v, w) {
            return Ok(());
        }
        match self.opened(v, w) {
            (ValueType::Primitive(p), ValueType::Primitive(q)) => told(p == q),
            (a, b) => self.ask_type(asked, Type::Value(a), Type::Value(b)),
        }
    }
}

/// Whether there are few parts, all with short names.
pub(crate) fn has_small_parts(parts: &Named<ValueType>) -> bool
    ensures few { IsTrue result → length parts.now ≤ 8 }
    ensures short { IsTrue result → All (λ e. length e.0 ≤ 32) parts.now }
{
    if parts.len() > FEW_PARTS {
        return false;
    }
    parts.iter().all(|(name, _)| name.len() <= SHORT_NAME)
}
