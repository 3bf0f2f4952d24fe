//! Value types.
ghost use Rattle.std.specs.Prelude.{◌≡◌, ◌≢◌, MatchOption, MatchResult};
ghost use Rattle.wac_types_shapes.specs.declared.primitives.PrimitiveType.{PrimitiveType as APrimitive};
ghost use Rattle.wac_types_shapes.specs.primitives.Name.{Name};
ghost use Rattle.wac_types_shapes.specs.shapes.Named.{named_pairs};
ghost use Rattle.wac_script.specs.lines.Words.{spelled, IsPair, HasNoPair};
ghost use Rattle.wac_script.specs.labels.Things.{things_of, SayNone};
ghost use Rattle.wac_script.specs.private.Unread.{IsUnread, Reads};
ghost use Rattle.wac_script.specs.labels.Values.{primitive_word, IsValue, IsPayload, IsCase, AreValues, AreFields, AreCases};

use crate::labels::faults::{WordError, WordFault, refused};
use crate::labels::things::{Thing, Things};
use crate::lines::{after_prefix, optional, pair};
use std::alloc::Global;
use wac_graph::types::{PrimitiveType, ValueType};

/// Returns the primitive type of a word.
pub(crate) fn primitive(word: &str) -> Option<PrimitiveType>
    ensures { MatchOption result ((p : APrimitive) → word.now ≢ primitive_word p) (λ p. word.now ≡ primitive_word p) }
{
    match word {
        "bool" => Some(PrimitiveType::Bool),
        "s8" => Some(PrimitiveType::S8),
        "u8" => Some(PrimitiveType::U8),
        "s16" => Some(PrimitiveType::S16),
        "u16" => Some(PrimitiveType::U16),
        "s32" => Some(PrimitiveType::S32),
        "u32" => Some(PrimitiveType::U32),
        "s64" => Some(PrimitiveType::S64),
        "u64" => Some(PrimitiveType::U64),
        "f32" => Some(PrimitiveType::F32),
        "f64" => Some(PrimitiveType::F64),
        "char" => Some(PrimitiveType::Char),
        "string" => Some(PrimitiveType::String),
        "error-context" => Some(PrimitiveType::ErrorContext),
        _ => None,
    }
}

/// Splits `NAME=WORD`.
///
/// # Errors
/// - [`NotPair`](WordFault::NotPair) if the word has no `=`.
pub(crate) fn split_pair<'a>(alloc: Global, word: &'a str) -> Result<(&'a str, &'a str), WordError>
    ensures { MatchResult result (λ p. IsPair word.now p.0.now p.1.now) (IsUnread (HasNoPair word.now)) }
{
    match pair(word) {
        Some(pair) => Ok(pair),
        None => Err(refused(alloc, WordFault::NotPair, word)),
    }
}

impl Things {
    /// Returns the value type of a word: a primitive type, the handle of `own:LABEL` or `borrow:LABEL`, or the value type
    /// of a label.
    ///
    /// # Errors
    /// - [`UnknownLabel`](WordFault::UnknownLabel), [`NotResource`](WordFault::NotResource) or
    ///   [`NotValue`](WordFault::NotValue).
    pub(crate) fn value(&self, word: &str) -> Result<ValueType, WordError>
        ensures { Reads (IsValue (things_of self.now) word.now) result }
    {
        if let Some(primitive) = primitive(word) {
            return Ok(ValueType::Primitive(primitive));
        }
        if let Some(label) = after_prefix(word, "own:") {
            let id = self.resource_of(label)?;
            return Ok(ValueType::Own(id));
        }
        if let Some(label) = after_prefix(word, "borrow:") {
            let id = self.resource_of(label)?;
            return Ok(ValueType::Borrow(id));
        }
        let thing = self.thing(word)?;
        match thing {
            Thing::Value(value) => Ok(value),
            _ => Err(refused(self.alloc, WordFault::NotValue, word)),
        }
    }

    /// Returns the value type of a word, or none for `_`.
    pub(crate) fn payload(&self, word: &str) -> Result<Option<ValueType>, WordError>
        ensures { Reads (IsPayload (things_of self.now) word.now) result }
    {
        match optional(word) {
            Some(word) => {
                let value = self.value(word)?;
                Ok(Some(value))
            }
            None => Ok(None),
        }
    }

    /// Returns the value types of words.
    pub(crate) fn values(&self, words: &[&str]) -> Result<Vec<ValueType>, WordError>
        ensures { MatchResult result (λ values. AreValues (things_of self.now) (spelled words.now) values.items) (IsUnread (SayNone (AreValues (things_of self.now) (spelled words.now)))) }
    {
        let mut values = Vec::new(self.alloc);
        for word in words {
            let value = self.value(word)?;
            values.push(value)?;
        }
        Ok(values)
    }

    /// Returns the names and value types of words `NAME=TYPE`.
    pub(crate) fn fields<'a>(
        &self,
        words: &[&'a str],
    ) -> Result<Vec<(&'a str, ValueType)>, WordError>
        ensures { MatchResult result (λ fields. AreFields (things_of self.now) (spelled words.now) (named_pairs fields.items)) (IsUnread (SayNone (AreFields (things_of self.now) (spelled words.now)))) }
    {
        let mut fields = Vec::new(self.alloc);
        for word in words {
            let (name, ty) = split_pair(self.alloc, word)?;
            let value = self.value(ty)?;
            fields.push((name, value))?;
        }
        Ok(fields)
    }

    /// Returns the name and the payload of a word `NAME` or `NAME=TYPE`.
    fn case<'a>(&self, word: &'a str) -> Result<(&'a str, Option<ValueType>), WordError>
        ensures { MatchResult result (λ case. IsCase (things_of self.now) word.now case.0.now case.1) (IsUnread ((name : Name) → SayNone (IsCase (things_of self.now) word.now name))) }
    {
        match pair(word) {
            Some((name, ty)) => {
                let value = self.value(ty)?;
                Ok((name, Some(value)))
            }
            None => Ok((word, None)),
        }
    }

    /// Returns the names and payloads of words `NAME` or `NAME=TYPE`.
    pub(crate) fn cases<'a>(
        &self,
        words: &[&'a str],
    ) -> Result<Vec<(&'a str, Option<ValueType>)>, WordError>
        ensures { MatchResult result (λ cases. AreCases (things_of self.now) (spelled words.now) (named_pairs cases.items)) (IsUnread (SayNone (AreCases (things_of self.now) (spelled words.now)))) }
    {
        let mut cases = Vec::new(self.alloc);
        for word in words {
            let case = self.case(word)?;
            cases.push(case)?;
        }
        Ok(cases)
    }
}
