//! Value types by their shapes.
ghost use Rattle.wac_script.specs.declared.lines.shapes.Shape.TheVariants as said;
ghost use Rattle.wac_script.specs.labels.Things.{things_of};
ghost use Rattle.wac_script.specs.labels.Shapes.{IsShape, HasFieldsOnce};
ghost use Rattle.wac_script.specs.private.Unread.{ReadsSuch};

use crate::labels::faults::{WordError, WordFault, refused};
use crate::labels::things::Things;
use crate::lines::{Shape, small_number};
use wac_graph::types::{DefinedType, Enum, Flags, Record, Variant};

impl Things {
    /// Returns the value type that words say.
    ///
    /// # Errors
    /// A [`WordError`].
    pub(crate) fn shape(&self, shape: Shape<'_, '_>) -> Result<DefinedType, WordError>
        ensures { ReadsSuch (IsShape (things_of self.now) shape.entry) HasFieldsOnce result }
    {
        match shape {
            Shape::Record(words) => self.record(words),
            Shape::Variant(words) => self.variant(words),
            Shape::Enum(names) => self.enumeration(names),
            Shape::Flags(names) => self.flags(names),
            Shape::Tuple(words) => self.tuple(words),
            Shape::List(word) => Ok(DefinedType::List(self.value(word)?)),
            Shape::FixedSizeList { element, length } => self.fixed_size_list(element, length),
            Shape::Option(word) => Ok(DefinedType::Option(self.value(word)?)),
            Shape::Result { ok, err } => self.result(ok, err),
            Shape::Alias(word) => Ok(DefinedType::Alias(self.value(word)?)),
            Shape::Stream(word) => Ok(DefinedType::Stream(self.payload(word)?)),
            Shape::Future(word) => Ok(DefinedType::Future(self.payload(word)?)),
        }
    }

    /// Returns a record.
    fn record(&self, words: &[&str]) -> Result<DefinedType, WordError>
        ensures { ReadsSuch (IsShape (things_of self.now) (said.Record words.entry)) HasFieldsOnce result }
    {
        let fields = self.fields(words)?;
        let record = Record::new(self.alloc, &fields)?;
        Ok(DefinedType::Record(record))
    }

    /// Returns a variant.
    fn variant(&self, words: &[&str]) -> Result<DefinedType, WordError>
        ensures { ReadsSuch (IsShape (things_of self.now) (said.Variant words.entry)) HasFieldsOnce result }
    {
        let cases = self.cases(words)?;
        let variant = Variant::new(self.alloc, &cases)?;
        Ok(DefinedType::Variant(variant))
    }

    /// Returns an enum.
    fn enumeration(&self, names: &[&str]) -> Result<DefinedType, WordError>
        ensures { ReadsSuch (IsShape (things_of self.now) (said.Enum names.entry)) HasFieldsOnce result }
    {
        let cases = Enum::new(self.alloc, names)?;
        Ok(DefinedType::Enum(cases))
    }

    /// Returns flags.
    fn flags(&self, names: &[&str]) -> Result<DefinedType, WordError>
        ensures { ReadsSuch (IsShape (things_of self.now) (said.Flags names.entry)) HasFieldsOnce result }
    {
        let flags = Flags::new(self.alloc, names)?;
        Ok(DefinedType::Flags(flags))
    }

    /// Returns a tuple.
    fn tuple(&self, words: &[&str]) -> Result<DefinedType, WordError>
        ensures { ReadsSuch (IsShape (things_of self.now) (said.Tuple words.entry)) HasFieldsOnce result }
    {
        let values = self.values(words)?;
        let tuple = DefinedType::tuple(self.alloc, &values)?;
        Ok(tuple)
    }

    /// Returns a list of fixed length.
    fn fixed_size_list(&self, element: &str, length: &str) -> Result<DefinedType, WordError>
        ensures { ReadsSuch (IsShape (things_of self.now) (said.FixedSizeList element.entry length.entry)) HasFieldsOnce result }
    {
        let element = self.value(element)?;
        match small_number(length) {
            Some(length) => Ok(DefinedType::FixedSizeList(element, length)),
            None => Err(refused(self.alloc, WordFault::NotNumber, length)),
        }
    }

    /// Returns a result.
    fn result(&self, ok: &str, err: &str) -> Result<DefinedType, WordError>
        ensures { ReadsSuch (IsShape (things_of self.now) (said.Result ok.entry err.entry)) HasFieldsOnce result }
    {
        let ok = self.payload(ok)?;
        let err = self.payload(err)?;
        Ok(DefinedType::Result { ok, err })
    }
}
