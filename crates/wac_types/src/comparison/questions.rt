//! The questions that a comparison asks.
ghost use Rattle.std.specs.Prelude.{◌≡◌, ◌≢◌, [], Err, OnOk, OnErr};
ghost use Rattle.wac_types.specs.private.comparison.Settling.{AsksTheSame, Puts, PutsPlain};

use crate::comparison::classes::{Classes, Node};
use crate::comparison::fault::TypeFault;
use indexmap::IndexSet;
use std::alloc::Global;
use wac_types_collection::Type;

/// A question: whether the first type is a subtype of the second.
#[derive(Clone, Copy, PartialEq, Eq, Hash)]
pub struct Question {
    /// Whether the first type is of the second collection, and the second type of the first.
    pub turned: bool,
    /// The first type.
    pub first: Type,
    /// The second type.
    pub second: Type,
}

/// The questions asked so far, and the classes of types that are equal if all answers are yes.
#[derive(Drop)]
pub struct Asked {
    /// The questions, in the order in which they were asked.
    pub questions: Vec<Question>,
    /// The questions that are not about equality, so that none is asked twice.
    pub others: IndexSet<Question>,
    /// The classes of types that are equal if all answers are yes.
    pub classes: Classes,
}

impl Asked {
    /// Returns no questions.
    pub fn new(alloc: Global) -> Asked
        ensures questions { result.questions.items ≡ [] }
        ensures others { result.others.keys ≡ [] }
        ensures classes { result.classes.links.entries ≡ [] }
    {
        Asked {
            questions: Vec::new(alloc),
            others: IndexSet::new(alloc),
            classes: Classes::new(alloc),
        }
    }

    /// Asks a question, unless it was asked before. If out of memory, nothing changes.
    pub(crate) fn put(&mut self, question: Question) -> Result<(), TypeFault>
        ensures put { OnOk result (Puts self.old self.new question) }
        ensures refused { OnErr result (AsksTheSame self.old self.new) }
        ensures no_mismatch { result ≢ Err TypeFault.Mismatch }
    {
        if self.questions.reserve(1).is_err() {
            return Err(TypeFault::OutOfMemory);
        }
        match self.others.insert(question) {
            Ok(true) => {
                self.questions.push(question).unwrap();
                Ok(())
            }
            Ok(false) => Ok(()),
            Err(_) => Err(TypeFault::OutOfMemory),
        }
    }

    /// Asks whether two types are equal, unless that follows from earlier questions. If out of memory, nothing changes.
    pub(crate) fn put_plain(&mut self, question: Question) -> Result<(), TypeFault>
        ensures put { OnOk result (PutsPlain self.old self.new question) }
        ensures refused { OnErr result (AsksTheSame self.old self.new) }
        ensures no_mismatch { result ≢ Err TypeFault.Mismatch }
    {
        if self.questions.reserve(1).is_err() || self.classes.reserve().is_err() {
            return Err(TypeFault::OutOfMemory);
        }
        let first = Node {
            turned: question.turned,
            ty: question.first,
        };
        let second = Node {
            turned: !question.turned,
            ty: question.second,
        };
        if self.classes.join(first, second) {
            self.questions.push(question).unwrap();
        }
        Ok(())
    }
}
