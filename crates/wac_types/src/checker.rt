//! Subtyping between items of two collections.
ghost use Rattle.std.specs.Prelude.{◌≡◌, true, false, Err, IfOk};
ghost use Rattle.wac_types.specs.private.comparison.Questions.{first_of_pair, second_of_pair, IsAskableQuestion, IsYes};
ghost use Rattle.wac_types.specs.private.comparison.Settling.{RestsOn};
ghost use Rattle.wac_types_collection.specs.collection.Collection.{holds_type};
ghost use Rattle.wac_types_shapes.specs.shapes.Kinds.{kind_type};
ghost use Rattle.wac_types_collection.specs.subtyping.Subtype.{IsSubtype};

use crate::answers::answer;
use crate::comparison::{Asked, Comparison, Question, TypeFault};
use wac_types_collection::{ItemKind, Types};

/// Decides whether an item is a subtype of another.
#[derive(Clone, Copy, Debug)]
pub struct SubtypeChecker {}

impl SubtypeChecker {
    /// Returns a checker.
    pub fn new() -> SubtypeChecker {
        SubtypeChecker {}
    }

    /// Checks that the item `a` of collection `at` is a subtype of the item `b` of collection `bt`.
    ///
    /// Both items must be of their collections. Each pair of types is compared once; small types are compared wherever
    /// they are mentioned.
    ///
    /// # Errors
    /// - [`Mismatch`](TypeFault::Mismatch) if it is not a subtype.
    /// - [`OutOfMemory`](TypeFault::OutOfMemory) if memory ran out before that was known.
    #[tactic(auto, using(crate::proofs::lemmas::comparison::Comparing::compares_first))]
    pub fn is_subtype(
        &self,
        a: ItemKind,
        at: &Types,
        b: ItemKind,
        bt: &Types,
    ) -> Result<(), TypeFault>
        requires first { holds_type at.now (kind_type a) ≡ true }
        requires second { holds_type bt.now (kind_type b) ≡ true }
        ensures subtype { IfOk result (λ _. IsSubtype at.now a bt.now b) }
        ensures mismatch { result ≡ Err TypeFault.Mismatch → IsSubtype at.now a bt.now b → ⊥ }
    {
        at.law();
        bt.law();
        let comparison = Comparison {
            turned: false,
            first: at,
            second: bt,
        };
        let mut asked = Asked::new(at.allocator());
        comparison.ask_kinds(&mut asked, a, b)?;
        let mut next = 0;
        while next < asked.questions.len() {
            let question = asked.questions[next];
            answer_question(comparison, &mut asked, question)?;
            next += 1;
        }
        Ok(())
    }
}

/// Compares the two types of a question, each of its collection.
fn answer_question(
    comparison: Comparison<'_>,
    asked: &mut Asked,
    question: Question,
) -> Result<(), TypeFault>
    requires ahead { comparison.turned ≡ false }
    requires askable { IsAskableQuestion (comparison.first.now, comparison.second.now) question }
    ensures settled { IfOk result (λ _. RestsOn question.turned (first_of_pair question.turned (comparison.entry.first.now, comparison.entry.second.now)) (second_of_pair question.turned (comparison.entry.first.now, comparison.entry.second.now)) question.first question.second asked.old asked.new (IsYes (comparison.entry.first.now, comparison.entry.second.now) question)) }
    ensures mismatch { result ≡ Err TypeFault.Mismatch → IsYes (comparison.entry.first.now, comparison.entry.second.now) question → ⊥ }
{
    let comparison = if question.turned {
        comparison.turned()
    } else {
        comparison
    };
    answer(comparison, asked, question.first, question.second)
}
