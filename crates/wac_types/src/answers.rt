//! Comparison of the two types of a question.
ghost use Rattle.std.specs.Prelude.{◌≡◌, true, Err, IfOk};
ghost use Rattle.wac_types_collection.specs.collection.Collection.{holds_type, world_mentions};
ghost use Rattle.wac_types.specs.private.comparison.Compare.{world_in};
ghost use Rattle.wac_types.specs.private.comparison.Questions.{IsEnd, AreHeld};
ghost use Rattle.wac_types.specs.private.comparison.Settling.{Asks, RestsOn};
ghost use Rattle.wac_types_collection.specs.subtyping.Subtype.{Sub, type_tree};

use crate::comparison::{Asked, Comparison, TypeFault, is_module_subtype};
use wac_types_collection::{Type, World};

/// Compares two types and asks about the types that they mention. Neither may be an alias.
#[tactic(auto, using(crate::proofs::lemmas::comparison::Opens::func_held, crate::proofs::lemmas::comparison::Opens::interface_held, crate::proofs::lemmas::comparison::Opens::world_held, crate::proofs::lemmas::comparison::Asking::rests_now, crate::proofs::lemmas::comparison::Values::values_are, crate::proofs::lemmas::comparison::Typing::resources_are, crate::proofs::lemmas::comparison::Typing::interfaces_are, crate::proofs::lemmas::comparison::Typing::worlds_are, crate::proofs::lemmas::comparison::Typing::modules_are, crate::proofs::lemmas::comparison::Typing::answer_funcs, crate::proofs::lemmas::comparison::Typing::answer_interfaces, crate::proofs::lemmas::comparison::Typing::answer_worlds, crate::proofs::lemmas::comparison::Typing::funcs_refuse, crate::proofs::lemmas::comparison::Typing::other_sort, crate::proofs::lemmas::comparison::Typing::no_resource, crate::proofs::lemmas::comparison::Typing::no_func, crate::proofs::lemmas::comparison::Typing::no_value, crate::proofs::lemmas::comparison::Typing::no_interface, crate::proofs::lemmas::comparison::Typing::no_world, crate::proofs::lemmas::comparison::Typing::no_module))]
pub(crate) fn answer(
    comparison: Comparison<'_>,
    asked: &mut Asked,
    a: Type,
    b: Type,
) -> Result<(), TypeFault>
    requires first { holds_type comparison.first.now a ≡ true }
    requires second { holds_type comparison.second.now b ≡ true }
    requires first_end { IsEnd comparison.first.now a }
    requires second_end { IsEnd comparison.second.now b }
    ensures settled { IfOk result (λ _. RestsOn comparison.entry.turned comparison.entry.first.now comparison.entry.second.now a b asked.old asked.new (Sub (type_tree comparison.entry.first.now a) (type_tree comparison.entry.second.now b))) }
    ensures mismatch { result ≡ Err TypeFault.Mismatch → Sub (type_tree comparison.entry.first.now a) (type_tree comparison.entry.second.now b) → ⊥ }
{
    let first = comparison.first;
    let second = comparison.second;
    first.law();
    second.law();
    match (a, b) {
        (Type::Resource(r), Type::Resource(s)) => comparison.ask_resource(r, s),
        (Type::Func(f), Type::Func(g)) => comparison.ask_func(asked, &first[f], &second[g]),
        (Type::Value(v), Type::Value(w)) => comparison.answer_value(asked, v, w),
        (Type::Interface(i), Type::Interface(j)) => {
            comparison.ask_items(asked, &first[i].exports, &second[j].exports)
        }
        (Type::World(w), Type::World(v)) => ask_worlds(comparison, asked, &first[w], &second[v]),
        (Type::Module(m), Type::Module(n)) => {
            if is_module_subtype(&first[m], &second[n]) {
                Ok(())
            } else {
                Err(TypeFault::Mismatch)
            }
        }
        _ => Err(TypeFault::Mismatch),
    }
}

// Asks whether the world `w` is a subtype of `v`.
#[tactic(auto, using(crate::proofs::lemmas::comparison::Subtyping::of_components, crate::proofs::lemmas::comparison::Subtyping::imports_held, crate::proofs::lemmas::comparison::Subtyping::exports_held))]
fn ask_worlds(
    comparison: Comparison<'_>,
    asked: &mut Asked,
    w: &World,
    v: &World,
) -> Result<(), TypeFault>
    requires first { AreHeld comparison.first.now (world_mentions w.now) }
    requires second { AreHeld comparison.second.now (world_mentions v.now) }
    ensures asked { IfOk result (λ _. Asks comparison.entry.turned comparison.entry.first.now comparison.entry.second.now (world_mentions w.now) (world_mentions v.now) asked.old asked.new (Sub (world_in comparison.entry.first.now w.now) (world_in comparison.entry.second.now v.now))) }
    ensures mismatch { result ≡ Err TypeFault.Mismatch → Sub (world_in comparison.entry.first.now w.now) (world_in comparison.entry.second.now v.now) → ⊥ }
{
    let turned = comparison.turned();
    turned.ask_items(asked, &v.imports, &w.imports)?;
    comparison.ask_items(asked, &w.exports, &v.exports)
}
