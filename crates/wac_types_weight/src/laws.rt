//! Laws of weights, for proofs. The function proves its laws and does nothing when it runs (docs/PROOFS.md, 'Laws').

ghost use Rattle.wac_types_weight.specs.private.Laws.{WeighsItsParts, NearIsClosed, CoversEnd, CoversResource, CoversMention, NearIsLeast, NearTogether, ScopeWeighsItsParts, PlainHasNone, OwnHasItems, TextIsLess, NestsLess, UsesAreLess, WorldUsesAreLess};

/// Brings in the laws of weights.
pub fn weight_law()
    ensures weighs_its_parts { WeighsItsParts }
    ensures near_is_closed { NearIsClosed }
    ensures covers_end { CoversEnd }
    ensures covers_resource { CoversResource }
    ensures covers_mention { CoversMention }
    ensures near_is_least { NearIsLeast }
    ensures near_together { NearTogether }
    ensures scope_weighs_its_parts { ScopeWeighsItsParts }
    ensures plain_has_none { PlainHasNone }
    ensures own_has_items { OwnHasItems }
    ensures text_is_less { TextIsLess }
    ensures nests_less { NestsLess }
    ensures uses_are_less { UsesAreLess }
    ensures world_uses_are_less { WorldUsesAreLess }
{}
