//! Laws of what calls on the open scopes are paid by, for proofs (docs/PROOFS.md, 'Laws').

ghost use Rattle.wac_encode_scopes.specs.private.PaidLaws.{PaysBoth, NoRoomBefore, PaysUpTo, NoRoomUpTo, PaysWithMore, NoRoomWithMore, PaysNothing, PaysAtMost, AddsAtMost, StaysPriced, OpensPriced, ClosesPriced};

/// Brings in the laws of what calls on the open scopes are paid by.
pub fn paying_law()
    ensures pays_both { PaysBoth }
    ensures no_room_before { NoRoomBefore }
    ensures pays_up_to { PaysUpTo }
    ensures no_room_up_to { NoRoomUpTo }
    ensures pays_with_more { PaysWithMore }
    ensures no_room_with_more { NoRoomWithMore }
    ensures pays_nothing { PaysNothing }
    ensures pays_at_most { PaysAtMost }
    ensures adds_at_most { AddsAtMost }
    ensures stays_priced { StaysPriced }
{}

/// Brings in that opening and closing scopes keeps which of them may be the root.
pub fn priced_law()
    ensures opens { OpensPriced }
    ensures closes { ClosesPriced }
{}
