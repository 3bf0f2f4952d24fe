//! What a graph weighs, and what is written of it at most. A function proves its law and does nothing when it runs
//! (docs/PROOFS.md, 'Laws').
ghost use Rattle.wac_graph_model.specs.private.weight.AskedWeight.{AskedIsPaid};
ghost use Rattle.wac_graph_model.specs.private.weight.Costs.{CostsFit};
ghost use Rattle.wac_graph_model.specs.private.weight.Written.{ComponentIsPaid, ComponentsArePart, NamesArePart, NodeIsPart, OrderFits};

/// Proves that the imports of a graph weigh no more than its nodes pay for them.
pub fn asked_weight_law()
    ensures { AskedIsPaid }
{}

/// Proves that what is written of a graph costs no more than its weight allows.
pub fn costs_law()
    ensures { CostsFit }
{}

/// Proves that what is written of a graph, list by list, costs no more than its weight allows.
pub fn order_law()
    ensures fits { OrderFits }
    ensures part { NodeIsPart }
    ensures components { ComponentsArePart }
    ensures component { ComponentIsPaid }
    ensures names { NamesArePart }
{}
