//! Which matches win: for each import of the socket the first in the order of plugs and then of exports.
ghost use Rattle.std.specs.Prelude.{◌≡◌, ◌<◌, ◌++◌, ℕ, Some, IfOk, OnOk, length, map, slice_get};
ghost use Rattle.wac_graph.specs.declared.plugs.matching.Pair.{Pair as APair};
ghost use Rattle.wac_graph.specs.plugs.Precedence.{each_of, named_by};
ghost use Rattle.wac_graph.specs.private.plugs.Pairs.{matches_at, AreWithin};
ghost use Rattle.wac_graph.specs.private.plugs.Ready.{kept};
ghost use Rattle.wac_graph.specs.private.plugs.Taking.{won, lost, marked};

use crate::plugs::Pair;
use std::alloc::{AllocError, Global};
use wac_graph_model::PackageId;
use wac_types::{ItemKind, Named};

/// A match that is not wired, since its import already has an argument.
///
/// The argument is from an earlier plug, or from an earlier export of the same plug.
#[derive(Debug, Drop)]
pub struct PassedOver {
    /// The plug.
    pub plug: PackageId,
    /// The name of the plug's export.
    pub export: String,
    /// The name of the socket's import.
    pub import: String,
}

/// A plug with the matches of its exports that win.
#[derive(Debug, Drop)]
pub struct PlugPairs {
    /// The plug.
    pub plug: PackageId,
    /// The matches.
    pub pairs: Vec<Pair>,
}

/// The matches of one plug, each list in order.
#[derive(Debug, Drop)]
pub struct Division {
    /// The matches that win.
    pub won: Vec<Pair>,
    /// The matches whose import is taken.
    pub lost: Vec<Pair>,
}

/// Divides the matches of a plug by whether their import is taken, and marks the imports of those that win.
pub fn divide(alloc: Global, pairs: &[Pair], taken: &mut Vec<bool>) -> Result<Division, AllocError>
    requires { (i : ℕ) (p : APair) → slice_get pairs.now i ≡ Some p → p.import < length taken.old.items }
    ensures won { IfOk result (λ d. d.won.items ≡ won taken.old.items pairs.now) }
    ensures lost { IfOk result (λ d. d.lost.items ≡ lost taken.old.items pairs.now) }
    ensures marked { OnOk result (taken.new.items ≡ marked taken.old.items pairs.now) }
{
    let mut won = Vec::new(alloc);
    let mut lost = Vec::new(alloc);
    for i in 0..pairs.len() {
        let pair = pairs[i];
        if taken[pair.import] {
            lost.push(pair)?;
        } else {
            taken[pair.import] = true;
            won.push(pair)?;
        }
    }
    Ok(Division { won, lost })
}

/// Appends matches of a plug to those that are passed over.
pub fn pass_over(
    alloc: Global,
    plug: PackageId,
    exports: &Named<ItemKind>,
    imports: &Named<ItemKind>,
    pairs: &[Pair],
    passed: &mut Vec<PassedOver>,
) -> Result<(), AllocError>
    requires { AreWithin exports.now imports.now pairs.now }
    ensures { OnOk result (map named_by passed.new.items ≡ map named_by passed.old.items ++ each_of plug (matches_at exports.now imports.now pairs.now)) }
{
    for i in 0..pairs.len() {
        let pair = pairs[i];
        let export = String::from_str(alloc, exports.name_at(pair.export))?;
        let import = String::from_str(alloc, imports.name_at(pair.import))?;
        passed.push(PassedOver {
            plug,
            export,
            import,
        })?;
    }
    Ok(())
}

/// Appends a plug with its matches, unless it has none.
pub fn keep(wired: &mut Vec<PlugPairs>, plug: PackageId, pairs: Vec<Pair>) -> Result<(), AllocError>
    ensures { OnOk result (wired.new.items ≡ wired.old.items ++ kept plug pairs) }
{
    if pairs.is_empty() {
        return Ok(());
    }
    wired.push(PlugPairs { plug, pairs })?;
    Ok(())
}
