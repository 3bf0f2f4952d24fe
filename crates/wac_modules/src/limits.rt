//! The ranges of limits, for proofs.
//!
//! The range of a number inside an `Option` is known only where the number is read.
ghost use Rattle.std.specs.Prelude.{◌<◌, ◌^◌, IfSome};

/// Proof only: a limit has 64 bits, if there is one (docs/PROOFS.md, 'Laws').
pub(crate) fn long_law(limit: Option<u64>)
    ensures { IfSome limit (λ n. n < 2 ^ 64) }
{
    if let Some(limit) = limit {
        let _limit = limit;
    }
}

/// Proof only: the binary logarithm of a page size has 32 bits, if there is one (docs/PROOFS.md, 'Laws').
pub(crate) fn short_law(limit: Option<u32>)
    ensures { IfSome limit (λ n. n < 2 ^ 32) }
{
    if let Some(limit) = limit {
        let _limit = limit;
    }
}
