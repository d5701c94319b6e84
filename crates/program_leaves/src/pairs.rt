//! Arrows.
ghost use Rattle.std.specs.Prelude.{◌↔◌, IfOk};
ghost use Rattle.std.specs.List.{Contains};
ghost use Rattle.std.specs.List.Sorted.{IsStrictlySortedBy};
ghost use Rattle.program_leaves.specs.Pairs.{pair_cmp};
ghost use Rattle.program_leaves.specs.declared.pairs.Pair.{Pair as AnyPair};

use ls_base::{Items, Mem};
use scheme_model::Occ;

/// A binder and a use.
#[derive(Clone, Copy, PartialEq, Eq, PartialOrd, Ord)]
pub struct Pair {
    pub binder: Occ,
    pub target: Occ,
}

/// Pairs in order, each once.
pub fn pairs_in_order(pairs: Vec<Pair>) -> Mem<Items<Pair>>
    ensures { IfOk result (λ sorted. IsStrictlySortedBy pair_cmp sorted × ((q : AnyPair) → Contains sorted q ↔ Contains pairs.items q)) }
{
    let mut pairs = pairs;
    pairs.sort()?;
    pairs.dedup();
    Ok(Items::from_vec(pairs))
}
