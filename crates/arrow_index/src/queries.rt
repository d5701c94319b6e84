//! The uses of a binder.
ghost use Rattle.std.specs.Prelude.{◌≡◌, ◌≤◌, List, length, not, true, false, IfOk};
ghost use Rattle.std.specs.List.Sorted.{IsPartitionPoint, IsStrictlySortedBy};
ghost use Rattle.std.specs.Ordering.{is_lt};
ghost use Rattle.scheme_model.specs.ProgramArrows.{Arrow, uses_at};
ghost use Rattle.program_leaves.specs.Placed.{occ_cmp};
ghost use Rattle.program_leaves.specs.Pairs.{pair_cmp, AreArrows, AreOccs};

use ls_base::{Items, Mem};
use program_leaves::pairs::Pair;
use scheme_model::Occ;
use std::alloc::Global;

/// Whether the binder of a pair comes before another.
fn is_before(pair: &Pair, binder: Occ) -> bool
    ensures { result ≡ is_lt (occ_cmp pair.now.binder binder) }
{
    pair.binder < binder
}

/// Whether the binder of a pair comes after another.
fn is_after(pair: &Pair, binder: Occ) -> bool
    ensures { result ≡ is_lt (occ_cmp binder pair.now.binder) }
{
    binder < pair.binder
}

/// The place of the first pair whose binder doesn't come before another.
fn first_from(pairs: &[Pair], binder: Occ) -> usize
    requires { IsStrictlySortedBy pair_cmp pairs.now }
    ensures bound { result ≤ length pairs.now }
    ensures point { IsPartitionPoint (λ p. is_lt (occ_cmp p.binder binder) ≡ true) (λ p. is_lt (occ_cmp p.binder binder) ≡ false) pairs.now result }
{
    pairs.partition_point(|pair| is_before(pair, binder))
}

/// The place of the first pair whose binder comes after another.
fn first_after(pairs: &[Pair], binder: Occ) -> usize
    requires { IsStrictlySortedBy pair_cmp pairs.now }
    ensures bound { result ≤ length pairs.now }
    ensures point { IsPartitionPoint (λ p. not (is_lt (occ_cmp binder p.binder)) ≡ true) (λ p. not (is_lt (occ_cmp binder p.binder)) ≡ false) pairs.now result }
{
    pairs.partition_point(|pair| !is_after(pair, binder))
}

/// The uses of a binder, in order.
pub fn uses_of(alloc: Global, pairs: &[Pair], binder: Occ) -> Mem<Items<Occ>>
    requires { IsStrictlySortedBy pair_cmp pairs.now }
    ensures { (arrows : List Arrow) → AreArrows pairs.now arrows → IfOk result (λ uses. AreOccs uses (uses_at arrows binder)) }
{
    let from = first_from(pairs, binder);
    let to = first_after(pairs, binder);
    let mut uses = Items::new(alloc);
    for k in from..to {
        uses.push(pairs[k].target)?;
    }
    Ok(uses)
}
