//! How often keys are counted.
ghost use Rattle.std.specs.Prelude.{◌≡◌, ◌+◌, ◌-◌, ◌<◌, ◌^◌, if◌then◌else◌, OnOk, OnErr};
ghost use Rattle.std.specs.Ordering.{eq_by_cmp};
ghost use Rattle.lookahead.specs.Counts.{count_at};

use ls_base::Mem;
use std::collections::BTreeMap;

/// Counts a key once more.
pub(crate) fn raise<K: Ord + Drop>(counts: &mut BTreeMap<K, u32>, key: K) -> Mem<()>
    requires { count_at K.cmp counts.old key + 1 < 2 ^ 32 }
    ensures ok { OnOk result ((q : K) → count_at K.cmp counts.new q ≡ count_at K.cmp counts.old q + (if eq_by_cmp K.cmp key q then 1 else 0)) }
    ensures err { OnErr result ((q : K) → count_at K.cmp counts.new q ≡ count_at K.cmp counts.old q) }
{
    let before = counts.get(&key).copied().unwrap_or(0);
    counts.insert(key, before + 1)?;
    Ok(())
}

/// Counts a key once less. A key that isn't counted any more is let go.
pub(crate) fn lower<K: Ord + Drop>(counts: &mut BTreeMap<K, u32>, key: &K)
    ensures { (q : K) → count_at K.cmp counts.new q ≡ count_at K.cmp counts.old q - (if eq_by_cmp K.cmp key.now q then 1 else 0) }
{
    let before = counts.get(key).copied().unwrap_or(0);
    if before <= 1 {
        let _gone = counts.remove(key);
        return;
    }
    if let Some(count) = counts.get_mut(key) {
        *count = before - 1;
    }
}
