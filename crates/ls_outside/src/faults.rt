//! Counts of faults.
ghost use Rattle.ls_outside.specs.Counts.{Fails};

/// Counts a fault, up to the last value of the count.
pub(crate) fn count_fault(failed: &mut u64)
    ensures { Fails failed.old failed.new }
{
    *failed = failed.saturating_add(1);
}
