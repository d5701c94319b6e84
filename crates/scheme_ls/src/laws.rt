//! Laws of the numbers of runs and of what they count, each the contract of a function that does nothing.
ghost use Rattle.std.specs.Prelude.{◌≡◌, ◌≢◌, ◌⊎◌, List, ℕ};
ghost use Rattle.ls_outside.specs.Counts.{Fails};
ghost use Rattle.scheme_ls.specs.RunOutcome.{RunEnds, Seen, counting};

/// Why a run ends with 3 or 5: a read of the source or a fetch of a file failed in it, or a write.
pub fn faults_have_causes()
    ensures reads { (words : List (List ℕ)) (old new : Seen) → RunEnds words old new 3
        → Fails old.streams.source.faults new.streams.source.faults ⊎ Fails old.files.faults new.files.faults }
    ensures writes { (words : List (List ℕ)) (old new : Seen) → RunEnds words old new 5 → Fails old.streams.sink.faults new.streams.sink.faults }
{}

/// What a run counts is told by its words, by what it read, wrote and asked for, and by its number: two counts with which it can end so
/// are one. Where memory runs out or a write fails, it isn't told by these.
pub fn one_count()
    ensures { (words : List (List ℕ)) (old new : Seen) (steps others : ℕ) (code : ℕ) → code ≢ 4 → code ≢ 5
        → RunEnds words old (counting new steps) code → RunEnds words old (counting new others) code → steps ≡ others }
{}
