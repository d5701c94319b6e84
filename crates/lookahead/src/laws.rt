//! Laws of what is looked at together, each the contract of a function that does nothing.
ghost use Rattle.std.specs.Prelude.{◌≡◌, ◌+◌, [], ◌∷◌, ◌++◌, List, ℕ, None, length, take};
ghost use Rattle.ls_base.specs.Frames.{End};
ghost use Rattle.lookahead.specs.Cancelled.{cancelled_in};
ghost use Rattle.lookahead.specs.Completed.{Complete};
ghost use Rattle.lookahead.specs.Roles.{role_of};
ghost use Rattle.lookahead.specs.declared.role.Role.TheVariants.{Exit};

/// Pieces of a stream complete bodies in one way.
pub fn one_completion()
    ensures some { (pieces : List (List ℕ)) → (given : List (List (List ℕ))) × (end : End) × Complete pieces given end }
    ensures only { (pieces : List (List ℕ)) (given others : List (List (List ℕ))) (end other : End) →
        Complete pieces given end → Complete pieces others other → (given ≡ others) × (end ≡ other) }
{}

/// What can't cancel a request.
pub fn cancelled_by_what_follows()
    // A body that its piece completes alone isn't cancelled.
    ensures alone { (body : List ℕ) → cancelled_in (body ∷ []) ≡ None ∷ [] }

    // Up to an `exit` what stands behind it doesn't matter.
    ensures exit { (before : List (List ℕ)) (exit : List ℕ) (after others : List (List ℕ)) → role_of exit ≡ Exit →
        take (length before + 1) (cancelled_in (before ++ exit ∷ after)) ≡ take (length before + 1) (cancelled_in (before ++ exit ∷ others)) }
{}
