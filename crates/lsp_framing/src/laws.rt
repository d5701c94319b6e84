//! Laws of frames, each the contract of a function that does nothing.
ghost use Rattle.std.specs.Prelude.{◌≡◌, ◌≤◌, ◌++◌, [], List, ℕ, length};
ghost use Rattle.std.specs.List.{flat_map, AllByRecursion};
ghost use Rattle.ls_base.specs.Frames.{Fault, End, rest, fault, IsFrames, frame_text, max_body};
ghost use Rattle.lsp_framing.specs.Deframed.{Deframed, After};
ghost use Rattle.lsp_framing.specs.Runs.{Fed, Runs, all_pieces, all_given};

/// Each stream has a reading, and no other.
pub fn one_reading()
    ensures some { (bytes : List ℕ) → (bodies : List (List ℕ)) × (end : End) × IsFrames bytes bodies end }
    ensures only { (bytes : List ℕ) (bodies others : List (List ℕ)) (end other : End) →
        IsFrames bytes bodies end → IsFrames bytes others other → (bodies ≡ others) × (end ≡ other) }
{}

/// However a stream is cut into pieces, its bodies, its rest and its fault are the same.
pub fn any_cut()
    // After any list of pieces the bodies that were given and the end are those of all their bytes.
    ensures run { (fs : List Fed) (start new : Deframed) →
        After [] [] start → Runs start fs new → After (all_pieces fs) (all_given fs) new }

    // Deframers that took the same bytes gave the same bodies and are alike.
    ensures same { (past : List ℕ) (bodies others : List (List ℕ)) (one other : Deframed) →
        After past bodies one → After past others other → (bodies ≡ others) × (one ≡ other) }
{}

/// More bytes take nothing back.
pub fn more_bytes()
    ensures bodies { (bytes more : List ℕ) (bodies all : List (List ℕ)) (end other : End) →
        IsFrames bytes bodies end → IsFrames (bytes ++ more) all other → (new : List (List ℕ)) × (all ≡ bodies ++ new) }
    ensures fault { (bytes more : List ℕ) (bodies : List (List ℕ)) (kind : Fault) (offset : ℕ) →
        IsFrames bytes bodies (fault kind offset) → IsFrames (bytes ++ more) bodies (fault kind offset) }
{}

/// Frames that are written one after another are read again.
pub fn written_again()
    ensures { (bodies : List (List ℕ)) → AllByRecursion (λ body. length body ≤ max_body) bodies →
        IsFrames (flat_map frame_text bodies) bodies (rest []) }
{}
