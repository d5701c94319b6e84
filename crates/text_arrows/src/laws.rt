//! A law of what `arrows` prints, the contract of a function that does nothing.
ghost use Rattle.std.specs.Prelude.{◌≡◌, List, ℕ};
ghost use Rattle.text_arrows.specs.Printed.{IsAnswer};

/// A text has one answer of `arrows`: each has one, and none has two.
pub fn one_text()
    ensures some { (text : List ℕ) → (output : List ℕ) × IsAnswer text output }
    ensures only { (text one other : List ℕ) → IsAnswer text one → IsAnswer text other → one ≡ other }
{}
