//! Whether bodies are looked at ahead.

/// How the bodies that a piece completes are looked at.
#[derive(Clone, Copy)]
pub enum Looking {
    /// Ahead: those behind a body before it is answered, so that one of them can cancel it.
    Ahead,
    /// One by one, so that none is cancelled.
    OneByOne,
}
