//! The text that `arrows` says by itself.

/// What `arrows` prints for a text that isn't UTF-8.
pub const NOT_UTF8: &str = "input:0:0: error 13 not UTF-8\n";
