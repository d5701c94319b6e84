//! A document as the store keeps it.
ghost use Rattle.std.specs.Prelude.{◌≤◌, length};
ghost use Rattle.ls_base.specs.Limits.{max_text};

use ls_base::Text;

/// The version of an open document, and its text, which isn't longer than the limit.
#[derive(Drop)]
pub struct Kept {
    pub version: i64,
    pub text: Text,
    pub ghost short: { length text ≤ max_text },
}
