//! The places of tokens, which count from the first token of the form where their text is at home.
ghost use Rattle.std.specs.Prelude.{◌≡◌};
ghost use Rattle.datum_reader.specs.Forms.{place};

use scheme_model::{Home, Occ};

/// The place of a token by its number in the text.
pub fn place(home: Home, token: u32) -> Occ
    ensures { result ≡ place home token }
{
    Occ {
        unit: home.unit,
        form: home.form,
        token: token.saturating_sub(home.first),
    }
}
