//! The encodings in which a client and a server may agree (LSP 3.17, PositionEncodingKind).
ghost use Rattle.std.specs.Prelude.{◌≡◌};

/// What the characters of a position are counted in.
#[derive(Clone, Copy)]
pub enum Encoding {
    /// Bytes of UTF-8.
    Utf8,
    /// Units of UTF-16, which all clients and servers know.
    Utf16,
    /// Characters.
    Utf32,
}

impl Encoding {
    ghost use Rattle.ls_base.specs.Positions.{units_of};

    /// How many units a character has.
    pub fn units(self, c: char) -> usize
        ensures { result ≡ units_of self c }
    {
        match self {
            Encoding::Utf8 => c.len_utf8(),
            Encoding::Utf16 => c.len_utf16(),
            Encoding::Utf32 => 1,
        }
    }
}
