//! Tokens (R7RS 7.1.1).
use ls_base::{Span, Text};

/// What a token is. Symbols, strings and characters are as they are meant, without escapes.
#[derive(Drop)]
pub enum TokenKind {
    /// `(`
    Paren,
    /// `#(`
    VectorParen,
    /// `#u8(`
    BytesParen,
    /// `)`
    Close,
    /// `.`
    Dot,
    /// `'`
    Quote,
    /// `` ` ``
    Quasi,
    /// `,`
    Unquote,
    /// `,@`
    Splice,
    /// `#;`
    Skip,
    /// An identifier; `bars` tells that it stands between bars.
    Name { name: Text, bars: bool },
    /// A number, as it is written.
    Numeral(Text),
    /// A string.
    Quoted(Text),
    /// A character.
    Char(char),
    /// A boolean.
    Bool(bool),
}

/// A token and its bytes in the text.
#[derive(Drop)]
pub struct Token {
    pub kind: TokenKind,
    pub span: Span,
}
